//! Whether an expression reads memory.

ghost use Rattle.std.specs.Prelude.{◌≡◌};
ghost use Rattle.c_tree.specs.View.{view, view_kind, views};
ghost use Rattle.c_tree.specs.Types.{is_array};
ghost use Rattle.order_rule.specs.Callees.{callees_of};
ghost use Rattle.order_rule.specs.Memory.{env_of};
ghost use Rattle.order_rule.specs.Reading.{reads, reads_in, reads_in_all, reaches, reaches_by};

use crate::callees::{Callees, called};
use crate::memory::Memory;
use crate::writing::in_memory;
use c_tree::{CType, Expr, ExprKind, is_array};

/// Whether the expression reads memory; with `outside` only what lies outside writers and their operands counts.
#[cycle(reads)]
pub fn reads(outside: bool, memory: &Memory, callees: &Callees, e: &Expr) -> bool
    ensures { result ≡ reads outside (env_of memory.now) (callees_of callees.now) (view e.now) }
{
    reads_in(outside, memory, callees, e.ty, &e.kind)
}

#[cycle(reads)]
fn reads_in(outside: bool, memory: &Memory, callees: &Callees, ty: CType, k: &ExprKind) -> bool
    ensures { result ≡ reads_in outside (env_of memory.now) (callees_of callees.now) ty (view_kind k.now) }
{
    match k {
        ExprKind::Name(x) => !is_array(ty) && memory.is_taken(x.bytes()),
        ExprKind::Step(a, _, _) => !(outside && in_memory(memory, a))
            && reads(outside, memory, callees, a),
        ExprKind::Assign(None, a, b) => !(outside && in_memory(memory, a))
            && (reaches(outside, memory, callees, a) || reads(outside, memory, callees, b)),
        ExprKind::Assign(Some(_), a, b) => !(outside && in_memory(memory, a))
            && (reads(outside, memory, callees, a) || reads(outside, memory, callees, b)),
        ExprKind::Call(f, all) => {
            let effects = called(f.bytes(), callees);
            !(outside && effects.stores)
                && (effects.reads || reads_in_all(outside, memory, callees, all.as_slice()))
        }
        ExprKind::Comma(all) => reads_in_all(outside, memory, callees, all.as_slice()),
        ExprKind::Index(_, _) | ExprKind::Deref(_) => true,
        ExprKind::Address(a) => reaches(outside, memory, callees, a),
        ExprKind::Unary(_, a) | ExprKind::Cast(_, a, _) | ExprKind::Half(a, _) => reads(
            outside, memory, callees, a,
        ),
        ExprKind::Binary(_, a, b) | ExprKind::AndThen(a, b) => reads(outside, memory, callees, a)
            || reads(outside, memory, callees, b),
        ExprKind::OrElse(a, b) | ExprKind::PairOf(a, b) => reads(outside, memory, callees, a)
            || reads(outside, memory, callees, b),
        ExprKind::Choice(c, a, b) => reads(outside, memory, callees, c)
            || (reads(outside, memory, callees, a) || reads(outside, memory, callees, b)),
        ExprKind::Const(_) | ExprKind::SizeOfType(_) => false,
        ExprKind::SizeOfName(_) | ExprKind::Str(_) => false,
    }
}

#[cycle(reads)]
fn reads_in_all(outside: bool, memory: &Memory, callees: &Callees, all: &[Expr]) -> bool
    ensures { result ≡ reads_in_all outside (env_of memory.now) (callees_of callees.now) (views all.now) }
{
    for e in all {
        if reads(outside, memory, callees, e) {
            return true;
        }
    }
    false
}

/// Whether what leads to the object reads memory that the expression designates.
#[cycle(reads)]
fn reaches(outside: bool, memory: &Memory, callees: &Callees, e: &Expr) -> bool
    ensures { result ≡ reaches outside (env_of memory.now) (callees_of callees.now) (view e.now) }
{
    reaches_by(outside, memory, callees, &e.kind)
}

#[cycle(reads)]
fn reaches_by(outside: bool, memory: &Memory, callees: &Callees, k: &ExprKind) -> bool
    ensures { result ≡ reaches_by outside (env_of memory.now) (callees_of callees.now) (view_kind k.now) }
{
    match k {
        ExprKind::Index(a, b) => reads(outside, memory, callees, a)
            || reads(outside, memory, callees, b),
        ExprKind::Deref(a) => reads(outside, memory, callees, a),
        ExprKind::Half(a, _) | ExprKind::Cast(_, a, false) => reaches(outside, memory, callees, a),
        _ => false,
    }
}

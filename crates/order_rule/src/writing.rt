//! What an expression changes, and how often a name occurs in it.

ghost use Rattle.std.specs.Prelude.{◌≡◌};
ghost use Rattle.c_tree.specs.View.{view, view_kind, views};
ghost use Rattle.address_taken.specs.Addressed.{is_name};
ghost use Rattle.c_tree.specs.Nodes.{root};
ghost use Rattle.order_rule.specs.Callees.{callees_of};
ghost use Rattle.order_rule.specs.Memory.{env_of};
ghost use Rattle.order_rule.specs.Writing.{is_target, changes, changes_in, changes_in_all, in_memory, in_memory_by, writers, writers_in, writers_in_all};

use crate::callees::{Callees, called};
use crate::memory::Memory;
use crate::times::{Times, once_if, sum};
use c_tree::{Expr, ExprKind, root};

/// Whether the object that is stepped or assigned is the variable of this name.
pub fn is_target(name: &[u8], a: &Expr) -> bool
    ensures { result ≡ is_target name.now (view a.now) }
{
    match &*root(a).kind {
        ExprKind::Name(x) => name == x.bytes(),
        _ => false,
    }
}

/// Whether the expression steps or assigns the variable of this name.
#[cycle(changes)]
pub fn changes(name: &[u8], e: &Expr) -> bool
    ensures { result ≡ changes name.now (view e.now) }
{
    changes_in(name, &e.kind)
}

#[cycle(changes)]
fn changes_in(name: &[u8], k: &ExprKind) -> bool
    ensures { result ≡ changes_in name.now (view_kind k.now) }
{
    match k {
        ExprKind::Step(a, _, _) => is_target(name, a) || changes(name, a),
        ExprKind::Assign(_, a, b) => is_target(name, a) || (changes(name, a) || changes(name, b)),
        ExprKind::Unary(_, a) | ExprKind::Cast(_, a, _) => changes(name, a),
        ExprKind::Deref(a) | ExprKind::Address(a) | ExprKind::Half(a, _) => changes(name, a),
        ExprKind::Binary(_, a, b) | ExprKind::AndThen(a, b) => changes(name, a) || changes(name, b),
        ExprKind::OrElse(a, b) | ExprKind::Index(a, b) => changes(name, a) || changes(name, b),
        ExprKind::PairOf(a, b) => changes(name, a) || changes(name, b),
        ExprKind::Choice(c, a, b) => changes(name, c) || (changes(name, a) || changes(name, b)),
        ExprKind::Comma(all) | ExprKind::Call(_, all) => changes_in_all(name, all.as_slice()),
        ExprKind::Const(_) | ExprKind::Name(_) | ExprKind::SizeOfType(_) => false,
        ExprKind::SizeOfName(_) | ExprKind::Str(_) => false,
    }
}

#[cycle(changes)]
fn changes_in_all(name: &[u8], all: &[Expr]) -> bool
    ensures { result ≡ changes_in_all name.now (views all.now) }
{
    for e in all {
        if changes(name, e) {
            return true;
        }
    }
    false
}

/// Whether the expression designates an object in memory.
#[cycle(in_memory)]
pub fn in_memory(memory: &Memory, e: &Expr) -> bool
    ensures { result ≡ in_memory (env_of memory.now) (view e.now) }
{
    in_memory_by(memory, &e.kind)
}

#[cycle(in_memory)]
fn in_memory_by(memory: &Memory, k: &ExprKind) -> bool
    ensures { result ≡ in_memory_by (env_of memory.now) (view_kind k.now) }
{
    match k {
        ExprKind::Name(x) => memory.is_taken(x.bytes()),
        ExprKind::Index(_, _) | ExprKind::Deref(_) => true,
        ExprKind::Half(a, _) | ExprKind::Cast(_, a, false) => in_memory(memory, a),
        _ => false,
    }
}

/// How many writers the expression has.
#[cycle(writers)]
pub fn writers(memory: &Memory, callees: &Callees, e: &Expr) -> Times
    ensures { result ≡ writers (env_of memory.now) (callees_of callees.now) (view e.now) }
{
    writers_in(memory, callees, &e.kind)
}

#[cycle(writers)]
fn writers_in(memory: &Memory, callees: &Callees, k: &ExprKind) -> Times
    ensures { result ≡ writers_in (env_of memory.now) (callees_of callees.now) (view_kind k.now) }
{
    match k {
        ExprKind::Step(a, _, _) => sum(once_if(in_memory(memory, a)), writers(memory, callees, a)),
        ExprKind::Assign(_, a, b) => sum(
            once_if(in_memory(memory, a)),
            sum(writers(memory, callees, a), writers(memory, callees, b)),
        ),
        ExprKind::Call(f, all) => sum(
            once_if(called(f.bytes(), callees).stores),
            writers_in_all(memory, callees, all.as_slice()),
        ),
        ExprKind::Comma(all) => writers_in_all(memory, callees, all.as_slice()),
        ExprKind::Unary(_, a) | ExprKind::Cast(_, a, _) => writers(memory, callees, a),
        ExprKind::Deref(a) | ExprKind::Address(a) | ExprKind::Half(a, _) => writers(
            memory, callees, a,
        ),
        ExprKind::Binary(_, a, b) | ExprKind::AndThen(a, b) | ExprKind::OrElse(a, b) => sum(
            writers(memory, callees, a),
            writers(memory, callees, b),
        ),
        ExprKind::Index(a, b) | ExprKind::PairOf(a, b) => sum(
            writers(memory, callees, a),
            writers(memory, callees, b),
        ),
        ExprKind::Choice(c, a, b) => sum(
            writers(memory, callees, c),
            sum(writers(memory, callees, a), writers(memory, callees, b)),
        ),
        ExprKind::Const(_) | ExprKind::Name(_) | ExprKind::SizeOfType(_) => Times::Never,
        ExprKind::SizeOfName(_) | ExprKind::Str(_) => Times::Never,
    }
}

#[cycle(writers)]
fn writers_in_all(memory: &Memory, callees: &Callees, all: &[Expr]) -> Times
    ensures { result ≡ writers_in_all (env_of memory.now) (callees_of callees.now) (views all.now) }
{
    let mut total = Times::Never;
    for e in all {
        total = sum(total, writers(memory, callees, e));
    }
    total
}

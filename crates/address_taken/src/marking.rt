//! Marks the names whose address an expression takes.

ghost use Rattle.std.specs.Prelude.{◌≡◌, ◌||◌, OnOk, List, ℕ, option_map};
ghost use Rattle.c_tree.specs.View.{view, view_kind, views};
ghost use Rattle.address_taken.specs.Addressed.{is_name, takes, takes_in, takes_in_all, takes_optional};
ghost use Rattle.address_taken.specs.Marks.{is_marked};

use crate::names::Marks;
use c_tree::{Expr, ExprKind};
use std::alloc::{AllocError, Global};

/// Marks the name that the expression is, if it is one.
fn mark_name(alloc: Global, marks: &mut Marks, e: &Expr) -> Result<(), AllocError>
    ensures { OnOk result ((x : List ℕ) → is_marked marks.new x ≡ (is_name x (view e.now) || is_marked marks.old x)) }
{
    match &*e.kind {
        ExprKind::Name(name) => marks.add(alloc, name.bytes()),
        _ => Ok(()),
    }
}

/// Marks each name of which the expression takes an object's address.
#[cycle(marking)]
pub fn mark_taken(alloc: Global, marks: &mut Marks, e: &Expr) -> Result<(), AllocError>
    ensures { OnOk result ((x : List ℕ) → is_marked marks.new x ≡ (takes x (view e.now) || is_marked marks.old x)) }
{
    mark_taken_in(alloc, marks, &e.kind)
}

#[cycle(marking)]
fn mark_taken_in(alloc: Global, marks: &mut Marks, k: &ExprKind) -> Result<(), AllocError>
    ensures { OnOk result ((x : List ℕ) → is_marked marks.new x ≡ (takes_in x (view_kind k.now) || is_marked marks.old x)) }
{
    match k {
        ExprKind::Unary(_, a) | ExprKind::Step(a, _, _) => mark_taken(alloc, marks, a),
        ExprKind::Cast(_, a, _) | ExprKind::Deref(a) => mark_taken(alloc, marks, a),
        ExprKind::Half(a, _) => mark_taken(alloc, marks, a),
        ExprKind::Binary(_, a, b) | ExprKind::Assign(_, a, b) => {
            mark_taken(alloc, marks, b)?;
            mark_taken(alloc, marks, a)
        }
        ExprKind::AndThen(a, b) | ExprKind::OrElse(a, b) => {
            mark_taken(alloc, marks, b)?;
            mark_taken(alloc, marks, a)
        }
        ExprKind::Index(a, b) | ExprKind::PairOf(a, b) => {
            mark_taken(alloc, marks, b)?;
            mark_taken(alloc, marks, a)
        }
        ExprKind::Choice(c, a, b) => {
            mark_taken(alloc, marks, b)?;
            mark_taken(alloc, marks, a)?;
            mark_taken(alloc, marks, c)
        }
        ExprKind::Address(a) => {
            mark_taken(alloc, marks, a)?;
            mark_name(alloc, marks, a)
        }
        ExprKind::Comma(all) | ExprKind::Call(_, all) => mark_all(alloc, marks, all.as_slice()),
        ExprKind::Const(_) | ExprKind::Name(_) | ExprKind::SizeOfType(_) => Ok(()),
        ExprKind::SizeOfName(_) | ExprKind::Str(_) => Ok(()),
    }
}

#[cycle(marking)]
fn mark_all(alloc: Global, marks: &mut Marks, all: &[Expr]) -> Result<(), AllocError>
    ensures { OnOk result ((x : List ℕ) → is_marked marks.new x ≡ (takes_in_all x (views all.now) || is_marked marks.old x)) }
{
    for e in all {
        mark_taken(alloc, marks, e)?;
    }
    Ok(())
}

/// The same of an expression that may be left out.
pub fn mark_optional(alloc: Global, marks: &mut Marks, e: &Option<Expr>) -> Result<(), AllocError>
    ensures { OnOk result ((x : List ℕ) → is_marked marks.new x ≡ (takes_optional x (option_map view e.now) || is_marked marks.old x)) }
{
    match e {
        None => Ok(()),
        Some(e) => mark_taken(alloc, marks, e),
    }
}

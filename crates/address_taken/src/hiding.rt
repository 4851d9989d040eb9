//! Names that a scope declares are hidden in it, and in sight again outside it.

ghost use Rattle.std.specs.Prelude.{◌≡◌, ◌||◌, ◌&&◌, not, bytes_eq, OnOk, List, ℕ, map};
ghost use Rattle.c_tree.specs.View.{view_declared, view_stmt, view_stmts, view_optional};
ghost use Rattle.address_taken.specs.Addressed.{is_declared, declares, declares_first};
ghost use Rattle.address_taken.specs.Marks.{is_marked, is_among, declared_in};

use crate::names::Marks;
use c_tree::{Declared, Stmt, Text};
use std::alloc::{AllocError, Global};

/// Takes the mark of the object's name away, and keeps the name where it had one.
fn hide(
    alloc: Global,
    marks: &mut Marks,
    hidden: &mut Vec<Text>,
    d: &Declared,
) -> Result<(), AllocError>
    ensures unmarked { OnOk result ((x : List ℕ) → is_marked marks.new x ≡ (not (bytes_eq x (view_declared d.now).name) && is_marked marks.old x)) }
    ensures kept { OnOk result ((x : List ℕ) → (is_marked marks.new x || is_among x hidden.new.items) ≡ (is_marked marks.old x || is_among x hidden.old.items)) }
{
    let was = marks.remove(alloc, d.name.bytes())?;
    if was {
        let name = d.name.copy(alloc)?;
        hidden.push(name)?;
    }
    Ok(())
}

/// The same of each of the objects.
pub fn hide_objects(
    alloc: Global,
    marks: &mut Marks,
    hidden: &mut Vec<Text>,
    all: &[Declared],
) -> Result<(), AllocError>
    ensures unmarked { OnOk result ((x : List ℕ) → is_marked marks.new x ≡ (not (is_declared x (map view_declared all.now)) && is_marked marks.old x)) }
    ensures kept { OnOk result ((x : List ℕ) → (is_marked marks.new x || is_among x hidden.new.items) ≡ (is_marked marks.old x || is_among x hidden.old.items)) }
{
    for d in all {
        hide(alloc, marks, hidden, d)?;
    }
    Ok(())
}

/// The same of each object that the statement declares for those that follow it.
fn hide_declared(
    alloc: Global,
    marks: &mut Marks,
    hidden: &mut Vec<Text>,
    s: &Stmt,
) -> Result<(), AllocError>
    ensures unmarked { OnOk result ((x : List ℕ) → is_marked marks.new x ≡ (not (declares x (view_stmt s.now)) && is_marked marks.old x)) }
    ensures kept { OnOk result ((x : List ℕ) → (is_marked marks.new x || is_among x hidden.new.items) ≡ (is_marked marks.old x || is_among x hidden.old.items)) }
{
    match s {
        Stmt::Declare(all) => hide_objects(alloc, marks, hidden, all.as_slice()),
        _ => Ok(()),
    }
}

/// The same of a statement that may be left out.
pub fn hide_first(
    alloc: Global,
    marks: &mut Marks,
    hidden: &mut Vec<Text>,
    s: &Option<Box<Stmt>>,
) -> Result<(), AllocError>
    ensures unmarked { OnOk result ((x : List ℕ) → is_marked marks.new x ≡ (not (declares_first x (view_optional s.now)) && is_marked marks.old x)) }
    ensures kept { OnOk result ((x : List ℕ) → (is_marked marks.new x || is_among x hidden.new.items) ≡ (is_marked marks.old x || is_among x hidden.old.items)) }
{
    match s {
        None => Ok(()),
        Some(s) => hide_declared(alloc, marks, hidden, s),
    }
}

/// The same of statements in a row.
pub fn hide_all(
    alloc: Global,
    marks: &mut Marks,
    hidden: &mut Vec<Text>,
    all: &[Stmt],
) -> Result<(), AllocError>
    ensures unmarked { OnOk result ((x : List ℕ) → is_marked marks.new x ≡ (not (declared_in x (view_stmts all.now)) && is_marked marks.old x)) }
    ensures kept { OnOk result ((x : List ℕ) → (is_marked marks.new x || is_among x hidden.new.items) ≡ (is_marked marks.old x || is_among x hidden.old.items)) }
{
    for s in all {
        hide_declared(alloc, marks, hidden, s)?;
    }
    Ok(())
}

/// Marks the names that were hidden.
pub fn put_back(alloc: Global, marks: &mut Marks, hidden: &[Text]) -> Result<(), AllocError>
    ensures { OnOk result ((x : List ℕ) → is_marked marks.new x ≡ (is_among x hidden.now || is_marked marks.old x)) }
{
    for name in hidden {
        marks.add(alloc, name.bytes())?;
    }
    Ok(())
}

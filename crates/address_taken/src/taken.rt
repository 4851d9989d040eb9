//! For each object that a function declares, whether its address is taken.
//!
//! The text is walked from its end: at each place the names are marked whose address is taken in what follows in the scope there. So each
//! expression and each declared name is visited once.

ghost use Rattle.std.specs.Prelude.{IfOk, OnOk, ◌≡◌, ◌||◌, ◌&&◌, not, bytes_eq, if◌then◌else◌, map, option_map, true, false, List, ℕ, Bool};
ghost use Rattle.c_tree.specs.View.{view, view_declared, view_stmt, view_stmts, view_optional, view_function};
ghost use Rattle.address_taken.specs.Addressed.{takes, takes_optional, takes_declared, is_declared, declares, declares_first, takes_statement, takes_maybe, takes_statements};
ghost use Rattle.address_taken.specs.Marks.{is_marked, declared_in};
ghost use Rattle.address_taken.specs.Taken.{TakenTrees, Nothing, NoParts, Part, Parts, and_parts, no_more, taken_objects, taken_statement, taken_optional, taken_statements, taken_function, seen, seen_all, seen_function};

use crate::hiding::{hide_all, hide_first, hide_objects, put_back};
use crate::marking::{mark_optional, mark_taken};
use crate::names::Marks;
use c_tree::{Declared, Expr, Function, Stmt};
use std::alloc::{AllocError, Global};

/// Of a statement, whether the address of each object that it declares is taken by what the object's scope has.
#[derive(Drop)]
pub enum Taken {
    /// The statement declares nothing and has no parts.
    Nothing,
    /// A declaration's: one for each declarator, in order.
    Objects(Vec<bool>),
    /// Those of the statement's parts: of a block's statements; of the branches of `if`; of a loop's start, where a `for`
    /// has one, and of its body.
    Parts(Vec<Taken>),
}

/// Of a function, whether the address of each object that it declares is taken by what the object's scope has.
#[derive(Drop)]
pub struct FunctionTaken {
    /// One for each parameter, in order.
    pub params: Vec<bool>,
    /// One for each statement of the body, in order.
    pub body: Vec<Taken>,
}

/// Whether the name of each object is marked.
fn marked_objects(alloc: Global, marks: &Marks, all: &[Declared]) -> Result<Vec<bool>, AllocError>
    ensures { IfOk result (λ v. v.items ≡ map (λ d. is_marked marks.now d.name) (map view_declared all.now)) }
{
    let mut out = Vec::new(alloc);
    for d in all {
        out.push(marks.has(d.name.bytes()))?;
    }
    Ok(out)
}

/// Whether the address of the object is taken: by what it begins with, by what its name is marked for, or later.
fn is_taken(alloc: Global, marks: &mut Marks, d: &Declared, later: bool) -> Result<bool, AllocError>
    ensures answer { IfOk result (λ b. b ≡ ((takes_optional (view_declared d.now).name (view_declared d.now).init || is_marked marks.old (view_declared d.now).name) || later)) }
    ensures marked { OnOk result ((x : List ℕ) → is_marked marks.new x ≡ (not (bytes_eq x (view_declared d.now).name) && (takes_optional x (view_declared d.now).init || is_marked marks.old x))) }
{
    mark_optional(alloc, marks, &d.init)?;
    let taken = marks.remove(alloc, d.name.bytes())?;
    Ok(taken || later)
}

/// Of the objects of a declaration, in a scope with what follows.
fn taken_objects(
    alloc: Global,
    marks: &mut Marks,
    all: &[Declared],
) -> Result<Vec<bool>, AllocError>
    ensures answer { IfOk result (λ v. v.items ≡ taken_objects (map view_declared all.now) (is_marked marks.old)) }
    ensures marked { OnOk result ((x : List ℕ) → is_marked marks.new x ≡ (takes_declared x (map view_declared all.now) || (not (is_declared x (map view_declared all.now)) && is_marked marks.old x))) }
{
    let later = marked_objects(alloc, marks, all)?;
    let mut out = Vec::new(alloc);
    for i in (0..all.len()).rev() {
        out.push(is_taken(alloc, marks, &all[i], later[i])?)?;
    }
    out.reverse();
    Ok(out)
}

/// Of the objects of a declaration that is a scope of its own.
fn taken_alone(alloc: Global, marks: &mut Marks, all: &[Declared]) -> Result<Vec<bool>, AllocError>
    ensures answer { IfOk result (λ v. v.items ≡ taken_objects (map view_declared all.now) no_more) }
    ensures marked { OnOk result ((x : List ℕ) → is_marked marks.new x ≡ (takes_declared x (map view_declared all.now) || is_marked marks.old x)) }
{
    let mut hidden = Vec::new(alloc);
    hide_objects(alloc, marks, &mut hidden, all)?;
    let out = taken_objects(alloc, marks, all)?;
    put_back(alloc, marks, hidden.as_slice())?;
    Ok(out)
}

/// Of the objects of a declaration.
fn taken_declaration(
    alloc: Global,
    marks: &mut Marks,
    all: &[Declared],
    alone: bool,
) -> Result<Vec<bool>, AllocError>
    ensures answer { IfOk result (λ v. v.items ≡ taken_objects (map view_declared all.now) (if alone then no_more else is_marked marks.old)) }
    ensures marked { OnOk result ((x : List ℕ) → is_marked marks.new x ≡ (takes_declared x (map view_declared all.now) || (not (not alone && is_declared x (map view_declared all.now)) && is_marked marks.old x))) }
{
    if alone {
        taken_alone(alloc, marks, all)
    } else {
        taken_objects(alloc, marks, all)
    }
}

/// One part.
fn one_part(alloc: Global, part: Taken) -> Result<Taken, AllocError>
    ensures { IfOk result (λ t. seen t ≡ Parts (Part (seen part) NoParts)) }
{
    let mut parts = Vec::new(alloc);
    parts.push(part)?;
    Ok(Taken::Parts(parts))
}

/// One part, and these behind it.
fn part_and(part: Taken, mut parts: Vec<Taken>) -> Result<Taken, AllocError>
    ensures { IfOk result (λ t. seen t ≡ Parts (Part (seen part) (seen_all parts.items))) }
{
    parts.insert(0, part)?;
    Ok(Taken::Parts(parts))
}

/// These parts, and one behind them.
fn parts_and(mut parts: Vec<Taken>, part: Taken) -> Result<Taken, AllocError>
    ensures { IfOk result (λ t. seen t ≡ Parts (and_parts (map seen parts.items) (Part (seen part) NoParts))) }
{
    parts.push(part)?;
    Ok(Taken::Parts(parts))
}

/// Of an expression statement.
fn taken_run(alloc: Global, marks: &mut Marks, e: &Expr) -> Result<Taken, AllocError>
    ensures answer { IfOk result (λ t. seen t ≡ Nothing) }
    ensures marked { OnOk result ((x : List ℕ) → is_marked marks.new x ≡ (takes x (view e.now) || is_marked marks.old x)) }
{
    mark_taken(alloc, marks, e)?;
    Ok(Taken::Nothing)
}

/// Of `return`, with its value.
fn taken_return(alloc: Global, marks: &mut Marks, e: &Option<Expr>) -> Result<Taken, AllocError>
    ensures answer { IfOk result (λ t. seen t ≡ Nothing) }
    ensures marked { OnOk result ((x : List ℕ) → is_marked marks.new x ≡ (takes_optional x (option_map view e.now) || is_marked marks.old x)) }
{
    mark_optional(alloc, marks, e)?;
    Ok(Taken::Nothing)
}

/// Of a statement, which is alone in its scope or stands there with what follows it.
#[cycle(taken)]
fn taken_statement(
    alloc: Global,
    marks: &mut Marks,
    s: &Stmt,
    alone: bool,
) -> Result<Taken, AllocError>
    ensures answer { IfOk result (λ t. seen t ≡ taken_statement (view_stmt s.now) (if alone then no_more else is_marked marks.old)) }
    ensures marked { OnOk result ((x : List ℕ) → is_marked marks.new x ≡ (takes_statement x (view_stmt s.now) || (not (not alone && declares x (view_stmt s.now)) && is_marked marks.old x))) }
{
    match s {
        Stmt::Declare(all) => {
            let objects = taken_declaration(alloc, marks, all.as_slice(), alone)?;
            Ok(Taken::Objects(objects))
        }
        Stmt::Block(all) => Ok(Taken::Parts(taken_block(alloc, marks, all.as_slice())?)),
        Stmt::If(c, s, other) => {
            let parts = taken_optional(alloc, marks, other, true)?;
            let part = taken_statement(alloc, marks, s, true)?;
            mark_taken(alloc, marks, c)?;
            part_and(part, parts)
        }
        Stmt::While(c, s) => {
            let part = taken_statement(alloc, marks, s, true)?;
            mark_taken(alloc, marks, c)?;
            one_part(alloc, part)
        }
        Stmt::DoWhile(s, c) => {
            mark_taken(alloc, marks, c)?;
            let part = taken_statement(alloc, marks, s, true)?;
            one_part(alloc, part)
        }
        Stmt::For(i, c, n, s) => {
            let mut hidden = Vec::new(alloc);
            hide_first(alloc, marks, &mut hidden, i)?;
            let part = taken_statement(alloc, marks, s, true)?;
            mark_optional(alloc, marks, n)?;
            mark_optional(alloc, marks, c)?;
            let parts = taken_optional(alloc, marks, i, false)?;
            put_back(alloc, marks, hidden.as_slice())?;
            parts_and(parts, part)
        }
        Stmt::Run(e) => taken_run(alloc, marks, e),
        Stmt::Return(_, e) => taken_return(alloc, marks, e),
        Stmt::Break(_) | Stmt::Continue(_) | Stmt::Empty => Ok(Taken::Nothing),
    }
}

/// Of a statement that may be left out: one part, or none.
#[cycle(taken)]
fn taken_optional(
    alloc: Global,
    marks: &mut Marks,
    s: &Option<Box<Stmt>>,
    alone: bool,
) -> Result<Vec<Taken>, AllocError>
    ensures answer { IfOk result (λ v. (more : TakenTrees) → and_parts (map seen v.items) more ≡ taken_optional (view_optional s.now) (if alone then no_more else is_marked marks.old) more) }
    ensures marked { OnOk result ((x : List ℕ) → is_marked marks.new x ≡ (takes_maybe x (view_optional s.now) || (not (not alone && declares_first x (view_optional s.now)) && is_marked marks.old x))) }
{
    let mut parts = Vec::new(alloc);
    match s {
        None => Ok(parts),
        Some(s) => {
            let part = taken_statement(alloc, marks, s, alone)?;
            parts.push(part)?;
            Ok(parts)
        }
    }
}

/// Of the statements of a block.
#[cycle(taken)]
fn taken_block(alloc: Global, marks: &mut Marks, all: &[Stmt]) -> Result<Vec<Taken>, AllocError>
    ensures answer { IfOk result (λ v. seen_all v.items ≡ taken_statements (view_stmts all.now)) }
    ensures marked { OnOk result ((x : List ℕ) → is_marked marks.new x ≡ (takes_statements x (view_stmts all.now) || is_marked marks.old x)) }
{
    let mut hidden = Vec::new(alloc);
    hide_all(alloc, marks, &mut hidden, all)?;
    let parts = taken_statements(alloc, marks, all)?;
    put_back(alloc, marks, hidden.as_slice())?;
    Ok(parts)
}

/// Of statements in a row, where nothing that they declare is marked.
#[cycle(taken)]
fn taken_statements(
    alloc: Global,
    marks: &mut Marks,
    all: &[Stmt],
) -> Result<Vec<Taken>, AllocError>
    requires { (x : List ℕ) → declared_in x (view_stmts all.now) ≡ true → is_marked marks.old x ≡ false }
    ensures answer { IfOk result (λ v. seen_all v.items ≡ taken_statements (view_stmts all.now)) }
    ensures marked { OnOk result ((x : List ℕ) → is_marked marks.new x ≡ (takes_statements x (view_stmts all.now) || (not (declared_in x (view_stmts all.now)) && is_marked marks.old x))) }
{
    let mut out = Vec::new(alloc);
    for i in (0..all.len()).rev() {
        let part = taken_statement(alloc, marks, &all[i], false)?;
        out.push(part)?;
    }
    out.reverse();
    Ok(out)
}

/// For each object of the function, whether its address is taken by what its scope has, and the names of the objects outside the body, as
/// tables, whose address the body takes. The only error is want of memory.
pub fn taken_and_outside(
    alloc: Global,
    function: &Function,
) -> Result<(FunctionTaken, Marks), AllocError>
    ensures answer { IfOk result (λ t. seen_function t.0 ≡ taken_function (view_function function.now)) }
    ensures outside { IfOk result (λ t. (x : List ℕ) → is_marked t.1 x ≡ takes_statements x (view_function function.now).body) }
{
    let mut marks = Marks::new(alloc);
    let body = taken_statements(alloc, &mut marks, function.body.as_slice())?;
    let params = marked_objects(alloc, &marks, function.params.as_slice())?;
    Ok((FunctionTaken { params, body }, marks))
}

/// For each object of the function, whether its address is taken by what its scope has. The only error is want of memory.
pub fn address_taken(alloc: Global, function: &Function) -> Result<FunctionTaken, AllocError>
    ensures { IfOk result (λ t. seen_function t ≡ taken_function (view_function function.now)) }
{
    let (taken, _outside) = taken_and_outside(alloc, function)?;
    Ok(taken)
}

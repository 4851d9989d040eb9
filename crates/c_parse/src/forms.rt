//! Statements, as the parser makes them.

ghost use Rattle.std.specs.Prelude.{◌≡◌, IfOk, map, option_map};
ghost use Rattle.c_tree.specs.Tree.{Declare, Block, If, While, DoWhile, For, Break, Continue, Empty, Absent, Present};
ghost use Rattle.c_tree.specs.View.{view, view_declared, view_stmt, view_stmts, view_optional};

use c_text::Place;
use c_tree::{Declared, Expr, Stmt};
use std::alloc::{AllocError, Global};

#[tactic(auto, using(crate::proofs::SeenStatements::view_declare))]
pub fn declared(all: Vec<Declared>) -> Stmt
    ensures { view_stmt result ≡ Declare (map view_declared all.items) }
{
    Stmt::Declare(all)
}

#[tactic(auto, using(crate::proofs::SeenStatements::view_block))]
pub fn block_of(all: Vec<Stmt>) -> Stmt
    ensures { view_stmt result ≡ Block (view_stmts all.items) }
{
    Stmt::Block(all)
}

pub fn break_at(place: Place) -> Stmt
    ensures { view_stmt result ≡ Break place }
{
    Stmt::Break(place)
}

pub fn continue_at(place: Place) -> Stmt
    ensures { view_stmt result ≡ Continue place }
{
    Stmt::Continue(place)
}

pub fn empty() -> Stmt
    ensures { view_stmt result ≡ Empty }
{
    Stmt::Empty
}

#[tactic(auto, using(crate::proofs::SeenStatements::view_if))]
pub fn if_alone(alloc: Global, test: Expr, body: Stmt) -> Result<Stmt, AllocError>
    ensures { IfOk result (λ s. view_stmt s ≡ If (view test) (view_stmt body) Absent) }
{
    let body = Box::new(alloc, body)?;
    Ok(Stmt::If(test, body, None))
}

#[tactic(auto, using(crate::proofs::SeenStatements::view_if_else))]
pub fn if_else(alloc: Global, test: Expr, body: Stmt, other: Stmt) -> Result<Stmt, AllocError>
    ensures { IfOk result (λ s. view_stmt s ≡ If (view test) (view_stmt body) (Present (view_stmt other))) }
{
    let body = Box::new(alloc, body)?;
    let other = Box::new(alloc, other)?;
    Ok(Stmt::If(test, body, Some(other)))
}

#[tactic(auto, using(crate::proofs::SeenStatements::view_while))]
pub fn while_of(alloc: Global, test: Expr, body: Stmt) -> Result<Stmt, AllocError>
    ensures { IfOk result (λ s. view_stmt s ≡ While (view test) (view_stmt body)) }
{
    let body = Box::new(alloc, body)?;
    Ok(Stmt::While(test, body))
}

#[tactic(auto, using(crate::proofs::SeenStatements::view_do_while))]
pub fn do_while_of(alloc: Global, body: Stmt, test: Expr) -> Result<Stmt, AllocError>
    ensures { IfOk result (λ s. view_stmt s ≡ DoWhile (view_stmt body) (view test)) }
{
    let body = Box::new(alloc, body)?;
    Ok(Stmt::DoWhile(body, test))
}

/// What a `for` has in its brackets: its start, its condition and its step, each where it is written.
#[derive(Drop)]
pub struct Turns {
    pub start: Option<Box<Stmt>>,
    pub test: Option<Expr>,
    pub step: Option<Expr>,
}

#[tactic(auto, using(crate::proofs::SeenStatements::view_for))]
pub fn for_of(alloc: Global, turns: Turns, body: Stmt) -> Result<Stmt, AllocError>
    ensures { IfOk result (λ s. view_stmt s ≡ For (view_optional turns.start) (option_map view turns.test) (option_map view turns.step) (view_stmt body)) }
{
    let body = Box::new(alloc, body)?;
    Ok(Stmt::For(turns.start, turns.test, turns.step, body))
}

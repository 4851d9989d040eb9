//! Statements.

ghost use Rattle.std.specs.Prelude.{◌≡◌, OnOk, IfOk, map, option_map, codes, true, false};
ghost use Rattle.c_tree.specs.View.{view, view_stmt, view_stmts, view_optional};
ghost use Rattle.scopes.specs.Scopes.{env_of, opened};
ghost use Rattle.scopes.specs.Kept.{at_file, is_inside, OnRefusal};
ghost use Rattle.expression_types.specs.Check.{Gives};
ghost use Rattle.statement_types.specs.Statements.{around, beyond, beyond_optional, beyond_all, check_statement, check_optional, check_statements};

use crate::declarations::check_objects;
use crate::parts::{condition, in_a_loop, maybe_condition, maybe_expression, returned};
use c_tree::{CType, Stmt};
use expression_types::{Environment, Fail, check_expression};
use scopes::scopes_end;
use std::alloc::Global;

/// The statement with its types. What it declares stands in the innermost scope then.
#[cycle(check)]
fn statement(
    alloc: Global,
    env: &mut Environment,
    returns: CType,
    looped: bool,
    s: &Stmt,
) -> Result<Stmt, Fail>
    ensures value { Gives view_stmt result (check_statement (view_stmt s.now) (around (env_of env.old) returns looped)) }
    ensures names { IfOk result (λ v. env_of env.new ≡ beyond (view_stmt v) (env_of env.old)) }
    ensures kept { is_inside (env_of env.old) ≡ true → OnRefusal result (at_file (env_of env.new) ≡ at_file (env_of env.old)) }
{
    match s {
        Stmt::Declare(all) => Ok(Stmt::Declare(check_objects(alloc, env, all.as_slice())?)),
        Stmt::Run(e) => Ok(Stmt::Run(check_expression(alloc, &*env, e)?)),
        Stmt::Block(all) => {
            let all = block(alloc, env, returns, looped, all.as_slice())?;
            Ok(Stmt::Block(all))
        }
        Stmt::If(e, s, other) => {
            let e = condition(alloc, &*env, e)?;
            let s = inner(alloc, env, returns, looped, s)?;
            let other = inner_optional(alloc, env, returns, looped, other)?;
            Ok(Stmt::If(e, s, other))
        }
        Stmt::While(e, s) => {
            let e = condition(alloc, &*env, e)?;
            let s = inner(alloc, env, returns, true, s)?;
            Ok(Stmt::While(e, s))
        }
        Stmt::DoWhile(s, e) => {
            let s = inner(alloc, env, returns, true, s)?;
            let e = condition(alloc, &*env, e)?;
            Ok(Stmt::DoWhile(s, e))
        }
        Stmt::For(i, e, n, s) => {
            env.open(alloc)?;
            let i = optional(alloc, env, returns, looped, i)?;
            let e = maybe_condition(alloc, &*env, e)?;
            let n = maybe_expression(alloc, &*env, n)?;
            let s = inner(alloc, env, returns, true, s)?;
            env.close(alloc);
            scopes_end();
            Ok(Stmt::For(i, e, n, s))
        }
        Stmt::Break(place) => in_a_loop(alloc, looped, *place, b"break", Stmt::Break(*place)),
        Stmt::Continue(place) => {
            in_a_loop(alloc, looped, *place, b"continue", Stmt::Continue(*place))
        }
        Stmt::Return(place, e) => {
            let e = returned(alloc, &*env, *place, returns, e)?;
            Ok(Stmt::Return(*place, e))
        }
        Stmt::Empty => Ok(Stmt::Empty),
    }
}

// A statement in a scope of its own.
#[cycle(check)]
fn inner(
    alloc: Global,
    env: &mut Environment,
    returns: CType,
    looped: bool,
    s: &Stmt,
) -> Result<Box<Stmt>, Fail>
    ensures value { Gives (λ b. view_stmt b.value) result (check_statement (view_stmt s.now) (around (opened (env_of env.old)) returns looped)) }
    ensures names { OnOk result (env_of env.new ≡ env_of env.old) }
    ensures kept { OnRefusal result (at_file (env_of env.new) ≡ at_file (env_of env.old)) }
{
    env.open(alloc)?;
    let s = statement(alloc, env, returns, looped, s)?;
    env.close(alloc);
    scopes_end();
    Ok(Box::new(alloc, s)?)
}

// The same of a statement that may be left out.
#[cycle(check)]
fn inner_optional(
    alloc: Global,
    env: &mut Environment,
    returns: CType,
    looped: bool,
    s: &Option<Box<Stmt>>,
) -> Result<Option<Box<Stmt>>, Fail>
    ensures value { Gives view_optional result (check_optional (view_optional s.now) (around (opened (env_of env.old)) returns looped)) }
    ensures names { OnOk result (env_of env.new ≡ env_of env.old) }
    ensures kept { OnRefusal result (at_file (env_of env.new) ≡ at_file (env_of env.old)) }
{
    match s {
        None => Ok(None),
        Some(s) => Ok(Some(inner(alloc, env, returns, looped, s)?)),
    }
}

// A statement that may be left out. What it declares stands in the innermost scope then.
#[cycle(check)]
fn optional(
    alloc: Global,
    env: &mut Environment,
    returns: CType,
    looped: bool,
    s: &Option<Box<Stmt>>,
) -> Result<Option<Box<Stmt>>, Fail>
    ensures value { Gives view_optional result (check_optional (view_optional s.now) (around (env_of env.old) returns looped)) }
    ensures names { IfOk result (λ v. env_of env.new ≡ beyond_optional (view_optional v) (env_of env.old)) }
    ensures kept { is_inside (env_of env.old) ≡ true → OnRefusal result (at_file (env_of env.new) ≡ at_file (env_of env.old)) }
{
    match s {
        None => Ok(None),
        Some(s) => {
            let s = statement(alloc, env, returns, looped, s)?;
            Ok(Some(Box::new(alloc, s)?))
        }
    }
}

// The statements of a block, in a scope of its own.
#[cycle(check)]
fn block(
    alloc: Global,
    env: &mut Environment,
    returns: CType,
    looped: bool,
    all: &[Stmt],
) -> Result<Vec<Stmt>, Fail>
    ensures value { Gives (λ v. view_stmts v.items) result (check_statements (view_stmts all.now) (around (opened (env_of env.old)) returns looped)) }
    ensures names { OnOk result (env_of env.new ≡ env_of env.old) }
    ensures kept { OnRefusal result (at_file (env_of env.new) ≡ at_file (env_of env.old)) }
{
    env.open(alloc)?;
    let out = statements(alloc, env, returns, looped, all)?;
    env.close(alloc);
    scopes_end();
    Ok(out)
}

// Statements in a row. What they declare stands in the innermost scope then.
#[cycle(check)]
fn statements(
    alloc: Global,
    env: &mut Environment,
    returns: CType,
    looped: bool,
    all: &[Stmt],
) -> Result<Vec<Stmt>, Fail>
    ensures value { Gives (λ v. view_stmts v.items) result (check_statements (view_stmts all.now) (around (env_of env.old) returns looped)) }
    ensures names { IfOk result (λ v. env_of env.new ≡ beyond_all (view_stmts v.items) (env_of env.old)) }
    ensures kept { is_inside (env_of env.old) ≡ true → OnRefusal result (at_file (env_of env.new) ≡ at_file (env_of env.old)) }
{
    let mut out = Vec::new(alloc);
    for s in all {
        let v = statement(alloc, env, returns, looped, s)?;
        out.push(v)?;
    }
    Ok(out)
}

/// The statements of a function's body with their types, in the scope of its parameters. The function gives the type `returns`.
pub fn check_body(
    alloc: Global,
    env: &mut Environment,
    returns: CType,
    all: &[Stmt],
) -> Result<Vec<Stmt>, Fail>
    ensures value { Gives (λ v. view_stmts v.items) result (check_statements (view_stmts all.now) (around (env_of env.old) returns false)) }
    ensures names { IfOk result (λ v. env_of env.new ≡ beyond_all (view_stmts v.items) (env_of env.old)) }
    ensures kept { is_inside (env_of env.old) ≡ true → OnRefusal result (at_file (env_of env.new) ≡ at_file (env_of env.old)) }
{
    statements(alloc, env, returns, false, all)
}

//! The expressions of statements.

ghost use Rattle.std.specs.Prelude.{◌≡◌, IfOk, option_map};
ghost use Rattle.c_tree.specs.View.{view, view_stmt};
ghost use Rattle.type_rules.specs.Types.{assigned};
ghost use Rattle.scopes.specs.Scopes.{env_of};
ghost use Rattle.c_text.specs.declared.refusals.Fail.TheVariants.{Refused};
ghost use Rattle.expression_types.specs.Check.{Gives};
ghost use Rattle.statement_types.specs.Statements.{scalar, condition, maybe_condition, maybe_expression, returned_value, returned, in_a_loop};

use c_text::{Refusal, Text};
use c_tree::{CType, Expr, Place, Stmt, fault};
use expression_types::{Environment, Fail, check_expression};
use std::alloc::{AllocError, Global};
use type_rules::{assigned_expr, is_scalar, same_type};

/// The refusal 11 of a word at a place.
pub fn word_fault(alloc: Global, place: Place, word: &[u8]) -> Result<Fail, AllocError>
    ensures { IfOk result (λ f. f ≡ Refused (record { number = 11; place = place; detail = word.now })) }
{
    let detail = Text::new(alloc, word)?;
    Ok(Fail::Refused(Refusal {
        number: 11,
        place,
        detail,
    }))
}

/// The statement, which stands in a loop, or the refusal of its word.
pub fn in_a_loop(
    alloc: Global,
    looped: bool,
    place: Place,
    word: &[u8],
    s: Stmt,
) -> Result<Stmt, Fail>
    ensures value { Gives view_stmt result (in_a_loop looped place word.now (view_stmt s)) }
    ensures same { IfOk result (λ v. v ≡ s) }
{
    if looped {
        Ok(s)
    } else {
        Err(word_fault(alloc, place, word)?)
    }
}

fn scalar(alloc: Global, e: Expr) -> Result<Expr, Fail>
    ensures { Gives view result (scalar (view e)) }
{
    if is_scalar(e.ty) {
        Ok(e)
    } else {
        Err(fault(alloc, 11, e.place, &e.kind)?)
    }
}

/// A condition with its types: an integer or a pointer.
pub fn condition(alloc: Global, env: &Environment, e: &Expr) -> Result<Expr, Fail>
    ensures { Gives view result (condition (view e.now) (env_of env.now)) }
{
    let e = check_expression(alloc, env, e)?;
    scalar(alloc, e)
}

/// A condition that may be left out.
pub fn maybe_condition(
    alloc: Global,
    env: &Environment,
    e: &Option<Expr>,
) -> Result<Option<Expr>, Fail>
    ensures { Gives (λ o. option_map view o) result (maybe_condition (option_map view e.now) (env_of env.now)) }
{
    match e {
        None => Ok(None),
        Some(e) => Ok(Some(condition(alloc, env, e)?)),
    }
}

/// An expression that may be left out.
pub fn maybe_expression(
    alloc: Global,
    env: &Environment,
    e: &Option<Expr>,
) -> Result<Option<Expr>, Fail>
    ensures { Gives (λ o. option_map view o) result (maybe_expression (option_map view e.now) (env_of env.now)) }
{
    match e {
        None => Ok(None),
        Some(e) => Ok(Some(check_expression(alloc, env, e)?)),
    }
}

fn returned_value(alloc: Global, place: Place, t: CType, e: Expr) -> Result<Option<Expr>, Fail>
    ensures { Gives (λ o. option_map view o) result (returned_value place t (assigned t (view e))) }
{
    match assigned_expr(alloc, t, e)? {
        Some(e) => Ok(Some(e)),
        None => Err(word_fault(alloc, place, b"return")?),
    }
}

/// What a function that gives the type `t` returns.
pub fn returned(
    alloc: Global,
    env: &Environment,
    place: Place,
    t: CType,
    e: &Option<Expr>,
) -> Result<Option<Expr>, Fail>
    ensures { Gives (λ o. option_map view o) result (returned place t (option_map view e.now) (env_of env.now)) }
{
    match e {
        None => if same_type(t, CType::Void) {
            Ok(None)
        } else {
            Err(word_fault(alloc, place, b"return")?)
        },
        Some(e) => {
            let e = check_expression(alloc, env, e)?;
            returned_value(alloc, place, t, e)
        }
    }
}

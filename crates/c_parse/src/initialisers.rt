//! Initialisers (C11 6.7.9).

ghost use Rattle.std.specs.Prelude.{◌≡◌, ◌<◌, ◌≤◌, length, map, IfOk, IfSome};
ghost use Rattle.std.specs.Option.{option_copied};
ghost use Rattle.c_tree.specs.View.{view};
ghost use Rattle.c_parse.specs.Reading.{Gives};
ghost use Rattle.c_parse.specs.Objects.{is_equals};
ghost use Rattle.c_parse.specs.DeclarationReading.{past_test, past_member, past_optional, members_front, list_front, initialiser_behind, initialiser_front};
ghost use Rattle.c_parse.specs.DeclarationViews.{view_initial};

use crate::attributes::wanted;
use crate::expressions::assignment;
use crate::nodes::Stuck;
use crate::peeks::past;
use crate::symbols::{Sign, Symbol, token_symbol};
use c_text::{Dialect, Token};
use c_tree::Expr;
use std::alloc::Global;

/// What an object begins with.
#[derive(Drop)]
pub struct Initial {
    /// An expression.
    pub init: Option<Expr>,
    /// The elements of an array.
    pub list: Option<Vec<Expr>>,
}

// What is behind a `=` that comes first.
fn past_equals(dialect: Dialect, tokens: &[Token]) -> Option<&[Token]>
    ensures value { option_copied result ≡ past_test dialect is_equals tokens.now }
    ensures shorter { IfSome result (λ rest. length rest.now < length tokens.now) }
{
    match tokens {
        [] => None,
        [token, rest @ ..] => match token_symbol(dialect, token) {
            Symbol::Assign(None) => Some(rest),
            _ => None,
        },
    }
}

// What is behind a comma that comes first, where no brace closes the list there.
fn past_member(dialect: Dialect, tokens: &[Token]) -> Option<&[Token]>
    ensures value { option_copied result ≡ past_member dialect tokens.now }
    ensures shorter { IfSome result (λ rest. length rest.now < length tokens.now) }
{
    let behind = past(dialect, Sign::Comma, tokens)?;
    match past(dialect, Sign::CloseBrace, behind) {
        Some(_) => None,
        None => Some(behind),
    }
}

// What is behind a comma, if one comes first.
fn past_optional(dialect: Dialect, tokens: &[Token]) -> &[Token]
    ensures value { result.now ≡ past_optional dialect tokens.now }
    ensures shorter { length result.now ≤ length tokens.now }
{
    match past(dialect, Sign::Comma, tokens) {
        Some(behind) => behind,
        None => tokens,
    }
}

// These members of a list, and those behind commas.
#[tactic(auto, using(crate::proofs::DeclarationsShorter::members_eq))]
fn members(
    alloc: Global,
    dialect: Dialect,
    start: Vec<Expr>,
    tokens: &[Token],
) -> Result<(Vec<Expr>, &[Token]), Stuck>
    ensures value { Gives (λ v. map view v.items) result (members_front dialect (map view start.items) tokens.now) }
    ensures shorter { IfOk result (λ x. length x.1.now ≤ length tokens.now) }
{
    let mut all = start;
    let mut left = tokens;
    while let Some(behind) = past_member(dialect, left) {
        let (next, after) = assignment(alloc, dialect, behind)?;
        all.push(next)?;
        left = after;
    }
    Ok((all, left))
}

// A list of initialisers in braces, with a comma behind the last one or without.
fn list(alloc: Global, dialect: Dialect, tokens: &[Token]) -> Result<(Vec<Expr>, &[Token]), Stuck>
    ensures value { Gives (λ v. map view v.items) result (list_front dialect tokens.now) }
    ensures shorter { IfOk result (λ x. length x.1.now < length tokens.now) }
{
    let behind = wanted(dialect, Sign::OpenBrace, tokens)?;
    let (first, after) = assignment(alloc, dialect, behind)?;
    let mut all = Vec::new(alloc);
    all.push(first)?;
    let (all, after) = members(alloc, dialect, all, after)?;
    let behind = wanted(dialect, Sign::CloseBrace, past_optional(dialect, after))?;
    Ok((all, behind))
}

// Behind `=`: a list for an array, else an expression.
fn value(
    alloc: Global,
    dialect: Dialect,
    is_array: bool,
    tokens: &[Token],
) -> Result<(Initial, &[Token]), Stuck>
    ensures value { Gives view_initial result (initialiser_behind dialect is_array tokens.now) }
    ensures shorter { IfOk result (λ x. length x.1.now < length tokens.now) }
{
    if is_array {
        let (all, after) = list(alloc, dialect, tokens)?;
        let begun = Initial {
            init: None,
            list: Some(all),
        };
        Ok((begun, after))
    } else {
        let (init, after) = assignment(alloc, dialect, tokens)?;
        let begun = Initial {
            init: Some(init),
            list: None,
        };
        Ok((begun, after))
    }
}

// The initialiser that comes first, if there is one.
pub fn initialiser(
    alloc: Global,
    dialect: Dialect,
    is_array: bool,
    tokens: &[Token],
) -> Result<(Initial, &[Token]), Stuck>
    ensures value { Gives view_initial result (initialiser_front dialect is_array tokens.now) }
    ensures shorter { IfOk result (λ x. length x.1.now ≤ length tokens.now) }
{
    match past_equals(dialect, tokens) {
        Some(behind) => value(alloc, dialect, is_array, behind),
        None => {
            let nothing = Initial {
                init: None,
                list: None,
            };
            Ok((nothing, tokens))
        }
    }
}

//! The parameters of functions (C11 6.7.6.3).

ghost use Rattle.std.specs.Prelude.{◌≡◌, ◌<◌, ◌≤◌, length, map, IfOk, IfSome};
ghost use Rattle.std.specs.Option.{option_copied};
ghost use Rattle.c_tree.specs.View.{view_declared};
ghost use Rattle.c_parse.specs.Reading.{Gives};
ghost use Rattle.c_parse.specs.DeclarationReading.{past_void, parameter_front, more_parameters, parameters_front};

use crate::attributes::wanted;
use crate::declarators::first_declarator;
use crate::nodes::{Stuck, stuck_at};
use crate::objects::{is_plain, parameter};
use crate::peeks::past;
use crate::specification::specifiers;
use crate::symbols::{Sign, Symbol, TypeWord, token_symbol};
use c_text::{Dialect, Token};
use c_tree::{CType, Declared};
use std::alloc::Global;

// The parameter that comes first.
fn first_parameter(
    alloc: Global,
    dialect: Dialect,
    tokens: &[Token],
) -> Result<(Declared, &[Token]), Stuck>
    ensures value { Gives view_declared result (parameter_front dialect tokens.now) }
    ensures shorter { IfOk result (λ x. length x.1.now < length tokens.now) }
{
    let (said, behind) = specifiers(alloc, dialect, tokens)?;
    if !is_plain(&said) {
        return Err(stuck_at(behind));
    }
    let words = said.words;
    let (declarator, after) = first_declarator(alloc, dialect, said.align, behind)?;
    match parameter(words, declarator) {
        Some(declared) => Ok((declared, after)),
        None => Err(stuck_at(after)),
    }
}

// These parameters, and those behind commas.
#[tactic(auto, using(crate::proofs::DeclarationsShorter::parameters_eq))]
fn more_parameters(
    alloc: Global,
    dialect: Dialect,
    start: Vec<Declared>,
    tokens: &[Token],
) -> Result<(Vec<Declared>, &[Token]), Stuck>
    ensures value { Gives (λ v. map view_declared v.items) result (more_parameters dialect (map view_declared start.items) tokens.now) }
    ensures shorter { IfOk result (λ x. length x.1.now ≤ length tokens.now) }
{
    let mut all = start;
    let mut left = tokens;
    while let Some(behind) = past(dialect, Sign::Comma, left) {
        let (next, after) = first_parameter(alloc, dialect, behind)?;
        all.push(next)?;
        left = after;
    }
    Ok((all, left))
}

// What is behind `void` and a closing bracket that come first.
fn past_void(dialect: Dialect, tokens: &[Token]) -> Option<&[Token]>
    ensures value { option_copied result ≡ past_void dialect tokens.now }
    ensures shorter { IfSome result (λ rest. length rest.now < length tokens.now) }
{
    match tokens {
        [] => None,
        [token, rest @ ..] => match token_symbol(dialect, token) {
            Symbol::Type(TypeWord::Whole(CType::Void)) => past(dialect, Sign::Close, rest),
            _ => None,
        },
    }
}

// The parameters behind a bracket, up to the bracket that closes them. `void` alone stands for none.
pub fn parameters(
    alloc: Global,
    dialect: Dialect,
    tokens: &[Token],
) -> Result<(Vec<Declared>, &[Token]), Stuck>
    ensures value { Gives (λ v. map view_declared v.items) result (parameters_front dialect tokens.now) }
    ensures shorter { IfOk result (λ x. length x.1.now < length tokens.now) }
{
    if let Some(behind) = past(dialect, Sign::Close, tokens) {
        return Ok((Vec::new(alloc), behind));
    }
    if let Some(behind) = past_void(dialect, tokens) {
        return Ok((Vec::new(alloc), behind));
    }
    let (first, after) = first_parameter(alloc, dialect, tokens)?;
    let mut all = Vec::new(alloc);
    all.push(first)?;
    let (all, after) = more_parameters(alloc, dialect, all, after)?;
    let behind = wanted(dialect, Sign::Close, after)?;
    Ok((all, behind))
}

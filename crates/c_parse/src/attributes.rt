//! Alignments and attributes (C11 6.7.5, and the attributes of GNU C).

ghost use Rattle.std.specs.Prelude.{◌≡◌, ◌<◌, ◌≤◌, length, IfOk, IfSome, Some, None, Result, Ok, Err, option_map};
ghost use Rattle.std.specs.Option.{option_copied};
ghost use Rattle.c_tree.specs.View.{view};
ghost use Rattle.c_parse.specs.Reading.{Gives, past};
ghost use Rattle.c_parse.specs.Objects.{is_attribute};
ghost use Rattle.c_parse.specs.DeclarationReading.{Wanted, past_test, past_string, alignment_front, attribute_behind, attribute_front, attributes_front, group_behind, groups_front};

use crate::attribute_names::{AttributeName, attribute_name};
use crate::expressions::assignment;
use crate::nodes::{Stuck, stuck_at};
use crate::peeks::past;
use crate::symbols::{Sign, Symbol, Word, token_symbol};
use c_text::{Dialect, Token, TokenKind};
use c_tree::Expr;
use std::alloc::Global;

// What is behind this sign, which is wanted here.
pub fn wanted(dialect: Dialect, sign: Sign, tokens: &[Token]) -> Result<&[Token], Stuck>
    ensures value { Wanted result (past dialect sign tokens.now) }
    ensures shorter { IfOk result (λ rest. length rest.now < length tokens.now) }
{
    match past(dialect, sign, tokens) {
        Some(behind) => Ok(behind),
        None => Err(stuck_at(tokens)),
    }
}

// An alignment in brackets, behind that which the object has already.
pub fn alignment(
    alloc: Global,
    dialect: Dialect,
    align: Option<Expr>,
    tokens: &[Token],
) -> Result<(Option<Expr>, &[Token]), Stuck>
    ensures value { Gives (option_map view) result (alignment_front dialect (option_map view align) tokens.now) }
    ensures shorter { IfOk result (λ x. length x.1.now < length tokens.now) }
{
    let behind = wanted(dialect, Sign::Open, tokens)?;
    let (found, after) = assignment(alloc, dialect, behind)?;
    let behind = wanted(dialect, Sign::Close, after)?;
    match align {
        None => Ok((Some(found), behind)),
        Some(_) => Err(stuck_at(tokens)),
    }
}

// What is behind a string that comes first.
fn past_string(tokens: &[Token]) -> Option<&[Token]>
    ensures value { option_copied result ≡ past_string tokens.now }
    ensures shorter { IfSome result (λ rest. length rest.now < length tokens.now) }
{
    match tokens {
        [] => None,
        [token, rest @ ..] => match token.kind {
            TokenKind::Str => Some(rest),
            _ => None,
        },
    }
}

// What is behind an attribute's name.
fn argument(
    alloc: Global,
    dialect: Dialect,
    align: Option<Expr>,
    name: AttributeName,
    tokens: &[Token],
) -> Result<(Option<Expr>, &[Token]), Stuck>
    ensures value { Gives (option_map view) result (attribute_behind dialect (option_map view align) name tokens.now) }
    ensures shorter { IfOk result (λ x. length x.1.now ≤ length tokens.now) }
{
    match name {
        AttributeName::Dropped => Ok((align, tokens)),
        AttributeName::Target => {
            let behind = wanted(dialect, Sign::Open, tokens)?;
            let Some(behind) = past_string(behind) else {
                return Err(stuck_at(behind));
            };
            let behind = wanted(dialect, Sign::Close, behind)?;
            Ok((align, behind))
        }
        AttributeName::Aligned => alignment(alloc, dialect, align, tokens),
    }
}

fn attribute(
    alloc: Global,
    dialect: Dialect,
    align: Option<Expr>,
    tokens: &[Token],
) -> Result<(Option<Expr>, &[Token]), Stuck>
    ensures value { Gives (option_map view) result (attribute_front dialect (option_map view align) tokens.now) }
    ensures shorter { IfOk result (λ x. length x.1.now < length tokens.now) }
{
    match tokens {
        [] => Err(stuck_at(tokens)),
        [token, rest @ ..] => match attribute_name(dialect, token) {
            Some(name) => argument(alloc, dialect, align, name, rest),
            None => Err(stuck_at(tokens)),
        },
    }
}

// Attributes behind an attribute, each with a comma before it.
#[tactic(auto, using(crate::proofs::DeclarationsShorter::attributes_eq))]
fn attributes(
    alloc: Global,
    dialect: Dialect,
    align: Option<Expr>,
    tokens: &[Token],
) -> Result<(Option<Expr>, &[Token]), Stuck>
    ensures value { Gives (option_map view) result (attributes_front dialect (option_map view align) tokens.now) }
    ensures shorter { IfOk result (λ x. length x.1.now ≤ length tokens.now) }
{
    let mut found = align;
    let mut left = tokens;
    while let Some(behind) = past(dialect, Sign::Comma, left) {
        let (next, after) = attribute(alloc, dialect, found, behind)?;
        found = next;
        left = after;
    }
    Ok((found, left))
}

// What is behind `__attribute__`, where it comes first.
pub fn past_attribute(dialect: Dialect, tokens: &[Token]) -> Option<&[Token]>
    ensures value { option_copied result ≡ past_test dialect is_attribute tokens.now }
    ensures shorter { IfSome result (λ rest. length rest.now < length tokens.now) }
{
    match tokens {
        [] => None,
        [token, rest @ ..] => match token_symbol(dialect, token) {
            Symbol::Word(Word::Attribute) => Some(rest),
            _ => None,
        },
    }
}

// What stands behind `__attribute__`: one attribute or more in two brackets.
pub fn group(
    alloc: Global,
    dialect: Dialect,
    align: Option<Expr>,
    tokens: &[Token],
) -> Result<(Option<Expr>, &[Token]), Stuck>
    ensures value { Gives (option_map view) result (group_behind dialect (option_map view align) tokens.now) }
    ensures shorter { IfOk result (λ x. length x.1.now < length tokens.now) }
{
    let behind = wanted(dialect, Sign::Open, tokens)?;
    let behind = wanted(dialect, Sign::Open, behind)?;
    let (align, after) = attribute(alloc, dialect, align, behind)?;
    let (align, after) = attributes(alloc, dialect, align, after)?;
    let behind = wanted(dialect, Sign::Close, after)?;
    let behind = wanted(dialect, Sign::Close, behind)?;
    Ok((align, behind))
}

// The attributes that come first, for an object that has this alignment already.
#[tactic(auto, using(crate::proofs::DeclarationsShorter::groups_eq))]
pub fn groups(
    alloc: Global,
    dialect: Dialect,
    align: Option<Expr>,
    tokens: &[Token],
) -> Result<(Option<Expr>, &[Token]), Stuck>
    ensures value { Gives (option_map view) result (groups_front dialect (option_map view align) tokens.now) }
    ensures shorter { IfOk result (λ x. length x.1.now ≤ length tokens.now) }
{
    let mut found = align;
    let mut left = tokens;
    while let Some(behind) = past_attribute(dialect, left) {
        let (next, after) = group(alloc, dialect, found, behind)?;
        found = next;
        left = after;
    }
    Ok((found, left))
}

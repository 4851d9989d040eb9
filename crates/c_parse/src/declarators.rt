//! Declarators (C11 6.7.6).

ghost use Rattle.std.specs.Prelude.{◌≡◌, ◌<◌, ◌≤◌, length, IfOk, IfSome, option_map, false};
ghost use Rattle.std.specs.Option.{option_copied};
ghost use Rattle.c_tree.specs.View.{view};
ghost use Rattle.c_parse.specs.Reading.{Gives, is_star};
ghost use Rattle.c_parse.specs.DeclarationReading.{past_test, qualify, qualifiers_front, pointing_front, brackets_front, declarator_front};
ghost use Rattle.c_parse.specs.DeclarationViews.{view_extent, view_declarator};

use crate::attributes::{groups, wanted};
use crate::expressions::assignment;
use crate::nodes::{Stuck, stuck_at};
use crate::peeks::{name, past};
use crate::symbols::{Infix, Sign, Symbol, token_symbol};
use c_text::{Dialect, Place, Text, Token};
use c_tree::{BinOp, Expr};
use std::alloc::Global;

/// The brackets behind a name.
#[derive(Drop)]
pub enum Extent {
    /// None.
    Single,
    /// `[ ]`.
    Unbounded,
    /// Brackets with a length.
    Bounded(Expr),
}

/// A declarator with the attributes behind it.
#[derive(Drop)]
pub struct Declarator {
    /// With a `*`, whether the pointer is const.
    pub star: Option<bool>,
    /// The place of the name.
    pub place: Place,
    /// The name.
    pub name: Text,
    /// The brackets behind the name.
    pub extent: Extent,
    /// The alignment in bytes, be it from specifiers or from attributes.
    pub align: Option<Expr>,
}

fn qualify(constant: bool, symbol: Symbol) -> Option<bool>
    ensures { result ≡ qualify constant symbol }
{
    match symbol {
        Symbol::Const => Some(true),
        Symbol::Restrict => Some(constant),
        _ => None,
    }
}

// The qualifiers of a pointer that come first: whether it is const, and what is behind them.
fn qualifiers(dialect: Dialect, tokens: &[Token]) -> (bool, &[Token])
    ensures value { (result.0, result.1.now) ≡ qualifiers_front dialect false tokens.now }
    ensures shorter { length result.1.now ≤ length tokens.now }
{
    let mut constant = false;
    let mut left = tokens;
    while let [token, rest @ ..] = left {
        match qualify(constant, token_symbol(dialect, token)) {
            Some(next) => constant = next,
            None => return (constant, left),
        }
        left = rest;
    }
    (constant, left)
}

// What is behind a `*` that comes first.
fn past_star(dialect: Dialect, tokens: &[Token]) -> Option<&[Token]>
    ensures value { option_copied result ≡ past_test dialect is_star tokens.now }
    ensures shorter { IfSome result (λ rest. length rest.now < length tokens.now) }
{
    match tokens {
        [] => None,
        [token, rest @ ..] => match token_symbol(dialect, token) {
            Symbol::Infix(Infix::Operator(BinOp::Mul)) => Some(rest),
            _ => None,
        },
    }
}

// A `*` with its qualifiers, if it comes first: whether the pointer is const, and what is behind them.
pub fn pointing(dialect: Dialect, tokens: &[Token]) -> (Option<bool>, &[Token])
    ensures value { (result.0, result.1.now) ≡ pointing_front dialect tokens.now }
    ensures shorter { length result.1.now ≤ length tokens.now }
{
    match past_star(dialect, tokens) {
        Some(behind) => {
            let (constant, behind) = qualifiers(dialect, behind);
            (Some(constant), behind)
        }
        None => (None, tokens),
    }
}

// The brackets that come first.
fn brackets(alloc: Global, dialect: Dialect, tokens: &[Token]) -> Result<(Extent, &[Token]), Stuck>
    ensures value { Gives view_extent result (brackets_front dialect tokens.now) }
    ensures shorter { IfOk result (λ x. length x.1.now ≤ length tokens.now) }
{
    let Some(behind) = past(dialect, Sign::OpenSquare, tokens) else {
        return Ok((Extent::Single, tokens));
    };
    if let Some(after) = past(dialect, Sign::CloseSquare, behind) {
        return Ok((Extent::Unbounded, after));
    }
    let (length, after) = assignment(alloc, dialect, behind)?;
    let behind = wanted(dialect, Sign::CloseSquare, after)?;
    Ok((Extent::Bounded(length), behind))
}

// A declarator with the attributes behind it, behind specifiers with this alignment.
pub fn first_declarator(
    alloc: Global,
    dialect: Dialect,
    align: Option<Expr>,
    tokens: &[Token],
) -> Result<(Declarator, &[Token]), Stuck>
    ensures value { Gives view_declarator result (declarator_front dialect (option_map view align) tokens.now) }
    ensures shorter { IfOk result (λ x. length x.1.now < length tokens.now) }
{
    let (star, behind) = pointing(dialect, tokens);
    let Some((token, behind)) = name(dialect, behind) else {
        return Err(stuck_at(behind));
    };
    let (extent, after) = brackets(alloc, dialect, behind)?;
    let (align, after) = groups(alloc, dialect, align, after)?;
    let declarator = Declarator {
        star,
        place: token.place,
        name: token.text.copy(alloc)?,
        extent,
        align,
    };
    Ok((declarator, after))
}

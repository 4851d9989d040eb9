//! From tokens to the trees of expressions.

ghost use Rattle.std.specs.Prelude.{◌≡◌, ◌<◌, ◌≤◌, length, IfOk, true, false};
ghost use Rattle.c_tree.specs.View.{view, views};
ghost use Rattle.c_parse.specs.Reading.{Gives, read, Assignment, Conditional, Operators, Operand, Prefixed, Base, Others, expression_with, arguments_with, conditional_from, index_with, postfix_with, pair_with, named_with, size_with, stepped, with_front};

use crate::literals::first_literal;
use crate::nodes::{
    Stuck, assign_node, call_node, cast_node, comma_node, half_node, infix_node, literal_node,
    made, name_node, pair_node, prefix_node, step_node, stuck_at,
};
use crate::pairs::{halved, pair};
use crate::peeks::{
    assigned, cast, infix, level, name, past, place, prefix_operator, step, type_name,
};
use crate::symbols::Sign;
use c_text::{Dialect, Place, Token};
use c_tree::{Expr, ExprKind};
use std::alloc::Global;

// An expression, with commas in it.
#[cycle(parser)]
#[tactic(auto, using(crate::proofs::Equations::no_others, crate::proofs::Equations::some_others, crate::proofs::Equations::stuck_others))]
pub fn expression(
    alloc: Global,
    dialect: Dialect,
    tokens: &[Token],
) -> Result<(Expr, &[Token]), Stuck>
    ensures value { Gives view result (expression_with (read dialect) tokens.now) }
    ensures shorter { IfOk result (λ x. length x.1.now < length tokens.now) }
{
    let (first, behind) = assignment(alloc, dialect, tokens)?;
    match past(dialect, Sign::Comma, behind) {
        Some(_) => {
            let mut all = Vec::new(alloc);
            all.push(first)?;
            let (all, after) = others(alloc, dialect, all, behind)?;
            Ok((comma_node(alloc, place(behind), all)?, after))
        }
        None => Ok((first, behind)),
    }
}

// These expressions, and those behind commas.
#[cycle(parser)]
#[tactic(auto, using(crate::proofs::Equations::others_eq, crate::proofs::Equations::other_read))]
fn others(
    alloc: Global,
    dialect: Dialect,
    start: Vec<Expr>,
    tokens: &[Token],
) -> Result<(Vec<Expr>, &[Token]), Stuck>
    ensures value { Gives (λ v. views v.items) result (with_front start.items (read dialect Others tokens.now)) }
    ensures shorter { IfOk result (λ x. length x.1.now ≤ length tokens.now) }
{
    let mut all = start;
    let mut left = tokens;
    while let Some(behind) = past(dialect, Sign::Comma, left) {
        let (next, after) = assignment(alloc, dialect, behind)?;
        all.push(next)?;
        left = after;
    }
    Ok((all, left))
}

// An expression without commas outside of brackets.
#[cycle(parser)]
#[tactic(auto, using(crate::proofs::Equations::assignment_eq))]
pub fn assignment(
    alloc: Global,
    dialect: Dialect,
    tokens: &[Token],
) -> Result<(Expr, &[Token]), Stuck>
    ensures value { Gives view result (read dialect Assignment tokens.now) }
    ensures shorter { IfOk result (λ x. length x.1.now < length tokens.now) }
{
    let (left, behind) = operand(alloc, dialect, tokens)?;
    match assigned(dialect, tokens, behind) {
        Some((op, after)) => {
            let (right, after) = assignment(alloc, dialect, after)?;
            Ok((assign_node(alloc, place(behind), op, left, right)?, after))
        }
        None => from_operand(alloc, dialect, left, behind),
    }
}

// A conditional expression, behind its first operand.
#[cycle(parser)]
fn from_operand(
    alloc: Global,
    dialect: Dialect,
    start: Expr,
    tokens: &[Token],
) -> Result<(Expr, &[Token]), Stuck>
    ensures value { Gives view result (conditional_from dialect (read dialect) (view start) tokens.now) }
    ensures shorter { IfOk result (λ x. length x.1.now ≤ length tokens.now) }
{
    let (condition, left) = operators(alloc, dialect, 3, start, tokens)?;
    let Some(behind) = past(dialect, Sign::Question, left) else {
        return Ok((condition, left));
    };
    let (first, after) = expression(alloc, dialect, behind)?;
    let Some(behind) = past(dialect, Sign::Colon, after) else {
        return Err(stuck_at(after));
    };
    let (second, after) = conditional(alloc, dialect, behind)?;
    Ok((
        made(
            alloc,
            place(left),
            ExprKind::Choice(condition, first, second),
        )?,
        after,
    ))
}

#[cycle(parser)]
#[tactic(auto, using(crate::proofs::Equations::conditional_eq))]
fn conditional(alloc: Global, dialect: Dialect, tokens: &[Token]) -> Result<(Expr, &[Token]), Stuck>
    ensures value { Gives view result (read dialect Conditional tokens.now) }
    ensures shorter { IfOk result (λ x. length x.1.now < length tokens.now) }
{
    let (first, behind) = operand(alloc, dialect, tokens)?;
    from_operand(alloc, dialect, first, behind)
}

// The operators of this level and tighter ones behind an operand.
#[cycle(parser)]
#[tactic(auto, using(crate::proofs::Equations::operators_eq))]
fn operators(
    alloc: Global,
    dialect: Dialect,
    least: u8,
    start: Expr,
    tokens: &[Token],
) -> Result<(Expr, &[Token]), Stuck>
    ensures value { Gives view result (read dialect (Operators least (view start)) tokens.now) }
    ensures shorter { IfOk result (λ x. length x.1.now ≤ length tokens.now) }
{
    let mut made = start;
    let mut left = tokens;
    while let Some((op, behind)) = infix(dialect, least, left) {
        let (right, after) = operand(alloc, dialect, behind)?;
        let (right, after) = operators(alloc, dialect, level(op) + 1, right, after)?;
        made = infix_node(alloc, place(left), op, made, right)?;
        left = after;
    }
    Ok((made, left))
}

// A cast, or what has an operator before it.
#[cycle(parser)]
#[tactic(auto, using(crate::proofs::Equations::operand_eq))]
fn operand(alloc: Global, dialect: Dialect, tokens: &[Token]) -> Result<(Expr, &[Token]), Stuck>
    ensures value { Gives view result (read dialect Operand tokens.now) }
    ensures shorter { IfOk result (λ x. length x.1.now < length tokens.now) }
{
    match cast(dialect, tokens) {
        Some((ty, behind)) => {
            let (inner, after) = operand(alloc, dialect, behind)?;
            Ok((cast_node(alloc, place(tokens), ty, inner)?, after))
        }
        None => prefixed(alloc, dialect, tokens),
    }
}

#[cycle(parser)]
#[tactic(auto, using(crate::proofs::Equations::prefixed_eq))]
fn prefixed(alloc: Global, dialect: Dialect, tokens: &[Token]) -> Result<(Expr, &[Token]), Stuck>
    ensures value { Gives view result (read dialect Prefixed tokens.now) }
    ensures shorter { IfOk result (λ x. length x.1.now < length tokens.now) }
{
    if let Some((op, behind)) = prefix_operator(dialect, tokens) {
        let (inner, after) = operand(alloc, dialect, behind)?;
        return Ok((prefix_node(alloc, place(tokens), op, inner)?, after));
    }
    if let Some((up, behind)) = step(dialect, tokens) {
        let (inner, after) = prefixed(alloc, dialect, behind)?;
        return Ok((step_node(alloc, place(tokens), up, true, inner)?, after));
    }
    match past(dialect, Sign::SizeOf, tokens) {
        Some(behind) => size(alloc, dialect, place(tokens), behind),
        None => postfix(alloc, dialect, tokens),
    }
}

// Behind `sizeof`, which is at this place.
fn size(
    alloc: Global,
    dialect: Dialect,
    at: Place,
    tokens: &[Token],
) -> Result<(Expr, &[Token]), Stuck>
    ensures value { Gives view result (size_with dialect at tokens.now) }
    ensures shorter { IfOk result (λ x. length x.1.now < length tokens.now) }
{
    if let Some((token, behind)) = name(dialect, tokens) {
        let text = token.text.copy(alloc)?;
        return Ok((
            made(alloc, token.place, ExprKind::SizeOfName(text))?,
            behind,
        ));
    }
    let Some(behind) = past(dialect, Sign::Open, tokens) else {
        return Err(stuck_at(tokens));
    };
    if let Some((token, left)) = name(dialect, behind) {
        let Some(behind) = past(dialect, Sign::Close, left) else {
            return Err(stuck_at(left));
        };
        let text = token.text.copy(alloc)?;
        return Ok((
            made(alloc, token.place, ExprKind::SizeOfName(text))?,
            behind,
        ));
    }
    let Some((ty, left)) = type_name(dialect, behind) else {
        return Err(stuck_at(behind));
    };
    match past(dialect, Sign::Close, left) {
        Some(behind) => Ok((made(alloc, at, ExprKind::SizeOfType(ty))?, behind)),
        None => Err(stuck_at(left)),
    }
}

// A base with `.val[k]` behind it, or with an index and a step, each at most once.
#[cycle(parser)]
fn postfix(alloc: Global, dialect: Dialect, tokens: &[Token]) -> Result<(Expr, &[Token]), Stuck>
    ensures value { Gives view result (postfix_with dialect (read dialect) tokens.now) }
    ensures shorter { IfOk result (λ x. length x.1.now < length tokens.now) }
{
    let (start, behind) = base(alloc, dialect, tokens)?;
    if let Some((which, after)) = halved(dialect, tokens, behind) {
        return Ok((half_node(alloc, place(behind), start, which)?, after));
    }
    let (indexed, left) = index(alloc, dialect, start, behind)?;
    match step(dialect, left) {
        Some((up, after)) => Ok((step_node(alloc, place(left), up, false, indexed)?, after)),
        None => Ok((indexed, left)),
    }
}

#[cycle(parser)]
fn index(
    alloc: Global,
    dialect: Dialect,
    start: Expr,
    tokens: &[Token],
) -> Result<(Expr, &[Token]), Stuck>
    ensures value { Gives view result (index_with dialect (read dialect) (view start) tokens.now) }
    ensures shorter { IfOk result (λ x. length x.1.now ≤ length tokens.now) }
{
    let Some(behind) = past(dialect, Sign::OpenSquare, tokens) else {
        return Ok((start, tokens));
    };
    let (inner, after) = expression(alloc, dialect, behind)?;
    match past(dialect, Sign::CloseSquare, after) {
        Some(behind) => Ok((
            made(alloc, place(tokens), ExprKind::Index(start, inner))?,
            behind,
        )),
        None => Err(stuck_at(after)),
    }
}

#[cycle(parser)]
#[tactic(auto, using(crate::proofs::Equations::base_eq))]
fn base(alloc: Global, dialect: Dialect, tokens: &[Token]) -> Result<(Expr, &[Token]), Stuck>
    ensures value { Gives view result (read dialect Base tokens.now) }
    ensures shorter { IfOk result (λ x. length x.1.now < length tokens.now) }
{
    if let Some((literal, behind)) = first_literal(tokens) {
        return Ok((literal_node(alloc, literal)?, behind));
    }
    if let Some((token, behind)) = name(dialect, tokens) {
        return named(alloc, dialect, token, behind);
    }
    if let Some(behind) = pair(dialect, tokens) {
        return halves(alloc, dialect, place(tokens), behind);
    }
    let Some(behind) = past(dialect, Sign::Open, tokens) else {
        return Err(stuck_at(tokens));
    };
    let (inner, after) = expression(alloc, dialect, behind)?;
    match past(dialect, Sign::Close, after) {
        Some(behind) => Ok((inner, behind)),
        None => Err(stuck_at(after)),
    }
}

// The halves of a pair, which is at this place, behind the first brace.
#[cycle(parser)]
fn halves(
    alloc: Global,
    dialect: Dialect,
    at: Place,
    tokens: &[Token],
) -> Result<(Expr, &[Token]), Stuck>
    ensures value { Gives view result (pair_with dialect (read dialect) at tokens.now) }
    ensures shorter { IfOk result (λ x. length x.1.now < length tokens.now) }
{
    let Some(behind) = past(dialect, Sign::OpenBrace, tokens) else {
        return Err(stuck_at(tokens));
    };
    let (low, after) = assignment(alloc, dialect, behind)?;
    let Some(behind) = past(dialect, Sign::Comma, after) else {
        return Err(stuck_at(after));
    };
    let (high, after) = assignment(alloc, dialect, behind)?;
    let Some(behind) = past(dialect, Sign::CloseBrace, after) else {
        return Err(stuck_at(after));
    };
    match past(dialect, Sign::CloseBrace, behind) {
        Some(after) => Ok((pair_node(alloc, at, low, high)?, after)),
        None => Err(stuck_at(behind)),
    }
}

// A name, or a call of it.
#[cycle(parser)]
fn named<'a>(
    alloc: Global,
    dialect: Dialect,
    token: &Token,
    tokens: &'a [Token],
) -> Result<(Expr, &'a [Token]), Stuck>
    ensures value { Gives view result (named_with dialect (read dialect) token.now tokens.now) }
    ensures shorter { IfOk result (λ x. length x.1.now ≤ length tokens.now) }
{
    match past(dialect, Sign::Open, tokens) {
        Some(behind) => {
            let (all, after) = arguments(alloc, dialect, behind)?;
            Ok((call_node(alloc, token, all)?, after))
        }
        None => Ok((name_node(alloc, token)?, tokens)),
    }
}

// The arguments behind the bracket, and the bracket that closes them.
#[cycle(parser)]
#[tactic(auto, using(crate::proofs::Equations::some_arguments, crate::proofs::Equations::stuck_arguments))]
fn arguments(
    alloc: Global,
    dialect: Dialect,
    tokens: &[Token],
) -> Result<(Vec<Expr>, &[Token]), Stuck>
    ensures value { Gives (λ v. views v.items) result (arguments_with dialect (read dialect) tokens.now) }
    ensures shorter { IfOk result (λ x. length x.1.now < length tokens.now) }
{
    let mut all = Vec::new(alloc);
    if let Some(behind) = past(dialect, Sign::Close, tokens) {
        return Ok((all, behind));
    }
    let (first, behind) = assignment(alloc, dialect, tokens)?;
    all.push(first)?;
    let (all, after) = others(alloc, dialect, all, behind)?;
    match past(dialect, Sign::Close, after) {
        Some(behind) => Ok((all, behind)),
        None => Err(stuck_at(after)),
    }
}

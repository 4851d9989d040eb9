//! From tokens to statements (C11 6.8).

ghost use Rattle.std.specs.Prelude.{◌≡◌, ◌<◌, ◌≤◌, length, IfOk, map, option_map};
ghost use Rattle.c_tree.specs.View.{view, view_stmt, view_stmts, view_optional};
ghost use Rattle.c_tree.specs.Tree.{Return};
ghost use Rattle.c_parse.specs.Reading.{Gives};
ghost use Rattle.c_parse.specs.StatementReading.{condition_front, part_front, run_front, declare_front, plain_front, start_front, turns_front, if_with, while_with, do_with, for_with, word_front, return_front, statement_of, statements_of};

use crate::beginnings::{ahead, past_word};
use crate::declarations::declaration;
use crate::expressions::expression;
use crate::forms::{
    Turns, block_of, break_at, continue_at, declared, do_while_of, empty, for_of, if_alone,
    if_else, while_of,
};
use crate::nodes::{Stuck, stuck_at};
use crate::peeks::{first, past};
use crate::specification::begins_declaration;
use crate::symbols::{Sign, Symbol, Word};
use c_text::{Dialect, Place, Token};
use c_tree::{Expr, Stmt};
use std::alloc::Global;

// An expression in brackets.
fn condition(alloc: Global, dialect: Dialect, tokens: &[Token]) -> Result<(Expr, &[Token]), Stuck>
    ensures value { Gives view result (condition_front dialect tokens.now) }
    ensures shorter { IfOk result (λ x. length x.1.now < length tokens.now) }
{
    let Some(behind) = past(dialect, Sign::Open, tokens) else {
        return Err(stuck_at(tokens));
    };
    let (test, after) = expression(alloc, dialect, behind)?;
    match past(dialect, Sign::Close, after) {
        Some(behind) => Ok((test, behind)),
        None => Err(stuck_at(after)),
    }
}

// An expression that may be left out, and this sign behind it.
fn part(
    alloc: Global,
    dialect: Dialect,
    sign: Sign,
    tokens: &[Token],
) -> Result<(Option<Expr>, &[Token]), Stuck>
    ensures value { Gives (option_map view) result (part_front dialect sign tokens.now) }
    ensures shorter { IfOk result (λ x. length x.1.now < length tokens.now) }
{
    if let Some(behind) = past(dialect, sign, tokens) {
        return Ok((None, behind));
    }
    let (value, after) = expression(alloc, dialect, tokens)?;
    match past(dialect, sign, after) {
        Some(behind) => Ok((Some(value), behind)),
        None => Err(stuck_at(after)),
    }
}

// An expression and a `;`.
fn run(alloc: Global, dialect: Dialect, tokens: &[Token]) -> Result<(Stmt, &[Token]), Stuck>
    ensures value { Gives view_stmt result (run_front dialect tokens.now) }
    ensures shorter { IfOk result (λ x. length x.1.now < length tokens.now) }
{
    let (value, after) = expression(alloc, dialect, tokens)?;
    match past(dialect, Sign::Semicolon, after) {
        Some(behind) => Ok((Stmt::Run(value), behind)),
        None => Err(stuck_at(after)),
    }
}

fn declare(alloc: Global, dialect: Dialect, tokens: &[Token]) -> Result<(Stmt, &[Token]), Stuck>
    ensures value { Gives view_stmt result (declare_front dialect tokens.now) }
    ensures shorter { IfOk result (λ x. length x.1.now < length tokens.now) }
{
    let (all, after) = declaration(alloc, dialect, tokens)?;
    Ok((declared(all), after))
}

// A declaration or an expression.
fn plain(alloc: Global, dialect: Dialect, tokens: &[Token]) -> Result<(Stmt, &[Token]), Stuck>
    ensures value { Gives view_stmt result (plain_front dialect tokens.now) }
    ensures shorter { IfOk result (λ x. length x.1.now < length tokens.now) }
{
    if begins_declaration(first(dialect, tokens)) {
        declare(alloc, dialect, tokens)
    } else {
        run(alloc, dialect, tokens)
    }
}

// What a `for` begins with.
fn start(
    alloc: Global,
    dialect: Dialect,
    tokens: &[Token],
) -> Result<(Option<Box<Stmt>>, &[Token]), Stuck>
    ensures value { Gives (λ s. view_optional s) result (start_front dialect tokens.now) }
    ensures shorter { IfOk result (λ x. length x.1.now < length tokens.now) }
{
    if begins_declaration(first(dialect, tokens)) {
        let (first, after) = declare(alloc, dialect, tokens)?;
        return Ok((Some(Box::new(alloc, first)?), after));
    }
    let (value, after) = part(alloc, dialect, Sign::Semicolon, tokens)?;
    match value {
        Some(value) => Ok((Some(Box::new(alloc, Stmt::Run(value))?), after)),
        None => Ok((None, after)),
    }
}

// The brackets of a `for`.
fn turns(alloc: Global, dialect: Dialect, tokens: &[Token]) -> Result<(Turns, &[Token]), Stuck>
    ensures value { Gives (λ h. (view_optional h.start, option_map view h.test, option_map view h.step)) result (turns_front dialect tokens.now) }
    ensures shorter { IfOk result (λ x. length x.1.now < length tokens.now) }
{
    let Some(behind) = past(dialect, Sign::Open, tokens) else {
        return Err(stuck_at(tokens));
    };
    let (start, after) = start(alloc, dialect, behind)?;
    let (test, after) = part(alloc, dialect, Sign::Semicolon, after)?;
    let (step, after) = part(alloc, dialect, Sign::Close, after)?;
    Ok((Turns { start, test, step }, after))
}

// A statement of one word, behind that.
fn alone(dialect: Dialect, statement: Stmt, tokens: &[Token]) -> Result<(Stmt, &[Token]), Stuck>
    ensures value { Gives view_stmt result (word_front dialect (view_stmt statement) tokens.now) }
    ensures shorter { IfOk result (λ x. length x.1.now < length tokens.now) }
{
    match past(dialect, Sign::Semicolon, tokens) {
        Some(behind) => Ok((statement, behind)),
        None => Err(stuck_at(tokens)),
    }
}

// Behind a `return` at this place.
fn returned(
    alloc: Global,
    dialect: Dialect,
    place: Place,
    tokens: &[Token],
) -> Result<(Stmt, &[Token]), Stuck>
    ensures value { Gives view_stmt result (return_front dialect place tokens.now) }
    ensures shorter { IfOk result (λ x. length x.1.now < length tokens.now) }
{
    let (value, after) = part(alloc, dialect, Sign::Semicolon, tokens)?;
    Ok((Stmt::Return(place, value), after))
}

#[cycle(statements)]
#[tactic(auto, using(crate::proofs::StatementsStable::statement_eq))]
fn statement(alloc: Global, dialect: Dialect, tokens: &[Token]) -> Result<(Stmt, &[Token]), Stuck>
    ensures value { Gives view_stmt result (statement_of dialect tokens.now) }
    ensures shorter { IfOk result (λ x. length x.1.now < length tokens.now) }
{
    let Some((symbol, place, behind)) = ahead(dialect, tokens) else {
        return plain(alloc, dialect, tokens);
    };
    match symbol {
        Symbol::Word(Word::If) => conditional(alloc, dialect, behind),
        Symbol::Word(Word::While) => while_loop(alloc, dialect, behind),
        Symbol::Word(Word::Do) => do_loop(alloc, dialect, behind),
        Symbol::Word(Word::For) => for_loop(alloc, dialect, behind),
        Symbol::Word(Word::Break) => alone(dialect, break_at(place), behind),
        Symbol::Word(Word::Continue) => alone(dialect, continue_at(place), behind),
        Symbol::Word(Word::Return) => returned(alloc, dialect, place, behind),
        Symbol::Sign(Sign::OpenBrace) => {
            let (all, after) = block(alloc, dialect, behind)?;
            Ok((block_of(all), after))
        }
        Symbol::Sign(Sign::Semicolon) => Ok((empty(), behind)),
        _ => plain(alloc, dialect, tokens),
    }
}

// Behind an `if`.
#[cycle(statements)]
fn conditional(alloc: Global, dialect: Dialect, tokens: &[Token]) -> Result<(Stmt, &[Token]), Stuck>
    ensures value { Gives view_stmt result (if_with dialect (statement_of dialect) tokens.now) }
    ensures shorter { IfOk result (λ x. length x.1.now < length tokens.now) }
{
    let (test, after) = condition(alloc, dialect, tokens)?;
    let (body, after) = statement(alloc, dialect, after)?;
    match past_word(dialect, Word::Else, after) {
        Some(behind) => {
            let (other, after) = statement(alloc, dialect, behind)?;
            Ok((if_else(alloc, test, body, other)?, after))
        }
        None => Ok((if_alone(alloc, test, body)?, after)),
    }
}

// Behind a `while`.
#[cycle(statements)]
fn while_loop(alloc: Global, dialect: Dialect, tokens: &[Token]) -> Result<(Stmt, &[Token]), Stuck>
    ensures value { Gives view_stmt result (while_with dialect (statement_of dialect) tokens.now) }
    ensures shorter { IfOk result (λ x. length x.1.now < length tokens.now) }
{
    let (test, after) = condition(alloc, dialect, tokens)?;
    let (body, after) = statement(alloc, dialect, after)?;
    Ok((while_of(alloc, test, body)?, after))
}

// Behind a `do`.
#[cycle(statements)]
fn do_loop(alloc: Global, dialect: Dialect, tokens: &[Token]) -> Result<(Stmt, &[Token]), Stuck>
    ensures value { Gives view_stmt result (do_with dialect (statement_of dialect) tokens.now) }
    ensures shorter { IfOk result (λ x. length x.1.now < length tokens.now) }
{
    let (body, after) = statement(alloc, dialect, tokens)?;
    let Some(behind) = past_word(dialect, Word::While, after) else {
        return Err(stuck_at(after));
    };
    let (test, after) = condition(alloc, dialect, behind)?;
    match past(dialect, Sign::Semicolon, after) {
        Some(behind) => Ok((do_while_of(alloc, body, test)?, behind)),
        None => Err(stuck_at(after)),
    }
}

// Behind a `for`.
#[cycle(statements)]
fn for_loop(alloc: Global, dialect: Dialect, tokens: &[Token]) -> Result<(Stmt, &[Token]), Stuck>
    ensures value { Gives view_stmt result (for_with dialect (statement_of dialect) tokens.now) }
    ensures shorter { IfOk result (λ x. length x.1.now < length tokens.now) }
{
    let (turns, after) = turns(alloc, dialect, tokens)?;
    let (body, after) = statement(alloc, dialect, after)?;
    Ok((for_of(alloc, turns, body)?, after))
}

// The statements up to the brace that closes the block, and what is behind it.
#[cycle(statements)]
#[tactic(auto, using(crate::proofs::StatementsStable::statements_eq, crate::proofs::StatementsGrow::block_step))]
pub fn block(
    alloc: Global,
    dialect: Dialect,
    tokens: &[Token],
) -> Result<(Vec<Stmt>, &[Token]), Stuck>
    ensures value { Gives (λ v. view_stmts v.items) result (statements_of dialect tokens.now) }
    ensures shorter { IfOk result (λ x. length x.1.now < length tokens.now) }
{
    let mut all = Vec::new(alloc);
    let mut left = tokens;
    loop {
        if let Some(behind) = past(dialect, Sign::CloseBrace, left) {
            return Ok((all, behind));
        }
        let (next, after) = statement(alloc, dialect, left)?;
        all.push(next)?;
        left = after;
    }
}

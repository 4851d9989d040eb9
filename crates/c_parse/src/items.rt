//! From tokens to the functions and tables of a unit (C11 6.9).

ghost use Rattle.std.specs.Prelude.{◌≡◌, ◌<◌, length, IfOk, map, option_map};
ghost use Rattle.c_tree.specs.View.{view_function, view_item, view_stmts};
ghost use Rattle.c_parse.specs.Reading.{Gives};
ghost use Rattle.c_parse.specs.Items.{with_body};
ghost use Rattle.c_parse.specs.ItemReading.{GivesAll, added, body_front, table_front, item_front, unit_of};

use crate::declarations::{heading, object};
use crate::nodes::{Stuck, stuck_at};
use crate::peeks::past;
use crate::statements::block;
use crate::symbols::Sign;
use c_text::{Dialect, Token};
use c_tree::{Function, Item, Stmt};
use std::alloc::{AllocError, Global};

// A heading with this body.
fn with_body(heading: Function, body: Vec<Stmt>) -> Function
    ensures { view_function result ≡ with_body (view_function heading) (view_stmts body.items) }
{
    let mut function = heading;
    function.body = body;
    function
}

// Behind a heading: the `;` of a prototype, which is nothing, or the body.
fn body(
    alloc: Global,
    dialect: Dialect,
    start: Function,
    tokens: &[Token],
) -> Result<(Option<Item>, &[Token]), Stuck>
    ensures value { Gives (option_map view_item) result (body_front dialect (view_function start) tokens.now) }
    ensures shorter { IfOk result (λ x. length x.1.now < length tokens.now) }
{
    if let Some(behind) = past(dialect, Sign::Semicolon, tokens) {
        return Ok((None, behind));
    }
    let Some(behind) = past(dialect, Sign::OpenBrace, tokens) else {
        return Err(stuck_at(tokens));
    };
    let (statements, after) = block(alloc, dialect, behind)?;
    Ok((Some(Item::Function(with_body(start, statements))), after))
}

fn table(
    alloc: Global,
    dialect: Dialect,
    tokens: &[Token],
) -> Result<(Option<Item>, &[Token]), Stuck>
    ensures value { Gives (option_map view_item) result (table_front dialect tokens.now) }
    ensures shorter { IfOk result (λ x. length x.1.now < length tokens.now) }
{
    let ((object, is_static), after) = object(alloc, dialect, tokens)?;
    Ok((Some(Item::Table(object, is_static)), after))
}

// An item, and what is behind it. A stray `;` and a prototype are nothing.
fn item(
    alloc: Global,
    dialect: Dialect,
    tokens: &[Token],
) -> Result<(Option<Item>, &[Token]), Stuck>
    ensures value { Gives (option_map view_item) result (item_front dialect tokens.now) }
    ensures shorter { IfOk result (λ x. length x.1.now < length tokens.now) }
{
    if let Some(behind) = past(dialect, Sign::Semicolon, tokens) {
        return Ok((None, behind));
    }
    match heading(alloc, dialect, tokens) {
        Ok((start, after)) => body(alloc, dialect, start, after),
        Err(Stuck::Memory) => Err(Stuck::Memory),
        Err(Stuck::Syntax(left)) => match table(alloc, dialect, tokens) {
            Ok(found) => Ok(found),
            Err(Stuck::Memory) => Err(Stuck::Memory),
            Err(Stuck::Syntax(other)) => Err(Stuck::Syntax(if other < left {
                other
            } else {
                left
            })),
        },
    }
}

// One more at the end, if there is one.
fn grown(all: Vec<Item>, next: Option<Item>) -> Result<Vec<Item>, AllocError>
    ensures { IfOk result (λ v. map view_item v.items ≡ added (map view_item all.items) (option_map view_item next)) }
{
    let mut all = all;
    if let Some(next) = next {
        all.push(next)?;
    }
    Ok(all)
}

/// The functions and tables of all of the tokens.
#[tactic(auto, using(crate::proofs::ItemsGrow::items_stuck))]
pub fn items(alloc: Global, dialect: Dialect, tokens: &[Token]) -> Result<Vec<Item>, Stuck>
    ensures { GivesAll (λ v. map view_item v.items) result (unit_of dialect tokens.now) }
{
    let mut all = Vec::new(alloc);
    let mut left = tokens;
    while let [_, ..] = left {
        let (next, after) = item(alloc, dialect, left)?;
        all = grown(all, next)?;
        left = after;
    }
    Ok(all)
}

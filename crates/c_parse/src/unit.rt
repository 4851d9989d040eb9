//! From tokens to units, within the limits.

ghost use Rattle.std.specs.Prelude.{◌≡◌, ◌≤◌, List, take, drop, length, IfOk, IfErr, None, option_map, Some};
ghost use Rattle.c_text.specs.declared.tokens.Dialect.{Dialect};
ghost use Rattle.c_text.specs.declared.tokens.Token.{Token};
ghost use Rattle.c_text.specs.Details.{IfRefused};
ghost use Rattle.c_tree.specs.Tree.{External};
ghost use Rattle.c_tree.specs.View.{view_unit};
ghost use Rattle.c_parse.specs.Items.{IsUnit};
ghost use Rattle.c_parse.specs.Limits.{end_place, first_past, syntax_at, too_many, Refused};

use crate::items::items;
use crate::limits::first_past;
use crate::nodes::Stuck;
use c_text::{Dialect, Fail, Place, Token, refuse};
use c_tree::Unit;
use std::alloc::Global;

/// Text that is no unit.
const SYNTAX: u8 = 9;

/// A counted quantity above its limit.
const TOO_MANY: u8 = 20;

#[tactic(auto, using(crate::proofs::Refusals::end_place_last))]
fn end_place(tokens: &[Token]) -> Place
    ensures { result ≡ end_place tokens.now }
{
    match tokens.split_last() {
        Some((last, _)) => last.place,
        None => Place { line: 1, col: 1 },
    }
}

// The refusal of text that is no unit, at the first of these tokens, or at the end.
fn syntax_at(alloc: Global, end: Place, tokens: &[Token]) -> Fail
    ensures { IfRefused result (λ r. r ≡ syntax_at end tokens.now) }
{
    match tokens {
        [] => refuse(alloc, SYNTAX, end, b"end"),
        [token, ..] => refuse(alloc, SYNTAX, token.place, token.text.bytes()),
    }
}

// The same, where this many tokens were left.
#[tactic(auto, using(crate::proofs::Refusals::rest_is))]
fn syntax(alloc: Global, tokens: &[Token], before: usize) -> Fail
    requires within { before ≤ length tokens.now }
    ensures { IfRefused result (λ r. r ≡ syntax_at (end_place tokens.now) (drop before tokens.now)) }
{
    syntax_at(alloc, end_place(tokens), &tokens[before..])
}

// The unit, if it passes no limit.
fn within_limits(alloc: Global, unit: Unit) -> Result<Unit, Fail>
    ensures unit { IfOk result (λ u. u ≡ unit) }
    ensures within { IfOk result (λ u. first_past 0 (view_unit u) ≡ None) }
    ensures refused { IfErr result (λ e. IfRefused e (λ r. option_map too_many (first_past 0 (view_unit unit)) ≡ Some r)) }
{
    match first_past(unit.items.as_slice()) {
        Some(function) => Err(refuse(alloc, TOO_MANY, function.place, function.name.bytes())),
        None => Ok(unit),
    }
}

/// The unit of these tokens, each node of its tree with its place. Refused with 9 where they are no unit, at the token in
/// front of which reading got stuck, or at the end with the detail `end`; refused with 20 at the name of the first function
/// that passes a limit: the 4,097th of the unit, or one with more than 127 parameters. Prototypes don't count. A detail has at
/// most 255 bytes. Memory may run out.
#[tactic(auto, using(crate::proofs::ItemsRead::unit_writes, crate::proofs::Refusals::refused_syntax, crate::proofs::Refusals::refused_many))]
pub fn parse(alloc: Global, tokens: &[Token], dialect: Dialect) -> Result<Unit, Fail>
    ensures unit { IfOk result (λ u. IsUnit dialect tokens.now (view_unit u)) }
    ensures within { IfOk result (λ u. first_past 0 (view_unit u) ≡ None) }
    ensures refused { IfErr result (λ e. IfRefused e (Refused dialect tokens.now)) }
{
    match items(alloc, dialect, tokens) {
        Ok(items) => within_limits(alloc, Unit { items }),
        Err(Stuck::Memory) => Err(Fail::Memory),
        Err(Stuck::Syntax(left)) => {
            let before = tokens.len().saturating_sub(left);
            Err(syntax(alloc, tokens, before))
        }
    }
}

/// Tokens are a unit in one way at most: it has one tree, places of nodes included.
pub fn one_unit()
    ensures { (d : Dialect) (ts : List Token) (a b : List External) → IsUnit d ts a → IsUnit d ts b → a ≡ b }
{}

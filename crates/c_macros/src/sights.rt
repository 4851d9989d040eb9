//! What a token begins among others.

ghost use Rattle.std.specs.Prelude.{◌≡◌, IfOk, map, length};
ghost use Rattle.c_macros.specs.Arguments.{fits, closed, called, named, found, among, sight, is_name_kind, arguments};
ghost use Rattle.c_macros.specs.Entries.{macros_of};
ghost use Rattle.c_macros.specs.Seen.{found_seen, listed, arguments_seen};

use crate::arguments::is_mark;
use crate::hinted::split_hinted;
use crate::macros::Macro;
use crate::names::Macros;
use crate::segments::{Segment, split_first};
use c_text::{Token, TokenKind};
use std::alloc::{AllocError, Global};

/// A use of a macro.
#[derive(Drop)]
pub struct Use<'a> {
    pub definition: &'a Macro,
    pub arguments: Vec<Segment<'a>>,
    /// What stands behind it.
    pub rest: Segment<'a>,
}

/// What a token begins.
#[derive(Drop)]
pub enum Found<'a> {
    /// No use.
    Plain,
    /// A use that breaks a rule.
    Wrong,
    Use(Use<'a>),
}

// As many arguments as parameters; one empty argument counts as none where there is no parameter.
fn fits(used: &[bool], arguments: &[Segment]) -> bool
    ensures { result ≡ fits used.now (map (λ a. a.tokens.now) arguments.now) }
{
    match (used, arguments) {
        ([], [only]) if only.tokens.is_empty() => true,
        _ => used.len() == arguments.len(),
    }
}

fn called<'a>(
    alloc: Global,
    definition: &'a Macro,
    behind: Segment<'a>,
) -> Result<Found<'a>, AllocError>
    ensures { IfOk result (λ f. found_seen f ≡ called definition.now behind.entry.tokens.now) }
{
    let Some((bracket, behind)) = split_first(behind) else {
        return Ok(Found::Wrong);
    };
    if !is_mark(b"(", bracket) {
        return Ok(Found::Wrong);
    }
    let Some(found) = split_hinted(alloc, behind)? else {
        return Ok(Found::Wrong);
    };
    if !fits(&definition.used, &found.list) {
        return Ok(Found::Wrong);
    }
    Ok(Found::Use(Use {
        definition,
        arguments: found.list,
        rest: found.rest,
    }))
}

fn among(name: &[u8], uses: &[Token]) -> bool
    ensures { result ≡ among name.now uses.now }
{
    uses.iter().any(|u| u.text.bytes() == name)
}

/// What a token begins in front of others, in the bodies of these uses.
#[tactic(auto, unfolding(crate::specs::Arguments::sight))]
pub fn sight<'a>(
    alloc: Global,
    macros: &'a Macros,
    uses: &[Token],
    token: &Token,
    behind: Segment<'a>,
) -> Result<Found<'a>, AllocError>
    ensures { IfOk result (λ f. found_seen f ≡ sight (macros_of macros.now) uses.now token.now behind.entry.tokens.now) }
{
    if token.kind != TokenKind::Name {
        return Ok(Found::Plain);
    }
    let Some(definition) = macros.find(token.text.bytes()) else {
        return Ok(Found::Plain);
    };
    if among(token.text.bytes(), uses) {
        return Ok(Found::Wrong);
    }
    if definition.function_like {
        return called(alloc, definition, behind);
    }
    Ok(Found::Use(Use {
        definition,
        arguments: Vec::new(alloc),
        rest: behind,
    }))
}

//! Bodies with their arguments put in.

ghost use Rattle.std.specs.Prelude.{◌≡◌, ◌+◌, ◌<◌, ◌≤◌, ◌^◌, ◌++◌, map, length, IfOk, OnOk, MatchOption, unwrap_or, slice_get, []};
ghost use Rattle.std.specs.Option.{option_copied};
ghost use Rattle.c_macros.specs.Expansion.{put, filled, outermost};

use crate::macros::Piece;
use c_text::{Place, Token};
use std::alloc::{AllocError, Global};

/// A copy of a token, at this place.
pub fn placed(alloc: Global, token: &Token, place: Place) -> Result<Token, AllocError>
    ensures { IfOk result (λ t. t ≡ record token.now { place = place }) }
{
    Ok(Token {
        kind: token.kind,
        text: token.text.copy(alloc)?,
        place,
        spaced: token.spaced,
        first: token.first,
    })
}

/// The outermost use: that in which the use of this name stands, or else itself.
pub fn outermost<'a>(outer: Option<&'a Token>, name: &'a Token) -> &'a Token
    ensures { result.now ≡ outermost (option_copied outer.entry) name.now }
{
    match outer {
        None => name,
        Some(outer) => outer,
    }
}

fn append(alloc: Global, out: &mut Vec<Token>, tokens: &[Token]) -> Result<(), AllocError>
    ensures { OnOk result (out.new.items ≡ out.old.items ++ tokens.now) }
{
    for token in tokens {
        out.push(placed(alloc, token, token.place)?)?;
    }
    Ok(())
}

// The argument of this number.
fn argument(arguments: &[Vec<Token>], number: usize) -> &[Token]
    ensures { result.now ≡ unwrap_or (slice_get (map (λ v. v.items) arguments.now) number) [] }
{
    match arguments.get(number) {
        Some(argument) => argument,
        None => &[],
    }
}

fn put(
    alloc: Global,
    out: &mut Vec<Token>,
    place: Place,
    arguments: &[Vec<Token>],
    piece: &Piece,
) -> Result<(), AllocError>
    ensures { OnOk result (out.new.items ≡ out.old.items ++ put place (map (λ v. v.items) arguments.now) piece.now.token piece.now.parameter) }
{
    let Some(number) = piece.parameter else {
        out.push(placed(alloc, &piece.token, place)?)?;
        return Ok(());
    };
    append(alloc, out, argument(arguments, number))
}

/// A body with its arguments put in.
pub fn fill(
    alloc: Global,
    place: Place,
    arguments: &[Vec<Token>],
    body: &[Piece],
) -> Result<Vec<Token>, AllocError>
    ensures { IfOk result (λ v. v.items ≡ filled place (map (λ v. v.items) arguments.now) body.now) }
{
    let mut out = Vec::new(alloc);
    for piece in body {
        put(alloc, &mut out, place, arguments, piece)?;
    }
    Ok(out)
}

fn put_len(arguments: &[Vec<Token>], piece: &Piece, place: Place) -> usize
    ensures { result ≡ length (put place (map (λ v. v.items) arguments.now) piece.now.token piece.now.parameter) }
{
    let Some(number) = piece.parameter else {
        return 1;
    };
    argument(arguments, number).len()
}

/// The work that is done once a body with its arguments is put in, if it is within the limit.
pub fn work_after(
    work: usize,
    limit: usize,
    place: Place,
    arguments: &[Vec<Token>],
    body: &[Piece],
) -> Option<usize>
    requires within { work ≤ limit }
    requires small { limit < 2 ^ 32 }
    ensures { MatchOption result
        (limit < work + (1 + length (filled place (map (λ v. v.items) arguments.now) body.now)))
        (λ n. (n ≡ work + (1 + length (filled place (map (λ v. v.items) arguments.now) body.now))) × (n ≤ limit)) }
{
    let mut sum = work + 1;
    for piece in body {
        let more = put_len(arguments, piece, place);
        if more > limit || sum + more > limit {
            return None;
        }
        sum += more;
    }
    if sum > limit { None } else { Some(sum) }
}

//! Includes of headers.

ghost use Rattle.std.specs.Prelude.{◌≡◌, ◌++◌, bytes_eq, IfOk, OnOk, option_map};
ghost use Rattle.std.specs.List.{list_any};
ghost use Rattle.c_directives.specs.Headers.{headers, spelled, up_to_mark, in_marks, header, place_of_header, included};
ghost use Rattle.c_directives.specs.Answers.{Refusing};

use c_macros::is_mark;
use c_text::{Dialect, Fail, Token, TokenKind, is_among, refuse, refuse_token};
use std::alloc::{AllocError, Global};

const BAD_DIRECTIVE: u8 = 5;

const UNKNOWN_HEADER: u8 = 6;

static X86: [&[u8]; 11] = [
    b"<emmintrin.h>",
    b"<immintrin.h>",
    b"<pmmintrin.h>",
    b"<smmintrin.h>",
    b"<stdalign.h>",
    b"<stdbool.h>",
    b"<stddef.h>",
    b"<stdint.h>",
    b"<tmmintrin.h>",
    b"<x86intrin.h>",
    b"<xmmintrin.h>",
];

static NEON: [&[u8]; 5] = [
    b"<arm_neon.h>",
    b"<stdalign.h>",
    b"<stdbool.h>",
    b"<stddef.h>",
    b"<stdint.h>",
];

fn is_header(dialect: Dialect, name: &[u8]) -> bool
    ensures { result ≡ list_any (bytes_eq name.now) (headers dialect) }
{
    match dialect {
        Dialect::X86 => is_among(name, &X86),
        Dialect::Neon => is_among(name, &NEON),
    }
}

fn spell(name: &mut Vec<u8>, token: &Token) -> Result<(), AllocError>
    ensures { OnOk result (name.new.items ≡ name.old.items ++ spelled token.now) }
{
    if token.spaced {
        name.push(b' ')?;
    }
    name.extend_from_slice(token.text.bytes())?;
    Ok(())
}

// The spelling of tokens up to the first `>`, behind this.
fn up_to_mark(mut name: Vec<u8>, tokens: &[Token]) -> Result<Option<Vec<u8>>, AllocError>
    ensures { IfOk result (λ o. option_map (λ v. v.items) o ≡ option_map (λ x. name.items ++ x) (up_to_mark tokens.now)) }
{
    let mut left = tokens;
    while let Some((token, behind)) = left.split_first() {
        spell(&mut name, token)?;
        if is_mark(b">", token) {
            return Ok(if behind.is_empty() { Some(name) } else { None });
        }
        left = behind;
    }
    Ok(None)
}

fn in_marks(alloc: Global, mark: &Token, tokens: &[Token]) -> Result<Option<Vec<u8>>, AllocError>
    ensures { IfOk result (λ o. option_map (λ v. v.items) o ≡ option_map (λ x. mark.now.text ++ x) (in_marks tokens.now)) }
{
    match tokens.first() {
        None => Ok(None),
        Some(first) => {
            if is_mark(b">", first) {
                return Ok(None);
            }
            let name = Vec::from_slice(alloc, mark.text.bytes())?;
            up_to_mark(name, tokens)
        }
    }
}

// The header that the line names, with its marks.
fn header(alloc: Global, line: &[Token]) -> Result<Option<Vec<u8>>, AllocError>
    ensures { IfOk result (λ o. option_map (λ v. v.items) o ≡ header line.now) }
{
    match line.split_first() {
        None => Ok(None),
        Some((first, others)) => {
            if first.kind == TokenKind::Str {
                if !others.is_empty() {
                    return Ok(None);
                }
                Ok(Some(Vec::from_slice(alloc, first.text.bytes())?))
            } else if is_mark(b"<", first) {
                in_marks(alloc, first, others)
            } else {
                Ok(None)
            }
        }
    }
}

fn place_of_header<'a>(word: &'a Token, line: &'a [Token]) -> &'a Token
    ensures { result.now ≡ place_of_header word.now line.now }
{
    match line.split_first() {
        None => word,
        Some((first, _)) => first,
    }
}

/// Refuses an include of a header that the dialect hasn't got, or one that names none.
pub fn include(alloc: Global, dialect: Dialect, word: &Token, line: &[Token]) -> Result<(), Fail>
    ensures { Refusing (included dialect word.now line.now) result }
{
    let Some(name) = header(alloc, line)? else {
        return Err(refuse_token(alloc, BAD_DIRECTIVE, word));
    };
    if is_header(dialect, &name) {
        return Ok(());
    }
    let place = place_of_header(word, line).place;
    Err(refuse(alloc, UNKNOWN_HEADER, place, &name))
}

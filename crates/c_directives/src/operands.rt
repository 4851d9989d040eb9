//! The operands of `defined` in an `#if` line.

ghost use Rattle.std.specs.Prelude.{◌≡◌, ◌++◌, List, Some, None, IfOk, MatchOption, option_map};
ghost use Rattle.c_macros.specs.Entries.{macros_of};
ghost use Rattle.c_directives.specs.Definitions.{is_defined_word};
ghost use Rattle.c_directives.specs.Operands.{as_number, read, resolved};
ghost use Rattle.c_directives.specs.declared.operands.Waits.TheVariants.{Nothing};

use c_macros::{Macros, is_mark, placed};
use c_text::{Text, Token, TokenKind};
use std::alloc::{AllocError, Global};

/// What is waited for on a line.
#[derive(Clone, Copy, Debug, PartialEq, Eq)]
pub enum Waits {
    Nothing,
    /// A name, or a bracket in front of one: behind `defined`.
    NameOrBracket,
    /// A name in brackets.
    NameInside,
    /// The bracket behind that name.
    Closing,
}

/// Whether the token is the name `defined`.
pub fn is_defined_word(token: &Token) -> bool
    ensures { result ≡ is_defined_word token.now }
{
    token.kind == TokenKind::Name && token.text.bytes() == b"defined".as_slice()
}

fn as_number(alloc: Global, macros: &Macros, token: &Token) -> Result<Token, AllocError>
    ensures { IfOk result (λ t. t ≡ as_number (macros_of macros.now) token.now) }
{
    let digit: &[u8] = if macros.find(token.text.bytes()).is_some() {
        b"1"
    } else {
        b"0"
    };
    Ok(Token {
        kind: TokenKind::Number,
        text: Text::new(alloc, digit)?,
        place: token.place,
        spaced: token.spaced,
        first: token.first,
    })
}

// What is waited for behind a token; what it leaves on the line is put there.
fn read(
    alloc: Global,
    macros: &Macros,
    waits: Waits,
    token: &Token,
    out: &mut Vec<Token>,
) -> Result<Option<Waits>, AllocError>
    ensures { IfOk result (λ o. MatchOption o
        (read (macros_of macros.now) waits token.now ≡ None)
        (λ w. (ts : List Token) × (read (macros_of macros.now) waits token.now ≡ Some (w, ts)) × (out.new.items ≡ out.old.items ++ ts))) }
{
    match waits {
        Waits::Nothing => {
            if is_defined_word(token) {
                return Ok(Some(Waits::NameOrBracket));
            }
            out.push(placed(alloc, token, token.place)?)?;
            Ok(Some(Waits::Nothing))
        }
        Waits::NameOrBracket => {
            if is_mark(b"(", token) {
                return Ok(Some(Waits::NameInside));
            }
            if token.kind != TokenKind::Name {
                return Ok(None);
            }
            out.push(as_number(alloc, macros, token)?)?;
            Ok(Some(Waits::Nothing))
        }
        Waits::NameInside => {
            if token.kind != TokenKind::Name {
                return Ok(None);
            }
            out.push(as_number(alloc, macros, token)?)?;
            Ok(Some(Waits::Closing))
        }
        Waits::Closing => {
            if is_mark(b")", token) {
                Ok(Some(Waits::Nothing))
            } else {
                Ok(None)
            }
        }
    }
}

/// A line whose `defined`s are replaced; none where one stands against the rules.
pub fn resolved(
    alloc: Global,
    macros: &Macros,
    line: &[Token],
) -> Result<Option<Vec<Token>>, AllocError>
    ensures { IfOk result (λ o. option_map (λ v. v.items) o ≡ resolved (macros_of macros.now) Nothing line.now) }
{
    let mut out = Vec::new(alloc);
    let mut waits = Waits::Nothing;
    for token in line {
        match read(alloc, macros, waits, token, &mut out)? {
            None => return Ok(None),
            Some(next) => waits = next,
        }
    }
    if waits == Waits::Nothing {
        Ok(Some(out))
    } else {
        Ok(None)
    }
}

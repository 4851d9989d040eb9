//! What the Neon dialect's pairs of vectors begin with.

ghost use Rattle.std.specs.Prelude.{◌≡◌, ◌<◌, length, IfSome};
ghost use Rattle.std.specs.Option.{option_copied, option_map};
ghost use Rattle.c_parse.specs.Reading.{is_pair, pair_front, is_neon, past_val, half_of, which_front, half_front, half_behind, constant_front};

use crate::literals::first_literal;
use crate::peeks::{first, name, past, rest};
use crate::symbols::{Sign, Symbol, TypeWord};
use c_text::{Dialect, Token, TokenKind};
use c_tree::CType;

fn is_pair(symbol: Symbol) -> bool
    ensures { result ≡ is_pair symbol }
{
    match symbol {
        Symbol::Type(TypeWord::Whole(CType::Pair)) => true,
        _ => false,
    }
}

// What is behind the type of pairs in brackets and a brace, where these come first.
pub fn pair(dialect: Dialect, tokens: &[Token]) -> Option<&[Token]>
    ensures value { option_copied result ≡ pair_front dialect tokens.now }
    ensures shorter { IfSome result (λ rest. length rest.now < length tokens.now) }
{
    let behind = past(dialect, Sign::Open, tokens)?;
    if !is_pair(first(dialect, behind)) {
        return None;
    }
    let behind = past(dialect, Sign::Close, rest(behind))?;
    past(dialect, Sign::OpenBrace, behind)
}

fn is_neon(dialect: Dialect) -> bool
    ensures { result ≡ is_neon dialect }
{
    match dialect {
        Dialect::X86 => false,
        Dialect::Neon => true,
    }
}

// What is behind the name `val`, where it comes first.
fn past_val(dialect: Dialect, tokens: &[Token]) -> Option<&[Token]>
    ensures value { option_copied result ≡ past_val dialect tokens.now }
    ensures shorter { IfSome result (λ rest. length rest.now < length tokens.now) }
{
    let (token, behind) = name(dialect, tokens)?;
    if is_neon(dialect) && token.text.bytes() == b"val".as_slice() {
        Some(behind)
    } else {
        None
    }
}

// Which half a number names.
fn half_of(token: &Token) -> Option<u8>
    ensures { result ≡ half_of token.now }
{
    match token.kind {
        TokenKind::Number => {
            if token.text.bytes() == b"0".as_slice() {
                Some(0)
            } else if token.text.bytes() == b"1".as_slice() {
                Some(1)
            } else {
                None
            }
        }
        _ => None,
    }
}

// Which half the number that comes first names, and what is behind it.
fn which(tokens: &[Token]) -> Option<(u8, &[Token])>
    ensures value { option_map (λ x. (x.0, x.1.now)) result ≡ which_front tokens.now }
    ensures shorter { IfSome result (λ x. length x.1.now < length tokens.now) }
{
    match tokens {
        [] => None,
        [token, rest @ ..] => match half_of(token) {
            Some(which) => Some((which, rest)),
            None => None,
        },
    }
}

// Which half `.val[0]` or `.val[1]` names, where it comes first, and what is behind it.
fn half(dialect: Dialect, tokens: &[Token]) -> Option<(u8, &[Token])>
    ensures value { option_map (λ x. (x.0, x.1.now)) result ≡ half_front dialect tokens.now }
    ensures shorter { IfSome result (λ x. length x.1.now < length tokens.now) }
{
    let behind = past(dialect, Sign::Dot, tokens)?;
    let behind = past_val(dialect, behind)?;
    let behind = past(dialect, Sign::OpenSquare, behind)?;
    let (which, behind) = which(behind)?;
    let behind = past(dialect, Sign::CloseSquare, behind)?;
    Some((which, behind))
}

// Which half is named behind a base, which is no constant, and what is behind it.
pub fn halved<'a>(
    dialect: Dialect,
    tokens: &[Token],
    left: &'a [Token],
) -> Option<(u8, &'a [Token])>
    ensures value { option_map (λ x. (x.0, x.1.now)) result ≡ half_behind dialect (constant_front tokens.now) left.now }
    ensures shorter { IfSome result (λ x. length x.1.now < length left.now) }
{
    match half(dialect, left) {
        Some(found) => {
            if first_literal(tokens).is_some() {
                None
            } else {
                Some(found)
            }
        }
        None => None,
    }
}

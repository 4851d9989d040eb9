//! The attributes of GNU C that a unit may have.

ghost use Rattle.std.specs.Prelude.{◌≡◌, bytes_eq};
ghost use Rattle.std.specs.List.{list_any};
ghost use Rattle.c_parse.specs.Objects.{dropped_names, target_names, aligned_names, attribute_named, attribute_of};

use crate::symbols::{Symbol, token_symbol};
use c_text::{Dialect, Token, is_among};

/// What an attribute's name asks for.
#[derive(Clone, Copy, Debug, PartialEq, Eq)]
pub enum AttributeName {
    /// An attribute without more that is dropped.
    Dropped,
    /// `target`, with a string; dropped too.
    Target,
    /// `aligned`, with an expression.
    Aligned,
}

static DROPPED: [&[u8]; 6] = [
    b"always_inline",
    b"__always_inline__",
    b"noinline",
    b"__noinline__",
    b"unused",
    b"__unused__",
];

static TARGET: [&[u8]; 2] = [b"target", b"__target__"];

static ALIGNED: [&[u8]; 2] = [b"aligned", b"__aligned__"];

fn is_dropped(word: &[u8]) -> bool
    ensures { result ≡ list_any (bytes_eq word.now) dropped_names }
{
    is_among(word, &DROPPED)
}

fn is_target(word: &[u8]) -> bool
    ensures { result ≡ list_any (bytes_eq word.now) target_names }
{
    is_among(word, &TARGET)
}

fn is_aligned(word: &[u8]) -> bool
    ensures { result ≡ list_any (bytes_eq word.now) aligned_names }
{
    is_among(word, &ALIGNED)
}

fn named(text: &[u8]) -> Option<AttributeName>
    ensures { result ≡ attribute_named text.now }
{
    if is_dropped(text) {
        Some(AttributeName::Dropped)
    } else if is_target(text) {
        Some(AttributeName::Target)
    } else if is_aligned(text) {
        Some(AttributeName::Aligned)
    } else {
        None
    }
}

// The attribute that a token names.
#[tactic(auto, unfolding(crate::specs::Objects::attribute_of))]
pub fn attribute_name(dialect: Dialect, token: &Token) -> Option<AttributeName>
    ensures { result ≡ attribute_of dialect token.now }
{
    match token_symbol(dialect, token) {
        Symbol::Name => named(token.text.bytes()),
        _ => None,
    }
}

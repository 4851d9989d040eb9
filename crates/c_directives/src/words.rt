//! The words of directives.

ghost use Rattle.std.specs.Prelude.{◌≡◌, bytes_eq, unwrap_or};
ghost use Rattle.std.specs.Map.{lookup};
ghost use Rattle.c_directives.specs.Words.{condition_words, other_words, word_of, named};
ghost use Rattle.c_directives.specs.declared.words.Word.TheVariants.{Unknown};

use c_text::{Token, TokenKind};

/// What the word of a directive says.
#[derive(Clone, Copy, Debug, PartialEq, Eq)]
pub enum Word {
    If,
    Ifdef,
    Ifndef,
    Elif,
    Else,
    Endif,
    Include,
    Define,
    Undef,
    Pragma,
    /// Nothing that is known.
    Unknown,
}

fn condition_word(text: &[u8]) -> Option<Word>
    ensures { result ≡ lookup (bytes_eq text.now) condition_words }
{
    if text == b"if".as_slice() {
        Some(Word::If)
    } else if text == b"ifdef".as_slice() {
        Some(Word::Ifdef)
    } else if text == b"ifndef".as_slice() {
        Some(Word::Ifndef)
    } else if text == b"elif".as_slice() {
        Some(Word::Elif)
    } else if text == b"else".as_slice() {
        Some(Word::Else)
    } else if text == b"endif".as_slice() {
        Some(Word::Endif)
    } else {
        None
    }
}

fn other_word(text: &[u8]) -> Word
    ensures { result ≡ unwrap_or (lookup (bytes_eq text.now) other_words) Unknown }
{
    if text == b"include".as_slice() {
        Word::Include
    } else if text == b"define".as_slice() {
        Word::Define
    } else if text == b"undef".as_slice() {
        Word::Undef
    } else if text == b"pragma".as_slice() {
        Word::Pragma
    } else {
        Word::Unknown
    }
}

fn named(text: &[u8]) -> Word
    ensures { result ≡ named text.now }
{
    match condition_word(text) {
        Some(word) => word,
        None => other_word(text),
    }
}

/// The word that a token is.
#[tactic(auto, unfolding(crate::specs::Words::word_of))]
pub fn word_of(token: &Token) -> Word
    ensures { result ≡ word_of token.now }
{
    if token.kind == TokenKind::Name {
        named(token.text.bytes())
    } else {
        Word::Unknown
    }
}

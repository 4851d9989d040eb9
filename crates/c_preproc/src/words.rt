//! The words that stand in no unit of the C subset.

ghost use Rattle.std.specs.Prelude.{◌≡◌, bytes_eq};
ghost use Rattle.std.specs.List.{list_any};
ghost use Rattle.c_preproc.specs.ExcludedWord.{excluded_in_both, excluded_vectors, is_excluded};

use c_text::{Dialect, Token, TokenKind, is_among};

static EXCLUDED_IN_BOTH: [&[u8]; 26] = [
    b"asm",
    b"__asm",
    b"__asm__",
    b"auto",
    b"case",
    b"default",
    b"double",
    b"enum",
    b"extern",
    b"float",
    b"goto",
    b"register",
    b"struct",
    b"switch",
    b"typedef",
    b"union",
    b"volatile",
    b"_Alignof",
    b"_Atomic",
    b"_Complex",
    b"_Generic",
    b"_Imaginary",
    b"_Noreturn",
    b"_Static_assert",
    b"_Thread_local",
    b"__int128",
];

static EXCLUDED_VECTORS: [&[u8]; 6] = [
    b"__m64", b"__m128", b"__m128d", b"__m256", b"__m256d", b"__m512i",
];

fn is_in_both(word: &[u8]) -> bool
    ensures { result ≡ list_any (bytes_eq word.now) excluded_in_both }
{
    is_among(word, &EXCLUDED_IN_BOTH)
}

fn is_vector(word: &[u8]) -> bool
    ensures { result ≡ list_any (bytes_eq word.now) excluded_vectors }
{
    is_among(word, &EXCLUDED_VECTORS)
}

/// Whether a token is an excluded word.
pub fn is_excluded(dialect: Dialect, token: &Token) -> bool
    ensures { result ≡ is_excluded dialect token.now.kind token.now.text }
{
    match token.kind {
        TokenKind::Name => {
            let word = token.text.bytes();
            is_in_both(word) || dialect == Dialect::X86 && is_vector(word)
        }
        _ => false,
    }
}

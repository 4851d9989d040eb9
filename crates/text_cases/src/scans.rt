//! What the scan of tokens refuses. The weights are counted by hand.

use c_preproc::scan;
use c_text::{Dialect, Fail, Place, Text, Token, TokenKind};
use std::alloc::Global;

// The kind of a token, by its first byte.
fn kind_of(text: &[u8]) -> TokenKind {
    match text {
        [b'a'..=b'z' | b'A'..=b'Z' | b'_', ..] => TokenKind::Name,
        [b'0'..=b'9', ..] => TokenKind::Number,
        [b'\'', _, ..] => TokenKind::Quote,
        [b'"', _, ..] => TokenKind::Str,
        [b'@' | b'$' | b'`' | b'\\' | b'\'' | b'"'] => TokenKind::Lone,
        _ => TokenKind::Mark,
    }
}

// Adds a token whose column is its number, counted from 1.
fn push_token(alloc: Global, tokens: &mut Vec<Token>, text: &[u8]) -> Result<(), Fail> {
    let col = u32::try_from(tokens.len()).unwrap_or(0).saturating_add(1);
    let token = Token {
        kind: kind_of(text),
        text: Text::new(alloc, text)?,
        place: Place { line: 1, col },
        spaced: true,
        first: tokens.is_empty(),
    };
    tokens.push(token)?;
    Ok(())
}

// Adds the tokens of a text that has a space between each two, so many times.
fn push_tokens(
    alloc: Global,
    tokens: &mut Vec<Token>,
    text: &[u8],
    times: usize,
) -> Result<(), Fail> {
    for _ in 0..times {
        for piece in text.split(|byte| *byte == b' ') {
            push_token(alloc, tokens, piece)?;
        }
    }
    Ok(())
}

// The refusal's number and the number of its token for the tokens of `before`, then of `again` so many times.
fn refused(
    alloc: Global,
    dialect: Dialect,
    before: &[u8],
    again: &[u8],
    times: usize,
) -> Result<Option<(u8, u32)>, Fail> {
    let mut tokens = Vec::new(alloc);
    push_tokens(alloc, &mut tokens, before, 1)?;
    push_tokens(alloc, &mut tokens, again, times)?;
    match scan(alloc, tokens.as_slice(), dialect) {
        Ok(()) => Ok(None),
        Err(Fail::Refused(r)) => Ok(Some((r.number, r.place.col))),
        Err(e) => Err(e),
    }
}

static WORDS_OF_BOTH: [&[u8]; 26] = [
    b"asm",
    b"__asm",
    b"__asm__",
    b"auto",
    b"case",
    b"default",
    b"double",
    b"enum",
    b"extern",
    b"float",
    b"goto",
    b"register",
    b"struct",
    b"switch",
    b"typedef",
    b"union",
    b"volatile",
    b"_Alignof",
    b"_Atomic",
    b"_Complex",
    b"_Generic",
    b"_Imaginary",
    b"_Noreturn",
    b"_Static_assert",
    b"_Thread_local",
    b"__int128",
];

static WORDS_OF_X86: [&[u8]; 6] = [
    b"__m64", b"__m128", b"__m128d", b"__m256", b"__m256d", b"__m512i",
];

#[test]
fn words_are_excluded(rt: HostRuntime) -> Result<(), Fail> {
    let alloc = rt.alloc();
    for word in WORDS_OF_BOTH.iter() {
        assert_eq!(rt;
            refused(alloc, Dialect::X86, b"int", word, 1)?,
            Some((18, 2))
        );
        assert_eq!(rt;
            refused(alloc, Dialect::Neon, b"int", word, 1)?,
            Some((18, 2))
        );
    }
    for word in WORDS_OF_X86.iter() {
        assert_eq!(rt;
            refused(alloc, Dialect::X86, b"int", word, 1)?,
            Some((18, 2))
        );
        assert_eq!(rt; refused(alloc, Dialect::Neon, b"int", word, 1)?, None);
    }
    Ok(())
}

// The first fault decides: a byte that is no token, a number that is no integer constant, an excluded word.
static FIRST_FAULTS: [(&[u8], Option<(u8, u32)>); 7] = [
    (b"int f ( void ) { return 1.5 ; }", Some((4, 8))),
    (
        b"__m128 f ( __m128 a ) { return _mm_sqrt_ps ( a ) ; }",
        Some((18, 1)),
    ),
    (b"int f ( void ) { return 'a' + \"s\" ; }", None),
    (b"int a ; @ goto", Some((4, 4))),
    (b"int a ; goto @", Some((18, 4))),
    (b"int a ; ' 08", Some((4, 4))),
    (b"# ## ... -> . ~", None),
];

// Texts, and what the nesting weighs behind them.
static WEIGHTS: [(&[u8], usize); 28] = [
    (b"int f ( int x ) {", 2),
    (b"int f ( int x ) { return", 2),
    (b"int f ( int x ) { return x ; }", 0),
    (b"{ if ( a ) b ; c", 1),
    (b"{ if ( a ) b ; else", 4),
    (b"{ do a ; while", 3),
    (b"{ a + b ; while", 2),
    (b"{ do a ; b ; while", 2),
    (b"{ a + b , c", 1),
    (b"{ if ( a ) b + c , d", 2),
    (b"{ sizeof a", 2),
    (b"{ sizeof a , b", 1),
    (b"{ a ? b , c", 2),
    (b"{ a ? b : c , d", 1),
    (b"{ a ? b ; c ? d : e , f", 1),
    (b"{ a ? b ? c : d , e", 3),
    (b"{ a = { 1", 3),
    (b"{ a = { 1 }", 2),
    (b"{ a = ( uint8x16x2_t ) { 1 }", 3),
    (b"{ a = ( uint8x16_t ) { 1 }", 1),
    (b"{ if ( a ) { b } c", 1),
    (b"{ if ( a ) { b } else", 4),
    (b"{ do { a } while", 3),
    (b"{ for ( a + b ; c", 4),
    (b"{ a . b", 1),
    (b"{ a -> b ... ## c", 4),
    (b"{ f ( a ]", 2),
    (b"} ) ] a", 0),
];

#[test]
fn the_first_fault_decides(rt: HostRuntime) -> Result<(), Fail> {
    for (text, answer) in FIRST_FAULTS.iter() {
        assert_eq!(rt; refused(rt.alloc(), Dialect::X86, text, b"", 0)?, *answer);
    }
    Ok(())
}

#[test]
fn weights_are_limited(rt: HostRuntime) -> Result<(), Fail> {
    let alloc = rt.alloc();
    for (text, weight) in WEIGHTS.iter() {
        let room = 255usize.saturating_sub(*weight);
        assert_eq!(rt; refused(alloc, Dialect::X86, text, b"~", room)?, None);
        let deep = refused(alloc, Dialect::X86, text, b"~", room + 1)?;
        assert_eq!(rt; deep.map(|r| r.0), Some(19));
    }
    assert_eq!(rt; refused(alloc, Dialect::Neon, b"{", b"~", 1022)?, None);
    assert_eq!(rt;
        refused(alloc, Dialect::Neon, b"{", b"~", 1023)?,
        Some((19, 1024))
    );
    Ok(())
}

#[test]
fn brackets_are_limited(rt: HostRuntime) -> Result<(), Fail> {
    let alloc = rt.alloc();
    let text = b"int f ( int x ) { return";
    assert_eq!(rt; refused(alloc, Dialect::X86, text, b"(", 63)?, None);
    assert_eq!(rt;
        refused(alloc, Dialect::X86, text, b"(", 64)?,
        Some((19, 72))
    );
    assert_eq!(rt; refused(alloc, Dialect::Neon, text, b"(", 255)?, None);
    assert_eq!(rt;
        refused(alloc, Dialect::Neon, text, b"(", 256)?,
        Some((19, 264))
    );
    Ok(())
}

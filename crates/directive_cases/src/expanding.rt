//! What directives and macros leave of texts, or why they are refused.

use crate::texts::{LEFT, NEON, REFUSED};
use c_preproc::expand;
use c_text::{Dialect, Fail as Refused, Token, lex};
use std::alloc::{AllocError, Global};
use std::process::Abort;
use std::test::Fail;

fn put(out: &mut Vec<u8>, text: &str) -> Result<(), AllocError> {
    out.extend_from_slice(text.as_bytes())?;
    Ok(())
}

// The tokens that are left of a text of at most 50,000 bytes.
fn left(alloc: Global, dialect: Dialect, text: &[u8]) -> Result<Vec<Token>, Refused> {
    if text.len() > 50_000 {
        return Ok(Vec::new(alloc));
    }
    let tokens = lex(alloc, text)?;
    expand(alloc, tokens.as_slice(), dialect)
}

fn put_tokens(out: &mut Vec<u8>, tokens: &[Token]) -> Result<(), AllocError> {
    for (i, token) in tokens.iter().enumerate() {
        if i > 0 {
            out.push(b' ')?;
        }
        out.extend_from_slice(token.text.bytes())?;
    }
    Ok(())
}

// The tokens that are left with spaces between them, or number, place and detail of the refusal.
fn shown(alloc: Global, dialect: Dialect, text: &[u8]) -> Result<Vec<u8>, Fail> {
    let mut out = Vec::new(alloc);
    match left(alloc, dialect, text) {
        Ok(tokens) => put_tokens(&mut out, tokens.as_slice())?,
        Err(Refused::Refused(r)) => {
            let number = r.number;
            let line = r.place.line;
            let col = r.place.col;
            let text = format!(in alloc; "{number} {line}:{col} ")?;
            put(&mut out, text.as_str())?;
            out.extend_from_slice(r.detail.bytes())?;
        }
        Err(Refused::Memory) => return Err("no memory".into()),
    }
    Ok(out)
}

// Lines with a line end in place of each `$`.
fn lines(alloc: Global, text: &str) -> Result<Vec<u8>, AllocError> {
    let mut out = Vec::new(alloc);
    for byte in text.as_bytes() {
        out.push(if *byte == b'$' { b'\n' } else { *byte })?;
    }
    Ok(out)
}

fn agrees(rt: &impl Abort, alloc: Global, dialect: Dialect, rows: &str) -> Result<(), Fail> {
    for row in rows.split('\n') {
        let (text, wanted) = row.split_once(" -> ").ok_or("no outcome")?;
        let text = lines(alloc, text)?;
        let found = shown(alloc, dialect, text.as_slice())?;
        assert_eq!(rt; found.as_slice(), wanted.as_bytes(), "{row}");
    }
    Ok(())
}

#[test]
fn texts_are_expanded(rt: HostRuntime) -> Result<(), Fail> {
    agrees(&rt, rt.alloc(), Dialect::X86, LEFT)
}

#[test]
fn texts_are_refused(rt: HostRuntime) -> Result<(), Fail> {
    agrees(&rt, rt.alloc(), Dialect::X86, REFUSED)
}

#[test]
fn neon_texts_are_expanded(rt: HostRuntime) -> Result<(), Fail> {
    agrees(&rt, rt.alloc(), Dialect::Neon, NEON)
}

// Macros `M0` to `Mn`, a line each: the first stands for `;`, and each other one for the one before it so many times. Behind them the last one is used.
fn chain(alloc: Global, last: usize, times: usize) -> Result<Vec<u8>, Fail> {
    let mut out = Vec::new(alloc);
    put(&mut out, "#define M0 ;\n")?;
    for i in 1..last.saturating_add(1) {
        let head = format!(in alloc; "#define M{i}")?;
        put(&mut out, head.as_str())?;
        let before = i.saturating_sub(1);
        for _ in 0..times {
            let word = format!(in alloc; " M{before}")?;
            put(&mut out, word.as_str())?;
        }
        put(&mut out, "\n")?;
    }
    let end = format!(in alloc; "M{last}\n")?;
    put(&mut out, end.as_str())?;
    Ok(out)
}

#[test]
fn chains_have_64_bodies(rt: HostRuntime) -> Result<(), Fail> {
    let passes = chain(rt.alloc(), 63, 1)?;
    assert_eq!(rt;
        shown(rt.alloc(), Dialect::X86, passes.as_slice())?.as_slice(),
        b";".as_slice()
    );
    let fails = chain(rt.alloc(), 64, 1)?;
    assert_eq!(rt;
        shown(rt.alloc(), Dialect::X86, fails.as_slice())?.as_slice(),
        b"19 66:1 M64".as_slice()
    );
    Ok(())
}

// The work of the first is 2,621,437, and that of the second would be 5,242,877.
#[test]
fn work_has_a_limit(rt: HostRuntime) -> Result<(), Fail> {
    let passes = chain(rt.alloc(), 19, 2)?;
    let tokens = left(rt.alloc(), Dialect::X86, passes.as_slice()).map_err(|_| "refused")?;
    assert_eq!(rt; tokens.len(), 524_288);
    let fails = chain(rt.alloc(), 20, 2)?;
    assert_eq!(rt;
        shown(rt.alloc(), Dialect::X86, fails.as_slice())?.as_slice(),
        b"20 22:1 M20".as_slice()
    );
    Ok(())
}

// 1,048,576 tokens from a macro of 1,024 tokens, and these behind them.
fn many(alloc: Global, behind: &str) -> Result<Vec<u8>, Fail> {
    let mut out = Vec::new(alloc);
    put(&mut out, "#define W")?;
    for _ in 0..1024 {
        put(&mut out, " ;")?;
    }
    put(&mut out, "\n")?;
    for _ in 0..1024 {
        put(&mut out, "W ")?;
    }
    put(&mut out, behind)?;
    Ok(out)
}

#[test]
fn tokens_have_a_limit(rt: HostRuntime) -> Result<(), Fail> {
    let passes = many(rt.alloc(), "\n")?;
    let tokens = left(rt.alloc(), Dialect::X86, passes.as_slice()).map_err(|_| "refused")?;
    assert_eq!(rt; tokens.len(), 1_048_576);
    let fails = many(rt.alloc(), "\n x y\n")?;
    assert_eq!(rt;
        shown(rt.alloc(), Dialect::X86, fails.as_slice())?.as_slice(),
        b"20 3:2 x".as_slice()
    );
    let more = left(rt.alloc(), Dialect::Neon, fails.as_slice()).map_err(|_| "refused")?;
    assert_eq!(rt; more.len(), 1_048_578);
    Ok(())
}

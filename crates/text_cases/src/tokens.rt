//! Texts and their tokens, or their first fault.

use c_text::{
    Dialect, Fail, Place, Refusal, Text, Token, TokenKind, lex, predefined_names, refusal_name,
};
use std::alloc::{AllocError, Global};
use std::test::Fail as Failed;

fn letter(kind: TokenKind) -> u8 {
    match kind {
        TokenKind::Name => b'N',
        TokenKind::Number => b'P',
        TokenKind::Quote => b'Q',
        TokenKind::Str => b'S',
        TokenKind::Mark => b'M',
        TokenKind::Lone => b'L',
    }
}

fn push_place(alloc: Global, out: &mut Vec<u8>, place: Place) -> Result<(), AllocError> {
    let text = format!(in alloc; "{}:{}", place.line, place.col)?;
    out.extend_from_slice(text.as_bytes())
}

// The kind, the place, `^` where it begins a line, `_` where it is spaced, and the text.
fn push_token(alloc: Global, out: &mut Vec<u8>, token: &Token) -> Result<(), AllocError> {
    out.push(letter(token.kind))?;
    push_place(alloc, out, token.place)?;
    if token.first {
        out.push(b'^')?;
    }
    if token.spaced {
        out.push(b'_')?;
    }
    out.push(b' ')?;
    out.extend_from_slice(token.text.bytes())?;
    out.push(b'\n')?;
    Ok(())
}

fn push_refusal(alloc: Global, out: &mut Vec<u8>, refusal: &Refusal) -> Result<(), AllocError> {
    let number = refusal.number;
    let text = format!(in alloc; "refused {number} ")?;
    out.extend_from_slice(text.as_bytes())?;
    push_place(alloc, out, refusal.place)?;
    out.push(b' ')?;
    out.extend_from_slice(refusal.detail.bytes())
}

fn show(alloc: Global, source: &[u8]) -> Result<Vec<u8>, AllocError> {
    let mut out = Vec::new(alloc);
    if source.len() > 1000 {
        return Ok(out);
    }
    match lex(alloc, source) {
        Ok(tokens) => {
            for token in &tokens {
                push_token(alloc, &mut out, token)?;
            }
        }
        Err(Fail::Refused(refusal)) => push_refusal(alloc, &mut out, &refusal)?,
        Err(Fail::Memory) => out.extend_from_slice(b"memory")?,
    }
    Ok(out)
}

// By ISO C11 5.1.1.2 and 6.4.
static ROWS: [(&'static [u8], &'static [u8]); 33] = [
    (b"", b""),
    (b"a+++b", b"N1:1^ a\nM1:2 ++\nM1:4 +\nN1:5 b\n"),
    (b"x/**/y", b"N1:1^ x\nN1:6_ y\n"),
    (b"'\\'';", b"Q1:1^ '\\''\nM1:5 ;\n"),
    (b"\"\\\"\"", b"S1:1^ \"\\\"\"\n"),
    (b"\"abc", b"L1:1^ \"\nN1:2 abc\n"),
    (b"'a\n'", b"L1:1^ '\nN1:2 a\nL2:1^_ '\n"),
    (
        b".5 1e+5 0x1p-3+1",
        b"P1:1^ .5\nP1:4_ 1e+5\nP1:9_ 0x1p-3\nM1:15 +\nP1:16 1\n",
    ),
    (
        b"..x.... 1..2",
        b"M1:1^ .\nM1:2 .\nN1:3 x\nM1:4 ...\nM1:7 .\nP1:9_ 1..2\n",
    ),
    (b"%:<:", b"M1:1^ %\nM1:2 :\nM1:3 <\nM1:4 :\n"),
    (
        b"??=x>>=y",
        b"M1:1^ ?\nM1:2 ?\nM1:3 =\nN1:4 x\nM1:5 >>=\nN1:8 y\n",
    ),
    (
        b"a->b!==c",
        b"N1:1^ a\nM1:2 ->\nN1:4 b\nM1:5 !=\nM1:7 =\nN1:8 c\n",
    ),
    (b"a\nb", b"N1:1^ a\nN2:1^_ b\n"),
    (b"a\r\nb\rc", b"N1:1^ a\nN2:1^_ b\nN2:3_ c\n"),
    (b"a\x0b\x0cb", b"N1:1^ a\nN1:4_ b\n"),
    (b"\ta", b"N1:2^_ a\n"),
    (b"\xef\xbb\xbfa b", b"N1:1^ a\nN1:3_ b\n"),
    (b"ab\\\ncd+", b"N1:1^ abcd\nM2:3 +\n"),
    (b"+\\\r\n+ \\\n-", b"M1:1^ ++\nM3:1_ -\n"),
    (b"\\\\\n\nx\\", b"L1:1^ \\\nN3:1^_ x\nL3:2 \\\n"),
    (b"a/* \n */b", b"N1:1^ a\nN2:4_ b\n"),
    (b"// a\\\n b\nc//d", b"N3:1^_ c\n"),
    (b"/\\\n* *\\\n/ x", b"N3:3^_ x\n"),
    (b"\"/*\" x", b"S1:1^ \"/*\"\nN1:6_ x\n"),
    (b"'\"' \"'\"", b"Q1:1^ '\"'\nS1:5_ \"'\"\n"),
    (b"# ##\n#a", b"M1:1^ #\nM1:3_ ##\nM2:1^_ #\nN2:2 a\n"),
    (
        b"L'a' u8\"b\" u8'c'",
        b"Q1:1^ L'a'\nS1:6_ u8\"b\"\nN1:12_ u8\nQ1:14 'c'\n",
    ),
    (b"@$a`", b"L1:1^ @\nL1:2 $\nN1:3 a\nL1:4 `\n"),
    (b"/*\x01\xff*/a", b"N1:7^_ a\n"),
    (
        b"\"\\\"\\\"\n\"\"",
        b"L1:1^ \"\nL1:2 \\\nL1:3 \"\nL1:4 \\\nL1:5 \"\nS2:1^_ \"\"\n",
    ),
    (b"'\\'/*\n*/''", b"L1:1^ '\nL1:2 \\\nL1:3 '\nQ2:3_ ''\n"),
    (b"''", b"Q1:1^ ''\n"),
    (
        b"<immintrin.h>",
        b"M1:1^ <\nN1:2 immintrin\nM1:11 .\nN1:12 h\nM1:13 >\n",
    ),
];

static REFUSED: [(&'static [u8], &'static [u8]); 10] = [
    (b"int f(void) { return 0; } /* end", b"refused 3 1:27 /*"),
    (b"int f(void) { return 0; }\n\x01", b"refused 2 2:1 0x01"),
    (b"a \x80 \x01", b"refused 2 1:3 0x80"),
    (b"\x7f", b"refused 2 1:1 0x7f"),
    (b"\"a\x1f\"", b"refused 2 1:3 0x1f"),
    (b"/* \x01", b"refused 3 1:1 /*"),
    (b"\x02 /*", b"refused 2 1:1 0x02"),
    (b"/* \x01 */ \x00", b"refused 2 1:9 0x00"),
    (b"/*/", b"refused 3 1:1 /*"),
    (b"x\xef\xbb\xbf", b"refused 2 1:2 0xef"),
];

#[test]
fn gives_tokens(rt: HostRuntime) -> Result<(), Failed> {
    for row in &ROWS {
        let shown = show(rt.alloc(), row.0)?;
        assert_eq!(rt; shown.as_slice(), row.1);
    }
    Ok(())
}

#[test]
fn names_the_first_fault(rt: HostRuntime) -> Result<(), Failed> {
    for row in &REFUSED {
        let shown = show(rt.alloc(), row.0)?;
        assert_eq!(rt; shown.as_slice(), row.1);
    }
    Ok(())
}

#[test]
fn bounds_names(rt: HostRuntime) -> Result<(), Failed> {
    let mut source = vec![in rt.alloc(); b'a'; 255]?;
    let name = show(rt.alloc(), source.as_slice())?;
    assert_eq!(rt; name.len(), 6 + 255 + 1);
    source.push(b'a')?;
    let refused = show(rt.alloc(), source.as_slice())?;
    assert_eq!(rt; refused.len(), 15 + 255);
    assert!(rt; refused.as_slice().starts_with(b"refused 20 1:1 aaa"));
    Ok(())
}

#[test]
fn keeps_bytes_and_names(rt: HostRuntime) -> Result<(), Failed> {
    let text = Text::new(rt.alloc(), b"a\x00")?;
    let again = text.copy(rt.alloc())?;
    assert_eq!(rt; again.bytes(), b"a\x00".as_slice());
    assert_eq!(rt; refusal_name(1), "TooLong");
    assert_eq!(rt; refusal_name(20), "TooMany");
    assert_eq!(rt; refusal_name(22), "ArgumentsDontFit");
    assert_eq!(rt; predefined_names(Dialect::X86).len(), 14);
    assert_eq!(rt; predefined_names(Dialect::Neon).len(), 7);
    Ok(())
}

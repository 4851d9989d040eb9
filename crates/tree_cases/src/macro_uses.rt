//! Uses of macros, and what they expand to.

use crate::reading::{put, tokens_of};
use c_macros::{Macro, Macros, Made, Piece, expand_in};
use c_text::{Fail as Refused, Place, Text, Token, TokenKind};
use std::alloc::{AllocError, Global};
use std::test::Fail;

// Definitions, a text, and behind `->` the tokens that it expands to, or number, place and detail of its refusal. Four bodies may stand within one another, and the work
// is at most 100. By ISO C11 6.10.3, but that a name in its own body, and a function-like name without its brackets, is refused.
const ROWS: &str = "\
A=1 : A + A -> 1 + 1
A= : A A -> 
F(x)=x x : F(a) F(b c) -> a a b c b c
F(x,y)=x+y : F((1,2),3) -> ( 1 , 2 ) + 3
F(x,y)=x+y : F(,3) -> + 3
F()=1 : F() -> 1
F(x)=[x] : F() -> [ ]
F(x)=2 : F(F(3)) -> 2
F(x)=x x : F(F(3)) -> 3 3 3 3
A=B;B=C : A B C -> C C C
F(x)=x;G(x)=F(x) : F(G(1)) -> 1
F(x)=x;A=F : A(1) -> 7 1:1 F
A=A : B A -> 7 1:3 A
A=B;B=A : A -> 7 1:1 A
F(x)=F : F(1) -> 7 1:1 F
F(x)=x : F -> 7 1:1 F
F(x)=x : 1 F + (1) -> 7 1:3 F
F(x)=x : F(1 -> 7 1:1 F
F(x)=x : F((1) -> 7 1:1 F
F(x)=x : F(1,2) -> 7 1:1 F
F(x,y)=x : F(1) -> 7 1:1 F
F()=1 : F(1) -> 7 1:1 F
B=C;C=D;D=E;E=1 : B -> 1
A=B;B=C;C=D;D=E;E=1 : (A) -> 19 1:2 A
F(x)=x;A=B;B=C;C=D;D=E;E=1 : 1 F(A) -> 19 1:3 F
W=1 2 3 4 5 6 7 8 9 0 : W W W W W W W W -> 1 2 3 4 5 6 7 8 9 0 1 2 3 4 5 6 7 8 9 0 1 2 3 4 5 6 7 8 9 0 1 2 3 4 5 6 7 8 9 0 1 2 3 4 5 6 7 8 9 0 1 2 3 4 5 6 7 8 9 0 1 2 3 4 5 6 7 8 9 0 1 2 3 4 5 6 7 8 9 0
W=1 2 3 4 5 6 7 8 9 0 : W W W W W W W W W W -> 20 1:19 W
F(x)=x x x x x x x x x x;W=1 2 3 4 5 6 7 8 9 0 : F(W) -> 20 1:1 F
F(x)=x;W=1 2 3 4 5 6 7 8 9 0 : W F(W W W W W W W W W) -> 20 1:3 F";

fn number_of(parameters: &[Text], token: &Token) -> Option<usize> {
    parameters
        .iter()
        .position(|p| p.bytes() == token.text.bytes())
}

// A macro whose body has these tokens.
fn macro_of(
    alloc: Global,
    function_like: bool,
    parameters: Vec<Text>,
    tokens: Vec<Token>,
) -> Result<Macro, AllocError> {
    let mut used = Vec::new(alloc);
    for p in &parameters {
        used.push(tokens.iter().any(|t| t.text.bytes() == p.bytes()))?;
    }
    let mut body = Vec::new(alloc);
    for token in tokens {
        let parameter = number_of(parameters.as_slice(), &token);
        body.push(Piece { token, parameter })?;
    }
    Ok(Macro {
        function_like,
        parameters,
        body,
        used,
    })
}

// `NAME=BODY` or `NAME(NAMES)=BODY`.
fn define(alloc: Global, macros: &mut Macros, text: &str) -> Result<(), Fail> {
    let (head, body) = text.split_once("=").ok_or("no body")?;
    let tokens = tokens_of(alloc, body)?;
    let mut parameters = Vec::new(alloc);
    let Some((name, names)) = head.split_once("(") else {
        let m = macro_of(alloc, false, parameters, tokens)?;
        macros.insert(alloc, head.as_bytes(), m)?;
        return Ok(());
    };
    for word in names.split(',') {
        let word = word.strip_suffix(")").unwrap_or(word);
        if !word.is_empty() {
            parameters.push(Text::new(alloc, word.as_bytes())?)?;
        }
    }
    let m = macro_of(alloc, true, parameters, tokens)?;
    macros.insert(alloc, name.as_bytes(), m)?;
    Ok(())
}

// The tokens that are made.
fn made_of<'a>(
    alloc: Global,
    macros: &'a Macros,
    tokens: &'a [Token],
) -> Result<Vec<Token>, Refused> {
    let mut uses = Vec::new(alloc);
    let mut made = Made {
        tokens: Vec::new(alloc),
        work: 0,
    };
    expand_in(alloc, 100, macros, 4, &mut uses, None, tokens, &mut made)?;
    Ok(made.tokens)
}

// The tokens that are made, with spaces between them, or the refusal.
fn expanded(alloc: Global, definitions: &str, text: &str) -> Result<Vec<u8>, Fail> {
    let mut macros = Macros::new(alloc);
    for definition in definitions.split(';') {
        define(alloc, &mut macros, definition)?;
    }
    let tokens = tokens_of(alloc, text)?;
    let mut out = Vec::new(alloc);
    match made_of(alloc, &macros, tokens.as_slice()) {
        Ok(made) => {
            for (i, token) in made.iter().enumerate() {
                if i > 0 {
                    out.push(b' ')?;
                }
                out.extend_from_slice(token.text.bytes())?;
            }
        }
        Err(Refused::Refused(r)) => {
            let number = r.number;
            let line = r.place.line;
            let col = r.place.col;
            let text = format!(in alloc; "{number} {line}:{col} ")?;
            put(&mut out, text.as_str())?;
            out.extend_from_slice(r.detail.bytes())?;
        }
        Err(Refused::Memory) => return Err("no memory".into()),
    }
    Ok(out)
}

#[test]
fn uses_are_replaced(rt: HostRuntime) -> Result<(), Fail> {
    for row in ROWS.split('\n') {
        let (left, wanted) = row.split_once(" -> ").ok_or("no outcome")?;
        let (definitions, text) = left.split_once(" : ").ok_or("no text")?;
        let found = expanded(rt.alloc(), definitions, text)?;
        assert_eq!(rt; found.as_slice(), wanted.as_bytes(), "{row}");
    }
    Ok(())
}

fn token(alloc: Global, kind: TokenKind, text: &[u8]) -> Result<Token, AllocError> {
    Ok(Token {
        kind,
        text: Text::new(alloc, text)?,
        place: Place { line: 1, col: 1 },
        spaced: true,
        first: false,
    })
}

// `F(F(F(.. ; ..)))`
fn nested(alloc: Global, deep: usize) -> Result<Vec<Token>, AllocError> {
    let mut tokens = Vec::new(alloc);
    for _ in 0..deep {
        tokens.push(token(alloc, TokenKind::Name, b"F")?)?;
        tokens.push(token(alloc, TokenKind::Mark, b"(")?)?;
    }
    tokens.push(token(alloc, TokenKind::Mark, b";")?)?;
    for _ in 0..deep {
        tokens.push(token(alloc, TokenKind::Mark, b")")?)?;
    }
    Ok(tokens)
}

#[test]
fn arguments_are_nested_to_any_depth(rt: HostRuntime) -> Result<(), Fail> {
    let alloc = rt.alloc();
    let mut macros = Macros::new(alloc);
    define(alloc, &mut macros, "F(x)=x")?;
    let tokens = nested(alloc, 100_000)?;
    let mut uses = Vec::new(alloc);
    let mut made = Made {
        tokens: Vec::new(alloc),
        work: 0,
    };
    let answer = expand_in(
        alloc, 4_194_304, &macros, 64, &mut uses, None, &tokens, &mut made,
    );
    assert!(rt; answer.is_ok());
    assert_eq!(rt; made.tokens.len(), 1);
    assert_eq!(rt; made.work, 200_000);
    Ok(())
}

//! Objects of small bodies.

use address_taken::{Taken, address_taken};
use c_tree::{CType, Declared, Expr, ExprKind, Function, Place, Stmt, Text};
use std::alloc::{AllocError, Global};
use std::test::Fail;

const HERE: Place = Place { line: 1, col: 1 };

// The statements of a body, and then what is wanted of the parameter p and of its objects: T where the address is taken. Of the statements
// `x` declares x, `x=y` declares x beginning with the address of y, `&x` takes the address of x, `{a,b}` is a block, and `(a,b)` a `for`
// that begins with a and has the body b.
const ROWS: &str = "\
x &x -> F T.
x &y -> F F.
&x x -> F .F
x y=x -> F TF
x=x -> F T
x {&x} -> F T(.)
x {x,&x} -> F F(T.)
x {&x,x} -> F T(.F)
(x,&x) -> F (T.)
x (x,&x) -> F F(T.)
x {x} &x -> F T(F).
x (x,x) &x -> F T(FF).
p {p} &p -> F T(F).
&p -> T .
{p,&p} -> F (T.)";

fn name(alloc: Global, x: &str) -> Result<Expr, AllocError> {
    let kind = Box::new(alloc, ExprKind::Name(Text::new(alloc, x.as_bytes())?))?;
    Ok(Expr {
        place: HERE,
        ty: CType::Void,
        kind,
    })
}

fn address(alloc: Global, x: &str) -> Result<Expr, AllocError> {
    let kind = Box::new(alloc, ExprKind::Address(name(alloc, x)?))?;
    Ok(Expr {
        place: HERE,
        ty: CType::Void,
        kind,
    })
}

fn object(alloc: Global, x: &str, init: Option<Expr>) -> Result<Declared, AllocError> {
    Ok(Declared {
        place: HERE,
        name: Text::new(alloc, x.as_bytes())?,
        ty: CType::Void,
        length: None,
        constant: false,
        align: None,
        align_first: false,
        init,
        list: None,
    })
}

fn simple(alloc: Global, word: &str) -> Result<Stmt, AllocError> {
    if let Some(x) = word.strip_prefix('&') {
        return Ok(Stmt::Run(address(alloc, x)?));
    }
    let mut all = Vec::new(alloc);
    match word.split_once('=') {
        None => all.push(object(alloc, word, None)?)?,
        Some((x, y)) => {
            let init = address(alloc, y)?;
            all.push(object(alloc, x, Some(init))?)?;
        }
    }
    Ok(Stmt::Declare(all))
}

fn parts(alloc: Global, words: &str) -> Result<Vec<Stmt>, AllocError> {
    let mut all = Vec::new(alloc);
    for word in words.split(',') {
        all.push(simple(alloc, word)?)?;
    }
    Ok(all)
}

fn statement(alloc: Global, word: &str) -> Result<Stmt, Fail> {
    if let Some(inner) = word.strip_prefix('{') {
        return Ok(Stmt::Block(parts(alloc, inner.trim_end_matches('}'))?));
    }
    if let Some(inner) = word.strip_prefix('(') {
        let (start, body) = inner.trim_end_matches(')').split_once(',').ok_or("body")?;
        let start = Box::new(alloc, simple(alloc, start)?)?;
        let body = Box::new(alloc, simple(alloc, body)?)?;
        return Ok(Stmt::For(Some(start), None, None, body));
    }
    Ok(simple(alloc, word)?)
}

fn show_one(taken: &Taken, out: &mut String) -> Result<(), AllocError> {
    match taken {
        Taken::Objects(all) => for b in all {
            out.push(if *b { 'T' } else { 'F' })?;
        },
        Taken::Nothing | Taken::Parts(_) => out.push('.')?,
    }
    Ok(())
}

fn show(taken: &Taken, out: &mut String) -> Result<(), AllocError> {
    match taken {
        Taken::Parts(all) => {
            out.push('(')?;
            for part in all {
                show_one(part, out)?;
            }
            out.push(')')?;
        }
        Taken::Nothing | Taken::Objects(_) => show_one(taken, out)?,
    }
    Ok(())
}

fn outcome(alloc: Global, words: &str) -> Result<String, Fail> {
    let mut params = Vec::new(alloc);
    params.push(object(alloc, "p", None)?)?;
    let mut body = Vec::new(alloc);
    for word in words.split(' ') {
        body.push(statement(alloc, word)?)?;
    }
    let taken = address_taken(
        alloc,
        &Function {
            place: HERE,
            name: Text::new(alloc, b"f")?,
            result: CType::Void,
            params,
            is_static: false,
            is_inline: false,
            body,
        },
    )?;
    let mut out = String::new(alloc);
    for b in &taken.params {
        out.push(if *b { 'T' } else { 'F' })?;
    }
    out.push(' ')?;
    for part in &taken.body {
        show(part, &mut out)?;
    }
    Ok(out)
}

#[test]
fn addresses_are_found(rt: HostRuntime) -> Result<(), Fail> {
    for row in ROWS.lines() {
        let (words, want) = row.split_once(" -> ").ok_or("malformed")?;
        assert_eq!(rt; outcome(rt.alloc(), words)?.as_str(), want, "{row}");
    }
    Ok(())
}

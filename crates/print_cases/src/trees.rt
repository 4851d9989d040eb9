//! Small units that differ in one thing, and copies.

use c_tree::{
    CType, Declared, Expr, ExprKind, Function, IntType, Item, Num, Place, Pointee, Stmt, Text,
    Unit, same_is_an_equivalence,
};
use std::alloc::{AllocError, Global};
use std::test::Fail;

/// What may change in this unit:
/// `static const int t[LENGTH] = {1};` and `int f(void) { if (g(1, 2)) return (TO)x; else ; }`.
#[derive(Clone, Copy)]
struct Sample {
    /// The line of each place.
    line: u32,
    /// The type of each expression.
    ty: CType,
    /// The number in the array's type.
    number: u64,
    length: u8,
    is_static: bool,
    to: CType,
    /// A cast that isn't written stands round `x`.
    unwritten: bool,
    otherwise: bool,
    last_argument: bool,
}

const LONG: CType = CType::Int(IntType::Long);

fn base() -> Sample {
    Sample {
        line: 1,
        ty: CType::Void,
        number: 0,
        length: 2,
        is_static: true,
        to: LONG,
        unwritten: false,
        otherwise: true,
        last_argument: true,
    }
}

fn node(alloc: Global, s: Sample, kind: ExprKind) -> Result<Expr, AllocError> {
    let place = Place {
        line: s.line,
        col: 1,
    };
    let kind = Box::new(alloc, kind)?;
    Ok(Expr {
        place,
        ty: s.ty,
        kind,
    })
}

fn number(alloc: Global, s: Sample, n: u8) -> Result<Expr, AllocError> {
    let n = Num {
        ty: IntType::Int,
        value: n as i128,
    };
    node(alloc, s, ExprKind::Const(n))
}

fn table(alloc: Global, s: Sample) -> Result<Declared, AllocError> {
    let mut list = Vec::new(alloc);
    list.push(number(alloc, s, 1)?)?;
    Ok(Declared {
        place: Place {
            line: s.line,
            col: 1,
        },
        name: Text::new(alloc, b"t")?,
        ty: CType::Array(Pointee::Int(IntType::Int), s.number, true),
        length: Some(number(alloc, s, s.length)?),
        constant: true,
        align: None,
        align_first: false,
        init: None,
        list: Some(list),
    })
}

fn condition(alloc: Global, s: Sample) -> Result<Expr, AllocError> {
    let mut all = Vec::new(alloc);
    all.push(number(alloc, s, 1)?)?;
    if s.last_argument {
        all.push(number(alloc, s, 2)?)?;
    }
    let g = Text::new(alloc, b"g")?;
    node(alloc, s, ExprKind::Call(g, all))
}

fn value(alloc: Global, s: Sample) -> Result<Expr, AllocError> {
    let x = Text::new(alloc, b"x")?;
    let mut e = node(alloc, s, ExprKind::Name(x))?;
    if s.unwritten {
        e = node(alloc, s, ExprKind::Cast(LONG, e, false))?;
    }
    node(alloc, s, ExprKind::Cast(s.to, e, true))
}

fn branch(alloc: Global, s: Sample) -> Result<Stmt, AllocError> {
    let c = condition(alloc, s)?;
    let place = Place {
        line: s.line,
        col: 1,
    };
    let body = Box::new(alloc, Stmt::Return(place, Some(value(alloc, s)?)))?;
    if s.otherwise {
        let empty = Box::new(alloc, Stmt::Empty)?;
        Ok(Stmt::If(c, body, Some(empty)))
    } else {
        Ok(Stmt::If(c, body, None))
    }
}

fn function(alloc: Global, s: Sample) -> Result<Function, AllocError> {
    let mut body = Vec::new(alloc);
    body.push(branch(alloc, s)?)?;
    Ok(Function {
        place: Place {
            line: s.line,
            col: 1,
        },
        name: Text::new(alloc, b"f")?,
        result: CType::Int(IntType::Int),
        params: Vec::new(alloc),
        is_static: false,
        is_inline: false,
        body,
    })
}

fn unit(alloc: Global, s: Sample) -> Result<Unit, AllocError> {
    let mut items = Vec::new(alloc);
    items.push(Item::Table(table(alloc, s)?, s.is_static))?;
    items.push(Item::Function(function(alloc, s)?))?;
    Ok(Unit { items })
}

#[test]
fn compares(rt: HostRuntime) -> Result<(), Fail> {
    let alloc = rt.alloc();
    let b = base();
    let int = CType::Int(IntType::Int);
    let rows = [
        ("nothing", b, true),
        ("places", Sample { line: 7, ..b }, true),
        ("types of expressions", Sample { ty: int, ..b }, true),
        ("the number in a type", Sample { number: 2, ..b }, true),
        (
            "an unwritten cast",
            Sample {
                unwritten: true,
                ..b
            },
            true,
        ),
        ("a written length", Sample { length: 3, ..b }, false),
        (
            "static",
            Sample {
                is_static: false,
                ..b
            },
            false,
        ),
        ("a written cast", Sample { to: int, ..b }, false),
        (
            "an else",
            Sample {
                otherwise: false,
                ..b
            },
            false,
        ),
        (
            "the last argument",
            Sample {
                last_argument: false,
                ..b
            },
            false,
        ),
    ];
    let first = unit(alloc, b)?;
    for (what, sample, want) in rows {
        let second = unit(alloc, sample)?;
        assert_eq!(rt; first.same(&second), want, "{what}");
        assert_eq!(rt; second.same(&first), want, "{what}");
    }
    Ok(())
}

// A unit of one function whose body is these statements.
fn body_alone(alloc: Global, s: Sample, body: Vec<Stmt>) -> Result<Unit, AllocError> {
    let mut f = function(alloc, s)?;
    f.body = body;
    let mut items = Vec::new(alloc);
    items.push(Item::Function(f))?;
    Ok(Unit { items })
}

// Whether two statements are the same.
fn same_statements(alloc: Global, s: Sample, a: Stmt, b: Stmt) -> Result<bool, AllocError> {
    let mut first = Vec::new(alloc);
    first.push(a)?;
    let mut second = Vec::new(alloc);
    second.push(b)?;
    let first = body_alone(alloc, s, first)?;
    Ok(first.same(&body_alone(alloc, s, second)?))
}

fn declared(alloc: Global, object: Declared) -> Result<Stmt, AllocError> {
    let mut all = Vec::new(alloc);
    all.push(object)?;
    Ok(Stmt::Declare(all))
}

#[test]
fn copies(rt: HostRuntime) -> Result<(), Fail> {
    let alloc = rt.alloc();
    let s = Sample { line: 7, ..base() };
    let e = value(alloc, s)?;
    let again = e.copy(alloc)?;
    assert_eq!(rt; again.place, e.place);
    assert!(rt; same_statements(alloc, s, Stmt::Run(e), Stmt::Run(again))?);
    let d = table(alloc, s)?;
    let again = declared(alloc, d.copy(alloc)?)?;
    assert!(rt; same_statements(alloc, s, declared(alloc, d)?, again)?);
    let i = branch(alloc, s)?;
    let again = i.copy(alloc)?;
    assert!(rt; same_statements(alloc, s, i, again)?);
    let f = function(alloc, s)?;
    assert_eq!(rt; f.copy(alloc)?.place, f.place);
    let u = unit(alloc, s)?;
    assert!(rt; u.same(&u.copy(alloc)?));
    for item in &u.items {
        let item = item.copy(alloc)?;
        assert!(rt; matches!(item, Item::Function(_) | Item::Table(_, true)));
    }
    same_is_an_equivalence();
    Ok(())
}

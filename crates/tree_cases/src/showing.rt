//! Trees as texts: brackets round all operators and what they stand with. A cast is written `<T>a`, the sizes of a type and of a name `sizeof<T>` and
//! `sizeof x`, a pair `{a, b}`; a body is in square brackets, `:` stands behind the name of an object or a function, and `-` where a part of a `for` is left out.

use crate::reading::put;
use c_tree::{BinOp, CType, Declared, Expr, ExprKind, Function, IntType, Item, Stmt, UnOp, Unit};
use std::alloc::{AllocError, Global};

fn sign_of(op: BinOp) -> &'static str {
    match op {
        BinOp::Mul => "*",
        BinOp::Div => "/",
        BinOp::Rem => "%",
        BinOp::Add => "+",
        BinOp::Sub => "-",
        BinOp::Shl => "<<",
        BinOp::Shr => ">>",
        BinOp::Lt => "<",
        BinOp::Gt => ">",
        BinOp::Le => "<=",
        BinOp::Ge => ">=",
        BinOp::Eq => "==",
        BinOp::Ne => "!=",
        BinOp::BitAnd => "&",
        BinOp::BitXor => "^",
        BinOp::BitOr => "|",
    }
}

fn prefix_of(op: UnOp) -> &'static str {
    match op {
        UnOp::Plus => "+",
        UnOp::Neg => "-",
        UnOp::BitNot => "~",
        UnOp::Not => "!",
    }
}

fn step_of(up: bool) -> &'static str {
    if up { "++" } else { "--" }
}

// An operator, and its operand behind it.
#[cycle(showing)]
fn show_prefix(alloc: Global, out: &mut Vec<u8>, op: &str, a: &Expr) -> Result<(), AllocError> {
    put(out, "(")?;
    put(out, op)?;
    show(alloc, out, a)?;
    put(out, ")")
}

// The first of two operands and the operator behind it.
#[cycle(showing)]
fn show_first(alloc: Global, out: &mut Vec<u8>, a: &Expr, op: &str) -> Result<(), AllocError> {
    put(out, "(")?;
    show(alloc, out, a)?;
    put(out, " ")?;
    put(out, op)?;
    put(out, " ")
}

// The last operand.
#[cycle(showing)]
fn show_last(alloc: Global, out: &mut Vec<u8>, a: &Expr) -> Result<(), AllocError> {
    show(alloc, out, a)?;
    put(out, ")")
}

// Expressions with commas between them, in brackets.
#[cycle(showing)]
fn show_all(alloc: Global, out: &mut Vec<u8>, all: &[Expr]) -> Result<(), AllocError> {
    put(out, "(")?;
    let mut first = true;
    for a in all {
        if !first {
            put(out, ", ")?;
        }
        first = false;
        show(alloc, out, a)?;
    }
    put(out, ")")
}

pub(crate) fn show_type(alloc: Global, out: &mut Vec<u8>, ty: CType) -> Result<(), AllocError> {
    let text = format!(in alloc; "<{ty:?}>")?;
    put(out, text.as_str())
}

// What has no expression in it.
fn show_leaf(alloc: Global, out: &mut Vec<u8>, e: &Expr) -> Result<(), AllocError> {
    match &*e.kind {
        ExprKind::Const(n) => {
            let value = n.value;
            let ty = n.ty;
            let text = if ty == IntType::Int {
                format!(in alloc; "{value}")?
            } else {
                format!(in alloc; "{value} {ty:?}")?
            };
            put(out, text.as_str())
        }
        ExprKind::Name(x) => {
            out.extend_from_slice(x.bytes())?;
            Ok(())
        }
        ExprKind::SizeOfType(ty) => {
            put(out, "sizeof")?;
            show_type(alloc, out, *ty)
        }
        ExprKind::SizeOfName(x) => {
            put(out, "sizeof ")?;
            out.extend_from_slice(x.bytes())?;
            Ok(())
        }
        _ => put(out, "another form"),
    }
}

// A base with an index or a half, and a pair.
#[cycle(showing)]
fn show_postfix(alloc: Global, out: &mut Vec<u8>, e: &Expr) -> Result<(), AllocError> {
    match &*e.kind {
        ExprKind::Index(a, b) => {
            show(alloc, out, a)?;
            put(out, "[")?;
            show(alloc, out, b)?;
            put(out, "]")
        }
        ExprKind::Half(a, which) => {
            show(alloc, out, a)?;
            let text = format!(in alloc; ".val[{which}]")?;
            put(out, text.as_str())
        }
        ExprKind::PairOf(a, b) => {
            put(out, "{")?;
            show(alloc, out, a)?;
            put(out, ", ")?;
            show(alloc, out, b)?;
            put(out, "}")
        }
        _ => show_leaf(alloc, out, e),
    }
}

// Operators between operands.
#[cycle(showing)]
fn show_operands(alloc: Global, out: &mut Vec<u8>, e: &Expr) -> Result<(), AllocError> {
    match &*e.kind {
        ExprKind::Binary(op, a, b) => {
            show_first(alloc, out, a, sign_of(*op))?;
            show_last(alloc, out, b)
        }
        ExprKind::AndThen(a, b) => {
            show_first(alloc, out, a, "&&")?;
            show_last(alloc, out, b)
        }
        ExprKind::OrElse(a, b) => {
            show_first(alloc, out, a, "||")?;
            show_last(alloc, out, b)
        }
        ExprKind::Choice(c, a, b) => {
            show_first(alloc, out, c, "?")?;
            show(alloc, out, a)?;
            put(out, " : ")?;
            show_last(alloc, out, b)
        }
        ExprKind::Assign(None, a, b) => {
            show_first(alloc, out, a, "=")?;
            show_last(alloc, out, b)
        }
        ExprKind::Assign(Some(op), a, b) => {
            let sign = sign_of(*op);
            let text = format!(in alloc; "{sign}=")?;
            show_first(alloc, out, a, text.as_str())?;
            show_last(alloc, out, b)
        }
        _ => show_postfix(alloc, out, e),
    }
}

#[cycle(showing)]
pub(crate) fn show(alloc: Global, out: &mut Vec<u8>, e: &Expr) -> Result<(), AllocError> {
    match &*e.kind {
        ExprKind::Unary(op, a) => show_prefix(alloc, out, prefix_of(*op), a),
        ExprKind::Deref(a) => show_prefix(alloc, out, "*", a),
        ExprKind::Address(a) => show_prefix(alloc, out, "&", a),
        ExprKind::Step(a, up, true) => show_prefix(alloc, out, step_of(*up), a),
        ExprKind::Step(a, up, false) => {
            put(out, "(")?;
            show(alloc, out, a)?;
            put(out, step_of(*up))?;
            put(out, ")")
        }
        ExprKind::Cast(ty, a, _) => {
            show_type(alloc, out, *ty)?;
            show(alloc, out, a)
        }
        ExprKind::Comma(all) => show_all(alloc, out, all.as_slice()),
        ExprKind::Call(f, all) => {
            out.extend_from_slice(f.bytes())?;
            show_all(alloc, out, all.as_slice())
        }
        _ => show_operands(alloc, out, e),
    }
}

// An expression behind a word, if there is one.
fn show_part(
    alloc: Global,
    out: &mut Vec<u8>,
    word: &str,
    part: &Option<Expr>,
) -> Result<(), AllocError> {
    match part {
        Some(e) => {
            put(out, word)?;
            show(alloc, out, e)
        }
        None => Ok(()),
    }
}

fn show_list(alloc: Global, out: &mut Vec<u8>, all: &[Expr]) -> Result<(), AllocError> {
    let mut before = "";
    for e in all {
        put(out, before)?;
        before = ", ";
        show(alloc, out, e)?;
    }
    Ok(())
}

pub(crate) fn show_object(
    alloc: Global,
    out: &mut Vec<u8>,
    object: &Declared,
) -> Result<(), AllocError> {
    out.extend_from_slice(object.name.bytes())?;
    put(out, ": ")?;
    show_type(alloc, out, object.ty)?;
    if object.constant {
        put(out, " const")?;
    }
    show_part(alloc, out, " align ", &object.align)?;
    show_part(alloc, out, " length ", &object.length)?;
    show_part(alloc, out, " = ", &object.init)?;
    if let Some(list) = &object.list {
        put(out, " = {")?;
        show_list(alloc, out, list.as_slice())?;
        put(out, "}")?;
    }
    Ok(())
}

pub(crate) fn show_objects(
    alloc: Global,
    out: &mut Vec<u8>,
    all: &[Declared],
) -> Result<(), AllocError> {
    let mut before = "";
    for object in all {
        put(out, before)?;
        before = ", ";
        show_object(alloc, out, object)?;
    }
    Ok(())
}

pub(crate) fn show_heading(
    alloc: Global,
    out: &mut Vec<u8>,
    f: &Function,
) -> Result<(), AllocError> {
    if f.is_static {
        put(out, "static ")?;
    }
    if f.is_inline {
        put(out, "inline ")?;
    }
    out.extend_from_slice(f.name.bytes())?;
    put(out, ": ")?;
    show_type(alloc, out, f.result)?;
    put(out, "(")?;
    show_objects(alloc, out, f.params.as_slice())?;
    put(out, ")")
}

// An expression that may be left out.
fn show_optional(alloc: Global, out: &mut Vec<u8>, part: &Option<Expr>) -> Result<(), AllocError> {
    match part {
        Some(e) => show(alloc, out, e),
        None => put(out, "-"),
    }
}

// A statement in which no other stands.
fn show_simple(alloc: Global, out: &mut Vec<u8>, s: &Stmt) -> Result<(), AllocError> {
    match s {
        Stmt::Declare(all) => show_objects(alloc, out, all.as_slice())?,
        Stmt::Run(e) => show(alloc, out, e)?,
        Stmt::Break(_) => put(out, "break")?,
        Stmt::Continue(_) => put(out, "continue")?,
        Stmt::Return(_, None) => put(out, "return")?,
        Stmt::Return(_, Some(e)) => {
            put(out, "return ")?;
            show(alloc, out, e)?;
        }
        _ => {}
    }
    put(out, ";")
}

#[cycle(showing_statements)]
fn show_body(alloc: Global, out: &mut Vec<u8>, body: &Stmt) -> Result<(), AllocError> {
    put(out, " [")?;
    show_stmt(alloc, out, body)?;
    put(out, "]")
}

#[cycle(showing_statements)]
fn show_stmts(alloc: Global, out: &mut Vec<u8>, all: &[Stmt]) -> Result<(), AllocError> {
    let mut before = "";
    for s in all {
        put(out, before)?;
        before = " ";
        show_stmt(alloc, out, s)?;
    }
    Ok(())
}

#[cycle(showing_statements)]
fn show_loop(alloc: Global, out: &mut Vec<u8>, s: &Stmt) -> Result<(), AllocError> {
    match s {
        Stmt::While(c, body) => {
            put(out, "while ")?;
            show(alloc, out, c)?;
            show_body(alloc, out, body)
        }
        Stmt::DoWhile(body, c) => {
            put(out, "do")?;
            show_body(alloc, out, body)?;
            put(out, " while ")?;
            show(alloc, out, c)?;
            put(out, ";")
        }
        Stmt::For(start, c, step, body) => {
            put(out, "for (")?;
            match start {
                Some(start) => show_simple(alloc, out, start)?,
                None => put(out, "-")?,
            }
            put(out, " ")?;
            show_optional(alloc, out, c)?;
            put(out, " ")?;
            show_optional(alloc, out, step)?;
            put(out, ")")?;
            show_body(alloc, out, body)
        }
        _ => show_simple(alloc, out, s),
    }
}

#[cycle(showing_statements)]
fn show_stmt(alloc: Global, out: &mut Vec<u8>, s: &Stmt) -> Result<(), AllocError> {
    match s {
        Stmt::Block(all) => {
            put(out, "{")?;
            show_stmts(alloc, out, all.as_slice())?;
            put(out, "}")
        }
        Stmt::If(c, body, None) => {
            put(out, "if ")?;
            show(alloc, out, c)?;
            show_body(alloc, out, body)
        }
        Stmt::If(c, body, Some(other)) => {
            put(out, "if ")?;
            show(alloc, out, c)?;
            show_body(alloc, out, body)?;
            put(out, " else")?;
            show_body(alloc, out, other)
        }
        _ => show_loop(alloc, out, s),
    }
}

fn show_item(alloc: Global, out: &mut Vec<u8>, item: &Item) -> Result<(), AllocError> {
    match item {
        Item::Function(f) => {
            show_heading(alloc, out, f)?;
            put(out, " [")?;
            show_stmts(alloc, out, f.body.as_slice())?;
            put(out, "]")
        }
        Item::Table(object, is_static) => {
            put(
                out,
                if *is_static {
                    "static table "
                } else {
                    "table "
                },
            )?;
            show_object(alloc, out, object)?;
            put(out, ";")
        }
    }
}

pub(crate) fn show_unit(alloc: Global, out: &mut Vec<u8>, unit: &Unit) -> Result<(), AllocError> {
    let mut before = "";
    for item in unit.items.as_slice() {
        put(out, before)?;
        before = " ";
        show_item(alloc, out, item)?;
    }
    Ok(())
}

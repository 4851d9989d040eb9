//! The names that a unit calls.

use c_tree::{Declared, Expr, ExprKind, Item, Stmt};
use std::alloc::{AllocError, Global};

/// Adds the names that an expression calls.
#[cycle(called)]
fn add_called<'a>(names: &mut Vec<&'a [u8]>, e: &'a Expr) -> Result<(), AllocError> {
    match &*e.kind {
        ExprKind::Unary(_, a) | ExprKind::Step(a, _, _) | ExprKind::Cast(_, a, _) => {
            add_called(names, a)
        }
        ExprKind::Deref(a) | ExprKind::Address(a) | ExprKind::Half(a, _) => add_called(names, a),
        ExprKind::Binary(_, a, b) | ExprKind::Assign(_, a, b) => {
            add_called(names, a)?;
            add_called(names, b)
        }
        ExprKind::AndThen(a, b) | ExprKind::OrElse(a, b) => {
            add_called(names, a)?;
            add_called(names, b)
        }
        ExprKind::Index(a, b) | ExprKind::PairOf(a, b) => {
            add_called(names, a)?;
            add_called(names, b)
        }
        ExprKind::Choice(c, a, b) => {
            add_called(names, c)?;
            add_called(names, a)?;
            add_called(names, b)
        }
        ExprKind::Comma(all) => add_of_all(names, all.as_slice()),
        ExprKind::Call(name, all) => {
            names.push(name.bytes())?;
            add_of_all(names, all.as_slice())
        }
        ExprKind::Const(_) | ExprKind::Name(_) | ExprKind::SizeOfType(_) => Ok(()),
        ExprKind::SizeOfName(_) | ExprKind::Str(_) => Ok(()),
    }
}

#[cycle(called)]
fn add_of_all<'a>(names: &mut Vec<&'a [u8]>, all: &'a [Expr]) -> Result<(), AllocError> {
    for e in all {
        add_called(names, e)?;
    }
    Ok(())
}

/// The same of an expression that may be left out.
fn add_of_optional<'a>(names: &mut Vec<&'a [u8]>, e: &'a Option<Expr>) -> Result<(), AllocError> {
    match e {
        None => Ok(()),
        Some(e) => add_called(names, e),
    }
}

/// The same of first values.
fn add_of_objects<'a>(names: &mut Vec<&'a [u8]>, all: &'a [Declared]) -> Result<(), AllocError> {
    for d in all {
        add_of_optional(names, &d.init)?;
    }
    Ok(())
}

/// Adds the names that a statement calls.
#[cycle(statements)]
fn add_of_statement<'a>(names: &mut Vec<&'a [u8]>, s: &'a Stmt) -> Result<(), AllocError> {
    match s {
        Stmt::Declare(all) => add_of_objects(names, all.as_slice()),
        Stmt::Run(e) => add_called(names, e),
        Stmt::Block(all) => add_of_statements(names, all.as_slice()),
        Stmt::If(c, s, other) => {
            add_called(names, c)?;
            add_of_statement(names, s)?;
            add_of_maybe(names, other)
        }
        Stmt::While(c, s) | Stmt::DoWhile(s, c) => {
            add_called(names, c)?;
            add_of_statement(names, s)
        }
        Stmt::For(start, c, next, s) => {
            add_of_maybe(names, start)?;
            add_of_optional(names, c)?;
            add_of_optional(names, next)?;
            add_of_statement(names, s)
        }
        Stmt::Return(_, e) => add_of_optional(names, e),
        Stmt::Break(_) | Stmt::Continue(_) | Stmt::Empty => Ok(()),
    }
}

#[cycle(statements)]
fn add_of_maybe<'a>(names: &mut Vec<&'a [u8]>, s: &'a Option<Box<Stmt>>) -> Result<(), AllocError> {
    match s {
        None => Ok(()),
        Some(s) => add_of_statement(names, s),
    }
}

#[cycle(statements)]
fn add_of_statements<'a>(names: &mut Vec<&'a [u8]>, all: &'a [Stmt]) -> Result<(), AllocError> {
    for s in all {
        add_of_statement(names, s)?;
    }
    Ok(())
}

/// The names that the functions of these items call, one for each call: only how soon a row is found hangs on them. The only error is
/// want of memory.
pub(crate) fn called_names<'a>(
    alloc: Global,
    items: &'a [Item],
) -> Result<Vec<&'a [u8]>, AllocError> {
    let mut names = Vec::new(alloc);
    for item in items {
        if let Item::Function(function) = item {
            add_of_statements(&mut names, function.body.as_slice())?;
        }
    }
    Ok(names)
}

//! Statements.

ghost use Rattle.std.specs.Prelude.{◌≡◌, ◌++◌, ◌+◌, codes, option_map, OnOk, IfOk};
ghost use Rattle.c_tree.specs.View.{view, view_stmt, view_stmts, view_optional};
ghost use Rattle.c_tree.specs.Tree.{Block, Present};
ghost use Rattle.c_print.specs.declared.statements.Position.TheVariants.{Body};
ghost use Rattle.c_print.specs.Expressions.{text};
ghost use Rattle.c_print.specs.Statements.{margin, first_text, is_if, optional_text, simple_text, start_text, for_text, braced, statement_text, otherwise_text, statements_text};

use crate::declarations::write_declaration;
use crate::expressions::write_text;
use c_tree::{Expr, Stmt};
use std::alloc::{AllocError, Global};

/// Where a statement stands.
#[derive(Clone, Copy, Debug, PartialEq, Eq)]
pub enum Position {
    /// On lines of its own.
    Line,
    /// In the braces of a heading, as its body.
    Body,
    /// Behind a bracket that closes, on its line.
    Else,
}

/// What a line begins with: four spaces for each level.
fn write_margin(out: &mut Vec<u8>, depth: usize) -> Result<(), AllocError>
    ensures { OnOk result (out.new.items ≡ out.old.items ++ margin depth) }
{
    for level in 0..depth {
        out.extend_from_slice(b"    ")?;
    }
    Ok(())
}

/// What a statement's first line begins with.
fn write_first(out: &mut Vec<u8>, position: Position, depth: usize) -> Result<(), AllocError>
    ensures { OnOk result (out.new.items ≡ out.old.items ++ first_text position depth) }
{
    match position {
        Position::Else => out.extend_from_slice(b" else "),
        Position::Line | Position::Body => write_margin(out, depth),
    }
}

/// The next level. There is no memory for a tree that has none.
fn deeper(depth: usize) -> Result<usize, AllocError>
    ensures { IfOk result (λ next. next ≡ depth + 1) }
{
    match depth.checked_add(1) {
        Some(next) => Ok(next),
        None => Err(AllocError),
    }
}

/// An expression that may be left out, together with the space before it.
fn write_optional(out: &mut Vec<u8>, e: &Option<Expr>) -> Result<(), AllocError>
    ensures { OnOk result (out.new.items ≡ out.old.items ++ optional_text (option_map view e.now)) }
{
    match e {
        None => Ok(()),
        Some(e) => {
            out.extend_from_slice(b" ")?;
            write_text(out, e)
        }
    }
}

/// A statement with no others in it, without its `;`.
fn write_simple(alloc: Global, out: &mut Vec<u8>, s: &Stmt) -> Result<(), AllocError>
    ensures { OnOk result (out.new.items ≡ out.old.items ++ simple_text (view_stmt s.now)) }
{
    match s {
        Stmt::Declare(all) => write_declaration(alloc, out, all.as_slice()),
        Stmt::Run(e) => write_text(out, e),
        Stmt::Break(_) => out.extend_from_slice(b"break"),
        Stmt::Continue(_) => out.extend_from_slice(b"continue"),
        Stmt::Return(_, e) => {
            out.extend_from_slice(b"return")?;
            write_optional(out, e)
        }
        _ => Ok(()),
    }
}

/// A statement with no others in it.
fn write_simple_line(
    alloc: Global,
    out: &mut Vec<u8>,
    position: Position,
    depth: usize,
    s: &Stmt,
) -> Result<(), AllocError>
    ensures { OnOk result (out.new.items ≡ out.old.items ++ (first_text position depth ++ (simple_text (view_stmt s.now) ++ codes ";\n"))) }
{
    write_first(out, position, depth)?;
    write_simple(alloc, out, s)?;
    out.extend_from_slice(b";\n")
}

/// The start of a `for`: a declaration, an expression or nothing.
fn write_start(
    alloc: Global,
    out: &mut Vec<u8>,
    start: &Option<Box<Stmt>>,
) -> Result<(), AllocError>
    ensures { OnOk result (out.new.items ≡ out.old.items ++ start_text (view_optional start.now)) }
{
    match start {
        None => Ok(()),
        Some(s) => write_simple(alloc, out, s),
    }
}

/// The heading of a `for`. A part that is left out has no space before it.
fn write_for(
    alloc: Global,
    out: &mut Vec<u8>,
    start: &Option<Box<Stmt>>,
    condition: &Option<Expr>,
    next: &Option<Expr>,
) -> Result<(), AllocError>
    ensures { OnOk result (out.new.items ≡ out.old.items ++ for_text (view_optional start.now) (option_map view condition.now) (option_map view next.now)) }
{
    out.extend_from_slice(b"for (")?;
    write_start(alloc, out, start)?;
    out.extend_from_slice(b";")?;
    write_optional(out, condition)?;
    out.extend_from_slice(b";")?;
    write_optional(out, next)?;
    out.extend_from_slice(b") ")
}

/// A heading with its condition in brackets.
fn write_heading(out: &mut Vec<u8>, opening: &[u8], c: &Expr) -> Result<(), AllocError>
    ensures { OnOk result (out.new.items ≡ out.old.items ++ (opening.now ++ (text (view c.now) ++ codes ") "))) }
{
    out.extend_from_slice(opening)?;
    write_text(out, c)?;
    out.extend_from_slice(b") ")
}

/// The end of a `do`, behind its body.
fn write_do_end(out: &mut Vec<u8>, c: &Expr) -> Result<(), AllocError>
    ensures { OnOk result (out.new.items ≡ out.old.items ++ (codes " while (" ++ (text (view c.now) ++ codes ");\n"))) }
{
    out.extend_from_slice(b" while (")?;
    write_text(out, c)?;
    out.extend_from_slice(b");\n")
}

/// What the braces of a block begin with.
fn write_opening(out: &mut Vec<u8>) -> Result<(), AllocError>
    ensures { OnOk result (out.new.items ≡ out.old.items ++ codes "{\n") }
{
    out.extend_from_slice(b"{\n")
}

/// What they end with.
fn write_closing(out: &mut Vec<u8>, depth: usize) -> Result<(), AllocError>
    ensures { OnOk result (out.new.items ≡ out.old.items ++ (margin depth ++ codes "}")) }
{
    write_margin(out, depth)?;
    out.extend_from_slice(b"}")
}

/// A body in its braces.
#[cycle(printer)]
fn write_body(alloc: Global, out: &mut Vec<u8>, depth: usize, s: &Stmt) -> Result<(), AllocError>
    ensures { OnOk result (out.new.items ≡ out.old.items ++ braced depth (statement_text Body (depth + 1) (view_stmt s.now))) }
{
    write_opening(out)?;
    write_stmt(alloc, out, Position::Body, deeper(depth)?, s)?;
    write_closing(out, depth)
}

/// A body in its braces, to the end of the line.
#[cycle(printer)]
fn write_last_body(
    alloc: Global,
    out: &mut Vec<u8>,
    depth: usize,
    s: &Stmt,
) -> Result<(), AllocError>
    ensures { OnOk result (out.new.items ≡ out.old.items ++ (braced depth (statement_text Body (depth + 1) (view_stmt s.now)) ++ codes "\n")) }
{
    write_body(alloc, out, depth, s)?;
    out.extend_from_slice(b"\n")
}

/// The statements of a block in braces.
#[cycle(printer)]
pub fn write_block(
    alloc: Global,
    out: &mut Vec<u8>,
    depth: usize,
    all: &[Stmt],
) -> Result<(), AllocError>
    ensures { OnOk result (out.new.items ≡ out.old.items ++ braced depth (statements_text (depth + 1) (view_stmts all.now))) }
{
    write_opening(out)?;
    write_stmts(alloc, out, deeper(depth)?, all)?;
    write_closing(out, depth)
}

/// A block. One that is a body stands in the braces of its heading.
#[cycle(printer)]
fn write_bare_block(
    alloc: Global,
    out: &mut Vec<u8>,
    position: Position,
    depth: usize,
    all: &[Stmt],
) -> Result<(), AllocError>
    ensures { OnOk result (out.new.items ≡ out.old.items ++ statement_text position depth (Block (view_stmts all.now))) }
{
    match position {
        Position::Body => write_stmts(alloc, out, depth, all),
        Position::Line | Position::Else => {
            write_first(out, position, depth)?;
            write_block(alloc, out, depth, all)?;
            out.extend_from_slice(b"\n")
        }
    }
}

/// A statement.
#[cycle(printer)]
fn write_stmt(
    alloc: Global,
    out: &mut Vec<u8>,
    position: Position,
    depth: usize,
    s: &Stmt,
) -> Result<(), AllocError>
    ensures { OnOk result (out.new.items ≡ out.old.items ++ statement_text position depth (view_stmt s.now)) }
{
    match s {
        Stmt::Block(all) => write_bare_block(alloc, out, position, depth, all.as_slice()),
        Stmt::If(c, body, otherwise) => {
            write_first(out, position, depth)?;
            write_heading(out, b"if (", c)?;
            write_body(alloc, out, depth, body)?;
            write_otherwise(alloc, out, depth, otherwise)
        }
        Stmt::While(c, body) => {
            write_first(out, position, depth)?;
            write_heading(out, b"while (", c)?;
            write_last_body(alloc, out, depth, body)
        }
        Stmt::DoWhile(body, c) => {
            write_first(out, position, depth)?;
            out.extend_from_slice(b"do ")?;
            write_body(alloc, out, depth, body)?;
            write_do_end(out, c)
        }
        Stmt::For(start, c, next, body) => {
            write_first(out, position, depth)?;
            write_for(alloc, out, start, c, next)?;
            write_last_body(alloc, out, depth, body)
        }
        Stmt::Declare(_)
        | Stmt::Run(_)
        | Stmt::Break(_)
        | Stmt::Continue(_)
        | Stmt::Return(_, _)
        | Stmt::Empty => write_simple_line(alloc, out, position, depth, s),
    }
}

/// What is behind the body of an `if`.
#[cycle(printer)]
fn write_otherwise(
    alloc: Global,
    out: &mut Vec<u8>,
    depth: usize,
    otherwise: &Option<Box<Stmt>>,
) -> Result<(), AllocError>
    ensures { OnOk result (out.new.items ≡ out.old.items ++ otherwise_text depth (view_optional otherwise.now)) }
{
    match otherwise {
        None => out.extend_from_slice(b"\n"),
        Some(s) => write_else(alloc, out, depth, s),
    }
}

fn is_if(s: &Stmt) -> bool
    ensures { result ≡ is_if (view_stmt s.now) }
{
    matches!(s, Stmt::If(_, _, _))
}

/// An `else`. An `if` stands on its line.
#[cycle(printer)]
fn write_else(alloc: Global, out: &mut Vec<u8>, depth: usize, s: &Stmt) -> Result<(), AllocError>
    ensures { OnOk result (out.new.items ≡ out.old.items ++ otherwise_text depth (Present (view_stmt s.now))) }
{
    if is_if(s) {
        return write_stmt(alloc, out, Position::Else, depth, s);
    }
    out.extend_from_slice(b" else ")?;
    write_last_body(alloc, out, depth, s)
}

/// Statements one behind another.
#[cycle(printer)]
fn write_stmts(
    alloc: Global,
    out: &mut Vec<u8>,
    depth: usize,
    all: &[Stmt],
) -> Result<(), AllocError>
    ensures { OnOk result (out.new.items ≡ out.old.items ++ statements_text depth (view_stmts all.now)) }
{
    for s in all {
        write_stmt(alloc, out, Position::Line, depth, s)?;
    }
    Ok(())
}

//! Expressions.

ghost use Rattle.std.specs.Prelude.{◌≡◌, ◌++◌, ◌+◌, ◌<◌, true, codes, OnOk};
ghost use Rattle.c_tree.specs.View.{view, views};
ghost use Rattle.c_tree.specs.Operators.{operator_text, prefix_text, step_text};
ghost use Rattle.c_print.specs.Expressions.{assignment_text, operator_level, constant_level, step_level, level, opening, closing, is_joined, is_wrapped_operand, pair_opening, spaced, text, kind_text, part, operand, list_text};
ghost use Rattle.c_tree.specs.Tree.{Step, Cast, Call, Half, SizeOfType, SizeOfName};

use crate::constants::write_constant;
use crate::types::{write_decimal, write_type};
use c_tree::{
    BinOp, CType, Expr, ExprKind, Num, Text, UnOp, operator_text, prefix_text, step_text,
};
use std::alloc::AllocError;

/// How tight an operator binds.
fn operator_level(op: BinOp) -> u8
    ensures value { result ≡ operator_level op }
    ensures bound { result < 18 }
{
    match op {
        BinOp::BitOr => 5,
        BinOp::BitXor => 6,
        BinOp::BitAnd => 7,
        BinOp::Eq | BinOp::Ne => 8,
        BinOp::Lt | BinOp::Gt | BinOp::Le | BinOp::Ge => 9,
        BinOp::Shl | BinOp::Shr => 10,
        BinOp::Add | BinOp::Sub => 11,
        BinOp::Mul | BinOp::Div | BinOp::Rem => 12,
    }
}

/// The level of a number: a negative one is a prefix operation.
fn constant_level(n: Num) -> u8
    ensures { result ≡ constant_level n }
{
    if n.value < 0 { 14 } else { 17 }
}

fn step_level(before: bool) -> u8
    ensures { result ≡ step_level before }
{
    if before { 14 } else { 15 }
}

/// The level of an expression; that of a cast that isn't written is its operand's.
fn level(e: &Expr) -> u8
    ensures { result ≡ level (view e.now) }
{
    match &*e.kind {
        ExprKind::Const(n) => constant_level(*n),
        ExprKind::Unary(_, _) | ExprKind::Deref(_) | ExprKind::Address(_) => 14,
        ExprKind::Step(_, _, before) => step_level(*before),
        ExprKind::Binary(op, _, _) => operator_level(*op),
        ExprKind::AndThen(_, _) => 4,
        ExprKind::OrElse(_, _) => 3,
        ExprKind::Choice(_, _, _) => 2,
        ExprKind::Assign(_, _, _) => 1,
        ExprKind::Comma(_) => 0,
        ExprKind::Cast(_, _, true) => 13,
        ExprKind::Cast(_, a, false) => level(a),
        ExprKind::Index(_, _) => 16,
        ExprKind::Half(_, _) => 15,
        ExprKind::SizeOfType(_) | ExprKind::SizeOfName(_) => 14,
        ExprKind::Name(_) | ExprKind::Call(_, _) | ExprKind::PairOf(_, _) | ExprKind::Str(_) => 18,
    }
}

/// A bracket, if one is needed.
fn open(out: &mut Vec<u8>, needed: bool) -> Result<(), AllocError>
    ensures { OnOk result (out.new.items ≡ out.old.items ++ opening needed) }
{
    if needed {
        out.extend_from_slice(b"(")
    } else {
        Ok(())
    }
}

fn close(out: &mut Vec<u8>, needed: bool) -> Result<(), AllocError>
    ensures { OnOk result (out.new.items ≡ out.old.items ++ closing needed) }
{
    if needed {
        out.extend_from_slice(b")")
    } else {
        Ok(())
    }
}

/// Whether an expression of this level has brackets behind a prefix operator.
fn is_wrapped_operand(level: u8) -> bool
    ensures { result ≡ is_wrapped_operand level }
{
    level < 15 && level != 13
}

/// An operator with a space on each side.
fn write_spaced(out: &mut Vec<u8>, operator: &[u8]) -> Result<(), AllocError>
    ensures { OnOk result (out.new.items ≡ out.old.items ++ spaced operator.now) }
{
    out.extend_from_slice(b" ")?;
    out.extend_from_slice(operator)?;
    out.extend_from_slice(b" ")
}

/// An assignment's operator with a space on each side.
fn write_assignment_operator(out: &mut Vec<u8>, op: Option<BinOp>) -> Result<(), AllocError>
    ensures { OnOk result (out.new.items ≡ out.old.items ++ assignment_text op) }
{
    match op {
        None => out.extend_from_slice(b" = "),
        Some(op) => {
            out.extend_from_slice(b" ")?;
            out.extend_from_slice(operator_text(op))?;
            out.extend_from_slice(b"= ")
        }
    }
}

/// An expression where one of this level or a tighter one is wanted.
#[cycle(printer)]
pub fn write_part(out: &mut Vec<u8>, wanted: u8, e: &Expr) -> Result<(), AllocError>
    ensures { OnOk result (out.new.items ≡ out.old.items ++ part wanted (view e.now)) }
{
    let needed = level(e) < wanted;
    open(out, needed)?;
    write_text(out, e)?;
    close(out, needed)
}

/// An expression behind a prefix operator.
#[cycle(printer)]
fn write_operand(out: &mut Vec<u8>, e: &Expr) -> Result<(), AllocError>
    ensures { OnOk result (out.new.items ≡ out.old.items ++ operand (view e.now)) }
{
    let needed = is_wrapped_operand(level(e));
    open(out, needed)?;
    write_text(out, e)?;
    close(out, needed)
}

/// An operator and its operand behind it.
#[cycle(printer)]
fn write_prefixed(out: &mut Vec<u8>, operator: &[u8], a: &Expr) -> Result<(), AllocError>
    ensures { OnOk result (out.new.items ≡ out.old.items ++ (operator.now ++ operand (view a.now))) }
{
    out.extend_from_slice(operator)?;
    write_operand(out, a)
}

/// A step before its operand or behind it.
#[cycle(printer)]
fn write_step(out: &mut Vec<u8>, a: &Expr, up: bool, before: bool) -> Result<(), AllocError>
    ensures { OnOk result (out.new.items ≡ out.old.items ++ kind_text (Step (view a.now) up before)) }
{
    if before {
        out.extend_from_slice(step_text(up))?;
        write_part(out, 15, a)
    } else {
        write_part(out, 16, a)?;
        out.extend_from_slice(step_text(up))
    }
}

/// What is behind the first operand: an operator with a space on each side, and the second operand.
#[cycle(printer)]
fn write_right(out: &mut Vec<u8>, operator: &[u8], wanted: u8, b: &Expr) -> Result<(), AllocError>
    ensures { OnOk result (out.new.items ≡ out.old.items ++ (spaced operator.now ++ part wanted (view b.now))) }
{
    write_spaced(out, operator)?;
    write_part(out, wanted, b)
}

/// The middle of a choice, with its marks.
#[cycle(printer)]
fn write_middle(out: &mut Vec<u8>, a: &Expr) -> Result<(), AllocError>
    ensures { OnOk result (out.new.items ≡ out.old.items ++ (codes " ? " ++ (text (view a.now) ++ codes " : "))) }
{
    out.extend_from_slice(b" ? ")?;
    write_text(out, a)?;
    out.extend_from_slice(b" : ")
}

/// An index in its brackets.
#[cycle(printer)]
fn write_index(out: &mut Vec<u8>, b: &Expr) -> Result<(), AllocError>
    ensures { OnOk result (out.new.items ≡ out.old.items ++ (codes "[" ++ (text (view b.now) ++ codes "]"))) }
{
    out.extend_from_slice(b"[")?;
    write_text(out, b)?;
    out.extend_from_slice(b"]")
}

/// What a pair begins with.
#[tactic(auto, unfolding(crate::specs::Expressions::pair_opening))]
fn pair_opening() -> &'static [u8]
    ensures { result.now ≡ pair_opening }
{
    b"(uint8x16x2_t){{"
}

/// A pair's first vector, and what stands before it.
#[cycle(printer)]
fn write_low(out: &mut Vec<u8>, a: &Expr) -> Result<(), AllocError>
    ensures { OnOk result (out.new.items ≡ out.old.items ++ (pair_opening ++ part 1 (view a.now))) }
{
    out.extend_from_slice(pair_opening())?;
    write_part(out, 1, a)
}

/// A pair's second vector, with the marks before it and behind it.
#[cycle(printer)]
fn write_high(out: &mut Vec<u8>, b: &Expr) -> Result<(), AllocError>
    ensures { OnOk result (out.new.items ≡ out.old.items ++ (codes ", " ++ (part 1 (view b.now) ++ codes "}}"))) }
{
    out.extend_from_slice(b", ")?;
    write_part(out, 1, b)?;
    out.extend_from_slice(b"}}")
}

/// A cast that is written.
#[cycle(printer)]
fn write_cast(out: &mut Vec<u8>, ty: CType, a: &Expr) -> Result<(), AllocError>
    ensures { OnOk result (out.new.items ≡ out.old.items ++ kind_text (Cast ty (view a.now) true)) }
{
    out.extend_from_slice(b"(")?;
    write_type(out, ty)?;
    out.extend_from_slice(b")")?;
    write_part(out, 13, a)
}

#[cycle(printer)]
fn write_call(out: &mut Vec<u8>, f: &Text, all: &[Expr]) -> Result<(), AllocError>
    ensures { OnOk result (out.new.items ≡ out.old.items ++ kind_text (Call f.now (views all.now))) }
{
    out.extend_from_slice(f.bytes())?;
    out.extend_from_slice(b"(")?;
    write_list(out, all)?;
    out.extend_from_slice(b")")
}

#[cycle(printer)]
fn write_half(out: &mut Vec<u8>, a: &Expr, k: u8) -> Result<(), AllocError>
    ensures { OnOk result (out.new.items ≡ out.old.items ++ kind_text (Half (view a.now) k)) }
{
    write_part(out, 18, a)?;
    out.extend_from_slice(b".val[")?;
    write_decimal(out, u64::from(k))?;
    out.extend_from_slice(b"]")
}

fn write_size_of_type(out: &mut Vec<u8>, ty: CType) -> Result<(), AllocError>
    ensures { OnOk result (out.new.items ≡ out.old.items ++ kind_text (SizeOfType ty)) }
{
    out.extend_from_slice(b"sizeof(")?;
    write_type(out, ty)?;
    out.extend_from_slice(b")")
}

fn write_size_of_name(out: &mut Vec<u8>, x: &Text) -> Result<(), AllocError>
    ensures { OnOk result (out.new.items ≡ out.old.items ++ kind_text (SizeOfName x.now)) }
{
    out.extend_from_slice(b"sizeof(")?;
    out.extend_from_slice(x.bytes())?;
    out.extend_from_slice(b")")
}

/// An expression with no brackets round it.
#[cycle(printer)]
pub fn write_text(out: &mut Vec<u8>, e: &Expr) -> Result<(), AllocError>
    ensures { OnOk result (out.new.items ≡ out.old.items ++ text (view e.now)) }
{
    match &*e.kind {
        ExprKind::Const(n) => write_constant(out, *n),
        ExprKind::Name(x) | ExprKind::Str(x) => out.extend_from_slice(x.bytes()),
        ExprKind::Unary(op, a) => write_prefixed(out, prefix_text(*op), a),
        ExprKind::Step(a, up, before) => write_step(out, a, *up, *before),
        ExprKind::Binary(_, _, _)
        | ExprKind::AndThen(_, _)
        | ExprKind::OrElse(_, _)
        | ExprKind::Choice(_, _, _)
        | ExprKind::Assign(_, _, _)
        | ExprKind::Index(_, _)
        | ExprKind::PairOf(_, _) => write_joined(out, e),
        ExprKind::Comma(all) => write_list(out, all.as_slice()),
        ExprKind::Cast(ty, a, true) => write_cast(out, *ty, a),
        ExprKind::Cast(_, a, false) => write_text(out, a),
        ExprKind::Deref(a) => write_prefixed(out, b"*", a),
        ExprKind::Address(a) => write_prefixed(out, b"&", a),
        ExprKind::Call(f, all) => write_call(out, f, all.as_slice()),
        ExprKind::Half(a, k) => write_half(out, a, *k),
        ExprKind::SizeOfType(ty) => write_size_of_type(out, *ty),
        ExprKind::SizeOfName(x) => write_size_of_name(out, x),
    }
}

/// An expression with several operands, with no brackets round it.
#[cycle(printer)]
fn write_joined(out: &mut Vec<u8>, e: &Expr) -> Result<(), AllocError>
    requires { is_joined (view e.now) ≡ true }
    ensures { OnOk result (out.new.items ≡ out.old.items ++ text (view e.now)) }
{
    match &*e.kind {
        ExprKind::Binary(op, a, b) => {
            write_part(out, operator_level(*op), a)?;
            write_right(out, operator_text(*op), operator_level(*op) + 1, b)
        }
        ExprKind::AndThen(a, b) => {
            write_part(out, 4, a)?;
            write_right(out, b"&&", 5, b)
        }
        ExprKind::OrElse(a, b) => {
            write_part(out, 3, a)?;
            write_right(out, b"||", 4, b)
        }
        ExprKind::Choice(c, a, b) => {
            write_part(out, 3, c)?;
            write_middle(out, a)?;
            write_part(out, 2, b)
        }
        ExprKind::Assign(op, a, b) => {
            write_part(out, 14, a)?;
            write_assignment_operator(out, *op)?;
            write_part(out, 1, b)
        }
        ExprKind::Index(a, b) => {
            write_part(out, 17, a)?;
            write_index(out, b)
        }
        ExprKind::PairOf(a, b) => {
            write_low(out, a)?;
            write_high(out, b)
        }
        _ => Ok(()),
    }
}

/// Expressions with commas between them.
#[cycle(printer)]
pub fn write_list(out: &mut Vec<u8>, all: &[Expr]) -> Result<(), AllocError>
    ensures { OnOk result (out.new.items ≡ out.old.items ++ list_text (views all.now)) }
{
    if let Some((first, others)) = all.split_first() {
        write_part(out, 1, first)?;
        for next in others {
            out.extend_from_slice(b", ")?;
            write_part(out, 1, next)?;
        }
    }
    Ok(())
}

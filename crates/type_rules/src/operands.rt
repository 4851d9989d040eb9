//! The types that the operands of an operator between two are brought to (C11 6.5.5 to 6.5.12).

ghost use Rattle.std.specs.Prelude.{◌≡◌, Some, None, false};
ghost use Rattle.scalar_core.specs.Operators.{left_type, right_type, binary_type, is_comparison};
ghost use Rattle.c_tree.specs.declared.types.CType.TheVariants.{Pointer as pointer};
ghost use Rattle.type_rules.specs.Operations.{integers_fit, when, pointer_left, pointer_right, pointers, operands_fit, moved_by, compound_type, arms_type};

use crate::types::{is_object, is_vector, same_pointee, same_type};
use c_tree::{BinOp, CType, IntType, Pointee};
use scalar_core::{common, promote};

/// The types that two operands are brought to, and the type of the result.
#[derive(Clone, Copy, Debug, PartialEq, Eq)]
pub struct Fit {
    pub left: CType,
    pub right: CType,
    pub whole: CType,
}

fn when(holds: bool, fit: Fit) -> Option<Fit>
    ensures { result ≡ when holds fit }
{
    if holds { Some(fit) } else { None }
}

fn left_type(op: BinOp, s: IntType, t: IntType) -> IntType
    ensures { result ≡ left_type op s t }
{
    match op {
        BinOp::Shl | BinOp::Shr => promote(s),
        _ => common(s, t),
    }
}

fn right_type(op: BinOp, s: IntType, t: IntType) -> IntType
    ensures { result ≡ right_type op s t }
{
    match op {
        BinOp::Shl | BinOp::Shr => promote(t),
        _ => common(s, t),
    }
}

fn binary_type(op: BinOp, s: IntType, t: IntType) -> IntType
    ensures { result ≡ binary_type op s t }
{
    match op {
        BinOp::Lt | BinOp::Gt | BinOp::Le | BinOp::Ge | BinOp::Eq | BinOp::Ne => IntType::Int,
        _ => left_type(op, s, t),
    }
}

fn integers_fit(op: BinOp, s: IntType, t: IntType) -> Fit
    ensures { result ≡ integers_fit op s t }
{
    Fit {
        left: CType::Int(left_type(op, s, t)),
        right: CType::Int(right_type(op, s, t)),
        whole: CType::Int(binary_type(op, s, t)),
    }
}

// A pointer and an integer, which is the constant 0 or not.
fn pointer_left(op: BinOp, e: Pointee, c: bool, t: IntType, zero: bool) -> Option<Fit>
    ensures { result ≡ pointer_left op e c t zero }
{
    let pointer = CType::Pointer(e, c);
    match op {
        BinOp::Add | BinOp::Sub => when(
            is_object(e),
            Fit {
                left: pointer,
                right: CType::Int(t),
                whole: pointer,
            },
        ),
        BinOp::Eq | BinOp::Ne => when(
            zero,
            Fit {
                left: pointer,
                right: pointer,
                whole: CType::Int(IntType::Int),
            },
        ),
        _ => None,
    }
}

// An integer, which is the constant 0 or not, and a pointer.
fn pointer_right(op: BinOp, t: IntType, zero: bool, e: Pointee, c: bool) -> Option<Fit>
    ensures { result ≡ pointer_right op t zero e c }
{
    let pointer = CType::Pointer(e, c);
    match op {
        BinOp::Add => when(
            is_object(e),
            Fit {
                left: CType::Int(t),
                right: pointer,
                whole: pointer,
            },
        ),
        BinOp::Eq | BinOp::Ne => when(
            zero,
            Fit {
                left: pointer,
                right: pointer,
                whole: CType::Int(IntType::Int),
            },
        ),
        _ => None,
    }
}

fn pointers(op: BinOp, e: Pointee, c: bool, f: Pointee, d: bool) -> Option<Fit>
    ensures { result ≡ pointers op e c f d }
{
    let left = CType::Pointer(e, c);
    let right = CType::Pointer(f, d);
    match op {
        BinOp::Sub => when(
            same_pointee(e, f) && is_object(e),
            Fit {
                left,
                right,
                whole: CType::Int(IntType::Long),
            },
        ),
        BinOp::Eq | BinOp::Ne => when(
            same_pointee(e, f),
            Fit {
                left,
                right,
                whole: CType::Int(IntType::Int),
            },
        ),
        BinOp::Lt | BinOp::Gt | BinOp::Le | BinOp::Ge => when(
            same_pointee(e, f) && is_object(e),
            Fit {
                left,
                right,
                whole: CType::Int(IntType::Int),
            },
        ),
        _ => None,
    }
}

/// What an operator brings operands of these types to, where it takes them. The truth values say that an operand is the constant 0.
pub fn operands_fit(op: BinOp, s: CType, x: bool, t: CType, y: bool) -> Option<Fit>
    ensures { result ≡ operands_fit op s x t y }
{
    match (s, t) {
        (CType::Int(s), CType::Int(t)) => Some(integers_fit(op, s, t)),
        (CType::Pointer(e, c), CType::Int(t)) => pointer_left(op, e, c, t, y),
        (CType::Int(s), CType::Pointer(e, c)) => pointer_right(op, s, x, e, c),
        (CType::Pointer(e, c), CType::Pointer(f, d)) => pointers(op, e, c, f, d),
        _ => None,
    }
}

// Whether an operator may stand in an assignment.
fn is_comparison(op: BinOp) -> bool
    ensures { result ≡ is_comparison op }
{
    match op {
        BinOp::Lt | BinOp::Gt | BinOp::Le | BinOp::Ge | BinOp::Eq | BinOp::Ne => true,
        _ => false,
    }
}

// The type of what a pointer is moved by.
fn moved_by(op: BinOp, e: Pointee, t: IntType) -> Option<CType>
    ensures { result ≡ moved_by op e t }
{
    match op {
        BinOp::Add | BinOp::Sub => if is_object(e) {
            Some(CType::Int(t))
        } else {
            None
        },
        _ => None,
    }
}

/// The type that the right side of `a op= b` is brought to, where the operator takes both.
pub fn compound_type(op: BinOp, s: CType, t: CType) -> Option<CType>
    ensures { result ≡ compound_type op s t }
{
    match (s, t) {
        (CType::Int(s), CType::Int(t)) => if is_comparison(op) {
            None
        } else {
            Some(CType::Int(right_type(op, s, t)))
        },
        (CType::Pointer(e, _), CType::Int(t)) => moved_by(op, e, t),
        _ => None,
    }
}

fn pointer_arms(e: Pointee, c: bool, f: Pointee, d: bool) -> Option<CType>
    ensures { result ≡ arms_type (pointer e c) false (pointer f d) false }
{
    if same_pointee(e, f) {
        Some(CType::Pointer(e, c || d))
    } else {
        None
    }
}

/// The type of a choice between arms of these types. The truth values say that an arm is the constant 0.
pub fn arms_type(s: CType, x: bool, t: CType, y: bool) -> Option<CType>
    ensures { result ≡ arms_type s x t y }
{
    match (s, t) {
        (CType::Int(s), CType::Int(t)) => Some(CType::Int(common(s, t))),
        (CType::Pointer(e, c), CType::Int(_)) => if y { Some(CType::Pointer(e, c)) } else { None },
        (CType::Int(_), CType::Pointer(f, d)) => if x { Some(CType::Pointer(f, d)) } else { None },
        (CType::Pointer(e, c), CType::Pointer(f, d)) => pointer_arms(e, c, f, d),
        (CType::Void, CType::Void) => Some(CType::Void),
        _ => if is_vector(s) && same_type(s, t) {
            Some(s)
        } else {
            None
        },
    }
}

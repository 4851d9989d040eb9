//! What each operator gives for parts that have their types (C11 6.5). None says that the types don't fit.

ghost use Rattle.std.specs.Prelude.{◌≡◌, IfOk, option_map};
ghost use Rattle.c_tree.specs.Tree.{Node};
ghost use Rattle.c_tree.specs.View.{view, view_kind, views};
ghost use Rattle.type_rules.specs.Operations.{constant_node, unary_node, signed_integer, right_side, step_node, is_stepped, binary_node, and_node, or_node, choice_node, assign_node, last_type, comma_node, is_cast, cast_node, element_type, index_node, pointed_type, deref_node, half_node, pair_node, size_node, size_of_name_node};

use crate::conversions::{assigned_expr, converted_expr, is_zero_expr};
use crate::operands::{arms_type, compound_type, operands_fit};
use crate::types::{is_object, is_scalar, object_type, same_type};
use c_tree::{BinOp, CType, Expr, ExprKind, IntType, NeonLane, Num, Place, Text, UnOp};
use const_imm::size_of;
use scalar_core::promote;
use std::alloc::{AllocError, Global};

const INT: CType = CType::Int(IntType::Int);

const VECTOR: CType = CType::Neon(NeonLane::U8, true);

fn node(alloc: Global, place: Place, ty: CType, kind: ExprKind) -> Result<Expr, AllocError>
    ensures { IfOk result (λ r. view r ≡ Node place ty (view_kind kind)) }
{
    let kind = Box::new(alloc, kind)?;
    Ok(Expr { place, ty, kind })
}

/// A constant.
pub fn constant(alloc: Global, place: Place, n: Num) -> Result<Expr, AllocError>
    ensures { IfOk result (λ r. view r ≡ constant_node n place) }
{
    node(alloc, place, CType::Int(n.ty), ExprKind::Const(n))
}

/// `+`, `-`, `~` or `!` before its operand (C11 6.5.3.3).
pub fn unary(alloc: Global, op: UnOp, place: Place, a: Expr) -> Result<Option<Expr>, AllocError>
    ensures { IfOk result (λ r. option_map view r ≡ unary_node op place (view a)) }
{
    match op {
        UnOp::Not => if is_scalar(a.ty) {
            Ok(Some(node(alloc, place, INT, ExprKind::Unary(UnOp::Not, a))?))
        } else {
            Ok(None)
        },
        _ => signed_integer(alloc, op, place, a),
    }
}

fn signed_integer(
    alloc: Global,
    op: UnOp,
    place: Place,
    a: Expr,
) -> Result<Option<Expr>, AllocError>
    ensures { IfOk result (λ r. option_map view r ≡ signed_integer op place (view a) a.ty) }
{
    match a.ty {
        CType::Int(t) => {
            let ty = CType::Int(promote(t));
            let a = converted_expr(alloc, ty, a)?;
            Ok(Some(node(alloc, place, ty, ExprKind::Unary(op, a))?))
        }
        _ => Ok(None),
    }
}

fn is_stepped(t: CType) -> bool
    ensures { result ≡ is_stepped t }
{
    match t {
        CType::Int(_) => true,
        CType::Pointer(e, _) => is_object(e),
        _ => false,
    }
}

/// `++` or `--`, before or behind its operand (C11 6.5.2.4, 6.5.3.1).
pub fn step(
    alloc: Global,
    up: bool,
    before: bool,
    place: Place,
    a: Expr,
) -> Result<Option<Expr>, AllocError>
    ensures { IfOk result (λ r. option_map view r ≡ step_node up before place (view a)) }
{
    let ty = a.ty;
    if is_stepped(ty) {
        Ok(Some(node(alloc, place, ty, ExprKind::Step(a, up, before))?))
    } else {
        Ok(None)
    }
}

/// An operator between two operands (C11 6.5.5 to 6.5.12).
pub fn binary(
    alloc: Global,
    op: BinOp,
    place: Place,
    a: Expr,
    b: Expr,
) -> Result<Option<Expr>, AllocError>
    ensures { IfOk result (λ r. option_map view r ≡ binary_node op place (view a) (view b)) }
{
    match operands_fit(op, a.ty, is_zero_expr(&a), b.ty, is_zero_expr(&b)) {
        None => Ok(None),
        Some(fit) => {
            let a = converted_expr(alloc, fit.left, a)?;
            let b = converted_expr(alloc, fit.right, b)?;
            Ok(Some(node(alloc, place, fit.whole, ExprKind::Binary(op, a, b))?))
        }
    }
}

/// `a && b` (C11 6.5.13).
pub fn and_then(alloc: Global, place: Place, a: Expr, b: Expr) -> Result<Option<Expr>, AllocError>
    ensures { IfOk result (λ r. option_map view r ≡ and_node place (view a) (view b)) }
{
    if is_scalar(a.ty) && is_scalar(b.ty) {
        Ok(Some(node(alloc, place, INT, ExprKind::AndThen(a, b))?))
    } else {
        Ok(None)
    }
}

/// `a || b` (C11 6.5.14).
pub fn or_else(alloc: Global, place: Place, a: Expr, b: Expr) -> Result<Option<Expr>, AllocError>
    ensures { IfOk result (λ r. option_map view r ≡ or_node place (view a) (view b)) }
{
    if is_scalar(a.ty) && is_scalar(b.ty) {
        Ok(Some(node(alloc, place, INT, ExprKind::OrElse(a, b))?))
    } else {
        Ok(None)
    }
}

/// `c ? a : b` (C11 6.5.15).
pub fn choice(
    alloc: Global,
    place: Place,
    c: Expr,
    a: Expr,
    b: Expr,
) -> Result<Option<Expr>, AllocError>
    ensures { IfOk result (λ r. option_map view r ≡ choice_node place (view c) (view a) (view b)) }
{
    if is_scalar(c.ty) {
        match arms_type(a.ty, is_zero_expr(&a), b.ty, is_zero_expr(&b)) {
            None => Ok(None),
            Some(ty) => {
                let a = converted_expr(alloc, ty, a)?;
                let b = converted_expr(alloc, ty, b)?;
                Ok(Some(node(alloc, place, ty, ExprKind::Choice(c, a, b))?))
            }
        }
    } else {
        Ok(None)
    }
}

// The right side of an assignment, as it is brought to the left side's type or to that of the operator.
fn right_side(
    alloc: Global,
    op: Option<BinOp>,
    ty: CType,
    b: Expr,
) -> Result<Option<Expr>, AllocError>
    ensures { IfOk result (λ r. option_map view r ≡ right_side op ty (view b)) }
{
    match op {
        None => assigned_expr(alloc, ty, b),
        Some(op) => match compound_type(op, ty, b.ty) {
            None => Ok(None),
            Some(t) => Ok(Some(converted_expr(alloc, t, b)?)),
        },
    }
}

/// `a = b`, or `a op= b` (C11 6.5.16). Whether `a` may be written is judged elsewhere.
pub fn assign(
    alloc: Global,
    op: Option<BinOp>,
    place: Place,
    a: Expr,
    b: Expr,
) -> Result<Option<Expr>, AllocError>
    ensures { IfOk result (λ r. option_map view r ≡ assign_node op place (view a) (view b)) }
{
    let ty = a.ty;
    match right_side(alloc, op, ty, b)? {
        None => Ok(None),
        Some(b) => Ok(Some(node(alloc, place, ty, ExprKind::Assign(op, a, b))?)),
    }
}

fn last_type(all: &[Expr]) -> Option<CType>
    ensures { result ≡ last_type (views all.now) }
{
    let mut last = None;
    for e in all {
        last = Some(e.ty);
    }
    last
}

/// Expressions with commas between them (C11 6.5.17).
pub fn comma(alloc: Global, place: Place, all: Vec<Expr>) -> Result<Option<Expr>, AllocError>
    ensures { IfOk result (λ r. option_map view r ≡ comma_node place (views all.items)) }
{
    match last_type(all.as_slice()) {
        None => Ok(None),
        Some(ty) => Ok(Some(node(alloc, place, ty, ExprKind::Comma(all))?)),
    }
}

fn is_cast(s: CType, t: CType) -> bool
    ensures { result ≡ is_cast s t }
{
    match (s, t) {
        (_, CType::Void) => true,
        (CType::Int(_), CType::Int(_)) => true,
        (CType::Pointer(_, _), CType::Pointer(_, _)) => true,
        _ => false,
    }
}

/// A written cast (C11 6.5.4).
pub fn cast(alloc: Global, t: CType, place: Place, a: Expr) -> Result<Option<Expr>, AllocError>
    ensures { IfOk result (λ r. option_map view r ≡ cast_node t place (view a)) }
{
    if is_cast(a.ty, t) {
        Ok(Some(node(alloc, place, t, ExprKind::Cast(t, a, true))?))
    } else {
        Ok(None)
    }
}

fn element_type(s: CType, t: CType) -> Option<CType>
    ensures { result ≡ element_type s t }
{
    match (s, t) {
        (CType::Pointer(e, _), CType::Int(_)) => object_type(e),
        (CType::Int(_), CType::Pointer(e, _)) => object_type(e),
        _ => None,
    }
}

/// `a[b]` (C11 6.5.2.1).
pub fn index(alloc: Global, place: Place, a: Expr, b: Expr) -> Result<Option<Expr>, AllocError>
    ensures { IfOk result (λ r. option_map view r ≡ index_node place (view a) (view b)) }
{
    match element_type(a.ty, b.ty) {
        None => Ok(None),
        Some(ty) => Ok(Some(node(alloc, place, ty, ExprKind::Index(a, b))?)),
    }
}

fn pointed_type(t: CType) -> Option<CType>
    ensures { result ≡ pointed_type t }
{
    match t {
        CType::Pointer(e, _) => object_type(e),
        _ => None,
    }
}

/// `*a` (C11 6.5.3.2).
pub fn deref(alloc: Global, place: Place, a: Expr) -> Result<Option<Expr>, AllocError>
    ensures { IfOk result (λ r. option_map view r ≡ deref_node place (view a)) }
{
    match pointed_type(a.ty) {
        None => Ok(None),
        Some(ty) => Ok(Some(node(alloc, place, ty, ExprKind::Deref(a))?)),
    }
}

/// `a.val[k]` of a pair of vectors.
pub fn half(alloc: Global, k: u8, place: Place, a: Expr) -> Result<Option<Expr>, AllocError>
    ensures { IfOk result (λ r. option_map view r ≡ half_node k place (view a)) }
{
    if same_type(a.ty, CType::Pair) && k < 2 {
        Ok(Some(node(alloc, place, VECTOR, ExprKind::Half(a, k))?))
    } else {
        Ok(None)
    }
}

/// A pair of two vectors.
pub fn pair(alloc: Global, place: Place, a: Expr, b: Expr) -> Result<Option<Expr>, AllocError>
    ensures { IfOk result (λ r. option_map view r ≡ pair_node place (view a) (view b)) }
{
    if same_type(a.ty, VECTOR) && same_type(b.ty, VECTOR) {
        Ok(Some(node(alloc, place, CType::Pair, ExprKind::PairOf(a, b))?))
    } else {
        Ok(None)
    }
}

/// `sizeof` of a type (C11 6.5.3.4).
pub fn size(alloc: Global, t: CType, place: Place) -> Result<Option<Expr>, AllocError>
    ensures { IfOk result (λ r. option_map view r ≡ size_node t place) }
{
    if size_of(t).is_some() {
        let ty = CType::Int(IntType::ULong);
        Ok(Some(node(alloc, place, ty, ExprKind::SizeOfType(t))?))
    } else {
        Ok(None)
    }
}

/// `sizeof` of the name of an object of the type `t` (C11 6.5.3.4).
pub fn size_of_name(
    alloc: Global,
    name: &Text,
    t: CType,
    place: Place,
) -> Result<Option<Expr>, AllocError>
    ensures { IfOk result (λ r. option_map view r ≡ size_of_name_node name.now t place) }
{
    if size_of(t).is_some() {
        let ty = CType::Int(IntType::ULong);
        let name = name.copy(alloc)?;
        Ok(Some(node(alloc, place, ty, ExprKind::SizeOfName(name))?))
    } else {
        Ok(None)
    }
}

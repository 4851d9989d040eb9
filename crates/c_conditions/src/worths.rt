//! What parts of an expression are worth, by C11 6.5 and 6.6.

ghost use Rattle.std.specs.Prelude.{◌≡◌, option_map, option_and_then};
ghost use Rattle.lane_core.specs.declared.number.IntType.TheVariants.{Long, ULong};
ghost use Rattle.lane_core.specs.IntRange.{is_signed};
ghost use Rattle.scalar_core.specs.Numbers.{converted};
ghost use Rattle.scalar_core.specs.Operators.{binary_of, unary_of, binary_type, unary_type};
ghost use Rattle.c_conditions.specs.Worths.{widest, worth_of, known, undefined, truth_of, is_zero, truth_in, both, either, operated, joined, operated_before};
ghost use Rattle.c_conditions.specs.Worths.{chosen, has_unsigned_suffix, type_of_constant};

use crate::signs::Infix;
use lane_core::number::{BinOp, IntType, Num, UnOp};
use scalar_core::{binary, common, convert, promote, unary};

/// The type of a part of an expression, and its value.
#[derive(Clone, Copy, Debug)]
pub struct Worth {
    /// `long`, or `unsigned long`.
    pub ty: IntType,
    /// None where C leaves it undefined, which matters only where the part is evaluated.
    pub value: Option<Num>,
}

fn is_signed(ty: IntType) -> bool
    ensures { result ≡ is_signed ty }
{
    match ty {
        IntType::Boolean => false,
        IntType::UChar => false,
        IntType::UShort => false,
        IntType::UInt => false,
        IntType::ULong => false,
        IntType::ULLong => false,
        _ => true,
    }
}

// The type that stands for an integer type.
fn widest(ty: IntType) -> IntType
    ensures { result ≡ widest ty }
{
    if is_signed(ty) {
        IntType::Long
    } else {
        IntType::ULong
    }
}

fn convert_all(ty: IntType, value: Option<Num>) -> Option<Num>
    ensures { result ≡ option_map (converted ty) value }
{
    match value {
        None => None,
        Some(n) => Some(convert(n, ty)),
    }
}

// What a result of this type is worth.
fn worth_of(ty: IntType, value: Option<Num>) -> Worth
    ensures { result ≡ worth_of ty value }
{
    let ty = widest(ty);
    Worth {
        ty,
        value: convert_all(ty, value),
    }
}

/// A number as one of `long`.
#[tactic(auto, unfolding(scalar_core::specs::Numbers::converted))]
pub fn signed(n: Num) -> Worth
    ensures { result ≡ known Long n.value }
{
    Worth {
        ty: IntType::Long,
        value: Some(convert(n, IntType::Long)),
    }
}

/// A number as one of `unsigned long`.
#[tactic(auto, unfolding(scalar_core::specs::Numbers::converted))]
pub fn unsigned(n: Num) -> Worth
    ensures { result ≡ known ULong n.value }
{
    Worth {
        ty: IntType::ULong,
        value: Some(convert(n, IntType::ULong)),
    }
}

/// 1 or 0.
pub fn truth_of(holds: bool) -> Worth
    ensures { result ≡ truth_of holds }
{
    if holds {
        signed(Num {
            ty: IntType::Int,
            value: 1,
        })
    } else {
        signed(Num {
            ty: IntType::Int,
            value: 0,
        })
    }
}

fn undefined(ty: IntType) -> Worth
    ensures { result ≡ undefined ty }
{
    Worth { ty, value: None }
}

/// Whether a number is 0.
pub fn is_zero(n: Num) -> bool
    ensures { result ≡ is_zero n }
{
    n.value == 0
}

// 1 where the value isn't 0, and 0 where it is.
fn truth_in(v: Worth) -> Worth
    ensures { result ≡ truth_in v }
{
    match v.value {
        None => undefined(IntType::Long),
        Some(n) => truth_of(!is_zero(n)),
    }
}

fn both(a: Worth, b: Worth) -> Worth
    ensures { result ≡ both a b }
{
    match a.value {
        None => undefined(IntType::Long),
        Some(n) => {
            if is_zero(n) {
                truth_of(false)
            } else {
                truth_in(b)
            }
        }
    }
}

fn either(a: Worth, b: Worth) -> Worth
    ensures { result ≡ either a b }
{
    match a.value {
        None => undefined(IntType::Long),
        Some(n) => {
            if is_zero(n) {
                truth_in(b)
            } else {
                truth_of(true)
            }
        }
    }
}

// The type of the result of an operator between operands of these types.
fn binary_type(op: BinOp, left: IntType, right: IntType) -> IntType
    ensures { result ≡ binary_type op left right }
{
    match op {
        BinOp::Lt | BinOp::Gt | BinOp::Le | BinOp::Ge | BinOp::Eq | BinOp::Ne => IntType::Int,
        BinOp::Shl | BinOp::Shr => promote(left),
        _ => common(left, right),
    }
}

fn binary_value(op: BinOp, left: Option<Num>, right: Option<Num>) -> Option<Num>
    ensures { result ≡ option_and_then (λ x. option_and_then (λ y. binary_of op x y) right) left }
{
    match (left, right) {
        (Some(left), Some(right)) => binary(op, left, right),
        _ => None,
    }
}

fn operated(op: BinOp, a: Worth, b: Worth) -> Worth
    ensures { result ≡ operated op a b }
{
    worth_of(
        binary_type(op, a.ty, b.ty),
        binary_value(op, a.value, b.value),
    )
}

/// What two operands with an operator between them are worth.
pub fn joined(operator: Infix, a: Worth, b: Worth) -> Worth
    ensures { result ≡ joined operator a b }
{
    match operator {
        Infix::OrElse => either(a, b),
        Infix::AndThen => both(a, b),
        Infix::Operator(op) => operated(op, a, b),
    }
}

fn unary_type(op: UnOp, ty: IntType) -> IntType
    ensures { result ≡ unary_type op ty }
{
    match op {
        UnOp::Not => IntType::Int,
        _ => promote(ty),
    }
}

fn unary_value(op: UnOp, value: Option<Num>) -> Option<Num>
    ensures { result ≡ option_and_then (λ x. unary_of op x) value }
{
    match value {
        None => None,
        Some(n) => unary(op, n),
    }
}

/// What an operand with an operator before it is worth.
pub fn operated_before(op: UnOp, a: Worth) -> Worth
    ensures { result ≡ operated_before op a }
{
    worth_of(unary_type(op, a.ty), unary_value(op, a.value))
}

/// What `c ? a : b` is worth.
pub fn chosen(c: Worth, a: Worth, b: Worth) -> Worth
    ensures { result ≡ chosen c a b }
{
    let ty = common(a.ty, b.ty);
    match c.value {
        None => undefined(ty),
        Some(n) => Worth {
            ty,
            value: convert_all(ty, if is_zero(n) { b.value } else { a.value }),
        },
    }
}

fn has_unsigned_suffix(text: &[u8]) -> bool
    ensures { result ≡ has_unsigned_suffix text.now }
{
    text.iter().any(|b| *b == b'u' || *b == b'U')
}

/// What a constant with this text and number is worth.
pub fn constant_worth(text: &[u8], n: Num) -> Worth
    ensures { result ≡ known (type_of_constant text.now n.value) n.value }
{
    if has_unsigned_suffix(text) || n.value > 0x7fff_ffff_ffff_ffff {
        unsigned(n)
    } else {
        signed(n)
    }
}

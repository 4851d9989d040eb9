//! What the evaluation of an expression gives, from what that of its parts gave.

ghost use Rattle.std.specs.Prelude.{◌≡◌, true, false, Some, None, option_map, pos};
ghost use Rattle.std.specs.Option.{option_and_then};
ghost use Rattle.lane_core.specs.IntRange.{InRange};
ghost use Rattle.scalar_core.specs.Numbers.{num_of, converted};
ghost use Rattle.scalar_core.specs.Ranks.{common_of};
ghost use Rattle.scalar_core.specs.Operators.{truth, unary_type, unary_of, binary_type, binary_of, HasType};
ghost use Rattle.const_imm.specs.Constant.{on_both, typed_both, is_true, and_value, or_value, choice_value};
ghost use Rattle.const_imm.specs.Sizes.{size_of};
ghost use Rattle.const_imm.specs.Evaluation.{type_given, value_given};

use crate::sizes::size_of;
use c_tree::{BinOp, CType, IntType, Num, UnOp};
use scalar_core::{binary, common, convert, promote, unary};

/// What the evaluation of an expression gives.
#[derive(Clone, Copy)]
pub enum Evaluation {
    /// It isn't of constant form: a form that no constant expression has stands in it.
    OtherForm,
    /// It is of constant form and has this type, and no value.
    NoValue(IntType),
    /// It is of constant form and has this value.
    Value(Num),
}

impl Evaluation {
    /// The type, if the expression is of constant form.
    fn ty(self) -> Option<IntType>
        ensures { result ≡ type_given self }
    {
        match self {
            Evaluation::OtherForm => None,
            Evaluation::NoValue(ty) => Some(ty),
            Evaluation::Value(n) => Some(n.ty),
        }
    }
}

/// Constant form with this type, and with a value if there is one.
fn given(ty: IntType, value: Option<Num>) -> Evaluation
    requires { HasType ty value }
    ensures ty { type_given result ≡ Some ty }
    ensures value { value_given result ≡ value }
{
    match value {
        None => Evaluation::NoValue(ty),
        Some(n) => Evaluation::Value(n),
    }
}

/// No value, and constant form with a type if there is one.
fn without_value(ty: Option<IntType>) -> Evaluation
    ensures ty { type_given result ≡ ty }
    ensures value { value_given result ≡ None }
{
    match ty {
        None => Evaluation::OtherForm,
        Some(ty) => Evaluation::NoValue(ty),
    }
}

/// Whether the number compares unequal to 0.
fn is_true(n: Num) -> bool
    ensures { result ≡ is_true n }
{
    n.value != 0
}

/// The number of this type and this value.
fn number(ty: IntType, value: i128) -> Num
    requires { InRange ty value }
    ensures value { result ≡ num_of ty value }
    ensures ty { result.ty ≡ ty }
{
    Num { ty, value }
}

/// 1 or 0, of type `int`.
#[tactic(auto, unfolding(scalar_core::specs::Operators::truth))]
fn truth(holds: bool) -> Num
    ensures value { result ≡ truth holds }
    ensures ty { result.ty ≡ IntType.Int }
{
    number(IntType::Int, i128::from(holds))
}

/// The type of an operator's result (C11 6.5.3.3).
fn unary_type(op: UnOp, ty: IntType) -> IntType
    ensures { result ≡ unary_type op ty }
{
    match op {
        UnOp::Not => IntType::Int,
        _ => promote(ty),
    }
}

/// An operator before its operand.
pub fn unary_evaluation(op: UnOp, part: Evaluation) -> Evaluation
    ensures ty { type_given result ≡ option_map (unary_type op) (type_given part) }
    ensures value { value_given result ≡ option_and_then (unary_of op) (value_given part) }
{
    match part {
        Evaluation::OtherForm => Evaluation::OtherForm,
        Evaluation::NoValue(ty) => Evaluation::NoValue(unary_type(op, ty)),
        Evaluation::Value(n) => given(unary_type(op, n.ty), unary(op, n)),
    }
}

/// The type of an operator's result (C11 6.5.5 to 6.5.12).
fn binary_type(op: BinOp, left: IntType, right: IntType) -> IntType
    ensures { result ≡ binary_type op left right }
{
    match op {
        BinOp::Lt | BinOp::Gt | BinOp::Le | BinOp::Ge | BinOp::Eq | BinOp::Ne => IntType::Int,
        BinOp::Shl | BinOp::Shr => promote(left),
        _ => common(left, right),
    }
}

/// The same for operands that may have no type.
fn binary_type_given(op: BinOp, left: Evaluation, right: Evaluation) -> Option<IntType>
    ensures { result ≡ typed_both (binary_type op) (type_given left) (type_given right) }
{
    Some(binary_type(op, left.ty()?, right.ty()?))
}

/// An operator between two operands.
pub fn binary_evaluation(op: BinOp, left: Evaluation, right: Evaluation) -> Evaluation
    ensures ty { type_given result ≡ typed_both (binary_type op) (type_given left) (type_given right) }
    ensures value { value_given result ≡ on_both (binary_of op) (value_given left) (value_given right) }
{
    match (left, right) {
        (Evaluation::Value(a), Evaluation::Value(b)) => given(
            binary_type(op, a.ty, b.ty),
            binary(op, a, b),
        ),
        _ => without_value(binary_type_given(op, left, right)),
    }
}

/// Whether the part isn't 0, as a number of type `int`.
fn truth_of(part: Evaluation) -> Evaluation
    ensures ty { type_given result ≡ option_map (λ t. IntType.Int) (type_given part) }
    ensures value { value_given result ≡ option_map (λ y. truth (is_true y)) (value_given part) }
{
    match part {
        Evaluation::OtherForm => Evaluation::OtherForm,
        Evaluation::NoValue(_) => Evaluation::NoValue(IntType::Int),
        Evaluation::Value(y) => Evaluation::Value(truth(is_true(y))),
    }
}

/// 1 or 0, of type `int`, where the part isn't evaluated.
fn decided(holds: bool, part: Evaluation) -> Evaluation
    ensures ty { type_given result ≡ option_map (λ t. IntType.Int) (type_given part) }
    ensures value { value_given result ≡ option_map (λ t. truth holds) (type_given part) }
{
    match part {
        Evaluation::OtherForm => Evaluation::OtherForm,
        _ => Evaluation::Value(truth(holds)),
    }
}

/// The type `int` and no value, where the part may be evaluated.
fn undecided(part: Evaluation) -> Evaluation
    ensures ty { type_given result ≡ option_map (λ t. IntType.Int) (type_given part) }
    ensures value { value_given result ≡ None }
{
    match part {
        Evaluation::OtherForm => Evaluation::OtherForm,
        _ => Evaluation::NoValue(IntType::Int),
    }
}

/// `&&` between two operands.
pub fn and_evaluation(left: Evaluation, right: Evaluation) -> Evaluation
    ensures ty { type_given result ≡ typed_both (λ s t. IntType.Int) (type_given left) (type_given right) }
    ensures value { value_given result ≡ and_value (value_given left) (type_given right) (value_given right) }
{
    match left {
        Evaluation::OtherForm => Evaluation::OtherForm,
        Evaluation::NoValue(_) => undecided(right),
        Evaluation::Value(x) => if is_true(x) {
            truth_of(right)
        } else {
            decided(false, right)
        },
    }
}

/// `||` between two operands.
pub fn or_evaluation(left: Evaluation, right: Evaluation) -> Evaluation
    ensures ty { type_given result ≡ typed_both (λ s t. IntType.Int) (type_given left) (type_given right) }
    ensures value { value_given result ≡ or_value (value_given left) (type_given right) (value_given right) }
{
    match left {
        Evaluation::OtherForm => Evaluation::OtherForm,
        Evaluation::NoValue(_) => undecided(right),
        Evaluation::Value(x) => if is_true(x) {
            decided(true, right)
        } else {
            truth_of(right)
        },
    }
}

/// The conversion of the part to the type `ty`.
pub fn cast_evaluation(ty: IntType, part: Evaluation) -> Evaluation
    ensures ty { type_given result ≡ option_map (λ t. ty) (type_given part) }
    ensures value { value_given result ≡ option_map (converted ty) (value_given part) }
{
    match part {
        Evaluation::OtherForm => Evaluation::OtherForm,
        Evaluation::NoValue(_) => Evaluation::NoValue(ty),
        Evaluation::Value(n) => Evaluation::Value(convert(n, ty)),
    }
}

/// The common type of both parts (C11 6.3.1.8).
fn common_type(left: Evaluation, right: Evaluation) -> Option<IntType>
    ensures { result ≡ typed_both common_of (type_given left) (type_given right) }
{
    Some(common(left.ty()?, right.ty()?))
}

/// `?:` between a condition and two arms.
pub fn choice_evaluation(condition: Evaluation, left: Evaluation, right: Evaluation) -> Evaluation
    ensures ty { type_given result
        ≡ typed_both (λ s t. t) (type_given condition) (typed_both common_of (type_given left) (type_given right)) }
    ensures value { value_given result
        ≡ choice_value (value_given condition) (typed_both common_of (type_given left) (type_given right)) (value_given left) (value_given right) }
{
    match common_type(left, right) {
        None => Evaluation::OtherForm,
        Some(common) => match condition {
            Evaluation::OtherForm => Evaluation::OtherForm,
            Evaluation::NoValue(_) => Evaluation::NoValue(common),
            Evaluation::Value(x) => cast_evaluation(common, if is_true(x) { left } else { right }),
        },
    }
}

/// `sizeof` of a type (C11 6.5.3.4).
pub fn size_evaluation(ty: CType) -> Evaluation
    ensures ty { type_given result ≡ Some IntType.ULong }
    ensures value { value_given result ≡ option_map (λ n. num_of IntType.ULong (pos n)) (size_of ty) }
{
    match size_of(ty) {
        None => Evaluation::NoValue(IntType::ULong),
        Some(bytes) => Evaluation::Value(number(IntType::ULong, i128::from(bytes))),
    }
}

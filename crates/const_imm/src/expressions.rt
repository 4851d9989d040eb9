//! Constant expressions.

ghost use Rattle.std.specs.Prelude.{◌≡◌, Some, None, IfOk, IfErr, OnErr};
ghost use Rattle.c_tree.specs.View.{view};
ghost use Rattle.const_imm.specs.Constant.{type_of, value_of};
ghost use Rattle.const_imm.specs.Evaluation.{type_given, value_given};

use crate::evaluation::{
    Evaluation, and_evaluation, binary_evaluation, cast_evaluation, choice_evaluation,
    or_evaluation, size_evaluation, unary_evaluation,
};
use c_tree::{CType, Expr, ExprKind, Num, Place};

/// What the evaluation of an expression gives. Parts that C doesn't evaluate are looked at too, for their types.
fn evaluate(e: &Expr) -> Evaluation
    ensures ty { type_given result ≡ type_of (view e.now) }
    ensures value { value_given result ≡ value_of (view e.now) }
{
    match &*e.kind {
        ExprKind::Const(n) => Evaluation::Value(*n),
        ExprKind::Unary(op, a) => unary_evaluation(*op, evaluate(a)),
        ExprKind::Binary(op, a, b) => binary_evaluation(*op, evaluate(a), evaluate(b)),
        ExprKind::AndThen(a, b) => and_evaluation(evaluate(a), evaluate(b)),
        ExprKind::OrElse(a, b) => or_evaluation(evaluate(a), evaluate(b)),
        ExprKind::Choice(c, a, b) => choice_evaluation(evaluate(c), evaluate(a), evaluate(b)),
        ExprKind::Cast(CType::Int(ty), a, _) => cast_evaluation(*ty, evaluate(a)),
        ExprKind::SizeOfType(ty) => size_evaluation(*ty),
        _ => Evaluation::OtherForm,
    }
}

/// An expression that has no constant value, by the place of the whole expression.
#[derive(Clone, Copy, Debug, PartialEq, Eq)]
pub struct NotConst(pub Place);

/// The value of a constant expression (C11 6.6): of constants, operators, `&&`, `||`, `?:`, casts to integer types, written or
/// not, and `sizeof` of a type, which is an `unsigned long` and counts bytes. It takes no memory.
///
/// A part that isn't evaluated, as `b` in `0 && b`, `1 || b` and `1 ? a : b`, is made of these forms too and needs no value.
/// All else is `NotConst` with the place of `e`: another form, an operator's result that C leaves undefined, and the size of
/// a type that has none or one that `unsigned long` can't hold.
pub fn eval_const(e: &Expr) -> Result<Num, NotConst>
    ensures value { IfOk result (λ n. value_of (view e.now) ≡ Some n) }
    ensures typed { IfOk result (λ n. type_of (view e.now) ≡ Some n.ty) }
    ensures none { OnErr result (value_of (view e.now) ≡ None) }
    ensures place { IfErr result (λ n. n.0 ≡ e.now.place) }
{
    match evaluate(e) {
        Evaluation::Value(n) => Ok(n),
        _ => Err(NotConst(e.place)),
    }
}

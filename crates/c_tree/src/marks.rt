//! What a refusal shows of an expression.

ghost use Rattle.std.specs.Prelude.{◌≡◌, IfOk};
ghost use Rattle.std.specs.Fmt.{signed_decimal};
ghost use Rattle.c_text.specs.declared.refusals.Fail.TheVariants.{Refused};
ghost use Rattle.c_tree.specs.Marks.{short, assign_mark, mark_of};
ghost use Rattle.c_tree.specs.Nodes.{root};
ghost use Rattle.c_tree.specs.View.{view, view_kind};

use crate::expressions::{Expr, ExprKind};
use crate::operators::{operator_text, prefix_text, step_text};
use c_text::{Fail, Place, Refusal, Text, shortened};
use itoa::Buffer;
use lane_core::number::BinOp;
use std::alloc::{AllocError, Global};

/// The node of the text that the expression is: the one below the casts that aren't written.
pub fn root(e: &Expr) -> &Expr
    ensures { view result.now ≡ root (view e.now) }
{
    match &*e.kind {
        ExprKind::Cast(_, a, false) => root(a),
        _ => e,
    }
}

fn assign_mark(alloc: Global, op: Option<BinOp>) -> Result<Text, AllocError>
    ensures { IfOk result (λ t. t ≡ assign_mark op) }
{
    match op {
        None => Text::new(alloc, b"="),
        Some(op) => {
            let mut mark = Vec::from_slice(alloc, operator_text(op))?;
            mark.extend_from_slice(b"=")?;
            Text::new(alloc, mark.as_slice())
        }
    }
}

fn number_mark(alloc: Global, value: i128) -> Result<Text, AllocError>
    ensures { IfOk result (λ t. t ≡ signed_decimal value) }
{
    let mut digits = Buffer::new();
    Text::new(alloc, digits.format(value).as_bytes())
}

/// The text of the expression's operator, its mark, its name or its word, and a constant's value in decimal. The only error is want of memory.
pub fn mark(alloc: Global, kind: &ExprKind) -> Result<Text, AllocError>
    ensures { IfOk result (λ t. t ≡ mark_of (view_kind kind.now)) }
{
    match kind {
        ExprKind::Const(n) => number_mark(alloc, n.value),
        ExprKind::Name(x) => Text::new(alloc, shortened(x.bytes())),
        ExprKind::Unary(op, _) => Text::new(alloc, prefix_text(*op)),
        ExprKind::Step(_, up, _) => Text::new(alloc, step_text(*up)),
        ExprKind::Binary(op, _, _) => Text::new(alloc, operator_text(*op)),
        ExprKind::AndThen(_, _) => Text::new(alloc, b"&&"),
        ExprKind::OrElse(_, _) => Text::new(alloc, b"||"),
        ExprKind::Choice(_, _, _) => Text::new(alloc, b"?"),
        ExprKind::Assign(op, _, _) => assign_mark(alloc, *op),
        ExprKind::Comma(_) => Text::new(alloc, b","),
        ExprKind::Cast(_, _, _) => Text::new(alloc, b"("),
        ExprKind::Index(_, _) => Text::new(alloc, b"["),
        ExprKind::Deref(_) => Text::new(alloc, b"*"),
        ExprKind::Address(_) => Text::new(alloc, b"&"),
        ExprKind::Call(f, _) => Text::new(alloc, shortened(f.bytes())),
        ExprKind::Half(_, _) => Text::new(alloc, b"."),
        ExprKind::PairOf(_, _) => Text::new(alloc, b"("),
        ExprKind::SizeOfType(_) => Text::new(alloc, b"sizeof"),
        ExprKind::SizeOfName(x) => Text::new(alloc, shortened(x.bytes())),
        ExprKind::Str(x) => Text::new(alloc, shortened(x.bytes())),
    }
}

/// The refusal of an expression at a place, with its mark. The only error is want of memory.
pub fn fault(alloc: Global, number: u8, place: Place, kind: &ExprKind) -> Result<Fail, AllocError>
    ensures { IfOk result (λ f. f ≡ Refused (record { number = number; place = place; detail = mark_of (view_kind kind.now) })) }
{
    let detail = mark(alloc, kind)?;
    Ok(Fail::Refused(Refusal {
        number,
        place,
        detail,
    }))
}

/// The refusal of a name at a place, with its first 255 bytes. The only error is want of memory.
pub fn name_fault(alloc: Global, number: u8, place: Place, name: &Text) -> Result<Fail, AllocError>
    ensures { IfOk result (λ f. f ≡ Refused (record { number = number; place = place; detail = short name.now })) }
{
    let detail = Text::new(alloc, shortened(name.bytes()))?;
    Ok(Fail::Refused(Refusal {
        number,
        place,
        detail,
    }))
}

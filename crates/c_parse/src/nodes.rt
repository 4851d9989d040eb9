//! Nodes of trees, as the parser makes them.

ghost use Rattle.std.specs.Prelude.{◌≡◌, IfOk, length, true, false};
ghost use Rattle.c_tree.specs.Tree as trees;
ghost use Rattle.c_tree.specs.View.{view, view_kind, views};
ghost use Rattle.c_parse.specs.Reading.{node, infix_kind, prefix_kind, signed_tree};
ghost use Rattle.c_parse.specs.declared.nodes.Stuck.TheVariants.{Memory, Syntax};

use crate::literals::Literal;
use crate::peeks::Prefix;
use crate::symbols::Infix;
use c_text::{Place, Text, Token};
use c_tree::{BinOp, CType, Expr, ExprKind, UnOp};
use std::alloc::{AllocError, AllocFailed, Global};

/// Why nothing was read.
#[derive(Clone, Copy, Debug, PartialEq, Eq)]
pub enum Stuck {
    /// The tokens don't begin so. The number says how many of them were left where reading got stuck.
    Syntax(usize),
    /// Memory ran out.
    Memory,
}

impl From<AllocError> for Stuck {
    ghost from_gives = { λ _ e. e ≡ Memory };

    fn from(_e: AllocError) -> Stuck {
        Stuck::Memory
    }
}

impl<T: Drop> From<AllocFailed<T>> for Stuck {
    ghost from_gives = { λ _ e. e ≡ Memory };

    fn from(_e: AllocFailed<T>) -> Stuck {
        Stuck::Memory
    }
}

// Reading got stuck in front of these tokens.
pub fn stuck_at(tokens: &[Token]) -> Stuck
    ensures { result ≡ Syntax (length tokens.now) }
{
    Stuck::Syntax(tokens.len())
}

// A node of this form.
#[tactic(auto, using(crate::proofs::Seen::view_node))]
pub fn made(alloc: Global, place: Place, kind: ExprKind) -> Result<Expr, AllocError>
    ensures { IfOk result (λ e. view e ≡ node place (view_kind kind)) }
{
    let kind = Box::new(alloc, kind)?;
    Ok(Expr {
        place,
        ty: CType::Void,
        kind,
    })
}

pub fn infix_node(
    alloc: Global,
    place: Place,
    op: Infix,
    a: Expr,
    b: Expr,
) -> Result<Expr, AllocError>
    ensures { IfOk result (λ e. view e ≡ node place (infix_kind op (view a) (view b))) }
{
    let kind = match op {
        Infix::Operator(op) => ExprKind::Binary(op, a, b),
        Infix::AndThen => ExprKind::AndThen(a, b),
        Infix::OrElse => ExprKind::OrElse(a, b),
    };
    made(alloc, place, kind)
}

#[tactic(auto)]
pub fn prefix_node(alloc: Global, place: Place, op: Prefix, a: Expr) -> Result<Expr, AllocError>
    ensures { IfOk result (λ e. view e ≡ node place (prefix_kind op (view a))) }
{
    let kind = match op {
        Prefix::Unary(op) => ExprKind::Unary(op, a),
        Prefix::Deref => ExprKind::Deref(a),
        Prefix::Address => ExprKind::Address(a),
    };
    made(alloc, place, kind)
}

pub fn assign_node(
    alloc: Global,
    place: Place,
    op: Option<BinOp>,
    a: Expr,
    b: Expr,
) -> Result<Expr, AllocError>
    ensures { IfOk result (λ e. view e ≡ node place (trees.Assign op (view a) (view b))) }
{
    made(alloc, place, ExprKind::Assign(op, a, b))
}

pub fn cast_node(alloc: Global, place: Place, ty: CType, a: Expr) -> Result<Expr, AllocError>
    ensures { IfOk result (λ e. view e ≡ node place (trees.Cast ty (view a) true)) }
{
    made(alloc, place, ExprKind::Cast(ty, a, true))
}

pub fn step_node(
    alloc: Global,
    place: Place,
    up: bool,
    before: bool,
    a: Expr,
) -> Result<Expr, AllocError>
    ensures { IfOk result (λ e. view e ≡ node place (trees.Step (view a) up before)) }
{
    made(alloc, place, ExprKind::Step(a, up, before))
}

#[tactic(auto, using(crate::proofs::Seen::view_comma))]
pub fn comma_node(alloc: Global, place: Place, all: Vec<Expr>) -> Result<Expr, AllocError>
    ensures { IfOk result (λ e. view e ≡ node place (trees.Comma (views all.items))) }
{
    made(alloc, place, ExprKind::Comma(all))
}

// The name that a token is.
pub fn name_node(alloc: Global, token: &Token) -> Result<Expr, AllocError>
    ensures { IfOk result (λ e. view e ≡ node token.now.place (trees.Name token.now.text)) }
{
    let text = token.text.copy(alloc)?;
    made(alloc, token.place, ExprKind::Name(text))
}

// A call of the name that a token is.
#[tactic(auto, using(crate::proofs::Seen::view_call))]
pub fn call_node(alloc: Global, token: &Token, all: Vec<Expr>) -> Result<Expr, AllocError>
    ensures { IfOk result (λ e. view e ≡ node token.now.place (trees.Call token.now.text (views all.items))) }
{
    let text = token.text.copy(alloc)?;
    made(alloc, token.place, ExprKind::Call(text, all))
}

pub fn literal_node(alloc: Global, literal: Literal) -> Result<Expr, AllocError>
    ensures { IfOk result (λ e. view e ≡ signed_tree literal.negative literal.place literal.number) }
{
    let magnitude = made(alloc, literal.place, ExprKind::Const(literal.number))?;
    if literal.negative {
        made(alloc, literal.place, ExprKind::Unary(UnOp::Neg, magnitude))
    } else {
        Ok(magnitude)
    }
}

pub fn pair_node(alloc: Global, place: Place, a: Expr, b: Expr) -> Result<Expr, AllocError>
    ensures { IfOk result (λ e. view e ≡ node place (trees.PairOf (view a) (view b))) }
{
    made(alloc, place, ExprKind::PairOf(a, b))
}

pub fn half_node(alloc: Global, place: Place, a: Expr, which: u8) -> Result<Expr, AllocError>
    ensures { IfOk result (λ e. view e ≡ node place (trees.Half (view a) which)) }
{
    made(alloc, place, ExprKind::Half(a, which))
}

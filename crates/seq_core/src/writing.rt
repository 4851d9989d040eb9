//! The C that is written for a term.

ghost use Rattle.std.specs.Prelude.{◌≡◌, ◌<◌, ◌≤◌, ◌++◌, ◌^◌, IfOk, OnOk, map, get_or, length, pos};
ghost use Rattle.std.specs.Str.{bytes_eq};
ghost use Rattle.lane_core.specs.declared.number.IntType.TheVariants.{Int, ULong};
ghost use Rattle.scalar_core.specs.Numbers.{num_of};
ghost use Rattle.scalar_core.specs.Operators.{is_comparison};
ghost use Rattle.c_tree.specs.declared.types.CType.{CType};
ghost use Rattle.c_tree.specs.Tree.{Node, NoTrees, More};
ghost use Rattle.c_tree.specs.View.{view as view_tree, view_kind, views};
ghost use Rattle.c_memory.specs.Meaning.{type_of};
ghost use Rattle.lane_core.specs.Table.{params_of};
ghost use Rattle.neon_table.specs.Rows.{name_of, signature_of};
ghost use Rattle.seq_core.specs.Rows as form;
ghost use Rattle.seq_core.specs.View.{view, view_all};
ghost use Rattle.seq_core.specs.Formed.{operator_type, to_bytes, type_of_kind};
ghost use Rattle.seq_core.specs.Written.{pen, nothing, number, call, eight, zeros, constant, with_constant, operator, cast, chosen, moved, pointed, set, written, all_written};
ghost use Rattle.seq_core.specs.Listed.{listed};

use crate::rows;
use crate::terms::Term;
use c_text::{Place, Text};
use c_tree::{CType, Expr, ExprKind, Pointee};
use lane_core::lane;
use lane_core::number::{BinOp, IntType, Num};
use lane_core::table::ParamKind;
use lane_core::vector::NeonLane;
use neon_move::MoveOp;
use neon_move::bytes::Bytes;
use neon_move::halves::Halves;
use neon_move::places::Places;
use neon_table::NeonOp;
use std::alloc::{AllocError, Global};

/// `uint8_t`.
const BYTE: CType = CType::Int(IntType::UChar);

/// `uint8x16_t`.
const VECTOR: CType = CType::Neon(NeonLane::U8, true);

pub fn node(alloc: Global, place: Place, ty: CType, kind: ExprKind) -> Result<Expr, AllocError>
    ensures { IfOk result (λ e. view_tree e ≡ Node place ty (view_kind kind)) }
{
    let kind = Box::new(alloc, kind)?;
    Ok(Expr { place, ty, kind })
}

/// Where no expression stands for a parameter or a step.
fn nothing(alloc: Global, place: Place) -> Result<Expr, AllocError>
    ensures { IfOk result (λ e. view_tree e ≡ nothing place) }
{
    node(alloc, place, CType::Void, ExprKind::Comma(Vec::new(alloc)))
}

/// The expression of that number among these.
fn nth(alloc: Global, place: Place, all: &[Expr], n: u8) -> Result<Expr, AllocError>
    ensures { IfOk result (λ e. view_tree e ≡ get_or (map view_tree all.now) n (nothing place)) }
{
    match all.get(n as usize) {
        Some(e) => e.copy(alloc),
        None => nothing(alloc, place),
    }
}

fn number(alloc: Global, place: Place, n: Num) -> Result<Expr, AllocError>
    ensures { IfOk result (λ e. view_tree e ≡ number place n) }
{
    node(alloc, place, CType::Int(n.ty), ExprKind::Const(n))
}

/// The type of a row's parameter or result of that kind.
fn type_of_kind(kind: ParamKind) -> CType
    ensures { result ≡ type_of_kind kind }
{
    match kind {
        ParamKind::Lane(t, wide) => CType::Neon(t, wide),
        ParamKind::Pair => CType::Pair,
        ParamKind::Scalar(t) => CType::Int(t),
        ParamKind::PointerTo(e, constant) => CType::Pointer(e, constant),
        ParamKind::Reg(_) | ParamKind::Immediate | ParamKind::Nothing => CType::Void,
    }
}

/// The call of a row.
fn call(alloc: Global, place: Place, op: NeonOp, all: Vec<Expr>) -> Result<Expr, AllocError>
    ensures { IfOk result (λ e. view_tree e ≡ call place op (views all.items)) }
{
    let name = Text::new(alloc, neon_table::name(op).as_bytes())?;
    let ty = type_of_kind(neon_table::signature(op).result);
    node(alloc, place, ty, ExprKind::Call(name, all))
}

/// The call of a row of one operand.
fn call_one(alloc: Global, place: Place, op: NeonOp, x: Expr) -> Result<Expr, AllocError>
    ensures { IfOk result (λ e. view_tree e ≡ call place op (More (view_tree x) NoTrees)) }
{
    let mut all = Vec::new(alloc);
    all.push(x)?;
    call(alloc, place, op, all)
}

/// The call of a row of two operands.
fn call_two(alloc: Global, place: Place, op: NeonOp, x: Expr, y: Expr) -> Result<Expr, AllocError>
    ensures { IfOk result (λ e. view_tree e ≡ call place op (More (view_tree x) (More (view_tree y) NoTrees))) }
{
    let mut all = Vec::new(alloc);
    all.push(x)?;
    all.push(y)?;
    call(alloc, place, op, all)
}

fn broadcast() -> NeonOp
    ensures { result ≡ form.broadcast }
{
    neon_table::moving(MoveOp::Places(Places::VdupqNU8))
}

fn create() -> NeonOp
    ensures { result ≡ form.create }
{
    neon_table::moving(MoveOp::Bytes(Bytes::VcreateU8))
}

fn combine() -> NeonOp
    ensures { result ≡ form.combine }
{
    neon_table::moving(MoveOp::Halves(Halves::VcombineU8))
}

/// A row's constant as an `int`.
fn immediate(alloc: Global, place: Place, imm: u16) -> Result<Expr, AllocError>
    ensures { IfOk result (λ e. view_tree e ≡ number place (num_of Int (pos imm))) }
{
    number(alloc, place, rows::number(IntType::Int, imm as i128))
}

/// The eight bytes of a `uint64_t` as a vector.
fn eight(alloc: Global, place: Place, n: u64) -> Result<Expr, AllocError>
    ensures { IfOk result (λ e. view_tree e ≡ eight place n) }
{
    let n = number(alloc, place, rows::number(IntType::ULong, n as i128))?;
    call_one(alloc, place, create(), n)
}

/// The zero vector.
fn zeros(alloc: Global, place: Place) -> Result<Expr, AllocError>
    ensures { IfOk result (λ e. view_tree e ≡ zeros place) }
{
    let zero = number(alloc, place, rows::number(IntType::Int, 0))?;
    let zero = node(alloc, place, BYTE, ExprKind::Cast(BYTE, zero, false))?;
    call_one(alloc, place, broadcast(), zero)
}

/// A constant vector.
fn constant(alloc: Global, place: Place, r: &[u8; 16]) -> Result<Expr, AllocError>
    ensures { IfOk result (λ e. view_tree e ≡ constant place r.now) }
{
    let zero = [0u8; 16];
    if r.as_slice() == zero.as_slice() {
        return zeros(alloc, place);
    }
    let low = eight(alloc, place, lane::<8, 16>(r, 0))?;
    let high = eight(alloc, place, lane::<8, 16>(r, 1))?;
    call_two(alloc, place, combine(), low, high)
}

/// Whether the operator is a comparison (C11 6.5.8, 6.5.9).
fn is_comparison(op: BinOp) -> bool
    ensures { result ≡ is_comparison op }
{
    matches!(
        op,
        BinOp::Lt | BinOp::Gt | BinOp::Le | BinOp::Ge | BinOp::Eq | BinOp::Ne
    )
}

fn operator(alloc: Global, place: Place, op: BinOp, a: Expr, b: Expr) -> Result<Expr, AllocError>
    ensures { IfOk result (λ e. view_tree e ≡ operator place op (view_tree a) (view_tree b)) }
{
    let ty = if is_comparison(op) {
        CType::Int(IntType::Int)
    } else {
        a.ty
    };
    node(alloc, place, ty, ExprKind::Binary(op, a, b))
}

fn cast(alloc: Global, place: Place, ty: CType, a: Expr) -> Result<Expr, AllocError>
    ensures { IfOk result (λ e. view_tree e ≡ cast place ty (view_tree a)) }
{
    node(alloc, place, ty, ExprKind::Cast(ty, a, true))
}

fn chosen(alloc: Global, place: Place, c: Expr, a: Expr, b: Expr) -> Result<Expr, AllocError>
    ensures { IfOk result (λ e. view_tree e ≡ chosen place (view_tree c) (view_tree a) (view_tree b)) }
{
    let ty = a.ty;
    node(alloc, place, ty, ExprKind::Choice(c, a, b))
}

/// A pointer to bytes, const where the other is.
fn to_bytes(ty: CType) -> CType
    ensures { result ≡ to_bytes ty }
{
    match ty {
        CType::Pointer(_, constant) => CType::Pointer(Pointee::Int(IntType::UChar), constant),
        _ => CType::Pointer(Pointee::Int(IntType::UChar), true),
    }
}

fn moved(alloc: Global, place: Place, a: Expr, b: Expr) -> Result<Expr, AllocError>
    ensures { IfOk result (λ e. view_tree e ≡ moved place (view_tree a) (view_tree b)) }
{
    let ty = to_bytes(a.ty);
    let a = cast(alloc, place, ty, a)?;
    node(alloc, place, ty, ExprKind::Binary(BinOp::Add, a, b))
}

fn pointed(alloc: Global, place: Place, a: Expr) -> Result<Expr, AllocError>
    ensures { IfOk result (λ e. view_tree e ≡ pointed place (view_tree a)) }
{
    node(alloc, place, BYTE, ExprKind::Deref(a))
}

fn set(alloc: Global, place: Place, a: Expr, b: Expr) -> Result<Expr, AllocError>
    ensures { IfOk result (λ e. view_tree e ≡ set place (view_tree a) (view_tree b)) }
{
    let a = pointed(alloc, place, a)?;
    node(alloc, place, BYTE, ExprKind::Assign(None, a, b))
}

/// The call of a row of these operands, with its constant in its place.
fn called(
    alloc: Global,
    place: Place,
    op: NeonOp,
    operands: &[Expr],
    imm: u16,
) -> Result<Expr, AllocError>
    ensures { IfOk result (λ e. view_tree e ≡ call place op (with_constant place (params_of (signature_of op)) (views operands.now) imm)) }
{
    let sig = neon_table::signature(op);
    let mut all = Vec::new(alloc);
    push_placed(&mut all, alloc, place, rows::kinds_of(&sig), operands, imm)?;
    call(alloc, place, op, all)
}

/// Adds operands with a row's constant in its place.
fn push_placed(
    out: &mut Vec<Expr>,
    alloc: Global,
    place: Place,
    kinds: &[ParamKind],
    operands: &[Expr],
    imm: u16,
) -> Result<(), AllocError>
    ensures { OnOk result (map view_tree out.new.items ≡ map view_tree out.old.items ++ listed (with_constant place kinds.now (views operands.now) imm)) }
{
    match (kinds.split_first(), operands.split_first()) {
        (Some((ParamKind::Immediate, kinds)), _) => {
            out.push(immediate(alloc, place, imm)?)?;
            push_placed(out, alloc, place, kinds, operands, imm)
        }
        (Some((_, kinds)), Some((e, rest))) => {
            out.push(e.copy(alloc)?)?;
            push_placed(out, alloc, place, kinds, rest, imm)
        }
        (_, None) => Ok(()),
        (None, Some((e, rest))) => {
            out.push(e.copy(alloc)?)?;
            push_placed(out, alloc, place, kinds, rest, imm)
        }
    }
}

impl Term {
    /// The expression that is written for a term, over the expressions that stand for its parameters and for earlier steps. All nodes have
    /// their types, and the place. The only error is want of memory.
    #[cycle(writing)]
    pub fn written(
        &self,
        alloc: Global,
        place: Place,
        params: &[Expr],
        steps: &[Expr],
    ) -> Result<Expr, AllocError>
        ensures { IfOk result (λ e. view_tree e ≡ written (pen place (map view_tree params.now) (map view_tree steps.now)) (view self.now)) }
    {
        match self {
            Term::Param(n) => nth(alloc, place, params, *n),
            Term::Step(n) => nth(alloc, place, steps, *n),
            Term::Const(r) => constant(alloc, place, r),
            Term::Int(n) => number(alloc, place, *n),
            Term::Call(op, all, imm) => {
                let operands = all_written(all, alloc, place, params, steps)?;
                called(alloc, place, *op, &operands, *imm)
            }
            Term::PairOf(a, b) => {
                let a = a.written(alloc, place, params, steps)?;
                let b = b.written(alloc, place, params, steps)?;
                node(alloc, place, CType::Pair, ExprKind::PairOf(a, b))
            }
            Term::Half(a, k) => {
                let a = a.written(alloc, place, params, steps)?;
                node(alloc, place, VECTOR, ExprKind::Half(a, *k))
            }
            Term::Scalar(op, a, b) => {
                let a = a.written(alloc, place, params, steps)?;
                let b = b.written(alloc, place, params, steps)?;
                operator(alloc, place, *op, a, b)
            }
            Term::Convert(ty, a) => {
                let a = a.written(alloc, place, params, steps)?;
                cast(alloc, place, CType::Int(*ty), a)
            }
            Term::Choice(c, a, b) => {
                let c = c.written(alloc, place, params, steps)?;
                let a = a.written(alloc, place, params, steps)?;
                let b = b.written(alloc, place, params, steps)?;
                chosen(alloc, place, c, a, b)
            }
            Term::Shifted(a, b) => {
                let a = a.written(alloc, place, params, steps)?;
                let b = b.written(alloc, place, params, steps)?;
                moved(alloc, place, a, b)
            }
            Term::ByteAt(a) => {
                let a = a.written(alloc, place, params, steps)?;
                pointed(alloc, place, a)
            }
            Term::SetByte(a, b) => {
                let a = a.written(alloc, place, params, steps)?;
                let b = b.written(alloc, place, params, steps)?;
                set(alloc, place, a, b)
            }
        }
    }
}

/// The expressions that are written for terms.
#[cycle(writing)]
fn all_written(
    all: &[Term],
    alloc: Global,
    place: Place,
    params: &[Expr],
    steps: &[Expr],
) -> Result<Vec<Expr>, AllocError>
    ensures { IfOk result (λ out. views out.items ≡ all_written (pen place (map view_tree params.now) (map view_tree steps.now)) (view_all all.now)) }
{
    let mut out = Vec::new(alloc);
    for t in all {
        out.push(t.written(alloc, place, params, steps)?)?;
    }
    Ok(out)
}

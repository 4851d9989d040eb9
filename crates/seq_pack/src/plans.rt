//! The sequence of each row.

ghost use Rattle.std.specs.Prelude.{◌≡◌, ◌≤◌, ℕ, List, map, length, IfOk, Some, true, false};
ghost use Rattle.lane_core.specs.declared.table.Arg.{Arg};
ghost use Rattle.lane_core.specs.Table.{Fits, InImmRange, params_of};
ghost use Rattle.intel_forms.specs.Sizes.{result_type};
ghost use Rattle.seq_pack.specs.Terms.{scalar_type};
ghost use Rattle.intel_table.specs.Rows.{form_of, signature_of, range_of, eval_of, is_scalar};
ghost use Rattle.neon_table.specs.Rows as neon;
ghost use Rattle.seq_core.specs.View.{view_seq};
ghost use Rattle.seq_core.specs.Values.{evaluated};
ghost use Rattle.seq_core.specs.Formed.{WellFormed};
ghost use Rattle.seq_core.specs.Called.{rows_called, plain};
ghost use Rattle.seq_pack.specs.Calls.{operands};
ghost use Rattle.seq_pack.specs.Plans.{sequence_of, planned_two, planned_blend, planned_scalar, planned, is_packing, plan_of};
ghost use Rattle.seq_pack.specs.Listed.{IsTyped, ceiling, listed};

use crate::calls::{over_none, over_one, over_three, over_two};
use crate::sets::{each_lane, last_lane};
use crate::terms::{
    all_lanes, blended, blended_bytes, extended, lane_at, packed, shuffled, with_lane,
};
use crate::tests::{least, least_and_place, least_place, marks, marks_summed, tested, tested_ones};
use c_tree::CType;
use intel_forms::scalars::{Scalar, Test};
use intel_forms::{Extension, Form, Size};
use intel_lanes::blocks::{One, Two, TwoImm};
use intel_lanes::lanes::Width;
use intel_table::IntelOp;
use lane_core::number::IntType;
use lane_core::vector::NeonLane::{self, S8, S16, S32, U8, U16};
use neon_move::halves::Halves::{self, VcombineS8, VcombineS16, VcombineU8, VcombineU16};
use neon_move::narrowed::Narrowed::{self, VqmovnS16, VqmovnS32, VqmovunS16, VqmovunS32};
use seq_core::{Seq, Term};
use std::alloc::{AllocError, Global};

/// `uint8x16_t`.
const CARRIER: CType = CType::Neon(NeonLane::U8, true);

/// A kind of sequences.
#[derive(Clone, Copy, Debug, PartialEq, Eq)]
enum Shape {
    /// The lanes of both operands, of these elements, halved in width by a row and joined by a row to those elements.
    Packed(NeonLane, Narrowed, Halves, NeonLane),
    /// The low lanes extended, with signs where the truth value is true.
    Extended(bool, Extension),
    /// Bytes of the first operand chosen by the second.
    Shuffled,
    /// Bytes of the first two operands chosen by the third.
    BlendedBytes,
    /// Lanes of both operands chosen by the immediate.
    Blended(Width),
    /// The zero vector.
    Zero,
    /// An integer in all lanes.
    AllLanes(Width),
    /// An integer in the low lane, with zeros above.
    LowLane(Width),
    /// The low lane as an integer.
    First(Width),
    /// The immediate's lane as an integer.
    Lane(Width),
    /// The immediate's lane replaced by an integer.
    WithLane(Width),
    /// An integer for each lane, the lowest lane's first where the truth value is true, else last.
    EachLane(bool, Width),
    /// The top bits of the bytes.
    ByteSigns,
    /// A test of both operands.
    Tested(Test),
    /// Whether all bits are 1.
    TestedOnes,
    /// The least word and its place.
    MinPosition,
}

/// The type that an integer for a lane has in the written unit.
fn scalar_type(width: Width) -> CType
    ensures { result ≡ CType.Int (scalar_type width) }
{
    CType::Int(match width {
        Width::Byte => IntType::SChar,
        Width::Word => IntType::Short,
        Width::Dword => IntType::Int,
        Width::Qword => IntType::LLong,
    })
}

/// The type of a single lane that a row takes.
fn result_type(width: Width) -> CType
    ensures { result ≡ CType.Int (result_type width) }
{
    CType::Int(match width {
        Width::Byte | Width::Word | Width::Dword => IntType::Int,
        Width::Qword => IntType::LLong,
    })
}

/// An integer in the low lane, with zeros above.
fn low_lane(alloc: Global, width: Width) -> Result<Seq, AllocError>
    ensures { IfOk result (λ s. view_seq s ≡ sequence_of (Shape.LowLane width) 0) }
{
    let t = with_lane(alloc, width, Term::Param(0), Term::Const([0; 16]), 0)?;
    over_one(alloc, scalar_type(width), t)
}

/// An integer for each lane.
fn every_lane(alloc: Global, reversed: bool, width: Width) -> Result<Seq, AllocError>
    ensures { IfOk result (λ s. view_seq s ≡ sequence_of (Shape.EachLane reversed width) 0) }
{
    let mut seq = over_none(alloc, each_lane(alloc, reversed, width)?)?;
    seq.params = vec![in alloc; scalar_type(width); last_lane(width) as usize + 1]?;
    Ok(seq)
}

/// The top bits of the bytes.
fn byte_signs(alloc: Global) -> Result<Seq, AllocError>
    ensures { IfOk result (λ s. view_seq s ≡ sequence_of Shape.ByteSigns 0) }
{
    let mut seq = over_one(alloc, CARRIER, marks_summed(alloc)?)?;
    seq.steps.push(marks(alloc)?)?;
    Ok(seq)
}

/// The least word and its place.
fn min_position(alloc: Global) -> Result<Seq, AllocError>
    ensures { IfOk result (λ s. view_seq s ≡ sequence_of Shape.MinPosition 0) }
{
    let mut seq = over_one(alloc, CARRIER, least_and_place(alloc)?)?;
    seq.steps.push(least(alloc)?)?;
    seq.steps.push(least_place(alloc)?)?;
    Ok(seq)
}

fn sequence(alloc: Global, shape: Shape, imm: u16) -> Result<Seq, AllocError>
    ensures { IfOk result (λ s. view_seq s ≡ sequence_of shape imm) }
{
    match shape {
        Shape::Packed(from, narrow, join, to) => {
            over_two(
                alloc,
                CARRIER,
                CARRIER,
                packed(alloc, from, narrow, join, to)?,
            )
        }
        Shape::Extended(signs, widths) => over_one(alloc, CARRIER, extended(alloc, signs, widths)?),
        Shape::Shuffled => over_two(alloc, CARRIER, CARRIER, shuffled(alloc)?),
        Shape::BlendedBytes => {
            over_three(alloc, CARRIER, CARRIER, CARRIER, blended_bytes(alloc)?)
        }
        Shape::Blended(width) => over_two(alloc, CARRIER, CARRIER, blended(alloc, width, imm)?),
        Shape::Zero => over_none(alloc, Term::Const([0; 16])),
        Shape::AllLanes(width) => over_one(alloc, scalar_type(width), all_lanes(alloc, width)?),
        Shape::LowLane(width) => low_lane(alloc, width),
        Shape::First(width) => over_one(alloc, CARRIER, lane_at(alloc, width, 0)?),
        Shape::Lane(width) => over_one(alloc, CARRIER, lane_at(alloc, width, imm)?),
        Shape::WithLane(width) => {
            let t = with_lane(alloc, width, Term::Param(1), Term::Param(0), imm)?;
            over_two(alloc, CARRIER, result_type(width), t)
        }
        Shape::EachLane(reversed, width) => every_lane(alloc, reversed, width),
        Shape::ByteSigns => byte_signs(alloc),
        Shape::Tested(test) => over_two(alloc, CARRIER, CARRIER, tested(alloc, test)?),
        Shape::TestedOnes => over_one(alloc, CARRIER, tested_ones(alloc)?),
        Shape::MinPosition => min_position(alloc),
    }
}

fn planned_two(op: Two) -> Option<Shape>
    ensures { result ≡ planned_two op }
{
    match op {
        Two::PackWords => Some(Shape::Packed(S16, VqmovnS16, VcombineS8, S8)),
        Two::PackDwords => Some(Shape::Packed(S32, VqmovnS32, VcombineS16, S16)),
        Two::PackWordsUnsigned => Some(Shape::Packed(S16, VqmovunS16, VcombineU8, U8)),
        Two::PackDwordsUnsigned => Some(Shape::Packed(S32, VqmovunS32, VcombineU16, U16)),
        Two::ShuffleBytes => Some(Shape::Shuffled),
        _ => None,
    }
}

fn planned_blend(op: TwoImm) -> Option<Shape>
    ensures { result ≡ planned_blend op }
{
    match op {
        TwoImm::BlendWords => Some(Shape::Blended(Width::Word)),
        TwoImm::BlendDwords => Some(Shape::Blended(Width::Dword)),
        _ => None,
    }
}

fn planned_scalar(row: Scalar) -> Option<Shape>
    ensures { result ≡ planned_scalar row }
{
    match row {
        Scalar::SetZero(Size::Xmm) => Some(Shape::Zero),
        Scalar::SetAll(Size::Xmm, width) => Some(Shape::AllLanes(width)),
        Scalar::ToVector(width) => Some(Shape::LowLane(width)),
        Scalar::FromVector(width) => Some(Shape::First(width)),
        Scalar::Extract(Size::Xmm, width) => Some(Shape::Lane(width)),
        Scalar::Insert(Size::Xmm, width) => Some(Shape::WithLane(width)),
        Scalar::Set(Size::Xmm, width) => Some(Shape::EachLane(false, width)),
        Scalar::SetReversed(Size::Xmm, width) => Some(Shape::EachLane(true, width)),
        Scalar::ByteSigns(Size::Xmm) => Some(Shape::ByteSigns),
        Scalar::Tested(Size::Xmm, test) => Some(Shape::Tested(test)),
        Scalar::TestedOnes => Some(Shape::TestedOnes),
        _ => None,
    }
}

fn planned(form: Form) -> Option<Shape>
    ensures { result ≡ planned form }
{
    match form {
        Form::One(Size::Xmm, One::MinPosition) => Some(Shape::MinPosition),
        Form::Two(Size::Xmm, op) => planned_two(op),
        Form::TwoImm(Size::Xmm, op) => planned_blend(op),
        Form::BlendBytes(Size::Xmm) => Some(Shape::BlendedBytes),
        Form::Extend(Size::Xmm, signs, widths) => Some(Shape::Extended(signs, widths)),
        Form::Scalar(row) => planned_scalar(row),
        _ => None,
    }
}

/// Whether the row has its sequence here: it packs, extends or selects lanes, takes or gives single values, or reduces a vector, on 128 bits,
/// and `plan` gives the sequence.
pub fn is_packing(op: IntelOp) -> bool
    ensures { result ≡ is_packing op }
{
    planned(intel_table::form(op)).is_some()
}

fn listed(alloc: Global, op: IntelOp, imm: u16) -> Result<Seq, AllocError>
    requires { is_packing op ≡ true }
    ensures { IfOk result (λ s. plan_of op imm ≡ Some (view_seq s)) }
{
    sequence(alloc, planned(intel_table::form(op)).unwrap(), imm)
}

/// The sequence of a row. It takes the row's vectors as `uint8x16_t` and its integers in the types that theirs are written as, and the immediate is part of it. It gives
/// a vector as `uint8x16_t`, and an integer in its type. The only error is want of memory.
pub fn plan(alloc: Global, op: IntelOp, imm: u16) -> Result<Seq, AllocError>
    requires ours { is_packing op ≡ true }
    requires range { InImmRange (range_of op) imm }
    ensures sequence { IfOk result (λ s. plan_of op imm ≡ Some (view_seq s)) }
    ensures value { IfOk result (λ s. (args : List Arg) → Fits (signature_of op) args → evaluated (view_seq s) (operands (params_of (signature_of op)) args) ≡ Some (eval_of op args imm)) }
    ensures formed { IfOk result (λ s. WellFormed (view_seq s)) }
    ensures typed { IfOk result (λ s. IsTyped (signature_of op) (view_seq s)) }
    ensures ceiling { IfOk result (λ s. length (rows_called (view_seq s)) ≤ ceiling (form_of op)) }
    ensures unmarked { is_scalar op ≡ false → IfOk result (λ s. plain (view_seq s) ≡ true) }
    ensures one_call { (names : List (List ℕ)) → listed (form_of op) ≡ Some names → IfOk result (λ s. map neon.name_of (rows_called (view_seq s)) ≡ names) }
{
    listed(alloc, op, imm)
}

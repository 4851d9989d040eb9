//! The sequence of each row.

ghost use Rattle.std.specs.Prelude.{◌≡◌, ◌≤◌, ℕ, IfOk, IsSome, Some, length, is_some, true, false};
ghost use Rattle.lane_core.specs.IntRange.{InRange};
ghost use Rattle.scalar_core.specs.Numbers.{num_of};
ghost use Rattle.intel_forms.specs.Forms.{is_scalar};
ghost use Rattle.intel_table.specs.Rows.{form_of};
ghost use Rattle.neon_move.specs.declared.MoveOp.TheVariants as group;
ghost use Rattle.neon_move.specs.declared.bytes.Bytes.TheVariants.{Vld1qU8, Vst1qU8};
ghost use Rattle.neon_table.specs.Rows.{of_move};
ghost use Rattle.seq_core.specs.Terms.{Param};
ghost use Rattle.seq_core.specs.View.{view, view_seq};
ghost use Rattle.seq_core.specs.Called.{plain, rows_called};
ghost use Rattle.seq_core.specs.Formed.{WellFormed};
ghost use Rattle.seq_memory.specs.Claims.{DoesAsTheRow};
ghost use Rattle.seq_memory.specs.Plans.{one, two, pointer, reading, storing, no_bytes, low_loaded, low_stored, top_bits, chosen_bytes, eight_on, masked_qwords, power_of, distances, gathered, gathered_qwords, merged_bytes, merged_qwords, plan_of, ceiling_of};

use c_tree::{CType, Pointee};
use intel_forms::memory::{Indexing, Memory};
use intel_forms::{Form, Size};
use intel_lanes::lanes::Width;
use intel_table::IntelOp;
use lane_core::number::{IntType, Num};
use lane_core::vector::NeonLane;
use neon_lane::LaneOp;
use neon_lane::shifts::Shifts;
use neon_move::MoveOp;
use neon_move::bytes::Bytes;
use neon_move::halves::Halves;
use neon_move::places::Places;
use neon_move::to_signed::ToSigned;
use neon_move::to_unsigned::ToUnsigned;
use neon_move::widened::Widened;
use neon_table::NeonOp;
use seq_core::build::{call_one, call_two, choice, shifted};
use seq_core::{Seq, Term};
use std::alloc::{AllocError, Global};

/// A pointer to bytes.
fn pointer(constant: bool) -> CType
    ensures { result ≡ pointer constant }
{
    CType::Pointer(Pointee::Int(IntType::UChar), constant)
}

fn of_bytes(row: Bytes) -> NeonOp
    ensures { result ≡ of_move (group.Bytes row) }
{
    neon_table::moving(MoveOp::Bytes(row))
}

/// A sequence that reads at a pointer.
fn reading(alloc: Global, t: Term) -> Result<Seq, AllocError>
    ensures { IfOk result (λ s. view_seq s ≡ reading (view t)) }
{
    let mut params = Vec::new(alloc);
    params.push(pointer(true))?;
    Ok(Seq {
        params,
        steps: Vec::new(alloc),
        result: Some(t),
    })
}

/// A sequence that stores a register at a pointer.
fn storing(alloc: Global, t: Term) -> Result<Seq, AllocError>
    ensures { IfOk result (λ s. view_seq s ≡ storing (view t)) }
{
    let mut params = Vec::new(alloc);
    params.push(pointer(false))?;
    params.push(CType::Neon(NeonLane::U8, true))?;
    let mut steps = Vec::new(alloc);
    steps.push(t)?;
    Ok(Seq {
        params,
        steps,
        result: None,
    })
}

/// Whether the row has a sequence here: loads and stores of 16 bytes, aligned or not, and of the low 8 bytes, loads of the qwords that a mask of 16 bytes
/// chooses, and gathers of two qwords by dwords, with a mask and without one.
pub fn is_built(op: IntelOp) -> bool
    ensures { (imm : ℕ) → result ≡ is_some (plan_of (form_of op) imm) }
{
    match intel_table::form(op) {
        Form::Memory(row) => matches!(
            row,
            Memory::Load(Size::Xmm, _)
                | Memory::Store(Size::Xmm, _)
                | Memory::LoadLow
                | Memory::StoreLow
                | Memory::MaskLoad(Size::Xmm, Width::Qword)
                | Memory::Gather(Size::Xmm, Indexing::QwordsByDwords)
                | Memory::MaskGather(Size::Xmm, Indexing::QwordsByDwords)
        ),
        _ => false,
    }
}

fn load(alloc: Global) -> Result<Term, AllocError>
    ensures { IfOk result (λ t. view t ≡ one (of_move (group.Bytes Vld1qU8)) (Param 0)) }
{
    call_one(alloc, of_bytes(Bytes::Vld1qU8), Term::Param(0), 0)
}

fn store(alloc: Global) -> Result<Term, AllocError>
    ensures { IfOk result (λ t. view t ≡ two (of_move (group.Bytes Vst1qU8)) (Param 0) (Param 1)) }
{
    call_two(
        alloc,
        of_bytes(Bytes::Vst1qU8),
        Term::Param(0),
        Term::Param(1),
        0,
    )
}

/// The number of the type with a value in its range.
#[tactic(auto, using(scalar_core::specs::NumberLaws::num_of_parts))]
fn number(ty: IntType, value: i128) -> Num
    requires { InRange ty value }
    ensures { result ≡ num_of ty value }
{
    Num { ty, value }
}

/// Eight bytes that are 0.
fn no_bytes(alloc: Global) -> Result<Term, AllocError>
    ensures { IfOk result (λ t. view t ≡ no_bytes) }
{
    let none = Term::Int(number(IntType::ULong, 0));
    call_one(alloc, of_bytes(Bytes::VcreateU8), none, 0)
}

/// Eight bytes at the pointer, zeros above.
fn low_loaded(alloc: Global) -> Result<Term, AllocError>
    ensures { IfOk result (λ t. view t ≡ low_loaded) }
{
    let low = call_one(alloc, of_bytes(Bytes::Vld1U8), Term::Param(0), 0)?;
    let row = neon_table::moving(MoveOp::Halves(Halves::VcombineU8));
    call_two(alloc, row, low, no_bytes(alloc)?, 0)
}

/// The low half stored at the pointer.
fn low_stored(alloc: Global) -> Result<Term, AllocError>
    ensures { IfOk result (λ t. view t ≡ low_stored) }
{
    let row = neon_table::moving(MoveOp::Halves(Halves::VgetLowU8));
    let low = call_one(alloc, row, Term::Param(1), 0)?;
    call_two(alloc, of_bytes(Bytes::Vst1U8), Term::Param(0), low, 0)
}

/// 1 in each qword of a register whose top bit is 1, else 0.
fn top_bits(alloc: Global, x: Term) -> Result<Term, AllocError>
    ensures { IfOk result (λ t. view t ≡ top_bits (view x)) }
{
    let row = neon_table::moving(MoveOp::ToUnsigned(ToUnsigned::VreinterpretqU64U8));
    let qwords = call_one(alloc, row, x, 0)?;
    let row = neon_table::computing(LaneOp::Shifts(Shifts::VshrqNU64));
    call_one(alloc, row, qwords, 63)
}

/// Eight bytes at a pointer where a qword of the mask has its top bit, else zeros, and nothing is touched.
fn chosen_bytes(alloc: Global, k: u16, at: Term) -> Result<Term, AllocError>
    ensures { IfOk result (λ t. view t ≡ chosen_bytes k (view at)) }
{
    let row = neon_table::moving(MoveOp::Places(Places::VgetqLaneU64));
    let bit = call_one(alloc, row, Term::Step(0), k)?;
    let bytes = call_one(alloc, of_bytes(Bytes::Vld1U8), at, 0)?;
    choice(alloc, bit, bytes, no_bytes(alloc)?)
}

/// The pointer eight bytes on.
fn eight_on(alloc: Global) -> Result<Term, AllocError>
    ensures { IfOk result (λ t. view t ≡ eight_on) }
{
    let eight = Term::Int(number(IntType::Int, 8));
    shifted(alloc, Term::Param(0), eight)
}

/// The qwords that a mask chooses.
fn masked_qwords(alloc: Global) -> Result<Seq, AllocError>
    ensures { IfOk result (λ s. view_seq s ≡ masked_qwords) }
{
    let mut params = Vec::new(alloc);
    params.push(pointer(true))?;
    params.push(CType::Neon(NeonLane::U8, true))?;
    let mut steps = Vec::new(alloc);
    steps.push(top_bits(alloc, Term::Param(1))?)?;
    let low = chosen_bytes(alloc, 0, Term::Param(0))?;
    let high = chosen_bytes(alloc, 1, eight_on(alloc)?)?;
    let row = neon_table::moving(MoveOp::Halves(Halves::VcombineU8));
    let both = call_two(alloc, row, low, high, 0)?;
    Ok(Seq {
        params,
        steps,
        result: Some(both),
    })
}

/// The power of two that a scale is.
fn power_of(scale: u16) -> u16
    ensures { result ≡ power_of scale }
{
    match scale {
        8 => 3,
        4 => 2,
        2 => 1,
        _ => 0,
    }
}

/// The two low dwords of the indices, as qwords, times the scale.
fn distances(alloc: Global, indices: Term, scale: u16) -> Result<Term, AllocError>
    ensures { IfOk result (λ t. view t ≡ distances (view indices) scale) }
{
    let row = neon_table::moving(MoveOp::ToSigned(ToSigned::VreinterpretqS32U8));
    let dwords = call_one(alloc, row, indices, 0)?;
    let row = neon_table::moving(MoveOp::Halves(Halves::VgetLowS32));
    let dwords = call_one(alloc, row, dwords, 0)?;
    let row = neon_table::moving(MoveOp::Widened(Widened::VmovlS32));
    let qwords = call_one(alloc, row, dwords, 0)?;
    let row = neon_table::computing(LaneOp::Shifts(Shifts::VshlqNS64));
    call_one(alloc, row, qwords, power_of(scale))
}

/// Eight bytes that far on.
fn gathered(alloc: Global, p: Term, k: u16) -> Result<Term, AllocError>
    ensures { IfOk result (λ t. view t ≡ gathered (view p) k) }
{
    let row = neon_table::moving(MoveOp::Places(Places::VgetqLaneS64));
    let distance = call_one(alloc, row, Term::Step(0), k)?;
    let at = shifted(alloc, p, distance)?;
    call_one(alloc, of_bytes(Bytes::Vld1U8), at, 0)
}

/// Two qwords by dwords.
fn gathered_qwords(alloc: Global, scale: u16) -> Result<Seq, AllocError>
    ensures { IfOk result (λ s. view_seq s ≡ gathered_qwords scale) }
{
    let mut params = Vec::new(alloc);
    params.push(pointer(true))?;
    params.push(CType::Neon(NeonLane::U8, true))?;
    let mut steps = Vec::new(alloc);
    steps.push(distances(alloc, Term::Param(1), scale)?)?;
    let low = gathered(alloc, Term::Param(0), 0)?;
    let high = gathered(alloc, Term::Param(0), 1)?;
    let row = neon_table::moving(MoveOp::Halves(Halves::VcombineU8));
    let both = call_two(alloc, row, low, high, 0)?;
    Ok(Seq {
        params,
        steps,
        result: Some(both),
    })
}

/// Eight bytes that far on where a qword of the mask has its top bit, else that half of the first operand.
fn merged_bytes(alloc: Global, k: u16, part: Halves) -> Result<Term, AllocError>
    ensures { IfOk result (λ t. view t ≡ merged_bytes k part) }
{
    let row = neon_table::moving(MoveOp::Places(Places::VgetqLaneU64));
    let bit = call_one(alloc, row, Term::Step(1), k)?;
    let bytes = gathered(alloc, Term::Param(1), k)?;
    let row = neon_table::moving(MoveOp::Halves(part));
    choice(alloc, bit, bytes, call_one(alloc, row, Term::Param(0), 0)?)
}

/// Two qwords by dwords, where a mask chooses them.
fn merged_qwords(alloc: Global, scale: u16) -> Result<Seq, AllocError>
    ensures { IfOk result (λ s. view_seq s ≡ merged_qwords scale) }
{
    let mut params = Vec::new(alloc);
    params.push(CType::Neon(NeonLane::U8, true))?;
    params.push(pointer(true))?;
    params.push(CType::Neon(NeonLane::U8, true))?;
    params.push(CType::Neon(NeonLane::U8, true))?;
    let mut steps = Vec::new(alloc);
    steps.push(distances(alloc, Term::Param(2), scale)?)?;
    steps.push(top_bits(alloc, Term::Param(3))?)?;
    let low = merged_bytes(alloc, 0, Halves::VgetLowU8)?;
    let high = merged_bytes(alloc, 1, Halves::VgetHighU8)?;
    let row = neon_table::moving(MoveOp::Halves(Halves::VcombineU8));
    let both = call_two(alloc, row, low, high, 0)?;
    Ok(Seq {
        params,
        steps,
        result: Some(both),
    })
}

/// The sequence of a form. No form but those that have one gets to the last arm.
fn of_form(alloc: Global, form: Form, imm: u16) -> Result<Seq, AllocError>
    requires { IsSome (plan_of form imm) }
    ensures { IfOk result (λ s. plan_of form imm ≡ Some (view_seq s)) }
{
    match form {
        Form::Memory(Memory::Load(_, _)) => reading(alloc, load(alloc)?),
        Form::Memory(Memory::LoadLow) => reading(alloc, low_loaded(alloc)?),
        Form::Memory(Memory::MaskLoad(_, _)) => masked_qwords(alloc),
        Form::Memory(Memory::Gather(_, _)) => gathered_qwords(alloc, imm),
        Form::Memory(Memory::MaskGather(_, _)) => merged_qwords(alloc, imm),
        Form::Memory(Memory::StoreLow) => storing(alloc, low_stored(alloc)?),
        _ => storing(alloc, store(alloc)?),
    }
}

/// The sequence of a row that `is_built` names. Its parameters are the row's but the constant, which is part of it: a pointer to bytes, and the
/// registers that the row takes. It does what the row does wherever the row is defined; an aligned row's asks for no alignment. The constant is a
/// gather's scale, 1, 2, 4 or 8, and 0 for a row without one. The only error is want of memory.
pub fn plan(alloc: Global, op: IntelOp, imm: u16) -> Result<Seq, AllocError>
    requires { IsSome (plan_of (form_of op) imm) }
    ensures sequence { IfOk result (λ s. plan_of (form_of op) imm ≡ Some (view_seq s)) }
    ensures does { IfOk result (λ s. DoesAsTheRow op imm (view_seq s)) }
    ensures formed { IfOk result (λ s. WellFormed (view_seq s)) }
    ensures ceiling { IfOk result (λ s. length (rows_called (view_seq s)) ≤ ceiling_of (form_of op)) }
    ensures unmarked { is_scalar (form_of op) ≡ false → IfOk result (λ s. plain (view_seq s) ≡ true) }
{
    of_form(alloc, intel_table::form(op), imm)
}

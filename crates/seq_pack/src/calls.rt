//! Calls of rows on carriers: vectors of 16 bytes, which stand for all vectors of 128 bits. The only error of each is want of memory.

ghost use Rattle.std.specs.Prelude.{◌≡◌, ◌∷◌, [], IfOk};
ghost use Rattle.seq_core.specs.View.{view, view_seq};
ghost use Rattle.seq_pack.specs.Calls.{moved, moved_two, worked, worked_two, worked_three, into, back, over};

use c_tree::CType;
use lane_core::vector::NeonLane::{self, S8, S16, S32, S64, U8, U16, U32, U64};
use neon_lane::LaneOp;
use neon_move::MoveOp::{self, ToSigned, ToUnsigned};
use neon_move::to_signed::ToSigned as Signed;
use neon_move::to_unsigned::ToUnsigned as Unsigned;
use neon_table::{computing, moving};
use seq_core::{Seq, Term, build};
use std::alloc::{AllocError, Global};

/// The call of a moving row of one operand, with its constant, 0 for a row without one.
pub fn moved(alloc: Global, row: MoveOp, x: Term, imm: u16) -> Result<Term, AllocError>
    ensures { IfOk result (λ t. view t ≡ moved row (view x) imm) }
{
    build::call_one(alloc, moving(row), x, imm)
}

/// The call of a moving row of two operands, with its constant.
pub fn moved_two(alloc: Global, row: MoveOp, x: Term, y: Term, imm: u16) -> Result<Term, AllocError>
    ensures { IfOk result (λ t. view t ≡ moved_two row (view x) (view y) imm) }
{
    build::call_two(alloc, moving(row), x, y, imm)
}

/// The call of a computing row of one operand, with its constant.
pub fn worked(alloc: Global, row: LaneOp, x: Term, imm: u16) -> Result<Term, AllocError>
    ensures { IfOk result (λ t. view t ≡ worked row (view x) imm) }
{
    build::call_one(alloc, computing(row), x, imm)
}

/// The call of a computing row of two operands.
pub fn worked_two(alloc: Global, row: LaneOp, x: Term, y: Term) -> Result<Term, AllocError>
    ensures { IfOk result (λ t. view t ≡ worked_two row (view x) (view y)) }
{
    build::call_two(alloc, computing(row), x, y, 0)
}

/// The call of a computing row of three operands.
pub fn worked_three(
    alloc: Global,
    row: LaneOp,
    x: Term,
    y: Term,
    z: Term,
) -> Result<Term, AllocError>
    ensures { IfOk result (λ t. view t ≡ worked_three row (view x) (view y) (view z)) }
{
    build::call_three(alloc, computing(row), x, y, z)
}

/// A carrier read as a vector of these elements.
pub fn into(alloc: Global, elements: NeonLane, x: Term) -> Result<Term, AllocError>
    ensures { IfOk result (λ t. view t ≡ into elements (view x)) }
{
    match elements {
        U8 => Ok(x),
        U16 => moved(alloc, ToUnsigned(Unsigned::VreinterpretqU16U8), x, 0),
        U32 => moved(alloc, ToUnsigned(Unsigned::VreinterpretqU32U8), x, 0),
        U64 => moved(alloc, ToUnsigned(Unsigned::VreinterpretqU64U8), x, 0),
        S8 => moved(alloc, ToSigned(Signed::VreinterpretqS8U8), x, 0),
        S16 => moved(alloc, ToSigned(Signed::VreinterpretqS16U8), x, 0),
        S32 => moved(alloc, ToSigned(Signed::VreinterpretqS32U8), x, 0),
        S64 => moved(alloc, ToSigned(Signed::VreinterpretqS64U8), x, 0),
    }
}

/// A vector of these elements as a carrier.
pub fn back(alloc: Global, elements: NeonLane, x: Term) -> Result<Term, AllocError>
    ensures { IfOk result (λ t. view t ≡ back elements (view x)) }
{
    match elements {
        U8 => Ok(x),
        U16 => moved(alloc, ToUnsigned(Unsigned::VreinterpretqU8U16), x, 0),
        U32 => moved(alloc, ToUnsigned(Unsigned::VreinterpretqU8U32), x, 0),
        U64 => moved(alloc, ToUnsigned(Unsigned::VreinterpretqU8U64), x, 0),
        S8 => moved(alloc, ToUnsigned(Unsigned::VreinterpretqU8S8), x, 0),
        S16 => moved(alloc, ToUnsigned(Unsigned::VreinterpretqU8S16), x, 0),
        S32 => moved(alloc, ToUnsigned(Unsigned::VreinterpretqU8S32), x, 0),
        S64 => moved(alloc, ToUnsigned(Unsigned::VreinterpretqU8S64), x, 0),
    }
}

/// A sequence without steps and parameters.
pub fn over_none(alloc: Global, t: Term) -> Result<Seq, AllocError>
    ensures { IfOk result (λ s. view_seq s ≡ over [] (view t)) }
{
    Ok(Seq {
        params: Vec::new(alloc),
        steps: Vec::new(alloc),
        result: Some(t),
    })
}

/// A sequence without steps over one parameter of that type.
pub fn over_one(alloc: Global, a: CType, t: Term) -> Result<Seq, AllocError>
    ensures { IfOk result (λ s. view_seq s ≡ over (a ∷ []) (view t)) }
{
    let mut seq = over_none(alloc, t)?;
    seq.params.push(a)?;
    Ok(seq)
}

/// A sequence without steps over two.
pub fn over_two(alloc: Global, a: CType, b: CType, t: Term) -> Result<Seq, AllocError>
    ensures { IfOk result (λ s. view_seq s ≡ over (a ∷ b ∷ []) (view t)) }
{
    let mut seq = over_one(alloc, a, t)?;
    seq.params.push(b)?;
    Ok(seq)
}

/// A sequence without steps over three.
pub fn over_three(alloc: Global, a: CType, b: CType, c: CType, t: Term) -> Result<Seq, AllocError>
    ensures { IfOk result (λ s. view_seq s ≡ over (a ∷ b ∷ c ∷ []) (view t)) }
{
    let mut seq = over_two(alloc, a, b, t)?;
    seq.params.push(c)?;
    Ok(seq)
}

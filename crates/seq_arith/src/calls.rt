//! Calls of rows on carriers: vectors of 16 bytes, which stand for all vectors of 128 bits. The only error of each is want of memory.

ghost use Rattle.std.specs.Prelude.{◌≡◌, IfOk};
ghost use Rattle.neon_forms.specs.Forms.{unsigned_of};
ghost use Rattle.seq_core.specs.View.{view, view_seq};
ghost use Rattle.seq_arith.specs.Calls.{reread, into, back, taken, gives, on_one, on_two, over_one, over_two};

use c_tree::CType;
use lane_core::vector::NeonLane::{self, S8, S16, S32, S64, U8, U16, U32, U64};
use neon_forms::Form;
use neon_move::MoveOp::{self, ToSigned, ToUnsigned};
use neon_move::to_signed::ToSigned as Signed;
use neon_move::to_unsigned::ToUnsigned as Unsigned;
use neon_table::NeonOp;
use seq_core::{Seq, Term, build};
use std::alloc::{AllocError, Global};

/// `uint8x16_t`.
const CARRIER: CType = CType::Neon(NeonLane::U8, true);

/// A vector read as one of other elements.
pub fn reread(alloc: Global, row: MoveOp, x: Term) -> Result<Term, AllocError>
    ensures { IfOk result (λ t. view t ≡ reread row (view x)) }
{
    build::call_one(alloc, neon_table::moving(row), x, 0)
}

/// A carrier read as a vector of these elements.
pub fn into(alloc: Global, elements: NeonLane, x: Term) -> Result<Term, AllocError>
    ensures { IfOk result (λ t. view t ≡ into elements (view x)) }
{
    match elements {
        U8 => Ok(x),
        U16 => reread(alloc, ToUnsigned(Unsigned::VreinterpretqU16U8), x),
        U32 => reread(alloc, ToUnsigned(Unsigned::VreinterpretqU32U8), x),
        U64 => reread(alloc, ToUnsigned(Unsigned::VreinterpretqU64U8), x),
        S8 => reread(alloc, ToSigned(Signed::VreinterpretqS8U8), x),
        S16 => reread(alloc, ToSigned(Signed::VreinterpretqS16U8), x),
        S32 => reread(alloc, ToSigned(Signed::VreinterpretqS32U8), x),
        S64 => reread(alloc, ToSigned(Signed::VreinterpretqS64U8), x),
    }
}

/// A vector of these elements as a carrier.
pub fn back(alloc: Global, elements: NeonLane, x: Term) -> Result<Term, AllocError>
    ensures { IfOk result (λ t. view t ≡ back elements (view x)) }
{
    match elements {
        U8 => Ok(x),
        U16 => reread(alloc, ToUnsigned(Unsigned::VreinterpretqU8U16), x),
        U32 => reread(alloc, ToUnsigned(Unsigned::VreinterpretqU8U32), x),
        U64 => reread(alloc, ToUnsigned(Unsigned::VreinterpretqU8U64), x),
        S8 => reread(alloc, ToUnsigned(Unsigned::VreinterpretqU8S8), x),
        S16 => reread(alloc, ToUnsigned(Unsigned::VreinterpretqU8S16), x),
        S32 => reread(alloc, ToUnsigned(Unsigned::VreinterpretqU8S32), x),
        S64 => reread(alloc, ToUnsigned(Unsigned::VreinterpretqU8S64), x),
    }
}

/// The elements of the vectors that a row of the form takes.
fn taken(form: Form) -> NeonLane
    ensures { result ≡ taken form }
{
    match form {
        Form::Each1(_, t)
        | Form::Each2(_, t)
        | Form::Compared(_, t)
        | Form::ShiftLeft(t)
        | Form::ShiftRight(t)
        | Form::PairSums(t)
        | Form::Permuted(_, t) => t,
        _ => U8,
    }
}

fn unsigned(elements: NeonLane) -> NeonLane
    ensures { result ≡ unsigned_of elements }
{
    match elements {
        S8 => U8,
        S16 => U16,
        S32 => U32,
        S64 => U64,
        other => other,
    }
}

/// The elements of the vector that it gives.
fn gives(form: Form) -> NeonLane
    ensures { result ≡ gives form }
{
    match form {
        Form::Compared(_, t) => unsigned(t),
        other => taken(other),
    }
}

/// The call of a row on one carrier, with its constant, 0 for a row without one.
pub fn on_one(alloc: Global, row: NeonOp, x: Term, imm: u16) -> Result<Term, AllocError>
    ensures { IfOk result (λ t. view t ≡ on_one row (view x) imm) }
{
    let form = neon_table::form(row);
    let x = into(alloc, taken(form), x)?;
    let call = build::call_one(alloc, row, x, imm)?;
    back(alloc, gives(form), call)
}

/// The call of a row on two carriers.
pub fn on_two(alloc: Global, row: NeonOp, x: Term, y: Term) -> Result<Term, AllocError>
    ensures { IfOk result (λ t. view t ≡ on_two row (view x) (view y)) }
{
    let form = neon_table::form(row);
    let x = into(alloc, taken(form), x)?;
    let y = into(alloc, taken(form), y)?;
    let call = build::call_two(alloc, row, x, y, 0)?;
    back(alloc, gives(form), call)
}

/// A sequence without steps over one carrier.
pub fn over_one(alloc: Global, t: Term) -> Result<Seq, AllocError>
    ensures { IfOk result (λ s. view_seq s ≡ over_one (view t)) }
{
    let mut params = Vec::new(alloc);
    params.push(CARRIER)?;
    Ok(Seq {
        params,
        steps: Vec::new(alloc),
        result: Some(t),
    })
}

/// A sequence without steps over two carriers.
pub fn over_two(alloc: Global, t: Term) -> Result<Seq, AllocError>
    ensures { IfOk result (λ s. view_seq s ≡ over_two (view t)) }
{
    let mut params = Vec::new(alloc);
    params.push(CARRIER)?;
    params.push(CARRIER)?;
    Ok(Seq {
        params,
        steps: Vec::new(alloc),
        result: Some(t),
    })
}

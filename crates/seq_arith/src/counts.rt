//! The terms of rows that shift by counts in lanes of the second operand. The only error of each is want of memory.

ghost use Rattle.std.specs.Prelude.{◌≡◌, IfOk};
ghost use Rattle.neon_table.specs.Rows.{of_move};
ghost use Rattle.seq_core.specs.View.{view};
ghost use Rattle.seq_arith.specs.Products.{one};
ghost use Rattle.seq_arith.specs.Counts.{limit, counts, negated, dword_shifts, sixty_four, excess, amounts, amount, moved, moved_by, qword_shifts, counted_shifts};

use crate::calls::{back, into, reread};
use intel_lanes::lanes::{Shift, Width};
use lane_core::vector::NeonLane::{self, S16, S32, S64, U16, U32, U64};
use neon_lane::LaneOp;
use neon_lane::arithmetic::Arithmetic;
use neon_lane::extremes::Extremes;
use neon_lane::saturating::Saturating;
use neon_lane::shifts::Shifts;
use neon_move::MoveOp;
use neon_move::places::Places;
use neon_move::to_signed::ToSigned;
use neon_move::to_unsigned::ToUnsigned;
use neon_table::{computing, moving};
use seq_core::{Term, build};
use std::alloc::{AllocError, Global};

/// The greatest count in each dword.
fn limit(shift: Shift) -> [u8; 16]
    ensures { result ≡ limit shift }
{
    match shift {
        Shift::Left | Shift::Right => [32, 0, 0, 0, 32, 0, 0, 0, 32, 0, 0, 0, 32, 0, 0, 0],
        Shift::Arithmetic => [31, 0, 0, 0, 31, 0, 0, 0, 31, 0, 0, 0, 31, 0, 0, 0],
    }
}

/// The second operand's counts, cut to the limit.
fn counts(alloc: Global, shift: Shift) -> Result<Term, AllocError>
    ensures { IfOk result (λ t. view t ≡ counts shift) }
{
    let b = into(alloc, U32, Term::Param(1))?;
    let most = into(alloc, U32, Term::Const(limit(shift)))?;
    let row = computing(LaneOp::Extremes(Extremes::VminqU32));
    let cut = build::call_two(alloc, row, b, most, 0)?;
    reread(alloc, MoveOp::ToSigned(ToSigned::VreinterpretqS32U32), cut)
}

fn negated(alloc: Global, shift: Shift) -> Result<Term, AllocError>
    ensures { IfOk result (λ t. view t ≡ negated shift) }
{
    let row = computing(LaneOp::Arithmetic(Arithmetic::VnegqS32));
    build::call_one(alloc, row, counts(alloc, shift)?, 0)
}

/// The dwords of the first operand shifted by those of the second.
pub fn dword_shifts(alloc: Global, shift: Shift) -> Result<Term, AllocError>
    ensures { IfOk result (λ t. view t ≡ dword_shifts shift) }
{
    match shift {
        Shift::Left => {
            let a = into(alloc, U32, Term::Param(0))?;
            let count = counts(alloc, shift)?;
            let row = computing(LaneOp::Shifts(Shifts::VshlqU32));
            back(alloc, U32, build::call_two(alloc, row, a, count, 0)?)
        }
        Shift::Right => {
            let a = into(alloc, U32, Term::Param(0))?;
            let count = negated(alloc, shift)?;
            let row = computing(LaneOp::Shifts(Shifts::VshlqU32));
            back(alloc, U32, build::call_two(alloc, row, a, count, 0)?)
        }
        Shift::Arithmetic => {
            let a = into(alloc, S32, Term::Param(0))?;
            let count = negated(alloc, shift)?;
            let row = computing(LaneOp::Shifts(Shifts::VshlqS32));
            back(alloc, S32, build::call_two(alloc, row, a, count, 0)?)
        }
    }
}

/// 64 in each qword.
const SIXTY_FOUR: [u8; 16] = [64, 0, 0, 0, 0, 0, 0, 0, 64, 0, 0, 0, 0, 0, 0, 0];

/// By how much the qwords of the second operand exceed 64.
fn excess(alloc: Global) -> Result<Term, AllocError>
    ensures { IfOk result (λ t. view t ≡ excess) }
{
    let b = into(alloc, U64, Term::Param(1))?;
    let most = into(alloc, U64, Term::Const(SIXTY_FOUR))?;
    let row = computing(LaneOp::Saturating(Saturating::VqsubqU64));
    build::call_two(alloc, row, b, most, 0)
}

/// These qwords cut to 64, and negated for a shift to the right.
fn amounts(alloc: Global, shift: Shift) -> Result<Term, AllocError>
    ensures { IfOk result (λ t. view t ≡ amounts shift) }
{
    let b = into(alloc, U64, Term::Param(1))?;
    let excess = excess(alloc)?;
    let row = computing(LaneOp::Arithmetic(Arithmetic::VsubqU64));
    match shift {
        Shift::Left => build::call_two(alloc, row, b, excess, 0),
        Shift::Right | Shift::Arithmetic => build::call_two(alloc, row, excess, b, 0),
    }
}

/// The low element of a vector in all lanes.
fn low(alloc: Global, row: Places, x: Term) -> Result<Term, AllocError>
    ensures { IfOk result (λ t. view t ≡ one (of_move (MoveOp.Places row)) (view x)) }
{
    build::call_one(alloc, moving(MoveOp::Places(row)), x, 0)
}

/// The low amount in all lanes.
fn amount(alloc: Global, shift: Shift, width: Width) -> Result<Term, AllocError>
    ensures { IfOk result (λ t. view t ≡ amount shift width) }
{
    let n = amounts(alloc, shift)?;
    match width {
        Width::Word => {
            let n = reread(
                alloc,
                MoveOp::ToUnsigned(ToUnsigned::VreinterpretqU16U64),
                n,
            )?;
            let n = low(alloc, Places::VdupqLaneqU16, n)?;
            reread(alloc, MoveOp::ToSigned(ToSigned::VreinterpretqS16U16), n)
        }
        Width::Dword => {
            let n = reread(
                alloc,
                MoveOp::ToUnsigned(ToUnsigned::VreinterpretqU32U64),
                n,
            )?;
            let n = low(alloc, Places::VdupqLaneqU32, n)?;
            reread(alloc, MoveOp::ToSigned(ToSigned::VreinterpretqS32U32), n)
        }
        Width::Byte | Width::Qword => {
            let n = low(alloc, Places::VdupqLaneqU64, n)?;
            reread(alloc, MoveOp::ToSigned(ToSigned::VreinterpretqS64U64), n)
        }
    }
}

/// The first operand's elements shifted by signed counts.
fn moved(alloc: Global, row: Shifts, elements: NeonLane, n: Term) -> Result<Term, AllocError>
    ensures { IfOk result (λ t. view t ≡ moved row elements (view n)) }
{
    let a = into(alloc, elements, Term::Param(0))?;
    let row = computing(LaneOp::Shifts(row));
    back(alloc, elements, build::call_two(alloc, row, a, n, 0)?)
}

/// The first operand's lanes of a width shifted by signed counts.
fn moved_by(alloc: Global, shift: Shift, width: Width, n: Term) -> Result<Term, AllocError>
    ensures { IfOk result (λ t. view t ≡ moved_by shift width (view n)) }
{
    match (shift, width) {
        (Shift::Arithmetic, Width::Word) => moved(alloc, Shifts::VshlqS16, S16, n),
        (Shift::Arithmetic, Width::Dword) => moved(alloc, Shifts::VshlqS32, S32, n),
        (Shift::Arithmetic, Width::Byte | Width::Qword) => moved(alloc, Shifts::VshlqS64, S64, n),
        (Shift::Left | Shift::Right, Width::Word) => moved(alloc, Shifts::VshlqU16, U16, n),
        (Shift::Left | Shift::Right, Width::Dword) => moved(alloc, Shifts::VshlqU32, U32, n),
        (Shift::Left | Shift::Right, Width::Byte | Width::Qword) => {
            moved(alloc, Shifts::VshlqU64, U64, n)
        }
    }
}

/// The qwords of the first operand shifted by those of the second.
pub fn qword_shifts(alloc: Global, shift: Shift) -> Result<Term, AllocError>
    ensures { IfOk result (λ t. view t ≡ qword_shifts shift) }
{
    let row = MoveOp::ToSigned(ToSigned::VreinterpretqS64U64);
    let n = reread(alloc, row, amounts(alloc, shift)?)?;
    moved_by(alloc, shift, Width::Qword, n)
}

/// The lanes of the first operand shifted by the low qword of the second.
pub fn counted_shifts(alloc: Global, shift: Shift, width: Width) -> Result<Term, AllocError>
    ensures { IfOk result (λ t. view t ≡ counted_shifts shift width) }
{
    let n = amount(alloc, shift, width)?;
    moved_by(alloc, shift, width, n)
}

//! The terms of rows that reduce a vector. The only error of each is want of memory.

ghost use Rattle.std.specs.Prelude.{◌≡◌, IfOk};
ghost use Rattle.seq_core.specs.View.{view};
ghost use Rattle.seq_pack.specs.Tests.{marks, marks_summed, common, left_over, against_zero, tested, tested_ones, least, least_words, least_place, least_and_place};

use crate::calls::{back, into, moved, moved_two, worked, worked_three, worked_two};
use c_values::numbers::from_bits;
use intel_forms::scalars::Test;
use lane_core::number::{BinOp, IntType};
use lane_core::vector::NeonLane::{S8, U16, U64};
use neon_lane::LaneOp;
use neon_lane::choices::Choices::{VbslqU16, VceqqU16};
use neon_lane::extremes::Extremes::{VaddvqU16, VmaxvqU32, VminvqU8, VminvqU16};
use neon_lane::logic::Logic::{VandqU8, VandqU64, VbicqU64};
use neon_lane::shifts::Shifts::VshrqNS8;
use neon_move::MoveOp;
use neon_move::bytes::Bytes::VextqU8;
use neon_move::permuting::Permuting::Vzip1qU8;
use neon_move::places::Places::{VdupqNU16, VsetqLaneU16};
use neon_move::to_unsigned::ToUnsigned::VreinterpretqU32U64;
use seq_core::{Term, build};
use std::alloc::{AllocError, Global};

/// Bit j for byte j of each half.
const PLACES: [u8; 16] = [1, 2, 4, 8, 16, 32, 64, 128, 1, 2, 4, 8, 16, 32, 64, 128];

/// The numbers of the words.
const NUMBERS: [u8; 16] = [0, 0, 1, 0, 2, 0, 3, 0, 4, 0, 5, 0, 6, 0, 7, 0];

/// The top bit of byte j of a half, as bit j.
pub fn marks(alloc: Global) -> Result<Term, AllocError>
    ensures { IfOk result (λ t. view t ≡ marks) }
{
    let signs = into(alloc, S8, Term::Param(0))?;
    let signs = worked(alloc, LaneOp::Shifts(VshrqNS8), signs, 7)?;
    let signs = back(alloc, S8, signs)?;
    worked_two(alloc, LaneOp::Logic(VandqU8), signs, Term::Const(PLACES))
}

/// Bytes j of both halves of the marks as word j, and all words summed.
pub fn marks_summed(alloc: Global) -> Result<Term, AllocError>
    ensures { IfOk result (λ t. view t ≡ marks_summed) }
{
    let row = MoveOp::Bytes(VextqU8);
    let high = moved_two(alloc, row, Term::Step(0), Term::Step(0), 8)?;
    let row = MoveOp::Permuting(Vzip1qU8);
    let both = moved_two(alloc, row, Term::Step(0), high, 0)?;
    let both = into(alloc, U16, both)?;
    let sum = worked(alloc, LaneOp::Extremes(VaddvqU16), both, 0)?;
    build::convert(alloc, IntType::Int, sum)
}

/// The bits of the second operand that are 1 in the first too.
fn common(alloc: Global) -> Result<Term, AllocError>
    ensures { IfOk result (λ t. view t ≡ common) }
{
    let a = into(alloc, U64, Term::Param(0))?;
    let b = into(alloc, U64, Term::Param(1))?;
    worked_two(alloc, LaneOp::Logic(VandqU64), a, b)
}

/// Those that aren't.
fn left_over(alloc: Global) -> Result<Term, AllocError>
    ensures { IfOk result (λ t. view t ≡ left_over) }
{
    let b = into(alloc, U64, Term::Param(1))?;
    let a = into(alloc, U64, Term::Param(0))?;
    worked_two(alloc, LaneOp::Logic(VbicqU64), b, a)
}

/// The greatest dword of qwords beside 0.
fn against_zero(alloc: Global, op: BinOp, x: Term) -> Result<Term, AllocError>
    ensures { IfOk result (λ t. view t ≡ against_zero op (view x)) }
{
    let x = moved(alloc, MoveOp::ToUnsigned(VreinterpretqU32U64), x, 0)?;
    let greatest = worked(alloc, LaneOp::Extremes(VmaxvqU32), x, 0)?;
    build::scalar(alloc, op, greatest, Term::Int(from_bits(IntType::UInt, 0)))
}

/// A test of both operands.
pub fn tested(alloc: Global, test: Test) -> Result<Term, AllocError>
    ensures { IfOk result (λ t. view t ≡ tested test) }
{
    match test {
        Test::Zero => against_zero(alloc, BinOp::Eq, common(alloc)?),
        Test::Carry => against_zero(alloc, BinOp::Eq, left_over(alloc)?),
        Test::Neither => {
            let some = against_zero(alloc, BinOp::Ne, common(alloc)?)?;
            let more = against_zero(alloc, BinOp::Ne, left_over(alloc)?)?;
            build::scalar(alloc, BinOp::BitAnd, some, more)
        }
    }
}

/// Whether the least byte is 255.
pub fn tested_ones(alloc: Global) -> Result<Term, AllocError>
    ensures { IfOk result (λ t. view t ≡ tested_ones) }
{
    let least = worked(alloc, LaneOp::Extremes(VminvqU8), Term::Param(0), 0)?;
    let least = build::convert(alloc, IntType::Int, least)?;
    build::scalar(
        alloc,
        BinOp::Eq,
        least,
        Term::Int(from_bits(IntType::Int, 255)),
    )
}

/// The least word.
pub fn least(alloc: Global) -> Result<Term, AllocError>
    ensures { IfOk result (λ t. view t ≡ least) }
{
    let words = into(alloc, U16, Term::Param(0))?;
    worked(alloc, LaneOp::Extremes(VminvqU16), words, 0)
}

/// The words that are the value of the step before, as all bits or none.
fn least_words(alloc: Global) -> Result<Term, AllocError>
    ensures { IfOk result (λ t. view t ≡ least_words) }
{
    let words = into(alloc, U16, Term::Param(0))?;
    let least = moved(alloc, MoveOp::Places(VdupqNU16), Term::Step(0), 0)?;
    worked_two(alloc, LaneOp::Choices(VceqqU16), words, least)
}

/// The least number of a word that is the value of the step before.
pub fn least_place(alloc: Global) -> Result<Term, AllocError>
    ensures { IfOk result (λ t. view t ≡ least_place) }
{
    let words = least_words(alloc)?;
    let numbers = into(alloc, U16, Term::Const(NUMBERS))?;
    let ones = into(alloc, U16, Term::Const([255; 16]))?;
    let places = worked_three(alloc, LaneOp::Choices(VbslqU16), words, numbers, ones)?;
    worked(alloc, LaneOp::Extremes(VminvqU16), places, 0)
}

/// Both steps as the low words of zeros.
pub fn least_and_place(alloc: Global) -> Result<Term, AllocError>
    ensures { IfOk result (λ t. view t ≡ least_and_place) }
{
    let row = MoveOp::Places(VsetqLaneU16);
    let zeros = into(alloc, U16, Term::Const([0; 16]))?;
    let low = moved_two(alloc, row, Term::Step(0), zeros, 0)?;
    back(alloc, U16, moved_two(alloc, row, Term::Step(1), low, 1)?)
}

//! The terms of the rows. The only error of each is want of memory.

ghost use Rattle.std.specs.Prelude.{◌≡◌, ◌+◌, ◌*◌, ◌/◌, ◌%◌, ◌^◌, ◌<◌, ◌==◌, IfOk, false};
ghost use Rattle.intel_lanes.specs.Lanes.{bytes_of};
ghost use Rattle.seq_core.specs.View.{view};
ghost use Rattle.seq_pack.specs.Terms as term;
ghost use Rattle.seq_pack.specs.Terms.{packed, elements, widened, words, dwords, qwords, narrow, wide, steps_up, extended, shuffled, blended_bytes, mask, by_mask, halves, blended, unsigned_type, duplicating, setting, all_lanes, with_lane, lane_at};

use crate::calls::{back, into, moved, moved_two, worked, worked_three, worked_two};
use intel_forms::Extension;
use intel_lanes::lanes::Width;
use lane_core::number::IntType;
use lane_core::vector::NeonLane::{self, S8, S16, S32, S64, U8, U16, U32, U64};
use lane_core::widths::filled;
use neon_lane::LaneOp;
use neon_lane::choices::Choices::{VbslqU8, VbslqU16, VbslqU32};
use neon_lane::logic::Logic::VandqU8;
use neon_lane::shifts::Shifts::VshrqNS8;
use neon_move::MoveOp;
use neon_move::bytes::Bytes::Vqtbl1qU8;
use neon_move::halves::Halves::{
    self, VcombineU8, VgetHighU8, VgetLowS8, VgetLowS16, VgetLowS32, VgetLowU8, VgetLowU16,
    VgetLowU32,
};
use neon_move::narrowed::Narrowed;
use neon_move::places::Places::{
    self, VdupqNU8, VdupqNU16, VdupqNU32, VdupqNU64, VgetqLaneS32, VgetqLaneS64, VgetqLaneU8,
    VgetqLaneU16, VsetqLaneU8, VsetqLaneU16, VsetqLaneU32, VsetqLaneU64,
};
use neon_move::widened::Widened::{self, VmovlS8, VmovlS16, VmovlS32, VmovlU8, VmovlU16, VmovlU32};
use seq_core::{Term, build};
use std::alloc::{AllocError, Global};

/// The lanes of both operands halved in width by a row, and joined by a row.
pub fn packed(
    alloc: Global,
    from: NeonLane,
    narrow: Narrowed,
    join: Halves,
    to: NeonLane,
) -> Result<Term, AllocError>
    ensures { IfOk result (λ t. view t ≡ packed from narrow join to) }
{
    let low = into(alloc, from, Term::Param(0))?;
    let low = moved(alloc, MoveOp::Narrowed(narrow), low, 0)?;
    let high = into(alloc, from, Term::Param(1))?;
    let high = moved(alloc, MoveOp::Narrowed(narrow), high, 0)?;
    back(
        alloc,
        to,
        moved_two(alloc, MoveOp::Halves(join), low, high, 0)?,
    )
}

/// The elements of a lane, with signs where the truth value is true.
pub fn elements(signs: bool, width: Width) -> NeonLane
    ensures { result ≡ elements signs width }
{
    match (signs, width) {
        (true, Width::Byte) => S8,
        (true, Width::Word) => S16,
        (true, Width::Dword) => S32,
        (true, Width::Qword) => S64,
        (false, Width::Byte) => U8,
        (false, Width::Word) => U16,
        (false, Width::Dword) => U32,
        (false, Width::Qword) => U64,
    }
}

/// The low half of a vector, each element at twice the width.
fn widened(alloc: Global, low: Halves, wide: Widened, x: Term) -> Result<Term, AllocError>
    ensures { IfOk result (λ t. view t ≡ widened low wide (view x)) }
{
    let half = moved(alloc, MoveOp::Halves(low), x, 0)?;
    moved(alloc, MoveOp::Widened(wide), half, 0)
}

/// The low bytes of a vector as words.
fn words(alloc: Global, signs: bool, x: Term) -> Result<Term, AllocError>
    ensures { IfOk result (λ t. view t ≡ words signs (view x)) }
{
    if signs {
        widened(alloc, VgetLowS8, VmovlS8, x)
    } else {
        widened(alloc, VgetLowU8, VmovlU8, x)
    }
}

/// The low words as dwords.
fn dwords(alloc: Global, signs: bool, x: Term) -> Result<Term, AllocError>
    ensures { IfOk result (λ t. view t ≡ dwords signs (view x)) }
{
    if signs {
        widened(alloc, VgetLowS16, VmovlS16, x)
    } else {
        widened(alloc, VgetLowU16, VmovlU16, x)
    }
}

/// The low dwords as qwords.
fn qwords(alloc: Global, signs: bool, x: Term) -> Result<Term, AllocError>
    ensures { IfOk result (λ t. view t ≡ qwords signs (view x)) }
{
    if signs {
        widened(alloc, VgetLowS32, VmovlS32, x)
    } else {
        widened(alloc, VgetLowU32, VmovlU32, x)
    }
}

/// The width that is extended.
fn narrow(widths: Extension) -> Width
    ensures { result ≡ narrow widths }
{
    match widths {
        Extension::ByteWord | Extension::ByteDword | Extension::ByteQword => Width::Byte,
        Extension::WordDword | Extension::WordQword => Width::Word,
        Extension::DwordQword => Width::Dword,
    }
}

/// The width to which it is extended.
fn wide(widths: Extension) -> Width
    ensures { result ≡ wide widths }
{
    match widths {
        Extension::ByteWord => Width::Word,
        Extension::ByteDword | Extension::WordDword => Width::Dword,
        Extension::ByteQword | Extension::WordQword | Extension::DwordQword => Width::Qword,
    }
}

/// The steps of an extension, each to twice the width.
fn steps_up(alloc: Global, signs: bool, widths: Extension, x: Term) -> Result<Term, AllocError>
    ensures { IfOk result (λ t. view t ≡ steps_up signs widths (view x)) }
{
    match widths {
        Extension::ByteWord => words(alloc, signs, x),
        Extension::ByteDword => dwords(alloc, signs, words(alloc, signs, x)?),
        Extension::ByteQword => {
            let x = words(alloc, signs, x)?;
            qwords(alloc, signs, dwords(alloc, signs, x)?)
        }
        Extension::WordDword => dwords(alloc, signs, x),
        Extension::WordQword => qwords(alloc, signs, dwords(alloc, signs, x)?),
        Extension::DwordQword => qwords(alloc, signs, x),
    }
}

/// The low lanes of the operand, extended.
pub fn extended(alloc: Global, signs: bool, widths: Extension) -> Result<Term, AllocError>
    ensures { IfOk result (λ t. view t ≡ extended signs widths) }
{
    let x = into(alloc, elements(signs, narrow(widths)), Term::Param(0))?;
    let x = steps_up(alloc, signs, widths, x)?;
    back(alloc, elements(signs, wide(widths)), x)
}

/// Bytes of the first operand chosen by the second.
pub fn shuffled(alloc: Global) -> Result<Term, AllocError>
    ensures { IfOk result (λ t. view t ≡ shuffled) }
{
    let index = worked_two(
        alloc,
        LaneOp::Logic(VandqU8),
        Term::Param(1),
        Term::Const([143; 16]),
    )?;
    moved_two(alloc, MoveOp::Bytes(Vqtbl1qU8), Term::Param(0), index, 0)
}

/// Bytes of the first two operands chosen by the top bits of the third.
pub fn blended_bytes(alloc: Global) -> Result<Term, AllocError>
    ensures { IfOk result (λ t. view t ≡ blended_bytes) }
{
    let signs = into(alloc, S8, Term::Param(2))?;
    let signs = worked(alloc, LaneOp::Shifts(VshrqNS8), signs, 7)?;
    let signs = back(alloc, S8, signs)?;
    let row = LaneOp::Choices(VbslqU8);
    worked_three(alloc, row, signs, Term::Param(1), Term::Param(0))
}

/// Bit `k` of an immediate.
fn bit(imm: u16, k: usize) -> bool
    requires { k < 8 }
    ensures { result ≡ (imm / 2 ^ k % 2 == 1) }
{
    (imm >> k) % 2 == 1
}

/// All bits of the words whose bit of the immediate is 1.
#[tactic(auto, unfolding(crate::specs::Terms::mask))]
fn words_mask(imm: u16) -> [u8; 16]
    ensures { result ≡ mask 2 imm }
{
    filled(2, &|k: usize| if bit(imm, k) { 0xffff } else { 0 })
}

/// All bits of the dwords whose bit of the immediate is 1.
#[tactic(auto, unfolding(crate::specs::Terms::mask))]
fn dwords_mask(imm: u16) -> [u8; 16]
    ensures { result ≡ mask 4 imm }
{
    filled(4, &|k: usize| if bit(imm, k) { 0xffff_ffff } else { 0 })
}

/// The second operand's words or dwords where the immediate's bit is 1, else the first one's.
fn by_mask(alloc: Global, width: Width, imm: u16) -> Result<Term, AllocError>
    ensures { IfOk result (λ t. view t ≡ by_mask width imm) }
{
    match width {
        Width::Word => {
            let chosen = into(alloc, U16, Term::Const(words_mask(imm)))?;
            let b = into(alloc, U16, Term::Param(1))?;
            let a = into(alloc, U16, Term::Param(0))?;
            let row = LaneOp::Choices(VbslqU16);
            back(alloc, U16, worked_three(alloc, row, chosen, b, a)?)
        }
        Width::Byte | Width::Dword | Width::Qword => {
            let chosen = into(alloc, U32, Term::Const(dwords_mask(imm)))?;
            let b = into(alloc, U32, Term::Param(1))?;
            let a = into(alloc, U32, Term::Param(0))?;
            let row = LaneOp::Choices(VbslqU32);
            back(alloc, U32, worked_three(alloc, row, chosen, b, a)?)
        }
    }
}

/// The low half of one below the high half of another.
fn halves(alloc: Global, lo: Term, hi: Term) -> Result<Term, AllocError>
    ensures { IfOk result (λ t. view t ≡ halves (view lo) (view hi)) }
{
    let lo = moved(alloc, MoveOp::Halves(VgetLowU8), lo, 0)?;
    let hi = moved(alloc, MoveOp::Halves(VgetHighU8), hi, 0)?;
    moved_two(alloc, MoveOp::Halves(VcombineU8), lo, hi, 0)
}

/// One more than the number that has a bit for each lane of a vector.
fn past_all(width: Width) -> u32
    ensures { result ≡ 2 ^ (16 / bytes_of width) }
{
    match width {
        Width::Byte => 65536,
        Width::Word => 256,
        Width::Dword => 16,
        Width::Qword => 4,
    }
}

/// The same for a half.
fn past_half(width: Width) -> u32
    ensures { result ≡ 2 ^ (8 / bytes_of width) }
{
    match width {
        Width::Byte => 256,
        Width::Word => 16,
        Width::Dword => 4,
        Width::Qword => 2,
    }
}

/// The same, by an operand alone where the immediate has no bit or all, and by halves where it has all bits of one.
pub fn blended(alloc: Global, width: Width, imm: u16) -> Result<Term, AllocError>
    ensures { IfOk result (λ t. view t ≡ blended width imm) }
{
    let bits = imm as u32;
    if bits == 0 {
        Ok(Term::Param(0))
    } else if bits + 1 == past_all(width) {
        Ok(Term::Param(1))
    } else if bits + 1 == past_half(width) {
        halves(alloc, Term::Param(1), Term::Param(0))
    } else if bits + past_half(width) == past_all(width) {
        halves(alloc, Term::Param(0), Term::Param(1))
    } else {
        by_mask(alloc, width, imm)
    }
}

/// The type of an unsigned lane.
pub fn unsigned_type(width: Width) -> IntType
    ensures { result ≡ unsigned_type width }
{
    match width {
        Width::Byte => IntType::UChar,
        Width::Word => IntType::UShort,
        Width::Dword => IntType::UInt,
        Width::Qword => IntType::ULong,
    }
}

/// The row that puts an integer into all lanes.
pub fn duplicating(width: Width) -> Places
    ensures { result ≡ duplicating width }
{
    match width {
        Width::Byte => VdupqNU8,
        Width::Word => VdupqNU16,
        Width::Dword => VdupqNU32,
        Width::Qword => VdupqNU64,
    }
}

/// The row that puts an integer into one lane.
pub fn setting(width: Width) -> Places
    ensures { result ≡ setting width }
{
    match width {
        Width::Byte => VsetqLaneU8,
        Width::Word => VsetqLaneU16,
        Width::Dword => VsetqLaneU32,
        Width::Qword => VsetqLaneU64,
    }
}

/// An integer in all lanes.
pub fn all_lanes(alloc: Global, width: Width) -> Result<Term, AllocError>
    ensures { IfOk result (λ t. view t ≡ all_lanes width) }
{
    let x = build::convert(alloc, unsigned_type(width), Term::Param(0))?;
    let all = moved(alloc, MoveOp::Places(duplicating(width)), x, 0)?;
    back(alloc, elements(false, width), all)
}

/// A vector with lane `n` replaced by the low bits of an integer.
pub fn with_lane(alloc: Global, width: Width, x: Term, v: Term, n: u16) -> Result<Term, AllocError>
    ensures { IfOk result (λ t. view t ≡ with_lane width (view x) (view v) n) }
{
    let x = build::convert(alloc, unsigned_type(width), x)?;
    let v = into(alloc, elements(false, width), v)?;
    let v = moved_two(alloc, MoveOp::Places(setting(width)), x, v, n)?;
    back(alloc, elements(false, width), v)
}

/// Lane `n` of the operand as the integer of a row's result.
pub fn lane_at(alloc: Global, width: Width, n: u16) -> Result<Term, AllocError>
    ensures { IfOk result (λ t. view t ≡ lane_at width n) }
{
    match width {
        Width::Byte => {
            let lane = moved(alloc, MoveOp::Places(VgetqLaneU8), Term::Param(0), n)?;
            build::convert(alloc, IntType::Int, lane)
        }
        Width::Word => {
            let v = into(alloc, U16, Term::Param(0))?;
            let lane = moved(alloc, MoveOp::Places(VgetqLaneU16), v, n)?;
            build::convert(alloc, IntType::Int, lane)
        }
        Width::Dword => {
            let v = into(alloc, S32, Term::Param(0))?;
            moved(alloc, MoveOp::Places(VgetqLaneS32), v, n)
        }
        Width::Qword => {
            let v = into(alloc, S64, Term::Param(0))?;
            let lane = moved(alloc, MoveOp::Places(VgetqLaneS64), v, n)?;
            build::convert(alloc, IntType::LLong, lane)
        }
    }
}

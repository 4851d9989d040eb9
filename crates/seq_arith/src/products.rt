//! The terms of rows that take several calls. The only error of each is want of memory.

ghost use Rattle.std.specs.Prelude.{◌≡◌, ◌≤◌, IfOk};
ghost use Rattle.seq_core.specs.View.{view};
ghost use Rattle.seq_arith.specs.Products.{on_whole, on_parts, low_products, high_products, as_words, high_words, even_products, on_uneven, one, added_products, differences, rounded, rounded_products, cut, by_sign, signs, by_byte, even_bytes, odd_bytes, added_bytes, fours, four_differences, sums_of_four};
ghost use Rattle.neon_table.specs.Rows.{of_lane};

use crate::calls::{back, into, on_two, reread};
use intel_lanes::lanes::Width;
use lane_core::vector::NeonLane::{self, S8, S16, S32, S64, U16, U32, U64};
use lane_core::widths::filled;
use neon_lane::LaneOp;
use neon_lane::arithmetic::Arithmetic;
use neon_lane::extremes::Extremes;
use neon_lane::products::Products;
use neon_lane::saturating::Saturating;
use neon_lane::shifts::Shifts;
use neon_move::MoveOp;
use neon_move::bytes::Bytes;
use neon_move::halves::Halves;
use neon_move::narrowed::Narrowed;
use neon_move::permuting::Permuting;
use neon_move::places::Places;
use neon_move::to_signed::ToSigned;
use neon_move::to_unsigned::ToUnsigned;
use neon_table::{NeonOp, computing, moving};
use seq_core::{Term, build};
use std::alloc::{AllocError, Global};

/// A row on both operands as vectors of these elements.
fn on_whole(alloc: Global, row: LaneOp, elements: NeonLane) -> Result<Term, AllocError>
    ensures { IfOk result (λ t. view t ≡ on_whole row elements) }
{
    let a = into(alloc, elements, Term::Param(0))?;
    let b = into(alloc, elements, Term::Param(1))?;
    build::call_two(alloc, computing(row), a, b, 0)
}

/// A row on a part of each operand.
fn on_parts(
    alloc: Global,
    row: LaneOp,
    part: MoveOp,
    elements: NeonLane,
) -> Result<Term, AllocError>
    ensures { IfOk result (λ t. view t ≡ on_parts row part elements) }
{
    let a = into(alloc, elements, Term::Param(0))?;
    let b = into(alloc, elements, Term::Param(1))?;
    let a = build::call_one(alloc, moving(part), a, 0)?;
    let b = build::call_one(alloc, moving(part), b, 0)?;
    build::call_two(alloc, computing(row), a, b, 0)
}

fn low_products(alloc: Global, signs: bool) -> Result<Term, AllocError>
    ensures { IfOk result (λ t. view t ≡ low_products signs) }
{
    if signs {
        let row = LaneOp::Products(Products::VmullS16);
        on_parts(alloc, row, MoveOp::Halves(Halves::VgetLowS16), S16)
    } else {
        let row = LaneOp::Products(Products::VmullU16);
        on_parts(alloc, row, MoveOp::Halves(Halves::VgetLowU16), U16)
    }
}

fn high_products(alloc: Global, signs: bool) -> Result<Term, AllocError>
    ensures { IfOk result (λ t. view t ≡ high_products signs) }
{
    if signs {
        on_whole(alloc, LaneOp::Products(Products::VmullHighS16), S16)
    } else {
        on_whole(alloc, LaneOp::Products(Products::VmullHighU16), U16)
    }
}

fn as_words(alloc: Global, signs: bool, x: Term) -> Result<Term, AllocError>
    ensures { IfOk result (λ t. view t ≡ as_words signs (view x)) }
{
    if signs {
        reread(
            alloc,
            MoveOp::ToUnsigned(ToUnsigned::VreinterpretqU16S32),
            x,
        )
    } else {
        reread(
            alloc,
            MoveOp::ToUnsigned(ToUnsigned::VreinterpretqU16U32),
            x,
        )
    }
}

/// The high words of the products of words, signed where the truth value is true.
pub fn high_words(alloc: Global, signs: bool) -> Result<Term, AllocError>
    ensures { IfOk result (λ t. view t ≡ high_words signs) }
{
    let low = as_words(alloc, signs, low_products(alloc, signs)?)?;
    let high = as_words(alloc, signs, high_products(alloc, signs)?)?;
    let row = moving(MoveOp::Permuting(Permuting::Vuzp2qU16));
    back(alloc, U16, build::call_two(alloc, row, low, high, 0)?)
}

/// The products of the even dwords, signed where the truth value is true.
pub fn even_products(alloc: Global, signs: bool) -> Result<Term, AllocError>
    ensures { IfOk result (λ t. view t ≡ even_products signs) }
{
    if signs {
        let row = LaneOp::Products(Products::VmullS32);
        let products = on_parts(alloc, row, MoveOp::Narrowed(Narrowed::VmovnS64), S64)?;
        back(alloc, S64, products)
    } else {
        let row = LaneOp::Products(Products::VmullU32);
        let products = on_parts(alloc, row, MoveOp::Narrowed(Narrowed::VmovnU64), U64)?;
        back(alloc, U64, products)
    }
}

/// A row on the even and the odd lanes of both operands.
pub fn on_uneven(alloc: Global, even: MoveOp, odd: MoveOp, row: NeonOp) -> Result<Term, AllocError>
    ensures { IfOk result (λ t. view t ≡ on_uneven even odd row) }
{
    let even = on_two(alloc, moving(even), Term::Param(0), Term::Param(1))?;
    let odd = on_two(alloc, moving(odd), Term::Param(0), Term::Param(1))?;
    on_two(alloc, row, even, odd)
}

/// The products of words, the two of adjacent words summed.
pub fn added_products(alloc: Global) -> Result<Term, AllocError>
    ensures { IfOk result (λ t. view t ≡ added_products) }
{
    let low = low_products(alloc, true)?;
    let high = high_products(alloc, true)?;
    let row = computing(LaneOp::Products(Products::VpaddqS32));
    back(alloc, S32, build::call_two(alloc, row, low, high, 0)?)
}

/// The adjacent elements of a vector summed, as elements of twice the width.
fn summed(alloc: Global, row: Products, x: Term) -> Result<Term, AllocError>
    ensures { IfOk result (λ t. view t ≡ one (of_lane (LaneOp.Products row)) (view x)) }
{
    build::call_one(alloc, computing(LaneOp::Products(row)), x, 0)
}

/// The differences of bytes, eight summed.
pub fn differences(alloc: Global) -> Result<Term, AllocError>
    ensures { IfOk result (λ t. view t ≡ differences) }
{
    let row = computing(LaneOp::Saturating(Saturating::VabdqU8));
    let bytes = build::call_two(alloc, row, Term::Param(0), Term::Param(1), 0)?;
    let words = summed(alloc, Products::VpaddlqU8, bytes)?;
    let dwords = summed(alloc, Products::VpaddlqU16, words)?;
    back(alloc, U64, summed(alloc, Products::VpaddlqU32, dwords)?)
}

fn rounded(alloc: Global, x: Term) -> Result<Term, AllocError>
    ensures { IfOk result (λ t. view t ≡ rounded (view x)) }
{
    let row = moving(MoveOp::Narrowed(Narrowed::VrshrnNS32));
    build::call_one(alloc, row, x, 15)
}

/// The products of words over 2^15, a half rounded up.
pub fn rounded_products(alloc: Global) -> Result<Term, AllocError>
    ensures { IfOk result (λ t. view t ≡ rounded_products) }
{
    let low = rounded(alloc, low_products(alloc, true)?)?;
    let high = rounded(alloc, high_products(alloc, true)?)?;
    let row = moving(MoveOp::Halves(Halves::VcombineS16));
    back(alloc, S16, build::call_two(alloc, row, low, high, 0)?)
}

/// The rows of one width that `by_sign` calls.
#[derive(Clone, Copy)]
struct SignRows {
    product: LaneOp,
    greater: LaneOp,
    lesser: LaneOp,
    elements: NeonLane,
}

/// The second operand cut to 1 and -1.
fn cut(alloc: Global, rows: SignRows, one: [u8; 16]) -> Result<Term, AllocError>
    ensures { IfOk result (λ t. view t ≡ cut rows.greater rows.lesser rows.elements one) }
{
    let b = into(alloc, rows.elements, Term::Param(1))?;
    let one = into(alloc, rows.elements, Term::Const(one))?;
    let minus = into(alloc, rows.elements, Term::Const([255; 16]))?;
    let least = build::call_two(alloc, computing(rows.lesser), b, one, 0)?;
    build::call_two(alloc, computing(rows.greater), least, minus, 0)
}

/// The first operand times the sign of the second.
fn by_sign(alloc: Global, rows: SignRows, one: [u8; 16]) -> Result<Term, AllocError>
    ensures { IfOk result (λ t. view t ≡ by_sign rows.product rows.greater rows.lesser rows.elements one) }
{
    let a = into(alloc, rows.elements, Term::Param(0))?;
    let b = cut(alloc, rows, one)?;
    let product = build::call_two(alloc, computing(rows.product), a, b, 0)?;
    back(alloc, rows.elements, product)
}

/// The first operand with the signs of the second, for bytes, words and dwords.
pub fn signs(alloc: Global, width: Width) -> Result<Term, AllocError>
    ensures { IfOk result (λ t. view t ≡ signs width) }
{
    match width {
        Width::Byte => {
            let rows = SignRows {
                product: LaneOp::Arithmetic(Arithmetic::VmulqS8),
                greater: LaneOp::Extremes(Extremes::VmaxqS8),
                lesser: LaneOp::Extremes(Extremes::VminqS8),
                elements: S8,
            };
            by_sign(
                alloc,
                rows,
                [1, 1, 1, 1, 1, 1, 1, 1, 1, 1, 1, 1, 1, 1, 1, 1],
            )
        }
        Width::Word => {
            let rows = SignRows {
                product: LaneOp::Arithmetic(Arithmetic::VmulqS16),
                greater: LaneOp::Extremes(Extremes::VmaxqS16),
                lesser: LaneOp::Extremes(Extremes::VminqS16),
                elements: S16,
            };
            by_sign(
                alloc,
                rows,
                [1, 0, 1, 0, 1, 0, 1, 0, 1, 0, 1, 0, 1, 0, 1, 0],
            )
        }
        Width::Dword | Width::Qword => {
            let rows = SignRows {
                product: LaneOp::Arithmetic(Arithmetic::VmulqS32),
                greater: LaneOp::Extremes(Extremes::VmaxqS32),
                lesser: LaneOp::Extremes(Extremes::VminqS32),
                elements: S32,
            };
            by_sign(
                alloc,
                rows,
                [1, 0, 0, 0, 1, 0, 0, 0, 1, 0, 0, 0, 1, 0, 0, 0],
            )
        }
    }
}

/// A vector of words shifted by a byte.
fn by_byte(alloc: Global, row: Shifts, x: Term) -> Result<Term, AllocError>
    ensures { IfOk result (λ t. view t ≡ by_byte row (view x)) }
{
    build::call_one(alloc, computing(LaneOp::Shifts(row)), x, 8)
}

/// The products of the even bytes as words: those of the first operand without a sign, those of the second with one.
fn even_bytes(alloc: Global) -> Result<Term, AllocError>
    ensures { IfOk result (λ t. view t ≡ even_bytes) }
{
    let a = into(alloc, U16, Term::Param(0))?;
    let a = by_byte(
        alloc,
        Shifts::VshrqNU16,
        by_byte(alloc, Shifts::VshlqNU16, a)?,
    )?;
    let a = reread(alloc, MoveOp::ToSigned(ToSigned::VreinterpretqS16U16), a)?;
    let b = into(alloc, S16, Term::Param(1))?;
    let b = by_byte(
        alloc,
        Shifts::VshrqNS16,
        by_byte(alloc, Shifts::VshlqNS16, b)?,
    )?;
    let row = computing(LaneOp::Arithmetic(Arithmetic::VmulqS16));
    build::call_two(alloc, row, a, b, 0)
}

/// The products of the odd bytes.
fn odd_bytes(alloc: Global) -> Result<Term, AllocError>
    ensures { IfOk result (λ t. view t ≡ odd_bytes) }
{
    let a = into(alloc, U16, Term::Param(0))?;
    let a = by_byte(alloc, Shifts::VshrqNU16, a)?;
    let a = reread(alloc, MoveOp::ToSigned(ToSigned::VreinterpretqS16U16), a)?;
    let b = into(alloc, S16, Term::Param(1))?;
    let b = by_byte(alloc, Shifts::VshrqNS16, b)?;
    let row = computing(LaneOp::Arithmetic(Arithmetic::VmulqS16));
    build::call_two(alloc, row, a, b, 0)
}

/// The products of bytes without a sign and bytes with one, the two of adjacent bytes summed.
pub fn added_bytes(alloc: Global) -> Result<Term, AllocError>
    ensures { IfOk result (λ t. view t ≡ added_bytes) }
{
    let even = even_bytes(alloc)?;
    let odd = odd_bytes(alloc)?;
    let row = computing(LaneOp::Saturating(Saturating::VqaddqS16));
    back(alloc, S16, build::call_two(alloc, row, even, odd, 0)?)
}

/// The places of four adjacent bytes, from four adjacent places on.
fn fours(first: u64) -> [u8; 16]
    requires { first ≤ 8 }
    ensures { result ≡ fours first }
{
    filled(1, &|i: usize| first + (i / 4 + i % 4) as u64)
}

/// The differences of these bytes of the first operand and of one dword of the second.
fn four_differences(alloc: Global, first: u64, dword: u16) -> Result<Term, AllocError>
    requires { first ≤ 8 }
    ensures { IfOk result (λ t. view t ≡ four_differences first dword) }
{
    let row = moving(MoveOp::Bytes(Bytes::Vqtbl1qU8));
    let a = build::call_two(alloc, row, Term::Param(0), Term::Const(fours(first)), 0)?;
    let b = into(alloc, U32, Term::Param(1))?;
    let row = moving(MoveOp::Places(Places::VdupqLaneqU32));
    let b = back(alloc, U32, build::call_one(alloc, row, b, dword)?)?;
    let row = computing(LaneOp::Saturating(Saturating::VabdqU8));
    build::call_two(alloc, row, a, b, 0)
}

/// The differences of bytes, four summed, from the places that the immediate gives.
pub fn sums_of_four(alloc: Global, imm: u16) -> Result<Term, AllocError>
    ensures { IfOk result (λ t. view t ≡ sums_of_four imm) }
{
    let first = 4 * (imm / 4 % 2) as u64;
    let low = four_differences(alloc, first, imm % 4)?;
    let low = summed(alloc, Products::VpaddlqU8, low)?;
    let high = four_differences(alloc, first + 4, imm % 4)?;
    let high = summed(alloc, Products::VpaddlqU8, high)?;
    let row = computing(LaneOp::Products(Products::VpaddqU16));
    back(alloc, U16, build::call_two(alloc, row, low, high, 0)?)
}

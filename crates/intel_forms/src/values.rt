//! The values of rows, form by form.

ghost use Rattle.std.specs.Prelude.{◌≡◌};
ghost use Rattle.intel_lanes.specs.Lanes.{bytes_of};
ghost use Rattle.intel_lanes.specs.Blocks.{one_of, two_of, shifted, one_imm_of, extended, broadcast};
ghost use Rattle.intel_forms.specs.Forms.{narrow_of, wide_of, one_value, two_value, counted_value, one_imm_value, high_imm, two_imm_value, blend_value, across_blocks_value, value_of};

use crate::forms::{Extension, Form};
use crate::sizes::Size;
use crate::{across, memory, scalars};
use intel_lanes::blocks::{self, One, OneImm, Two, TwoImm};
use intel_lanes::lanes::{Shift, Width, bytes};
use lane_core::table::Arg;
use lane_core::widths::{high, join, lane_at, low};

fn one(size: Size, op: One, args: &[Arg]) -> Arg
    ensures { result ≡ one_value size (one_of op) args.now }
{
    match (size, args) {
        (Size::Xmm, [Arg::R16(a)]) => Arg::R16(blocks::of_one(op, a)),
        (Size::Ymm, [Arg::R32(a)]) => Arg::R32(join(
            &blocks::of_one(op, &low(a)),
            &blocks::of_one(op, &high(a)),
        )),
        _ => Arg::Nothing,
    }
}

fn two(size: Size, op: Two, args: &[Arg]) -> Arg
    ensures { result ≡ two_value size (two_of op) args.now }
{
    match (size, args) {
        (Size::Xmm, [Arg::R16(a), Arg::R16(b)]) => Arg::R16(blocks::of_two(op, a, b)),
        (Size::Ymm, [Arg::R32(a), Arg::R32(b)]) => Arg::R32(join(
            &blocks::of_two(op, &low(a), &low(b)),
            &blocks::of_two(op, &high(a), &high(b)),
        )),
        _ => Arg::Nothing,
    }
}

fn counted(size: Size, op: Shift, width: Width, args: &[Arg]) -> Arg
    ensures { result ≡ counted_value size (shifted op (bytes_of width)) args.now }
{
    let w = bytes(width);
    match (size, args) {
        (Size::Xmm, [Arg::R16(a), Arg::R16(count)]) => Arg::R16(blocks::shifted(
            op,
            w,
            lane_at(8, count, 0),
            a,
        )),
        (Size::Ymm, [Arg::R32(a), Arg::R16(count)]) => {
            let by = lane_at(8, count, 0);
            Arg::R32(join(
                &blocks::shifted(op, w, by, &low(a)),
                &blocks::shifted(op, w, by, &high(a)),
            ))
        }
        _ => Arg::Nothing,
    }
}

fn one_imm(size: Size, op: OneImm, args: &[Arg], imm: u16) -> Arg
    ensures { result ≡ one_imm_value size (λ a. one_imm_of op a imm) args.now }
{
    match (size, args) {
        (Size::Xmm, [Arg::R16(a), Arg::Nothing]) => Arg::R16(blocks::of_one_imm(op, a, imm)),
        (Size::Ymm, [Arg::R32(a), Arg::Nothing]) => Arg::R32(join(
            &blocks::of_one_imm(op, &low(a), imm),
            &blocks::of_one_imm(op, &high(a), imm),
        )),
        _ => Arg::Nothing,
    }
}

/// The immediate of the high block.
fn high_imm(op: TwoImm, imm: u16) -> u16
    ensures { result ≡ high_imm op imm }
{
    match op {
        TwoImm::SumsOfFour => imm / 8,
        TwoImm::BlendDwords => imm / 16,
        TwoImm::AlignRight | TwoImm::BlendWords => imm,
    }
}

fn two_imm(size: Size, op: TwoImm, args: &[Arg], imm: u16) -> Arg
    ensures { result ≡ two_imm_value size op args.now imm }
{
    match (size, args) {
        (Size::Xmm, [Arg::R16(a), Arg::R16(b), Arg::Nothing]) => Arg::R16(blocks::of_two_imm(
            op, a, b, imm,
        )),
        (Size::Ymm, [Arg::R32(a), Arg::R32(b), Arg::Nothing]) => Arg::R32(join(
            &blocks::of_two_imm(op, &low(a), &low(b), imm),
            &blocks::of_two_imm(op, &high(a), &high(b), high_imm(op, imm)),
        )),
        _ => Arg::Nothing,
    }
}

fn blend_bytes(size: Size, args: &[Arg]) -> Arg
    ensures { result ≡ blend_value size args.now }
{
    match (size, args) {
        (Size::Xmm, [Arg::R16(a), Arg::R16(b), Arg::R16(mask)]) => Arg::R16(blocks::blend_bytes(
            a, b, mask,
        )),
        (Size::Ymm, [Arg::R32(a), Arg::R32(b), Arg::R32(mask)]) => Arg::R32(join(
            &blocks::blend_bytes(&low(a), &low(b), &low(mask)),
            &blocks::blend_bytes(&high(a), &high(b), &high(mask)),
        )),
        _ => Arg::Nothing,
    }
}

fn widths(extension: Extension) -> (usize, usize)
    ensures narrow { result.0 ≡ narrow_of extension }
    ensures wide { result.1 ≡ wide_of extension }
{
    match extension {
        Extension::ByteWord => (1, 2),
        Extension::ByteDword => (1, 4),
        Extension::ByteQword => (1, 8),
        Extension::WordDword => (2, 4),
        Extension::WordQword => (2, 8),
        Extension::DwordQword => (4, 8),
    }
}

fn extend(size: Size, signs: bool, extension: Extension, args: &[Arg]) -> Arg
    ensures { result ≡ across_blocks_value size (λ n. extended signs n (narrow_of extension) (wide_of extension)) args.now }
{
    let (from, w) = widths(extension);
    match (size, args) {
        (Size::Xmm, [Arg::R16(a)]) => Arg::R16(blocks::extended(signs, from, w, a)),
        (Size::Ymm, [Arg::R16(a)]) => Arg::R32(blocks::extended_wide(signs, from, w, a)),
        _ => Arg::Nothing,
    }
}

fn broadcast(size: Size, width: Width, args: &[Arg]) -> Arg
    ensures { result ≡ across_blocks_value size (λ n. broadcast n (bytes_of width)) args.now }
{
    let w = bytes(width);
    match (size, args) {
        (Size::Xmm, [Arg::R16(a)]) => Arg::R16(blocks::broadcast(w, a)),
        (Size::Ymm, [Arg::R16(a)]) => Arg::R32(blocks::broadcast(w, a)),
        _ => Arg::Nothing,
    }
}

/// The row's value, by the operation that the Intel Intrinsics Guide gives for it; of a storing row the register from which it stores.
pub fn value(form: Form, args: &[Arg], imm: u16) -> Arg
    ensures { result ≡ value_of form args.now imm }
{
    match form {
        Form::One(size, op) => one(size, op, args),
        Form::Two(size, op) => two(size, op, args),
        Form::Counted(size, op, width) => counted(size, op, width, args),
        Form::OneImm(size, op) => one_imm(size, op, args, imm),
        Form::TwoImm(size, op) => two_imm(size, op, args, imm),
        Form::BlendBytes(size) => blend_bytes(size, args),
        Form::Extend(size, signs, extension) => extend(size, signs, extension, args),
        Form::Broadcast(size, width) => broadcast(size, width, args),
        Form::Across(row) => across::value(row, args, imm),
        Form::Scalar(row) => scalars::value(row, args, imm),
        Form::Memory(row) => memory::value(row, args),
    }
}

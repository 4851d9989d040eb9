//! Rows that work across the blocks of 32 bytes.

ghost use Rattle.std.specs.Prelude.{◌≡◌};
ghost use Rattle.intel_forms.specs.Across.{across_signature, across_range, permute_dwords, permute_qwords, half_by, permute_halves, extract_half, insert_half, broadcast_half_value, zero_extend_value, low_half_value, permute_dwords_value, permute_qwords_value, permute_halves_value, extract_half_value, insert_half_value, across_value};

use intel_lanes::blocks::place;
use lane_core::table::{Arg, ImmRange, ParamKind, Sig};
use lane_core::widths::{filled, high, join, lane_at, low};

/// A form of rows across blocks.
#[derive(Clone, Copy, Debug, PartialEq, Eq)]
pub enum Across {
    /// `__m256i f(__m128i a)`: `a` in both halves.
    BroadcastHalf,
    /// `__m256i f(__m128i a)`: `a`, then zeros.
    ZeroExtend,
    /// `__m128i f(__m256i a)`: the low half.
    LowHalf,
    /// `__m256i f(__m256i a, __m256i idx)`: dwords chosen by dwords.
    PermuteDwords,
    /// `__m256i f(__m256i a, imm)`: qwords chosen by pairs of bits.
    PermuteQwords,
    /// `__m256i f(__m256i a, __m256i b, imm)`: halves chosen by groups of four bits.
    PermuteHalves,
    /// `__m128i f(__m256i a, imm)`: one half.
    ExtractHalf,
    /// `__m256i f(__m256i a, __m128i b, imm)`: `a` with one half replaced.
    InsertHalf,
}

/// The kinds of the row's parameters and result.
pub fn signature(row: Across) -> Sig
    ensures { result ≡ across_signature row }
{
    let xmm = ParamKind::Reg(16);
    let ymm = ParamKind::Reg(32);
    let imm = ParamKind::Immediate;
    match row {
        Across::BroadcastHalf | Across::ZeroExtend => Sig::new(ymm, &[xmm]),
        Across::LowHalf => Sig::new(xmm, &[ymm]),
        Across::PermuteDwords => Sig::new(ymm, &[ymm, ymm]),
        Across::PermuteQwords => Sig::new(ymm, &[ymm, imm]),
        Across::PermuteHalves => Sig::new(ymm, &[ymm, ymm, imm]),
        Across::ExtractHalf => Sig::new(xmm, &[ymm, imm]),
        Across::InsertHalf => Sig::new(ymm, &[ymm, xmm, imm]),
    }
}

/// The values that the row's immediate may have.
pub fn range(row: Across) -> ImmRange
    ensures { result ≡ across_range row }
{
    match row {
        Across::PermuteQwords | Across::PermuteHalves => ImmRange::Span(0, 255),
        Across::ExtractHalf | Across::InsertHalf => ImmRange::Span(0, 1),
        _ => ImmRange::NoImmediate,
    }
}

#[tactic(auto, unfolding(crate::specs::Across::permute_dwords))]
fn permute_dwords(a: &[u8; 32], index: &[u8; 32]) -> [u8; 32]
    ensures { result ≡ permute_dwords a.now index.now }
{
    filled(
        4,
        &|k: usize| lane_at(4, a, (lane_at(4, index, k) % 8) as usize),
    )
}

#[tactic(auto, unfolding(crate::specs::Across::permute_qwords))]
fn permute_qwords(a: &[u8; 32], imm: u16) -> [u8; 32]
    ensures { result ≡ permute_qwords a.now imm }
{
    filled(8, &|k: usize| lane_at(8, a, place(imm, k)))
}

/// The half that four bits choose.
fn half_by(a: &[u8; 32], b: &[u8; 32], control: u16) -> [u8; 16]
    ensures { result ≡ half_by a.now b.now control }
{
    if control / 8 % 2 == 1 {
        [0u8; 16]
    } else if control % 4 == 0 {
        low(a)
    } else if control % 4 == 1 {
        high(a)
    } else if control % 4 == 2 {
        low(b)
    } else {
        high(b)
    }
}

fn permute_halves(a: &[u8; 32], b: &[u8; 32], imm: u16) -> [u8; 32]
    ensures { result ≡ permute_halves a.now b.now imm }
{
    join(&half_by(a, b, imm % 16), &half_by(a, b, imm / 16))
}

fn extract_half(a: &[u8; 32], imm: u16) -> [u8; 16]
    ensures { result ≡ extract_half a.now imm }
{
    if imm % 2 == 0 { low(a) } else { high(a) }
}

fn insert_half(a: &[u8; 32], b: &[u8; 16], imm: u16) -> [u8; 32]
    ensures { result ≡ insert_half a.now b.now imm }
{
    if imm % 2 == 0 {
        join(b, &high(a))
    } else {
        join(&low(a), b)
    }
}

fn broadcast_half_value(args: &[Arg]) -> Arg
    ensures { result ≡ broadcast_half_value args.now }
{
    match args {
        [Arg::R16(a)] => Arg::R32(join(a, a)),
        _ => Arg::Nothing,
    }
}

fn zero_extend_value(args: &[Arg]) -> Arg
    ensures { result ≡ zero_extend_value args.now }
{
    match args {
        [Arg::R16(a)] => Arg::R32(join(a, &[0u8; 16])),
        _ => Arg::Nothing,
    }
}

fn low_half_value(args: &[Arg]) -> Arg
    ensures { result ≡ low_half_value args.now }
{
    match args {
        [Arg::R32(a)] => Arg::R16(low(a)),
        _ => Arg::Nothing,
    }
}

fn permute_dwords_value(args: &[Arg]) -> Arg
    ensures { result ≡ permute_dwords_value args.now }
{
    match args {
        [Arg::R32(a), Arg::R32(index)] => Arg::R32(permute_dwords(a, index)),
        _ => Arg::Nothing,
    }
}

fn permute_qwords_value(args: &[Arg], imm: u16) -> Arg
    ensures { result ≡ permute_qwords_value args.now imm }
{
    match args {
        [Arg::R32(a), Arg::Nothing] => Arg::R32(permute_qwords(a, imm)),
        _ => Arg::Nothing,
    }
}

fn permute_halves_value(args: &[Arg], imm: u16) -> Arg
    ensures { result ≡ permute_halves_value args.now imm }
{
    match args {
        [Arg::R32(a), Arg::R32(b), Arg::Nothing] => Arg::R32(permute_halves(a, b, imm)),
        _ => Arg::Nothing,
    }
}

fn extract_half_value(args: &[Arg], imm: u16) -> Arg
    ensures { result ≡ extract_half_value args.now imm }
{
    match args {
        [Arg::R32(a), Arg::Nothing] => Arg::R16(extract_half(a, imm)),
        _ => Arg::Nothing,
    }
}

fn insert_half_value(args: &[Arg], imm: u16) -> Arg
    ensures { result ≡ insert_half_value args.now imm }
{
    match args {
        [Arg::R32(a), Arg::R16(b), Arg::Nothing] => Arg::R32(insert_half(a, b, imm)),
        _ => Arg::Nothing,
    }
}

/// The row's value.
pub fn value(row: Across, args: &[Arg], imm: u16) -> Arg
    ensures { result ≡ across_value row args.now imm }
{
    match row {
        Across::BroadcastHalf => broadcast_half_value(args),
        Across::ZeroExtend => zero_extend_value(args),
        Across::LowHalf => low_half_value(args),
        Across::PermuteDwords => permute_dwords_value(args),
        Across::PermuteQwords => permute_qwords_value(args, imm),
        Across::PermuteHalves => permute_halves_value(args, imm),
        Across::ExtractHalf => extract_half_value(args, imm),
        Across::InsertHalf => insert_half_value(args, imm),
    }
}

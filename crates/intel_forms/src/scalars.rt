//! Rows that take or give integers.

ghost use Rattle.std.specs.Prelude.{◌≡◌, ◌<◌, ◌^◌, ◌⊎◌, get_or};
ghost use Rattle.lane_core.specs.Register.{IsWidth, IsSize};
ghost use Rattle.lane_core.specs.declared.table.Arg.TheVariants.{Nothing};
ghost use Rattle.intel_lanes.specs.Lanes.{bytes_of};
ghost use Rattle.intel_forms.specs.declared.scalars.Scalar.TheVariants.{Set};
ghost use Rattle.intel_forms.specs.Scalars.{scalar_signature, lanes_of, scalar_range, number, first_number, all_lanes, each_lane, each_lane_reversed, to_low_lane, as_integer, extracted, inserted, top_bits, byte_signs, is_disjoint, is_within, bit, tested, is_ones, set_all_value, set_value, set_reversed_value, set_halves_value, set_halves_reversed_value, from_vector_value, extract_value, insert_value, signs_value, tested_value, ones_value, scalar_value};

use crate::sizes::{self, Size, lane_type, register, result_type};
use intel_lanes::lanes::{self, Width};
use lane_core::number::IntType;
use lane_core::table::{Arg, ImmRange, ParamKind, Sig};
use lane_core::widths::{filled, join, lane_at, put_at, signed, wrapped};

/// What a row asks of two registers.
#[derive(Clone, Copy, Debug, PartialEq, Eq)]
pub enum Test {
    /// That `a & b` is 0.
    Zero,
    /// That `~a & b` is 0.
    Carry,
    /// That neither is 0.
    Neither,
}

/// A form of rows with integers. `V` is `__m128i` or `__m256i`.
#[derive(Clone, Copy, Debug, PartialEq, Eq)]
pub enum Scalar {
    /// `V f(void)`.
    SetZero(Size),
    /// `V f(integer)`: all lanes.
    SetAll(Size, Width),
    /// `V f(integers)`, the highest lane's first.
    Set(Size, Width),
    /// `V f(integers)`, the lowest lane's first.
    SetReversed(Size, Width),
    /// `__m256i f(__m128i hi, __m128i lo)`.
    SetHalves,
    /// `__m256i f(__m128i lo, __m128i hi)`.
    SetHalvesReversed,
    /// `__m128i f(integer)`: the low lane, then zeros.
    ToVector(Width),
    /// The low lane of `__m128i`.
    FromVector(Width),
    /// A lane of `V`, chosen by an immediate.
    Extract(Size, Width),
    /// `V f(V a, integer, imm)`: `a` with a lane replaced.
    Insert(Size, Width),
    /// `int f(V a)`: the top bits of the bytes.
    ByteSigns(Size),
    /// `int f(V a, V b)`.
    Tested(Size, Test),
    /// `int f(__m128i a)`: whether all bits are 1.
    TestedOnes,
}

fn integers(size: Size, width: Width) -> Sig
    ensures { result ≡ scalar_signature (Set size width) }
{
    let gives = register(size);
    match (size, width) {
        (Size::Xmm, Width::Byte) => Sig::new(gives, &[ParamKind::Scalar(IntType::Char); 16]),
        (Size::Xmm, Width::Word) => Sig::new(gives, &[ParamKind::Scalar(IntType::Short); 8]),
        (Size::Xmm, Width::Dword) => Sig::new(gives, &[ParamKind::Scalar(IntType::Int); 4]),
        (Size::Xmm, Width::Qword) => Sig::new(gives, &[ParamKind::Scalar(IntType::LLong); 2]),
        (Size::Ymm, Width::Byte) => Sig::new(gives, &[ParamKind::Scalar(IntType::Char); 32]),
        (Size::Ymm, Width::Word) => Sig::new(gives, &[ParamKind::Scalar(IntType::Short); 16]),
        (Size::Ymm, Width::Dword) => Sig::new(gives, &[ParamKind::Scalar(IntType::Int); 8]),
        (Size::Ymm, Width::Qword) => Sig::new(gives, &[ParamKind::Scalar(IntType::LLong); 4]),
    }
}

/// The kinds of the row's parameters and result.
pub fn signature(row: Scalar) -> Sig
    ensures { result ≡ scalar_signature row }
{
    let xmm = ParamKind::Reg(16);
    let imm = ParamKind::Immediate;
    let int = ParamKind::Scalar(IntType::Int);
    match row {
        Scalar::SetZero(size) => Sig::new(register(size), &[]),
        Scalar::SetAll(size, width) => Sig::new(
            register(size),
            &[ParamKind::Scalar(lane_type(width))],
        ),
        Scalar::Set(size, width) | Scalar::SetReversed(size, width) => integers(size, width),
        Scalar::SetHalves | Scalar::SetHalvesReversed => Sig::new(ParamKind::Reg(32), &[xmm, xmm]),
        Scalar::ToVector(width) => Sig::new(xmm, &[ParamKind::Scalar(lane_type(width))]),
        Scalar::FromVector(width) => Sig::new(ParamKind::Scalar(result_type(width)), &[xmm]),
        Scalar::Extract(size, width) => Sig::new(
            ParamKind::Scalar(result_type(width)),
            &[register(size), imm],
        ),
        Scalar::Insert(size, width) => Sig::new(
            register(size),
            &[register(size), ParamKind::Scalar(result_type(width)), imm],
        ),
        Scalar::ByteSigns(size) => Sig::new(int, &[register(size)]),
        Scalar::Tested(size, _) => Sig::new(int, &[register(size), register(size)]),
        Scalar::TestedOnes => Sig::new(int, &[xmm]),
    }
}

/// The number of lanes of that width.
fn lanes_of(size: Size, width: Width) -> usize
    ensures value { result ≡ lanes_of size width }
    ensures some { 0 < result }
    ensures bounded { result < 33 }
{
    sizes::bytes(size) / lanes::bytes(width)
}

/// The values that the row's immediate may have.
pub fn range(row: Scalar) -> ImmRange
    ensures { result ≡ scalar_range row }
{
    match row {
        Scalar::Extract(size, width) | Scalar::Insert(size, width) => ImmRange::Span(
            0,
            (lanes_of(size, width) - 1) as u16,
        ),
        _ => ImmRange::NoImmediate,
    }
}

/// The integer at a place of the arguments, or 0.
fn number_at(args: &[Arg], place: usize) -> u64
    ensures { result ≡ number (get_or args.now place Nothing) }
{
    match args.get(place) {
        Some(arg) => number_of(arg),
        None => 0,
    }
}

/// The integer that an argument is, or 0.
fn number_of(arg: &Arg) -> u64
    ensures { result ≡ number arg.now }
{
    match arg {
        Arg::Int(number) => *number,
        _ => 0,
    }
}

fn first_number(args: &[Arg]) -> u64
    ensures { result ≡ first_number args.now }
{
    match args {
        [] => 0,
        [first, ..] => number_of(first),
    }
}

#[tactic(auto, unfolding(crate::specs::Scalars::all_lanes))]
fn all_lanes<const N: usize>(w: usize, x: u64) -> [u8; N]
    requires width { IsWidth w }
    requires size { IsSize N }
    ensures { result ≡ all_lanes N w x }
{
    filled(w, &|_k: usize| x)
}

#[tactic(auto, unfolding(crate::specs::Scalars::each_lane))]
fn each_lane<const N: usize>(w: usize, args: &[Arg]) -> [u8; N]
    requires width { IsWidth w }
    requires size { IsSize N }
    ensures { result ≡ each_lane N w args.now }
{
    let lanes = N / w;
    filled(w, &|k: usize| number_at(args, lanes - 1 - k))
}

#[tactic(auto, unfolding(crate::specs::Scalars::each_lane_reversed))]
fn each_lane_reversed<const N: usize>(w: usize, args: &[Arg]) -> [u8; N]
    requires width { IsWidth w }
    requires size { IsSize N }
    ensures { result ≡ each_lane_reversed N w args.now }
{
    filled(w, &|k: usize| number_at(args, k))
}

#[tactic(auto, unfolding(crate::specs::Scalars::to_low_lane))]
fn to_low_lane(w: usize, x: u64) -> [u8; 16]
    requires { IsWidth w }
    ensures { result ≡ to_low_lane w x }
{
    filled(w, &|k: usize| if k == 0 { x } else { 0 })
}

/// A lane as an integer.
fn integer(width: Width, x: u64) -> u64
    requires { x < 256 ^ bytes_of width }
    ensures { result ≡ as_integer width x }
{
    match width {
        Width::Dword => wrapped(8, signed(4, x)),
        Width::Byte | Width::Word | Width::Qword => x,
    }
}

fn extract<const N: usize>(width: Width, a: &[u8; N], imm: u16) -> u64
    requires { (N ≡ 16) ⊎ (N ≡ 32) }
    ensures { result ≡ extracted N width a.now imm }
{
    let w = lanes::bytes(width);
    integer(width, lane_at(w, a, imm as usize % (N / w)))
}

fn insert<const N: usize>(width: Width, a: &[u8; N], x: u64, imm: u16) -> [u8; N]
    requires { (N ≡ 16) ⊎ (N ≡ 32) }
    ensures { result ≡ inserted N width a.now x imm }
{
    let w = lanes::bytes(width);
    put_at(w, a, imm as usize % (N / w), x)
}

#[tactic(auto, unfolding(crate::specs::Scalars::top_bits))]
fn top_bits<const N: usize>(a: &[u8; N]) -> u64
    requires { (N ≡ 16) ⊎ (N ≡ 32) }
    ensures value { result ≡ top_bits N a.now }
    ensures bounded { result < 256 ^ 4 }
{
    let mut bits = 0;
    let mut bit = 1;
    for k in 0..N {
        bits += lane_at(1, a, k) / 128 * bit;
        bit *= 2;
    }
    bits
}

fn byte_signs<const N: usize>(a: &[u8; N]) -> u64
    requires { (N ≡ 16) ⊎ (N ≡ 32) }
    ensures { result ≡ byte_signs N a.now }
{
    integer(Width::Dword, top_bits(a))
}

#[tactic(auto, unfolding(crate::specs::Scalars::is_disjoint))]
fn is_disjoint<const N: usize>(a: &[u8; N], b: &[u8; N]) -> bool
    ensures { result ≡ is_disjoint N a.now b.now }
{
    let mut holds = true;
    for k in 0..N / 8 {
        holds = holds && lane_at(8, a, k) & lane_at(8, b, k) == 0;
    }
    holds
}

#[tactic(auto, unfolding(crate::specs::Scalars::is_within))]
fn is_within<const N: usize>(a: &[u8; N], b: &[u8; N]) -> bool
    ensures { result ≡ is_within N a.now b.now }
{
    let mut holds = true;
    for k in 0..N / 8 {
        holds = holds && (u64::MAX - lane_at(8, a, k)) & lane_at(8, b, k) == 0;
    }
    holds
}

fn bit(b: bool) -> u64
    ensures { result ≡ bit b }
{
    if b { 1 } else { 0 }
}

fn tested<const N: usize>(test: Test, a: &[u8; N], b: &[u8; N]) -> u64
    ensures { result ≡ tested test N a.now b.now }
{
    match test {
        Test::Zero => bit(is_disjoint(a, b)),
        Test::Carry => bit(is_within(a, b)),
        Test::Neither => bit(!is_disjoint(a, b) && !is_within(a, b)),
    }
}

#[tactic(auto, unfolding(crate::specs::Scalars::is_ones))]
fn is_ones(a: &[u8; 16]) -> bool
    ensures { result ≡ is_ones a.now }
{
    lane_at(8, a, 0) == u64::MAX && lane_at(8, a, 1) == u64::MAX
}

fn set_all_value(size: Size, w: usize, x: u64) -> Arg
    requires { IsWidth w }
    ensures { result ≡ set_all_value size w x }
{
    match size {
        Size::Xmm => Arg::R16(all_lanes(w, x)),
        Size::Ymm => Arg::R32(all_lanes(w, x)),
    }
}

fn set_value(size: Size, w: usize, args: &[Arg]) -> Arg
    requires { IsWidth w }
    ensures { result ≡ set_value size w args.now }
{
    match size {
        Size::Xmm => Arg::R16(each_lane(w, args)),
        Size::Ymm => Arg::R32(each_lane(w, args)),
    }
}

fn set_reversed_value(size: Size, w: usize, args: &[Arg]) -> Arg
    requires { IsWidth w }
    ensures { result ≡ set_reversed_value size w args.now }
{
    match size {
        Size::Xmm => Arg::R16(each_lane_reversed(w, args)),
        Size::Ymm => Arg::R32(each_lane_reversed(w, args)),
    }
}

fn set_halves_value(args: &[Arg]) -> Arg
    ensures { result ≡ set_halves_value args.now }
{
    match args {
        [Arg::R16(hi), Arg::R16(lo)] => Arg::R32(join(lo, hi)),
        _ => Arg::Nothing,
    }
}

fn set_halves_reversed_value(args: &[Arg]) -> Arg
    ensures { result ≡ set_halves_reversed_value args.now }
{
    match args {
        [Arg::R16(lo), Arg::R16(hi)] => Arg::R32(join(lo, hi)),
        _ => Arg::Nothing,
    }
}

fn from_vector_value(width: Width, args: &[Arg]) -> Arg
    ensures { result ≡ from_vector_value width args.now }
{
    match args {
        [Arg::R16(a)] => Arg::Int(extract(width, a, 0)),
        _ => Arg::Int(0),
    }
}

fn extract_value(size: Size, width: Width, args: &[Arg], imm: u16) -> Arg
    ensures { result ≡ extract_value size width args.now imm }
{
    match (size, args) {
        (Size::Xmm, [Arg::R16(a), Arg::Nothing]) => Arg::Int(extract(width, a, imm)),
        (Size::Ymm, [Arg::R32(a), Arg::Nothing]) => Arg::Int(extract(width, a, imm)),
        _ => Arg::Int(0),
    }
}

fn insert_value(size: Size, width: Width, args: &[Arg], imm: u16) -> Arg
    ensures { result ≡ insert_value size width args.now imm }
{
    match (size, args) {
        (Size::Xmm, [Arg::R16(a), Arg::Int(x), Arg::Nothing]) => {
            Arg::R16(insert(width, a, *x, imm))
        }
        (Size::Ymm, [Arg::R32(a), Arg::Int(x), Arg::Nothing]) => {
            Arg::R32(insert(width, a, *x, imm))
        }
        _ => Arg::Nothing,
    }
}

fn signs_value(size: Size, args: &[Arg]) -> Arg
    ensures { result ≡ signs_value size args.now }
{
    match (size, args) {
        (Size::Xmm, [Arg::R16(a)]) => Arg::Int(byte_signs(a)),
        (Size::Ymm, [Arg::R32(a)]) => Arg::Int(byte_signs(a)),
        _ => Arg::Int(0),
    }
}

fn tested_value(size: Size, test: Test, args: &[Arg]) -> Arg
    ensures { result ≡ tested_value size test args.now }
{
    match (size, args) {
        (Size::Xmm, [Arg::R16(a), Arg::R16(b)]) => Arg::Int(tested(test, a, b)),
        (Size::Ymm, [Arg::R32(a), Arg::R32(b)]) => Arg::Int(tested(test, a, b)),
        _ => Arg::Int(0),
    }
}

fn ones_value(args: &[Arg]) -> Arg
    ensures { result ≡ ones_value args.now }
{
    match args {
        [Arg::R16(a)] => Arg::Int(bit(is_ones(a))),
        _ => Arg::Int(0),
    }
}

/// The row's value.
pub fn value(row: Scalar, args: &[Arg], imm: u16) -> Arg
    ensures { result ≡ scalar_value row args.now imm }
{
    match row {
        Scalar::SetZero(size) => set_all_value(size, 8, 0),
        Scalar::SetAll(size, width) => set_all_value(size, lanes::bytes(width), first_number(args)),
        Scalar::Set(size, width) => set_value(size, lanes::bytes(width), args),
        Scalar::SetReversed(size, width) => set_reversed_value(size, lanes::bytes(width), args),
        Scalar::SetHalves => set_halves_value(args),
        Scalar::SetHalvesReversed => set_halves_reversed_value(args),
        Scalar::ToVector(width) => Arg::R16(to_low_lane(lanes::bytes(width), first_number(args))),
        Scalar::FromVector(width) => from_vector_value(width, args),
        Scalar::Extract(size, width) => extract_value(size, width, args, imm),
        Scalar::Insert(size, width) => insert_value(size, width, args, imm),
        Scalar::ByteSigns(size) => signs_value(size, args),
        Scalar::Tested(size, test) => tested_value(size, test, args),
        Scalar::TestedOnes => ones_value(args),
    }
}

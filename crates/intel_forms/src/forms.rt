//! The forms of rows: what a row of each form takes and touches.

ghost use Rattle.std.specs.Prelude.{◌≡◌};
ghost use Rattle.intel_forms.specs.Forms.{signature_of, greatest_of, range_of, accesses_of, access_of};

use crate::across::{self, Across};
use crate::memory::{self, Memory};
use crate::scalars::{self, Scalar};
use crate::sizes::{Size, register};
use intel_lanes::blocks::{One, OneImm, Two, TwoImm};
use intel_lanes::lanes::{Shift, Width};
use lane_core::table::{Access, Arg, ImmRange, ParamKind, Sig};

/// From lanes of one width to lanes of another.
#[derive(Clone, Copy, Debug, PartialEq, Eq)]
pub enum Extension {
    ByteWord,
    ByteDword,
    ByteQword,
    WordDword,
    WordQword,
    DwordQword,
}

/// A form of rows. `V` is `__m128i` or `__m256i`.
#[derive(Clone, Copy, Debug, PartialEq, Eq)]
pub enum Form {
    /// `V f(V a)`.
    One(Size, One),
    /// `V f(V a, V b)`.
    Two(Size, Two),
    /// `V f(V a, __m128i count)`.
    Counted(Size, Shift, Width),
    /// `V f(V a, imm)`.
    OneImm(Size, OneImm),
    /// `V f(V a, V b, imm)`.
    TwoImm(Size, TwoImm),
    /// `V f(V a, V b, V mask)`.
    BlendBytes(Size),
    /// `V f(__m128i a)`, with signs where the truth value is true.
    Extend(Size, bool, Extension),
    /// `V f(__m128i a)`: lane 0 in all lanes.
    Broadcast(Size, Width),
    /// Across the blocks of 32 bytes.
    Across(Across),
    /// With integers.
    Scalar(Scalar),
    /// With memory.
    Memory(Memory),
}

/// The kinds of the row's parameters and result.
pub fn signature(form: Form) -> Sig
    ensures { result ≡ signature_of form }
{
    let xmm = ParamKind::Reg(16);
    let imm = ParamKind::Immediate;
    match form {
        Form::One(size, _) => Sig::new(register(size), &[register(size)]),
        Form::Two(size, _) => Sig::new(register(size), &[register(size), register(size)]),
        Form::Counted(size, _, _) => Sig::new(register(size), &[register(size), xmm]),
        Form::OneImm(size, _) => Sig::new(register(size), &[register(size), imm]),
        Form::TwoImm(size, _) => Sig::new(register(size), &[register(size), register(size), imm]),
        Form::BlendBytes(size) => Sig::new(
            register(size),
            &[register(size), register(size), register(size)],
        ),
        Form::Extend(size, _, _) | Form::Broadcast(size, _) => Sig::new(register(size), &[xmm]),
        Form::Across(row) => across::signature(row),
        Form::Scalar(row) => scalars::signature(row),
        Form::Memory(row) => memory::signature(row),
    }
}

fn greatest(size: Size, op: TwoImm) -> u16
    ensures { result ≡ greatest_of size op }
{
    match (size, op) {
        (Size::Xmm, TwoImm::SumsOfFour) => 7,
        (Size::Ymm, TwoImm::SumsOfFour) => 63,
        (Size::Xmm, TwoImm::BlendDwords) => 15,
        _ => 255,
    }
}

/// The values that the row's immediate may have.
pub fn range(form: Form) -> ImmRange
    ensures { result ≡ range_of form }
{
    match form {
        Form::OneImm(_, _) => ImmRange::Span(0, 255),
        Form::TwoImm(size, op) => ImmRange::Span(0, greatest(size, op)),
        Form::Across(row) => across::range(row),
        Form::Scalar(row) => scalars::range(row),
        Form::Memory(row) => memory::range(row),
        _ => ImmRange::NoImmediate,
    }
}

/// The number of the row's accesses to memory.
pub fn accesses(form: Form) -> usize
    ensures { result ≡ accesses_of form }
{
    match form {
        Form::Memory(row) => memory::accesses(row),
        _ => 0,
    }
}

/// Access `k` of the row, or None where the mask among `args` keeps it away, or where `k` isn't below `accesses`.
pub fn access(form: Form, args: &[Arg], imm: u16, k: usize) -> Option<Access>
    ensures { result ≡ access_of form args.now imm k }
{
    match form {
        Form::Memory(row) => memory::access(row, args, imm, k),
        _ => None,
    }
}

//! The sizes of registers, and the types that rows take and give.

ghost use Rattle.std.specs.Prelude.{◌≡◌};
ghost use Rattle.intel_forms.specs.Sizes.{size_of, register, vector_type, lane_type, result_type};

use intel_lanes::lanes::Width;
use lane_core::number::IntType;
use lane_core::table::ParamKind;
use lane_core::vector::Pointee;

/// The size of a register: 16 or 32 bytes.
#[derive(Clone, Copy, Debug, PartialEq, Eq)]
pub enum Size {
    Xmm,
    Ymm,
}

/// The bytes of a register.
pub fn bytes(size: Size) -> usize
    ensures { result ≡ size_of size }
{
    match size {
        Size::Xmm => 16,
        Size::Ymm => 32,
    }
}

/// `__m128i` or `__m256i` as a parameter or a result.
pub fn register(size: Size) -> ParamKind
    ensures { result ≡ register size }
{
    match size {
        Size::Xmm => ParamKind::Reg(16),
        Size::Ymm => ParamKind::Reg(32),
    }
}

/// `__m128i` or `__m256i` behind a pointer.
pub fn vector_type(size: Size) -> Pointee
    ensures { result ≡ vector_type size }
{
    match size {
        Size::Xmm => Pointee::M128,
        Size::Ymm => Pointee::M256,
    }
}

/// The type of an integer for a lane.
pub fn lane_type(width: Width) -> IntType
    ensures { result ≡ lane_type width }
{
    match width {
        Width::Byte => IntType::Char,
        Width::Word => IntType::Short,
        Width::Dword => IntType::Int,
        Width::Qword => IntType::LLong,
    }
}

/// The type of a single lane that a row takes or gives.
pub fn result_type(width: Width) -> IntType
    ensures { result ≡ result_type width }
{
    match width {
        Width::Qword => IntType::LLong,
        Width::Byte | Width::Word | Width::Dword => IntType::Int,
    }
}

//! Types.

ghost use Rattle.std.specs.Prelude.{◌≡◌, ◌++◌, OnOk, decimal};
ghost use Rattle.c_print.specs.Types.{integer_text, vector_text, pointee_text, base_text, const_text, is_base_const, behind_base, type_text};

use c_tree::{CType, IntType, NeonLane, Pointee};
use itoa::Buffer;
use std::alloc::AllocError;

/// The name of an integer type.
fn integer_text(ty: IntType) -> &'static [u8]
    ensures { result.now ≡ integer_text ty }
{
    match ty {
        IntType::Boolean => b"_Bool",
        IntType::Char => b"signed char",
        IntType::SChar => b"signed char",
        IntType::UChar => b"uint8_t",
        IntType::Short => b"int16_t",
        IntType::UShort => b"uint16_t",
        IntType::Int => b"int",
        IntType::UInt => b"unsigned",
        IntType::Long => b"int64_t",
        IntType::ULong => b"uint64_t",
        IntType::LLong => b"long long",
        IntType::ULLong => b"unsigned long long",
    }
}

/// The name of a Neon vector of these lanes, which has 128 bits if `wide`, else 64.
fn vector_text(lane: NeonLane, wide: bool) -> &'static [u8]
    ensures { result.now ≡ vector_text lane wide }
{
    match (lane, wide) {
        (NeonLane::U8, true) => b"uint8x16_t",
        (NeonLane::U16, true) => b"uint16x8_t",
        (NeonLane::U32, true) => b"uint32x4_t",
        (NeonLane::U64, true) => b"uint64x2_t",
        (NeonLane::S8, true) => b"int8x16_t",
        (NeonLane::S16, true) => b"int16x8_t",
        (NeonLane::S32, true) => b"int32x4_t",
        (NeonLane::S64, true) => b"int64x2_t",
        (NeonLane::U8, false) => b"uint8x8_t",
        (NeonLane::U16, false) => b"uint16x4_t",
        (NeonLane::U32, false) => b"uint32x2_t",
        (NeonLane::U64, false) => b"uint64x1_t",
        (NeonLane::S8, false) => b"int8x8_t",
        (NeonLane::S16, false) => b"int16x4_t",
        (NeonLane::S32, false) => b"int32x2_t",
        (NeonLane::S64, false) => b"int64x1_t",
    }
}

/// The name of what is pointed to, or of an array's elements.
fn pointee_text(p: Pointee) -> &'static [u8]
    ensures { result.now ≡ pointee_text p }
{
    match p {
        Pointee::Void => b"void",
        Pointee::Int(ty) => integer_text(ty),
        Pointee::M128 => b"__m128i",
        Pointee::M256 => b"__m256i",
    }
}

/// The type that a declaration begins with: a pointer's `*` and an array's brackets stand with the name.
pub fn base_text(ty: CType) -> &'static [u8]
    ensures { result.now ≡ base_text ty }
{
    match ty {
        CType::Void => b"void",
        CType::Int(ty) => integer_text(ty),
        CType::M128 => b"__m128i",
        CType::M256 => b"__m256i",
        CType::Neon(lane, wide) => vector_text(lane, wide),
        CType::Pair => b"uint8x16x2_t",
        CType::Pointer(p, _) => pointee_text(p),
        CType::Array(p, _, _) => pointee_text(p),
    }
}

/// `const` and a space, if it stands.
pub fn const_text(stands: bool) -> &'static [u8]
    ensures { result.now ≡ const_text stands }
{
    if stands { b"const " } else { b"" }
}

/// Whether the type's base is const by the type alone.
pub fn is_base_const(ty: CType) -> bool
    ensures { result ≡ is_base_const ty }
{
    match ty {
        CType::Pointer(_, constant) => constant,
        CType::Array(_, _, constant) => constant,
        _ => false,
    }
}

/// A number in decimal.
pub fn write_decimal(out: &mut Vec<u8>, n: u64) -> Result<(), AllocError>
    ensures { OnOk result (out.new.items ≡ out.old.items ++ decimal n) }
{
    let mut digits = Buffer::new();
    out.extend_from_slice(digits.format(n).as_bytes())
}

/// What follows the base in a type's name.
fn write_behind_base(out: &mut Vec<u8>, ty: CType) -> Result<(), AllocError>
    ensures { OnOk result (out.new.items ≡ out.old.items ++ behind_base ty) }
{
    match ty {
        CType::Pointer(_, _) => out.extend_from_slice(b" *"),
        CType::Array(_, n, _) => {
            out.extend_from_slice(b" [")?;
            write_decimal(out, n)?;
            out.extend_from_slice(b"]")
        }
        _ => Ok(()),
    }
}

/// A type's name, as in a cast.
pub fn write_type(out: &mut Vec<u8>, ty: CType) -> Result<(), AllocError>
    ensures { OnOk result (out.new.items ≡ out.old.items ++ type_text ty) }
{
    out.extend_from_slice(const_text(is_base_const(ty)))?;
    out.extend_from_slice(base_text(ty))?;
    write_behind_base(out, ty)
}

//! Sizes of types (C11 6.5.3.4).

ghost use Rattle.std.specs.Prelude.{◌≡◌};
ghost use Rattle.const_imm.specs.Sizes.{integer_size, element_size, array_size, size_of};

use c_tree::{CType, IntType, Pointee};

/// The size of an integer type in bytes.
fn integer_size(ty: IntType) -> u64
    ensures { result ≡ integer_size ty }
{
    match ty {
        IntType::Boolean | IntType::Char | IntType::SChar | IntType::UChar => 1,
        IntType::Short | IntType::UShort => 2,
        IntType::Int | IntType::UInt => 4,
        IntType::Long | IntType::ULong | IntType::LLong | IntType::ULLong => 8,
    }
}

/// The size of what a pointer points to, or of an array's element, in bytes.
fn element_size(element: Pointee) -> Option<u64>
    ensures { result ≡ element_size element }
{
    match element {
        Pointee::Void => None,
        Pointee::Int(ty) => Some(integer_size(ty)),
        Pointee::M128 => Some(16),
        Pointee::M256 => Some(32),
    }
}

/// The size of an array in bytes: of `number` elements of `size` bytes.
fn array_size(number: u64, size: u64) -> Option<u64>
    ensures { result ≡ array_size number size }
{
    if number == 0 {
        None
    } else {
        number.checked_mul(size)
    }
}

/// The size of a type in bytes. None is for `void`, for an array of it or of a number of elements that isn't known, which is 0,
/// and for an array whose size `unsigned long` can't hold.
pub fn size_of(ty: CType) -> Option<u64>
    ensures { result ≡ size_of ty }
{
    match ty {
        CType::Void => None,
        CType::Int(ty) => Some(integer_size(ty)),
        CType::M128 => Some(16),
        CType::M256 => Some(32),
        CType::Neon(_, wide) => Some(if wide { 16 } else { 8 }),
        CType::Pair => Some(32),
        CType::Pointer(_, _) => Some(8),
        CType::Array(element, number, _) => array_size(number, element_size(element)?),
    }
}

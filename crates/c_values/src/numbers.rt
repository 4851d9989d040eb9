//! Numbers of the integer types, from their bits and to them.

ghost use Rattle.std.specs.Prelude.{◌≡◌, ◌^◌, pos, unsigned_abs};
ghost use Rattle.lane_core.specs.IntRange.{InRange, width};
ghost use Rattle.scalar_core.specs.TwosComplement.{bits_of};
ghost use Rattle.scalar_core.specs.Numbers.{num_of, is_boolean};
ghost use Rattle.scalar_core.specs.Operators.{truth};
ghost use Rattle.const_imm.specs.Constant.{is_true};
ghost use Rattle.const_imm.specs.Sizes.{integer_size, element_size};

use c_tree::Pointee;
use scalar_core::{IntType, Num, convert};

/// The size of an integer type in bytes.
pub fn integer_size(ty: IntType) -> u8
    ensures { result ≡ integer_size ty }
{
    match ty {
        IntType::Boolean | IntType::Char | IntType::SChar | IntType::UChar => 1,
        IntType::Short | IntType::UShort => 2,
        IntType::Int | IntType::UInt => 4,
        IntType::Long | IntType::ULong | IntType::LLong | IntType::ULLong => 8,
    }
}

/// The size of what a pointer points to, or of an array's element, in bytes.
pub fn element_size(element: Pointee) -> Option<u8>
    ensures { result ≡ element_size element }
{
    match element {
        Pointee::Void => None,
        Pointee::Int(ty) => Some(integer_size(ty)),
        Pointee::M128 => Some(16),
        Pointee::M256 => Some(32),
    }
}

/// Whether the type is `_Bool`.
pub fn is_boolean(ty: IntType) -> bool
    ensures { result ≡ is_boolean ty }
{
    match ty {
        IntType::Boolean => true,
        _ => false,
    }
}

/// 2 to the power of the type's width.
fn modulus(ty: IntType) -> i128
    ensures { result ≡ pos (2 ^ width ty) }
{
    match ty {
        IntType::Boolean => 2,
        IntType::Char | IntType::SChar | IntType::UChar => 0x100,
        IntType::Short | IntType::UShort => 0x1_0000,
        IntType::Int | IntType::UInt => 0x1_0000_0000,
        IntType::Long | IntType::ULong | IntType::LLong | IntType::ULLong =>
            0x1_0000_0000_0000_0000,
    }
}

/// The bits of a value at the type's width.
pub fn bits(ty: IntType, value: i128) -> u64
    ensures { result ≡ bits_of ty value }
{
    value.rem_euclid(modulus(ty)) as u64
}

/// The number of this type and this value.
pub fn number(ty: IntType, value: i128) -> Num
    requires { InRange ty value }
    ensures { result ≡ num_of ty value }
{
    Num { ty, value }
}

/// The number of the type that has the lowest bits of these.
pub fn from_bits(ty: IntType, bits: u64) -> Num
    ensures { result ≡ num_of ty (pos bits) }
{
    if is_boolean(ty) {
        number(IntType::Boolean, i128::from(bits % 2))
    } else {
        convert(number(IntType::ULong, i128::from(bits)), ty)
    }
}

/// The number of the type that differs from the value by a multiple of 2 to the power of the width.
pub fn wrapped(ty: IntType, value: i128) -> Num
    ensures { result ≡ num_of ty value }
{
    from_bits(ty, bits(ty, value))
}

/// 1 or 0, of type `int`.
#[tactic(auto, unfolding(scalar_core::specs::Operators::truth))]
pub fn truth(holds: bool) -> Num
    ensures { result ≡ truth holds }
{
    number(IntType::Int, i128::from(holds))
}

/// The number without its sign.
pub fn magnitude(n: Num) -> u64
    ensures { result ≡ unsigned_abs n.value }
{
    n.value.unsigned_abs() as u64
}

/// Whether the number compares unequal to 0.
pub fn is_true(n: Num) -> bool
    ensures { result ≡ is_true n }
{
    n.value != 0
}

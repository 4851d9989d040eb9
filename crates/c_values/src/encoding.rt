//! The bytes that stand for values in memory (C11 6.2.6).

ghost use Rattle.std.specs.Prelude.{◌≡◌, option_map, length};
ghost use Rattle.lane_core.specs.Register.{IsWidth, digits};
ghost use Rattle.c_memory.specs.Defined.{IsAlignment};
ghost use Rattle.c_memory.specs.MeaningObjects.{integer_bytes, encoded, decoded_integer};
ghost use Rattle.c_values.specs.ByteLists.{bytes_in};

use crate::numbers::{bits, from_bits, integer_size, is_boolean};
use c_memory::Value;
use c_tree::{CType, IntType, Num};
use lane_core::put;
use std::alloc::{AllocError, Global};

/// The bytes that stand for a value.
#[derive(Clone, Copy)]
pub enum ObjectBytes {
    One([u8; 1]),
    Two([u8; 2]),
    Four([u8; 4]),
    Eight([u8; 8]),
    Sixteen([u8; 16]),
    ThirtyTwo([u8; 32]),
}

impl ObjectBytes {
    /// The bytes as a slice. Their number is an alignment.
    pub fn as_slice(&self) -> &[u8]
        ensures bytes { result.now ≡ bytes_in self.now }
        ensures alignment { IsAlignment (length result.now) }
    {
        match self {
            ObjectBytes::One(bytes) => bytes,
            ObjectBytes::Two(bytes) => bytes,
            ObjectBytes::Four(bytes) => bytes,
            ObjectBytes::Eight(bytes) => bytes,
            ObjectBytes::Sixteen(bytes) => bytes,
            ObjectBytes::ThirtyTwo(bytes) => bytes,
        }
    }
}

/// The lowest `W` bytes of a number, the lowest first.
fn low_bytes<const W: usize>(bits: u64) -> [u8; W]
    requires { IsWidth W }
    ensures { result ≡ digits W bits }
{
    let all = put::<W, 8>(&[0; 8], 0, bits);
    let mut bytes = [0; W];
    bytes.copy_from_slice(&all[..W]);
    bytes
}

/// The bytes of a number at a type.
pub fn encoded_integer(ty: IntType, n: Num) -> ObjectBytes
    ensures { bytes_in result ≡ integer_bytes ty n }
{
    let bits = bits(ty, n.value);
    match ty {
        IntType::Boolean | IntType::Char | IntType::SChar | IntType::UChar => ObjectBytes::One(
            low_bytes::<1>(bits),
        ),
        IntType::Short | IntType::UShort => ObjectBytes::Two(low_bytes::<2>(bits)),
        IntType::Int | IntType::UInt => ObjectBytes::Four(low_bytes::<4>(bits)),
        IntType::Long | IntType::ULong | IntType::LLong | IntType::ULLong => ObjectBytes::Eight(
            low_bytes::<8>(bits),
        ),
    }
}

/// The bytes that stand for a value in an object of this type. None for pointers, Neon vectors and pairs, which are never in memory.
pub fn encoded(ty: CType, v: Value) -> Option<ObjectBytes>
    ensures { option_map bytes_in result ≡ encoded ty v }
{
    match (ty, v) {
        (CType::Int(ty), Value::Int(n)) => Some(encoded_integer(ty, n)),
        (CType::M128, Value::R16(r)) => Some(ObjectBytes::Sixteen(r)),
        (CType::M256, Value::R32(r)) => Some(ObjectBytes::ThirtyTwo(r)),
        _ => None,
    }
}

/// The number that bytes stand for. A `_Bool` holds 0 or 1 alone.
pub fn decoded_integer(ty: IntType, bits: u64) -> Option<Value>
    ensures { result ≡ decoded_integer ty bits }
{
    if is_boolean(ty) && bits > 1 {
        None
    } else {
        Some(Value::Int(from_bits(ty, bits)))
    }
}

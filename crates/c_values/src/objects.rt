//! Loads and stores of objects, and blocks that begin (C11 6.2.4, 6.2.6, 6.7.9).

ghost use Rattle.std.specs.Prelude.{◌≡◌, ◌++◌, ◌<◌, option_map, pos};
ghost use Rattle.lane_core.specs.Register.{IsWidth, value};
ghost use Rattle.lane_core.specs.declared.number.IntType.TheVariants.{ULong};
ghost use Rattle.scalar_core.specs.Numbers.{num_of};
ghost use Rattle.const_imm.specs.Sizes.{integer_size, size_of};
ghost use Rattle.c_memory.specs.Matching.{half};
ghost use Rattle.c_memory.specs.Memory.{bytes_read};
ghost use Rattle.c_memory.specs.Defined.{IsAlignment, Leaves};
ghost use Rattle.c_memory.specs.MeaningObjects.{load_from, stored_at};

pub use crate::blocks::{fill_list, fill_value, object_block, table_block};
use crate::encoding::{decoded_integer, encoded};
use crate::numbers::number;
use c_memory::{Memory, Pointer, Value};
use c_tree::{CType, IntType};
use const_imm::size_of;
use lane_core::lane;

/// The bytes read at a pointer, as many as the alignment.
fn read_bytes<const N: usize>(memory: &Memory, at: Pointer) -> Option<[u8; N]>
    requires { IsAlignment N }
    ensures { result ≡ bytes_read memory.now.blocks at N N }
{
    let mut bytes = [0; N];
    match memory.read(at, N, &mut bytes) {
        Some(_) => Some(bytes),
        None => None,
    }
}

/// The little-endian number of `W` bytes at a pointer.
fn read_number<const W: usize>(memory: &Memory, at: Pointer) -> Option<u64>
    requires { IsWidth W }
    ensures { result ≡ option_map value (bytes_read memory.now.blocks at W W) }
{
    let mut bytes = [0; 8];
    match memory.read(at, W, &mut bytes[..W]) {
        Some(_) => Some(lane::<W, 8>(&bytes, 0)),
        None => None,
    }
}

/// The bits of the integer at a pointer.
fn read_bits(memory: &Memory, ty: IntType, at: Pointer) -> Option<u64>
    ensures { result ≡ option_map value (bytes_read memory.now.blocks at (integer_size ty) (integer_size ty)) }
{
    match ty {
        IntType::Boolean | IntType::Char | IntType::SChar | IntType::UChar => read_number::<1>(
            memory, at,
        ),
        IntType::Short | IntType::UShort => read_number::<2>(memory, at),
        IntType::Int | IntType::UInt => read_number::<4>(memory, at),
        IntType::Long | IntType::ULong => read_number::<8>(memory, at),
        IntType::LLong | IntType::ULLong => read_number::<8>(memory, at),
    }
}

/// The integer at a pointer.
fn load_integer(memory: &Memory, ty: IntType, at: Pointer) -> Option<Value>
    ensures { result ≡ load_from (CType.Int ty) at memory.now.blocks }
{
    match read_bits(memory, ty, at) {
        Some(bits) => decoded_integer(ty, bits),
        None => None,
    }
}

/// The value of the object of this type at a pointer, whose alignment is its size. None where the access is undefined, for a `_Bool`
/// of another byte than 0 and 1, and for a type that is never in memory.
pub fn load(memory: &Memory, ty: CType, at: Pointer) -> Option<Value>
    ensures { result ≡ load_from ty at memory.now.blocks }
{
    match ty {
        CType::Int(ty) => load_integer(memory, ty, at),
        CType::M128 => match read_bytes::<16>(memory, at) {
            Some(r) => Some(Value::R16(r)),
            None => None,
        },
        CType::M256 => match read_bytes::<32>(memory, at) {
            Some(r) => Some(Value::R32(r)),
            None => None,
        },
        _ => None,
    }
}

/// Stores a value into the object of this type at a pointer, whose alignment is its size. None where the access is undefined and where
/// no bytes stand for the value in such an object, and then the memory stays.
pub fn store(memory: &mut Memory, ty: CType, at: Pointer, v: Value) -> Option<()>
    ensures { Leaves (stored_at ty at v memory.old.blocks) memory.old.blocks result memory.new.blocks }
{
    match encoded(ty, v) {
        Some(bytes) => {
            let bytes = bytes.as_slice();
            memory.write(at, bytes.len(), bytes)
        }
        None => None,
    }
}

/// `val[0]` or `val[1]` of a pair: bytes 0 to 15, or 16 to 31.
pub fn half(k: u8, pair: &[u8; 32]) -> [u8; 16]
    ensures { k < 2 → result ≡ half k pair.now }
{
    let mut bytes = [0; 16];
    if k == 0 {
        bytes.copy_from_slice(&pair[..16]);
    } else {
        bytes.copy_from_slice(&pair[16..]);
    }
    bytes
}

/// The pair of two vectors.
pub fn pair_of(a: &[u8; 16], b: &[u8; 16]) -> [u8; 32]
    ensures { result ≡ a.now ++ b.now }
{
    let mut bytes = [0; 32];
    bytes[..16].copy_from_slice(a);
    bytes[16..].copy_from_slice(b);
    bytes
}

/// A size as a `size_t`, which is `unsigned long` (C11 6.5.3.4). None for a type without one.
pub fn size_value(ty: CType) -> Option<Value>
    ensures { result ≡ option_map (λ n. Value.Int (num_of ULong (pos n))) (size_of ty) }
{
    match size_of(ty) {
        Some(bytes) => Some(Value::Int(number(IntType::ULong, i128::from(bytes)))),
        None => None,
    }
}

//! The names of vector types.

ghost use Rattle.std.specs.Prelude.{◌≡◌, bytes_eq};
ghost use Rattle.std.specs.Map.{lookup};
ghost use Rattle.c_tree.specs.Vectors.{x86_vectors, neon_vectors, vectors};

use crate::types::CType;
use c_text::{Dialect, lookup};
use lane_core::vector::NeonLane;

static X86_VECTORS: [(&[u8], CType); 2] = [(b"__m128i", CType::M128), (b"__m256i", CType::M256)];

static NEON_VECTORS: [(&[u8], CType); 17] = [
    (b"uint8x8_t", CType::Neon(NeonLane::U8, false)),
    (b"uint16x4_t", CType::Neon(NeonLane::U16, false)),
    (b"uint32x2_t", CType::Neon(NeonLane::U32, false)),
    (b"uint64x1_t", CType::Neon(NeonLane::U64, false)),
    (b"int8x8_t", CType::Neon(NeonLane::S8, false)),
    (b"int16x4_t", CType::Neon(NeonLane::S16, false)),
    (b"int32x2_t", CType::Neon(NeonLane::S32, false)),
    (b"int64x1_t", CType::Neon(NeonLane::S64, false)),
    (b"uint8x16_t", CType::Neon(NeonLane::U8, true)),
    (b"uint16x8_t", CType::Neon(NeonLane::U16, true)),
    (b"uint32x4_t", CType::Neon(NeonLane::U32, true)),
    (b"uint64x2_t", CType::Neon(NeonLane::U64, true)),
    (b"int8x16_t", CType::Neon(NeonLane::S8, true)),
    (b"int16x8_t", CType::Neon(NeonLane::S16, true)),
    (b"int32x4_t", CType::Neon(NeonLane::S32, true)),
    (b"int64x2_t", CType::Neon(NeonLane::S64, true)),
    (b"uint8x16x2_t", CType::Pair),
];

fn x86_vector(text: &[u8]) -> Option<CType>
    ensures { result ≡ lookup (bytes_eq text.now) x86_vectors }
{
    lookup(text, &X86_VECTORS)
}

fn neon_vector(text: &[u8]) -> Option<CType>
    ensures { result ≡ lookup (bytes_eq text.now) neon_vectors }
{
    lookup(text, &NEON_VECTORS)
}

/// The vector type that a word names in a dialect: `__m128i` and `__m256i` of Intel's intrinsics, or Arm's, as `uint8x16_t`.
pub fn vector_named(dialect: Dialect, text: &[u8]) -> Option<CType>
    ensures { result ≡ lookup (bytes_eq text.now) (vectors dialect) }
{
    match dialect {
        Dialect::X86 => x86_vector(text),
        Dialect::Neon => neon_vector(text),
    }
}

//! What moves elements within and between vectors.

ghost use Rattle.std.specs.Prelude.{◌≡◌, ◌<◌, ◌*◌, ◌/◌};
ghost use Rattle.neon_elements.specs.Elements.{bytes_of};
ghost use Rattle.neon_elements.specs.Vectors.{extracted, looked_up, zipped, unzipped, transposed, permuted, reversed_lane, container_of, mirrored, reversed};

use crate::elements::bytes;
use lane_core::vector::NeonLane;
use lane_core::widths::{filled, join, lane_at};

/// What makes a vector of the elements of two.
#[derive(Clone, Copy, Debug, PartialEq, Eq)]
pub enum Permute {
    /// The low halves interleaved.
    Zip1,
    /// The high halves interleaved.
    Zip2,
    /// The even elements of the first, then of the second.
    Uzp1,
    /// The odd elements of the first, then of the second.
    Uzp2,
    /// The even elements, of both in turn.
    Trn1,
    /// The odd elements, of both in turn.
    Trn2,
}

/// The elements that are reversed, in containers of 16, 32 or 64 bits.
#[derive(Clone, Copy, Debug, PartialEq, Eq)]
pub enum Reverse {
    Rev16U8,
    Rev32U8,
    Rev32U16,
    Rev64U8,
    Rev64U16,
    Rev64U32,
}

/// The bytes from `n` on of `lo`, then of `hi`.
#[tactic(auto, unfolding(crate::specs::Vectors::extracted))]
pub fn extracted(lo: &[u8; 16], hi: &[u8; 16], n: u16) -> [u8; 16]
    ensures { result ≡ extracted lo.now hi.now n }
{
    let both = join(lo, hi);
    let first = n as usize;
    filled(
        1,
        &|e: usize| if first + e < 32 {
            lane_at(1, &both, first + e)
        } else {
            0
        },
    )
}

/// The table's byte at each index, 0 behind its end.
#[tactic(auto, unfolding(crate::specs::Vectors::looked_up))]
pub fn looked_up(table: &[u8; 16], indices: &[u8; 16]) -> [u8; 16]
    ensures { result ≡ looked_up 16 table.now indices.now }
{
    filled(
        1,
        &|e: usize| {
            let index = lane_at(1, indices, e);
            if index < 16 {
                lane_at(1, table, index as usize)
            } else {
                0
            }
        },
    )
}

/// The same in a table of two vectors.
#[tactic(auto, unfolding(crate::specs::Vectors::looked_up))]
pub fn looked_up_in_pair(table: &[u8; 32], indices: &[u8; 16]) -> [u8; 16]
    ensures { result ≡ looked_up 32 table.now indices.now }
{
    filled(
        1,
        &|e: usize| {
            let index = lane_at(1, indices, e);
            if index < 32 {
                lane_at(1, table, index as usize)
            } else {
                0
            }
        },
    )
}

#[tactic(auto, unfolding(crate::specs::Vectors::zipped))]
fn zipped(part: usize, t: NeonLane, a: &[u8; 16], b: &[u8; 16]) -> [u8; 16]
    requires { part < 2 }
    ensures { result ≡ zipped part t a.now b.now }
{
    let w = bytes(t);
    let base = part * (8 / w);
    filled(
        w,
        &|e: usize| if e % 2 == 0 {
            lane_at(w, a, base + e / 2)
        } else {
            lane_at(w, b, base + e / 2)
        },
    )
}

#[tactic(auto, unfolding(crate::specs::Vectors::unzipped))]
fn unzipped(part: usize, t: NeonLane, a: &[u8; 16], b: &[u8; 16]) -> [u8; 16]
    requires { part < 2 }
    ensures { result ≡ unzipped part t a.now b.now }
{
    let w = bytes(t);
    let both = join(a, b);
    filled(w, &|e: usize| lane_at(w, &both, 2 * e + part))
}

#[tactic(auto, unfolding(crate::specs::Vectors::transposed))]
fn transposed(part: usize, t: NeonLane, a: &[u8; 16], b: &[u8; 16]) -> [u8; 16]
    requires { part < 2 }
    ensures { result ≡ transposed part t a.now b.now }
{
    let w = bytes(t);
    filled(
        w,
        &|e: usize| if e % 2 == 0 {
            lane_at(w, a, 2 * (e / 2) + part)
        } else {
            lane_at(w, b, 2 * (e / 2) + part)
        },
    )
}

/// What the permutation makes of two vectors.
pub fn permuted(op: Permute, t: NeonLane, a: &[u8; 16], b: &[u8; 16]) -> [u8; 16]
    ensures { result ≡ permuted op t a.now b.now }
{
    match op {
        Permute::Zip1 => zipped(0, t, a, b),
        Permute::Zip2 => zipped(1, t, a, b),
        Permute::Uzp1 => unzipped(0, t, a, b),
        Permute::Uzp2 => unzipped(1, t, a, b),
        Permute::Trn1 => transposed(0, t, a, b),
        Permute::Trn2 => transposed(1, t, a, b),
    }
}

/// The type of the elements that are reversed.
pub fn reversed_lane(op: Reverse) -> NeonLane
    ensures { result ≡ reversed_lane op }
{
    match op {
        Reverse::Rev16U8 | Reverse::Rev32U8 | Reverse::Rev64U8 => NeonLane::U8,
        Reverse::Rev32U16 | Reverse::Rev64U16 => NeonLane::U16,
        Reverse::Rev64U32 => NeonLane::U32,
    }
}

/// The place that mirrors place `e` in its container.
fn mirrored(op: Reverse, e: usize) -> usize
    requires { e < 16 / bytes_of (reversed_lane op) }
    ensures value { result ≡ mirrored (container_of op / bytes_of (reversed_lane op)) e }
    ensures inside { result < 16 / bytes_of (reversed_lane op) }
{
    match op {
        Reverse::Rev16U8 | Reverse::Rev32U16 | Reverse::Rev64U32 => e / 2 * 2 + (1 - e % 2),
        Reverse::Rev32U8 | Reverse::Rev64U16 => e / 4 * 4 + (3 - e % 4),
        Reverse::Rev64U8 => e / 8 * 8 + (7 - e % 8),
    }
}

/// The elements of each container reversed.
#[tactic(auto, unfolding(crate::specs::Vectors::reversed))]
pub fn reversed(op: Reverse, a: &[u8; 16]) -> [u8; 16]
    ensures { result ≡ reversed op a.now }
{
    let w = bytes(reversed_lane(op));
    filled(w, &|e: usize| lane_at(w, a, mirrored(op, e)))
}

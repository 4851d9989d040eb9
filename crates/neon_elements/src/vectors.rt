//! What the rows do to vectors.

ghost use Rattle.std.specs.Prelude.{◌≡◌, ◌<◌, ◌≤◌, ◌*◌, ◌/◌, ◌-◌, ◌%◌, ◌^◌};
ghost use Rattle.lane_core.specs.Register.{IsSize, lane};
ghost use Rattle.neon_elements.specs.Elements.{bytes_of, sum_of, reduce_by};
ghost use Rattle.neon_elements.specs.declared.elements.Binary.TheVariants.{Min, Max};
ghost use Rattle.neon_elements.specs.Vectors.{each1, each2, compared, selected, shifted, shifted_left, shifted_right, lengthened, lengthened_high, pair_sums, long_pair_sums, reduced, widened, widened_high, narrowed, shift_narrowed, duplicated_lane, duplicated, created, combined, half, element, with_element};

use crate::elements::{self, Binary, Compare, Long, Narrowing, Unary, bytes};
use lane_core::vector::NeonLane;
use lane_core::widths::{filled, join, lane_at, put_at, size};

/// What makes an integer of all elements.
#[derive(Clone, Copy, Debug, PartialEq, Eq)]
pub enum Across {
    /// The sum, modulo the element's size.
    Sum,
    Least,
    Greatest,
}

/// What is done to each element.
#[tactic(auto, unfolding(crate::specs::Vectors::each1, lane_core::specs::Kernels::map1_of))]
pub fn each1(op: Unary, t: NeonLane, a: &[u8; 16]) -> [u8; 16]
    ensures { result ≡ each1 op t a.now }
{
    let w = bytes(t);
    filled(w, &|e: usize| elements::on_element(op, t, lane_at(w, a, e)))
}

/// What is done to each two elements.
#[tactic(auto, unfolding(crate::specs::Vectors::each2, lane_core::specs::Kernels::map2_of))]
pub fn each2(op: Binary, t: NeonLane, a: &[u8; 16], b: &[u8; 16]) -> [u8; 16]
    ensures { result ≡ each2 op t a.now b.now }
{
    let w = bytes(t);
    filled(
        w,
        &|e: usize| elements::on_elements(op, t, lane_at(w, a, e), lane_at(w, b, e)),
    )
}

/// All bits of the elements that pass a test.
#[tactic(auto, unfolding(crate::specs::Vectors::compared, lane_core::specs::Kernels::map2_of))]
pub fn compared(op: Compare, t: NeonLane, a: &[u8; 16], b: &[u8; 16]) -> [u8; 16]
    ensures { result ≡ compared op t a.now b.now }
{
    let w = bytes(t);
    filled(
        w,
        &|e: usize| elements::compared(op, t, lane_at(w, a, e), lane_at(w, b, e)),
    )
}

/// The bits of `a` where those of the mask are 1, else the bits of `b`.
#[tactic(auto, unfolding(crate::specs::Vectors::selected))]
pub fn selected(t: NeonLane, mask: &[u8; 16], a: &[u8; 16], b: &[u8; 16]) -> [u8; 16]
    ensures { result ≡ selected t mask.now a.now b.now }
{
    let w = bytes(t);
    filled(
        w,
        &|e: usize| elements::selected(t, lane_at(w, mask, e), lane_at(w, a, e), lane_at(w, b, e)),
    )
}

/// Each element shifted by the one beside it.
#[tactic(auto, unfolding(crate::specs::Vectors::shifted, lane_core::specs::Kernels::map2_of))]
pub fn shifted(t: NeonLane, a: &[u8; 16], c: &[u8; 16]) -> [u8; 16]
    ensures { result ≡ shifted t a.now c.now }
{
    let w = bytes(t);
    filled(
        w,
        &|e: usize| elements::shifted(t, lane_at(w, c, e), lane_at(w, a, e)),
    )
}

/// Each element shifted to the left.
#[tactic(auto, unfolding(crate::specs::Vectors::shifted_left, lane_core::specs::Kernels::map1_of))]
pub fn shifted_left(t: NeonLane, n: u16, a: &[u8; 16]) -> [u8; 16]
    ensures { result ≡ shifted_left t n a.now }
{
    let w = bytes(t);
    filled(w, &|e: usize| elements::left(t, n as u64, lane_at(w, a, e)))
}

/// Each element shifted to the right.
#[tactic(auto, unfolding(crate::specs::Vectors::shifted_right, lane_core::specs::Kernels::map1_of))]
pub fn shifted_right(t: NeonLane, n: u16, a: &[u8; 16]) -> [u8; 16]
    ensures { result ≡ shifted_right t n a.now }
{
    let w = bytes(t);
    filled(
        w,
        &|e: usize| elements::right(t, n as u64, lane_at(w, a, e)),
    )
}

/// Elements of twice the width.
#[tactic(auto, unfolding(crate::specs::Vectors::lengthened))]
pub fn lengthened(op: Long, t: NeonLane, a: &[u8; 8], b: &[u8; 8]) -> [u8; 16]
    requires { bytes_of t ≤ 4 }
    ensures { result ≡ lengthened op t a.now b.now }
{
    let w = bytes(t);
    filled(
        2 * w,
        &|e: usize| elements::lengthened(op, t, lane_at(w, a, e), lane_at(w, b, e)),
    )
}

/// Elements of twice the width, of the high halves.
#[tactic(auto, unfolding(crate::specs::Vectors::lengthened_high))]
pub fn lengthened_high(op: Long, t: NeonLane, a: &[u8; 16], b: &[u8; 16]) -> [u8; 16]
    requires { bytes_of t ≤ 4 }
    ensures { result ≡ lengthened_high op t a.now b.now }
{
    let w = bytes(t);
    let first = 8 / w;
    filled(
        2 * w,
        &|e: usize| elements::lengthened(op, t, lane_at(w, a, first + e), lane_at(w, b, first + e)),
    )
}

/// The sums of adjacent elements of `a`, then of `b`.
#[tactic(auto, unfolding(crate::specs::Vectors::pair_sums, lane_core::specs::Kernels::pairwise_of))]
pub fn pair_sums(t: NeonLane, a: &[u8; 16], b: &[u8; 16]) -> [u8; 16]
    ensures { result ≡ pair_sums t a.now b.now }
{
    let w = bytes(t);
    let both = join(a, b);
    filled(
        w,
        &|e: usize| lane_at(w, &both, 2 * e).wrapping_add(lane_at(w, &both, 2 * e + 1)),
    )
}

/// The sums of adjacent elements, of twice the width.
#[tactic(auto, unfolding(crate::specs::Vectors::long_pair_sums))]
pub fn long_pair_sums(t: NeonLane, a: &[u8; 16]) -> [u8; 16]
    requires { bytes_of t ≤ 4 }
    ensures { result ≡ long_pair_sums t a.now }
{
    let w = bytes(t);
    filled(
        2 * w,
        &|e: usize| elements::long_sum(t, lane_at(w, a, 2 * e), lane_at(w, a, 2 * e + 1)),
    )
}

/// The sum of the elements, modulo their size.
fn sum_across<const N: usize>(t: NeonLane, a: &[u8; N]) -> u64
    requires width { bytes_of t ≤ 4 }
    requires size { IsSize N }
    ensures value { result ≡ sum_of (N / bytes_of t) (lane (bytes_of t) a.now) % 256 ^ bytes_of t }
    ensures bounded { result < 256 ^ bytes_of t }
{
    let w = bytes(t);
    let mut sum = 0;
    for e in 0..N / w {
        sum += lane_at(w, a, e);
    }
    sum % size(w) as u64
}

/// The least element.
fn least_across<const N: usize>(t: NeonLane, a: &[u8; N]) -> u64
    requires { IsSize N }
    ensures value { result ≡ reduce_by Min t (lane (bytes_of t) a.now) (N / bytes_of t - 1) }
    ensures bounded { result < 256 ^ bytes_of t }
{
    let w = bytes(t);
    let mut least = lane_at(w, a, 0);
    for e in 0..N / w - 1 {
        least = elements::least(t, least, lane_at(w, a, e + 1));
    }
    least
}

/// The greatest element.
fn greatest_across<const N: usize>(t: NeonLane, a: &[u8; N]) -> u64
    requires { IsSize N }
    ensures value { result ≡ reduce_by Max t (lane (bytes_of t) a.now) (N / bytes_of t - 1) }
    ensures bounded { result < 256 ^ bytes_of t }
{
    let w = bytes(t);
    let mut greatest = lane_at(w, a, 0);
    for e in 0..N / w - 1 {
        greatest = elements::greatest(t, greatest, lane_at(w, a, e + 1));
    }
    greatest
}

/// An integer of all elements.
#[tactic(auto, unfolding(crate::specs::Vectors::reduced))]
pub fn reduced<const N: usize>(op: Across, t: NeonLane, a: &[u8; N]) -> u64
    requires width { bytes_of t ≤ 4 }
    requires size { IsSize N }
    ensures { result ≡ reduced op t N a.now }
{
    match op {
        Across::Sum => elements::integer(t, sum_across(t, a)),
        Across::Least => elements::integer(t, least_across(t, a)),
        Across::Greatest => elements::integer(t, greatest_across(t, a)),
    }
}

/// The elements at twice their width.
#[tactic(auto, unfolding(crate::specs::Vectors::widened))]
pub fn widened(t: NeonLane, a: &[u8; 8]) -> [u8; 16]
    requires { bytes_of t ≤ 4 }
    ensures { result ≡ widened t a.now }
{
    let w = bytes(t);
    filled(
        2 * w,
        &|e: usize| elements::long_element(t, lane_at(w, a, e)),
    )
}

/// The elements of the high half at twice their width.
#[tactic(auto, unfolding(crate::specs::Vectors::widened_high))]
pub fn widened_high(t: NeonLane, a: &[u8; 16]) -> [u8; 16]
    requires { bytes_of t ≤ 4 }
    ensures { result ≡ widened_high t a.now }
{
    let w = bytes(t);
    let first = 8 / w;
    filled(
        2 * w,
        &|e: usize| elements::long_element(t, lane_at(w, a, first + e)),
    )
}

/// The elements at half their width.
#[tactic(auto, unfolding(crate::specs::Vectors::narrowed))]
pub fn narrowed(op: Narrowing, to: NeonLane, from: NeonLane, a: &[u8; 16]) -> [u8; 8]
    requires { bytes_of from ≡ 2 * bytes_of to }
    ensures { result ≡ narrowed op to from a.now }
{
    let w = bytes(to);
    let wide = bytes(from);
    filled(
        w,
        &|e: usize| elements::narrow(op, to, from, lane_at(wide, a, e)),
    )
}

/// The elements shifted to the right, at half their width, which is that of `t`.
#[tactic(auto, unfolding(crate::specs::Vectors::shift_narrowed))]
pub fn shift_narrowed(rounding: bool, t: NeonLane, n: u16, a: &[u8; 16]) -> [u8; 8]
    requires { bytes_of t ≤ 4 }
    ensures { result ≡ shift_narrowed rounding t n a.now }
{
    let w = bytes(t);
    filled(
        w,
        &|e: usize| elements::narrow_shift(rounding, w, n as u64, lane_at(2 * w, a, e)),
    )
}

/// Element `n` in all elements.
#[tactic(auto, unfolding(crate::specs::Vectors::duplicated_lane))]
pub fn duplicated_lane(t: NeonLane, n: u16, a: &[u8; 16]) -> [u8; 16]
    ensures { result ≡ duplicated_lane t n a.now }
{
    let w = bytes(t);
    let lane = n as usize % (16 / w);
    filled(w, &|_e: usize| lane_at(w, a, lane))
}

/// An integer in all elements.
#[tactic(auto, unfolding(crate::specs::Vectors::duplicated))]
pub fn duplicated(t: NeonLane, x: u64) -> [u8; 16]
    ensures { result ≡ duplicated t x }
{
    filled(bytes(t), &|_e: usize| x)
}

/// The bytes of an integer.
#[tactic(auto, unfolding(crate::specs::Vectors::created))]
pub fn created(x: u64) -> [u8; 8]
    ensures { result ≡ created x }
{
    filled(8, &|_e: usize| x)
}

/// One half below the other.
#[tactic(auto, unfolding(crate::specs::Vectors::combined))]
pub fn combined(lo: &[u8; 8], hi: &[u8; 8]) -> [u8; 16]
    ensures { result ≡ combined lo.now hi.now }
{
    filled(
        8,
        &|e: usize| if e == 0 {
            lane_at(8, lo, 0)
        } else {
            lane_at(8, hi, 0)
        },
    )
}

/// One half: the low one for 0, the high one for 1.
#[tactic(auto, unfolding(crate::specs::Vectors::half))]
pub fn half(part: usize, a: &[u8; 16]) -> [u8; 8]
    requires { part < 2 }
    ensures { result ≡ half part a.now }
{
    filled(8, &|_e: usize| lane_at(8, a, part))
}

/// Element `n` as an integer modulo 2^64.
pub fn element(t: NeonLane, n: u16, a: &[u8; 16]) -> u64
    ensures { result ≡ element t n a.now }
{
    let w = bytes(t);
    elements::integer(t, lane_at(w, a, n as usize % (16 / w)))
}

/// The vector with element `n` replaced.
pub fn with_element(t: NeonLane, n: u16, x: u64, a: &[u8; 16]) -> [u8; 16]
    ensures { result ≡ with_element t n x a.now }
{
    let w = bytes(t);
    put_at(w, a, n as usize % (16 / w), x)
}

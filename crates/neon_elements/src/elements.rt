//! What is done to elements.

ghost use Rattle.std.specs.Prelude.{◌≡◌, ◌<◌, ◌≤◌, ◌^◌, ◌%◌, ◌/◌, ◌*◌, ◌+◌, ◌-◌, pos, negsuc, ◌≤ℤ◌, ◌<ℤ◌, ◌+ℤ◌, ◌-ℤ◌, int_lt, nat_lt, if◌then◌else◌};
ghost use Rattle.lane_core.specs.Register.{IsWidth, signed};
ghost use Rattle.neon_elements.specs.declared.elements.Unary.TheVariants.{Absolute};
ghost use Rattle.neon_elements.specs.declared.elements.Binary.TheVariants.{Sub, SaturatingAdd, SaturatingSub, RoundingHalvingAdd, AbsoluteDifference, Min, Max, Bic};
ghost use Rattle.neon_elements.specs.declared.elements.Long.TheVariants.{Product, Difference};
ghost use Rattle.neon_elements.specs.Elements.{bytes_of, has_sign, int_of, signed_sat, unsigned_sat, sat, abs_of, unary_of, binary_of, compare_of, ones_if, select_of, left_of, right_of, shift_of, long_of, long_sum_of, long_element_of, narrow_of, narrow_shift_of, integer_of};

use lane_core::vector::NeonLane;
use lane_core::widths::{product, signed, size, wrapped};

/// What is done to one element.
#[derive(Clone, Copy, Debug, PartialEq, Eq)]
pub enum Unary {
    Negate,
    /// The absolute value; the least value keeps its bits.
    Absolute,
    /// All bits turned.
    Not,
}

/// What is done to two elements.
#[derive(Clone, Copy, Debug, PartialEq, Eq)]
pub enum Binary {
    Add,
    Sub,
    /// The low half of the product.
    Multiply,
    SaturatingAdd,
    SaturatingSub,
    /// The average, a half rounded up.
    RoundingHalvingAdd,
    AbsoluteDifference,
    Min,
    Max,
    And,
    Orr,
    Eor,
    /// The first without the bits of the second.
    Bic,
}

/// A test of two elements.
#[derive(Clone, Copy, Debug, PartialEq, Eq)]
pub enum Compare {
    Equal,
    Greater,
}

/// What makes an element of twice the width of two.
#[derive(Clone, Copy, Debug, PartialEq, Eq)]
pub enum Long {
    Product,
    /// The absolute difference.
    Difference,
}

/// What makes an element of half the width.
#[derive(Clone, Copy, Debug, PartialEq, Eq)]
pub enum Narrowing {
    /// The low half.
    Low,
    /// The nearest value.
    Saturate,
}

/// The bytes of an element.
pub fn bytes(t: NeonLane) -> usize
    ensures value { result ≡ bytes_of t }
    ensures legal { IsWidth result }
{
    match t {
        NeonLane::U8 | NeonLane::S8 => 1,
        NeonLane::U16 | NeonLane::S16 => 2,
        NeonLane::U32 | NeonLane::S32 => 4,
        NeonLane::U64 | NeonLane::S64 => 8,
    }
}

fn has_sign(t: NeonLane) -> bool
    ensures { result ≡ has_sign t }
{
    match t {
        NeonLane::S8 | NeonLane::S16 | NeonLane::S32 | NeonLane::S64 => true,
        NeonLane::U8 | NeonLane::U16 | NeonLane::U32 | NeonLane::U64 => false,
    }
}

/// The number that an element is.
pub fn int(t: NeonLane, x: u64) -> i128
    requires { x < 256 ^ bytes_of t }
    ensures value { result ≡ int_of t x }
    ensures low { negsuc (2 ^ 63 - 1) ≤ℤ result }
    ensures high { result <ℤ pos (2 ^ 64) }
{
    if has_sign(t) {
        signed(bytes(t), x)
    } else {
        x as i128
    }
}

/// The nearest signed number of `w` bytes, as an element.
#[tactic(auto, unfolding(crate::specs::Elements::signed_sat))]
fn signed_sat(w: usize, z: i128) -> u64
    requires { IsWidth w }
    ensures { result ≡ signed_sat w z }
{
    let half = size(w) / 2;
    if z < -half {
        half as u64
    } else if z < 0 {
        (z + half + half) as u64
    } else if z < half {
        z as u64
    } else {
        (half - 1) as u64
    }
}

/// The nearest unsigned number of `w` bytes.
#[tactic(auto, unfolding(crate::specs::Elements::unsigned_sat))]
fn unsigned_sat(w: usize, z: i128) -> u64
    requires { IsWidth w }
    ensures { result ≡ unsigned_sat w z }
{
    let whole = size(w);
    if z < 0 {
        0
    } else if z < whole {
        z as u64
    } else {
        (whole - 1) as u64
    }
}

/// The nearest value of an element.
fn saturated(t: NeonLane, z: i128) -> u64
    ensures { result ≡ sat t z }
{
    if has_sign(t) {
        signed_sat(bytes(t), z)
    } else {
        unsigned_sat(bytes(t), z)
    }
}

/// All bits of an element.
fn ones(t: NeonLane) -> u64
    ensures { result ≡ 256 ^ bytes_of t - 1 }
{
    (size(bytes(t)) - 1) as u64
}

/// The number without its sign.
fn magnitude(z: i128) -> i128
    requires low { negsuc (2 ^ 65) ≤ℤ z }
    ensures { result ≡ abs_of z }
{
    if z < 0 { 0 - z } else { z }
}

fn absolute(t: NeonLane, x: u64) -> u64
    requires { x < 256 ^ bytes_of t }
    ensures { result ≡ unary_of Absolute t x }
{
    wrapped(bytes(t), magnitude(int(t, x)))
}

/// What is done to an element.
pub fn on_element(op: Unary, t: NeonLane, x: u64) -> u64
    requires { x < 256 ^ bytes_of t }
    ensures { result ≡ unary_of op t x }
{
    match op {
        Unary::Negate => wrapped(bytes(t), 0 - int(t, x)),
        Unary::Absolute => absolute(t, x),
        Unary::Not => ones(t) - x,
    }
}

fn sum(t: NeonLane, x: u64, y: u64) -> u64
    ensures { result % 256 ^ bytes_of t ≡ (x + y) % 256 ^ bytes_of t }
{
    let _w = bytes(t);
    x.wrapping_add(y)
}

fn difference(t: NeonLane, x: u64, y: u64) -> u64
    ensures { result ≡ binary_of Sub t x y }
{
    wrapped(bytes(t), x as i128 - y as i128)
}

fn low_product(t: NeonLane, x: u64, y: u64) -> u64
    ensures { result % 256 ^ bytes_of t ≡ (x * y) % 256 ^ bytes_of t }
{
    let _w = bytes(t);
    x.wrapping_mul(y)
}

fn saturating_sum(t: NeonLane, x: u64, y: u64) -> u64
    requires first { x < 256 ^ bytes_of t }
    requires second { y < 256 ^ bytes_of t }
    ensures { result ≡ binary_of SaturatingAdd t x y }
{
    saturated(t, total(t, x, y))
}

fn saturating_difference(t: NeonLane, x: u64, y: u64) -> u64
    requires first { x < 256 ^ bytes_of t }
    requires second { y < 256 ^ bytes_of t }
    ensures { result ≡ binary_of SaturatingSub t x y }
{
    saturated(t, gap(t, x, y))
}

/// The sum of two elements, as numbers.
fn total(t: NeonLane, x: u64, y: u64) -> i128
    requires first { x < 256 ^ bytes_of t }
    requires second { y < 256 ^ bytes_of t }
    ensures value { result ≡ int_of t x +ℤ int_of t y }
    ensures low { negsuc (2 ^ 65) ≤ℤ result }
    ensures high { result ≤ℤ pos (2 ^ 65) }
{
    int(t, x) + int(t, y)
}

/// The difference of two elements, as numbers.
fn gap(t: NeonLane, x: u64, y: u64) -> i128
    requires first { x < 256 ^ bytes_of t }
    requires second { y < 256 ^ bytes_of t }
    ensures value { result ≡ int_of t x -ℤ int_of t y }
    ensures low { negsuc (2 ^ 65) ≤ℤ result }
    ensures high { result ≤ℤ pos (2 ^ 65) }
{
    int(t, x) - int(t, y)
}

fn rounded_half(t: NeonLane, x: u64, y: u64) -> u64
    requires first { x < 256 ^ bytes_of t }
    requires second { y < 256 ^ bytes_of t }
    ensures { result ≡ binary_of RoundingHalvingAdd t x y }
{
    wrapped(bytes(t), (total(t, x, y) + 1) >> 1)
}

fn absolute_difference(t: NeonLane, x: u64, y: u64) -> u64
    requires first { x < 256 ^ bytes_of t }
    requires second { y < 256 ^ bytes_of t }
    ensures { result ≡ binary_of AbsoluteDifference t x y }
{
    wrapped(bytes(t), magnitude(gap(t, x, y)))
}

/// Whether the first element is less than the second.
fn is_less(t: NeonLane, x: u64, y: u64) -> bool
    requires first { x < 256 ^ bytes_of t }
    requires second { y < 256 ^ bytes_of t }
    ensures { result ≡ int_lt (int_of t x) (int_of t y) }
{
    int(t, x) < int(t, y)
}

/// The lesser element.
pub fn least(t: NeonLane, x: u64, y: u64) -> u64
    requires first { x < 256 ^ bytes_of t }
    requires second { y < 256 ^ bytes_of t }
    ensures value { result ≡ binary_of Min t x y }
    ensures bounded { result < 256 ^ bytes_of t }
{
    if is_less(t, y, x) { y } else { x }
}

/// The greater element.
pub fn greatest(t: NeonLane, x: u64, y: u64) -> u64
    requires first { x < 256 ^ bytes_of t }
    requires second { y < 256 ^ bytes_of t }
    ensures value { result ≡ binary_of Max t x y }
    ensures bounded { result < 256 ^ bytes_of t }
{
    if is_less(t, x, y) { y } else { x }
}

fn without(t: NeonLane, x: u64, y: u64) -> u64
    requires { y < 256 ^ bytes_of t }
    ensures { result ≡ binary_of Bic t x y }
{
    x & (ones(t) - y)
}

/// What is done to two elements, modulo the element's size.
pub fn on_elements(op: Binary, t: NeonLane, x: u64, y: u64) -> u64
    requires first { x < 256 ^ bytes_of t }
    requires second { y < 256 ^ bytes_of t }
    ensures { result % 256 ^ bytes_of t ≡ binary_of op t x y % 256 ^ bytes_of t }
{
    match op {
        Binary::Add => sum(t, x, y),
        Binary::Sub => difference(t, x, y),
        Binary::Multiply => low_product(t, x, y),
        Binary::SaturatingAdd => saturating_sum(t, x, y),
        Binary::SaturatingSub => saturating_difference(t, x, y),
        Binary::RoundingHalvingAdd => rounded_half(t, x, y),
        Binary::AbsoluteDifference => absolute_difference(t, x, y),
        Binary::Min => least(t, x, y),
        Binary::Max => greatest(t, x, y),
        Binary::And => x & y,
        Binary::Orr => x | y,
        Binary::Eor => x ^ y,
        Binary::Bic => without(t, x, y),
    }
}

fn passes(op: Compare, t: NeonLane, x: u64, y: u64) -> bool
    requires first { x < 256 ^ bytes_of t }
    requires second { y < 256 ^ bytes_of t }
    ensures { result ≡ compare_of op t x y }
{
    match op {
        Compare::Equal => x == y,
        Compare::Greater => is_less(t, y, x),
    }
}

/// All bits where two elements pass a test, else none.
pub fn compared(op: Compare, t: NeonLane, x: u64, y: u64) -> u64
    requires first { x < 256 ^ bytes_of t }
    requires second { y < 256 ^ bytes_of t }
    ensures { result ≡ ones_if t (compare_of op t x y) }
{
    if passes(op, t, x, y) { ones(t) } else { 0 }
}

/// The bits of `x` where those of the mask are 1, else the bits of `y`.
pub fn selected(t: NeonLane, mask: u64, x: u64, y: u64) -> u64
    requires { mask < 256 ^ bytes_of t }
    ensures { result ≡ select_of t mask x y }
{
    (x & mask) | (y & (ones(t) - mask))
}

fn to_left(w: usize, n: u64, x: u64) -> u64
    requires width { IsWidth w }
    requires operand { x < 256 ^ w }
    ensures { result % 256 ^ w ≡ (if nat_lt n (8 * w) then x * 2 ^ n else 0) % 256 ^ w }
{
    if n < 8 * w as u64 { x << n } else { 0 }
}

/// An element shifted to the left, modulo its size.
pub fn left(t: NeonLane, n: u64, x: u64) -> u64
    requires { x < 256 ^ bytes_of t }
    ensures { result % 256 ^ bytes_of t ≡ left_of t n x % 256 ^ bytes_of t }
{
    to_left(bytes(t), n, x)
}

/// An element shifted to the right.
pub fn right(t: NeonLane, n: u64, x: u64) -> u64
    requires { x < 256 ^ bytes_of t }
    ensures { result ≡ right_of t n x }
{
    let w = bytes(t);
    let bits = 8 * w as u64;
    let count = n.min(bits);
    wrapped(w, int(t, x) >> count)
}

/// An element shifted by the signed low byte of another, modulo its size.
#[tactic(auto, unfolding(lane_core::specs::Register::signed))]
pub fn shifted(t: NeonLane, count: u64, x: u64) -> u64
    requires { x < 256 ^ bytes_of t }
    ensures { result % 256 ^ bytes_of t ≡ shift_of t (signed 1 (count % 256)) x % 256 ^ bytes_of t }
{
    let by = count % 256;
    if by < 128 {
        left(t, by, x)
    } else {
        right(t, 256 - by, x)
    }
}

fn product_of(t: NeonLane, x: u64, y: u64) -> u64
    requires width { bytes_of t ≤ 4 }
    requires first { x < 256 ^ bytes_of t }
    requires second { y < 256 ^ bytes_of t }
    ensures { result ≡ long_of Product t x y }
{
    let w = bytes(t);
    if has_sign(t) {
        wrapped(2 * w, product(w, x, y))
    } else {
        wrapped(2 * w, x as i128 * y as i128)
    }
}

fn long_difference(t: NeonLane, x: u64, y: u64) -> u64
    requires width { bytes_of t ≤ 4 }
    requires first { x < 256 ^ bytes_of t }
    requires second { y < 256 ^ bytes_of t }
    ensures { result ≡ long_of Difference t x y }
{
    wrapped(2 * bytes(t), magnitude(gap(t, x, y)))
}

/// An element of twice the width.
pub fn lengthened(op: Long, t: NeonLane, x: u64, y: u64) -> u64
    requires width { bytes_of t ≤ 4 }
    requires first { x < 256 ^ bytes_of t }
    requires second { y < 256 ^ bytes_of t }
    ensures { result ≡ long_of op t x y }
{
    match op {
        Long::Product => product_of(t, x, y),
        Long::Difference => long_difference(t, x, y),
    }
}

/// The sum of two elements, of twice the width.
pub fn long_sum(t: NeonLane, x: u64, y: u64) -> u64
    requires width { bytes_of t ≤ 4 }
    requires first { x < 256 ^ bytes_of t }
    requires second { y < 256 ^ bytes_of t }
    ensures { result ≡ long_sum_of t x y }
{
    wrapped(2 * bytes(t), total(t, x, y))
}

/// The element as one of twice the width.
pub fn long_element(t: NeonLane, x: u64) -> u64
    requires width { bytes_of t ≤ 4 }
    requires operand { x < 256 ^ bytes_of t }
    ensures { result ≡ long_element_of t x }
{
    wrapped(2 * bytes(t), int(t, x))
}

/// The element as one of half the width, modulo its size.
pub fn narrow(op: Narrowing, to: NeonLane, from: NeonLane, x: u64) -> u64
    requires { x < 256 ^ bytes_of from }
    ensures { result ≡ narrow_of op to from x }
{
    match op {
        Narrowing::Low => x,
        Narrowing::Saturate => saturated(to, int(from, x)),
    }
}

/// A power of two.
fn power(n: u64) -> u128
    requires { n ≤ 64 }
    ensures value { result ≡ 2 ^ n }
    ensures positive { 1 ≤ result }
    ensures bounded { result ≤ 2 ^ 64 }
{
    1 << n
}

/// Half of a power of two if `rounding`.
fn half_of(rounding: bool, whole: u128) -> u128
    ensures value { result ≡ (if rounding then whole / 2 else 0) }
    ensures bounded { result ≤ whole }
{
    if rounding { whole / 2 } else { 0 }
}

/// The element shifted to the right, as one of `w` bytes; a half is rounded up if `rounding`.
pub fn narrow_shift(rounding: bool, w: usize, n: u64, x: u64) -> u64
    requires { IsWidth w }
    ensures { result % 256 ^ w ≡ narrow_shift_of rounding w n x % 256 ^ w }
{
    let whole = power(n.min(8 * w as u64));
    ((x as u128 + half_of(rounding, whole)) / whole % size(w) as u128) as u64
}

/// The element as an integer of its type, modulo 2^64.
pub fn integer(t: NeonLane, x: u64) -> u64
    requires { x < 256 ^ bytes_of t }
    ensures { result ≡ integer_of t x }
{
    wrapped(8, int(t, x))
}

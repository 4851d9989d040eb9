//! What the rows do to blocks of 16 bytes.

ghost use Rattle.std.specs.Prelude.{◌≡◌, ◌<◌, ◌≤◌, ◌^◌, ◌%◌, ◌*◌, ◌+◌, ◌/◌, ◌++◌, ◌⊎◌, ◌==◌, pos, negsuc, ◌+ℤ◌, ◌*ℤ◌, ◌≤ℤ◌};
ghost use Rattle.lane_core.specs.Register.{IsWidth, IsSize, lane, signed, wrapped};
ghost use Rattle.intel_lanes.specs.Lanes.{saturate};
ghost use Rattle.intel_lanes.specs.Blocks.{lanes1, move_low, min_position, first_least, one_of, lanes2, pairs, multiply_even, multiply_even_unsigned, multiply_add, multiply_add_bytes, sum_differences, difference, sum_below, pack, pack_unsigned, interleave, shuffle_bytes, two_of, shifted, shuffle_dwords, shuffle_low, shuffle_high, bytes_up, bytes_down, one_imm_of, align_right, blend, sums_of_four, two_imm_of, blend_bytes, extended_lane, extended, broadcast};

use crate::lanes::{
    Lane1, Lane2, Shift, Width, bytes, on_lane, on_lanes, saturated, saturated_unsigned,
    shifted_lane,
};
use lane_core::widths::{filled, join, lane_at, product, signed, wrapped};

/// The rows `V f(V a)`.
#[derive(Clone, Copy, Debug, PartialEq, Eq)]
pub enum One {
    /// Lane by lane.
    Lanes(Lane1, Width),
    /// The low eight bytes, then zeros.
    MoveLow,
    /// The least word, the place of its first occurrence, then zeros.
    MinPosition,
}

/// The rows `V f(V a, V b)`.
#[derive(Clone, Copy, Debug, PartialEq, Eq)]
pub enum Two {
    /// Lane by lane.
    Lanes(Lane2, Width),
    /// Adjacent lanes of `a`, then of `b`.
    Pairs(Lane2, Width),
    /// Products of the even dwords, as signed numbers.
    MultiplyEven,
    /// Products of the even dwords, without signs.
    MultiplyEvenUnsigned,
    /// Sums of two products of signed words.
    MultiplyAdd,
    /// Sums of two products of a byte without a sign and a signed one, with signed saturation.
    MultiplyAddBytes,
    /// Sums of eight differences of bytes.
    SumDifferences,
    /// To bytes, with signed saturation.
    PackWords,
    /// To words, with signed saturation.
    PackDwords,
    /// To bytes, with unsigned saturation.
    PackWordsUnsigned,
    /// To words, with unsigned saturation.
    PackDwordsUnsigned,
    /// The low halves interleaved.
    UnpackLow(Width),
    /// The high halves interleaved.
    UnpackHigh(Width),
    /// Bytes chosen by bytes.
    ShuffleBytes,
}

/// The rows `V f(V a, imm)`.
#[derive(Clone, Copy, Debug, PartialEq, Eq)]
pub enum OneImm {
    /// Each lane shifted.
    Shifted(Shift, Width),
    /// Dwords chosen by pairs of bits.
    ShuffleDwords,
    /// The low words chosen by pairs of bits.
    ShuffleLow,
    /// The high words chosen by pairs of bits.
    ShuffleHigh,
    /// Bytes moved up.
    BytesUp,
    /// Bytes moved down.
    BytesDown,
}

/// The rows `V f(V a, V b, imm)`.
#[derive(Clone, Copy, Debug, PartialEq, Eq)]
pub enum TwoImm {
    /// Bytes of both from a place on.
    AlignRight,
    /// Words chosen by bits.
    BlendWords,
    /// Dwords chosen by bits.
    BlendDwords,
    /// Sums of four differences.
    SumsOfFour,
}

#[tactic(auto, unfolding(crate::specs::Blocks::lanes1, lane_core::specs::Kernels::map1_of))]
fn lanes1(op: Lane1, w: usize, a: &[u8; 16]) -> [u8; 16]
    requires { IsWidth w }
    ensures { result ≡ lanes1 op w a.now }
{
    filled(w, &|k: usize| on_lane(op, w, lane_at(w, a, k)))
}

/// The low eight bytes, then zeros.
#[tactic(auto, unfolding(crate::specs::Blocks::move_low))]
pub fn move_low(a: &[u8; 16]) -> [u8; 16]
    ensures { result ≡ move_low a.now }
{
    filled(8, &|k: usize| if k == 0 { lane_at(8, a, 0) } else { 0 })
}

/// The place of the first least word.
fn first_least(a: &[u8; 16]) -> usize
    ensures value { result ≡ first_least 7 (λ i. lane 2 a.now i) }
    ensures inside { result < 8 }
{
    let mut place = 0;
    for k in 0..7 {
        if lane_at(2, a, k + 1) < lane_at(2, a, place) {
            place = k + 1;
        }
    }
    place
}

#[tactic(auto, unfolding(crate::specs::Blocks::min_position))]
fn min_position(a: &[u8; 16]) -> [u8; 16]
    ensures { result ≡ min_position a.now }
{
    let place = first_least(a);
    let least = lane_at(2, a, place);
    filled(
        2,
        &|k: usize| {
            if k == 0 {
                least
            } else if k == 1 {
                place as u64
            } else {
                0
            }
        },
    )
}

/// What the rows of one register do.
pub fn of_one(op: One, a: &[u8; 16]) -> [u8; 16]
    ensures { result ≡ one_of op a.now }
{
    match op {
        One::Lanes(op, width) => lanes1(op, bytes(width), a),
        One::MoveLow => move_low(a),
        One::MinPosition => min_position(a),
    }
}

#[tactic(auto, unfolding(crate::specs::Blocks::lanes2, lane_core::specs::Kernels::map2_of))]
fn lanes2(op: Lane2, w: usize, a: &[u8; 16], b: &[u8; 16]) -> [u8; 16]
    requires { IsWidth w }
    ensures { result ≡ lanes2 op w a.now b.now }
{
    filled(
        w,
        &|k: usize| on_lanes(op, w, lane_at(w, a, k), lane_at(w, b, k)),
    )
}

#[tactic(auto, unfolding(crate::specs::Blocks::pairs, lane_core::specs::Kernels::pairwise_of))]
fn pairs(op: Lane2, w: usize, a: &[u8; 16], b: &[u8; 16]) -> [u8; 16]
    requires { IsWidth w }
    ensures { result ≡ pairs op w a.now b.now }
{
    let both = join(a, b);
    filled(
        w,
        &|k: usize| on_lanes(
            op,
            w,
            lane_at(w, &both, 2 * k),
            lane_at(w, &both, 2 * k + 1),
        ),
    )
}

/// The product of two dwords as signed numbers.
fn dword_product(x: u64, y: u64) -> u64
    requires first { x < 256 ^ 4 }
    requires second { y < 256 ^ 4 }
    ensures { result ≡ wrapped 8 (signed 4 x *ℤ signed 4 y) }
{
    wrapped(8, product(4, x, y))
}

#[tactic(auto, unfolding(crate::specs::Blocks::multiply_even))]
fn multiply_even(a: &[u8; 16], b: &[u8; 16]) -> [u8; 16]
    ensures { result ≡ multiply_even a.now b.now }
{
    filled(
        8,
        &|k: usize| dword_product(lane_at(4, a, 2 * k), lane_at(4, b, 2 * k)),
    )
}

fn dword_product_unsigned(x: u64, y: u64) -> u64
    requires first { x < 256 ^ 4 }
    requires second { y < 256 ^ 4 }
    ensures { result ≡ x * y }
{
    x * y
}

#[tactic(auto, unfolding(crate::specs::Blocks::multiply_even_unsigned))]
fn multiply_even_unsigned(a: &[u8; 16], b: &[u8; 16]) -> [u8; 16]
    ensures { result ≡ multiply_even_unsigned a.now b.now }
{
    filled(
        8,
        &|k: usize| dword_product_unsigned(lane_at(4, a, 2 * k), lane_at(4, b, 2 * k)),
    )
}

/// The sum of the products of two pairs of words, as a dword.
fn word_products(x: u64, y: u64, u: u64, v: u64) -> u64
    requires first { x < 256 ^ 2 }
    requires second { y < 256 ^ 2 }
    requires third { u < 256 ^ 2 }
    requires fourth { v < 256 ^ 2 }
    ensures { result ≡ wrapped 4 (signed 2 x *ℤ signed 2 y +ℤ signed 2 u *ℤ signed 2 v) }
{
    wrapped(4, product(2, x, y) + product(2, u, v))
}

#[tactic(auto, unfolding(crate::specs::Blocks::multiply_add))]
fn multiply_add(a: &[u8; 16], b: &[u8; 16]) -> [u8; 16]
    ensures { result ≡ multiply_add a.now b.now }
{
    filled(
        4,
        &|k: usize| word_products(
            lane_at(2, a, 2 * k),
            lane_at(2, b, 2 * k),
            lane_at(2, a, 2 * k + 1),
            lane_at(2, b, 2 * k + 1),
        ),
    )
}

/// The signed reading of a byte.
#[tactic(auto, unfolding(lane_core::specs::Register::signed))]
fn signed_byte(y: u64) -> i128
    requires { y < 256 }
    ensures value { result ≡ signed 1 y }
    ensures least { negsuc 127 ≤ℤ result }
    ensures greatest { result ≤ℤ pos 127 }
{
    if y < 128 { y as i128 } else { y as i128 - 256 }
}

/// The product of a byte without a sign and a signed one.
fn byte_product(x: u64, y: u64) -> i128
    requires first { x < 256 }
    requires second { y < 256 }
    ensures value { result ≡ pos x *ℤ signed 1 y }
    ensures least { negsuc 65536 ≤ℤ result }
    ensures greatest { result ≤ℤ pos 65536 }
{
    x as i128 * signed_byte(y)
}

/// The sum of two such products, with signed saturation.
fn byte_products(x: u64, y: u64, u: u64, v: u64) -> u64
    requires first { x < 256 }
    requires second { y < 256 }
    requires third { u < 256 }
    requires fourth { v < 256 }
    ensures { result ≡ saturate 2 (pos x *ℤ signed 1 y +ℤ pos u *ℤ signed 1 v) }
{
    saturated(2, byte_product(x, y) + byte_product(u, v))
}

#[tactic(auto, unfolding(crate::specs::Blocks::multiply_add_bytes))]
fn multiply_add_bytes(a: &[u8; 16], b: &[u8; 16]) -> [u8; 16]
    ensures { result ≡ multiply_add_bytes a.now b.now }
{
    filled(
        2,
        &|k: usize| byte_products(
            lane_at(1, a, 2 * k),
            lane_at(1, b, 2 * k),
            lane_at(1, a, 2 * k + 1),
            lane_at(1, b, 2 * k + 1),
        ),
    )
}

/// The difference of two bytes, without a sign.
fn difference(x: u64, y: u64) -> u64
    requires first { x < 256 }
    requires second { y < 256 }
    ensures value { result ≡ difference x y }
    ensures bounded { result < 256 }
{
    if x < y { y - x } else { x - y }
}

/// The sum of the differences of `n` bytes of `a` from byte `i` on and of `b` from byte `j` on.
fn differences(n: usize, a: &[u8; 16], i: usize, b: &[u8; 16], j: usize) -> u64
    requires first { i + n ≤ 16 }
    requires second { j + n ≤ 16 }
    ensures { result ≡ sum_below n (λ k. difference (lane 1 a.now (i + k)) (lane 1 b.now (j + k))) }
{
    let mut sum = 0;
    for k in 0..n {
        sum += difference(lane_at(1, a, i + k), lane_at(1, b, j + k));
    }
    sum
}

#[tactic(auto, unfolding(crate::specs::Blocks::sum_differences))]
fn sum_differences(a: &[u8; 16], b: &[u8; 16]) -> [u8; 16]
    ensures { result ≡ sum_differences a.now b.now }
{
    filled(8, &|k: usize| differences(8, a, 8 * k, b, 8 * k))
}

#[tactic(auto, unfolding(crate::specs::Blocks::pack))]
fn pack(w: usize, a: &[u8; 16], b: &[u8; 16]) -> [u8; 16]
    requires { (w ≡ 1) ⊎ (w ≡ 2) }
    ensures { result ≡ pack w a.now b.now }
{
    let both = join(a, b);
    filled(
        w,
        &|k: usize| saturated(w, signed(2 * w, lane_at(2 * w, &both, k))),
    )
}

#[tactic(auto, unfolding(crate::specs::Blocks::pack_unsigned))]
fn pack_unsigned(w: usize, a: &[u8; 16], b: &[u8; 16]) -> [u8; 16]
    requires { (w ≡ 1) ⊎ (w ≡ 2) }
    ensures { result ≡ pack_unsigned w a.now b.now }
{
    let both = join(a, b);
    filled(
        w,
        &|k: usize| saturated_unsigned(w, signed(2 * w, lane_at(2 * w, &both, k))),
    )
}

#[tactic(auto, unfolding(crate::specs::Blocks::interleave))]
fn interleave(first: usize, w: usize, a: &[u8; 16], b: &[u8; 16]) -> [u8; 16]
    requires width { IsWidth w }
    requires inside { first ≤ 8 / w }
    ensures { result ≡ interleave first w a.now b.now }
{
    filled(
        w,
        &|k: usize| {
            if k % 2 == 0 {
                lane_at(w, a, first + k / 2)
            } else {
                lane_at(w, b, first + k / 2)
            }
        },
    )
}

#[tactic(auto, unfolding(crate::specs::Blocks::shuffle_bytes))]
fn shuffle_bytes(a: &[u8; 16], b: &[u8; 16]) -> [u8; 16]
    ensures { result ≡ shuffle_bytes a.now b.now }
{
    filled(
        1,
        &|k: usize| {
            let index = lane_at(1, b, k);
            if index < 128 {
                lane_at(1, a, (index % 16) as usize)
            } else {
                0
            }
        },
    )
}

/// What the rows of two registers do.
pub fn of_two(op: Two, a: &[u8; 16], b: &[u8; 16]) -> [u8; 16]
    ensures { result ≡ two_of op a.now b.now }
{
    match op {
        Two::Lanes(op, width) => lanes2(op, bytes(width), a, b),
        Two::Pairs(op, width) => pairs(op, bytes(width), a, b),
        Two::MultiplyEven => multiply_even(a, b),
        Two::MultiplyEvenUnsigned => multiply_even_unsigned(a, b),
        Two::MultiplyAdd => multiply_add(a, b),
        Two::MultiplyAddBytes => multiply_add_bytes(a, b),
        Two::SumDifferences => sum_differences(a, b),
        Two::PackWords => pack(1, a, b),
        Two::PackDwords => pack(2, a, b),
        Two::PackWordsUnsigned => pack_unsigned(1, a, b),
        Two::PackDwordsUnsigned => pack_unsigned(2, a, b),
        Two::UnpackLow(width) => interleave(0, bytes(width), a, b),
        Two::UnpackHigh(width) => {
            let w = bytes(width);
            interleave(8 / w, w, a, b)
        }
        Two::ShuffleBytes => shuffle_bytes(a, b),
    }
}

/// Each lane shifted by one count.
#[tactic(auto, unfolding(crate::specs::Blocks::shifted, lane_core::specs::Kernels::map1_of))]
pub fn shifted(op: Shift, w: usize, count: u64, a: &[u8; 16]) -> [u8; 16]
    requires { IsWidth w }
    ensures { result ≡ shifted op w count a.now }
{
    filled(w, &|k: usize| shifted_lane(op, w, lane_at(w, a, k), count))
}

/// The place that two bits of an immediate name.
pub fn place(imm: u16, k: usize) -> usize
    requires { k < 4 }
    ensures value { result ≡ imm / 4 ^ k % 4 }
    ensures bounded { result < 4 }
{
    let bits = match k {
        0 => imm,
        1 => imm / 4,
        2 => imm / 16,
        _ => imm / 64,
    };
    (bits % 4) as usize
}

#[tactic(auto, unfolding(crate::specs::Blocks::shuffle_dwords))]
fn shuffle_dwords(a: &[u8; 16], imm: u16) -> [u8; 16]
    ensures { result ≡ shuffle_dwords a.now imm }
{
    filled(4, &|k: usize| lane_at(4, a, place(imm, k)))
}

#[tactic(auto, unfolding(crate::specs::Blocks::shuffle_low))]
fn shuffle_low(a: &[u8; 16], imm: u16) -> [u8; 16]
    ensures { result ≡ shuffle_low a.now imm }
{
    filled(
        2,
        &|k: usize| if k < 4 {
            lane_at(2, a, place(imm, k))
        } else {
            lane_at(2, a, k)
        },
    )
}

#[tactic(auto, unfolding(crate::specs::Blocks::shuffle_high))]
fn shuffle_high(a: &[u8; 16], imm: u16) -> [u8; 16]
    ensures { result ≡ shuffle_high a.now imm }
{
    filled(
        2,
        &|k: usize| if k < 4 {
            lane_at(2, a, k)
        } else {
            lane_at(2, a, 4 + place(imm, k - 4))
        },
    )
}

#[tactic(auto, unfolding(crate::specs::Blocks::bytes_up))]
fn bytes_up(a: &[u8; 16], imm: u16) -> [u8; 16]
    ensures { result ≡ bytes_up a.now imm }
{
    let by = imm as usize;
    filled(
        1,
        &|k: usize| if by <= k { lane_at(1, a, k - by) } else { 0 },
    )
}

#[tactic(auto, unfolding(crate::specs::Blocks::bytes_down))]
fn bytes_down(a: &[u8; 16], imm: u16) -> [u8; 16]
    ensures { result ≡ bytes_down a.now imm }
{
    let by = imm as usize;
    filled(
        1,
        &|k: usize| if k + by < 16 {
            lane_at(1, a, k + by)
        } else {
            0
        },
    )
}

/// What the rows of a register and an immediate do.
pub fn of_one_imm(op: OneImm, a: &[u8; 16], imm: u16) -> [u8; 16]
    ensures { result ≡ one_imm_of op a.now imm }
{
    match op {
        OneImm::Shifted(op, width) => shifted(op, bytes(width), imm as u64, a),
        OneImm::ShuffleDwords => shuffle_dwords(a, imm),
        OneImm::ShuffleLow => shuffle_low(a, imm),
        OneImm::ShuffleHigh => shuffle_high(a, imm),
        OneImm::BytesUp => bytes_up(a, imm),
        OneImm::BytesDown => bytes_down(a, imm),
    }
}

#[tactic(auto, unfolding(crate::specs::Blocks::align_right))]
fn align_right(a: &[u8; 16], b: &[u8; 16], imm: u16) -> [u8; 16]
    ensures { result ≡ align_right a.now b.now imm }
{
    let both = join(b, a);
    let from = imm as usize;
    filled(
        1,
        &|k: usize| if k + from < 32 {
            lane_at(1, &both, k + from)
        } else {
            0
        },
    )
}

/// Bit `k` of an immediate.
fn bit(imm: u16, k: usize) -> bool
    requires { k < 8 }
    ensures { result ≡ (imm / 2 ^ k % 2 == 1) }
{
    (imm >> k) % 2 == 1
}

#[tactic(auto, unfolding(crate::specs::Blocks::blend))]
fn blend(w: usize, a: &[u8; 16], b: &[u8; 16], imm: u16) -> [u8; 16]
    requires { (w ≡ 2) ⊎ (w ≡ 4) }
    ensures { result ≡ blend w a.now b.now imm }
{
    filled(
        w,
        &|k: usize| if bit(imm, k) {
            lane_at(w, b, k)
        } else {
            lane_at(w, a, k)
        },
    )
}

#[tactic(auto, unfolding(crate::specs::Blocks::sums_of_four))]
fn sums_of_four(a: &[u8; 16], b: &[u8; 16], imm: u16) -> [u8; 16]
    ensures { result ≡ sums_of_four a.now b.now imm }
{
    let first = 4 * (imm / 4 % 2) as usize;
    let second = 4 * (imm % 4) as usize;
    filled(2, &|j: usize| differences(4, a, first + j, b, second))
}

/// What the rows of two registers and an immediate do.
pub fn of_two_imm(op: TwoImm, a: &[u8; 16], b: &[u8; 16], imm: u16) -> [u8; 16]
    ensures { result ≡ two_imm_of op a.now b.now imm }
{
    match op {
        TwoImm::AlignRight => align_right(a, b, imm),
        TwoImm::BlendWords => blend(2, a, b, imm),
        TwoImm::BlendDwords => blend(4, a, b, imm),
        TwoImm::SumsOfFour => sums_of_four(a, b, imm),
    }
}

/// Bytes of `b` where the mask's byte has its top bit, else of `a`.
#[tactic(auto, unfolding(crate::specs::Blocks::blend_bytes))]
pub fn blend_bytes(a: &[u8; 16], b: &[u8; 16], mask: &[u8; 16]) -> [u8; 16]
    ensures { result ≡ blend_bytes a.now b.now mask.now }
{
    filled(
        1,
        &|k: usize| {
            if lane_at(1, mask, k) < 128 {
                lane_at(1, a, k)
            } else {
                lane_at(1, b, k)
            }
        },
    )
}

/// Lane `k` with zeros or with its sign, as a lane of another width.
fn extended_lane(signs: bool, from: usize, w: usize, a: &[u8; 16], k: usize) -> u64
    requires width { IsWidth w }
    requires narrow { IsWidth from }
    requires inside { k < 16 / from }
    ensures { result ≡ extended_lane signs from w (lane from a.now k) }
{
    let x = lane_at(from, a, k);
    if signs {
        wrapped(w, signed(from, x))
    } else {
        x
    }
}

/// The low lanes extended with zeros or with their sign, in 16 bytes.
#[tactic(auto, unfolding(crate::specs::Blocks::extended))]
pub fn extended(signs: bool, from: usize, w: usize, a: &[u8; 16]) -> [u8; 16]
    requires width { IsWidth w }
    requires narrow { IsWidth from }
    requires places { 16 / w ≤ 16 / from }
    ensures { result ≡ extended signs 16 from w a.now }
{
    filled(w, &|k: usize| extended_lane(signs, from, w, a, k))
}

/// The same in 32 bytes.
#[tactic(auto, unfolding(crate::specs::Blocks::extended))]
pub fn extended_wide(signs: bool, from: usize, w: usize, a: &[u8; 16]) -> [u8; 32]
    requires width { IsWidth w }
    requires narrow { IsWidth from }
    requires places { 32 / w ≤ 16 / from }
    ensures { result ≡ extended signs 32 from w a.now }
{
    filled(w, &|k: usize| extended_lane(signs, from, w, a, k))
}

/// Lane 0 in all lanes of `N` bytes.
#[tactic(auto, unfolding(crate::specs::Blocks::broadcast))]
pub fn broadcast<const N: usize>(w: usize, a: &[u8; 16]) -> [u8; N]
    requires size { IsSize N }
    requires width { IsWidth w }
    ensures { result ≡ broadcast N w a.now }
{
    let first = lane_at(w, a, 0);
    filled(w, &|_k: usize| first)
}

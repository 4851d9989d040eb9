//! Lanes and registers whose width is a number known when the program runs, for tables in which a row's width is a datum.

ghost use Rattle.std.specs.Prelude.{◌≡◌, ℕ, ◌-◌, ◌*◌, ◌/◌, ◌%◌, ◌<◌, ◌≤◌, ◌^◌, ◌++◌, take, drop, pos, negsuc, ◌*ℤ◌, ◌≤ℤ◌, ◌<ℤ◌};
ghost use Rattle.lane_core.specs.Register.{IsWidth, IsSize, lane, build, signed, wrapped};
ghost use Rattle.lane_core.specs.Kernels.{put_of};

use crate::kernels::{lane, put};

/// The number of lane `k` of width `w`.
pub fn lane_at<const N: usize>(w: usize, r: &[u8; N], k: usize) -> u64
    requires width { IsWidth w }
    requires in_range { k < N / w }
    ensures value { result ≡ lane w r.now k }
    ensures bounded { result < 256 ^ w }
{
    match w {
        1 => lane::<1, N>(r, k),
        2 => lane::<2, N>(r, k),
        4 => lane::<4, N>(r, k),
        _ => lane::<8, N>(r, k),
    }
}

/// The register with lane `k` of width `w` replaced by `v`, modulo the lane's size.
pub fn put_at<const N: usize>(w: usize, r: &[u8; N], k: usize, v: u64) -> [u8; N]
    requires width { IsWidth w }
    requires in_range { k < N / w }
    ensures { result ≡ put_of w r.now k v }
{
    match w {
        1 => put::<1, N>(r, k, v),
        2 => put::<2, N>(r, k, v),
        4 => put::<4, N>(r, k, v),
        _ => put::<8, N>(r, k, v),
    }
}

/// The register whose lane k of width `w` is `f(k)`, modulo the lane's size.
pub fn filled<const N: usize, F: Fn(usize) -> u64>(w: usize, f: &F) -> [u8; N]
    requires width { IsWidth w }
    requires size { IsSize N }
    requires callable { (k : ℕ) → k < N / w → F.pre f.now k }
    ensures { (law : ℕ → ℕ) → ((k r : ℕ) → k < N / w → F.post f.now k r → r % 256 ^ w ≡ law k % 256 ^ w) → result ≡ build w (N / w) law }
{
    let mut out = [0u8; N];
    for k in 0..N / w {
        let v = f(k);
        out = put_at::<N>(w, &out, k, v);
    }
    out
}

/// The lower half.
pub fn low(r: &[u8; 32]) -> [u8; 16]
    ensures { result ≡ take 16 r.now }
{
    let mut out = [0u8; 16];
    for i in 0..16 {
        out[i] = r[i];
    }
    out
}

/// The upper half.
pub fn high(r: &[u8; 32]) -> [u8; 16]
    ensures { result ≡ drop 16 r.now }
{
    let mut out = [0u8; 16];
    for i in 0..16 {
        out[i] = r[i + 16];
    }
    out
}

/// One register below another.
pub fn join(a: &[u8; 16], b: &[u8; 16]) -> [u8; 32]
    ensures { result ≡ a.now ++ b.now }
{
    let mut out = [0u8; 32];
    for i in 0..16 {
        out[i] = a[i];
        out[i + 16] = b[i];
    }
    out
}

/// The number of values of a lane.
pub fn size(w: usize) -> i128
    requires { IsWidth w }
    ensures { result ≡ pos (256 ^ w) }
{
    match w {
        1 => 256,
        2 => 65536,
        4 => 4294967296,
        _ => 18446744073709551616,
    }
}

/// The signed reading of a lane.
#[tactic(auto, unfolding(crate::specs::Register::signed))]
pub fn signed(w: usize, x: u64) -> i128
    requires width { IsWidth w }
    requires fits { x < 256 ^ w }
    ensures value { result ≡ signed w x }
    ensures low { negsuc (2 ^ 63 - 1) ≤ℤ result }
    ensures high { result <ℤ pos (2 ^ 63) }
{
    let value = x as i128;
    match w {
        1 => if x < 128 { value } else { value - 256 },
        2 => if x < 32768 { value } else { value - 65536 },
        4 => if x < 2147483648 {
            value
        } else {
            value - 4294967296
        },
        _ => if x < 9223372036854775808 {
            value
        } else {
            value - 18446744073709551616
        },
    }
}

/// The lane of a whole number.
#[tactic(auto, unfolding(crate::specs::Register::wrapped))]
pub fn wrapped(w: usize, z: i128) -> u64
    requires { IsWidth w }
    ensures value { result ≡ wrapped w z }
    ensures bounded { result < 256 ^ w }
{
    z.rem_euclid(size(w)) as u64
}

/// The product of two lanes as signed numbers.
pub fn product(w: usize, x: u64, y: u64) -> i128
    requires width { IsWidth w }
    requires first { x < 256 ^ w }
    requires second { y < 256 ^ w }
    ensures value { result ≡ signed w x *ℤ signed w y }
    ensures least { negsuc (256 ^ w / 2 * (256 ^ w / 2)) ≤ℤ result }
    ensures greatest { result ≤ℤ pos (256 ^ w / 2 * (256 ^ w / 2)) }
{
    signed(w, x) * signed(w, y)
}

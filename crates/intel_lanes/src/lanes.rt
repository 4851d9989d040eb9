//! What is done to lanes.

ghost use Rattle.std.specs.Prelude.{◌≡◌, ◌<◌, ◌^◌, ◌%◌, ◌/◌, ◌+◌, ◌-◌, ◌*◌, int_lt};
ghost use Rattle.lane_core.specs.Register.{IsWidth, signed};
ghost use Rattle.intel_lanes.specs.declared.lanes.Lane2.TheVariants.{Sub, AddSaturate, SubSaturate, AddSaturateUnsigned, SubSaturateUnsigned, MultiplyHigh, MultiplyHighUnsigned, MultiplyRound, Sign};
ghost use Rattle.intel_lanes.specs.declared.lanes.Shift.TheVariants.{Left, Right, Arithmetic};
ghost use Rattle.intel_lanes.specs.Lanes.{bytes_of, saturate, saturate_unsigned, lane1_of, lane2_of, shift_of};

use lane_core::widths::{product, signed, size, wrapped};

/// The width of lanes, by Intel's words.
#[derive(Clone, Copy, Debug, PartialEq, Eq)]
pub enum Width {
    Byte,
    Word,
    Dword,
    Qword,
}

/// What is done to one lane.
#[derive(Clone, Copy, Debug, PartialEq, Eq)]
pub enum Lane1 {
    /// The absolute value; the least value keeps its bits.
    Absolute,
}

/// A shift of a lane. A count of at least the width leaves 0, or the sign.
#[derive(Clone, Copy, Debug, PartialEq, Eq)]
pub enum Shift {
    Left,
    Right,
    Arithmetic,
}

/// What is done to two lanes.
#[derive(Clone, Copy, Debug, PartialEq, Eq)]
pub enum Lane2 {
    Add,
    Sub,
    AddSaturate,
    SubSaturate,
    AddSaturateUnsigned,
    SubSaturateUnsigned,
    /// The average, a half rounded up.
    Average,
    /// The low half of the product.
    MultiplyLow,
    /// The high half of the product of signed lanes.
    MultiplyHigh,
    /// The high half of the product of unsigned lanes.
    MultiplyHighUnsigned,
    /// The product of signed words over 2^15, a half rounded up.
    MultiplyRound,
    Min,
    Max,
    MinUnsigned,
    MaxUnsigned,
    And,
    Or,
    Xor,
    /// The second lane without the bits of the first.
    AndNot,
    /// All bits where the lanes are equal, else none.
    Equal,
    /// All bits where the first is greater as a signed number, else none.
    Greater,
    /// All bits where the first is less as a signed number, else none.
    Less,
    /// The first with the sign of the second: negated, 0 or kept.
    Sign,
    /// The first shifted by the second.
    ShiftBy(Shift),
}

/// The bytes of a lane.
pub fn bytes(width: Width) -> usize
    ensures value { result ≡ bytes_of width }
    ensures legal { IsWidth result }
{
    match width {
        Width::Byte => 1,
        Width::Word => 2,
        Width::Dword => 4,
        Width::Qword => 8,
    }
}

/// The nearest signed value, as a lane.
#[tactic(auto, unfolding(crate::specs::Lanes::saturate))]
pub fn saturated(w: usize, z: i128) -> u64
    requires { IsWidth w }
    ensures value { result ≡ saturate w z }
    ensures bounded { result < 256 ^ w }
{
    let half = size(w) / 2;
    if z < -half {
        half as u64
    } else if z < 0 {
        (z + half + half) as u64
    } else if z < half {
        z as u64
    } else {
        (half - 1) as u64
    }
}

/// The nearest unsigned value.
#[tactic(auto, unfolding(crate::specs::Lanes::saturate_unsigned))]
pub fn saturated_unsigned(w: usize, z: i128) -> u64
    requires { IsWidth w }
    ensures value { result ≡ saturate_unsigned w z }
    ensures bounded { result < 256 ^ w }
{
    let whole = size(w);
    if z < 0 {
        0
    } else if z < whole {
        z as u64
    } else {
        (whole - 1) as u64
    }
}

/// All bits of a lane.
fn ones(w: usize) -> u64
    requires { IsWidth w }
    ensures { result ≡ 256 ^ w - 1 }
{
    (size(w) - 1) as u64
}

/// Whether the first lane is less than the second, as signed numbers.
fn is_less(w: usize, x: u64, y: u64) -> bool
    requires width { IsWidth w }
    requires first { x < 256 ^ w }
    requires second { y < 256 ^ w }
    ensures { result ≡ int_lt (signed w x) (signed w y) }
{
    signed(w, x) < signed(w, y)
}

/// What is done to a lane.
pub fn on_lane(op: Lane1, w: usize, x: u64) -> u64
    requires width { IsWidth w }
    requires operand { x < 256 ^ w }
    ensures { result ≡ lane1_of op w x }
{
    match op {
        Lane1::Absolute => {
            let number = signed(w, x);
            if number < 0 { wrapped(w, -number) } else { x }
        }
    }
}

fn add(w: usize, x: u64, y: u64) -> u64
    requires { IsWidth w }
    ensures { result % 256 ^ w ≡ (x + y) % 256 ^ w }
{
    x.wrapping_add(y)
}

fn sub(w: usize, x: u64, y: u64) -> u64
    requires { IsWidth w }
    ensures { result ≡ lane2_of Sub w x y }
{
    wrapped(w, x as i128 - y as i128)
}

fn add_saturate(w: usize, x: u64, y: u64) -> u64
    requires width { IsWidth w }
    requires first { x < 256 ^ w }
    requires second { y < 256 ^ w }
    ensures { result ≡ lane2_of AddSaturate w x y }
{
    saturated(w, signed(w, x) + signed(w, y))
}

fn sub_saturate(w: usize, x: u64, y: u64) -> u64
    requires width { IsWidth w }
    requires first { x < 256 ^ w }
    requires second { y < 256 ^ w }
    ensures { result ≡ lane2_of SubSaturate w x y }
{
    saturated(w, signed(w, x) - signed(w, y))
}

fn add_saturate_unsigned(w: usize, x: u64, y: u64) -> u64
    requires { IsWidth w }
    ensures { result ≡ lane2_of AddSaturateUnsigned w x y }
{
    saturated_unsigned(w, x as i128 + y as i128)
}

fn sub_saturate_unsigned(w: usize, x: u64, y: u64) -> u64
    requires { IsWidth w }
    ensures { result ≡ lane2_of SubSaturateUnsigned w x y }
{
    saturated_unsigned(w, x as i128 - y as i128)
}

fn average(x: u64, y: u64) -> u64
    ensures { result ≡ (x + y + 1) / 2 }
{
    ((x as u128 + y as u128 + 1) / 2) as u64
}

fn multiply_low(w: usize, x: u64, y: u64) -> u64
    requires { IsWidth w }
    ensures { result % 256 ^ w ≡ (x * y) % 256 ^ w }
{
    x.wrapping_mul(y)
}

fn multiply_high(w: usize, x: u64, y: u64) -> u64
    requires width { IsWidth w }
    requires first { x < 256 ^ w }
    requires second { y < 256 ^ w }
    ensures { result ≡ lane2_of MultiplyHigh w x y }
{
    wrapped(w, product(w, x, y) >> (8 * w))
}

fn multiply_high_unsigned(w: usize, x: u64, y: u64) -> u64
    requires width { IsWidth w }
    requires first { x < 256 ^ w }
    requires second { y < 256 ^ w }
    ensures { result ≡ lane2_of MultiplyHighUnsigned w x y }
{
    (x as u128 * y as u128 / size(w) as u128) as u64
}

fn multiply_round(w: usize, x: u64, y: u64) -> u64
    requires width { IsWidth w }
    requires first { x < 256 ^ w }
    requires second { y < 256 ^ w }
    ensures { result ≡ lane2_of MultiplyRound w x y }
{
    let high = product(w, x, y) >> 14;
    wrapped(w, (high + 1) >> 1)
}

fn sign(w: usize, x: u64, y: u64) -> u64
    requires width { IsWidth w }
    requires first { x < 256 ^ w }
    requires second { y < 256 ^ w }
    ensures { result ≡ lane2_of Sign w x y }
{
    if signed(w, y) < 0 {
        wrapped(w, -signed(w, x))
    } else if y == 0 {
        0
    } else {
        x
    }
}

fn shift_left(w: usize, x: u64, count: u64) -> u64
    requires width { IsWidth w }
    requires operand { x < 256 ^ w }
    ensures { result % 256 ^ w ≡ shift_of Left w x count % 256 ^ w }
{
    if count < 8 * w as u64 { x << count } else { 0 }
}

fn shift_right(w: usize, x: u64, count: u64) -> u64
    requires { IsWidth w }
    ensures { result ≡ shift_of Right w x count }
{
    if count < 8 * w as u64 { x >> count } else { 0 }
}

fn shift_arithmetic(w: usize, x: u64, count: u64) -> u64
    requires width { IsWidth w }
    requires operand { x < 256 ^ w }
    ensures { result ≡ shift_of Arithmetic w x count }
{
    let bits = 8 * w as u64;
    let by = if count < bits { count } else { bits - 1 };
    wrapped(w, signed(w, x) >> by)
}

/// A lane shifted, modulo its size.
pub fn shifted_lane(op: Shift, w: usize, x: u64, count: u64) -> u64
    requires width { IsWidth w }
    requires operand { x < 256 ^ w }
    ensures { result % 256 ^ w ≡ shift_of op w x count % 256 ^ w }
{
    match op {
        Shift::Left => shift_left(w, x, count),
        Shift::Right => shift_right(w, x, count),
        Shift::Arithmetic => shift_arithmetic(w, x, count),
    }
}

/// What is done to two lanes, modulo the lane's size.
pub fn on_lanes(op: Lane2, w: usize, x: u64, y: u64) -> u64
    requires width { IsWidth w }
    requires first { x < 256 ^ w }
    requires second { y < 256 ^ w }
    ensures { result % 256 ^ w ≡ lane2_of op w x y % 256 ^ w }
{
    match op {
        Lane2::Add => add(w, x, y),
        Lane2::Sub => sub(w, x, y),
        Lane2::AddSaturate => add_saturate(w, x, y),
        Lane2::SubSaturate => sub_saturate(w, x, y),
        Lane2::AddSaturateUnsigned => add_saturate_unsigned(w, x, y),
        Lane2::SubSaturateUnsigned => sub_saturate_unsigned(w, x, y),
        Lane2::Average => average(x, y),
        Lane2::MultiplyLow => multiply_low(w, x, y),
        Lane2::MultiplyHigh => multiply_high(w, x, y),
        Lane2::MultiplyHighUnsigned => multiply_high_unsigned(w, x, y),
        Lane2::MultiplyRound => multiply_round(w, x, y),
        Lane2::Min => if is_less(w, x, y) { x } else { y },
        Lane2::Max => if is_less(w, x, y) { y } else { x },
        Lane2::MinUnsigned => x.min(y),
        Lane2::MaxUnsigned => x.max(y),
        Lane2::And => x & y,
        Lane2::Or => x | y,
        Lane2::Xor => x ^ y,
        Lane2::AndNot => (ones(w) - x) & y,
        Lane2::Equal => if x == y { ones(w) } else { 0 },
        Lane2::Greater => if is_less(w, y, x) { ones(w) } else { 0 },
        Lane2::Less => if is_less(w, x, y) { ones(w) } else { 0 },
        Lane2::Sign => sign(w, x, y),
        Lane2::ShiftBy(shift) => shifted_lane(shift, w, x, y),
    }
}

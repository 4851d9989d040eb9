//! The Neon row for each formula and width of lanes, where one row has it.

ghost use Rattle.std.specs.Prelude.{◌≡◌};
ghost use Rattle.seq_arith.specs.Rows.{sums, choices, shifts, extremes, saturating, products, pair_sums, absolutes, logic, row1_of, row2_of, is_exchanged, shift_row_of};

use intel_lanes::lanes::{Lane1, Lane2, Shift, Width};
use neon_lane::LaneOp;
use neon_lane::arithmetic::Arithmetic::{
    self, VabsqS8, VabsqS16, VabsqS32, VaddqU8, VaddqU16, VaddqU32, VaddqU64, VmulqU16, VmulqU32,
    VsubqU8, VsubqU16, VsubqU32, VsubqU64,
};
use neon_lane::choices::Choices::{
    self, VceqqU8, VceqqU16, VceqqU32, VceqqU64, VcgtqS8, VcgtqS16, VcgtqS32, VcgtqS64,
};
use neon_lane::extremes::Extremes::{
    self, VmaxqS8, VmaxqS16, VmaxqS32, VmaxqU8, VmaxqU16, VmaxqU32, VminqS8, VminqS16, VminqS32,
    VminqU8, VminqU16, VminqU32,
};
use neon_lane::logic::Logic::{self, VandqU8, VbicqU8, VeorqU8, VorrqU8};
use neon_lane::products::Products::{VpaddqU16, VpaddqU32};
use neon_lane::saturating::Saturating::{
    self, VqaddqS8, VqaddqS16, VqaddqU8, VqaddqU16, VqsubqS8, VqsubqS16, VqsubqU8, VqsubqU16,
    VrhaddqU8, VrhaddqU16,
};
use neon_lane::shifts::Shifts::{
    self, VshlqNU8, VshlqNU16, VshlqNU32, VshlqNU64, VshrqNS8, VshrqNS16, VshrqNS32, VshrqNS64,
    VshrqNU8, VshrqNU16, VshrqNU32, VshrqNU64,
};
use neon_table::{NeonOp, computing};

/// The row among those for bytes, words, dwords and qwords.
fn sums(width: Width, b: Arithmetic, w: Arithmetic, d: Arithmetic, q: Arithmetic) -> Option<NeonOp>
    ensures { result ≡ sums width b w d q }
{
    let row = match width {
        Width::Byte => b,
        Width::Word => w,
        Width::Dword => d,
        Width::Qword => q,
    };
    Some(computing(LaneOp::Arithmetic(row)))
}

/// The row among those for bytes, words, dwords and qwords.
fn choices(width: Width, b: Choices, w: Choices, d: Choices, q: Choices) -> Option<NeonOp>
    ensures { result ≡ choices width b w d q }
{
    let row = match width {
        Width::Byte => b,
        Width::Word => w,
        Width::Dword => d,
        Width::Qword => q,
    };
    Some(computing(LaneOp::Choices(row)))
}

/// The row among those for bytes, words, dwords and qwords.
fn shifts(width: Width, b: Shifts, w: Shifts, d: Shifts, q: Shifts) -> NeonOp
    ensures { result ≡ shifts width b w d q }
{
    let row = match width {
        Width::Byte => b,
        Width::Word => w,
        Width::Dword => d,
        Width::Qword => q,
    };
    computing(LaneOp::Shifts(row))
}

/// The row among those for bytes, words and dwords.
fn extremes(width: Width, b: Extremes, w: Extremes, d: Extremes) -> Option<NeonOp>
    ensures { result ≡ extremes width b w d }
{
    match width {
        Width::Byte => Some(computing(LaneOp::Extremes(b))),
        Width::Word => Some(computing(LaneOp::Extremes(w))),
        Width::Dword => Some(computing(LaneOp::Extremes(d))),
        Width::Qword => None,
    }
}

/// The row among those for bytes and words.
fn saturating(width: Width, b: Saturating, w: Saturating) -> Option<NeonOp>
    ensures { result ≡ saturating width b w }
{
    match width {
        Width::Byte => Some(computing(LaneOp::Saturating(b))),
        Width::Word => Some(computing(LaneOp::Saturating(w))),
        Width::Dword | Width::Qword => None,
    }
}

fn products(width: Width) -> Option<NeonOp>
    ensures { result ≡ products width }
{
    match width {
        Width::Word => Some(computing(LaneOp::Arithmetic(VmulqU16))),
        Width::Dword => Some(computing(LaneOp::Arithmetic(VmulqU32))),
        Width::Byte | Width::Qword => None,
    }
}

/// The row that adds adjacent lanes.
pub fn pair_sums(width: Width) -> Option<NeonOp>
    ensures { result ≡ pair_sums width }
{
    match width {
        Width::Word => Some(computing(LaneOp::Products(VpaddqU16))),
        Width::Dword => Some(computing(LaneOp::Products(VpaddqU32))),
        Width::Byte | Width::Qword => None,
    }
}

fn absolutes(width: Width) -> Option<NeonOp>
    ensures { result ≡ absolutes width }
{
    match width {
        Width::Byte => Some(computing(LaneOp::Arithmetic(VabsqS8))),
        Width::Word => Some(computing(LaneOp::Arithmetic(VabsqS16))),
        Width::Dword => Some(computing(LaneOp::Arithmetic(VabsqS32))),
        Width::Qword => None,
    }
}

/// Whole registers are worked on by bytes.
fn logic(width: Width, b: Logic) -> Option<NeonOp>
    ensures { result ≡ logic width b }
{
    match width {
        Width::Byte => Some(computing(LaneOp::Logic(b))),
        Width::Word | Width::Dword | Width::Qword => None,
    }
}

/// The row of one operand that computes this of each lane.
pub fn row1(op: Lane1, width: Width) -> Option<NeonOp>
    ensures { result ≡ row1_of op width }
{
    match op {
        Lane1::Absolute => absolutes(width),
    }
}

/// The row of two operands that computes this of each pair of lanes, with its operands exchanged where `is_exchanged` says so.
pub fn row2(op: Lane2, width: Width) -> Option<NeonOp>
    ensures { result ≡ row2_of op width }
{
    match op {
        Lane2::Add => sums(width, VaddqU8, VaddqU16, VaddqU32, VaddqU64),
        Lane2::Sub => sums(width, VsubqU8, VsubqU16, VsubqU32, VsubqU64),
        Lane2::AddSaturate => saturating(width, VqaddqS8, VqaddqS16),
        Lane2::SubSaturate => saturating(width, VqsubqS8, VqsubqS16),
        Lane2::AddSaturateUnsigned => saturating(width, VqaddqU8, VqaddqU16),
        Lane2::SubSaturateUnsigned => saturating(width, VqsubqU8, VqsubqU16),
        Lane2::Average => saturating(width, VrhaddqU8, VrhaddqU16),
        Lane2::MultiplyLow => products(width),
        Lane2::Min => extremes(width, VminqS8, VminqS16, VminqS32),
        Lane2::Max => extremes(width, VmaxqS8, VmaxqS16, VmaxqS32),
        Lane2::MinUnsigned => extremes(width, VminqU8, VminqU16, VminqU32),
        Lane2::MaxUnsigned => extremes(width, VmaxqU8, VmaxqU16, VmaxqU32),
        Lane2::And => logic(width, VandqU8),
        Lane2::Or => logic(width, VorrqU8),
        Lane2::Xor => logic(width, VeorqU8),
        Lane2::AndNot => logic(width, VbicqU8),
        Lane2::Equal => choices(width, VceqqU8, VceqqU16, VceqqU32, VceqqU64),
        Lane2::Greater => choices(width, VcgtqS8, VcgtqS16, VcgtqS32, VcgtqS64),
        Lane2::Less => choices(width, VcgtqS8, VcgtqS16, VcgtqS32, VcgtqS64),
        _ => None,
    }
}

/// Whether the row's operands are those of the formula in exchanged order.
pub fn is_exchanged(op: Lane2) -> bool
    ensures { result ≡ is_exchanged op }
{
    matches!(op, Lane2::AndNot | Lane2::Less)
}

/// The row that shifts each lane by a constant: to the left below the width, to the right from 1 to the width.
pub fn shift_row(shift: Shift, width: Width) -> NeonOp
    ensures { result ≡ shift_row_of shift width }
{
    match shift {
        Shift::Left => shifts(width, VshlqNU8, VshlqNU16, VshlqNU32, VshlqNU64),
        Shift::Right => shifts(width, VshrqNU8, VshrqNU16, VshrqNU32, VshrqNU64),
        Shift::Arithmetic => shifts(width, VshrqNS8, VshrqNS16, VshrqNS32, VshrqNS64),
    }
}

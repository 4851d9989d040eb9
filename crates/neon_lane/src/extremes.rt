//! The rows of least and greatest elements, and of all elements of a vector.

ghost use Rattle.std.specs.Prelude.{◌≡◌, ◌<◌, ◌+◌, ◌∷◌, drop, length};
ghost use Rattle.row_names.specs.Groups.{first_named};
ghost use Rattle.neon_lane.specs.Named.{name_of};
ghost use Rattle.neon_lane.specs.ExtremesRows.{extremes_row, extremes_rows};

use crate::LaneOp;
use lane_core::vector::NeonLane::{S8, S16, S32, U8, U16, U32};
use neon_elements::elements::Binary;
use neon_elements::vectors::Across;
use neon_forms::{Form, Narrow};
use row_names::{form_of_row, name_of_row, names_and_rows, row_at, row_named};

/// The rows of the group, named after the intrinsics.
#[derive(Clone, Copy, Debug, PartialEq, Eq)]
pub enum Extremes {
    VaddvU8,
    VaddvqU16,
    VaddvqU8,
    VmaxqS16,
    VmaxqS32,
    VmaxqS8,
    VmaxqU16,
    VmaxqU32,
    VmaxqU8,
    VmaxvqU32,
    VmaxvqU8,
    VminqS16,
    VminqS32,
    VminqS8,
    VminqU16,
    VminqU32,
    VminqU8,
    VminvqU16,
    VminvqU8,
}

/// The group, in ascending order of names. A line has the row's name, the row and its form.
macro_rules! group {
    ($rule:ident $($argument:ident)*) => {
        $rule! {
            Extremes $($argument)*;
            "vaddv_u8", VaddvU8, Form::ReduceHalf(Across::Sum, Narrow::U8);
            "vaddvq_u16", VaddvqU16, Form::Reduce(Across::Sum, Narrow::U16);
            "vaddvq_u8", VaddvqU8, Form::Reduce(Across::Sum, Narrow::U8);
            "vmaxq_s16", VmaxqS16, Form::Each2(Binary::Max, S16);
            "vmaxq_s32", VmaxqS32, Form::Each2(Binary::Max, S32);
            "vmaxq_s8", VmaxqS8, Form::Each2(Binary::Max, S8);
            "vmaxq_u16", VmaxqU16, Form::Each2(Binary::Max, U16);
            "vmaxq_u32", VmaxqU32, Form::Each2(Binary::Max, U32);
            "vmaxq_u8", VmaxqU8, Form::Each2(Binary::Max, U8);
            "vmaxvq_u32", VmaxvqU32, Form::Reduce(Across::Greatest, Narrow::U32);
            "vmaxvq_u8", VmaxvqU8, Form::Reduce(Across::Greatest, Narrow::U8);
            "vminq_s16", VminqS16, Form::Each2(Binary::Min, S16);
            "vminq_s32", VminqS32, Form::Each2(Binary::Min, S32);
            "vminq_s8", VminqS8, Form::Each2(Binary::Min, S8);
            "vminq_u16", VminqU16, Form::Each2(Binary::Min, U16);
            "vminq_u32", VminqU32, Form::Each2(Binary::Min, U32);
            "vminq_u8", VminqU8, Form::Each2(Binary::Min, U8);
            "vminvq_u16", VminvqU16, Form::Reduce(Across::Least, Narrow::U16);
            "vminvq_u8", VminvqU8, Form::Reduce(Across::Least, Narrow::U8);
        }
    };
}

static ROWS: &[(&str, LaneOp)] = group!(names_and_rows LaneOp);

/// How many rows the group has.
#[tactic(auto, unfolding(crate::specs::ExtremesRows::extremes_rows))]
pub fn count() -> usize
    ensures value { result ≡ length extremes_rows }
    ensures few { result < 33 }
{
    ROWS.len()
}

/// Row `k` of the group, counted from 0.
#[tactic(auto, unfolding(crate::specs::ExtremesRows::extremes_rows))]
pub fn at(k: usize) -> LaneOp
    requires { k < length extremes_rows }
    ensures { drop k extremes_rows ≡ result ∷ drop (k + 1) extremes_rows }
{
    row_at(ROWS, k)
}

/// The row of that name, or None where the group has none.
pub fn find(name: &[u8]) -> Option<LaneOp>
    ensures { result ≡ first_named name_of extremes_rows name.now }
{
    row_named(ROWS, name)
}

/// The row's name.
pub fn name(op: Extremes) -> &'static str
    ensures { result.now ≡ (extremes_row op).name }
{
    group!(name_of_row op)
}

/// The row's form.
pub fn form(op: Extremes) -> Form
    ensures { result ≡ (extremes_row op).form }
{
    group!(form_of_row op)
}

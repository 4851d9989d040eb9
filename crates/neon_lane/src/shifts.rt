//! The rows that shift each element.

ghost use Rattle.std.specs.Prelude.{◌≡◌, ◌<◌, ◌+◌, ◌∷◌, drop, length};
ghost use Rattle.row_names.specs.Groups.{first_named};
ghost use Rattle.neon_lane.specs.Named.{name_of};
ghost use Rattle.neon_lane.specs.ShiftsRows.{shifts_row, shifts_rows};

use crate::LaneOp;
use lane_core::vector::NeonLane::{S8, S16, S32, S64, U8, U16, U32, U64};
use neon_forms::Form;
use row_names::{form_of_row, name_of_row, names_and_rows, row_at, row_named};

/// The rows of the group, named after the intrinsics.
#[derive(Clone, Copy, Debug, PartialEq, Eq)]
pub enum Shifts {
    VshlqNS16,
    VshlqNS32,
    VshlqNS64,
    VshlqNS8,
    VshlqNU16,
    VshlqNU32,
    VshlqNU64,
    VshlqNU8,
    VshlqS16,
    VshlqS32,
    VshlqS64,
    VshlqS8,
    VshlqU16,
    VshlqU32,
    VshlqU64,
    VshlqU8,
    VshrqNS16,
    VshrqNS32,
    VshrqNS64,
    VshrqNS8,
    VshrqNU16,
    VshrqNU32,
    VshrqNU64,
    VshrqNU8,
}

/// The group, in ascending order of names. A line has the row's name, the row and its form.
macro_rules! group {
    ($rule:ident $($argument:ident)*) => {
        $rule! {
            Shifts $($argument)*;
            "vshlq_n_s16", VshlqNS16, Form::ShiftLeft(S16);
            "vshlq_n_s32", VshlqNS32, Form::ShiftLeft(S32);
            "vshlq_n_s64", VshlqNS64, Form::ShiftLeft(S64);
            "vshlq_n_s8", VshlqNS8, Form::ShiftLeft(S8);
            "vshlq_n_u16", VshlqNU16, Form::ShiftLeft(U16);
            "vshlq_n_u32", VshlqNU32, Form::ShiftLeft(U32);
            "vshlq_n_u64", VshlqNU64, Form::ShiftLeft(U64);
            "vshlq_n_u8", VshlqNU8, Form::ShiftLeft(U8);
            "vshlq_s16", VshlqS16, Form::ShiftBy(S16);
            "vshlq_s32", VshlqS32, Form::ShiftBy(S32);
            "vshlq_s64", VshlqS64, Form::ShiftBy(S64);
            "vshlq_s8", VshlqS8, Form::ShiftBy(S8);
            "vshlq_u16", VshlqU16, Form::ShiftBy(U16);
            "vshlq_u32", VshlqU32, Form::ShiftBy(U32);
            "vshlq_u64", VshlqU64, Form::ShiftBy(U64);
            "vshlq_u8", VshlqU8, Form::ShiftBy(U8);
            "vshrq_n_s16", VshrqNS16, Form::ShiftRight(S16);
            "vshrq_n_s32", VshrqNS32, Form::ShiftRight(S32);
            "vshrq_n_s64", VshrqNS64, Form::ShiftRight(S64);
            "vshrq_n_s8", VshrqNS8, Form::ShiftRight(S8);
            "vshrq_n_u16", VshrqNU16, Form::ShiftRight(U16);
            "vshrq_n_u32", VshrqNU32, Form::ShiftRight(U32);
            "vshrq_n_u64", VshrqNU64, Form::ShiftRight(U64);
            "vshrq_n_u8", VshrqNU8, Form::ShiftRight(U8);
        }
    };
}

static ROWS: &[(&str, LaneOp)] = group!(names_and_rows LaneOp);

/// How many rows the group has.
#[tactic(auto, unfolding(crate::specs::ShiftsRows::shifts_rows))]
pub fn count() -> usize
    ensures value { result ≡ length shifts_rows }
    ensures few { result < 33 }
{
    ROWS.len()
}

/// Row `k` of the group, counted from 0.
#[tactic(auto, unfolding(crate::specs::ShiftsRows::shifts_rows))]
pub fn at(k: usize) -> LaneOp
    requires { k < length shifts_rows }
    ensures { drop k shifts_rows ≡ result ∷ drop (k + 1) shifts_rows }
{
    row_at(ROWS, k)
}

/// The row of that name, or None where the group has none.
pub fn find(name: &[u8]) -> Option<LaneOp>
    ensures { result ≡ first_named name_of shifts_rows name.now }
{
    row_named(ROWS, name)
}

/// The row's name.
pub fn name(op: Shifts) -> &'static str
    ensures { result.now ≡ (shifts_row op).name }
{
    group!(name_of_row op)
}

/// The row's form.
pub fn form(op: Shifts) -> Form
    ensures { result ≡ (shifts_row op).form }
{
    group!(form_of_row op)
}

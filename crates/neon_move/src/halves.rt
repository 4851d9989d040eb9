//! The rows that take vectors apart into halves, and join them.

ghost use Rattle.std.specs.Prelude.{◌≡◌, ◌<◌, ◌+◌, ◌∷◌, drop, length};
ghost use Rattle.row_names.specs.Groups.{first_named};
ghost use Rattle.neon_move.specs.Named.{name_of};
ghost use Rattle.neon_move.specs.HalvesRows.{halves_row, halves_rows};

use crate::MoveOp;
use lane_core::vector::NeonLane::{S8, S16, S32, S64, U8, U16, U32, U64};
use neon_forms::{Form, Part};
use row_names::{form_of_row, name_of_row, names_and_rows, row_at, row_named};

/// The rows of the group, named after the intrinsics.
#[derive(Clone, Copy, Debug, PartialEq, Eq)]
pub enum Halves {
    VcombineS16,
    VcombineS32,
    VcombineS64,
    VcombineS8,
    VcombineU16,
    VcombineU32,
    VcombineU64,
    VcombineU8,
    VgetHighS16,
    VgetHighS32,
    VgetHighS64,
    VgetHighS8,
    VgetHighU16,
    VgetHighU32,
    VgetHighU64,
    VgetHighU8,
    VgetLowS16,
    VgetLowS32,
    VgetLowS64,
    VgetLowS8,
    VgetLowU16,
    VgetLowU32,
    VgetLowU64,
    VgetLowU8,
}

/// The group, in ascending order of names. A line has the row's name, the row and its form.
macro_rules! group {
    ($rule:ident $($argument:ident)*) => {
        $rule! {
            Halves $($argument)*;
            "vcombine_s16", VcombineS16, Form::Combine(S16);
            "vcombine_s32", VcombineS32, Form::Combine(S32);
            "vcombine_s64", VcombineS64, Form::Combine(S64);
            "vcombine_s8", VcombineS8, Form::Combine(S8);
            "vcombine_u16", VcombineU16, Form::Combine(U16);
            "vcombine_u32", VcombineU32, Form::Combine(U32);
            "vcombine_u64", VcombineU64, Form::Combine(U64);
            "vcombine_u8", VcombineU8, Form::Combine(U8);
            "vget_high_s16", VgetHighS16, Form::Half(Part::High, S16);
            "vget_high_s32", VgetHighS32, Form::Half(Part::High, S32);
            "vget_high_s64", VgetHighS64, Form::Half(Part::High, S64);
            "vget_high_s8", VgetHighS8, Form::Half(Part::High, S8);
            "vget_high_u16", VgetHighU16, Form::Half(Part::High, U16);
            "vget_high_u32", VgetHighU32, Form::Half(Part::High, U32);
            "vget_high_u64", VgetHighU64, Form::Half(Part::High, U64);
            "vget_high_u8", VgetHighU8, Form::Half(Part::High, U8);
            "vget_low_s16", VgetLowS16, Form::Half(Part::Low, S16);
            "vget_low_s32", VgetLowS32, Form::Half(Part::Low, S32);
            "vget_low_s64", VgetLowS64, Form::Half(Part::Low, S64);
            "vget_low_s8", VgetLowS8, Form::Half(Part::Low, S8);
            "vget_low_u16", VgetLowU16, Form::Half(Part::Low, U16);
            "vget_low_u32", VgetLowU32, Form::Half(Part::Low, U32);
            "vget_low_u64", VgetLowU64, Form::Half(Part::Low, U64);
            "vget_low_u8", VgetLowU8, Form::Half(Part::Low, U8);
        }
    };
}

static ROWS: &[(&str, MoveOp)] = group!(names_and_rows MoveOp);

/// How many rows the group has.
#[tactic(auto, unfolding(crate::specs::HalvesRows::halves_rows))]
pub fn count() -> usize
    ensures value { result ≡ length halves_rows }
    ensures few { result < 33 }
{
    ROWS.len()
}

/// Row `k` of the group, counted from 0.
#[tactic(auto, unfolding(crate::specs::HalvesRows::halves_rows))]
pub fn at(k: usize) -> MoveOp
    requires { k < length halves_rows }
    ensures { drop k halves_rows ≡ result ∷ drop (k + 1) halves_rows }
{
    row_at(ROWS, k)
}

/// The row of that name, or None where the group has none.
pub fn find(name: &[u8]) -> Option<MoveOp>
    ensures { result ≡ first_named name_of halves_rows name.now }
{
    row_named(ROWS, name)
}

/// The row's name.
pub fn name(op: Halves) -> &'static str
    ensures { result.now ≡ (halves_row op).name }
{
    group!(name_of_row op)
}

/// The row's form.
pub fn form(op: Halves) -> Form
    ensures { result ≡ (halves_row op).form }
{
    group!(form_of_row op)
}

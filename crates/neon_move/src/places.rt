//! The rows that give, set or repeat one element.

ghost use Rattle.std.specs.Prelude.{◌≡◌, ◌<◌, ◌+◌, ◌∷◌, drop, length};
ghost use Rattle.row_names.specs.Groups.{first_named};
ghost use Rattle.neon_move.specs.Named.{name_of};
ghost use Rattle.neon_move.specs.PlacesRows.{places_row, places_rows};

use crate::MoveOp;
use lane_core::vector::NeonLane::{S8, S16, S32, S64, U8, U16, U32, U64};
use neon_forms::Form;
use row_names::{form_of_row, name_of_row, names_and_rows, row_at, row_named};

/// The rows of the group, named after the intrinsics.
#[derive(Clone, Copy, Debug, PartialEq, Eq)]
pub enum Places {
    VdupqLaneqU16,
    VdupqLaneqU32,
    VdupqLaneqU64,
    VdupqLaneqU8,
    VdupqNS16,
    VdupqNS32,
    VdupqNS64,
    VdupqNS8,
    VdupqNU16,
    VdupqNU32,
    VdupqNU64,
    VdupqNU8,
    VgetqLaneS16,
    VgetqLaneS32,
    VgetqLaneS64,
    VgetqLaneS8,
    VgetqLaneU16,
    VgetqLaneU32,
    VgetqLaneU64,
    VgetqLaneU8,
    VsetqLaneS16,
    VsetqLaneS32,
    VsetqLaneS64,
    VsetqLaneS8,
    VsetqLaneU16,
    VsetqLaneU32,
    VsetqLaneU64,
    VsetqLaneU8,
}

/// The group, in ascending order of names. A line has the row's name, the row and its form.
macro_rules! group {
    ($rule:ident $($argument:ident)*) => {
        $rule! {
            Places $($argument)*;
            "vdupq_laneq_u16", VdupqLaneqU16, Form::DuplicateLane(U16);
            "vdupq_laneq_u32", VdupqLaneqU32, Form::DuplicateLane(U32);
            "vdupq_laneq_u64", VdupqLaneqU64, Form::DuplicateLane(U64);
            "vdupq_laneq_u8", VdupqLaneqU8, Form::DuplicateLane(U8);
            "vdupq_n_s16", VdupqNS16, Form::Duplicate(S16);
            "vdupq_n_s32", VdupqNS32, Form::Duplicate(S32);
            "vdupq_n_s64", VdupqNS64, Form::Duplicate(S64);
            "vdupq_n_s8", VdupqNS8, Form::Duplicate(S8);
            "vdupq_n_u16", VdupqNU16, Form::Duplicate(U16);
            "vdupq_n_u32", VdupqNU32, Form::Duplicate(U32);
            "vdupq_n_u64", VdupqNU64, Form::Duplicate(U64);
            "vdupq_n_u8", VdupqNU8, Form::Duplicate(U8);
            "vgetq_lane_s16", VgetqLaneS16, Form::GetLane(S16);
            "vgetq_lane_s32", VgetqLaneS32, Form::GetLane(S32);
            "vgetq_lane_s64", VgetqLaneS64, Form::GetLane(S64);
            "vgetq_lane_s8", VgetqLaneS8, Form::GetLane(S8);
            "vgetq_lane_u16", VgetqLaneU16, Form::GetLane(U16);
            "vgetq_lane_u32", VgetqLaneU32, Form::GetLane(U32);
            "vgetq_lane_u64", VgetqLaneU64, Form::GetLane(U64);
            "vgetq_lane_u8", VgetqLaneU8, Form::GetLane(U8);
            "vsetq_lane_s16", VsetqLaneS16, Form::SetLane(S16);
            "vsetq_lane_s32", VsetqLaneS32, Form::SetLane(S32);
            "vsetq_lane_s64", VsetqLaneS64, Form::SetLane(S64);
            "vsetq_lane_s8", VsetqLaneS8, Form::SetLane(S8);
            "vsetq_lane_u16", VsetqLaneU16, Form::SetLane(U16);
            "vsetq_lane_u32", VsetqLaneU32, Form::SetLane(U32);
            "vsetq_lane_u64", VsetqLaneU64, Form::SetLane(U64);
            "vsetq_lane_u8", VsetqLaneU8, Form::SetLane(U8);
        }
    };
}

static ROWS: &[(&str, MoveOp)] = group!(names_and_rows MoveOp);

/// How many rows the group has.
#[tactic(auto, unfolding(crate::specs::PlacesRows::places_rows))]
pub fn count() -> usize
    ensures value { result ≡ length places_rows }
    ensures few { result < 33 }
{
    ROWS.len()
}

/// Row `k` of the group, counted from 0.
#[tactic(auto, unfolding(crate::specs::PlacesRows::places_rows))]
pub fn at(k: usize) -> MoveOp
    requires { k < length places_rows }
    ensures { drop k places_rows ≡ result ∷ drop (k + 1) places_rows }
{
    row_at(ROWS, k)
}

/// The row of that name, or None where the group has none.
pub fn find(name: &[u8]) -> Option<MoveOp>
    ensures { result ≡ first_named name_of places_rows name.now }
{
    row_named(ROWS, name)
}

/// The row's name.
pub fn name(op: Places) -> &'static str
    ensures { result.now ≡ (places_row op).name }
{
    group!(name_of_row op)
}

/// The row's form.
pub fn form(op: Places) -> Form
    ensures { result ≡ (places_row op).form }
{
    group!(form_of_row op)
}

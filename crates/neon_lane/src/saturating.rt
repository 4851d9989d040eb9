//! The rows that saturate, halve or take differences.

ghost use Rattle.std.specs.Prelude.{◌≡◌, ◌<◌, ◌+◌, ◌∷◌, drop, length};
ghost use Rattle.row_names.specs.Groups.{first_named};
ghost use Rattle.neon_lane.specs.Named.{name_of};
ghost use Rattle.neon_lane.specs.SaturatingRows.{saturating_row, saturating_rows};

use crate::LaneOp;
use lane_core::vector::NeonLane::{S8, S16, S32, S64, U8, U16, U32, U64};
use neon_elements::elements::{Binary, Long};
use neon_forms::{Form, Narrow};
use row_names::{form_of_row, name_of_row, names_and_rows, row_at, row_named};

/// The rows of the group, named after the intrinsics.
#[derive(Clone, Copy, Debug, PartialEq, Eq)]
pub enum Saturating {
    VabdlHighU8,
    VabdlU8,
    VabdqU16,
    VabdqU32,
    VabdqU8,
    VqaddqS16,
    VqaddqS32,
    VqaddqS64,
    VqaddqS8,
    VqaddqU16,
    VqaddqU32,
    VqaddqU64,
    VqaddqU8,
    VqsubqS16,
    VqsubqS32,
    VqsubqS64,
    VqsubqS8,
    VqsubqU16,
    VqsubqU32,
    VqsubqU64,
    VqsubqU8,
    VrhaddqU16,
    VrhaddqU8,
}

/// The group, in ascending order of names. A line has the row's name, the row and its form.
macro_rules! group {
    ($rule:ident $($argument:ident)*) => {
        $rule! {
            Saturating $($argument)*;
            "vabdl_high_u8", VabdlHighU8, Form::LengthenHigh(Long::Difference, Narrow::U8);
            "vabdl_u8", VabdlU8, Form::Lengthen(Long::Difference, Narrow::U8);
            "vabdq_u16", VabdqU16, Form::Each2(Binary::AbsoluteDifference, U16);
            "vabdq_u32", VabdqU32, Form::Each2(Binary::AbsoluteDifference, U32);
            "vabdq_u8", VabdqU8, Form::Each2(Binary::AbsoluteDifference, U8);
            "vqaddq_s16", VqaddqS16, Form::Each2(Binary::SaturatingAdd, S16);
            "vqaddq_s32", VqaddqS32, Form::Each2(Binary::SaturatingAdd, S32);
            "vqaddq_s64", VqaddqS64, Form::Each2(Binary::SaturatingAdd, S64);
            "vqaddq_s8", VqaddqS8, Form::Each2(Binary::SaturatingAdd, S8);
            "vqaddq_u16", VqaddqU16, Form::Each2(Binary::SaturatingAdd, U16);
            "vqaddq_u32", VqaddqU32, Form::Each2(Binary::SaturatingAdd, U32);
            "vqaddq_u64", VqaddqU64, Form::Each2(Binary::SaturatingAdd, U64);
            "vqaddq_u8", VqaddqU8, Form::Each2(Binary::SaturatingAdd, U8);
            "vqsubq_s16", VqsubqS16, Form::Each2(Binary::SaturatingSub, S16);
            "vqsubq_s32", VqsubqS32, Form::Each2(Binary::SaturatingSub, S32);
            "vqsubq_s64", VqsubqS64, Form::Each2(Binary::SaturatingSub, S64);
            "vqsubq_s8", VqsubqS8, Form::Each2(Binary::SaturatingSub, S8);
            "vqsubq_u16", VqsubqU16, Form::Each2(Binary::SaturatingSub, U16);
            "vqsubq_u32", VqsubqU32, Form::Each2(Binary::SaturatingSub, U32);
            "vqsubq_u64", VqsubqU64, Form::Each2(Binary::SaturatingSub, U64);
            "vqsubq_u8", VqsubqU8, Form::Each2(Binary::SaturatingSub, U8);
            "vrhaddq_u16", VrhaddqU16, Form::Each2(Binary::RoundingHalvingAdd, U16);
            "vrhaddq_u8", VrhaddqU8, Form::Each2(Binary::RoundingHalvingAdd, U8);
        }
    };
}

static ROWS: &[(&str, LaneOp)] = group!(names_and_rows LaneOp);

/// How many rows the group has.
#[tactic(auto, unfolding(crate::specs::SaturatingRows::saturating_rows))]
pub fn count() -> usize
    ensures value { result ≡ length saturating_rows }
    ensures few { result < 33 }
{
    ROWS.len()
}

/// Row `k` of the group, counted from 0.
#[tactic(auto, unfolding(crate::specs::SaturatingRows::saturating_rows))]
pub fn at(k: usize) -> LaneOp
    requires { k < length saturating_rows }
    ensures { drop k saturating_rows ≡ result ∷ drop (k + 1) saturating_rows }
{
    row_at(ROWS, k)
}

/// The row of that name, or None where the group has none.
pub fn find(name: &[u8]) -> Option<LaneOp>
    ensures { result ≡ first_named name_of saturating_rows name.now }
{
    row_named(ROWS, name)
}

/// The row's name.
pub fn name(op: Saturating) -> &'static str
    ensures { result.now ≡ (saturating_row op).name }
{
    group!(name_of_row op)
}

/// The row's form.
pub fn form(op: Saturating) -> Form
    ensures { result ≡ (saturating_row op).form }
{
    group!(form_of_row op)
}

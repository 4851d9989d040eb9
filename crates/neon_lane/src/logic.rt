//! The rows that work bit by bit on two vectors.

ghost use Rattle.std.specs.Prelude.{◌≡◌, ◌<◌, ◌+◌, ◌∷◌, drop, length};
ghost use Rattle.row_names.specs.Groups.{first_named};
ghost use Rattle.neon_lane.specs.Named.{name_of};
ghost use Rattle.neon_lane.specs.LogicRows.{logic_row, logic_rows};

use crate::LaneOp;
use lane_core::vector::NeonLane::{S8, S16, S32, S64, U8, U16, U32, U64};
use neon_elements::elements::Binary;
use neon_forms::Form;
use row_names::{form_of_row, name_of_row, names_and_rows, row_at, row_named};

/// The rows of the group, named after the intrinsics.
#[derive(Clone, Copy, Debug, PartialEq, Eq)]
pub enum Logic {
    VandqS16,
    VandqS32,
    VandqS64,
    VandqS8,
    VandqU16,
    VandqU32,
    VandqU64,
    VandqU8,
    VbicqS16,
    VbicqS32,
    VbicqS64,
    VbicqS8,
    VbicqU16,
    VbicqU32,
    VbicqU64,
    VbicqU8,
    VeorqS16,
    VeorqS32,
    VeorqS64,
    VeorqS8,
    VeorqU16,
    VeorqU32,
    VeorqU64,
    VeorqU8,
    VorrqS16,
    VorrqS32,
    VorrqS64,
    VorrqS8,
    VorrqU16,
    VorrqU32,
    VorrqU64,
    VorrqU8,
}

/// The group, in ascending order of names. A line has the row's name, the row and its form.
macro_rules! group {
    ($rule:ident $($argument:ident)*) => {
        $rule! {
            Logic $($argument)*;
            "vandq_s16", VandqS16, Form::Each2(Binary::And, S16);
            "vandq_s32", VandqS32, Form::Each2(Binary::And, S32);
            "vandq_s64", VandqS64, Form::Each2(Binary::And, S64);
            "vandq_s8", VandqS8, Form::Each2(Binary::And, S8);
            "vandq_u16", VandqU16, Form::Each2(Binary::And, U16);
            "vandq_u32", VandqU32, Form::Each2(Binary::And, U32);
            "vandq_u64", VandqU64, Form::Each2(Binary::And, U64);
            "vandq_u8", VandqU8, Form::Each2(Binary::And, U8);
            "vbicq_s16", VbicqS16, Form::Each2(Binary::Bic, S16);
            "vbicq_s32", VbicqS32, Form::Each2(Binary::Bic, S32);
            "vbicq_s64", VbicqS64, Form::Each2(Binary::Bic, S64);
            "vbicq_s8", VbicqS8, Form::Each2(Binary::Bic, S8);
            "vbicq_u16", VbicqU16, Form::Each2(Binary::Bic, U16);
            "vbicq_u32", VbicqU32, Form::Each2(Binary::Bic, U32);
            "vbicq_u64", VbicqU64, Form::Each2(Binary::Bic, U64);
            "vbicq_u8", VbicqU8, Form::Each2(Binary::Bic, U8);
            "veorq_s16", VeorqS16, Form::Each2(Binary::Eor, S16);
            "veorq_s32", VeorqS32, Form::Each2(Binary::Eor, S32);
            "veorq_s64", VeorqS64, Form::Each2(Binary::Eor, S64);
            "veorq_s8", VeorqS8, Form::Each2(Binary::Eor, S8);
            "veorq_u16", VeorqU16, Form::Each2(Binary::Eor, U16);
            "veorq_u32", VeorqU32, Form::Each2(Binary::Eor, U32);
            "veorq_u64", VeorqU64, Form::Each2(Binary::Eor, U64);
            "veorq_u8", VeorqU8, Form::Each2(Binary::Eor, U8);
            "vorrq_s16", VorrqS16, Form::Each2(Binary::Orr, S16);
            "vorrq_s32", VorrqS32, Form::Each2(Binary::Orr, S32);
            "vorrq_s64", VorrqS64, Form::Each2(Binary::Orr, S64);
            "vorrq_s8", VorrqS8, Form::Each2(Binary::Orr, S8);
            "vorrq_u16", VorrqU16, Form::Each2(Binary::Orr, U16);
            "vorrq_u32", VorrqU32, Form::Each2(Binary::Orr, U32);
            "vorrq_u64", VorrqU64, Form::Each2(Binary::Orr, U64);
            "vorrq_u8", VorrqU8, Form::Each2(Binary::Orr, U8);
        }
    };
}

static ROWS: &[(&str, LaneOp)] = group!(names_and_rows LaneOp);

/// How many rows the group has.
#[tactic(auto, unfolding(crate::specs::LogicRows::logic_rows))]
pub fn count() -> usize
    ensures value { result ≡ length logic_rows }
    ensures few { result < 33 }
{
    ROWS.len()
}

/// Row `k` of the group, counted from 0.
#[tactic(auto, unfolding(crate::specs::LogicRows::logic_rows))]
pub fn at(k: usize) -> LaneOp
    requires { k < length logic_rows }
    ensures { drop k logic_rows ≡ result ∷ drop (k + 1) logic_rows }
{
    row_at(ROWS, k)
}

/// The row of that name, or None where the group has none.
pub fn find(name: &[u8]) -> Option<LaneOp>
    ensures { result ≡ first_named name_of logic_rows name.now }
{
    row_named(ROWS, name)
}

/// The row's name.
pub fn name(op: Logic) -> &'static str
    ensures { result.now ≡ (logic_row op).name }
{
    group!(name_of_row op)
}

/// The row's form.
pub fn form(op: Logic) -> Form
    ensures { result ≡ (logic_row op).form }
{
    group!(form_of_row op)
}

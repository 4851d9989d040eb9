//! The rows that compare, and those that choose or turn bits.

ghost use Rattle.std.specs.Prelude.{◌≡◌, ◌<◌, ◌+◌, ◌∷◌, drop, length};
ghost use Rattle.row_names.specs.Groups.{first_named};
ghost use Rattle.neon_lane.specs.Named.{name_of};
ghost use Rattle.neon_lane.specs.ChoicesRows.{choices_row, choices_rows};

use crate::LaneOp;
use lane_core::vector::NeonLane::{S8, S16, S32, S64, U8, U16, U32, U64};
use neon_elements::elements::{Compare, Unary};
use neon_forms::Form;
use row_names::{form_of_row, name_of_row, names_and_rows, row_at, row_named};

/// The rows of the group, named after the intrinsics.
#[derive(Clone, Copy, Debug, PartialEq, Eq)]
pub enum Choices {
    VbslqS16,
    VbslqS32,
    VbslqS64,
    VbslqS8,
    VbslqU16,
    VbslqU32,
    VbslqU64,
    VbslqU8,
    VceqqS16,
    VceqqS32,
    VceqqS64,
    VceqqS8,
    VceqqU16,
    VceqqU32,
    VceqqU64,
    VceqqU8,
    VcgtqS16,
    VcgtqS32,
    VcgtqS64,
    VcgtqS8,
    VcgtqU16,
    VcgtqU32,
    VcgtqU64,
    VcgtqU8,
    VmvnqU16,
    VmvnqU32,
    VmvnqU8,
}

/// The group, in ascending order of names. A line has the row's name, the row and its form.
macro_rules! group {
    ($rule:ident $($argument:ident)*) => {
        $rule! {
            Choices $($argument)*;
            "vbslq_s16", VbslqS16, Form::Select(S16);
            "vbslq_s32", VbslqS32, Form::Select(S32);
            "vbslq_s64", VbslqS64, Form::Select(S64);
            "vbslq_s8", VbslqS8, Form::Select(S8);
            "vbslq_u16", VbslqU16, Form::Select(U16);
            "vbslq_u32", VbslqU32, Form::Select(U32);
            "vbslq_u64", VbslqU64, Form::Select(U64);
            "vbslq_u8", VbslqU8, Form::Select(U8);
            "vceqq_s16", VceqqS16, Form::Compared(Compare::Equal, S16);
            "vceqq_s32", VceqqS32, Form::Compared(Compare::Equal, S32);
            "vceqq_s64", VceqqS64, Form::Compared(Compare::Equal, S64);
            "vceqq_s8", VceqqS8, Form::Compared(Compare::Equal, S8);
            "vceqq_u16", VceqqU16, Form::Compared(Compare::Equal, U16);
            "vceqq_u32", VceqqU32, Form::Compared(Compare::Equal, U32);
            "vceqq_u64", VceqqU64, Form::Compared(Compare::Equal, U64);
            "vceqq_u8", VceqqU8, Form::Compared(Compare::Equal, U8);
            "vcgtq_s16", VcgtqS16, Form::Compared(Compare::Greater, S16);
            "vcgtq_s32", VcgtqS32, Form::Compared(Compare::Greater, S32);
            "vcgtq_s64", VcgtqS64, Form::Compared(Compare::Greater, S64);
            "vcgtq_s8", VcgtqS8, Form::Compared(Compare::Greater, S8);
            "vcgtq_u16", VcgtqU16, Form::Compared(Compare::Greater, U16);
            "vcgtq_u32", VcgtqU32, Form::Compared(Compare::Greater, U32);
            "vcgtq_u64", VcgtqU64, Form::Compared(Compare::Greater, U64);
            "vcgtq_u8", VcgtqU8, Form::Compared(Compare::Greater, U8);
            "vmvnq_u16", VmvnqU16, Form::Each1(Unary::Not, U16);
            "vmvnq_u32", VmvnqU32, Form::Each1(Unary::Not, U32);
            "vmvnq_u8", VmvnqU8, Form::Each1(Unary::Not, U8);
        }
    };
}

static ROWS: &[(&str, LaneOp)] = group!(names_and_rows LaneOp);

/// How many rows the group has.
#[tactic(auto, unfolding(crate::specs::ChoicesRows::choices_rows))]
pub fn count() -> usize
    ensures value { result ≡ length choices_rows }
    ensures few { result < 33 }
{
    ROWS.len()
}

/// Row `k` of the group, counted from 0.
#[tactic(auto, unfolding(crate::specs::ChoicesRows::choices_rows))]
pub fn at(k: usize) -> LaneOp
    requires { k < length choices_rows }
    ensures { drop k choices_rows ≡ result ∷ drop (k + 1) choices_rows }
{
    row_at(ROWS, k)
}

/// The row of that name, or None where the group has none.
pub fn find(name: &[u8]) -> Option<LaneOp>
    ensures { result ≡ first_named name_of choices_rows name.now }
{
    row_named(ROWS, name)
}

/// The row's name.
pub fn name(op: Choices) -> &'static str
    ensures { result.now ≡ (choices_row op).name }
{
    group!(name_of_row op)
}

/// The row's form.
pub fn form(op: Choices) -> Form
    ensures { result ≡ (choices_row op).form }
{
    group!(form_of_row op)
}

//! The rows that add, subtract and multiply elements.

ghost use Rattle.std.specs.Prelude.{◌≡◌, ◌<◌, ◌+◌, ◌∷◌, drop, length};
ghost use Rattle.row_names.specs.Groups.{first_named};
ghost use Rattle.neon_lane.specs.Named.{name_of};
ghost use Rattle.neon_lane.specs.ArithmeticRows.{arithmetic_row, arithmetic_rows};

use crate::LaneOp;
use lane_core::vector::NeonLane::{S8, S16, S32, S64, U8, U16, U32, U64};
use neon_elements::elements::{Binary, Unary};
use neon_forms::Form;
use row_names::{form_of_row, name_of_row, names_and_rows, row_at, row_named};

/// The rows of the group, named after the intrinsics.
#[derive(Clone, Copy, Debug, PartialEq, Eq)]
pub enum Arithmetic {
    VabsqS16,
    VabsqS32,
    VabsqS64,
    VabsqS8,
    VaddqS16,
    VaddqS32,
    VaddqS64,
    VaddqS8,
    VaddqU16,
    VaddqU32,
    VaddqU64,
    VaddqU8,
    VmulqS16,
    VmulqS32,
    VmulqS8,
    VmulqU16,
    VmulqU32,
    VmulqU8,
    VnegqS16,
    VnegqS32,
    VnegqS64,
    VnegqS8,
    VsubqS16,
    VsubqS32,
    VsubqS64,
    VsubqS8,
    VsubqU16,
    VsubqU32,
    VsubqU64,
    VsubqU8,
}

/// The group, in ascending order of names. A line has the row's name, the row and its form.
macro_rules! group {
    ($rule:ident $($argument:ident)*) => {
        $rule! {
            Arithmetic $($argument)*;
            "vabsq_s16", VabsqS16, Form::Each1(Unary::Absolute, S16);
            "vabsq_s32", VabsqS32, Form::Each1(Unary::Absolute, S32);
            "vabsq_s64", VabsqS64, Form::Each1(Unary::Absolute, S64);
            "vabsq_s8", VabsqS8, Form::Each1(Unary::Absolute, S8);
            "vaddq_s16", VaddqS16, Form::Each2(Binary::Add, S16);
            "vaddq_s32", VaddqS32, Form::Each2(Binary::Add, S32);
            "vaddq_s64", VaddqS64, Form::Each2(Binary::Add, S64);
            "vaddq_s8", VaddqS8, Form::Each2(Binary::Add, S8);
            "vaddq_u16", VaddqU16, Form::Each2(Binary::Add, U16);
            "vaddq_u32", VaddqU32, Form::Each2(Binary::Add, U32);
            "vaddq_u64", VaddqU64, Form::Each2(Binary::Add, U64);
            "vaddq_u8", VaddqU8, Form::Each2(Binary::Add, U8);
            "vmulq_s16", VmulqS16, Form::Each2(Binary::Multiply, S16);
            "vmulq_s32", VmulqS32, Form::Each2(Binary::Multiply, S32);
            "vmulq_s8", VmulqS8, Form::Each2(Binary::Multiply, S8);
            "vmulq_u16", VmulqU16, Form::Each2(Binary::Multiply, U16);
            "vmulq_u32", VmulqU32, Form::Each2(Binary::Multiply, U32);
            "vmulq_u8", VmulqU8, Form::Each2(Binary::Multiply, U8);
            "vnegq_s16", VnegqS16, Form::Each1(Unary::Negate, S16);
            "vnegq_s32", VnegqS32, Form::Each1(Unary::Negate, S32);
            "vnegq_s64", VnegqS64, Form::Each1(Unary::Negate, S64);
            "vnegq_s8", VnegqS8, Form::Each1(Unary::Negate, S8);
            "vsubq_s16", VsubqS16, Form::Each2(Binary::Sub, S16);
            "vsubq_s32", VsubqS32, Form::Each2(Binary::Sub, S32);
            "vsubq_s64", VsubqS64, Form::Each2(Binary::Sub, S64);
            "vsubq_s8", VsubqS8, Form::Each2(Binary::Sub, S8);
            "vsubq_u16", VsubqU16, Form::Each2(Binary::Sub, U16);
            "vsubq_u32", VsubqU32, Form::Each2(Binary::Sub, U32);
            "vsubq_u64", VsubqU64, Form::Each2(Binary::Sub, U64);
            "vsubq_u8", VsubqU8, Form::Each2(Binary::Sub, U8);
        }
    };
}

static ROWS: &[(&str, LaneOp)] = group!(names_and_rows LaneOp);

/// How many rows the group has.
#[tactic(auto, unfolding(crate::specs::ArithmeticRows::arithmetic_rows))]
pub fn count() -> usize
    ensures value { result ≡ length arithmetic_rows }
    ensures few { result < 33 }
{
    ROWS.len()
}

/// Row `k` of the group, counted from 0.
#[tactic(auto, unfolding(crate::specs::ArithmeticRows::arithmetic_rows))]
pub fn at(k: usize) -> LaneOp
    requires { k < length arithmetic_rows }
    ensures { drop k arithmetic_rows ≡ result ∷ drop (k + 1) arithmetic_rows }
{
    row_at(ROWS, k)
}

/// The row of that name, or None where the group has none.
pub fn find(name: &[u8]) -> Option<LaneOp>
    ensures { result ≡ first_named name_of arithmetic_rows name.now }
{
    row_named(ROWS, name)
}

/// The row's name.
pub fn name(op: Arithmetic) -> &'static str
    ensures { result.now ≡ (arithmetic_row op).name }
{
    group!(name_of_row op)
}

/// The row's form.
pub fn form(op: Arithmetic) -> Form
    ensures { result ≡ (arithmetic_row op).form }
{
    group!(form_of_row op)
}

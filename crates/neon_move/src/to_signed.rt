//! The rows that read a vector of 128 bits as one of signed elements.

ghost use Rattle.std.specs.Prelude.{◌≡◌, ◌<◌, ◌+◌, ◌∷◌, drop, length};
ghost use Rattle.row_names.specs.Groups.{first_named};
ghost use Rattle.neon_move.specs.Named.{name_of};
ghost use Rattle.neon_move.specs.ToSignedRows.{to_signed_row, to_signed_rows};

use crate::MoveOp;
use lane_core::vector::NeonLane::{S8, S16, S32, S64, U8, U16, U32, U64};
use neon_forms::Form;
use row_names::{form_of_row, name_of_row, names_and_rows, row_at, row_named};

/// The rows of the group, named after the intrinsics.
#[derive(Clone, Copy, Debug, PartialEq, Eq)]
pub enum ToSigned {
    VreinterpretqS16S32,
    VreinterpretqS16S64,
    VreinterpretqS16S8,
    VreinterpretqS16U16,
    VreinterpretqS16U32,
    VreinterpretqS16U64,
    VreinterpretqS16U8,
    VreinterpretqS32S16,
    VreinterpretqS32S64,
    VreinterpretqS32S8,
    VreinterpretqS32U16,
    VreinterpretqS32U32,
    VreinterpretqS32U64,
    VreinterpretqS32U8,
    VreinterpretqS64S16,
    VreinterpretqS64S32,
    VreinterpretqS64S8,
    VreinterpretqS64U16,
    VreinterpretqS64U32,
    VreinterpretqS64U64,
    VreinterpretqS64U8,
    VreinterpretqS8S16,
    VreinterpretqS8S32,
    VreinterpretqS8S64,
    VreinterpretqS8U16,
    VreinterpretqS8U32,
    VreinterpretqS8U64,
    VreinterpretqS8U8,
}

/// The group, in ascending order of names. A line has the row's name, the row and its form.
macro_rules! group {
    ($rule:ident $($argument:ident)*) => {
        $rule! {
            ToSigned $($argument)*;
            "vreinterpretq_s16_s32", VreinterpretqS16S32, Form::Reinterpret(S16, S32);
            "vreinterpretq_s16_s64", VreinterpretqS16S64, Form::Reinterpret(S16, S64);
            "vreinterpretq_s16_s8", VreinterpretqS16S8, Form::Reinterpret(S16, S8);
            "vreinterpretq_s16_u16", VreinterpretqS16U16, Form::Reinterpret(S16, U16);
            "vreinterpretq_s16_u32", VreinterpretqS16U32, Form::Reinterpret(S16, U32);
            "vreinterpretq_s16_u64", VreinterpretqS16U64, Form::Reinterpret(S16, U64);
            "vreinterpretq_s16_u8", VreinterpretqS16U8, Form::Reinterpret(S16, U8);
            "vreinterpretq_s32_s16", VreinterpretqS32S16, Form::Reinterpret(S32, S16);
            "vreinterpretq_s32_s64", VreinterpretqS32S64, Form::Reinterpret(S32, S64);
            "vreinterpretq_s32_s8", VreinterpretqS32S8, Form::Reinterpret(S32, S8);
            "vreinterpretq_s32_u16", VreinterpretqS32U16, Form::Reinterpret(S32, U16);
            "vreinterpretq_s32_u32", VreinterpretqS32U32, Form::Reinterpret(S32, U32);
            "vreinterpretq_s32_u64", VreinterpretqS32U64, Form::Reinterpret(S32, U64);
            "vreinterpretq_s32_u8", VreinterpretqS32U8, Form::Reinterpret(S32, U8);
            "vreinterpretq_s64_s16", VreinterpretqS64S16, Form::Reinterpret(S64, S16);
            "vreinterpretq_s64_s32", VreinterpretqS64S32, Form::Reinterpret(S64, S32);
            "vreinterpretq_s64_s8", VreinterpretqS64S8, Form::Reinterpret(S64, S8);
            "vreinterpretq_s64_u16", VreinterpretqS64U16, Form::Reinterpret(S64, U16);
            "vreinterpretq_s64_u32", VreinterpretqS64U32, Form::Reinterpret(S64, U32);
            "vreinterpretq_s64_u64", VreinterpretqS64U64, Form::Reinterpret(S64, U64);
            "vreinterpretq_s64_u8", VreinterpretqS64U8, Form::Reinterpret(S64, U8);
            "vreinterpretq_s8_s16", VreinterpretqS8S16, Form::Reinterpret(S8, S16);
            "vreinterpretq_s8_s32", VreinterpretqS8S32, Form::Reinterpret(S8, S32);
            "vreinterpretq_s8_s64", VreinterpretqS8S64, Form::Reinterpret(S8, S64);
            "vreinterpretq_s8_u16", VreinterpretqS8U16, Form::Reinterpret(S8, U16);
            "vreinterpretq_s8_u32", VreinterpretqS8U32, Form::Reinterpret(S8, U32);
            "vreinterpretq_s8_u64", VreinterpretqS8U64, Form::Reinterpret(S8, U64);
            "vreinterpretq_s8_u8", VreinterpretqS8U8, Form::Reinterpret(S8, U8);
        }
    };
}

static ROWS: &[(&str, MoveOp)] = group!(names_and_rows MoveOp);

/// How many rows the group has.
#[tactic(auto, unfolding(crate::specs::ToSignedRows::to_signed_rows))]
pub fn count() -> usize
    ensures value { result ≡ length to_signed_rows }
    ensures few { result < 33 }
{
    ROWS.len()
}

/// Row `k` of the group, counted from 0.
#[tactic(auto, unfolding(crate::specs::ToSignedRows::to_signed_rows))]
pub fn at(k: usize) -> MoveOp
    requires { k < length to_signed_rows }
    ensures { drop k to_signed_rows ≡ result ∷ drop (k + 1) to_signed_rows }
{
    row_at(ROWS, k)
}

/// The row of that name, or None where the group has none.
pub fn find(name: &[u8]) -> Option<MoveOp>
    ensures { result ≡ first_named name_of to_signed_rows name.now }
{
    row_named(ROWS, name)
}

/// The row's name.
pub fn name(op: ToSigned) -> &'static str
    ensures { result.now ≡ (to_signed_row op).name }
{
    group!(name_of_row op)
}

/// The row's form.
pub fn form(op: ToSigned) -> Form
    ensures { result ≡ (to_signed_row op).form }
{
    group!(form_of_row op)
}

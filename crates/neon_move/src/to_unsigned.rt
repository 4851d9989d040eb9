//! The rows that read a vector of 128 bits as one of unsigned elements.

ghost use Rattle.std.specs.Prelude.{◌≡◌, ◌<◌, ◌+◌, ◌∷◌, drop, length};
ghost use Rattle.row_names.specs.Groups.{first_named};
ghost use Rattle.neon_move.specs.Named.{name_of};
ghost use Rattle.neon_move.specs.ToUnsignedRows.{to_unsigned_row, to_unsigned_rows};

use crate::MoveOp;
use lane_core::vector::NeonLane::{S8, S16, S32, S64, U8, U16, U32, U64};
use neon_forms::Form;
use row_names::{form_of_row, name_of_row, names_and_rows, row_at, row_named};

/// The rows of the group, named after the intrinsics.
#[derive(Clone, Copy, Debug, PartialEq, Eq)]
pub enum ToUnsigned {
    VreinterpretqU16S16,
    VreinterpretqU16S32,
    VreinterpretqU16S64,
    VreinterpretqU16S8,
    VreinterpretqU16U32,
    VreinterpretqU16U64,
    VreinterpretqU16U8,
    VreinterpretqU32S16,
    VreinterpretqU32S32,
    VreinterpretqU32S64,
    VreinterpretqU32S8,
    VreinterpretqU32U16,
    VreinterpretqU32U64,
    VreinterpretqU32U8,
    VreinterpretqU64S16,
    VreinterpretqU64S32,
    VreinterpretqU64S64,
    VreinterpretqU64S8,
    VreinterpretqU64U16,
    VreinterpretqU64U32,
    VreinterpretqU64U8,
    VreinterpretqU8S16,
    VreinterpretqU8S32,
    VreinterpretqU8S64,
    VreinterpretqU8S8,
    VreinterpretqU8U16,
    VreinterpretqU8U32,
    VreinterpretqU8U64,
}

/// The group, in ascending order of names. A line has the row's name, the row and its form.
macro_rules! group {
    ($rule:ident $($argument:ident)*) => {
        $rule! {
            ToUnsigned $($argument)*;
            "vreinterpretq_u16_s16", VreinterpretqU16S16, Form::Reinterpret(U16, S16);
            "vreinterpretq_u16_s32", VreinterpretqU16S32, Form::Reinterpret(U16, S32);
            "vreinterpretq_u16_s64", VreinterpretqU16S64, Form::Reinterpret(U16, S64);
            "vreinterpretq_u16_s8", VreinterpretqU16S8, Form::Reinterpret(U16, S8);
            "vreinterpretq_u16_u32", VreinterpretqU16U32, Form::Reinterpret(U16, U32);
            "vreinterpretq_u16_u64", VreinterpretqU16U64, Form::Reinterpret(U16, U64);
            "vreinterpretq_u16_u8", VreinterpretqU16U8, Form::Reinterpret(U16, U8);
            "vreinterpretq_u32_s16", VreinterpretqU32S16, Form::Reinterpret(U32, S16);
            "vreinterpretq_u32_s32", VreinterpretqU32S32, Form::Reinterpret(U32, S32);
            "vreinterpretq_u32_s64", VreinterpretqU32S64, Form::Reinterpret(U32, S64);
            "vreinterpretq_u32_s8", VreinterpretqU32S8, Form::Reinterpret(U32, S8);
            "vreinterpretq_u32_u16", VreinterpretqU32U16, Form::Reinterpret(U32, U16);
            "vreinterpretq_u32_u64", VreinterpretqU32U64, Form::Reinterpret(U32, U64);
            "vreinterpretq_u32_u8", VreinterpretqU32U8, Form::Reinterpret(U32, U8);
            "vreinterpretq_u64_s16", VreinterpretqU64S16, Form::Reinterpret(U64, S16);
            "vreinterpretq_u64_s32", VreinterpretqU64S32, Form::Reinterpret(U64, S32);
            "vreinterpretq_u64_s64", VreinterpretqU64S64, Form::Reinterpret(U64, S64);
            "vreinterpretq_u64_s8", VreinterpretqU64S8, Form::Reinterpret(U64, S8);
            "vreinterpretq_u64_u16", VreinterpretqU64U16, Form::Reinterpret(U64, U16);
            "vreinterpretq_u64_u32", VreinterpretqU64U32, Form::Reinterpret(U64, U32);
            "vreinterpretq_u64_u8", VreinterpretqU64U8, Form::Reinterpret(U64, U8);
            "vreinterpretq_u8_s16", VreinterpretqU8S16, Form::Reinterpret(U8, S16);
            "vreinterpretq_u8_s32", VreinterpretqU8S32, Form::Reinterpret(U8, S32);
            "vreinterpretq_u8_s64", VreinterpretqU8S64, Form::Reinterpret(U8, S64);
            "vreinterpretq_u8_s8", VreinterpretqU8S8, Form::Reinterpret(U8, S8);
            "vreinterpretq_u8_u16", VreinterpretqU8U16, Form::Reinterpret(U8, U16);
            "vreinterpretq_u8_u32", VreinterpretqU8U32, Form::Reinterpret(U8, U32);
            "vreinterpretq_u8_u64", VreinterpretqU8U64, Form::Reinterpret(U8, U64);
        }
    };
}

static ROWS: &[(&str, MoveOp)] = group!(names_and_rows MoveOp);

/// How many rows the group has.
#[tactic(auto, unfolding(crate::specs::ToUnsignedRows::to_unsigned_rows))]
pub fn count() -> usize
    ensures value { result ≡ length to_unsigned_rows }
    ensures few { result < 33 }
{
    ROWS.len()
}

/// Row `k` of the group, counted from 0.
#[tactic(auto, unfolding(crate::specs::ToUnsignedRows::to_unsigned_rows))]
pub fn at(k: usize) -> MoveOp
    requires { k < length to_unsigned_rows }
    ensures { drop k to_unsigned_rows ≡ result ∷ drop (k + 1) to_unsigned_rows }
{
    row_at(ROWS, k)
}

/// The row of that name, or None where the group has none.
pub fn find(name: &[u8]) -> Option<MoveOp>
    ensures { result ≡ first_named name_of to_unsigned_rows name.now }
{
    row_named(ROWS, name)
}

/// The row's name.
pub fn name(op: ToUnsigned) -> &'static str
    ensures { result.now ≡ (to_unsigned_row op).name }
{
    group!(name_of_row op)
}

/// The row's form.
pub fn form(op: ToUnsigned) -> Form
    ensures { result ≡ (to_unsigned_row op).form }
{
    group!(form_of_row op)
}

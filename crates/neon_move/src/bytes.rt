//! The rows of bytes alone: vectors of 64 bits read as bytes and back, bytes that are chosen, and memory.

ghost use Rattle.std.specs.Prelude.{◌≡◌, ◌<◌, ◌+◌, ◌∷◌, drop, length};
ghost use Rattle.row_names.specs.Groups.{first_named};
ghost use Rattle.neon_move.specs.Named.{name_of};
ghost use Rattle.neon_move.specs.BytesRows.{bytes_row, bytes_rows};

use crate::MoveOp;
use lane_core::vector::NeonLane::{S8, S16, S32, S64, U8, U16, U32, U64};
use neon_forms::{Form, Transfer};
use row_names::{form_of_row, name_of_row, names_and_rows, row_at, row_named};

/// The rows of the group, named after the intrinsics.
#[derive(Clone, Copy, Debug, PartialEq, Eq)]
pub enum Bytes {
    VcreateU8,
    VextqU8,
    Vld1U8,
    Vld1qU8,
    Vld1qU8X2,
    Vqtbl1qU8,
    Vqtbl2qU8,
    VreinterpretS16U8,
    VreinterpretS32U8,
    VreinterpretS64U8,
    VreinterpretS8U8,
    VreinterpretU16U8,
    VreinterpretU32U8,
    VreinterpretU64U8,
    VreinterpretU8S16,
    VreinterpretU8S32,
    VreinterpretU8S64,
    VreinterpretU8S8,
    VreinterpretU8U16,
    VreinterpretU8U32,
    VreinterpretU8U64,
    Vst1U8,
    Vst1qU8,
    Vst1qU8X2,
}

/// The group, in ascending order of names. A line has the row's name, the row and its form.
macro_rules! group {
    ($rule:ident $($argument:ident)*) => {
        $rule! {
            Bytes $($argument)*;
            "vcreate_u8", VcreateU8, Form::Create;
            "vextq_u8", VextqU8, Form::Extract;
            "vld1_u8", Vld1U8, Form::Load(Transfer::D);
            "vld1q_u8", Vld1qU8, Form::Load(Transfer::Q);
            "vld1q_u8_x2", Vld1qU8X2, Form::Load(Transfer::Pair);
            "vqtbl1q_u8", Vqtbl1qU8, Form::Lookup;
            "vqtbl2q_u8", Vqtbl2qU8, Form::LookupPair;
            "vreinterpret_s16_u8", VreinterpretS16U8, Form::ReinterpretHalf(S16, U8);
            "vreinterpret_s32_u8", VreinterpretS32U8, Form::ReinterpretHalf(S32, U8);
            "vreinterpret_s64_u8", VreinterpretS64U8, Form::ReinterpretHalf(S64, U8);
            "vreinterpret_s8_u8", VreinterpretS8U8, Form::ReinterpretHalf(S8, U8);
            "vreinterpret_u16_u8", VreinterpretU16U8, Form::ReinterpretHalf(U16, U8);
            "vreinterpret_u32_u8", VreinterpretU32U8, Form::ReinterpretHalf(U32, U8);
            "vreinterpret_u64_u8", VreinterpretU64U8, Form::ReinterpretHalf(U64, U8);
            "vreinterpret_u8_s16", VreinterpretU8S16, Form::ReinterpretHalf(U8, S16);
            "vreinterpret_u8_s32", VreinterpretU8S32, Form::ReinterpretHalf(U8, S32);
            "vreinterpret_u8_s64", VreinterpretU8S64, Form::ReinterpretHalf(U8, S64);
            "vreinterpret_u8_s8", VreinterpretU8S8, Form::ReinterpretHalf(U8, S8);
            "vreinterpret_u8_u16", VreinterpretU8U16, Form::ReinterpretHalf(U8, U16);
            "vreinterpret_u8_u32", VreinterpretU8U32, Form::ReinterpretHalf(U8, U32);
            "vreinterpret_u8_u64", VreinterpretU8U64, Form::ReinterpretHalf(U8, U64);
            "vst1_u8", Vst1U8, Form::Store(Transfer::D);
            "vst1q_u8", Vst1qU8, Form::Store(Transfer::Q);
            "vst1q_u8_x2", Vst1qU8X2, Form::Store(Transfer::Pair);
        }
    };
}

static ROWS: &[(&str, MoveOp)] = group!(names_and_rows MoveOp);

/// How many rows the group has.
#[tactic(auto, unfolding(crate::specs::BytesRows::bytes_rows))]
pub fn count() -> usize
    ensures value { result ≡ length bytes_rows }
    ensures few { result < 33 }
{
    ROWS.len()
}

/// Row `k` of the group, counted from 0.
#[tactic(auto, unfolding(crate::specs::BytesRows::bytes_rows))]
pub fn at(k: usize) -> MoveOp
    requires { k < length bytes_rows }
    ensures { drop k bytes_rows ≡ result ∷ drop (k + 1) bytes_rows }
{
    row_at(ROWS, k)
}

/// The row of that name, or None where the group has none.
pub fn find(name: &[u8]) -> Option<MoveOp>
    ensures { result ≡ first_named name_of bytes_rows name.now }
{
    row_named(ROWS, name)
}

/// The row's name.
pub fn name(op: Bytes) -> &'static str
    ensures { result.now ≡ (bytes_row op).name }
{
    group!(name_of_row op)
}

/// The row's form.
pub fn form(op: Bytes) -> Form
    ensures { result ≡ (bytes_row op).form }
{
    group!(form_of_row op)
}

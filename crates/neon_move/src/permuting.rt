//! The rows that interleave, part, transpose or reverse elements.

ghost use Rattle.std.specs.Prelude.{◌≡◌, ◌<◌, ◌+◌, ◌∷◌, drop, length};
ghost use Rattle.row_names.specs.Groups.{first_named};
ghost use Rattle.neon_move.specs.Named.{name_of};
ghost use Rattle.neon_move.specs.PermutingRows.{permuting_row, permuting_rows};

use crate::MoveOp;
use lane_core::vector::NeonLane::{U8, U16, U32, U64};
use neon_elements::permutes::{Permute, Reverse};
use neon_forms::Form;
use row_names::{form_of_row, name_of_row, names_and_rows, row_at, row_named};

/// The rows of the group, named after the intrinsics.
#[derive(Clone, Copy, Debug, PartialEq, Eq)]
pub enum Permuting {
    Vrev16qU8,
    Vrev32qU16,
    Vrev32qU8,
    Vrev64qU16,
    Vrev64qU32,
    Vrev64qU8,
    Vtrn1qU16,
    Vtrn1qU32,
    Vtrn1qU64,
    Vtrn1qU8,
    Vtrn2qU16,
    Vtrn2qU32,
    Vtrn2qU64,
    Vtrn2qU8,
    Vuzp1qU16,
    Vuzp1qU32,
    Vuzp1qU64,
    Vuzp1qU8,
    Vuzp2qU16,
    Vuzp2qU32,
    Vuzp2qU64,
    Vuzp2qU8,
    Vzip1qU16,
    Vzip1qU32,
    Vzip1qU64,
    Vzip1qU8,
    Vzip2qU16,
    Vzip2qU32,
    Vzip2qU64,
    Vzip2qU8,
}

/// The group, in ascending order of names. A line has the row's name, the row and its form.
macro_rules! group {
    ($rule:ident $($argument:ident)*) => {
        $rule! {
            Permuting $($argument)*;
            "vrev16q_u8", Vrev16qU8, Form::Reversed(Reverse::Rev16U8);
            "vrev32q_u16", Vrev32qU16, Form::Reversed(Reverse::Rev32U16);
            "vrev32q_u8", Vrev32qU8, Form::Reversed(Reverse::Rev32U8);
            "vrev64q_u16", Vrev64qU16, Form::Reversed(Reverse::Rev64U16);
            "vrev64q_u32", Vrev64qU32, Form::Reversed(Reverse::Rev64U32);
            "vrev64q_u8", Vrev64qU8, Form::Reversed(Reverse::Rev64U8);
            "vtrn1q_u16", Vtrn1qU16, Form::Permuted(Permute::Trn1, U16);
            "vtrn1q_u32", Vtrn1qU32, Form::Permuted(Permute::Trn1, U32);
            "vtrn1q_u64", Vtrn1qU64, Form::Permuted(Permute::Trn1, U64);
            "vtrn1q_u8", Vtrn1qU8, Form::Permuted(Permute::Trn1, U8);
            "vtrn2q_u16", Vtrn2qU16, Form::Permuted(Permute::Trn2, U16);
            "vtrn2q_u32", Vtrn2qU32, Form::Permuted(Permute::Trn2, U32);
            "vtrn2q_u64", Vtrn2qU64, Form::Permuted(Permute::Trn2, U64);
            "vtrn2q_u8", Vtrn2qU8, Form::Permuted(Permute::Trn2, U8);
            "vuzp1q_u16", Vuzp1qU16, Form::Permuted(Permute::Uzp1, U16);
            "vuzp1q_u32", Vuzp1qU32, Form::Permuted(Permute::Uzp1, U32);
            "vuzp1q_u64", Vuzp1qU64, Form::Permuted(Permute::Uzp1, U64);
            "vuzp1q_u8", Vuzp1qU8, Form::Permuted(Permute::Uzp1, U8);
            "vuzp2q_u16", Vuzp2qU16, Form::Permuted(Permute::Uzp2, U16);
            "vuzp2q_u32", Vuzp2qU32, Form::Permuted(Permute::Uzp2, U32);
            "vuzp2q_u64", Vuzp2qU64, Form::Permuted(Permute::Uzp2, U64);
            "vuzp2q_u8", Vuzp2qU8, Form::Permuted(Permute::Uzp2, U8);
            "vzip1q_u16", Vzip1qU16, Form::Permuted(Permute::Zip1, U16);
            "vzip1q_u32", Vzip1qU32, Form::Permuted(Permute::Zip1, U32);
            "vzip1q_u64", Vzip1qU64, Form::Permuted(Permute::Zip1, U64);
            "vzip1q_u8", Vzip1qU8, Form::Permuted(Permute::Zip1, U8);
            "vzip2q_u16", Vzip2qU16, Form::Permuted(Permute::Zip2, U16);
            "vzip2q_u32", Vzip2qU32, Form::Permuted(Permute::Zip2, U32);
            "vzip2q_u64", Vzip2qU64, Form::Permuted(Permute::Zip2, U64);
            "vzip2q_u8", Vzip2qU8, Form::Permuted(Permute::Zip2, U8);
        }
    };
}

static ROWS: &[(&str, MoveOp)] = group!(names_and_rows MoveOp);

/// How many rows the group has.
#[tactic(auto, unfolding(crate::specs::PermutingRows::permuting_rows))]
pub fn count() -> usize
    ensures value { result ≡ length permuting_rows }
    ensures few { result < 33 }
{
    ROWS.len()
}

/// Row `k` of the group, counted from 0.
#[tactic(auto, unfolding(crate::specs::PermutingRows::permuting_rows))]
pub fn at(k: usize) -> MoveOp
    requires { k < length permuting_rows }
    ensures { drop k permuting_rows ≡ result ∷ drop (k + 1) permuting_rows }
{
    row_at(ROWS, k)
}

/// The row of that name, or None where the group has none.
pub fn find(name: &[u8]) -> Option<MoveOp>
    ensures { result ≡ first_named name_of permuting_rows name.now }
{
    row_named(ROWS, name)
}

/// The row's name.
pub fn name(op: Permuting) -> &'static str
    ensures { result.now ≡ (permuting_row op).name }
{
    group!(name_of_row op)
}

/// The row's form.
pub fn form(op: Permuting) -> Form
    ensures { result ≡ (permuting_row op).form }
{
    group!(form_of_row op)
}

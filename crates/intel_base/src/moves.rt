//! The rows of SSE2 that move lanes.

ghost use Rattle.std.specs.Prelude.{◌≡◌, ◌<◌, ◌+◌, ◌∷◌, drop, length};
ghost use Rattle.row_names.specs.Groups.{first_named};
ghost use Rattle.intel_base.specs.Named.{name_of};
ghost use Rattle.intel_base.specs.MovesRows.{moves_row, moves_rows};

use crate::BaseOp;
use intel_forms::Form;
use intel_forms::Size::Xmm;
use intel_lanes::blocks::{One, OneImm, Two};
use intel_lanes::lanes::Width::{Byte, Dword, Qword, Word};
use row_names::{form_of_row, name_of_row, names_and_rows, row_at, row_named};

/// The rows of the group, named after the intrinsics.
#[derive(Clone, Copy, Debug, PartialEq, Eq)]
pub enum Moves {
    BslliSi128,
    BsrliSi128,
    MoveEpi64,
    PacksEpi16,
    PacksEpi32,
    PackusEpi16,
    ShuffleEpi32,
    ShufflehiEpi16,
    ShuffleloEpi16,
    SlliSi128,
    SrliSi128,
    UnpackhiEpi16,
    UnpackhiEpi32,
    UnpackhiEpi64,
    UnpackhiEpi8,
    UnpackloEpi16,
    UnpackloEpi32,
    UnpackloEpi64,
    UnpackloEpi8,
}

/// The group, in ascending order of names. A line has the row's name, the row and its form.
macro_rules! group {
    ($rule:ident $($argument:ident)*) => {
        $rule! {
            Moves $($argument)*;
            "_mm_bslli_si128", BslliSi128, Form::OneImm(Xmm, OneImm::BytesUp);
            "_mm_bsrli_si128", BsrliSi128, Form::OneImm(Xmm, OneImm::BytesDown);
            "_mm_move_epi64", MoveEpi64, Form::One(Xmm, One::MoveLow);
            "_mm_packs_epi16", PacksEpi16, Form::Two(Xmm, Two::PackWords);
            "_mm_packs_epi32", PacksEpi32, Form::Two(Xmm, Two::PackDwords);
            "_mm_packus_epi16", PackusEpi16, Form::Two(Xmm, Two::PackWordsUnsigned);
            "_mm_shuffle_epi32", ShuffleEpi32, Form::OneImm(Xmm, OneImm::ShuffleDwords);
            "_mm_shufflehi_epi16", ShufflehiEpi16, Form::OneImm(Xmm, OneImm::ShuffleHigh);
            "_mm_shufflelo_epi16", ShuffleloEpi16, Form::OneImm(Xmm, OneImm::ShuffleLow);
            "_mm_slli_si128", SlliSi128, Form::OneImm(Xmm, OneImm::BytesUp);
            "_mm_srli_si128", SrliSi128, Form::OneImm(Xmm, OneImm::BytesDown);
            "_mm_unpackhi_epi16", UnpackhiEpi16, Form::Two(Xmm, Two::UnpackHigh(Word));
            "_mm_unpackhi_epi32", UnpackhiEpi32, Form::Two(Xmm, Two::UnpackHigh(Dword));
            "_mm_unpackhi_epi64", UnpackhiEpi64, Form::Two(Xmm, Two::UnpackHigh(Qword));
            "_mm_unpackhi_epi8", UnpackhiEpi8, Form::Two(Xmm, Two::UnpackHigh(Byte));
            "_mm_unpacklo_epi16", UnpackloEpi16, Form::Two(Xmm, Two::UnpackLow(Word));
            "_mm_unpacklo_epi32", UnpackloEpi32, Form::Two(Xmm, Two::UnpackLow(Dword));
            "_mm_unpacklo_epi64", UnpackloEpi64, Form::Two(Xmm, Two::UnpackLow(Qword));
            "_mm_unpacklo_epi8", UnpackloEpi8, Form::Two(Xmm, Two::UnpackLow(Byte));
        }
    };
}

static ROWS: &[(&str, BaseOp)] = group!(names_and_rows BaseOp);

/// How many rows the group has.
#[tactic(auto, unfolding(crate::specs::MovesRows::moves_rows))]
pub fn count() -> usize
    ensures value { result ≡ length moves_rows }
    ensures few { result < 33 }
{
    ROWS.len()
}

/// Row `k` of the group, counted from 0.
#[tactic(auto, unfolding(crate::specs::MovesRows::moves_rows))]
pub fn at(k: usize) -> BaseOp
    requires { k < length moves_rows }
    ensures { drop k moves_rows ≡ result ∷ drop (k + 1) moves_rows }
{
    row_at(ROWS, k)
}

/// The row of that name, or None where the group has none.
pub fn find(name: &[u8]) -> Option<BaseOp>
    ensures { result ≡ first_named name_of moves_rows name.now }
{
    row_named(ROWS, name)
}

/// The row's name.
pub fn name(op: Moves) -> &'static str
    ensures { result.now ≡ (moves_row op).name }
{
    group!(name_of_row op)
}

/// The row's form.
pub fn form(op: Moves) -> Form
    ensures { result ≡ (moves_row op).form }
{
    group!(form_of_row op)
}

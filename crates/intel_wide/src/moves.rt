//! The rows on 32 bytes that move lanes within blocks.

ghost use Rattle.std.specs.Prelude.{◌≡◌, ◌<◌, ◌+◌, ◌∷◌, drop, length};
ghost use Rattle.row_names.specs.Groups.{first_named};
ghost use Rattle.intel_wide.specs.Named.{name_of};
ghost use Rattle.intel_wide.specs.MovesRows.{moves_row, moves_rows};

use crate::WideOp;
use intel_forms::Form;
use intel_forms::Size::Ymm;
use intel_lanes::blocks::{OneImm, Two, TwoImm};
use intel_lanes::lanes::Width::{Byte, Dword, Qword, Word};
use row_names::{form_of_row, name_of_row, names_and_rows, row_at, row_named};

/// The rows of the group, named after the intrinsics.
#[derive(Clone, Copy, Debug, PartialEq, Eq)]
pub enum Moves {
    AlignrEpi8,
    BlendEpi16,
    BlendEpi32,
    BlendvEpi8,
    BslliEpi128,
    BsrliEpi128,
    PacksEpi16,
    PacksEpi32,
    PackusEpi16,
    PackusEpi32,
    ShuffleEpi32,
    ShuffleEpi8,
    ShufflehiEpi16,
    ShuffleloEpi16,
    SlliSi256,
    SrliSi256,
    UnpackhiEpi16,
    UnpackhiEpi32,
    UnpackhiEpi64,
    UnpackhiEpi8,
    UnpackloEpi16,
    UnpackloEpi32,
    UnpackloEpi64,
    UnpackloEpi8,
}

/// The group, in ascending order of names. A line has the row's name, the row and its form.
macro_rules! group {
    ($rule:ident $($argument:ident)*) => {
        $rule! {
            Moves $($argument)*;
            "_mm256_alignr_epi8", AlignrEpi8, Form::TwoImm(Ymm, TwoImm::AlignRight);
            "_mm256_blend_epi16", BlendEpi16, Form::TwoImm(Ymm, TwoImm::BlendWords);
            "_mm256_blend_epi32", BlendEpi32, Form::TwoImm(Ymm, TwoImm::BlendDwords);
            "_mm256_blendv_epi8", BlendvEpi8, Form::BlendBytes(Ymm);
            "_mm256_bslli_epi128", BslliEpi128, Form::OneImm(Ymm, OneImm::BytesUp);
            "_mm256_bsrli_epi128", BsrliEpi128, Form::OneImm(Ymm, OneImm::BytesDown);
            "_mm256_packs_epi16", PacksEpi16, Form::Two(Ymm, Two::PackWords);
            "_mm256_packs_epi32", PacksEpi32, Form::Two(Ymm, Two::PackDwords);
            "_mm256_packus_epi16", PackusEpi16, Form::Two(Ymm, Two::PackWordsUnsigned);
            "_mm256_packus_epi32", PackusEpi32, Form::Two(Ymm, Two::PackDwordsUnsigned);
            "_mm256_shuffle_epi32", ShuffleEpi32, Form::OneImm(Ymm, OneImm::ShuffleDwords);
            "_mm256_shuffle_epi8", ShuffleEpi8, Form::Two(Ymm, Two::ShuffleBytes);
            "_mm256_shufflehi_epi16", ShufflehiEpi16, Form::OneImm(Ymm, OneImm::ShuffleHigh);
            "_mm256_shufflelo_epi16", ShuffleloEpi16, Form::OneImm(Ymm, OneImm::ShuffleLow);
            "_mm256_slli_si256", SlliSi256, Form::OneImm(Ymm, OneImm::BytesUp);
            "_mm256_srli_si256", SrliSi256, Form::OneImm(Ymm, OneImm::BytesDown);
            "_mm256_unpackhi_epi16", UnpackhiEpi16, Form::Two(Ymm, Two::UnpackHigh(Word));
            "_mm256_unpackhi_epi32", UnpackhiEpi32, Form::Two(Ymm, Two::UnpackHigh(Dword));
            "_mm256_unpackhi_epi64", UnpackhiEpi64, Form::Two(Ymm, Two::UnpackHigh(Qword));
            "_mm256_unpackhi_epi8", UnpackhiEpi8, Form::Two(Ymm, Two::UnpackHigh(Byte));
            "_mm256_unpacklo_epi16", UnpackloEpi16, Form::Two(Ymm, Two::UnpackLow(Word));
            "_mm256_unpacklo_epi32", UnpackloEpi32, Form::Two(Ymm, Two::UnpackLow(Dword));
            "_mm256_unpacklo_epi64", UnpackloEpi64, Form::Two(Ymm, Two::UnpackLow(Qword));
            "_mm256_unpacklo_epi8", UnpackloEpi8, Form::Two(Ymm, Two::UnpackLow(Byte));
        }
    };
}

static ROWS: &[(&str, WideOp)] = group!(names_and_rows WideOp);

/// How many rows the group has.
#[tactic(auto, unfolding(crate::specs::MovesRows::moves_rows))]
pub fn count() -> usize
    ensures value { result ≡ length moves_rows }
    ensures few { result < 33 }
{
    ROWS.len()
}

/// Row `k` of the group, counted from 0.
#[tactic(auto, unfolding(crate::specs::MovesRows::moves_rows))]
pub fn at(k: usize) -> WideOp
    requires { k < length moves_rows }
    ensures { drop k moves_rows ≡ result ∷ drop (k + 1) moves_rows }
{
    row_at(ROWS, k)
}

/// The row of that name, or None where the group has none.
pub fn find(name: &[u8]) -> Option<WideOp>
    ensures { result ≡ first_named name_of moves_rows name.now }
{
    row_named(ROWS, name)
}

/// The row's name.
pub fn name(op: Moves) -> &'static str
    ensures { result.now ≡ (moves_row op).name }
{
    group!(name_of_row op)
}

/// The row's form.
pub fn form(op: Moves) -> Form
    ensures { result ≡ (moves_row op).form }
{
    group!(form_of_row op)
}

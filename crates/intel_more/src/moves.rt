//! The rows of SSSE3 and SSE4.1 that move lanes.

ghost use Rattle.std.specs.Prelude.{◌≡◌, ◌<◌, ◌+◌, ◌∷◌, drop, length};
ghost use Rattle.row_names.specs.Groups.{first_named};
ghost use Rattle.intel_more.specs.Named.{name_of};
ghost use Rattle.intel_more.specs.MovesRows.{moves_row, moves_rows};

use crate::MoreOp;
use intel_forms::Form;
use intel_forms::Size::Xmm;
use intel_forms::forms::Extension;
use intel_lanes::blocks::{Two, TwoImm};
use row_names::{form_of_row, name_of_row, names_and_rows, row_at, row_named};

/// The rows of the group, named after the intrinsics.
#[derive(Clone, Copy, Debug, PartialEq, Eq)]
pub enum Moves {
    AlignrEpi8,
    BlendEpi16,
    BlendvEpi8,
    Cvtepi16Epi32,
    Cvtepi16Epi64,
    Cvtepi32Epi64,
    Cvtepi8Epi16,
    Cvtepi8Epi32,
    Cvtepi8Epi64,
    Cvtepu16Epi32,
    Cvtepu16Epi64,
    Cvtepu32Epi64,
    Cvtepu8Epi16,
    Cvtepu8Epi32,
    Cvtepu8Epi64,
    PackusEpi32,
    ShuffleEpi8,
}

/// The group, in ascending order of names. A line has the row's name, the row and its form.
macro_rules! group {
    ($rule:ident $($argument:ident)*) => {
        $rule! {
            Moves $($argument)*;
            "_mm_alignr_epi8", AlignrEpi8, Form::TwoImm(Xmm, TwoImm::AlignRight);
            "_mm_blend_epi16", BlendEpi16, Form::TwoImm(Xmm, TwoImm::BlendWords);
            "_mm_blendv_epi8", BlendvEpi8, Form::BlendBytes(Xmm);
            "_mm_cvtepi16_epi32", Cvtepi16Epi32, Form::Extend(Xmm, true, Extension::WordDword);
            "_mm_cvtepi16_epi64", Cvtepi16Epi64, Form::Extend(Xmm, true, Extension::WordQword);
            "_mm_cvtepi32_epi64", Cvtepi32Epi64, Form::Extend(Xmm, true, Extension::DwordQword);
            "_mm_cvtepi8_epi16", Cvtepi8Epi16, Form::Extend(Xmm, true, Extension::ByteWord);
            "_mm_cvtepi8_epi32", Cvtepi8Epi32, Form::Extend(Xmm, true, Extension::ByteDword);
            "_mm_cvtepi8_epi64", Cvtepi8Epi64, Form::Extend(Xmm, true, Extension::ByteQword);
            "_mm_cvtepu16_epi32", Cvtepu16Epi32, Form::Extend(Xmm, false, Extension::WordDword);
            "_mm_cvtepu16_epi64", Cvtepu16Epi64, Form::Extend(Xmm, false, Extension::WordQword);
            "_mm_cvtepu32_epi64", Cvtepu32Epi64, Form::Extend(Xmm, false, Extension::DwordQword);
            "_mm_cvtepu8_epi16", Cvtepu8Epi16, Form::Extend(Xmm, false, Extension::ByteWord);
            "_mm_cvtepu8_epi32", Cvtepu8Epi32, Form::Extend(Xmm, false, Extension::ByteDword);
            "_mm_cvtepu8_epi64", Cvtepu8Epi64, Form::Extend(Xmm, false, Extension::ByteQword);
            "_mm_packus_epi32", PackusEpi32, Form::Two(Xmm, Two::PackDwordsUnsigned);
            "_mm_shuffle_epi8", ShuffleEpi8, Form::Two(Xmm, Two::ShuffleBytes);
        }
    };
}

static ROWS: &[(&str, MoreOp)] = group!(names_and_rows MoreOp);

/// How many rows the group has.
#[tactic(auto, unfolding(crate::specs::MovesRows::moves_rows))]
pub fn count() -> usize
    ensures value { result ≡ length moves_rows }
    ensures few { result < 33 }
{
    ROWS.len()
}

/// Row `k` of the group, counted from 0.
#[tactic(auto, unfolding(crate::specs::MovesRows::moves_rows))]
pub fn at(k: usize) -> MoreOp
    requires { k < length moves_rows }
    ensures { drop k moves_rows ≡ result ∷ drop (k + 1) moves_rows }
{
    row_at(ROWS, k)
}

/// The row of that name, or None where the group has none.
pub fn find(name: &[u8]) -> Option<MoreOp>
    ensures { result ≡ first_named name_of moves_rows name.now }
{
    row_named(ROWS, name)
}

/// The row's name.
pub fn name(op: Moves) -> &'static str
    ensures { result.now ≡ (moves_row op).name }
{
    group!(name_of_row op)
}

/// The row's form.
pub fn form(op: Moves) -> Form
    ensures { result ≡ (moves_row op).form }
{
    group!(form_of_row op)
}

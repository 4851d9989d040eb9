//! The rows on 32 bytes that move lanes across blocks.

ghost use Rattle.std.specs.Prelude.{◌≡◌, ◌<◌, ◌+◌, ◌∷◌, drop, length};
ghost use Rattle.row_names.specs.Groups.{first_named};
ghost use Rattle.intel_wide.specs.Named.{name_of};
ghost use Rattle.intel_wide.specs.CrossingRows.{crossing_row, crossing_rows};

use crate::WideOp;
use intel_forms::Form;
use intel_forms::Size::Ymm;
use intel_forms::across::Across;
use intel_forms::forms::Extension;
use intel_lanes::lanes::Width::{Byte, Dword, Qword, Word};
use row_names::{form_of_row, name_of_row, names_and_rows, row_at, row_named};

/// The rows of the group, named after the intrinsics.
#[derive(Clone, Copy, Debug, PartialEq, Eq)]
pub enum Crossing {
    BroadcastbEpi8,
    BroadcastdEpi32,
    BroadcastqEpi64,
    Broadcastsi128Si256,
    BroadcastwEpi16,
    Castsi256Si128,
    Cvtepi16Epi32,
    Cvtepi16Epi64,
    Cvtepi32Epi64,
    Cvtepi8Epi16,
    Cvtepi8Epi32,
    Cvtepi8Epi64,
    Cvtepu16Epi32,
    Cvtepu16Epi64,
    Cvtepu32Epi64,
    Cvtepu8Epi16,
    Cvtepu8Epi32,
    Cvtepu8Epi64,
    Extractf128Si256,
    Extracti128Si256,
    Insertf128Si256,
    Inserti128Si256,
    Permute2f128Si256,
    Permute2x128Si256,
    Permute4x64Epi64,
    Permutevar8x32Epi32,
    Zextsi128Si256,
}

/// The group, in ascending order of names. A line has the row's name, the row and its form.
macro_rules! group {
    ($rule:ident $($argument:ident)*) => {
        $rule! {
            Crossing $($argument)*;
            "_mm256_broadcastb_epi8", BroadcastbEpi8, Form::Broadcast(Ymm, Byte);
            "_mm256_broadcastd_epi32", BroadcastdEpi32, Form::Broadcast(Ymm, Dword);
            "_mm256_broadcastq_epi64", BroadcastqEpi64, Form::Broadcast(Ymm, Qword);
            "_mm256_broadcastsi128_si256", Broadcastsi128Si256, Form::Across(Across::BroadcastHalf);
            "_mm256_broadcastw_epi16", BroadcastwEpi16, Form::Broadcast(Ymm, Word);
            "_mm256_castsi256_si128", Castsi256Si128, Form::Across(Across::LowHalf);
            "_mm256_cvtepi16_epi32", Cvtepi16Epi32, Form::Extend(Ymm, true, Extension::WordDword);
            "_mm256_cvtepi16_epi64", Cvtepi16Epi64, Form::Extend(Ymm, true, Extension::WordQword);
            "_mm256_cvtepi32_epi64", Cvtepi32Epi64, Form::Extend(Ymm, true, Extension::DwordQword);
            "_mm256_cvtepi8_epi16", Cvtepi8Epi16, Form::Extend(Ymm, true, Extension::ByteWord);
            "_mm256_cvtepi8_epi32", Cvtepi8Epi32, Form::Extend(Ymm, true, Extension::ByteDword);
            "_mm256_cvtepi8_epi64", Cvtepi8Epi64, Form::Extend(Ymm, true, Extension::ByteQword);
            "_mm256_cvtepu16_epi32", Cvtepu16Epi32, Form::Extend(Ymm, false, Extension::WordDword);
            "_mm256_cvtepu16_epi64", Cvtepu16Epi64, Form::Extend(Ymm, false, Extension::WordQword);
            "_mm256_cvtepu32_epi64", Cvtepu32Epi64, Form::Extend(Ymm, false, Extension::DwordQword);
            "_mm256_cvtepu8_epi16", Cvtepu8Epi16, Form::Extend(Ymm, false, Extension::ByteWord);
            "_mm256_cvtepu8_epi32", Cvtepu8Epi32, Form::Extend(Ymm, false, Extension::ByteDword);
            "_mm256_cvtepu8_epi64", Cvtepu8Epi64, Form::Extend(Ymm, false, Extension::ByteQword);
            "_mm256_extractf128_si256", Extractf128Si256, Form::Across(Across::ExtractHalf);
            "_mm256_extracti128_si256", Extracti128Si256, Form::Across(Across::ExtractHalf);
            "_mm256_insertf128_si256", Insertf128Si256, Form::Across(Across::InsertHalf);
            "_mm256_inserti128_si256", Inserti128Si256, Form::Across(Across::InsertHalf);
            "_mm256_permute2f128_si256", Permute2f128Si256, Form::Across(Across::PermuteHalves);
            "_mm256_permute2x128_si256", Permute2x128Si256, Form::Across(Across::PermuteHalves);
            "_mm256_permute4x64_epi64", Permute4x64Epi64, Form::Across(Across::PermuteQwords);
            "_mm256_permutevar8x32_epi32", Permutevar8x32Epi32, Form::Across(Across::PermuteDwords);
            "_mm256_zextsi128_si256", Zextsi128Si256, Form::Across(Across::ZeroExtend);
        }
    };
}

static ROWS: &[(&str, WideOp)] = group!(names_and_rows WideOp);

/// How many rows the group has.
#[tactic(auto, unfolding(crate::specs::CrossingRows::crossing_rows))]
pub fn count() -> usize
    ensures value { result ≡ length crossing_rows }
    ensures few { result < 33 }
{
    ROWS.len()
}

/// Row `k` of the group, counted from 0.
#[tactic(auto, unfolding(crate::specs::CrossingRows::crossing_rows))]
pub fn at(k: usize) -> WideOp
    requires { k < length crossing_rows }
    ensures { drop k crossing_rows ≡ result ∷ drop (k + 1) crossing_rows }
{
    row_at(ROWS, k)
}

/// The row of that name, or None where the group has none.
pub fn find(name: &[u8]) -> Option<WideOp>
    ensures { result ≡ first_named name_of crossing_rows name.now }
{
    row_named(ROWS, name)
}

/// The row's name.
pub fn name(op: Crossing) -> &'static str
    ensures { result.now ≡ (crossing_row op).name }
{
    group!(name_of_row op)
}

/// The row's form.
pub fn form(op: Crossing) -> Form
    ensures { result ≡ (crossing_row op).form }
{
    group!(form_of_row op)
}

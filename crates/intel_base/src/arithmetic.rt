//! The rows of SSE2 that compute with numbers.

ghost use Rattle.std.specs.Prelude.{◌≡◌, ◌<◌, ◌+◌, ◌∷◌, drop, length};
ghost use Rattle.row_names.specs.Groups.{first_named};
ghost use Rattle.intel_base.specs.Named.{name_of};
ghost use Rattle.intel_base.specs.ArithmeticRows.{arithmetic_row, arithmetic_rows};

use crate::BaseOp;
use intel_forms::Form;
use intel_forms::Size::Xmm;
use intel_lanes::blocks::Two;
use intel_lanes::lanes::Lane2;
use intel_lanes::lanes::Width::{Byte, Dword, Qword, Word};
use row_names::{form_of_row, name_of_row, names_and_rows, row_at, row_named};

/// The rows of the group, named after the intrinsics.
#[derive(Clone, Copy, Debug, PartialEq, Eq)]
pub enum Arithmetic {
    AddEpi16,
    AddEpi32,
    AddEpi64,
    AddEpi8,
    AddsEpi16,
    AddsEpi8,
    AddsEpu16,
    AddsEpu8,
    AvgEpu16,
    AvgEpu8,
    MaddEpi16,
    MaxEpi16,
    MaxEpu8,
    MinEpi16,
    MinEpu8,
    MulEpu32,
    MulhiEpi16,
    MulhiEpu16,
    MulloEpi16,
    SadEpu8,
    SubEpi16,
    SubEpi32,
    SubEpi64,
    SubEpi8,
    SubsEpi16,
    SubsEpi8,
    SubsEpu16,
    SubsEpu8,
}

/// The group, in ascending order of names. A line has the row's name, the row and its form.
macro_rules! group {
    ($rule:ident $($argument:ident)*) => {
        $rule! {
            Arithmetic $($argument)*;
            "_mm_add_epi16", AddEpi16, Form::Two(Xmm, Two::Lanes(Lane2::Add, Word));
            "_mm_add_epi32", AddEpi32, Form::Two(Xmm, Two::Lanes(Lane2::Add, Dword));
            "_mm_add_epi64", AddEpi64, Form::Two(Xmm, Two::Lanes(Lane2::Add, Qword));
            "_mm_add_epi8", AddEpi8, Form::Two(Xmm, Two::Lanes(Lane2::Add, Byte));
            "_mm_adds_epi16", AddsEpi16, Form::Two(Xmm, Two::Lanes(Lane2::AddSaturate, Word));
            "_mm_adds_epi8", AddsEpi8, Form::Two(Xmm, Two::Lanes(Lane2::AddSaturate, Byte));
            "_mm_adds_epu16", AddsEpu16, Form::Two(Xmm, Two::Lanes(Lane2::AddSaturateUnsigned, Word));
            "_mm_adds_epu8", AddsEpu8, Form::Two(Xmm, Two::Lanes(Lane2::AddSaturateUnsigned, Byte));
            "_mm_avg_epu16", AvgEpu16, Form::Two(Xmm, Two::Lanes(Lane2::Average, Word));
            "_mm_avg_epu8", AvgEpu8, Form::Two(Xmm, Two::Lanes(Lane2::Average, Byte));
            "_mm_madd_epi16", MaddEpi16, Form::Two(Xmm, Two::MultiplyAdd);
            "_mm_max_epi16", MaxEpi16, Form::Two(Xmm, Two::Lanes(Lane2::Max, Word));
            "_mm_max_epu8", MaxEpu8, Form::Two(Xmm, Two::Lanes(Lane2::MaxUnsigned, Byte));
            "_mm_min_epi16", MinEpi16, Form::Two(Xmm, Two::Lanes(Lane2::Min, Word));
            "_mm_min_epu8", MinEpu8, Form::Two(Xmm, Two::Lanes(Lane2::MinUnsigned, Byte));
            "_mm_mul_epu32", MulEpu32, Form::Two(Xmm, Two::MultiplyEvenUnsigned);
            "_mm_mulhi_epi16", MulhiEpi16, Form::Two(Xmm, Two::Lanes(Lane2::MultiplyHigh, Word));
            "_mm_mulhi_epu16", MulhiEpu16, Form::Two(Xmm, Two::Lanes(Lane2::MultiplyHighUnsigned, Word));
            "_mm_mullo_epi16", MulloEpi16, Form::Two(Xmm, Two::Lanes(Lane2::MultiplyLow, Word));
            "_mm_sad_epu8", SadEpu8, Form::Two(Xmm, Two::SumDifferences);
            "_mm_sub_epi16", SubEpi16, Form::Two(Xmm, Two::Lanes(Lane2::Sub, Word));
            "_mm_sub_epi32", SubEpi32, Form::Two(Xmm, Two::Lanes(Lane2::Sub, Dword));
            "_mm_sub_epi64", SubEpi64, Form::Two(Xmm, Two::Lanes(Lane2::Sub, Qword));
            "_mm_sub_epi8", SubEpi8, Form::Two(Xmm, Two::Lanes(Lane2::Sub, Byte));
            "_mm_subs_epi16", SubsEpi16, Form::Two(Xmm, Two::Lanes(Lane2::SubSaturate, Word));
            "_mm_subs_epi8", SubsEpi8, Form::Two(Xmm, Two::Lanes(Lane2::SubSaturate, Byte));
            "_mm_subs_epu16", SubsEpu16, Form::Two(Xmm, Two::Lanes(Lane2::SubSaturateUnsigned, Word));
            "_mm_subs_epu8", SubsEpu8, Form::Two(Xmm, Two::Lanes(Lane2::SubSaturateUnsigned, Byte));
        }
    };
}

static ROWS: &[(&str, BaseOp)] = group!(names_and_rows BaseOp);

/// How many rows the group has.
#[tactic(auto, unfolding(crate::specs::ArithmeticRows::arithmetic_rows))]
pub fn count() -> usize
    ensures value { result ≡ length arithmetic_rows }
    ensures few { result < 33 }
{
    ROWS.len()
}

/// Row `k` of the group, counted from 0.
#[tactic(auto, unfolding(crate::specs::ArithmeticRows::arithmetic_rows))]
pub fn at(k: usize) -> BaseOp
    requires { k < length arithmetic_rows }
    ensures { drop k arithmetic_rows ≡ result ∷ drop (k + 1) arithmetic_rows }
{
    row_at(ROWS, k)
}

/// The row of that name, or None where the group has none.
pub fn find(name: &[u8]) -> Option<BaseOp>
    ensures { result ≡ first_named name_of arithmetic_rows name.now }
{
    row_named(ROWS, name)
}

/// The row's name.
pub fn name(op: Arithmetic) -> &'static str
    ensures { result.now ≡ (arithmetic_row op).name }
{
    group!(name_of_row op)
}

/// The row's form.
pub fn form(op: Arithmetic) -> Form
    ensures { result ≡ (arithmetic_row op).form }
{
    group!(form_of_row op)
}

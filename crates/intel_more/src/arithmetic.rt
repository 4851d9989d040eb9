//! The rows of SSSE3 and SSE4.1 that compute with numbers.

ghost use Rattle.std.specs.Prelude.{◌≡◌, ◌<◌, ◌+◌, ◌∷◌, drop, length};
ghost use Rattle.row_names.specs.Groups.{first_named};
ghost use Rattle.intel_more.specs.Named.{name_of};
ghost use Rattle.intel_more.specs.ArithmeticRows.{arithmetic_row, arithmetic_rows};

use crate::MoreOp;
use intel_forms::Form;
use intel_forms::Size::Xmm;
use intel_lanes::blocks::{One, Two, TwoImm};
use intel_lanes::lanes::Width::{Byte, Dword, Qword, Word};
use intel_lanes::lanes::{Lane1, Lane2};
use row_names::{form_of_row, name_of_row, names_and_rows, row_at, row_named};

/// The rows of the group, named after the intrinsics.
#[derive(Clone, Copy, Debug, PartialEq, Eq)]
pub enum Arithmetic {
    AbsEpi16,
    AbsEpi32,
    AbsEpi8,
    CmpeqEpi64,
    HaddEpi16,
    HaddEpi32,
    HaddsEpi16,
    HsubEpi16,
    HsubEpi32,
    HsubsEpi16,
    MaddubsEpi16,
    MaxEpi32,
    MaxEpi8,
    MaxEpu16,
    MaxEpu32,
    MinEpi32,
    MinEpi8,
    MinEpu16,
    MinEpu32,
    MpsadbwEpu8,
    MulEpi32,
    MulhrsEpi16,
    MulloEpi32,
    SignEpi16,
    SignEpi32,
    SignEpi8,
}

/// The group, in ascending order of names. A line has the row's name, the row and its form.
macro_rules! group {
    ($rule:ident $($argument:ident)*) => {
        $rule! {
            Arithmetic $($argument)*;
            "_mm_abs_epi16", AbsEpi16, Form::One(Xmm, One::Lanes(Lane1::Absolute, Word));
            "_mm_abs_epi32", AbsEpi32, Form::One(Xmm, One::Lanes(Lane1::Absolute, Dword));
            "_mm_abs_epi8", AbsEpi8, Form::One(Xmm, One::Lanes(Lane1::Absolute, Byte));
            "_mm_cmpeq_epi64", CmpeqEpi64, Form::Two(Xmm, Two::Lanes(Lane2::Equal, Qword));
            "_mm_hadd_epi16", HaddEpi16, Form::Two(Xmm, Two::Pairs(Lane2::Add, Word));
            "_mm_hadd_epi32", HaddEpi32, Form::Two(Xmm, Two::Pairs(Lane2::Add, Dword));
            "_mm_hadds_epi16", HaddsEpi16, Form::Two(Xmm, Two::Pairs(Lane2::AddSaturate, Word));
            "_mm_hsub_epi16", HsubEpi16, Form::Two(Xmm, Two::Pairs(Lane2::Sub, Word));
            "_mm_hsub_epi32", HsubEpi32, Form::Two(Xmm, Two::Pairs(Lane2::Sub, Dword));
            "_mm_hsubs_epi16", HsubsEpi16, Form::Two(Xmm, Two::Pairs(Lane2::SubSaturate, Word));
            "_mm_maddubs_epi16", MaddubsEpi16, Form::Two(Xmm, Two::MultiplyAddBytes);
            "_mm_max_epi32", MaxEpi32, Form::Two(Xmm, Two::Lanes(Lane2::Max, Dword));
            "_mm_max_epi8", MaxEpi8, Form::Two(Xmm, Two::Lanes(Lane2::Max, Byte));
            "_mm_max_epu16", MaxEpu16, Form::Two(Xmm, Two::Lanes(Lane2::MaxUnsigned, Word));
            "_mm_max_epu32", MaxEpu32, Form::Two(Xmm, Two::Lanes(Lane2::MaxUnsigned, Dword));
            "_mm_min_epi32", MinEpi32, Form::Two(Xmm, Two::Lanes(Lane2::Min, Dword));
            "_mm_min_epi8", MinEpi8, Form::Two(Xmm, Two::Lanes(Lane2::Min, Byte));
            "_mm_min_epu16", MinEpu16, Form::Two(Xmm, Two::Lanes(Lane2::MinUnsigned, Word));
            "_mm_min_epu32", MinEpu32, Form::Two(Xmm, Two::Lanes(Lane2::MinUnsigned, Dword));
            "_mm_mpsadbw_epu8", MpsadbwEpu8, Form::TwoImm(Xmm, TwoImm::SumsOfFour);
            "_mm_mul_epi32", MulEpi32, Form::Two(Xmm, Two::MultiplyEven);
            "_mm_mulhrs_epi16", MulhrsEpi16, Form::Two(Xmm, Two::Lanes(Lane2::MultiplyRound, Word));
            "_mm_mullo_epi32", MulloEpi32, Form::Two(Xmm, Two::Lanes(Lane2::MultiplyLow, Dword));
            "_mm_sign_epi16", SignEpi16, Form::Two(Xmm, Two::Lanes(Lane2::Sign, Word));
            "_mm_sign_epi32", SignEpi32, Form::Two(Xmm, Two::Lanes(Lane2::Sign, Dword));
            "_mm_sign_epi8", SignEpi8, Form::Two(Xmm, Two::Lanes(Lane2::Sign, Byte));
        }
    };
}

static ROWS: &[(&str, MoreOp)] = group!(names_and_rows MoreOp);

/// How many rows the group has.
#[tactic(auto, unfolding(crate::specs::ArithmeticRows::arithmetic_rows))]
pub fn count() -> usize
    ensures value { result ≡ length arithmetic_rows }
    ensures few { result < 33 }
{
    ROWS.len()
}

/// Row `k` of the group, counted from 0.
#[tactic(auto, unfolding(crate::specs::ArithmeticRows::arithmetic_rows))]
pub fn at(k: usize) -> MoreOp
    requires { k < length arithmetic_rows }
    ensures { drop k arithmetic_rows ≡ result ∷ drop (k + 1) arithmetic_rows }
{
    row_at(ROWS, k)
}

/// The row of that name, or None where the group has none.
pub fn find(name: &[u8]) -> Option<MoreOp>
    ensures { result ≡ first_named name_of arithmetic_rows name.now }
{
    row_named(ROWS, name)
}

/// The row's name.
pub fn name(op: Arithmetic) -> &'static str
    ensures { result.now ≡ (arithmetic_row op).name }
{
    group!(name_of_row op)
}

/// The row's form.
pub fn form(op: Arithmetic) -> Form
    ensures { result ≡ (arithmetic_row op).form }
{
    group!(form_of_row op)
}

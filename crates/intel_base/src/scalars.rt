//! The rows of SSE2 that take or give integers.

ghost use Rattle.std.specs.Prelude.{◌≡◌, ◌<◌, ◌+◌, ◌∷◌, drop, length};
ghost use Rattle.row_names.specs.Groups.{first_named};
ghost use Rattle.intel_base.specs.Named.{name_of};
ghost use Rattle.intel_base.specs.ScalarsRows.{scalars_row, scalars_rows};

use crate::BaseOp;
use intel_forms::Form;
use intel_forms::Size::Xmm;
use intel_forms::scalars::Scalar;
use intel_lanes::lanes::Width::{Byte, Dword, Qword, Word};
use row_names::{form_of_row, name_of_row, names_and_rows, row_at, row_named};

/// The rows of the group, named after the intrinsics.
#[derive(Clone, Copy, Debug, PartialEq, Eq)]
pub enum Scalars {
    Cvtsi128Si32,
    Cvtsi128Si64,
    Cvtsi32Si128,
    Cvtsi64Si128,
    ExtractEpi16,
    InsertEpi16,
    MovemaskEpi8,
    Set1Epi16,
    Set1Epi32,
    Set1Epi64x,
    Set1Epi8,
    SetEpi16,
    SetEpi32,
    SetEpi64x,
    SetEpi8,
    SetrEpi16,
    SetrEpi32,
    SetrEpi8,
    SetzeroSi128,
}

/// The group, in ascending order of names. A line has the row's name, the row and its form.
macro_rules! group {
    ($rule:ident $($argument:ident)*) => {
        $rule! {
            Scalars $($argument)*;
            "_mm_cvtsi128_si32", Cvtsi128Si32, Form::Scalar(Scalar::FromVector(Dword));
            "_mm_cvtsi128_si64", Cvtsi128Si64, Form::Scalar(Scalar::FromVector(Qword));
            "_mm_cvtsi32_si128", Cvtsi32Si128, Form::Scalar(Scalar::ToVector(Dword));
            "_mm_cvtsi64_si128", Cvtsi64Si128, Form::Scalar(Scalar::ToVector(Qword));
            "_mm_extract_epi16", ExtractEpi16, Form::Scalar(Scalar::Extract(Xmm, Word));
            "_mm_insert_epi16", InsertEpi16, Form::Scalar(Scalar::Insert(Xmm, Word));
            "_mm_movemask_epi8", MovemaskEpi8, Form::Scalar(Scalar::ByteSigns(Xmm));
            "_mm_set1_epi16", Set1Epi16, Form::Scalar(Scalar::SetAll(Xmm, Word));
            "_mm_set1_epi32", Set1Epi32, Form::Scalar(Scalar::SetAll(Xmm, Dword));
            "_mm_set1_epi64x", Set1Epi64x, Form::Scalar(Scalar::SetAll(Xmm, Qword));
            "_mm_set1_epi8", Set1Epi8, Form::Scalar(Scalar::SetAll(Xmm, Byte));
            "_mm_set_epi16", SetEpi16, Form::Scalar(Scalar::Set(Xmm, Word));
            "_mm_set_epi32", SetEpi32, Form::Scalar(Scalar::Set(Xmm, Dword));
            "_mm_set_epi64x", SetEpi64x, Form::Scalar(Scalar::Set(Xmm, Qword));
            "_mm_set_epi8", SetEpi8, Form::Scalar(Scalar::Set(Xmm, Byte));
            "_mm_setr_epi16", SetrEpi16, Form::Scalar(Scalar::SetReversed(Xmm, Word));
            "_mm_setr_epi32", SetrEpi32, Form::Scalar(Scalar::SetReversed(Xmm, Dword));
            "_mm_setr_epi8", SetrEpi8, Form::Scalar(Scalar::SetReversed(Xmm, Byte));
            "_mm_setzero_si128", SetzeroSi128, Form::Scalar(Scalar::SetZero(Xmm));
        }
    };
}

static ROWS: &[(&str, BaseOp)] = group!(names_and_rows BaseOp);

/// How many rows the group has.
#[tactic(auto, unfolding(crate::specs::ScalarsRows::scalars_rows))]
pub fn count() -> usize
    ensures value { result ≡ length scalars_rows }
    ensures few { result < 33 }
{
    ROWS.len()
}

/// Row `k` of the group, counted from 0.
#[tactic(auto, unfolding(crate::specs::ScalarsRows::scalars_rows))]
pub fn at(k: usize) -> BaseOp
    requires { k < length scalars_rows }
    ensures { drop k scalars_rows ≡ result ∷ drop (k + 1) scalars_rows }
{
    row_at(ROWS, k)
}

/// The row of that name, or None where the group has none.
pub fn find(name: &[u8]) -> Option<BaseOp>
    ensures { result ≡ first_named name_of scalars_rows name.now }
{
    row_named(ROWS, name)
}

/// The row's name.
pub fn name(op: Scalars) -> &'static str
    ensures { result.now ≡ (scalars_row op).name }
{
    group!(name_of_row op)
}

/// The row's form.
pub fn form(op: Scalars) -> Form
    ensures { result ≡ (scalars_row op).form }
{
    group!(form_of_row op)
}

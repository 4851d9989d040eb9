//! The rows on 32 bytes that take or give integers.

ghost use Rattle.std.specs.Prelude.{◌≡◌, ◌<◌, ◌+◌, ◌∷◌, drop, length};
ghost use Rattle.row_names.specs.Groups.{first_named};
ghost use Rattle.intel_wide.specs.Named.{name_of};
ghost use Rattle.intel_wide.specs.ScalarsRows.{scalars_row, scalars_rows};

use crate::WideOp;
use intel_forms::Form;
use intel_forms::Size::Ymm;
use intel_forms::scalars::{Scalar, Test};
use intel_lanes::lanes::Width::{Byte, Dword, Qword, Word};
use row_names::{form_of_row, name_of_row, names_and_rows, row_at, row_named};

/// The rows of the group, named after the intrinsics.
#[derive(Clone, Copy, Debug, PartialEq, Eq)]
pub enum Scalars {
    ExtractEpi32,
    ExtractEpi64,
    InsertEpi16,
    InsertEpi32,
    InsertEpi64,
    InsertEpi8,
    MovemaskEpi8,
    Set1Epi16,
    Set1Epi32,
    Set1Epi64x,
    Set1Epi8,
    SetEpi16,
    SetEpi32,
    SetEpi64x,
    SetEpi8,
    SetM128i,
    SetrEpi16,
    SetrEpi32,
    SetrEpi64x,
    SetrEpi8,
    SetrM128i,
    SetzeroSi256,
    TestcSi256,
    TestnzcSi256,
    TestzSi256,
}

/// The group, in ascending order of names. A line has the row's name, the row and its form.
macro_rules! group {
    ($rule:ident $($argument:ident)*) => {
        $rule! {
            Scalars $($argument)*;
            "_mm256_extract_epi32", ExtractEpi32, Form::Scalar(Scalar::Extract(Ymm, Dword));
            "_mm256_extract_epi64", ExtractEpi64, Form::Scalar(Scalar::Extract(Ymm, Qword));
            "_mm256_insert_epi16", InsertEpi16, Form::Scalar(Scalar::Insert(Ymm, Word));
            "_mm256_insert_epi32", InsertEpi32, Form::Scalar(Scalar::Insert(Ymm, Dword));
            "_mm256_insert_epi64", InsertEpi64, Form::Scalar(Scalar::Insert(Ymm, Qword));
            "_mm256_insert_epi8", InsertEpi8, Form::Scalar(Scalar::Insert(Ymm, Byte));
            "_mm256_movemask_epi8", MovemaskEpi8, Form::Scalar(Scalar::ByteSigns(Ymm));
            "_mm256_set1_epi16", Set1Epi16, Form::Scalar(Scalar::SetAll(Ymm, Word));
            "_mm256_set1_epi32", Set1Epi32, Form::Scalar(Scalar::SetAll(Ymm, Dword));
            "_mm256_set1_epi64x", Set1Epi64x, Form::Scalar(Scalar::SetAll(Ymm, Qword));
            "_mm256_set1_epi8", Set1Epi8, Form::Scalar(Scalar::SetAll(Ymm, Byte));
            "_mm256_set_epi16", SetEpi16, Form::Scalar(Scalar::Set(Ymm, Word));
            "_mm256_set_epi32", SetEpi32, Form::Scalar(Scalar::Set(Ymm, Dword));
            "_mm256_set_epi64x", SetEpi64x, Form::Scalar(Scalar::Set(Ymm, Qword));
            "_mm256_set_epi8", SetEpi8, Form::Scalar(Scalar::Set(Ymm, Byte));
            "_mm256_set_m128i", SetM128i, Form::Scalar(Scalar::SetHalves);
            "_mm256_setr_epi16", SetrEpi16, Form::Scalar(Scalar::SetReversed(Ymm, Word));
            "_mm256_setr_epi32", SetrEpi32, Form::Scalar(Scalar::SetReversed(Ymm, Dword));
            "_mm256_setr_epi64x", SetrEpi64x, Form::Scalar(Scalar::SetReversed(Ymm, Qword));
            "_mm256_setr_epi8", SetrEpi8, Form::Scalar(Scalar::SetReversed(Ymm, Byte));
            "_mm256_setr_m128i", SetrM128i, Form::Scalar(Scalar::SetHalvesReversed);
            "_mm256_setzero_si256", SetzeroSi256, Form::Scalar(Scalar::SetZero(Ymm));
            "_mm256_testc_si256", TestcSi256, Form::Scalar(Scalar::Tested(Ymm, Test::Carry));
            "_mm256_testnzc_si256", TestnzcSi256, Form::Scalar(Scalar::Tested(Ymm, Test::Neither));
            "_mm256_testz_si256", TestzSi256, Form::Scalar(Scalar::Tested(Ymm, Test::Zero));
        }
    };
}

static ROWS: &[(&str, WideOp)] = group!(names_and_rows WideOp);

/// How many rows the group has.
#[tactic(auto, unfolding(crate::specs::ScalarsRows::scalars_rows))]
pub fn count() -> usize
    ensures value { result ≡ length scalars_rows }
    ensures few { result < 33 }
{
    ROWS.len()
}

/// Row `k` of the group, counted from 0.
#[tactic(auto, unfolding(crate::specs::ScalarsRows::scalars_rows))]
pub fn at(k: usize) -> WideOp
    requires { k < length scalars_rows }
    ensures { drop k scalars_rows ≡ result ∷ drop (k + 1) scalars_rows }
{
    row_at(ROWS, k)
}

/// The row of that name, or None where the group has none.
pub fn find(name: &[u8]) -> Option<WideOp>
    ensures { result ≡ first_named name_of scalars_rows name.now }
{
    row_named(ROWS, name)
}

/// The row's name.
pub fn name(op: Scalars) -> &'static str
    ensures { result.now ≡ (scalars_row op).name }
{
    group!(name_of_row op)
}

/// The row's form.
pub fn form(op: Scalars) -> Form
    ensures { result ≡ (scalars_row op).form }
{
    group!(form_of_row op)
}

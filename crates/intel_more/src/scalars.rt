//! The rows of SSE4.1 that take or give integers or find a place.

ghost use Rattle.std.specs.Prelude.{◌≡◌, ◌<◌, ◌+◌, ◌∷◌, drop, length};
ghost use Rattle.row_names.specs.Groups.{first_named};
ghost use Rattle.intel_more.specs.Named.{name_of};
ghost use Rattle.intel_more.specs.ScalarsRows.{scalars_row, scalars_rows};

use crate::MoreOp;
use intel_forms::Form;
use intel_forms::Size::Xmm;
use intel_forms::scalars::{Scalar, Test};
use intel_lanes::blocks::One;
use intel_lanes::lanes::Width::{Byte, Dword, Qword};
use row_names::{form_of_row, name_of_row, names_and_rows, row_at, row_named};

/// The rows of the group, named after the intrinsics.
#[derive(Clone, Copy, Debug, PartialEq, Eq)]
pub enum Scalars {
    ExtractEpi32,
    ExtractEpi64,
    ExtractEpi8,
    InsertEpi32,
    InsertEpi64,
    InsertEpi8,
    MinposEpu16,
    TestAllOnes,
    TestAllZeros,
    TestcSi128,
    TestnzcSi128,
    TestzSi128,
}

/// The group, in ascending order of names. A line has the row's name, the row and its form.
macro_rules! group {
    ($rule:ident $($argument:ident)*) => {
        $rule! {
            Scalars $($argument)*;
            "_mm_extract_epi32", ExtractEpi32, Form::Scalar(Scalar::Extract(Xmm, Dword));
            "_mm_extract_epi64", ExtractEpi64, Form::Scalar(Scalar::Extract(Xmm, Qword));
            "_mm_extract_epi8", ExtractEpi8, Form::Scalar(Scalar::Extract(Xmm, Byte));
            "_mm_insert_epi32", InsertEpi32, Form::Scalar(Scalar::Insert(Xmm, Dword));
            "_mm_insert_epi64", InsertEpi64, Form::Scalar(Scalar::Insert(Xmm, Qword));
            "_mm_insert_epi8", InsertEpi8, Form::Scalar(Scalar::Insert(Xmm, Byte));
            "_mm_minpos_epu16", MinposEpu16, Form::One(Xmm, One::MinPosition);
            "_mm_test_all_ones", TestAllOnes, Form::Scalar(Scalar::TestedOnes);
            "_mm_test_all_zeros", TestAllZeros, Form::Scalar(Scalar::Tested(Xmm, Test::Zero));
            "_mm_testc_si128", TestcSi128, Form::Scalar(Scalar::Tested(Xmm, Test::Carry));
            "_mm_testnzc_si128", TestnzcSi128, Form::Scalar(Scalar::Tested(Xmm, Test::Neither));
            "_mm_testz_si128", TestzSi128, Form::Scalar(Scalar::Tested(Xmm, Test::Zero));
        }
    };
}

static ROWS: &[(&str, MoreOp)] = group!(names_and_rows MoreOp);

/// How many rows the group has.
#[tactic(auto, unfolding(crate::specs::ScalarsRows::scalars_rows))]
pub fn count() -> usize
    ensures value { result ≡ length scalars_rows }
    ensures few { result < 33 }
{
    ROWS.len()
}

/// Row `k` of the group, counted from 0.
#[tactic(auto, unfolding(crate::specs::ScalarsRows::scalars_rows))]
pub fn at(k: usize) -> MoreOp
    requires { k < length scalars_rows }
    ensures { drop k scalars_rows ≡ result ∷ drop (k + 1) scalars_rows }
{
    row_at(ROWS, k)
}

/// The row of that name, or None where the group has none.
pub fn find(name: &[u8]) -> Option<MoreOp>
    ensures { result ≡ first_named name_of scalars_rows name.now }
{
    row_named(ROWS, name)
}

/// The row's name.
pub fn name(op: Scalars) -> &'static str
    ensures { result.now ≡ (scalars_row op).name }
{
    group!(name_of_row op)
}

/// The row's form.
pub fn form(op: Scalars) -> Form
    ensures { result ≡ (scalars_row op).form }
{
    group!(form_of_row op)
}

//! The rows on 32 bytes that compute with bits, and compares.

ghost use Rattle.std.specs.Prelude.{◌≡◌, ◌<◌, ◌+◌, ◌∷◌, drop, length};
ghost use Rattle.row_names.specs.Groups.{first_named};
ghost use Rattle.intel_wide.specs.Named.{name_of};
ghost use Rattle.intel_wide.specs.LogicRows.{logic_row, logic_rows};

use crate::WideOp;
use intel_forms::Form;
use intel_forms::Size::Ymm;
use intel_lanes::blocks::Two;
use intel_lanes::lanes::Lane2;
use intel_lanes::lanes::Width::{Byte, Dword, Qword, Word};
use row_names::{form_of_row, name_of_row, names_and_rows, row_at, row_named};

/// The rows of the group, named after the intrinsics.
#[derive(Clone, Copy, Debug, PartialEq, Eq)]
pub enum Logic {
    AndSi256,
    AndnotSi256,
    CmpeqEpi16,
    CmpeqEpi32,
    CmpeqEpi64,
    CmpeqEpi8,
    CmpgtEpi16,
    CmpgtEpi32,
    CmpgtEpi64,
    CmpgtEpi8,
    OrSi256,
    XorSi256,
}

/// The group, in ascending order of names. A line has the row's name, the row and its form.
macro_rules! group {
    ($rule:ident $($argument:ident)*) => {
        $rule! {
            Logic $($argument)*;
            "_mm256_and_si256", AndSi256, Form::Two(Ymm, Two::Lanes(Lane2::And, Byte));
            "_mm256_andnot_si256", AndnotSi256, Form::Two(Ymm, Two::Lanes(Lane2::AndNot, Byte));
            "_mm256_cmpeq_epi16", CmpeqEpi16, Form::Two(Ymm, Two::Lanes(Lane2::Equal, Word));
            "_mm256_cmpeq_epi32", CmpeqEpi32, Form::Two(Ymm, Two::Lanes(Lane2::Equal, Dword));
            "_mm256_cmpeq_epi64", CmpeqEpi64, Form::Two(Ymm, Two::Lanes(Lane2::Equal, Qword));
            "_mm256_cmpeq_epi8", CmpeqEpi8, Form::Two(Ymm, Two::Lanes(Lane2::Equal, Byte));
            "_mm256_cmpgt_epi16", CmpgtEpi16, Form::Two(Ymm, Two::Lanes(Lane2::Greater, Word));
            "_mm256_cmpgt_epi32", CmpgtEpi32, Form::Two(Ymm, Two::Lanes(Lane2::Greater, Dword));
            "_mm256_cmpgt_epi64", CmpgtEpi64, Form::Two(Ymm, Two::Lanes(Lane2::Greater, Qword));
            "_mm256_cmpgt_epi8", CmpgtEpi8, Form::Two(Ymm, Two::Lanes(Lane2::Greater, Byte));
            "_mm256_or_si256", OrSi256, Form::Two(Ymm, Two::Lanes(Lane2::Or, Byte));
            "_mm256_xor_si256", XorSi256, Form::Two(Ymm, Two::Lanes(Lane2::Xor, Byte));
        }
    };
}

static ROWS: &[(&str, WideOp)] = group!(names_and_rows WideOp);

/// How many rows the group has.
#[tactic(auto, unfolding(crate::specs::LogicRows::logic_rows))]
pub fn count() -> usize
    ensures value { result ≡ length logic_rows }
    ensures few { result < 33 }
{
    ROWS.len()
}

/// Row `k` of the group, counted from 0.
#[tactic(auto, unfolding(crate::specs::LogicRows::logic_rows))]
pub fn at(k: usize) -> WideOp
    requires { k < length logic_rows }
    ensures { drop k logic_rows ≡ result ∷ drop (k + 1) logic_rows }
{
    row_at(ROWS, k)
}

/// The row of that name, or None where the group has none.
pub fn find(name: &[u8]) -> Option<WideOp>
    ensures { result ≡ first_named name_of logic_rows name.now }
{
    row_named(ROWS, name)
}

/// The row's name.
pub fn name(op: Logic) -> &'static str
    ensures { result.now ≡ (logic_row op).name }
{
    group!(name_of_row op)
}

/// The row's form.
pub fn form(op: Logic) -> Form
    ensures { result ≡ (logic_row op).form }
{
    group!(form_of_row op)
}

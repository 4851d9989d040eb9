//! The rows of SSE2 that compute with bits: logic, compares and shifts.

ghost use Rattle.std.specs.Prelude.{◌≡◌, ◌<◌, ◌+◌, ◌∷◌, drop, length};
ghost use Rattle.row_names.specs.Groups.{first_named};
ghost use Rattle.intel_base.specs.Named.{name_of};
ghost use Rattle.intel_base.specs.LogicRows.{logic_row, logic_rows};

use crate::BaseOp;
use intel_forms::Form;
use intel_forms::Size::Xmm;
use intel_lanes::blocks::{OneImm, Two};
use intel_lanes::lanes::Width::{Byte, Dword, Qword, Word};
use intel_lanes::lanes::{Lane2, Shift};
use row_names::{form_of_row, name_of_row, names_and_rows, row_at, row_named};

/// The rows of the group, named after the intrinsics.
#[derive(Clone, Copy, Debug, PartialEq, Eq)]
pub enum Logic {
    AndSi128,
    AndnotSi128,
    CmpeqEpi16,
    CmpeqEpi32,
    CmpeqEpi8,
    CmpgtEpi16,
    CmpgtEpi32,
    CmpgtEpi8,
    CmpltEpi16,
    CmpltEpi32,
    CmpltEpi8,
    OrSi128,
    SllEpi16,
    SllEpi32,
    SllEpi64,
    SlliEpi16,
    SlliEpi32,
    SlliEpi64,
    SraEpi16,
    SraEpi32,
    SraiEpi16,
    SraiEpi32,
    SrlEpi16,
    SrlEpi32,
    SrlEpi64,
    SrliEpi16,
    SrliEpi32,
    SrliEpi64,
    XorSi128,
}

/// The group, in ascending order of names. A line has the row's name, the row and its form.
macro_rules! group {
    ($rule:ident $($argument:ident)*) => {
        $rule! {
            Logic $($argument)*;
            "_mm_and_si128", AndSi128, Form::Two(Xmm, Two::Lanes(Lane2::And, Byte));
            "_mm_andnot_si128", AndnotSi128, Form::Two(Xmm, Two::Lanes(Lane2::AndNot, Byte));
            "_mm_cmpeq_epi16", CmpeqEpi16, Form::Two(Xmm, Two::Lanes(Lane2::Equal, Word));
            "_mm_cmpeq_epi32", CmpeqEpi32, Form::Two(Xmm, Two::Lanes(Lane2::Equal, Dword));
            "_mm_cmpeq_epi8", CmpeqEpi8, Form::Two(Xmm, Two::Lanes(Lane2::Equal, Byte));
            "_mm_cmpgt_epi16", CmpgtEpi16, Form::Two(Xmm, Two::Lanes(Lane2::Greater, Word));
            "_mm_cmpgt_epi32", CmpgtEpi32, Form::Two(Xmm, Two::Lanes(Lane2::Greater, Dword));
            "_mm_cmpgt_epi8", CmpgtEpi8, Form::Two(Xmm, Two::Lanes(Lane2::Greater, Byte));
            "_mm_cmplt_epi16", CmpltEpi16, Form::Two(Xmm, Two::Lanes(Lane2::Less, Word));
            "_mm_cmplt_epi32", CmpltEpi32, Form::Two(Xmm, Two::Lanes(Lane2::Less, Dword));
            "_mm_cmplt_epi8", CmpltEpi8, Form::Two(Xmm, Two::Lanes(Lane2::Less, Byte));
            "_mm_or_si128", OrSi128, Form::Two(Xmm, Two::Lanes(Lane2::Or, Byte));
            "_mm_sll_epi16", SllEpi16, Form::Counted(Xmm, Shift::Left, Word);
            "_mm_sll_epi32", SllEpi32, Form::Counted(Xmm, Shift::Left, Dword);
            "_mm_sll_epi64", SllEpi64, Form::Counted(Xmm, Shift::Left, Qword);
            "_mm_slli_epi16", SlliEpi16, Form::OneImm(Xmm, OneImm::Shifted(Shift::Left, Word));
            "_mm_slli_epi32", SlliEpi32, Form::OneImm(Xmm, OneImm::Shifted(Shift::Left, Dword));
            "_mm_slli_epi64", SlliEpi64, Form::OneImm(Xmm, OneImm::Shifted(Shift::Left, Qword));
            "_mm_sra_epi16", SraEpi16, Form::Counted(Xmm, Shift::Arithmetic, Word);
            "_mm_sra_epi32", SraEpi32, Form::Counted(Xmm, Shift::Arithmetic, Dword);
            "_mm_srai_epi16", SraiEpi16, Form::OneImm(Xmm, OneImm::Shifted(Shift::Arithmetic, Word));
            "_mm_srai_epi32", SraiEpi32, Form::OneImm(Xmm, OneImm::Shifted(Shift::Arithmetic, Dword));
            "_mm_srl_epi16", SrlEpi16, Form::Counted(Xmm, Shift::Right, Word);
            "_mm_srl_epi32", SrlEpi32, Form::Counted(Xmm, Shift::Right, Dword);
            "_mm_srl_epi64", SrlEpi64, Form::Counted(Xmm, Shift::Right, Qword);
            "_mm_srli_epi16", SrliEpi16, Form::OneImm(Xmm, OneImm::Shifted(Shift::Right, Word));
            "_mm_srli_epi32", SrliEpi32, Form::OneImm(Xmm, OneImm::Shifted(Shift::Right, Dword));
            "_mm_srli_epi64", SrliEpi64, Form::OneImm(Xmm, OneImm::Shifted(Shift::Right, Qword));
            "_mm_xor_si128", XorSi128, Form::Two(Xmm, Two::Lanes(Lane2::Xor, Byte));
        }
    };
}

static ROWS: &[(&str, BaseOp)] = group!(names_and_rows BaseOp);

/// How many rows the group has.
#[tactic(auto, unfolding(crate::specs::LogicRows::logic_rows))]
pub fn count() -> usize
    ensures value { result ≡ length logic_rows }
    ensures few { result < 33 }
{
    ROWS.len()
}

/// Row `k` of the group, counted from 0.
#[tactic(auto, unfolding(crate::specs::LogicRows::logic_rows))]
pub fn at(k: usize) -> BaseOp
    requires { k < length logic_rows }
    ensures { drop k logic_rows ≡ result ∷ drop (k + 1) logic_rows }
{
    row_at(ROWS, k)
}

/// The row of that name, or None where the group has none.
pub fn find(name: &[u8]) -> Option<BaseOp>
    ensures { result ≡ first_named name_of logic_rows name.now }
{
    row_named(ROWS, name)
}

/// The row's name.
pub fn name(op: Logic) -> &'static str
    ensures { result.now ≡ (logic_row op).name }
{
    group!(name_of_row op)
}

/// The row's form.
pub fn form(op: Logic) -> Form
    ensures { result ≡ (logic_row op).form }
{
    group!(form_of_row op)
}

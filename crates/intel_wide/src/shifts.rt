//! The rows on 32 bytes that shift.

ghost use Rattle.std.specs.Prelude.{◌≡◌, ◌<◌, ◌+◌, ◌∷◌, drop, length};
ghost use Rattle.row_names.specs.Groups.{first_named};
ghost use Rattle.intel_wide.specs.Named.{name_of};
ghost use Rattle.intel_wide.specs.ShiftsRows.{shifts_row, shifts_rows};

use crate::WideOp;
use intel_forms::Form;
use intel_forms::Size::Ymm;
use intel_lanes::blocks::{OneImm, Two};
use intel_lanes::lanes::Width::{Dword, Qword, Word};
use intel_lanes::lanes::{Lane2, Shift};
use row_names::{form_of_row, name_of_row, names_and_rows, row_at, row_named};

/// The rows of the group, named after the intrinsics.
#[derive(Clone, Copy, Debug, PartialEq, Eq)]
pub enum Shifts {
    SllEpi16,
    SllEpi32,
    SllEpi64,
    SlliEpi16,
    SlliEpi32,
    SlliEpi64,
    SllvEpi32,
    SllvEpi64,
    SraEpi16,
    SraEpi32,
    SraiEpi16,
    SraiEpi32,
    SravEpi32,
    SrlEpi16,
    SrlEpi32,
    SrlEpi64,
    SrliEpi16,
    SrliEpi32,
    SrliEpi64,
    SrlvEpi32,
    SrlvEpi64,
}

/// The group, in ascending order of names. A line has the row's name, the row and its form.
macro_rules! group {
    ($rule:ident $($argument:ident)*) => {
        $rule! {
            Shifts $($argument)*;
            "_mm256_sll_epi16", SllEpi16, Form::Counted(Ymm, Shift::Left, Word);
            "_mm256_sll_epi32", SllEpi32, Form::Counted(Ymm, Shift::Left, Dword);
            "_mm256_sll_epi64", SllEpi64, Form::Counted(Ymm, Shift::Left, Qword);
            "_mm256_slli_epi16", SlliEpi16, Form::OneImm(Ymm, OneImm::Shifted(Shift::Left, Word));
            "_mm256_slli_epi32", SlliEpi32, Form::OneImm(Ymm, OneImm::Shifted(Shift::Left, Dword));
            "_mm256_slli_epi64", SlliEpi64, Form::OneImm(Ymm, OneImm::Shifted(Shift::Left, Qword));
            "_mm256_sllv_epi32", SllvEpi32, Form::Two(Ymm, Two::Lanes(Lane2::ShiftBy(Shift::Left), Dword));
            "_mm256_sllv_epi64", SllvEpi64, Form::Two(Ymm, Two::Lanes(Lane2::ShiftBy(Shift::Left), Qword));
            "_mm256_sra_epi16", SraEpi16, Form::Counted(Ymm, Shift::Arithmetic, Word);
            "_mm256_sra_epi32", SraEpi32, Form::Counted(Ymm, Shift::Arithmetic, Dword);
            "_mm256_srai_epi16", SraiEpi16, Form::OneImm(Ymm, OneImm::Shifted(Shift::Arithmetic, Word));
            "_mm256_srai_epi32", SraiEpi32, Form::OneImm(Ymm, OneImm::Shifted(Shift::Arithmetic, Dword));
            "_mm256_srav_epi32", SravEpi32, Form::Two(Ymm, Two::Lanes(Lane2::ShiftBy(Shift::Arithmetic), Dword));
            "_mm256_srl_epi16", SrlEpi16, Form::Counted(Ymm, Shift::Right, Word);
            "_mm256_srl_epi32", SrlEpi32, Form::Counted(Ymm, Shift::Right, Dword);
            "_mm256_srl_epi64", SrlEpi64, Form::Counted(Ymm, Shift::Right, Qword);
            "_mm256_srli_epi16", SrliEpi16, Form::OneImm(Ymm, OneImm::Shifted(Shift::Right, Word));
            "_mm256_srli_epi32", SrliEpi32, Form::OneImm(Ymm, OneImm::Shifted(Shift::Right, Dword));
            "_mm256_srli_epi64", SrliEpi64, Form::OneImm(Ymm, OneImm::Shifted(Shift::Right, Qword));
            "_mm256_srlv_epi32", SrlvEpi32, Form::Two(Ymm, Two::Lanes(Lane2::ShiftBy(Shift::Right), Dword));
            "_mm256_srlv_epi64", SrlvEpi64, Form::Two(Ymm, Two::Lanes(Lane2::ShiftBy(Shift::Right), Qword));
        }
    };
}

static ROWS: &[(&str, WideOp)] = group!(names_and_rows WideOp);

/// How many rows the group has.
#[tactic(auto, unfolding(crate::specs::ShiftsRows::shifts_rows))]
pub fn count() -> usize
    ensures value { result ≡ length shifts_rows }
    ensures few { result < 33 }
{
    ROWS.len()
}

/// Row `k` of the group, counted from 0.
#[tactic(auto, unfolding(crate::specs::ShiftsRows::shifts_rows))]
pub fn at(k: usize) -> WideOp
    requires { k < length shifts_rows }
    ensures { drop k shifts_rows ≡ result ∷ drop (k + 1) shifts_rows }
{
    row_at(ROWS, k)
}

/// The row of that name, or None where the group has none.
pub fn find(name: &[u8]) -> Option<WideOp>
    ensures { result ≡ first_named name_of shifts_rows name.now }
{
    row_named(ROWS, name)
}

/// The row's name.
pub fn name(op: Shifts) -> &'static str
    ensures { result.now ≡ (shifts_row op).name }
{
    group!(name_of_row op)
}

/// The row's form.
pub fn form(op: Shifts) -> Form
    ensures { result ≡ (shifts_row op).form }
{
    group!(form_of_row op)
}

//! The rows of SSE2 and SSE3 that load and store.

ghost use Rattle.std.specs.Prelude.{◌≡◌, ◌<◌, ◌+◌, ◌∷◌, drop, length};
ghost use Rattle.row_names.specs.Groups.{first_named};
ghost use Rattle.intel_base.specs.Named.{name_of};
ghost use Rattle.intel_base.specs.LoadsRows.{loads_row, loads_rows};

use crate::BaseOp;
use intel_forms::Form;
use intel_forms::Size::Xmm;
use intel_forms::memory::Memory;
use row_names::{form_of_row, name_of_row, names_and_rows, row_at, row_named};

/// The rows of the group, named after the intrinsics.
#[derive(Clone, Copy, Debug, PartialEq, Eq)]
pub enum Loads {
    LddquSi128,
    LoadSi128,
    LoadlEpi64,
    LoaduSi128,
    StoreSi128,
    StorelEpi64,
    StoreuSi128,
}

/// The group, in ascending order of names. A line has the row's name, the row and its form.
macro_rules! group {
    ($rule:ident $($argument:ident)*) => {
        $rule! {
            Loads $($argument)*;
            "_mm_lddqu_si128", LddquSi128, Form::Memory(Memory::Load(Xmm, false));
            "_mm_load_si128", LoadSi128, Form::Memory(Memory::Load(Xmm, true));
            "_mm_loadl_epi64", LoadlEpi64, Form::Memory(Memory::LoadLow);
            "_mm_loadu_si128", LoaduSi128, Form::Memory(Memory::Load(Xmm, false));
            "_mm_store_si128", StoreSi128, Form::Memory(Memory::Store(Xmm, true));
            "_mm_storel_epi64", StorelEpi64, Form::Memory(Memory::StoreLow);
            "_mm_storeu_si128", StoreuSi128, Form::Memory(Memory::Store(Xmm, false));
        }
    };
}

static ROWS: &[(&str, BaseOp)] = group!(names_and_rows BaseOp);

/// How many rows the group has.
#[tactic(auto, unfolding(crate::specs::LoadsRows::loads_rows))]
pub fn count() -> usize
    ensures value { result ≡ length loads_rows }
    ensures few { result < 33 }
{
    ROWS.len()
}

/// Row `k` of the group, counted from 0.
#[tactic(auto, unfolding(crate::specs::LoadsRows::loads_rows))]
pub fn at(k: usize) -> BaseOp
    requires { k < length loads_rows }
    ensures { drop k loads_rows ≡ result ∷ drop (k + 1) loads_rows }
{
    row_at(ROWS, k)
}

/// The row of that name, or None where the group has none.
pub fn find(name: &[u8]) -> Option<BaseOp>
    ensures { result ≡ first_named name_of loads_rows name.now }
{
    row_named(ROWS, name)
}

/// The row's name.
pub fn name(op: Loads) -> &'static str
    ensures { result.now ≡ (loads_row op).name }
{
    group!(name_of_row op)
}

/// The row's form.
pub fn form(op: Loads) -> Form
    ensures { result ≡ (loads_row op).form }
{
    group!(form_of_row op)
}

//! The rows on 32 bytes that load, store and gather.

ghost use Rattle.std.specs.Prelude.{◌≡◌, ◌<◌, ◌+◌, ◌∷◌, drop, length};
ghost use Rattle.row_names.specs.Groups.{first_named};
ghost use Rattle.intel_wide.specs.Named.{name_of};
ghost use Rattle.intel_wide.specs.LoadsRows.{loads_row, loads_rows};

use crate::WideOp;
use intel_forms::Form;
use intel_forms::Size::Ymm;
use intel_forms::memory::{Indexing, Memory};
use intel_lanes::lanes::Width::{Dword, Qword};
use row_names::{form_of_row, name_of_row, names_and_rows, row_at, row_named};

/// The rows of the group, named after the intrinsics.
#[derive(Clone, Copy, Debug, PartialEq, Eq)]
pub enum Loads {
    I32gatherEpi32,
    I32gatherEpi64,
    I64gatherEpi32,
    I64gatherEpi64,
    LddquSi256,
    LoadSi256,
    LoaduSi256,
    MaskI32gatherEpi32,
    MaskI32gatherEpi64,
    MaskI64gatherEpi32,
    MaskI64gatherEpi64,
    MaskloadEpi32,
    MaskloadEpi64,
    MaskstoreEpi32,
    MaskstoreEpi64,
    StoreSi256,
    StoreuSi256,
}

/// The group, in ascending order of names. A line has the row's name, the row and its form.
macro_rules! group {
    ($rule:ident $($argument:ident)*) => {
        $rule! {
            Loads $($argument)*;
            "_mm256_i32gather_epi32", I32gatherEpi32, Form::Memory(Memory::Gather(Ymm, Indexing::DwordsByDwords));
            "_mm256_i32gather_epi64", I32gatherEpi64, Form::Memory(Memory::Gather(Ymm, Indexing::QwordsByDwords));
            "_mm256_i64gather_epi32", I64gatherEpi32, Form::Memory(Memory::Gather(Ymm, Indexing::DwordsByQwords));
            "_mm256_i64gather_epi64", I64gatherEpi64, Form::Memory(Memory::Gather(Ymm, Indexing::QwordsByQwords));
            "_mm256_lddqu_si256", LddquSi256, Form::Memory(Memory::Load(Ymm, false));
            "_mm256_load_si256", LoadSi256, Form::Memory(Memory::Load(Ymm, true));
            "_mm256_loadu_si256", LoaduSi256, Form::Memory(Memory::Load(Ymm, false));
            "_mm256_mask_i32gather_epi32", MaskI32gatherEpi32, Form::Memory(Memory::MaskGather(Ymm, Indexing::DwordsByDwords));
            "_mm256_mask_i32gather_epi64", MaskI32gatherEpi64, Form::Memory(Memory::MaskGather(Ymm, Indexing::QwordsByDwords));
            "_mm256_mask_i64gather_epi32", MaskI64gatherEpi32, Form::Memory(Memory::MaskGather(Ymm, Indexing::DwordsByQwords));
            "_mm256_mask_i64gather_epi64", MaskI64gatherEpi64, Form::Memory(Memory::MaskGather(Ymm, Indexing::QwordsByQwords));
            "_mm256_maskload_epi32", MaskloadEpi32, Form::Memory(Memory::MaskLoad(Ymm, Dword));
            "_mm256_maskload_epi64", MaskloadEpi64, Form::Memory(Memory::MaskLoad(Ymm, Qword));
            "_mm256_maskstore_epi32", MaskstoreEpi32, Form::Memory(Memory::MaskStore(Ymm, Dword));
            "_mm256_maskstore_epi64", MaskstoreEpi64, Form::Memory(Memory::MaskStore(Ymm, Qword));
            "_mm256_store_si256", StoreSi256, Form::Memory(Memory::Store(Ymm, true));
            "_mm256_storeu_si256", StoreuSi256, Form::Memory(Memory::Store(Ymm, false));
        }
    };
}

static ROWS: &[(&str, WideOp)] = group!(names_and_rows WideOp);

/// How many rows the group has.
#[tactic(auto, unfolding(crate::specs::LoadsRows::loads_rows))]
pub fn count() -> usize
    ensures value { result ≡ length loads_rows }
    ensures few { result < 33 }
{
    ROWS.len()
}

/// Row `k` of the group, counted from 0.
#[tactic(auto, unfolding(crate::specs::LoadsRows::loads_rows))]
pub fn at(k: usize) -> WideOp
    requires { k < length loads_rows }
    ensures { drop k loads_rows ≡ result ∷ drop (k + 1) loads_rows }
{
    row_at(ROWS, k)
}

/// The row of that name, or None where the group has none.
pub fn find(name: &[u8]) -> Option<WideOp>
    ensures { result ≡ first_named name_of loads_rows name.now }
{
    row_named(ROWS, name)
}

/// The row's name.
pub fn name(op: Loads) -> &'static str
    ensures { result.now ≡ (loads_row op).name }
{
    group!(name_of_row op)
}

/// The row's form.
pub fn form(op: Loads) -> Form
    ensures { result ≡ (loads_row op).form }
{
    group!(form_of_row op)
}

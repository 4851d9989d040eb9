//! The rows of AVX2 on 16 bytes.

ghost use Rattle.std.specs.Prelude.{◌≡◌, ◌<◌, ◌+◌, ◌∷◌, drop, length};
ghost use Rattle.row_names.specs.Groups.{first_named};
ghost use Rattle.intel_wide.specs.Named.{name_of};
ghost use Rattle.intel_wide.specs.Avx2Rows.{avx2_row, avx2_rows};

use crate::WideOp;
use intel_forms::Form;
use intel_forms::Size::Xmm;
use intel_forms::memory::{Indexing, Memory};
use intel_lanes::blocks::{Two, TwoImm};
use intel_lanes::lanes::Width::{Byte, Dword, Qword, Word};
use intel_lanes::lanes::{Lane2, Shift};
use row_names::{form_of_row, name_of_row, names_and_rows, row_at, row_named};

/// The rows of the group, named after the intrinsics.
#[derive(Clone, Copy, Debug, PartialEq, Eq)]
pub enum Avx2 {
    BlendEpi32,
    BroadcastbEpi8,
    BroadcastdEpi32,
    BroadcastqEpi64,
    BroadcastwEpi16,
    I32gatherEpi32,
    I32gatherEpi64,
    I64gatherEpi32,
    I64gatherEpi64,
    MaskI32gatherEpi32,
    MaskI32gatherEpi64,
    MaskI64gatherEpi32,
    MaskI64gatherEpi64,
    MaskloadEpi32,
    MaskloadEpi64,
    MaskstoreEpi32,
    MaskstoreEpi64,
    SllvEpi32,
    SllvEpi64,
    SravEpi32,
    SrlvEpi32,
    SrlvEpi64,
}

/// The group, in ascending order of names. A line has the row's name, the row and its form.
macro_rules! group {
    ($rule:ident $($argument:ident)*) => {
        $rule! {
            Avx2 $($argument)*;
            "_mm_blend_epi32", BlendEpi32, Form::TwoImm(Xmm, TwoImm::BlendDwords);
            "_mm_broadcastb_epi8", BroadcastbEpi8, Form::Broadcast(Xmm, Byte);
            "_mm_broadcastd_epi32", BroadcastdEpi32, Form::Broadcast(Xmm, Dword);
            "_mm_broadcastq_epi64", BroadcastqEpi64, Form::Broadcast(Xmm, Qword);
            "_mm_broadcastw_epi16", BroadcastwEpi16, Form::Broadcast(Xmm, Word);
            "_mm_i32gather_epi32", I32gatherEpi32, Form::Memory(Memory::Gather(Xmm, Indexing::DwordsByDwords));
            "_mm_i32gather_epi64", I32gatherEpi64, Form::Memory(Memory::Gather(Xmm, Indexing::QwordsByDwords));
            "_mm_i64gather_epi32", I64gatherEpi32, Form::Memory(Memory::Gather(Xmm, Indexing::DwordsByQwords));
            "_mm_i64gather_epi64", I64gatherEpi64, Form::Memory(Memory::Gather(Xmm, Indexing::QwordsByQwords));
            "_mm_mask_i32gather_epi32", MaskI32gatherEpi32, Form::Memory(Memory::MaskGather(Xmm, Indexing::DwordsByDwords));
            "_mm_mask_i32gather_epi64", MaskI32gatherEpi64, Form::Memory(Memory::MaskGather(Xmm, Indexing::QwordsByDwords));
            "_mm_mask_i64gather_epi32", MaskI64gatherEpi32, Form::Memory(Memory::MaskGather(Xmm, Indexing::DwordsByQwords));
            "_mm_mask_i64gather_epi64", MaskI64gatherEpi64, Form::Memory(Memory::MaskGather(Xmm, Indexing::QwordsByQwords));
            "_mm_maskload_epi32", MaskloadEpi32, Form::Memory(Memory::MaskLoad(Xmm, Dword));
            "_mm_maskload_epi64", MaskloadEpi64, Form::Memory(Memory::MaskLoad(Xmm, Qword));
            "_mm_maskstore_epi32", MaskstoreEpi32, Form::Memory(Memory::MaskStore(Xmm, Dword));
            "_mm_maskstore_epi64", MaskstoreEpi64, Form::Memory(Memory::MaskStore(Xmm, Qword));
            "_mm_sllv_epi32", SllvEpi32, Form::Two(Xmm, Two::Lanes(Lane2::ShiftBy(Shift::Left), Dword));
            "_mm_sllv_epi64", SllvEpi64, Form::Two(Xmm, Two::Lanes(Lane2::ShiftBy(Shift::Left), Qword));
            "_mm_srav_epi32", SravEpi32, Form::Two(Xmm, Two::Lanes(Lane2::ShiftBy(Shift::Arithmetic), Dword));
            "_mm_srlv_epi32", SrlvEpi32, Form::Two(Xmm, Two::Lanes(Lane2::ShiftBy(Shift::Right), Dword));
            "_mm_srlv_epi64", SrlvEpi64, Form::Two(Xmm, Two::Lanes(Lane2::ShiftBy(Shift::Right), Qword));
        }
    };
}

static ROWS: &[(&str, WideOp)] = group!(names_and_rows WideOp);

/// How many rows the group has.
#[tactic(auto, unfolding(crate::specs::Avx2Rows::avx2_rows))]
pub fn count() -> usize
    ensures value { result ≡ length avx2_rows }
    ensures few { result < 33 }
{
    ROWS.len()
}

/// Row `k` of the group, counted from 0.
#[tactic(auto, unfolding(crate::specs::Avx2Rows::avx2_rows))]
pub fn at(k: usize) -> WideOp
    requires { k < length avx2_rows }
    ensures { drop k avx2_rows ≡ result ∷ drop (k + 1) avx2_rows }
{
    row_at(ROWS, k)
}

/// The row of that name, or None where the group has none.
pub fn find(name: &[u8]) -> Option<WideOp>
    ensures { result ≡ first_named name_of avx2_rows name.now }
{
    row_named(ROWS, name)
}

/// The row's name.
pub fn name(op: Avx2) -> &'static str
    ensures { result.now ≡ (avx2_row op).name }
{
    group!(name_of_row op)
}

/// The row's form.
pub fn form(op: Avx2) -> Form
    ensures { result ≡ (avx2_row op).form }
{
    group!(form_of_row op)
}

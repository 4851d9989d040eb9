//! The rows that narrow elements.

ghost use Rattle.std.specs.Prelude.{◌≡◌, ◌<◌, ◌+◌, ◌∷◌, drop, length};
ghost use Rattle.row_names.specs.Groups.{first_named};
ghost use Rattle.neon_move.specs.Named.{name_of};
ghost use Rattle.neon_move.specs.NarrowedRows.{narrowed_row, narrowed_rows};

use crate::MoveOp;
use neon_elements::elements::Narrowing;
use neon_forms::{Form, Narrow};
use row_names::{form_of_row, name_of_row, names_and_rows, row_at, row_named};

/// The rows of the group, named after the intrinsics.
#[derive(Clone, Copy, Debug, PartialEq, Eq)]
pub enum Narrowed {
    VmovnS16,
    VmovnS32,
    VmovnS64,
    VmovnU16,
    VmovnU32,
    VmovnU64,
    VqmovnS16,
    VqmovnS32,
    VqmovnU16,
    VqmovnU32,
    VqmovunS16,
    VqmovunS32,
    VrshrnNS16,
    VrshrnNS32,
    VrshrnNS64,
    VrshrnNU16,
    VrshrnNU32,
    VrshrnNU64,
    VshrnNS16,
    VshrnNS32,
    VshrnNS64,
    VshrnNU16,
    VshrnNU32,
    VshrnNU64,
}

/// The group, in ascending order of names. A line has the row's name, the row and its form.
macro_rules! group {
    ($rule:ident $($argument:ident)*) => {
        $rule! {
            Narrowed $($argument)*;
            "vmovn_s16", VmovnS16, Form::Narrowed(Narrowing::Low, Narrow::S8);
            "vmovn_s32", VmovnS32, Form::Narrowed(Narrowing::Low, Narrow::S16);
            "vmovn_s64", VmovnS64, Form::Narrowed(Narrowing::Low, Narrow::S32);
            "vmovn_u16", VmovnU16, Form::Narrowed(Narrowing::Low, Narrow::U8);
            "vmovn_u32", VmovnU32, Form::Narrowed(Narrowing::Low, Narrow::U16);
            "vmovn_u64", VmovnU64, Form::Narrowed(Narrowing::Low, Narrow::U32);
            "vqmovn_s16", VqmovnS16, Form::Narrowed(Narrowing::Saturate, Narrow::S8);
            "vqmovn_s32", VqmovnS32, Form::Narrowed(Narrowing::Saturate, Narrow::S16);
            "vqmovn_u16", VqmovnU16, Form::Narrowed(Narrowing::Saturate, Narrow::U8);
            "vqmovn_u32", VqmovnU32, Form::Narrowed(Narrowing::Saturate, Narrow::U16);
            "vqmovun_s16", VqmovunS16, Form::NarrowedUnsigned(Narrow::S8);
            "vqmovun_s32", VqmovunS32, Form::NarrowedUnsigned(Narrow::S16);
            "vrshrn_n_s16", VrshrnNS16, Form::ShiftNarrowed(true, Narrow::S8);
            "vrshrn_n_s32", VrshrnNS32, Form::ShiftNarrowed(true, Narrow::S16);
            "vrshrn_n_s64", VrshrnNS64, Form::ShiftNarrowed(true, Narrow::S32);
            "vrshrn_n_u16", VrshrnNU16, Form::ShiftNarrowed(true, Narrow::U8);
            "vrshrn_n_u32", VrshrnNU32, Form::ShiftNarrowed(true, Narrow::U16);
            "vrshrn_n_u64", VrshrnNU64, Form::ShiftNarrowed(true, Narrow::U32);
            "vshrn_n_s16", VshrnNS16, Form::ShiftNarrowed(false, Narrow::S8);
            "vshrn_n_s32", VshrnNS32, Form::ShiftNarrowed(false, Narrow::S16);
            "vshrn_n_s64", VshrnNS64, Form::ShiftNarrowed(false, Narrow::S32);
            "vshrn_n_u16", VshrnNU16, Form::ShiftNarrowed(false, Narrow::U8);
            "vshrn_n_u32", VshrnNU32, Form::ShiftNarrowed(false, Narrow::U16);
            "vshrn_n_u64", VshrnNU64, Form::ShiftNarrowed(false, Narrow::U32);
        }
    };
}

static ROWS: &[(&str, MoveOp)] = group!(names_and_rows MoveOp);

/// How many rows the group has.
#[tactic(auto, unfolding(crate::specs::NarrowedRows::narrowed_rows))]
pub fn count() -> usize
    ensures value { result ≡ length narrowed_rows }
    ensures few { result < 33 }
{
    ROWS.len()
}

/// Row `k` of the group, counted from 0.
#[tactic(auto, unfolding(crate::specs::NarrowedRows::narrowed_rows))]
pub fn at(k: usize) -> MoveOp
    requires { k < length narrowed_rows }
    ensures { drop k narrowed_rows ≡ result ∷ drop (k + 1) narrowed_rows }
{
    row_at(ROWS, k)
}

/// The row of that name, or None where the group has none.
pub fn find(name: &[u8]) -> Option<MoveOp>
    ensures { result ≡ first_named name_of narrowed_rows name.now }
{
    row_named(ROWS, name)
}

/// The row's name.
pub fn name(op: Narrowed) -> &'static str
    ensures { result.now ≡ (narrowed_row op).name }
{
    group!(name_of_row op)
}

/// The row's form.
pub fn form(op: Narrowed) -> Form
    ensures { result ≡ (narrowed_row op).form }
{
    group!(form_of_row op)
}

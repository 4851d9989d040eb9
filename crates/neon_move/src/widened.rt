//! The rows that widen elements.

ghost use Rattle.std.specs.Prelude.{◌≡◌, ◌<◌, ◌+◌, ◌∷◌, drop, length};
ghost use Rattle.row_names.specs.Groups.{first_named};
ghost use Rattle.neon_move.specs.Named.{name_of};
ghost use Rattle.neon_move.specs.WidenedRows.{widened_row, widened_rows};

use crate::MoveOp;
use neon_forms::{Form, Narrow};
use row_names::{form_of_row, name_of_row, names_and_rows, row_at, row_named};

/// The rows of the group, named after the intrinsics.
#[derive(Clone, Copy, Debug, PartialEq, Eq)]
pub enum Widened {
    VmovlHighS16,
    VmovlHighS32,
    VmovlHighS8,
    VmovlHighU16,
    VmovlHighU32,
    VmovlHighU8,
    VmovlS16,
    VmovlS32,
    VmovlS8,
    VmovlU16,
    VmovlU32,
    VmovlU8,
}

/// The group, in ascending order of names. A line has the row's name, the row and its form.
macro_rules! group {
    ($rule:ident $($argument:ident)*) => {
        $rule! {
            Widened $($argument)*;
            "vmovl_high_s16", VmovlHighS16, Form::WidenHigh(Narrow::S16);
            "vmovl_high_s32", VmovlHighS32, Form::WidenHigh(Narrow::S32);
            "vmovl_high_s8", VmovlHighS8, Form::WidenHigh(Narrow::S8);
            "vmovl_high_u16", VmovlHighU16, Form::WidenHigh(Narrow::U16);
            "vmovl_high_u32", VmovlHighU32, Form::WidenHigh(Narrow::U32);
            "vmovl_high_u8", VmovlHighU8, Form::WidenHigh(Narrow::U8);
            "vmovl_s16", VmovlS16, Form::Widen(Narrow::S16);
            "vmovl_s32", VmovlS32, Form::Widen(Narrow::S32);
            "vmovl_s8", VmovlS8, Form::Widen(Narrow::S8);
            "vmovl_u16", VmovlU16, Form::Widen(Narrow::U16);
            "vmovl_u32", VmovlU32, Form::Widen(Narrow::U32);
            "vmovl_u8", VmovlU8, Form::Widen(Narrow::U8);
        }
    };
}

static ROWS: &[(&str, MoveOp)] = group!(names_and_rows MoveOp);

/// How many rows the group has.
#[tactic(auto, unfolding(crate::specs::WidenedRows::widened_rows))]
pub fn count() -> usize
    ensures value { result ≡ length widened_rows }
    ensures few { result < 33 }
{
    ROWS.len()
}

/// Row `k` of the group, counted from 0.
#[tactic(auto, unfolding(crate::specs::WidenedRows::widened_rows))]
pub fn at(k: usize) -> MoveOp
    requires { k < length widened_rows }
    ensures { drop k widened_rows ≡ result ∷ drop (k + 1) widened_rows }
{
    row_at(ROWS, k)
}

/// The row of that name, or None where the group has none.
pub fn find(name: &[u8]) -> Option<MoveOp>
    ensures { result ≡ first_named name_of widened_rows name.now }
{
    row_named(ROWS, name)
}

/// The row's name.
pub fn name(op: Widened) -> &'static str
    ensures { result.now ≡ (widened_row op).name }
{
    group!(name_of_row op)
}

/// The row's form.
pub fn form(op: Widened) -> Form
    ensures { result ≡ (widened_row op).form }
{
    group!(form_of_row op)
}

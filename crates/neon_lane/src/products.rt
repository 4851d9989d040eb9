//! The rows that multiply at twice the width, and those that add adjacent elements.

ghost use Rattle.std.specs.Prelude.{◌≡◌, ◌<◌, ◌+◌, ◌∷◌, drop, length};
ghost use Rattle.row_names.specs.Groups.{first_named};
ghost use Rattle.neon_lane.specs.Named.{name_of};
ghost use Rattle.neon_lane.specs.ProductsRows.{products_row, products_rows};

use crate::LaneOp;
use lane_core::vector::NeonLane::{S8, S16, S32, S64, U8, U16, U32, U64};
use neon_elements::elements::Long;
use neon_forms::{Form, Narrow};
use row_names::{form_of_row, name_of_row, names_and_rows, row_at, row_named};

/// The rows of the group, named after the intrinsics.
#[derive(Clone, Copy, Debug, PartialEq, Eq)]
pub enum Products {
    VmullHighS16,
    VmullHighS32,
    VmullHighS8,
    VmullHighU16,
    VmullHighU32,
    VmullHighU8,
    VmullS16,
    VmullS32,
    VmullS8,
    VmullU16,
    VmullU32,
    VmullU8,
    VpaddlqS16,
    VpaddlqS32,
    VpaddlqS8,
    VpaddlqU16,
    VpaddlqU32,
    VpaddlqU8,
    VpaddqS16,
    VpaddqS32,
    VpaddqS64,
    VpaddqS8,
    VpaddqU16,
    VpaddqU32,
    VpaddqU64,
    VpaddqU8,
}

/// The group, in ascending order of names. A line has the row's name, the row and its form.
macro_rules! group {
    ($rule:ident $($argument:ident)*) => {
        $rule! {
            Products $($argument)*;
            "vmull_high_s16", VmullHighS16, Form::LengthenHigh(Long::Product, Narrow::S16);
            "vmull_high_s32", VmullHighS32, Form::LengthenHigh(Long::Product, Narrow::S32);
            "vmull_high_s8", VmullHighS8, Form::LengthenHigh(Long::Product, Narrow::S8);
            "vmull_high_u16", VmullHighU16, Form::LengthenHigh(Long::Product, Narrow::U16);
            "vmull_high_u32", VmullHighU32, Form::LengthenHigh(Long::Product, Narrow::U32);
            "vmull_high_u8", VmullHighU8, Form::LengthenHigh(Long::Product, Narrow::U8);
            "vmull_s16", VmullS16, Form::Lengthen(Long::Product, Narrow::S16);
            "vmull_s32", VmullS32, Form::Lengthen(Long::Product, Narrow::S32);
            "vmull_s8", VmullS8, Form::Lengthen(Long::Product, Narrow::S8);
            "vmull_u16", VmullU16, Form::Lengthen(Long::Product, Narrow::U16);
            "vmull_u32", VmullU32, Form::Lengthen(Long::Product, Narrow::U32);
            "vmull_u8", VmullU8, Form::Lengthen(Long::Product, Narrow::U8);
            "vpaddlq_s16", VpaddlqS16, Form::LongPairSums(Narrow::S16);
            "vpaddlq_s32", VpaddlqS32, Form::LongPairSums(Narrow::S32);
            "vpaddlq_s8", VpaddlqS8, Form::LongPairSums(Narrow::S8);
            "vpaddlq_u16", VpaddlqU16, Form::LongPairSums(Narrow::U16);
            "vpaddlq_u32", VpaddlqU32, Form::LongPairSums(Narrow::U32);
            "vpaddlq_u8", VpaddlqU8, Form::LongPairSums(Narrow::U8);
            "vpaddq_s16", VpaddqS16, Form::PairSums(S16);
            "vpaddq_s32", VpaddqS32, Form::PairSums(S32);
            "vpaddq_s64", VpaddqS64, Form::PairSums(S64);
            "vpaddq_s8", VpaddqS8, Form::PairSums(S8);
            "vpaddq_u16", VpaddqU16, Form::PairSums(U16);
            "vpaddq_u32", VpaddqU32, Form::PairSums(U32);
            "vpaddq_u64", VpaddqU64, Form::PairSums(U64);
            "vpaddq_u8", VpaddqU8, Form::PairSums(U8);
        }
    };
}

static ROWS: &[(&str, LaneOp)] = group!(names_and_rows LaneOp);

/// How many rows the group has.
#[tactic(auto, unfolding(crate::specs::ProductsRows::products_rows))]
pub fn count() -> usize
    ensures value { result ≡ length products_rows }
    ensures few { result < 33 }
{
    ROWS.len()
}

/// Row `k` of the group, counted from 0.
#[tactic(auto, unfolding(crate::specs::ProductsRows::products_rows))]
pub fn at(k: usize) -> LaneOp
    requires { k < length products_rows }
    ensures { drop k products_rows ≡ result ∷ drop (k + 1) products_rows }
{
    row_at(ROWS, k)
}

/// The row of that name, or None where the group has none.
pub fn find(name: &[u8]) -> Option<LaneOp>
    ensures { result ≡ first_named name_of products_rows name.now }
{
    row_named(ROWS, name)
}

/// The row's name.
pub fn name(op: Products) -> &'static str
    ensures { result.now ≡ (products_row op).name }
{
    group!(name_of_row op)
}

/// The row's form.
pub fn form(op: Products) -> Form
    ensures { result ≡ (products_row op).form }
{
    group!(form_of_row op)
}

//! The Intel rows of SSSE3 and SSE4.1 on 16 bytes: their names, forms and values, by the Intel Intrinsics Guide.
#![tactic(auto)]

ghost use Rattle.std.specs.Prelude.{◌≡◌, ◌<◌, ◌+◌, ◌∷◌, ◌++◌, drop, length};
ghost use Rattle.intel_forms.specs.Forms.{value_of};
ghost use Rattle.intel_more.specs.Named.{name_of, form_of};
ghost use Rattle.intel_more.specs.Rows.{rows, find_of};
ghost use Rattle.intel_more.specs.ArithmeticRows.{arithmetic_rows};
ghost use Rattle.intel_more.specs.MovesRows.{moves_rows};
ghost use Rattle.intel_more.specs.ScalarsRows.{scalars_rows};

pub mod arithmetic;
pub mod moves;
pub mod scalars;

use intel_forms::Form;
use lane_core::table::Arg;

/// A row, by the group that has it.
#[derive(Clone, Copy, Debug, PartialEq, Eq)]
pub enum MoreOp {
    Arithmetic(arithmetic::Arithmetic),
    Moves(moves::Moves),
    Scalars(scalars::Scalars),
}

/// The row of that name, or None where the list has none.
#[tactic(auto, using(row_names::specs::Groups::named_in_both))]
pub fn find(name: &[u8]) -> Option<MoreOp>
    ensures { result ≡ find_of name.now }
{
    let found = scalars::find(name);
    let found = moves::find(name).or(found);
    let found = arithmetic::find(name).or(found);
    found
}

/// How many rows the list has.
pub fn count() -> usize
    ensures value { result ≡ length rows }
    ensures few { result < 1024 }
{
    arithmetic::count() + moves::count() + scalars::count()
}

/// Row `k` of the list, counted from 0.
pub fn at(k: usize) -> MoreOp
    requires { k < length rows }
    ensures { drop k rows ≡ result ∷ drop (k + 1) rows }
{
    from_arithmetic(k)
}

/// Row `k` of the groups from `arithmetic` on.
#[tactic(auto, using(row_names::proofs::Listed::in_first, row_names::proofs::Listed::behind_first))]
fn from_arithmetic(k: usize) -> MoreOp
    requires { k < length (arithmetic_rows ++ (moves_rows ++ scalars_rows)) }
    ensures { drop k (arithmetic_rows ++ (moves_rows ++ scalars_rows)) ≡ result ∷ drop (k + 1) (arithmetic_rows ++ (moves_rows ++ scalars_rows)) }
{
    let first = arithmetic::count();
    if k < first {
        arithmetic::at(k)
    } else {
        from_moves(k - first)
    }
}

/// Row `k` of the groups from `moves` on.
#[tactic(auto, using(row_names::proofs::Listed::in_first, row_names::proofs::Listed::behind_first))]
fn from_moves(k: usize) -> MoreOp
    requires { k < length (moves_rows ++ scalars_rows) }
    ensures { drop k (moves_rows ++ scalars_rows) ≡ result ∷ drop (k + 1) (moves_rows ++ scalars_rows) }
{
    let first = moves::count();
    if k < first {
        moves::at(k)
    } else {
        scalars::at(k - first)
    }
}

/// The row's name.
pub fn name(op: MoreOp) -> &'static str
    ensures { result.now ≡ name_of op }
{
    match op {
        MoreOp::Arithmetic(row) => arithmetic::name(row),
        MoreOp::Moves(row) => moves::name(row),
        MoreOp::Scalars(row) => scalars::name(row),
    }
}

/// The row's form, which says its signature, range, accesses and value.
pub fn form(op: MoreOp) -> Form
    ensures { result ≡ form_of op }
{
    match op {
        MoreOp::Arithmetic(row) => arithmetic::form(row),
        MoreOp::Moves(row) => moves::form(row),
        MoreOp::Scalars(row) => scalars::form(row),
    }
}

/// The row's value; of a storing row the register from which it stores.
pub fn eval(op: MoreOp, args: &[Arg], imm: u16) -> Arg
    ensures { result ≡ value_of (form_of op) args.now imm }
{
    intel_forms::value(form(op), args, imm)
}

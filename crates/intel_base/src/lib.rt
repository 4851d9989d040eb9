//! The Intel rows of SSE2 and SSE3 on 16 bytes: their names, forms and values, by the Intel Intrinsics Guide.
#![tactic(auto)]

ghost use Rattle.std.specs.Prelude.{◌≡◌, ◌<◌, ◌+◌, ◌∷◌, ◌++◌, drop, length};
ghost use Rattle.intel_forms.specs.Forms.{value_of};
ghost use Rattle.intel_base.specs.Named.{name_of, form_of};
ghost use Rattle.intel_base.specs.Rows.{rows, find_of};
ghost use Rattle.intel_base.specs.ArithmeticRows.{arithmetic_rows};
ghost use Rattle.intel_base.specs.LogicRows.{logic_rows};
ghost use Rattle.intel_base.specs.MovesRows.{moves_rows};
ghost use Rattle.intel_base.specs.ScalarsRows.{scalars_rows};
ghost use Rattle.intel_base.specs.LoadsRows.{loads_rows};

pub mod arithmetic;
pub mod loads;
pub mod logic;
pub mod moves;
pub mod scalars;

use intel_forms::Form;
use lane_core::table::Arg;

/// A row, by the group that has it.
#[derive(Clone, Copy, Debug, PartialEq, Eq)]
pub enum BaseOp {
    Arithmetic(arithmetic::Arithmetic),
    Logic(logic::Logic),
    Moves(moves::Moves),
    Scalars(scalars::Scalars),
    Loads(loads::Loads),
}

/// The row of that name, or None where the list has none.
#[tactic(auto, using(row_names::specs::Groups::named_in_both))]
pub fn find(name: &[u8]) -> Option<BaseOp>
    ensures { result ≡ find_of name.now }
{
    let found = loads::find(name);
    let found = scalars::find(name).or(found);
    let found = moves::find(name).or(found);
    let found = logic::find(name).or(found);
    let found = arithmetic::find(name).or(found);
    found
}

/// How many rows the list has.
pub fn count() -> usize
    ensures value { result ≡ length rows }
    ensures few { result < 1024 }
{
    arithmetic::count() + logic::count() + moves::count() + scalars::count() + loads::count()
}

/// Row `k` of the list, counted from 0.
pub fn at(k: usize) -> BaseOp
    requires { k < length rows }
    ensures { drop k rows ≡ result ∷ drop (k + 1) rows }
{
    from_arithmetic(k)
}

/// Row `k` of the groups from `arithmetic` on.
#[tactic(auto, using(row_names::proofs::Listed::in_first, row_names::proofs::Listed::behind_first))]
fn from_arithmetic(k: usize) -> BaseOp
    requires { k < length (arithmetic_rows ++ (logic_rows ++ (moves_rows ++ (scalars_rows ++ loads_rows)))) }
    ensures { drop k (arithmetic_rows ++ (logic_rows ++ (moves_rows ++ (scalars_rows ++ loads_rows)))) ≡ result ∷ drop (k + 1) (arithmetic_rows ++ (logic_rows ++ (moves_rows ++ (scalars_rows ++ loads_rows)))) }
{
    let first = arithmetic::count();
    if k < first {
        arithmetic::at(k)
    } else {
        from_logic(k - first)
    }
}

/// Row `k` of the groups from `logic` on.
#[tactic(auto, using(row_names::proofs::Listed::in_first, row_names::proofs::Listed::behind_first))]
fn from_logic(k: usize) -> BaseOp
    requires { k < length (logic_rows ++ (moves_rows ++ (scalars_rows ++ loads_rows))) }
    ensures { drop k (logic_rows ++ (moves_rows ++ (scalars_rows ++ loads_rows))) ≡ result ∷ drop (k + 1) (logic_rows ++ (moves_rows ++ (scalars_rows ++ loads_rows))) }
{
    let first = logic::count();
    if k < first {
        logic::at(k)
    } else {
        from_moves(k - first)
    }
}

/// Row `k` of the groups from `moves` on.
#[tactic(auto, using(row_names::proofs::Listed::in_first, row_names::proofs::Listed::behind_first))]
fn from_moves(k: usize) -> BaseOp
    requires { k < length (moves_rows ++ (scalars_rows ++ loads_rows)) }
    ensures { drop k (moves_rows ++ (scalars_rows ++ loads_rows)) ≡ result ∷ drop (k + 1) (moves_rows ++ (scalars_rows ++ loads_rows)) }
{
    let first = moves::count();
    if k < first {
        moves::at(k)
    } else {
        from_scalars(k - first)
    }
}

/// Row `k` of the groups from `scalars` on.
#[tactic(auto, using(row_names::proofs::Listed::in_first, row_names::proofs::Listed::behind_first))]
fn from_scalars(k: usize) -> BaseOp
    requires { k < length (scalars_rows ++ loads_rows) }
    ensures { drop k (scalars_rows ++ loads_rows) ≡ result ∷ drop (k + 1) (scalars_rows ++ loads_rows) }
{
    let first = scalars::count();
    if k < first {
        scalars::at(k)
    } else {
        loads::at(k - first)
    }
}

/// The row's name.
pub fn name(op: BaseOp) -> &'static str
    ensures { result.now ≡ name_of op }
{
    match op {
        BaseOp::Arithmetic(row) => arithmetic::name(row),
        BaseOp::Logic(row) => logic::name(row),
        BaseOp::Moves(row) => moves::name(row),
        BaseOp::Scalars(row) => scalars::name(row),
        BaseOp::Loads(row) => loads::name(row),
    }
}

/// The row's form, which says its signature, range, accesses and value.
pub fn form(op: BaseOp) -> Form
    ensures { result ≡ form_of op }
{
    match op {
        BaseOp::Arithmetic(row) => arithmetic::form(row),
        BaseOp::Logic(row) => logic::form(row),
        BaseOp::Moves(row) => moves::form(row),
        BaseOp::Scalars(row) => scalars::form(row),
        BaseOp::Loads(row) => loads::form(row),
    }
}

/// The row's value; of a storing row the register from which it stores.
pub fn eval(op: BaseOp, args: &[Arg], imm: u16) -> Arg
    ensures { result ≡ value_of (form_of op) args.now imm }
{
    intel_forms::value(form(op), args, imm)
}

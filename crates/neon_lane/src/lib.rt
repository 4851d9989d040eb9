//! The Neon rows that compute element by element: their names, forms and values, by the Arm Neon Intrinsics Reference.
#![tactic(auto)]

ghost use Rattle.std.specs.Prelude.{◌≡◌, ◌<◌, ◌+◌, ◌∷◌, ◌++◌, drop, length};
ghost use Rattle.neon_forms.specs.Values.{value_of};
ghost use Rattle.neon_lane.specs.Named.{name_of, form_of};
ghost use Rattle.neon_lane.specs.Rows.{rows, find_of};
ghost use Rattle.neon_lane.specs.ArithmeticRows.{arithmetic_rows};
ghost use Rattle.neon_lane.specs.SaturatingRows.{saturating_rows};
ghost use Rattle.neon_lane.specs.ExtremesRows.{extremes_rows};
ghost use Rattle.neon_lane.specs.LogicRows.{logic_rows};
ghost use Rattle.neon_lane.specs.ChoicesRows.{choices_rows};
ghost use Rattle.neon_lane.specs.ShiftsRows.{shifts_rows};
ghost use Rattle.neon_lane.specs.ProductsRows.{products_rows};

pub mod arithmetic;
pub mod choices;
pub mod extremes;
pub mod logic;
pub mod products;
pub mod saturating;
pub mod shifts;

use lane_core::table::Arg;
use neon_forms::Form;

/// A row, by the group that has it.
#[derive(Clone, Copy, Debug, PartialEq, Eq)]
pub enum LaneOp {
    Arithmetic(arithmetic::Arithmetic),
    Saturating(saturating::Saturating),
    Extremes(extremes::Extremes),
    Logic(logic::Logic),
    Choices(choices::Choices),
    Shifts(shifts::Shifts),
    Products(products::Products),
}

/// The row of that name, or None where the list has none.
#[tactic(auto, using(row_names::specs::Groups::named_in_both))]
pub fn find(name: &[u8]) -> Option<LaneOp>
    ensures { result ≡ find_of name.now }
{
    let found = products::find(name);
    let found = shifts::find(name).or(found);
    let found = choices::find(name).or(found);
    let found = logic::find(name).or(found);
    let found = extremes::find(name).or(found);
    let found = saturating::find(name).or(found);
    let found = arithmetic::find(name).or(found);
    found
}

/// How many rows the list has.
pub fn count() -> usize
    ensures value { result ≡ length rows }
    ensures few { result < 1024 }
{
    arithmetic::count()
        + saturating::count()
        + extremes::count()
        + logic::count()
        + choices::count()
        + shifts::count()
        + products::count()
}

/// Row `k` of the list, counted from 0.
pub fn at(k: usize) -> LaneOp
    requires { k < length rows }
    ensures { drop k rows ≡ result ∷ drop (k + 1) rows }
{
    from_arithmetic(k)
}

/// Row `k` of the groups from `arithmetic` on.
#[tactic(auto, using(row_names::proofs::Listed::in_first, row_names::proofs::Listed::behind_first))]
fn from_arithmetic(k: usize) -> LaneOp
    requires { k < length (arithmetic_rows ++ (saturating_rows ++ (extremes_rows ++ (logic_rows ++ (choices_rows ++ (shifts_rows ++ products_rows)))))) }
    ensures { drop k (arithmetic_rows ++ (saturating_rows ++ (extremes_rows ++ (logic_rows ++ (choices_rows ++ (shifts_rows ++ products_rows)))))) ≡ result ∷ drop (k + 1) (arithmetic_rows ++ (saturating_rows ++ (extremes_rows ++ (logic_rows ++ (choices_rows ++ (shifts_rows ++ products_rows)))))) }
{
    let first = arithmetic::count();
    if k < first {
        arithmetic::at(k)
    } else {
        from_saturating(k - first)
    }
}

/// Row `k` of the groups from `saturating` on.
#[tactic(auto, using(row_names::proofs::Listed::in_first, row_names::proofs::Listed::behind_first))]
fn from_saturating(k: usize) -> LaneOp
    requires { k < length (saturating_rows ++ (extremes_rows ++ (logic_rows ++ (choices_rows ++ (shifts_rows ++ products_rows))))) }
    ensures { drop k (saturating_rows ++ (extremes_rows ++ (logic_rows ++ (choices_rows ++ (shifts_rows ++ products_rows))))) ≡ result ∷ drop (k + 1) (saturating_rows ++ (extremes_rows ++ (logic_rows ++ (choices_rows ++ (shifts_rows ++ products_rows))))) }
{
    let first = saturating::count();
    if k < first {
        saturating::at(k)
    } else {
        from_extremes(k - first)
    }
}

/// Row `k` of the groups from `extremes` on.
#[tactic(auto, using(row_names::proofs::Listed::in_first, row_names::proofs::Listed::behind_first))]
fn from_extremes(k: usize) -> LaneOp
    requires { k < length (extremes_rows ++ (logic_rows ++ (choices_rows ++ (shifts_rows ++ products_rows)))) }
    ensures { drop k (extremes_rows ++ (logic_rows ++ (choices_rows ++ (shifts_rows ++ products_rows)))) ≡ result ∷ drop (k + 1) (extremes_rows ++ (logic_rows ++ (choices_rows ++ (shifts_rows ++ products_rows)))) }
{
    let first = extremes::count();
    if k < first {
        extremes::at(k)
    } else {
        from_logic(k - first)
    }
}

/// Row `k` of the groups from `logic` on.
#[tactic(auto, using(row_names::proofs::Listed::in_first, row_names::proofs::Listed::behind_first))]
fn from_logic(k: usize) -> LaneOp
    requires { k < length (logic_rows ++ (choices_rows ++ (shifts_rows ++ products_rows))) }
    ensures { drop k (logic_rows ++ (choices_rows ++ (shifts_rows ++ products_rows))) ≡ result ∷ drop (k + 1) (logic_rows ++ (choices_rows ++ (shifts_rows ++ products_rows))) }
{
    let first = logic::count();
    if k < first {
        logic::at(k)
    } else {
        from_choices(k - first)
    }
}

/// Row `k` of the groups from `choices` on.
#[tactic(auto, using(row_names::proofs::Listed::in_first, row_names::proofs::Listed::behind_first))]
fn from_choices(k: usize) -> LaneOp
    requires { k < length (choices_rows ++ (shifts_rows ++ products_rows)) }
    ensures { drop k (choices_rows ++ (shifts_rows ++ products_rows)) ≡ result ∷ drop (k + 1) (choices_rows ++ (shifts_rows ++ products_rows)) }
{
    let first = choices::count();
    if k < first {
        choices::at(k)
    } else {
        from_shifts(k - first)
    }
}

/// Row `k` of the groups from `shifts` on.
#[tactic(auto, using(row_names::proofs::Listed::in_first, row_names::proofs::Listed::behind_first))]
fn from_shifts(k: usize) -> LaneOp
    requires { k < length (shifts_rows ++ products_rows) }
    ensures { drop k (shifts_rows ++ products_rows) ≡ result ∷ drop (k + 1) (shifts_rows ++ products_rows) }
{
    let first = shifts::count();
    if k < first {
        shifts::at(k)
    } else {
        products::at(k - first)
    }
}

/// The row's name.
pub fn name(op: LaneOp) -> &'static str
    ensures { result.now ≡ name_of op }
{
    match op {
        LaneOp::Arithmetic(row) => arithmetic::name(row),
        LaneOp::Saturating(row) => saturating::name(row),
        LaneOp::Extremes(row) => extremes::name(row),
        LaneOp::Logic(row) => logic::name(row),
        LaneOp::Choices(row) => choices::name(row),
        LaneOp::Shifts(row) => shifts::name(row),
        LaneOp::Products(row) => products::name(row),
    }
}

/// The row's form, which says its signature, range, accesses and value.
pub fn form(op: LaneOp) -> Form
    ensures { result ≡ form_of op }
{
    match op {
        LaneOp::Arithmetic(row) => arithmetic::form(row),
        LaneOp::Saturating(row) => saturating::form(row),
        LaneOp::Extremes(row) => extremes::form(row),
        LaneOp::Logic(row) => logic::form(row),
        LaneOp::Choices(row) => choices::form(row),
        LaneOp::Shifts(row) => shifts::form(row),
        LaneOp::Products(row) => products::form(row),
    }
}

/// The row's value, for its arguments and its constant; of a storing row the bytes to be written.
pub fn eval(op: LaneOp, args: &[Arg], n: u16) -> Arg
    ensures { result ≡ value_of (form_of op) args.now n }
{
    neon_forms::value(form(op), args, n)
}

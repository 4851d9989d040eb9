//! The Intel rows on 32 bytes and those of AVX2 on 16: their names, forms and values, by the Intel Intrinsics Guide.
#![tactic(auto)]

ghost use Rattle.std.specs.Prelude.{◌≡◌, ◌<◌, ◌+◌, ◌∷◌, ◌++◌, drop, length};
ghost use Rattle.intel_forms.specs.Forms.{value_of};
ghost use Rattle.intel_wide.specs.Named.{name_of, form_of};
ghost use Rattle.intel_wide.specs.Rows.{rows, find_of};
ghost use Rattle.intel_wide.specs.Avx2Rows.{avx2_rows};
ghost use Rattle.intel_wide.specs.ArithmeticRows.{arithmetic_rows};
ghost use Rattle.intel_wide.specs.MoreArithmeticRows.{more_arithmetic_rows};
ghost use Rattle.intel_wide.specs.LogicRows.{logic_rows};
ghost use Rattle.intel_wide.specs.ShiftsRows.{shifts_rows};
ghost use Rattle.intel_wide.specs.MovesRows.{moves_rows};
ghost use Rattle.intel_wide.specs.CrossingRows.{crossing_rows};
ghost use Rattle.intel_wide.specs.ScalarsRows.{scalars_rows};
ghost use Rattle.intel_wide.specs.LoadsRows.{loads_rows};

pub mod arithmetic;
pub mod avx2;
pub mod crossing;
pub mod half;
pub mod loads;
pub mod logic;
pub mod more_arithmetic;
pub mod moves;
pub mod scalars;
pub mod shifts;

use intel_forms::Form;
use lane_core::table::Arg;

/// A row, by the group that has it.
#[derive(Clone, Copy, Debug, PartialEq, Eq)]
pub enum WideOp {
    Avx2(avx2::Avx2),
    Arithmetic(arithmetic::Arithmetic),
    MoreArithmetic(more_arithmetic::MoreArithmetic),
    Logic(logic::Logic),
    Shifts(shifts::Shifts),
    Moves(moves::Moves),
    Crossing(crossing::Crossing),
    Scalars(scalars::Scalars),
    Loads(loads::Loads),
    Half(half::Half),
}

/// The row of that name, or None where the list has none.
#[tactic(auto, using(row_names::specs::Groups::named_in_both))]
pub fn find(name: &[u8]) -> Option<WideOp>
    ensures { result ≡ find_of name.now }
{
    let found = loads::find(name);
    let found = scalars::find(name).or(found);
    let found = crossing::find(name).or(found);
    let found = moves::find(name).or(found);
    let found = shifts::find(name).or(found);
    let found = logic::find(name).or(found);
    let found = more_arithmetic::find(name).or(found);
    let found = arithmetic::find(name).or(found);
    let found = avx2::find(name).or(found);
    found
}

/// How many rows the list has.
pub fn count() -> usize
    ensures value { result ≡ length rows }
    ensures few { result < 1024 }
{
    avx2::count()
        + arithmetic::count()
        + more_arithmetic::count()
        + logic::count()
        + shifts::count()
        + moves::count()
        + crossing::count()
        + scalars::count()
        + loads::count()
}

/// Row `k` of the list, counted from 0.
pub fn at(k: usize) -> WideOp
    requires { k < length rows }
    ensures { drop k rows ≡ result ∷ drop (k + 1) rows }
{
    from_avx2(k)
}

/// Row `k` of the groups from `avx2` on.
#[tactic(auto, using(row_names::proofs::Listed::in_first, row_names::proofs::Listed::behind_first))]
fn from_avx2(k: usize) -> WideOp
    requires { k < length (avx2_rows ++ (arithmetic_rows ++ (more_arithmetic_rows ++ (logic_rows ++ (shifts_rows ++ (moves_rows ++ (crossing_rows ++ (scalars_rows ++ loads_rows)))))))) }
    ensures { drop k (avx2_rows ++ (arithmetic_rows ++ (more_arithmetic_rows ++ (logic_rows ++ (shifts_rows ++ (moves_rows ++ (crossing_rows ++ (scalars_rows ++ loads_rows)))))))) ≡ result ∷ drop (k + 1) (avx2_rows ++ (arithmetic_rows ++ (more_arithmetic_rows ++ (logic_rows ++ (shifts_rows ++ (moves_rows ++ (crossing_rows ++ (scalars_rows ++ loads_rows)))))))) }
{
    let first = avx2::count();
    if k < first {
        avx2::at(k)
    } else {
        from_arithmetic(k - first)
    }
}

/// Row `k` of the groups from `arithmetic` on.
#[tactic(auto, using(row_names::proofs::Listed::in_first, row_names::proofs::Listed::behind_first))]
fn from_arithmetic(k: usize) -> WideOp
    requires { k < length (arithmetic_rows ++ (more_arithmetic_rows ++ (logic_rows ++ (shifts_rows ++ (moves_rows ++ (crossing_rows ++ (scalars_rows ++ loads_rows))))))) }
    ensures { drop k (arithmetic_rows ++ (more_arithmetic_rows ++ (logic_rows ++ (shifts_rows ++ (moves_rows ++ (crossing_rows ++ (scalars_rows ++ loads_rows))))))) ≡ result ∷ drop (k + 1) (arithmetic_rows ++ (more_arithmetic_rows ++ (logic_rows ++ (shifts_rows ++ (moves_rows ++ (crossing_rows ++ (scalars_rows ++ loads_rows))))))) }
{
    let first = arithmetic::count();
    if k < first {
        arithmetic::at(k)
    } else {
        from_more_arithmetic(k - first)
    }
}

/// Row `k` of the groups from `more_arithmetic` on.
#[tactic(auto, using(row_names::proofs::Listed::in_first, row_names::proofs::Listed::behind_first))]
fn from_more_arithmetic(k: usize) -> WideOp
    requires { k < length (more_arithmetic_rows ++ (logic_rows ++ (shifts_rows ++ (moves_rows ++ (crossing_rows ++ (scalars_rows ++ loads_rows)))))) }
    ensures { drop k (more_arithmetic_rows ++ (logic_rows ++ (shifts_rows ++ (moves_rows ++ (crossing_rows ++ (scalars_rows ++ loads_rows)))))) ≡ result ∷ drop (k + 1) (more_arithmetic_rows ++ (logic_rows ++ (shifts_rows ++ (moves_rows ++ (crossing_rows ++ (scalars_rows ++ loads_rows)))))) }
{
    let first = more_arithmetic::count();
    if k < first {
        more_arithmetic::at(k)
    } else {
        from_logic(k - first)
    }
}

/// Row `k` of the groups from `logic` on.
#[tactic(auto, using(row_names::proofs::Listed::in_first, row_names::proofs::Listed::behind_first))]
fn from_logic(k: usize) -> WideOp
    requires { k < length (logic_rows ++ (shifts_rows ++ (moves_rows ++ (crossing_rows ++ (scalars_rows ++ loads_rows))))) }
    ensures { drop k (logic_rows ++ (shifts_rows ++ (moves_rows ++ (crossing_rows ++ (scalars_rows ++ loads_rows))))) ≡ result ∷ drop (k + 1) (logic_rows ++ (shifts_rows ++ (moves_rows ++ (crossing_rows ++ (scalars_rows ++ loads_rows))))) }
{
    let first = logic::count();
    if k < first {
        logic::at(k)
    } else {
        from_shifts(k - first)
    }
}

/// Row `k` of the groups from `shifts` on.
#[tactic(auto, using(row_names::proofs::Listed::in_first, row_names::proofs::Listed::behind_first))]
fn from_shifts(k: usize) -> WideOp
    requires { k < length (shifts_rows ++ (moves_rows ++ (crossing_rows ++ (scalars_rows ++ loads_rows)))) }
    ensures { drop k (shifts_rows ++ (moves_rows ++ (crossing_rows ++ (scalars_rows ++ loads_rows)))) ≡ result ∷ drop (k + 1) (shifts_rows ++ (moves_rows ++ (crossing_rows ++ (scalars_rows ++ loads_rows)))) }
{
    let first = shifts::count();
    if k < first {
        shifts::at(k)
    } else {
        from_moves(k - first)
    }
}

/// Row `k` of the groups from `moves` on.
#[tactic(auto, using(row_names::proofs::Listed::in_first, row_names::proofs::Listed::behind_first))]
fn from_moves(k: usize) -> WideOp
    requires { k < length (moves_rows ++ (crossing_rows ++ (scalars_rows ++ loads_rows))) }
    ensures { drop k (moves_rows ++ (crossing_rows ++ (scalars_rows ++ loads_rows))) ≡ result ∷ drop (k + 1) (moves_rows ++ (crossing_rows ++ (scalars_rows ++ loads_rows))) }
{
    let first = moves::count();
    if k < first {
        moves::at(k)
    } else {
        from_crossing(k - first)
    }
}

/// Row `k` of the groups from `crossing` on.
#[tactic(auto, using(row_names::proofs::Listed::in_first, row_names::proofs::Listed::behind_first))]
fn from_crossing(k: usize) -> WideOp
    requires { k < length (crossing_rows ++ (scalars_rows ++ loads_rows)) }
    ensures { drop k (crossing_rows ++ (scalars_rows ++ loads_rows)) ≡ result ∷ drop (k + 1) (crossing_rows ++ (scalars_rows ++ loads_rows)) }
{
    let first = crossing::count();
    if k < first {
        crossing::at(k)
    } else {
        from_scalars(k - first)
    }
}

/// Row `k` of the groups from `scalars` on.
#[tactic(auto, using(row_names::proofs::Listed::in_first, row_names::proofs::Listed::behind_first))]
fn from_scalars(k: usize) -> WideOp
    requires { k < length (scalars_rows ++ loads_rows) }
    ensures { drop k (scalars_rows ++ loads_rows) ≡ result ∷ drop (k + 1) (scalars_rows ++ loads_rows) }
{
    let first = scalars::count();
    if k < first {
        scalars::at(k)
    } else {
        loads::at(k - first)
    }
}

/// The row's name.
pub fn name(op: WideOp) -> &'static str
    ensures { result.now ≡ name_of op }
{
    match op {
        WideOp::Avx2(row) => avx2::name(row),
        WideOp::Arithmetic(row) => arithmetic::name(row),
        WideOp::MoreArithmetic(row) => more_arithmetic::name(row),
        WideOp::Logic(row) => logic::name(row),
        WideOp::Shifts(row) => shifts::name(row),
        WideOp::Moves(row) => moves::name(row),
        WideOp::Crossing(row) => crossing::name(row),
        WideOp::Scalars(row) => scalars::name(row),
        WideOp::Loads(row) => loads::name(row),
        WideOp::Half(row) => half::name(row),
    }
}

/// The row's form, which says its signature, range, accesses and value.
pub fn form(op: WideOp) -> Form
    ensures { result ≡ form_of op }
{
    match op {
        WideOp::Avx2(row) => avx2::form(row),
        WideOp::Arithmetic(row) => arithmetic::form(row),
        WideOp::MoreArithmetic(row) => more_arithmetic::form(row),
        WideOp::Logic(row) => logic::form(row),
        WideOp::Shifts(row) => shifts::form(row),
        WideOp::Moves(row) => moves::form(row),
        WideOp::Crossing(row) => crossing::form(row),
        WideOp::Scalars(row) => scalars::form(row),
        WideOp::Loads(row) => loads::form(row),
        WideOp::Half(row) => half::form(row),
    }
}

/// The row's value; of a storing row the register from which it stores.
pub fn eval(op: WideOp, args: &[Arg], imm: u16) -> Arg
    ensures { result ≡ value_of (form_of op) args.now imm }
{
    intel_forms::value(form(op), args, imm)
}

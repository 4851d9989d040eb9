//! The table of Neon rows: names, signatures, constants, accesses and values.
#![tactic(auto)]

ghost use Rattle.std.specs.Prelude.{◌≡◌, ◌<◌, ◌≤◌, ◌+◌, ◌∷◌, ◌↔◌, IsNone, IfSome, Contains, Some, drop, length, option_map};
ghost use Rattle.lane_core.specs.Table.{Fits, InImmRange};
ghost use Rattle.neon_forms.specs.Laws.{Inside};
ghost use Rattle.neon_table.specs.declared.NeonOp.{NeonOp};
ghost use Rattle.neon_table.specs.Rows.{of_lane, of_move, lane_rows, move_rows, rows, names, find_of, name_of, form_of, signature_of, range_of, accesses_of, access_of, register_of, eval_of};

use lane_core::table::{Access, Arg, ImmRange, Sig};
use neon_forms::Form;
use neon_lane::LaneOp;
use neon_move::MoveOp;

mod neon_rows;

pub use neon_rows::NeonRows;

/// A row of the table. Two values are equal exactly where their names are.
#[derive(Clone, Copy, Debug, PartialEq, Eq)]
pub struct NeonOp {
    row: Part,
}

/// A row, by the part that has it.
#[derive(Clone, Copy, Debug, PartialEq, Eq)]
enum Part {
    Lane(LaneOp),
    Move(MoveOp),
}

/// A row that computes, as one of the table.
pub fn computing(row: LaneOp) -> NeonOp
    ensures { result ≡ of_lane row }
{
    NeonOp {
        row: Part::Lane(row),
    }
}

/// A row that moves elements, loads or stores, as one of the table.
pub fn moving(row: MoveOp) -> NeonOp
    ensures { result ≡ of_move row }
{
    NeonOp {
        row: Part::Move(row),
    }
}

fn of_lane(found: Option<LaneOp>) -> Option<NeonOp>
    ensures { result ≡ option_map of_lane found }
{
    match found {
        Some(row) => Some(computing(row)),
        None => None,
    }
}

fn of_move(found: Option<MoveOp>) -> Option<NeonOp>
    ensures { result ≡ option_map of_move found }
{
    match found {
        Some(row) => Some(moving(row)),
        None => None,
    }
}

#[tactic(auto, using(crate::specs::Found::found_in_parts))]
fn found(name: &[u8]) -> Option<NeonOp>
    ensures { result ≡ find_of name.now }
{
    let moves = of_move(neon_move::find(name));
    of_lane(neon_lane::find(name)).or(moves)
}

/// The row of that name, as `vaddq_u8`, or None exactly where the list has no such name.
#[tactic(auto, using(crate::specs::Found::found_has_its_name, crate::specs::Found::none_exactly_outside))]
pub fn find(name: &[u8]) -> Option<NeonOp>
    ensures value { result ≡ find_of name.now }
    ensures named { IfSome result (λ op. name_of op ≡ name.now) }
    ensures none { IsNone result ↔ ¬ (Contains names name.now) }
{
    found(name)
}

/// How many rows the table has.
pub fn count() -> usize
    ensures { result ≡ length rows }
{
    lane_count() + move_count()
}

/// Row `k` of the table's list, counted from 0.
#[tactic(auto, using(row_names::proofs::Listed::in_first, row_names::proofs::Listed::behind_first))]
pub fn at(k: usize) -> NeonOp
    requires { k < length rows }
    ensures { drop k rows ≡ result ∷ drop (k + 1) rows }
{
    let first = lane_count();
    if k < first {
        lane_at(k)
    } else {
        move_at(k - first)
    }
}

fn lane_count() -> usize
    ensures value { result ≡ length lane_rows }
    ensures few { result < 1024 }
{
    neon_lane::count()
}

fn lane_at(k: usize) -> NeonOp
    requires { k < length lane_rows }
    ensures { drop k lane_rows ≡ result ∷ drop (k + 1) lane_rows }
{
    NeonOp {
        row: Part::Lane(neon_lane::at(k)),
    }
}

fn move_count() -> usize
    ensures value { result ≡ length move_rows }
    ensures few { result < 1024 }
{
    neon_move::count()
}

fn move_at(k: usize) -> NeonOp
    requires { k < length move_rows }
    ensures { drop k move_rows ≡ result ∷ drop (k + 1) move_rows }
{
    NeonOp {
        row: Part::Move(neon_move::at(k)),
    }
}

/// The row's name. `find` gives the row for it, and no other row has it.
#[tactic(auto, using(crate::specs::Found::found_by_name))]
pub fn name(op: NeonOp) -> &'static str
    ensures value { result.now ≡ name_of op }
    ensures found { find_of (name_of op) ≡ Some op }
    ensures alone { (other : NeonOp) → name_of other ≡ name_of op → other ≡ op }
{
    part_name(op)
}

fn part_name(op: NeonOp) -> &'static str
    ensures { result.now ≡ name_of op }
{
    match op.row {
        Part::Lane(row) => neon_lane::name(row),
        Part::Move(row) => neon_move::name(row),
    }
}

/// The row's form: what it takes, touches and gives. Rows of one form compute the same.
pub fn form(op: NeonOp) -> Form
    ensures { result ≡ form_of op }
{
    match op.row {
        Part::Lane(row) => neon_lane::form(row),
        Part::Move(row) => neon_move::form(row),
    }
}

/// The kinds of the row's parameters and result.
pub fn signature(op: NeonOp) -> Sig
    ensures value { result ≡ signature_of op }
    ensures counted { result.count ≤ 32 }
{
    let form = form(op);
    neon_forms::signature(form)
}

/// The values that the row's constant may have.
pub fn range(op: NeonOp) -> ImmRange
    ensures { result ≡ range_of op }
{
    neon_forms::range(form(op))
}

/// The number of the row's accesses to memory.
pub fn accesses(op: NeonOp) -> usize
    ensures { result ≡ accesses_of op }
{
    neon_forms::accesses(form(op))
}

/// Access `k` of the row, or None where `k` isn't below `accesses`. It lies in the row's register.
pub fn access(op: NeonOp, args: &[Arg], imm: u16, k: usize) -> Option<Access>
    ensures value { result ≡ access_of op args.now imm k }
    ensures inside { IfSome result (Inside (register_of op)) }
{
    neon_forms::access(form(op), k)
}

/// The row's value, by the instruction that the Arm Neon Intrinsics Reference gives for it; of a storing row the bytes to be written.
pub fn eval(op: NeonOp, args: &[Arg], imm: u16) -> Arg
    requires fit { Fits (signature_of op) args.now }
    requires immediate { InImmRange (range_of op) imm }
    ensures { result ≡ eval_of op args.now imm }
{
    match op.row {
        Part::Lane(row) => neon_lane::eval(row, args, imm),
        Part::Move(row) => neon_move::eval(row, args, imm),
    }
}

//! The sequence of each row.

ghost use Rattle.std.specs.Prelude.{◌≡◌, ◌≤◌, ◌*◌, ℕ, List, map, length, IfOk, Some, true};
ghost use Rattle.lane_core.specs.declared.table.Arg.{Arg};
ghost use Rattle.lane_core.specs.Table.{Fits, InImmRange, params_of};
ghost use Rattle.intel_lanes.specs.Lanes.{bytes_of};
ghost use Rattle.intel_table.specs.Rows.{form_of, signature_of, range_of, eval_of};
ghost use Rattle.neon_table.specs.Rows as neon;
ghost use Rattle.seq_core.specs.View.{view, view_seq};
ghost use Rattle.seq_core.specs.Values.{evaluated};
ghost use Rattle.seq_core.specs.Formed.{WellFormed};
ghost use Rattle.seq_core.specs.Called.{rows_called, plain};
ghost use Rattle.seq_arith.specs.Calls.{operands};
ghost use Rattle.seq_arith.specs.Plans.{shifted_by, sequence_of, ordered, for_words, by_lanes, by_count, for_sign, planned_lanes, uneven, planned_pairs, planned_two, planned, ceiling_of, is_arithmetic, plan_of};
ghost use Rattle.seq_arith.specs.Listed.{listed};

use crate::calls::{on_one, on_two, over_one, over_two};
use crate::counts::{counted_shifts, dword_shifts, qword_shifts};
use crate::products::{
    added_bytes, added_products, differences, even_products, high_words, on_uneven,
    rounded_products, signs, sums_of_four,
};
use crate::rows::{is_exchanged, pair_sums, row1, row2, shift_row};
use intel_forms::{Form, Size};
use intel_lanes::blocks::{One, OneImm, Two, TwoImm};
use intel_lanes::lanes::{Lane2, Shift, Width};
use intel_table::IntelOp;
use neon_move::MoveOp;
use neon_move::permuting::Permuting;
use neon_table::NeonOp;
use seq_core::{Seq, Term};
use std::alloc::{AllocError, Global};

/// A kind of sequences.
#[derive(Clone, Copy, Debug, PartialEq, Eq)]
enum Shape {
    /// The row of the operand.
    One(NeonOp),
    /// The row of both operands.
    Two(NeonOp),
    /// The row of both operands, the second first.
    Exchanged(NeonOp),
    /// The row of the even and the odd lanes of both operands, which two rows give.
    Uneven(MoveOp, MoveOp, NeonOp),
    /// The high words of the products of words, signed where the truth value is true.
    HighWords(bool),
    /// The products of the even dwords, signed where the truth value is true.
    EvenProducts(bool),
    /// The products of words, the two of adjacent words summed.
    AddedProducts,
    /// The differences of bytes, eight summed.
    SumDifferences,
    /// The products of words over 2^15, a half rounded up.
    RoundedProducts,
    /// The first operand times the sign of the second.
    Signs(Width),
    /// The dwords of the first operand shifted by those of the second.
    ShiftedBy(Shift),
    /// The qwords of the first operand shifted by those of the second.
    QwordsBy(Shift),
    /// The lanes of the first operand shifted by the low qword of the second.
    Counted(Shift, Width),
    /// The products of bytes without a sign and bytes with one, the two of adjacent bytes summed.
    AddedBytes,
    /// The differences of bytes, four summed, from the places that the immediate gives.
    SumsOfFour,
    /// A shift by the immediate.
    Shifted(Shift, Width),
}

/// A lane's bits.
fn bits(width: Width) -> u16
    ensures { result ≡ 8 * bytes_of width }
{
    match width {
        Width::Byte => 8,
        Width::Word => 16,
        Width::Dword => 32,
        Width::Qword => 64,
    }
}

/// The operand shifted by a constant that isn't 0.
fn shifted_by(alloc: Global, shift: Shift, width: Width, imm: u16) -> Result<Term, AllocError>
    ensures { IfOk result (λ t. view t ≡ shifted_by shift width imm) }
{
    let row = shift_row(shift, width);
    match shift {
        Shift::Left | Shift::Right => {
            if imm < bits(width) {
                on_one(alloc, row, Term::Param(0), imm)
            } else {
                Ok(Term::Const([0; 16]))
            }
        }
        Shift::Arithmetic => on_one(alloc, row, Term::Param(0), imm.min(bits(width))),
    }
}

fn shifted(alloc: Global, shift: Shift, width: Width, imm: u16) -> Result<Seq, AllocError>
    ensures { IfOk result (λ s. view_seq s ≡ sequence_of (Shape.Shifted shift width) imm) }
{
    if imm == 0 {
        over_one(alloc, Term::Param(0))
    } else {
        over_one(alloc, shifted_by(alloc, shift, width, imm)?)
    }
}

fn sequence(alloc: Global, shape: Shape, imm: u16) -> Result<Seq, AllocError>
    ensures { IfOk result (λ s. view_seq s ≡ sequence_of shape imm) }
{
    match shape {
        Shape::One(row) => over_one(alloc, on_one(alloc, row, Term::Param(0), 0)?),
        Shape::Two(row) => over_two(alloc, on_two(alloc, row, Term::Param(0), Term::Param(1))?),
        Shape::Exchanged(row) => {
            over_two(alloc, on_two(alloc, row, Term::Param(1), Term::Param(0))?)
        }
        Shape::Uneven(even, odd, row) => over_two(alloc, on_uneven(alloc, even, odd, row)?),
        Shape::HighWords(signs) => over_two(alloc, high_words(alloc, signs)?),
        Shape::EvenProducts(signs) => over_two(alloc, even_products(alloc, signs)?),
        Shape::AddedProducts => over_two(alloc, added_products(alloc)?),
        Shape::SumDifferences => over_two(alloc, differences(alloc)?),
        Shape::RoundedProducts => over_two(alloc, rounded_products(alloc)?),
        Shape::Signs(width) => over_two(alloc, signs(alloc, width)?),
        Shape::ShiftedBy(shift) => over_two(alloc, dword_shifts(alloc, shift)?),
        Shape::QwordsBy(shift) => over_two(alloc, qword_shifts(alloc, shift)?),
        Shape::Counted(shift, width) => over_two(alloc, counted_shifts(alloc, shift, width)?),
        Shape::AddedBytes => over_two(alloc, added_bytes(alloc)?),
        Shape::SumsOfFour => over_two(alloc, sums_of_four(alloc, imm)?),
        Shape::Shifted(shift, width) => shifted(alloc, shift, width, imm),
    }
}

fn ordered(exchanged: bool, row: NeonOp) -> Shape
    ensures { result ≡ ordered exchanged row }
{
    if exchanged {
        Shape::Exchanged(row)
    } else {
        Shape::Two(row)
    }
}

fn for_words(width: Width, shape: Shape) -> Option<Shape>
    ensures { result ≡ for_words width shape }
{
    match width {
        Width::Word => Some(shape),
        Width::Byte | Width::Dword | Width::Qword => None,
    }
}

/// Lanes by lanes, where they are dwords or qwords.
fn by_lanes(shift: Shift, width: Width) -> Option<Shape>
    ensures { result ≡ by_lanes shift width }
{
    match width {
        Width::Dword => Some(Shape::ShiftedBy(shift)),
        Width::Qword => Some(Shape::QwordsBy(shift)),
        Width::Byte | Width::Word => None,
    }
}

/// Lanes by one count, where they aren't bytes.
fn by_count(shift: Shift, width: Width) -> Option<Shape>
    ensures { result ≡ by_count shift width }
{
    match width {
        Width::Byte => None,
        Width::Word | Width::Dword | Width::Qword => Some(Shape::Counted(shift, width)),
    }
}

/// Where one row multiplies the lanes.
fn for_sign(width: Width) -> Option<Shape>
    ensures { result ≡ for_sign width }
{
    match width {
        Width::Qword => None,
        Width::Byte | Width::Word | Width::Dword => Some(Shape::Signs(width)),
    }
}

fn planned_lanes(op: Lane2, width: Width) -> Option<Shape>
    ensures { result ≡ planned_lanes op width }
{
    match op {
        Lane2::MultiplyHigh => for_words(width, Shape::HighWords(true)),
        Lane2::MultiplyHighUnsigned => for_words(width, Shape::HighWords(false)),
        Lane2::Sign => for_sign(width),
        Lane2::ShiftBy(shift) => by_lanes(shift, width),
        Lane2::MultiplyRound => for_words(width, Shape::RoundedProducts),
        _ => match row2(op, width) {
            Some(row) => Some(ordered(is_exchanged(op), row)),
            None => None,
        },
    }
}

/// A row of even and odd lanes.
fn uneven(width: Width, row: Option<NeonOp>) -> Option<Shape>
    ensures { result ≡ uneven width row }
{
    let row = row?;
    match width {
        Width::Word => Some(Shape::Uneven(
            MoveOp::Permuting(Permuting::Vuzp1qU16),
            MoveOp::Permuting(Permuting::Vuzp2qU16),
            row,
        )),
        Width::Dword => Some(Shape::Uneven(
            MoveOp::Permuting(Permuting::Vuzp1qU32),
            MoveOp::Permuting(Permuting::Vuzp2qU32),
            row,
        )),
        Width::Byte | Width::Qword => None,
    }
}

fn planned_pairs(op: Lane2, width: Width) -> Option<Shape>
    ensures { result ≡ planned_pairs op width }
{
    match op {
        Lane2::Add => match pair_sums(width) {
            Some(row) => Some(Shape::Two(row)),
            None => None,
        },
        Lane2::Sub | Lane2::AddSaturate | Lane2::SubSaturate => uneven(width, row2(op, width)),
        _ => None,
    }
}

fn planned_two(op: Two) -> Option<Shape>
    ensures { result ≡ planned_two op }
{
    match op {
        Two::Lanes(op, width) => planned_lanes(op, width),
        Two::Pairs(op, width) => planned_pairs(op, width),
        Two::MultiplyEven => Some(Shape::EvenProducts(true)),
        Two::MultiplyEvenUnsigned => Some(Shape::EvenProducts(false)),
        Two::MultiplyAdd => Some(Shape::AddedProducts),
        Two::MultiplyAddBytes => Some(Shape::AddedBytes),
        Two::SumDifferences => Some(Shape::SumDifferences),
        _ => None,
    }
}

fn planned(form: Form) -> Option<Shape>
    ensures { result ≡ planned form }
{
    match form {
        Form::One(Size::Xmm, One::Lanes(op, width)) => match row1(op, width) {
            Some(row) => Some(Shape::One(row)),
            None => None,
        },
        Form::Two(Size::Xmm, op) => planned_two(op),
        Form::Counted(Size::Xmm, shift, width) => by_count(shift, width),
        Form::TwoImm(Size::Xmm, TwoImm::SumsOfFour) => Some(Shape::SumsOfFour),
        Form::OneImm(Size::Xmm, OneImm::Shifted(shift, width)) => Some(Shape::Shifted(
            shift, width,
        )),
        _ => None,
    }
}

/// Whether the row has its sequence here: it computes lane by lane on 128 bits, and `plan` gives the sequence.
pub fn is_arithmetic(op: IntelOp) -> bool
    ensures { result ≡ is_arithmetic op }
{
    planned(intel_table::form(op)).is_some()
}

fn listed(alloc: Global, op: IntelOp, imm: u16) -> Result<Seq, AllocError>
    requires { is_arithmetic op ≡ true }
    ensures { IfOk result (λ s. plan_of op imm ≡ Some (view_seq s)) }
{
    sequence(alloc, planned(intel_table::form(op)).unwrap(), imm)
}

/// The sequence of a row. It takes the row's vectors as `uint8x16_t` and gives one, and the immediate is part of it. The only error is want of
/// memory.
pub fn plan(alloc: Global, op: IntelOp, imm: u16) -> Result<Seq, AllocError>
    requires ours { is_arithmetic op ≡ true }
    requires range { InImmRange (range_of op) imm }
    ensures sequence { IfOk result (λ s. plan_of op imm ≡ Some (view_seq s)) }
    ensures value { IfOk result (λ s. (args : List Arg) → Fits (signature_of op) args → evaluated (view_seq s) (operands (params_of (signature_of op)) args) ≡ Some (eval_of op args imm)) }
    ensures formed { IfOk result (λ s. WellFormed (view_seq s)) }
    ensures ceiling { IfOk result (λ s. length (rows_called (view_seq s)) ≤ ceiling_of (form_of op)) }
    ensures unmarked { IfOk result (λ s. plain (view_seq s) ≡ true) }
    ensures one_call { (names : List (List ℕ)) → listed (form_of op) imm ≡ Some names → IfOk result (λ s. map neon.name_of (rows_called (view_seq s)) ≡ names) }
{
    listed(alloc, op, imm)
}

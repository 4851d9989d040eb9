//! The sequences of shuffle rows.

ghost use Rattle.std.specs.Prelude.{◌≡◌, ◌≤◌, IfOk, List, length, true, Some};
ghost use Rattle.lane_core.specs.declared.table.Arg.{Arg};
ghost use Rattle.lane_core.specs.declared.table.Arg.TheVariants as arg;
ghost use Rattle.lane_core.specs.Table.{Fits};
ghost use Rattle.intel_table.specs.Rows.{form_of, signature_of, eval_of};
ghost use Rattle.seq_core.specs.View.{view_seq};
ghost use Rattle.seq_core.specs.Formed.{WellFormed};
ghost use Rattle.seq_core.specs.Values.{evaluated};
ghost use Rattle.seq_core.specs.Called.{rows_called, plain};
ghost use Rattle.shuffle_plans.specs.Operands.{block_of};
ghost use Rattle.shuffle_plans.specs.Selections.{is_shuffle};
ghost use Rattle.shuffle_plans.specs.Plans.{has_two, operands_of, is_one_block, vectors_of, IsPlannedBy, IsPlan};

use crate::laws::selections_are_rows;
use crate::selections::picked;
use crate::sequences::sequence;
use intel_forms::Form as Row;
use intel_forms::across::Across;
use intel_table::{IntelOp, form};
use price_choice::{Chooser, FormKind};
use seq_core::Seq;
use std::alloc::{AllocError, Global};

fn has_two(row: Row) -> bool
    ensures { result ≡ has_two row }
{
    matches!(
        row,
        Row::Two(_, _) | Row::TwoImm(_, _) | Row::Across(Across::PermuteQwords)
    )
}

/// The sequence for one block of 16 bytes of a shuffle row's result, by the first form of least price that gives the row's selection: at most one Neon call.
/// The low block is `half` 0. The only error is want of memory.
///
/// The parameters are carriers: A, and B where the row has two vector operands. They stand for the operands of that block, so for a row of 128 bits they are the
/// row's own, and for a 256-bit broadcast A is the row's operand of 128 bits. `_mm256_permute4x64_epi64`, which takes bytes of both blocks of its
/// one operand for each block, has the low block as A and the high one as B. A row with one operand takes no byte of another, and so has no B.
pub fn plan<P: Fn(FormKind) -> u32>(
    alloc: Global,
    op: IntelOp,
    imm: u16,
    half: u8,
    chooser: &Chooser<P>,
) -> Result<Seq, AllocError>
    requires shuffle { is_shuffle (form_of op) ≡ true }
    requires block { half ≤ 1 }
    ensures choice { IfOk result (λ s. IsPlan chooser.now.stated (form_of op) imm half (view_seq s)) }
    ensures value { IfOk result (λ s. (args : List Arg) → Fits (signature_of op) args → evaluated (view_seq s) (operands_of (form_of op) half args) ≡ Some (arg.R16 (block_of half (eval_of op args imm)))) }
    ensures whole { IfOk result (λ s. (args : List Arg) → is_one_block (form_of op) ≡ true → Fits (signature_of op) args → evaluated (view_seq s) (vectors_of args) ≡ Some (eval_of op args imm)) }
    ensures formed { IfOk result (λ s. WellFormed (view_seq s)) }
    ensures unmarked { IfOk result (λ s. plain (view_seq s) ≡ true) }
    ensures one_call { IfOk result (λ s. length (rows_called (view_seq s)) ≤ 1) }
{
    selections_are_rows();
    planned(alloc, form(op), imm, half, chooser)
}

/// The sequence by the choice's form.
fn planned<P: Fn(FormKind) -> u32>(
    alloc: Global,
    row: Row,
    imm: u16,
    half: u8,
    chooser: &Chooser<P>,
) -> Result<Seq, AllocError>
    requires { half ≤ 1 }
    ensures { IfOk result (λ s. IsPlannedBy chooser.now.stated row imm half (view_seq s)) }
{
    let want = picked(row, imm, half);
    let chosen = chooser.cheapest(&want);
    sequence(alloc, has_two(row), chosen, &want)
}

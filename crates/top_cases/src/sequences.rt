//! The sequences of Intel rows, each printed as a function and run in the Neon dialect: what a processor gives for the row is what comes.

ghost use Rattle.std.specs.Prelude.{◌≡◌, true, IfOk, IfSome};
ghost use Rattle.lane_core.specs.Table.{InImmRange};
ghost use Rattle.intel_table.specs.Rows.{range_of};
ghost use Rattle.seq_core.specs.View.{view_seq};
ghost use Rattle.seq_core.specs.Formed.{WellFormed};

use crate::intel_rows;
use crate::rows::{INTEL, printed};
use c_print::print;
use c_tree::{Item, Unit};
use intel_table::IntelOp;
use lane_core::table::ImmRange;
use seq_core::{Seq, function};
use std::alloc::{AllocError, Global};
use std::process::Abort;
use std::test::Fail;

// Whether the row may have the immediate, 0 for a row without one.
fn is_in_range(op: IntelOp, imm: u16) -> bool
    ensures { result ≡ true → InImmRange (range_of op) imm }
{
    match intel_table::range(op) {
        ImmRange::NoImmediate => imm == 0,
        ImmRange::Span(low, high) => low <= imm && imm <= high,
        ImmRange::Scale => false,
    }
}

// The row that a line's function calls, with its immediate: `.. { return NAME(p0, 15); }`.
fn row_called(line: &str) -> Option<(IntelOp, u16)> {
    let (_, call) = line.split_once("{ ")?;
    let call = call.strip_prefix("return ").unwrap_or(call);
    let (name, arguments) = call.split_once('(')?;
    let (arguments, _) = arguments.split_once(')')?;
    let imm = match arguments.rsplit_once(", ") {
        Some((_, last)) => last.parse::<u16>().unwrap_or(0),
        None => 0,
    };
    Some((intel_table::find(name.as_bytes())?, imm))
}

// The row's sequence, where it has one.
fn sequence(alloc: Global, op: IntelOp, imm: u16) -> Result<Option<Seq>, AllocError>
    ensures { IfOk result (λ s. IfSome s (λ q. WellFormed (view_seq q))) }
{
    if seq_memory::is_built(op) {
        return Ok(Some(seq_memory::plan(alloc, op, imm)?));
    }
    if seq_arith::is_arithmetic(op) && is_in_range(op, imm) {
        return Ok(Some(seq_arith::plan(alloc, op, imm)?));
    }
    if seq_pack::is_packing(op) && is_in_range(op, imm) {
        return Ok(Some(seq_pack::plan(alloc, op, imm)?));
    }
    Ok(None)
}

// The text of the row's sequence as a function.
fn written(alloc: Global, op: IntelOp, imm: u16) -> Result<Option<Vec<u8>>, AllocError> {
    match sequence(alloc, op, imm)? {
        None => Ok(None),
        Some(seq) => {
            let mut items = Vec::new(alloc);
            items.push(Item::Function(function(alloc, &seq, b"f")?))?;
            Ok(Some(print(alloc, &Unit { items })?))
        }
    }
}

// How many lines of the table have a row with a sequence, and an outcome that is defined; each is run.
fn sequences_are_called(rt: &impl Abort, alloc: Global, table: &str) -> Result<usize, Fail> {
    let mut text = None;
    let mut count = 0usize;
    for line in table.split('\n') {
        match line.split_once("-> ") {
            None => {
                text = match row_called(line) {
                    Some((op, imm)) => written(alloc, op, imm)?,
                    None => None,
                };
            }
            Some((_, "undefined")) => {}
            Some((items, wanted)) => if let Some(text) = &text {
                let found = printed(alloc, "neon", text.as_slice(), items)?;
                assert_eq!(rt; found.as_slice(), wanted.as_bytes(), "{line}");
                count = count.saturating_add(1);
            },
        }
    }
    Ok(count)
}

#[test]
fn sequences_of_rows_are_as_a_processor_has_the_rows(rt: HostRuntime) -> Result<(), Fail> {
    let alloc = rt.alloc();
    let first = sequences_are_called(&rt, alloc, INTEL)?;
    assert_eq!(rt; first, 16);
    let parts = [
        intel_rows::PART_9,
        intel_rows::PART_10,
        intel_rows::PART_11,
        intel_rows::PART_12,
    ];
    let mut count = 0usize;
    for part in &parts {
        count = count.saturating_add(sequences_are_called(&rt, alloc, part)?);
    }
    assert_eq!(rt; count, 182);
    Ok(())
}

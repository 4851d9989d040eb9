//! What is due for a unit that has types.

ghost use Rattle.std.specs.Prelude.{◌≡◌, IfOk, IsTrue, map, string_bytes, [], None, Ok};
ghost use Rattle.c_text.specs.declared.tokens.Dialect.TheVariants.{Neon};
ghost use Rattle.vector_types.specs.Units.{check_unit};
ghost use Rattle.simd_top.specs.Form.{first_outside};
ghost use Rattle.c_print.specs.Text.{text_of};
ghost use Rattle.c_tree.specs.View.{view_unit};
ghost use Rattle.migrate_report.specs.Items.{items_fit_form};
ghost use Rattle.c_memory.specs.Outcomes.{outcome_of};
ghost use Rattle.migrate_report.specs.Texts.{run_text};
ghost use Rattle.simd_top.specs.Due.{IsDueFor, Shows, status_due, text_due};
ghost use Rattle.simd_top.specs.Ran.{status_of};
ghost use Rattle.simd_top.specs.Seen.{command_of};
ghost use Rattle.simd_top.specs.Words.{Migrate, Run, Both, FitsForm};
ghost use Rattle.simd_top.specs.Written.{moved_unit};

use crate::comparing::both_text;
use crate::form::first_outside;
use crate::moving::moved_unit;
use crate::refusals::{line_at_the_start, line_of};
use crate::running::outcome;
use crate::status::Status;
use crate::words::Command;
use c_meaning::Outcome;
use c_print::print;
use c_text::Dialect;
use c_tree::Unit;
use migrate_report::{FitFail, fit, outcome_text};
use std::alloc::{AllocError, Global};
use vector_types::{CheckFail, TypedUnit, check};

/// What is due to be written.
#[derive(Drop)]
pub enum Due {
    /// A text to the output: the migrated unit, or that of a run that is done.
    Done(Vec<u8>),
    /// The text of a run whose outcome is undefined, to the output.
    Undefined(Vec<u8>),
    /// The text of a run that would spend more turns than the bound, to the output.
    Turns(Vec<u8>),
    /// The lines of refusals, to the report.
    Report(Vec<u8>),
}

// The text of the Neon unit that is written for a unit.
fn written(alloc: Global, unit: &Unit) -> Result<Vec<u8>, AllocError>
    ensures { IfOk result (λ text. text.items ≡ text_of (moved_unit (view_unit unit.now))) }
{
    let moved = moved_unit(alloc, unit)?;
    print(alloc, &moved)
}

fn migrated(alloc: Global, unit: &Unit) -> Result<Due, AllocError>
    ensures { IfOk result (λ due. IsDueFor Migrate (view_unit unit.now) due) }
{
    match first_outside(alloc, unit.items.as_slice())? {
        Some(refusal) => {
            let line = line_of(alloc, refusal)?;
            Ok(Due::Report(line))
        }
        None => {
            let text = written(alloc, unit)?;
            Ok(Due::Done(text))
        }
    }
}

// The text of an outcome, as its status has it.
fn told(
    alloc: Global,
    unit: &TypedUnit,
    blocks: usize,
    outcome: &Outcome,
) -> Result<Due, AllocError>
    ensures status { IfOk result (λ due. status_due due ≡ status_of (outcome_of outcome.now)) }
    ensures text { IfOk result (λ due. text_due due ≡ run_text (view_unit unit.now.unit) blocks (outcome_of outcome.now)) }
{
    let text = outcome_text(alloc, unit.unit(), blocks, outcome)?;
    match outcome {
        Outcome::Done(_, _) => Ok(Due::Done(text)),
        Outcome::Undefined => Ok(Due::Undefined(text)),
        Outcome::Turns => Ok(Due::Turns(text)),
    }
}

#[tactic(auto, using(crate::proofs::Answering::told_due))]
fn run_of(
    alloc: Global,
    unit: &TypedUnit,
    dialect: Dialect,
    name: &[u8],
    turns: u64,
    items: &[String],
) -> Result<Due, AllocError>
    requires { IsTrue (items_fit_form (map (λ w. string_bytes w) items.now)) }
    ensures { IfOk result (λ due. IsDueFor (Run dialect name.now turns (map (λ w. string_bytes w) items.now)) (view_unit unit.now.unit) due) }
{
    match fit(alloc, unit.unit(), name, items) {
        Ok((args, memory)) => {
            let blocks = memory.blocks.len();
            let outcome = outcome(alloc, dialect, unit, name, args.as_slice(), memory, turns)?;
            told(alloc, unit, blocks, &outcome)
        }
        Err(FitFail::NoFunction) => {
            let line = line_at_the_start(alloc, 21, name)?;
            Ok(Due::Report(line))
        }
        Err(FitFail::DontFit) => {
            let line = line_at_the_start(alloc, 22, name)?;
            Ok(Due::Report(line))
        }
        Err(FitFail::Memory) => Err(AllocError),
    }
}

// The written unit with its types. It is never refused.
fn written_unit(alloc: Global, unit: &Unit) -> Result<TypedUnit, AllocError>
    requires { first_outside [] (view_unit unit.now) ≡ None }
    ensures { IfOk result (λ v. check_unit Neon (moved_unit (view_unit unit.now)) ≡ Ok (view_unit v.unit)) }
{
    let moved = moved_unit(alloc, unit)?;
    match check(alloc, &moved, Dialect::Neon) {
        Ok(written) => Ok(written),
        Err(CheckFail::Memory) => Err(AllocError),
        Err(CheckFail::Refused(_)) => {
            prove!(false);
            Err(AllocError)
        }
    }
}

// The text of both runs, as the status of the first has it.
fn compared(text: Vec<u8>, status: Status) -> Due
    ensures { Shows status text result }
{
    match status {
        Status::Undefined => Due::Undefined(text),
        Status::Turns => Due::Turns(text),
        _ => Due::Done(text),
    }
}

// What is due for both runs of a function of a unit of the form.
fn both_of(
    alloc: Global,
    unit: &TypedUnit,
    name: &[u8],
    turns: u64,
    items: &[String],
) -> Result<Due, AllocError>
    requires form { first_outside [] (view_unit unit.now.unit) ≡ None }
    requires items { IsTrue (items_fit_form (map (λ w. string_bytes w) items.now)) }
    ensures { IfOk result (λ due. IsDueFor (Both name.now turns (map (λ w. string_bytes w) items.now)) (view_unit unit.now.unit) due) }
{
    let written = written_unit(alloc, unit.unit())?;
    match both_text(alloc, unit, &written, name, items, turns) {
        Ok((text, status)) => Ok(compared(text, status)),
        Err(FitFail::NoFunction) => {
            let line = line_at_the_start(alloc, 21, name)?;
            Ok(Due::Report(line))
        }
        Err(FitFail::DontFit) => {
            let line = line_at_the_start(alloc, 22, name)?;
            Ok(Due::Report(line))
        }
        Err(FitFail::Memory) => Err(AllocError),
    }
}

// The same of any unit.
fn both(
    alloc: Global,
    unit: &TypedUnit,
    name: &[u8],
    turns: u64,
    items: &[String],
) -> Result<Due, AllocError>
    requires { IsTrue (items_fit_form (map (λ w. string_bytes w) items.now)) }
    ensures { IfOk result (λ due. IsDueFor (Both name.now turns (map (λ w. string_bytes w) items.now)) (view_unit unit.now.unit) due) }
{
    match first_outside(alloc, unit.unit().items.as_slice())? {
        Some(refusal) => {
            let line = line_of(alloc, refusal)?;
            Ok(Due::Report(line))
        }
        None => both_of(alloc, unit, name, turns, items),
    }
}

/// What is due for a unit that has types, under the command. The only error is want of memory.
pub fn due_for(alloc: Global, command: Command<'_>, unit: &TypedUnit) -> Result<Due, AllocError>
    requires { FitsForm (command_of command) }
    ensures { IfOk result (λ due. IsDueFor (command_of command.entry) (view_unit unit.now.unit) due) }
{
    match command {
        Command::Migrate => migrated(alloc, unit.unit()),
        Command::Run(dialect, name, turns, items) => {
            run_of(alloc, unit, dialect, name, turns, items)
        }
        Command::Both(name, turns, items) => both(alloc, unit, name, turns, items),
    }
}

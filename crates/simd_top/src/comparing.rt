//! The runs of a function before and after its unit is migrated.

ghost use Rattle.std.specs.Prelude.{◌≡◌, ◌⊎◌, length, map, string_bytes, IfOk, IfErr, OnOk, ◌++◌, [], false, IsTrue};
ghost use Rattle.c_tree.specs.View.{view_unit};
ghost use Rattle.c_memory.specs.Outcomes.{outcome_of};
ghost use Rattle.migrate_report.specs.Items.{items_fit_form};
ghost use Rattle.migrate_report.specs.Texts.{run_text};
ghost use Rattle.simd_top.specs.Compared.{IsRun, IsCompared, HasFit, is_defined, second_lines, both_lines, Fails, FailsInOne};
ghost use Rattle.simd_top.specs.Ran.{status_of};

use crate::running::outcome;
use crate::status::Status;
use c_meaning::Outcome;
use c_text::Dialect;
use migrate_report::{FitFail, fit, outcome_text};
use std::alloc::{AllocError, Global};
use vector_types::TypedUnit;

// How a function of the unit runs with what the items give, and the number of their blocks.
fn ran(
    alloc: Global,
    dialect: Dialect,
    unit: &TypedUnit,
    name: &[u8],
    turns: u64,
    items: &[String],
) -> Result<(Outcome, usize), FitFail>
    requires { IsTrue (items_fit_form (map (λ w. string_bytes w) items.now)) }
    ensures ran { IfOk result (λ p. IsRun dialect (view_unit unit.now.unit) name.now turns (map (λ w. string_bytes w) items.now) p.1 (outcome_of p.0)) }
    ensures fails { IfErr result (λ e. Fails (view_unit unit.now.unit) name.now (map (λ w. string_bytes w) items.now) e) }
{
    match fit(alloc, unit.unit(), name, items) {
        Ok((args, memory)) => {
            let blocks = memory.blocks.len();
            let outcome = outcome(alloc, dialect, unit, name, args.as_slice(), memory, turns)?;
            Ok((outcome, blocks))
        }
        Err(fail) => Err(fail),
    }
}

fn is_defined(outcome: &Outcome) -> bool
    ensures { result ≡ is_defined (outcome_of outcome.now) }
{
    match outcome {
        Outcome::Done(_, _) | Outcome::Turns => true,
        Outcome::Undefined => false,
    }
}

fn status_of(outcome: &Outcome) -> Status
    ensures { result ≡ status_of (outcome_of outcome.now) }
{
    match outcome {
        Outcome::Done(_, _) => Status::Done,
        Outcome::Turns => Status::Turns,
        Outcome::Undefined => Status::Undefined,
    }
}

// The lines of the second run behind those of the first.
fn write_second(out: &mut Vec<u8>, defined: bool, second: &[u8]) -> Result<(), AllocError>
    ensures { OnOk result (out.new.items ≡ out.old.items ++ second_lines defined second.now) }
{
    if defined {
        out.extend_from_slice(b"neon\n")?;
        out.extend_from_slice(second)
    } else {
        Ok(())
    }
}

fn both_lines(
    alloc: Global,
    first: &[u8],
    defined: bool,
    second: &[u8],
) -> Result<Vec<u8>, AllocError>
    ensures { IfOk result (λ text. text.items ≡ both_lines first.now defined second.now) }
{
    let mut out = Vec::new(alloc);
    out.extend_from_slice(b"x86\n")?;
    out.extend_from_slice(first)?;
    write_second(&mut out, defined, second)?;
    Ok(out)
}

// The text of two outcomes.
fn told(
    alloc: Global,
    source: &TypedUnit,
    blocks: usize,
    first: &Outcome,
    written: &TypedUnit,
    others: usize,
    second: &Outcome,
) -> Result<Vec<u8>, AllocError>
    ensures { IfOk result (λ text. text.items ≡ both_lines (run_text (view_unit source.now.unit) blocks (outcome_of first.now)) (is_defined (outcome_of first.now))
        (run_text (view_unit written.now.unit) others (outcome_of second.now))) }
{
    let before = outcome_text(alloc, source.unit(), blocks, first)?;
    let after = outcome_text(alloc, written.unit(), others, second)?;
    both_lines(
        alloc,
        before.as_slice(),
        is_defined(first),
        after.as_slice(),
    )
}

// Whether the items fit the function of that name: its run isn't made.
fn fits(alloc: Global, unit: &TypedUnit, name: &[u8], items: &[String]) -> Result<(), FitFail>
    requires { IsTrue (items_fit_form (map (λ w. string_bytes w) items.now)) }
    ensures fits { IfOk result (λ p. HasFit (view_unit unit.now.unit) name.now (map (λ w. string_bytes w) items.now)) }
    ensures fails { IfErr result (λ e. Fails (view_unit unit.now.unit) name.now (map (λ w. string_bytes w) items.now) e) }
{
    match fit(alloc, unit.unit(), name, items) {
        Ok(_) => Ok(()),
        Err(fail) => Err(fail),
    }
}

// The text of a first run that is undefined: it tells nothing of the second, which isn't made.
fn told_undefined(
    alloc: Global,
    source: &TypedUnit,
    blocks: usize,
    first: &Outcome,
) -> Result<Vec<u8>, AllocError>
    ensures { IfOk result (λ text. text.items ≡ both_lines (run_text (view_unit source.now.unit) blocks (outcome_of first.now)) false []) }
{
    let before = outcome_text(alloc, source.unit(), blocks, first)?;
    both_lines(alloc, before.as_slice(), false, &[])
}

/// The text that tells how the function of that name runs in the source, by Intel's rows, and how in the written unit, by Arm's: the line `x86` and the text of
/// the first run, and unless that is `undefined` the line `neon` and the text of the second. The status is that of the first run. `items` give the arguments and the
/// memory of each run. The second run is made only where the first isn't undefined.
///
/// # Errors
///
/// - `NoFunction`, `DontFit` where a unit has no function of the name, or the items don't fit its parameters: the source, or else the written unit.
/// - `Memory` where memory ran out, in place of any other answer.
#[tactic(auto, using(crate::proofs::FirstRun::undefined_compared))]
pub fn both_text(
    alloc: Global,
    source: &TypedUnit,
    written: &TypedUnit,
    name: &[u8],
    items: &[String],
    turns: u64,
) -> Result<(Vec<u8>, Status), FitFail>
    requires { IsTrue (items_fit_form (map (λ w. string_bytes w) items.now)) }
    ensures text { IfOk result (λ p. IsCompared (view_unit source.now.unit) (view_unit written.now.unit) name.now turns (map (λ w. string_bytes w) items.now) p.0.items p.1) }
    ensures fails { IfErr result (λ e. FailsInOne (view_unit source.now.unit) (view_unit written.now.unit) name.now (map (λ w. string_bytes w) items.now) e) }
{
    let (first, blocks) = ran(alloc, Dialect::X86, source, name, turns, items)?;
    if is_defined(&first) {
        let (second, others) = ran(alloc, Dialect::Neon, written, name, turns, items)?;
        let text = told(alloc, source, blocks, &first, written, others, &second)?;
        Ok((text, status_of(&first)))
    } else {
        fits(alloc, written, name, items)?;
        let text = told_undefined(alloc, source, blocks, &first)?;
        Ok((text, status_of(&first)))
    }
}

//! The top call: words, a source, and two sinks.

ghost use Rattle.std.specs.Prelude.{◌≡◌, ◌≤◌, ◌⊎◌, ◌≢◌, map, length, IfOk, IsErrOf, OnErr, Err, string_bytes};
ghost use Rattle.mig_io.specs.Outside.{Rose, Grew};
ghost use Rattle.simd_top.specs.Seen.{command_of};
ghost use Rattle.simd_top.specs.Source.{source_limit};
ghost use Rattle.simd_top.specs.TopCall.{usage_line, IsServed, IsDue, IsAnswer, Ends, Breaks, Answers, Reports, AsksNothing, Asks, BreaksOut, BreaksReport};
ghost use Rattle.simd_top.specs.Words.{FitsForm, dialect_of};

use crate::due::{Due, due_for};
use crate::front::unit_of;
use crate::refusals::line_at_the_start;
use crate::standing::what_is_read_stands_for_what_is_written;
use crate::status::Status;
use crate::words::{Command, asked};
use c_directives::expansion_numbers;
use c_text::Dialect;
use mig_io::{ReadFail, Sink, Source, read_all, write_all};
use migrate_report::refusal_lines;
use std::alloc::Global;
use vector_types::CheckFail;

const USAGE: &[u8] =
    b"usage: simdmove migrate [KIND=PRICE].. | profile | run x86|neon NAME TURNS ITEM.. | both NAME TURNS ITEM.. | sample K [migrate]\n";

// The greatest number of bytes that a source of the dialect may have.
fn source_limit(dialect: Dialect) -> usize
    ensures { result ≡ source_limit dialect }
{
    match dialect {
        Dialect::X86 => 1_048_576,
        Dialect::Neon => 16_777_216,
    }
}

// What is due for the bytes of a source.
#[tactic(auto, using(crate::proofs::Answering::due_answers))]
fn answer(alloc: Global, command: Command<'_>, source: &[u8]) -> Result<Due, ReadFail>
    requires form { FitsForm (command_of command) }
    requires within { length source.now ≤ source_limit (dialect_of (command_of command)) }
    ensures due { IfOk result (λ due. IsAnswer (command_of command.entry) source.now due) }
    ensures memory_alone { OnErr result (result ≡ Err ReadFail.Memory) }
{
    what_is_read_stands_for_what_is_written();
    match unit_of(alloc, command.dialect(), source) {
        Ok(unit) => {
            let due = due_for(alloc, command, &unit)?;
            Ok(due)
        }
        Err(CheckFail::Memory) => Err(ReadFail::Memory),
        Err(CheckFail::Refused(list)) => {
            let lines = refusal_lines(alloc, list.as_slice())?;
            Ok(Due::Report(lines))
        }
    }
}

// What is due for a source.
#[tactic(auto, using(crate::proofs::Told::long_due))]
fn made_of<S: Source>(alloc: Global, command: Command<'_>, source: &mut S) -> Result<Due, ReadFail>
    requires { FitsForm (command_of command) }
    ensures due { IfOk result (λ due. IsDue (command_of command.entry) (S.left source.old) (S.left source.new) due) }
    ensures fault { IsErrOf result ReadFail.Fault → Rose (S.faults source.old) (S.faults source.new) }
    ensures read { IsErrOf result ReadFail.TooLong → ⊥ }
{
    match read_all(alloc, source, source_limit(command.dialect())) {
        Ok(bytes) => answer(alloc, command, &bytes),
        Err(ReadFail::TooLong) => {
            let line = line_at_the_start(alloc, 1, b"source")?;
            Ok(Due::Report(line))
        }
        Err(fail) => Err(fail),
    }
}

// Writes the text that is due, and answers the status.
fn finish<K: Sink>(sink: &mut K, text: &[u8], status: Status) -> Status
    ensures { Ends result status text.now (K.held sink.old) (K.held sink.new) (K.faults sink.old) (K.faults sink.new) }
{
    match write_all(sink, text) {
        Ok(()) => status,
        Err(_) => Status::WriteFault,
    }
}

/// Does what the words ask for: reads the source, and writes the text that is due to `out`, or why there is none to `report`.
///
/// The words that are built are `migrate` alone, `run` with a dialect, a name, a bound on turns and items, and `both` with a name, a bound and
/// items. Everything is made before the first byte is written, and only one of the sinks is written to. Memory may run out in place of every status but `Usage` and
/// `WriteFault`; no clause says when.
#[tactic(auto, using(crate::proofs::Excluded::served_stays, crate::proofs::Numbered::refuses_lines))]
pub fn simdmove<S: Source, O: Sink, E: Sink>(
    alloc: Global,
    words: &[String],
    source: &mut S,
    out: &mut O,
    report: &mut E,
) -> Status
    // The unit is migrated, and `out` grew by the text, which is a Neon unit whose functions do the same; or its function ran, and `out` grew
    // by the text that tells its value and the memory; or it ran in both, and `out` grew by both texts.
    ensures done { result ≡ Status.Done → (report.new ≡ report.old)
        × Answers Status.Done (map (λ w. string_bytes w) words.now) (S.left source.old) (S.left source.new) (O.held out.old) (O.held out.new) }

    // The function ran, and has no defined outcome; or it would spend more turns than the bound.
    ensures undefined { result ≡ Status.Undefined → (report.new ≡ report.old)
        × Answers Status.Undefined (map (λ w. string_bytes w) words.now) (S.left source.old) (S.left source.new) (O.held out.old) (O.held out.new) }
    ensures turns { result ≡ Status.Turns → (report.new ≡ report.old)
        × Answers Status.Turns (map (λ w. string_bytes w) words.now) (S.left source.old) (S.left source.new) (O.held out.old) (O.held out.new) }

    // The source is refused: `report` grew by the lines that are due, of refusals with numbers from 1 to 22.
    ensures refused { result ≡ Status.Refused → (out.new ≡ out.old)
        × Reports (map (λ w. string_bytes w) words.now) (S.left source.old) (E.held report.old) (E.held report.new) }

    // The words are others: the source isn't read.
    ensures usage { result ≡ Status.Usage → AsksNothing (map (λ w. string_bytes w) words.now)
        × (source.new ≡ source.old) × (out.new ≡ out.old) × Grew (E.held report.old) usage_line (E.held report.new) }

    ensures read_fault { result ≡ Status.ReadFault → Asks (map (λ w. string_bytes w) words.now)
        × (out.new ≡ out.old) × (report.new ≡ report.old) × Rose (S.faults source.old) (S.faults source.new) }

    // The sink of the due text had a fault, and took a proper prefix of that text; the other is unchanged.
    ensures write_fault { result ≡ Status.WriteFault →
        (AsksNothing (map (λ w. string_bytes w) words.now) × (source.new ≡ source.old) × (out.new ≡ out.old)
        × Breaks usage_line (E.held report.old) (E.held report.new) (E.faults report.old) (E.faults report.new))
        ⊎ (((out.new ≡ out.old)
        × BreaksReport (map (λ w. string_bytes w) words.now) (S.left source.old) (E.held report.old) (E.held report.new) (E.faults report.old) (E.faults report.new))
        ⊎ ((report.new ≡ report.old)
        × BreaksOut (map (λ w. string_bytes w) words.now) (S.left source.old) (S.left source.new) (O.held out.old) (O.held out.new) (O.faults out.old) (O.faults out.new))) }

    ensures no_memory { result ≡ Status.NoMemory → Asks (map (λ w. string_bytes w) words.now)
        × (out.new ≡ out.old) × (report.new ≡ report.old) }

    // An admitted unit isn't refused: without faults it is migrated, or its function runs, unless memory runs out.
    ensures admitted { IsServed (map (λ w. string_bytes w) words.now) (S.left source.old) → result ≢ Status.Refused }
{
    expansion_numbers();
    match asked(words) {
        None => finish(report, USAGE, Status::Usage),
        Some(command) => match made_of(alloc, command, source) {
            Ok(Due::Done(text)) => finish(out, &text, Status::Done),
            Ok(Due::Undefined(text)) => finish(out, &text, Status::Undefined),
            Ok(Due::Turns(text)) => finish(out, &text, Status::Turns),
            Ok(Due::Report(lines)) => finish(report, &lines, Status::Refused),
            Err(ReadFail::Fault) => Status::ReadFault,
            Err(_) => Status::NoMemory,
        },
    }
}

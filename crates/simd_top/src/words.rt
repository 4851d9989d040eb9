//! The words of a call.

ghost use Rattle.std.specs.Prelude.{◌≡◌, option_map, map, string_bytes, IfSome};
ghost use Rattle.simd_top.specs.Words.{FitsForm, dialect_of, dialect_named, is_function_name, turns_of, run_of, both_of, asked_to_migrate, asked_to_run, asked_for_both, asked};
ghost use Rattle.simd_top.specs.Seen.{command_of};

use crate::form::is_name;
use c_text::Dialect;
use migrate_report::{items_fit_form, number};

/// The greatest number of turns that a run may be given.
const MOST_TURNS: u64 = 1_000_000;

/// The greatest number of bytes that a name may have.
const LONGEST_NAME: usize = 255;

/// What the words ask for.
#[derive(Clone, Copy, Debug)]
pub enum Command<'w> {
    /// The unit is migrated.
    Migrate,
    /// The unit is read in the dialect, and its function of this name runs for at most so many turns, with what the items give.
    Run(Dialect, &'w [u8], u64, &'w [String]),
    /// The unit is migrated, and its function of this name runs so before and after.
    Both(&'w [u8], u64, &'w [String]),
}

impl Command<'_> {
    /// The dialect of the source.
    pub fn dialect(self) -> Dialect
        ensures { result ≡ dialect_of (command_of self.entry) }
    {
        match self {
            Command::Migrate | Command::Both(_, _, _) => Dialect::X86,
            Command::Run(dialect, _, _, _) => dialect,
        }
    }
}

fn dialect_named(word: &[u8]) -> Option<Dialect>
    ensures { result ≡ dialect_named word.now }
{
    if word == b"x86".as_slice() {
        Some(Dialect::X86)
    } else if word == b"neon".as_slice() {
        Some(Dialect::Neon)
    } else {
        None
    }
}

fn is_function_name(word: &[u8]) -> bool
    ensures { result ≡ is_function_name word.now }
{
    is_name(word) && word.len() <= LONGEST_NAME
}

fn run_of<'w>(
    dialect: Option<Dialect>,
    name: &'w [u8],
    turns: Option<u64>,
    items: &'w [String],
) -> Option<Command<'w>>
    ensures command { option_map command_of result ≡ run_of dialect name.now turns (map (λ w. string_bytes w) items.now) }
    ensures form { IfSome result (λ c. FitsForm (command_of c)) }
{
    match (dialect, turns) {
        (Some(dialect), Some(turns)) => {
            if is_function_name(name) && items_fit_form(items) {
                Some(Command::Run(dialect, name, turns, items))
            } else {
                None
            }
        }
        _ => None,
    }
}

fn both_of<'w>(name: &'w [u8], turns: Option<u64>, items: &'w [String]) -> Option<Command<'w>>
    ensures command { option_map command_of result ≡ both_of name.now turns (map (λ w. string_bytes w) items.now) }
    ensures form { IfSome result (λ c. FitsForm (command_of c)) }
{
    match turns {
        Some(turns) => {
            if is_function_name(name) && items_fit_form(items) {
                Some(Command::Both(name, turns, items))
            } else {
                None
            }
        }
        None => None,
    }
}

fn asked_to_migrate(words: &[String]) -> Option<Command<'_>>
    ensures command { option_map command_of result ≡ asked_to_migrate (map (λ w. string_bytes w) words.now) }
    ensures form { IfSome result (λ c. FitsForm (command_of c)) }
{
    match words {
        [] => Some(Command::Migrate),
        [_, ..] => None,
    }
}

fn asked_to_run(words: &[String]) -> Option<Command<'_>>
    ensures command { option_map command_of result ≡ asked_to_run (map (λ w. string_bytes w) words.now) }
    ensures form { IfSome result (λ c. FitsForm (command_of c)) }
{
    match words {
        [dialect, name, turns, items @ ..] => run_of(
            dialect_named(dialect.as_bytes()),
            name.as_bytes(),
            number(turns.as_bytes(), MOST_TURNS),
            items,
        ),
        _ => None,
    }
}

fn asked_for_both(words: &[String]) -> Option<Command<'_>>
    ensures command { option_map command_of result ≡ asked_for_both (map (λ w. string_bytes w) words.now) }
    ensures form { IfSome result (λ c. FitsForm (command_of c)) }
{
    match words {
        [name, turns, items @ ..] => both_of(
            name.as_bytes(),
            number(turns.as_bytes(), MOST_TURNS),
            items,
        ),
        _ => None,
    }
}

/// What the words ask for, if they are words of the tool. Takes no memory.
pub fn asked(words: &[String]) -> Option<Command<'_>>
    ensures command { option_map command_of result ≡ asked (map (λ w. string_bytes w) words.now) }
    ensures form { IfSome result (λ c. FitsForm (command_of c)) }
{
    match words {
        [] => None,
        [word, others @ ..] => {
            if word.as_str() == "migrate" {
                asked_to_migrate(others)
            } else if word.as_str() == "run" {
                asked_to_run(others)
            } else if word.as_str() == "both" {
                asked_for_both(others)
            } else {
                None
            }
        }
    }
}

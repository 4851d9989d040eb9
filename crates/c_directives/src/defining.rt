//! Directives `define` and `undef`.

ghost use Rattle.std.specs.Prelude.{◌≡◌};
ghost use Rattle.c_macros.specs.Entries.{macros_of};
ghost use Rattle.c_directives.specs.Definitions.{defined_again, defined_as, define, undef};
ghost use Rattle.c_directives.specs.Answers.{Defines};

use crate::definitions::{Fault, definition};
use crate::operands::is_defined_word;
use crate::same::same;
use c_macros::{Macro, Macros};
use c_text::{Fail, Token, TokenKind, refuse_token};
use std::alloc::Global;

const BAD_DIRECTIVE: u8 = 5;

const BAD_MACRO: u8 = 7;

// A name is defined, or defined again.
fn define_again(
    alloc: Global,
    name: &Token,
    definition: Macro,
    macros: &mut Macros,
) -> Result<(), Fail>
    ensures { Defines (defined_again name.now definition (macros_of macros.old name.now.text) (macros_of macros.old)) result (macros_of macros.new) }
{
    let again = match macros.find(name.text.bytes()) {
        None => None,
        Some(old) => Some(same(old, &definition)),
    };
    match again {
        None => {
            macros.insert(alloc, name.text.bytes(), definition)?;
            Ok(())
        }
        Some(true) => Ok(()),
        Some(false) => Err(refuse_token(alloc, BAD_MACRO, name)),
    }
}

fn define_as(
    alloc: Global,
    word: &Token,
    name: &Token,
    read: Result<Macro, Fault>,
    macros: &mut Macros,
) -> Result<(), Fail>
    ensures { Defines (defined_as word.now name.now read (macros_of macros.old)) result (macros_of macros.new) }
{
    match read {
        Ok(definition) => define_again(alloc, name, definition, macros),
        Err(Fault::Malformed) => Err(refuse_token(alloc, BAD_DIRECTIVE, word)),
        Err(Fault::Against) => Err(refuse_token(alloc, BAD_MACRO, name)),
    }
}

/// Obeys a `define` with what stands behind it.
pub fn define(alloc: Global, word: &Token, line: &[Token], macros: &mut Macros) -> Result<(), Fail>
    ensures { Defines (define word.now line.now (macros_of macros.old)) result (macros_of macros.new) }
{
    match line.split_first() {
        None => Err(refuse_token(alloc, BAD_DIRECTIVE, word)),
        Some((name, behind)) => {
            if name.kind != TokenKind::Name {
                return Err(refuse_token(alloc, BAD_DIRECTIVE, word));
            }
            if is_defined_word(name) {
                return Err(refuse_token(alloc, BAD_MACRO, name));
            }
            let read = definition(alloc, behind)?;
            define_as(alloc, word, name, read, macros)
        }
    }
}

/// Obeys an `undef` with what stands behind it.
pub fn undef(alloc: Global, word: &Token, line: &[Token], macros: &mut Macros) -> Result<(), Fail>
    ensures { Defines (undef word.now line.now (macros_of macros.old)) result (macros_of macros.new) }
{
    match line {
        [name] => {
            if name.kind != TokenKind::Name {
                return Err(refuse_token(alloc, BAD_DIRECTIVE, word));
            }
            if is_defined_word(name) {
                return Err(refuse_token(alloc, BAD_MACRO, name));
            }
            macros.remove(alloc, name.text.bytes())?;
            Ok(())
        }
        _ => Err(refuse_token(alloc, BAD_DIRECTIVE, word)),
    }
}

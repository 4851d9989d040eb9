//! The specifiers of declarations (C11 6.7.1 to 6.7.5).

ghost use Rattle.std.specs.Prelude.{◌≡◌, ◌<◌, ◌≤◌, length, IfOk, IfSome, option_map};
ghost use Rattle.std.specs.Option.{option_copied};
ghost use Rattle.c_parse.specs.Reading.{Gives};
ghost use Rattle.c_parse.specs.Objects.{is_align_as, begins_declaration, nothing_said, word_says};
ghost use Rattle.c_parse.specs.DeclarationReading.{past_test, word_front, specifier_front, specifiers_front};
ghost use Rattle.c_parse.specs.DeclarationViews.{view_specification};

use crate::attributes::{alignment, group, past_attribute};
use crate::nodes::{Stuck, stuck_at};
use crate::peeks::first;
use crate::symbols::{Symbol, Word, token_symbol};
use crate::types::{Specifiers, counted, no_specifiers, with_const};
use c_text::{Dialect, Token};
use c_tree::Expr;
use std::alloc::Global;

/// What the specifiers of a declaration say.
#[derive(Drop)]
pub struct Specification {
    /// The words of types and `const`.
    pub words: Specifiers,
    /// Whether `static` is among them.
    pub is_static: bool,
    /// Whether `inline` is among them.
    pub is_inline: bool,
    /// The alignment in bytes, where one is among them.
    pub align: Option<Expr>,
}

fn nothing_said() -> Specification
    ensures { view_specification result ≡ nothing_said }
{
    Specification {
        words: no_specifiers(),
        is_static: false,
        is_inline: false,
        align: None,
    }
}

/// Whether a declaration begins with this.
pub fn begins_declaration(symbol: Symbol) -> bool
    ensures { result ≡ begins_declaration symbol }
{
    match symbol {
        Symbol::Type(_) | Symbol::Const => true,
        Symbol::Word(Word::Static | Word::Inline | Word::AlignAs | Word::Attribute) => true,
        _ => false,
    }
}

// What is said with a word more.
fn word_says(said: Specification, symbol: Symbol) -> Option<Specification>
    ensures { option_map view_specification result ≡ word_says (view_specification said) symbol }
{
    match symbol {
        Symbol::Type(word) => Some(Specification {
            words: counted(said.words, word),
            ..said
        }),
        Symbol::Const => Some(Specification {
            words: with_const(said.words),
            ..said
        }),
        Symbol::Word(Word::Static) => {
            if said.is_static {
                None
            } else {
                Some(Specification {
                    is_static: true,
                    ..said
                })
            }
        }
        Symbol::Word(Word::Inline) => Some(Specification {
            is_inline: true,
            ..said
        }),
        _ => None,
    }
}

// A word that comes first.
fn word(
    dialect: Dialect,
    said: Specification,
    tokens: &[Token],
) -> Result<(Specification, &[Token]), Stuck>
    ensures value { Gives view_specification result (word_front dialect (view_specification said) tokens.now) }
    ensures shorter { IfOk result (λ x. length x.1.now < length tokens.now) }
{
    match tokens {
        [] => Err(stuck_at(tokens)),
        [token, rest @ ..] => match word_says(said, token_symbol(dialect, token)) {
            Some(next) => Ok((next, rest)),
            None => Err(stuck_at(tokens)),
        },
    }
}

// What is behind `_Alignas`, where it comes first.
fn past_align_as(dialect: Dialect, tokens: &[Token]) -> Option<&[Token]>
    ensures value { option_copied result ≡ past_test dialect is_align_as tokens.now }
    ensures shorter { IfSome result (λ rest. length rest.now < length tokens.now) }
{
    match tokens {
        [] => None,
        [token, rest @ ..] => match token_symbol(dialect, token) {
            Symbol::Word(Word::AlignAs) => Some(rest),
            _ => None,
        },
    }
}

// The specifier that comes first, behind what others said.
fn specifier(
    alloc: Global,
    dialect: Dialect,
    said: Specification,
    tokens: &[Token],
) -> Result<(Specification, &[Token]), Stuck>
    ensures value { Gives view_specification result (specifier_front dialect (view_specification said) tokens.now) }
    ensures shorter { IfOk result (λ x. length x.1.now < length tokens.now) }
{
    if let Some(behind) = past_align_as(dialect, tokens) {
        let (align, after) = alignment(alloc, dialect, said.align, behind)?;
        return Ok((Specification { align, ..said }, after));
    }
    if let Some(behind) = past_attribute(dialect, tokens) {
        let (align, after) = group(alloc, dialect, said.align, behind)?;
        return Ok((Specification { align, ..said }, after));
    }
    word(dialect, said, tokens)
}

// The specifiers that come first.
#[tactic(auto, using(crate::proofs::DeclarationsShorter::specifiers_eq))]
pub fn specifiers(
    alloc: Global,
    dialect: Dialect,
    tokens: &[Token],
) -> Result<(Specification, &[Token]), Stuck>
    ensures value { Gives view_specification result (specifiers_front dialect nothing_said tokens.now) }
    ensures shorter { IfOk result (λ x. length x.1.now ≤ length tokens.now) }
{
    let mut said = nothing_said();
    let mut left = tokens;
    while begins_declaration(first(dialect, left)) {
        let (next, after) = specifier(alloc, dialect, said, left)?;
        said = next;
        left = after;
    }
    Ok((said, left))
}

//! The macros that are defined before a text begins.

ghost use Rattle.std.specs.Prelude.{◌≡◌, ◌++◌, codes, map, IfOk, OnOk, Some};
ghost use Rattle.c_text.specs.PredefinedNames.{seen};
ghost use Rattle.c_macros.specs.Definition.{with_macro};
ghost use Rattle.c_macros.specs.Entries.{macros_of};
ghost use Rattle.c_directives.specs.Predefined.{token, shifted, bar, last_part, shuffle_body, begins_with_digit, word, body_of, has_parameters, predefinition, predefined};

use crate::definitions::definition_of;
use crate::numbers::Numbers;
use c_macros::{Macro, Macros};
use c_text::{Dialect, Place, PredefinedName, Text, Token, TokenKind, predefined_names};
use std::alloc::{AllocError, Global};

fn token(alloc: Global, kind: TokenKind, text: &[u8], spaced: bool) -> Result<Token, AllocError>
    ensures { IfOk result (λ t. t ≡ token kind text.now spaced) }
{
    Ok(Token {
        kind,
        text: Text::new(alloc, text)?,
        place: Place { line: 1, col: 1 },
        spaced,
        first: false,
    })
}

// `((NAME) << DIGIT)`
fn push_shifted(
    alloc: Global,
    out: &mut Vec<Token>,
    name: &[u8],
    digit: &[u8],
    spaced: bool,
) -> Result<(), AllocError>
    ensures { OnOk result (out.new.items ≡ out.old.items ++ shifted name.now digit.now spaced) }
{
    out.push(token(alloc, TokenKind::Mark, b"(", spaced)?)?;
    out.push(token(alloc, TokenKind::Mark, b"(", false)?)?;
    out.push(token(alloc, TokenKind::Name, name, false)?)?;
    out.push(token(alloc, TokenKind::Mark, b")", false)?)?;
    out.push(token(alloc, TokenKind::Mark, b"<<", true)?)?;
    out.push(token(alloc, TokenKind::Number, digit, true)?)?;
    out.push(token(alloc, TokenKind::Mark, b")", false)?)?;
    Ok(())
}

fn push_bar(alloc: Global, out: &mut Vec<Token>) -> Result<(), AllocError>
    ensures { OnOk result (out.new.items ≡ out.old.items ++ bar) }
{
    out.push(token(alloc, TokenKind::Mark, b"|", true)?)?;
    Ok(())
}

fn push_last(alloc: Global, out: &mut Vec<Token>) -> Result<(), AllocError>
    ensures { OnOk result (out.new.items ≡ out.old.items ++ last_part) }
{
    out.push(token(alloc, TokenKind::Mark, b"(", true)?)?;
    out.push(token(alloc, TokenKind::Name, b"w", false)?)?;
    out.push(token(alloc, TokenKind::Mark, b")", false)?)?;
    out.push(token(alloc, TokenKind::Mark, b")", false)?)?;
    Ok(())
}

fn shuffle_body(alloc: Global) -> Result<Vec<Token>, AllocError>
    ensures { IfOk result (λ v. v.items ≡ shuffle_body) }
{
    let mut out = Vec::new(alloc);
    out.push(token(alloc, TokenKind::Mark, b"(", false)?)?;
    push_shifted(alloc, &mut out, b"z", b"6", false)?;
    push_bar(alloc, &mut out)?;
    push_shifted(alloc, &mut out, b"y", b"4", true)?;
    push_bar(alloc, &mut out)?;
    push_shifted(alloc, &mut out, b"x", b"2", true)?;
    push_bar(alloc, &mut out)?;
    push_last(alloc, &mut out)?;
    Ok(out)
}

fn begins_with_digit(text: &[u8]) -> bool
    ensures { result ≡ begins_with_digit text.now }
{
    match text.first() {
        None => false,
        Some(first) => 47 < *first && *first < 58,
    }
}

fn word(alloc: Global, text: &[u8]) -> Result<Token, AllocError>
    ensures { IfOk result (λ t. t ≡ word text.now) }
{
    let kind = if begins_with_digit(text) {
        TokenKind::Number
    } else {
        TokenKind::Name
    };
    token(alloc, kind, text, false)
}

fn body_of(alloc: Global, name: &PredefinedName) -> Result<Vec<Token>, AllocError>
    ensures { IfOk result (λ v. v.items ≡ body_of (seen name.now)) }
{
    if !name.parameters.is_empty() {
        return shuffle_body(alloc);
    }
    let mut out = Vec::new(alloc);
    out.push(word(alloc, name.body.as_bytes())?)?;
    Ok(out)
}

fn parameters_of(alloc: Global, name: &PredefinedName) -> Result<Vec<Text>, AllocError>
    ensures { IfOk result (λ v. v.items ≡ (seen name.now).parameters) }
{
    let mut out = Vec::new(alloc);
    for parameter in name.parameters {
        out.push(Text::new(alloc, parameter.as_bytes())?)?;
    }
    Ok(out)
}

fn has_parameters(name: &PredefinedName) -> bool
    ensures { result ≡ has_parameters (seen name.now).parameters }
{
    match name.parameters.first() {
        None => false,
        Some(_) => true,
    }
}

fn predefinition(alloc: Global, name: &PredefinedName) -> Result<Macro, AllocError>
    ensures { IfOk result (λ m. m ≡ predefinition (seen name.now)) }
{
    let parameters = parameters_of(alloc, name)?;
    let numbers = Numbers::of(alloc, &parameters)?;
    let body = body_of(alloc, name)?;
    definition_of(alloc, has_parameters(name), parameters, &numbers, &body)
}

fn predefine(alloc: Global, macros: &mut Macros, name: &PredefinedName) -> Result<(), AllocError>
    ensures { OnOk result (macros_of macros.new ≡ with_macro (seen name.now).name (Some (predefinition (seen name.now))) (macros_of macros.old)) }
{
    let definition = predefinition(alloc, name)?;
    macros.insert(alloc, name.name.as_bytes(), definition)
}

/// The macros of a dialect.
#[tactic(auto, unfolding(crate::specs::Predefined::predefined))]
pub fn predefined(alloc: Global, dialect: Dialect) -> Result<Macros, AllocError>
    ensures { IfOk result (λ m. macros_of m ≡ predefined dialect) }
{
    let names = predefined_names(dialect);
    let mut macros = Macros::new(alloc);
    for i in (0..names.len()).rev() {
        predefine(alloc, &mut macros, &names[i])?;
    }
    Ok(macros)
}

//! What stands behind a macro's name where it is defined.

ghost use Rattle.std.specs.Prelude.{◌≡◌, ◌∷◌, ◌++◌, map, IfOk, OnOk, List, ℕ, false, true, codes, if◌then◌else◌, Some, None};
ghost use Rattle.std.specs.List.{list_any};
ghost use Rattle.c_macros.specs.Arguments.{is_mark};
ghost use Rattle.c_directives.specs.Definitions.{parameters, heading, number_of, piece, pieces, flag, flagged, definition_of, is_odd, made, made_with, definition};
ghost use Rattle.c_directives.specs.Entries.{numbers_of, heading_seen};

use crate::numbers::Numbers;
use c_macros::{Macro, Piece, is_mark, placed};
use c_text::{Text, Token, TokenKind};
use std::alloc::{AllocError, Global};

/// Why a definition is refused.
#[derive(Clone, Copy, Debug, PartialEq, Eq)]
pub enum Fault {
    /// It hasn't the form of one.
    Malformed,
    /// It breaks a rule on macros.
    Against,
}

/// What stands behind a function-like macro's name.
#[derive(Drop)]
pub struct Heading<'a> {
    pub names: Vec<Text>,
    /// `...` stands behind the names.
    pub variadic: bool,
    /// What stands behind the bracket.
    pub body: &'a [Token],
}

// One parameter at least, up to the bracket that closes them.
fn parameters<'a>(alloc: Global, tokens: &'a [Token]) -> Result<Option<Heading<'a>>, AllocError>
    ensures { IfOk result (λ o. heading_seen o ≡ parameters tokens.now) }
{
    let mut names = Vec::new(alloc);
    let mut left = tokens;
    while let [token, mark, behind @ ..] = left {
        if is_mark(b"...", token) {
            return Ok(variadic(names, mark, behind));
        }
        if token.kind != TokenKind::Name {
            return Ok(None);
        }
        names.push(token.text.copy(alloc)?)?;
        if is_mark(b")", mark) {
            return Ok(Some(Heading {
                names,
                variadic: false,
                body: behind,
            }));
        }
        if !is_mark(b",", mark) {
            return Ok(None);
        }
        left = behind;
    }
    Ok(None)
}

fn variadic<'a>(names: Vec<Text>, mark: &Token, behind: &'a [Token]) -> Option<Heading<'a>>
    ensures { heading_seen result ≡ (if is_mark (codes ")") mark.now then Some (names.items, (true, behind.now)) else None) }
{
    if is_mark(b")", mark) {
        Some(Heading {
            names,
            variadic: true,
            body: behind,
        })
    } else {
        None
    }
}

fn read_heading<'a>(alloc: Global, tokens: &'a [Token]) -> Result<Option<Heading<'a>>, AllocError>
    ensures { IfOk result (λ o. heading_seen o ≡ heading tokens.now) }
{
    match tokens.split_first() {
        None => Ok(None),
        Some((first, behind)) => {
            if is_mark(b")", first) {
                return Ok(Some(Heading {
                    names: Vec::new(alloc),
                    variadic: false,
                    body: behind,
                }));
            }
            parameters(alloc, tokens)
        }
    }
}

// A token of a body; white space before it may be left out.
fn piece(alloc: Global, numbers: &Numbers, token: &Token, spaced: bool) -> Result<Piece, AllocError>
    ensures { IfOk result (λ p. p ≡ piece (numbers_of numbers.now) (record token.now { spaced = spaced })) }
{
    let parameter = if token.kind == TokenKind::Name {
        numbers.find(token.text.bytes())
    } else {
        None
    };
    let mut token = placed(alloc, token, token.place)?;
    token.spaced = spaced;
    Ok(Piece { token, parameter })
}

fn push_pieces(
    alloc: Global,
    numbers: &Numbers,
    body: &[Token],
    out: &mut Vec<Piece>,
) -> Result<(), AllocError>
    ensures { OnOk result (out.new.items ≡ out.old.items ++ map (piece (numbers_of numbers.now)) body.now) }
{
    for token in body {
        out.push(piece(alloc, numbers, token, token.spaced)?)?;
    }
    Ok(())
}

fn pieces(alloc: Global, numbers: &Numbers, body: &[Token]) -> Result<Vec<Piece>, AllocError>
    ensures { IfOk result (λ v. v.items ≡ pieces (numbers_of numbers.now) body.now) }
{
    let mut out = Vec::new(alloc);
    if let Some((first, others)) = body.split_first() {
        out.push(piece(alloc, numbers, first, false)?)?;
        push_pieces(alloc, numbers, others, &mut out)?;
    }
    Ok(out)
}

fn flag(flags: &mut Vec<bool>, parameter: Option<usize>)
    ensures { flags.new.items ≡ flag parameter flags.old.items }
{
    if let Some(number) = parameter {
        if let Some(flag) = flags.get_mut(number) {
            *flag = true;
        }
    }
}

fn no_flags(alloc: Global, parameters: &[Text]) -> Result<Vec<bool>, AllocError>
    ensures { IfOk result (λ v. v.items ≡ map (λ p. false) parameters.now) }
{
    let mut flags = Vec::new(alloc);
    for _parameter in parameters {
        flags.push(false)?;
    }
    Ok(flags)
}

// For each parameter whether it stands in the body.
fn flagged(alloc: Global, parameters: &[Text], body: &[Piece]) -> Result<Vec<bool>, AllocError>
    ensures { IfOk result (λ v. v.items ≡ flagged body.now (map (λ p. false) parameters.now)) }
{
    let mut flags = no_flags(alloc, parameters)?;
    for piece in body {
        flag(&mut flags, piece.parameter);
    }
    Ok(flags)
}

/// The macro that these parameters and this body make.
pub fn definition_of(
    alloc: Global,
    function_like: bool,
    parameters: Vec<Text>,
    numbers: &Numbers,
    body: &[Token],
) -> Result<Macro, AllocError>
    requires { (x : List ℕ) → numbers_of numbers.now x ≡ number_of x 0 parameters.items }
    ensures { IfOk result (λ m. m ≡ definition_of function_like parameters.items body.now) }
{
    let body = pieces(alloc, numbers, body)?;
    let used = flagged(alloc, &parameters, &body)?;
    Ok(Macro {
        function_like,
        parameters,
        body,
        used,
    })
}

fn is_odd(token: &Token) -> bool
    ensures { result ≡ is_odd token.now }
{
    is_mark(b"#", token) || is_mark(b"##", token) || is_mark(b"...", token)
}

fn has_odd(body: &[Token]) -> bool
    ensures { result ≡ list_any is_odd body.now }
{
    body.iter().any(|token| is_odd(token))
}

fn made(
    alloc: Global,
    function_like: bool,
    parameters: Vec<Text>,
    body: &[Token],
) -> Result<Result<Macro, Fault>, AllocError>
    ensures { IfOk result (λ r. r ≡ made function_like parameters.items body.now) }
{
    let numbers = Numbers::of(alloc, &parameters)?;
    if numbers.has_twice || has_odd(body) {
        return Ok(Err(Fault::Against));
    }
    let definition = definition_of(alloc, function_like, parameters, &numbers, body)?;
    Ok(Ok(definition))
}

fn made_with(alloc: Global, heading: Option<Heading>) -> Result<Result<Macro, Fault>, AllocError>
    ensures { IfOk result (λ r. r ≡ made_with (heading_seen heading.entry)) }
{
    match heading {
        None => Ok(Err(Fault::Malformed)),
        Some(
            Heading {
                names,
                variadic,
                body,
            },
        ) => {
            if variadic {
                return Ok(Err(Fault::Against));
            }
            made(alloc, true, names, body)
        }
    }
}

/// What a macro is defined as, by what stands behind its name.
pub fn definition(alloc: Global, behind: &[Token]) -> Result<Result<Macro, Fault>, AllocError>
    ensures { IfOk result (λ r. r ≡ definition behind.now) }
{
    match behind.split_first() {
        None => made(alloc, false, Vec::new(alloc), behind),
        Some((first, others)) => {
            if first.spaced {
                made(alloc, false, Vec::new(alloc), behind)
            } else if is_mark(b"(", first) {
                let heading = read_heading(alloc, others)?;
                made_with(alloc, heading)
            } else {
                Ok(Err(Fault::Malformed))
            }
        }
    }
}

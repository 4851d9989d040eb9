//! From the bytes of a source to its unit with types, or its refusals.

ghost use Rattle.std.specs.Prelude.{◌≡◌, ◌<◌, ◌≤◌, ◌^◌, length, IfOk, IfErr, [], ◌∷◌};
ghost use Rattle.c_text.specs.Details.{IfRefused};
ghost use Rattle.c_tree.specs.View.{view_unit};
ghost use Rattle.vector_types.specs.Answers.{IfRefused as IfListRefused};
ghost use Rattle.simd_top.specs.Seen.{IsAlone};
ghost use Rattle.simd_top.specs.Source.{source_limit, HasTokens, AreUnit, AreRefused, IsParsed, IsUnparsed, HasUnit, AreFirst};

use c_parse::parse;
use c_preproc::{expand, scan};
use c_text::{Dialect, Fail, Refusal, Token, lex};
use c_tree::Unit;
use std::alloc::{AllocError, Global};
use vector_types::{CheckFail, TypedUnit, check};

// The tokens that the directives and macros of a source leave.
fn left_of(alloc: Global, dialect: Dialect, source: &[u8]) -> Result<Vec<Token>, Fail>
    requires { length source.now ≤ source_limit dialect }
    ensures left { IfOk result (λ left. HasTokens dialect source.now left.items) }
    ensures refused { IfErr result (λ e. IfRefused e (IsUnparsed dialect source.now)) }
{
    let tokens = lex(alloc, source)?;
    expand(alloc, tokens.as_slice(), dialect)
}

// The unit of expanded tokens.
#[tactic(auto, using(crate::proofs::Refused::parse_refused))]
fn parsed(alloc: Global, dialect: Dialect, left: &[Token]) -> Result<Unit, Fail>
    ensures unit { IfOk result (λ u. AreUnit dialect left.now (view_unit u)) }
    ensures refused { IfErr result (λ e. IfRefused e (AreRefused dialect left.now)) }
{
    scan(alloc, left, dialect)?;
    parse(alloc, left, dialect)
}

// The unit of a source, whose types aren't judged yet.
fn read(alloc: Global, dialect: Dialect, source: &[u8]) -> Result<Unit, Fail>
    requires { length source.now ≤ source_limit dialect }
    ensures unit { IfOk result (λ u. IsParsed dialect source.now (view_unit u)) }
    ensures refused { IfErr result (λ e. IfRefused e (IsUnparsed dialect source.now)) }
{
    let left = left_of(alloc, dialect, source)?;
    parsed(alloc, dialect, left.as_slice())
}

fn one(alloc: Global, refusal: Refusal) -> Result<Vec<Refusal>, AllocError>
    ensures { IfOk result (λ list. list.items ≡ refusal ∷ []) }
{
    let mut list = Vec::new(alloc);
    list.push(refusal)?;
    Ok(list)
}

fn alone(alloc: Global, fail: Fail) -> CheckFail
    ensures { IsAlone fail result }
{
    match fail {
        Fail::Memory => CheckFail::Memory,
        Fail::Refused(refusal) => match one(alloc, refusal) {
            Ok(list) => CheckFail::Refused(list),
            Err(_) => CheckFail::Memory,
        },
    }
}

/// The unit of a source with its types, or the refusals of the first phase that fails.
#[tactic(auto, using(crate::proofs::Refused::typed, crate::proofs::Refused::alone))]
pub fn unit_of(alloc: Global, dialect: Dialect, source: &[u8]) -> Result<TypedUnit, CheckFail>
    requires { length source.now ≤ source_limit dialect }
    ensures unit { IfOk result (λ v. HasUnit dialect source.now (view_unit v.unit)) }
    ensures refused { IfErr result (λ e. IfListRefused e (AreFirst dialect source.now)) }
{
    match read(alloc, dialect, source) {
        Ok(unit) => check(alloc, &unit, dialect),
        Err(fail) => Err(alone(alloc, fail)),
    }
}

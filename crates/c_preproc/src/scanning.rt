//! The scan of a text's tokens.

ghost use Rattle.std.specs.Prelude.{◌≡◌, ◌^◌, ◌<◌, List, ◌∷◌, ◌&&◌, take, reverse, codes, OnOk, IfErr, None, Some};
ghost use Rattle.c_preproc.specs.Role.{role_of, next_role, is_mark, is_name};
ghost use Rattle.c_preproc.specs.Nesting.{opens_block, ends_with_equals, ends_with_pair, contexts_behind};
ghost use Rattle.c_preproc.specs.Counts.{Shows};
ghost use Rattle.c_preproc.specs.Scan.{refusal_at, first_refusal, Passes, IsRefused};
ghost use Rattle.c_text.specs.Details.{refusal_of, IfRefused};

use crate::limits::dialect_limits;
use crate::nesting::Nesting;
use crate::roles::{is_mark, is_name, next_role, token_role};
use crate::words::is_excluded;
use c_constants::is_c_token;
use c_text::{Dialect, Fail, Token, refuse_token};
use std::alloc::Global;

// The numbers of the refusals.
const BAD_TOKEN: u8 = 4;

const OUTSIDE_PROFILE: u8 = 18;

const TOO_DEEP: u8 = 19;

fn ends_with_equals(before: &[Token]) -> bool
    ensures { result ≡ ends_with_equals (reverse before.now) }
{
    match before.split_last() {
        Some((last, _)) => is_mark(last, b"="),
        None => false,
    }
}

fn is_pair(first: &Token, name: &Token, last: &Token) -> bool
    ensures { result ≡ (is_mark (codes "(") first.now && is_name (codes "uint8x16x2_t") name.now && is_mark (codes ")") last.now) }
{
    is_mark(first, b"(") && is_name(name, b"uint8x16x2_t") && is_mark(last, b")")
}

fn ends_with_pair(before: &[Token]) -> bool
    ensures { result ≡ ends_with_pair (reverse before.now) }
{
    let Some((last, before)) = before.split_last() else {
        return false;
    };
    let Some((name, before)) = before.split_last() else {
        return false;
    };
    let Some((first, _)) = before.split_last() else {
        return false;
    };
    is_pair(first, name, last)
}

fn opens_block(before: &[Token]) -> bool
    ensures { result ≡ opens_block (reverse before.now) }
{
    !(ends_with_equals(before) || ends_with_pair(before))
}

fn judge(
    alloc: Global,
    dialect: Dialect,
    nesting: &mut Nesting,
    before: &[Token],
    token: &Token,
    after: &[Token],
) -> Result<(), Fail>
    requires shown { Shows nesting.old.current nesting.old.outer.items (contexts_behind (reverse before.now) (role_of token.now)) }
    requires light { nesting.old.weight < 2 ^ 32 }
    ensures ok { OnOk result (refusal_at dialect (reverse before.now) token.now after.now ≡ None) }
    ensures refused { IfErr result (λ e. IfRefused e
        (λ r. refusal_at dialect (reverse before.now) token.now after.now ≡ Some r)) }
    ensures shown { OnOk result (Shows nesting.new.current nesting.new.outer.items
        (contexts_behind (token.now ∷ reverse before.now) (next_role after.now))) }
    ensures light { OnOk result (nesting.new.weight < 2 ^ 32) }
{
    if !is_c_token(token) {
        return Err(refuse_token(alloc, BAD_TOKEN, token));
    }
    if is_excluded(dialect, token) {
        return Err(refuse_token(alloc, OUTSIDE_PROFILE, token));
    }
    nesting.count(token_role(token), opens_block(before), next_role(after))?;
    if nesting.is_too_deep(dialect_limits(dialect)) {
        return Err(refuse_token(alloc, TOO_DEEP, token));
    }
    Ok(())
}

#[tactic(auto, unfolding(crate::specs::Scan::first_refusal))]
fn scan_all(alloc: Global, tokens: &[Token], dialect: Dialect) -> Result<(), Fail>
    ensures ok { OnOk result (first_refusal dialect tokens.now ≡ None) }
    ensures refused { IfErr result (λ e. IfRefused e (λ r. first_refusal dialect tokens.now ≡ Some r)) }
{
    let mut nesting = Nesting::new(alloc);
    for (i, token) in tokens.iter().enumerate() {
        judge(
            alloc,
            dialect,
            &mut nesting,
            &tokens[..i],
            token,
            &tokens[i + 1..],
        )?;
    }
    Ok(())
}

/// Whether the tokens of a text may be parsed: every number and character constant is one of the C subset and no byte is
/// a token by itself (else 4), no excluded word stands (else 18), and nesting and weight are within the dialect's limits
/// (else 19). The first token that breaks a rule is refused, with its place and at most 255 bytes of it. Memory may run
/// out.
#[tactic(auto, using(crate::proofs::Firsts::none_passes, crate::proofs::Firsts::first_is_refused))]
pub fn scan(alloc: Global, tokens: &[Token], dialect: Dialect) -> Result<(), Fail>
    ensures ok { OnOk result (first_refusal dialect tokens.now ≡ None) }
    ensures refused { IfErr result (λ e. IfRefused e (λ r. first_refusal dialect tokens.now ≡ Some r)) }

    // The same, token by token.
    ensures passes { OnOk result (Passes dialect tokens.now) }
    ensures first { IfErr result (λ e. IfRefused e (IsRefused dialect tokens.now)) }
{
    scan_all(alloc, tokens, dialect)
}

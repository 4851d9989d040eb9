//! The expansion of a whole text.

ghost use Rattle.std.specs.Prelude.{◌≡◌, ◌≤◌, ◌<◌, ◌^◌, Ok, Err, IfOk, IfErr, OnOk};
ghost use Rattle.c_text.specs.Details.{IfRefused};
ghost use Rattle.c_directives.specs.Parts.{parts_of};
ghost use Rattle.c_macros.specs.Entries.{macros_of};
ghost use Rattle.c_directives.specs.Directives.{part_passed, expand_parts, expansion_by, expansion};
ghost use Rattle.c_directives.specs.Answers.{state_of, part_seen, Leaves, Steps};

use crate::conditions::refuse_unclosed;
use crate::directives::directive;
use crate::parts::{Part, first_part};
use crate::predefined::predefined;
use crate::rules::{Rules, rules_of};
use crate::state::{State, text};
use c_macros::{Macros, Made};
use c_text::{Dialect, Fail, Token};
use std::alloc::Global;

fn pass_part(alloc: Global, rules: Rules, part: Part, state: &mut State) -> Result<(), Fail>
    requires small { rules.work < 2 ^ 32 }
    requires within { state.old.made.work ≤ rules.work }
    ensures steps { Steps (part_passed rules (part_seen part.entry) (state_of state.old)) result state.new }
    ensures within { OnOk result (state.new.made.work ≤ rules.work) }
{
    match part {
        Part::Text(tokens) => text(alloc, rules, tokens, state),
        Part::Line(hash, line) => directive(alloc, rules, hash, line, state),
    }
}

fn pass_all(alloc: Global, rules: Rules, tokens: &[Token], state: &mut State) -> Result<(), Fail>
    requires small { rules.work < 2 ^ 32 }
    requires within { state.old.made.work ≤ rules.work }
    ensures { Leaves (expand_parts rules (parts_of tokens.now) (state_of state.old)) result state.new.made.tokens.items }
{
    let mut left = tokens;
    while let Some((part, rest)) = first_part(left) {
        pass_part(alloc, rules, part, state)?;
        left = rest;
    }
    refuse_unclosed(alloc, &state.conditions)
}

fn expand_by(
    alloc: Global,
    rules: Rules,
    macros: Macros,
    tokens: &[Token],
) -> Result<Vec<Token>, Fail>
    requires small { rules.work < 2 ^ 32 }
    ensures found { IfOk result (λ v. expansion_by rules (macros_of macros) tokens.now ≡ Ok v.items) }
    ensures refused { IfErr result (λ e. IfRefused e (λ r. expansion_by rules (macros_of macros) tokens.now ≡ Err r)) }
{
    let mut state = State {
        macros,
        conditions: Vec::new(alloc),
        made: Made {
            tokens: Vec::new(alloc),
            work: 0,
        },
    };
    pass_all(alloc, rules, tokens, &mut state)?;
    Ok(state.made.tokens)
}

/// The tokens that the directives and macros of a text leave, by ISO C11 6.10.
///
/// # Errors
///
/// `Refused` with the first fault in the text. 5 is a live directive that is unknown or malformed, a live `error` or a pragma other than
/// `once`, or an `if` or `elif` whose expression has no value; 6 a live include of a header that the dialect hasn't got; 7 a macro that is
/// defined or used against the rules; 8 an `elif`, `else` or `endif` without a partner, and last of all a conditional that isn't closed; 19
/// more than 64 bodies within bodies; 20 more expansion work or more tokens than the dialect's limit. `Memory` where memory ran out.
#[tactic(auto, unfolding(crate::specs::Directives::expansion))]
pub fn expand(alloc: Global, tokens: &[Token], dialect: Dialect) -> Result<Vec<Token>, Fail>
    // These tokens are left,
    ensures found { IfOk result (λ v. expansion dialect tokens.now ≡ Ok v.items) }
    // or the text is refused so.
    ensures refused { IfErr result (λ e. IfRefused e (λ r. expansion dialect tokens.now ≡ Err r)) }
{
    let macros = predefined(alloc, dialect)?;
    expand_by(alloc, rules_of(dialect), macros, tokens)
}

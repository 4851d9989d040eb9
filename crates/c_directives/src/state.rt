//! What a line finds and leaves.

ghost use Rattle.std.specs.Prelude.{◌≡◌, ◌≤◌, ◌<◌, ◌^◌, OnOk, reverse};
ghost use Rattle.c_macros.specs.Entries.{macros_of};
ghost use Rattle.c_macros.specs.Gives.{Gives};
ghost use Rattle.c_directives.specs.Directives.{within, expanded, text};
ghost use Rattle.c_directives.specs.Answers.{state_of, Steps};

use crate::conditions::{Condition, is_live};
use crate::rules::{MACRO_DEPTH, Rules};
use c_macros::{Macros, Made, expand_in};
use c_text::{Fail, Token, refuse_token};
use std::alloc::{AllocError, Global};

const TOO_MANY: u8 = 20;

/// What a line finds and leaves.
#[derive(Drop)]
pub struct State {
    pub macros: Macros,
    /// The conditionals that are open, the innermost last.
    pub conditions: Vec<Condition>,
    pub made: Made,
}

impl State {
    /// Opens a conditional, or a group of one that was taken off.
    pub fn enter(&mut self, condition: Condition) -> Result<(), AllocError>
        ensures shown { OnOk result (state_of self.new ≡ within condition (state_of self.old)) }
        ensures work { self.new.made.work ≡ self.old.made.work }
    {
        self.conditions.push(condition)?;
        Ok(())
    }
}

/// Expands tokens by themselves, behind what is made.
pub fn expand_tokens(
    alloc: Global,
    rules: Rules,
    macros: &Macros,
    tokens: &[Token],
    made: &mut Made,
) -> Result<(), Fail>
    requires small { rules.work < 2 ^ 32 }
    requires within { made.old.work ≤ rules.work }
    ensures gives { Gives (expanded rules (macros_of macros.now) made.old.tokens.items tokens.now made.old.work) result made.new }
    ensures within { OnOk result (made.new.work ≤ rules.work) }
{
    let mut uses = Vec::new(alloc);
    expand_in(
        alloc,
        rules.work,
        macros,
        MACRO_DEPTH,
        &mut uses,
        None,
        tokens,
        made,
    )
}

/// Expands the text between two directives, where it is live. The first token above the limit is refused.
#[tactic(auto, unfolding(crate::specs::Directives::text))]
pub fn text(alloc: Global, rules: Rules, tokens: &[Token], state: &mut State) -> Result<(), Fail>
    requires small { rules.work < 2 ^ 32 }
    requires within { state.old.made.work ≤ rules.work }
    ensures steps { Steps (text rules tokens.now (state_of state.old)) result state.new }
    ensures within { OnOk result (state.new.made.work ≤ rules.work) }
{
    if !is_live(&state.conditions) {
        return Ok(());
    }
    expand_tokens(alloc, rules, &state.macros, tokens, &mut state.made)?;
    match state.made.tokens.get(rules.tokens) {
        None => Ok(()),
        Some(token) => Err(refuse_token(alloc, TOO_MANY, token)),
    }
}

//! Directives, by their words.

ghost use Rattle.std.specs.Prelude.{◌≡◌, ◌≤◌, ◌<◌, ◌^◌, OnOk, reverse};
ghost use Rattle.c_macros.specs.Entries.{macros_of};
ghost use Rattle.c_directives.specs.Directives.{unless, with_macros, is_defined, alone, else_group, in_innermost, pragma, place_of_word, condition, first_test, begin, elif, later, obeyed, other, by_word, directive};
ghost use Rattle.c_directives.specs.Words.{word_of};
ghost use Rattle.c_directives.specs.Answers.{state_of, Answers, Refusing, Steps, Tests};

use crate::conditions::{Condition, is_live};
use crate::defining::{define, undef};
use crate::headers::include;
use crate::operands::resolved;
use crate::rules::Rules;
use crate::state::{State, expand_tokens};
use crate::words::{Word, word_of};
use c_conditions::holds;
use c_macros::{Macros, Made};
use c_text::{Fail, Token, TokenKind, refuse_token};
use std::alloc::Global;

const BAD_DIRECTIVE: u8 = 5;

const OPEN_CONDITION: u8 = 8;

// Whether the expression of an `if` or `elif` isn't 0.
fn test(
    alloc: Global,
    rules: Rules,
    word: &Token,
    line: &[Token],
    state: &mut State,
) -> Result<bool, Fail>
    requires small { rules.work < 2 ^ 32 }
    requires within { state.old.made.work ≤ rules.work }
    ensures tests { Tests (condition rules word.now line.now (state_of state.old)) result state.new }
    ensures within { OnOk result (state.new.made.work ≤ rules.work) }
{
    let Some(tokens) = resolved(alloc, &state.macros, line)? else {
        return Err(refuse_token(alloc, BAD_DIRECTIVE, word));
    };
    let mut made = Made {
        tokens: Vec::new(alloc),
        work: state.made.work,
    };
    expand_tokens(alloc, rules, &state.macros, &tokens, &mut made)?;
    state.made.work = made.work;
    match holds(alloc, &made.tokens)? {
        None => Err(refuse_token(alloc, BAD_DIRECTIVE, word)),
        Some(holds) => Ok(holds),
    }
}

// Whether the one name behind an `ifdef` or `ifndef` is a macro's.
fn is_defined(alloc: Global, word: &Token, line: &[Token], macros: &Macros) -> Result<bool, Fail>
    ensures { Answers (is_defined word.now line.now (macros_of macros.now)) result }
{
    match line {
        [name] if name.kind == TokenKind::Name => Ok(macros.find(name.text.bytes()).is_some()),
        _ => Err(refuse_token(alloc, BAD_DIRECTIVE, word)),
    }
}

fn first_test(
    alloc: Global,
    rules: Rules,
    word: &Token,
    says: Word,
    line: &[Token],
    state: &mut State,
) -> Result<bool, Fail>
    requires small { rules.work < 2 ^ 32 }
    requires within { state.old.made.work ≤ rules.work }
    ensures tests { Tests (first_test rules word.now says line.now (state_of state.old)) result state.new }
    ensures within { OnOk result (state.new.made.work ≤ rules.work) }
{
    match says {
        Word::Ifdef => is_defined(alloc, word, line, &state.macros),
        Word::Ifndef => Ok(!is_defined(alloc, word, line, &state.macros)?),
        _ => test(alloc, rules, word, line, state),
    }
}

fn begin(
    alloc: Global,
    rules: Rules,
    word: &Token,
    says: Word,
    line: &[Token],
    state: &mut State,
) -> Result<(), Fail>
    requires small { rules.work < 2 ^ 32 }
    requires within { state.old.made.work ≤ rules.work }
    ensures steps { Steps (begin rules word.now says line.now (state_of state.old)) result state.new }
    ensures within { OnOk result (state.new.made.work ≤ rules.work) }
{
    if !is_live(&state.conditions) {
        let condition = Condition::passed_over(alloc, word)?;
        state.enter(condition)?;
        return Ok(());
    }
    let live = first_test(alloc, rules, word, says, line, state)?;
    let condition = Condition::opened(alloc, word, live)?;
    state.enter(condition)?;
    Ok(())
}

// `elif` in a conditional, which was taken off.
fn elif(
    alloc: Global,
    rules: Rules,
    word: &Token,
    line: &[Token],
    condition: Condition,
    state: &mut State,
) -> Result<(), Fail>
    requires small { rules.work < 2 ^ 32 }
    requires within { state.old.made.work ≤ rules.work }
    ensures steps { Steps (elif rules word.now line.now condition (state_of state.old)) result state.new }
    ensures within { OnOk result (state.new.made.work ≤ rules.work) }
{
    if condition.last {
        return Err(refuse_token(alloc, OPEN_CONDITION, word));
    }
    if condition.spent {
        state.enter(condition.turned(false, false))?;
        return Ok(());
    }
    let live = test(alloc, rules, word, line, state)?;
    state.enter(condition.turned(live, false))?;
    Ok(())
}

// Refuses tokens behind an `else` or `endif` in a live group.
fn refuse_more(
    alloc: Global,
    word: &Token,
    line: &[Token],
    conditions: &[Condition],
) -> Result<(), Fail>
    ensures { Refusing (alone word.now line.now (reverse conditions.now)) result }
{
    if line.is_empty() || !is_live(conditions) {
        Ok(())
    } else {
        Err(refuse_token(alloc, BAD_DIRECTIVE, word))
    }
}

// `else` in a conditional, which was taken off.
fn else_group(
    alloc: Global,
    word: &Token,
    line: &[Token],
    condition: Condition,
    state: &mut State,
) -> Result<(), Fail>
    ensures steps { Steps (else_group word.now line.now condition (state_of state.old)) result state.new }
    ensures work { state.new.made.work ≡ state.old.made.work }
{
    if condition.last {
        return Err(refuse_token(alloc, OPEN_CONDITION, word));
    }
    refuse_more(alloc, word, line, &state.conditions)?;
    let live = !condition.spent;
    state.enter(condition.turned(live, true))?;
    Ok(())
}

fn pragma(alloc: Global, word: &Token, line: &[Token]) -> Result<(), Fail>
    ensures { Refusing (pragma word.now line.now) result }
{
    match line {
        [once] if once.kind == TokenKind::Name && once.text.bytes() == b"once".as_slice() => Ok(()),
        _ => Err(refuse_token(alloc, BAD_DIRECTIVE, word)),
    }
}

fn place_of_word<'a>(hash: &'a Token, word: &'a Token) -> &'a Token
    ensures { result.now ≡ place_of_word hash.now word.now }
{
    if word.kind == TokenKind::Name {
        word
    } else {
        hash
    }
}

// A live directive that is no conditional.
fn obey(
    alloc: Global,
    rules: Rules,
    hash: &Token,
    word: &Token,
    says: Word,
    line: &[Token],
    state: &mut State,
) -> Result<(), Fail>
    ensures steps { Steps (obeyed rules hash.now word.now says line.now (state_of state.old)) result state.new }
    ensures work { state.new.made.work ≡ state.old.made.work }
{
    match says {
        Word::Include => include(alloc, rules.dialect, word, line),
        Word::Define => define(alloc, word, line, &mut state.macros),
        Word::Undef => undef(alloc, word, line, &mut state.macros),
        Word::Pragma => pragma(alloc, word, line),
        _ => Err(refuse_token(alloc, BAD_DIRECTIVE, place_of_word(hash, word))),
    }
}

fn other(
    alloc: Global,
    rules: Rules,
    hash: &Token,
    word: &Token,
    says: Word,
    line: &[Token],
    state: &mut State,
) -> Result<(), Fail>
    ensures steps { Steps (other rules hash.now word.now says line.now (state_of state.old)) result state.new }
    ensures work { state.new.made.work ≡ state.old.made.work }
{
    if is_live(&state.conditions) {
        obey(alloc, rules, hash, word, says, line, state)
    } else {
        Ok(())
    }
}

// `elif`, `else` or `endif`.
fn in_innermost(
    alloc: Global,
    rules: Rules,
    word: &Token,
    says: Word,
    line: &[Token],
    state: &mut State,
) -> Result<(), Fail>
    requires small { rules.work < 2 ^ 32 }
    requires within { state.old.made.work ≤ rules.work }
    ensures steps { Steps (in_innermost word.now (later rules word.now says line.now) (state_of state.old) (reverse state.old.conditions.items)) result state.new }
    ensures within { OnOk result (state.new.made.work ≤ rules.work) }
{
    let Some(condition) = state.conditions.pop() else {
        return Err(refuse_token(alloc, OPEN_CONDITION, word));
    };
    match says {
        Word::Elif => elif(alloc, rules, word, line, condition, state),
        Word::Else => else_group(alloc, word, line, condition, state),
        _ => refuse_more(alloc, word, line, &state.conditions),
    }
}

// A directive that isn't empty.
fn by_word(
    alloc: Global,
    rules: Rules,
    hash: &Token,
    word: &Token,
    line: &[Token],
    state: &mut State,
) -> Result<(), Fail>
    requires small { rules.work < 2 ^ 32 }
    requires within { state.old.made.work ≤ rules.work }
    ensures steps { Steps (by_word rules hash.now word.now (word_of word.now) line.now (state_of state.old)) result state.new }
    ensures within { OnOk result (state.new.made.work ≤ rules.work) }
{
    let says = word_of(word);
    match says {
        Word::If | Word::Ifdef | Word::Ifndef => begin(alloc, rules, word, says, line, state),
        Word::Elif | Word::Else | Word::Endif => {
            in_innermost(alloc, rules, word, says, line, state)
        }
        _ => other(alloc, rules, hash, word, says, line, state),
    }
}

/// Obeys a directive: its `#`, and what stands behind it on its line.
#[tactic(auto, unfolding(crate::specs::Directives::directive))]
pub fn directive(
    alloc: Global,
    rules: Rules,
    hash: &Token,
    line: &[Token],
    state: &mut State,
) -> Result<(), Fail>
    requires small { rules.work < 2 ^ 32 }
    requires within { state.old.made.work ≤ rules.work }
    ensures steps { Steps (directive rules hash.now line.now (state_of state.old)) result state.new }
    ensures within { OnOk result (state.new.made.work ≤ rules.work) }
{
    match line.split_first() {
        None => Ok(()),
        Some((word, line)) => by_word(alloc, rules, hash, word, line, state),
    }
}

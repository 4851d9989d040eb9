//! The reading of an expression, in one pass over its tokens.

ghost use Rattle.std.specs.Prelude.{◌≡◌, ◌+◌, ◌*◌, List, length, IfOk};
ghost use Rattle.std.specs.Option.{option_copied};
ghost use Rattle.c_conditions.specs.Value.{value, holds, whole, after_mark};
ghost use Rattle.c_conditions.specs.Stack.{left, behind_operand, around, resumed, Goes, IsShorter};

use crate::signs::{Infix, Link, Start, beginning, is_mark, link_of};
use crate::worths::{Worth, chosen, is_zero, joined, operated_before};
use c_text::Token;
use lane_core::number::{Num, UnOp};
use std::alloc::{AllocError, Global};

/// What a part of an expression that is being read stands in, with the level of the expression around both.
#[derive(Clone, Copy, Drop)]
pub enum Pending {
    /// Behind an operand and this operator.
    Joint(u8, Infix, Worth),
    /// Behind an operator before its operand.
    Prefix(u8, UnOp),
    /// In brackets.
    Bracket(u8),
    /// Behind a condition and `?`.
    Condition(Worth),
    /// Behind a condition, `?`, an expression and `:`.
    Choice(Worth, Worth),
}

/// What is left of the innermost part.
#[derive(Clone, Copy)]
pub struct Rest<'a> {
    pub tokens: &'a [Token],
    /// Its level.
    pub level: u8,
    /// Its first unary expression, if that was read.
    pub operand: Option<Worth>,
}

/// What a step leaves.
#[derive(Clone, Copy)]
pub enum Step<'a> {
    Next(Rest<'a>),
    /// All is read, and has this value.
    Done(Option<Num>),
}

// The tokens behind this mark, if it comes next.
fn after_mark<'a>(mark: &[u8], tokens: &'a [Token]) -> Option<&'a [Token]>
    ensures value { option_copied result ≡ after_mark mark.now tokens.now }
{
    match tokens.split_first() {
        Some((token, rest)) if is_mark(mark, token) => Some(rest),
        _ => None,
    }
}

// An operand must stand next.
fn begin<'a>(
    stack: &mut Vec<Pending>,
    level: u8,
    tokens: &'a [Token],
) -> Result<Step<'a>, AllocError>
    ensures goes { IfOk result (λ s. Goes (whole (resumed stack.old.items (left level None tokens.now))) s stack.new.items) }
    ensures shorter { IfOk result (λ s. IsShorter (2 * length tokens.now + length stack.old.items) s stack.new.items) }
{
    match tokens.split_first() {
        None => Ok(Step::Done(None)),
        Some((token, rest)) => match beginning(token) {
            Start::Prefix(op) => {
                stack.push(Pending::Prefix(level, op))?;
                Ok(Step::Next(Rest {
                    tokens: rest,
                    level: 11,
                    operand: None,
                }))
            }
            Start::Bracket => {
                stack.push(Pending::Bracket(level))?;
                Ok(Step::Next(Rest {
                    tokens: rest,
                    level: 0,
                    operand: None,
                }))
            }
            Start::Operand(operand) => Ok(Step::Next(Rest {
                tokens: rest,
                level,
                operand: Some(operand),
            })),
            Start::Nothing => Ok(Step::Done(None)),
        },
    }
}

// The expression in brackets is read.
fn close_bracket<'a>(outside: u8, operand: Worth, tokens: &'a [Token]) -> Step<'a>
    ensures goes { (ps : List Pending) → Goes (whole (resumed ps (around (Pending.Bracket outside) (Some (operand, tokens.now))))) result ps }
    ensures shorter { (ps : List Pending) → IsShorter (2 * length tokens.now + length ps + 1) result ps }
{
    match after_mark(b")", tokens) {
        None => Step::Done(None),
        Some(after) => Step::Next(Rest {
            tokens: after,
            level: outside,
            operand: Some(operand),
        }),
    }
}

// The expression between `?` and `:` is read.
fn close_condition<'a>(
    stack: &mut Vec<Pending>,
    condition: Worth,
    operand: Worth,
    tokens: &'a [Token],
) -> Result<Step<'a>, AllocError>
    ensures goes { IfOk result (λ s. Goes (whole (resumed stack.old.items
        (around (Pending.Condition condition) (Some (operand, tokens.now))))) s stack.new.items) }
    ensures shorter { IfOk result (λ s. IsShorter (2 * length tokens.now + length stack.old.items + 1) s stack.new.items) }
{
    match after_mark(b":", tokens) {
        None => Ok(Step::Done(None)),
        Some(after) => {
            stack.push(Pending::Choice(condition, operand))?;
            Ok(Step::Next(Rest {
                tokens: after,
                level: 0,
                operand: None,
            }))
        }
    }
}

// What a part stands in goes on behind it.
fn close_in<'a>(
    stack: &mut Vec<Pending>,
    pending: Pending,
    operand: Worth,
    tokens: &'a [Token],
) -> Result<Step<'a>, AllocError>
    ensures goes { IfOk result (λ s. Goes (whole (resumed stack.old.items (around pending (Some (operand, tokens.now))))) s stack.new.items) }
    ensures shorter { IfOk result (λ s. IsShorter (2 * length tokens.now + length stack.old.items + 1) s stack.new.items) }
{
    let (level, operand) = match pending {
        Pending::Joint(outside, operator, first) => (outside, joined(operator, first, operand)),
        Pending::Prefix(outside, op) => (outside, operated_before(op, operand)),
        Pending::Choice(condition, first) => (0, chosen(condition, first, operand)),
        Pending::Bracket(outside) => return Ok(close_bracket(outside, operand, tokens)),
        Pending::Condition(condition) => return close_condition(stack, condition, operand, tokens),
    };
    Ok(Step::Next(Rest {
        tokens,
        level,
        operand: Some(operand),
    }))
}

// The innermost part is read.
fn close<'a>(
    stack: &mut Vec<Pending>,
    operand: Worth,
    tokens: &'a [Token],
) -> Result<Step<'a>, AllocError>
    ensures goes { IfOk result (λ s. Goes (whole (resumed stack.old.items (Some (operand, tokens.now)))) s stack.new.items) }
    ensures shorter { IfOk result (λ s. IsShorter (2 * length tokens.now + length stack.old.items) s stack.new.items) }
{
    match stack.pop() {
        Some(pending) => close_in(stack, pending, operand, tokens),
        None => match tokens {
            [] => Ok(Step::Done(operand.value)),
            _ => Ok(Step::Done(None)),
        },
    }
}

// An operand is read.
fn go_on<'a>(
    stack: &mut Vec<Pending>,
    level: u8,
    operand: Worth,
    tokens: &'a [Token],
) -> Result<Step<'a>, AllocError>
    ensures goes { IfOk result (λ s. Goes (whole (resumed stack.old.items (behind_operand level operand tokens.now))) s stack.new.items) }
    ensures shorter { IfOk result (λ s. IsShorter (2 * length tokens.now + length stack.old.items) s stack.new.items) }
{
    match tokens.split_first() {
        None => close(stack, operand, tokens),
        Some((token, rest)) => match link_of(token) {
            Link::Infix(tight, operator) if level <= tight => {
                stack.push(Pending::Joint(level, operator, operand))?;
                Ok(Step::Next(Rest {
                    tokens: rest,
                    level: tight + 1,
                    operand: None,
                }))
            }
            Link::Question if level == 0 => {
                stack.push(Pending::Condition(operand))?;
                Ok(Step::Next(Rest {
                    tokens: rest,
                    level: 0,
                    operand: None,
                }))
            }
            _ => close(stack, operand, tokens),
        },
    }
}

fn read_on<'a>(stack: &mut Vec<Pending>, rest: Rest<'a>) -> Result<Step<'a>, AllocError>
    ensures goes { IfOk result (λ s. Goes (whole (resumed stack.old.items
        (left rest.entry.level rest.entry.operand rest.entry.tokens.now))) s stack.new.items) }
    ensures shorter { IfOk result (λ s. IsShorter (2 * length rest.entry.tokens.now + length stack.old.items) s stack.new.items) }
{
    match rest.operand {
        None => begin(stack, rest.level, rest.tokens),
        Some(operand) => go_on(stack, rest.level, operand, rest.tokens),
    }
}

/// The value of the expression that these tokens are, whose `defined`s are replaced and whose macros are expanded; none where they are no
/// expression, or where C leaves its value undefined (C11 6.10.1). It is read in one pass, in time linear in the tokens.
pub fn value(alloc: Global, tokens: &[Token]) -> Result<Option<Num>, AllocError>
    ensures { IfOk result (λ o. o ≡ value tokens.now) }
{
    let mut stack = Vec::new(alloc);
    let mut left = Rest {
        tokens,
        level: 0,
        operand: None,
    };
    'reading: loop {
        match read_on(&mut stack, left)? {
            Step::Done(value) => return Ok(value),
            Step::Next(rest) => left = rest,
        }
    }
}

/// Whether the expression of an `if` or `elif` line, whose `defined`s are replaced and whose macros are expanded, isn't 0; none where it is no
/// expression, or has no value (C11 6.10.1).
pub fn holds(alloc: Global, tokens: &[Token]) -> Result<Option<bool>, AllocError>
    ensures { IfOk result (λ o. o ≡ holds tokens.now) }
{
    match value(alloc, tokens)? {
        None => Ok(None),
        Some(n) => Ok(Some(!is_zero(n))),
    }
}

//! The expansion of a list of tokens.

ghost use Rattle.std.specs.Prelude.{◌≡◌, ◌+◌, ◌<◌, ◌≤◌, ◌^◌, [], ◌∷◌, map, length, vec_len, IfOk, IfSome, OnOk};
ghost use Rattle.std.specs.Option.{option_map, option_copied};
ghost use Rattle.c_macros.specs.Entries.{macros_of};
ghost use Rattle.c_macros.specs.Expansion.{and_then, behind, replaced, filled, bodies_in, expand_in};
ghost use Rattle.c_macros.specs.Stack.{fresh, top_of, with_done, next_of, pending, resumed};
ghost use Rattle.c_macros.specs.Gives.{Gives, Goes, frame_seen, frame_size, stack_size};

use crate::filling::{fill, outermost, placed, work_after};
use crate::hinted::jumps_of;
use crate::macros::{Macro, Piece};
use crate::names::Macros;
use crate::segments::{Segment, nothing, split_first};
use crate::sights::{Found, Use, sight};
use c_text::{Fail, Token, refuse_token};
use std::alloc::Global;
use std::mem;

const BAD_MACRO: u8 = 7;

const TOO_DEEP: u8 = 19;

const TOO_MANY: u8 = 20;

/// What is made.
#[derive(Drop)]
pub struct Made {
    pub tokens: Vec<Token>,
    /// The work that was done.
    pub work: usize,
}

/// A use whose arguments are being expanded.
#[derive(Drop)]
pub struct Open<'a> {
    pub name: &'a Token,
    /// The outermost use that it stands in, if it stands in one.
    pub outer: Option<&'a Token>,
    pub definition: &'a Macro,
    /// Its arguments, and how many were read.
    pub arguments: Vec<Segment<'a>>,
    pub next: usize,
    /// The arguments that are expanded.
    pub done: Vec<Vec<Token>>,
    /// What stands behind it.
    pub rest: Segment<'a>,
    /// What was made in front of it.
    pub front: Vec<Token>,
}

/// What is to be read next, and the outermost use that it stands in, if it stands in one.
#[derive(Clone, Copy)]
pub struct Next<'a> {
    pub segment: Segment<'a>,
    pub outer: Option<&'a Token>,
}

// What is read of the next argument, if one is left.
fn next_argument<'a>(inside: &Open<'a>) -> Option<Segment<'a>>
    ensures value { option_map (λ s. s.tokens.now) result ≡ next_of (frame_seen inside.now) }
    ensures within { IfSome result (λ _. inside.now.next < vec_len inside.now.arguments) }
{
    let definition = inside.definition;
    let used = *definition.used.get(inside.next)?;
    let argument = *inside.arguments.get(inside.next)?;
    if used {
        Some(argument)
    } else {
        Some(nothing())
    }
}

// A use is met: what was made is put aside.
fn enter<'a>(
    alloc: Global,
    outer: Option<&'a Token>,
    name: &'a Token,
    found: Use<'a>,
    made: &mut Made,
) -> Open<'a>
    ensures frame { frame_seen result ≡ fresh (option_copied outer.entry) name.now found.entry.definition.now (map (λ a. a.tokens.now) found.entry.arguments.items) found.entry.rest.tokens.now made.old.tokens.items }
    ensures bare { made.new.tokens.items ≡ [] }
    ensures work { made.new.work ≡ made.old.work }
{
    Open {
        name,
        outer,
        definition: found.definition,
        arguments: found.arguments,
        next: 0,
        done: Vec::new(alloc),
        rest: found.rest,
        front: mem::replace(&mut made.tokens, Vec::new(alloc)),
    }
}

fn body_of(definition: &Macro) -> &[Piece]
    ensures { result.now ≡ definition.now.body }
{
    &definition.body
}

// A use whose arguments are expanded is replaced by its body, which is expanded again.
#[cycle(expansion)]
fn replace(
    alloc: Global,
    limit: usize,
    macros: &Macros,
    depth: usize,
    uses: &mut Vec<Token>,
    top: &Token,
    name: &Token,
    definition: &Macro,
    arguments: &[Vec<Token>],
    made: &mut Made,
) -> Result<(), Fail>
    requires small { limit < 2 ^ 32 }
    requires within { made.old.work ≤ limit }
    requires shallow { depth ≤ 64 }
    ensures gives { Gives (and_then
        (replaced limit (bodies_in limit (macros_of macros.now) depth) uses.old.items top.now name.now
        (filled name.now.place (map (λ v. v.items) arguments.now) definition.now.body) made.old.work)
        (behind made.old.tokens.items)) result made.new }
    ensures within { OnOk result (made.new.work ≤ limit) }
    ensures kept { OnOk result (uses.new.items ≡ uses.old.items) }
{
    let Some(work) = work_after(made.work, limit, name.place, arguments, body_of(definition)) else {
        return Err(refuse_token(alloc, TOO_MANY, top));
    };
    if depth == 0 {
        return Err(refuse_token(alloc, TOO_DEEP, top));
    }
    let tokens = fill(alloc, name.place, arguments, body_of(definition))?;
    made.work = work;
    uses.push(placed(alloc, name, name.place)?)?;
    expand_in(
        alloc,
        limit,
        macros,
        depth - 1,
        uses,
        Some(top),
        &tokens,
        made,
    )?;
    uses.pop();
    Ok(())
}

// The next argument of a use, or where none is left what stands behind it: that is to be read next.
#[cycle(expansion)]
fn advance<'a>(
    alloc: Global,
    limit: usize,
    macros: &Macros,
    depth: usize,
    uses: &mut Vec<Token>,
    stack: &mut Vec<Open<'a>>,
    mut inside: Open<'a>,
    made: &mut Made,
) -> Result<Next<'a>, Fail>
    requires small { limit < 2 ^ 32 }
    requires within { made.old.work ≤ limit }
    requires shallow { depth ≤ 64 }
    requires bare { made.old.tokens.items ≡ [] }
    ensures goes { Goes limit (macros_of macros.now) depth uses.old.items
        (resumed limit (macros_of macros.now) depth uses.old.items (map frame_seen stack.old.items)
        (pending limit (macros_of macros.now) depth uses.old.items (frame_seen inside.entry) made.old.work))
        result stack.new.items made.new }
    ensures shorter { IfOk result (λ next. stack_size (map frame_seen stack.new.items) + length next.segment.tokens.now
        < stack_size (map frame_seen stack.old.items) + frame_size (frame_seen inside.entry)) }
    ensures within { OnOk result (made.new.work ≤ limit) }
    ensures kept { OnOk result (uses.new.items ≡ uses.old.items) }
{
    if let Some(segment) = next_argument(&inside) {
        inside.next += 1;
        let outer = Some(outermost(inside.outer, inside.name));
        stack.push(inside)?;
        return Ok(Next { segment, outer });
    }
    let Open {
        name,
        outer,
        definition,
        done,
        rest,
        front,
        ..
    } = inside;
    made.tokens = front;
    let top = outermost(outer, name);
    replace(
        alloc, limit, macros, depth, uses, top, name, definition, &done, made,
    )?;
    Ok(Next {
        segment: rest,
        outer,
    })
}

// An argument of a use is expanded: what is to be read next.
#[cycle(expansion)]
fn close<'a>(
    alloc: Global,
    limit: usize,
    macros: &Macros,
    depth: usize,
    uses: &mut Vec<Token>,
    stack: &mut Vec<Open<'a>>,
    mut inside: Open<'a>,
    made: &mut Made,
) -> Result<Next<'a>, Fail>
    requires small { limit < 2 ^ 32 }
    requires within { made.old.work ≤ limit }
    requires shallow { depth ≤ 64 }
    ensures goes { Goes limit (macros_of macros.now) depth uses.old.items
        (resumed limit (macros_of macros.now) depth uses.old.items (map frame_seen stack.old.items)
        (pending limit (macros_of macros.now) depth uses.old.items (with_done made.old.tokens.items (frame_seen inside.entry)) made.old.work))
        result stack.new.items made.new }
    ensures shorter { IfOk result (λ next. stack_size (map frame_seen stack.new.items) + length next.segment.tokens.now
        < stack_size (map frame_seen stack.old.items) + frame_size (frame_seen inside.entry)) }
    ensures within { OnOk result (made.new.work ≤ limit) }
    ensures kept { OnOk result (uses.new.items ≡ uses.old.items) }
{
    let argument = mem::replace(&mut made.tokens, Vec::new(alloc));
    inside.done.push(argument)?;
    advance(alloc, limit, macros, depth, uses, stack, inside, made)
}

// A token in front of others is read: what is to be read next.
#[cycle(expansion)]
fn read<'a>(
    alloc: Global,
    limit: usize,
    macros: &'a Macros,
    depth: usize,
    uses: &mut Vec<Token>,
    stack: &mut Vec<Open<'a>>,
    outer: Option<&'a Token>,
    token: &'a Token,
    after: Segment<'a>,
    made: &mut Made,
) -> Result<Next<'a>, Fail>
    requires small { limit < 2 ^ 32 }
    requires within { made.old.work ≤ limit }
    requires shallow { depth ≤ 64 }
    ensures goes { Goes limit (macros_of macros.now) depth uses.old.items
        (resumed limit (macros_of macros.now) depth uses.old.items (map frame_seen stack.old.items)
        (and_then (expand_in limit (macros_of macros.now) depth uses.old.items (option_copied outer.entry) (token.now ∷ after.entry.tokens.now) made.old.work) (behind made.old.tokens.items)))
        result stack.new.items made.new }
    ensures shorter { IfOk result (λ next. stack_size (map frame_seen stack.new.items) + length next.segment.tokens.now
        < stack_size (map frame_seen stack.old.items) + (1 + length after.entry.tokens.now)) }
    ensures within { OnOk result (made.new.work ≤ limit) }
    ensures kept { OnOk result (uses.new.items ≡ uses.old.items) }
{
    match sight(alloc, macros, uses, token, after)? {
        Found::Plain => {
            made.tokens.push(placed(alloc, token, token.place)?)?;
            Ok(Next {
                segment: after,
                outer,
            })
        }
        Found::Wrong => Err(refuse_token(alloc, BAD_MACRO, token)),
        Found::Use(found) => {
            let inside = enter(alloc, outer, token, found, made);
            advance(alloc, limit, macros, depth, uses, stack, inside, made)
        }
    }
}

/// The expansion of tokens in the bodies of these uses, where so many more bodies may stand within them.
#[cycle(expansion)]
pub fn expand_in<'a>(
    alloc: Global,
    limit: usize,
    macros: &'a Macros,
    depth: usize,
    uses: &mut Vec<Token>,
    outer: Option<&'a Token>,
    tokens: &'a [Token],
    made: &mut Made,
) -> Result<(), Fail>
    requires small { limit < 2 ^ 32 }
    requires within { made.old.work ≤ limit }
    requires shallow { depth ≤ 64 }
    ensures gives { Gives (and_then
        (expand_in limit (macros_of macros.now) depth uses.old.items (option_copied outer.entry) tokens.now made.old.work)
        (behind made.old.tokens.items)) result made.new }
    ensures within { OnOk result (made.new.work ≤ limit) }
    ensures kept { OnOk result (uses.new.items ≡ uses.old.items) }
{
    let jumps = jumps_of(alloc, tokens)?;
    let mut stack = Vec::new(alloc);
    let mut left = Next {
        segment: Segment {
            tokens,
            jumps: &jumps,
        },
        outer,
    };
    'reading: loop {
        match split_first(left.segment) {
            Some((token, after)) => {
                left = read(
                    alloc, limit, macros, depth, uses, &mut stack, left.outer, token, after, made,
                )?;
            }
            None => match stack.pop() {
                None => return Ok(()),
                Some(inside) => {
                    left = close(alloc, limit, macros, depth, uses, &mut stack, inside, made)?;
                }
            },
        }
    }
}

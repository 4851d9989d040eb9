//! The parts of a full expression, and whether they pass.

ghost use Rattle.std.specs.Prelude.{◌≡◌, IfOk, option_map};
ghost use Rattle.c_tree.specs.View.{view, view_kind, views};
ghost use Rattle.c_tree.specs.Nodes.{root};
ghost use Rattle.order_rule.specs.Callees.{callees_of};
ghost use Rattle.order_rule.specs.Memory.{env_of};
ghost use Rattle.order_rule.specs.Counting.{IsCounted};
ghost use Rattle.order_rule.specs.Parts.{assigns_once, assigns_memory, is_once, may_change, may_change_target, changes_well, changes_well_in, changes_well_in_all, writes_well, passes, unless, broken, broken_in_all};

use crate::callees::Callees;
use crate::counting::{Counts, counts_of};
use crate::memory::Memory;
use crate::reading::reads;
use crate::times::Times;
use crate::writing::{changes, in_memory, is_target, writers};
use c_tree::{Expr, ExprKind, root};
use std::alloc::{AllocError, Global};

/// Whether the expression is an assignment to that variable, whose right side neither steps nor assigns it.
fn assigns_once(name: &[u8], e: &Expr) -> bool
    ensures { result ≡ assigns_once name.now (view e.now) }
{
    match &*e.kind {
        ExprKind::Assign(_, a, b) => is_target(name, a) && !changes(name, b),
        _ => false,
    }
}

/// Whether the expression is an assignment to an object in memory.
fn assigns_memory(memory: &Memory, e: &Expr) -> bool
    ensures { result ≡ assigns_memory (env_of memory.now) (view e.now) }
{
    match &*e.kind {
        ExprKind::Assign(_, a, _) => in_memory(memory, a),
        _ => false,
    }
}

fn is_once(times: Times) -> bool
    ensures { result ≡ is_once times }
{
    match times {
        Times::Once => true,
        Times::Never | Times::Often => false,
    }
}

/// A part of a full expression, and how often each name occurs in it.
#[derive(Clone, Copy)]
struct Part<'e> {
    whole: &'e Expr,
    counts: &'e Counts,
}

/// Whether the variable may be stepped or assigned in that part.
fn may_change(part: Part, name: &[u8]) -> bool
    requires { IsCounted part.counts.now (view part.whole.now) }
    ensures { result ≡ may_change (view part.entry.whole.now) name.now }
{
    is_once(part.counts.times(name)) || assigns_once(name, root(part.whole))
}

/// Whether the object that is stepped or assigned, if it is a variable, may be.
fn may_change_target(part: Part, a: &Expr) -> bool
    requires { IsCounted part.counts.now (view part.whole.now) }
    ensures { result ≡ may_change_target (view part.entry.whole.now) (view a.now) }
{
    match &*a.kind {
        ExprKind::Name(x) => may_change(part, x.bytes()),
        _ => true,
    }
}

/// Whether each variable that the expression steps or assigns may be.
#[cycle(changes)]
fn changes_well(part: Part, e: &Expr) -> bool
    requires { IsCounted part.counts.now (view part.whole.now) }
    ensures { result ≡ changes_well (view part.entry.whole.now) (view e.now) }
{
    changes_well_in(part, &e.kind)
}

#[cycle(changes)]
fn changes_well_in(part: Part, k: &ExprKind) -> bool
    requires { IsCounted part.counts.now (view part.whole.now) }
    ensures { result ≡ changes_well_in (view part.entry.whole.now) (view_kind k.now) }
{
    match k {
        ExprKind::Step(a, _, _) => may_change_target(part, root(a)) && changes_well(part, a),
        ExprKind::Assign(_, a, b) => may_change_target(part, root(a))
            && (changes_well(part, a) && changes_well(part, b)),
        ExprKind::Unary(_, a) | ExprKind::Cast(_, a, _) => changes_well(part, a),
        ExprKind::Deref(a) | ExprKind::Address(a) | ExprKind::Half(a, _) => changes_well(part, a),
        ExprKind::Binary(_, a, b) | ExprKind::AndThen(a, b) => changes_well(part, a)
            && changes_well(part, b),
        ExprKind::OrElse(a, b) | ExprKind::Index(a, b) => changes_well(part, a)
            && changes_well(part, b),
        ExprKind::PairOf(a, b) => changes_well(part, a) && changes_well(part, b),
        ExprKind::Choice(c, a, b) => changes_well(part, c)
            && (changes_well(part, a) && changes_well(part, b)),
        ExprKind::Comma(all) | ExprKind::Call(_, all) => changes_well_in_all(part, all.as_slice()),
        ExprKind::Const(_) | ExprKind::Name(_) | ExprKind::SizeOfType(_) => true,
        ExprKind::SizeOfName(_) | ExprKind::Str(_) => true,
    }
}

#[cycle(changes)]
fn changes_well_in_all(part: Part, all: &[Expr]) -> bool
    requires { IsCounted part.counts.now (view part.whole.now) }
    ensures { result ≡ changes_well_in_all (view part.entry.whole.now) (views all.now) }
{
    for e in all {
        if changes_well(part, e) {} else {
            return false;
        }
    }
    true
}

/// Whether the part passes with that many writers.
fn writes_well(memory: &Memory, callees: &Callees, e: &Expr, times: Times) -> bool
    ensures { result ≡ writes_well (env_of memory.now) (callees_of callees.now) (view e.now) times }
{
    match times {
        Times::Never => true,
        Times::Once => assigns_memory(memory, root(e)) || !reads(true, memory, callees, e),
        Times::Often => false,
    }
}

/// Whether the part passes. The only error is want of memory.
fn passes(alloc: Global, memory: &Memory, callees: &Callees, e: &Expr) -> Result<bool, AllocError>
    ensures { IfOk result (λ b. b ≡ passes (env_of memory.now) (callees_of callees.now) (view e.now)) }
{
    let counts = counts_of(alloc, e)?;
    let part = Part {
        whole: e,
        counts: &counts,
    };
    Ok(changes_well(part, e) && writes_well(memory, callees, e, writers(memory, callees, e)))
}

/// The part, unless it passes.
fn unless_it_passes<'e>(
    alloc: Global,
    memory: &Memory,
    callees: &Callees,
    e: &'e Expr,
) -> Result<Option<&'e Expr>, AllocError>
    ensures { IfOk result (λ o. option_map (λ r. view r.now) o ≡ unless (passes (env_of memory.now) (callees_of callees.now) (view e.now)) (view e.now)) }
{
    if passes(alloc, memory, callees, e)? {
        Ok(None)
    } else {
        Ok(Some(e))
    }
}

/// The first part that doesn't pass. The only error is want of memory.
#[cycle(broken)]
pub fn broken<'e>(
    alloc: Global,
    memory: &Memory,
    callees: &Callees,
    e: &'e Expr,
) -> Result<Option<&'e Expr>, AllocError>
    ensures { IfOk result (λ o. option_map (λ r. view r.now) o ≡ broken (env_of memory.now) (callees_of callees.now) (view e.now)) }
{
    match &*e.kind {
        ExprKind::AndThen(a, b) | ExprKind::OrElse(a, b) => {
            match broken(alloc, memory, callees, a)? {
                Some(part) => Ok(Some(part)),
                None => Ok(broken(alloc, memory, callees, b)?),
            }
        }
        ExprKind::Choice(c, a, b) => match broken(alloc, memory, callees, c)? {
            Some(part) => Ok(Some(part)),
            None => match broken(alloc, memory, callees, a)? {
                Some(part) => Ok(Some(part)),
                None => Ok(broken(alloc, memory, callees, b)?),
            },
        },
        ExprKind::Comma(all) => Ok(broken_in_all(alloc, memory, callees, all.as_slice())?),
        ExprKind::Cast(_, a, false) => Ok(broken(alloc, memory, callees, a)?),
        _ => Ok(unless_it_passes(alloc, memory, callees, e)?),
    }
}

/// The first part of these that doesn't pass.
#[cycle(broken)]
fn broken_in_all<'e>(
    alloc: Global,
    memory: &Memory,
    callees: &Callees,
    all: &'e [Expr],
) -> Result<Option<&'e Expr>, AllocError>
    ensures { IfOk result (λ o. option_map (λ r. view r.now) o ≡ broken_in_all (env_of memory.now) (callees_of callees.now) (views all.now)) }
{
    for e in all {
        if let Some(part) = broken(alloc, memory, callees, e)? {
            return Ok(Some(part));
        }
    }
    Ok(None)
}

//! Where a sequence may stand in place of a row's call.

ghost use Rattle.std.specs.Prelude.{◌≡◌, ◌<◌, ◌^◌, ◌++◌, IfOk, OnOk, length};
ghost use Rattle.std.specs.Str.{bytes_eq};
ghost use Rattle.seq_core.specs.View.{view, view_all, view_seq};
ghost use Rattle.seq_core.specs.Called.{rows_called};
ghost use Rattle.seq_core.specs.InPlace.{leaves, leaves_of_all, is_straight, are_straight, is_simple, compounds, numbers_from, stands_in_place};

use crate::counts::calls;
use crate::terms::{Seq, Term};
use std::alloc::{AllocError, Global};

/// Whether the term is of parameters, constants, calls, pairs and operators, all parts of which are evaluated.
#[cycle(straight)]
fn is_straight(t: &Term) -> bool
    ensures { result ≡ is_straight (view t.now) }
{
    match t {
        Term::Param(_) | Term::Const(_) | Term::Int(_) => true,
        Term::Call(_, all, _) => are_straight(all.as_slice()),
        Term::PairOf(a, b) => is_straight(a) && is_straight(b),
        Term::Scalar(_, a, b) => is_straight(a) && is_straight(b),
        Term::Convert(_, a) => is_straight(a),
        Term::Step(_)
        | Term::Half(_, _)
        | Term::Choice(_, _, _)
        | Term::Shifted(_, _)
        | Term::ByteAt(_)
        | Term::SetByte(_, _) => false,
    }
}

/// Whether all of the terms are such.
#[cycle(straight)]
fn are_straight(all: &[Term]) -> bool
    ensures { result ≡ are_straight (view_all all.now) }
{
    for t in all {
        if !is_straight(t) {
            return false;
        }
    }
    true
}

/// Adds the places of the parameters in a term, in the order of evaluation.
#[cycle(leaves)]
fn push_leaves(t: &Term, out: &mut Vec<u8>) -> Result<(), AllocError>
    ensures { OnOk result (out.new.items ≡ out.old.items ++ leaves (view t.now)) }
{
    match t {
        Term::Param(n) => {
            out.push(*n)?;
            Ok(())
        }
        Term::Call(_, all, _) => push_all_leaves(all.as_slice(), out),
        Term::PairOf(a, b) => {
            push_leaves(a, out)?;
            push_leaves(b, out)
        }
        Term::Scalar(_, a, b) => {
            push_leaves(a, out)?;
            push_leaves(b, out)
        }
        Term::Convert(_, a) => push_leaves(a, out),
        Term::Const(_)
        | Term::Int(_)
        | Term::Step(_)
        | Term::Half(_, _)
        | Term::Choice(_, _, _)
        | Term::Shifted(_, _)
        | Term::ByteAt(_)
        | Term::SetByte(_, _) => Ok(()),
    }
}

/// Adds those of several terms.
#[cycle(leaves)]
fn push_all_leaves(all: &[Term], out: &mut Vec<u8>) -> Result<(), AllocError>
    ensures { OnOk result (out.new.items ≡ out.old.items ++ leaves_of_all (view_all all.now)) }
{
    for t in all {
        push_leaves(t, out)?;
    }
    Ok(())
}

/// Whether the operand at this place is simple.
fn is_simple(simple: &[bool], n: u8) -> bool
    ensures { result ≡ is_simple simple.now n }
{
    match simple.get(n as usize) {
        Some(s) => *s,
        None => false,
    }
}

/// Those of the operands at these places that are compound.
fn compounds(alloc: Global, simple: &[bool], places: &[u8]) -> Result<Vec<usize>, AllocError>
    ensures { IfOk result (λ out. out.items ≡ compounds simple.now places.now) }
{
    let mut out = Vec::new(alloc);
    for n in places {
        if !is_simple(simple, *n) {
            out.push(*n as usize)?;
        }
    }
    Ok(out)
}

/// The places of all compound operands, in their order.
fn all_compounds(alloc: Global, simple: &[bool]) -> Result<Vec<usize>, AllocError>
    ensures { IfOk result (λ out. out.items ≡ compounds simple.now (numbers_from 0 simple.now)) }
{
    let mut out = Vec::new(alloc);
    for (k, is_simple) in simple.iter().enumerate() {
        if !*is_simple {
            out.push(k)?;
        }
    }
    Ok(out)
}

/// Whether the term has each compound operand once, in the operands' order.
fn are_in_order(alloc: Global, t: &Term, simple: &[bool]) -> Result<bool, AllocError>
    ensures { IfOk result (λ b. b ≡ bytes_eq (compounds simple.now (leaves (view t.now))) (compounds simple.now (numbers_from 0 simple.now))) }
{
    let mut places = Vec::new(alloc);
    push_leaves(t, &mut places)?;
    let found = compounds(alloc, simple, &places)?;
    let wanted = all_compounds(alloc, simple)?;
    Ok(found.as_slice() == wanted.as_slice())
}

/// Whether the sequence may stand where the row's call stood, rather than in a function of its own: it is one expression of at most three
/// calls that evaluates each compound operand once, in the operands' order. `simple` tells of each parameter whether its operand is simple: a
/// constant, or a variable that is always set. The only error is want of memory.
pub fn stands_in_place(alloc: Global, seq: &Seq, simple: &[bool]) -> Result<bool, AllocError>
    requires { length (rows_called (view_seq seq.now)) < 2 ^ 32 }
    ensures { IfOk result (λ b. b ≡ stands_in_place simple.now (view_seq seq.now)) }
{
    match &seq.result {
        None => Ok(false),
        Some(t) => if seq.steps.is_empty() && is_straight(t) && calls(seq) <= 3 {
            are_in_order(alloc, t, simple)
        } else {
            Ok(false)
        },
    }
}

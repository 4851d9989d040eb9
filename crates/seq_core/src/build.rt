//! Makers of terms. The only error of each is want of memory.

ghost use Rattle.std.specs.Prelude.{◌≡◌, IfOk};
ghost use Rattle.seq_core.specs.Terms as term;
ghost use Rattle.seq_core.specs.Terms.{NoTerms, More};
ghost use Rattle.seq_core.specs.View.{view};

use crate::terms::Term;
use lane_core::number::{BinOp, IntType};
use neon_table::NeonOp;
use std::alloc::{AllocError, Global};

/// The call of a row of one operand, with its constant, 0 for a row without one.
pub fn call_one(alloc: Global, op: NeonOp, x: Term, imm: u16) -> Result<Term, AllocError>
    ensures { IfOk result (λ t. view t ≡ term.Call op (More (view x) NoTerms) imm) }
{
    let mut operands = Vec::new(alloc);
    operands.push(x)?;
    Ok(Term::Call(op, operands, imm))
}

/// The call of a row of two operands, with its constant.
pub fn call_two(alloc: Global, op: NeonOp, x: Term, y: Term, imm: u16) -> Result<Term, AllocError>
    ensures { IfOk result (λ t. view t ≡ term.Call op (More (view x) (More (view y) NoTerms)) imm) }
{
    let mut operands = Vec::new(alloc);
    operands.push(x)?;
    operands.push(y)?;
    Ok(Term::Call(op, operands, imm))
}

/// The call of a row of three operands, without a constant.
pub fn call_three(alloc: Global, op: NeonOp, x: Term, y: Term, z: Term) -> Result<Term, AllocError>
    ensures { IfOk result (λ t. view t ≡ term.Call op (More (view x) (More (view y) (More (view z) NoTerms))) 0) }
{
    let mut operands = Vec::new(alloc);
    operands.push(x)?;
    operands.push(y)?;
    operands.push(z)?;
    Ok(Term::Call(op, operands, 0))
}

/// An operator between two integers.
pub fn scalar(alloc: Global, op: BinOp, x: Term, y: Term) -> Result<Term, AllocError>
    ensures { IfOk result (λ t. view t ≡ term.Scalar op (view x) (view y)) }
{
    let x = Box::new(alloc, x)?;
    let y = Box::new(alloc, y)?;
    Ok(Term::Scalar(op, x, y))
}

/// An integer converted to a type.
pub fn convert(alloc: Global, ty: IntType, x: Term) -> Result<Term, AllocError>
    ensures { IfOk result (λ t. view t ≡ term.Convert ty (view x)) }
{
    Ok(Term::Convert(ty, Box::new(alloc, x)?))
}

/// The second where the first isn't 0, else the third.
pub fn choice(alloc: Global, c: Term, x: Term, y: Term) -> Result<Term, AllocError>
    ensures { IfOk result (λ t. view t ≡ term.Choice (view c) (view x) (view y)) }
{
    let c = Box::new(alloc, c)?;
    let x = Box::new(alloc, x)?;
    let y = Box::new(alloc, y)?;
    Ok(Term::Choice(c, x, y))
}

/// A pointer moved by a number of bytes.
pub fn shifted(alloc: Global, x: Term, y: Term) -> Result<Term, AllocError>
    ensures { IfOk result (λ t. view t ≡ term.Shifted (view x) (view y)) }
{
    let x = Box::new(alloc, x)?;
    let y = Box::new(alloc, y)?;
    Ok(Term::Shifted(x, y))
}

/// The byte at a pointer to bytes.
pub fn byte_at(alloc: Global, x: Term) -> Result<Term, AllocError>
    ensures { IfOk result (λ t. view t ≡ term.ByteAt (view x)) }
{
    Ok(Term::ByteAt(Box::new(alloc, x)?))
}

/// A byte written at a pointer to bytes.
pub fn set_byte(alloc: Global, x: Term, y: Term) -> Result<Term, AllocError>
    ensures { IfOk result (λ t. view t ≡ term.SetByte (view x) (view y)) }
{
    let x = Box::new(alloc, x)?;
    let y = Box::new(alloc, y)?;
    Ok(Term::SetByte(x, y))
}

/// A pair of two vectors of 128 bits.
pub fn pair_of(alloc: Global, x: Term, y: Term) -> Result<Term, AllocError>
    ensures { IfOk result (λ t. view t ≡ term.PairOf (view x) (view y)) }
{
    let x = Box::new(alloc, x)?;
    let y = Box::new(alloc, y)?;
    Ok(Term::PairOf(x, y))
}

/// Half 0 or 1 of a pair.
pub fn half(alloc: Global, x: Term, k: u8) -> Result<Term, AllocError>
    ensures { IfOk result (λ t. view t ≡ term.Half (view x) k) }
{
    Ok(Term::Half(Box::new(alloc, x)?, k))
}

//! How often each name occurs in an expression, by one walk.

ghost use Rattle.std.specs.Prelude.{◌≡◌, OnOk, IfOk, List, ℕ, bytes_eq};
ghost use Rattle.c_tree.specs.View.{view, view_kind, views};
ghost use Rattle.order_rule.specs.declared.times.Times.TheVariants.{Never};
ghost use Rattle.order_rule.specs.Writing.{sum, once_if};
ghost use Rattle.order_rule.specs.Counting.{times_of, counted, counted_in, counted_in_all, IsCounted};

use crate::times::{Times, once_if};
use address_taken::Marks;
use c_tree::{Expr, ExprKind};
use std::alloc::{AllocError, Global};

/// How often each name was counted.
#[derive(Drop)]
pub struct Counts {
    /// The names that were counted.
    seen: Marks,
    /// Those that were counted more than once.
    again: Marks,
}

impl Counts {
    /// No name was counted.
    fn new(alloc: Global) -> Counts
        ensures { (x : List ℕ) → times_of result x ≡ Never }
    {
        Counts {
            seen: Marks::new(alloc),
            again: Marks::new(alloc),
        }
    }

    /// How often the name was counted.
    pub fn times(&self, name: &[u8]) -> Times
        ensures { result ≡ times_of self.now name.now }
    {
        if self.again.has(name) {
            Times::Often
        } else {
            once_if(self.seen.has(name))
        }
    }

    /// Counts the name once more.
    #[tactic(auto, using(crate::proofs::Counted::counted_again, crate::proofs::Counted::counted_first))]
    fn add(&mut self, alloc: Global, name: &[u8]) -> Result<(), AllocError>
        ensures { OnOk result ((x : List ℕ) → times_of self.new x ≡ sum (once_if (bytes_eq x name.now)) (times_of self.old x)) }
    {
        if self.seen.has(name) {
            self.again.add(alloc, name)?;
        } else {
            self.seen.add(alloc, name)?;
        }
        Ok(())
    }
}

/// Counts the names of the expression.
#[cycle(counting)]
fn count(alloc: Global, counts: &mut Counts, e: &Expr) -> Result<(), AllocError>
    ensures { OnOk result ((x : List ℕ) → times_of counts.new x ≡ counted x (view e.now) (times_of counts.old x)) }
{
    count_in(alloc, counts, &e.kind)
}

#[cycle(counting)]
fn count_in(alloc: Global, counts: &mut Counts, k: &ExprKind) -> Result<(), AllocError>
    ensures { OnOk result ((x : List ℕ) → times_of counts.new x ≡ counted_in x (view_kind k.now) (times_of counts.old x)) }
{
    match k {
        ExprKind::Name(x) | ExprKind::SizeOfName(x) => counts.add(alloc, x.bytes()),
        ExprKind::Unary(_, a) | ExprKind::Step(a, _, _) => count(alloc, counts, a),
        ExprKind::Cast(_, a, _) | ExprKind::Deref(a) => count(alloc, counts, a),
        ExprKind::Address(a) | ExprKind::Half(a, _) => count(alloc, counts, a),
        ExprKind::Binary(_, a, b) | ExprKind::Assign(_, a, b) => {
            count(alloc, counts, b)?;
            count(alloc, counts, a)
        }
        ExprKind::AndThen(a, b) | ExprKind::OrElse(a, b) => {
            count(alloc, counts, b)?;
            count(alloc, counts, a)
        }
        ExprKind::Index(a, b) | ExprKind::PairOf(a, b) => {
            count(alloc, counts, b)?;
            count(alloc, counts, a)
        }
        ExprKind::Choice(c, a, b) => {
            count(alloc, counts, b)?;
            count(alloc, counts, a)?;
            count(alloc, counts, c)
        }
        ExprKind::Comma(all) | ExprKind::Call(_, all) => count_all(alloc, counts, all.as_slice()),
        ExprKind::Const(_) | ExprKind::SizeOfType(_) | ExprKind::Str(_) => Ok(()),
    }
}

#[cycle(counting)]
fn count_all(alloc: Global, counts: &mut Counts, all: &[Expr]) -> Result<(), AllocError>
    ensures { OnOk result ((x : List ℕ) → times_of counts.new x ≡ counted_in_all x (views all.now) (times_of counts.old x)) }
{
    for e in all {
        count(alloc, counts, e)?;
    }
    Ok(())
}

/// How often each name occurs in the expression. The only error is want of memory.
pub fn counts_of(alloc: Global, e: &Expr) -> Result<Counts, AllocError>
    ensures { IfOk result (λ c. IsCounted c (view e.now)) }
{
    let mut counts = Counts::new(alloc);
    count(alloc, &mut counts, e)?;
    Ok(counts)
}

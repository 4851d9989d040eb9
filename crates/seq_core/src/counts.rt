//! The rows that a sequence calls.

ghost use Rattle.std.specs.Prelude.{◌≡◌, ◌<◌, ◌^◌, length};
ghost use Rattle.neon_table.specs.Rows.{form_of};
ghost use Rattle.seq_core.specs.Rows.{is_reinterpreting, is_broadcasting};
ghost use Rattle.seq_core.specs.View.{view, view_all, view_seq};
ghost use Rattle.seq_core.specs.Called.{are_constants, is_counted, rows_in, rows_in_all, rows_called};

use crate::terms::{Seq, Term};
use neon_forms::Form;
use neon_table::NeonOp;

fn is_reinterpreting(form: Form) -> bool
    ensures { result ≡ is_reinterpreting form }
{
    matches!(form, Form::Reinterpret(_, _) | Form::ReinterpretHalf(_, _))
}

fn is_broadcasting(form: Form) -> bool
    ensures { result ≡ is_broadcasting form }
{
    matches!(form, Form::Duplicate(_) | Form::Create)
}

fn are_constants(all: &[Term]) -> bool
    ensures { result ≡ are_constants (view_all all.now) }
{
    for t in all {
        if !matches!(t, Term::Int(_)) {
            return false;
        }
    }
    true
}

fn is_counted(op: NeonOp, all: &[Term]) -> bool
    ensures { result ≡ is_counted op (view_all all.now) }
{
    let form = neon_table::form(op);
    !is_reinterpreting(form) && !(is_broadcasting(form) && are_constants(all))
}

/// The number of rows in a term that are counted.
#[cycle(counting)]
fn count(t: &Term) -> u32
    requires { length (rows_in (view t.now)) < 2 ^ 32 }
    ensures { result ≡ length (rows_in (view t.now)) }
{
    match t {
        Term::Call(op, all, _) => {
            let inner = count_all(all.as_slice());
            if is_counted(*op, all.as_slice()) {
                inner + 1
            } else {
                inner
            }
        }
        Term::PairOf(a, b) => count(a) + count(b),
        Term::Half(a, _) => count(a),
        Term::Scalar(_, a, b) => count(a) + count(b),
        Term::Convert(_, a) => count(a),
        Term::Choice(c, a, b) => count(c) + (count(a) + count(b)),
        Term::Shifted(a, b) => count(a) + count(b),
        Term::ByteAt(a) => count(a),
        Term::SetByte(a, b) => count(a) + count(b),
        Term::Param(_) | Term::Step(_) | Term::Const(_) | Term::Int(_) => 0,
    }
}

/// The number of rows in terms that are counted.
#[cycle(counting)]
fn count_all(all: &[Term]) -> u32
    requires { length (rows_in_all (view_all all.now)) < 2 ^ 32 }
    ensures { result ≡ length (rows_in_all (view_all all.now)) }
{
    let mut total = 0;
    for t in all {
        total += count(t);
    }
    total
}

/// The number of Neon calls in the sequence, of a choice those of both parts. Reinterpretations and constants aren't counted: a constant
/// vector, and a row that makes a vector of a constant integer.
pub fn calls(seq: &Seq) -> u32
    requires { length (rows_called (view_seq seq.now)) < 2 ^ 32 }
    ensures { result ≡ length (rows_called (view_seq seq.now)) }
{
    let mut total = 0;
    for t in seq.steps.as_slice() {
        total += count(t);
    }
    match &seq.result {
        None => total,
        Some(t) => total + count(t),
    }
}

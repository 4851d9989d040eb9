//! What is told of rows, and numbers of C.

ghost use Rattle.std.specs.Prelude.{◌≡◌, ◌≤◌};
ghost use Rattle.lane_core.specs.IntRange.{InRange};
ghost use Rattle.lane_core.specs.Table.{params_of};
ghost use Rattle.scalar_core.specs.Numbers.{num_of};
ghost use Rattle.seq_core.specs.View.{view};
ghost use Rattle.seq_core.specs.Actions.{is_void};
ghost use Rattle.seq_core.specs.Rows.{is_nothing};

use crate::terms::Term;
use lane_core::number::{IntType, Num};
use lane_core::table::{ParamKind, Sig};

/// The kinds of the row's parameters, in order.
pub fn kinds_of(sig: &Sig) -> &[ParamKind]
    requires { sig.now.count ≤ 32 }
    ensures { result.now ≡ params_of sig.now }
{
    &sig.params[..sig.count as usize]
}

fn is_nothing(kind: ParamKind) -> bool
    ensures { result ≡ is_nothing kind }
{
    match kind {
        ParamKind::Nothing => true,
        ParamKind::Reg(_)
        | ParamKind::Lane(_, _)
        | ParamKind::Pair
        | ParamKind::Scalar(_)
        | ParamKind::Immediate
        | ParamKind::PointerTo(_, _) => false,
    }
}

/// Whether the term calls a storing row, and so has no value.
pub fn is_void(t: &Term) -> bool
    ensures { result ≡ is_void (view t.now) }
{
    match t {
        Term::Call(op, _, _) => is_nothing(neon_table::signature(*op).result),
        Term::Param(_)
        | Term::Step(_)
        | Term::Const(_)
        | Term::Int(_)
        | Term::PairOf(_, _)
        | Term::Half(_, _)
        | Term::Scalar(_, _, _)
        | Term::Convert(_, _)
        | Term::Choice(_, _, _)
        | Term::Shifted(_, _)
        | Term::ByteAt(_)
        | Term::SetByte(_, _) => false,
    }
}

/// The number of the type with a value in its range.
#[tactic(auto, using(scalar_core::specs::NumberLaws::num_of_parts))]
pub fn number(ty: IntType, value: i128) -> Num
    requires { InRange ty value }
    ensures { result ≡ num_of ty value }
{
    Num { ty, value }
}

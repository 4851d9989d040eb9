//! The values of rows, form by form.

ghost use Rattle.std.specs.Prelude.{◌≡◌, ◌<◌};
ghost use Rattle.lane_core.specs.declared.table.Arg.TheVariants.{Int, R8, R16};
ghost use Rattle.neon_elements.specs.declared.elements.Narrowing.TheVariants.{Saturate};
ghost use Rattle.neon_elements.specs.Vectors.{each1, each2, compared, selected, shifted, shifted_left, shifted_right, lengthened, lengthened_high, pair_sums, long_pair_sums, reduced, widened, widened_high, narrowed, shift_narrowed, extracted, looked_up, permuted, reversed, duplicated_lane, duplicated, created, combined, half, element, with_element};
ghost use Rattle.neon_forms.specs.Forms.{lane_of, wide_of, unsigned_of};
ghost use Rattle.neon_forms.specs.Values.{of_q, of_d, of_q_q, of_d_d, of_pair_q, of_q_q_q, of_q_constant, of_q_q_constant, of_integer, of_integer_q_constant, of_address, part_of, value_of};

use crate::forms::{Form, Narrow, Part, lane, wide, without_sign};
use lane_core::table::Arg;
use lane_core::vector::NeonLane;
use neon_elements::elements::{Binary, Compare, Long, Narrowing, Unary};
use neon_elements::permutes::{self, Permute, Reverse};
use neon_elements::vectors::{self, Across};

fn place(part: Part) -> usize
    ensures value { result ≡ part_of part }
    ensures inside { result < 2 }
{
    match part {
        Part::Low => 0,
        Part::High => 1,
    }
}

fn each1(op: Unary, t: NeonLane, args: &[Arg]) -> Arg
    ensures { result ≡ of_q (λ a. R16 (each1 op t a)) args.now }
{
    match args {
        [Arg::R16(a)] => Arg::R16(vectors::each1(op, t, a)),
        _ => Arg::Nothing,
    }
}

fn each2(op: Binary, t: NeonLane, args: &[Arg]) -> Arg
    ensures { result ≡ of_q_q (λ a b. R16 (each2 op t a b)) args.now }
{
    match args {
        [Arg::R16(a), Arg::R16(b)] => Arg::R16(vectors::each2(op, t, a, b)),
        _ => Arg::Nothing,
    }
}

fn compared(op: Compare, t: NeonLane, args: &[Arg]) -> Arg
    ensures { result ≡ of_q_q (λ a b. R16 (compared op t a b)) args.now }
{
    match args {
        [Arg::R16(a), Arg::R16(b)] => Arg::R16(vectors::compared(op, t, a, b)),
        _ => Arg::Nothing,
    }
}

fn selected(t: NeonLane, args: &[Arg]) -> Arg
    ensures { result ≡ of_q_q_q (λ mask a b. R16 (selected t mask a b)) args.now }
{
    match args {
        [Arg::R16(mask), Arg::R16(a), Arg::R16(b)] => Arg::R16(vectors::selected(t, mask, a, b)),
        _ => Arg::Nothing,
    }
}

fn shifted(t: NeonLane, args: &[Arg]) -> Arg
    ensures { result ≡ of_q_q (λ a c. R16 (shifted t a c)) args.now }
{
    match args {
        [Arg::R16(a), Arg::R16(c)] => Arg::R16(vectors::shifted(t, a, c)),
        _ => Arg::Nothing,
    }
}

fn shifted_left(t: NeonLane, n: u16, args: &[Arg]) -> Arg
    ensures { result ≡ of_q_constant (λ a. R16 (shifted_left t n a)) args.now }
{
    match args {
        [Arg::R16(a), Arg::Nothing] => Arg::R16(vectors::shifted_left(t, n, a)),
        _ => Arg::Nothing,
    }
}

fn shifted_right(t: NeonLane, n: u16, args: &[Arg]) -> Arg
    ensures { result ≡ of_q_constant (λ a. R16 (shifted_right t n a)) args.now }
{
    match args {
        [Arg::R16(a), Arg::Nothing] => Arg::R16(vectors::shifted_right(t, n, a)),
        _ => Arg::Nothing,
    }
}

fn lengthened(op: Long, t: Narrow, args: &[Arg]) -> Arg
    ensures { result ≡ of_d_d (λ a b. R16 (lengthened op (lane_of t) a b)) args.now }
{
    match args {
        [Arg::R8(a), Arg::R8(b)] => Arg::R16(vectors::lengthened(op, lane(t), a, b)),
        _ => Arg::Nothing,
    }
}

fn lengthened_high(op: Long, t: Narrow, args: &[Arg]) -> Arg
    ensures { result ≡ of_q_q (λ a b. R16 (lengthened_high op (lane_of t) a b)) args.now }
{
    match args {
        [Arg::R16(a), Arg::R16(b)] => Arg::R16(vectors::lengthened_high(op, lane(t), a, b)),
        _ => Arg::Nothing,
    }
}

fn pair_sums(t: NeonLane, args: &[Arg]) -> Arg
    ensures { result ≡ of_q_q (λ a b. R16 (pair_sums t a b)) args.now }
{
    match args {
        [Arg::R16(a), Arg::R16(b)] => Arg::R16(vectors::pair_sums(t, a, b)),
        _ => Arg::Nothing,
    }
}

fn long_pair_sums(t: Narrow, args: &[Arg]) -> Arg
    ensures { result ≡ of_q (λ a. R16 (long_pair_sums (lane_of t) a)) args.now }
{
    match args {
        [Arg::R16(a)] => Arg::R16(vectors::long_pair_sums(lane(t), a)),
        _ => Arg::Nothing,
    }
}

fn reduced(op: Across, t: Narrow, args: &[Arg]) -> Arg
    ensures { result ≡ of_q (λ a. Int (reduced op (lane_of t) 16 a)) args.now }
{
    match args {
        [Arg::R16(a)] => Arg::Int(vectors::reduced(op, lane(t), a)),
        _ => Arg::Nothing,
    }
}

fn reduced_half(op: Across, t: Narrow, args: &[Arg]) -> Arg
    ensures { result ≡ of_d (λ a. Int (reduced op (lane_of t) 8 a)) args.now }
{
    match args {
        [Arg::R8(a)] => Arg::Int(vectors::reduced(op, lane(t), a)),
        _ => Arg::Nothing,
    }
}

fn widened(t: Narrow, args: &[Arg]) -> Arg
    ensures { result ≡ of_d (λ a. R16 (widened (lane_of t) a)) args.now }
{
    match args {
        [Arg::R8(a)] => Arg::R16(vectors::widened(lane(t), a)),
        _ => Arg::Nothing,
    }
}

fn widened_high(t: Narrow, args: &[Arg]) -> Arg
    ensures { result ≡ of_q (λ a. R16 (widened_high (lane_of t) a)) args.now }
{
    match args {
        [Arg::R16(a)] => Arg::R16(vectors::widened_high(lane(t), a)),
        _ => Arg::Nothing,
    }
}

fn narrowed(op: Narrowing, t: Narrow, args: &[Arg]) -> Arg
    ensures { result ≡ of_q (λ a. R8 (narrowed op (lane_of t) (wide_of t) a)) args.now }
{
    match args {
        [Arg::R16(a)] => Arg::R8(vectors::narrowed(op, lane(t), wide(t), a)),
        _ => Arg::Nothing,
    }
}

fn narrowed_unsigned(t: Narrow, args: &[Arg]) -> Arg
    ensures { result ≡ of_q (λ a. R8 (narrowed Saturate (unsigned_of (lane_of t)) (wide_of t) a)) args.now }
{
    match args {
        [Arg::R16(a)] => Arg::R8(vectors::narrowed(
            Narrowing::Saturate,
            without_sign(lane(t)),
            wide(t),
            a,
        )),
        _ => Arg::Nothing,
    }
}

fn shift_narrowed(rounding: bool, t: Narrow, n: u16, args: &[Arg]) -> Arg
    ensures { result ≡ of_q_constant (λ a. R8 (shift_narrowed rounding (lane_of t) n a)) args.now }
{
    match args {
        [Arg::R16(a), Arg::Nothing] => Arg::R8(vectors::shift_narrowed(rounding, lane(t), n, a)),
        _ => Arg::Nothing,
    }
}

fn extracted(n: u16, args: &[Arg]) -> Arg
    ensures { result ≡ of_q_q_constant (λ lo hi. R16 (extracted lo hi n)) args.now }
{
    match args {
        [Arg::R16(lo), Arg::R16(hi), Arg::Nothing] => Arg::R16(permutes::extracted(lo, hi, n)),
        _ => Arg::Nothing,
    }
}

fn looked_up(args: &[Arg]) -> Arg
    ensures { result ≡ of_q_q (λ table indices. R16 (looked_up 16 table indices)) args.now }
{
    match args {
        [Arg::R16(table), Arg::R16(indices)] => Arg::R16(permutes::looked_up(table, indices)),
        _ => Arg::Nothing,
    }
}

fn looked_up_in_pair(args: &[Arg]) -> Arg
    ensures { result ≡ of_pair_q (λ table indices. R16 (looked_up 32 table indices)) args.now }
{
    match args {
        [Arg::R32(table), Arg::R16(indices)] => Arg::R16(permutes::looked_up_in_pair(
            table, indices,
        )),
        _ => Arg::Nothing,
    }
}

fn permuted(op: Permute, t: NeonLane, args: &[Arg]) -> Arg
    ensures { result ≡ of_q_q (λ a b. R16 (permuted op t a b)) args.now }
{
    match args {
        [Arg::R16(a), Arg::R16(b)] => Arg::R16(permutes::permuted(op, t, a, b)),
        _ => Arg::Nothing,
    }
}

fn reversed(op: Reverse, args: &[Arg]) -> Arg
    ensures { result ≡ of_q (λ a. R16 (reversed op a)) args.now }
{
    match args {
        [Arg::R16(a)] => Arg::R16(permutes::reversed(op, a)),
        _ => Arg::Nothing,
    }
}

fn duplicated_lane(t: NeonLane, n: u16, args: &[Arg]) -> Arg
    ensures { result ≡ of_q_constant (λ a. R16 (duplicated_lane t n a)) args.now }
{
    match args {
        [Arg::R16(a), Arg::Nothing] => Arg::R16(vectors::duplicated_lane(t, n, a)),
        _ => Arg::Nothing,
    }
}

fn duplicated(t: NeonLane, args: &[Arg]) -> Arg
    ensures { result ≡ of_integer (λ x. R16 (duplicated t x)) args.now }
{
    match args {
        [Arg::Int(x)] => Arg::R16(vectors::duplicated(t, *x)),
        _ => Arg::Nothing,
    }
}

fn created(args: &[Arg]) -> Arg
    ensures { result ≡ of_integer (λ x. R8 (created x)) args.now }
{
    match args {
        [Arg::Int(x)] => Arg::R8(vectors::created(*x)),
        _ => Arg::Nothing,
    }
}

fn combined(args: &[Arg]) -> Arg
    ensures { result ≡ of_d_d (λ lo hi. R16 (combined lo hi)) args.now }
{
    match args {
        [Arg::R8(lo), Arg::R8(hi)] => Arg::R16(vectors::combined(lo, hi)),
        _ => Arg::Nothing,
    }
}

fn half(part: Part, args: &[Arg]) -> Arg
    ensures { result ≡ of_q (λ a. R8 (half (part_of part) a)) args.now }
{
    match args {
        [Arg::R16(a)] => Arg::R8(vectors::half(place(part), a)),
        _ => Arg::Nothing,
    }
}

fn element(t: NeonLane, n: u16, args: &[Arg]) -> Arg
    ensures { result ≡ of_q_constant (λ a. Int (element t n a)) args.now }
{
    match args {
        [Arg::R16(a), Arg::Nothing] => Arg::Int(vectors::element(t, n, a)),
        _ => Arg::Nothing,
    }
}

fn with_element(t: NeonLane, n: u16, args: &[Arg]) -> Arg
    ensures { result ≡ of_integer_q_constant (λ x a. R16 (with_element t n x a)) args.now }
{
    match args {
        [Arg::Int(x), Arg::R16(a), Arg::Nothing] => Arg::R16(vectors::with_element(t, n, *x, a)),
        _ => Arg::Nothing,
    }
}

fn reinterpreted(args: &[Arg]) -> Arg
    ensures { result ≡ of_q (λ a. R16 a) args.now }
{
    match args {
        [Arg::R16(a)] => Arg::R16(*a),
        _ => Arg::Nothing,
    }
}

fn reinterpreted_half(args: &[Arg]) -> Arg
    ensures { result ≡ of_d (λ a. R8 a) args.now }
{
    match args {
        [Arg::R8(a)] => Arg::R8(*a),
        _ => Arg::Nothing,
    }
}

fn moved(args: &[Arg]) -> Arg
    ensures { result ≡ of_address args.now }
{
    match args {
        [Arg::Nothing, v] => *v,
        _ => Arg::Nothing,
    }
}

/// The row's value, by the pseudocode of the instruction that the Arm reference gives for it; of a storing row the bytes to be written.
pub fn value(form: Form, args: &[Arg], n: u16) -> Arg
    ensures { result ≡ value_of form args.now n }
{
    match form {
        Form::Each1(op, t) => each1(op, t, args),
        Form::Each2(op, t) => each2(op, t, args),
        Form::Compared(op, t) => compared(op, t, args),
        Form::Select(t) => selected(t, args),
        Form::ShiftBy(t) => shifted(t, args),
        Form::ShiftLeft(t) => shifted_left(t, n, args),
        Form::ShiftRight(t) => shifted_right(t, n, args),
        Form::Lengthen(op, t) => lengthened(op, t, args),
        Form::LengthenHigh(op, t) => lengthened_high(op, t, args),
        Form::PairSums(t) => pair_sums(t, args),
        Form::LongPairSums(t) => long_pair_sums(t, args),
        Form::Reduce(op, t) => reduced(op, t, args),
        Form::ReduceHalf(op, t) => reduced_half(op, t, args),
        Form::Widen(t) => widened(t, args),
        Form::WidenHigh(t) => widened_high(t, args),
        Form::Narrowed(op, t) => narrowed(op, t, args),
        Form::NarrowedUnsigned(t) => narrowed_unsigned(t, args),
        Form::ShiftNarrowed(rounding, t) => shift_narrowed(rounding, t, n, args),
        Form::Extract => extracted(n, args),
        Form::Lookup => looked_up(args),
        Form::LookupPair => looked_up_in_pair(args),
        Form::Permuted(op, t) => permuted(op, t, args),
        Form::Reversed(op) => reversed(op, args),
        Form::DuplicateLane(t) => duplicated_lane(t, n, args),
        Form::Duplicate(t) => duplicated(t, args),
        Form::Create => created(args),
        Form::Combine(_) => combined(args),
        Form::Half(part, _) => half(part, args),
        Form::GetLane(t) => element(t, n, args),
        Form::SetLane(t) => with_element(t, n, args),
        Form::Reinterpret(_, _) => reinterpreted(args),
        Form::ReinterpretHalf(_, _) => reinterpreted_half(args),
        Form::Load(_) | Form::Store(_) => moved(args),
    }
}

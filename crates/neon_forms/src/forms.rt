//! The forms of rows: what a row of each form takes and touches.

ghost use Rattle.std.specs.Prelude.{◌≡◌, ◌≤◌, ◌*◌};
ghost use Rattle.neon_elements.specs.Elements.{bytes_of};
ghost use Rattle.neon_forms.specs.Forms.{lane_of, wide_of, unsigned_of, signed_of, element_type, q, d, scalar, transferred, size_of, pointer, signature_of, places, range_of, accesses_of, access_at, access_of};

use lane_core::number::IntType;
use lane_core::table::{Access, ImmRange, ParamKind, Sig};
use lane_core::vector::{NeonLane, Pointee};
use neon_elements::elements::{Binary, Compare, Long, Narrowing, Unary, bytes};
use neon_elements::permutes::{Permute, Reverse, reversed_lane};
use neon_elements::vectors::Across;

/// The elements that have elements of twice their width.
#[derive(Clone, Copy, Debug, PartialEq, Eq)]
pub enum Narrow {
    U8,
    U16,
    U32,
    S8,
    S16,
    S32,
}

/// One half of a vector.
#[derive(Clone, Copy, Debug, PartialEq, Eq)]
pub enum Part {
    Low,
    High,
}

/// What a row reads or stores, of bytes.
#[derive(Clone, Copy, Debug, PartialEq, Eq)]
pub enum Transfer {
    /// A vector of 64 bits.
    D,
    /// A vector of 128 bits.
    Q,
    /// Two vectors of 128 bits.
    Pair,
}

/// A form of rows. Q is a vector of 128 bits, D one of 64, of such elements; a wide vector has elements of twice the width, and n is a constant.
#[derive(Clone, Copy, Debug, PartialEq, Eq)]
pub enum Form {
    /// `Q f(Q a)`, element by element.
    Each1(Unary, NeonLane),
    /// `Q f(Q a, Q b)`, element by element.
    Each2(Binary, NeonLane),
    /// The same with unsigned elements in the result.
    Compared(Compare, NeonLane),
    /// `Q f(Q mask, Q a, Q b)` with unsigned elements in the mask.
    Select(NeonLane),
    /// `Q f(Q a, Q count)` with signed counts.
    ShiftBy(NeonLane),
    /// `Q f(Q a, n)`.
    ShiftLeft(NeonLane),
    /// `Q f(Q a, n)`.
    ShiftRight(NeonLane),
    /// A wide Q of D and D.
    Lengthen(Long, Narrow),
    /// A wide Q of the high halves of Q and Q.
    LengthenHigh(Long, Narrow),
    /// `Q f(Q a, Q b)`: sums of adjacent elements.
    PairSums(NeonLane),
    /// A wide Q of Q: the same.
    LongPairSums(Narrow),
    /// An integer of Q.
    Reduce(Across, Narrow),
    /// An integer of D.
    ReduceHalf(Across, Narrow),
    /// A wide Q of D.
    Widen(Narrow),
    /// A wide Q of the high half of Q.
    WidenHigh(Narrow),
    /// D of a wide Q.
    Narrowed(Narrowing, Narrow),
    /// D with unsigned elements of a wide Q, the nearest values.
    NarrowedUnsigned(Narrow),
    /// D of a wide Q and n; a half is rounded up where the truth value is true.
    ShiftNarrowed(bool, Narrow),
    /// `Q f(Q a, Q b, n)`: bytes of both from a place on.
    Extract,
    /// `Q f(Q table, Q indices)`.
    Lookup,
    /// `Q f(pair, Q indices)`.
    LookupPair,
    /// `Q f(Q a, Q b)`.
    Permuted(Permute, NeonLane),
    /// `Q f(Q a)`.
    Reversed(Reverse),
    /// `Q f(Q a, n)`: element n in all elements.
    DuplicateLane(NeonLane),
    /// `Q f(integer)`.
    Duplicate(NeonLane),
    /// D of bytes, of a `uint64_t`.
    Create,
    /// `Q f(D low, D high)`.
    Combine(NeonLane),
    /// `D f(Q a)`.
    Half(Part, NeonLane),
    /// `integer f(Q a, n)`.
    GetLane(NeonLane),
    /// `Q f(integer, Q a, n)`.
    SetLane(NeonLane),
    /// To Q of the first elements, of Q of the second.
    Reinterpret(NeonLane, NeonLane),
    /// To D of the first elements, of D of the second.
    ReinterpretHalf(NeonLane, NeonLane),
    /// The bytes at a pointer.
    Load(Transfer),
    /// Bytes stored at a pointer.
    Store(Transfer),
}

/// The elements of that type.
pub fn lane(t: Narrow) -> NeonLane
    ensures value { result ≡ lane_of t }
    ensures narrow { bytes_of result ≤ 4 }
{
    match t {
        Narrow::U8 => NeonLane::U8,
        Narrow::U16 => NeonLane::U16,
        Narrow::U32 => NeonLane::U32,
        Narrow::S8 => NeonLane::S8,
        Narrow::S16 => NeonLane::S16,
        Narrow::S32 => NeonLane::S32,
    }
}

/// The elements of twice the width.
pub fn wide(t: Narrow) -> NeonLane
    ensures value { result ≡ wide_of t }
    ensures double { bytes_of result ≡ 2 * bytes_of (lane_of t) }
{
    match t {
        Narrow::U8 => NeonLane::U16,
        Narrow::U16 => NeonLane::U32,
        Narrow::U32 => NeonLane::U64,
        Narrow::S8 => NeonLane::S16,
        Narrow::S16 => NeonLane::S32,
        Narrow::S32 => NeonLane::S64,
    }
}

/// The unsigned elements of that width.
pub fn without_sign(t: NeonLane) -> NeonLane
    ensures value { result ≡ unsigned_of t }
    ensures same { bytes_of result ≡ bytes_of t }
{
    match t {
        NeonLane::S8 => NeonLane::U8,
        NeonLane::S16 => NeonLane::U16,
        NeonLane::S32 => NeonLane::U32,
        NeonLane::S64 => NeonLane::U64,
        NeonLane::U8 | NeonLane::U16 | NeonLane::U32 | NeonLane::U64 => t,
    }
}

fn with_sign(t: NeonLane) -> NeonLane
    ensures { result ≡ signed_of t }
{
    match t {
        NeonLane::U8 => NeonLane::S8,
        NeonLane::U16 => NeonLane::S16,
        NeonLane::U32 => NeonLane::S32,
        NeonLane::U64 => NeonLane::S64,
        NeonLane::S8 | NeonLane::S16 | NeonLane::S32 | NeonLane::S64 => t,
    }
}

/// The type of an element.
fn element_type(t: NeonLane) -> IntType
    ensures { result ≡ element_type t }
{
    match t {
        NeonLane::U8 => IntType::UChar,
        NeonLane::U16 => IntType::UShort,
        NeonLane::U32 => IntType::UInt,
        NeonLane::U64 => IntType::ULong,
        NeonLane::S8 => IntType::SChar,
        NeonLane::S16 => IntType::Short,
        NeonLane::S32 => IntType::Int,
        NeonLane::S64 => IntType::Long,
    }
}

fn scalar(t: NeonLane) -> ParamKind
    ensures { result ≡ scalar t }
{
    ParamKind::Scalar(element_type(t))
}

fn q(t: NeonLane) -> ParamKind
    ensures { result ≡ q t }
{
    ParamKind::Lane(t, true)
}

fn d(t: NeonLane) -> ParamKind
    ensures { result ≡ d t }
{
    ParamKind::Lane(t, false)
}

fn transferred(what: Transfer) -> ParamKind
    ensures { result ≡ transferred what }
{
    match what {
        Transfer::D => d(NeonLane::U8),
        Transfer::Q => q(NeonLane::U8),
        Transfer::Pair => ParamKind::Pair,
    }
}

fn size(what: Transfer) -> usize
    ensures { result ≡ size_of what }
{
    match what {
        Transfer::D => 8,
        Transfer::Q => 16,
        Transfer::Pair => 32,
    }
}

fn pointer(constant: bool) -> ParamKind
    ensures { result ≡ pointer constant }
{
    ParamKind::PointerTo(Pointee::Int(IntType::UChar), constant)
}

/// The kinds of the row's parameters and result.
pub fn signature(form: Form) -> Sig
    ensures { result ≡ signature_of form }
{
    let bytes = q(NeonLane::U8);
    let n = ParamKind::Immediate;
    match form {
        Form::Each1(_, t) => Sig::new(q(t), &[q(t)]),
        Form::Each2(_, t) | Form::PairSums(t) | Form::Permuted(_, t) => Sig::new(
            q(t),
            &[q(t), q(t)],
        ),
        Form::Compared(_, t) => Sig::new(q(without_sign(t)), &[q(t), q(t)]),
        Form::Select(t) => Sig::new(q(t), &[q(without_sign(t)), q(t), q(t)]),
        Form::ShiftBy(t) => Sig::new(q(t), &[q(t), q(with_sign(t))]),
        Form::ShiftLeft(t) | Form::ShiftRight(t) | Form::DuplicateLane(t) => Sig::new(
            q(t),
            &[q(t), n],
        ),
        Form::Lengthen(_, t) => Sig::new(q(wide(t)), &[d(lane(t)), d(lane(t))]),
        Form::LengthenHigh(_, t) => Sig::new(q(wide(t)), &[q(lane(t)), q(lane(t))]),
        Form::LongPairSums(t) | Form::WidenHigh(t) => Sig::new(q(wide(t)), &[q(lane(t))]),
        Form::Reduce(_, t) => Sig::new(scalar(lane(t)), &[q(lane(t))]),
        Form::ReduceHalf(_, t) => Sig::new(scalar(lane(t)), &[d(lane(t))]),
        Form::Widen(t) => Sig::new(q(wide(t)), &[d(lane(t))]),
        Form::Narrowed(_, t) => Sig::new(d(lane(t)), &[q(wide(t))]),
        Form::NarrowedUnsigned(t) => Sig::new(d(without_sign(lane(t))), &[q(wide(t))]),
        Form::ShiftNarrowed(_, t) => Sig::new(d(lane(t)), &[q(wide(t)), n]),
        Form::Extract => Sig::new(bytes, &[bytes, bytes, n]),
        Form::Lookup => Sig::new(bytes, &[bytes, bytes]),
        Form::LookupPair => Sig::new(bytes, &[ParamKind::Pair, bytes]),
        Form::Reversed(op) => Sig::new(q(reversed_lane(op)), &[q(reversed_lane(op))]),
        Form::Duplicate(t) => Sig::new(q(t), &[scalar(t)]),
        Form::Create => Sig::new(d(NeonLane::U8), &[scalar(NeonLane::U64)]),
        Form::Combine(t) => Sig::new(q(t), &[d(t), d(t)]),
        Form::Half(_, t) => Sig::new(d(t), &[q(t)]),
        Form::GetLane(t) => Sig::new(scalar(t), &[q(t), n]),
        Form::SetLane(t) => Sig::new(q(t), &[scalar(t), q(t), n]),
        Form::Reinterpret(to, from) => Sig::new(q(to), &[q(from)]),
        Form::ReinterpretHalf(to, from) => Sig::new(d(to), &[d(from)]),
        Form::Load(what) => Sig::new(transferred(what), &[pointer(true)]),
        Form::Store(what) => Sig::new(ParamKind::Nothing, &[pointer(false), transferred(what)]),
    }
}

/// The places of the elements.
fn places(t: NeonLane) -> ImmRange
    ensures { result ≡ places t }
{
    ImmRange::Span(0, (16 / bytes(t) - 1) as u16)
}

/// The values that the row's constant may have.
pub fn range(form: Form) -> ImmRange
    ensures { result ≡ range_of form }
{
    match form {
        Form::ShiftLeft(t) => ImmRange::Span(0, (8 * bytes(t) - 1) as u16),
        Form::ShiftRight(t) => ImmRange::Span(1, (8 * bytes(t)) as u16),
        Form::ShiftNarrowed(_, t) => ImmRange::Span(1, (8 * bytes(lane(t))) as u16),
        Form::Extract => ImmRange::Span(0, 15),
        Form::DuplicateLane(t) | Form::GetLane(t) | Form::SetLane(t) => places(t),
        _ => ImmRange::NoImmediate,
    }
}

/// The number of the row's accesses to memory.
pub fn accesses(form: Form) -> usize
    ensures { result ≡ accesses_of form }
{
    match form {
        Form::Load(_) | Form::Store(_) => 1,
        _ => 0,
    }
}

fn access_at(n: usize, write: bool, k: usize) -> Option<Access>
    ensures { result ≡ access_at n write k }
{
    if k > 0 {
        return None;
    }
    Some(Access {
        offset: 0,
        size: n,
        align: 1,
        write,
        at: 0,
    })
}

/// Access `k` of the row, or None where `k` isn't below `accesses`.
pub fn access(form: Form, k: usize) -> Option<Access>
    ensures { result ≡ access_of form k }
{
    match form {
        Form::Load(what) => access_at(size(what), false, k),
        Form::Store(what) => access_at(size(what), true, k),
        _ => None,
    }
}

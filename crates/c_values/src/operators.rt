//! What operators and conversions give for values (C11 6.3, 6.5).

ghost use Rattle.std.specs.Prelude.{◌≡◌, pos, ◌*ℤ◌, ◌-ℤ◌, neg_ℤ, slice_get};
ghost use Rattle.c_memory.specs.MeaningValues.{is_alive, is_usable, stride, moved, stepped, distance_in, is_same_pointer, equal_pointers, ordered, pointers_give, pointer_and_integer, integer_and_pointer, operate, holds, as_int, operate_before, converted_value, next};
ghost use Rattle.c_values.specs.Places.{live_length, moved_within, offsets, whole_number, order_of, unary_value};

use crate::numbers::{element_size, is_true, truth, wrapped};
use c_memory::{Memory, Pointer, Value};
use c_tree::{BinOp, CType, IntType, Num, UnOp};
use scalar_core::{binary, convert, unary};

/// Whether the block is there and hasn't ended.
fn is_alive(memory: &Memory, block: usize) -> bool
    ensures { result ≡ is_alive (slice_get memory.now.blocks block) }
{
    match memory.blocks.as_slice().get(block) {
        Some(found) => found.alive,
        None => false,
    }
}

/// The number of bytes of a block that hasn't ended.
fn live_length(memory: &Memory, block: usize) -> Option<usize>
    ensures { result ≡ live_length (slice_get memory.now.blocks block) }
{
    match memory.blocks.as_slice().get(block) {
        Some(found) => if found.alive {
            Some(found.bytes.as_slice().len())
        } else {
            None
        },
        None => None,
    }
}

/// Whether the pointer may be used and not only copied.
fn is_usable(memory: &Memory, at: Pointer) -> bool
    ensures { result ≡ is_usable memory.now.blocks at }
{
    match at {
        Pointer::Null => true,
        Pointer::At(block, _) => is_alive(memory, block),
    }
}

/// The size of what a pointer of this type points to.
fn stride(ty: CType) -> Option<u8>
    ensures { result ≡ stride ty }
{
    match ty {
        CType::Pointer(element, _) => element_size(element),
        _ => None,
    }
}

/// The place at a distance from an offset in a block of that length, or directly behind it.
fn moved_within(length: usize, block: usize, offset: usize, distance: i128) -> Option<Pointer>
    ensures { result ≡ moved_within length block offset distance }
{
    match (offset as i128).checked_add(distance) {
        Some(place) => if 0 <= place && place <= length as i128 {
            Some(Pointer::At(block, place as usize))
        } else {
            None
        },
        None => None,
    }
}

/// The same at a distance of so many things of a size.
fn stepped_within(
    length: usize,
    block: usize,
    offset: usize,
    count: i128,
    size: u8,
) -> Option<Pointer>
    ensures { result ≡ moved_within length block offset (count *ℤ pos size) }
{
    match count.checked_mul(i128::from(size)) {
        Some(distance) => moved_within(length, block, offset, distance),
        None => None,
    }
}

/// The pointer that is a number of bytes further on.
#[tactic(auto, using(crate::proofs::PlaceLemmas::moved_by_length))]
pub(crate) fn moved(memory: &Memory, at: Pointer, distance: i128) -> Option<Pointer>
    ensures { result ≡ moved memory.now.blocks at distance }
{
    match at {
        Pointer::Null => None,
        Pointer::At(block, offset) => match live_length(memory, block) {
            Some(length) => moved_within(length, block, offset, distance),
            None => None,
        },
    }
}

/// The pointer that is a number of things of a size further on.
#[tactic(auto, using(crate::proofs::PlaceLemmas::moved_by_length))]
fn stepped_pointer(memory: &Memory, at: Pointer, size: u8, count: i128) -> Option<Pointer>
    ensures { result ≡ moved memory.now.blocks at (count *ℤ pos size) }
{
    match at {
        Pointer::Null => None,
        Pointer::At(block, offset) => match live_length(memory, block) {
            Some(length) => stepped_within(length, block, offset, count, size),
            None => None,
        },
    }
}

/// A pointer and a number of things of a size.
fn stepped(memory: &Memory, at: Pointer, size: Option<u8>, count: i128) -> Option<Value>
    ensures { result ≡ stepped memory.now.blocks at size count }
{
    match size {
        Some(size) => match stepped_pointer(memory, at, size, count) {
            Some(p) => Some(Value::At(p)),
            None => None,
        },
        None => None,
    }
}

/// The value of a number with the other sign.
fn negated(n: Num) -> i128
    ensures { result ≡ neg_ℤ n.value }
{
    -n.value
}

/// A pointer and an integer.
fn pointer_and_integer(
    memory: &Memory,
    op: BinOp,
    size: Option<u8>,
    at: Pointer,
    n: Num,
) -> Option<Value>
    ensures { result ≡ pointer_and_integer memory.now.blocks op size at n }
{
    match op {
        BinOp::Add => stepped(memory, at, size, n.value),
        BinOp::Sub => stepped(memory, at, size, negated(n)),
        _ => None,
    }
}

/// An integer and a pointer.
fn integer_and_pointer(
    memory: &Memory,
    op: BinOp,
    size: Option<u8>,
    n: Num,
    at: Pointer,
) -> Option<Value>
    ensures { result ≡ integer_and_pointer memory.now.blocks op size n at }
{
    match op {
        BinOp::Add => stepped(memory, at, size, n.value),
        _ => None,
    }
}

/// The offsets of two pointers into one block that lives.
fn offsets(memory: &Memory, p: Pointer, q: Pointer) -> Option<(usize, usize)>
    ensures { result ≡ offsets memory.now.blocks p q }
{
    match (p, q) {
        (Pointer::At(block, x), Pointer::At(other, y)) => if block == other
            && is_alive(memory, block)
        {
            Some((x, y))
        } else {
            None
        },
        _ => None,
    }
}

/// How many bytes lie between two offsets.
fn bytes_between(x: usize, y: usize) -> i128
    ensures { result ≡ pos x -ℤ pos y }
{
    x as i128 - y as i128
}

/// So many bytes in things of a size, where it is a whole number.
fn whole_number(bytes: i128, size: u8) -> Option<i128>
    ensures { result ≡ whole_number bytes size }
{
    let size = i128::from(size);
    if size == 0 || bytes % size != 0 {
        None
    } else {
        Some(bytes / size)
    }
}

/// How many things of a size lie between two offsets, where it is a whole number.
fn distance_in(size: u8, x: usize, y: usize) -> Option<Value>
    ensures { result ≡ distance_in size x y }
{
    match whole_number(bytes_between(x, y), size) {
        Some(number) => Some(Value::Int(wrapped(IntType::Long, number))),
        None => None,
    }
}

/// Whether the two are the same pointer.
fn is_same_pointer(p: Pointer, q: Pointer) -> bool
    ensures { result ≡ is_same_pointer p q }
{
    match (p, q) {
        (Pointer::Null, Pointer::Null) => true,
        (Pointer::At(block, x), Pointer::At(other, y)) => block == other && x == y,
        _ => false,
    }
}

/// Whether usable pointers are equal, or not.
fn equal_pointers(memory: &Memory, wanted: bool, p: Pointer, q: Pointer) -> Option<Value>
    ensures { result ≡ equal_pointers memory.now.blocks wanted p q }
{
    if is_usable(memory, p) && is_usable(memory, q) {
        Some(Value::Int(truth(is_same_pointer(p, q) == wanted)))
    } else {
        None
    }
}

/// The difference of two pointers to things of a size.
#[tactic(auto, using(crate::proofs::PlaceLemmas::by_offsets))]
fn difference(memory: &Memory, size: Option<u8>, p: Pointer, q: Pointer) -> Option<Value>
    ensures { result ≡ pointers_give memory.now.blocks BinOp.Sub size p q }
{
    match size {
        Some(size) => match offsets(memory, p, q) {
            Some((x, y)) => distance_in(size, x, y),
            None => None,
        },
        None => None,
    }
}

/// Whether two offsets are in the order that an operator asks for.
fn is_ordered(op: BinOp, x: usize, y: usize) -> bool
    ensures { result ≡ order_of op x y }
{
    match op {
        BinOp::Lt => x < y,
        BinOp::Gt => y < x,
        BinOp::Le => x <= y,
        BinOp::Ge => y <= x,
        _ => false,
    }
}

/// Whether two pointers into one block that lives are in the order that an operator asks for.
#[tactic(auto, using(crate::proofs::PlaceLemmas::by_offsets))]
fn ordered(memory: &Memory, op: BinOp, p: Pointer, q: Pointer) -> Option<Value>
    ensures { result ≡ ordered memory.now.blocks (order_of op) p q }
{
    match offsets(memory, p, q) {
        Some((x, y)) => Some(Value::Int(truth(is_ordered(op, x, y)))),
        None => None,
    }
}

/// What an operator gives between two pointers to things of a size.
fn pointers_give(
    memory: &Memory,
    op: BinOp,
    size: Option<u8>,
    p: Pointer,
    q: Pointer,
) -> Option<Value>
    ensures { result ≡ pointers_give memory.now.blocks op size p q }
{
    match op {
        BinOp::Sub => difference(memory, size, p, q),
        BinOp::Eq => equal_pointers(memory, true, p, q),
        BinOp::Ne => equal_pointers(memory, false, p, q),
        BinOp::Lt => ordered(memory, op, p, q),
        BinOp::Gt => ordered(memory, op, p, q),
        BinOp::Le => ordered(memory, op, p, q),
        BinOp::Ge => ordered(memory, op, p, q),
        _ => None,
    }
}

/// What an operator gives for operands of these types, or None where it is undefined: a pointer that would leave its block, a
/// difference or an order across blocks, what C leaves undefined between integers, and any use of null or of a pointer into a block
/// that has ended but the comparisons that stay defined (C11 6.5.5 to 6.5.12). Pointers are stepped by the size of what the operand's
/// type points to.
pub fn operate(
    memory: &Memory,
    op: BinOp,
    left: CType,
    right: CType,
    a: Value,
    b: Value,
) -> Option<Value>
    ensures { result ≡ operate memory.now.blocks op left right a b }
{
    match (a, b) {
        (Value::Int(m), Value::Int(n)) => match binary(op, m, n) {
            Some(n) => Some(Value::Int(n)),
            None => None,
        },
        (Value::At(p), Value::Int(n)) => pointer_and_integer(memory, op, stride(left), p, n),
        (Value::Int(m), Value::At(q)) => integer_and_pointer(memory, op, stride(right), m, q),
        (Value::At(p), Value::At(q)) => pointers_give(memory, op, stride(left), p, q),
        _ => None,
    }
}

/// Whether a condition holds: an integer that isn't 0, or a usable pointer that isn't null (C11 6.8.4.1). None for a pointer into a
/// block that has ended, and for a vector.
pub fn holds(memory: &Memory, v: Value) -> Option<bool>
    ensures { result ≡ holds memory.now.blocks v }
{
    match v {
        Value::Int(n) => Some(is_true(n)),
        Value::At(Pointer::Null) => Some(false),
        Value::At(Pointer::At(block, _)) => if is_alive(memory, block) {
            Some(true)
        } else {
            None
        },
        Value::R8(_) | Value::R16(_) | Value::R32(_) => None,
    }
}

/// 1 or 0, as an `int`.
pub fn as_int(b: bool) -> Value
    ensures { result ≡ as_int b }
{
    Value::Int(truth(b))
}

/// What an operator before an integer gives.
fn unary_value(op: UnOp, v: Value) -> Option<Value>
    ensures { result ≡ unary_value op v }
{
    match v {
        Value::Int(n) => match unary(op, n) {
            Some(n) => Some(Value::Int(n)),
            None => None,
        },
        Value::R8(_) | Value::R16(_) | Value::R32(_) | Value::At(_) => None,
    }
}

/// What an operator before a value gives (C11 6.5.3.3), or None where it is undefined.
pub fn operate_before(memory: &Memory, op: UnOp, v: Value) -> Option<Value>
    ensures { result ≡ operate_before memory.now.blocks op v }
{
    match op {
        UnOp::Not => match holds(memory, v) {
            Some(b) => Some(as_int(!b)),
            None => None,
        },
        UnOp::Plus | UnOp::Neg | UnOp::BitNot => unary_value(op, v),
    }
}

/// The conversion of a value to a type (C11 6.3.1.3, 6.3.2.3): of an integer, of the constant 0 to a null pointer, and of a pointer,
/// which stays. None for all else.
pub fn converted_value(ty: CType, v: Value) -> Option<Value>
    ensures { result ≡ converted_value ty v }
{
    match (ty, v) {
        (CType::Int(ty), Value::Int(n)) => Some(Value::Int(convert(n, ty))),
        (CType::Pointer(_, _), Value::Int(n)) => if is_true(n) {
            None
        } else {
            Some(Value::At(Pointer::Null))
        },
        (CType::Pointer(_, _), Value::At(p)) => Some(Value::At(p)),
        _ => None,
    }
}

/// The value one step up or down (C11 6.5.2.4): an integer plus or less 1 in its type, or a pointer to the next thing or the one before.
/// None where that sum is undefined.
pub fn next(memory: &Memory, ty: CType, up: bool, v: Value) -> Option<Value>
    ensures { result ≡ next memory.now.blocks ty up v }
{
    let op = if up { BinOp::Add } else { BinOp::Sub };
    match operate(memory, op, ty, CType::Int(IntType::Int), v, as_int(true)) {
        Some(w) => converted_value(ty, w),
        None => None,
    }
}

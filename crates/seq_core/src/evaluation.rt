//! What a term and a sequence give, over a memory.

ghost use Rattle.std.specs.Prelude.{◌≡◌, pos, ◌++◌, [], ◌∷◌, IfOk, OnOk, IsSome, Some, map, option_map, slice_get};
ghost use Rattle.lane_core.specs.declared.number.IntType.TheVariants.{Int};
ghost use Rattle.scalar_core.specs.Numbers.{num_of};
ghost use Rattle.c_memory.specs.declared.value.Value.{Value};
ghost use Rattle.seq_core.specs.View.{view, view_all, view_seq};
ghost use Rattle.seq_core.specs.Values.{step_value, paired, halved, operated, turned, carried, all_carried, as_arg, evaluated};
ghost use Rattle.seq_core.specs.Actions.{just, then_acts, with_value, called_in, shifted, byte_at, byte_set, value_in, values_in, is_void, storing_in, step_in, steps_in, result_in, sequence_in};
ghost use Rattle.seq_core.specs.Formed.{WellFormed};

use crate::rows;
use crate::terms::{Seq, Term};
use c_memory::{BlockList, Memory, Pointer, Value};
use c_tree::{CType, Pointee};
use c_values::numbers::from_bits;
use c_values::objects::{half, load, pair_of, store};
use c_values::operators::operate;
use c_values::rows::{argument, row_call};
use lane_core::number::{BinOp, IntType};
use lane_core::table::{Arg, ParamKind};
use neon_table::{NeonOp, NeonRows};
use scalar_core::{binary, convert};
use std::alloc::{AllocError, Global};

/// `uint8_t`.
const BYTE: CType = CType::Int(IntType::UChar);

/// `uint8_t const *`.
const BYTES: CType = CType::Pointer(Pointee::Int(IntType::UChar), true);

/// A row's constant as an `int`.
fn immediate(imm: u16) -> Value
    ensures { result ≡ Value.Int (num_of Int (pos imm)) }
{
    Value::Int(rows::number(IntType::Int, imm as i128))
}

/// Adds the operands' values with the row's constant in its place.
fn push_values(
    out: &mut Vec<Value>,
    kinds: &[ParamKind],
    operands: &[Value],
    imm: u16,
) -> Result<(), AllocError>
    ensures { OnOk result (out.new.items ≡ out.old.items ++ with_value kinds.now operands.now imm) }
{
    match (kinds.split_first(), operands.split_first()) {
        (Some((ParamKind::Immediate, kinds)), _) => {
            out.push(immediate(imm))?;
            push_values(out, kinds, operands, imm)
        }
        (Some((_, kinds)), Some((v, rest))) => {
            out.push(*v)?;
            push_values(out, kinds, rest, imm)
        }
        (_, None) => Ok(()),
        (None, Some((v, rest))) => {
            out.push(*v)?;
            push_values(out, kinds, rest, imm)
        }
    }
}

/// The call of a row.
fn called(
    alloc: Global,
    op: NeonOp,
    imm: u16,
    operands: &[Value],
    memory: &mut Memory,
) -> Result<Option<Option<Value>>, AllocError>
    ensures { IfOk result (λ r. called_in op imm operands.now memory.old.blocks ≡ just r memory.new.blocks) }
{
    let sig = neon_table::signature(op);
    let mut values = Vec::new(alloc);
    push_values(&mut values, rows::kinds_of(&sig), operands, imm)?;
    row_call(alloc, &NeonRows, op, &sig, memory, &values)
}

fn paired(v: Value, w: Value) -> Option<Value>
    ensures { result ≡ paired v w }
{
    match (v, w) {
        (Value::R16(a), Value::R16(b)) => Some(Value::R32(pair_of(&a, &b))),
        _ => None,
    }
}

fn halved(k: u8, v: Value) -> Option<Value>
    ensures { result ≡ halved k v }
{
    match v {
        Value::R32(r) => if k == 0 {
            Some(Value::R16(half(0, &r)))
        } else {
            Some(Value::R16(half(1, &r)))
        },
        _ => None,
    }
}

fn operated(op: BinOp, v: Value, w: Value) -> Option<Value>
    ensures { result ≡ operated op v w }
{
    match (v, w) {
        (Value::Int(m), Value::Int(n)) => match binary(op, m, n) {
            Some(n) => Some(Value::Int(n)),
            None => None,
        },
        _ => None,
    }
}

fn turned(ty: IntType, v: Value) -> Option<Value>
    ensures { result ≡ turned ty v }
{
    match v {
        Value::Int(n) => Some(Value::Int(convert(n, ty))),
        _ => None,
    }
}

fn shifted(memory: &Memory, v: Value, w: Value) -> Option<Value>
    ensures { result ≡ shifted v w memory.now.blocks }
{
    match (v, w) {
        (Value::At(_), Value::Int(_)) => operate(memory, BinOp::Add, BYTES, BYTE, v, w),
        _ => None,
    }
}

fn byte_at(memory: &Memory, v: Value) -> Option<Value>
    ensures { result ≡ byte_at v memory.now.blocks }
{
    match v {
        Value::At(p) => load(memory, BYTE, p),
        _ => None,
    }
}

fn byte_set(memory: &mut Memory, v: Value, w: Value) -> Option<Value>
    ensures { byte_set v w memory.old.blocks ≡ just result memory.new.blocks }
{
    match v {
        Value::At(p) => match store(memory, BYTE, p, w) {
            Some(_) => Some(w),
            None => None,
        },
        _ => None,
    }
}

/// The value of a parameter.
fn param_value(ps: &[Value], n: u8) -> Option<Value>
    ensures { result ≡ slice_get ps.now n }
{
    match ps.get(n as usize) {
        Some(v) => Some(*v),
        None => None,
    }
}

/// The value of a step, where it has one.
fn step_value(ss: &[Option<Value>], n: u8) -> Option<Value>
    ensures { result ≡ step_value ss.now n }
{
    match ss.get(n as usize) {
        Some(v) => *v,
        None => None,
    }
}

/// The value of a term over those of the parameters and of earlier steps, and the memory after it. `Ok(None)` is for a term that is
/// undefined, and then the memory may have any bytes written.
#[cycle(evaluating)]
fn value(
    t: &Term,
    alloc: Global,
    ps: &[Value],
    ss: &[Option<Value>],
    memory: &mut Memory,
) -> Result<Option<Value>, AllocError>
    ensures { IfOk result (λ r. value_in ps.now ss.now (view t.now) memory.old.blocks ≡ just r memory.new.blocks) }
{
    match t {
        Term::Param(n) => Ok(param_value(ps, *n)),
        Term::Step(n) => Ok(step_value(ss, *n)),
        Term::Const(r) => Ok(Some(Value::R16(*r))),
        Term::Int(n) => Ok(Some(Value::Int(*n))),
        Term::Call(op, all, imm) => called_value(all, *op, *imm, alloc, ps, ss, memory),
        Term::PairOf(a, b) => match value(a, alloc, ps, ss, memory)? {
            None => Ok(None),
            Some(v) => match value(b, alloc, ps, ss, memory)? {
                None => Ok(None),
                Some(w) => Ok(paired(v, w)),
            },
        },
        Term::Half(a, k) => match value(a, alloc, ps, ss, memory)? {
            None => Ok(None),
            Some(v) => Ok(halved(*k, v)),
        },
        Term::Scalar(op, a, b) => match value(a, alloc, ps, ss, memory)? {
            None => Ok(None),
            Some(v) => match value(b, alloc, ps, ss, memory)? {
                None => Ok(None),
                Some(w) => Ok(operated(*op, v, w)),
            },
        },
        Term::Convert(ty, a) => match value(a, alloc, ps, ss, memory)? {
            None => Ok(None),
            Some(v) => Ok(turned(*ty, v)),
        },
        Term::Choice(c, a, b) => match value(c, alloc, ps, ss, memory)? {
            Some(Value::Int(n)) => if n.value != 0 {
                value(a, alloc, ps, ss, memory)
            } else {
                value(b, alloc, ps, ss, memory)
            },
            _ => Ok(None),
        },
        Term::Shifted(a, b) => match value(a, alloc, ps, ss, memory)? {
            None => Ok(None),
            Some(v) => match value(b, alloc, ps, ss, memory)? {
                None => Ok(None),
                Some(w) => Ok(shifted(memory, v, w)),
            },
        },
        Term::ByteAt(a) => match value(a, alloc, ps, ss, memory)? {
            None => Ok(None),
            Some(v) => Ok(byte_at(memory, v)),
        },
        Term::SetByte(a, b) => match value(a, alloc, ps, ss, memory)? {
            None => Ok(None),
            Some(v) => match value(b, alloc, ps, ss, memory)? {
                None => Ok(None),
                Some(w) => Ok(byte_set(memory, v, w)),
            },
        },
    }
}

/// The value of a call, where the row gives one.
#[cycle(evaluating)]
fn called_value(
    all: &[Term],
    op: NeonOp,
    imm: u16,
    alloc: Global,
    ps: &[Value],
    ss: &[Option<Value>],
    memory: &mut Memory,
) -> Result<Option<Value>, AllocError>
    ensures { IfOk result (λ r. then_acts (then_acts (values_in ps.now ss.now (view_all all.now)) (called_in op imm)) just memory.old.blocks ≡ just r memory.new.blocks) }
{
    match operands(all, alloc, ps, ss, memory)? {
        None => Ok(None),
        Some(values) => match called(alloc, op, imm, &values, memory)? {
            None => Ok(None),
            Some(v) => Ok(v),
        },
    }
}

/// The values of operands in turn.
#[cycle(evaluating)]
fn operands(
    all: &[Term],
    alloc: Global,
    ps: &[Value],
    ss: &[Option<Value>],
    memory: &mut Memory,
) -> Result<Option<Vec<Value>>, AllocError>
    ensures { IfOk result (λ r. values_in ps.now ss.now (view_all all.now) memory.old.blocks ≡ just (option_map (λ vs. vs.items) r) memory.new.blocks) }
{
    let mut out = Vec::new(alloc);
    for t in all {
        match value(t, alloc, ps, ss, memory)? {
            None => return Ok(None),
            Some(v) => out.push(v)?,
        }
    }
    Ok(Some(out))
}

/// The call of a storing row.
fn storing(
    alloc: Global,
    ps: &[Value],
    ss: &[Option<Value>],
    t: &Term,
    memory: &mut Memory,
) -> Result<Option<Option<Value>>, AllocError>
    ensures { IfOk result (λ r. storing_in ps.now ss.now (view t.now) memory.old.blocks ≡ just r memory.new.blocks) }
{
    match t {
        Term::Call(op, all, imm) => match operands(all, alloc, ps, ss, memory)? {
            None => Ok(None),
            Some(values) => match called(alloc, *op, *imm, &values, memory)? {
                None => Ok(None),
                Some(_) => Ok(Some(None)),
            },
        },
        Term::Param(_)
        | Term::Step(_)
        | Term::Const(_)
        | Term::Int(_)
        | Term::PairOf(_, _)
        | Term::Half(_, _)
        | Term::Scalar(_, _, _)
        | Term::Convert(_, _)
        | Term::Choice(_, _, _)
        | Term::Shifted(_, _)
        | Term::ByteAt(_)
        | Term::SetByte(_, _) => Ok(None),
    }
}

/// The value of a term as that of a step.
fn value_of_step(
    alloc: Global,
    ps: &[Value],
    ss: &[Option<Value>],
    t: &Term,
    memory: &mut Memory,
) -> Result<Option<Option<Value>>, AllocError>
    ensures { IfOk result (λ r. then_acts (value_in ps.now ss.now (view t.now)) (λ v. just (Some (Some v))) memory.old.blocks ≡ just r memory.new.blocks) }
{
    match value(t, alloc, ps, ss, memory)? {
        None => Ok(None),
        Some(v) => Ok(Some(Some(v))),
    }
}

/// What a step gives: a value, or none where it calls a storing row.
fn step(
    alloc: Global,
    ps: &[Value],
    ss: &[Option<Value>],
    t: &Term,
    memory: &mut Memory,
) -> Result<Option<Option<Value>>, AllocError>
    ensures { IfOk result (λ r. step_in ps.now ss.now (view t.now) memory.old.blocks ≡ just r memory.new.blocks) }
{
    if rows::is_void(t) {
        storing(alloc, ps, ss, t, memory)
    } else {
        value_of_step(alloc, ps, ss, t, memory)
    }
}

/// The values of steps in order.
fn steps(
    alloc: Global,
    ps: &[Value],
    all: &[Term],
    memory: &mut Memory,
) -> Result<Option<Vec<Option<Value>>>, AllocError>
    ensures { IfOk result (λ r. steps_in ps.now [] (map view all.now) memory.old.blocks ≡ just (option_map (λ vs. vs.items) r) memory.new.blocks) }
{
    let mut out = Vec::new(alloc);
    for t in all {
        match step(alloc, ps, &out, t, memory)? {
            None => return Ok(None),
            Some(v) => out.push(v)?,
        }
    }
    Ok(Some(out))
}

/// The value behind the steps, if the sequence has one.
fn result(
    alloc: Global,
    ps: &[Value],
    ss: &[Option<Value>],
    t: &Option<Term>,
    memory: &mut Memory,
) -> Result<Option<Option<Value>>, AllocError>
    ensures { IfOk result (λ r. result_in ps.now (option_map view t.now) ss.now memory.old.blocks ≡ just r memory.new.blocks) }
{
    match t {
        None => Ok(Some(None)),
        Some(t) => value_of_step(alloc, ps, ss, t, memory),
    }
}

/// What the sequence gives.
fn sequence(
    alloc: Global,
    seq: &Seq,
    ps: &[Value],
    memory: &mut Memory,
) -> Result<Option<Option<Value>>, AllocError>
    ensures { IfOk result (λ r. sequence_in (view_seq seq.now) ps.now memory.old.blocks ≡ just r memory.new.blocks) }
{
    match steps(alloc, ps, &seq.steps, memory)? {
        None => Ok(None),
        Some(ss) => result(alloc, ps, &ss, &seq.result, memory),
    }
}

/// An argument as a value of the type: an integer is read in it, and for a pointer stands none.
fn carried(ty: CType, arg: &Arg) -> Option<Value>
    ensures { result ≡ carried ty arg.now }
{
    match (ty, arg) {
        (CType::Int(ty), Arg::Int(n)) => Some(Value::Int(from_bits(ty, *n))),
        (CType::Neon(_, false), Arg::R8(r)) => Some(Value::R8(*r)),
        (CType::Neon(_, true), Arg::R16(r)) => Some(Value::R16(*r)),
        (CType::Pair, Arg::R32(r)) => Some(Value::R32(*r)),
        (CType::Pointer(_, _), Arg::Nothing) => Some(Value::At(Pointer::Null)),
        _ => None,
    }
}

/// Adds the arguments as values of these types.
fn push_carried(
    out: &mut Vec<Value>,
    types: &[CType],
    args: &[Arg],
) -> Result<Option<()>, AllocError>
    ensures { IfOk result (λ r. option_map (λ vs. out.old.items ++ vs) (all_carried types.now args.now) ≡ option_map (λ done. out.new.items) r) }
{
    match (types.split_first(), args.split_first()) {
        (None, None) => Ok(Some(())),
        (Some((ty, types)), Some((arg, args))) => match carried(*ty, arg) {
            None => Ok(None),
            Some(v) => {
                out.push(v)?;
                push_carried(out, types, args)
            }
        },
        _ => Ok(None),
    }
}

/// A value as an argument or a result.
fn as_arg(v: Option<Value>) -> Arg
    ensures { result ≡ as_arg v }
{
    match v {
        Some(v) => argument(v),
        None => Arg::Nothing,
    }
}

/// The arguments as values of these types.
fn all_carried(
    alloc: Global,
    types: &[CType],
    args: &[Arg],
) -> Result<Option<Vec<Value>>, AllocError>
    ensures { IfOk result (λ r. all_carried types.now args.now ≡ option_map (λ vs. vs.items) r) }
{
    let mut values = Vec::new(alloc);
    match push_carried(&mut values, types, args)? {
        None => Ok(None),
        Some(_) => Ok(Some(values)),
    }
}

/// What the sequence gives where there is no memory.
fn without_memory(
    alloc: Global,
    seq: &Seq,
    values: &[Value],
) -> Result<Option<Option<Value>>, AllocError>
    ensures { IfOk result (λ r. option_map (λ done. done.0) (sequence_in (view_seq seq.now) values.now []) ≡ r) }
{
    let mut memory = Memory {
        blocks: BlockList::new(Vec::new(alloc)),
    };
    sequence(alloc, seq, values, &mut memory)
}

/// The value of the sequence for arguments that are of its parameters' types: an integer as its value modulo 2^64, and `Nothing` for a
/// pointer. It is `Nothing` for a sequence without a value. The only error is want of memory.
pub fn eval_seq(alloc: Global, seq: &Seq, args: &[Arg]) -> Result<Arg, AllocError>
    requires formed { WellFormed (view_seq seq.now) }
    requires defined { IsSome (evaluated (view_seq seq.now) args.now) }
    ensures { IfOk result (λ a. evaluated (view_seq seq.now) args.now ≡ Some a) }
{
    match all_carried(alloc, &seq.params, args)? {
        None => Ok(Arg::Nothing),
        Some(values) => match without_memory(alloc, seq, &values)? {
            None => Ok(Arg::Nothing),
            Some(v) => Ok(as_arg(v)),
        },
    }
}

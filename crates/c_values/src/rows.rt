//! What a call of a row of a table does: it reads its accesses, applies its formula and writes its accesses.

ghost use Rattle.std.specs.Prelude.{◌≡◌, ◌++◌, replicate, IfOk, OnOk, IsTrue};
ghost use Rattle.std.specs.Option.{option_and_then};
ghost use Rattle.lane_core.specs.Table.{params_of, reads, Fits, InImmRange};
ghost use Rattle.c_memory.specs.MeaningRows.{rows_of, fits_kind, fits_kinds, is_in_range, argument, passed, arguments, number_at, immediate, pointer_among, size_of_kind, register, bytes_of, given, and_one, first_accesses, with_bytes_read, row_applied, row_made, row_result};
ghost use Rattle.c_values.specs.Results.{Gives, Makes};
ghost use Rattle.c_values.specs.Accesses.{AreArgs, in_range, unless_nothing, integer_given, reads_in};

use crate::accesses::{read_each, write_each};
use crate::numbers::{bits, from_bits, magnitude};
use c_memory::{Memory, Pointer, Value, VectorTable};
use lane_core::table::{Access, Arg, ImmRange, ParamKind, Sig, known_arg};
use scalar_core::IntType;
use std::alloc::{AllocError, Global};

/// Whether the value is one of a parameter's kind.
fn fits_kind(kind: ParamKind, v: Value) -> bool
    ensures { result ≡ fits_kind kind v }
{
    match (kind, v) {
        (ParamKind::Reg(bytes), Value::R8(_)) => bytes == 8,
        (ParamKind::Reg(bytes), Value::R16(_)) => bytes == 16,
        (ParamKind::Reg(bytes), Value::R32(_)) => bytes == 32,
        (ParamKind::Lane(_, false), Value::R8(_)) => true,
        (ParamKind::Lane(_, true), Value::R16(_)) => true,
        (ParamKind::Pair, Value::R32(_)) => true,
        (ParamKind::Scalar(_), Value::Int(_)) => true,
        (ParamKind::Immediate, Value::Int(n)) => n.value >= 0,
        (ParamKind::PointerTo(_, _), Value::At(_)) => true,
        _ => false,
    }
}

/// Whether there is one value for each parameter, in order.
fn fits_kinds(kinds: &[ParamKind], values: &[Value]) -> bool
    ensures { result ≡ fits_kinds kinds.now values.now }
{
    match (kinds.split_first(), values.split_first()) {
        (None, None) => true,
        (Some((kind, kinds)), Some((v, values))) => fits_kind(*kind, *v)
            && fits_kinds(kinds, values),
        _ => false,
    }
}

/// The number, where it is one that the immediate may have.
fn in_range(range: ImmRange, number: u64) -> Option<u16>
    ensures { result ≡ in_range range number }
{
    match range {
        ImmRange::NoImmediate => if number == 0 { Some(0) } else { None },
        ImmRange::Span(low, high) => if u64::from(low) <= number && number <= u64::from(high) {
            Some(number as u16)
        } else {
            None
        },
        ImmRange::Scale => match number {
            1 | 2 | 4 | 8 => Some(number as u16),
            _ => None,
        },
    }
}

/// The value as an argument: an integer as its value modulo 2^64, and a pointer as nothing.
pub fn argument(v: Value) -> Arg
    ensures { result ≡ argument v }
{
    match v {
        Value::Int(n) => Arg::Int(bits(IntType::ULong, n.value)),
        Value::R8(r) => Arg::R8(r),
        Value::R16(r) => Arg::R16(r),
        Value::R32(r) => Arg::R32(r),
        Value::At(_) => Arg::Nothing,
    }
}

/// The value as an argument for a parameter of the kind.
fn passed(kind: ParamKind, v: Value) -> Arg
    ensures { result ≡ passed kind v }
{
    match kind {
        ParamKind::Immediate => Arg::Nothing,
        ParamKind::Reg(_)
        | ParamKind::Lane(_, _)
        | ParamKind::Pair
        | ParamKind::Scalar(_)
        | ParamKind::PointerTo(_, _)
        | ParamKind::Nothing => argument(v),
    }
}

/// Adds the arguments for parameters of these kinds.
fn push_arguments(
    out: &mut Vec<Arg>,
    kinds: &[ParamKind],
    values: &[Value],
) -> Result<(), AllocError>
    ensures { OnOk result (out.new.items ≡ out.old.items ++ arguments kinds.now values.now) }
{
    match (kinds.split_first(), values.split_first()) {
        (Some((kind, kinds)), Some((v, values))) => {
            out.push(passed(*kind, *v))?;
            push_arguments(out, kinds, values)
        }
        _ => Ok(()),
    }
}

/// The number that stands where the immediate does.
fn number_at(kind: ParamKind, v: Value) -> Option<u64>
    ensures { result ≡ number_at kind v }
{
    match (kind, v) {
        (ParamKind::Immediate, Value::Int(n)) => Some(magnitude(n)),
        _ => None,
    }
}

/// The number of the immediate, and 0 where none stands.
fn immediate(kinds: &[ParamKind], values: &[Value]) -> u64
    ensures { result ≡ immediate kinds.now values.now }
{
    match (kinds.split_first(), values.split_first()) {
        (Some((kind, kinds)), Some((v, values))) => match number_at(*kind, *v) {
            Some(number) => number,
            None => immediate(kinds, values),
        },
        _ => 0,
    }
}

/// The pointer among the values.
fn pointer_among(values: &[Value]) -> Pointer
    ensures { result ≡ pointer_among values.now }
{
    match values.split_first() {
        Some((Value::At(p), _)) => *p,
        Some((Value::Int(_) | Value::R8(_) | Value::R16(_) | Value::R32(_), rest)) => pointer_among(
            rest,
        ),
        None => Pointer::Null,
    }
}

/// The bytes of a value of this kind.
fn size_of_kind(kind: ParamKind) -> u8
    ensures { result ≡ size_of_kind kind }
{
    match kind {
        ParamKind::Reg(bytes) => bytes,
        ParamKind::Lane(_, wide) => if wide { 16 } else { 8 },
        ParamKind::Pair => 32,
        ParamKind::Scalar(_)
        | ParamKind::Immediate
        | ParamKind::PointerTo(_, _)
        | ParamKind::Nothing => 0,
    }
}

/// The bytes of a register.
fn bytes_of(arg: &Arg) -> &[u8]
    ensures { result.now ≡ bytes_of arg.now }
{
    match arg {
        Arg::R8(r) => r,
        Arg::R16(r) => r,
        Arg::R32(r) => r,
        Arg::Nothing | Arg::Int(_) => &[],
    }
}

/// The value, where the kind is that of a result.
fn unless_nothing(kind: ParamKind, v: Value) -> Option<Value>
    ensures { result ≡ unless_nothing kind v }
{
    match kind {
        ParamKind::Nothing => None,
        _ => Some(v),
    }
}

/// An integer in its type, where the kind is that of one.
fn integer_given(kind: ParamKind, n: u64) -> Option<Value>
    ensures { result ≡ integer_given kind n }
{
    match kind {
        ParamKind::Scalar(ty) => Some(Value::Int(from_bits(ty, n))),
        _ => None,
    }
}

/// What a row gives, as a value of its result's kind.
fn given(kind: ParamKind, arg: Arg) -> Option<Value>
    ensures { result ≡ given kind arg }
{
    match arg {
        Arg::Nothing => None,
        Arg::Int(n) => integer_given(kind, n),
        Arg::R8(r) => unless_nothing(kind, Value::R8(r)),
        Arg::R16(r) => unless_nothing(kind, Value::R16(r)),
        Arg::R32(r) => unless_nothing(kind, Value::R32(r)),
    }
}

/// The kinds of the row's parameters, in order.
fn kinds_of(sig: &Sig) -> &[ParamKind]
    ensures { result.now ≡ params_of sig.now }
{
    let count = sig.count as usize;
    if count < sig.params.len() {
        &sig.params[..count]
    } else {
        &sig.params
    }
}

/// Whether the row reads memory: it has a pointer to const.
fn reads(kinds: &[ParamKind]) -> bool
    ensures { result ≡ reads kinds.now }
{
    match kinds.split_first() {
        Some((ParamKind::PointerTo(_, constant), rest)) => if *constant {
            true
        } else {
            reads(rest)
        },
        Some(
            (
                ParamKind::Reg(_)
                | ParamKind::Lane(_, _)
                | ParamKind::Pair
                | ParamKind::Scalar(_)
                | ParamKind::Immediate
                | ParamKind::Nothing,
                rest,
            ),
        ) => reads(rest),
        None => false,
    }
}

/// Adds an access, where there is one.
fn push_access(all: &mut Vec<Access>, access: Option<Access>) -> Result<(), AllocError>
    ensures { OnOk result (all.new.items ≡ and_one all.old.items access) }
{
    match access {
        Some(access) => {
            all.push(access)?;
            Ok(())
        }
        None => Ok(()),
    }
}

/// The accesses of the row that are there.
fn accesses<T: VectorTable>(
    alloc: Global,
    table: &T,
    op: T::Op,
    args: &[Arg],
    imm: u16,
) -> Result<Vec<Access>, AllocError>
    ensures { IfOk result (λ all. all.items ≡ first_accesses (T.access_of op args.now imm) (T.accesses_of op)) }
{
    let mut all = Vec::new(alloc);
    for k in 0..table.accesses(op) {
        let access = table.access(op, args, imm, k);
        push_access(&mut all, access)?;
    }
    Ok(all)
}

/// A register of `N` bytes with the bytes that the accesses read at their places, and zeros elsewhere.
fn read_register<const N: usize>(
    memory: &Memory,
    at: Pointer,
    accesses: &[Access],
) -> Option<[u8; N]>
    ensures { result ≡ reads_in memory.now.blocks at accesses.now (replicate N 0) }
{
    let mut register = [0; N];
    match read_each(memory, at, accesses, &mut register) {
        Some(_) => Some(register),
        None => None,
    }
}

/// The same as an argument, for a size in bytes. None has another size than a register.
fn register_read(memory: &Memory, at: Pointer, accesses: &[Access], size: u8) -> Option<Arg>
    ensures { result ≡ option_and_then (register size) (reads_in memory.now.blocks at accesses.now (replicate size 0)) }
{
    if size == 8 {
        return match read_register::<8>(memory, at, accesses) {
            Some(r) => Some(Arg::R8(r)),
            None => None,
        };
    }
    if size == 16 {
        return match read_register::<16>(memory, at, accesses) {
            Some(r) => Some(Arg::R16(r)),
            None => None,
        };
    }
    if size == 32 {
        return match read_register::<32>(memory, at, accesses) {
            Some(r) => Some(Arg::R32(r)),
            None => None,
        };
    }
    None
}

/// Adds the bytes that a reading row reads to its arguments.
fn push_bytes_read(
    args: &mut Vec<Arg>,
    sig: &Sig,
    memory: &Memory,
    at: Pointer,
    accesses: &[Access],
) -> Result<Option<()>, AllocError>
    ensures { IfOk result (λ done. Gives (with_bytes_read sig.now memory.now.blocks at accesses.now args.old.items) done args.new.items) }
{
    if !reads(kinds_of(sig)) {
        return Ok(Some(()));
    }
    match register_read(memory, at, accesses, size_of_kind(sig.result)) {
        Some(register) => {
            args.push(register)?;
            Ok(Some(()))
        }
        None => Ok(None),
    }
}

/// What their type says of arguments. This runs nothing that is seen.
fn known_args(args: &[Arg])
    ensures { AreArgs args.now }
{
    match args.split_first() {
        Some((first, rest)) => {
            known_arg(first);
            known_args(rest);
        }
        None => {}
    }
}

/// The row's formula for these arguments: the value that it gives, of the kind `gives`, after its accesses are written.
fn applied<T: VectorTable>(
    table: &T,
    op: T::Op,
    gives: ParamKind,
    imm: u16,
    at: Pointer,
    accesses: &[Access],
    memory: &mut Memory,
    args: &[Arg],
) -> Option<Option<Value>>
    requires gives { gives ≡ (T.signature_of op).result }
    requires fit { Fits (T.signature_of op) args.now }
    requires immediate { InImmRange (T.range_of op) imm }
    ensures { Makes (row_applied (rows_of T.find_of T.signature_of T.range_of T.accesses_of T.access_of T.eval_of) op imm at accesses.now memory.old.blocks args.now) result memory.new.blocks }
{
    let arg = table.eval(op, args, imm);
    match write_each(memory, at, bytes_of(&arg), accesses) {
        Some(_) => Some(given(gives, arg)),
        None => None,
    }
}

/// A call with values that fit: what the row gives, after its accesses are made.
fn made<T: VectorTable>(
    alloc: Global,
    table: &T,
    op: T::Op,
    sig: &Sig,
    imm: u16,
    memory: &mut Memory,
    values: &[Value],
) -> Result<Option<Option<Value>>, AllocError>
    requires signature { sig.now ≡ T.signature_of op }
    requires fit { IsTrue (fits_kinds (params_of (T.signature_of op)) values.now) }
    requires immediate { imm ≡ immediate (params_of (T.signature_of op)) values.now }
    requires range { IsTrue (is_in_range (T.range_of op) imm) }
    ensures { IfOk result (λ done. Makes (row_made (rows_of T.find_of T.signature_of T.range_of T.accesses_of T.access_of T.eval_of) op values.now memory.old.blocks) done memory.new.blocks) }
{
    let at = pointer_among(values);
    let mut args = Vec::new(alloc);
    push_arguments(&mut args, kinds_of(sig), values)?;
    let all = accesses(alloc, table, op, &args, imm)?;
    match push_bytes_read(&mut args, sig, memory, at, &all)? {
        Some(_) => {
            known_args(&args);
            Ok(applied(table, op, sig.result, imm, at, &all, memory, &args))
        }
        None => Ok(None),
    }
}

/// A call of the row, which has this signature, with these values: what it gives, and the memory after it. `Ok(None)` is for a call that is undefined: where a
/// value isn't of its parameter's kind, where the immediate is out of its range, and where an access isn't defined, and then the memory
/// may have any bytes written. The only error is want of memory.
pub fn row_call<T: VectorTable>(
    alloc: Global,
    table: &T,
    op: T::Op,
    sig: &Sig,
    memory: &mut Memory,
    values: &[Value],
) -> Result<Option<Option<Value>>, AllocError>
    requires { sig.now ≡ T.signature_of op }
    ensures { IfOk result (λ done. Makes (row_result (rows_of T.find_of T.signature_of T.range_of T.accesses_of T.access_of T.eval_of) op values.now memory.old.blocks) done memory.new.blocks) }
{
    let kinds = kinds_of(sig);
    if !fits_kinds(kinds, values) {
        return Ok(None);
    }
    match in_range(table.range(op), immediate(kinds, values)) {
        Some(imm) => made(alloc, table, op, sig, imm, memory, values),
        None => Ok(None),
    }
}

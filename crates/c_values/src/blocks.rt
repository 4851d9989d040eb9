//! Blocks that begin, and the bytes that they begin with (C11 6.2.4, 6.7.9).

ghost use Rattle.std.specs.Prelude.{◌≡◌, ◌++◌, ◌-◌, option_map, length, map, replicate, Some, IfOk, OnOk};
ghost use Rattle.c_tree.specs.View.{view, views, view_declared};
ghost use Rattle.const_imm.specs.Constant.{value_of};
ghost use Rattle.c_memory.specs.Defined.{Leaves};
ghost use Rattle.c_memory.specs.Meaning.{filled, constant_bytes, table_block};
ghost use Rattle.c_memory.specs.MeaningObjects.{encoded, natural_alignment, written_alignment, block_of, unset_bytes, constants_bytes, array_bytes};
ghost use Rattle.c_values.specs.ByteLists.{constant_encoded};

use crate::encoding::{encoded, encoded_integer};
use crate::numbers::{element_size, magnitude};
use crate::operators::converted_value;
use c_memory::{Block, ByteList, Memory, Value};
use c_tree::{CType, Declared, Expr, IntType, Num, Pointee};
use const_imm::{eval_const, size_of};
use scalar_core::convert;
use std::alloc::{AllocError, Global};

/// The value of a constant expression, if it has one.
fn constant_value(e: &Expr) -> Option<Num>
    ensures { result ≡ value_of (view e.now) }
{
    match eval_const(e) {
        Ok(n) => Some(n),
        Err(_) => None,
    }
}

/// Adds bytes that are set.
fn push_bytes(out: &mut Vec<Option<u8>>, bytes: &[u8]) -> Result<(), AllocError>
    ensures { OnOk result (out.new.items ≡ out.old.items ++ map Some bytes.now) }
{
    for byte in bytes {
        out.push(Some(*byte))?;
    }
    Ok(())
}

/// The bytes, each set.
fn set_bytes(alloc: Global, bytes: &[u8]) -> Result<Vec<Option<u8>>, AllocError>
    ensures { IfOk result (λ all. all.items ≡ map Some bytes.now) }
{
    let mut all = Vec::new(alloc);
    push_bytes(&mut all, bytes)?;
    Ok(all)
}

/// The bytes that stand for a value in an object of this type.
fn encoded_bytes(alloc: Global, ty: CType, v: Value) -> Result<Option<Vec<Option<u8>>>, AllocError>
    ensures { IfOk result (λ bytes. option_map (λ all. all.items) bytes ≡ option_map (map Some) (encoded ty v)) }
{
    match encoded(ty, v) {
        Some(bytes) => Ok(Some(set_bytes(alloc, bytes.as_slice())?)),
        None => Ok(None),
    }
}

/// The bytes of a constant in an object of this type.
fn constant_encoded(
    alloc: Global,
    ty: CType,
    e: &Expr,
) -> Result<Option<Vec<Option<u8>>>, AllocError>
    ensures { IfOk result (λ bytes. option_map (λ all. all.items) bytes ≡ option_map (map Some) (constant_encoded ty (view e.now))) }
{
    match constant_value(e) {
        Some(n) => match converted_value(ty, Value::Int(n)) {
            Some(v) => encoded_bytes(alloc, ty, v),
            None => Ok(None),
        },
        None => Ok(None),
    }
}

/// The bytes of integer constants in a row, each converted to the type.
fn constants_bytes(
    alloc: Global,
    ty: IntType,
    list: &[Expr],
) -> Result<Option<Vec<Option<u8>>>, AllocError>
    ensures { IfOk result (λ bytes. option_map (λ all. all.items) bytes ≡ option_map (map Some) (constants_bytes ty (views list.now))) }
{
    let mut all = Vec::new(alloc);
    for e in list {
        match constant_value(e) {
            Some(n) => push_bytes(&mut all, encoded_integer(ty, convert(n, ty)).as_slice())?,
            None => return Ok(None),
        }
    }
    Ok(Some(all))
}

/// The bytes, and zeros behind them up to that number.
fn padded(mut bytes: Vec<Option<u8>>, size: usize) -> Result<Vec<Option<u8>>, AllocError>
    ensures { IfOk result (λ all. all.items ≡ bytes.items ++ replicate (size - length bytes.items) (Some 0)) }
{
    if bytes.len() < size {
        bytes.resize(size, Some(0))?;
    }
    Ok(bytes)
}

/// The bytes of integer constants in a row, each converted to the type, and zeros behind them up to that number.
fn filled_up(
    alloc: Global,
    ty: IntType,
    size: usize,
    list: &[Expr],
) -> Result<Option<Vec<Option<u8>>>, AllocError>
    ensures { IfOk result (λ bytes. option_map (λ all. all.items) bytes
        ≡ option_map (map Some) (option_map (λ front. front ++ replicate (size - length front) 0) (constants_bytes ty (views list.now)))) }
{
    match constants_bytes(alloc, ty, list)? {
        Some(bytes) => Ok(Some(padded(bytes, size)?)),
        None => Ok(None),
    }
}

/// The bytes of an array for its list of constants. What is missing is 0.
fn array_bytes(
    alloc: Global,
    ty: CType,
    list: &[Expr],
) -> Result<Option<Vec<Option<u8>>>, AllocError>
    ensures { IfOk result (λ bytes. option_map (λ all. all.items) bytes ≡ option_map (map Some) (array_bytes ty (views list.now))) }
{
    match ty {
        CType::Array(Pointee::Int(element), _, _) => filled_up(
            alloc,
            element,
            size_of(ty).unwrap_or(0) as usize,
            list,
        ),
        _ => Ok(None),
    }
}

/// The bytes of a table: those of its constants, or of its one constant.
fn constant_bytes(alloc: Global, d: &Declared) -> Result<Option<Vec<Option<u8>>>, AllocError>
    ensures { IfOk result (λ bytes. option_map (λ all. all.items) bytes
        ≡ option_map (map Some) (constant_bytes (view_declared d.now) (view_declared d.now).init (view_declared d.now).list)) }
{
    match &d.init {
        Some(e) => constant_encoded(alloc, d.ty, e),
        None => match &d.list {
            Some(all) => array_bytes(alloc, d.ty, all.as_slice()),
            None => Ok(None),
        },
    }
}

/// Bytes that aren't set, as many as an object of the type has.
fn unset_bytes(alloc: Global, ty: CType) -> Result<Vec<Option<u8>>, AllocError>
    ensures { IfOk result (λ all. all.items ≡ unset_bytes ty) }
{
    let mut all = Vec::new(alloc);
    all.resize(size_of(ty).unwrap_or(0) as usize, None)?;
    Ok(all)
}

/// The alignment of an object's elements, or of the object itself, in bytes.
fn natural_alignment(ty: CType) -> u64
    ensures { result ≡ natural_alignment ty }
{
    match ty {
        CType::Array(element, _, _) => match element_size(element) {
            Some(size) => u64::from(size),
            None => 1,
        },
        _ => size_of(ty).unwrap_or(1),
    }
}

/// The alignment that is written, in bytes.
fn written_alignment(align: &Option<Expr>) -> u64
    ensures { result ≡ written_alignment (option_map view align.now) }
{
    match align {
        Some(e) => match constant_value(e) {
            Some(n) => magnitude(n),
            None => 1,
        },
        None => 1,
    }
}

/// The block of an object, with its bytes.
fn block_of(d: &Declared, writable: bool, bytes: Vec<Option<u8>>) -> Block
    ensures { result ≡ block_of (view_declared d.now) writable bytes.items }
{
    let align = natural_alignment(d.ty).max(written_alignment(&d.align)) as usize;
    Block {
        bytes: ByteList::new(bytes),
        align,
        writable,
        alive: true,
    }
}

/// The block of a local or a parameter that begins. Its bytes aren't set. The only error is want of memory.
pub fn object_block(alloc: Global, d: &Declared, writable: bool) -> Result<Block, AllocError>
    ensures { IfOk result (λ b. b ≡ block_of (view_declared d.now) writable (unset_bytes d.now.ty)) }
{
    let bytes = unset_bytes(alloc, d.ty)?;
    Ok(block_of(d, writable, bytes))
}

/// The block of a table, with the bytes of its constants. The only error is want of memory.
pub fn table_block(alloc: Global, d: &Declared) -> Result<Block, AllocError>
    ensures { IfOk result (λ b. b ≡ table_block (view_declared d.now)) }
{
    match constant_bytes(alloc, d)? {
        Some(bytes) => Ok(block_of(d, false, bytes)),
        None => Ok(block_of(d, false, unset_bytes(alloc, d.ty)?)),
    }
}

/// A block's bytes become those of a value, also where the block isn't written otherwise. None exactly where no bytes stand for the
/// value in an object of the type, and then the memory stays. The only error is want of memory.
pub fn fill_value(
    alloc: Global,
    memory: &mut Memory,
    block: usize,
    ty: CType,
    v: Value,
) -> Result<Option<()>, AllocError>
    ensures { IfOk result (λ done. Leaves (option_map (λ bytes. filled block bytes memory.old.blocks) (encoded ty v)) memory.old.blocks done memory.new.blocks) }
{
    match encoded_bytes(alloc, ty, v)? {
        Some(bytes) => {
            memory.blocks.refill(block, bytes);
            Ok(Some(()))
        }
        None => Ok(None),
    }
}

/// A block's bytes become those of an array for its list of constants, also where the block isn't written otherwise. None exactly where
/// the list or the type has none, and then the memory stays. The only error is want of memory.
pub fn fill_list(
    alloc: Global,
    memory: &mut Memory,
    block: usize,
    ty: CType,
    list: &[Expr],
) -> Result<Option<()>, AllocError>
    ensures { IfOk result (λ done. Leaves (option_map (λ bytes. filled block bytes memory.old.blocks) (array_bytes ty (views list.now))) memory.old.blocks done memory.new.blocks) }
{
    match array_bytes(alloc, ty, list)? {
        Some(bytes) => {
            memory.blocks.refill(block, bytes);
            Ok(Some(()))
        }
        None => Ok(None),
    }
}

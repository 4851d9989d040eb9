//! The text that says how a run ended.

ghost use Rattle.std.specs.Prelude.{◌≡◌, ◌*◌, ◌++◌, length, map, take, option_map, slice_get, IfOk, OnOk};
ghost use Rattle.std.specs.Fmt.{signed_decimal};
ghost use Rattle.c_tree.specs.View.{view_declared, view_item, view_unit};
ghost use Rattle.c_memory.specs.Outcomes.{outcome_of};
ghost use Rattle.migrate_report.specs.Texts.{tables, place_text, table_at, pointer_text, vector_text, value_text, byte_text, bytes_text, spaced_text, block_text, blocks_text, done_text, run_text};

use crate::lines::write_decimal;
use c_memory::{Block, Memory, Outcome, Pointer, Value};
use c_tree::{Declared, Item, Unit};
use itoa::Buffer;
use std::alloc::{AllocError, Global};

/// The table with this number, counted from 0.
fn table_with(items: &[Item], number: usize) -> Option<&Declared>
    ensures { option_map (λ d. view_declared d.now) result ≡ slice_get (tables (map view_item items.now)) number }
{
    let mut before = number;
    for item in items {
        if let Item::Table(d, _) = item {
            if before == 0 {
                return Some(d);
            }
            before -= 1;
        }
    }
    None
}

/// The table whose block has this number.
fn table_at(unit: &Unit, blocks: usize, block: usize) -> Option<&Declared>
    ensures { option_map (λ d. view_declared d.now) result ≡ table_at (view_unit unit.now) blocks block }
{
    if block < blocks {
        None
    } else {
        table_with(unit.items.as_slice(), block - blocks)
    }
}

/// A pointer that isn't null.
fn write_place(
    out: &mut Vec<u8>,
    table: Option<&Declared>,
    block: usize,
    offset: usize,
) -> Result<(), AllocError>
    ensures { OnOk result (out.new.items ≡ out.old.items ++ place_text (option_map (λ d. view_declared d.now) table.entry) block offset) }
{
    match table {
        Some(d) => {
            out.extend_from_slice(b"table ")?;
            out.extend_from_slice(d.name.bytes())?;
        }
        None => {
            out.extend_from_slice(b"at ")?;
            write_decimal(out, block as u64)?;
        }
    }
    out.extend_from_slice(b" ")?;
    write_decimal(out, offset as u64)
}

fn write_pointer(
    out: &mut Vec<u8>,
    unit: &Unit,
    blocks: usize,
    at: Pointer,
) -> Result<(), AllocError>
    ensures { OnOk result (out.new.items ≡ out.old.items ++ pointer_text (view_unit unit.now) blocks at) }
{
    match at {
        Pointer::Null => out.extend_from_slice(b"null"),
        Pointer::At(block, offset) => {
            write_place(out, table_at(unit, blocks, block), block, offset)
        }
    }
}

/// The digits of a vector. `text` is room for them.
fn write_vector(out: &mut Vec<u8>, bytes: &[u8], text: &mut [u8]) -> Result<(), AllocError>
    requires { length text.old ≡ 2 * length bytes.now }
    ensures { OnOk result (out.new.items ≡ out.old.items ++ vector_text bytes.now) }
{
    hex::encode_to_slice(bytes, text).unwrap();
    out.extend_from_slice(b"vec ")?;
    out.extend_from_slice(text)
}

fn write_integer(out: &mut Vec<u8>, n: i128) -> Result<(), AllocError>
    ensures { OnOk result (out.new.items ≡ out.old.items ++ signed_decimal n) }
{
    let mut digits = Buffer::new();
    out.extend_from_slice(digits.format(n).as_bytes())
}

/// A function's value.
fn write_value(
    out: &mut Vec<u8>,
    unit: &Unit,
    blocks: usize,
    value: &Option<Value>,
) -> Result<(), AllocError>
    ensures { OnOk result (out.new.items ≡ out.old.items ++ value_text (view_unit unit.now) blocks value.now) }
{
    match value {
        None => out.extend_from_slice(b"none"),
        Some(Value::Int(n)) => {
            out.extend_from_slice(b"int ")?;
            write_integer(out, n.value)
        }
        Some(Value::R8(r)) => write_vector(out, r, &mut [0; 16]),
        Some(Value::R16(r)) => write_vector(out, r, &mut [0; 32]),
        Some(Value::R32(r)) => write_vector(out, r, &mut [0; 64]),
        Some(Value::At(at)) => write_pointer(out, unit, blocks, *at),
    }
}

/// The two characters of a byte, `--` where it isn't set.
fn byte_text(byte: Option<u8>) -> [u8; 2]
    ensures { result ≡ byte_text byte }
{
    let mut text = [b'-'; 2];
    if let Some(b) = byte {
        hex::encode_to_slice([b], &mut text).unwrap();
    }
    text
}

fn write_bytes(out: &mut Vec<u8>, bytes: &[Option<u8>]) -> Result<(), AllocError>
    ensures { OnOk result (out.new.items ≡ out.old.items ++ bytes_text bytes.now) }
{
    for byte in bytes {
        out.extend_from_slice(&byte_text(*byte))?;
    }
    Ok(())
}

/// A space and the bytes, where there are any.
fn write_spaced(out: &mut Vec<u8>, bytes: &[Option<u8>]) -> Result<(), AllocError>
    ensures { OnOk result (out.new.items ≡ out.old.items ++ spaced_text bytes.now) }
{
    if bytes.is_empty() {
        return Ok(());
    }
    out.extend_from_slice(b" ")?;
    write_bytes(out, bytes)
}

/// The line of a block.
fn write_block(out: &mut Vec<u8>, number: usize, block: &Block) -> Result<(), AllocError>
    ensures { OnOk result (out.new.items ≡ out.old.items ++ block_text number block.now) }
{
    out.extend_from_slice(b"block ")?;
    write_decimal(out, number as u64)?;
    write_spaced(out, block.bytes.as_slice())?;
    out.extend_from_slice(b"\n")
}

fn write_blocks(out: &mut Vec<u8>, blocks: &[Block]) -> Result<(), AllocError>
    ensures { OnOk result (out.new.items ≡ out.old.items ++ blocks_text 0 blocks.now) }
{
    for (number, block) in blocks.iter().enumerate() {
        write_block(out, number, block)?;
    }
    Ok(())
}

/// The first blocks, so many or as many as there are.
fn first_blocks(all: &[Block], count: usize) -> &[Block]
    ensures { result.now ≡ take count all.now }
{
    if count < all.len() {
        &all[..count]
    } else {
        all
    }
}

/// The text of a run that is done.
fn write_done(
    out: &mut Vec<u8>,
    unit: &Unit,
    blocks: usize,
    value: &Option<Value>,
    memory: &Memory,
) -> Result<(), AllocError>
    ensures { OnOk result (out.new.items ≡ out.old.items ++ done_text (view_unit unit.now) blocks value.now memory.now.blocks) }
{
    out.extend_from_slice(b"value ")?;
    write_value(out, unit, blocks, value)?;
    out.extend_from_slice(b"\n")?;
    write_blocks(out, first_blocks(memory.blocks.as_slice(), blocks))
}

/// The text of an outcome for a unit, where the first `blocks` blocks of the memory are those of the items and the unit's tables follow them.
/// The only error is want of memory.
///
/// A pointer into a table names it, and every other one has the number of its block, also where that has ended.
pub fn outcome_text(
    alloc: Global,
    unit: &Unit,
    blocks: usize,
    outcome: &Outcome,
) -> Result<Vec<u8>, AllocError>
    ensures text { IfOk result (λ text. text.items ≡ run_text (view_unit unit.now) blocks (outcome_of outcome.now)) }
{
    let mut out = Vec::new(alloc);
    match outcome {
        Outcome::Done(value, memory) => write_done(&mut out, unit, blocks, value, memory)?,
        Outcome::Turns => out.extend_from_slice(b"turns\n")?,
        Outcome::Undefined => out.extend_from_slice(b"undefined\n")?,
    }
    Ok(out)
}

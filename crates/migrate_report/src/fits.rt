//! The arguments and the memory that the items of a run give a function.

ghost use Rattle.std.specs.Prelude.{◌≡◌, map, filter, option_map, slice_get, Some, IfOk, IfSome, IsTrue, string_bytes};
ghost use Rattle.std.specs.Option.{option_to_list};
ghost use Rattle.lane_core.specs.IntRange.{InRange, least, greatest};
ghost use Rattle.scalar_core.specs.TwosComplement.{holds};
ghost use Rattle.scalar_core.specs.Numbers.{num_of};
ghost use Rattle.c_tree.specs.View.{view_declared, view_function, view_item, view_unit};
ghost use Rattle.c_memory.specs.Values.{IsMemory, AreArguments};
ghost use Rattle.migrate_report.specs.Items.{value, items_of, items_fit_form};
ghost use Rattle.migrate_report.specs.Reading.{view_item as view_read, signed_value};
ghost use Rattle.c_memory.specs.Functions.{types_of, function_named};
ghost use Rattle.migrate_report.specs.Fits.{bytes_of, block_with, set_block, block_given, blocks_of, pointer_at, number_in_range, integer_of_type, vector8, vector16, vector32, vector_of_type, argument, gives_argument, arguments, fitting, Answers};
ghost use Rattle.migrate_report.specs.Given.{Gives, unset_block, signed_up_to, offset_in, is_pointer, seen_first, first_argument};
ghost use Rattle.migrate_report.specs.declared.fits.FitFail.TheVariants.{Memory as OutOfMemory};

use crate::items::{Item, number_up_to, read_item};
use c_memory::{Block, BlockList, ByteList, Memory, Pointer, Value};
use c_tree::{CType, Declared, Function, IntType, Item as UnitItem, Num, Unit};
use hex::{FromHex, FromHexError};
use std::alloc::{AllocError, AllocFailed, Global};
use thiserror::Error;

/// Why the items give a function nothing.
#[derive(Clone, Copy, Debug, PartialEq, Eq, Error)]
pub enum FitFail {
    #[error("the unit has no function of this name")]
    NoFunction,
    #[error("the items don't fit the function's parameters")]
    DontFit,
    #[error("out of memory")]
    Memory,
}

impl From<AllocError> for FitFail {
    ghost from_gives = { λ _ e. e ≡ OutOfMemory };

    fn from(_: AllocError) -> Self {
        FitFail::Memory
    }
}

impl<T: Drop> From<AllocFailed<T>> for FitFail {
    ghost from_gives = { λ _ e. e ≡ OutOfMemory };

    fn from(_: AllocFailed<T>) -> Self {
        FitFail::Memory
    }
}

/// The items of the words.
fn read_items<'a>(alloc: Global, words: &'a [String]) -> Result<Vec<Item<'a>>, FitFail>
    ensures { Gives (λ items. map view_read items.items) (items_of (map (λ w. string_bytes w) words.now)) result }
{
    let mut items = Vec::new(alloc);
    for word in words {
        match read_item(word.as_bytes()) {
            Some(item) => items.push(item)?,
            None => return Err(FitFail::DontFit),
        }
    }
    Ok(items)
}

/// These bytes, each set.
fn set_bytes(alloc: Global, bytes: &[u8]) -> Result<Vec<Option<u8>>, AllocError>
    ensures { IfOk result (λ all. all.items ≡ map Some bytes.now) }
{
    let mut all = Vec::new(alloc);
    for byte in bytes {
        all.push(Some(*byte))?;
    }
    Ok(all)
}

/// The bytes that hex digits say.
fn decoded(alloc: Global, hex: &[u8]) -> Result<Vec<u8>, FitFail>
    ensures { Gives (λ bytes. bytes.items) (bytes_of hex.now) result }
{
    match hex::decode(alloc, hex) {
        Ok(bytes) => Ok(bytes),
        Err(FromHexError::OutOfMemory) => Err(FitFail::Memory),
        Err(_) => Err(FitFail::DontFit),
    }
}

/// A block of these bytes.
fn block_with(align: u64, writable: bool, bytes: Vec<Option<u8>>) -> Block
    ensures { result ≡ block_with align writable bytes.items }
{
    Block {
        bytes: ByteList::new(bytes),
        align: align as usize,
        writable,
        alive: true,
    }
}

/// A block whose bytes are set.
fn set_block(alloc: Global, align: u64, writable: bool, hex: &[u8]) -> Result<Block, FitFail>
    ensures { Gives (λ b. b) (option_map (set_block align writable) (bytes_of hex.now)) result }
{
    let bytes = decoded(alloc, hex)?;
    let bytes = set_bytes(alloc, bytes.as_slice())?;
    Ok(block_with(align, writable, bytes))
}

/// A writable block of so many bytes, none of which is set. No memory has 2^64 bytes.
fn unset_block(alloc: Global, align: u64, count: &[u8]) -> Result<Block, FitFail>
    ensures { Gives (λ b. b) (Some (unset_block align (value count.now))) result }
{
    match number_up_to(count, u64::MAX) {
        Some(count) => {
            let mut bytes = Vec::new(alloc);
            bytes.resize(count as usize, None)?;
            Ok(block_with(align, true, bytes))
        }
        None => Err(FitFail::Memory),
    }
}

/// The block that an item gives, if it gives one.
fn block_given(alloc: Global, item: &Item) -> Result<Option<Block>, FitFail>
    ensures { Gives option_to_list (block_given (view_read item.now)) result }
{
    match *item {
        Item::Block(align, writable, hex) => Ok(Some(set_block(alloc, align, writable, hex)?)),
        Item::Space(align, count) => Ok(Some(unset_block(alloc, align, count)?)),
        Item::Integer(_, _) | Item::Vector(_) | Item::At(_, _) | Item::Null => Ok(None),
    }
}

/// The blocks of the items.
fn blocks_of(alloc: Global, items: &[Item]) -> Result<Vec<Block>, FitFail>
    ensures { Gives (λ blocks. blocks.items) (blocks_of (map view_read items.now)) result }
{
    let mut blocks = Vec::new(alloc);
    for item in items {
        match block_given(alloc, item)? {
            Some(block) => blocks.push(block)?,
            None => {}
        }
    }
    Ok(blocks)
}

/// The least value of a type.
fn least(ty: IntType) -> i128
    ensures { result ≡ least ty }
{
    match ty {
        IntType::Char | IntType::SChar => -0x80,
        IntType::Short => -0x8000,
        IntType::Int => -0x8000_0000,
        IntType::Long | IntType::LLong => -0x8000_0000_0000_0000,
        IntType::Boolean | IntType::UChar | IntType::UShort => 0,
        IntType::UInt | IntType::ULong | IntType::ULLong => 0,
    }
}

/// The greatest value of a type.
fn greatest(ty: IntType) -> i128
    ensures { result ≡ greatest ty }
{
    match ty {
        IntType::Boolean => 1,
        IntType::Char | IntType::SChar => 0x7f,
        IntType::UChar => 0xff,
        IntType::Short => 0x7fff,
        IntType::UShort => 0xffff,
        IntType::Int => 0x7fff_ffff,
        IntType::UInt => 0xffff_ffff,
        IntType::Long | IntType::LLong => 0x7fff_ffff_ffff_ffff,
        IntType::ULong | IntType::ULLong => 0xffff_ffff_ffff_ffff,
    }
}

/// Whether the value lies in the type's range.
fn holds(ty: IntType, value: i128) -> bool
    ensures { result ≡ holds ty value }
{
    least(ty) <= value && value <= greatest(ty)
}

/// The number of this type and this value.
fn number(ty: IntType, value: i128) -> Num
    requires { InRange ty value }
    ensures { result ≡ num_of ty value }
{
    Num { ty, value }
}

/// An integer of the type, where it is in the type's range.
fn number_in_range(ty: IntType, value: i128) -> Option<Value>
    ensures { result ≡ number_in_range ty value }
{
    if holds(ty, value) {
        Some(Value::Int(number(ty, value)))
    } else {
        None
    }
}

/// The integer that a sign and digits say. None where it is outside the range of every type.
fn signed(negative: bool, digits: &[u8]) -> Option<i128>
    ensures { result ≡ signed_up_to negative (value digits.now) }
{
    match number_up_to(digits, u64::MAX) {
        Some(n) if negative => Some(-i128::from(n)),
        Some(n) => Some(i128::from(n)),
        None => None,
    }
}

/// The same as an integer of the type, where it is in the type's range.
#[tactic(auto, using(crate::proofs::Ranges::kept, crate::proofs::Ranges::gone))]
fn signed_in_range(ty: IntType, negative: bool, digits: &[u8]) -> Option<Value>
    ensures { result ≡ number_in_range ty (signed_value negative digits.now) }
{
    match signed(negative, digits) {
        Some(value) => number_in_range(ty, value),
        None => None,
    }
}

fn integer(ty: CType, negative: bool, digits: &[u8]) -> Option<Value>
    ensures { result ≡ integer_of_type ty (signed_value negative digits.now) }
{
    match ty {
        CType::Int(ty) => signed_in_range(ty, negative, digits),
        CType::Void | CType::M128 | CType::M256 | CType::Neon(_, _) => None,
        CType::Pair | CType::Pointer(_, _) | CType::Array(_, _, _) => None,
    }
}

fn vector8(hex: &[u8]) -> Option<Value>
    ensures { result ≡ vector8 hex.now }
{
    match <[u8; 8] as FromHex>::from_hex(hex) {
        Ok(r) => Some(Value::R8(r)),
        Err(_) => None,
    }
}

fn vector16(hex: &[u8]) -> Option<Value>
    ensures { result ≡ vector16 hex.now }
{
    match <[u8; 16] as FromHex>::from_hex(hex) {
        Ok(r) => Some(Value::R16(r)),
        Err(_) => None,
    }
}

fn vector32(hex: &[u8]) -> Option<Value>
    ensures { result ≡ vector32 hex.now }
{
    match <[u8; 32] as FromHex>::from_hex(hex) {
        Ok(r) => Some(Value::R32(r)),
        Err(_) => None,
    }
}

/// A vector of the type, where it has the type's size.
fn vector(ty: CType, hex: &[u8]) -> Option<Value>
    ensures { result ≡ vector_of_type ty hex.now }
{
    match ty {
        CType::M128 | CType::Neon(_, true) => vector16(hex),
        CType::M256 | CType::Pair => vector32(hex),
        CType::Neon(_, false) => vector8(hex),
        CType::Void | CType::Int(_) | CType::Pointer(_, _) | CType::Array(_, _, _) => None,
    }
}

/// The offset, where there is a block of this number and the offset is at most its length.
fn offset_in(blocks: &[Block], block: usize, offset: &[u8]) -> Option<u64>
    ensures { result ≡ offset_in (slice_get blocks.now block) (value offset.now) }
{
    match blocks.get(block) {
        Some(found) => number_up_to(offset, found.bytes.as_slice().len() as u64),
        None => None,
    }
}

/// A pointer into a block, or right behind its last byte.
#[tactic(auto, using(crate::proofs::Ranges::placed, crate::proofs::Ranges::unplaced))]
fn pointer(blocks: &[Block], block: &[u8], offset: &[u8]) -> Option<Value>
    ensures { result ≡ pointer_at blocks.now (value block.now) (value offset.now) }
{
    match number_up_to(block, blocks.len() as u64) {
        Some(block) => match offset_in(blocks, block as usize, offset) {
            Some(offset) => Some(Value::At(Pointer::At(block as usize, offset as usize))),
            None => None,
        },
        None => None,
    }
}

fn is_pointer(ty: CType) -> bool
    ensures { result ≡ is_pointer ty }
{
    matches!(ty, CType::Pointer(_, _))
}

/// The argument that an item gives a parameter of this type, if it fits.
fn argument(blocks: &[Block], ty: CType, item: &Item) -> Option<Value>
    ensures { result ≡ argument blocks.now ty (view_read item.now) }
{
    match *item {
        Item::Integer(negative, digits) => integer(ty, negative, digits),
        Item::Vector(hex) => vector(ty, hex),
        Item::At(block, offset) if is_pointer(ty) => pointer(blocks, block, offset),
        Item::Null if is_pointer(ty) => Some(Value::At(Pointer::Null)),
        _ => None,
    }
}

/// Whether an item gives an argument and no block.
fn gives_argument(item: &Item) -> bool
    ensures { result ≡ gives_argument (view_read item.now) }
{
    match item {
        Item::Block(_, _, _) | Item::Space(_, _) => false,
        Item::Integer(_, _) | Item::Vector(_) | Item::At(_, _) | Item::Null => true,
    }
}

/// The argument that an item gives the first of the parameters, and the other parameters.
fn first_argument<'a>(
    blocks: &[Block],
    params: &'a [Declared],
    item: &Item,
) -> Option<(Value, &'a [Declared])>
    ensures { option_map seen_first result ≡ first_argument blocks.now (types_of (map view_declared params.now)) (view_read item.now) }
{
    match params.split_first() {
        Some((param, rest)) => match argument(blocks, param.ty, item) {
            Some(value) => Some((value, rest)),
            None => None,
        },
        None => None,
    }
}

/// One argument for each parameter.
fn arguments_of(
    alloc: Global,
    blocks: &[Block],
    params: &[Declared],
    items: &[Item],
) -> Result<Vec<Value>, FitFail>
    ensures { Gives (λ values. values.items) (arguments blocks.now (types_of (map view_declared params.now)) (filter gives_argument (map view_read items.now))) result }
{
    let mut values = Vec::new(alloc);
    let mut left = params;
    for item in items {
        if gives_argument(item) {
            match first_argument(blocks, left, item) {
                Some((value, rest)) => {
                    values.push(value)?;
                    left = rest;
                }
                None => return Err(FitFail::DontFit),
            }
        }
    }
    match left.split_first() {
        None => Ok(values),
        Some(_) => Err(FitFail::DontFit),
    }
}

/// The first function of the name.
fn function_named<'a>(items: &'a [UnitItem], name: &[u8]) -> Option<&'a Function>
    ensures { option_map (λ f. view_function f.now) result ≡ function_named name.now (map view_item items.now) }
{
    for item in items {
        if let UnitItem::Function(f) = item {
            if name == f.name.bytes() {
                return Some(f);
            }
        }
    }
    None
}

/// What the words give the function of the name.
fn fitted(
    alloc: Global,
    unit: &Unit,
    name: &[u8],
    words: &[String],
) -> Result<(Vec<Value>, Memory), FitFail>
    ensures { Answers (fitting (view_unit unit.now) name.now (map (λ w. string_bytes w) words.now)) result }
{
    let Some(function) = function_named(unit.items.as_slice(), name) else {
        return Err(FitFail::NoFunction);
    };
    let items = read_items(alloc, words)?;
    let blocks = blocks_of(alloc, items.as_slice())?;
    let params = function.params.as_slice();
    let values = arguments_of(alloc, blocks.as_slice(), params, items.as_slice())?;
    let blocks = BlockList::new(blocks);
    Ok((values, Memory { blocks }))
}

/// The arguments in the order of the function's parameters, and the memory of the blocks, in the order of their items. The words are the items alone.
///
/// # Errors
///
/// - `NoFunction` where the unit has no function of the name.
/// - `DontFit` where it has one, and the items don't fit its parameters.
/// - `Memory` where memory ran out, in place of any other answer.
pub fn fit(
    alloc: Global,
    unit: &Unit,
    name: &[u8],
    words: &[String],
) -> Result<(Vec<Value>, Memory), FitFail>
    requires { IsTrue (items_fit_form (map (λ w. string_bytes w) words.now)) }
    ensures fits { Answers (fitting (view_unit unit.now) name.now (map (λ w. string_bytes w) words.now)) result }

    // What a run may be given.
    ensures memory { IfOk result (λ p. IsMemory p.1.blocks) }
    ensures arguments { IfOk result (λ p. IfSome (function_named name.now (view_unit unit.now)) (λ f. AreArguments p.1.blocks (types_of f.params) p.0.items)) }
{
    fitted(alloc, unit, name, words)
}

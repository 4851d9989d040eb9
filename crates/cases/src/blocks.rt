//! Accesses that the rule names, each with its answer and what it leaves.

ghost use Rattle.c_memory.specs.Defined.{IsAlignment};

use c_memory::{Block, BlockList, ByteList, Memory, Pointer, Value};
use lane_core::number::{IntType, Num};
use std::alloc::{AllocError, Global};
use std::test::Fail;

/// The bytes of a block of eight, from 16 on. `hole` is the place of one that isn't set, if it is below 8.
fn bytes(alloc: Global, hole: usize) -> Result<ByteList, AllocError> {
    let mut all = Vec::new(alloc);
    for k in 0..8u8 {
        all.push(if k as usize == hole {
            None
        } else {
            Some(16 + k)
        })?;
    }
    Ok(ByteList::new(all))
}

/// Block 0 may be written, with an alignment of 4; block 1 may not, with one of 8; block 2 has a byte that isn't set; block 3 has ended.
fn sample(alloc: Global) -> Result<Memory, AllocError> {
    let mut blocks = Vec::new(alloc);
    for (align, writable, hole) in [(4, true, 8), (8, false, 8), (1, true, 2), (1, true, 8)] {
        blocks.push(Block {
            bytes: bytes(alloc, hole)?,
            align,
            writable,
            alive: true,
        })?;
    }
    let mut blocks = BlockList::new(blocks);
    blocks.end_from(3);
    Ok(Memory { blocks })
}

/// An alignment of 8, 4 or 2, or else 1.
fn known(align: usize) -> usize
    ensures { IsAlignment result }
{
    match align {
        8 => 8,
        4 => 4,
        2 => 2,
        _ => 1,
    }
}

/// What a read of four bytes gives.
fn read(memory: &Memory, at: Pointer, align: usize) -> Option<[u8; 4]> {
    let mut into = [0; 4];
    memory.read(at, known(align), &mut into)?;
    Some(into)
}

#[test]
fn reads_are_defined_where_the_rule_says(rt: HostRuntime) -> Result<(), Fail> {
    let memory = sample(rt.alloc())?;
    let table = [
        (Pointer::Null, 1, None),
        (Pointer::At(0, 0), 4, Some([16, 17, 18, 19])),
        (Pointer::At(0, 4), 4, Some([20, 21, 22, 23])),
        (Pointer::At(0, 5), 1, None),
        (Pointer::At(0, usize::MAX), 1, None),
        (Pointer::At(0, 2), 4, None),
        (Pointer::At(0, 2), 2, Some([18, 19, 20, 21])),
        (Pointer::At(0, 0), 8, None),
        (Pointer::At(1, 0), 8, Some([16, 17, 18, 19])),
        (Pointer::At(2, 0), 1, None),
        (Pointer::At(2, 3), 1, Some([19, 20, 21, 22])),
        (Pointer::At(3, 0), 1, None),
        (Pointer::At(4, 0), 1, None),
    ];
    for (at, align, want) in table {
        assert_eq!(rt; read(&memory, at, align), want, "at {at:?}");
    }
    Ok(())
}

#[test]
fn writes_are_defined_where_the_rule_says(rt: HostRuntime) -> Result<(), Fail> {
    let table = [
        (Pointer::Null, 1, None),
        (Pointer::At(0, 4), 4, Some([7, 8, 9, 10])),
        (Pointer::At(0, 5), 1, None),
        (Pointer::At(0, 2), 4, None),
        (Pointer::At(0, 0), 8, None),
        (Pointer::At(1, 0), 8, None),
        (Pointer::At(2, 0), 1, Some([7, 8, 9, 10])),
        (Pointer::At(3, 0), 1, None),
    ];
    for (at, align, want) in table {
        let mut memory = sample(rt.alloc())?;
        let written = memory.write(at, known(align), &[7, 8, 9, 10]);
        assert_eq!(rt; written.is_some(), want.is_some(), "at {at:?}");
        assert_eq!(rt; read(&memory, Pointer::At(0, 0), 1), Some([16, 17, 18, 19]));
        if want.is_some() {
            assert_eq!(rt; read(&memory, at, align), want, "at {at:?}");
        }
    }
    Ok(())
}

#[test]
fn blocks_begin_and_end(rt: HostRuntime) -> Result<(), Fail> {
    let alloc = rt.alloc();
    let mut memory = sample(alloc)?;
    memory.blocks.push(Block {
        bytes: bytes(alloc, 8)?,
        align: 1,
        writable: true,
        alive: true,
    })?;
    assert_eq!(rt; memory.blocks.len(), 5);
    let mut none = [0; 0];
    assert_eq!(rt; memory.read(Pointer::At(4, 8), 1, &mut none), Some(()));
    assert_eq!(rt; memory.read(Pointer::At(4, 9), 1, &mut none), None);
    memory.blocks.end_from(4);
    assert_eq!(rt; memory.read(Pointer::At(4, 0), 1, &mut none), None);
    assert_eq!(rt; memory.blocks.as_slice().len(), 5);
    for block in memory.blocks.into_vec() {
        assert_eq!(rt;
            block.bytes.into_vec().len(),
            if block.alive { 8 } else { 0 }
        );
    }
    Ok(())
}

#[test]
fn values_differ_in_their_types_too(rt: HostRuntime) {
    let signed = Value::Int(Num {
        ty: IntType::Int,
        value: 1,
    });
    let unsigned = Value::Int(Num {
        ty: IntType::UInt,
        value: 1,
    });
    let table = [
        (signed, signed, true),
        (signed, unsigned, false),
        (Value::R8([1; 8]), Value::R16([1; 16]), false),
        (Value::R32([1; 32]), Value::R32([1; 32]), true),
        (
            Value::At(Pointer::Null),
            Value::At(Pointer::At(0, 0)),
            false,
        ),
    ];
    for (a, b, same) in table {
        assert_eq!(rt; a == b, same, "at {a:?}");
    }
}

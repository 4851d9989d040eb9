//! Each rule from both of its sides, and each call once.
use c_memory::{Block, BlockList, ByteList, Memory, Pointer, Value, VectorTable};
use c_text::{Place, Text};
use c_tree::{BinOp, CType, Declared, Expr, ExprKind, IntType, NeonLane, Num, Pointee, UnOp};
use c_values::objects::{
    fill_list, fill_value, half, load, object_block, pair_of, size_value, store, table_block,
};
use c_values::operators::{as_int, converted_value, holds, next, operate, operate_before};
use c_values::rows::row_call;
use intel_table::X86Rows;
use scalar_core::convert;
use std::alloc::{AllocError, Global};
use std::process::Abort;
use std::test::Fail;

const INT: CType = CType::Int(IntType::Int);

const TO_INT: CType = CType::Pointer(Pointee::Int(IntType::Int), true);

/// A number of a type.
fn number(ty: IntType, value: i32) -> Num {
    convert(
        Num {
            ty: IntType::Int,
            value: i128::from(value),
        },
        ty,
    )
}

/// The value of a number of a type.
fn of(ty: IntType, value: i32) -> Value {
    Value::Int(number(ty, value))
}

/// An `int`.
fn int(value: i32) -> Value {
    of(IntType::Int, value)
}

/// A pointer.
fn at(block: usize, offset: usize) -> Value {
    Value::At(Pointer::At(block, offset))
}

/// A block of bytes that count up from 1. `hole` is the place of one that isn't set, if it is below the number.
fn block(
    alloc: Global,
    number: u8,
    hole: u8,
    align: usize,
    writable: bool,
) -> Result<Block, AllocError> {
    let mut bytes = Vec::new(alloc);
    for k in 0..number {
        bytes.push(if k == hole {
            None
        } else {
            Some(k.wrapping_add(1))
        })?;
    }
    Ok(Block {
        bytes: ByteList::new(bytes),
        align,
        writable,
        alive: true,
    })
}

/// Block 0 has 32 bytes and an alignment of 32. Block 1 isn't written. Block 2 has a byte that isn't set. Block 3 has an alignment
/// of 2. Block 4 has ended.
fn sample(alloc: Global) -> Result<Memory, AllocError> {
    let mut blocks = Vec::new(alloc);
    for (number, hole, align, writable) in [
        (32, 32, 32, true),
        (8, 8, 8, false),
        (8, 5, 8, true),
        (8, 8, 2, true),
        (8, 8, 8, true),
    ] {
        blocks.push(block(alloc, number, hole, align, writable)?)?;
    }
    let mut blocks = BlockList::new(blocks);
    blocks.end_from(4);
    Ok(Memory { blocks })
}

#[test]
fn operators_follow_the_rules(rt: HostRuntime) -> Result<(), Fail> {
    let memory = sample(rt.alloc())?;
    let null = Value::At(Pointer::Null);
    let table = [
        (BinOp::Add, int(2147483646), int(1), Some(int(2147483647))),
        (BinOp::Add, int(2147483647), int(1), None),
        (BinOp::Div, int(-7), int(2), Some(int(-3))),
        (BinOp::Div, int(-7), int(0), None),
        (BinOp::Shl, int(1), int(30), Some(int(1073741824))),
        (BinOp::Shl, int(1), int(-1), None),
        (BinOp::Add, at(0, 28), int(1), Some(at(0, 32))),
        (BinOp::Add, at(0, 28), int(2), None),
        (BinOp::Sub, at(0, 4), int(1), Some(at(0, 0))),
        (BinOp::Sub, at(0, 4), int(2), None),
        (BinOp::Add, int(-2), at(0, 8), Some(at(0, 0))),
        (BinOp::Sub, int(0), at(0, 8), None),
        (BinOp::Mul, at(0, 8), int(1), None),
        (BinOp::Add, null, int(0), None),
        (BinOp::Add, at(4, 0), int(0), None),
        (BinOp::Add, Value::R16([0; 16]), int(0), None),
    ];
    for (op, a, b, want) in table {
        let left = match a {
            Value::Int(_) => INT,
            _ => TO_INT,
        };
        let right = match b {
            Value::Int(_) => INT,
            _ => TO_INT,
        };
        assert_eq!(rt;
            operate(&memory, op, left, right, a, b),
            want,
            "at {op:?} {a:?} {b:?}"
        );
    }
    Ok(())
}

#[test]
fn pointers_are_compared_by_the_rules(rt: HostRuntime) -> Result<(), Fail> {
    let memory = sample(rt.alloc())?;
    let null = Value::At(Pointer::Null);
    let long = |n: i32| Some(of(IntType::Long, n));
    let table = [
        (BinOp::Sub, at(0, 4), at(0, 12), long(-2)),
        (BinOp::Sub, at(0, 4), at(0, 10), None),
        (BinOp::Sub, at(0, 8), at(1, 8), None),
        (BinOp::Sub, null, null, None),
        (BinOp::Eq, at(0, 8), at(0, 8), Some(int(1))),
        (BinOp::Eq, at(0, 8), at(1, 8), Some(int(0))),
        (BinOp::Ne, null, null, Some(int(0))),
        (BinOp::Ne, at(0, 0), null, Some(int(1))),
        (BinOp::Eq, at(4, 0), at(4, 0), None),
        (BinOp::Lt, at(0, 0), at(0, 4), Some(int(1))),
        (BinOp::Gt, at(0, 0), at(0, 4), Some(int(0))),
        (BinOp::Le, at(0, 4), at(0, 4), Some(int(1))),
        (BinOp::Ge, at(0, 3), at(0, 4), Some(int(0))),
        (BinOp::Lt, at(0, 0), at(1, 4), None),
        (BinOp::Le, at(4, 0), at(4, 0), None),
        (BinOp::Le, null, null, None),
    ];
    for (op, a, b, want) in table {
        assert_eq!(rt;
            operate(&memory, op, TO_INT, TO_INT, a, b),
            want,
            "at {op:?} {a:?} {b:?}"
        );
    }
    Ok(())
}

#[test]
fn one_value_by_the_rules(rt: HostRuntime) -> Result<(), Fail> {
    let memory = sample(rt.alloc())?;
    let null = Value::At(Pointer::Null);
    assert_eq!(rt; holds(&memory, int(2)), Some(true));
    assert_eq!(rt; holds(&memory, null), Some(false));
    assert_eq!(rt; holds(&memory, at(0, 32)), Some(true));
    assert_eq!(rt; holds(&memory, at(4, 0)), None);
    assert_eq!(rt; holds(&memory, Value::R8([1; 8])), None);
    assert_eq!(rt; as_int(true), int(1));
    assert_eq!(rt; operate_before(&memory, UnOp::Not, null), Some(int(1)));
    assert_eq!(rt; operate_before(&memory, UnOp::Not, at(4, 0)), None);
    assert_eq!(rt; operate_before(&memory, UnOp::Neg, int(5)), Some(int(-5)));
    assert_eq!(rt; operate_before(&memory, UnOp::Neg, int(i32::MIN)), None);
    let byte = CType::Int(IntType::UChar);
    assert_eq!(rt;
        converted_value(byte, int(257)),
        Some(of(IntType::UChar, 1))
    );
    assert_eq!(rt; converted_value(TO_INT, int(0)), Some(null));
    assert_eq!(rt; converted_value(TO_INT, int(1)), None);
    assert_eq!(rt; converted_value(TO_INT, at(4, 0)), Some(at(4, 0)));
    assert_eq!(rt; converted_value(INT, at(0, 0)), None);
    let top = of(IntType::UChar, 255);
    assert_eq!(rt; next(&memory, byte, true, top), Some(of(IntType::UChar, 0)));
    assert_eq!(rt; next(&memory, INT, true, int(i32::MAX)), None);
    assert_eq!(rt; next(&memory, TO_INT, false, at(0, 32)), Some(at(0, 28)));
    assert_eq!(rt; next(&memory, TO_INT, true, at(0, 32)), None);
    Ok(())
}

#[test]
fn loads_are_defined_where_the_rule_says(rt: HostRuntime) -> Result<(), Fail> {
    let memory = sample(rt.alloc())?;
    let count = |from: u8| Value::R16(counted(from));
    let table = [
        (
            CType::Int(IntType::Boolean),
            at(0, 0),
            Some(of(IntType::Boolean, 1)),
        ),
        (CType::Int(IntType::Boolean), at(0, 1), None),
        (
            CType::Int(IntType::UChar),
            at(0, 1),
            Some(of(IntType::UChar, 2)),
        ),
        (
            CType::Int(IntType::Short),
            at(0, 2),
            Some(of(IntType::Short, 0x0403)),
        ),
        (CType::Int(IntType::UShort), at(0, 1), None),
        (INT, at(0, 4), Some(int(0x0807_0605))),
        (INT, at(0, 2), None),
        (INT, at(3, 0), None),
        (INT, at(2, 0), Some(int(0x0403_0201))),
        (INT, at(2, 4), None),
        (
            CType::Int(IntType::Long),
            at(1, 0),
            Some(long(0x0403_0201, 0x0807_0605)),
        ),
        (CType::Int(IntType::Long), at(1, 8), None),
        (CType::M128, at(0, 16), Some(count(17))),
        (CType::M128, at(0, 8), None),
        (
            CType::M256,
            at(0, 0),
            Some(Value::R32(pair_of(&counted(1), &counted(17)))),
        ),
        (CType::Neon(NeonLane::U8, true), at(0, 0), None),
        (INT, at(4, 0), None),
        (INT, Value::At(Pointer::Null), None),
    ];
    for (ty, from, want) in table {
        if let Value::At(p) = from {
            assert_eq!(rt; load(&memory, ty, p), want, "at {ty:?} {from:?}");
        }
    }
    Ok(())
}

/// 16 bytes that count up.
fn counted(from: u8) -> [u8; 16] {
    let mut bytes = [0; 16];
    for k in 0..16u8 {
        bytes[k as usize] = from.wrapping_add(k);
    }
    bytes
}

/// A `long` of two halves, each below 2^31.
fn long(low: u32, high: u32) -> Value {
    let value = i128::from(low) + (i128::from(high) << 32);
    Value::Int(convert(
        Num {
            ty: IntType::ULong,
            value,
        },
        IntType::Long,
    ))
}

#[test]
fn stores_are_defined_where_the_rule_says(rt: HostRuntime) -> Result<(), Fail> {
    let table = [
        (
            CType::Int(IntType::Boolean),
            0,
            of(IntType::Boolean, 1),
            true,
        ),
        (CType::Int(IntType::SChar), 3, of(IntType::SChar, -1), true),
        (
            CType::Int(IntType::UShort),
            2,
            of(IntType::UShort, 65535),
            true,
        ),
        (CType::Int(IntType::Short), 1, of(IntType::Short, 1), false),
        (INT, 28, int(-2), true),
        (INT, 32, int(1), false),
        (
            CType::Int(IntType::ULLong),
            8,
            of(IntType::ULLong, -1),
            true,
        ),
        (CType::M128, 16, Value::R16(counted(100)), true),
        (CType::M128, 0, Value::R32([7; 32]), false),
        (CType::M256, 0, Value::R32([7; 32]), true),
        (CType::Pair, 0, Value::R32([7; 32]), false),
        (TO_INT, 0, at(0, 0), false),
    ];
    for (ty, offset, v, want) in table {
        let mut memory = sample(rt.alloc())?;
        let p = Pointer::At(0, offset);
        let before = load(&memory, CType::M256, Pointer::At(0, 0));
        let stored = store(&mut memory, ty, p, v);
        assert_eq!(rt; stored.is_some(), want, "at {ty:?} {offset}");
        if want {
            assert_eq!(rt; load(&memory, ty, p), Some(v), "at {ty:?} {offset}");
        } else {
            assert_eq!(rt; load(&memory, CType::M256, Pointer::At(0, 0)), before);
        }
        assert_eq!(rt; store(&mut memory, ty, Pointer::At(1, 0), v), None);
    }
    Ok(())
}

#[test]
fn halves_and_sizes(rt: HostRuntime) {
    let pair = pair_of(&counted(1), &counted(50));
    assert_eq!(rt; half(0, &pair), counted(1));
    assert_eq!(rt; half(1, &pair), counted(50));
    assert_eq!(rt; size_value(CType::M256), Some(of(IntType::ULong, 32)));
    assert_eq!(rt; size_value(CType::Void), None);
}

/// A constant.
fn constant(alloc: Global, value: i32) -> Result<Expr, AllocError> {
    Ok(Expr {
        place: Place { line: 1, col: 1 },
        ty: INT,
        kind: Box::new(alloc, ExprKind::Const(number(IntType::Int, value)))?,
    })
}

/// An object of a type, aligned to 16, with the list `{1, 258}` or with none.
fn declared(alloc: Global, ty: CType, with_list: bool) -> Result<Declared, AllocError> {
    let list = if with_list {
        let mut all = Vec::new(alloc);
        all.push(constant(alloc, 1)?)?;
        all.push(constant(alloc, 258)?)?;
        Some(all)
    } else {
        None
    };
    Ok(Declared {
        place: Place { line: 1, col: 1 },
        name: Text::new(alloc, b"x")?,
        ty,
        length: None,
        constant: false,
        align: Some(constant(alloc, 16)?),
        align_first: true,
        init: None,
        list,
    })
}

#[test]
fn blocks_begin(rt: HostRuntime) -> Result<(), Fail> {
    let alloc = rt.alloc();
    let bytes = CType::Array(Pointee::Int(IntType::UChar), 4, true);
    let table = table_block(alloc, &declared(alloc, bytes, true)?)?;
    assert_eq!(rt;
        (table.align, table.writable, table.alive),
        (16, false, true)
    );
    assert_eq!(rt;
        table.bytes.as_slice(),
        [Some(1), Some(2), Some(0), Some(0)].as_slice()
    );
    let object = object_block(alloc, &declared(alloc, INT, false)?, false)?;
    assert_eq!(rt; object.bytes.as_slice(), [None; 4].as_slice());
    let mut blocks = Vec::new(alloc);
    blocks.push(object)?;
    blocks.push(table)?;
    let mut memory = Memory {
        blocks: BlockList::new(blocks),
    };
    assert_eq!(rt; fill_value(alloc, &mut memory, 0, INT, int(-5))?, Some(()));
    assert_eq!(rt; load(&memory, INT, Pointer::At(0, 0)), Some(int(-5)));
    assert_eq!(rt; fill_value(alloc, &mut memory, 0, TO_INT, at(0, 0))?, None);
    let words = CType::Array(Pointee::Int(IntType::UShort), 3, false);
    let mut list = Vec::new(alloc);
    list.push(constant(alloc, -1)?)?;
    assert_eq!(rt; fill_list(alloc, &mut memory, 1, words, &list)?, Some(()));
    assert_eq!(rt; fill_list(alloc, &mut memory, 1, INT, &list)?, None);
    let all = memory.blocks.into_vec();
    assert_eq!(rt; all.len(), 2);
    assert_eq!(rt;
        all[1].bytes.as_slice(),
        [Some(255), Some(255), Some(0), Some(0), Some(0), Some(0)].as_slice()
    );
    Ok(())
}

/// A call of a row by its name, with one value or two.
fn called<T: VectorTable>(
    rt: &impl Abort,
    alloc: Global,
    table: &T,
    name: &[u8],
    memory: &mut Memory,
    first: Value,
    second: Option<Value>,
) -> Result<Option<Option<Value>>, AllocError> {
    let op = table.find(name);
    assert!(rt; op.is_some());
    let Some(op) = op else {
        return Ok(None);
    };
    let sig = table.signature(op);
    match second {
        Some(second) => row_call(alloc, table, op, &sig, memory, &[first, second]),
        None => row_call(alloc, table, op, &sig, memory, &[first]),
    }
}

#[test]
fn rows_read_and_store(rt: HostRuntime) -> Result<(), Fail> {
    let alloc = rt.alloc();
    let mut memory = sample(alloc)?;
    let r = Value::R16(counted(60));
    let vector = |from: u8| Some(Some(Value::R16(counted(from))));
    let table = [
        (b"_mm_load_si128".as_slice(), at(0, 16), None, vector(17)),
        (b"_mm_load_si128".as_slice(), at(0, 8), None, None),
        (b"_mm_loadu_si128".as_slice(), at(0, 8), None, vector(9)),
        (b"_mm_loadu_si128".as_slice(), at(0, 17), None, None),
        (b"_mm_loadu_si128".as_slice(), int(0), None, None),
        (b"_mm_loadu_si128".as_slice(), at(0, 8), Some(int(0)), None),
        (
            b"_mm_storeu_si128".as_slice(),
            at(0, 3),
            Some(r),
            Some(None),
        ),
        (b"_mm_store_si128".as_slice(), at(0, 3), Some(r), None),
        (b"_mm_storeu_si128".as_slice(), at(1, 0), Some(r), None),
        (b"_mm_storeu_si128".as_slice(), at(0, 3), Some(int(0)), None),
        (b"_mm_loadu_si128".as_slice(), at(0, 3), None, vector(60)),
        (
            b"_mm_add_epi8".as_slice(),
            r,
            Some(Value::R16([1; 16])),
            vector(61),
        ),
        (b"_mm_add_epi8".as_slice(), r, None, None),
    ];
    for (name, first, second, want) in table {
        let done = called(&rt, alloc, &X86Rows, name, &mut memory, first, second)?;
        assert_eq!(rt; done, want, "at {first:?} {second:?}");
    }
    Ok(())
}

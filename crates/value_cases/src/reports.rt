//! Items on either side of each rule, what they give a function, and the texts of refusals and of runs.

ghost use Rattle.std.specs.Prelude.{IsTrue, map, string_bytes, ◌≡◌};

use c_memory::{Block, BlockList, ByteList, Memory, Outcome, Pointer, Value};
use c_text::{Place, Refusal};
use c_tree::{CType, Declared, Function, IntType, Item, NeonLane, Num, Pointee, Text, Unit};
use migrate_report::{FitFail, fit, items_fit_form, outcome_text, refusal_lines};
use std::alloc::{AllocError, Global};
use std::test::Fail;

/// The words of a line, which have one space between them.
fn words_of(alloc: Global, line: &str) -> Result<Vec<String>, AllocError> {
    let mut all = Vec::new(alloc);
    for word in line.split(' ') {
        all.push(String::from_str(alloc, word)?)?;
    }
    Ok(all)
}

// Words, and whether they are items whose blocks are within the limit.
const FORMS: &str = "\
block:1:ro:80 yes
block:2:rw:00 yes
block:4:ro: yes
block:8:rw:00 yes
block:16:rw:00 yes
block:32:rw:00 yes
block:64:rw:aBcDeF09 yes
block:65:rw: no
block:3:rw: no
block:0:rw: no
block:128:rw: no
block:04:rw: no
block:4:rx: no
block:4:RW: no
block::rw: no
block:4:rw no
block:4:rw:0 no
block:4:rw:0g no
block:4:rw:00: no
space:8:0 yes
space:8:1048576 yes
space:8:1048577 no
space:8:18446744073709551616 no
space:8: no
space:8:01 no
space:8:-1 no
space:5:1 no
int:0 yes
int:-5 yes
int:123456789012345678901234567890 yes
int:-0 no
int: no
int:- no
int:007 no
int:-05 no
int:+5 no
vec:0123456789abcdef yes
vec:0123456789ABCDEF0123456789abcdef yes
vec:0123456789abcdef0123456789abcdef0123456789abcdef0123456789abcdef yes
vec:0123456789abcdef0123456789abcdef0123456789abcdef no
vec:0123456789abcde no
vec:0123456789abcdeg no
vec: no
at:0:0 yes
at:18446744073709551616:7 yes
at:0 no
at:00:0 no
at:0:-1 no
at:0: no
at::0 no
at:0:0:0 no
null yes
null: no
NULL no
float:1 no
int no
space:1:1048575,block:1:rw:00,null yes
space:1:1048575,block:1:rw:0000 no
int:1,int no
int:1,block:1:rw:00,null,space:1:1 yes
int:1,,null no";

#[test]
fn items_have_their_form(rt: HostRuntime) -> Result<(), Fail> {
    let alloc = rt.alloc();
    for line in FORMS.lines() {
        if let Some((items, answer)) = line.split_once(' ') {
            let mut words = Vec::new(alloc);
            for word in items.split(',') {
                words.push(String::from_str(alloc, word)?)?;
            }
            assert_eq!(rt; items_fit_form(&words), answer == "yes", "at {items}");
        }
    }
    assert!(rt; items_fit_form(&Vec::new(alloc)));
    Ok(())
}

#[test]
fn refusals_are_lines(rt: HostRuntime) -> Result<(), Fail> {
    let alloc = rt.alloc();
    let mut list = Vec::new(alloc);
    list.push(Refusal {
        number: 13,
        place: Place { line: 1, col: 50 },
        detail: Text::new(alloc, b"_mm_crc32_u8")?,
    })?;
    list.push(Refusal {
        number: 22,
        place: Place { line: 1, col: 1 },
        detail: Text::new(alloc, b"f")?,
    })?;
    let text = refusal_lines(alloc, &list)?;
    assert_eq!(rt;
        text.as_slice(),
        b"1:50: 13 UnknownIntrinsic _mm_crc32_u8\n1:1: 22 ArgumentsDontFit f\n".as_slice()
    );
    Ok(())
}

fn declared(alloc: Global, name: &[u8], ty: CType) -> Result<Declared, AllocError> {
    Ok(Declared {
        place: Place { line: 1, col: 1 },
        name: Text::new(alloc, name)?,
        ty,
        length: None,
        constant: true,
        align: None,
        align_first: false,
        init: None,
        list: None,
    })
}

fn function(alloc: Global, name: &[u8], types: &[CType]) -> Result<Function, AllocError> {
    let mut params = Vec::new(alloc);
    for ty in types {
        params.push(declared(alloc, b"p", *ty)?)?;
    }
    Ok(Function {
        place: Place { line: 1, col: 1 },
        name: Text::new(alloc, name)?,
        result: CType::Void,
        params,
        is_static: false,
        is_inline: false,
        body: Vec::new(alloc),
    })
}

/// A unit of the table `t`, a function `g` without parameters, the table `u`, and a function `f` with parameters of these types.
fn unit(alloc: Global, types: &[CType]) -> Result<Unit, AllocError> {
    let table = CType::Array(Pointee::Int(IntType::Int), 4, true);
    let mut items = Vec::new(alloc);
    items.push(Item::Table(declared(alloc, b"t", table)?, true))?;
    items.push(Item::Function(function(alloc, b"g", &[])?))?;
    items.push(Item::Table(declared(alloc, b"u", table)?, false))?;
    items.push(Item::Function(function(alloc, b"f", types)?))?;
    Ok(Unit { items })
}

/// Two blocks: the bytes 128 and one that isn't set, and none.
fn memory(alloc: Global) -> Result<Memory, AllocError> {
    let mut bytes = Vec::new(alloc);
    bytes.push(Some(128))?;
    bytes.push(None)?;
    let mut blocks = Vec::new(alloc);
    for bytes in [bytes, Vec::new(alloc)] {
        blocks.push(Block {
            bytes: ByteList::new(bytes),
            align: 1,
            writable: true,
            alive: true,
        })?;
    }
    Ok(Memory {
        blocks: BlockList::new(blocks),
    })
}

#[test]
fn outcomes_are_texts(rt: HostRuntime) -> Result<(), Fail> {
    let alloc = rt.alloc();
    let unit = unit(alloc, &[])?;
    let minus_one = Num {
        ty: IntType::Int,
        value: -1,
    };
    let table: [(Option<Value>, &[u8]); 10] = [
        (None, b"value none\nblock 0 80--\nblock 1\n"),
        (
            Some(Value::Int(minus_one)),
            b"value int -1\nblock 0 80--\nblock 1\n",
        ),
        (
            Some(Value::R8([0xab; 8])),
            b"value vec abababababababab\nblock 0 80--\nblock 1\n",
        ),
        (
            Some(Value::R16([7; 16])),
            b"value vec 07070707070707070707070707070707\nblock 0 80--\nblock 1\n",
        ),
        (
            Some(Value::R32([255; 32])),
            b"value vec ffffffffffffffffffffffffffffffffffffffffffffffffffffffffffffffff\nblock 0 80--\nblock 1\n",
        ),
        (
            Some(Value::At(Pointer::Null)),
            b"value null\nblock 0 80--\nblock 1\n",
        ),
        (
            Some(Value::At(Pointer::At(1, 0))),
            b"value at 1 0\nblock 0 80--\nblock 1\n",
        ),
        (
            Some(Value::At(Pointer::At(2, 16))),
            b"value table t 16\nblock 0 80--\nblock 1\n",
        ),
        (
            Some(Value::At(Pointer::At(3, 4))),
            b"value table u 4\nblock 0 80--\nblock 1\n",
        ),
        (
            Some(Value::At(Pointer::At(4, 0))),
            b"value at 4 0\nblock 0 80--\nblock 1\n",
        ),
    ];
    for (value, want) in table {
        let outcome = Outcome::Done(value, memory(alloc)?);
        let text = outcome_text(alloc, &unit, 2, &outcome)?;
        assert_eq!(rt; text.as_slice(), want);
    }
    let text = outcome_text(alloc, &unit, 2, &Outcome::Turns)?;
    assert_eq!(rt; text.as_slice(), b"turns\n".as_slice());
    let text = outcome_text(alloc, &unit, 2, &Outcome::Undefined)?;
    assert_eq!(rt; text.as_slice(), b"undefined\n".as_slice());
    Ok(())
}

/// What the items of a line give the function of the name: `fits`, or why nothing.
fn answer(alloc: Global, unit: &Unit, name: &[u8], line: &str) -> Result<&'static str, AllocError> {
    let words = words_of(alloc, line)?;
    if !items_fit_form(&words) {
        return Ok("usage");
    }
    Ok(match fit(alloc, unit, name, &words) {
        Ok(_) => "fits",
        Err(FitFail::NoFunction) => "no function",
        Err(FitFail::DontFit) => "don't fit",
        Err(FitFail::Memory) => "no memory",
    })
}

#[test]
fn arguments_fit_their_parameters(rt: HostRuntime) -> Result<(), Fail> {
    let alloc = rt.alloc();
    let int = CType::Int(IntType::Int);
    let pointer = CType::Pointer(Pointee::M128, true);
    let table = [
        (int, "int:2147483647", true),
        (int, "int:2147483648", false),
        (int, "int:-2147483648", true),
        (int, "int:-2147483649", false),
        (int, "null", false),
        (int, "vec:0000000000000000", false),
        (CType::Int(IntType::Boolean), "int:1", true),
        (CType::Int(IntType::Boolean), "int:2", false),
        (CType::Int(IntType::Boolean), "int:-1", false),
        (CType::Int(IntType::UChar), "int:255", true),
        (CType::Int(IntType::UChar), "int:256", false),
        (CType::Int(IntType::Char), "int:-128", true),
        (CType::Int(IntType::Char), "int:128", false),
        (CType::Int(IntType::SChar), "int:127", true),
        (CType::Int(IntType::SChar), "int:-129", false),
        (CType::Int(IntType::Short), "int:32767", true),
        (CType::Int(IntType::Short), "int:32768", false),
        (CType::Int(IntType::Short), "int:-32768", true),
        (CType::Int(IntType::Short), "int:-32769", false),
        (CType::Int(IntType::UShort), "int:65535", true),
        (CType::Int(IntType::UShort), "int:65536", false),
        (CType::Int(IntType::UInt), "int:4294967295", true),
        (CType::Int(IntType::UInt), "int:4294967296", false),
        (CType::Int(IntType::UInt), "int:-1", false),
        (CType::Int(IntType::LLong), "int:9223372036854775807", true),
        (CType::Int(IntType::LLong), "int:9223372036854775808", false),
        (CType::Int(IntType::Long), "int:-9223372036854775808", true),
        (CType::Int(IntType::Long), "int:-9223372036854775809", false),
        (CType::Int(IntType::ULong), "int:18446744073709551615", true),
        (
            CType::Int(IntType::ULong),
            "int:18446744073709551616",
            false,
        ),
        (CType::Int(IntType::ULLong), "int:-1", false),
        (CType::M128, "vec:00112233445566778899AABBCCDDEEFF", true),
        (CType::M128, "vec:0011223344556677", false),
        (CType::M128, "int:0", false),
        (CType::M256, "vec:00112233445566778899aabbccddeeff", false),
        (
            CType::M256,
            "vec:00112233445566778899aabbccddeeff00112233445566778899aabbccddeeff",
            true,
        ),
        (
            CType::Neon(NeonLane::S8, true),
            "vec:00112233445566778899aabbccddeeff",
            true,
        ),
        (
            CType::Neon(NeonLane::S8, false),
            "vec:0011223344556677",
            true,
        ),
        (
            CType::Neon(NeonLane::S8, false),
            "vec:00112233445566778899aabbccddeeff",
            false,
        ),
        (
            CType::Pair,
            "vec:00112233445566778899aabbccddeeff00112233445566778899aabbccddeeff",
            true,
        ),
        (CType::Pair, "vec:00112233445566778899aabbccddeeff", false),
        (CType::Pair, "at:0:0 block:1:rw:", false),
        (pointer, "null", true),
        (pointer, "int:0", false),
        (pointer, "vec:0011223344556677", false),
        (pointer, "block:1:rw: at:0:0", true),
        (pointer, "block:1:rw: at:0:1", false),
        (pointer, "block:1:ro:80 at:0:1", true),
        (pointer, "block:1:ro:80 at:0:2", false),
        (pointer, "at:0:1 block:1:ro:80", true),
        (pointer, "block:1:ro:80 at:1:0", false),
        (pointer, "at:1:3 block:1:ro:80 space:16:3", true),
        (pointer, "at:18446744073709551616:0 block:1:ro:80", false),
        (pointer, "at:0:18446744073709551616 block:1:ro:80", false),
        (pointer, "block:1:ro:80", false),
        (pointer, "null null", false),
    ];
    for (ty, line, fits) in table {
        let unit = unit(alloc, &[ty])?;
        let want = if fits { "fits" } else { "don't fit" };
        assert_eq!(rt; answer(alloc, &unit, b"f", line)?, want, "at {line}");
        assert_eq!(rt; answer(alloc, &unit, b"t", line)?, "no function");
    }
    let unit = unit(alloc, &[])?;
    assert_eq!(rt; answer(alloc, &unit, b"g", "block:1:ro:80")?, "fits");
    assert_eq!(rt; answer(alloc, &unit, b"g", "null")?, "don't fit");
    Ok(())
}

#[test]
fn items_give_values_and_blocks(rt: HostRuntime) -> Result<(), Fail> {
    let alloc = rt.alloc();
    let unit = unit(
        alloc,
        &[
            CType::Int(IntType::Short),
            CType::Pointer(Pointee::Void, false),
        ],
    )?;
    let words = words_of(alloc, "block:4:ro:80fF int:-7 space:32:1 at:1:0")?;
    assert!(rt; items_fit_form(&words));
    if !items_fit_form(&words) {
        return Ok(());
    }
    match fit(alloc, &unit, b"f", &words) {
        Ok((values, memory)) => {
            let seven = Num {
                ty: IntType::Short,
                value: -7,
            };
            assert_eq!(rt; values.len(), 2);
            assert_eq!(rt; values.get(0).copied(), Some(Value::Int(seven)));
            assert_eq!(rt; values.get(1).copied(), Some(Value::At(Pointer::At(1, 0))));
            assert_eq!(rt; memory.blocks.len(), 2);
            let expected = [
                (4, false, [Some(128), Some(255)].as_slice()),
                (32, true, [None].as_slice()),
            ];
            for (block, (align, writable, bytes)) in memory
                .blocks
                .into_vec()
                .into_iter()
                .zip(expected)
            {
                assert_eq!(rt; block.align, align);
                assert_eq!(rt; block.writable, writable);
                assert!(rt; block.alive);
                assert_eq!(rt; block.bytes.as_slice(), bytes);
            }
        }
        Err(fail) => assert_eq!(rt; fail, FitFail::Memory),
    }
    Ok(())
}

#[test]
fn what_fits_is_shown(rt: HostRuntime) -> Result<(), Fail> {
    let alloc = rt.alloc();
    let unit = unit(alloc, &[CType::Int(IntType::Int)])?;
    let words = words_of(alloc, "block:1:rw:80 int:-1")?;
    if !items_fit_form(&words) {
        return Err("form")?;
    }
    match fit(alloc, &unit, b"f", &words) {
        Ok((values, memory)) => {
            let value = values.get(0).copied();
            let text = outcome_text(alloc, &unit, 1, &Outcome::Done(value, memory))?;
            assert_eq!(rt; text.as_slice(), b"value int -1\nblock 0 80\n".as_slice());
        }
        Err(fail) => assert_eq!(rt; fail, FitFail::Memory),
    }
    assert!(rt; matches!(fit(alloc, &unit, b"h", &words), Err(FitFail::NoFunction)));
    Ok(())
}

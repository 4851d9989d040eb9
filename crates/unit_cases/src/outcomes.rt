//! What small units answer and leave, for each form and from both sides of each bound.

use crate::reading::{put, read};
use c_meaning::run;
use c_memory::{
    Block, BlockList, ByteList, Memory, Outcome, Pointer, Value, braces_change_nothing,
    matching_arguments_are_determined, memories_are_of_bytes, the_first_function_is_called,
};
use c_text::Dialect;
use intel_table::X86Rows;
use neon_table::NeonRows;
use std::alloc::{AllocError, Global};
use std::process::Abort;
use std::test::Fail;
use vector_types::{TypedUnit, check};

// The most turns, a unit, and what its function `f` answers: a number, `void`, `turns` or `undefined`; then the memory's blocks, a
// letter each: `r` that may be read alone, `w` that may be written, `-` one that has ended. Block 0 is given, with the bytes 1 to 16. An
// argument is a pointer to it, or a vector of the same bytes.
// Here expressions.
const EXPRESSIONS: &str = "\
0: int f(void) { return 7 - 9; } -> -2 w
0: unsigned f(void) { return 7 - 9; } -> 4294967294 w
0: int f(void) { return -7 / 2; } -> -3 w
0: int f(void) { int x = 0; return 1 / x; } -> undefined
0: int f(void) { int x; return x; } -> undefined
0: int f(void) { int x; x = 3; return x; } -> 3 w
0: int f(void) { int x = 1; int y = x++; return 10 * x + y; } -> 21 w
0: int f(void) { int x = 1; int y = --x; return 10 * x + y; } -> 0 w
0: int f(void) { int x = 5; x -= 2; return x; } -> 3 w
0: int f(void) { unsigned char x = 255; x += 1; return x; } -> 0 w
0: int f(void) { int x = 1; return x && 0; } -> 0 w
0: int f(void) { int x = 0; int y; return x && y; } -> 0 w
0: int f(void) { int x = 1; int y; return x || y; } -> 1 w
0: int f(void) { int x = 0; int y; return x || y; } -> undefined
0: int f(void) { int x = 1; int y; return x ? 4 : y; } -> 4 w
0: int f(void) { int x = 0; int y; return x ? y : 4; } -> 4 w
0: int f(void) { int x = 1; return (x = 2, x + 1); } -> 3 w
0: int f(void) { return (unsigned char)300; } -> 44 w
0: neon: int f(void) { int x = 1; int y = (x = 2) + x; return y; } -> 4 w
0: neon: int f(void) { int x = 1; int y = x + (x = 2); return y; } -> 3 w
0: int f(void) { return !3 + ~3; } -> -4 w
0: unsigned long f(void) { int x; return sizeof(x) + sizeof(char); } -> 5 w
0: int f(void) { int x = 3; int *p = &x; *p = 4; return x; } -> 4 w-
0: int f(void) { int x[3] = {1, 2}; return 10 * x[1] + x[2]; } -> 20 w-
0: int f(void) { int x[3]; x[1] = 2; return x[1]; } -> 2 w-
0: int f(void) { int x[3]; x[1] = 2; return x[0]; } -> undefined
0: int f(void) { int x[3] = {1, 2}; return x[3]; } -> undefined
0: int f(void) { int x[3] = {1, 2, 3}; int *p = x; return p[2] - *(p + 1); } -> 1 w-
0: const int t[] = {5, 6}; int f(void) { return t[1]; } -> 6 wr
0: const int t = 5; static const int u = 6; int f(void) { return 10 * t + u; } -> 56 wrr
0: neon: int f(void) { char c = 200; return c; } -> 200 w
0: int f(void) { char c = 200; return c; } -> -56 w
0: int f(int *p) { return p[1]; } -> 134678021 w
0: int f(int *p) { return p[4]; } -> undefined
0: const int t = 5; int f(int *p) { p[3] = t; return *(p + 3); } -> 5 wr
0: int f(int *p) { int *q = p + 3; return q - p; } -> 3 w
0: int f(int *p) { int x[2] = {1, 2}; return p < x; } -> undefined
0: int f(int *p) { int x[2] = {1, 2}; return p - x; } -> undefined
0: int f(int *p) { int x[2] = {1, 2}; return p == x; } -> 0 w-
0: int f(int *p) { int *q = p + 5; return 1; } -> undefined
0: int f(int *p) { int *q = p + 4; return q == p; } -> 0 w
0: int f(int *p) { _Bool *q = (_Bool *)p; return q[0] + q[1]; } -> undefined
0: int f(int *p) { _Bool *q = (_Bool *)p; return q[0]; } -> 1 w
0: __m128i f(__m128i *p) { return _mm_add_epi8(*p, *p); } -> 2 w
0: __m128i f(__m128i *p) { __m128i a; return _mm_add_epi8(*p, a); } -> undefined
0: neon: uint8x16_t f(uint8x16_t a) { return vaddq_u8(a, a); } -> 2 w
0: neon: uint8x16_t f(uint8x16_t a) { uint8x16x2_t x = (uint8x16x2_t){{a, a}}; return x.val[1]; } -> 1 w
0: neon: uint8x16_t f(uint8x16_t a) { uint8x16x2_t x; x.val[0] = a; return x.val[0]; } -> 1 w
0: neon: uint8x16_t f(uint8x16_t a) { uint8x16x2_t x; x.val[0] = a; return x.val[1]; } -> undefined";

// Here statements, calls and turns.
const STATEMENTS: &str = "\
0: void f(void) { } -> void w
0: void f(void) { return; } -> void w
0: int f(void) { ; } -> undefined
0: int f(void) { if (0) return 1; return 2; } -> 2 w
0: int f(void) { if (0) return 1; else return 2; } -> 2 w
0: int f(void) { if (1) return 1; else return 2; } -> 1 w
0: int f(void) { int x = 1; { int x = 2; x = 3; } return x; } -> 1 w
0: int f(void) { int *p = 0; { int x = 2; p = &x; *p = 3; } return *p; } -> undefined
0: int f(void) { int *p = 0; { int x = 2; p = &x; *p = 3; } return 1; } -> 1 w-
0: int f(void) { int *p = 0; return *p; } -> undefined
0: int f(void) { int x = 1; if (1) int x = 3; return x; } -> 1 w
0: int f(void) { int x = 1; if (0) ; else int x = 3; return x; } -> 1 w
0: int f(void) { int *p = 0; if (1) int x = 3, y = *(p = &x); return *p; } -> undefined
0: int f(void) { if (1) int x[2] = {1, 2}; return 7; } -> 7 w-
0: int f(void) { while (0) return 1; return 2; } -> 2 w
1: int f(void) { int x = 1; while (x) int x = 0; return x; } -> turns
3: int f(void) { int x = 0; do int x = 1; while (x); return 5; } -> 5 w
2: int f(void) { int s = 0; for (int i = 0; i < 3; i++) int i = 9; return s; } -> turns
3: int f(void) { int s = 0; for (int i = 0; i < 3; i++) int i = 9; return s; } -> 0 w
0: int f(void) { int x = 0; while (x < 3) x++; return x; } -> turns
2: int f(void) { int x = 0; while (x < 3) x++; return x; } -> turns
3: int f(void) { int x = 0; while (x < 3) x++; return x; } -> 3 w
0: int f(void) { int x = 5; do x++; while (x < 3); return x; } -> turns
1: int f(void) { int x = 5; do x++; while (x < 3); return x; } -> 6 w
1: int f(void) { int x = 1; do x++; while (x < 3); return x; } -> turns
2: int f(void) { int x = 1; do x++; while (x < 3); return x; } -> 3 w
2: int f(void) { int s = 0; for (int i = 0; i < 3; i++) s += i; return s; } -> turns
3: int f(void) { int s = 0; for (int i = 0; i < 3; i++) s += i; return s; } -> 3 w
1: int f(void) { for (;;) return 4; } -> 4 w
9: int f(void) { for (;;) ; return 4; } -> turns
9: int f(void) { int s = 0; for (int i = 0; i < 5; i++) { if (i == 1) continue; if (i == 3) break; s += i; } return s; } -> 2 w
9: int f(void) { int s = 0; while (s < 5) { s++; while (1) break; } return s; } -> turns
10: int f(void) { int s = 0; while (s < 5) { s++; while (1) break; } return s; } -> 5 w
9: int f(void) { int s = 0; do { s++; if (s == 2) continue; if (s == 4) break; } while (s < 9); return s; } -> 4 w
9: int f(void) { int s = 0; while (1) { s++; if (s < 3) continue; return s; } return 0; } -> 3 w
0: int g(int x) { return x + 1; } int f(void) { return g(2); } -> turns
1: int g(int x) { return x + 1; } int f(void) { return g(2); } -> 3 w
1: int g(int x) { return x + 1; } int f(void) { return g(g(2)); } -> turns
2: int g(int x) { return x + 1; } int f(void) { return g(g(2)); } -> 4 w
0: neon: int mg_g(int x) { return x + 1; } int f(void) { return mg_g(mg_g(2)); } -> 4 w
1: int g(int x) { int *p = &x; *p = *p + 1; return x; } int f(void) { int x = 2; return 10 * g(x) + x; } -> 32 w-
1: int g(int *p) { *p = 7; return 1; } int f(void) { int x = 2; g(&x); return x; } -> 7 w-
1: void g(void) { } int f(void) { g(); (void)3; return 1; } -> 1 w";

fn typed(alloc: Global, text: &str, dialect: Dialect) -> Result<TypedUnit, Fail> {
    let unit = read(alloc, text, dialect)?;
    Ok(check(alloc, &unit, dialect).map_err(|_| "no types")?)
}

fn sixteen() -> [u8; 16] {
    [1, 2, 3, 4, 5, 6, 7, 8, 9, 10, 11, 12, 13, 14, 15, 16]
}

fn given_memory(alloc: Global) -> Result<Memory, AllocError> {
    let mut bytes = Vec::new(alloc);
    for byte in sixteen() {
        bytes.push(Some(byte))?;
    }
    let mut blocks = Vec::new(alloc);
    blocks.push(Block {
        bytes: ByteList::new(bytes),
        align: 16,
        writable: true,
        alive: true,
    })?;
    Ok(Memory {
        blocks: BlockList::new(blocks),
    })
}

fn arguments(alloc: Global, text: &str) -> Result<Vec<Value>, AllocError> {
    let mut all = Vec::new(alloc);
    if text.contains("f(int *p") || text.contains("f(__m128i *p") {
        all.push(Value::At(Pointer::At(0, 0)))?;
    } else if text.contains("f(uint8x16_t a") {
        all.push(Value::R16(sixteen()))?;
    }
    Ok(all)
}

fn show_value(alloc: Global, out: &mut Vec<u8>, v: Option<Value>) -> Result<(), AllocError> {
    match v {
        None => put(out, "void"),
        Some(Value::Int(n)) => {
            let value = n.value;
            let text = format!(in alloc; "{value}")?;
            put(out, text.as_str())
        }
        Some(Value::R16(r)) => {
            let first = r[0];
            let text = format!(in alloc; "{first}")?;
            put(out, text.as_str())
        }
        Some(_) => put(out, "value"),
    }
}

fn show_blocks(out: &mut Vec<u8>, memory: &Memory) -> Result<(), AllocError> {
    put(out, " ")?;
    for block in memory.blocks.as_slice() {
        if !block.alive {
            put(out, "-")?;
        } else if block.writable {
            put(out, "w")?;
        } else {
            put(out, "r")?;
        }
    }
    Ok(())
}

fn show(alloc: Global, outcome: &Outcome) -> Result<Vec<u8>, AllocError> {
    let mut out = Vec::new(alloc);
    match outcome {
        Outcome::Done(v, memory) => {
            show_value(alloc, &mut out, *v)?;
            show_blocks(&mut out, memory)?;
        }
        Outcome::Turns => put(&mut out, "turns")?,
        Outcome::Undefined => put(&mut out, "undefined")?,
    }
    Ok(out)
}

fn answer(alloc: Global, text: &str, turns: u64) -> Result<Vec<u8>, Fail> {
    let memory = given_memory(alloc)?;
    let args = arguments(alloc, text)?;
    let outcome = match text.strip_prefix("neon: ") {
        Some(text) => {
            let unit = typed(alloc, text, Dialect::Neon)?;
            run(
                alloc,
                &NeonRows,
                unit.unit(),
                b"f",
                args.as_slice(),
                memory,
                turns,
            )?
        }
        None => {
            let unit = typed(alloc, text, Dialect::X86)?;
            run(
                alloc,
                &X86Rows,
                unit.unit(),
                b"f",
                args.as_slice(),
                memory,
                turns,
            )?
        }
    };
    Ok(show(alloc, &outcome)?)
}

fn agree(rt: &impl Abort, alloc: Global, rows: &str) -> Result<(), Fail> {
    for row in rows.lines() {
        let (turns, rest) = row.split_once(": ").ok_or("malformed")?;
        let (text, want) = rest.split_once(" -> ").ok_or("malformed")?;
        let turns = turns.parse::<u64>().map_err(|_| "malformed")?;
        let found = answer(alloc, text, turns)?;
        assert_eq!(rt; found.as_slice(), want.as_bytes(), "{row}");
    }
    Ok(())
}

#[test]
fn units_answer_by_the_standard(rt: HostRuntime) -> Result<(), Fail> {
    braces_change_nothing();
    matching_arguments_are_determined();
    memories_are_of_bytes();
    the_first_function_is_called();
    agree(&rt, rt.alloc(), EXPRESSIONS)?;
    agree(&rt, rt.alloc(), STATEMENTS)
}

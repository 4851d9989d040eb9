//! The top call over sources and sinks in memory.

use mig_io::{MemSink, MemSource};
use simd_top::{Status, simdmove};
use std::alloc::{AllocError, Global};
use std::test::Fail;

const ADD: &[u8] =
    b"#include <emmintrin.h>\n__m128i f(__m128i a, __m128i b) { return _mm_add_epi8(a, b); }\n";

const ADDED: &[u8] =
    b"#include <arm_neon.h>\n#include <stddef.h>\n#include <stdint.h>\n\nuint8x16_t f(uint8x16_t a, uint8x16_t b) {\n    return vaddq_u8(a, b);\n}\n";

/// How a call ended, and what each sink holds.
#[derive(Drop)]
pub struct Ended {
    pub status: Status,
    pub out: Vec<u8>,
    pub report: Vec<u8>,
}

fn words_of(alloc: Global, words: &[&str]) -> Result<Vec<String>, AllocError> {
    let mut all = Vec::new(alloc);
    for word in words {
        all.push(String::from_str(alloc, word)?)?;
    }
    Ok(all)
}

/// A call over a source whose listed reads fail, and an output that takes ten bytes a call and whose listed writes fail.
pub(crate) fn run(
    alloc: Global,
    words: &[&str],
    source: &[u8],
    reads: &[u64],
    writes: &[u64],
) -> Result<Ended, AllocError> {
    let words = words_of(alloc, words)?;
    let reads = Vec::from_slice(alloc, reads)?;
    let mut source = MemSource::new(Vec::from_slice(alloc, source)?, 64, reads);
    let mut out = MemSink::new(10, Vec::from_slice(alloc, writes)?);
    out.reserve(1 << 20)?;
    let mut report = MemSink::new(1000, Vec::new(alloc));
    report.reserve(1000)?;
    let status = simdmove(alloc, &words, &mut source, &mut out, &mut report);
    Ok(Ended {
        status,
        out: Vec::from_slice(alloc, out.bytes())?,
        report: Vec::from_slice(alloc, report.bytes())?,
    })
}

fn migrated(alloc: Global, source: &[u8]) -> Result<Ended, AllocError> {
    run(alloc, &["migrate"], source, &[], &[])
}

// Sources and what comes: the text behind the include lines, or the line of the report.
const ROWS: [(&[u8], Status, &[u8]); 30] = [
    (b"", Status::Done, b""),
    (b" \t\n", Status::Done, b""),
    (b"#include <emmintrin.h>", Status::Done, b""),
    (
        b"#include <emmintrin.h>\r\n\n# include <stdint.h> // all\n",
        Status::Done,
        b"",
    ),
    (
        b"__m128i f(__m128i a, __m128i b) { return _mm_xor_si128(_mm_avg_epu8(a, b), _mm_min_epu8(a, _mm_sub_epi8(b, a))); }\n",
        Status::Done,
        b"\nuint8x16_t f(uint8x16_t a, uint8x16_t b) {\n    return veorq_u8(vrhaddq_u8(a, b), vminq_u8(a, vsubq_u8(b, a)));\n}\n",
    ),
    (
        b"\n__m128i f(__m128i a, __m128i b) { return b; }\n__m128i\tg1(__m128i x)\n{return _mm_add_epi8 ( x , x ) ;}",
        Status::Done,
        b"\nuint8x16_t f(uint8x16_t a, uint8x16_t b) {\n    return b;\n}\n\nuint8x16_t g1(uint8x16_t x) {\n    return vaddq_u8(x, x);\n}\n",
    ),
    (
        b"/* \xff */ __m128i F_(__m128i longer_name) { return (longer\\\n_name); }",
        Status::Done,
        b"\nuint8x16_t F_(uint8x16_t longer_name) {\n    return longer_name;\n}\n",
    ),
    (
        b"__m128i f(__m128i a); ;\n__attribute__((target(\"avx2\"))) __m128i f(__m128i a) { return a; };",
        Status::Done,
        b"\nuint8x16_t f(uint8x16_t a) {\n    return a;\n}\n",
    ),
    (
        b"#include <math.h>\n",
        Status::Refused,
        b"1:10: 6 UnknownHeader <math.h>\n",
    ),
    (
        b"#include < stdint.h>\n",
        Status::Refused,
        b"1:10: 6 UnknownHeader < stdint.h>\n",
    ),
    (
        b"#include <stdint.h> 1.5\n",
        Status::Refused,
        b"1:2: 5 BadDirective include\n",
    ),
    (
        b"1.5\n#define 1\n",
        Status::Refused,
        b"2:2: 5 BadDirective define\n",
    ),
    (
        b"#define P(x, y) x + y\n#define Q P(1,\nint f(void) { return Q 2); }\n",
        Status::Refused,
        b"3:22: 7 BadMacro P\n",
    ),
    (
        b"int a; # b\n#if 1\n",
        Status::Refused,
        b"2:2: 8 OpenCondition if\n",
    ),
    (
        b"int f(void) { return 0; } # b\n",
        Status::Refused,
        b"1:27: 9 Syntax #\n",
    ),
    (
        b"#ifndef F_H\n#define F_H\n#include <emmintrin.h>\n#if defined(__AVX2__) && !defined(X)\n#define ADD(x, y) \\\n    _mm_add_epi8((x), \\\n        (y))\n#endif\n__m128i f(__m128i a) { return ADD(a, ADD(a, a)); }\n#endif\n",
        Status::Done,
        b"\nuint8x16_t f(uint8x16_t a) {\n    return vaddq_u8(a, vaddq_u8(a, a));\n}\n",
    ),
    (
        b"int f(void) { return 1.5; }\n",
        Status::Refused,
        b"1:22: 4 BadToken 1.5\n",
    ),
    (
        b"int f(void) { return 0; }\n\x01",
        Status::Refused,
        b"2:1: 2 BadByte 0x01\n",
    ),
    (
        b"int f(void) { return 0; } /* end",
        Status::Refused,
        b"1:27: 3 OpenComment /*\n",
    ),
    (
        b"__m128 f(__m128 a) { return a; }\n",
        Status::Refused,
        b"1:1: 18 OutsideProfile __m128\n",
    ),
    (
        b"int f(int x) { return ((((((((((((((((((((((((((((((((((((((((((((((((((((((((((((((((x)))))))))))))))))))))))))))))))))))))))))))))))))))))))))))))))); }",
        Status::Refused,
        b"1:86: 19 TooDeep (\n",
    ),
    (b"int f( {\n", Status::Refused, b"1:8: 9 Syntax {\n"),
    (
        b"int f(void) { return 0; }\n",
        Status::Refused,
        b"1:5: 18 OutsideProfile f\n",
    ),
    (
        b"__m128i f(__m128i a){return a;}\n;static __m128i g(__m128i b){return b;}",
        Status::Refused,
        b"2:17: 18 OutsideProfile g\n",
    ),
    (
        b"__m128i f(const __m128i b){return b;}",
        Status::Refused,
        b"1:9: 18 OutsideProfile f\n",
    ),
    (
        b"static __m128i f(__m128i b){return b;}\n__m128i g(__m128i b){return c;}\n",
        Status::Refused,
        b"2:29: 10 UnknownName c\n",
    ),
    (
        b"unsigned f(unsigned c, unsigned char b) { return _mm_crc32_u8(c, b); }\nint g(int x) { return _mm_popcnt_u32(x); }\n",
        Status::Refused,
        b"1:50: 13 UnknownIntrinsic _mm_crc32_u8\n2:23: 13 UnknownIntrinsic _mm_popcnt_u32\n",
    ),
    (
        b"__m128i f(__m128i b, __m128i b){return b;}",
        Status::Refused,
        b"1:30: 11 TypeFault b\n",
    ),
    (
        b"__m128i f(__m128i b){return b;}\n__m128i f(__m128i b){return b;}",
        Status::Refused,
        b"2:9: 11 TypeFault f\n",
    ),
    (
        b"__m128i mg_f(__m128i b){return b;}\n__m128i f(__m128i __ARM_NEON){return __ARM_NEON;}\n__m128i vaddq_u8(__m128i b){return b;}",
        Status::Refused,
        b"1:9: 12 ReservedName mg_f\n2:19: 12 ReservedName __ARM_NEON\n3:9: 12 ReservedName vaddq_u8\n",
    ),
];

#[test]
fn sources_are_migrated_or_refused(rt: HostRuntime) -> Result<(), Fail> {
    for (source, status, text) in ROWS {
        let ended = migrated(rt.alloc(), source)?;
        assert_eq!(rt; ended.status, status);
        if status == Status::Done {
            assert_eq!(rt; ended.out.get(62..), Some(text));
            assert_eq!(rt; ended.report.len(), 0);
        } else {
            assert_eq!(rt; ended.out.len(), 0);
            assert_eq!(rt; ended.report.as_slice(), text);
        }
    }
    Ok(())
}

const LOOP: &[u8] = b"int f(void) { int s = 0; for (int i = 0; i < 5; i++) s += i; return s; }\n";

const TABLE: &[u8] =
    b"const unsigned char t[2] = {7};\nconst unsigned char *g(unsigned char *p) { *p = t[0]; return t + 1; }\n";

const LOAD: &[u8] = b"__m128i f(const __m128i *p) { return _mm_loadu_si128(p); }\n";

// Words for a run, the source, and what comes.
// Units of directives and macros: guards, conditions on predefined names, a macro of several lines.
const GUARDED: &[u8] =
    b"#ifndef UNIT_H\n#define UNIT_H\n#pragma once\n#include <immintrin.h>\n#if defined(__AVX2__) && !defined(NARROW)\n#define LANES 32\n#elif defined(__SSE2__)\n#define LANES 16\n#endif\n#define ADD_TWICE(sum, x) do { \\\n    (sum) += (x); \\\n    (sum) += (x); \\\n} while (0)\nstatic int f(int x) { return x * LANES; }\nint g(int x) {\n    int s = _MM_SHUFFLE(0, 0, 0, 2);\n    for (int i = 0; i <= x; i++)\n        ADD_TWICE(s, i);\n    return s;\n}\n#endif\n";

const GUARDED_BY_NEON: &[u8] =
    b"#include <arm_neon.h>\n#if defined(__ARM_NEON) && !defined(__AVX2__)\n#define TWO 2\n#endif\nint f(void) { bool b = true; return b ? TWO : 1; }\n";

const RUNS: [(&[&str], &[u8], Status, &[u8]); 26] = [
    (
        &["run", "x86", "f", "5"],
        LOOP,
        Status::Done,
        b"value int 10\n",
    ),
    (&["run", "x86", "f", "4"], LOOP, Status::Turns, b"turns\n"),
    (
        &["run", "neon", "f", "5"],
        LOOP,
        Status::Done,
        b"value int 10\n",
    ),
    (
        &["run", "x86", "g", "5"],
        LOOP,
        Status::Refused,
        b"1:1: 21 NoFunction g\n",
    ),
    (
        &["run", "x86", "f", "5", "int:1"],
        LOOP,
        Status::Refused,
        b"1:1: 22 ArgumentsDontFit f\n",
    ),
    (
        &[
            "run",
            "x86",
            "f",
            "0",
            "vec:00000000000000000000000000000001",
            "vec:ff0000000000000000000000000000ff",
        ],
        ADD,
        Status::Done,
        b"value vec ff000000000000000000000000000000\n",
    ),
    (
        &[
            "run",
            "neon",
            "f",
            "0",
            "vec:00000000000000000000000000000001",
            "vec:ff0000000000000000000000000000ff",
        ],
        ADDED,
        Status::Done,
        b"value vec ff000000000000000000000000000000\n",
    ),
    (
        &[
            "run",
            "neon",
            "f",
            "0",
            "vec:00000000000000000000000000000001",
            "vec:ff0000000000000000000000000000ff",
        ],
        ADD,
        Status::Refused,
        b"1:10: 6 UnknownHeader <emmintrin.h>\n",
    ),
    (
        &["run", "x86", "f", "0"],
        b"#include <arm_neon.h>\n",
        Status::Refused,
        b"1:10: 6 UnknownHeader <arm_neon.h>\n",
    ),
    (
        &["run", "x86", "f", "0", "int:5"],
        GUARDED,
        Status::Done,
        b"value int 160\n",
    ),
    (
        &["run", "x86", "g", "9", "int:3"],
        GUARDED,
        Status::Done,
        b"value int 14\n",
    ),
    (
        &["run", "neon", "f", "0"],
        GUARDED_BY_NEON,
        Status::Done,
        b"value int 2\n",
    ),
    (
        &["run", "x86", "g", "0", "space:1:3", "at:0:1"],
        TABLE,
        Status::Done,
        b"value table t 1\nblock 0 --07--\n",
    ),
    (
        &["run", "x86", "g", "0", "space:1:3", "at:0:3"],
        TABLE,
        Status::Undefined,
        b"undefined\n",
    ),
    (
        &["run", "x86", "g", "0", "space:1:3", "at:0:4"],
        TABLE,
        Status::Refused,
        b"1:1: 22 ArgumentsDontFit g\n",
    ),
    (
        &["run", "x86", "g", "0", "block:1:ro:0A", "null"],
        TABLE,
        Status::Undefined,
        b"undefined\n",
    ),
    (
        &[
            "run",
            "x86",
            "f",
            "0",
            "block:16:ro:000102030405060708090a0b0c0d0e0f10",
            "at:0:1",
        ],
        LOAD,
        Status::Done,
        b"value vec 0102030405060708090a0b0c0d0e0f10\nblock 0 000102030405060708090a0b0c0d0e0f10\n",
    ),
    (
        &[
            "run",
            "x86",
            "f",
            "0",
            "block:16:ro:000102030405060708090a0b0c0d0e0f10",
            "at:0:2",
        ],
        LOAD,
        Status::Undefined,
        b"undefined\n",
    ),
    (
        &["run", "x86", "f", "0", "int:255", "int:-1"],
        b"void f(unsigned char x, signed char y) { x = y; }\n",
        Status::Done,
        b"value none\n",
    ),
    (
        &["run", "x86", "f", "0", "int:256", "int:-1"],
        b"void f(unsigned char x, signed char y) { x = y; }\n",
        Status::Refused,
        b"1:1: 22 ArgumentsDontFit f\n",
    ),
    (
        &["run", "x86", "f", "0"],
        b"int mg_f(void) { return 0; }\nint f(void) { return y; }\n",
        Status::Refused,
        b"1:5: 12 ReservedName mg_f\n2:22: 10 UnknownName y\n",
    ),
    (
        &[
            "both",
            "f",
            "0",
            "vec:00000000000000000000000000000001",
            "vec:ff0000000000000000000000000000ff",
        ],
        ADD,
        Status::Done,
        b"x86\nvalue vec ff000000000000000000000000000000\nneon\nvalue vec ff000000000000000000000000000000\n",
    ),
    (
        &["both", "g", "0"],
        ADD,
        Status::Refused,
        b"1:1: 21 NoFunction g\n",
    ),
    (
        &["both", "f", "0", "int:1"],
        ADD,
        Status::Refused,
        b"1:1: 22 ArgumentsDontFit f\n",
    ),
    (
        &["both", "f", "0"],
        b"int f(void) { return 1; }\n",
        Status::Refused,
        b"1:5: 18 OutsideProfile f\n",
    ),
    (
        &["run", "neon", "f", "0"],
        b"int mg_f(void) { return 3; }\nint f(void) { return mg_f(); }\n",
        Status::Done,
        b"value int 3\n",
    ),
];

#[test]
fn functions_run_in_either_dialect(rt: HostRuntime) -> Result<(), Fail> {
    for (words, source, status, text) in RUNS {
        let ended = run(rt.alloc(), words, source, &[], &[])?;
        assert_eq!(rt; ended.status, status);
        let (full, empty) = if status == Status::Refused {
            (ended.report, ended.out)
        } else {
            (ended.out, ended.report)
        };
        assert_eq!(rt; full.as_slice(), text);
        assert_eq!(rt; empty.len(), 0);
    }
    Ok(())
}

#[test]
fn faults_have_a_status(rt: HostRuntime) -> Result<(), Fail> {
    let alloc = rt.alloc();
    let whole = run(alloc, &["migrate"], ADD, &[], &[])?;
    assert_eq!(rt; whole.status, Status::Done);
    assert_eq!(rt; whole.out.as_slice(), ADDED);
    let broken = run(alloc, &["migrate"], ADD, &[], &[2])?;
    assert_eq!(rt; broken.status.code(), 4);
    assert_eq!(rt; broken.out.as_slice(), b"#include <".as_slice());
    let unread = run(alloc, &["migrate"], ADD, &[2], &[])?;
    assert_eq!(rt; unread.status.code(), 3);
    assert_eq!(rt; unread.out.len() + unread.report.len(), 0);
    Ok(())
}

#[test]
fn other_words_are_answered_by_the_usage_line(rt: HostRuntime) -> Result<(), Fail> {
    let lists: [&[&str]; 19] = [
        &[],
        &["migrate", "tbl=1", "tbl=2"],
        &["sample", "0"],
        &["--help"],
        &["Migrate"],
        &["run"],
        &["run", "x86", "f"],
        &["run", "arm", "f", "0"],
        &["run", "x86", "1f", "0"],
        &["run", "x86", "", "0"],
        &["run", "x86", "f", "01"],
        &["run", "x86", "f", "1000001"],
        &["run", "x86", "f", "0", "int:-0"],
        &["run", "x86", "f", "0", "block:3:rw:"],
        &["run", "neon", "f", "0", "space:1:1048576", "block:1:ro:00"],
        &["run", "neon", "f", "0", "vec:0"],
        &["both", "f"],
        &["both", "1f", "0"],
        &["both", "f", "0", "vec:0"],
    ];
    for words in lists {
        let ended = run(rt.alloc(), words, ADD, &[1], &[])?;
        assert_eq!(rt; ended.status.code(), 2);
        assert_eq!(rt; ended.out.len(), 0);
        assert_eq!(rt;
            ended.report.get(..16),
            Some(b"usage: simdmove ".as_slice())
        );
    }
    Ok(())
}

// So many functions, each with a name of its own.
fn functions(alloc: Global, count: u16) -> Result<Vec<u8>, AllocError> {
    let mut text = Vec::new(alloc);
    for i in 0..count {
        let function = format!(in alloc; "__m128i f{i}(__m128i a) {{ return a; }}\n")?;
        text.extend_from_slice(function.as_bytes())?;
    }
    Ok(text)
}

// A function of so many parameters.
fn parameters(alloc: Global, count: u16) -> Result<Vec<u8>, AllocError> {
    let mut text = Vec::from_slice(alloc, b"__m128i f(__m128i a0")?;
    for i in 1..count {
        let parameter = format!(in alloc; ", __m128i a{i}")?;
        text.extend_from_slice(parameter.as_bytes())?;
    }
    text.extend_from_slice(b") { return a0; }")?;
    Ok(text)
}

// A function of so many open calls.
fn calls(alloc: Global, count: u16) -> Result<Vec<u8>, AllocError> {
    let mut text = Vec::from_slice(alloc, b"__m128i f(__m128i a) { return ")?;
    for _ in 0..count {
        text.extend_from_slice(b"_mm_add_epi8(")?;
    }
    text.extend_from_slice(b"a")?;
    for _ in 0..count {
        text.extend_from_slice(b", a)")?;
    }
    text.extend_from_slice(b"; }")?;
    Ok(text)
}

#[test]
fn limits_are_exact(rt: HostRuntime) -> Result<(), Fail> {
    let alloc = rt.alloc();
    assert_eq!(rt;
        migrated(alloc, &functions(alloc, 4096)?)?.status,
        Status::Done
    );
    assert_eq!(rt;
        migrated(alloc, &functions(alloc, 4097)?)?.status,
        Status::Refused
    );
    assert_eq!(rt;
        migrated(alloc, &parameters(alloc, 127)?)?.status,
        Status::Done
    );
    assert_eq!(rt;
        migrated(alloc, &parameters(alloc, 128)?)?.status,
        Status::Refused
    );
    assert_eq!(rt; migrated(alloc, &calls(alloc, 63)?)?.status, Status::Done);
    assert_eq!(rt;
        migrated(alloc, &calls(alloc, 64)?)?.status,
        Status::Refused
    );
    let long = migrated(alloc, &vec![in alloc; b' '; 1_048_577]?)?;
    assert_eq!(rt;
        long.report.as_slice(),
        b"1:1: 1 TooLong source\n".as_slice()
    );
    let within = migrated(alloc, &vec![in alloc; b' '; 1_048_576]?)?;
    assert_eq!(rt; within.status, Status::Done);
    Ok(())
}

//! Units by ISO C11 and the profile: their types, and refusals with their places.

use crate::reading::{put, read};
use c_text::{Dialect, Refusal};
use c_tree::{CType, Expr, ExprKind, Function, Item, Stmt, Unit};
use std::alloc::{AllocError, Global};
use std::process::Abort;
use std::test::Fail;
use vector_types::{CheckFail, check, units_are_typed_by_rules};

// A text (`neon: ` before one of that dialect, `$` for a line end), and what it becomes: each table with its type, each function with the types of
// its result and its parameters, and behind `=` the type of what it returns, before each conversion too; or its refusals: line, column, number, detail.
// Here conversions, operators, casts, const and scopes.
const TYPES: &str = "\
int f(unsigned char c) { return c + 1u; } -> f: Int(Int)(Int(UChar)) = Int(Int) <- Int(UInt)
int f(char c) { return c; } -> f: Int(Int)(Int(Char)) = Int(Int) <- Int(Char)
neon: int f(char c) { return c; } -> f: Int(Int)(Int(UChar)) = Int(Int) <- Int(UChar)
neon: const char t = 1; -> t: Int(UChar)
neon: char f(void) { return 'a'; } -> f: Int(UChar)() = Int(UChar) <- Int(Int)
const int t[] = {1, 2}; const int *f(void) { return t; } -> t: Array(Int(Int), 2, true), f: Pointer(Int(Int), true)() = Pointer(Int(Int), true) <- Array(Int(Int), 2, true)
const int t = 1; const int *f(void) { return &t; } -> t: Int(Int), f: Pointer(Int(Int), true)() = Pointer(Int(Int), true)
__m128i *f(__m128i *p) { return &p[1]; } -> f: Pointer(M128, false)(Pointer(M128, false)) = Pointer(M128, false)
void f(int *p) { &p; } -> 1:18 11 &
__m128i f(int c, __m128i a, __m128i b) { return c ? a : b; } -> f: M128(Int(Int), M128, M128) = M128
__m128i f(__m128i a) { return a + a; } -> 1:33 11 +
int *f(char *p) { return (int *)p; } -> f: Pointer(Int(Int), false)(Pointer(Int(Char), false)) = Pointer(Int(Int), false)
void f(int x) { (void)x; } -> f: Void(Int(Int))
int f(__m128i a) { return (int)a; } -> 1:27 11 (
int *f(long x) { return (int *)x; } -> 1:25 11 (
const int *f(int *p) { return p; } -> f: Pointer(Int(Int), true)(Pointer(Int(Int), false)) = Pointer(Int(Int), true) <- Pointer(Int(Int), false)
unsigned char *f(char *p) { return p; } -> f: Pointer(Int(UChar), false)(Pointer(Int(Char), false)) = Pointer(Int(UChar), false) <- Pointer(Int(Char), false)
int *f(void) { return 0; } -> f: Pointer(Int(Int), false)() = Pointer(Int(Int), false) <- Int(Int)
int *f(const int *p) { return p; } -> 1:24 11 return
void f(int *p, long *q) { p = q; } -> 1:29 11 =
void f(const int *p) { *p = 1; } -> 1:27 11 =
void f(const int x) { x = 1; } -> 1:25 11 =
const int t = 1; void f(void) { t++; } -> 1:34 11 ++
int f(void) { int x = x; return x; } -> f: Int(Int)() = Int(Int)
int f(int x) { { int x = 1; } return x; } -> f: Int(Int)(Int(Int)) = Int(Int)
const int x = 1; int f(int x) { return x; } -> x: Int(Int), f: Int(Int)(Int(Int)) = Int(Int)
int f(int x) { int x; return x; } -> 1:20 11 x
int f(int x, int x) { return x; } -> 1:18 11 x
int f(int p[zz]) { return 0; } -> 1:13 10 zz
int f(int n, int p[n]) { return 0; } -> 1:20 11 n
int f(int p[0]) { return 0; } -> 1:13 11 0
int f(int p[p]) { return 0; } -> 1:13 10 p
int f(const char p[2 + 1]) { return p[2]; } -> f: Int(Int)(Pointer(Int(Char), true)) = Int(Int) <- Int(Char)
int f(int p[100000]) { return p[2]; } -> f: Int(Int)(Pointer(Int(Int), false)) = Int(Int)
void f(void) { int x __attribute__((aligned(sizeof(x)))); } -> 1:52 11 x
void f(void) { _Alignas(sizeof(x)) int x; } -> 1:32 10 x";

// The same of excluded forms, reserved names and tables.
const NAMES: &str = "\
int f(int x) { for (int i = 0; i < x; i++) ; return i; } -> 1:53 10 i
int x; -> 1:5 18 x
void f(void *p) { } -> 1:14 18 p
void *f(void) { return 0; } -> 1:7 18 f
void f(int *p) { (void *)p; } -> 1:18 18 (
int f(void) { return sizeof(void *); } -> 1:22 18 sizeof
int g(void) { return 0; } int f(void) { return g; } -> 1:48 18 g
__m256i f(__m128i a) { return _mm256_castsi128_si256(a); } -> 1:31 18 _mm256_castsi128_si256
neon: int g(void) { return 1; } int mg_f(void) { return g(); } -> 1:51 18 g
neon: int mg_f(void) { return 1; } int g(void) { return mg_f(); } -> mg_f: Int(Int)() = Int(Int), g: Int(Int)() = Int(Int)
int f(void x) { return 0; } -> 1:12 11 x
int vaddq_u8(int x) { return x; } -> 1:5 12 vaddq_u8
int f(int vaddq_u8) { return 0; } -> 1:11 12 vaddq_u8
int mg_f(void) { return 0; } -> 1:5 12 mg_f
const int __builtin_t = 1; -> 1:11 12 __builtin_t
int f(void) { int NULL; return 0; } -> 1:19 12 NULL
neon: int vaddq_u8(int x) { return x; } -> 1:5 12 vaddq_u8
neon: int NULL(void) { return 0; } -> NULL: Int(Int)() = Int(Int)
const int t[3] = {1, 2}; -> t: Array(Int(Int), 3, true)
static const unsigned t = 1; -> t: Int(UInt)
const int t[3] = {1, x}; -> 1:22 10 x
const int t[2] = {1, 2, 3}; -> 1:25 11 3
const int t[y] = {1}; -> 1:13 10 y
const int t[0] = {1}; -> 1:13 11 0
const int u = 1; const int t = u; -> 1:32 11 u
const int u[2] = {1}; const int t = u; -> 1:37 11 u
const __m128i t = 0; -> 1:15 11 t
const char t[65537] = {1}; -> 1:12 20 t
_Alignas(3) const int t = y; -> 1:10 11 3
const int t __attribute__((aligned(3))) = y; -> 1:36 11 3
const int t = 1; const long t = 2; -> 1:29 11 t
const int f = 1; int f(void) { return 0; } -> 1:22 11 f
int f(void) { return 0; } const int f = 1; -> 1:37 11 f";

// The same of items that are refused, of calls and of statements.
const ITEMS: &str = "\
int f(void) { return 0; } int f(void) { return 1; } -> 1:31 11 f
const int t[2] = {1, x}; unsigned long f(void) { return t[0] + sizeof t; } -> 1:22 10 x
int x; void f(void) { x = 1; } -> 1:5 18 x
int g(int x) { return y; } int f(void) { return g(); } -> 1:23 10 y; 1:49 11 g
int f(int x) { return y; } int g(int x) { return z; } const int t = 1; -> 1:23 10 y; 1:50 10 z
int f(int x) { return f(x); } -> 1:23 17 f
int f(void) { return g(); } int g(void) { return 0; } -> 1:22 17 g
int g(void); int f(void) { return g(); } -> 1:35 10 g
int f(void) { return g(y); } -> 1:22 10 g
int g(int x) { return x; } int f(void) { return g(y); } -> 1:51 10 y
int f(void) { int g; return g(1); } -> 1:29 11 g
int f(void) { return y; } -> 1:22 10 y
int f(__m128i a) { return a; } -> 1:20 11 return
int f(int x) { char t[65537]; return x; } -> 1:21 20 t
unsigned f(unsigned c, unsigned char b) { return _mm_crc32_u8(c, b); }$int g(int x) { return _mm_popcnt_u32(x); } -> 1:50 13 _mm_crc32_u8; 2:23 13 _mm_popcnt_u32
int f(__m128i a) { if (a) return y; return 0; } -> 1:24 11 a
void f(void) { break; } -> 1:16 11 break
void f(int x) { return x; } -> 1:17 11 return";

// The same of variables that a full expression steps or assigns, and the parts of full expressions.
const VARIABLES: &str = "\
void f(int x) { x = x + 1; } -> f: Void(Int(Int))
void f(int x) { x = x++ + 1; } -> 1:19 16 =
void f(int x) { x += x; } -> f: Void(Int(Int))
void f(int x) { x = x = 1; } -> 1:19 16 =
void f(int x, int y) { x = y = 1; } -> f: Void(Int(Int), Int(Int))
void f(int x, int y) { y = x = x + 1; } -> 1:26 16 =
void f(int x, int y) { y = x++ + y; } -> f: Void(Int(Int), Int(Int))
void f(int x, int y) { y = x++ + x; } -> 1:26 16 =
void f(int x) { (x = 1) + x; } -> 1:25 16 +
void f(int x) { x++ + sizeof x; } -> 1:21 16 +
void f(int x) { x++, x++; } -> f: Void(Int(Int))
void f(int x) { x++ && x++ || x++; } -> f: Void(Int(Int))
void f(int x) { x++ ? x++ : x--; } -> f: Void(Int(Int))
void f(int x) { (void)(x++, x++); } -> 1:17 16 (
void f(int x) { (x++, x++) + 1; } -> 1:28 16 +
void f(int x, int y) { x = 1, (y ? x++ + x : 1), y++ + y; } -> 1:40 16 +
char f(int x) { return x++ && x++; } -> f: Int(Char)(Int(Int)) = Int(Char) <- Int(Int)
char f(int x) { return x++ + x; } -> 1:28 16 +
void f(int x) { int y = x++ + x; } -> 1:29 16 +
void f(int x) { if (x++ + x) ; } -> 1:25 16 +
void f(void) { for (int i = 0; i++ < i; ) ; } -> 1:36 16 <
void f(int *p) { *p++ = *p; } -> 1:23 16 =
void f(int *p, int *q) { *p++ = *q++; } -> f: Void(Pointer(Int(Int), false), Pointer(Int(Int), false))
void f(int x) { x++ + x; x = x++; } -> 1:21 16 +
void f(int x) { x = x++; y; } -> 1:26 10 y
void f(int x) { x = x++; } void g(int x) { x++ + x; } -> 1:19 16 =; 1:48 16 +
neon: void f(int x) { x = x++ + 1; } -> f: Void(Int(Int))";

// The same of what full expressions store and read.
const MEMORY: &str = "\
void f(int *p, int *q) { (*p = 1) + (*q = 2); } -> 1:35 16 +
void f(int *p, int *q) { *p = *q = 0; } -> 1:29 16 =
void f(int *p, int *q) { *p = *p + *q; } -> f: Void(Pointer(Int(Int), false), Pointer(Int(Int), false))
void f(int *p, int *q, int x) { x = (*p = 1) + *q; } -> 1:35 16 =
void f(int x, int y) { x = y = 1; int *p = &x; p = &y; } -> 1:26 16 =
void f(int x, int y) { x = y = 1; int *p = &y; } -> f: Void(Int(Int), Int(Int))
void f(void) { int t[2]; t[0] = t[1] = 1; } -> 1:31 16 =
int s(int *p) { return *p = 1; } void f(int *p) { s(p) + s(p); } -> 1:56 16 +
static inline int s(int *p) { return *p = 1; } void f(int *p) { s(p) + *p; } -> 1:70 16 +
int s(int *p) { return *p = 1; } void f(int *p) { *p = s(p); } -> 1:54 16 =
int s(int *p) { return *p = 1; } void f(int *p, int x) { x = s(p) + x; } -> s: Int(Int)(Pointer(Int(Int), false)) = Int(Int), f: Void(Pointer(Int(Int), false), Int(Int))
int s(int *p) { return *p = 1; } void f(int *p) { s(p), s(p); } -> s: Int(Int)(Pointer(Int(Int), false)) = Int(Int), f: Void(Pointer(Int(Int), false))
int s(int *p) { return *p = 1; } int t(int *p) { return s(p); } void f(int *p) { t(p) + *p; } -> 1:87 16 +
int r(int *p) { return *p; } int s(int *p) { return *p = 1; } void f(int *p) { r(p) + s(p); } -> 1:85 16 +
int r(int *p) { return *p; } void f(int *p) { r(p) + *p; } -> r: Int(Int)(Pointer(Int(Int), false)) = Int(Int), f: Void(Pointer(Int(Int), false))
int r(int *p) { return *p; } void f(int *p) { *p = r(p); } -> r: Int(Int)(Pointer(Int(Int), false)) = Int(Int), f: Void(Pointer(Int(Int), false))
int r(int *p) { return *p; } int t(int *p) { return r(p); } void f(int *p) { t(p) + (*p = 1); } -> 1:83 16 +
int r(int *p) { return *p; } int t(int *p, int x) { return *p = x; } void f(int *p) { t(p, r(p)); } -> r: Int(Int)(Pointer(Int(Int), false)) = Int(Int), t: Int(Int)(Pointer(Int(Int), false), Int(Int)) = Int(Int), f: Void(Pointer(Int(Int), false))
int s(int *p) { return *p = 1; } void f(int *p) { int x = 1; s(p) + x; { int x; p = &x; } } -> s: Int(Int)(Pointer(Int(Int), false)) = Int(Int), f: Void(Pointer(Int(Int), false))
int s(int *p) { return *p = 1; } void f(int *p) { int x = 1; s(p) + x; p = &x; } -> 1:67 16 +
const int t = 1; int s(int *p) { return *p = 1; } void f(int *p) { s(p) + t; } -> t: Int(Int), s: Int(Int)(Pointer(Int(Int), false)) = Int(Int), f: Void(Pointer(Int(Int), false))
const int t[2] = {1}; int s(int *p) { return *p = 1; } void f(int *p) { s(p) + t[0]; } -> 1:78 16 +
int s(int *p) { *p = 1; return y; } void f(int *p) { s(p) + s(p); } -> 1:32 10 y
int s(int *p) { return (*p = 1) + *p; } void f(int *p) { s(p) + s(p); } -> 1:33 16 +
int _mm_storeu_si128(int *p) { return 0; } void f(int *p) { _mm_storeu_si128(p) + _mm_storeu_si128(p); } -> 1:5 12 _mm_storeu_si128
int s(int *p) { return *p = 1; } int s(int *p) { return 0; } void f(int *p) { s(p) + s(p); } -> 1:38 11 s; 1:84 16 +
void f(__m128i *p) { _mm_storeu_si128(p, _mm_loadu_si128(p)); } -> f: Void(Pointer(M128, false))
void f(__m128i *p, __m128i a) { _mm_storeu_si128(p, *p = a); } -> 1:33 16 _mm_storeu_si128
__m128i w(__m128i *p) { return *p = _mm_loadu_si128(p); } void f(__m128i *p, __m128i *q) { _mm_xor_si128(_mm_loadu_si128(p), w(q)); } -> 1:92 16 _mm_xor_si128
neon: int s(int *p) { return *p = 1; } void f(int *p) { s(p) + s(p); } -> s: Int(Int)(Pointer(Int(Int), false)) = Int(Int), f: Void(Pointer(Int(Int), false))";

fn put_type(alloc: Global, out: &mut Vec<u8>, t: CType) -> Result<(), AllocError> {
    let text = format!(in alloc; "{t:?}")?;
    put(out, text.as_str())
}

fn show_value(alloc: Global, out: &mut Vec<u8>, e: &Expr) -> Result<(), AllocError> {
    put_type(alloc, out, e.ty)?;
    match &*e.kind {
        ExprKind::Cast(_, a, false) => {
            put(out, " <- ")?;
            show_value(alloc, out, a)
        }
        _ => Ok(()),
    }
}

fn show_returned(alloc: Global, out: &mut Vec<u8>, body: &[Stmt]) -> Result<(), AllocError> {
    for s in body {
        if let Stmt::Return(_, Some(e)) = s {
            put(out, " = ")?;
            show_value(alloc, out, e)?;
        }
    }
    Ok(())
}

fn show_function(alloc: Global, out: &mut Vec<u8>, f: &Function) -> Result<(), AllocError> {
    out.extend_from_slice(f.name.bytes())?;
    put(out, ": ")?;
    put_type(alloc, out, f.result)?;
    put(out, "(")?;
    let mut before = "";
    for d in f.params.as_slice() {
        put(out, before)?;
        before = ", ";
        put_type(alloc, out, d.ty)?;
    }
    put(out, ")")?;
    show_returned(alloc, out, f.body.as_slice())
}

fn show_unit(alloc: Global, unit: &Unit) -> Result<Vec<u8>, AllocError> {
    let mut out = Vec::new(alloc);
    let mut before = "";
    for item in unit.items.as_slice() {
        put(&mut out, before)?;
        before = ", ";
        match item {
            Item::Function(f) => show_function(alloc, &mut out, f)?,
            Item::Table(d, _) => {
                out.extend_from_slice(d.name.bytes())?;
                put(&mut out, ": ")?;
                put_type(alloc, &mut out, d.ty)?;
            }
        }
    }
    Ok(out)
}

fn show_refusals(alloc: Global, list: &[Refusal]) -> Result<Vec<u8>, AllocError> {
    let mut out = Vec::new(alloc);
    let mut before = "";
    for r in list {
        put(&mut out, before)?;
        before = "; ";
        let line = r.place.line;
        let col = r.place.col;
        let number = r.number;
        let text = format!(in alloc; "{line}:{col} {number} ")?;
        put(&mut out, text.as_str())?;
        out.extend_from_slice(r.detail.bytes())?;
    }
    Ok(out)
}

fn outcome(alloc: Global, text: &str, dialect: Dialect) -> Result<Vec<u8>, Fail> {
    let unit = read(alloc, text, dialect)?;
    match check(alloc, &unit, dialect) {
        Ok(typed) => Ok(show_unit(alloc, typed.unit())?),
        Err(CheckFail::Refused(list)) => Ok(show_refusals(alloc, list.as_slice())?),
        Err(CheckFail::Memory) => Err("memory")?,
    }
}

fn agree(rt: &impl Abort, alloc: Global, rows: &str) -> Result<(), Fail> {
    for row in rows.lines() {
        let (text, want) = row.split_once(" -> ").ok_or("malformed")?;
        let found = match text.strip_prefix("neon: ") {
            Some(text) => outcome(alloc, text, Dialect::Neon)?,
            None => outcome(alloc, text, Dialect::X86)?,
        };
        assert_eq!(rt; found.as_slice(), want.as_bytes(), "{row}");
    }
    Ok(())
}

#[test]
fn units_have_types(rt: HostRuntime) -> Result<(), Fail> {
    agree(&rt, rt.alloc(), TYPES)?;
    units_are_typed_by_rules();
    Ok(())
}

#[test]
fn names_and_tables(rt: HostRuntime) -> Result<(), Fail> {
    agree(&rt, rt.alloc(), NAMES)
}

#[test]
fn refused_items_and_calls(rt: HostRuntime) -> Result<(), Fail> {
    agree(&rt, rt.alloc(), ITEMS)
}

#[test]
fn order_of_variables(rt: HostRuntime) -> Result<(), Fail> {
    agree(&rt, rt.alloc(), VARIABLES)
}

#[test]
fn order_of_memory(rt: HostRuntime) -> Result<(), Fail> {
    agree(&rt, rt.alloc(), MEMORY)
}

// A unit that was typed is typed as the same once more.
#[test]
fn a_typed_unit_is_checked_again(rt: HostRuntime) -> Result<(), Fail> {
    let text =
        "const char t[] = {1, 2}; int f(const char *p) { for (; *p; p++) if (t[1] == *p) return p - t; return 0; }";
    for dialect in [Dialect::X86, Dialect::Neon].iter() {
        let unit = read(rt.alloc(), text, *dialect)?;
        let typed = check(rt.alloc(), &unit, *dialect).map_err(|_| "refused")?;
        assert_eq!(rt; typed.dialect(), *dialect);
        let first = show_unit(rt.alloc(), typed.unit())?;
        let taken = typed.into_unit();
        let again = check(rt.alloc(), &taken, *dialect).map_err(|_| "refused")?;
        let second = show_unit(rt.alloc(), again.unit())?;
        assert_eq!(rt; first.as_slice(), second.as_slice());
        assert!(rt; again.unit().same(&taken));
    }
    Ok(())
}

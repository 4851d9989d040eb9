//! Texts of declarations, headings and objects at file scope, and what they declare.

use crate::reading::{put, tokens_of};
use crate::showing::{show_heading, show_object, show_objects};
use c_parse::{
    a_word_of_specifiers_begins_declarations, declarations_are_read, headings_are_read,
    objects_are_read, parse,
};
use c_text::{Dialect, Fail as Refused};
use c_tree::{Function, Item, Stmt};
use std::alloc::Global;
use std::process::Abort;
use std::test::Fail;

// A declaration in a block and its objects, `none` where the text is no declaration.
const DECLARATIONS: &str = "\
int a; -> a: <Int(Int)>
int unsigned const a = 1, *b, *const c = d; -> a: <Int(UInt)> const = 1, b: <Pointer(Int(UInt), true)>, c: <Pointer(Int(UInt), true)> const = d
char *restrict const p; -> p: <Pointer(Int(Char), false)> const
const const int a; -> a: <Int(Int)> const
const int a[4]; -> a: <Array(Int(Int), 0, true)> const length 4
long a[] = {1, b = c, 2,}; -> a: <Array(Int(Long), 0, false)> = {1, (b = c), 2}
long a[n + 1] = {1}; -> a: <Array(Int(Long), 0, false)> length (n + 1) = {1}
int a = b, c = d ? e : f; -> a: <Int(Int)> = b, c: <Int(Int)> = (d ? e : f)
_Alignas(16) int a, b[2]; -> a: <Int(Int)> align 16, b: <Array(Int(Int), 0, false)> align 16 length 2
int a __attribute__((aligned(8))), b; -> a: <Int(Int)> align 8, b: <Int(Int)>
__attribute__((unused, __aligned__(32))) int a; -> a: <Int(Int)> align 32
int __attribute__((target(\"avx2\"), noinline)) a __attribute__((unused)) = 1; -> a: <Int(Int)> = 1
void *p; -> p: <Pointer(Void, false)>
a; -> none
int; -> none
int a -> none
int a, ; -> none
const a; -> none
int (a); -> none
int **a; -> none
int *a[2]; -> none
int a[]; -> none
int a[2] = 1; -> none
int a = {1}; -> none
int a[2] = {}; -> none
int a[2] = {1,,}; -> none
int a[2][2]; -> none
static int a; -> none
inline int a; -> none
long short a; -> none
_Alignas() int a; -> none
_Alignas(8) _Alignas(8) int a; -> none
_Alignas(8) int a __attribute__((aligned(8))); -> none
int a __attribute__((aligned(8), aligned(8))); -> none
int a __attribute__(()); -> none
int a __attribute__((packed)); -> none
int a __attribute__((aligned)); -> none
int a __attribute__((target(avx2))); -> none
int a __attribute__(aligned(8)); -> none";

const X86_DECLARATIONS: &str = "\
__m128i a = b, *c; -> a: <M128> = b, c: <Pointer(M128, false)>
const __m256i a[2]; -> a: <Array(M256, 0, true)> const length 2
uint8x16_t a; -> none";

const NEON_DECLARATIONS: &str = "\
uint8x16_t a = b; -> a: <Neon(U8, true)> = b
uint8x16x2_t a = (uint8x16x2_t){{b, c}}; -> a: <Pair> = {b, c}
uint8x16_t *a; -> none
uint8x16_t a[2]; -> none
__m128i a; -> none";

// An object at file scope.
const OBJECTS: &str = "\
const int t = 1; -> t: <Int(Int)> const = 1
static const unsigned char t[] = {1, 2}; -> static t: <Array(Int(UChar), 0, true)> const = {1, 2}
int const static t[2] __attribute__((aligned(16))) = {1}; -> static t: <Array(Int(Int), 0, true)> const align 16 length 2 = {1}
int x; -> x: <Int(Int)>
const int *x; -> x: <Pointer(Int(Int), true)>
const int t; -> none
int *const t; -> none
const int a = 1, b = 2; -> none
static static const int t = 1; -> none
inline const int t = 1; -> none
int f(void); -> none";

// The heading of a function.
const HEADINGS: &str = "\
void f() -> f: <Void>()
void f(void) -> f: <Void>()
static inline int f(int a, const char *p) -> static inline f: <Int(Int)>(a: <Int(Int)>, p: <Pointer(Int(Char), true)>)
inline __inline const long *const f(int const a) -> inline f: <Pointer(Int(Long), true)>(a: <Int(Int)> const)
void f(const int a[], long b[n], char *const restrict c) -> f: <Void>(a: <Pointer(Int(Int), true)>, b: <Pointer(Int(Long), false)> length n, c: <Pointer(Int(Char), false)> const)
__attribute__((target(\"sse2\"))) void f(void *p __attribute__((unused))) __attribute__((noinline)) -> f: <Void>(p: <Pointer(Void, false)>)
f() -> none
void f -> none
void f(int) -> none
void f(void, int a) -> none
void f(int a,) -> none
void f(int *a[]) -> none
void f(static int a) -> none
void f(inline int a) -> none
void f(_Alignas(8) int a) -> none
void f(int a __attribute__((aligned(8)))) -> none
void f() __attribute__((aligned(8))) -> none
_Alignas(8) void f() -> none
static static void f() -> none
void **f() -> none
void f()() -> none";

// The only item of a text. None where the text is refused, or has no item or several.
fn only_item(alloc: Global, dialect: Dialect, text: &str) -> Result<Option<Item>, Fail> {
    let tokens = tokens_of(alloc, text)?;
    let mut unit = match parse(alloc, tokens.as_slice(), dialect) {
        Ok(unit) => unit,
        Err(Refused::Refused(_refusal)) => return Ok(None),
        Err(Refused::Memory) => return Err("memory".into()),
    };
    if unit.items.len() == 1 {
        Ok(unit.items.pop())
    } else {
        Ok(None)
    }
}

fn only_function(alloc: Global, dialect: Dialect, text: &str) -> Result<Option<Function>, Fail> {
    match only_item(alloc, dialect, text)? {
        Some(Item::Function(f)) => Ok(Some(f)),
        _ => Ok(None),
    }
}

fn shown_declaration(alloc: Global, dialect: Dialect, text: &str) -> Result<Vec<u8>, Fail> {
    let mut out = Vec::new(alloc);
    let whole = format!(in alloc; "void f(void) {{ {text} }}")?;
    let body = match only_function(alloc, dialect, whole.as_str())? {
        Some(f) => f.body,
        None => Vec::new(alloc),
    };
    match body.as_slice() {
        [Stmt::Declare(objects)] => show_objects(alloc, &mut out, objects.as_slice())?,
        _ => put(&mut out, "none")?,
    }
    Ok(out)
}

fn shown_object(alloc: Global, dialect: Dialect, text: &str) -> Result<Vec<u8>, Fail> {
    let mut out = Vec::new(alloc);
    match only_item(alloc, dialect, text)? {
        Some(Item::Table(object, is_static)) => {
            put(&mut out, if is_static { "static " } else { "" })?;
            show_object(alloc, &mut out, &object)?;
        }
        Some(Item::Function(_function)) => put(&mut out, "none")?,
        None => put(&mut out, "none")?,
    }
    Ok(out)
}

fn shown_heading(alloc: Global, dialect: Dialect, text: &str) -> Result<Vec<u8>, Fail> {
    let mut out = Vec::new(alloc);
    let whole = format!(in alloc; "{text} {{ }}")?;
    match only_function(alloc, dialect, whole.as_str())? {
        Some(f) => show_heading(alloc, &mut out, &f)?,
        None => put(&mut out, "none")?,
    }
    Ok(out)
}

fn declarations_agree(
    rt: &impl Abort,
    alloc: Global,
    dialect: Dialect,
    rows: &str,
) -> Result<(), Fail> {
    for row in rows.lines() {
        let (text, want) = row.split_once(" -> ").ok_or("malformed")?;
        let found = shown_declaration(alloc, dialect, text)?;
        assert_eq!(rt; found.as_slice(), want.as_bytes(), "{row}");
    }
    Ok(())
}

#[test]
fn declarations_declare_their_objects(rt: HostRuntime) -> Result<(), Fail> {
    declarations_agree(&rt, rt.alloc(), Dialect::X86, DECLARATIONS)?;
    declarations_agree(&rt, rt.alloc(), Dialect::Neon, DECLARATIONS)?;
    declarations_agree(&rt, rt.alloc(), Dialect::X86, X86_DECLARATIONS)?;
    declarations_agree(&rt, rt.alloc(), Dialect::Neon, NEON_DECLARATIONS)?;
    declarations_are_read();
    a_word_of_specifiers_begins_declarations();
    Ok(())
}

#[test]
fn objects_stand_at_file_scope(rt: HostRuntime) -> Result<(), Fail> {
    for row in OBJECTS.lines() {
        let (text, want) = row.split_once(" -> ").ok_or("malformed")?;
        let found = shown_object(rt.alloc(), Dialect::Neon, text)?;
        assert_eq!(rt; found.as_slice(), want.as_bytes(), "{row}");
    }
    objects_are_read();
    Ok(())
}

#[test]
fn headings_have_their_parameters(rt: HostRuntime) -> Result<(), Fail> {
    for row in HEADINGS.lines() {
        let (text, want) = row.split_once(" -> ").ok_or("malformed")?;
        let found = shown_heading(rt.alloc(), Dialect::X86, text)?;
        assert_eq!(rt; found.as_slice(), want.as_bytes(), "{row}");
    }
    headings_are_read();
    Ok(())
}

//! Texts of units, their functions and tables, and the refusals of texts that are none.

use crate::reading::{put, tokens_of};
use crate::showing::show_unit;
use c_parse::{one_expression, one_unit, parse, read_from_left_to_right};
use c_text::{Dialect, Fail as Refused, Token};
use std::alloc::Global;
use std::process::Abort;
use std::test::Fail;

// A text and its unit.
const UNITS: &str = "\
void f(void) {} -> f: <Void>() []
static inline int f(int a, const char *p) { return a; } -> static inline f: <Int(Int)>(a: <Int(Int)>, p: <Pointer(Int(Char), true)>) [return a;]
void f(); void g() { f(); }; -> g: <Void>() [f();]
static const int t[2] = {1, 2,}; int f(int i) { return t[i]; } -> static table t: <Array(Int(Int), 0, true)> const length 2 = {1, 2}; f: <Int(Int)>(i: <Int(Int)>) [return t[i];]
const unsigned char c = 7; -> table c: <Int(UChar)> const = 7;
int f(int a) { if (a) if (a > 1) return 2; else return 1; return 0; } -> f: <Int(Int)>(a: <Int(Int)>) [if a [if (a > 1) [return 2;] else [return 1;]] return 0;]
int f(int a) { if (a) { if (a > 1) return 2; } else return 1; return 0; } -> f: <Int(Int)>(a: <Int(Int)>) [if a [{if (a > 1) [return 2;]}] else [return 1;] return 0;]
void f(int a) { if (a) while (a) if (a) ; else ; else ; } -> f: <Void>(a: <Int(Int)>) [if a [while a [if a [;] else [;]]] else [;]]
void f(int a) { if (a) for (;;) if (a) ; else ; } -> f: <Void>(a: <Int(Int)>) [if a [for (- - -) [if a [;] else [;]]]]
void f(int a) { if (a) do if (a) ; while (a); else ; } -> f: <Void>(a: <Int(Int)>) [if a [do [if a [;]] while a;] else [;]]
void f(int a) { for (int i = 0, j; i < a; i++, j--) continue; } -> f: <Void>(a: <Int(Int)>) [for (i: <Int(Int)> = 0, j: <Int(Int)>; (i < a) ((i++), (j--))) [continue;]]
void f(int a) { for (a = 1; a;) { break; } } -> f: <Void>(a: <Int(Int)>) [for ((a = 1); a -) [{break;}]]
void f(int a) { while (a, a) { int b[3], *p; ; b[0] = 1; return; } } -> f: <Void>(a: <Int(Int)>) [while (a, a) [{b: <Array(Int(Int), 0, false)> length 3, p: <Pointer(Int(Int), false)>; ; (b[0] = 1); return;}]]
void f(int a) { { } {;} do a--; while (a); } -> f: <Void>(a: <Int(Int)>) [{} {;} do [(a--);] while a;]
void f(int a) { if (a) int b; } -> f: <Void>(a: <Int(Int)>) [if a [b: <Int(Int)>;]]";

// A text that is refused, and its refusal: number, place and detail.
const REFUSED: &str = "\
int -> 9 1:1 end
void f(void) -> 9 1:12 end
void f(void) { -> 9 1:14 end
void f(void) { a } -> 9 1:18 }
void f(void) { a = ; } -> 9 1:20 ;
void f(void) { if a; } -> 9 1:19 a
void f(void) { else ; } -> 9 1:16 else
void f(void) { if (a) ; else ; else ; } -> 9 1:32 else
void f(void) { do a; while (a) } -> 9 1:32 }
void f(void) { for (a; b) ; } -> 9 1:25 )
void f(void) { break } -> 9 1:22 }
void f(void) { return return; } -> 9 1:23 return
void f(void) { } } -> 9 1:18 }
void f(void) { } __attribute__((unused)) -> 9 1:40 end
void f(void) { ( } -> 9 1:18 }
f(void) { } -> 9 1:9 {
int a b; -> 9 1:7 b";

// The unit of these tokens, or their refusal.
fn shown(alloc: Global, tokens: &[Token]) -> Result<Vec<u8>, Fail> {
    let mut out = Vec::new(alloc);
    match parse(alloc, tokens, Dialect::X86) {
        Ok(unit) => show_unit(alloc, &mut out, &unit)?,
        Err(Refused::Refused(r)) => {
            let number = r.number;
            let line = r.place.line;
            let col = r.place.col;
            let text = format!(in alloc; "{number} {line}:{col} ")?;
            put(&mut out, text.as_str())?;
            out.extend_from_slice(r.detail.bytes())?;
        }
        Err(Refused::Memory) => return Err("memory".into()),
    }
    Ok(out)
}

fn agrees(rt: &impl Abort, alloc: Global, rows: &str) -> Result<(), Fail> {
    for row in rows.lines() {
        let (text, want) = row.split_once(" -> ").ok_or("malformed")?;
        let tokens = tokens_of(alloc, text)?;
        let found = shown(alloc, tokens.as_slice())?;
        assert_eq!(rt; found.as_slice(), want.as_bytes(), "{row}");
    }
    Ok(())
}

#[test]
fn units_have_their_trees(rt: HostRuntime) -> Result<(), Fail> {
    agrees(&rt, rt.alloc(), UNITS)?;
    let none = shown(rt.alloc(), &[])?;
    assert_eq!(rt; none.as_slice(), b"".as_slice());
    let dropped = tokens_of(rt.alloc(), "; void f(void); ;")?;
    let none = shown(rt.alloc(), dropped.as_slice())?;
    assert_eq!(rt; none.as_slice(), b"".as_slice());
    one_unit();
    one_expression();
    read_from_left_to_right();
    Ok(())
}

#[test]
fn other_texts_are_refused(rt: HostRuntime) -> Result<(), Fail> {
    agrees(&rt, rt.alloc(), REFUSED)
}

// A unit of one text again and again, and then another.
fn repeated(alloc: Global, text: &str, times: usize, last: &str) -> Result<Vec<Token>, Fail> {
    let mut out = Vec::new(alloc);
    for _ in 0..times {
        for token in tokens_of(alloc, text)? {
            out.push(token)?;
        }
    }
    for token in tokens_of(alloc, last)? {
        out.push(token)?;
    }
    Ok(out)
}

#[test]
fn limits_name_the_first_function_past_them(rt: HostRuntime) -> Result<(), Fail> {
    let full = repeated(rt.alloc(), "void f(){}", 4096, "void g();")?;
    assert!(rt; parse(rt.alloc(), full.as_slice(), Dialect::X86).is_ok());
    let more = repeated(rt.alloc(), "void f(){}", 4096, "int a; void last(){}")?;
    let found = shown(rt.alloc(), more.as_slice())?;
    assert_eq!(rt; found.as_slice(), b"20 1:13 last".as_slice());
    Ok(())
}

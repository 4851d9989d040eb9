//! Texts of expressions and their trees.

use crate::reading::{put, tokens_of};
use crate::showing::show;
use c_parse::parse;
use c_text::{Dialect, Fail as Refused, Place, Token};
use c_tree::{Expr, Item, Stmt};
use std::alloc::Global;
use std::process::Abort;
use std::test::Fail;

// A text and its tree, `none` where it is no expression.
const IN_BOTH: &str = "\
7 -> 7
0x10u -> 16 UInt
5ll -> 5 LLong
'a' -> 97
'\\377' -> (-1)
x -> x
f() -> f()
f(a) -> f(a)
f(a, b + c, d = e) -> f(a, (b + c), (d = e))
f((a, b)) -> f((a, b))
((a)) -> a
a, b, c -> (a, b, c)
(a, b), c -> ((a, b), c)
a[i] -> a[i]
a[i, j] -> a[(i, j)]
f(x)[1] -> f(x)[1]
(a[1])[2] -> a[1][2]
a++ -> (a++)
a[1]-- -> (a[1]--)
++--a -> (++(--a))
-a -> (-a)
+ +a -> (+(+a))
~!a -> (~(!a))
*p++ -> (*(p++))
(*p)++ -> ((*p)++)
++*p -> (++(*p))
&a[1] -> (&a[1])
-a[1]++ -> (-(a[1]++))
sizeof(int) -> sizeof<Int(Int)>
sizeof(unsigned long) + 1 -> (sizeof<Int(ULong)> + 1)
sizeof(const char *) -> sizeof<Pointer(Int(Char), true)>
sizeof x -> sizeof x
sizeof (x) -> sizeof x
sizeof x * y -> (sizeof x * y)
(int)x -> <Int(Int)>x
(int)x + y -> (<Int(Int)>x + y)
(short)(char)x++ -> <Int(Short)><Int(Char)>(x++)
(int)-x -> <Int(Int)>(-x)
-(int)x -> (-<Int(Int)>x)
*(long *restrict const)p -> (*<Pointer(Int(Long), false)>p)
(void)f(x) -> <Void>f(x)
(x) + y -> (x + y)
(x) - (int)y -> (x - <Int(Int)>y)
a * b + c -> ((a * b) + c)
a + b * c -> (a + (b * c))
a << b + c -> (a << (b + c))
a < b << c -> (a < (b << c))
a == b < c -> (a == (b < c))
a & b == c -> (a & (b == c))
a ^ b & c -> (a ^ (b & c))
a | b ^ c -> (a | (b ^ c))
a && b | c -> (a && (b | c))
a || b && c -> (a || (b && c))
a * b / c % d -> (((a * b) / c) % d)
a - b - c + d -> (((a - b) - c) + d)
a << b >> c -> ((a << b) >> c)
a < b > c <= d >= e -> ((((a < b) > c) <= d) >= e)
a == b != c -> ((a == b) != c)
a & b & c -> ((a & b) & c)
a ^ b ^ c -> ((a ^ b) ^ c)
a | b | c -> ((a | b) | c)
a && b && c -> ((a && b) && c)
a || b || c -> ((a || b) || c)
a * (b + c) -> (a * (b + c))
a & -b -> (a & (-b))
a - -b -> (a - (-b))
a || b ? c : d -> ((a || b) ? c : d)
a ? b : c ? d : e -> (a ? b : (c ? d : e))
a ? b ? c : d : e -> (a ? (b ? c : d) : e)
a ? b, c : d -> (a ? (b, c) : d)
a ? b = c : d -> (a ? (b = c) : d)
a = b = c -> (a = (b = c))
a = b ? c : d -> (a = (b ? c : d))
a = b, c = d -> ((a = b), (c = d))
a[i] = *p -> (a[i] = (*p))
*p++ = x -> ((*(p++)) = x)
a *= b /= c -> (a *= (b /= c))
a %= b += c -> (a %= (b += c))
a -= b <<= c -> (a -= (b <<= c))
a >>= b &= c -> (a >>= (b &= c))
a ^= b |= c -> (a ^= (b |= c))
 -> none
() -> none
a + -> none
* -> none
(a -> none
a) -> none
a b -> none
a, -> none
a[1 -> none
a[] -> none
a[1][2] -> none
a++++ -> none
a++[1] -> none
(a)(b) -> none
5() -> none
f(a,) -> none
f(a)(b) -> none
sizeof 5 -> none
sizeof (a + b) -> none
sizeof -a -> none
sizeof (long short) -> none
(int) -> none
(int){1} -> none
(int)a = b -> none
(int **)a -> none
int a -> none
a + b = c -> none
a ? b : c = d -> none
a ? b -> none
a ? : b -> none
a.b -> none
a = -> none
{a} -> none
\"s\" -> none
goto -> none
if (a) b -> none";

const IN_X86: &str = "\
(__m128i)x -> <M128>x
*(const __m256i *)p -> (*<Pointer(M256, true)>p)
sizeof (uint8x16_t) -> sizeof uint8x16_t
(uint8x16_t)x -> none
x.val[0] -> none
(uint8x16x2_t){{a, b}} -> none";

const IN_NEON: &str = "\
(uint8x16_t)x -> <Neon(U8, true)>x
sizeof (__m128i) -> sizeof __m128i
(__m128i)x -> none
(uint8x16_t *)x -> none
(uint8x16x2_t)x -> <Pair>x
(uint8x16x2_t){{a, b}} -> {a, b}
(uint8x16x2_t){{a = b, c ? d : e}} -> {(a = b), (c ? d : e)}
(uint8x16x2_t){{a, b}}.val[1] -> {a, b}.val[1]
f((uint8x16x2_t){{a, b}}, c) -> f({a, b}, c)
x.val[0] -> x.val[0]
-x.val[1] + y -> ((-x.val[1]) + y)
(x).val[0] -> x.val[0]
f(a).val[1] -> f(a).val[1]
(x.val[0])[1] -> x.val[0][1]
x.val[0] = y -> (x.val[0] = y)
++x.val[0] -> (++x.val[0])
x.val[2] -> none
x.val[00] -> none
x.val[0u] -> none
x.val[i] -> none
x.val[(0)] -> none
x.val -> none
x.low[0] -> none
x.val[0][1] -> none
x.val[0]++ -> none
x.val[0].val[1] -> none
x[0].val[0] -> none
x++.val[0] -> none
'a'.val[0] -> none
(uint8x16x2_t){{a}} -> none
(uint8x16x2_t){{a, b,}} -> none
(uint8x16x2_t){{a, b, c}} -> none
(uint8x16x2_t){a, b} -> none
(const uint8x16x2_t){{a, b}} -> none
(uint8x16_t){{a, b}} -> none
uint8x16x2_t{{a, b}} -> none";

// A text, and the column of its tree's place.
const PLACES: &str = "\
7 -> 1
'\\377' -> 1
x -> 1
f(a) -> 1
a, b, c -> 2
a [i] -> 3
a ++ -> 3
++ a -> 1
- a -> 1
* p -> 1
& a -> 1
sizeof (int) -> 1
sizeof x -> 8
sizeof (x) -> 9
(int) x -> 1
a + b -> 3
a && b -> 3
a || b -> 3
a ? b : c -> 3
a += b -> 3
(( a + b )) -> 6
(uint8x16x2_t){{a, b}} -> 1
x .val[0] -> 3";

// A text that is no expression, and how many tokens were left where reading got stuck.
const STUCK: &str = "\
a + -> 0
f(a b) -> 2
(a -> 0
a ? b c -> 1
sizeof 5 -> 1
sizeof (5) -> 2
a[1 2] -> 2
( ) -> 1
(uint8x16x2_t){a} -> 2";

// The tokens of a function that returns this text. The text stands on the second line.
fn returned(alloc: Global, text: &str) -> Result<Vec<Token>, Fail> {
    let whole = format!(in alloc; "void f(void) {{ return\n{text}\n; }}")?;
    tokens_of(alloc, whole.as_str())
}

// The expression that the text is, or the place where its reading got stuck.
fn whole(alloc: Global, dialect: Dialect, text: &str) -> Result<Result<Expr, Place>, Fail> {
    let tokens = returned(alloc, text)?;
    let mut unit = match parse(alloc, tokens.as_slice(), dialect) {
        Ok(unit) => unit,
        Err(Refused::Refused(r)) => return Ok(Err(r.place)),
        Err(Refused::Memory) => return Err("memory".into()),
    };
    let Some(Item::Function(mut f)) = unit.items.pop() else {
        return Err("no function".into());
    };
    match f.body.pop() {
        Some(Stmt::Return(_, Some(e))) => Ok(Ok(e)),
        _ => Ok(Err(Place { line: 3, col: 1 })),
    }
}

fn shown(alloc: Global, dialect: Dialect, text: &str) -> Result<Vec<u8>, Fail> {
    let mut out = Vec::new(alloc);
    match whole(alloc, dialect, text)? {
        Ok(e) => show(alloc, &mut out, &e)?,
        Err(_) => put(&mut out, "none")?,
    }
    Ok(out)
}

fn agrees(rt: &impl Abort, alloc: Global, dialect: Dialect, rows: &str) -> Result<(), Fail> {
    for row in rows.lines() {
        let (text, want) = row.split_once(" -> ").ok_or("malformed")?;
        let found = shown(alloc, dialect, text)?;
        assert_eq!(rt; found.as_slice(), want.as_bytes(), "{row}");
    }
    Ok(())
}

#[test]
fn expressions_have_their_trees(rt: HostRuntime) -> Result<(), Fail> {
    agrees(&rt, rt.alloc(), Dialect::X86, IN_BOTH)?;
    agrees(&rt, rt.alloc(), Dialect::Neon, IN_BOTH)?;
    agrees(&rt, rt.alloc(), Dialect::X86, IN_X86)?;
    agrees(&rt, rt.alloc(), Dialect::Neon, IN_NEON)
}

#[test]
fn trees_stand_at_their_operators(rt: HostRuntime) -> Result<(), Fail> {
    for row in PLACES.lines() {
        let (text, column) = row.split_once(" -> ").ok_or("malformed")?;
        let found = whole(rt.alloc(), Dialect::Neon, text)?.map_err(|_| "none")?;
        assert_eq!(rt; Some(found.place.col), column.parse::<u32>().ok(), "{row}");
    }
    Ok(())
}

// How many tokens of the second line stand at this place or behind it.
fn left_from(tokens: &[Token], place: Place) -> usize {
    if place.line != 2 {
        return 0;
    }
    tokens
        .iter()
        .filter(|t| t.place.line == 2 && t.place.col >= place.col)
        .count()
}

#[test]
fn refusals_name_where_reading_got_stuck(rt: HostRuntime) -> Result<(), Fail> {
    for row in STUCK.lines() {
        let (text, left) = row.split_once(" -> ").ok_or("malformed")?;
        let tokens = returned(rt.alloc(), text)?;
        let place = whole(rt.alloc(), Dialect::Neon, text)?
            .err()
            .ok_or("an expression")?;
        assert_eq!(rt;
            Some(left_from(tokens.as_slice(), place)),
            left.parse::<usize>().ok(),
            "{row}"
        );
    }
    Ok(())
}

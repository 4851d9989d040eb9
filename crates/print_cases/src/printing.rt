//! Units, written as words behind their operands, and their texts.

use crate::making::nothing_made;
use c_print::print;
use c_tree::Unit;
use std::alloc::Global;
use std::test::Fail;

// What each text begins with.
const HEADER: &str = "#include <arm_neon.h>\n#include <stddef.h>\n#include <stdint.h>\n";

// Words of an expression -> its text.
const EXPRESSIONS: &str = "\
7 -> 7
7u -> 7U
7l -> 7L
7ul -> 7UL
7ll -> 7LL
7ull -> 7ULL
0 -> 0
4294967295u -> 4294967295U
4294967295ul -> 4294967295UL
4294967296l -> 4294967296L
4294967296ul -> 0x0000000100000000UL
18364758544493064720ull -> 0xfedcba9876543210ULL
-7l -> -7L
x -> x
x pre- -> -x
x pre~ pre! -> !(~x)
x pre- pre- -> -(-x)
x pre+ pre++ -> ++(+x)
x pre-- pre- -> -(--x)
p pre* pre& -> &(*p)
x pre& pre* -> *(&x)
-1 pre- -> -(-1)
x as:long pre- as:int pre- -> -(-x)
p post++ pre* -> *p++
p pre* post++ -> (*p)++
x post++ post-- -> (x++)--
x cast:int pre- -> -(int)x
x pre- cast:uchar -> (uint8_t)-x
x cast:short cast:int -> (int)(int16_t)x
x y + cast:_Bool -> (_Bool)(x + y)
x cast:int post++ -> ((int)x)++
p cast:const-char* pre* -> *(const signed char *)p
p cast:uchar* -> (uint8_t *)p
a b c - - -> a - (b - c)
a b - c - -> a - b - c
a b c * + -> a + b * c
a b + c * -> (a + b) * c
a b << c + -> (a << b) + c
a b pre- - -> a - -b
a -1 + -> a + -1
a b / c % -> a / b % c
a b == c < -> (a == b) < c
a b < c != -> a < b != c
a b & c ^ d | -> a & b ^ c | d
a b c | d ^ & -> a & ((b | c) ^ d)
a b >> c <= -> a >> b <= c
a b > c >= -> a > b >= c
a b && c || -> a && b || c
a b c || && -> a && (b || c)
a b c || || -> a || (b || c)
a b c ?: -> a ? b : c
a b c d e ?: ?: -> a ? b : c ? d : e
a b c ?: d e ?: -> (a ? b : c) ? d : e
a b c comma:2 d ?: -> a ? b, c : d
a b c d = ?: -> a ? b : (c = d)
a b c = = -> a = b = c
a b = c = -> (a = b) = c
a b c ?: d += -> (a ? b : c) += d
a b c comma:2 <<= -> a <<= (b, c)
p pre* x >>= -> *p >>= x
x cast:int y = -> ((int)x) = y
a b = c + -> (a = b) + c
a b comma:2 c comma:2 -> (a, b), c
a b -= c d *= comma:2 -> a -= b, c *= d
call:f/0 -> f()
a b c call:f/3 -> f(a, b, c)
a b comma:2 call:f/1 -> f((a, b))
a b comma:2 c call:f/2 -> f((a, b), c)
p i [] -> p[i]
p a b comma:2 [] -> p[a, b]
p 1 + i [] -> (p + 1)[i]
p i [] j [] -> (p[i])[j]
p i [] post++ -> p[i]++
p post++ i [] -> (p++)[i]
5 p [] -> 5[p]
a b pair -> (uint8x16x2_t){{a, b}}
a b comma:2 c pair .1 -> (uint8x16x2_t){{(a, b), c}}.val[1]
x .0 -> x.val[0]
a call:f/1 .1 -> f(a).val[1]
5 .0 -> (5).val[0]
5 as:int .0 -> (5).val[0]
x .0 .1 -> (x.val[0]).val[1]
x .0 i [] -> (x.val[0])[i]
x y + as:long z * as:int -> (x + y) * z";

// Words of a statement -> its lines, with `$` for the end of each.
const STATEMENTS: &str = "\
a b comma:2 run -> a, b;$
empty -> ;$
break -> break;$
continue -> continue;$
return -> return;$
x give -> return x;$
a b comma:2 give -> return a, b;$
block:0 -> {$    }$
x run empty block:2 -> {$        x;$        ;$    }$
c x run block:1 if -> if (c) {$        x;$    }$
c x run block:1 y run block:1 if:else -> if (c) {$        x;$    } else {$        y;$    }$
a block:0 b x run block:1 d y run block:1 if if:else if:else -> if (a) {$    } else if (b) {$        x;$    } else if (d) {$        y;$    }$
a block:0 b block:0 y run block:1 if:else if:else -> if (a) {$    } else if (b) {$    } else {$        y;$    }$
c block:0 d block:0 if block:1 if:else -> if (c) {$    } else {$        if (d) {$        }$    }$
c d x run block:1 if block:1 y run block:1 if:else -> if (c) {$        if (d) {$            x;$        }$    } else {$        y;$    }$
c d x run if y run if:else -> if (c) {$        if (d) {$            x;$        }$    } else {$        y;$    }$
a b comma:2 block:0 if -> if (a, b) {$    }$
c block:0 while -> while (c) {$    }$
c x run break block:2 while -> while (c) {$        x;$        break;$    }$
block:0 c do -> do {$    } while (c);$
x run block:1 c block:1 do -> do {$        {$            x;$        }$    } while (c);$
block:0 for: -> for (;;) {$    }$
i n < block:0 for:c -> for (; i < n;) {$    }$
i post++ block:0 for:n -> for (;; i++) {$    }$
x run block:0 for:s -> for (x;;) {$    }$
i 0 = run i 5 < i post++ s i += run block:1 for:scn -> for (i = 0; i < 5; i++) {$        s += i;$    }$
object:int/i 0 with:init object:int*/p declare:2 i 5 < i post++ continue block:1 for:scn -> for (int i = 0, *p; i < 5; i++) {$        continue;$    }$
object:_Bool/a declare:1 -> _Bool a;$
object:char/a declare:1 -> signed char a;$
object:schar/a declare:1 -> signed char a;$
object:uchar/a declare:1 -> uint8_t a;$
object:short/a declare:1 -> int16_t a;$
object:ushort/a declare:1 -> uint16_t a;$
object:unsigned/a declare:1 -> unsigned a;$
object:long/a declare:1 -> int64_t a;$
object:ulong/a declare:1 -> uint64_t a;$
object:llong/a declare:1 -> long long a;$
object:ullong/a declare:1 -> unsigned long long a;$
object:wide-u8/a declare:1 -> uint8x16_t a;$
object:wide-u16/a declare:1 -> uint16x8_t a;$
object:wide-u32/a declare:1 -> uint32x4_t a;$
object:wide-u64/a declare:1 -> uint64x2_t a;$
object:wide-s8/a declare:1 -> int8x16_t a;$
object:wide-s16/a declare:1 -> int16x8_t a;$
object:wide-s32/a declare:1 -> int32x4_t a;$
object:wide-s64/a declare:1 -> int64x2_t a;$
object:half-u8/a declare:1 -> uint8x8_t a;$
object:half-u16/a declare:1 -> uint16x4_t a;$
object:half-u32/a declare:1 -> uint32x2_t a;$
object:half-u64/a declare:1 -> uint64x1_t a;$
object:half-s8/a declare:1 -> int8x8_t a;$
object:half-s16/a declare:1 -> int16x4_t a;$
object:half-s32/a declare:1 -> int32x2_t a;$
object:half-s64/a declare:1 -> int64x1_t a;$
object:pair/a declare:1 -> uint8x16x2_t a;$
object:int/a with:const 1 with:init declare:1 -> const int a = 1;$
object:int/a b c comma:2 with:init declare:1 -> int a = (b, c);$
object:const-char*/p declare:1 -> const signed char *p;$
object:uchar*/p with:const q with:init declare:1 -> uint8_t *const p = q;$
object:const-uchar*/p with:const declare:1 -> const uint8_t *const p;$
object:int/a object:int*/p object:int[]/t 3 with:length declare:3 -> int a, *p, t[3];$
object:int/a with:const object:const-int*/p declare:2 -> const int a, *p;$
object:int[]/t 1 2 with:2 declare:1 -> int t[] = {1, 2};$
object:const-uchar[]/t a b + with:length 1 a b comma:2 with:2 declare:1 -> const uint8_t t[a + b] = {1, (a, b)};$
object:int/a 16 with:align object:int/b 16 with:align declare:2 -> _Alignas(16) int a, b;$
object:int/a 16 with:align object:int/b declare:2 -> int a __attribute__((aligned(16))), b;$
object:int/a 1 with:init object:int/b 16 with:align 2 with:init declare:2 -> int a = 1, b __attribute__((aligned(16))) = 2;$
object:int/a 8 with:align object:int/b 4 4 + with:align declare:2 -> int a __attribute__((aligned(8))), b __attribute__((aligned(4 + 4)));$
object:uchar[]/t with:const 32 with:align 4 with:length declare:1 -> _Alignas(32) const uint8_t t[4];$
object:wide-u16/c a call:vreinterpretq_u16_u8/1 b call:vreinterpretq_u16_u8/1 call:vaddq_u16/2 with:init declare:1 -> uint16x8_t c = vaddq_u16(vreinterpretq_u16_u8(a), vreinterpretq_u16_u8(b));$";

// Words of functions and tables -> their lines.
const UNITS: &str = "\
object:wide-u8/a object:wide-u8/b a b call:vaddq_u8/2 give function:wide-u8/f/2/1 -> $uint8x16_t f(uint8x16_t a, uint8x16_t b) {$    return vaddq_u8(a, b);$}$
object:uchar*/d object:const-uchar*/s d post++ pre* s post++ pre* = run function:void/f/2/1 -> $void f(uint8_t *d, const uint8_t *s) {$    *d++ = *s++;$}$
function:void/f/0/0 -> $void f(void) {$}$
function:const-uchar*/static-f/0/0 -> $static inline const uint8_t *f(void) {$}$
object:int/x with:const object:int*/p with:const object:pair/v function:pair/f/3/0 -> $uint8x16x2_t f(const int x, int *const p, uint8x16x2_t v) {$}$
object:const-uchar[]/t with:const 3 with:length 1 2 with:2 table:static -> $static const uint8_t t[3] = {1, 2};$
object:int/k with:const 64 with:align 7 with:init table: function:int/f/0/0 -> $_Alignas(64) const int k = 7;$$int f(void) {$}$";

fn shown(alloc: Global, text: &[u8]) -> Result<Vec<u8>, Fail> {
    let mut all = Vec::new(alloc);
    for b in text {
        all.push(if *b == b'\n' { b'$' } else { *b })?;
    }
    Ok(all)
}

// The text of a unit behind its header, with `$` for the end of each line.
fn printed(alloc: Global, words: &str) -> Result<Vec<u8>, Fail> {
    let mut made = nothing_made(alloc);
    for word in words.split(' ') {
        made.take(word)?;
    }
    let unit = Unit {
        items: made.into_items(),
    };
    let text = print(alloc, &unit)?;
    let rest = text
        .as_slice()
        .strip_prefix(HEADER.as_bytes())
        .ok_or("no header")?;
    shown(alloc, rest)
}

// Compares each row, with these words behind its words and these texts round its text. The error is the row that differs.
fn compare(
    alloc: Global,
    rows: &'static str,
    words_behind: &str,
    opening: &str,
    closing: &str,
) -> Result<(), Fail> {
    for row in rows.lines() {
        let (words, want) = row.split_once(" -> ").ok_or("malformed")?;
        let words = format!(in alloc; "{words}{words_behind}")?;
        let want = format!(in alloc; "{opening}{want}{closing}")?;
        let text = printed(alloc, &words)?;
        if text.as_slice() != want.as_bytes() {
            return Err(Fail::from(row));
        }
    }
    Ok(())
}

#[test]
fn prints(rt: HostRuntime) -> Result<(), Fail> {
    let alloc = rt.alloc();
    let nothing = Unit {
        items: Vec::new(alloc),
    };
    let text = print(alloc, &nothing)?;
    assert_eq!(rt; text.as_slice(), HEADER.as_bytes());
    compare(
        alloc,
        EXPRESSIONS,
        " run function:void/f/0/1",
        "$void f(void) {$    ",
        ";$}$",
    )?;
    compare(
        alloc,
        STATEMENTS,
        " function:void/f/0/1",
        "$void f(void) {$    ",
        "}$",
    )?;
    compare(alloc, UNITS, "", "", "")
}

//! Texts of the x86 and the Neon dialect, `$` for a line end, and behind `->` the tokens that their directives and macros leave, or number, place and
//! detail of the refusal. By ISO C11 6.10 with the refusals of this tool: other preprocessors pass some of these texts.

// What is left of texts of the x86 dialect.
pub const LEFT: &str = "\
#include <immintrin.h>$#include <stdint.h>$#include <stddef.h>$$#define STEP 32$$#if defined(__AVX2__)$int a = STEP;$#endif$ -> int a = 32 ;\n\
int f(void) { return _MM_SHUFFLE(2, 3, 0, 1); }$ -> int f ( void ) { return ( ( ( 2 ) << 6 ) | ( ( 3 ) << 4 ) | ( ( 0 ) << 2 ) | ( 1 ) ) ; }\n\
bool b = true; void *p = NULL; alignas(16) int x = false;$ -> _Bool b = 1 ; void * p = 0 ; _Alignas ( 16 ) int x = 0 ;\n\
#define A 1 + 2$#define A   1   +   2$#define A /* c */ 1 + 2 /* d */$A$ -> 1 + 2\n\
#define A 1$#undef A$#define A 2$A$ -> 2\n\
#undef NEVER$#undef bool$bool x;$ -> bool x ;\n\
#define bool _Bool$bool x;$ -> _Bool x ;\n\
#define _MM_SHUFFLE(z, y, x, w) (((z) << 6) | ((y) << 4) | ((x) << 2) | (w))$ -> \n\
#define E$E a E b$ -> a b\n\
#define F() 1$F() F( )$ -> 1 1\n\
#define F(x) [x]$F() F((1, 2)) F(F(3))$ -> [ ] [ ( 1 , 2 ) ] [ [ 3 ] ]\n\
#define G(a, b) a b b$#define F(x) G(x, x)$F(F(1))$ -> 1 1 1 1 1 1 1 1 1\n\
#define F(x) x$F(1$)$ -> 1\n\
#define LOOP(x) do { \\$  x; \\$} while (0)$LOOP(y);$ -> do { y ; } while ( 0 ) ;\n\
#if 0$a$#elif 1$b$#elif 1/0$c$#else$d$#endif$ -> b\n\
#if defined A || defined(bool)$a$#endif$ -> a\n\
#if !defined(X) && defined(__AVX2__)$a$#else$b$#endif$ -> a\n\
#ifndef GUARD$#define GUARD$x$#endif$#ifndef GUARD$y$#endif$ -> x\n\
#ifdef A$#if ($#nonsense$#endif$#else$z$#endif$ -> z\n\
#if -1 < 0u$a$#else$b$#endif$ -> b\n\
#if 0 && 1/0$a$#else$b$#endif$ -> b\n\
#if 1 ? 2 : 3 ? 0 : 0$a$#endif$ -> a\n\
#if X == 0$a$#endif$ -> a\n\
#if 'A' == 65$a$#endif$ -> a\n\
#define D 3$#if D * D == 9$a$#endif$ -> a\n\
#if 0$#if 1$#else x$#endif y$#endif$a$ -> a\n\
#$#pragma once$ # /* nothing */$a$ -> a\n\
int a; # not a directive$ -> int a ; # not a directive\n\
#define F(x) x$F(F(F(1)))$ -> 1\n\
#define F( x , y ) x y$F(1,2)$ -> 1 2\n\
#define F (x)$F$ -> ( x )\n\
#define F(x,y) x y$#define F( x , y )  x   y  $F(1,2)$ -> 1 2\n\
#define A$#ifdef A$a$#else$b$#endif$A$ -> a\n\
#define A 1$int A(2);$ -> int 1 ( 2 ) ;\n\
#undef true$#define true 0$true$ -> 0\n\
#define __AVX2__ 1$x$ -> x\n\
#define E$#define F(x) x$F(E)$ -> \n\
#define G(x) x x$#define H(x) G(x) + x$H(a)$ -> a a + a\n\
#define P(a, b) a-b$P(-1, 2)$ -> - 1 - 2\n\
#define A \\$1$A$ -> 1\n\
#define F(x) 2$#define G(x) G$F(G(1))$ -> 2\n\
#define Z z$#define F(x) Z x$F(Z)$ -> z z\n\
#define F(x) F2(x)$#define F2(x) [x]$F((a, b))$ -> [ ( a , b ) ]\n\
#define F(x, y) x$F(,)F( , )$ -> \n\
#define STEP(i) do { \\$  s += (i); \\$  t(i); \\$} while (0)$if (c) STEP(k + 1); else STEP(0);$ -> if ( c ) do { s += ( k + 1 ) ; t ( k + 1 ) ; } while ( 0 ) ; else do { s += ( 0 ) ; t ( 0 ) ; } while ( 0 ) ;\n\
#define F(x)x$F(a)$ -> a\n\
#define x defined$x$ -> defined\n\
#define x x1$#define F(x) x$F(x)$ -> x1\n\
#define if while$if$ -> while\n\
#if 0$#if 1$a$#else$b$#endif$c$#else$d$#endif$ -> d\n\
#if 1$a$#elif 1/0$b$#endif$ -> a\n\
#if 0$#error x$#include <nope.h>$#define$#endif$a$ -> a\n\
#if 0$#define A 1$#undef bool$#endif$A bool$ -> A _Bool\n\
#ifndef A$a$#elif 1$b$#else$c$#endif$ -> a\n\
#ifdef A$a$#elif 0$b$#elif 2$c$#elif 1$d$#else$e$#endif$ -> c\n\
#ifdef bool$a$#endif$#ifdef int$b$#endif$ -> a\n\
#if 2 + 3 * 4 == 14$a$#endif$ -> a\n\
#if (2 + 3) * 4 == 20 && 7 - 2 - 1 == 4$a$#endif$ -> a\n\
#if (1 ? 0 : 1/0) == 0$a$#endif$ -> a\n\
#if 1 || 1/0$a$#endif$ -> a\n\
#if (0 ? 1/0 : 1)$a$#endif$ -> a\n\
#if ~0 == -1 && !0 == 1 && - -1 == +1$a$#endif$ -> a\n\
#if 1u << 63 > 0$a$#endif$ -> a\n\
#if 9223372036854775807u + 1 > 0$a$#endif$ -> a\n\
#if 0x8000000000000000 < 0$a$#else$b$#endif$ -> b\n\
#if 18446744073709551615u + 1 == 0$a$#endif$ -> a\n\
#if -1 < 0x80000000$a$#else$b$#endif$ -> a\n\
#if (1 ? -1 : 0u) > 0$a$#else$b$#endif$ -> a\n\
#if 5 / 2 == 2 && -5 / 2 == -2 && -5 % 3 == -2 && 1 % 2 == 1$a$#endif$ -> a\n\
#if -8 >> 1 == -4$a$#endif$ -> a\n\
#if 010 == 8 && 0x1F == 31 && 1L == 1ULL$a$#endif$ -> a\n\
#if 0b11 == 3$a$#endif$ -> a\n\
#if '\\n' == 10 && '\\377' < 0 && '\\x41' == 'A'$a$#endif$ -> a\n\
#if (6 & 3) == 2 && (6 | 3) == 7 && (6 ^ 3) == 5$a$#endif$ -> a\n\
#if 1 != 2 && 1 <= 1 && 2 >= 1 && !(1 > 2)$a$#endif$ -> a\n\
#if 1 | 0 && 0$a$#else$b$#endif$ -> b\n\
#if defined (bool) && !defined Y$a$#endif$ -> a\n\
#if defined(A) + 1$a$#endif$ -> a\n\
#define F(x) x$#if F(1) && F((2)) == 2$a$#endif$ -> a\n\
#define A A$#if defined A$a$#endif$ -> a\n\
#if _MM_SHUFFLE(0, 0, 0, 1) == 1$a$#endif$ -> a\n\
#if int == 0 && true == 1$a$#endif$ -> a\n\
#include <immintrin.h> // c$ -> \n\
# include <stdint.h>$/* c */ #include <stddef.h>$#/* c */include/* d */<stdbool.h>/* e */$ -> \n\
a$#include <smmintrin.h>$b$#include <stdalign.h>$ -> a b\n\
#$a$#/* */$b$ -> a b\n\
a #define X 1$X$ -> a # define X 1 X\n\
#undef _MM_SHUFFLE$_MM_SHUFFLE(1)$ -> _MM_SHUFFLE ( 1 )\n\
__x86_64__ __SSE__ __SSE2__ __SSE3__ __SSSE3__ __SSE4_1__ __AVX__ __AVX2__$ -> 1 1 1 1 1 1 1 1\n\
__aarch64__ __ARM_NEON __GNUC__ __LINE__$ -> __aarch64__ __ARM_NEON __GNUC__ __LINE__\n\
#ifndef UNIT_H$#define UNIT_H$#pragma once$#include <immintrin.h>$int a;$#endif /* UNIT_H */$#ifndef UNIT_H$int b;$#endif$ -> int a ;\n\
#if defined(__AVX2__) && !defined(NO_AVX2)$#define LANES 32$#elif defined(__SSE2__)$#define LANES 16$#else$#error none$#endif$int t[LANES];$ -> int t [ 32 ] ;\n\
#define NO_AVX2$#if defined(__AVX2__) && !defined(NO_AVX2)$#define LANES 32$#elif defined(__SSE2__)$#define LANES 16$#else$#error none$#endif$int t[LANES];$ -> int t [ 16 ] ;";

// Texts of the x86 dialect that are refused.
pub const REFUSED: &str = "\
#include <math.h>$ -> 6 1:10 <math.h>\n\
#pragma pack(1)$ -> 5 1:2 pragma\n\
#define A A$int f(void) { return A; }$ -> 7 2:22 A\n\
#if 1$ -> 8 1:2 if\n\
#define P(x, y) x + y$#define Q P(1,$int f(void) { return Q 2); }$ -> 7 3:22 P\n\
#include \"x.h\"$ -> 6 1:10 \"x.h\"\n\
#include <>$ -> 5 1:2 include\n\
#include NAME$ -> 5 1:2 include\n\
#include$ -> 5 1:2 include\n\
#include <stdint.h> x$ -> 5 1:2 include\n\
#include < stdint.h>$ -> 6 1:10 < stdint.h>\n\
#include <arm_neon.h>$ -> 6 1:10 <arm_neon.h>\n\
#define X+1$ -> 5 1:2 define\n\
#define$ -> 5 1:2 define\n\
#define 1$ -> 5 1:2 define\n\
#define defined 1$ -> 7 1:9 defined\n\
#undef defined$ -> 7 1:8 defined\n\
#undef A B$ -> 5 1:2 undef\n\
#undef$ -> 5 1:2 undef\n\
#define F(x, x) x$ -> 7 1:9 F\n\
#define F(x) #x$ -> 7 1:9 F\n\
#define F(x) x##x$ -> 7 1:9 F\n\
#define F(...) 1$ -> 7 1:9 F\n\
#define F(x, ...) 1$ -> 7 1:9 F\n\
#define F(x y) 1$ -> 5 1:2 define\n\
#define F(x,) 1$ -> 5 1:2 define\n\
#define F(x$ -> 5 1:2 define\n\
#define A 1 + 2$#define A 1 +2$ -> 7 2:9 A\n\
#define A 1$#define A 2$ -> 7 2:9 A\n\
#define F(x) x$#define F(y) y$ -> 7 2:9 F\n\
#define A x$#define A() x$ -> 7 2:9 A\n\
#define bool int$ -> 7 1:9 bool\n\
#define F() 1$F(1)$ -> 7 2:1 F\n\
#define F(x) x$F(1, 2)$ -> 7 2:1 F\n\
#define F(x) x$int F;$ -> 7 2:5 F\n\
#define F(x) x$F(1$#define B$)$ -> 7 2:1 F\n\
#if$ -> 5 1:2 if\n\
#if ($#endif$ -> 5 1:2 if\n\
#if 1/0$#endif$ -> 5 1:2 if\n\
#if 0$#elif$#endif$ -> 5 2:2 elif\n\
#if defined$#endif$ -> 5 1:2 if\n\
#if defined(A$#endif$ -> 5 1:2 if\n\
#ifdef$#endif$ -> 5 1:2 ifdef\n\
#ifdef A B$#endif$ -> 5 1:2 ifdef\n\
#ifndef 1$#endif$ -> 5 1:2 ifndef\n\
#if 1$#else x$#endif$ -> 5 2:2 else\n\
#if 1$#endif x$ -> 5 2:2 endif\n\
#if 1$#else$#else$#endif$ -> 8 3:2 else\n\
#if 1$#else$#elif 1$#endif$ -> 8 3:2 elif\n\
#endif$ -> 8 1:2 endif\n\
#else$ -> 8 1:2 else\n\
#elif 1$ -> 8 1:2 elif\n\
#if 1$#ifdef A$ -> 8 1:2 if\n\
#if 1$#nonsense$ -> 5 2:2 nonsense\n\
#error stop$ -> 5 1:2 error\n\
# 33 \"x\"$ -> 5 1:1 #\n\
#pragma once more$ -> 5 1:2 pragma\n\
#pragma$ -> 5 1:2 pragma\n\
#define F(x) (x)$#define F(x) ( x)$ -> 7 2:9 F\n\
#define __AVX2__$ -> 7 1:9 __AVX2__\n\
#define f(a) a$f(f)(1)$ -> 7 2:3 f\n\
#define A B$#define B A$int B;$ -> 7 3:5 B\n\
#define F(x) x$#define G(x) G$F(G(1))$ -> 7 3:3 G\n\
#define F($ -> 5 1:2 define\n\
#define F(1) x$ -> 5 1:2 define\n\
#define A\"s\"$ -> 5 1:2 define\n\
#define A # x$ -> 7 1:9 A\n\
#define defined(x) x$ -> 7 1:9 defined\n\
#if 0$a$#elif 1/0$#endif$ -> 5 3:2 elif\n\
#if 1$#error x$#endif$ -> 5 2:2 error\n\
#if 0$#endif$#else$ -> 8 3:2 else\n\
#if 1$#else$#endif$#endif$ -> 8 4:2 endif\n\
#if 0$#else$#else$#endif$ -> 8 3:2 else\n\
#if 0$#if 1$#else$#elif 1$#endif$#endif$ -> 8 4:2 elif\n\
#if 1$#if 1$#endif$A($ -> 8 1:2 if\n\
#define F(x) x$#if 1$F($ -> 7 3:1 F\n\
#if 1 << 63$a$#endif$ -> 5 1:2 if\n\
#if 9223372036854775807 + 1$#endif$ -> 5 1:2 if\n\
#if (-9223372036854775807 - 1) / -1$#endif$ -> 5 1:2 if\n\
#if 1 % 0$#endif$ -> 5 1:2 if\n\
#if 1 << 64$#endif$ -> 5 1:2 if\n\
#if 1 >> -1$#endif$ -> 5 1:2 if\n\
#if 1.5$#endif$ -> 5 1:2 if\n\
#if \"a\"$#endif$ -> 5 1:2 if\n\
#if L'a'$#endif$ -> 5 1:2 if\n\
#if 1 +$#endif$ -> 5 1:2 if\n\
#if ()$#endif$ -> 5 1:2 if\n\
#if 1, 2$#endif$ -> 5 1:2 if\n\
#if A = 1$#endif$ -> 5 1:2 if\n\
#if 1 2$#endif$ -> 5 1:2 if\n\
#if 1 ? 2$#endif$ -> 5 1:2 if\n\
#if A++$#endif$ -> 5 1:2 if\n\
#if 18446744073709551616$#endif$ -> 5 1:2 if\n\
#if defined 1$#endif$ -> 5 1:2 if\n\
#define D defined(bool)$#if D$#endif$ -> 5 2:2 if\n\
#define F(x) x$#if F$#endif$ -> 7 2:5 F\n\
#define A A$#if A$#endif$ -> 7 2:5 A\n\
#include <stdint.h$ -> 5 1:2 include\n\
#include \"stdint.h\" x$ -> 5 1:2 include\n\
#include \"stdint.h\"$ -> 6 1:10 \"stdint.h\"\n\
#include <sys/types.h>$ -> 6 1:10 <sys/types.h>\n\
#include <std int.h>$ -> 6 1:10 <std int.h>\n\
# 1$ -> 5 1:1 #\n\
#line 1$ -> 5 1:2 line\n\
#warning x$ -> 5 1:2 warning\n\
#include_next <stdint.h>$ -> 5 1:2 include_next\n\
_MM_SHUFFLE(1, 2, 3)$ -> 7 1:1 _MM_SHUFFLE\n\
_MM_SHUFFLE$ -> 7 1:1 _MM_SHUFFLE";

// Texts of the Neon dialect.
pub const NEON: &str = "\
#include <arm_neon.h>$#include <stddef.h>$#include <stdint.h>$int a;$ -> int a ;\n\
#include <stdbool.h>$#include <stdalign.h>$bool b = true;$ -> _Bool b = 1 ;\n\
#include <immintrin.h>$ -> 6 1:10 <immintrin.h>\n\
#include <xmmintrin.h>$ -> 6 1:10 <xmmintrin.h>\n\
__aarch64__ __ARM_NEON __AVX2__ __x86_64__$ -> 1 1 __AVX2__ __x86_64__\n\
_MM_SHUFFLE(1)$ -> _MM_SHUFFLE ( 1 )\n\
#if defined(__ARM_NEON) && !defined(__AVX2__)$a$#endif$ -> a\n\
#define bool int$ -> 7 1:9 bool\n\
#define __AVX2__ 2$__AVX2__$ -> 2";

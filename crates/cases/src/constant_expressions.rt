//! Constant expressions: values of gcc 12.2 on x86-64 (`_Static_assert` and `_Generic`, `-std=c11`), on AArch64 for the Neon types.
use c_tree::{BinOp, CType, Expr, ExprKind, IntType, NeonLane, Num, Place, Pointee, Text, UnOp};
use const_imm::{NotConst, eval_const};
use scalar_core::convert;
use std::alloc::Global;
use std::test::Fail;

// An expression with its operators behind their operands, and its value; `none` where it isn't a constant expression. `[T]` is a
// cast that isn't written.
const ROWS: &str = "\
7 -> Int 7
7 neg 2 / -> Int -3
5 ! -> Int 0
0u ~ -> UInt 4294967295
1 0 / -> none
2147483647 1 + -> none
1 31 << -> none
1u 31 << -> UInt 2147483648
1 2l < -> Int 1
0 1 0 / && -> Int 0
2 1 0 / && -> none
1 0 / 0 && -> none
2l 3l && -> Int 1
2 0 && -> Int 0
1 1 0 / || -> Int 1
0 1 0 / || -> none
0 5 || -> Int 1
0l 0l || -> Int 0
1 0 / 2 3 ?: -> none
1 2 1 0 / ?: -> Int 2
0 1 0 / 3 ?: -> Int 3
0 2 1 0 / ?: -> none
1 1 neg 0u ?: -> UInt 4294967295
0 1u 2l ?: -> Long 2
1 2 3l 0 / ?: -> Long 2
0 1 0 / 2 3 ?: && -> Int 0
300 (Char) -> Char 44
200 (Char) 0 + -> Int -56
1 neg (UChar) -> UChar 255
1 neg [UShort] -> UShort 65535
256 (Boolean) -> Boolean 1
1 0 / (Char) -> none
0 1 0 / (Long) || -> none
1 (Void) -> none
0 (Pointer) -> none
sizeof:Boolean -> ULong 1
sizeof:Char -> ULong 1
sizeof:UShort -> ULong 2
sizeof:Int -> ULong 4
sizeof:Long -> ULong 8
sizeof:LLong -> ULong 8
sizeof:Pointer -> ULong 8
sizeof:M128 -> ULong 16
sizeof:M256 -> ULong 32
sizeof:uint8x8_t -> ULong 8
sizeof:uint8x16_t -> ULong 16
sizeof:uint8x16x2_t -> ULong 32
sizeof:int[3] -> ULong 12
sizeof:int[] -> none
sizeof:int[4611686018427387904] -> none
sizeof:Int neg -> ULong 18446744073709551612
sizeof:Void -> none
x -> none
x 0 && -> none
0 x && -> none
1 f() || -> none
1 2 x ?: -> none";

const WHOLE: Place = Place { line: 1, col: 2 };

const PART: Place = Place { line: 3, col: 4 };

fn integer_named(name: &str) -> Option<IntType> {
    match name {
        "Boolean" => Some(IntType::Boolean),
        "Char" => Some(IntType::Char),
        "UChar" => Some(IntType::UChar),
        "UShort" => Some(IntType::UShort),
        "Int" => Some(IntType::Int),
        "UInt" => Some(IntType::UInt),
        "Long" => Some(IntType::Long),
        "ULong" => Some(IntType::ULong),
        "LLong" => Some(IntType::LLong),
        _ => None,
    }
}

fn array_of_int(number: u64) -> CType {
    CType::Array(Pointee::Int(IntType::Int), number, false)
}

fn type_named(name: &str) -> Option<CType> {
    match name {
        "Void" => Some(CType::Void),
        "Pointer" => Some(CType::Pointer(Pointee::Void, false)),
        "M128" => Some(CType::M128),
        "M256" => Some(CType::M256),
        "uint8x8_t" => Some(CType::Neon(NeonLane::U8, false)),
        "uint8x16_t" => Some(CType::Neon(NeonLane::U8, true)),
        "uint8x16x2_t" => Some(CType::Pair),
        "int[3]" => Some(array_of_int(3)),
        "int[]" => Some(array_of_int(0)),
        "int[4611686018427387904]" => Some(array_of_int(4_611_686_018_427_387_904)),
        _ => Some(CType::Int(integer_named(name)?)),
    }
}

fn unary_named(name: &str) -> Option<UnOp> {
    match name {
        "neg" => Some(UnOp::Neg),
        "~" => Some(UnOp::BitNot),
        "!" => Some(UnOp::Not),
        _ => None,
    }
}

fn binary_named(name: &str) -> Option<BinOp> {
    match name {
        "/" => Some(BinOp::Div),
        "+" => Some(BinOp::Add),
        "<<" => Some(BinOp::Shl),
        "<" => Some(BinOp::Lt),
        _ => None,
    }
}

// A number, as `1` of type `int`, `1u` of `unsigned` and `1l` of `long`.
fn number(text: &str) -> Option<Num> {
    let (digits, ty) = if let Some(digits) = text.strip_suffix("u") {
        (digits, IntType::UInt)
    } else if let Some(digits) = text.strip_suffix("l") {
        (digits, IntType::Long)
    } else {
        (text, IntType::Int)
    };
    let n = Num {
        ty: IntType::Int,
        value: i128::from(digits.parse::<i32>().ok()?),
    };
    Some(convert(n, ty))
}

// The type of a cast, and whether it is written.
fn cast_named(word: &str) -> Option<(CType, bool)> {
    if let Some(rest) = word.strip_prefix("(") {
        Some((type_named(rest.strip_suffix(")")?)?, true))
    } else {
        let rest = word.strip_prefix("[")?;
        Some((type_named(rest.strip_suffix("]")?)?, false))
    }
}

// The form that a word makes of the operands before it.
fn form(alloc: Global, stack: &mut Vec<Expr>, word: &str) -> Result<ExprKind, Fail> {
    if let Some(n) = number(word) {
        return Ok(ExprKind::Const(n));
    }
    if let Some(name) = word.strip_prefix("sizeof:") {
        return Ok(ExprKind::SizeOfType(type_named(name).ok_or("type")?));
    }
    if word == "x" {
        return Ok(ExprKind::Name(Text::new(alloc, b"x")?));
    }
    if word == "f()" {
        return Ok(ExprKind::Call(Text::new(alloc, b"f")?, Vec::new(alloc)));
    }
    let last = stack.pop().ok_or("operand")?;
    if let Some(op) = unary_named(word) {
        return Ok(ExprKind::Unary(op, last));
    }
    if let Some((ty, written)) = cast_named(word) {
        return Ok(ExprKind::Cast(ty, last, written));
    }
    let second = stack.pop().ok_or("operand")?;
    if let Some(op) = binary_named(word) {
        return Ok(ExprKind::Binary(op, second, last));
    }
    match word {
        "&&" => Ok(ExprKind::AndThen(second, last)),
        "||" => Ok(ExprKind::OrElse(second, last)),
        _ => Ok(ExprKind::Choice(stack.pop().ok_or("operand")?, second, last)),
    }
}

fn expression(alloc: Global, words: &str) -> Result<Expr, Fail> {
    let mut stack = Vec::new(alloc);
    for word in words.split(' ') {
        let kind = form(alloc, &mut stack, word)?;
        stack.push(Expr {
            place: PART,
            ty: CType::Void,
            kind: Box::new(alloc, kind)?,
        })?;
    }
    let mut whole = stack.pop().ok_or("empty")?;
    whole.place = WHOLE;
    Ok(whole)
}

// What a row wants, none where it isn't well formed.
fn wanted(text: &str) -> Option<Result<(IntType, i128), NotConst>> {
    if text == "none" {
        return Some(Err(NotConst(WHOLE)));
    }
    let (ty, value) = text.split_once(' ')?;
    Some(Ok((integer_named(ty)?, value.parse::<i128>().ok()?)))
}

#[test]
fn agrees_with_gcc(rt: HostRuntime) -> Result<(), Fail> {
    for row in ROWS.lines() {
        let (words, want) = row.split_once(" -> ").ok_or("malformed")?;
        let e = expression(rt.alloc(), words)?;
        let value = eval_const(&e).map(|n| (n.ty, n.value));
        assert_eq!(rt; value, wanted(want).ok_or("malformed")?, "{row}");
    }
    Ok(())
}

//! Operators and conversions: values of gcc 12.2 on x86-64 (`-std=c11 -fsanitize=undefined`).
use lane_core::number::{BinOp, IntType, Num, UnOp};
use scalar_core::{binary, common, convert, promote, unary};
use std::test::Fail;

// An operator or `Convert`, its operands, and its result; `None` where gcc reports undefined behaviour.
const ROWS: &str = "\
Mul, Int 65536, Int 32768, None
Mul, Int 65536, Int -32768, Int -2147483648
Mul, UInt 65536, UInt 65537, UInt 65536
Mul, UShort 65535, UShort 65535, None
Mul, Long 9223372036854775807, Int -1, Long -9223372036854775807
Mul, Long -9223372036854775808, Int -1, None
Mul, ULong 18446744073709551615, ULong 18446744073709551615, ULong 1
Mul, LLong -9223372036854775808, ULLong 18446744073709551615, ULLong 9223372036854775808
Mul, UInt 4294967295, Long -2147483648, Long -9223372034707292160
Mul, Boolean 1, ULLong 18446744073709551615, ULLong 18446744073709551615
Div, Int -7, Int 2, Int -3
Div, Int 7, UChar 0, None
Div, Int -2147483648, Int -1, None
Div, Int -2147483648, UInt 4294967295, UInt 0
Div, Int -2147483648, Long -1, Long 2147483648
Div, UInt 4294967295, Short -2, UInt 1
Div, Short -32768, Short -1, Int 32768
Rem, Int -7, Int 2, Int -1
Rem, Int 7, Int -2, Int 1
Rem, Int -2147483648, Int -1, None
Rem, Short -32768, Char -1, Int 0
Rem, ULong 18446744073709551615, Int -10, ULong 9
Rem, UInt 5, UInt 0, None
Rem, Long -9223372036854775808, UChar 255, Long -128
Add, Int 2147483647, Boolean 1, None
Add, UInt 4294967295, Int 1, UInt 0
Add, Int -2147483648, Int -1, None
Add, UShort 65535, UShort 65535, Int 131070
Add, Long 9223372036854775807, UInt 1, None
Add, ULong 18446744073709551615, Long 9223372036854775807, ULong 9223372036854775806
Add, LLong 9223372036854775807, ULong 1, ULLong 9223372036854775808
Sub, UInt 0, Int 1, UInt 4294967295
Sub, UShort 0, UShort 65535, Int -65535
Sub, Int -2147483648, Int 1, None
Sub, LLong -9223372036854775808, SChar -128, LLong -9223372036854775680
Sub, LLong -9223372036854775808, UChar 1, None
Shl, Int 1, Int 30, Int 1073741824
Shl, Int 1, Int 31, None
Shl, UInt 3, ULLong 31, UInt 2147483648
Shl, Int 1, Int 32, None
Shl, Int -1, Int 1, None
Shl, Int 1, Int -1, None
Shl, UShort 65535, Int 15, Int 2147450880
Shl, UShort 65535, Int 16, None
Shl, UChar 255, Int 24, None
Shl, Long 1, UChar 62, Long 4611686018427387904
Shl, Long 1, UChar 63, None
Shl, ULong 18446744073709551615, Boolean 1, ULong 18446744073709551614
Shl, ULLong 18446744073709551615, Long 63, ULLong 9223372036854775808
Shl, ULLong 1, Int 64, None
Shl, Boolean 1, LLong 8, Int 256
Shl, Int 0, Char 31, Int 0
Shr, Int -1, Int 31, Int -1
Shr, Int -2147483648, UInt 31, Int -1
Shr, Char -128, Int 3, Int -16
Shr, UInt 4294967295, Int 31, UInt 1
Shr, LLong -9223372036854775808, ULong 63, LLong -1
Shr, Long -5, Int -1, None
Shr, ULong 18446744073709551615, SChar 63, ULong 1
Shr, UShort 65535, Int 31, Int 0
Shr, Short -1, LLong 32, None
Lt, Int -1, UInt 1, Int 0
Lt, Int -1, UShort 1, Int 1
Lt, Long -1, UInt 4294967295, Int 1
Gt, LLong -1, ULong 0, Int 1
Gt, SChar -1, Boolean 0, Int 0
Le, ULong 18446744073709551615, Long -1, Int 1
Ge, UInt 0, Short -1, Int 0
Ge, Char 127, UChar 127, Int 1
Eq, UInt 4294967295, Int -1, Int 1
Eq, UChar 255, Char -1, Int 0
Ne, ULong 18446744073709551615, SChar -1, Int 0
Ne, UShort 65535, Short -1, Int 1
BitAnd, Int -1, UChar 255, Int 255
BitAnd, Int -2147483648, Long -1, Long -2147483648
BitAnd, ULong 17361641481138401520, Int -256, ULong 17361641481138401280
BitXor, Int -1, Int 2147483647, Int -2147483648
BitXor, UInt 4294967295, Char -86, UInt 85
BitOr, Short -32768, UShort 1, Int -32767
BitOr, LLong -9223372036854775808, UInt 1, LLong -9223372036854775807
Plus, Boolean 1, Int 1
Plus, Char -128, Int -128
Plus, UShort 65535, Int 65535
Plus, ULLong 18446744073709551615, ULLong 18446744073709551615
Neg, Int -2147483648, None
Neg, UInt 1, UInt 4294967295
Neg, Short -32768, Int 32768
Neg, UChar 255, Int -255
Neg, Long -9223372036854775808, None
Neg, LLong 9223372036854775807, LLong -9223372036854775807
BitNot, UChar 0, Int -1
BitNot, Boolean 1, Int -2
BitNot, UInt 1, UInt 4294967294
BitNot, Int 2147483647, Int -2147483648
BitNot, LLong -9223372036854775808, LLong 9223372036854775807
Not, Boolean 0, Int 1
Not, ULLong 18446744073709551615, Int 0
Not, SChar -128, Int 0
Convert, Int 2, Boolean 1
Convert, LLong -9223372036854775808, Boolean 1
Convert, ULong 0, Boolean 0
Convert, Int 256, Boolean 1
Convert, Int 128, Char -128
Convert, Int -1, UChar 255
Convert, Int 65535, Short -1
Convert, Int -32769, Short 32767
Convert, Long -1, UShort 65535
Convert, Long 2147483648, Int -2147483648
Convert, ULLong 18446744073709551615, Int -1
Convert, Char -1, UInt 4294967295
Convert, ULong 9223372036854775808, Long -9223372036854775808
Convert, Int -1, ULong 18446744073709551615
Convert, ULLong 18446744073709551615, LLong -1
Convert, SChar -128, ULLong 18446744073709551488
Convert, UInt 4294967295, Long 4294967295
";

fn type_named(name: &str) -> Option<IntType> {
    match name {
        "Boolean" => Some(IntType::Boolean),
        "Char" => Some(IntType::Char),
        "SChar" => Some(IntType::SChar),
        "UChar" => Some(IntType::UChar),
        "Short" => Some(IntType::Short),
        "UShort" => Some(IntType::UShort),
        "Int" => Some(IntType::Int),
        "UInt" => Some(IntType::UInt),
        "Long" => Some(IntType::Long),
        "ULong" => Some(IntType::ULong),
        "LLong" => Some(IntType::LLong),
        "ULLong" => Some(IntType::ULLong),
        _ => None,
    }
}

fn binary_named(name: &str) -> Option<BinOp> {
    match name {
        "Mul" => Some(BinOp::Mul),
        "Div" => Some(BinOp::Div),
        "Rem" => Some(BinOp::Rem),
        "Add" => Some(BinOp::Add),
        "Sub" => Some(BinOp::Sub),
        "Shl" => Some(BinOp::Shl),
        "Shr" => Some(BinOp::Shr),
        "Lt" => Some(BinOp::Lt),
        "Gt" => Some(BinOp::Gt),
        "Le" => Some(BinOp::Le),
        "Ge" => Some(BinOp::Ge),
        "Eq" => Some(BinOp::Eq),
        "Ne" => Some(BinOp::Ne),
        "BitAnd" => Some(BinOp::BitAnd),
        "BitXor" => Some(BinOp::BitXor),
        "BitOr" => Some(BinOp::BitOr),
        _ => None,
    }
}

fn unary_named(name: &str) -> Option<UnOp> {
    match name {
        "Plus" => Some(UnOp::Plus),
        "Neg" => Some(UnOp::Neg),
        "BitNot" => Some(UnOp::BitNot),
        "Not" => Some(UnOp::Not),
        _ => None,
    }
}

// A number, as `Int -1`.
fn number(text: &str) -> Option<Num> {
    let (ty, value) = text.split_once(' ')?;
    let n = match value.parse::<i64>() {
        Ok(value) => Num {
            ty: IntType::LLong,
            value: i128::from(value),
        },
        Err(_) => Num {
            ty: IntType::ULLong,
            value: i128::from(value.parse::<u64>().ok()?),
        },
    };
    Some(convert(n, type_named(ty)?))
}

fn binary_row(op: BinOp, row: &str) -> Option<(Option<Num>, Option<Num>)> {
    let (a, rest) = row.split_once(", ")?;
    let (b, want) = rest.split_once(", ")?;
    Some((binary(op, number(a)?, number(b)?), number(want)))
}

// What a row's operator gives and what the row says; none where the row isn't well formed.
fn row_values(row: &str) -> Option<(Option<Num>, Option<Num>)> {
    let (name, rest) = row.split_once(", ")?;
    if let Some(op) = binary_named(name) {
        return binary_row(op, rest);
    }
    let (a, want) = rest.split_once(", ")?;
    match unary_named(name) {
        Some(op) => Some((unary(op, number(a)?), number(want))),
        None => Some((Some(convert(number(a)?, number(want)?.ty)), number(want))),
    }
}

#[test]
fn agrees_with_gcc(rt: HostRuntime) -> Result<(), Fail> {
    for row in ROWS.lines() {
        let (result, want) = row_values(row).ok_or("malformed")?;
        assert_eq!(rt; result, want, "{row}");
    }
    assert_eq!(rt; promote(IntType::UShort), IntType::Int);
    assert_eq!(rt; common(IntType::LLong, IntType::ULong), IntType::ULLong);
    Ok(())
}

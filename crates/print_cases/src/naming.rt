//! Words for numbers, types and operators.

use c_tree::{BinOp, CType, IntType, NeonLane, Num, Pointee, UnOp};

fn integer_named(name: &str) -> Option<IntType> {
    match name {
        "_Bool" => Some(IntType::Boolean),
        "char" => Some(IntType::Char),
        "schar" => Some(IntType::SChar),
        "uchar" => Some(IntType::UChar),
        "short" => Some(IntType::Short),
        "ushort" => Some(IntType::UShort),
        "int" => Some(IntType::Int),
        "unsigned" => Some(IntType::UInt),
        "long" => Some(IntType::Long),
        "ulong" => Some(IntType::ULong),
        "llong" => Some(IntType::LLong),
        "ullong" => Some(IntType::ULLong),
        _ => None,
    }
}

fn lane_named(name: &str) -> Option<NeonLane> {
    match name {
        "u8" => Some(NeonLane::U8),
        "u16" => Some(NeonLane::U16),
        "u32" => Some(NeonLane::U32),
        "u64" => Some(NeonLane::U64),
        "s8" => Some(NeonLane::S8),
        "s16" => Some(NeonLane::S16),
        "s32" => Some(NeonLane::S32),
        "s64" => Some(NeonLane::S64),
        _ => None,
    }
}

fn pointee_named(name: &str) -> Option<Pointee> {
    match name {
        "void" => Some(Pointee::Void),
        "m128" => Some(Pointee::M128),
        "m256" => Some(Pointee::M256),
        _ => Some(Pointee::Int(integer_named(name)?)),
    }
}

fn plain_named(name: &str) -> Option<CType> {
    if let Some(lane) = name.strip_prefix("wide-") {
        return Some(CType::Neon(lane_named(lane)?, true));
    }
    if let Some(lane) = name.strip_prefix("half-") {
        return Some(CType::Neon(lane_named(lane)?, false));
    }
    match name {
        "void" => Some(CType::Void),
        "m128" => Some(CType::M128),
        "m256" => Some(CType::M256),
        "pair" => Some(CType::Pair),
        _ => Some(CType::Int(integer_named(name)?)),
    }
}

// A type: `int`, `int*`, `const-int*`, `int[]`, `const-int[]`, `wide-u8` and `half-u8` of 128 and 64 bits.
pub(crate) fn type_named(word: &str) -> Option<CType> {
    let (name, constant) = match word.strip_prefix("const-") {
        Some(name) => (name, true),
        None => (word, false),
    };
    if let Some(name) = name.strip_suffix("*") {
        return Some(CType::Pointer(pointee_named(name)?, constant));
    }
    if let Some(name) = name.strip_suffix("[]") {
        return Some(CType::Array(pointee_named(name)?, 3, constant));
    }
    plain_named(name)
}

fn unsigned_number(text: &str) -> Option<Num> {
    if let Some(digits) = text.strip_suffix("ull") {
        return Some(Num {
            ty: IntType::ULLong,
            value: i128::from(digits.parse::<u64>().ok()?),
        });
    }
    if let Some(digits) = text.strip_suffix("ul") {
        return Some(Num {
            ty: IntType::ULong,
            value: i128::from(digits.parse::<u64>().ok()?),
        });
    }
    Some(Num {
        ty: IntType::UInt,
        value: i128::from(text.strip_suffix("u")?.parse::<u32>().ok()?),
    })
}

fn signed_number(text: &str) -> Option<Num> {
    if let Some(digits) = text.strip_suffix("ll") {
        return Some(Num {
            ty: IntType::LLong,
            value: i128::from(digits.parse::<i64>().ok()?),
        });
    }
    if let Some(digits) = text.strip_suffix("l") {
        return Some(Num {
            ty: IntType::Long,
            value: i128::from(digits.parse::<i64>().ok()?),
        });
    }
    Some(Num {
        ty: IntType::Int,
        value: i128::from(text.parse::<i32>().ok()?),
    })
}

// A number, with its type's suffix in small letters.
pub(crate) fn number(text: &str) -> Option<Num> {
    match unsigned_number(text) {
        Some(n) => Some(n),
        None => signed_number(text),
    }
}

pub(crate) fn prefix_named(word: &str) -> Option<UnOp> {
    match word {
        "pre+" => Some(UnOp::Plus),
        "pre-" => Some(UnOp::Neg),
        "pre~" => Some(UnOp::BitNot),
        "pre!" => Some(UnOp::Not),
        _ => None,
    }
}

// A step: whether it goes up, and whether it stands before its operand.
pub(crate) fn step_named(word: &str) -> Option<(bool, bool)> {
    match word {
        "pre++" => Some((true, true)),
        "pre--" => Some((false, true)),
        "post++" => Some((true, false)),
        "post--" => Some((false, false)),
        _ => None,
    }
}

pub(crate) fn operator_named(word: &str) -> Option<BinOp> {
    match word {
        "*" => Some(BinOp::Mul),
        "/" => Some(BinOp::Div),
        "%" => Some(BinOp::Rem),
        "+" => Some(BinOp::Add),
        "-" => Some(BinOp::Sub),
        "<<" => Some(BinOp::Shl),
        ">>" => Some(BinOp::Shr),
        "<" => Some(BinOp::Lt),
        ">" => Some(BinOp::Gt),
        "<=" => Some(BinOp::Le),
        ">=" => Some(BinOp::Ge),
        "==" => Some(BinOp::Eq),
        "!=" => Some(BinOp::Ne),
        "&" => Some(BinOp::BitAnd),
        "^" => Some(BinOp::BitXor),
        "|" => Some(BinOp::BitOr),
        _ => None,
    }
}

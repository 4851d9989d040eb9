//! Names of types (C11 6.7.2, 6.7.3 and 6.7.7).

ghost use Rattle.std.specs.Prelude.{◌≡◌, true};
ghost use Rattle.c_parse.specs.Reading.{no_specifiers};
ghost use Rattle.c_parse.specs.Types.{more, counted, integer_of, plain_integer_of, base_of, pointer_to};

use crate::symbols::{Part, TypeWord};
use c_tree::{CType, IntType, Pointee};

/// The words before a declarator: how often each part of an integer type stands, up to three times, how many whole types
/// stand and the last of them, and whether there is a `const`.
#[derive(Clone, Copy, Debug, PartialEq, Eq)]
pub struct Specifiers {
    pub char: u8,
    pub short: u8,
    pub int: u8,
    pub long: u8,
    pub signed: u8,
    pub unsigned: u8,
    pub wholes: u8,
    pub whole: CType,
    pub constant: bool,
}

/// No words.
pub fn no_specifiers() -> Specifiers
    ensures { result ≡ no_specifiers }
{
    Specifiers {
        char: 0,
        short: 0,
        int: 0,
        long: 0,
        signed: 0,
        unsigned: 0,
        wholes: 0,
        whole: CType::Void,
        constant: false,
    }
}

/// Specifiers with a `const`.
pub fn with_const(words: Specifiers) -> Specifiers
    ensures { result ≡ record words { constant = true } }
{
    Specifiers {
        constant: true,
        ..words
    }
}

fn more(n: u8) -> u8
    ensures { result ≡ more n }
{
    if n < 3 { n + 1 } else { n }
}

/// Specifiers with one word more.
pub fn counted(words: Specifiers, word: TypeWord) -> Specifiers
    ensures { result ≡ counted words word }
{
    match word {
        TypeWord::Part(Part::Char) => Specifiers {
            char: more(words.char),
            ..words
        },
        TypeWord::Part(Part::Short) => Specifiers {
            short: more(words.short),
            ..words
        },
        TypeWord::Part(Part::Int) => Specifiers {
            int: more(words.int),
            ..words
        },
        TypeWord::Part(Part::Long) => Specifiers {
            long: more(words.long),
            ..words
        },
        TypeWord::Part(Part::Signed) => Specifiers {
            signed: more(words.signed),
            ..words
        },
        TypeWord::Part(Part::Unsigned) => Specifiers {
            unsigned: more(words.unsigned),
            ..words
        },
        TypeWord::Whole(ty) => Specifiers {
            wholes: more(words.wholes),
            whole: ty,
            ..words
        },
    }
}

fn integer(words: Specifiers) -> Option<IntType>
    ensures { result ≡ integer_of words }
{
    let signs = words.signed == 0 || words.unsigned == 0;
    let once = words.char < 2 && words.short < 2 && words.int < 2 && words.long < 3;
    if !(signs && once && words.signed < 2 && words.unsigned < 2) {
        return None;
    }
    let unsigned = words.unsigned == 1;
    if words.char == 1 {
        let alone = words.short == 0 && words.int == 0 && words.long == 0;
        return if !alone {
            None
        } else if unsigned {
            Some(IntType::UChar)
        } else if words.signed == 1 {
            Some(IntType::SChar)
        } else {
            Some(IntType::Char)
        };
    }
    if words.short == 1 {
        return if words.long != 0 {
            None
        } else if unsigned {
            Some(IntType::UShort)
        } else {
            Some(IntType::Short)
        };
    }
    plain_integer(words)
}

// The same without `char` and `short`.
fn plain_integer(words: Specifiers) -> Option<IntType>
    ensures { result ≡ plain_integer_of words }
{
    let unsigned = words.unsigned == 1;
    if words.long == 1 {
        Some(if unsigned {
            IntType::ULong
        } else {
            IntType::Long
        })
    } else if words.long == 2 {
        Some(if unsigned {
            IntType::ULLong
        } else {
            IntType::LLong
        })
    } else if unsigned {
        Some(IntType::UInt)
    } else if words.int == 1 || words.signed == 1 {
        Some(IntType::Int)
    } else {
        None
    }
}

/// The type that specifiers name.
pub fn base(words: Specifiers) -> Option<CType>
    ensures { result ≡ base_of words }
{
    if words.wholes == 0 {
        return match integer(words) {
            Some(ty) => Some(CType::Int(ty)),
            None => None,
        };
    }
    let parts = words.char == 0 && words.short == 0 && words.int == 0 && words.long == 0;
    if words.wholes == 1 && parts && words.signed == 0 && words.unsigned == 0 {
        Some(words.whole)
    } else {
        None
    }
}

/// The type of a pointer to a type, which is const if told so.
pub fn pointer(to: Option<CType>, constant: bool) -> Option<CType>
    ensures { result ≡ pointer_to to constant }
{
    match to {
        Some(CType::Void) => Some(CType::Pointer(Pointee::Void, constant)),
        Some(CType::Int(ty)) => Some(CType::Pointer(Pointee::Int(ty), constant)),
        Some(CType::M128) => Some(CType::Pointer(Pointee::M128, constant)),
        Some(CType::M256) => Some(CType::Pointer(Pointee::M256, constant)),
        _ => None,
    }
}

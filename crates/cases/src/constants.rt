//! Texts of constants, and their types and values, which are those of gcc 64-bit (`_Generic`).

use c_constants::constant;
use c_text::TokenKind;
use lane_core::number::IntType;

static CONSTANTS: [(TokenKind, &[u8], IntType, i128); 43] = [
    (TokenKind::Number, b"0", IntType::Int, 0),
    (TokenKind::Number, b"017", IntType::Int, 15),
    (TokenKind::Number, b"0X1f", IntType::Int, 31),
    (TokenKind::Number, b"0xAbC", IntType::Int, 2748),
    (TokenKind::Number, b"0b101", IntType::Int, 5),
    (TokenKind::Number, b"0B11", IntType::Int, 3),
    (TokenKind::Number, b"2147483647", IntType::Int, 2147483647),
    (TokenKind::Number, b"2147483648", IntType::Long, 2147483648),
    (
        TokenKind::Number,
        b"9223372036854775807",
        IntType::Long,
        9223372036854775807,
    ),
    (TokenKind::Number, b"0x7fffffff", IntType::Int, 2147483647),
    (TokenKind::Number, b"0xffffffff", IntType::UInt, 4294967295),
    (TokenKind::Number, b"0x100000000", IntType::Long, 4294967296),
    (
        TokenKind::Number,
        b"0x8000000000000000",
        IntType::ULong,
        9223372036854775808,
    ),
    (
        TokenKind::Number,
        b"0xffffffffffffffff",
        IntType::ULong,
        18446744073709551615,
    ),
    (
        TokenKind::Number,
        b"037777777777",
        IntType::UInt,
        4294967295,
    ),
    (
        TokenKind::Number,
        b"01777777777777777777777",
        IntType::ULong,
        18446744073709551615,
    ),
    (
        TokenKind::Number,
        b"0b11111111111111111111111111111111",
        IntType::UInt,
        4294967295,
    ),
    (TokenKind::Number, b"1U", IntType::UInt, 1),
    (
        TokenKind::Number,
        b"4294967296u",
        IntType::ULong,
        4294967296,
    ),
    (
        TokenKind::Number,
        b"18446744073709551615u",
        IntType::ULong,
        18446744073709551615,
    ),
    (TokenKind::Number, b"1l", IntType::Long, 1),
    (
        TokenKind::Number,
        b"0x8000000000000000l",
        IntType::ULong,
        9223372036854775808,
    ),
    (TokenKind::Number, b"1uL", IntType::ULong, 1),
    (TokenKind::Number, b"1LU", IntType::ULong, 1),
    (TokenKind::Number, b"1ll", IntType::LLong, 1),
    (
        TokenKind::Number,
        b"0x8000000000000000ll",
        IntType::ULLong,
        9223372036854775808,
    ),
    (TokenKind::Number, b"1uLL", IntType::ULLong, 1),
    (TokenKind::Number, b"1LLu", IntType::ULLong, 1),
    (TokenKind::Quote, b"' '", IntType::Int, 32),
    (TokenKind::Quote, b"'\"'", IntType::Int, 34),
    (TokenKind::Quote, b"'\\''", IntType::Int, 39),
    (TokenKind::Quote, b"'\\?'", IntType::Int, 63),
    (TokenKind::Quote, b"'\\\\'", IntType::Int, 92),
    (TokenKind::Quote, b"'\\a'", IntType::Int, 7),
    (TokenKind::Quote, b"'\\v'", IntType::Int, 11),
    (TokenKind::Quote, b"'\\0'", IntType::Int, 0),
    (TokenKind::Quote, b"'\\12'", IntType::Int, 10),
    (TokenKind::Quote, b"'\\177'", IntType::Int, 127),
    (TokenKind::Quote, b"'\\200'", IntType::Int, -128),
    (TokenKind::Quote, b"'\\377'", IntType::Int, -1),
    (TokenKind::Quote, b"'\\x80'", IntType::Int, -128),
    (TokenKind::Quote, b"'\\xfF'", IntType::Int, -1),
    (TokenKind::Quote, b"'\\x00000041'", IntType::Int, 65),
];

static NO_CONSTANTS: [(TokenKind, &[u8]); 26] = [
    (TokenKind::Number, b"9223372036854775808"),
    (TokenKind::Number, b"18446744073709551616u"),
    (TokenKind::Number, b"0x10000000000000000"),
    (TokenKind::Number, b"0x"),
    (TokenKind::Number, b"0b"),
    (TokenKind::Number, b"0b2"),
    (TokenKind::Number, b"08"),
    (TokenKind::Number, b"0xg"),
    (TokenKind::Number, b"1lul"),
    (TokenKind::Number, b"1lL"),
    (TokenKind::Number, b"1lll"),
    (TokenKind::Number, b"1f"),
    (TokenKind::Number, b"1.5"),
    (TokenKind::Number, b".5"),
    (TokenKind::Number, b"1e5"),
    (TokenKind::Number, b"0x1p3"),
    (TokenKind::Number, b"12ab"),
    (TokenKind::Quote, b"''"),
    (TokenKind::Quote, b"'ab'"),
    (TokenKind::Quote, b"'\\x100'"),
    (TokenKind::Quote, b"'\\400'"),
    (TokenKind::Quote, b"'\\1234'"),
    (TokenKind::Quote, b"'\\x'"),
    (TokenKind::Quote, b"'\\8'"),
    (TokenKind::Quote, b"'\\q'"),
    (TokenKind::Quote, b"L'a'"),
];

#[test]
fn constants_have_their_types_and_values(rt: HostRuntime) {
    for (kind, text, ty, value) in CONSTANTS.iter() {
        let found = constant(*kind, text).map(|n| (n.ty, n.value));
        assert_eq!(rt; found, Some((*ty, *value)));
    }
    for (kind, text) in NO_CONSTANTS.iter() {
        assert!(rt; constant(*kind, text).is_none());
    }
}

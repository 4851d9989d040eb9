//! Words of types, read from texts.

use crate::reading::tokens_of;
use c_parse::{Symbol, base, counted, no_specifiers, pointer, token_symbol, with_const};
use c_text::Dialect;
use c_tree::{CType, IntType, NeonLane, Pointee};
use std::test::Fail;

// The type that the words of a text name, and whether `const` is among them. None where another symbol is.
fn named(rt: &HostRuntime, dialect: Dialect, text: &str) -> Result<Option<(CType, bool)>, Fail> {
    let tokens = tokens_of(rt.alloc(), text)?;
    let mut words = no_specifiers();
    for token in tokens.as_slice() {
        match token_symbol(dialect, token) {
            Symbol::Type(word) => words = counted(words, word),
            Symbol::Const => words = with_const(words),
            _ => return Ok(None),
        }
    }
    match base(words) {
        Some(ty) => Ok(Some((ty, words.constant))),
        None => Ok(None),
    }
}

#[test]
fn words_name_types(rt: HostRuntime) -> Result<(), Fail> {
    let int = |ty: IntType| Some((CType::Int(ty), false));
    let rows = [
        ("char", int(IntType::Char)),
        ("char unsigned", int(IntType::UChar)),
        ("int short signed", int(IntType::Short)),
        ("unsigned", int(IntType::UInt)),
        ("signed", int(IntType::Int)),
        ("long int", int(IntType::Long)),
        ("long unsigned int long", int(IntType::ULLong)),
        ("long unsigned", int(IntType::ULong)),
        ("size_t", int(IntType::ULong)),
        ("uint16_t", int(IntType::UShort)),
        ("__m256i", Some((CType::M256, false))),
        ("int const", Some((CType::Int(IntType::Int), true))),
        ("long long long", None),
        ("short long", None),
        ("char int", None),
        ("signed unsigned", None),
        ("unsigned uint8_t", None),
        ("const", None),
        ("int x", None),
        ("uint8x16_t", None),
    ];
    for (text, expected) in rows.iter() {
        assert_eq!(rt; named(&rt, Dialect::X86, *text)?, *expected, "{text}");
    }
    let wide = CType::Neon(NeonLane::U8, true);
    assert_eq!(rt;
        named(&rt, Dialect::Neon, "uint8x16_t")?,
        Some((wide, false))
    );
    assert_eq!(rt;
        pointer(Some(CType::M128), true),
        Some(CType::Pointer(Pointee::M128, true))
    );
    assert_eq!(rt; pointer(Some(wide), true), None);
    Ok(())
}

//! Integer constants, by ISO C11 6.4.4.1, with binary ones.

ghost use Rattle.std.specs.Prelude.{◌≡◌, ◌+◌, ◌*◌, ◌^◌, ◌≤◌, length, MatchOption, option_map, find};
ghost use Rattle.std.specs.List.{prefix_len};
ghost use Rattle.c_constants.specs.IntegerConstant.{base_of, behind_prefix, suffix_of, is_digit, digit_value, radix_of, number_of, types_of, fits, integer_constant};

use lane_core::number::{IntType, Num};

/// A constant's base.
#[derive(Clone, Copy, Debug, PartialEq, Eq)]
pub enum Base {
    Binary,
    Octal,
    Decimal,
    Hexadecimal,
}

/// A constant's suffix, whatever the case and the order of its letters.
#[derive(Clone, Copy, Debug, PartialEq, Eq)]
pub enum Suffix {
    Plain,
    U,
    L,
    Ul,
    Ll,
    Ull,
}

fn base_of(text: &[u8]) -> Base
    ensures { result ≡ base_of text.now }
{
    match text {
        [b'0', b'x' | b'X', ..] => Base::Hexadecimal,
        [b'0', b'b' | b'B', ..] => Base::Binary,
        [b'0', ..] => Base::Octal,
        _ => Base::Decimal,
    }
}

pub fn is_digit(base: Base, byte: u8) -> bool
    ensures { result ≡ is_digit base byte }
{
    match base {
        Base::Binary => byte >= b'0' && byte <= b'1',
        Base::Octal => byte >= b'0' && byte <= b'7',
        Base::Decimal => byte >= b'0' && byte <= b'9',
        Base::Hexadecimal => {
            byte >= b'0' && byte <= b'9'
                || byte >= b'A' && byte <= b'F'
                || byte >= b'a' && byte <= b'f'
        }
    }
}

fn digit_value(byte: u8) -> u8
    ensures { result ≡ digit_value byte }
{
    if byte <= b'9' {
        byte.saturating_sub(b'0')
    } else if byte <= b'F' {
        byte.saturating_sub(b'A') + 10
    } else {
        byte.saturating_sub(b'a') + 10
    }
}

fn suffix_of(bytes: &[u8]) -> Option<Suffix>
    ensures { result ≡ suffix_of bytes.now }
{
    match bytes {
        b"" => Some(Suffix::Plain),
        b"u" | b"U" => Some(Suffix::U),
        b"l" | b"L" => Some(Suffix::L),
        b"ll" | b"LL" => Some(Suffix::Ll),
        b"ul" | b"uL" | b"Ul" | b"UL" | b"lu" | b"lU" | b"Lu" | b"LU" => Some(Suffix::Ul),
        b"ull" | b"uLL" | b"Ull" | b"ULL" | b"llu" | b"llU" | b"LLu" | b"LLU" => Some(Suffix::Ull),
        _ => None,
    }
}

fn radix_of(base: Base) -> u64
    ensures { result ≡ radix_of base }
{
    match base {
        Base::Binary => 2,
        Base::Octal => 8,
        Base::Decimal => 10,
        Base::Hexadecimal => 16,
    }
}

// The number with one more digit behind it, if it has at most 64 bits.
fn with_digit(base: Base, number: u64, digit: u8) -> Option<u64>
    ensures { MatchOption result
        (2 ^ 64 ≤ number * radix_of base + digit_value digit)
        (λ n. n ≡ number * radix_of base + digit_value digit) }
{
    number
        .checked_mul(radix_of(base))?
        .checked_add(u64::from(digit_value(digit)))
}

/// The number that these digits write, if it has at most 64 bits.
#[tactic(auto, using(crate::proofs::Numbers::number_step, crate::proofs::Numbers::number_over))]
pub fn number(base: Base, digits: &[u8]) -> Option<u64>
    ensures { MatchOption result
        (2 ^ 64 ≤ number_of (radix_of base) digits.now)
        (λ n. n ≡ number_of (radix_of base) digits.now) }
{
    let mut number = 0;
    for digit in digits {
        number = with_digit(base, number, *digit)?;
    }
    Some(number)
}

// What stands behind the base's prefix.
fn behind_prefix(text: &[u8]) -> &[u8]
    ensures { result.now ≡ behind_prefix text.now }
{
    match text {
        [b'0', b'x' | b'X' | b'b' | b'B', rest @ ..] => rest,
        _ => text,
    }
}

#[tactic(auto, using(crate::proofs::Numbers::prefixes))]
fn digit_count(base: Base, body: &[u8]) -> usize
    ensures value { result ≡ prefix_len (is_digit base) body.now }
    ensures within { result ≤ length body.now }
{
    body.iter()
        .take_while(|byte| is_digit(base, **byte))
        .count()
}

fn types_of(base: Base, suffix: Suffix) -> &'static [IntType]
    ensures { result.now ≡ types_of suffix base }
{
    match (suffix, base) {
        (Suffix::Plain, Base::Decimal) => &[IntType::Int, IntType::Long, IntType::LLong],
        (Suffix::Plain, _) => {
            &[
                IntType::Int,
                IntType::UInt,
                IntType::Long,
                IntType::ULong,
                IntType::LLong,
                IntType::ULLong,
            ]
        }
        (Suffix::U, _) => &[IntType::UInt, IntType::ULong, IntType::ULLong],
        (Suffix::L, Base::Decimal) => &[IntType::Long, IntType::LLong],
        (Suffix::L, _) => &[
            IntType::Long,
            IntType::ULong,
            IntType::LLong,
            IntType::ULLong,
        ],
        (Suffix::Ul, _) => &[IntType::ULong, IntType::ULLong],
        (Suffix::Ll, Base::Decimal) => &[IntType::LLong],
        (Suffix::Ll, _) => &[IntType::LLong, IntType::ULLong],
        (Suffix::Ull, _) => &[IntType::ULLong],
    }
}

fn fits(number: u64, ty: IntType) -> bool
    ensures { result ≡ fits number ty }
{
    let greatest = match ty {
        IntType::Boolean => 1,
        IntType::Char | IntType::SChar => 0x7f,
        IntType::UChar => 0xff,
        IntType::Short => 0x7fff,
        IntType::UShort => 0xffff,
        IntType::Int => 0x7fff_ffff,
        IntType::UInt => 0xffff_ffff,
        IntType::Long | IntType::LLong => 0x7fff_ffff_ffff_ffff,
        IntType::ULong | IntType::ULLong => u64::MAX,
    };
    number <= greatest
}

// The first type in which the number fits.
fn first_type(number: u64, types: &[IntType]) -> Option<IntType>
    ensures { result ≡ find (fits number) types.now }
{
    types.iter().copied().find(|ty| fits(number, *ty))
}

/// The number that an integer constant is, with its type.
pub fn integer_constant(text: &[u8]) -> Option<Num>
    ensures { option_map (λ n. (n.ty, n.value)) result ≡ integer_constant text.now }
{
    let base = base_of(text);
    let body = behind_prefix(text);
    let (digits, rest) = body.split_at(digit_count(base, body));
    if digits.is_empty() {
        return None;
    }
    let types = types_of(base, suffix_of(rest)?);
    let number = number(base, digits)?;
    let ty = first_type(number, types)?;
    Some(Num {
        ty,
        value: i128::from(number),
    })
}

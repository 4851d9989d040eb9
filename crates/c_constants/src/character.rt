//! Character constants, by ISO C11 6.4.4.4.

ghost use Rattle.std.specs.Prelude.{◌≡◌, ◌+◌, ◌*◌, ◌^◌, ◌<◌, ◌≤◌, length, MatchOption, option_map, option_copied};
ghost use Rattle.std.specs.List.{list_all};
ghost use Rattle.c_constants.specs.IntegerConstant.{is_digit, number_of, radix_of};
ghost use Rattle.c_constants.specs.CharacterConstant.{simple_escapes, small_number, escape_value, is_plain, member_value, between_marks, signed_byte, character_constant};
ghost use Rattle.std.specs.Map.{lookup};
ghost use Rattle.std.specs.Prelude.{nat_eq};

use crate::integer::{Base, is_digit, number};
use lane_core::number::{IntType, Num};

fn simple_escape(letter: u8) -> Option<u8>
    ensures { result ≡ lookup (nat_eq letter) simple_escapes }
{
    match letter {
        b'\'' | b'"' | b'?' | b'\\' => Some(letter),
        b'a' => Some(7),
        b'b' => Some(8),
        b'f' => Some(12),
        b'n' => Some(b'\n'),
        b'r' => Some(b'\r'),
        b't' => Some(b'\t'),
        b'v' => Some(11),
        _ => None,
    }
}

fn are_digits(base: Base, bytes: &[u8]) -> bool
    ensures { result ≡ list_all (is_digit base) bytes.now }
{
    bytes.iter().all(|byte| is_digit(base, *byte))
}

// The number that the digits write, if it is at most 255.
fn small_number(base: Base, digits: &[u8]) -> Option<u8>
    ensures { result ≡ small_number base digits.now }
{
    if digits.is_empty() || !are_digits(base, digits) {
        return None;
    }
    let value = number(base, digits)?;
    if value > 255 {
        return None;
    }
    Some(value as u8)
}

// The value of an escape, of what stands behind its backslash.
fn escape_value(rest: &[u8]) -> Option<u8>
    ensures { result ≡ escape_value rest.now }
{
    match rest {
        [] => None,
        [b'x', digits @ ..] => small_number(Base::Hexadecimal, digits),
        [b'0'..=b'7'] | [b'0'..=b'7', _] | [b'0'..=b'7', _, _] => small_number(Base::Octal, rest),
        [letter] => simple_escape(*letter),
        _ => None,
    }
}

// The value of what stands between the marks.
fn member_value(inner: &[u8]) -> Option<u8>
    ensures { result ≡ member_value inner.now }
{
    match inner {
        [b'\\', rest @ ..] => escape_value(rest),
        [b'\'' | b'\n'] => None,
        [plain] => Some(*plain),
        _ => None,
    }
}

// What stands between the marks.
fn between_marks(text: &[u8]) -> Option<&[u8]>
    ensures { option_copied result ≡ between_marks text.now }
{
    match text {
        [b'\'', inner @ .., b'\''] => Some(inner),
        _ => None,
    }
}

/// A byte read as a signed number of 8 bits.
fn signed_byte(byte: u8) -> i128
    ensures { result ≡ signed_byte byte }
{
    if byte < 128 {
        i128::from(byte)
    } else {
        i128::from(byte) - 256
    }
}

/// The number that a character constant is, with its type.
pub fn character_constant(text: &[u8]) -> Option<Num>
    ensures { option_map (λ n. (n.ty, n.value)) result ≡ character_constant text.now }
{
    let value = member_value(between_marks(text)?)?;
    Some(Num {
        ty: IntType::Int,
        value: signed_byte(value),
    })
}

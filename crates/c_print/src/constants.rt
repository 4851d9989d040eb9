//! Integer constants.

ghost use Rattle.std.specs.Prelude.{◌≡◌, ◌++◌, unsigned_abs, OnOk};
ghost use Rattle.c_print.specs.Constants.{suffix_text, hex_digits, is_in_hex, digits_text, magnitude_text, sign_text, constant_text};
ghost use Rattle.lane_core.specs.IntRange.{is_signed};

use crate::types::write_decimal;
use c_tree::{IntType, Num};
use std::alloc::AllocError;

/// The suffix of a type.
fn suffix_text(ty: IntType) -> &'static [u8]
    ensures { result.now ≡ suffix_text ty }
{
    match ty {
        IntType::UInt => b"U",
        IntType::Long => b"L",
        IntType::ULong => b"UL",
        IntType::LLong => b"LL",
        IntType::ULLong => b"ULL",
        _ => b"",
    }
}

fn is_signed(ty: IntType) -> bool
    ensures { result ≡ is_signed ty }
{
    matches!(
        ty,
        IntType::Char
            | IntType::SChar
            | IntType::Short
            | IntType::Int
            | IntType::Long
            | IntType::LLong
    )
}

/// The sixteen digits of a number in base 16.
fn write_hex(out: &mut Vec<u8>, n: u64) -> Result<(), AllocError>
    ensures { OnOk result (out.new.items ≡ out.old.items ++ hex_digits 16 n) }
{
    let text = hex_of(n);
    out.extend_from_slice(&text)
}

/// These digits.
#[tactic(auto, using(crate::proofs::Digits::digits_of_bytes))]
fn hex_of(n: u64) -> [u8; 16]
    ensures { result ≡ hex_digits 16 n }
{
    let mut text = [0; 16];
    hex::encode_to_slice(n.to_be_bytes(), &mut text).unwrap();
    text
}

/// Whether a number of this type is written in base 16.
fn is_in_hex(ty: IntType, n: u64) -> bool
    ensures { result ≡ is_in_hex ty n }
{
    !is_signed(ty) && n >= 4294967296
}

/// The digits of a number that isn't negative.
fn write_digits(out: &mut Vec<u8>, ty: IntType, n: u64) -> Result<(), AllocError>
    ensures { OnOk result (out.new.items ≡ out.old.items ++ digits_text ty n) }
{
    if is_in_hex(ty, n) {
        out.extend_from_slice(b"0x")?;
        write_hex(out, n)
    } else {
        write_decimal(out, n)
    }
}

/// A number that isn't negative, with its type's suffix.
fn write_magnitude(out: &mut Vec<u8>, ty: IntType, n: u64) -> Result<(), AllocError>
    ensures { OnOk result (out.new.items ≡ out.old.items ++ magnitude_text ty n) }
{
    write_digits(out, ty, n)?;
    out.extend_from_slice(suffix_text(ty))
}

/// A number without its sign.
fn magnitude(n: Num) -> u64
    ensures { result ≡ unsigned_abs n.value }
{
    n.value.unsigned_abs() as u64
}

/// The sign of a negative number.
fn sign_text(n: i128) -> &'static [u8]
    ensures { result.now ≡ sign_text n }
{
    if n < 0 { b"-" } else { b"" }
}

/// An integer constant.
pub fn write_constant(out: &mut Vec<u8>, n: Num) -> Result<(), AllocError>
    ensures { OnOk result (out.new.items ≡ out.old.items ++ constant_text n) }
{
    out.extend_from_slice(sign_text(n.value))?;
    write_magnitude(out, n.ty, magnitude(n))
}

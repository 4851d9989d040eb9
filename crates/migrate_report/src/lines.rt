//! Refusals as lines.

ghost use Rattle.std.specs.Prelude.{◌≡◌, ◌++◌, IfOk, OnOk, decimal};
ghost use Rattle.migrate_report.specs.Lines.{name_of, place_text, name_text, refusal_line, refusal_lines};

use c_text::{Place, Refusal, refusal_name};
use itoa::Buffer;
use std::alloc::{AllocError, Global};

/// A number in decimal.
pub fn write_decimal(out: &mut Vec<u8>, n: u64) -> Result<(), AllocError>
    ensures { OnOk result (out.new.items ≡ out.old.items ++ decimal n) }
{
    let mut digits = Buffer::new();
    out.extend_from_slice(digits.format(n).as_bytes())
}

/// `LINE:COL: `.
fn write_place(out: &mut Vec<u8>, place: Place) -> Result<(), AllocError>
    ensures { OnOk result (out.new.items ≡ out.old.items ++ place_text place) }
{
    write_decimal(out, u64::from(place.line))?;
    out.extend_from_slice(b":")?;
    write_decimal(out, u64::from(place.col))?;
    out.extend_from_slice(b": ")
}

/// The name of a refusal's number, which is from 1 to 22.
fn name_of(number: u8) -> &'static [u8]
    ensures { result.now ≡ name_of number }
{
    if number >= 1 && number <= 22 {
        refusal_name(number).as_bytes()
    } else {
        b""
    }
}

/// `NUMBER NAME `.
#[tactic(auto, unfolding(crate::specs::Lines::name_text))]
fn write_name(out: &mut Vec<u8>, number: u8) -> Result<(), AllocError>
    ensures { OnOk result (out.new.items ≡ out.old.items ++ name_text number) }
{
    write_decimal(out, u64::from(number))?;
    out.extend_from_slice(b" ")?;
    out.extend_from_slice(name_of(number))?;
    out.extend_from_slice(b" ")
}

fn write_line(out: &mut Vec<u8>, refusal: &Refusal) -> Result<(), AllocError>
    ensures { OnOk result (out.new.items ≡ out.old.items ++ refusal_line refusal.now) }
{
    write_place(out, refusal.place)?;
    write_name(out, refusal.number)?;
    out.extend_from_slice(refusal.detail.bytes())?;
    out.extend_from_slice(b"\n")
}

/// A line for each refusal, `LINE:COL: NUMBER NAME DETAIL`. The only error is want of memory.
///
/// A number has a name from 1 to 22; outside that the name is empty.
pub fn refusal_lines(alloc: Global, list: &[Refusal]) -> Result<Vec<u8>, AllocError>
    ensures lines { IfOk result (λ text. text.items ≡ refusal_lines list.now) }
{
    let mut out = Vec::new(alloc);
    for refusal in list {
        write_line(&mut out, refusal)?;
    }
    Ok(out)
}

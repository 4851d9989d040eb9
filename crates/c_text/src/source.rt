//! The bytes that a source shows: each with its place, line ends and splices resolved (C11 5.1.1.2, phases 1 and 2).

ghost use Rattle.std.specs.Prelude.{◌≡◌, ◌^◌, ◌<◌, ◌++◌, length, false, IfOk, OnOk};
ghost use Rattle.c_text.specs.Source.{without_order_mark, placed, line_ends, spliced, shown, bytes_of};
ghost use Rattle.c_text.specs.Splicing.{begins_line_end, is_left_out, splices, kept};

use crate::tokens::Place;
use std::alloc::{AllocError, Global};

/// A byte, and where it stands in the source.
#[derive(Clone, Copy, Debug)]
pub struct Placed {
    pub byte: u8,
    pub place: Place,
}

fn without_order_mark(source: &[u8]) -> &[u8]
    ensures { result.now ≡ without_order_mark source.now }
{
    if source.len() >= 3 && (source[0] == 0xef && (source[1] == 0xbb && source[2] == 0xbf)) {
        &source[3..]
    } else {
        source
    }
}

fn begins_line_end(text: &[u8]) -> bool
    ensures { result ≡ begins_line_end text.now }
{
    text.len() > 0
        && (text[0] == b'\n' || (text[0] == b'\r' && (text.len() > 1 && text[1] == b'\n')))
}

// Whether a byte is part of a splice, or the first of the two bytes of a line end.
fn is_left_out(behind: bool, b: u8, rest: &[u8]) -> bool
    ensures { result ≡ is_left_out behind b rest.now }
{
    (b == b'\r' && (rest.len() > 0 && rest[0] == b'\n'))
        || ((b == b'\\' && begins_line_end(rest)) || (behind && b == b'\n'))
}

// Whether a line end that follows a byte is spliced.
fn splices(behind: bool, b: u8, rest: &[u8]) -> bool
    ensures { result ≡ splices behind b rest.now }
{
    if b == b'\r' && (rest.len() > 0 && rest[0] == b'\n') {
        behind
    } else {
        b == b'\\'
    }
}

fn keep(out: &mut Vec<Placed>, left_out: bool, c: Placed) -> Result<(), AllocError>
    ensures { OnOk result (out.new.items ≡ out.old.items ++ kept left_out c) }
{
    if !left_out {
        out.push(c)?;
    }
    Ok(())
}

#[tactic(auto, using(crate::proofs::Spliced::front_begin, crate::proofs::Spliced::front_next, crate::proofs::Spliced::front_end))]
fn splice(alloc: Global, text: &[u8]) -> Result<Vec<Placed>, AllocError>
    requires { length text.now < 2 ^ 32 }
    ensures { IfOk result (λ v. v.items ≡ spliced false (line_ends (placed 1 1 text.now))) }
{
    let mut out = Vec::new(alloc);
    let mut line: usize = 1;
    let mut col: usize = 1;
    let mut behind = false;
    let mut rest = text;
    while let Some((b, others)) = rest.split_first() {
        let byte = *b;
        let place = Place {
            line: line as u32,
            col: col as u32,
        };
        let left_out = is_left_out(behind, byte, others);
        keep(&mut out, left_out, Placed { byte, place })?;
        behind = splices(behind, byte, others);
        if byte == b'\n' {
            line += 1;
            col = 1;
        } else {
            col += 1;
        }
        rest = others;
    }
    Ok(out)
}

/// The bytes that a source shows, with their places.
pub fn shown(alloc: Global, source: &[u8]) -> Result<Vec<Placed>, AllocError>
    requires { length source.now < 2 ^ 32 }
    ensures { IfOk result (λ v. v.items ≡ shown source.now) }
{
    splice(alloc, without_order_mark(source))
}

/// The bytes alone.
pub fn bytes_of(alloc: Global, chars: &[Placed]) -> Result<Vec<u8>, AllocError>
    ensures { IfOk result (λ v. v.items ≡ bytes_of chars.now) }
{
    let mut out = Vec::new(alloc);
    for c in chars {
        out.push(c.byte)?;
    }
    Ok(out)
}

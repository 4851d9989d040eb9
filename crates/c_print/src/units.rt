//! Functions, tables and units.

ghost use Rattle.std.specs.Prelude.{◌≡◌, ◌++◌, codes, map, OnOk, IfOk};
ghost use Rattle.c_tree.specs.View.{view_function, view_item, view_unit};
ghost use Rattle.c_print.specs.Text.{static_text, inline_text, result_text, heading_text, function_text, item_text, items_text, header, text_of};

use crate::declarations::{star_text, write_declaration, write_parameters};
use crate::statements::write_block;
use crate::types::{base_text, const_text, is_base_const};
use c_tree::{Function, Item, Unit};
use std::alloc::{AllocError, Global};
use std::slice;

fn static_text(stands: bool) -> &'static [u8]
    ensures { result.now ≡ static_text stands }
{
    if stands { b"static " } else { b"" }
}

fn inline_text(stands: bool) -> &'static [u8]
    ensures { result.now ≡ inline_text stands }
{
    if stands { b"inline " } else { b"" }
}

/// A function's result, with the space or the `*` before its name.
fn write_result(out: &mut Vec<u8>, f: &Function) -> Result<(), AllocError>
    ensures { OnOk result (out.new.items ≡ out.old.items ++ result_text (view_function f.now)) }
{
    out.extend_from_slice(const_text(is_base_const(f.result)))?;
    out.extend_from_slice(base_text(f.result))?;
    out.extend_from_slice(b" ")?;
    out.extend_from_slice(star_text(f.result, false))
}

fn write_heading(out: &mut Vec<u8>, f: &Function) -> Result<(), AllocError>
    ensures { OnOk result (out.new.items ≡ out.old.items ++ heading_text (view_function f.now)) }
{
    out.extend_from_slice(static_text(f.is_static))?;
    out.extend_from_slice(inline_text(f.is_inline))?;
    write_result(out, f)?;
    out.extend_from_slice(f.name.bytes())?;
    out.extend_from_slice(b"(")?;
    write_parameters(out, f.params.as_slice())?;
    out.extend_from_slice(b") ")
}

fn write_function(alloc: Global, out: &mut Vec<u8>, f: &Function) -> Result<(), AllocError>
    ensures { OnOk result (out.new.items ≡ out.old.items ++ function_text (view_function f.now)) }
{
    write_heading(out, f)?;
    write_block(alloc, out, 0, f.body.as_slice())?;
    out.extend_from_slice(b"\n")
}

/// A function or a table.
fn write_item(alloc: Global, out: &mut Vec<u8>, item: &Item) -> Result<(), AllocError>
    ensures { OnOk result (out.new.items ≡ out.old.items ++ item_text (view_item item.now)) }
{
    match item {
        Item::Function(f) => write_function(alloc, out, f),
        Item::Table(d, is_static) => {
            out.extend_from_slice(static_text(*is_static))?;
            write_declaration(alloc, out, slice::from_ref(d))?;
            out.extend_from_slice(b";\n")
        }
    }
}

/// Functions and tables, each behind an empty line.
fn write_items(alloc: Global, out: &mut Vec<u8>, all: &[Item]) -> Result<(), AllocError>
    ensures { OnOk result (out.new.items ≡ out.old.items ++ items_text (map view_item all.now)) }
{
    for item in all {
        out.extend_from_slice(b"\n")?;
        write_item(alloc, out, item)?;
    }
    Ok(())
}

#[tactic(auto, unfolding(crate::specs::Text::header))]
fn header() -> &'static [u8]
    ensures { result.now ≡ header }
{
    b"#include <arm_neon.h>\n#include <stddef.h>\n#include <stdint.h>\n"
}

/// The text of a unit, as `specs/Text.antt` says it, byte by byte. The only error is want of memory.
///
/// The body of an `if`, an `else` or a loop is written in braces, also where it isn't a block. An `if` directly behind an
/// `else` has none.
pub fn print(alloc: Global, unit: &Unit) -> Result<Vec<u8>, AllocError>
    ensures text { IfOk result (λ t. t.items ≡ text_of (view_unit unit.now)) }
{
    let mut out = Vec::from_slice(alloc, header())?;
    write_items(alloc, &mut out, unit.items.as_slice())?;
    Ok(out)
}

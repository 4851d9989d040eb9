//! Declarations.

ghost use Rattle.std.specs.Prelude.{◌≡◌, ◌++◌, codes, map, option_map, OnOk, IfOk};
ghost use Rattle.c_tree.specs.View.{view, views, view_declared};
ghost use Rattle.c_print.specs.Expressions.{list_text};
ghost use Rattle.c_print.specs.Declarations.{has_const, specifiers_text, star_text, length_text, brackets_text, declarator_text, alignas_opening, attribute_opening, alignas_text, attribute_text, have_alignment, is_shared, shared_text, own_text, init_text, init_list_text, declared_text, further_text, declaration_with, declaration_text, parameter_text, further_parameters, parameters_text};

use crate::expressions::{write_list, write_part};
use crate::types::{base_text, const_text};
use c_tree::{CType, Declared, Expr};
use std::alloc::{AllocError, Global};

/// Whether `const` stands before the type: a pointer has it for what it points to.
fn has_const(ty: CType, constant: bool) -> bool
    ensures { result ≡ has_const ty constant }
{
    match ty {
        CType::Pointer(_, base) => base,
        CType::Array(_, _, base) => base || constant,
        _ => constant,
    }
}

/// What a declaration begins with, for a pointer without the `*` and for an array without the brackets.
fn write_specifiers(out: &mut Vec<u8>, d: &Declared) -> Result<(), AllocError>
    ensures { OnOk result (out.new.items ≡ out.old.items ++ specifiers_text (view_declared d.now)) }
{
    out.extend_from_slice(const_text(has_const(d.ty, d.constant)))?;
    out.extend_from_slice(base_text(d.ty))?;
    out.extend_from_slice(b" ")
}

/// A pointer's `*`, and `const` for a pointer that is const itself.
pub fn star_text(ty: CType, constant: bool) -> &'static [u8]
    ensures { result.now ≡ star_text ty constant }
{
    match (ty, constant) {
        (CType::Pointer(_, _), true) => b"*const ",
        (CType::Pointer(_, _), false) => b"*",
        _ => b"",
    }
}

/// An array's length, where it is written.
fn write_length(out: &mut Vec<u8>, length: &Option<Expr>) -> Result<(), AllocError>
    ensures { OnOk result (out.new.items ≡ out.old.items ++ length_text (option_map view length.now)) }
{
    match length {
        None => Ok(()),
        Some(n) => write_part(out, 1, n),
    }
}

/// An array's brackets.
fn write_brackets(out: &mut Vec<u8>, ty: CType, length: &Option<Expr>) -> Result<(), AllocError>
    ensures { OnOk result (out.new.items ≡ out.old.items ++ brackets_text ty (option_map view length.now)) }
{
    match ty {
        CType::Array(_, _, _) => {
            out.extend_from_slice(b"[")?;
            write_length(out, length)?;
            out.extend_from_slice(b"]")
        }
        _ => Ok(()),
    }
}

fn write_declarator(out: &mut Vec<u8>, d: &Declared) -> Result<(), AllocError>
    ensures { OnOk result (out.new.items ≡ out.old.items ++ declarator_text (view_declared d.now)) }
{
    out.extend_from_slice(star_text(d.ty, d.constant))?;
    out.extend_from_slice(d.name.bytes())?;
    write_brackets(out, d.ty, &d.length)
}

#[tactic(auto, unfolding(crate::specs::Declarations::alignas_opening))]
fn alignas_opening() -> &'static [u8]
    ensures { result.now ≡ alignas_opening }
{
    b"_Alignas("
}

#[tactic(auto, unfolding(crate::specs::Declarations::attribute_opening))]
fn attribute_opening() -> &'static [u8]
    ensures { result.now ≡ attribute_opening }
{
    b" __attribute__((aligned("
}

/// The alignment of all declarators.
fn write_alignas(out: &mut Vec<u8>, align: &Option<Expr>) -> Result<(), AllocError>
    ensures { OnOk result (out.new.items ≡ out.old.items ++ alignas_text (option_map view align.now)) }
{
    match align {
        None => Ok(()),
        Some(n) => {
            out.extend_from_slice(alignas_opening())?;
            write_part(out, 2, n)?;
            out.extend_from_slice(b") ")
        }
    }
}

/// The alignment of one declarator, behind it.
fn write_attribute(out: &mut Vec<u8>, align: &Option<Expr>) -> Result<(), AllocError>
    ensures { OnOk result (out.new.items ≡ out.old.items ++ attribute_text (option_map view align.now)) }
{
    match align {
        None => Ok(()),
        Some(n) => {
            out.extend_from_slice(attribute_opening())?;
            write_part(out, 2, n)?;
            out.extend_from_slice(b")))")
        }
    }
}

/// The text of one declarator's alignment.
fn attribute_of(alloc: Global, align: &Option<Expr>) -> Result<Vec<u8>, AllocError>
    ensures { IfOk result (λ text. text.items ≡ attribute_text (option_map view align.now)) }
{
    let mut text = Vec::new(alloc);
    write_attribute(&mut text, align)?;
    Ok(text)
}

/// Whether the text of each one's alignment is this.
fn have_alignment(alloc: Global, wanted: &[u8], all: &[Declared]) -> Result<bool, AllocError>
    ensures { IfOk result (λ b. b ≡ have_alignment wanted.now (map view_declared all.now)) }
{
    for d in all {
        let text = attribute_of(alloc, &d.align)?;
        if text.as_slice() != wanted {
            return Ok(false);
        }
    }
    Ok(true)
}

/// Whether all have the same alignment.
fn is_shared(alloc: Global, all: &[Declared]) -> Result<bool, AllocError>
    ensures { IfOk result (λ b. b ≡ is_shared (map view_declared all.now)) }
{
    match all.split_first() {
        None => Ok(true),
        Some((first, others)) => {
            let wanted = attribute_of(alloc, &first.align)?;
            have_alignment(alloc, wanted.as_slice(), others)
        }
    }
}

/// The alignment before the type, where all share it.
fn write_shared(out: &mut Vec<u8>, shared: bool, align: &Option<Expr>) -> Result<(), AllocError>
    ensures { OnOk result (out.new.items ≡ out.old.items ++ shared_text shared (option_map view align.now)) }
{
    if shared {
        write_alignas(out, align)
    } else {
        Ok(())
    }
}

/// The alignment behind a declarator, where all don't share one.
fn write_own(out: &mut Vec<u8>, shared: bool, align: &Option<Expr>) -> Result<(), AllocError>
    ensures { OnOk result (out.new.items ≡ out.old.items ++ own_text shared (option_map view align.now)) }
{
    if shared {
        Ok(())
    } else {
        write_attribute(out, align)
    }
}

/// What a scalar or a vector begins with.
fn write_init(out: &mut Vec<u8>, init: &Option<Expr>) -> Result<(), AllocError>
    ensures { OnOk result (out.new.items ≡ out.old.items ++ init_text (option_map view init.now)) }
{
    match init {
        None => Ok(()),
        Some(e) => {
            out.extend_from_slice(b" = ")?;
            write_part(out, 1, e)
        }
    }
}

/// What an array begins with.
fn write_init_list(out: &mut Vec<u8>, list: &Option<Vec<Expr>>) -> Result<(), AllocError>
    ensures { OnOk result (out.new.items ≡ out.old.items ++ init_list_text (option_map (λ l. views l.items) list.now)) }
{
    match list {
        None => Ok(()),
        Some(all) => {
            out.extend_from_slice(b" = {")?;
            write_list(out, all.as_slice())?;
            out.extend_from_slice(b"}")
        }
    }
}

/// A declarator with its own alignment, where all don't share one, and its initialiser.
fn write_declared(out: &mut Vec<u8>, shared: bool, d: &Declared) -> Result<(), AllocError>
    ensures { OnOk result (out.new.items ≡ out.old.items ++ declared_text shared (view_declared d.now)) }
{
    write_declarator(out, d)?;
    write_own(out, shared, &d.align)?;
    write_init(out, &d.init)?;
    write_init_list(out, &d.list)
}

/// Further declarators.
fn write_further(out: &mut Vec<u8>, shared: bool, all: &[Declared]) -> Result<(), AllocError>
    ensures { OnOk result (out.new.items ≡ out.old.items ++ further_text shared (map view_declared all.now)) }
{
    for d in all {
        out.extend_from_slice(b", ")?;
        write_declared(out, shared, d)?;
    }
    Ok(())
}

/// A declaration of one object or more, without its `;`.
fn write_declaration_with(
    out: &mut Vec<u8>,
    shared: bool,
    first: &Declared,
    others: &[Declared],
) -> Result<(), AllocError>
    ensures { OnOk result (out.new.items ≡ out.old.items ++ declaration_with shared (view_declared first.now) (map view_declared others.now)) }
{
    write_shared(out, shared, &first.align)?;
    write_specifiers(out, first)?;
    write_declared(out, shared, first)?;
    write_further(out, shared, others)
}

/// A declaration without its `;`.
pub fn write_declaration(
    alloc: Global,
    out: &mut Vec<u8>,
    all: &[Declared],
) -> Result<(), AllocError>
    ensures { OnOk result (out.new.items ≡ out.old.items ++ declaration_text (map view_declared all.now)) }
{
    let shared = is_shared(alloc, all)?;
    match all.split_first() {
        None => Ok(()),
        Some((first, others)) => write_declaration_with(out, shared, first, others),
    }
}

fn write_parameter(out: &mut Vec<u8>, d: &Declared) -> Result<(), AllocError>
    ensures { OnOk result (out.new.items ≡ out.old.items ++ parameter_text (view_declared d.now)) }
{
    write_specifiers(out, d)?;
    write_declarator(out, d)
}

/// Further parameters.
fn write_further_parameters(out: &mut Vec<u8>, all: &[Declared]) -> Result<(), AllocError>
    ensures { OnOk result (out.new.items ≡ out.old.items ++ further_parameters (map view_declared all.now)) }
{
    for d in all {
        out.extend_from_slice(b", ")?;
        write_parameter(out, d)?;
    }
    Ok(())
}

/// The parameters of a function.
pub fn write_parameters(out: &mut Vec<u8>, all: &[Declared]) -> Result<(), AllocError>
    ensures { OnOk result (out.new.items ≡ out.old.items ++ parameters_text (map view_declared all.now)) }
{
    match all.split_first() {
        None => out.extend_from_slice(b"void"),
        Some((first, others)) => {
            write_parameter(out, first)?;
            write_further_parameters(out, others)
        }
    }
}

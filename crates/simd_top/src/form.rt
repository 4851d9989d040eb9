//! Whether a unit is of the first form.

ghost use Rattle.std.specs.Prelude.{◌≡◌, [], true, false, map, IfOk, IfSome, IfNone, Some, None};
ghost use Rattle.c_text.specs.declared.tokens.Dialect.TheVariants.{Neon};
ghost use Rattle.c_text.specs.Forms.{is_letter, is_name_byte, all_are, is_name};
ghost use Rattle.c_parse.specs.Symbols.{name_symbol};
ghost use Rattle.c_tree.specs.View.{view, view_kind, views, view_declared, view_stmt, view_stmts, view_function, view_item};
ghost use Rattle.simd_top.specs.Form.{is_in, is_plain_name, is_free, is_expression, is_kind, are_expressions, are_two, is_one, is_end, is_register, is_plain, is_parameter, are_parameters, names_of, returns, are_none, is_body, has_one, is_heading, is_function, is_item, item_name, item_place, outside, first_outside};
ghost use Rattle.simd_top.specs.NameSets.{names_in, AreNames};

use crate::names::NameSet;
use crate::rows::intel_row;
use c_parse::{Symbol, token_symbol};
use c_text::{Dialect, Place, Refusal, Text, Token, TokenKind, shortened};
use c_tree::{CType, Declared, Expr, ExprKind, Function, Item, Stmt};
use object_types::is_reserved;
use std::alloc::{AllocError, Global};

fn is_end(operands: &[Expr]) -> bool
    ensures { result ≡ is_end (views operands.now) }
{
    match operands.split_first() {
        None => true,
        Some(_) => false,
    }
}

fn is_one(operands: &[Expr]) -> bool
    ensures { result ≡ is_one (views operands.now) }
{
    match operands {
        [] => false,
        [_, rest @ ..] => is_end(rest),
    }
}

fn are_two(operands: &[Expr]) -> bool
    ensures { result ≡ are_two (views operands.now) }
{
    match operands {
        [] => false,
        [_, rest @ ..] => is_one(rest),
    }
}

#[cycle(form)]
fn is_expression(parameters: &NameSet, e: &Expr) -> bool
    ensures { result ≡ is_expression (names_in parameters.now) (view e.now) }
{
    match &*e.kind {
        ExprKind::Name(x) => parameters.has(x.bytes()),
        ExprKind::Call(f, operands) => {
            intel_row(f.bytes()).is_some()
                && are_two(operands.as_slice())
                && are_expressions(parameters, operands.as_slice())
        }
        _ => false,
    }
}

#[cycle(form)]
fn are_expressions(parameters: &NameSet, all: &[Expr]) -> bool
    ensures { result ≡ are_expressions (names_in parameters.now) (views all.now) }
{
    for e in all {
        if !is_expression(parameters, e) {
            return false;
        }
    }
    true
}

fn is_name_byte(b: u8) -> bool
    ensures { result ≡ is_name_byte b }
{
    is_letter(b) || b.is_ascii_digit()
}

fn is_letter(b: u8) -> bool
    ensures { result ≡ is_letter b }
{
    b.is_ascii_lowercase() || b.is_ascii_uppercase() || b == b'_'
}

fn are_name_bytes(bytes: &[u8]) -> bool
    ensures { result ≡ all_are is_name_byte bytes.now }
{
    for b in bytes {
        if !is_name_byte(*b) {
            return false;
        }
    }
    true
}

/// Whether it is a name of C.
pub fn is_name(bytes: &[u8]) -> bool
    ensures { result ≡ is_name bytes.now }
{
    match bytes {
        [] => false,
        [first, others @ ..] => is_letter(*first) && are_name_bytes(others),
    }
}

// Whether a name is no word of the Neon dialect.
#[tactic(auto, unfolding(c_parse::specs::Symbols::symbol_of))]
fn is_neon_name(alloc: Global, name: &Text) -> Result<bool, AllocError>
    ensures { IfOk result (λ b. b ≡ is_plain_name (name_symbol Neon name.now)) }
{
    let token = Token {
        kind: TokenKind::Name,
        text: name.copy(alloc)?,
        place: Place { line: 1, col: 1 },
        spaced: false,
        first: false,
    };
    Ok(matches!(token_symbol(Dialect::Neon, &token), Symbol::Name))
}

fn is_free(alloc: Global, name: &Text) -> Result<bool, AllocError>
    ensures { IfOk result (λ b. b ≡ is_free name.now) }
{
    let is_neon = is_neon_name(alloc, name)?;
    let is_row = neon_table::find(name.bytes()).is_some();
    Ok(is_name(name.bytes()) && is_neon && !is_reserved(Dialect::X86, is_row, name.bytes()))
}

fn is_register(ty: CType) -> bool
    ensures { result ≡ is_register ty }
{
    matches!(ty, CType::M128)
}

fn is_plain(o: &Declared) -> bool
    ensures { result ≡ is_plain (view_declared o.now) }
{
    is_register(o.ty)
        && !o.constant
        && o.length.is_none()
        && o.align.is_none()
        && o.init.is_none()
        && o.list.is_none()
}

fn returns(parameters: &NameSet, s: &Stmt) -> bool
    ensures { result ≡ returns (names_in parameters.now) (view_stmt s.now) }
{
    match s {
        Stmt::Return(_, Some(e)) => is_expression(parameters, e),
        _ => false,
    }
}

fn are_none(all: &[Stmt]) -> bool
    ensures { result ≡ are_none (view_stmts all.now) }
{
    match all.split_first() {
        None => true,
        Some(_) => false,
    }
}

fn is_body(parameters: &NameSet, body: &[Stmt]) -> bool
    ensures { result ≡ is_body (names_in parameters.now) (view_stmts body.now) }
{
    match body.split_first() {
        None => false,
        Some((s, rest)) => returns(parameters, s) && are_none(rest),
    }
}

// Whether a parameter is of the form, behind those of these names.
fn is_parameter(alloc: Global, seen: &NameSet, o: &Declared) -> Result<bool, AllocError>
    ensures value { IfOk result (λ b. b ≡ is_parameter (names_in seen.now) (view_declared o.now)) }
    ensures unseen { IfOk result (λ b. b ≡ true → is_in (names_in seen.now) o.now.name ≡ false) }
{
    let is_free = is_free(alloc, &o.name)?;
    Ok(is_plain(o) && is_free && !seen.has(o.name.bytes()))
}

// The names of the parameters, where all are of the form.
fn parameters(alloc: Global, all: &[Declared]) -> Result<Option<NameSet>, AllocError>
    ensures { IfOk result (λ found. AreNames (map view_declared all.now) found) }
{
    let mut names = NameSet::new(alloc);
    for o in all {
        if !is_parameter(alloc, &names, o)? {
            return Ok(None);
        }
        names.add(alloc, o.name.bytes())?;
    }
    Ok(Some(names))
}

fn has_one(all: &[Declared]) -> bool
    ensures { result ≡ has_one (map view_declared all.now) }
{
    match all {
        [] => false,
        [_, ..] => true,
    }
}

fn is_heading(alloc: Global, f: &Function) -> Result<bool, AllocError>
    ensures { IfOk result (λ b. b ≡ is_heading (view_function f.now)) }
{
    let is_free = is_free(alloc, &f.name)?;
    Ok(
        is_register(f.result)
            && !f.is_static
            && !f.is_inline
            && is_free
            && has_one(f.params.as_slice()),
    )
}

fn is_function(alloc: Global, f: &Function) -> Result<bool, AllocError>
    ensures { IfOk result (λ b. b ≡ is_function (view_function f.now)) }
{
    let is_heading = is_heading(alloc, f)?;
    match parameters(alloc, f.params.as_slice())? {
        Some(names) => Ok(is_heading && is_body(&names, f.body.as_slice())),
        None => Ok(false),
    }
}

// Whether an item is of the form, behind functions of these names.
fn is_item(alloc: Global, seen: &NameSet, item: &Item) -> Result<bool, AllocError>
    ensures value { IfOk result (λ b. b ≡ is_item (names_in seen.now) (view_item item.now)) }
    ensures unseen { IfOk result (λ b. b ≡ true → is_in (names_in seen.now) (item_name (view_item item.now)) ≡ false) }
{
    match item {
        Item::Function(f) => {
            let is_function = is_function(alloc, f)?;
            Ok(is_function && !seen.has(f.name.bytes()))
        }
        Item::Table(_, _) => Ok(false),
    }
}

fn item_name(item: &Item) -> &Text
    ensures { result.now ≡ item_name (view_item item.now) }
{
    match item {
        Item::Function(f) => &f.name,
        Item::Table(o, _) => &o.name,
    }
}

fn item_place(item: &Item) -> Place
    ensures { result ≡ item_place (view_item item.now) }
{
    match item {
        Item::Function(f) => f.place,
        Item::Table(o, _) => o.place,
    }
}

fn outside(alloc: Global, item: &Item) -> Result<Refusal, AllocError>
    ensures { IfOk result (λ r. r ≡ outside (view_item item.now)) }
{
    let detail = Text::new(alloc, shortened(item_name(item).bytes()))?;
    Ok(Refusal {
        number: 18,
        place: item_place(item),
        detail,
    })
}

/// The refusal of the first item that is outside the first form. The only error is want of memory.
pub fn first_outside(alloc: Global, items: &[Item]) -> Result<Option<Refusal>, AllocError>
    ensures { IfOk result (λ r. r ≡ first_outside [] (map view_item items.now)) }
{
    let mut seen = NameSet::new(alloc);
    for item in items {
        if !is_item(alloc, &seen, item)? {
            return Ok(Some(outside(alloc, item)?));
        }
        seen.add(alloc, item_name(item).bytes())?;
    }
    Ok(None)
}

//! The Neon unit that is written for a unit of the first form.

ghost use Rattle.std.specs.Prelude.{◌≡◌, IfOk, map, option_map};
ghost use Rattle.c_tree.specs.View.{view, view_kind, views, view_declared, view_stmt, view_stmts, view_function, view_item, view_unit};
ghost use Rattle.simd_top.specs.Rows.{intel_row};
ghost use Rattle.simd_top.specs.Written.{moved_type, moved_call, moved_tree, moved_kind, moved_trees, moved_object, moved_statement, moved_statements, moved_function, moved_item, moved_unit};

use crate::rows::{intel_row, neon_name};
use c_text::Text;
use c_tree::{CType, Declared, Expr, ExprKind, Function, Item, NeonLane, Stmt, Unit};
use std::alloc::{AllocError, Global};

fn moved_type(ty: CType) -> CType
    ensures { result ≡ moved_type ty }
{
    match ty {
        CType::M128 => CType::Neon(NeonLane::U8, true),
        _ => ty,
    }
}

fn moved_call(alloc: Global, f: &Text) -> Result<Text, AllocError>
    ensures { IfOk result (λ t. t ≡ moved_call f.now (intel_row f.now)) }
{
    match intel_row(f.bytes()) {
        Some(op) => Text::new(alloc, neon_name(op)),
        None => f.copy(alloc),
    }
}

#[cycle(moving)]
fn moved_tree(alloc: Global, e: &Expr) -> Result<Expr, AllocError>
    ensures { IfOk result (λ m. view m ≡ moved_tree (view e.now)) }
{
    let kind = moved_kind(alloc, &e.kind)?;
    let kind = Box::new(alloc, kind)?;
    Ok(Expr {
        place: e.place,
        ty: CType::Neon(NeonLane::U8, true),
        kind,
    })
}

#[cycle(moving)]
fn moved_kind(alloc: Global, kind: &ExprKind) -> Result<ExprKind, AllocError>
    ensures { IfOk result (λ m. view_kind m ≡ moved_kind (view_kind kind.now)) }
{
    match kind {
        ExprKind::Call(f, operands) => Ok(ExprKind::Call(
            moved_call(alloc, f)?,
            moved_trees(alloc, operands.as_slice())?,
        )),
        _ => kind.copy(alloc),
    }
}

#[cycle(moving)]
fn moved_trees(alloc: Global, all: &[Expr]) -> Result<Vec<Expr>, AllocError>
    ensures { IfOk result (λ m. views m.items ≡ moved_trees (views all.now)) }
{
    let mut out = Vec::new(alloc);
    for e in all {
        let moved = moved_tree(alloc, e)?;
        out.push(moved)?;
    }
    Ok(out)
}

fn moved_object(alloc: Global, o: &Declared) -> Result<Declared, AllocError>
    ensures { IfOk result (λ m. view_declared m ≡ moved_object (view_declared o.now)) }
{
    let mut moved = o.copy(alloc)?;
    moved.ty = moved_type(o.ty);
    Ok(moved)
}

fn moved_objects(alloc: Global, all: &[Declared]) -> Result<Vec<Declared>, AllocError>
    ensures { IfOk result (λ m. map view_declared m.items ≡ map moved_object (map view_declared all.now)) }
{
    let mut out = Vec::new(alloc);
    for o in all {
        let moved = moved_object(alloc, o)?;
        out.push(moved)?;
    }
    Ok(out)
}

fn moved_statement(alloc: Global, s: &Stmt) -> Result<Stmt, AllocError>
    ensures { IfOk result (λ m. view_stmt m ≡ moved_statement (view_stmt s.now)) }
{
    match s {
        Stmt::Return(place, Some(e)) => Ok(Stmt::Return(*place, Some(moved_tree(alloc, e)?))),
        _ => s.copy(alloc),
    }
}

fn moved_statements(alloc: Global, all: &[Stmt]) -> Result<Vec<Stmt>, AllocError>
    ensures { IfOk result (λ m. view_stmts m.items ≡ moved_statements (view_stmts all.now)) }
{
    let mut out = Vec::new(alloc);
    for s in all {
        let moved = moved_statement(alloc, s)?;
        out.push(moved)?;
    }
    Ok(out)
}

fn moved_function(alloc: Global, f: &Function) -> Result<Function, AllocError>
    ensures { IfOk result (λ m. view_function m ≡ moved_function (view_function f.now)) }
{
    let name = f.name.copy(alloc)?;
    let params = moved_objects(alloc, f.params.as_slice())?;
    let body = moved_statements(alloc, f.body.as_slice())?;
    Ok(Function {
        place: f.place,
        name,
        result: moved_type(f.result),
        params,
        is_static: f.is_static,
        is_inline: f.is_inline,
        body,
    })
}

fn moved_item(alloc: Global, item: &Item) -> Result<Item, AllocError>
    ensures { IfOk result (λ m. view_item m ≡ moved_item (view_item item.now)) }
{
    match item {
        Item::Function(f) => Ok(Item::Function(moved_function(alloc, f)?)),
        Item::Table(_, _) => item.copy(alloc),
    }
}

fn moved_items(alloc: Global, all: &[Item]) -> Result<Vec<Item>, AllocError>
    ensures { IfOk result (λ m. map view_item m.items ≡ map moved_item (map view_item all.now)) }
{
    let mut out = Vec::new(alloc);
    for item in all {
        let moved = moved_item(alloc, item)?;
        out.push(moved)?;
    }
    Ok(out)
}

/// The Neon unit that is written for a unit of the first form. The only error is want of memory.
pub fn moved_unit(alloc: Global, unit: &Unit) -> Result<Unit, AllocError>
    ensures { IfOk result (λ m. view_unit m ≡ moved_unit (view_unit unit.now)) }
{
    let items = moved_items(alloc, unit.items.as_slice())?;
    Ok(Unit { items })
}

//! Conversions of expressions, as casts that aren't written (C11 6.3).

ghost use Rattle.std.specs.Prelude.{◌≡◌, IfOk, option_map};
ghost use Rattle.c_tree.specs.View.{view, view_kind};
ghost use Rattle.c_tree.specs.Nodes.{node_type};
ghost use Rattle.type_rules.specs.Types.{is_zero, is_zero_kind, converted, assigned};
ghost use Rattle.type_rules.specs.Operations.{name_node};

use crate::types::{decayed, is_assignable, same_type};
use c_tree::{CType, Expr, ExprKind, Place, Text};
use std::alloc::{AllocError, Global};

/// Whether the expression is the constant 0.
pub fn is_zero_expr(e: &Expr) -> bool
    ensures { result ≡ is_zero (view e.now) }
{
    is_zero_kind(&e.kind)
}

fn is_zero_kind(k: &ExprKind) -> bool
    ensures { result ≡ is_zero_kind (view_kind k.now) }
{
    match k {
        ExprKind::Const(n) => n.value == 0,
        _ => false,
    }
}

/// The expression at the type `t`.
pub fn converted_expr(alloc: Global, t: CType, e: Expr) -> Result<Expr, AllocError>
    ensures { IfOk result (λ r. view r ≡ converted t (view e)) }
{
    if same_type(e.ty, t) {
        Ok(e)
    } else {
        let place = e.place;
        let kind = Box::new(alloc, ExprKind::Cast(t, e, false))?;
        Ok(Expr { place, ty: t, kind })
    }
}

/// The expression as it is given to an object of the type `t`, where it may be.
pub fn assigned_expr(alloc: Global, t: CType, e: Expr) -> Result<Option<Expr>, AllocError>
    ensures { IfOk result (λ r. option_map view r ≡ assigned t (view e)) }
{
    if is_assignable(is_zero_expr(&e), e.ty, t) {
        Ok(Some(converted_expr(alloc, t, e)?))
    } else {
        Ok(None)
    }
}

/// The name of an object of the type `t`; an array's becomes a pointer.
pub fn name_expr(alloc: Global, place: Place, name: &Text, t: CType) -> Result<Expr, AllocError>
    ensures { IfOk result (λ r. view r ≡ name_node name.now t place) }
{
    let name = name.copy(alloc)?;
    let kind = Box::new(alloc, ExprKind::Name(name))?;
    converted_expr(alloc, decayed(t), Expr { place, ty: t, kind })
}

//! Which expressions designate objects (C11 6.3.2.1p1).

ghost use Rattle.std.specs.Prelude.{◌≡◌, IfOk, option_map};
ghost use Rattle.c_tree.specs.View.{view, view_kind};
ghost use Rattle.scopes.specs.Scopes.{env_of};
ghost use Rattle.expression_types.specs.Objects.{pointed_const, indexed_const, designated, designated_kind, may_write, is_writable, pointee_of, address_node};

use c_tree::{CType, Expr, ExprKind, Place, Pointee};
use scopes::Environment;
use std::alloc::{AllocError, Global};

fn pointed_const(t: CType) -> Option<bool>
    ensures { result ≡ pointed_const t }
{
    match t {
        CType::Pointer(_, c) => Some(c),
        _ => None,
    }
}

fn indexed_const(s: CType, t: CType) -> Option<bool>
    ensures { result ≡ indexed_const s t }
{
    match (s, t) {
        (CType::Pointer(_, c), CType::Int(_)) => Some(c),
        (CType::Int(_), CType::Pointer(_, c)) => Some(c),
        _ => None,
    }
}

/// Whether the object that the expression designates is const, if it designates one.
pub fn designated(env: &Environment, e: &Expr) -> Option<bool>
    ensures { result ≡ designated (view e.now) (env_of env.now) }
{
    match &*e.kind {
        ExprKind::Name(x) => match env.object(x.bytes()) {
            Some(object) => Some(object.constant),
            None => None,
        },
        ExprKind::Index(a, b) => indexed_const(a.ty, b.ty),
        ExprKind::Deref(a) => pointed_const(a.ty),
        ExprKind::Half(a, _) => designated(env, a),
        _ => None,
    }
}

/// Whether the expression designates an object that may be written.
pub fn is_writable(env: &Environment, e: &Expr) -> bool
    ensures { result ≡ is_writable (view e.now) (env_of env.now) }
{
    match designated(env, e) {
        Some(constant) => !constant,
        None => false,
    }
}

fn pointee_of(t: CType) -> Option<Pointee>
    ensures { result ≡ pointee_of t }
{
    match t {
        CType::Int(t) => Some(Pointee::Int(t)),
        CType::M128 => Some(Pointee::M128),
        CType::M256 => Some(Pointee::M256),
        _ => None,
    }
}

/// `&a` (C11 6.5.3.2), where `a` designates an object that may be in memory.
pub fn address(
    alloc: Global,
    env: &Environment,
    place: Place,
    a: Expr,
) -> Result<Option<Expr>, AllocError>
    ensures { IfOk result (λ r. option_map view r ≡ address_node place (view a) (env_of env.now)) }
{
    match (designated(env, &a), pointee_of(a.ty)) {
        (Some(constant), Some(e)) => {
            let kind = Box::new(alloc, ExprKind::Address(a))?;
            let ty = CType::Pointer(e, constant);
            Ok(Some(Expr { place, ty, kind }))
        }
        _ => Ok(None),
    }
}

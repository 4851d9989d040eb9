//! Whether trees are the same but for places, types of expressions, numbers of arrays' elements and unwritten casts.

ghost use Rattle.std.specs.Prelude.{◌≡◌, IsTrue, ◌↔◌, List, map, option_map};
ghost use Rattle.c_tree.specs.View.{view, view_kind, views, view_declared, view_stmt, view_stmts, view_optional, view_function, view_item};
ghost use Rattle.c_tree.specs.Same.{stripped, stripped_kind, stripped_all, unnumbered, IsWritten};
ghost use Rattle.c_tree.specs.Same.{stripped_object, stripped_statement, stripped_statements, stripped_optional, stripped_definition, stripped_external, Same};
ghost use Rattle.c_tree.specs.Tree.{External};

use crate::expressions::{Expr, ExprKind};
use crate::statements::{Declared, Stmt};
use crate::types::CType;
use crate::units::{Function, Item};
use c_text::Text;
use lane_core::number::Num;

/// Whether the texts have the same bytes.
fn same_text(a: &Text, b: &Text) -> bool
    ensures { IsTrue result ↔ (a.now ≡ b.now) }
{
    a.bytes() == b.bytes()
}

/// Whether the numbers have the same type and the same value.
fn same_number(a: &Num, b: &Num) -> bool
    ensures { IsTrue result ↔ (a.now ≡ b.now) }
{
    a.ty == b.ty && a.value == b.value
}

/// Whether the types are the same but for an array's number.
fn same_type(a: CType, b: CType) -> bool
    ensures { IsTrue result ↔ (unnumbered a ≡ unnumbered b) }
{
    match a {
        CType::Array(element, _, constant) => match b {
            CType::Array(other, _, and_constant) => element == other && constant == and_constant,
            _ => false,
        },
        _ => a == b,
    }
}

/// The form below the casts that aren't written.
fn written(k: &ExprKind) -> &ExprKind
    ensures written { IsWritten (view_kind result.now) }
    ensures same { stripped_kind (view_kind result.now) ≡ stripped_kind (view_kind k.now) }
{
    match k {
        ExprKind::Cast(_, x, false) => written(&x.kind),
        _ => k,
    }
}

/// Whether the expressions are the same.
#[cycle(same)]
pub fn same_expr(a: &Expr, b: &Expr) -> bool
    ensures { IsTrue result ↔ (stripped (view a.now) ≡ stripped (view b.now)) }
{
    same_kind(&a.kind, &b.kind)
}

/// Whether the forms are the same. Unwritten casts are passed over.
#[cycle(same)]
fn same_kind(a: &ExprKind, b: &ExprKind) -> bool
    ensures { IsTrue result ↔ (stripped_kind (view_kind a.now) ≡ stripped_kind (view_kind b.now)) }
{
    match a {
        ExprKind::Cast(_, x, false) => same_kind(&x.kind, b),
        _ => same_written(a, written(b)),
    }
}

/// Whether the forms are the same. Neither is an unwritten cast.
#[cycle(same)]
fn same_written(a: &ExprKind, b: &ExprKind) -> bool
    requires first { IsWritten (view_kind a.now) }
    requires second { IsWritten (view_kind b.now) }
    ensures { IsTrue result ↔ (stripped_kind (view_kind a.now) ≡ stripped_kind (view_kind b.now)) }
{
    match (a, b) {
        (ExprKind::Const(m), ExprKind::Const(n)) => same_number(m, n),
        (ExprKind::Name(x), ExprKind::Name(y)) => same_text(x, y),
        (ExprKind::Unary(o, x), ExprKind::Unary(p, y)) => *o == *p && same_expr(x, y),
        (ExprKind::Step(x, up, before), ExprKind::Step(y, and_up, and_before)) => *up == *and_up
            && *before == *and_before
            && same_expr(x, y),
        (ExprKind::Binary(o, x, u), ExprKind::Binary(p, y, v)) => *o == *p
            && same_expr(x, y)
            && same_expr(u, v),
        (ExprKind::AndThen(x, u), ExprKind::AndThen(y, v)) => same_expr(x, y) && same_expr(u, v),
        (ExprKind::OrElse(x, u), ExprKind::OrElse(y, v)) => same_expr(x, y) && same_expr(u, v),
        (ExprKind::Choice(c, x, u), ExprKind::Choice(d, y, v)) => same_expr(c, d)
            && same_expr(x, y)
            && same_expr(u, v),
        (ExprKind::Assign(o, x, u), ExprKind::Assign(p, y, v)) => *o == *p
            && same_expr(x, y)
            && same_expr(u, v),
        (ExprKind::Comma(all), ExprKind::Comma(others)) => same_exprs(
            all.as_slice(),
            others.as_slice(),
        ),
        (ExprKind::Cast(t, x, _), ExprKind::Cast(s, y, _)) => same_type(*t, *s) && same_expr(x, y),
        (ExprKind::Index(x, u), ExprKind::Index(y, v)) => same_expr(x, y) && same_expr(u, v),
        (ExprKind::Deref(x), ExprKind::Deref(y)) => same_expr(x, y),
        (ExprKind::Address(x), ExprKind::Address(y)) => same_expr(x, y),
        (ExprKind::Call(f, all), ExprKind::Call(g, others)) => same_text(f, g)
            && same_exprs(all.as_slice(), others.as_slice()),
        (ExprKind::Half(x, k), ExprKind::Half(y, l)) => *k == *l && same_expr(x, y),
        (ExprKind::PairOf(x, u), ExprKind::PairOf(y, v)) => same_expr(x, y) && same_expr(u, v),
        (ExprKind::SizeOfType(t), ExprKind::SizeOfType(s)) => same_type(*t, *s),
        (ExprKind::SizeOfName(x), ExprKind::SizeOfName(y)) => same_text(x, y),
        (ExprKind::Str(x), ExprKind::Str(y)) => same_text(x, y),
        _ => false,
    }
}

/// Whether the expressions in a row are the same, one by one.
#[cycle(same)]
fn same_exprs(a: &[Expr], b: &[Expr]) -> bool
    ensures { IsTrue result ↔ (stripped_all (views a.now) ≡ stripped_all (views b.now)) }
{
    let mut rest = b;
    for x in a {
        match rest.split_first() {
            None => return false,
            Some((y, more)) => {
                if same_expr(x, y) {
                    rest = more;
                } else {
                    return false;
                }
            }
        }
    }
    match rest.split_first() {
        None => true,
        Some(_) => false,
    }
}

/// Whether both are left out, or the expressions are the same.
fn same_option(a: &Option<Expr>, b: &Option<Expr>) -> bool
    ensures { IsTrue result ↔ (option_map stripped (option_map view a.now) ≡ option_map stripped (option_map view b.now)) }
{
    match (a, b) {
        (None, None) => true,
        (Some(x), Some(y)) => same_expr(x, y),
        _ => false,
    }
}

/// Whether both are left out, or the expressions in a row are the same.
fn same_list(a: &Option<Vec<Expr>>, b: &Option<Vec<Expr>>) -> bool
    ensures { IsTrue result ↔ (option_map stripped_all (option_map (λ l. views l.items) a.now) ≡ option_map stripped_all (option_map (λ l. views l.items) b.now)) }
{
    match (a, b) {
        (None, None) => true,
        (Some(all), Some(others)) => same_exprs(all.as_slice(), others.as_slice()),
        _ => false,
    }
}

/// Whether the objects are the same.
pub fn same_object(a: &Declared, b: &Declared) -> bool
    ensures { IsTrue result ↔ (stripped_object (view_declared a.now) ≡ stripped_object (view_declared b.now)) }
{
    same_text(&a.name, &b.name)
        && same_type(a.ty, b.ty)
        && same_option(&a.length, &b.length)
        && a.constant == b.constant
        && same_option(&a.align, &b.align)
        && same_option(&a.init, &b.init)
        && same_list(&a.list, &b.list)
}

/// Whether the objects in a row are the same, one by one.
fn same_objects(a: &[Declared], b: &[Declared]) -> bool
    ensures { IsTrue result ↔ (map stripped_object (map view_declared a.now) ≡ map stripped_object (map view_declared b.now)) }
{
    let mut rest = b;
    for x in a {
        match rest.split_first() {
            None => return false,
            Some((y, more)) => {
                if same_object(x, y) {
                    rest = more;
                } else {
                    return false;
                }
            }
        }
    }
    match rest.split_first() {
        None => true,
        Some(_) => false,
    }
}

/// Whether the statements are the same.
#[cycle(same_stmt)]
pub fn same_stmt(a: &Stmt, b: &Stmt) -> bool
    ensures { IsTrue result ↔ (stripped_statement (view_stmt a.now) ≡ stripped_statement (view_stmt b.now)) }
{
    match (a, b) {
        (Stmt::Declare(all), Stmt::Declare(others)) => same_objects(
            all.as_slice(),
            others.as_slice(),
        ),
        (Stmt::Run(x), Stmt::Run(y)) => same_expr(x, y),
        (Stmt::Block(all), Stmt::Block(others)) => same_stmts(all.as_slice(), others.as_slice()),
        (Stmt::If(c, s, o), Stmt::If(d, t, p)) => same_expr(c, d)
            && same_stmt(s, t)
            && same_optional(o, p),
        (Stmt::While(c, s), Stmt::While(d, t)) => same_expr(c, d) && same_stmt(s, t),
        (Stmt::DoWhile(s, c), Stmt::DoWhile(t, d)) => same_stmt(s, t) && same_expr(c, d),
        (Stmt::For(i, c, n, s), Stmt::For(j, d, m, t)) => same_optional(i, j)
            && same_option(c, d)
            && same_option(n, m)
            && same_stmt(s, t),
        (Stmt::Break(_), Stmt::Break(_)) => true,
        (Stmt::Continue(_), Stmt::Continue(_)) => true,
        (Stmt::Return(_, x), Stmt::Return(_, y)) => same_option(x, y),
        (Stmt::Empty, Stmt::Empty) => true,
        _ => false,
    }
}

/// Whether both are left out, or the statements are the same.
#[cycle(same_stmt)]
fn same_optional(a: &Option<Box<Stmt>>, b: &Option<Box<Stmt>>) -> bool
    ensures { IsTrue result ↔ (stripped_optional (view_optional a.now) ≡ stripped_optional (view_optional b.now)) }
{
    match (a, b) {
        (None, None) => true,
        (Some(s), Some(t)) => same_stmt(s, t),
        _ => false,
    }
}

/// Whether the statements in a row are the same, one by one.
#[cycle(same_stmt)]
fn same_stmts(a: &[Stmt], b: &[Stmt]) -> bool
    ensures { IsTrue result ↔ (stripped_statements (view_stmts a.now) ≡ stripped_statements (view_stmts b.now)) }
{
    let mut rest = b;
    for x in a {
        match rest.split_first() {
            None => return false,
            Some((y, more)) => {
                if same_stmt(x, y) {
                    rest = more;
                } else {
                    return false;
                }
            }
        }
    }
    match rest.split_first() {
        None => true,
        Some(_) => false,
    }
}

/// Whether the functions are the same.
fn same_function(a: &Function, b: &Function) -> bool
    ensures { IsTrue result ↔ (stripped_definition (view_function a.now) ≡ stripped_definition (view_function b.now)) }
{
    same_text(&a.name, &b.name)
        && same_type(a.result, b.result)
        && same_objects(a.params.as_slice(), b.params.as_slice())
        && a.is_static == b.is_static
        && a.is_inline == b.is_inline
        && same_stmts(a.body.as_slice(), b.body.as_slice())
}

/// Whether the functions or tables are the same.
fn same_item(a: &Item, b: &Item) -> bool
    ensures { IsTrue result ↔ (stripped_external (view_item a.now) ≡ stripped_external (view_item b.now)) }
{
    match a {
        Item::Function(f) => match b {
            Item::Function(g) => same_function(f, g),
            Item::Table(_, _) => false,
        },
        Item::Table(x, is_static) => match b {
            Item::Function(_) => false,
            Item::Table(y, also_static) => same_object(x, y) && *is_static == *also_static,
        },
    }
}

/// Whether the functions and tables in a row are the same, one by one.
pub fn same_items(a: &[Item], b: &[Item]) -> bool
    ensures { IsTrue result ↔ (map stripped_external (map view_item a.now) ≡ map stripped_external (map view_item b.now)) }
{
    let mut rest = b;
    for x in a {
        match rest.split_first() {
            None => return false,
            Some((y, more)) => {
                if same_item(x, y) {
                    rest = more;
                } else {
                    return false;
                }
            }
        }
    }
    match rest.split_first() {
        None => true,
        Some(_) => false,
    }
}

/// Being the same is an equivalence of units.
pub fn same_is_an_equivalence()
    ensures reflexive { (u : List External) → Same u u }
    ensures symmetric { (u v : List External) → Same u v → Same v u }
    ensures transitive { (u v w : List External) → Same u v → Same v w → Same u w }
{}

//! Whether the address of an object of a name is taken.

ghost use Rattle.std.specs.Prelude.{◌≡◌, map, option_map};
ghost use Rattle.c_tree.specs.View.{view, view_kind, views, view_declared, view_stmt, view_stmts, view_optional};
ghost use Rattle.address_taken.specs.Addressed.{is_name, takes, takes_in, takes_in_all, takes_optional, takes_declared, is_declared, declares, declares_first, takes_statement, takes_maybe, takes_statements};

use c_tree::{Declared, Expr, ExprKind, Stmt};

/// Whether the expression is that name.
fn is_name(name: &[u8], e: &Expr) -> bool
    ensures { result ≡ is_name name.now (view e.now) }
{
    match &*e.kind {
        ExprKind::Name(x) => name == x.bytes(),
        _ => false,
    }
}

/// Whether the expression takes the address of an object of the name.
#[cycle(takes)]
pub fn takes(name: &[u8], e: &Expr) -> bool
    ensures { result ≡ takes name.now (view e.now) }
{
    takes_in(name, &e.kind)
}

#[cycle(takes)]
fn takes_in(name: &[u8], k: &ExprKind) -> bool
    ensures { result ≡ takes_in name.now (view_kind k.now) }
{
    match k {
        ExprKind::Unary(_, a) | ExprKind::Step(a, _, _) | ExprKind::Cast(_, a, _) => takes(name, a),
        ExprKind::Deref(a) | ExprKind::Half(a, _) => takes(name, a),
        ExprKind::Binary(_, a, b) | ExprKind::Assign(_, a, b) => takes(name, a) || takes(name, b),
        ExprKind::AndThen(a, b) | ExprKind::OrElse(a, b) => takes(name, a) || takes(name, b),
        ExprKind::Index(a, b) | ExprKind::PairOf(a, b) => takes(name, a) || takes(name, b),
        ExprKind::Choice(c, a, b) => takes(name, c) || (takes(name, a) || takes(name, b)),
        ExprKind::Address(a) => is_name(name, a) || takes(name, a),
        ExprKind::Comma(all) | ExprKind::Call(_, all) => takes_in_all(name, all.as_slice()),
        ExprKind::Const(_) | ExprKind::Name(_) | ExprKind::SizeOfType(_) => false,
        ExprKind::SizeOfName(_) | ExprKind::Str(_) => false,
    }
}

#[cycle(takes)]
fn takes_in_all(name: &[u8], all: &[Expr]) -> bool
    ensures { result ≡ takes_in_all name.now (views all.now) }
{
    for e in all {
        if takes(name, e) {
            return true;
        }
    }
    false
}

/// The same of an expression that may be left out.
pub fn takes_optional(name: &[u8], e: &Option<Expr>) -> bool
    ensures { result ≡ takes_optional name.now (option_map view e.now) }
{
    match e {
        None => false,
        Some(e) => takes(name, e),
    }
}

/// Whether declarators take the address of an object of the name, up to one that declares the name.
pub fn takes_declared(name: &[u8], all: &[Declared]) -> bool
    ensures { result ≡ takes_declared name.now (map view_declared all.now) }
{
    for d in all {
        if name == d.name.bytes() {
            return false;
        }
        if takes_optional(name, &d.init) {
            return true;
        }
    }
    false
}

/// Whether one of the declarators declares the name.
fn is_declared(name: &[u8], all: &[Declared]) -> bool
    ensures { result ≡ is_declared name.now (map view_declared all.now) }
{
    for d in all {
        if name == d.name.bytes() {
            return true;
        }
    }
    false
}

/// Whether the statement declares the name for those that follow it.
fn declares(name: &[u8], s: &Stmt) -> bool
    ensures { result ≡ declares name.now (view_stmt s.now) }
{
    match s {
        Stmt::Declare(all) => is_declared(name, all.as_slice()),
        _ => false,
    }
}

fn declares_first(name: &[u8], s: &Option<Box<Stmt>>) -> bool
    ensures { result ≡ declares_first name.now (view_optional s.now) }
{
    match s {
        None => false,
        Some(s) => declares(name, s),
    }
}

/// Whether the statement takes the address of an object of the name that is declared before it.
#[cycle(statements)]
pub fn takes_statement(name: &[u8], s: &Stmt) -> bool
    ensures { result ≡ takes_statement name.now (view_stmt s.now) }
{
    match s {
        Stmt::Declare(all) => takes_declared(name, all.as_slice()),
        Stmt::Run(e) => takes(name, e),
        Stmt::Block(all) => takes_statements(name, all.as_slice()),
        Stmt::If(c, s, o) => takes(name, c) || (takes_statement(name, s) || takes_maybe(name, o)),
        Stmt::While(c, s) => takes(name, c) || takes_statement(name, s),
        Stmt::DoWhile(s, c) => takes_statement(name, s) || takes(name, c),
        Stmt::For(i, c, n, s) => takes_maybe(name, i)
            || (!declares_first(name, i)
                && (takes_optional(name, c)
                    || (takes_optional(name, n) || takes_statement(name, s)))),
        Stmt::Return(_, e) => takes_optional(name, e),
        Stmt::Break(_) | Stmt::Continue(_) | Stmt::Empty => false,
    }
}

/// The same of a statement that may be left out.
#[cycle(statements)]
fn takes_maybe(name: &[u8], s: &Option<Box<Stmt>>) -> bool
    ensures { result ≡ takes_maybe name.now (view_optional s.now) }
{
    match s {
        None => false,
        Some(s) => takes_statement(name, s),
    }
}

/// Whether the statements take the address of an object of the name, up to one that declares the name.
#[cycle(statements)]
pub fn takes_statements(name: &[u8], all: &[Stmt]) -> bool
    ensures { result ≡ takes_statements name.now (view_stmts all.now) }
{
    for s in all {
        if takes_statement(name, s) {
            return true;
        }
        if declares(name, s) {
            return false;
        }
    }
    false
}

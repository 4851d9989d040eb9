//! Expressions (C11 6.5).

ghost use Rattle.std.specs.Prelude.{◌≡◌, IfOk, option_map};
ghost use Rattle.c_tree.specs.View.{view, view_kind, views};

use crate::types::CType;
use c_text::{Place, Text};
use lane_core::number::{BinOp, Num, UnOp};
use std::alloc::{AllocError, Global};

/// An expression.
#[cycle(expression)]
#[derive(Drop)]
pub struct Expr {
    /// The place of its operator, its name or its opening word.
    pub place: Place,
    /// The type of its value. The parser doesn't know it.
    pub ty: CType,
    /// The form, with the parts.
    pub kind: Box<ExprKind>,
}

/// The forms of expressions. Each line says where the place is.
#[cycle(expression)]
#[derive(Drop)]
pub enum ExprKind {
    /// A constant, at its token.
    Const(Num),
    /// A name, at itself.
    Name(Text),
    /// An operator before its operand, at the operator.
    Unary(UnOp, Expr),
    /// A step by one, at the `++` or `--`: its operand, whether it goes up, and whether it stands before the operand.
    Step(Expr, bool, bool),
    /// An operator between two operands, at the operator.
    Binary(BinOp, Expr, Expr),
    /// `a && b`, at the `&&`.
    AndThen(Expr, Expr),
    /// `a || b`, at the `||`.
    OrElse(Expr, Expr),
    /// `c ? a : b`, at the `?`.
    Choice(Expr, Expr, Expr),
    /// `a = b`, or `a += b` with the operator in it, at that mark.
    Assign(Option<BinOp>, Expr, Expr),
    /// `a, b, c`, at the first `,`.
    Comma(Vec<Expr>),
    /// A conversion to a type. If true it is written `(T)a`, at the `(`. Else it comes with the types.
    Cast(CType, Expr, bool),
    /// `a[b]`, at the `[`.
    Index(Expr, Expr),
    /// `*a`, at the `*`.
    Deref(Expr),
    /// `&a`, at the `&`.
    Address(Expr),
    /// A call of a name with its arguments, at the name.
    Call(Text, Vec<Expr>),
    /// `x.val[0]` or `x.val[1]`, at the `.`.
    Half(Expr, u8),
    /// `(uint8x16x2_t){{a, b}}`, at the first `(`.
    PairOf(Expr, Expr),
    /// `sizeof (T)`, at the `sizeof`.
    SizeOfType(CType),
    /// `sizeof x` or `sizeof (x)`, at the name.
    SizeOfName(Text),
    /// A string, at its token. It stands in attributes alone, and in no parsed unit.
    Str(Text),
}

impl Expr {
    /// The same expression once more. The only error is want of memory.
    #[cycle(copying)]
    pub fn copy(&self, alloc: Global) -> Result<Expr, AllocError>
        ensures { IfOk result (λ c. view c ≡ view self.now) }
    {
        let kind = self.kind.copy(alloc)?;
        let kind = Box::new(alloc, kind)?;
        Ok(Expr {
            place: self.place,
            ty: self.ty,
            kind,
        })
    }
}

impl ExprKind {
    /// The same form once more. The only error is want of memory.
    #[cycle(copying)]
    pub fn copy(&self, alloc: Global) -> Result<ExprKind, AllocError>
        ensures { IfOk result (λ c. view_kind c ≡ view_kind self.now) }
    {
        match self {
            ExprKind::Const(n) => Ok(ExprKind::Const(*n)),
            ExprKind::Name(x) => Ok(ExprKind::Name(x.copy(alloc)?)),
            ExprKind::Unary(op, a) => Ok(ExprKind::Unary(*op, a.copy(alloc)?)),
            ExprKind::Step(a, up, before) => Ok(ExprKind::Step(a.copy(alloc)?, *up, *before)),
            ExprKind::Binary(op, a, b) => Ok(ExprKind::Binary(*op, a.copy(alloc)?, b.copy(alloc)?)),
            ExprKind::AndThen(a, b) => Ok(ExprKind::AndThen(a.copy(alloc)?, b.copy(alloc)?)),
            ExprKind::OrElse(a, b) => Ok(ExprKind::OrElse(a.copy(alloc)?, b.copy(alloc)?)),
            ExprKind::Choice(c, a, b) => Ok(ExprKind::Choice(
                c.copy(alloc)?,
                a.copy(alloc)?,
                b.copy(alloc)?,
            )),
            ExprKind::Assign(op, a, b) => Ok(ExprKind::Assign(*op, a.copy(alloc)?, b.copy(alloc)?)),
            ExprKind::Comma(all) => Ok(ExprKind::Comma(copy_exprs(alloc, all.as_slice())?)),
            ExprKind::Cast(ty, a, written) => Ok(ExprKind::Cast(*ty, a.copy(alloc)?, *written)),
            ExprKind::Index(a, b) => Ok(ExprKind::Index(a.copy(alloc)?, b.copy(alloc)?)),
            ExprKind::Deref(a) => Ok(ExprKind::Deref(a.copy(alloc)?)),
            ExprKind::Address(a) => Ok(ExprKind::Address(a.copy(alloc)?)),
            ExprKind::Call(f, all) => Ok(ExprKind::Call(
                f.copy(alloc)?,
                copy_exprs(alloc, all.as_slice())?,
            )),
            ExprKind::Half(a, k) => Ok(ExprKind::Half(a.copy(alloc)?, *k)),
            ExprKind::PairOf(a, b) => Ok(ExprKind::PairOf(a.copy(alloc)?, b.copy(alloc)?)),
            ExprKind::SizeOfType(ty) => Ok(ExprKind::SizeOfType(*ty)),
            ExprKind::SizeOfName(x) => Ok(ExprKind::SizeOfName(x.copy(alloc)?)),
            ExprKind::Str(x) => Ok(ExprKind::Str(x.copy(alloc)?)),
        }
    }
}

/// The same expressions once more.
#[cycle(copying)]
pub fn copy_exprs(alloc: Global, all: &[Expr]) -> Result<Vec<Expr>, AllocError>
    ensures { IfOk result (λ c. views c.items ≡ views all.now) }
{
    let mut out = Vec::new(alloc);
    for x in all {
        let y = x.copy(alloc)?;
        out.push(y)?;
    }
    Ok(out)
}

/// The same expression once more, where there is one.
pub fn copy_option(alloc: Global, e: &Option<Expr>) -> Result<Option<Expr>, AllocError>
    ensures { IfOk result (λ c. option_map view c ≡ option_map view e.now) }
{
    match e {
        None => Ok(None),
        Some(e) => Ok(Some(e.copy(alloc)?)),
    }
}

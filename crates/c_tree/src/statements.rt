//! Declared objects, and statements (C11 6.7 and 6.8).

ghost use Rattle.std.specs.Prelude.{◌≡◌, IfOk, map, option_map};
ghost use Rattle.c_tree.specs.View.{views, view_declared, view_stmt, view_stmts, view_optional};

use crate::expressions::{Expr, copy_exprs, copy_option};
use crate::types::CType;
use c_text::{Place, Text};
use std::alloc::{AllocError, Global};

/// A variable, a parameter or a table.
#[derive(Drop)]
pub struct Declared {
    /// The place of the name.
    pub place: Place,
    /// The name.
    pub name: Text,
    /// The type. In an array's type the number is that of the elements, once it is known.
    pub ty: CType,
    /// An array's length, where one is written.
    pub length: Option<Expr>,
    /// Whether the object itself is const.
    pub constant: bool,
    /// The alignment in bytes, where one is written.
    pub align: Option<Expr>,
    /// Whether the alignment stands among the specifiers, before the name, and so doesn't see it (C11 6.2.1p7).
    pub align_first: bool,
    /// What a scalar or a vector begins with, where this is written.
    pub init: Option<Expr>,
    /// What an array's first elements begin with, where this is written.
    pub list: Option<Vec<Expr>>,
}

/// A statement or a declaration. Those with a place have that of their word.
#[derive(Drop)]
pub enum Stmt {
    /// A declaration of one or more variables.
    Declare(Vec<Declared>),
    /// An expression statement.
    Run(Expr),
    /// A block.
    Block(Vec<Stmt>),
    /// `if`: its condition, its body, and the body of its `else`.
    If(Expr, Box<Stmt>, Option<Box<Stmt>>),
    /// `while`: its condition and its body.
    While(Expr, Box<Stmt>),
    /// `do`: its body and its condition.
    DoWhile(Box<Stmt>, Expr),
    /// `for`: its start (a declaration or an expression), its condition, its step and its body.
    For(Option<Box<Stmt>>, Option<Expr>, Option<Expr>, Box<Stmt>),
    /// `break`.
    Break(Place),
    /// `continue`.
    Continue(Place),
    /// `return`, with its value.
    Return(Place, Option<Expr>),
    /// `;`.
    Empty,
}

impl Declared {
    /// The same object once more. The only error is want of memory.
    pub fn copy(&self, alloc: Global) -> Result<Declared, AllocError>
        ensures { IfOk result (λ c. view_declared c ≡ view_declared self.now) }
    {
        let name = self.name.copy(alloc)?;
        let length = copy_option(alloc, &self.length)?;
        let align = copy_option(alloc, &self.align)?;
        let init = copy_option(alloc, &self.init)?;
        let list = copy_list(alloc, &self.list)?;
        Ok(Declared {
            place: self.place,
            name,
            ty: self.ty,
            length,
            constant: self.constant,
            align,
            align_first: self.align_first,
            init,
            list,
        })
    }
}

/// The same list of expressions once more, where there is one.
fn copy_list(alloc: Global, list: &Option<Vec<Expr>>) -> Result<Option<Vec<Expr>>, AllocError>
    ensures { IfOk result (λ c. option_map (λ l. views l.items) c ≡ option_map (λ l. views l.items) list.now) }
{
    match list {
        None => Ok(None),
        Some(all) => Ok(Some(copy_exprs(alloc, all.as_slice())?)),
    }
}

/// The same objects once more.
pub fn copy_objects(alloc: Global, all: &[Declared]) -> Result<Vec<Declared>, AllocError>
    ensures { IfOk result (λ c. map view_declared c.items ≡ map view_declared all.now) }
{
    let mut out = Vec::new(alloc);
    for x in all {
        let y = x.copy(alloc)?;
        out.push(y)?;
    }
    Ok(out)
}

impl Stmt {
    /// The same statement once more. The only error is want of memory.
    #[cycle(copying)]
    pub fn copy(&self, alloc: Global) -> Result<Stmt, AllocError>
        ensures { IfOk result (λ c. view_stmt c ≡ view_stmt self.now) }
    {
        match self {
            Stmt::Declare(all) => Ok(Stmt::Declare(copy_objects(alloc, all.as_slice())?)),
            Stmt::Run(e) => Ok(Stmt::Run(e.copy(alloc)?)),
            Stmt::Block(all) => Ok(Stmt::Block(copy_stmts(alloc, all.as_slice())?)),
            Stmt::If(c, body, otherwise) => {
                let c = c.copy(alloc)?;
                let body = copy_boxed(alloc, body)?;
                let otherwise = copy_optional(alloc, otherwise)?;
                Ok(Stmt::If(c, body, otherwise))
            }
            Stmt::While(c, body) => Ok(Stmt::While(c.copy(alloc)?, copy_boxed(alloc, body)?)),
            Stmt::DoWhile(body, c) => Ok(Stmt::DoWhile(copy_boxed(alloc, body)?, c.copy(alloc)?)),
            Stmt::For(start, c, step, body) => {
                let start = copy_optional(alloc, start)?;
                let c = copy_option(alloc, c)?;
                let step = copy_option(alloc, step)?;
                let body = copy_boxed(alloc, body)?;
                Ok(Stmt::For(start, c, step, body))
            }
            Stmt::Break(place) => Ok(Stmt::Break(*place)),
            Stmt::Continue(place) => Ok(Stmt::Continue(*place)),
            Stmt::Return(place, e) => Ok(Stmt::Return(*place, copy_option(alloc, e)?)),
            Stmt::Empty => Ok(Stmt::Empty),
        }
    }
}

/// The same statement once more, in a box of its own.
#[cycle(copying)]
fn copy_boxed(alloc: Global, s: &Stmt) -> Result<Box<Stmt>, AllocError>
    ensures { IfOk result (λ c. view_stmt c.value ≡ view_stmt s.now) }
{
    let s = s.copy(alloc)?;
    Ok(Box::new(alloc, s)?)
}

/// The same statement once more, where there is one.
#[cycle(copying)]
fn copy_optional(alloc: Global, s: &Option<Box<Stmt>>) -> Result<Option<Box<Stmt>>, AllocError>
    ensures { IfOk result (λ c. view_optional c ≡ view_optional s.now) }
{
    match s {
        None => Ok(None),
        Some(s) => Ok(Some(copy_boxed(alloc, s)?)),
    }
}

/// The same statements once more.
#[cycle(copying)]
pub fn copy_stmts(alloc: Global, all: &[Stmt]) -> Result<Vec<Stmt>, AllocError>
    ensures { IfOk result (λ c. view_stmts c.items ≡ view_stmts all.now) }
{
    let mut out = Vec::new(alloc);
    for x in all {
        let y = x.copy(alloc)?;
        out.push(y)?;
    }
    Ok(out)
}

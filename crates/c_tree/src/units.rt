//! Functions, tables and units (C11 6.9).

ghost use Rattle.std.specs.Prelude.{◌≡◌, ◌↔◌, IfOk, IsTrue, map};
ghost use Rattle.c_tree.specs.View.{view_function, view_item, view_unit};
ghost use Rattle.c_tree.specs.Same.{Same};

use crate::same::same_items;
use crate::statements::{Declared, Stmt, copy_objects, copy_stmts};
use crate::types::CType;
use c_text::{Place, Text};
use std::alloc::{AllocError, Global};

/// A function's definition.
#[derive(Drop)]
pub struct Function {
    /// The place of the name.
    pub place: Place,
    /// The name.
    pub name: Text,
    /// The type of the value that a call gives.
    pub result: CType,
    /// The parameters.
    pub params: Vec<Declared>,
    /// Whether it is `static`.
    pub is_static: bool,
    /// Whether it is `inline`.
    pub is_inline: bool,
    /// The statements of its body.
    pub body: Vec<Stmt>,
}

/// What a unit is made of.
#[derive(Drop)]
pub enum Item {
    /// A function.
    Function(Function),
    /// A constant array or scalar, and whether it is `static`.
    Table(Declared, bool),
}

/// A unit.
#[derive(Drop)]
pub struct Unit {
    /// Its functions and tables, in the order of the text.
    pub items: Vec<Item>,
}

impl Function {
    /// The same function once more. The only error is want of memory.
    pub fn copy(&self, alloc: Global) -> Result<Function, AllocError>
        ensures { IfOk result (λ c. view_function c ≡ view_function self.now) }
    {
        let name = self.name.copy(alloc)?;
        let params = copy_objects(alloc, self.params.as_slice())?;
        let body = copy_stmts(alloc, self.body.as_slice())?;
        Ok(Function {
            place: self.place,
            name,
            result: self.result,
            params,
            is_static: self.is_static,
            is_inline: self.is_inline,
            body,
        })
    }
}

impl Item {
    /// The same function or table once more. The only error is want of memory.
    pub fn copy(&self, alloc: Global) -> Result<Item, AllocError>
        ensures { IfOk result (λ c. view_item c ≡ view_item self.now) }
    {
        match self {
            Item::Function(f) => Ok(Item::Function(f.copy(alloc)?)),
            Item::Table(d, is_static) => Ok(Item::Table(d.copy(alloc)?, *is_static)),
        }
    }
}

impl Unit {
    /// The same unit once more. The only error is want of memory.
    pub fn copy(&self, alloc: Global) -> Result<Unit, AllocError>
        ensures { IfOk result (λ c. view_unit c ≡ view_unit self.now) }
    {
        let items = copy_items(alloc, self.items.as_slice())?;
        Ok(Unit { items })
    }

    /// Whether the units are the same. Places, types of expressions, the number in an array's type and casts that
    /// aren't written don't count. A length that is written does.
    pub fn same(&self, other: &Unit) -> bool
        ensures { IsTrue result ↔ Same (view_unit self.now) (view_unit other.now) }
    {
        same_items(self.items.as_slice(), other.items.as_slice())
    }
}

/// The same functions and tables once more.
fn copy_items(alloc: Global, all: &[Item]) -> Result<Vec<Item>, AllocError>
    ensures { IfOk result (λ c. map view_item c.items ≡ map view_item all.now) }
{
    let mut out = Vec::new(alloc);
    for x in all {
        let y = x.copy(alloc)?;
        out.push(y)?;
    }
    Ok(out)
}

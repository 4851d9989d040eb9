//! What a place in a unit sees.

ghost use Rattle.std.specs.Prelude.{◌≡◌, IfSome, IfNone, OnOk, Some, None, [], false, map};
ghost use Rattle.scopes.specs.Scopes.{Env, named, callee, row, visible, entries_of, rows_of, object_named, is_declared_here, with_object, opened, closed, env_of};

use crate::names::Names;
use c_text::Dialect;
use c_tree::CType;
use std::alloc::{AllocError, Global};
use type_rules::{Heading, ImmRange};

/// An object: its type, and whether it is const.
#[derive(Clone, Copy, Debug, PartialEq, Eq)]
pub struct Object {
    pub ty: CType,
    pub constant: bool,
}

/// A function of the unit.
#[derive(Drop)]
pub struct Callee {
    /// How many items of the unit stand before it.
    pub order: usize,
    pub heading: Heading,
}

/// A row of a table, as calls see it.
#[derive(Drop)]
pub struct Row {
    pub heading: Heading,
    /// The values that its immediate may have.
    pub range: ImmRange,
}

/// What a place in a unit sees.
#[derive(Drop)]
pub struct Environment {
    pub dialect: Dialect,
    /// The rows of the dialect's table.
    pub rows: Names<Row>,
    /// The names of the rows of Neon's table.
    pub neon: Names<()>,
    /// The scopes around the innermost one, outermost first.
    pub outer: Vec<Names<Object>>,
    pub innermost: Names<Object>,
    /// The functions of the whole unit.
    pub functions: Names<Callee>,
    /// How many items of the unit stand before the one that the place is in.
    pub here: usize,
    /// Whether that is a function that may call none of the unit.
    pub calls_none: bool,
}

// The object of the name in the scopes; one of an inner scope hides the others.
fn visible(name: &[u8], scopes: &[Names<Object>]) -> Option<Object>
    ensures { result ≡ visible name.now (map entries_of scopes.now) }
{
    let mut found = None;
    for scope in scopes {
        if let Some(object) = scope.find(name) {
            found = Some(*object);
        }
    }
    found
}

/// The row that has the name.
#[tactic(auto, using(crate::proofs::Entries::named_row))]
pub fn row_named<'r>(rows: &'r Names<Row>, name: &[u8]) -> Option<&'r Row>
    ensures found { IfSome result (λ r. named name.now (rows_of rows.now) ≡ Some (row r.now)) }
    ensures none { IfNone result (named name.now (rows_of rows.now) ≡ None) }
{
    match rows.find(name) {
        None => None,
        Some(row) => Some(row),
    }
}

impl Environment {
    /// The object that the name stands for, if it stands for one.
    pub fn object(&self, name: &[u8]) -> Option<Object>
        ensures { result ≡ object_named name.now (env_of self.now) }
    {
        match self.innermost.find(name) {
            Some(object) => Some(*object),
            None => visible(name, self.outer.as_slice()),
        }
    }

    /// The function of the unit that has the name.
    #[tactic(auto, using(crate::proofs::Entries::named_callee))]
    pub fn function(&self, name: &[u8]) -> Option<&Callee>
        ensures found { IfSome result (λ c. named name.now (env_of self.now).functions ≡ Some (callee c.now)) }
        ensures none { IfNone result (named name.now (env_of self.now).functions ≡ None) }
    {
        match self.functions.find(name) {
            None => None,
            Some(found) => Some(found),
        }
    }

    /// The row of the dialect's table that has the name.
    pub fn row(&self, name: &[u8]) -> Option<&Row>
        ensures found { IfSome result (λ r. (env_of self.now).rows name.now ≡ Some (row r.now)) }
        ensures none { IfNone result ((env_of self.now).rows name.now ≡ None) }
    {
        row_named(&self.rows, name)
    }

    /// Whether a row of Neon's table has the name.
    pub fn is_neon_row(&self, name: &[u8]) -> bool
        ensures { result ≡ (env_of self.now).neon name.now }
    {
        self.neon.find(name).is_some()
    }

    /// Whether the innermost scope declares the name.
    pub fn declares(&self, name: &[u8]) -> bool
        ensures { result ≡ is_declared_here name.now (env_of self.now) }
    {
        self.innermost.find(name).is_some()
    }

    /// Declares an object in the innermost scope. The only error is want of memory.
    pub fn declare(&mut self, alloc: Global, name: &[u8], object: Object) -> Result<(), AllocError>
        requires { is_declared_here name.now (env_of self.old) ≡ false }
        ensures { OnOk result (env_of self.new ≡ with_object name.now object (env_of self.old)) }
    {
        self.innermost.insert(alloc, name, object)
    }

    /// Opens a scope in the innermost one. The only error is want of memory.
    pub fn open(&mut self, alloc: Global) -> Result<(), AllocError>
        ensures { OnOk result (env_of self.new ≡ opened (env_of self.old)) }
    {
        let scope = std::mem::replace(&mut self.innermost, Names::new(alloc));
        self.outer.push(scope)?;
        Ok(())
    }

    /// Ends the innermost scope; the one around it is the innermost then.
    pub fn close(&mut self, alloc: Global)
        ensures { env_of self.new ≡ closed (env_of self.old) }
    {
        match self.outer.pop() {
            None => {
                self.innermost = Names::new(alloc);
            }
            Some(scope) => {
                self.innermost = scope;
            }
        }
    }
}

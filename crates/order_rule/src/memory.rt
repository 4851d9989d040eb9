//! Which objects are in memory since their address is taken, by the names that a place sees.

ghost use Rattle.std.specs.Prelude.{◌≡◌, OnOk, map};
ghost use Rattle.scopes.specs.Scopes.{entries_of};
ghost use Rattle.address_taken.specs.Marks.{is_marked};
ghost use Rattle.order_rule.specs.Memory.{begun, visible, is_taken, with_object, opened, closed, env_of};

use address_taken::Marks;
use scopes::Names;
use std::alloc::{AllocError, Global};

/// For the objects that a place in a function sees, whether their address is taken.
#[derive(Drop)]
pub struct Memory<'a> {
    /// The scopes around the innermost one, outermost first.
    pub outer: Vec<Names<bool>>,
    pub innermost: Names<bool>,
    /// The names of objects outside the function whose address it takes.
    pub outside: &'a Marks,
}

/// The truth value of the name in the scopes; one of an inner scope hides the others.
fn visible(name: &[u8], scopes: &[Names<bool>]) -> Option<bool>
    ensures { result ≡ visible name.now (map entries_of scopes.now) }
{
    let mut found = None;
    for scope in scopes {
        if let Some(taken) = scope.find(name) {
            found = Some(*taken);
        }
    }
    found
}

impl<'a> Memory<'a> {
    /// What the beginning of a body sees.
    pub fn new(alloc: Global, outside: &'a Marks) -> Memory<'a>
        ensures { env_of result ≡ begun (is_marked outside.now) }
    {
        Memory {
            outer: Vec::new(alloc),
            innermost: Names::new(alloc),
            outside,
        }
    }

    /// Whether the address of the object is taken that the name stands for.
    pub fn is_taken(&self, name: &[u8]) -> bool
        ensures { result ≡ is_taken name.now (env_of self.now) }
    {
        match self.innermost.find(name) {
            Some(taken) => *taken,
            None => match visible(name, self.outer.as_slice()) {
                Some(taken) => taken,
                None => self.outside.has(name),
            },
        }
    }

    /// Declares an object in the innermost scope, unless it has the name.
    pub fn declare(&mut self, alloc: Global, name: &[u8], taken: bool) -> Result<(), AllocError>
        ensures { OnOk result (env_of self.new ≡ with_object name.now taken (env_of self.old)) }
    {
        match self.innermost.find(name) {
            Some(_) => Ok(()),
            None => self.innermost.insert(alloc, name, taken),
        }
    }

    /// Opens a scope in the innermost one.
    pub fn open(&mut self, alloc: Global) -> Result<(), AllocError>
        ensures { OnOk result (env_of self.new ≡ opened (env_of self.old)) }
    {
        let scope = std::mem::replace(&mut self.innermost, Names::new(alloc));
        self.outer.push(scope)?;
        Ok(())
    }

    /// Ends the innermost scope; the one around it is the innermost then.
    pub fn close(&mut self, alloc: Global)
        ensures { env_of self.new ≡ closed (env_of self.old) }
    {
        match self.outer.pop() {
            None => {
                self.innermost = Names::new(alloc);
            }
            Some(scope) => {
                self.innermost = scope;
            }
        }
    }
}

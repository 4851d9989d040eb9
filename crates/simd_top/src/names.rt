//! Sets of names.

ghost use Rattle.std.specs.Prelude.{◌≡◌, ◌++◌, ◌∷◌, [], false, is_some, OnOk};
ghost use Rattle.scopes.specs.Scopes.{entries_of, named};
ghost use Rattle.simd_top.specs.Form.{is_in};
ghost use Rattle.simd_top.specs.NameSets.{names_in};

use scopes::Names;
use std::alloc::{AllocError, Global};

/// Names that were seen, in their order.
#[derive(Drop)]
pub struct NameSet {
    names: Names<bool>,
}

impl NameSet {
    /// No names.
    pub fn new(alloc: Global) -> NameSet
        ensures { names_in result ≡ [] }
    {
        NameSet {
            names: Names::new(alloc),
        }
    }

    fn is_known(&self, name: &[u8]) -> bool
        ensures { result ≡ is_some (named name.now (entries_of self.now.names)) }
    {
        self.names.find(name).is_some()
    }

    /// Whether the name is among them.
    pub fn has(&self, name: &[u8]) -> bool
        ensures { result ≡ is_in (names_in self.now) name.now }
    {
        self.is_known(name)
    }

    /// One more name. The only error is want of memory.
    pub fn add(&mut self, alloc: Global, name: &[u8]) -> Result<(), AllocError>
        requires { is_in (names_in self.old) name.now ≡ false }
        ensures { OnOk result (names_in self.new ≡ names_in self.old ++ name.now ∷ []) }
    {
        self.names.insert(alloc, name, true)
    }
}

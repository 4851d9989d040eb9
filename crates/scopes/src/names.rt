//! Names and what they stand for, in the order in which they are declared.

ghost use Rattle.std.specs.Prelude.{◌≡◌, ◌++◌, ◌∷◌, [], None, OnOk, IfOk, Some};
ghost use Rattle.std.specs.Option.{option_copied};
ghost use Rattle.scopes.specs.Scopes.{named, entries_of};

use indexmap::IndexMap;
use std::alloc::{AllocError, Global};

/// Names and what they stand for.
#[derive(Drop)]
pub struct Names<V> {
    map: IndexMap<Vec<u8>, V>,
}

impl<V: Drop> Names<V> {
    /// No names.
    pub fn new(alloc: Global) -> Names<V>
        ensures { entries_of result ≡ [] }
    {
        Names {
            map: IndexMap::new(alloc),
        }
    }

    /// What the name stands for.
    pub fn find(&self, name: &[u8]) -> Option<&V>
        ensures { option_copied result ≡ named name.now (entries_of self.now) }
    {
        self.map.get(name)
    }

    /// One more name. The only error is want of memory.
    pub fn insert(&mut self, alloc: Global, name: &[u8], value: V) -> Result<(), AllocError>
        requires { named name.now (entries_of self.old) ≡ None }
        ensures { OnOk result (entries_of self.new ≡ entries_of self.old ++ (name.now, value) ∷ []) }
    {
        let key = Vec::from_slice(alloc, name)?;
        self.map.insert(key, value)?;
        Ok(())
    }
}

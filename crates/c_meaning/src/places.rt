//! Places of names.

ghost use Rattle.std.specs.Prelude.{◌≡◌, bytes_eq, if◌then◌else◌, Some, None, OnOk, List, ℕ};
ghost use Rattle.c_meaning.specs.Places.{place_of};

use indexmap::IndexMap;
use std::alloc::{AllocError, Global};

/// A place for each of some names.
#[derive(Drop)]
pub struct Places {
    map: IndexMap<Vec<u8>, usize>,
}

impl Places {
    /// No name has a place.
    pub fn new(alloc: Global) -> Places
        ensures { (x : List ℕ) → place_of result x ≡ None }
    {
        Places {
            map: IndexMap::new(alloc),
        }
    }

    /// The place of the name.
    pub fn get(&self, name: &[u8]) -> Option<usize>
        ensures { result ≡ place_of self.now name.now }
    {
        match self.map.get(name) {
            None => None,
            Some(place) => Some(*place),
        }
    }

    /// The name has this place from now on. The only error is want of memory.
    pub fn set(&mut self, alloc: Global, name: &[u8], place: usize) -> Result<(), AllocError>
        ensures { OnOk result ((x : List ℕ) → place_of self.new x ≡ (if bytes_eq x name.now then Some place else place_of self.old x)) }
    {
        let key = Vec::from_slice(alloc, name)?;
        self.map.insert(key, place)?;
        Ok(())
    }
}

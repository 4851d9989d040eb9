//! Marks of names.

ghost use Rattle.std.specs.Prelude.{◌≡◌, ◌||◌, ◌&&◌, not, false, bytes_eq, if◌then◌else◌, OnOk, IfOk, List, ℕ};
ghost use Rattle.address_taken.specs.Marks.{is_marked};

use indexmap::IndexMap;
use std::alloc::{AllocError, Global};

/// Names, each marked or not.
#[derive(Drop)]
pub struct Marks {
    map: IndexMap<Vec<u8>, bool>,
}

impl Marks {
    /// No name is marked.
    pub fn new(alloc: Global) -> Marks
        ensures { (x : List ℕ) → is_marked result x ≡ false }
    {
        Marks {
            map: IndexMap::new(alloc),
        }
    }

    /// Whether the name is marked.
    pub fn has(&self, name: &[u8]) -> bool
        ensures { result ≡ is_marked self.now name.now }
    {
        match self.map.get(name) {
            None => false,
            Some(mark) => *mark,
        }
    }

    fn set(&mut self, alloc: Global, name: &[u8], mark: bool) -> Result<(), AllocError>
        ensures { OnOk result ((x : List ℕ) → is_marked self.new x ≡ (if bytes_eq x name.now then mark else is_marked self.old x)) }
    {
        let key = Vec::from_slice(alloc, name)?;
        self.map.insert(key, mark)?;
        Ok(())
    }

    /// The name is marked from now on. The only error is want of memory.
    pub fn add(&mut self, alloc: Global, name: &[u8]) -> Result<(), AllocError>
        ensures { OnOk result ((x : List ℕ) → is_marked self.new x ≡ (bytes_eq x name.now || is_marked self.old x)) }
    {
        self.set(alloc, name, true)?;
        Ok(())
    }

    /// The name isn't marked from now on; whether it was. The only error is want of memory.
    pub fn remove(&mut self, alloc: Global, name: &[u8]) -> Result<bool, AllocError>
        ensures was { IfOk result (λ b. b ≡ is_marked self.old name.now) }
        ensures others { OnOk result ((x : List ℕ) → is_marked self.new x ≡ (not (bytes_eq x name.now) && is_marked self.old x)) }
    {
        let was = self.has(name);
        if was {
            self.set(alloc, name, false)?;
        }
        Ok(was)
    }
}

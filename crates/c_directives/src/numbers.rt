//! The numbers of parameters.

ghost use Rattle.std.specs.Prelude.{◌≡◌, List, ℕ, [], None, Some, is_some, ◌||◌, IfOk, OnOk, if◌then◌else◌, bytes_eq, false};
ghost use Rattle.c_directives.specs.Definitions.{number_of, has_twice};
ghost use Rattle.c_directives.specs.Entries.{numbers_of, or_else};

use c_text::Text;
use indexmap::IndexMap;
use std::alloc::{AllocError, Global};

/// Names, each with the number of the first parameter that has it.
#[derive(Drop)]
pub struct Numbers {
    map: IndexMap<Vec<u8>, usize>,
    /// A parameter has the name of one before it.
    pub has_twice: bool,
}

impl Numbers {
    fn new(alloc: Global) -> Numbers
        ensures none { (x : List ℕ) → numbers_of result x ≡ None }
        ensures once { result.has_twice ≡ false }
    {
        Numbers {
            map: IndexMap::new(alloc),
            has_twice: false,
        }
    }

    /// The number of a name, if it is a parameter's.
    #[tactic(auto, unfolding(crate::specs::Entries::numbers_of))]
    pub fn find(&self, name: &[u8]) -> Option<usize>
        ensures { result ≡ numbers_of self.now name.now }
    {
        self.map.get(name).copied()
    }

    fn insert(&mut self, alloc: Global, name: &[u8], number: usize) -> Result<(), AllocError>
        requires { numbers_of self.old name.now ≡ None }
        ensures added { OnOk result ((x : List ℕ) → numbers_of self.new x ≡ or_else (numbers_of self.old x) (if bytes_eq x name.now then Some number else None)) }
        ensures kept { self.new.has_twice ≡ self.old.has_twice }
    {
        let key = Vec::from_slice(alloc, name)?;
        self.map.insert(key, number)?;
        Ok(())
    }

    fn add(&mut self, alloc: Global, name: &[u8], number: usize) -> Result<(), AllocError>
        ensures added { OnOk result ((x : List ℕ) → numbers_of self.new x ≡ or_else (numbers_of self.old x) (if bytes_eq x name.now then Some number else None)) }
        ensures twice { OnOk result (self.new.has_twice ≡ (is_some (numbers_of self.old name.now) || self.old.has_twice)) }
    {
        if self.find(name).is_some() {
            self.has_twice = true;
            return Ok(());
        }
        self.insert(alloc, name, number)
    }

    /// Numbers parameters from 0 on.
    pub fn of(alloc: Global, names: &[Text]) -> Result<Numbers, AllocError>
        ensures numbers { IfOk result (λ n. (x : List ℕ) → numbers_of n x ≡ number_of x 0 names.now) }
        ensures twice { IfOk result (λ n. n.has_twice ≡ has_twice [] names.now) }
    {
        let mut numbers = Numbers::new(alloc);
        for i in 0..names.len() {
            numbers.add(alloc, names[i].bytes(), i)?;
        }
        Ok(numbers)
    }
}

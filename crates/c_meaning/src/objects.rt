//! The objects in scope.

ghost use Rattle.std.specs.Prelude.{◌≡◌, ◌-◌, ◌<◌, true, [], ◌∷◌, None, IfOk, IfSome, IfNone, OnOk, length, drop, min, option_map};
ghost use Rattle.c_memory.specs.MeaningState.{found, changed, half_at, joined, with_half};
ghost use Rattle.c_meaning.specs.Bindings.{is_last_named, seen_location, seen_binding};
ghost use Rattle.c_meaning.specs.Seen.{seen_tables, seen_objects};

use crate::tables::{Tables, position};
use c_memory::Value;
use c_tree::CType;
use c_values::objects::{half, pair_of};
use std::alloc::{AllocError, Global};

/// Where an object is.
#[derive(Clone, Copy, Debug)]
pub enum Location {
    /// Apart from memory, with its value if it is set.
    Apart(Option<Value>),
    /// A pair apart from memory of which at most one half is set.
    Halves(Option<[u8; 16]>, Option<[u8; 16]>),
    /// In the block of that number.
    InBlock(usize),
}

/// An object that has a name in scope.
#[derive(Clone, Copy, Debug)]
pub struct Binding<'a> {
    pub name: &'a [u8],
    pub ty: CType,
    pub location: Location,
}

/// The objects in scope: tables, and others in them.
#[derive(Drop)]
pub struct Objects<'a> {
    tables: &'a Tables<'a>,
    /// How many of the tables are in scope, the outermost.
    shown: usize,
    /// The objects in scope in the tables' scope, the innermost last.
    bindings: Vec<Binding<'a>>,
}

impl<'a> Objects<'a> {
    /// No objects. The tables aren't in scope.
    pub fn new(alloc: Global, tables: &'a Tables<'a>) -> Objects<'a>
        ensures { seen_objects result ≡ [] }
    {
        Objects {
            tables,
            shown: 0,
            bindings: Vec::new(alloc),
        }
    }

    /// The tables alone.
    #[tactic(auto, using(crate::proofs::Shared::all_shown))]
    pub fn over(alloc: Global, tables: &'a Tables<'a>) -> Objects<'a>
        ensures { seen_objects result ≡ seen_tables tables.now }
    {
        Objects {
            tables,
            shown: tables.bindings.len(),
            bindings: Vec::new(alloc),
        }
    }

    /// The same objects once more, over the same tables. The only error is want of memory.
    pub fn copy(&self, alloc: Global) -> Result<Objects<'a>, AllocError>
        ensures { IfOk result (λ o. seen_objects o ≡ seen_objects self.now) }
    {
        let bindings = Vec::from_slice(alloc, self.bindings.as_slice())?;
        Ok(Objects {
            tables: self.tables,
            shown: self.shown,
            bindings,
        })
    }

    /// The number of tables in scope.
    fn below(&self) -> usize
        ensures { result ≡ min self.now.shown (length self.now.tables.now.bindings.items) }
    {
        self.shown.min(self.tables.bindings.len())
    }

    /// The number of objects.
    #[tactic(auto, using(crate::proofs::Shared::length_seen))]
    pub fn len(&self) -> usize
        ensures { result ≡ length (seen_objects self.now) }
    {
        self.below() + self.bindings.len()
    }

    /// One more object comes into scope. The only error is want of memory.
    #[tactic(auto, using(crate::proofs::Stacks::stacked_push))]
    pub fn push(&mut self, binding: Binding<'a>) -> Result<(), AllocError>
        ensures { OnOk result (seen_objects self.new ≡ seen_binding binding.entry ∷ seen_objects self.old) }
    {
        self.bindings.push(binding)?;
        Ok(())
    }

    /// Only that many objects stay in scope, the outermost.
    #[tactic(auto, using(crate::proofs::Shared::tables_stay, crate::proofs::Shared::objects_stay))]
    pub fn truncate(&mut self, count: usize)
        ensures { seen_objects self.new ≡ drop (length (seen_objects self.old) - count) (seen_objects self.old) }
    {
        let below = self.below();
        if count < below {
            self.shown = count;
            self.bindings.truncate(0);
        } else {
            self.bindings.truncate(count - below);
        }
    }

    /// The innermost object of that name.
    #[tactic(auto, using(crate::proofs::Stacks::found_past, crate::proofs::Stacks::found_on))]
    pub fn find(&self, name: &[u8]) -> Option<Binding<'a>>
        ensures { option_map seen_binding result ≡ found name.now (seen_objects self.now) }
    {
        match position(self.bindings.as_slice(), name) {
            Some(k) => Some(self.bindings[k]),
            None => self.tables.find(self.shown, name),
        }
    }

    /// The tables in scope become objects of its own. The only error is want of memory.
    #[tactic(auto, using(crate::proofs::Shared::owned))]
    fn own(&mut self) -> Result<(), AllocError>
        ensures same { OnOk result (seen_objects self.new ≡ seen_objects self.old) }
        ensures none { OnOk result (self.new.shown ≡ 0) }
    {
        let alloc = *self.bindings.allocator();
        let mut all = Vec::from_slice(alloc, self.tables.first(self.shown))?;
        all.extend_from_slice(self.bindings.as_slice())?;
        self.bindings = all;
        self.shown = 0;
        Ok(())
    }

    /// The place of the innermost object of that name among those of its own. Where it is a table, the tables become such objects.
    #[tactic(auto, using(crate::proofs::Shared::found_nowhere, crate::proofs::Shared::none_among))]
    fn place(&mut self, name: &[u8]) -> Result<Option<usize>, AllocError>
        ensures same { OnOk result (seen_objects self.new ≡ seen_objects self.old) }
        ensures within { IfOk result (λ p. IfSome p (λ k. k < length self.new.bindings.items)) }
        ensures last { IfOk result (λ p. IfSome p (λ k. is_last_named name.now self.new.bindings.items k ≡ true)) }
        ensures none { IfOk result (λ p. IfNone p (found name.now (seen_objects self.new) ≡ None)) }
    {
        match position(self.bindings.as_slice(), name) {
            Some(k) => Ok(Some(k)),
            None => match self.tables.find(self.shown, name) {
                None => Ok(None),
                Some(_) => {
                    self.own()?;
                    Ok(position(self.bindings.as_slice(), name))
                }
            },
        }
    }

    /// The innermost object of that name gets a place. The only error is want of memory.
    #[tactic(auto, using(crate::proofs::Stacks::changed_nowhere))]
    pub fn relocate(&mut self, name: &[u8], location: Location) -> Result<(), AllocError>
        ensures { OnOk result (seen_objects self.new ≡ changed name.now (λ _. seen_location location) (seen_objects self.old)) }
    {
        if let Some(k) = self.place(name)? {
            self.bindings[k].location = location;
        }
        Ok(())
    }

    /// A half of the innermost object of that name, which is a pair apart from memory, gets its bytes. The only error is want of memory.
    #[tactic(auto, using(crate::proofs::Stacks::changed_nowhere, crate::proofs::Stacks::changed_at))]
    pub fn set_half(&mut self, name: &[u8], k: u8, half: [u8; 16]) -> Result<(), AllocError>
        ensures { OnOk result (seen_objects self.new ≡ changed name.now (with_half k half) (seen_objects self.old)) }
    {
        if let Some(place) = self.place(name)? {
            self.bindings[place].location = self.bindings[place].location.with_half(k, half);
        }
        Ok(())
    }
}

impl Location {
    /// A half of a pair apart from memory, where it is set.
    pub fn half_at(self, k: u8) -> Option<[u8; 16]>
        ensures { result ≡ half_at k (seen_location self) }
    {
        match self {
            Location::Apart(Some(Value::R32(pair))) => Some(half(
                if k == 0 { 0 } else { 1 },
                &pair,
            )),
            Location::Halves(first, second) => if k == 0 { first } else { second },
            _ => None,
        }
    }

    /// The pair, once both halves are set.
    fn joined(first: Option<[u8; 16]>, second: Option<[u8; 16]>) -> Location
        ensures { seen_location result ≡ joined first second }
    {
        match (first, second) {
            (Some(a), Some(b)) => Location::Apart(Some(Value::R32(pair_of(&a, &b)))),
            (first, second) => Location::Halves(first, second),
        }
    }

    /// A half of a pair apart from memory gets its bytes.
    fn with_half(self, k: u8, bytes: [u8; 16]) -> Location
        ensures { seen_location result ≡ with_half k bytes (seen_location self) }
    {
        if k == 0 {
            Location::joined(Some(bytes), self.half_at(1))
        } else {
            Location::joined(self.half_at(0), Some(bytes))
        }
    }
}

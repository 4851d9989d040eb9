//! What names stand for.

ghost use Rattle.std.specs.Prelude.{◌≡◌, Some, None, OnOk};
ghost use Rattle.std.specs.Option.{option_copied};
ghost use Rattle.c_macros.specs.Definition.{no_macros, with_macro};
ghost use Rattle.c_macros.specs.Entries.{macros_of};

use crate::macros::Macro;
use indexmap::IndexMap;
use std::alloc::{AllocError, Global};

/// The macros that are defined, by their names.
#[derive(Drop)]
pub struct Macros {
    /// A name that was defined and no longer is stands for none.
    map: IndexMap<Vec<u8>, Option<Macro>>,
}

impl Macros {
    /// None.
    pub fn new(alloc: Global) -> Macros
        ensures { macros_of result ≡ no_macros }
    {
        Macros {
            map: IndexMap::new(alloc),
        }
    }

    /// What a name stands for.
    pub fn find(&self, name: &[u8]) -> Option<&Macro>
        ensures { option_copied result ≡ macros_of self.now name.now }
    {
        let entry = self.map.get(name)?;
        entry.as_ref()
    }

    fn set(
        &mut self,
        alloc: Global,
        name: &[u8],
        definition: Option<Macro>,
    ) -> Result<(), AllocError>
        ensures { OnOk result (macros_of self.new ≡ with_macro name.now definition (macros_of self.old)) }
    {
        let key = Vec::from_slice(alloc, name)?;
        self.map.insert(key, definition)?;
        Ok(())
    }

    /// A name stands for a macro from now on. The only error is want of memory.
    pub fn insert(
        &mut self,
        alloc: Global,
        name: &[u8],
        definition: Macro,
    ) -> Result<(), AllocError>
        ensures { OnOk result (macros_of self.new ≡ with_macro name.now (Some definition) (macros_of self.old)) }
    {
        self.set(alloc, name, Some(definition))
    }

    /// A name stands for nothing from now on. The only error is want of memory.
    pub fn remove(&mut self, alloc: Global, name: &[u8]) -> Result<(), AllocError>
        ensures { OnOk result (macros_of self.new ≡ with_macro name.now None (macros_of self.old)) }
    {
        if self.find(name).is_some() {
            self.set(alloc, name, None)?;
        }
        Ok(())
    }
}

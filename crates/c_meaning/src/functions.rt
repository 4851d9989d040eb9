//! The functions of a unit, found by their names.

ghost use Rattle.std.specs.Prelude.{◌≡◌, ◌<◌, ◌++◌, ◌∷◌, [], true, IfSome, IfNone, OnOk, length, map, take};
ghost use Rattle.c_tree.specs.View.{view_function};
ghost use Rattle.address_taken.specs.Taken.{seen_function};
ghost use Rattle.c_meaning.specs.Callees.{seen_callee, none_called, is_last_called};
ghost use Rattle.c_meaning.specs.Flagged.{Flagged};
ghost use Rattle.c_meaning.specs.Indexed.{IsIndexed};

use crate::calls::Callee;
use crate::places::Places;
use address_taken::FunctionTaken;
use c_tree::Function;
use std::alloc::{AllocError, Global};

/// The functions of a unit in order, with what finds them by their names.
#[derive(Drop)]
pub struct Callees<'a> {
    pub all: Vec<Callee<'a>>,
    /// The place of the last function of each name.
    pub places: Places,
    ghost indexed: { IsIndexed places all.items },
}

impl<'a> Callees<'a> {
    /// The place of the last of the first `n` functions that has the name.
    #[tactic(auto, using(crate::proofs::Indexed::leads_first))]
    pub fn last_called(&self, n: usize, name: &[u8]) -> Option<usize>
        ensures before { IfSome result (λ k. k < n) }
        ensures within { IfSome result (λ k. k < length self.now.all.items) }
        ensures last { IfSome result (λ k. is_last_called name.now (take n self.now.all.items) k ≡ true) }
        ensures none { IfNone result (none_called name.now (take n self.now.all.items) ≡ true) }
    {
        let mut found = self.places.get(name);
        while let Some(k) = found {
            if k < n {
                return Some(k);
            }
            found = self.all[k].same;
        }
        None
    }
}

/// One more function behind these. The only error is want of memory.
pub fn push<'a>(
    alloc: Global,
    callees: &mut Vec<Callee<'a>>,
    places: &mut Places,
    function: &'a Function,
    taken: FunctionTaken,
) -> Result<(), AllocError>
    ensures pushed { (f : Flagged) → f.function ≡ view_function function.now → f.taken ≡ seen_function taken → OnOk result (map seen_callee callees.new.items ≡ map seen_callee callees.old.items ++ f ∷ []) }
    ensures indexed { IsIndexed places.old callees.old.items → OnOk result (IsIndexed places.new callees.new.items) }
{
    let name = function.name.bytes();
    let same = places.get(name);
    places.set(alloc, name, callees.len())?;
    callees.push(Callee {
        function,
        taken,
        same,
    })?;
    Ok(())
}

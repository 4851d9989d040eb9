//! The tables of a unit, found by their names.

ghost use Rattle.std.specs.Prelude.{◌≡◌, ◌<◌, true, [], IfOk, IfSome, IfNone, length, map, option_map, take};
ghost use Rattle.c_memory.specs.MeaningState.{found};
ghost use Rattle.c_meaning.specs.Bindings.{seen_binding, stacked, none_named, is_last_named, ArePlaced};

use crate::objects::Binding;
use crate::places::Places;
use std::alloc::{AllocError, Global};

/// The tables of a unit, which all its functions share.
#[derive(Drop)]
pub struct Tables<'a> {
    /// The innermost last.
    pub bindings: Vec<Binding<'a>>,
    /// The place of the last table of each name.
    pub places: Places,
    ghost placed: { ArePlaced places bindings.items },
}

/// The place of the last of these objects that has the name.
#[tactic(auto, using(crate::proofs::Stacks::last_named_from))]
pub fn position(bindings: &[Binding<'_>], name: &[u8]) -> Option<usize>
    ensures within { IfSome result (λ k. k < length bindings.now) }
    ensures last { IfSome result (λ k. is_last_named name.now bindings.now k ≡ true) }
    ensures none { IfNone result (none_named name.now bindings.now ≡ true) }
{
    let mut k = bindings.len();
    while k > 0 {
        k -= 1;
        if name == bindings[k].name {
            return Some(k);
        }
    }
    None
}

/// The innermost of these objects that has the name.
#[tactic(auto, using(crate::proofs::Stacks::found_none, crate::proofs::Stacks::found_at))]
fn find_in<'a>(bindings: &[Binding<'a>], name: &[u8]) -> Option<Binding<'a>>
    ensures { option_map seen_binding result ≡ found name.now (stacked bindings.now []) }
{
    match position(bindings, name) {
        None => None,
        Some(k) => Some(bindings[k]),
    }
}

/// The places of the last objects of each name. The only error is want of memory.
fn places_of(alloc: Global, bindings: &[Binding<'_>]) -> Result<Places, AllocError>
    ensures { IfOk result (λ p. ArePlaced p bindings.now) }
{
    let mut places = Places::new(alloc);
    for (k, binding) in bindings.iter().enumerate() {
        places.set(alloc, binding.name, k)?;
    }
    Ok(places)
}

impl<'a> Tables<'a> {
    /// These tables, of which the innermost comes first. The only error is want of memory.
    #[tactic(auto, using(crate::proofs::Stacks::stacked_reverse))]
    pub fn from_innermost(
        alloc: Global,
        bindings: Vec<Binding<'a>>,
    ) -> Result<Tables<'a>, AllocError>
        ensures { IfOk result (λ t. stacked t.bindings.items [] ≡ map seen_binding bindings.entry.items) }
    {
        let mut bindings = bindings;
        bindings.reverse();
        let places = places_of(alloc, bindings.as_slice())?;
        Ok(Tables { bindings, places })
    }

    /// The first so many tables, the outermost.
    pub fn first(&self, count: usize) -> &[Binding<'a>]
        ensures { result.now ≡ take count self.now.bindings.items }
    {
        let all = self.bindings.as_slice();
        &all[..count.min(all.len())]
    }

    /// The innermost of the first so many tables that has the name.
    #[tactic(auto, using(crate::proofs::Shared::placed_none, crate::proofs::Shared::placed_within, crate::proofs::Shared::placed_at))]
    pub fn find(&self, count: usize, name: &[u8]) -> Option<Binding<'a>>
        ensures { option_map seen_binding result ≡ found name.now (stacked (take count self.now.bindings.items) []) }
    {
        match self.places.get(name) {
            None => None,
            Some(k) => {
                if k < count {
                    Some(self.bindings[k])
                } else {
                    find_in(self.first(count), name)
                }
            }
        }
    }
}

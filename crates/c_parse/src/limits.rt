//! How much a unit may hold.

ghost use Rattle.std.specs.Prelude.{◌≡◌, map};
ghost use Rattle.std.specs.Option.{option_map};
ghost use Rattle.c_tree.specs.View.{view_function, view_item};
ghost use Rattle.c_parse.specs.Limits.{passes_limit, first_past};

use c_tree::{Function, Item};

// Whether a function with this many parameters, behind this many functions, passes a limit.
fn passes_limit(before: usize, parameters: usize) -> bool
    ensures { result ≡ passes_limit before parameters }
{
    before >= 4096 || parameters >= 128
}

// The first function that passes a limit.
#[tactic(auto, using(crate::proofs::ItemsGrow::room, crate::proofs::ItemsGrow::parameters))]
pub fn first_past(items: &[Item]) -> Option<&Function>
    ensures { option_map (λ f. view_function f.now) result ≡ first_past 0 (map view_item items.now) }
{
    let mut before: usize = 0;
    let mut left = items;
    while let [item, rest @ ..] = left {
        if let Item::Function(function) = item {
            if passes_limit(before, function.params.len()) {
                return Some(function);
            }
            before += 1;
        }
        left = rest;
    }
    None
}

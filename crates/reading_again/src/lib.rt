//! What a unit that is written does, the unit that is read from its text does too: laws of the check and of the meaning, over all units.
#![tactic(auto)]

mod laws;

pub use c_tree::CType;
pub use laws::{
    a_typed_unit_is_given_back, a_unit_that_differs_in_places_stands_for_it, places_do_not_count,
    same_trees_get_the_same_types,
};

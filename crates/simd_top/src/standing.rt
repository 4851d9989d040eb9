//! What is read of a unit's text stands for the unit.

ghost use Rattle.simd_top.specs.Standing.{AllStand};

use reading_again::{
    a_unit_that_differs_in_places_stands_for_it, places_do_not_count, same_trees_get_the_same_types,
};
use round_trip::good_units_are_read_again;

/// A Neon unit that can be printed and that the check gives back as it is, is read again from its text as a unit that differs from it in places
/// alone, and does what it does. So what holds of a unit as it is made to be written holds of the one that a reader of the text has.
pub fn what_is_read_stands_for_what_is_written()
    ensures { AllStand }
{
    good_units_are_read_again();
    same_trees_get_the_same_types();
    places_do_not_count();
    a_unit_that_differs_in_places_stands_for_it();
}

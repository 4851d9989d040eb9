//! What holds of units that have their types and are movable.

ghost use Rattle.ready_units.specs.Claims.{MovableUnitsAreReady, MovedUnitsDoTheSame};

use written_forms::what_is_written_does_the_same;

/// The parts of a unit that has its types and is movable have the types that their places need, and each row that it calls has a sequence that
/// stands for it, in place or as a function. This runs nothing.
pub fn movable_units_are_ready()
    ensures { MovableUnitsAreReady }
{}

/// For every function of a unit that has its types and is movable, all arguments, every memory and every bound on turns on which the unit is
/// defined, the unit that is written for it gives the same value and leaves the same bytes. This runs nothing.
pub fn moved_units_do_the_same()
    ensures { MovedUnitsDoTheSame }
{
    movable_units_are_ready();
    what_is_written_does_the_same();
}

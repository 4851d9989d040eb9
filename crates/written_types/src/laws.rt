//! What holds of the types of what is written.

ghost use Rattle.written_types.specs.Claims.{WrittenUnitsAreTyped};

use ready_units::movable_units_are_ready;
use sequence_types::{a_function_has_its_types, a_sequence_in_place_has_its_type};

/// The unit that is written for a source that has its types and is movable passes the check of the Neon dialect as it stands: no conversion is
/// wanted in it. This runs nothing.
pub fn a_written_unit_has_types()
    ensures { WrittenUnitsAreTyped }
{
    a_sequence_in_place_has_its_type();
    a_function_has_its_types();
    movable_units_are_ready();
}

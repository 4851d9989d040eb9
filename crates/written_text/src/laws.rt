//! What holds of the text of what is written.

ghost use Rattle.written_text.specs.Claims.{WrittenUnitsArePrinted};

use ready_units::movable_units_are_ready;

/// The unit that is written for a source that has its types and is movable can be printed and is read as it is written, and no `sizeof` and no
/// array stand in it. This runs nothing.
pub fn a_written_unit_is_printed()
    ensures { WrittenUnitsArePrinted }
{
    movable_units_are_ready();
}

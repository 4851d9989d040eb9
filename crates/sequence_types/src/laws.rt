//! What holds of what is written for a sequence, as the check of the Neon dialect sees it.

ghost use Rattle.sequence_types.specs.Claims.{InPlaceIsTyped, FunctionIsTyped};

/// A sequence that stands in place of a call, over operands of its parameters' types, has the type of its value as it stands. This runs nothing.
pub fn a_sequence_in_place_has_its_type()
    ensures { InPlaceIsTyped }
{}

/// The function that is written for a sequence passes the check as it stands. This runs nothing.
pub fn a_function_has_its_types()
    ensures { FunctionIsTyped }
{}

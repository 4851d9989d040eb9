//! What holds of what is written.

ghost use Rattle.written_forms.specs.Claims.{WrittenDoesTheSame};
ghost use Rattle.written_forms.specs.Scalars.{ValueRowsStand};
ghost use Rattle.written_forms.specs.Vectors.{VectorRowsStand};

use c_memory::braces_change_nothing;
use seq_core::{
    a_function_does_what_its_sequence_does, a_sequence_in_place_gives_its_value,
    a_sequence_in_place_runs_out_with_its_operands, a_sequence_in_place_takes_no_address,
    a_sequence_without_memory_gives_its_value,
};
use simulation::{a_memory_that_covers_serves, turns_are_counted_alike};

/// For every function of a unit that is ready, all arguments, every memory and every bound on turns on which the unit is defined, what is
/// written for it behind the functions of its rows gives the same value, leaves the same bytes and spends as many turns.
pub fn what_is_written_does_the_same()
    ensures { WrittenDoesTheSame }
{
    braces_change_nothing();
    a_function_does_what_its_sequence_does();
    a_sequence_without_memory_gives_its_value();
    a_sequence_in_place_gives_its_value();
    a_sequence_in_place_runs_out_with_its_operands();
    a_sequence_in_place_takes_no_address();
    a_memory_that_covers_serves();
    turns_are_counted_alike();
}

/// A sequence whose value is an Intel row's for all registers and an immediate stands for the row, where the row takes and gives registers of 128 bits
/// and touches no memory.
pub fn a_sequence_of_registers_stands_for_its_row()
    ensures { VectorRowsStand }
{}

/// A sequence whose parameters and value have the types that an Intel row's are written as, and whose value is the row's for all registers and
/// integers and an immediate, stands for the row, where the row touches no memory.
pub fn a_sequence_of_values_stands_for_its_row()
    ensures { ValueRowsStand }
{}

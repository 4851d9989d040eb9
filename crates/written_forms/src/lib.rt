//! What each form of a source is written as, and that it does the same.
//!
//! `specs/Moved.antt`, `Statements.antt` and `Helpers.antt` say what is written for expressions, statements and functions, and units;
//! `Ready.antt`, `ReadyStatements.antt` and `ReadyUnits.antt` say what is asked of a source.
#![tactic(auto)]

mod laws;

pub use laws::{
    a_sequence_of_registers_stands_for_its_row, a_sequence_of_values_stands_for_its_row,
    what_is_written_does_the_same,
};

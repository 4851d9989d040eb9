//! The types of the unit that is written for a source.
#![tactic(auto)]

mod laws;

pub use laws::a_written_unit_has_types;

//! The types of what is written for the sequences of rows.
#![tactic(auto)]

mod laws;

pub use laws::{a_function_has_its_types, a_sequence_in_place_has_its_type};

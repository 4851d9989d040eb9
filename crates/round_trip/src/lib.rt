//! What is printed of a unit is read again as the same unit.
#![tactic(auto)]

mod laws;

pub use laws::{
    a_text_has_one_list_of_tokens, good_units_are_read_again, printed_units_are_read_again,
};

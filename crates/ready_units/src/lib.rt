//! Units that are moved: which they are, and that what is written for them does the same.
#![tactic(auto)]

mod laws;

pub use laws::{movable_units_are_ready, moved_units_do_the_same};

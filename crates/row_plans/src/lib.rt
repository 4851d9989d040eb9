//! The sequence of each row, by its name and immediate.
#![tactic(auto)]

mod laws;

pub use laws::plans_fit;

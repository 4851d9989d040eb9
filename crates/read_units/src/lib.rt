//! Units that the grammar reads from tokens, and what they can be relied on for when they are written again.
#![tactic(auto)]

mod laws;

pub use laws::units_of_the_grammar_are_read;

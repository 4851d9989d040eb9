//! The names among the tokens that the directives and macros of a text leave.
#![tactic(auto)]

mod laws;

pub use laws::expansions_have_names;

//! Sequences of Neon calls for the Intel rows that touch memory.
#![tactic(auto)]

mod plans;

pub use plans::{is_built, plan};

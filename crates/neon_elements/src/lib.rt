//! What the Neon rows do to elements and vectors, by the pseudocode of the Arm Architecture Reference Manual.
#![tactic(auto)]

pub mod elements;
pub mod permutes;
pub mod vectors;

//! The evaluator of units: what the call of a function answers and leaves.
#![tactic(auto)]

mod beginnings;
mod called;
mod calls;
mod evaluation;
mod flags;
mod found;
mod functions;
mod names;
mod objects;
mod places;
mod rows;
mod state;
mod tables;
mod unit;
mod values;

pub use crate::unit::run;
pub use c_memory::{Memory, Outcome, Pointer, Value, VectorTable};

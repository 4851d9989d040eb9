//! What operators, conversions, loads, stores and calls of rows give: the leaves of an evaluator.
#![tactic(auto)]

mod accesses;
mod blocks;
mod encoding;
pub mod numbers;
pub mod objects;
pub mod operators;
pub mod rows;

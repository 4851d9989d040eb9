//! The text of a unit of C, as it is written for `arm_neon.h`.
//!
//! `specs/Text.antt` says what the text is: a definition by cases on the tree that contracts see of a unit.
#![tactic(auto)]

mod constants;
mod declarations;
mod expressions;
mod statements;
mod types;
mod units;

pub use units::print;

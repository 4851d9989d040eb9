//! The value of the expression of an `#if` or `#elif` line, by ISO C11 6.10.1.
#![tactic(auto)]

mod reading;
mod signs;
mod worths;

pub use reading::{holds, value};

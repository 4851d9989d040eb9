//! The integer and character constants of the C subset, by ISO C11 6.4.4: their values and types.
#![tactic(auto)]

mod character;
mod constants;
mod integer;

pub use constants::{constant, is_c_token};

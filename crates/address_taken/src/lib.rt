//! Which objects of a function have their address taken, by what their scopes have (C11 6.2.1).
#![tactic(auto)]

mod hiding;
mod marking;
mod names;
mod taken;
mod takes;

pub use names::Marks;
pub use taken::{FunctionTaken, Taken, address_taken, taken_and_outside};
pub use takes::takes_statements;

//! Sequences of Neon calls for the rows that compute lane by lane on 128 bits.
#![tactic(auto)]

mod calls;
mod counts;
mod laws;
mod plans;
mod products;
mod rows;

pub use laws::plans_are_rows;
pub use plans::{is_arithmetic, plan};

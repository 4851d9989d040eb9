//! Sequences of Neon calls for the rows of 128 bits that pack, extend and select lanes, take or give single values, and reduce a vector.
#![tactic(auto)]

mod calls;
mod laws;
mod plans;
mod sets;
mod terms;
mod tests;

pub use laws::plans_are_rows;
pub use plans::{is_packing, plan};

//! The forms of Neon rows: what a row of each form takes, touches and gives, by the Arm Neon Intrinsics Reference.
#![tactic(auto)]

pub mod forms;
mod values;

pub use forms::{Form, Narrow, Part, Transfer, access, accesses, range, signature};
pub use values::value;

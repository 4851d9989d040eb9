//! The forms of Intel rows: what a row of each form takes, touches and gives, by the Intel Intrinsics Guide.
#![tactic(auto)]

pub mod across;
pub mod forms;
pub mod memory;
pub mod scalars;
pub mod sizes;
mod values;

pub use forms::{Extension, Form, access, accesses, range, signature};
pub use sizes::Size;
pub use values::value;

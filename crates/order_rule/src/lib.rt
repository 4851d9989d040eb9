//! The order rule: the expressions whose result could depend on the order in which operands are evaluated (C11 6.5p2, p3) are refused.
//!
//! A part of a full expression is walked a few times, however many variables it steps or assigns.
#![tactic(auto)]

mod callees;
mod counting;
mod findings;
mod laws;
mod memory;
mod parts;
mod reading;
mod times;
mod walk;
mod writing;

pub use c_text::{Fail, Refusal};
pub use c_tree::Function;
pub use callees::{Callees, Effects};
pub use laws::passing_is_by_the_rules;
pub use scopes::{Names, Row};
pub use walk::{check_order, effects};

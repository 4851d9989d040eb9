//! The names that a place in a unit sees: objects in scopes, functions of the unit (C11 6.2.1), and rows of a table.
//!
//! Look-ups take the time of a few of a map: one for each scope around the place.
#![tactic(auto)]

mod environment;
mod laws;
mod names;

pub use c_text::Dialect;
pub use c_tree::{CType, Text};
pub use environment::{Callee, Environment, Object, Row, row_named};
pub use laws::scopes_end;
pub use names::Names;
pub use type_rules::{Heading, ImmRange, Parameter};

//! Types of units: functions and tables with every type set and each conversion a cast, or one refusal for each that fails.
#![tactic(auto)]

mod file_scope;
mod functions;
mod headings;
mod laws;
mod order;
mod rows;
mod tables;
mod typed_unit;
mod units;

pub use c_text::{Dialect, Refusal};
pub use c_tree::{Function, Item, Unit};
pub use laws::units_are_typed_by_rules;
pub use rows::{neon_names, rows_of_table};
pub use typed_unit::TypedUnit;
pub use units::{CheckFail, check};

//! Shuffle rows: which bytes of its operands each takes, and the cheapest Neon call that gives them.
#![tactic(auto)]

mod laws;
mod listed;
mod plans;
mod selections;
mod sequences;

pub use laws::{forms_give, forms_serve, selections_are_rows};
pub use listed::forms;
pub use plans::plan;
pub use price_choice::{Chooser, Form, FormKind, Pick, Side};
pub use selections::{is_shuffle, selection};

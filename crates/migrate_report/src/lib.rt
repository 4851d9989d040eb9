//! The texts of a run: the lines of refusals, the items that give a function its arguments and memory, and what came of it.
#![tactic(auto)]

mod fits;
mod items;
mod lines;
mod texts;

pub use fits::{FitFail, fit};
pub use items::{items_fit_form, number};
pub use lines::refusal_lines;
pub use texts::outcome_text;

//! The top call of the tool: words, a source and two sinks.
//!
//! It runs a function of any unit of either dialect that the profile admits. Today it migrates units of one form, and runs a function of them before
//! and after: functions that take registers of 16 bytes and return a nest of five rows. An admitted unit of another form is refused.
#![tactic(auto)]

mod comparing;
mod due;
mod form;
mod front;
mod moving;
mod names;
mod refusals;
mod rows;
mod running;
mod standing;
mod status;
mod top;
mod words;

pub use comparing::both_text;
pub use standing::what_is_read_stands_for_what_is_written;
pub use status::Status;
pub use top::simdmove;

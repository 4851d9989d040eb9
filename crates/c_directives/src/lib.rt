//! Directives, by ISO C11 6.10: from the tokens of a text to those that its directives and macros leave. It takes time linear in the tokens and
//! the work that is done.
#![tactic(auto)]

mod conditions;
mod defining;
mod definitions;
mod directives;
mod expansion;
mod headers;
mod laws;
mod numbers;
mod operands;
mod parts;
mod predefined;
mod rules;
mod same;
mod state;
mod words;

pub use expansion::expand;
pub use laws::{expansion_numbers, printed_text};
pub use rules::{Rules, rules_of};

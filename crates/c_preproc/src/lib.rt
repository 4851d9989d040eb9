//! From the tokens of a C text to those that are parsed: directives and macros are expanded, and what is left has no token that C hasn't got,
//! no excluded word, and nesting within limits.
#![tactic(auto)]

mod counts;
mod expanding;
mod limits;
mod nesting;
mod roles;
mod scanning;
mod words;

pub use expanding::expand;
pub use scanning::scan;

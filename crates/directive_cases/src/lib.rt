//! Tables of texts with directives and uses of macros, and what is left of them. Nothing stands on this crate.
#![tactic(auto)]

#[cfg(test)]
mod expanding;
#[cfg(test)]
mod texts;

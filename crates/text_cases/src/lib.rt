//! Tables of texts and their tokens, of streams, and of rows found by name. Nothing stands on this crate.
#![tactic(auto)]

#[cfg(test)]
mod row_search;
#[cfg(test)]
mod scans;
#[cfg(test)]
mod streams;
#[cfg(test)]
mod tokens;

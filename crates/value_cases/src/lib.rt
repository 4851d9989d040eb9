//! Tables of calls on values, on rows and on the items of a run. Nothing stands on this crate.
#![tactic(auto)]

#[cfg(test)]
mod leaves;
#[cfg(test)]
mod one_row;
#[cfg(test)]
mod reports;

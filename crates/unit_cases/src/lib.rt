//! Tables of units as texts: their types, and what runs of their functions answer. Nothing stands on this crate.
#![tactic(auto)]

#[cfg(test)]
mod both_runs;
#[cfg(test)]
mod outcomes;
#[cfg(test)]
mod reading;
#[cfg(test)]
mod typed_units;

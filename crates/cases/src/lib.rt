//! Tables of texts, trees, values and outcomes over the public calls of all crates: what no clause says, and what comes from outside, as
//! worked rows, values of processors and of other compilers. Nothing stands on this crate.
#![tactic(auto)]

#[cfg(test)]
mod addresses;
#[cfg(test)]
mod blocks;
#[cfg(test)]
mod constant_expressions;
#[cfg(test)]
mod constants;
#[cfg(test)]
mod headings_of_rows;
#[cfg(test)]
mod lanes;
#[cfg(test)]
mod names_in_scopes;
#[cfg(test)]
mod numbers;

//! Tables of what the top call answers, of rows that are called by functions that it runs, and of functions of sequences. Nothing stands on this crate.
#![tactic(auto)]

#[cfg(test)]
mod arm_rows;
#[cfg(test)]
mod intel_rows;
#[cfg(test)]
mod kinds;
#[cfg(test)]
mod rows;
#[cfg(test)]
mod sequences;
#[cfg(test)]
mod top_calls;

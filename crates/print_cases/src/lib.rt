//! Tables of trees and their texts, and of copies of trees. Nothing stands on this crate.
#![tactic(auto)]

#[cfg(test)]
mod making;
#[cfg(test)]
mod naming;
#[cfg(test)]
mod printing;
#[cfg(test)]
mod trees;

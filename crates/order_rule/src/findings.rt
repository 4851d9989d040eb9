//! What is found of full expressions.

use crate::callees::Effects;
use c_tree::Expr;

/// What is found of the full expressions so far.
#[derive(Clone, Copy)]
pub struct Findings<'e> {
    /// What they may do.
    pub effects: Effects,
    /// The first part that breaks the rule.
    pub broken: Option<&'e Expr>,
}

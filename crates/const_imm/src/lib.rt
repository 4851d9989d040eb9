//! Values of constant expressions (C11 6.6).
#![tactic(auto)]

mod evaluation;
mod expressions;
mod sizes;

pub use c_tree::{Expr, Num, Place};
pub use expressions::{NotConst, eval_const};
pub use sizes::size_of;

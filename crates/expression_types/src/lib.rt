//! Types of expressions: the expression with every type set and each conversion a cast, or the first node that fails.
#![tactic(auto)]

mod check;
mod laws;
mod names;
mod objects;

pub use c_text::{Dialect, Fail, Refusal};
pub use c_tree::{CType, Expr, ExprKind, Place, Text};
pub use check::check_expression;
pub use laws::expressions_are_typed_by_rules;
pub use scopes::{Callee, Environment, Names, Object};

//! Types of statements: the statement with every type set and each conversion a cast, or the first node that fails.
#![tactic(auto)]

mod declarations;
mod laws;
mod parts;
mod statements;

pub use c_tree::{CType, Declared, Expr, Place, Stmt};
pub use declarations::check_objects;
pub use expression_types::{Environment, Fail, Refusal};
pub use laws::statements_are_typed_by_rules;
pub use statements::check_body;

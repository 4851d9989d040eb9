//! The tree of a unit of C: its expressions, statements, functions and tables.
//!
//! Contracts see a tree as plain data: `specs/Tree.antt` has the data, and `specs/View.antt` says what is seen of the code's types.
#![tactic(auto)]

mod expressions;
mod marks;
mod operators;
mod same;
mod statements;
mod types;
mod units;
mod vectors;

pub use c_text::{Place, Text};
pub use expressions::{Expr, ExprKind, copy_exprs};
pub use lane_core::number::{BinOp, IntType, Num, UnOp};
pub use lane_core::vector::{NeonLane, Pointee};
pub use marks::{fault, mark, name_fault, root};
pub use operators::{operator_text, prefix_text, step_text};
pub use same::same_is_an_equivalence;
pub use statements::{Declared, Stmt, copy_objects, copy_stmts};
pub use types::{CType, is_array};
pub use units::{Function, Item, Unit};
pub use vectors::vector_named;

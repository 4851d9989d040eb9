//! Declared objects: which names may be declared, and the types of variables with what they begin with.
#![tactic(auto)]

mod laws;
mod objects;
mod parts;
mod reserved;

pub use c_tree::{CType, Declared, Expr, Place, Text};
pub use expression_types::{Dialect, Environment, Fail, Refusal};
pub use laws::objects_are_typed_by_rules;
pub use objects::{check_object, declared_type, known};
pub use parts::{alignment, is_object_type, member, members, new_name, small};
pub use reserved::is_reserved;

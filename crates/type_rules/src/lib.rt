//! Types of expressions of C: what each operator, cast and call gives for the types of its parts, and the conversions of these.
#![tactic(auto)]

mod conversions;
mod laws;
mod operands;
pub mod operations;
mod passing;
mod types;

pub use c_text::Dialect;
pub use c_tree::{
    BinOp, CType, Expr, ExprKind, IntType, NeonLane, Num, Place, Pointee, Text, UnOp,
};
pub use conversions::{assigned_expr, converted_expr, is_zero_expr, name_expr};
pub use lane_core::table::{ImmRange, ParamKind, Sig};
pub use laws::types_are_by_rules;
pub use operands::Fit;
pub use passing::{Heading, Parameter, immediate_of, is_in_range, passed, row_heading};
pub use types::{
    is_integer, is_object, is_scalar, is_vector, is_void_pointer, object_type, read_integer,
    read_type, same_pointee, same_type,
};

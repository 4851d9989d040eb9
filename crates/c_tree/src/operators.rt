//! How operators are spelled.

ghost use Rattle.std.specs.Prelude.{◌≡◌};
ghost use Rattle.c_tree.specs.Operators.{operator_text, prefix_text, step_text};

use lane_core::number::{BinOp, UnOp};

/// An operator between two operands (C11 6.5.5 to 6.5.12).
pub fn operator_text(op: BinOp) -> &'static [u8]
    ensures { result.now ≡ operator_text op }
{
    match op {
        BinOp::Mul => b"*",
        BinOp::Div => b"/",
        BinOp::Rem => b"%",
        BinOp::Add => b"+",
        BinOp::Sub => b"-",
        BinOp::Shl => b"<<",
        BinOp::Shr => b">>",
        BinOp::Lt => b"<",
        BinOp::Gt => b">",
        BinOp::Le => b"<=",
        BinOp::Ge => b">=",
        BinOp::Eq => b"==",
        BinOp::Ne => b"!=",
        BinOp::BitAnd => b"&",
        BinOp::BitXor => b"^",
        BinOp::BitOr => b"|",
    }
}

/// An operator before its operand (C11 6.5.3.3).
pub fn prefix_text(op: UnOp) -> &'static [u8]
    ensures { result.now ≡ prefix_text op }
{
    match op {
        UnOp::Plus => b"+",
        UnOp::Neg => b"-",
        UnOp::BitNot => b"~",
        UnOp::Not => b"!",
    }
}

/// A step upwards or downwards (C11 6.5.2.4, 6.5.3.1).
pub fn step_text(up: bool) -> &'static [u8]
    ensures { result.now ≡ step_text up }
{
    if up { b"++" } else { b"--" }
}

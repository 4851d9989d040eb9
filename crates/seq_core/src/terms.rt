//! Terms and sequences.

use c_tree::CType;
use lane_core::number::{BinOp, IntType, Num};
use neon_table::NeonOp;

/// An expression over parameters and the values of earlier steps. Pointers are moved and read by bytes.
#[derive(Drop)]
pub enum Term {
    /// A parameter, by its place, counted from 0.
    Param(u8),
    /// The value of an earlier step, by its place.
    Step(u8),
    /// A constant vector of 128 bits, byte 0 lowest.
    Const([u8; 16]),
    /// A constant integer.
    Int(Num),
    /// The call of a row: its operands, one for each parameter but the constant, and the constant, 0 for a row without one.
    Call(NeonOp, Vec<Term>, u16),
    /// A pair of two vectors of 128 bits.
    PairOf(Box<Term>, Box<Term>),
    /// Half 0 or 1 of a pair.
    Half(Box<Term>, u8),
    /// An operator between two integers.
    Scalar(BinOp, Box<Term>, Box<Term>),
    /// An integer converted to a type.
    Convert(IntType, Box<Term>),
    /// The second where the first isn't 0, else the third. The other one isn't evaluated.
    Choice(Box<Term>, Box<Term>, Box<Term>),
    /// A pointer moved by a number of bytes, as a pointer to bytes.
    Shifted(Box<Term>, Box<Term>),
    /// The byte at a pointer to bytes.
    ByteAt(Box<Term>),
    /// Writes the second term's byte at the first term's pointer. Its value is that byte.
    SetByte(Box<Term>, Box<Term>),
}

/// Steps that are evaluated in order, and the value.
#[derive(Drop)]
pub struct Seq {
    /// The types of the parameters.
    pub params: Vec<CType>,
    /// The steps. One that calls a storing row has no value.
    pub steps: Vec<Term>,
    /// The value, where there is one.
    pub result: Option<Term>,
}

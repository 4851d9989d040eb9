//! Macros, by their names.

use c_text::{Text, Token};
use std::marker::Model;

/// A token of a macro's body.
#[derive(Drop)]
pub struct Piece {
    pub token: Token,
    /// The number of the parameter that it names, from 0.
    pub parameter: Option<usize>,
}

/// What a macro's name stands for.
#[derive(Drop)]
pub struct Macro {
    /// Its name is followed by parameters in brackets.
    pub function_like: bool,
    pub parameters: Vec<Text>,
    pub body: Vec<Piece>,
    /// For each parameter whether it stands in the body.
    pub used: Vec<bool>,
}

impl Model for Macro {
    ghost use Rattle.c_macros.specs.Definition.{Definition};

    ghost Value = { Definition };

    ghost view = { λ m. record { function_like = m.function_like; parameters = m.parameters.items; body = m.body.items; used = m.used.items } };
}

//! What tokens are in the expression of an `#if` line.

ghost use Rattle.std.specs.Prelude.{◌≡◌, option_map};
ghost use Rattle.c_conditions.specs.Signs.{is_mark, link_of_mark, link_by, link_of, mark_start, constant_start, start_of, start};
ghost use Rattle.c_conditions.specs.Levels.{IsLow};

use crate::worths::{Worth, constant_worth, truth_of};
use c_constants::constant;
use c_text::{Token, TokenKind};
use lane_core::number::{BinOp, Num, UnOp};

/// An operator between two operands that groups to the left (C11 6.5.5 to 6.5.14).
#[derive(Clone, Copy, Debug, PartialEq, Eq)]
pub enum Infix {
    /// `||`.
    OrElse,
    /// `&&`.
    AndThen,
    Operator(BinOp),
}

/// How a token goes on behind an operand.
#[derive(Clone, Copy, Debug, PartialEq, Eq)]
pub enum Link {
    /// An operator, with its level: from 1 for `||` to 10 for `*`, `/` and `%`.
    Infix(u8, Infix),
    /// `?`.
    Question,
    /// Not at all.
    Nothing,
}

/// What a token begins where an operand must stand.
#[derive(Clone, Copy, Debug)]
pub enum Start {
    /// An operator before its operand.
    Prefix(UnOp),
    /// An expression in brackets.
    Bracket,
    /// It is an operand.
    Operand(Worth),
    /// Nothing.
    Nothing,
}

/// Whether the token is this mark.
pub fn is_mark(text: &[u8], token: &Token) -> bool
    ensures { result ≡ is_mark text.now token.now }
{
    token.kind == TokenKind::Mark && token.text.bytes() == text
}

fn link_of_mark(text: &[u8]) -> Link
    ensures value { result ≡ link_of_mark text.now }
    ensures low { IsLow result }
{
    match text {
        b"?" => Link::Question,
        b"||" => Link::Infix(1, Infix::OrElse),
        b"&&" => Link::Infix(2, Infix::AndThen),
        b"|" => Link::Infix(3, Infix::Operator(BinOp::BitOr)),
        b"^" => Link::Infix(4, Infix::Operator(BinOp::BitXor)),
        b"&" => Link::Infix(5, Infix::Operator(BinOp::BitAnd)),
        b"==" => Link::Infix(6, Infix::Operator(BinOp::Eq)),
        b"!=" => Link::Infix(6, Infix::Operator(BinOp::Ne)),
        b"<" => Link::Infix(7, Infix::Operator(BinOp::Lt)),
        b">" => Link::Infix(7, Infix::Operator(BinOp::Gt)),
        b"<=" => Link::Infix(7, Infix::Operator(BinOp::Le)),
        b">=" => Link::Infix(7, Infix::Operator(BinOp::Ge)),
        b"<<" => Link::Infix(8, Infix::Operator(BinOp::Shl)),
        b">>" => Link::Infix(8, Infix::Operator(BinOp::Shr)),
        b"+" => Link::Infix(9, Infix::Operator(BinOp::Add)),
        b"-" => Link::Infix(9, Infix::Operator(BinOp::Sub)),
        b"*" => Link::Infix(10, Infix::Operator(BinOp::Mul)),
        b"/" => Link::Infix(10, Infix::Operator(BinOp::Div)),
        b"%" => Link::Infix(10, Infix::Operator(BinOp::Rem)),
        _ => Link::Nothing,
    }
}

fn link_by(kind: TokenKind, text: &[u8]) -> Link
    ensures value { result ≡ link_by kind text.now }
    ensures low { IsLow result }
{
    match kind {
        TokenKind::Mark => link_of_mark(text),
        _ => Link::Nothing,
    }
}

/// How a token goes on behind an operand.
#[tactic(auto, unfolding(crate::specs::Signs::link_of))]
pub fn link_of(token: &Token) -> Link
    ensures value { result ≡ link_of token.now }
    ensures low { IsLow result }
{
    link_by(token.kind, token.text.bytes())
}

fn mark_start(text: &[u8]) -> Start
    ensures { result ≡ mark_start text.now }
{
    match text {
        b"+" => Start::Prefix(UnOp::Plus),
        b"-" => Start::Prefix(UnOp::Neg),
        b"~" => Start::Prefix(UnOp::BitNot),
        b"!" => Start::Prefix(UnOp::Not),
        b"(" => Start::Bracket,
        _ => Start::Nothing,
    }
}

fn constant_start(text: &[u8], number: Option<Num>) -> Start
    ensures { result ≡ constant_start text.now (option_map (λ n. (n.ty, n.value)) number) }
{
    match number {
        None => Start::Nothing,
        Some(n) => Start::Operand(constant_worth(text, n)),
    }
}

fn start_of(kind: TokenKind, text: &[u8]) -> Start
    ensures { result ≡ start_of kind text.now }
{
    match kind {
        TokenKind::Name => Start::Operand(truth_of(false)),
        TokenKind::Number => constant_start(text, constant(kind, text)),
        TokenKind::Quote => constant_start(&[], constant(kind, text)),
        TokenKind::Mark => mark_start(text),
        TokenKind::Str | TokenKind::Lone => Start::Nothing,
    }
}

/// What a token begins where an operand must stand.
#[tactic(auto, unfolding(crate::specs::Signs::start))]
pub fn beginning(token: &Token) -> Start
    ensures { result ≡ start token.now }
{
    start_of(token.kind, token.text.bytes())
}

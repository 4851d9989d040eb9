//! What tokens begin with.

ghost use Rattle.std.specs.Prelude.{◌≡◌, ◌<◌, ◌≤◌, length, IfSome, IfNone, Some, None};
ghost use Rattle.std.specs.Option.{option_copied, option_map};
ghost use Rattle.c_parse.specs.Reading.{behind, front, place_at, past, name_front, type_front, cast_front, specifiers_front, no_specifiers, past_qualifiers, is_sign, is_star, is_qualifier, prefix_of, prefix_kind, step_of, level_of, infix_at, assignment_behind};

use crate::symbols::{Infix, Sign, Symbol, token_symbol};
use crate::types::{Specifiers, base, counted, no_specifiers, pointer, with_const};
use c_text::{Dialect, Place, Token};
use c_tree::{BinOp, CType, UnOp};

/// An operator before its operand (C11 6.5.3), without the steps and `sizeof`.
#[derive(Clone, Copy, Debug, PartialEq, Eq)]
pub enum Prefix {
    Unary(UnOp),
    Deref,
    Address,
}

fn prefix_symbol(symbol: Symbol) -> Option<Prefix>
    ensures found { IfSome result (λ p. prefix_of symbol ≡ Some (prefix_kind p)) }
    ensures none { IfNone result (prefix_of symbol ≡ None) }
{
    match symbol {
        Symbol::Infix(Infix::Operator(BinOp::Add)) => Some(Prefix::Unary(UnOp::Plus)),
        Symbol::Infix(Infix::Operator(BinOp::Sub)) => Some(Prefix::Unary(UnOp::Neg)),
        Symbol::Infix(Infix::Operator(BinOp::Mul)) => Some(Prefix::Deref),
        Symbol::Infix(Infix::Operator(BinOp::BitAnd)) => Some(Prefix::Address),
        Symbol::Tilde => Some(Prefix::Unary(UnOp::BitNot)),
        Symbol::Exclamation => Some(Prefix::Unary(UnOp::Not)),
        _ => None,
    }
}

// The operator before an operand that comes first, and what is behind it.
pub fn prefix_operator(dialect: Dialect, tokens: &[Token]) -> Option<(Prefix, &[Token])>
    ensures found { IfSome result (λ x. (prefix_of (front dialect tokens.now) ≡ Some (prefix_kind x.0)) × (x.1.now ≡ behind tokens.now)) }
    ensures shorter { IfSome result (λ x. length x.1.now < length tokens.now) }
    ensures none { IfNone result (prefix_of (front dialect tokens.now) ≡ None) }
{
    match tokens {
        [] => None,
        [token, rest @ ..] => match prefix_symbol(token_symbol(dialect, token)) {
            Some(op) => Some((op, rest)),
            None => None,
        },
    }
}

// The `++` or `--` that comes first, and what is behind it.
pub fn step(dialect: Dialect, tokens: &[Token]) -> Option<(bool, &[Token])>
    ensures found { IfSome result (λ x. (step_of (front dialect tokens.now) ≡ Some x.0) × (x.1.now ≡ behind tokens.now)) }
    ensures shorter { IfSome result (λ x. length x.1.now < length tokens.now) }
    ensures none { IfNone result (step_of (front dialect tokens.now) ≡ None) }
{
    match tokens {
        [] => None,
        [token, rest @ ..] => match token_symbol(dialect, token) {
            Symbol::Step(up) => Some((up, rest)),
            _ => None,
        },
    }
}

// How tight an operator between operands binds.
pub fn level(op: Infix) -> u8
    ensures { result ≡ level_of op }
{
    match op {
        Infix::OrElse => 3,
        Infix::AndThen => 4,
        Infix::Operator(BinOp::BitOr) => 5,
        Infix::Operator(BinOp::BitXor) => 6,
        Infix::Operator(BinOp::BitAnd) => 7,
        Infix::Operator(BinOp::Eq | BinOp::Ne) => 8,
        Infix::Operator(BinOp::Lt | BinOp::Gt | BinOp::Le | BinOp::Ge) => 9,
        Infix::Operator(BinOp::Shl | BinOp::Shr) => 10,
        Infix::Operator(BinOp::Add | BinOp::Sub) => 11,
        Infix::Operator(BinOp::Mul | BinOp::Div | BinOp::Rem) => 12,
    }
}

// The operator that comes first, where it binds at least as tight as this level, and what is behind it.
pub fn infix(dialect: Dialect, least: u8, tokens: &[Token]) -> Option<(Infix, &[Token])>
    ensures found { IfSome result (λ x. (infix_at dialect least tokens.now ≡ Some x.0) × (x.1.now ≡ behind tokens.now)) }
    ensures shorter { IfSome result (λ x. length x.1.now < length tokens.now) }
    ensures none { IfNone result (infix_at dialect least tokens.now ≡ None) }
{
    match tokens {
        [] => None,
        [token, rest @ ..] => match token_symbol(dialect, token) {
            Symbol::Infix(op) if least <= level(op) => Some((op, rest)),
            _ => None,
        },
    }
}

// The assignment behind an operand, which is no cast, and what is behind it.
pub fn assigned<'a>(
    dialect: Dialect,
    tokens: &[Token],
    left: &'a [Token],
) -> Option<(Option<BinOp>, &'a [Token])>
    ensures found { IfSome result (λ x. (assignment_behind dialect (cast_front dialect tokens.now) left.now ≡ Some x.0) × (x.1.now ≡ behind left.now)) }
    ensures shorter { IfSome result (λ x. length x.1.now < length left.now) }
    ensures none { IfNone result (assignment_behind dialect (cast_front dialect tokens.now) left.now ≡ None) }
{
    if cast(dialect, tokens).is_some() {
        return None;
    }
    match left {
        [] => None,
        [token, rest @ ..] => match token_symbol(dialect, token) {
            Symbol::Assign(op) => Some((op, rest)),
            _ => None,
        },
    }
}

// The first symbol.
pub fn first(dialect: Dialect, tokens: &[Token]) -> Symbol
    ensures { result ≡ front dialect tokens.now }
{
    match tokens {
        [] => Symbol::Other,
        [token, ..] => token_symbol(dialect, token),
    }
}

// The place of the first token.
pub fn place(tokens: &[Token]) -> Place
    ensures { result ≡ place_at tokens.now }
{
    match tokens {
        [] => Place { line: 0, col: 0 },
        [token, ..] => token.place,
    }
}

// What is behind the first token.
pub fn rest(tokens: &[Token]) -> &[Token]
    ensures value { result.now ≡ behind tokens.now }
    ensures shorter { length result.now ≤ length tokens.now }
{
    match tokens {
        [] => tokens,
        [_, rest @ ..] => rest,
    }
}

fn is_the(sign: Sign, symbol: Symbol) -> bool
    ensures { result ≡ is_sign sign symbol }
{
    match symbol {
        Symbol::Sign(found) => sign == found,
        _ => false,
    }
}

// What is behind this sign, where it comes first.
pub fn past(dialect: Dialect, sign: Sign, tokens: &[Token]) -> Option<&[Token]>
    ensures value { option_copied result ≡ past dialect sign tokens.now }
    ensures shorter { IfSome result (λ rest. length rest.now < length tokens.now) }
{
    match tokens {
        [] => None,
        [token, rest @ ..] => {
            if is_the(sign, token_symbol(dialect, token)) {
                Some(rest)
            } else {
                None
            }
        }
    }
}

// The name that comes first, and what is behind it.
pub fn name(dialect: Dialect, tokens: &[Token]) -> Option<(&Token, &[Token])>
    ensures value { option_map (λ x. (x.0.now, x.1.now)) result ≡ name_front dialect tokens.now }
    ensures shorter { IfSome result (λ x. length x.1.now < length tokens.now) }
{
    match tokens {
        [] => None,
        [token, rest @ ..] => match token_symbol(dialect, token) {
            Symbol::Name => Some((token, rest)),
            _ => None,
        },
    }
}

// The specifiers that come first, and what is behind them.
fn specifiers(dialect: Dialect, tokens: &[Token]) -> (Specifiers, &[Token])
    ensures value { (result.0, result.1.now) ≡ specifiers_front dialect no_specifiers tokens.now }
    ensures shorter { length result.1.now ≤ length tokens.now }
{
    let mut words = no_specifiers();
    let mut left = tokens;
    while let [token, rest @ ..] = left {
        match token_symbol(dialect, token) {
            Symbol::Type(word) => words = counted(words, word),
            Symbol::Const => words = with_const(words),
            _ => return (words, left),
        }
        left = rest;
    }
    (words, left)
}

fn is_qualifier(symbol: Symbol) -> bool
    ensures { result ≡ is_qualifier symbol }
{
    match symbol {
        Symbol::Const | Symbol::Restrict => true,
        _ => false,
    }
}

// What is behind the qualifiers of a pointer.
fn past_qualifiers(dialect: Dialect, tokens: &[Token]) -> &[Token]
    ensures value { result.now ≡ past_qualifiers dialect tokens.now }
    ensures shorter { length result.now ≤ length tokens.now }
{
    let mut left = tokens;
    while let [token, rest @ ..] = left {
        if !is_qualifier(token_symbol(dialect, token)) {
            return left;
        }
        left = rest;
    }
    left
}

fn is_star(symbol: Symbol) -> bool
    ensures { result ≡ is_star symbol }
{
    match symbol {
        Symbol::Infix(Infix::Operator(BinOp::Mul)) => true,
        _ => false,
    }
}

// The name of a type that comes first, and what is behind it.
#[tactic(auto, unfolding(crate::specs::Reading::type_front))]
pub fn type_name(dialect: Dialect, tokens: &[Token]) -> Option<(CType, &[Token])>
    ensures value { option_map (λ x. (x.0, x.1.now)) result ≡ type_front dialect tokens.now }
    ensures shorter { IfSome result (λ x. length x.1.now ≤ length tokens.now) }
{
    let (words, left) = specifiers(dialect, tokens);
    if is_star(first(dialect, left)) {
        let left = past_qualifiers(dialect, rest(left));
        match pointer(base(words), words.constant) {
            Some(ty) => Some((ty, left)),
            None => None,
        }
    } else {
        match base(words) {
            Some(ty) => Some((ty, left)),
            None => None,
        }
    }
}

// A type in brackets that comes first, with no brace behind it, and what is behind it.
pub fn cast(dialect: Dialect, tokens: &[Token]) -> Option<(CType, &[Token])>
    ensures value { option_map (λ x. (x.0, x.1.now)) result ≡ cast_front dialect tokens.now }
    ensures shorter { IfSome result (λ x. length x.1.now < length tokens.now) }
{
    let behind = past(dialect, Sign::Open, tokens)?;
    let (ty, behind) = type_name(dialect, behind)?;
    let behind = past(dialect, Sign::Close, behind)?;
    if is_the(Sign::OpenBrace, first(dialect, behind)) {
        None
    } else {
        Some((ty, behind))
    }
}

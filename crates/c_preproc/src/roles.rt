//! What a token does to nesting and weight.

ghost use Rattle.std.specs.Prelude.{◌≡◌, bytes_eq, unwrap_or};
ghost use Rattle.std.specs.Map.{lookup};
ghost use Rattle.c_preproc.specs.Role.{mark_roles, word_roles, role_of, next_role, is_mark, is_name};

use c_text::{Token, TokenKind};

/// What a token does to nesting and weight.
#[derive(Clone, Copy, Debug, PartialEq, Eq)]
pub enum Role {
    /// `(` or `[`.
    OpensBracket,
    /// `{`.
    OpensBrace,
    /// `)` or `]`.
    ClosesBracket,
    /// `}`.
    ClosesBrace,
    Semicolon,
    Comma,
    Colon,
    Question,
    Do,
    While,
    Else,
    IfOrFor,
    /// It adds one, and does no more: `sizeof`, and every mark that isn't named here.
    Adds,
    /// A `.`, or a token that is neither a mark nor one of these words.
    Nothing,
}

fn mark_role(text: &[u8]) -> Role
    ensures { result ≡ unwrap_or (lookup (bytes_eq text.now) mark_roles) Role.Adds }
{
    match text {
        b"(" | b"[" => Role::OpensBracket,
        b"{" => Role::OpensBrace,
        b")" | b"]" => Role::ClosesBracket,
        b"}" => Role::ClosesBrace,
        b";" => Role::Semicolon,
        b"," => Role::Comma,
        b":" => Role::Colon,
        b"?" => Role::Question,
        b"." => Role::Nothing,
        _ => Role::Adds,
    }
}

fn word_role(text: &[u8]) -> Role
    ensures { result ≡ unwrap_or (lookup (bytes_eq text.now) word_roles) Role.Nothing }
{
    match text {
        b"if" | b"for" => Role::IfOrFor,
        b"else" => Role::Else,
        b"while" => Role::While,
        b"do" => Role::Do,
        b"sizeof" => Role::Adds,
        _ => Role::Nothing,
    }
}

/// The role of a token.
#[tactic(auto, unfolding(crate::specs::Role::role_of))]
pub fn token_role(token: &Token) -> Role
    ensures { result ≡ role_of token.now }
{
    match token.kind {
        TokenKind::Mark => mark_role(token.text.bytes()),
        TokenKind::Name => word_role(token.text.bytes()),
        _ => Role::Nothing,
    }
}

/// The role of the first of these tokens.
pub fn next_role(tokens: &[Token]) -> Role
    ensures { result ≡ next_role tokens.now }
{
    match tokens {
        [] => Role::Nothing,
        [token, ..] => token_role(token),
    }
}

/// Whether a token is this mark.
pub fn is_mark(token: &Token, text: &[u8]) -> bool
    ensures { result ≡ is_mark text.now token.now }
{
    token.kind == TokenKind::Mark && token.text.bytes() == text
}

/// Whether a token is this name.
pub fn is_name(token: &Token, text: &[u8]) -> bool
    ensures { result ≡ is_name text.now token.now }
{
    token.kind == TokenKind::Name && token.text.bytes() == text
}

//! The arguments of a use.

ghost use Rattle.std.specs.Prelude.{◌≡◌, IfOk};
ghost use Rattle.c_macros.specs.Arguments.{is_mark, role, arguments};
ghost use Rattle.c_macros.specs.Seen.{listed, arguments_seen};

use crate::roles::Role;
use crate::segments::Segment;
use c_text::{Token, TokenKind};
use std::alloc::{AllocError, Global};

/// Whether the token is this mark.
pub fn is_mark(text: &[u8], token: &Token) -> bool
    ensures { result ≡ is_mark text.now token.now }
{
    token.kind == TokenKind::Mark && token.text.bytes() == text
}

pub fn role(token: &Token) -> Role
    ensures { result ≡ role token.now }
{
    if is_mark(b"(", token) {
        Role::Opens
    } else if is_mark(b")", token) {
        Role::Closes
    } else if is_mark(b",", token) {
        Role::Parts
    } else {
        Role::Other
    }
}

/// The arguments of a use, one at least.
#[derive(Drop)]
pub struct Arguments<'a> {
    pub list: Vec<Segment<'a>>,
    /// What stands behind the bracket that closes them.
    pub rest: Segment<'a>,
}

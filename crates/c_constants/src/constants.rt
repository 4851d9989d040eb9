//! The constants of the C subset, by ISO C11 6.4.4.

ghost use Rattle.std.specs.Prelude.{◌≡◌, option_map};
ghost use Rattle.c_constants.specs.Constant.{constant_of, is_c_token};

use crate::character::character_constant;
use crate::integer::integer_constant;
use c_text::{Token, TokenKind};
use lane_core::number::Num;

/// The number that a token of this kind and text is, with its type by ISO C11 6.4.4.1 and 6.4.4.4: that of an integer
/// constant (binary ones too) of at most 64 bits, or of a character constant of one character or escape. None for
/// every other token.
#[tactic(auto, unfolding(crate::specs::Constant::constant_of))]
pub fn constant(kind: TokenKind, text: &[u8]) -> Option<Num>
    ensures { option_map (λ n. (n.ty, n.value)) result ≡ constant_of kind text.now }
{
    match kind {
        TokenKind::Number => integer_constant(text),
        TokenKind::Quote => character_constant(text),
        TokenKind::Name | TokenKind::Str | TokenKind::Mark | TokenKind::Lone => None,
    }
}

/// Whether a token is one of the C subset.
pub fn is_c_token(token: &Token) -> bool
    ensures { result ≡ is_c_token token.now.kind token.now.text }
{
    match token.kind {
        TokenKind::Number | TokenKind::Quote => constant(token.kind, token.text.bytes()).is_some(),
        TokenKind::Name | TokenKind::Str | TokenKind::Mark => true,
        TokenKind::Lone => false,
    }
}

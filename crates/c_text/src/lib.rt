//! From the bytes of a C text to its tokens, by ISO C11 5.1.1.2 and 6.4.
#![tactic(auto)]

mod lexer;
mod pieces;
mod predefined;
mod refusals;
mod source;
mod tokens;
mod words;

pub use lexer::{lex, one_token_list, tokens_or_fault};
pub use predefined::{PredefinedName, predefined_names};
pub use refusals::{Fail, Refusal, refusal_name, refuse, refuse_token, shortened};
pub use tokens::{Dialect, Place, Text, Token, TokenKind};
pub use words::{is_among, lookup};

//! The expansion of a text.

ghost use Rattle.std.specs.Prelude.{◌≡◌, Ok, Err, IfOk, IfErr};
ghost use Rattle.c_text.specs.Details.{IfRefused};
ghost use Rattle.c_directives.specs.Directives.{expansion};

use c_text::{Dialect, Fail, Token};
use std::alloc::Global;

/// The tokens that the directives and macros of a text leave, by ISO C11 6.10.
///
/// # Errors
///
/// `Refused` with the first fault in the text, whose number is 5, 6, 7, 8, 19 or 20; `c_directives::expand` says which it is. `Memory` where
/// memory ran out.
pub fn expand(alloc: Global, tokens: &[Token], dialect: Dialect) -> Result<Vec<Token>, Fail>
    ensures found { IfOk result (λ v. expansion dialect tokens.now ≡ Ok v.items) }
    ensures refused { IfErr result (λ e. IfRefused e (λ r. expansion dialect tokens.now ≡ Err r)) }
{
    c_directives::expand(alloc, tokens, dialect)
}

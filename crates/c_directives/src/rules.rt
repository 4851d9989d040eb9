//! What a dialect fixes.

ghost use Rattle.std.specs.Prelude.{◌≡◌};
ghost use Rattle.c_directives.specs.Directives.{rules_of};

use c_text::Dialect;

/// The limits of an expansion, and the dialect, which has a list of headers and of predefined names.
#[derive(Clone, Copy, Debug)]
pub struct Rules {
    /// The greatest sum over all replaced uses of 1 and the tokens of the body with its arguments.
    pub work: usize,
    /// The greatest number of expanded tokens.
    pub tokens: usize,
    pub dialect: Dialect,
}

/// How many bodies may stand within one another.
pub const MACRO_DEPTH: usize = 64;

const EXPANSION_WORK: usize = 4_194_304;

const EXPANDED_TOKENS: usize = 1_048_576;

const NEON_EXPANDED_TOKENS: usize = 16_777_216;

/// The rules of a dialect.
pub fn rules_of(dialect: Dialect) -> Rules
    ensures { result ≡ rules_of dialect }
{
    let tokens = match dialect {
        Dialect::X86 => EXPANDED_TOKENS,
        Dialect::Neon => NEON_EXPANDED_TOKENS,
    };
    Rules {
        work: EXPANSION_WORK,
        tokens,
        dialect,
    }
}

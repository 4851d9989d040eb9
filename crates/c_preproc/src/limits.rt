//! How deep a text may be nested.

ghost use Rattle.std.specs.Prelude.{◌≡◌};
ghost use Rattle.c_preproc.specs.Nesting.{limits_of};

use c_text::Dialect;

/// How many brackets may be open at a token, and how much nesting may weigh.
#[derive(Clone, Copy, Debug, PartialEq, Eq)]
pub struct Limits {
    pub brackets: usize,
    pub weight: usize,
}

/// The limits of a dialect.
pub fn dialect_limits(dialect: Dialect) -> Limits
    ensures { result ≡ limits_of dialect }
{
    match dialect {
        Dialect::X86 => Limits {
            brackets: 64,
            weight: 255,
        },
        Dialect::Neon => Limits {
            brackets: 256,
            weight: 1023,
        },
    }
}

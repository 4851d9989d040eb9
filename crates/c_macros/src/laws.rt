//! What holds of all expansions.

ghost use Rattle.c_macros.specs.Free.{FreeTokens};
ghost use Rattle.c_macros.specs.Numbers.{MacroNumbers};

/// Tokens among which no macro's name stands expand to themselves, without work.
pub fn free_tokens()
    ensures { FreeTokens }
{}

/// What is refused is a use against the rules, too many bodies within bodies, or too much work.
pub fn macro_numbers()
    ensures { MacroNumbers }
{}

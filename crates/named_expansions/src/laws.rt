//! What holds of each expansion.

ghost use Rattle.named_expansions.specs.Claims.{ExpansionsHaveNames};

/// Where each name among the tokens of a text is a name of C, each one among the tokens that its directives and macros leave is one too. This runs
/// nothing.
pub fn expansions_have_names()
    ensures { ExpansionsHaveNames }
{}

//! What holds of each unit of the grammar.

ghost use Rattle.read_units.specs.Claims.{UnitsOfTheGrammarAreRead};

/// What the grammar of the x86 dialect gives for tokens is a unit whose constants have the types of constants, whose objects are declared
/// as they can be written, and whose names are no keywords, where each name among the tokens is a name of C. This runs nothing.
pub fn units_of_the_grammar_are_read()
    ensures { UnitsOfTheGrammarAreRead }
{}

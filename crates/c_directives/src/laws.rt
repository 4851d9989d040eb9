//! What holds of all texts.

ghost use Rattle.c_directives.specs.Numbers.{ExpansionNumbers};
ghost use Rattle.c_directives.specs.Printed.{PrintedText};

use c_macros::{free_tokens, macro_numbers};

/// A text in which no directive and no macro's name stands expands to itself behind lines that include headers.
pub fn printed_text()
    ensures { PrintedText }
{
    free_tokens();
}

/// What is refused has one of the numbers 5, 6, 7, 8, 19 and 20.
pub fn expansion_numbers()
    ensures { ExpansionNumbers }
{
    macro_numbers();
}

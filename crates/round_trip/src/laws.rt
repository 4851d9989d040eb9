//! What holds of printing and reading, whatever is printed.

ghost use Rattle.std.specs.Prelude.{◌≡◌, ℕ, List};
ghost use Rattle.c_text.specs.declared.tokens.Token.{Token};
ghost use Rattle.c_tree.specs.Tree.{External};
ghost use Rattle.round_trip.specs.Again.{ReadAgain};
ghost use Rattle.round_trip.specs.GoodUnits.{GoodUnit};
ghost use Rattle.round_trip.specs.Printable.{Printable};
ghost use Rattle.round_trip.specs.Unlimited.{UnlimitedTokens};

use c_directives::printed_text;

/// A unit that can be printed is read again from its text as the same unit: its text has tokens, and what directives and macros leave of
/// them is, by the grammar of the Neon dialect, a unit that is the same. Names may have any length, and there may be any number of tokens.
pub fn printed_units_are_read_again()
    ensures { (unit : List External) → Printable unit → ReadAgain unit }
{
    printed_text();
}

/// The same of every unit whose nodes are what their texts want, whether or not it was read.
pub fn good_units_are_read_again()
    ensures { (unit : List External) → GoodUnit unit → ReadAgain unit }
{
    printed_text();
}

/// A text has one list of tokens at most, so what is read again is all that can be read.
pub fn a_text_has_one_list_of_tokens()
    ensures { (text : List ℕ) (ts us : List Token) → UnlimitedTokens text ts → UnlimitedTokens text us → ts ≡ us }
{}

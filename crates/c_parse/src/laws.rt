//! What holds of the grammar, whatever is parsed.

ghost use Rattle.std.specs.Prelude.{◌≡◌, ◌↔◌, List, [], Some};
ghost use Rattle.c_text.specs.declared.tokens.Dialect.{Dialect};
ghost use Rattle.c_text.specs.declared.tokens.Token.{Token};
ghost use Rattle.c_tree.specs.Tree.{Tree};
ghost use Rattle.c_parse.specs.Reading.{expression_with, read};
ghost use Rattle.c_parse.specs.Grammar.{Expression};

/// Tokens are an expression in one way at most: they have one tree, places of nodes included.
pub fn one_expression()
    ensures { (d : Dialect) (ts : List Token) (t u : Tree) → Expression d ts t → Expression d ts u → t ≡ u }
{}

/// Tokens are an expression with this tree exactly where reading them from left to right gives the tree and leaves nothing.
pub fn read_from_left_to_right()
    ensures { (d : Dialect) (ts : List Token) (t : Tree) → Expression d ts t ↔ (expression_with (read d) ts ≡ Some (t, [])) }
{}

//! Whether two definitions are the same.

ghost use Rattle.std.specs.Prelude.{◌≡◌};
ghost use Rattle.c_directives.specs.Definitions.{same_names, same_piece, same_body, same};

use c_macros::{Macro, Piece};
use c_text::Text;

fn same_names(names: &[Text], others: &[Text]) -> bool
    ensures { result ≡ same_names names.now others.now }
{
    let mut right = others;
    for name in names {
        match right.split_first() {
            Some((other, rest)) if name.bytes() == other.bytes() => right = rest,
            _ => return false,
        }
    }
    right.is_empty()
}

fn same_piece(piece: &Piece, other: &Piece) -> bool
    ensures { result ≡ same_piece piece.now other.now }
{
    piece.token.text.bytes() == other.token.text.bytes() && piece.token.spaced == other.token.spaced
}

fn same_body(body: &[Piece], other: &[Piece]) -> bool
    ensures { result ≡ same_body body.now other.now }
{
    let mut right = other;
    for piece in body {
        match right.split_first() {
            Some((other, rest)) if same_piece(piece, other) => right = rest,
            _ => return false,
        }
    }
    right.is_empty()
}

/// Whether two definitions are the same (C11 6.10.3p2).
pub fn same(definition: &Macro, other: &Macro) -> bool
    ensures { result ≡ same definition.now other.now }
{
    definition.function_like == other.function_like
        && (same_names(&definition.parameters, &other.parameters)
            && same_body(&definition.body, &other.body))
}

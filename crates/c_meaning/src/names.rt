//! Expressions that are names.

ghost use Rattle.std.specs.Prelude.{◌≡◌, option_map};
ghost use Rattle.c_tree.specs.View.{view};
ghost use Rattle.c_memory.specs.Meaning.{name_in};

use c_tree::{Expr, ExprKind};

/// The name, where the expression is one.
pub fn name_in(e: &Expr) -> Option<&[u8]>
    ensures { option_map (λ x. x.now) result ≡ name_in (view e.now) }
{
    match &*e.kind {
        ExprKind::Name(x) => Some(x.bytes()),
        _ => None,
    }
}

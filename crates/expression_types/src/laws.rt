//! What the check of an expression means.

ghost use Rattle.std.specs.Prelude.{◌≡◌, ◌↔◌, Ok, Err};
ghost use Rattle.c_text.specs.declared.refusals.Refusal.{Refusal};
ghost use Rattle.c_tree.specs.Tree.{Tree};
ghost use Rattle.scopes.specs.Scopes.{Env};
ghost use Rattle.expression_types.specs.Check.{check};
ghost use Rattle.expression_types.specs.Typed.{Typed};

use type_rules::types_are_by_rules;

/// The check passes exactly the expressions that have types by the rules, and gives what they become, which is one expression at most.
/// What it refuses has no types.
pub fn expressions_are_typed_by_rules()
    ensures typed { (env : Env) (u v : Tree) → (check u env ≡ Ok v) ↔ Typed env u v }
    ensures one_form { (env : Env) (u v w : Tree) → Typed env u v → Typed env u w → v ≡ w }
    ensures refused { (env : Env) (u v : Tree) (r : Refusal) → check u env ≡ Err r → Typed env u v → ⊥ }
{
    types_are_by_rules();
}

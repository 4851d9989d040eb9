//! What the check of a declared object means.

ghost use Rattle.std.specs.Prelude.{◌≡◌, ◌↔◌, Ok, Err};
ghost use Rattle.c_text.specs.declared.refusals.Refusal.{Refusal};
ghost use Rattle.c_tree.specs.Tree.{Object};
ghost use Rattle.scopes.specs.Scopes.{Env};
ghost use Rattle.object_types.specs.Objects.{check_object};
ghost use Rattle.object_types.specs.Typed.{TypedObject};

use expression_types::expressions_are_typed_by_rules;
use type_rules::types_are_by_rules;

/// The check passes exactly the objects that have types by the rules, and gives what they become, which is one object at most. What it
/// refuses has no types.
pub fn objects_are_typed_by_rules()
    ensures typed { (env : Env) (d v : Object) → (check_object d env ≡ Ok v) ↔ TypedObject env d v }
    ensures one_form { (env : Env) (d v w : Object) → TypedObject env d v → TypedObject env d w → v ≡ w }
    ensures refused { (env : Env) (d v : Object) (r : Refusal) → check_object d env ≡ Err r → TypedObject env d v → ⊥ }
{
    types_are_by_rules();
    expressions_are_typed_by_rules();
}

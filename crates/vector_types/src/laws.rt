//! What the check of a unit means.

ghost use Rattle.std.specs.Prelude.{◌≡◌, ◌↔◌, List, Ok, Err};
ghost use Rattle.c_text.specs.declared.tokens.Dialect.{Dialect};
ghost use Rattle.c_text.specs.declared.refusals.Refusal.{Refusal};
ghost use Rattle.c_tree.specs.Tree.{External};
ghost use Rattle.vector_types.specs.Units.{check_unit};
ghost use Rattle.vector_types.specs.Typed.{TypedUnit};

use expression_types::expressions_are_typed_by_rules;
use object_types::objects_are_typed_by_rules;
use order_rule::passing_is_by_the_rules;
use statement_types::statements_are_typed_by_rules;
use type_rules::types_are_by_rules;

/// The check passes exactly the units that have types by the rules, and gives what they become, which is one unit at most. What it refuses
/// has no types.
pub fn units_are_typed_by_rules()
    ensures typed { (dialect : Dialect) (u v : List External) → (check_unit dialect u ≡ Ok v) ↔ TypedUnit dialect u v }
    ensures one_form { (dialect : Dialect) (u v w : List External) → TypedUnit dialect u v → TypedUnit dialect u w → v ≡ w }
    ensures refused { (dialect : Dialect) (u v : List External) (list : List Refusal) → check_unit dialect u ≡ Err list → TypedUnit dialect u v → ⊥ }
{
    types_are_by_rules();
    expressions_are_typed_by_rules();
    objects_are_typed_by_rules();
    statements_are_typed_by_rules();
    passing_is_by_the_rules();
}

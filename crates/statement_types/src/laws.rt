//! What the check of statements means.

ghost use Rattle.std.specs.Prelude.{◌≡◌, ◌↔◌, List, Ok, Err};
ghost use Rattle.c_text.specs.declared.refusals.Refusal.{Refusal};
ghost use Rattle.c_tree.specs.Tree.{Object, Statement, Statements};
ghost use Rattle.scopes.specs.Scopes.{Env};
ghost use Rattle.statement_types.specs.Statements.{Around, check_objects, check_statement, check_statements};
ghost use Rattle.statement_types.specs.Typed.{TypedObjects, TypedStatement, TypedStatements};

use expression_types::expressions_are_typed_by_rules;
use object_types::objects_are_typed_by_rules;
use type_rules::types_are_by_rules;

/// The check passes exactly the statements that have types by the rules, and gives what they become, which is one statement at most. What
/// it refuses has no types. The same holds of statements in a row, as a function's body is one, and of objects that are declared one
/// after the other.
pub fn statements_are_typed_by_rules()
    ensures statement { (c : Around) (s v : Statement) → (check_statement s c ≡ Ok v) ↔ TypedStatement c s v }
    ensures one_statement { (c : Around) (s v w : Statement) → TypedStatement c s v → TypedStatement c s w → v ≡ w }
    ensures statement_refused { (c : Around) (s v : Statement) (r : Refusal) → check_statement s c ≡ Err r → TypedStatement c s v → ⊥ }
    ensures typed { (c : Around) (all vs : Statements) → (check_statements all c ≡ Ok vs) ↔ TypedStatements c all vs }
    ensures one_form { (c : Around) (all vs ws : Statements) → TypedStatements c all vs → TypedStatements c all ws → vs ≡ ws }
    ensures refused { (c : Around) (all vs : Statements) (r : Refusal) → check_statements all c ≡ Err r → TypedStatements c all vs → ⊥ }
    ensures objects { (env : Env) (all vs : List Object) → (check_objects all env ≡ Ok vs) ↔ TypedObjects env all vs }
    ensures one_form_of_objects { (env : Env) (all vs ws : List Object) → TypedObjects env all vs → TypedObjects env all ws → vs ≡ ws }
    ensures objects_refused { (env : Env) (all vs : List Object) (r : Refusal) → check_objects all env ≡ Err r → TypedObjects env all vs → ⊥ }
{
    expressions_are_typed_by_rules();
    types_are_by_rules();
    objects_are_typed_by_rules();
}

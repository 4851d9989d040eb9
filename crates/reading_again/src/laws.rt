//! What the check gives and what a run does hang on no places.

ghost use Rattle.std.specs.Prelude.{◌≡◌, ℕ, Bool, List, Ok};
ghost use Rattle.c_text.specs.declared.tokens.Dialect.{Dialect};
ghost use Rattle.c_tree.specs.declared.types.CType.{CType};
ghost use Rattle.c_tree.specs.Same.{Same, stripped};
ghost use Rattle.c_tree.specs.Tree.{Tree, Object, Statement, Definition, External};
ghost use Rattle.c_memory.specs.declared.blocks.Block.{Block};
ghost use Rattle.c_memory.specs.declared.value.Value.{Value};
ghost use Rattle.c_memory.specs.Meaning.{Calls, means};
ghost use Rattle.c_memory.specs.Written.{UnitsMatch, DoesTheSame};
ghost use Rattle.scopes.specs.Scopes.{Env};
ghost use Rattle.expression_types.specs.Check.{check};
ghost use Rattle.object_types.specs.Objects.{check_object};
ghost use Rattle.statement_types.specs.Statements.{Around, check_statement};
ghost use Rattle.vector_types.specs.Functions.{check_function};
ghost use Rattle.vector_types.specs.Units.{check_unit};
ghost use Rattle.reading_again.specs.Answers.{unplaced_answer, unplaced_unit};
ghost use Rattle.reading_again.specs.Left.{left, left_object, SameUnits};
ghost use Rattle.reading_again.specs.Plain.{Plain, PlainObject, PlainStatement, PlainFunction, PlainUnit};
ghost use Rattle.reading_again.specs.Rewritten.{statement, definition};
ghost use Rattle.reading_again.specs.Standing.{parameter_names};
ghost use Rattle.reading_again.specs.Unplaced.{unplaced, unplaced_object, places, DifferInPlaces};

/// Two units that differ in places alone, and in the side of its object's name on which an alignment stands, do the same: each call of a
/// function by its name, with any arguments, memory and bound on turns, has the same outcome.
pub fn places_do_not_count()
    ensures { (rows : Calls) (u v : List External) → DifferInPlaces u v → (name : List ℕ) (args : List Value) (memory : List Block) (turns : ℕ) →
        means rows u name args memory turns ≡ means rows v name args memory turns }
{}

/// Trees that are the same, but for places, types, numbers of arrays' elements and casts that aren't written, get the same types and casts,
/// or the same refusals but for their places. Where `exact` is false, an alignment may stand on the other side of its object's name, and of
/// refusals it is said only where they come. So what is read again of a unit that has types has these types.
pub fn same_trees_get_the_same_types()
    ensures expressions { (exact : Bool) (env : Env) (e again : Tree) → Plain e → stripped e ≡ stripped again → unplaced_answer exact unplaced (check e env) ≡ unplaced_answer exact unplaced (check again env) }
    ensures objects { (exact : Bool) (env : Env) (d again : Object) → PlainObject d → left_object exact d ≡ left_object exact again → unplaced_answer exact unplaced_object (check_object d env) ≡ unplaced_answer exact unplaced_object (check_object again env) }
    ensures statements { (exact : Bool) (c : Around) (s again : Statement) → PlainStatement s → statement (left exact) s ≡ statement (left exact) again →
        unplaced_answer exact (statement places) (check_statement s c) ≡ unplaced_answer exact (statement places) (check_statement again c) }
    ensures functions { (exact : Bool) (env : Env) (f again : Definition) → PlainFunction f → definition (left exact) f ≡ definition (left exact) again →
        unplaced_answer exact (definition places) (check_function f env) ≡ unplaced_answer exact (definition places) (check_function again env) }
    ensures units { (exact : Bool) (dialect : Dialect) (u again : List External) → PlainUnit u → SameUnits exact u again → unplaced_unit exact (check_unit dialect u) ≡ unplaced_unit exact (check_unit dialect again) }
    ensures read_again { (dialect : Dialect) (u again typed : List External) → PlainUnit u → Same u again → check_unit dialect u ≡ Ok typed →
        (v : List External) × (check_unit dialect again ≡ Ok v) × DifferInPlaces typed v }
{}

/// What the check gives for a unit is given back by it as it is: its casts that aren't written are looked through, and set again.
pub fn a_typed_unit_is_given_back()
    ensures { (dialect : Dialect) (u v : List External) → PlainUnit u → check_unit dialect u ≡ Ok v → check_unit dialect v ≡ Ok v }
{}

/// A unit that differs from another in places alone stands for it: it is the same, its functions have parameters of the same names, it matches
/// what the other matches, and it does what the other does.
pub fn a_unit_that_differs_in_places_stands_for_it()
    ensures same { (u v : List External) → DifferInPlaces u v → Same u v }
    ensures names { (u v : List External) → DifferInPlaces u v → parameter_names u ≡ parameter_names v }
    ensures matches { (written : CType → CType) (source u v : List External) → UnitsMatch written source u → DifferInPlaces u v → UnitsMatch written source v }
    ensures does { (rows other_rows : Calls) (written : CType → CType) (source u v : List External) → DoesTheSame rows other_rows written source u → DifferInPlaces u v →
        DoesTheSame rows other_rows written source v }
{}

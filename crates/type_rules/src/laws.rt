//! What the functions that compute types mean.

ghost use Rattle.std.specs.Prelude.{◌≡◌, ◌↔◌, List, Option, Some};
ghost use Rattle.c_text.specs.declared.tokens.Place.{Place};
ghost use Rattle.c_tree.specs.declared.types.CType.{CType};
ghost use Rattle.c_tree.specs.Tree.{Tree, Trees, Kind};
ghost use Rattle.type_rules.specs.declared.passing.Parameter.{Parameter};
ghost use Rattle.c_tree.specs.Nodes.{node_type};
ghost use Rattle.type_rules.specs.Types.{converted, assigned};
ghost use Rattle.type_rules.specs.Operations.{result_of};
ghost use Rattle.type_rules.specs.Passing.{passed};
ghost use Rattle.type_rules.specs.Rules.{Assigned, Results, Passed};

/// A form whose parts have their types becomes exactly what a rule of C11 6.5 says, an expression is given to an object of a type
/// exactly where a rule says how, and so are the arguments of a call. An expression that has a type stays where it is converted to it.
pub fn types_are_by_rules()
    ensures results { (p : Place) (k : Kind) (v : Tree) → (result_of p k ≡ Some v) ↔ Results p k v }
    ensures assigned { (t : CType) (a v : Tree) → (assigned t a ≡ Some v) ↔ Assigned a t v }
    ensures stays { (t : CType) (a : Tree) → node_type a ≡ t → converted t a ≡ a }
    ensures passed { (ts : List Parameter) (all v : Trees) → (passed ts all ≡ Some v) ↔ Passed ts all v }
{}

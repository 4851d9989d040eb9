//! What holds of sequences and of the C that is written for them.

ghost use Rattle.std.specs.Prelude.{ℕ, List, Bool};
ghost use Rattle.c_text.specs.declared.tokens.Place.{Place};
ghost use Rattle.c_tree.specs.Tree.{Tree};
ghost use Rattle.seq_core.specs.Terms.{Term as Plain, Sequence};
ghost use Rattle.seq_core.specs.Written.{pen, written};
ghost use Rattle.seq_core.specs.Functions.{function_of};
ghost use Rattle.seq_core.specs.InPlace.{HoldsInPlace, HoldsWhereItStood, RunsOutWhereItStood, TakesNoAddress};
ghost use Rattle.seq_core.specs.Claims.{IsCallable, DoesTheSame, GivesItsValue};

/// A call of the function that is written for a well-formed sequence gives the sequence's value and leaves its bytes, spends no turn and
/// touches nothing else, wherever the sequence is defined.
pub fn a_function_does_what_its_sequence_does()
    ensures { (place : Place) (name : List ℕ) (q : Sequence) → IsCallable q → DoesTheSame q (function_of place name q) }
{}

/// A well-formed sequence that has a value without memory gives it over every memory, and leaves the memory.
pub fn a_sequence_without_memory_gives_its_value()
    ensures { (q : Sequence) → GivesItsValue q }
{}

/// The expression that is written for a term of parameters, constants, calls, pairs and operators has the term's value over operands that
/// may change the state, where they run in the order in which the term has them.
pub fn a_straight_term_holds_in_place()
    ensures { (place : Place) (params steps : List Tree) (t : Plain) → HoldsInPlace place params t (written (pen place params steps) t) }
{}

/// A sequence that may stand in place of a row's call gives its value there, over operands that may change the state: each compound operand is
/// evaluated once and in its order, and the simple ones read the same wherever they are read.
pub fn a_sequence_in_place_gives_its_value()
    ensures { (place : Place) (params : List Tree) (simple : List Bool) (q : Sequence) → HoldsWhereItStood place params simple q }
{}

/// A sequence that may stand in place of a row's call wants more turns than are left where one of its operands does.
pub fn a_sequence_in_place_runs_out_with_its_operands()
    ensures { (place : Place) (params : List Tree) (simple : List Bool) (q : Sequence) → RunsOutWhereItStood place params simple q }
{}

/// What stands in place of a row's call takes no address where its operands take none.
pub fn a_sequence_in_place_takes_no_address()
    ensures { (place : Place) (params : List Tree) (q : Sequence) → TakesNoAddress place params q }
{}

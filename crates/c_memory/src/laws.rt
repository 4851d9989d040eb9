//! What holds of the meaning, whatever is run.

ghost use Rattle.std.specs.Prelude.{◌≡◌, ◌++◌, ◌∷◌, ℕ, List, Some, pos, true};
ghost use Rattle.std.specs.Str.{bytes_eq};
ghost use Rattle.lane_core.specs.IntRange.{InRange};
ghost use Rattle.lane_core.specs.Register.{IsRegister};
ghost use Rattle.lane_core.specs.declared.number.IntType.TheVariants.{Long};
ghost use Rattle.c_tree.specs.declared.types.CType.{CType};
ghost use Rattle.c_tree.specs.Tree.{Statement, Definition};
ghost use Rattle.address_taken.specs.Addressed.{takes_statement};
ghost use Rattle.c_memory.specs.Braces.{with_braces};
ghost use Rattle.c_memory.specs.Matching.{written_type};
ghost use Rattle.c_memory.specs.Functions.{calls_of, none_named};
ghost use Rattle.c_memory.specs.Meaning.{act, call_of, outermost, Calls, Later};
ghost use Rattle.c_memory.specs.MeaningState.{Binding};
ghost use Rattle.c_memory.specs.Memory.{bytes_read};
ghost use Rattle.c_memory.specs.Values.{IsMemory, AreArguments, PointsInto};
ghost use Rattle.c_memory.specs.Written.{MatchingArguments};
ghost use Rattle.c_memory.specs.declared.blocks.Block.{Block};
ghost use Rattle.c_memory.specs.declared.memory.Pointer.{Pointer};
ghost use Rattle.c_memory.specs.declared.memory.Pointer.TheVariants.{At};
ghost use Rattle.c_memory.specs.declared.value.Value.{Value as SeenValue};

/// Braces round the bodies of a statement change nothing: neither what it does, nor of which objects around it the address is taken.
pub fn braces_change_nothing()
    ensures does { (s : Statement) (later : Later) (calls : Calls) → act (with_braces s) later calls ≡ act s later calls }
    ensures takes { (name : List ℕ) (s : Statement) → takes_statement name (with_braces s) ≡ takes_statement name s }
{}

/// What is read from a memory is bytes, as many as were asked for, and the offset of a pointer into it is a number of `long`, so that a
/// difference of pointers is one.
pub fn memories_are_of_bytes()
    ensures read { (memory : List Block) (at : Pointer) (align : ℕ) (size : ℕ) (bytes : List ℕ) → IsMemory memory → bytes_read memory at align size ≡ Some bytes → IsRegister size bytes }
    ensures offset { (memory : List Block) (block : ℕ) (offset : ℕ) → IsMemory memory → PointsInto memory (At block offset) → InRange Long (pos offset) }
{}

/// Arguments have matching ones of the types that theirs are written as, and no others.
pub fn matching_arguments_are_determined()
    ensures exist { (memory : List Block) (types : List CType) (args : List SeenValue) → AreArguments memory types args → (others : List SeenValue) × MatchingArguments written_type memory types args others }
    ensures same { (memory : List Block) (types : List CType) (args : List SeenValue) (others : List SeenValue) (more : List SeenValue) →
        MatchingArguments written_type memory types args others → MatchingArguments written_type memory types args more → others ≡ more }
{}

/// A call from outside is that of the first function of the name, which may call those before it and the rows.
pub fn the_first_function_is_called()
    ensures { (tables : List Binding) (calls : Calls) (before : List Definition) (after : List Definition) (f : Definition) (name : List ℕ) (args : List SeenValue) →
        none_named name before ≡ true → bytes_eq name f.name ≡ true → outermost tables calls (before ++ (f ∷ after)) name args ≡ call_of tables f (calls_of tables calls before) args }
{}

//! The run of a function of a unit.

ghost use Rattle.std.specs.Prelude.{◌≡◌, IfOk};
ghost use Rattle.c_tree.specs.View.{view_unit};
ghost use Rattle.c_memory.specs.Outcomes.{outcome_of};
ghost use Rattle.c_memory.specs.Meaning.{means};
ghost use Rattle.simd_top.specs.Ran.{rows};

use c_meaning::{Memory, Outcome, Value, run};
use c_text::Dialect;
use intel_table::X86Rows;
use neon_table::NeonRows;
use std::alloc::{AllocError, Global};
use vector_types::TypedUnit;

/// How the run of the function of that name ends, by the rows of the dialect: with these arguments, in a memory, for at most so many turns. The only
/// error is want of memory.
pub fn outcome(
    alloc: Global,
    dialect: Dialect,
    unit: &TypedUnit,
    name: &[u8],
    args: &[Value],
    memory: Memory,
    turns: u64,
) -> Result<Outcome, AllocError>
    ensures { IfOk result (λ o. outcome_of o ≡ means (rows dialect) (view_unit unit.now.unit) name.now args.now memory.blocks turns) }
{
    match dialect {
        Dialect::X86 => run(alloc, &X86Rows, unit.unit(), name, args, memory, turns),
        Dialect::Neon => run(alloc, &NeonRows, unit.unit(), name, args, memory, turns),
    }
}

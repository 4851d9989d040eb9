//! The rows that a run may call.

ghost use Rattle.c_memory.specs.Meaning.{Calls};
ghost use Rattle.c_meaning.specs.States.{seen_state};
ghost use Rattle.c_meaning.specs.Answers.{Answers};

use crate::state::{State, Stop};
use c_memory::Value;
use std::alloc::Global;

/// What a call does that is of no function of the unit.
pub trait Rows {
    ghost row_call: { Calls };

    /// The call of the row of that name. Undefined where there is none.
    fn call<'a>(
        &self,
        alloc: Global,
        state: &mut State<'a>,
        name: &[u8],
        values: &[Value],
    ) -> Result<Option<Value>, Stop>
        ensures { Answers (row_call name.now values.now (seen_state state.old)) result state.new };
}

//! The rows of a table, of which those that a unit calls are found once.

ghost use Rattle.std.specs.Prelude.{◌≡◌, Some};
ghost use Rattle.c_memory.specs.MeaningRows.{rows_of, call_of_row};
ghost use Rattle.c_meaning.specs.States.{seen_state};
ghost use Rattle.c_meaning.specs.Answers.{Answers};

use crate::places::Places;
use crate::rows::Rows;
use crate::state::{State, Stop};
use c_memory::{Value, VectorTable};
use c_values::rows::row_call;
use lane_core::table::Sig;
use std::alloc::{AllocError, Global};

/// A row that a name finds, with its signature.
#[derive(Drop)]
struct FoundRow<'a, T: VectorTable> {
    name: &'a [u8],
    op: T::Op,
    sig: Sig,
    ghost found: { T.find_of name.now ≡ Some op },
    ghost signature: { sig ≡ T.signature_of op },
}

/// The rows of a table, and those of some names.
#[derive(Drop)]
pub struct TableRows<'t, 'a, T: VectorTable> {
    table: &'t T,
    found: Vec<FoundRow<'a, T>>,
    /// The places of these names among the rows that are found.
    places: Places,
}

impl<'t, 'a, T: VectorTable> TableRows<'t, 'a, T> {
    /// The rows of a table. Those of these names that aren't a function's are found at once, and every other one when it is called. The
    /// only error is want of memory.
    pub(crate) fn new(
        alloc: Global,
        table: &'t T,
        functions: &Places,
        names: &[&'a [u8]],
    ) -> Result<TableRows<'t, 'a, T>, AllocError> {
        let mut rows = TableRows {
            table,
            found: Vec::new(alloc),
            places: Places::new(alloc),
        };
        for name in names {
            if functions.get(name).is_none() && rows.places.get(name).is_none() {
                rows.note(alloc, name)?;
            }
        }
        Ok(rows)
    }

    /// The row of that name is found, where there is one. The only error is want of memory.
    fn note(&mut self, alloc: Global, name: &'a [u8]) -> Result<(), AllocError> {
        match self.table.find(name) {
            None => Ok(()),
            Some(op) => {
                let sig = self.table.signature(op);
                self.places.set(alloc, name, self.found.len())?;
                self.found.push(FoundRow { name, op, sig })?;
                Ok(())
            }
        }
    }

    /// The call of a row that no name has found before.
    fn call_unfound<'s>(
        &self,
        alloc: Global,
        state: &mut State<'s>,
        name: &[u8],
        values: &[Value],
    ) -> Result<Option<Value>, Stop>
        ensures { Answers (call_of_row (rows_of T.find_of T.signature_of T.range_of T.accesses_of T.access_of T.eval_of) name.now values.now (seen_state state.old)) result state.new }
    {
        match self.table.find(name) {
            None => Err(Stop::Undefined),
            Some(op) => {
                let sig = self.table.signature(op);
                let given = row_call(alloc, self.table, op, &sig, &mut state.memory, values)?;
                given.ok_or(Stop::Undefined)
            }
        }
    }
}

impl<'a, T: VectorTable> FoundRow<'a, T> {
    /// The call of the row.
    fn call<'s>(
        &self,
        alloc: Global,
        table: &T,
        state: &mut State<'s>,
        values: &[Value],
    ) -> Result<Option<Value>, Stop>
        ensures { Answers (call_of_row (rows_of T.find_of T.signature_of T.range_of T.accesses_of T.access_of T.eval_of) self.now.name.now values.now (seen_state state.old)) result state.new }
    {
        let given = row_call(alloc, table, self.op, &self.sig, &mut state.memory, values)?;
        given.ok_or(Stop::Undefined)
    }
}

impl<'t, 'a, T: VectorTable> Rows for TableRows<'t, 'a, T> {
    ghost row_call = { call_of_row (rows_of T.find_of T.signature_of T.range_of T.accesses_of T.access_of T.eval_of) };

    // Its arrays of arguments aren't to stand in the frames of the recursion.
    #[inline(never)]
    fn call<'s>(
        &self,
        alloc: Global,
        state: &mut State<'s>,
        name: &[u8],
        values: &[Value],
    ) -> Result<Option<Value>, Stop> {
        if let Some(k) = self.places.get(name) {
            if k < self.found.len() && name == self.found[k].name {
                return self.found[k].call(alloc, self.table, state, values);
            }
        }
        self.call_unfound(alloc, state, name, values)
    }
}

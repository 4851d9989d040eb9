//! The functions that a run may call, and what it knows of the unit.

ghost use Rattle.std.specs.Prelude.{◌≡◌, ◌<◌, true, IfSome, IfNone, length, map};
ghost use Rattle.c_meaning.specs.Callees.{seen_callee};
ghost use Rattle.c_meaning.specs.Marked.{none_flagged, is_first_flagged};

use crate::functions::Callees;
use crate::objects::Objects;
use address_taken::FunctionTaken;
use c_memory::Value;
use c_tree::Function;
use std::alloc::Global;

/// A function, and whether the addresses of the objects that it declares are taken.
#[derive(Drop)]
pub struct Callee<'a> {
    pub function: &'a Function,
    pub taken: FunctionTaken,
    /// The place of the last function before it that has its name.
    pub same: Option<usize>,
}

/// What stays the same during a run.
#[derive(Drop)]
pub struct Environment<'a, 'r, R> {
    pub alloc: Global,
    /// The rows that may be called.
    pub rows: &'r R,
    /// The unit's tables.
    pub tables: Objects<'a>,
    /// The unit's functions in order. Each may call those before it.
    pub callees: Callees<'a>,
}

/// How a statement ends.
#[derive(Clone, Copy, Debug)]
pub enum Flow {
    /// The next statement follows.
    Next,
    /// A loop is left.
    Broke,
    /// A loop is taken up again.
    Continued,
    /// The function returns, with its value if it gives one.
    Returned(Option<Value>),
}

/// The place of the first of these functions that has the name.
#[tactic(auto, using(crate::proofs::Callees::first_flagged_from, crate::proofs::Callees::none_flagged_push))]
pub fn first_called(callees: &[Callee<'_>], name: &[u8]) -> Option<usize>
    ensures within { IfSome result (λ k. k < length callees.now) }
    ensures first { IfSome result (λ k. is_first_flagged name.now (map seen_callee callees.now) k ≡ true) }
    ensures none { IfNone result (none_flagged name.now (map seen_callee callees.now) ≡ true) }
{
    for (k, callee) in callees.iter().enumerate() {
        let function = callee.function;
        if name == function.name.bytes() {
            return Some(k);
        }
    }
    None
}

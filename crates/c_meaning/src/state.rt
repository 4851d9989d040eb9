//! What a run has at each moment, and its steps.

ghost use Rattle.std.specs.Prelude.{◌≡◌, ◌+◌, IfOk, IfErr};
ghost use Rattle.c_memory.specs.MeaningState.{object_of, spend};
ghost use Rattle.c_memory.specs.MeaningObjects.{value_named, half_named, read_target, set_target, target_of};
ghost use Rattle.c_memory.specs.Meaning.{spend_for, is_helper};
ghost use Rattle.c_meaning.specs.Bindings.{seen_binding};
ghost use Rattle.c_meaning.specs.States.{seen_state, seen_target, left_at};
ghost use Rattle.c_meaning.specs.Answers.{Answers, Shows};

use crate::objects::{Binding, Location, Objects};
use c_memory::{Memory, Pointer, Value};
use c_tree::CType;
use c_values::objects::{load, store};
use std::alloc::AllocError;

/// What a run has at each moment.
#[derive(Drop)]
pub struct State<'a> {
    /// The objects in scope.
    pub objects: Objects<'a>,
    pub memory: Memory,
    /// The turns that are left.
    pub left: u64,
}

/// Why a run stops before its end.
#[derive(Clone, Copy, Debug, PartialEq, Eq)]
pub enum Stop {
    /// There is no room for the run's own data.
    NoMemory,
    /// More turns are wanted than are left.
    Turns,
    /// C leaves it undefined.
    Undefined,
}

impl From<AllocError> for Stop {
    ghost use Rattle.std.specs.Prelude.{◌≡◌};
    ghost use Rattle.c_meaning.specs.declared.state.Stop.{Stop};

    ghost from_gives = { λ _ e. e ≡ Stop.NoMemory };

    fn from(_: AllocError) -> Stop {
        Stop::NoMemory
    }
}

/// The functions of the evaluator that count themselves (those of expressions, of statements and of calls) and may stand within one another: what
/// goes deeper has no room on a stack of 8 megabytes, where each takes at most some 1,200 bytes and the words of the command line up to 2 megabytes.
pub const ROOM: usize = 5000;

/// The room that is left for what stands within. The only error is that there is none.
pub fn within(room: usize) -> Result<usize, AllocError>
    ensures less { IfOk result (λ r. r + 1 ≡ room) }
    ensures full { IfErr result (λ _. room ≡ 0) }
{
    match room {
        0 => Err(AllocError),
        _ => Ok(room - 1),
    }
}

/// What an assignment sets.
#[derive(Clone, Copy, Debug)]
pub enum Target<'a> {
    /// An object apart from memory, by its name.
    Named(&'a [u8]),
    /// A half of such an object.
    HalfNamed(&'a [u8], u8),
    /// What lies at a pointer.
    There(Pointer),
}

impl<'a> Binding<'a> {
    /// The object as what an assignment sets.
    pub fn target(self) -> Target<'a>
        ensures { seen_target result ≡ target_of (seen_binding self.entry) }
    {
        match self.location {
            Location::Apart(_) | Location::Halves(_, _) => Target::Named(self.name),
            Location::InBlock(block) => Target::There(Pointer::At(block, 0)),
        }
    }
}

impl<'a> State<'a> {
    /// The innermost object of that name.
    #[inline(never)]
    pub fn object_of(&self, name: &[u8]) -> Result<Binding<'a>, Stop>
        ensures { Shows seen_binding (object_of name.now (seen_state self.now)) result self.now }
    {
        match self.objects.find(name) {
            None => Err(Stop::Undefined),
            Some(binding) => Ok(binding),
        }
    }

    /// The value of an object, where it is set.
    #[inline(never)]
    pub fn value_named(&self, binding: Binding<'a>) -> Result<Value, Stop>
        ensures { Answers (value_named (seen_binding binding.entry) (seen_state self.now)) result self.now }
    {
        match binding.location {
            Location::Apart(v) => v.ok_or(Stop::Undefined),
            Location::Halves(_, _) => Err(Stop::Undefined),
            Location::InBlock(block) => {
                load(&self.memory, binding.ty, Pointer::At(block, 0)).ok_or(Stop::Undefined)
            }
        }
    }

    /// Half of the value of an object, where that half is set.
    #[inline(never)]
    pub fn half_named(&self, k: u8, binding: Binding<'a>) -> Result<Value, Stop>
        ensures { Answers (half_named k (seen_binding binding.entry) (seen_state self.now)) result self.now }
    {
        match binding.location.half_at(k) {
            None => Err(Stop::Undefined),
            Some(half) => Ok(Value::R16(half)),
        }
    }

    /// The value of what an assignment sets.
    #[inline(never)]
    pub fn read_target(&self, ty: CType, target: Target<'a>) -> Result<Value, Stop>
        ensures { Answers (read_target ty (seen_target target.entry) (seen_state self.now)) result self.now }
    {
        match target {
            Target::Named(name) => {
                let binding = self.object_of(name)?;
                self.value_named(binding)
            }
            Target::HalfNamed(name, k) => {
                let binding = self.object_of(name)?;
                self.half_named(k, binding)
            }
            Target::There(at) => load(&self.memory, ty, at).ok_or(Stop::Undefined),
        }
    }

    /// Sets what an assignment sets.
    #[inline(never)]
    pub fn set_target(&mut self, ty: CType, target: Target<'a>, v: Value) -> Result<(), Stop>
        ensures { Answers (set_target ty (seen_target target.entry) v (seen_state self.old)) result self.new }
    {
        match target {
            Target::Named(name) => {
                self.objects.relocate(name, Location::Apart(Some(v)))?;
                Ok(())
            }
            Target::HalfNamed(name, k) => {
                let Value::R16(half) = v else {
                    return Err(Stop::Undefined);
                };
                self.objects.set_half(name, k, half)?;
                Ok(())
            }
            Target::There(at) => store(&mut self.memory, ty, at, v).ok_or(Stop::Undefined),
        }
    }

    /// Spends a turn, where one is left.
    pub fn spend(&mut self) -> Result<(), Stop>
        ensures { Answers (spend (seen_state self.old)) result self.new }
    {
        if self.left == 0 {
            return Err(Stop::Turns);
        }
        self.left -= 1;
        Ok(())
    }

    /// Spends the turn of a call of that name. A function whose name begins with `mg_` spends none.
    pub fn spend_for(&mut self, name: &[u8]) -> Result<(), Stop>
        ensures { Answers (spend_for name.now (seen_state self.old)) result self.new }
    {
        if is_helper(name) {
            Ok(())
        } else {
            self.spend()
        }
    }

    /// Leaves a scope before which there were so many objects and blocks.
    pub fn leave(&mut self, objects: usize, blocks: usize)
        ensures { seen_state self.new ≡ left_at objects blocks (seen_state self.old) }
    {
        self.objects.truncate(objects);
        self.memory.blocks.end_from(blocks);
    }
}

fn is_helper(name: &[u8]) -> bool
    ensures { result ≡ is_helper name.now }
{
    name.len() >= 3 && &name[..3] == b"mg_".as_slice()
}

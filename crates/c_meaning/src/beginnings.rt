//! Objects that begin, and what a function gives.

ghost use Rattle.std.specs.Prelude.{◌≡◌, ◌||◌, None, map};
ghost use Rattle.c_tree.specs.View.{view_declared};
ghost use Rattle.c_tree.specs.Types.{is_array};
ghost use Rattle.c_memory.specs.Meaning.{Calls, begin_object, first_value, initialised};
ghost use Rattle.c_memory.specs.Meaning as meaning;
ghost use Rattle.c_memory.specs.MeaningObjects.{is_const};
ghost use Rattle.c_meaning.specs.Bindings.{seen_binding};
ghost use Rattle.c_meaning.specs.States.{seen_state};
ghost use Rattle.c_meaning.specs.Answers.{Answers};
ghost use Rattle.c_meaning.specs.Callees.{seen_flow};
ghost use Rattle.c_meaning.specs.Flagged.{begin_parameter, begin_parameters};

use crate::calls::Flow;
use crate::flags::{first_flag, other_flags};
use crate::objects::{Binding, Location};
use crate::state::{State, Stop};
use c_memory::Value;
use c_tree::{CType, Declared, is_array};
use c_values::objects::{fill_list, fill_value, object_block};
use std::alloc::Global;

/// Whether an object is a block: an array, or one whose address is taken.
pub fn is_block(ty: CType, taken: bool) -> bool
    ensures { result ≡ (is_array ty || taken) }
{
    is_array(ty) || taken
}

/// Whether the object isn't written: it is const, or an array of const elements.
fn is_const(d: &Declared) -> bool
    ensures { result ≡ is_const (view_declared d.now) }
{
    d.constant
        || match d.ty {
            CType::Array(_, _, constant) => constant,
            _ => false,
        }
}

impl<'a> State<'a> {
    /// An object comes into scope, in a block of its own or apart from memory. It isn't set.
    #[inline(never)]
    pub fn begin_object(
        &mut self,
        alloc: Global,
        d: &'a Declared,
        in_block: bool,
    ) -> Result<(), Stop>
        ensures { Answers (begin_object (view_declared d.now) in_block (seen_state self.old)) result self.new }
    {
        if in_block {
            let number = self.memory.blocks.len();
            let block = object_block(alloc, d, !is_const(d))?;
            self.memory.blocks.push(block)?;
            self.objects.push(Binding {
                name: d.name.bytes(),
                ty: d.ty,
                location: Location::InBlock(number),
            })?;
            Ok(())
        } else {
            self.objects.push(Binding {
                name: d.name.bytes(),
                ty: d.ty,
                location: Location::Apart(None),
            })?;
            Ok(())
        }
    }

    /// An object gets its first value, const or not.
    #[inline(never)]
    pub fn first_value(&mut self, alloc: Global, binding: Binding<'a>, v: Value) -> Result<(), Stop>
        ensures { Answers (first_value (seen_binding binding.entry) v (seen_state self.old)) result self.new }
    {
        match binding.location {
            Location::InBlock(block) => {
                let filled = fill_value(alloc, &mut self.memory, block, binding.ty, v)?;
                filled.ok_or(Stop::Undefined)
            }
            Location::Apart(_) | Location::Halves(_, _) => {
                self.objects
                    .relocate(binding.name, Location::Apart(Some(v)))?;
                Ok(())
            }
        }
    }

    /// An array gets the bytes of its list, if one is written.
    #[inline(never)]
    pub fn first_list(&mut self, alloc: Global, d: &Declared) -> Result<(), Stop>
        ensures { (c : Calls) → Answers (initialised (view_declared d.now) None (view_declared d.now).list c (seen_state self.old)) result self.new }
    {
        match &d.list {
            None => Ok(()),
            Some(all) => {
                let binding = self.object_of(d.name.bytes())?;
                match binding.location {
                    Location::InBlock(block) => {
                        let filled = fill_list(
                            alloc,
                            &mut self.memory,
                            block,
                            d.ty,
                            all.as_slice(),
                        )?;
                        filled.ok_or(Stop::Undefined)
                    }
                    Location::Apart(_) | Location::Halves(_, _) => Err(Stop::Undefined),
                }
            }
        }
    }

    /// A parameter begins and gets its argument.
    fn begin_parameter(
        &mut self,
        alloc: Global,
        d: &'a Declared,
        taken: bool,
        v: Value,
    ) -> Result<(), Stop>
        ensures { Answers (begin_parameter (view_declared d.now) taken v (seen_state self.old)) result self.new }
    {
        self.begin_object(alloc, d, taken)?;
        let binding = self.object_of(d.name.bytes())?;
        self.first_value(alloc, binding, v)
    }

    /// Parameters begin and get their arguments. Undefined where there are more of one than of the other.
    #[inline(never)]
    pub fn begin_parameters(
        &mut self,
        alloc: Global,
        params: &'a [Declared],
        flags: &[bool],
        values: &[Value],
    ) -> Result<(), Stop>
        ensures { Answers (begin_parameters (map view_declared params.now) flags.now values.now (seen_state self.old)) result self.new }
    {
        let mut flags_left = flags;
        let mut left = values;
        for d in params {
            match left.split_first() {
                None => return Err(Stop::Undefined),
                Some((v, rest)) => {
                    self.begin_parameter(alloc, d, first_flag(flags_left), *v)?;
                    left = rest;
                }
            }
            flags_left = other_flags(flags_left);
        }
        match left.split_first() {
            None => Ok(()),
            Some(_) => Err(Stop::Undefined),
        }
    }

    /// The value of a call. The end of a function that isn't `void` isn't reached.
    #[inline(never)]
    pub fn given(&self, ty: CType, flow: Flow) -> Result<Option<Value>, Stop>
        ensures { Answers (meaning.result ty (seen_flow flow) (seen_state self.now)) result self.now }
    {
        match (ty, flow) {
            (_, Flow::Returned(v)) => Ok(v),
            (CType::Void, Flow::Next) => Ok(None),
            _ => Err(Stop::Undefined),
        }
    }
}

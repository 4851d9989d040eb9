//! What operators, conversions, assignments and steps do, as steps of a run.

ghost use Rattle.std.specs.Prelude.{◌≡◌, OnOk, [], ◌∷◌, ◌++◌};
ghost use Rattle.std.specs.Option.{option_and_then};
ghost use Rattle.c_memory.specs.Meaning.{give, object_value, array_value, there, address, cast_to, assigned, assigned_by, step, half_target, half_of, pair_of, size_value, element};
ghost use Rattle.c_memory.specs.MeaningState.{defined, object_of, then_do};
ghost use Rattle.c_memory.specs.MeaningValues.{converted_value};
ghost use Rattle.c_meaning.specs.Bindings.{seen_binding, seen_location};
ghost use Rattle.c_meaning.specs.States.{seen_state, seen_target};
ghost use Rattle.c_meaning.specs.Answers.{Answers, Shows};

use crate::objects::{Binding, Location};
use crate::state::{State, Stop, Target};
use c_memory::{Pointer, Value};
use c_tree::CType;
use c_values::{objects, operators};
use lane_core::number::BinOp;
use std::alloc::AllocError;

/// One more value behind these. The only error is want of memory.
pub fn push(values: &mut Vec<Value>, v: Value) -> Result<(), AllocError>
    ensures { OnOk result (values.new.items ≡ values.old.items ++ (v ∷ [])) }
{
    values.push(v)?;
    Ok(())
}

impl<'a> State<'a> {
    /// An array as the pointer to its first element.
    fn array_value(&self, location: Location) -> Result<Value, Stop>
        ensures { Answers (array_value (seen_location location) (seen_state self.now)) result self.now }
    {
        match location {
            Location::InBlock(block) => Ok(Value::At(Pointer::At(block, 0))),
            Location::Apart(_) | Location::Halves(_, _) => Err(Stop::Undefined),
        }
    }

    /// An object of a type as a value.
    #[inline(never)]
    pub fn object_value(&self, ty: CType, binding: Binding<'a>) -> Result<Value, Stop>
        ensures { Answers (object_value ty (seen_binding binding.entry) (seen_state self.now)) result self.now }
    {
        match ty {
            CType::Array(_, _, _) => self.array_value(binding.location),
            CType::Void | CType::Int(_) | CType::M128 | CType::M256 => self.value_named(binding),
            CType::Neon(_, _) | CType::Pair | CType::Pointer(_, _) => self.value_named(binding),
        }
    }

    /// The value of a name.
    #[inline(never)]
    pub fn value_of_name(&self, name: &[u8]) -> Result<Option<Value>, Stop>
        ensures { Answers (give (λ s. then_do (object_of name.now s) (λ b. object_value b.ty b)) (seen_state self.now)) result self.now }
    {
        let binding = self.object_of(name)?;
        let v = self.object_value(binding.ty, binding)?;
        Ok(Some(v))
    }

    /// The size of a type.
    #[inline(never)]
    pub fn size_of_type(&self, ty: CType) -> Result<Option<Value>, Stop>
        ensures { Answers (give (size_value ty) (seen_state self.now)) result self.now }
    {
        let v = self.size_value(ty)?;
        Ok(Some(v))
    }

    /// The size of an object.
    #[inline(never)]
    pub fn size_of_name(&self, name: &[u8]) -> Result<Option<Value>, Stop>
        ensures { Answers (give (λ s. then_do (object_of name.now s) (λ b. size_value b.ty)) (seen_state self.now)) result self.now }
    {
        let binding = self.object_of(name)?;
        let v = self.size_value(binding.ty)?;
        Ok(Some(v))
    }

    /// A pointer alone, as what an assignment sets.
    pub fn there(&self, v: Value) -> Result<Target<'a>, Stop>
        ensures { Shows seen_target (there v (seen_state self.now)) result self.now }
    {
        match v {
            Value::At(at) => Ok(Target::There(at)),
            Value::Int(_) | Value::R8(_) | Value::R16(_) | Value::R32(_) => Err(Stop::Undefined),
        }
    }

    /// The address of what an assignment sets.
    #[inline(never)]
    pub fn address(&self, target: Target<'a>) -> Result<Value, Stop>
        ensures { Answers (address (seen_target target.entry) (seen_state self.now)) result self.now }
    {
        match target {
            Target::There(at) => Ok(Value::At(at)),
            Target::Named(_) | Target::HalfNamed(_, _) => Err(Stop::Undefined),
        }
    }

    /// The value of a conversion that isn't to `void`.
    fn converted(&self, ty: CType, v: Option<Value>) -> Result<Option<Value>, Stop>
        ensures { Answers (give (defined (option_and_then (converted_value ty) v)) (seen_state self.now)) result self.now }
    {
        match v {
            None => Err(Stop::Undefined),
            Some(v) => {
                let v = operators::converted_value(ty, v).ok_or(Stop::Undefined)?;
                Ok(Some(v))
            }
        }
    }

    /// The value of a conversion, or none where it is to `void`.
    #[inline(never)]
    pub fn cast_to(&self, ty: CType, v: Option<Value>) -> Result<Option<Value>, Stop>
        ensures { Answers (cast_to ty v (seen_state self.now)) result self.now }
    {
        match ty {
            CType::Void => Ok(None),
            CType::Int(_) | CType::M128 | CType::M256 | CType::Neon(_, _) => self.converted(ty, v),
            CType::Pair | CType::Pointer(_, _) | CType::Array(_, _, _) => self.converted(ty, v),
        }
    }

    /// An assignment, with the value that is set.
    fn assigned(&mut self, ty: CType, target: Target<'a>, v: Value) -> Result<Value, Stop>
        ensures { Answers (assigned ty (seen_target target.entry) v (seen_state self.old)) result self.new }
    {
        self.set_target(ty, target, v)?;
        Ok(v)
    }

    /// An assignment, or one with an operator. The right side has the type `right` and the value `w`.
    #[inline(never)]
    pub fn assigned_by(
        &mut self,
        op: Option<BinOp>,
        ty: CType,
        right: CType,
        target: Target<'a>,
        w: Value,
    ) -> Result<Value, Stop>
        ensures { Answers (assigned_by op ty right (seen_target target.entry) w (seen_state self.old)) result self.new }
    {
        match op {
            None => self.assigned(ty, target, w),
            Some(op) => {
                let v = self.read_target(ty, target)?;
                let x = operators::operate(&self.memory, op, ty, right, v, w).ok_or(
                    Stop::Undefined,
                )?;
                let x = operators::converted_value(ty, x).ok_or(Stop::Undefined)?;
                self.assigned(ty, target, x)
            }
        }
    }

    /// A step by one, with the new value or the old one.
    #[inline(never)]
    pub fn step(
        &mut self,
        ty: CType,
        up: bool,
        before: bool,
        target: Target<'a>,
    ) -> Result<Value, Stop>
        ensures { Answers (step ty up before (seen_target target.entry) (seen_state self.old)) result self.new }
    {
        let v = self.read_target(ty, target)?;
        let w = operators::next(&self.memory, ty, up, v).ok_or(Stop::Undefined)?;
        self.set_target(ty, target, w)?;
        Ok(if before { w } else { v })
    }

    /// Half of an object apart from memory.
    #[inline(never)]
    pub fn half_target(&self, k: u8, target: Target<'a>) -> Result<Target<'a>, Stop>
        ensures { Shows seen_target (half_target k (seen_target target.entry) (seen_state self.now)) result self.now }
    {
        match target {
            Target::Named(name) => Ok(Target::HalfNamed(name, k)),
            Target::HalfNamed(_, _) | Target::There(_) => Err(Stop::Undefined),
        }
    }

    /// Half of a pair.
    #[inline(never)]
    pub fn half_of(&self, k: u8, v: Value) -> Result<Value, Stop>
        ensures { Answers (half_of k v (seen_state self.now)) result self.now }
    {
        match v {
            Value::R32(pair) => Ok(Value::R16(objects::half(if k == 0 { 0 } else { 1 }, &pair))),
            Value::Int(_) | Value::R8(_) | Value::R16(_) | Value::At(_) => Err(Stop::Undefined),
        }
    }

    /// The pair of two vectors.
    #[inline(never)]
    pub fn pair_of(&self, v: Value, w: Value) -> Result<Value, Stop>
        ensures { Answers (pair_of v w (seen_state self.now)) result self.now }
    {
        match (v, w) {
            (Value::R16(a), Value::R16(b)) => Ok(Value::R32(objects::pair_of(&a, &b))),
            _ => Err(Stop::Undefined),
        }
    }

    /// The size of a type as a value.
    pub fn size_value(&self, ty: CType) -> Result<Value, Stop>
        ensures { Answers (size_value ty (seen_state self.now)) result self.now }
    {
        objects::size_value(ty).ok_or(Stop::Undefined)
    }

    /// The element of an index: a pointer and an integer, on either side.
    #[inline(never)]
    pub fn element(&self, left: CType, right: CType, v: Value, w: Value) -> Result<Target<'a>, Stop>
        ensures { Shows seen_target (element left right v w (seen_state self.now)) result self.now }
    {
        let at = operators::operate(&self.memory, BinOp::Add, left, right, v, w).ok_or(
            Stop::Undefined,
        )?;
        self.there(at)
    }
}

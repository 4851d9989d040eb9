//! Headings of functions and of rows, and the arguments of their calls (C11 6.5.2.2).

ghost use Rattle.std.specs.Prelude.{◌≡◌, ◌∷◌, [], IfOk, IfSome, IfNone, option_map, map, Some, None, ◌≤◌};
ghost use Rattle.std.specs.Vec.Iter.{into_iter_items};
ghost use Rattle.lane_core.specs.Table.{params_of};
ghost use Rattle.c_tree.specs.View.{view, views};
ghost use Rattle.type_rules.specs.Passing.{heading, kind_type, parameter, row_heading, given, passed, is_immediate, immediate_of, is_in_range};

use crate::conversions::assigned_expr;
use crate::types::is_integer;
use c_tree::{CType, Expr};
use lane_core::table::{ImmRange, ParamKind, Sig};
use std::alloc::{AllocError, Global};
use std::vec::IntoIter;

/// What a call takes in one place.
#[derive(Clone, Copy, Debug, PartialEq, Eq)]
pub enum Parameter {
    /// A value, as it is given to an object of the type.
    Object(CType),
    /// A constant of any integer type, which stands in the call.
    Immediate,
}

/// What a call gives, and what it takes.
#[derive(Debug, Drop)]
pub struct Heading {
    pub result: CType,
    pub params: Vec<Parameter>,
}

impl Heading {
    /// The same heading once more. The only error is want of memory.
    pub fn copy(&self, alloc: Global) -> Result<Heading, AllocError>
        ensures { IfOk result (λ h. heading h ≡ heading self.now) }
    {
        let params = Vec::from_slice(alloc, self.params.as_slice())?;
        Ok(Heading {
            result: self.result,
            params,
        })
    }
}

fn kind_type(kind: ParamKind) -> CType
    ensures { result ≡ kind_type kind }
{
    match kind {
        ParamKind::Reg(32) => CType::M256,
        ParamKind::Reg(_) => CType::M128,
        ParamKind::Lane(lanes, wide) => CType::Neon(lanes, wide),
        ParamKind::Pair => CType::Pair,
        ParamKind::Scalar(t) => CType::Int(t),
        ParamKind::PointerTo(e, c) => CType::Pointer(e, c),
        ParamKind::Immediate | ParamKind::Nothing => CType::Void,
    }
}

fn kind_parameter(kind: ParamKind) -> Parameter
    ensures { result ≡ parameter kind }
{
    match kind {
        ParamKind::Immediate => Parameter::Immediate,
        _ => Parameter::Object(kind_type(kind)),
    }
}

fn parameters(alloc: Global, kinds: &[ParamKind]) -> Result<Vec<Parameter>, AllocError>
    ensures { IfOk result (λ v. v.items ≡ map parameter kinds.now) }
{
    let mut out = Vec::new(alloc);
    for kind in kinds {
        out.push(kind_parameter(*kind))?;
    }
    Ok(out)
}

/// The heading of a row with this signature.
pub fn row_heading(alloc: Global, sig: &Sig) -> Result<Heading, AllocError>
    requires { sig.now.count ≤ 32 }
    ensures { IfOk result (λ h. heading h ≡ row_heading sig.now) }
{
    let params = parameters(alloc, &sig.params[..usize::from(sig.count)])?;
    Ok(Heading {
        result: kind_type(sig.result),
        params,
    })
}

fn is_immediate(p: Parameter) -> bool
    ensures { result ≡ is_immediate p }
{
    match p {
        Parameter::Immediate => true,
        Parameter::Object(_) => false,
    }
}

/// The argument as it is passed to the parameter, where it fits.
fn given(alloc: Global, parameter: Parameter, e: Expr) -> Result<Option<Expr>, AllocError>
    ensures { IfOk result (λ r. option_map view r ≡ given parameter (view e)) }
{
    match parameter {
        Parameter::Object(t) => assigned_expr(alloc, t, e),
        Parameter::Immediate => if is_integer(e.ty) {
            Ok(Some(e))
        } else {
            Ok(None)
        },
    }
}

fn first_of(left: &mut IntoIter<Expr>) -> Option<Expr>
    ensures some { IfSome result (λ e. into_iter_items left.old ≡ e ∷ into_iter_items left.new) }
    ensures none { IfNone result (into_iter_items left.old ≡ []) }
{
    left.next()
}

/// The arguments as they are passed to the parameters, where there are as many and each fits.
pub fn passed(
    alloc: Global,
    params: &[Parameter],
    all: Vec<Expr>,
) -> Result<Option<Vec<Expr>>, AllocError>
    ensures { IfOk result (λ r. option_map (λ v. views v.items) r ≡ passed params.now (views all.items)) }
{
    let mut out = Vec::new(alloc);
    let mut left = all.into_iter();
    for p in params {
        let Some(e) = first_of(&mut left) else {
            return Ok(None);
        };
        match given(alloc, *p, e)? {
            None => return Ok(None),
            Some(e) => out.push(e)?,
        }
    }
    match first_of(&mut left) {
        None => Ok(Some(out)),
        Some(_) => Ok(None),
    }
}

/// The argument that stands where the parameters have an immediate, if one has.
#[tactic(auto, using(crate::proofs::Arguments::no_immediate))]
pub fn immediate_of<'a>(params: &[Parameter], all: &'a [Expr]) -> Option<&'a Expr>
    ensures found { IfSome result (λ e. immediate_of params.now (views all.now) ≡ Some (view e.now)) }
    ensures none { IfNone result (immediate_of params.now (views all.now) ≡ None) }
{
    let mut left = all;
    for p in params {
        match left.split_first() {
            None => return None,
            Some((a, rest)) => {
                if is_immediate(*p) {
                    return Some(a);
                }
                left = rest;
            }
        }
    }
    None
}

/// Whether an immediate may have the value.
pub fn is_in_range(range: ImmRange, value: i128) -> bool
    ensures { result ≡ is_in_range range value }
{
    match range {
        ImmRange::NoImmediate => value == 0,
        ImmRange::Span(low, high) => i128::from(low) <= value && value <= i128::from(high),
        ImmRange::Scale => value == 1 || value == 2 || value == 4 || value == 8,
    }
}

//! What names stand for.

ghost use Rattle.std.specs.Prelude.{◌≡◌, IfOk, true, take};
ghost use Rattle.lane_core.specs.declared.table.ImmRange.TheVariants.{NoImmediate};
ghost use Rattle.scopes.specs.Scopes.{env_of, named};
ghost use Rattle.expression_types.specs.Names.{target_of, is_widening, widening, is_unknown_intrinsic, is_function};
ghost use Rattle.expression_types.specs.Check.{Gives, used, called, function_called, row_called};

use c_text::{Dialect, Fail, Place, Text};
use c_tree::{CType, name_fault};
use scopes::{Environment, Object};
use std::alloc::{AllocError, Global};
use type_rules::{Heading, ImmRange, Parameter};

/// What is called.
#[derive(Drop)]
pub struct Target {
    pub heading: Heading,
    /// The values that the immediate may have, if there is one.
    pub range: ImmRange,
    /// Whether the profile leaves the call out.
    pub outside: bool,
}

const WIDENING: &[u8] = b"_mm256_castsi128_si256";

fn is_widening(dialect: Dialect, name: &[u8]) -> bool
    ensures { result ≡ is_widening dialect name.now }
{
    match dialect {
        Dialect::X86 => name == WIDENING,
        Dialect::Neon => false,
    }
}

// `_mm256_castsi128_si256`, which is no row.
fn widening(alloc: Global) -> Result<Target, AllocError>
    ensures { IfOk result (λ t. target_of t ≡ record { heading = widening; range = NoImmediate; outside = true }) }
{
    let params = Vec::from_slice(alloc, &[Parameter::Object(CType::M128)])?;
    Ok(Target {
        heading: Heading {
            result: CType::M256,
            params,
        },
        range: ImmRange::NoImmediate,
        outside: true,
    })
}

// The first three bytes, or all where there are fewer.
fn front(name: &[u8]) -> &[u8]
    ensures { result.now ≡ take 3 name.now }
{
    if name.len() > 3 { &name[..3] } else { name }
}

fn is_unknown_intrinsic(env: &Environment, name: &[u8]) -> bool
    ensures { result ≡ is_unknown_intrinsic name.now (env_of env.now) }
{
    front(name) == b"_mm".as_slice() && !env.row(name).is_some() && name != WIDENING
}

fn is_function(env: &Environment, name: &[u8]) -> bool
    ensures { result ≡ is_function name.now (env_of env.now) }
{
    env.function(name).is_some() || env.row(name).is_some() || is_widening(env.dialect, name)
}

/// The object that the name stands for. A function's name is refused 18, any other that nothing declares 10.
pub fn used(alloc: Global, env: &Environment, place: Place, name: &Text) -> Result<Object, Fail>
    ensures { Gives (λ o. o) result (used name.now place (env_of env.now)) }
{
    match env.object(name.bytes()) {
        Some(object) => Ok(object),
        None => if is_function(env, name.bytes()) {
            Err(name_fault(alloc, 18, place, name)?)
        } else {
            Err(name_fault(alloc, 10, place, name)?)
        },
    }
}

fn row_called(alloc: Global, env: &Environment, place: Place, name: &Text) -> Result<Target, Fail>
    ensures { Gives target_of result (row_called name.now place (env_of env.now) ((env_of env.now).rows name.now)) }
{
    match env.row(name.bytes()) {
        Some(row) => Ok(Target {
            heading: row.heading.copy(alloc)?,
            range: row.range,
            outside: false,
        }),
        None => if is_widening(env.dialect, name.bytes()) {
            Ok(widening(alloc)?)
        } else {
            Err(name_fault(alloc, 10, place, name)?)
        },
    }
}

fn function_called(
    alloc: Global,
    env: &Environment,
    place: Place,
    name: &Text,
) -> Result<Target, Fail>
    ensures { Gives target_of result (function_called name.now place (env_of env.now) (named name.now (env_of env.now).functions)) }
{
    match env.function(name.bytes()) {
        Some(f) => if f.order < env.here {
            Ok(Target {
                heading: f.heading.copy(alloc)?,
                range: ImmRange::NoImmediate,
                outside: env.calls_none,
            })
        } else {
            Err(name_fault(alloc, 17, place, name)?)
        },
        None => row_called(alloc, env, place, name),
    }
}

/// What the called name stands for. An unknown intrinsic is refused 13, an object 11, a function of the unit that doesn't stand before 17,
/// and a name that nothing declares 10.
pub fn called(alloc: Global, env: &Environment, place: Place, name: &Text) -> Result<Target, Fail>
    ensures { Gives target_of result (called name.now place (env_of env.now)) }
{
    if is_unknown_intrinsic(env, name.bytes()) {
        Err(name_fault(alloc, 13, place, name)?)
    } else {
        match env.object(name.bytes()) {
            Some(_) => Err(name_fault(alloc, 11, place, name)?),
            None => function_called(alloc, env, place, name),
        }
    }
}

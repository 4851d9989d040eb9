//! Functions.

ghost use Rattle.std.specs.Prelude.{◌≡◌, IfOk, OnOk, map, option_map, true};
ghost use Rattle.c_tree.specs.View.{view, view_declared, view_function};
ghost use Rattle.scopes.specs.Scopes.{env_of, with_object};
ghost use Rattle.scopes.specs.Kept.{at_file, is_inside, OnRefusal, OnAnswer};
ghost use Rattle.expression_types.specs.Check.{Gives};
ghost use Rattle.object_types.specs.Objects.{known};
ghost use Rattle.statement_types.specs.Statements.{with_objects};
ghost use Rattle.vector_types.specs.Functions.{function_name, is_bare, check_parameter, check_parameters, is_helper, entered, check_function};

use crate::file_scope::is_taken;
use c_text::{Dialect, Text};
use c_tree::{CType, Declared, Function, Place, is_array, name_fault};
use expression_types::{Environment, Fail};
use object_types::{check_object, is_reserved};
use statement_types::check_body;
use std::alloc::{AllocError, Global};
use type_rules::{is_void_pointer, read_type};

// The name of a function that gives the type `t`.
fn function_name(
    alloc: Global,
    env: &Environment,
    name: &Text,
    place: Place,
    t: CType,
) -> Result<(), Fail>
    ensures { Gives (λ _. true) result (function_name name.now place t (env_of env.now)) }
{
    if is_reserved(env.dialect, env.is_neon_row(name.bytes()), name.bytes()) {
        Err(name_fault(alloc, 12, place, name)?)
    } else if is_taken(env, name.bytes()) {
        Err(name_fault(alloc, 11, place, name)?)
    } else if is_array(t) {
        Err(name_fault(alloc, 11, place, name)?)
    } else if is_void_pointer(t) {
        Err(name_fault(alloc, 18, place, name)?)
    } else {
        Ok(())
    }
}

fn is_bare(d: &Declared) -> bool
    ensures { result ≡ is_bare (view_declared d.now) }
{
    !d.align.is_some() && !d.init.is_some() && !d.list.is_some()
}

// A parameter with its types. The innermost scope declares it then.
fn check_parameter(alloc: Global, env: &mut Environment, d: &Declared) -> Result<Declared, Fail>
    ensures value { Gives view_declared result (check_parameter (view_declared d.now) (env_of env.old)) }
    ensures names { IfOk result (λ v. env_of env.new ≡ with_object v.name (known v.constant v.ty) (env_of env.old)) }
    ensures kept { OnRefusal result (at_file (env_of env.new) ≡ at_file (env_of env.old)) }
{
    if is_bare(d) {
        let mut v = check_object(alloc, env, d)?;
        v.length = None;
        Ok(v)
    } else {
        Err(name_fault(alloc, 11, d.place, &d.name)?)
    }
}

// Parameters with their types, each in the scope with those before it. The innermost scope declares them then.
fn check_parameters(
    alloc: Global,
    env: &mut Environment,
    all: &[Declared],
) -> Result<Vec<Declared>, Fail>
    ensures value { Gives (λ v. map view_declared v.items) result (check_parameters (map view_declared all.now) (env_of env.old)) }
    ensures names { IfOk result (λ v. env_of env.new ≡ with_objects (map view_declared v.items) (env_of env.old)) }
    ensures kept { is_inside (env_of env.old) ≡ true → OnRefusal result (at_file (env_of env.new) ≡ at_file (env_of env.old)) }
{
    let mut out = Vec::new(alloc);
    for d in all {
        let v = check_parameter(alloc, env, d)?;
        out.push(v)?;
    }
    Ok(out)
}

fn is_helper(dialect: Dialect, name: &[u8]) -> bool
    ensures { result ≡ is_helper dialect name.now }
{
    match dialect {
        Dialect::X86 => false,
        Dialect::Neon => name.starts_with(b"mg_"),
    }
}

// Opens the scope of a function's own that has the name.
fn enter(alloc: Global, env: &mut Environment, name: &Text) -> Result<(), AllocError>
    ensures { OnOk result (env_of env.new ≡ entered name.now (env_of env.old)) }
{
    env.calls_none = is_helper(env.dialect, name.bytes());
    env.open(alloc)?;
    Ok(())
}

/// A function with its types. The file's scope is as before afterwards; others may be open.
pub fn check_function(alloc: Global, env: &mut Environment, f: &Function) -> Result<Function, Fail>
    ensures value { Gives view_function result (check_function (view_function f.now) (env_of env.old)) }
    ensures kept { OnAnswer result (at_file (env_of env.new) ≡ at_file (env_of env.old)) }
{
    let result = read_type(env.dialect, f.result);
    function_name(alloc, &*env, &f.name, f.place, result)?;
    enter(alloc, env, &f.name)?;
    let params = check_parameters(alloc, env, f.params.as_slice())?;
    let body = check_body(alloc, env, result, f.body.as_slice())?;
    let name = f.name.copy(alloc)?;
    Ok(Function {
        place: f.place,
        name,
        result,
        params,
        is_static: f.is_static,
        is_inline: f.is_inline,
        body,
    })
}

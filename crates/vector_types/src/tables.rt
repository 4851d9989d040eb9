//! Tables: constant objects at file scope.

ghost use Rattle.std.specs.Prelude.{◌≡◌, if◌then◌else◌, IfOk, OnOk, option_map, true};
ghost use Rattle.c_tree.specs.View.{view, views, view_declared};
ghost use Rattle.scopes.specs.Scopes.{env_of, with_object};
ghost use Rattle.scopes.specs.Kept.{at_file, OnRefusal, OnAnswer};
ghost use Rattle.expression_types.specs.Check.{Gives};
ghost use Rattle.object_types.specs.Objects.{behind_declarator, count_of, count_all, known};
ghost use Rattle.const_imm.specs.Constant.{value_of};
ghost use Rattle.vector_types.specs.Tables.{is_table_type, is_table, fits_file, table_name, judged_alignment, scalar_value, constant_value, check_table, number_of, number_written, told_number, refused_object, beyond_table};
ghost use Rattle.vector_types.specs.Functions.{is_taken};

use crate::file_scope::{end_item, is_taken};
use c_tree::{CType, Declared, Expr, Pointee, name_fault};
use const_imm::eval_const;
use expression_types::{Environment, Fail, Object, check_expression};
use object_types::{
    alignment, check_object, declared_type, is_object_type, is_reserved, known, member,
};
use scopes::scopes_end;
use std::alloc::{AllocError, Global};
use type_rules::{is_integer, read_type};

fn is_table_type(t: CType) -> bool
    ensures { result ≡ is_table_type t }
{
    match t {
        CType::Int(_) => true,
        CType::Array(Pointee::Int(_), _, _) => true,
        _ => false,
    }
}

fn is_table(d: &Declared, t: CType) -> bool
    ensures { result ≡ is_table (view_declared d.now) t }
{
    is_table_type(t) && (d.init.is_some() || d.list.is_some())
}

fn fits_file(d: &Declared, t: CType) -> bool
    ensures { result ≡ fits_file (view_declared d.now) t }
{
    if d.constant {
        is_table(d, t)
    } else {
        is_object_type(t)
    }
}

// The name of an object at file scope, whose type is `t`.
fn table_name(alloc: Global, env: &Environment, d: &Declared, t: CType) -> Result<(), Fail>
    ensures { Gives (λ _. true) result (table_name (view_declared d.now) t (env_of env.now)) }
{
    if is_reserved(env.dialect, env.is_neon_row(d.name.bytes()), d.name.bytes()) {
        Err(name_fault(alloc, 12, d.place, &d.name)?)
    } else if is_taken(env, d.name.bytes()) {
        Err(name_fault(alloc, 11, d.place, &d.name)?)
    } else if !fits_file(d, t) {
        Err(name_fault(alloc, 11, d.place, &d.name)?)
    } else if !d.constant {
        Err(name_fault(alloc, 18, d.place, &d.name)?)
    } else {
        Ok(())
    }
}

fn judged_alignment(
    alloc: Global,
    now: bool,
    env: &Environment,
    align: &Option<Expr>,
) -> Result<(), Fail>
    ensures { Gives (λ _. true) result (judged_alignment now (option_map view align.now) (env_of env.now)) }
{
    match align {
        None => Ok(()),
        Some(e) => if now {
            alignment(alloc, env, e)?;
            Ok(())
        } else {
            Ok(())
        },
    }
}

fn scalar_value(
    alloc: Global,
    env: &Environment,
    d: &Declared,
    t: CType,
    e: &Expr,
) -> Result<(), Fail>
    ensures { Gives (λ _. true) result (scalar_value t (view_declared d.now) (view e.now) (env_of env.now)) }
{
    judged_alignment(alloc, !d.align_first, env, &d.align)?;
    let e = check_expression(alloc, env, e)?;
    member(alloc, t, true, e)?;
    Ok(())
}

// The value of an integer. It sees the table's name.
fn value_behind_name(
    alloc: Global,
    env: &mut Environment,
    d: &Declared,
    t: CType,
    e: &Expr,
) -> Result<(), Fail>
    ensures value { Gives (λ _. true) result (scalar_value t (view_declared d.now) (view e.now) (behind_declarator d.now.name d.now.constant t (env_of env.old))) }
    ensures names { OnOk result (env_of env.new ≡ env_of env.old) }
    ensures kept { OnRefusal result (at_file (env_of env.new) ≡ at_file (env_of env.old)) }
{
    env.open(alloc)?;
    env.declare(alloc, d.name.bytes(), known(d.constant, t))?;
    scalar_value(alloc, &*env, d, t, e)?;
    env.close(alloc);
    scopes_end();
    Ok(())
}

fn constant_value(alloc: Global, env: &mut Environment, d: &Declared, t: CType) -> Result<(), Fail>
    ensures value { Gives (λ _. true) result (constant_value t (view_declared d.now) (view_declared d.now).init (env_of env.old)) }
    ensures names { OnOk result (env_of env.new ≡ env_of env.old) }
    ensures kept { OnRefusal result (at_file (env_of env.new) ≡ at_file (env_of env.old)) }
{
    match &d.init {
        None => Ok(()),
        Some(e) => if is_integer(t) {
            value_behind_name(alloc, env, d, t, e)
        } else {
            Ok(())
        },
    }
}

// A table with its types. The innermost scope declares it then. Where it is refused, the file's scope is as before.
fn judged(alloc: Global, env: &mut Environment, d: &Declared) -> Result<Declared, Fail>
    ensures value { Gives view_declared result (check_table (view_declared d.now) (env_of env.old)) }
    ensures names { IfOk result (λ v. env_of env.new ≡ with_object v.name (known v.constant v.ty) (env_of env.old)) }
    ensures kept { OnRefusal result (at_file (env_of env.new) ≡ at_file (env_of env.old)) }
{
    let t = read_type(env.dialect, d.ty);
    judged_alignment(alloc, d.align_first, &*env, &d.align)?;
    table_name(alloc, &*env, d, t)?;
    constant_value(alloc, env, d, t)?;
    check_object(alloc, env, d)
}

// The number of elements that a length gives, which has its types.
fn number_of(e: &Expr) -> Option<u64>
    ensures { result ≡ number_of (count_of (view e.now) (value_of (view e.now))) }
{
    match eval_const(e) {
        Ok(n) => if n.value >= 1 {
            Some(n.value.unsigned_abs() as u64)
        } else {
            None
        },
        Err(_) => None,
    }
}

fn number_written(alloc: Global, env: &Environment, e: &Expr) -> Result<Option<u64>, AllocError>
    ensures { IfOk result (λ n. n ≡ number_written (view e.now) (env_of env.now)) }
{
    match check_expression(alloc, env, e) {
        Ok(e) => Ok(number_of(&e)),
        Err(Fail::Refused(_)) => Ok(None),
        Err(Fail::Memory) => Err(AllocError),
    }
}

#[tactic(auto, using(crate::proofs::Lists::members_counted))]
fn number_listed(list: &Option<Vec<Expr>>) -> Option<u64>
    ensures { result ≡ option_map count_all (option_map (λ all. views all.items) list.now) }
{
    match list {
        None => None,
        Some(all) => Some(all.len() as u64),
    }
}

fn told_number(alloc: Global, env: &Environment, d: &Declared) -> Result<Option<u64>, AllocError>
    ensures { IfOk result (λ n. n ≡ told_number (view_declared d.now).length (view_declared d.now).list (env_of env.now)) }
{
    match &d.length {
        None => Ok(number_listed(&d.list)),
        Some(e) => number_written(alloc, env, e),
    }
}

fn refused_object(alloc: Global, env: &Environment, d: &Declared) -> Result<Object, AllocError>
    ensures { IfOk result (λ o. o ≡ refused_object (view_declared d.now) (env_of env.now)) }
{
    let number = told_number(alloc, env, d)?;
    Ok(known(d.constant, declared_type(number, d.ty, env)))
}

// Declares an object that is refused, if its name is free.
fn declare_refused(alloc: Global, env: &mut Environment, d: &Declared) -> Result<(), AllocError>
    ensures { OnOk result (env_of env.new ≡ (if is_taken d.now.name (env_of env.old) then env_of env.old else with_object d.now.name (refused_object (view_declared d.now) (env_of env.old)) (env_of env.old))) }
{
    if is_taken(&*env, d.name.bytes()) {
        Ok(())
    } else {
        let object = refused_object(alloc, &*env, d)?;
        env.declare(alloc, d.name.bytes(), object)
    }
}

/// A table with its types. The file's scope declares it then, also where it is refused.
pub fn check_table(alloc: Global, env: &mut Environment, d: &Declared) -> Result<Declared, Fail>
    requires { env_of env.old ≡ at_file (env_of env.old) }
    ensures value { Gives view_declared result (check_table (view_declared d.now) (env_of env.old)) }
    ensures names { OnAnswer result (env_of env.new ≡ beyond_table (view_declared d.now) (check_table (view_declared d.now) (env_of env.old)) (env_of env.old)) }
{
    match judged(alloc, env, d) {
        Ok(v) => Ok(v),
        Err(Fail::Refused(r)) => {
            end_item(env);
            declare_refused(alloc, env, d)?;
            Err(Fail::Refused(r))
        }
        Err(Fail::Memory) => Err(Fail::Memory),
    }
}

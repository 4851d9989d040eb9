//! Declared objects.

ghost use Rattle.std.specs.Prelude.{◌≡◌, ◌+◌, OnOk, IfOk, Some, None, option_map, true, not};
ghost use Rattle.c_tree.specs.Same.{unnumbered};
ghost use Rattle.c_tree.specs.View.{view, views, view_declared};
ghost use Rattle.type_rules.specs.Types.{assigned};
ghost use Rattle.scopes.specs.Scopes.{env_of, with_object};
ghost use Rattle.scopes.specs.Kept.{at_file, OnRefusal};
ghost use Rattle.expression_types.specs.Check.{Gives};
ghost use Rattle.object_types.specs.Objects.{is_no_trees, count_all, element_of, number_of, is_open, with_number, known, seen_length, length_of, aligned, seen_start, closed_type, small_once, value_fits, number_for, counted, start, declared_type, behind_name, check_object};

use crate::parts::{alignment, count, members, new_name, small};
use c_tree::{CType, Declared, Expr, Place, Pointee, Text, is_array, name_fault};
use expression_types::{Environment, Fail, Object, check_expression};
use scopes::scopes_end;
use std::alloc::{AllocError, Global};
use type_rules::{assigned_expr, read_type};

/// A length: its expression with its types, and the number, where one is written.
#[derive(Drop)]
struct Length {
    expression: Option<Expr>,
    number: Option<u64>,
}

/// What an object begins with, and its type then.
#[derive(Drop)]
struct Start {
    init: Option<Expr>,
    list: Option<Vec<Expr>>,
    ty: CType,
}

fn element_of(t: CType) -> CType
    ensures { result ≡ element_of t }
{
    match t {
        CType::Array(Pointee::Int(s), _, _) => CType::Int(s),
        _ => CType::Void,
    }
}

fn number_of(t: CType) -> Option<u64>
    ensures { result ≡ number_of t }
{
    match t {
        CType::Array(_, n, _) => if n == 0 { None } else { Some(n) },
        _ => None,
    }
}

fn is_open(t: CType) -> bool
    ensures { result ≡ is_open t }
{
    is_array(t) && !number_of(t).is_some()
}

fn with_number(number: Option<u64>, t: CType) -> CType
    ensures { result ≡ with_number number t }
{
    match (number, t) {
        (Some(n), CType::Array(e, _, c)) => CType::Array(e, n, c),
        _ => t,
    }
}

fn unnumbered(t: CType) -> CType
    ensures { result ≡ unnumbered t }
{
    match t {
        CType::Array(e, _, c) => CType::Array(e, 0, c),
        _ => t,
    }
}

/// An object as a scope knows it: the elements of a const array are const.
pub fn known(constant: bool, t: CType) -> Object
    ensures { result ≡ known constant t }
{
    match t {
        CType::Array(e, n, c) => Object {
            ty: CType::Array(e, n, c || constant),
            constant,
        },
        _ => Object { ty: t, constant },
    }
}

/// The type of a declared object, as the dialect reads it; an array's has the number of its elements, where it is known.
pub fn declared_type(number: Option<u64>, t: CType, env: &Environment) -> CType
    ensures { result ≡ declared_type number t (env_of env.now) }
{
    with_number(number, unnumbered(read_type(env.dialect, t)))
}

fn length_of(alloc: Global, env: &Environment, length: &Option<Expr>) -> Result<Length, Fail>
    ensures { Gives seen_length result (length_of (option_map view length.now) (env_of env.now)) }
{
    match length {
        None => Ok(Length {
            expression: None,
            number: None,
        }),
        Some(e) => {
            let e = check_expression(alloc, env, e)?;
            let n = count(alloc, &e)?;
            Ok(Length {
                expression: Some(e),
                number: Some(n),
            })
        }
    }
}

fn small_once(alloc: Global, now: bool, name: &Text, place: Place, t: CType) -> Result<(), Fail>
    ensures { Gives (λ _. true) result (small_once now name.now place t) }
{
    if now {
        small(alloc, name, place, t)
    } else {
        Ok(())
    }
}

// The alignment with its types, where it is judged now, or else as it is.
fn aligned(
    alloc: Global,
    now: bool,
    env: &Environment,
    align: Option<Expr>,
) -> Result<Option<Expr>, Fail>
    ensures { Gives (λ a. option_map view a) result (aligned now (option_map view align) (env_of env.now)) }
{
    match align {
        None => Ok(None),
        Some(e) => if now {
            Ok(Some(alignment(alloc, env, &e)?))
        } else {
            Ok(Some(e))
        },
    }
}

fn copy_of(alloc: Global, e: &Option<Expr>) -> Result<Option<Expr>, AllocError>
    ensures { IfOk result (λ c. option_map view c ≡ option_map view e.now) }
{
    match e {
        None => Ok(None),
        Some(e) => Ok(Some(e.copy(alloc)?)),
    }
}

fn closed_type(alloc: Global, name: &Text, place: Place, t: CType) -> Result<CType, Fail>
    ensures { Gives (λ u. u) result (closed_type name.now place t) }
{
    if is_open(t) {
        Err(name_fault(alloc, 11, place, name)?)
    } else {
        Ok(t)
    }
}

fn value_fits(alloc: Global, name: &Text, place: Place, t: CType, e: Expr) -> Result<Expr, Fail>
    ensures { Gives view result (value_fits name.now place (assigned t (view e))) }
{
    match assigned_expr(alloc, t, e)? {
        Some(e) => Ok(e),
        None => Err(name_fault(alloc, 11, place, name)?),
    }
}

// The number of elements of an open array that begins with so many.
fn number_for(t: CType, members: u64) -> Option<u64>
    ensures { result ≡ number_for t members }
{
    if is_open(t) { Some(members) } else { None }
}

fn is_no_list(all: &[Expr]) -> bool
    ensures { result ≡ is_no_trees (views all.now) }
{
    match all.split_first() {
        None => true,
        Some(_) => false,
    }
}

fn count_all(all: &[Expr]) -> u64
    ensures { result ≡ count_all (views all.now) }
{
    let mut n = 0u64;
    for x in all {
        let _place = x.place;
        n += 1;
    }
    n
}

fn counted(
    alloc: Global,
    name: &Text,
    place: Place,
    t: CType,
    all: Vec<Expr>,
) -> Result<Start, Fail>
    ensures { Gives seen_start result (counted name.now place t (views all.items)) }
{
    if is_no_list(all.as_slice()) {
        Err(name_fault(alloc, 11, place, name)?)
    } else {
        let ty = with_number(number_for(t, count_all(all.as_slice())), t);
        small_once(alloc, is_open(t), name, place, ty)?;
        Ok(Start {
            init: None,
            list: Some(all),
            ty,
        })
    }
}

fn listed(
    alloc: Global,
    env: &Environment,
    d: &Declared,
    t: CType,
    all: &[Expr],
) -> Result<Start, Fail>
    ensures { Gives seen_start result (start d.now.name d.now.place t None (Some (views all.now)) (env_of env.now)) }
{
    let all = members(alloc, env, element_of(t), number_of(t), all)?;
    counted(alloc, &d.name, d.place, t, all)
}

fn initialised(
    alloc: Global,
    env: &Environment,
    d: &Declared,
    t: CType,
    e: &Expr,
) -> Result<Start, Fail>
    ensures { Gives seen_start result (start d.now.name d.now.place t (Some (view e.now)) None (env_of env.now)) }
{
    let e = check_expression(alloc, env, e)?;
    let e = value_fits(alloc, &d.name, d.place, t, e)?;
    Ok(Start {
        init: Some(e),
        list: None,
        ty: t,
    })
}

fn begins_with(alloc: Global, env: &Environment, d: &Declared, t: CType) -> Result<Start, Fail>
    ensures { Gives seen_start result (start d.now.name d.now.place t (view_declared d.now).init (view_declared d.now).list (env_of env.now)) }
{
    match (&d.init, &d.list) {
        (None, None) => {
            let ty = closed_type(alloc, &d.name, d.place, t)?;
            Ok(Start {
                init: None,
                list: None,
                ty,
            })
        }
        (Some(e), None) => initialised(alloc, env, d, t, e),
        (None, Some(all)) => listed(alloc, env, d, t, all.as_slice()),
        (Some(_), Some(_)) => Err(name_fault(alloc, 11, d.place, &d.name)?),
    }
}

// The parts of an object behind its name, which is seen there. The scopes are as before afterwards; where it is refused, the file's is.
fn behind_name(
    alloc: Global,
    env: &mut Environment,
    d: &Declared,
    align: Option<Expr>,
    length: Length,
) -> Result<Declared, Fail>
    ensures value { Gives view_declared result (behind_name (view_declared d.now) (option_map view align) (env_of env.old) (seen_length length)) }
    ensures names { OnOk result (env_of env.new ≡ env_of env.old) }
    ensures kept { OnRefusal result (at_file (env_of env.new) ≡ at_file (env_of env.old)) }
    ensures named { IfOk result (λ v. v.name ≡ d.now.name) }
    ensures constant { IfOk result (λ v. v.constant ≡ d.now.constant) }
{
    let t = declared_type(length.number, d.ty, &*env);
    small_once(alloc, !is_open(t), &d.name, d.place, t)?;
    env.open(alloc)?;
    env.declare(alloc, d.name.bytes(), known(d.constant, t))?;
    let align = aligned(alloc, !d.align_first, &*env, align)?;
    let start = begins_with(alloc, &*env, d, t)?;
    env.close(alloc);
    scopes_end();
    let name = d.name.copy(alloc)?;
    Ok(Declared {
        place: d.place,
        name,
        ty: start.ty,
        length: length.expression,
        constant: d.constant,
        align,
        align_first: d.align_first,
        init: start.init,
        list: start.list,
    })
}

/// A declared object with its types. The innermost scope declares it then. Where it is refused, the file's scope is as before.
pub fn check_object(alloc: Global, env: &mut Environment, d: &Declared) -> Result<Declared, Fail>
    ensures value { Gives view_declared result (check_object (view_declared d.now) (env_of env.old)) }
    ensures names { IfOk result (λ v. env_of env.new ≡ with_object v.name (known v.constant v.ty) (env_of env.old)) }
    ensures kept { OnRefusal result (at_file (env_of env.new) ≡ at_file (env_of env.old)) }
{
    let align = copy_of(alloc, &d.align)?;
    let align = aligned(alloc, d.align_first, &*env, align)?;
    new_name(alloc, &*env, &d.name, d.place, read_type(env.dialect, d.ty))?;
    let length = length_of(alloc, &*env, &d.length)?;
    let v = behind_name(alloc, env, d, align, length)?;
    env.declare(alloc, d.name.bytes(), known(d.constant, v.ty))?;
    Ok(v)
}

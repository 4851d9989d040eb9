//! The parts of declared objects: names, lengths, alignments and members of initialisers.

ghost use Rattle.std.specs.Prelude.{◌≡◌, ◌+◌, true, false, option_map, OnOk, IfOk};
ghost use Rattle.const_imm.specs.Constant.{value_of};
ghost use Rattle.const_imm.specs.Sizes.{size_of};
ghost use Rattle.c_tree.specs.View.{view, views};
ghost use Rattle.scopes.specs.Scopes.{env_of, is_declared_here};
ghost use Rattle.expression_types.specs.Check.{Gives};
ghost use Rattle.c_text.specs.declared.refusals.Fail.TheVariants.{Refused};
ghost use Rattle.c_tree.specs.Nodes.{node_place, root};
ghost use Rattle.c_tree.specs.Marks.{mark};
ghost use Rattle.object_types.specs.Objects.{is_object_type, new_name, count_of, is_low_alignment, is_high_alignment, is_alignment, alignment_of, alignment, is_small, small, is_room, is_member, member, members};

use crate::reserved::is_reserved;
use c_tree::{CType, Expr, ExprKind, Place, Text, fault, name_fault, root};
use const_imm::{eval_const, size_of};
use expression_types::{Environment, Fail, check_expression};
use std::alloc::{AllocError, Global};
use type_rules::{converted_expr, is_integer, is_object, is_void_pointer};

// The refusal 11 of an expression that doesn't fit where it stands.
fn unfit(alloc: Global, e: &Expr) -> Result<Fail, AllocError>
    ensures { IfOk result (λ f. f ≡ Refused (record { number = 11; place = node_place (root (view e.now)); detail = mark (root (view e.now)) })) }
{
    let node = root(e);
    fault(alloc, 11, node.place, &node.kind)
}

/// Whether an object may have the type: not `void`, nor an array of it.
pub fn is_object_type(t: CType) -> bool
    ensures { result ≡ is_object_type t }
{
    match t {
        CType::Void => false,
        CType::Array(e, _, _) => is_object(e),
        _ => true,
    }
}

/// A name that is declared at a place, for an object of the type `t`. It is refused 12 where it is reserved, 11 where the scope has it or the
/// type is no object's, and 18 where the type is a pointer to void.
pub fn new_name(
    alloc: Global,
    env: &Environment,
    name: &Text,
    place: Place,
    t: CType,
) -> Result<(), Fail>
    ensures value { Gives (λ _. true) result (new_name name.now place t (env_of env.now)) }
    ensures free { OnOk result (is_declared_here name.now (env_of env.now) ≡ false) }
{
    if is_reserved(env.dialect, env.is_neon_row(name.bytes()), name.bytes()) {
        Err(name_fault(alloc, 12, place, name)?)
    } else if env.declares(name.bytes()) {
        Err(name_fault(alloc, 11, place, name)?)
    } else if !is_object_type(t) {
        Err(name_fault(alloc, 11, place, name)?)
    } else if is_void_pointer(t) {
        Err(name_fault(alloc, 18, place, name)?)
    } else {
        Ok(())
    }
}

/// The number of an array's elements that an expression with its types gives: a constant of at least 1.
pub fn count(alloc: Global, e: &Expr) -> Result<u64, Fail>
    ensures { Gives (λ n. n) result (count_of (view e.now) (value_of (view e.now))) }
{
    match eval_const(e) {
        Ok(n) => if n.value >= 1 {
            Ok(n.value.unsigned_abs() as u64)
        } else {
            Err(unfit(alloc, e)?)
        },
        Err(_) => Err(unfit(alloc, e)?),
    }
}

fn is_low_alignment(value: i128) -> bool
    ensures { result ≡ is_low_alignment value }
{
    value == 1 || value == 2 || value == 4 || value == 8
}

fn is_high_alignment(value: i128) -> bool
    ensures { result ≡ is_high_alignment value }
{
    value == 16 || value == 32 || value == 64
}

fn is_alignment(value: i128) -> bool
    ensures { result ≡ is_alignment value }
{
    is_low_alignment(value) || is_high_alignment(value)
}

fn alignment_of(alloc: Global, e: Expr) -> Result<Expr, Fail>
    ensures { Gives view result (alignment_of (view e) (value_of (view e))) }
{
    match eval_const(&e) {
        Ok(n) => if is_alignment(n.value) {
            Ok(e)
        } else {
            Err(unfit(alloc, &e)?)
        },
        Err(_) => Err(unfit(alloc, &e)?),
    }
}

/// An alignment with its types: a constant power of two up to 64.
pub fn alignment(alloc: Global, env: &Environment, e: &Expr) -> Result<Expr, Fail>
    ensures { Gives view result (alignment (view e.now) (env_of env.now)) }
{
    let e = check_expression(alloc, env, e)?;
    alignment_of(alloc, e)
}

fn is_small(size: Option<u64>) -> bool
    ensures { result ≡ is_small size }
{
    match size {
        Some(n) => n <= 65536,
        None => false,
    }
}

/// The name of an object of the type `t` is refused 20 where that has more than 65,536 bytes.
pub fn small(alloc: Global, name: &Text, place: Place, t: CType) -> Result<(), Fail>
    ensures { Gives (λ _. true) result (small name.now place t) }
{
    if is_small(size_of(t)) {
        Ok(())
    } else {
        Err(name_fault(alloc, 20, place, name)?)
    }
}

fn is_room(i: u64, n: Option<u64>) -> bool
    ensures { result ≡ is_room i n }
{
    match n {
        Some(n) => i < n,
        None => true,
    }
}

fn is_member(t: CType, room: bool, e: &Expr) -> bool
    ensures { result ≡ is_member t room (view e.now) }
{
    room && is_integer(t) && is_integer(e.ty) && eval_const(e).is_ok()
}

/// A member of an initialiser for an array of elements of the type `t`, which has its types: an integer constant, where there is room for it.
pub fn member(alloc: Global, t: CType, room: bool, e: Expr) -> Result<Expr, Fail>
    ensures { Gives view result (member t room (view e)) }
{
    if is_member(t, room, &e) {
        Ok(converted_expr(alloc, t, e)?)
    } else {
        Err(unfit(alloc, &e)?)
    }
}

/// The members of an array's initialiser with their types: integer constants, no more than the array has elements, where that is known.
pub fn members(
    alloc: Global,
    env: &Environment,
    t: CType,
    number: Option<u64>,
    all: &[Expr],
) -> Result<Vec<Expr>, Fail>
    ensures { Gives (λ v. views v.items) result (members t number 0 (views all.now) (env_of env.now)) }
{
    let mut out = Vec::new(alloc);
    let mut i = 0u64;
    for x in all {
        let x = check_expression(alloc, env, x)?;
        let y = member(alloc, t, is_room(i, number), x)?;
        out.push(y)?;
        i += 1;
    }
    Ok(out)
}

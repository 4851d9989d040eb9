//! The check of an expression.

ghost use Rattle.std.specs.Prelude.{◌≡◌, IfOk, option_map, true};
ghost use Rattle.c_tree.specs.View.{view, view_kind, views};
ghost use Rattle.const_imm.specs.Constant.{value_of};
ghost use Rattle.scopes.specs.Scopes.{env_of};
ghost use Rattle.type_rules.specs.Passing.{immediate_of};
ghost use Rattle.c_tree.specs.Marks.{mark_of};
ghost use Rattle.expression_types.specs.Names.{target_of};
ghost use Rattle.expression_types.specs.Check.{Gives, typed, admitted, is_char, read_number, in_range, immediate_fits, call, one, two, check, check_kind, check_all};

use crate::names::{Target, called, used};
use crate::objects::{address, is_writable};
use c_text::{Dialect, Fail, Place, Text};
use c_tree::{Expr, ExprKind, IntType, Num, fault, name_fault};
use const_imm::eval_const;
use scalar_core::convert;
use scopes::Environment;
use std::alloc::{AllocError, Global};
use type_rules::{
    ImmRange, immediate_of, is_in_range, is_void_pointer, name_expr, operations, passed, read_type,
};

fn is_char(t: IntType) -> bool
    ensures { result ≡ is_char t }
{
    match t {
        IntType::Char => true,
        _ => false,
    }
}

fn read_number(dialect: Dialect, n: Num) -> Num
    ensures { result ≡ read_number dialect n }
{
    match dialect {
        Dialect::X86 => n,
        Dialect::Neon => if is_char(n.ty) {
            convert(n, IntType::UChar)
        } else {
            n
        },
    }
}

// The node, if its types fit, or else 11.
fn typed(alloc: Global, place: Place, kind: &ExprKind, node: Option<Expr>) -> Result<Expr, Fail>
    ensures { Gives view result (typed place (mark_of (view_kind kind.now)) (option_map view node)) }
{
    match node {
        Some(e) => Ok(e),
        None => Err(fault(alloc, 11, place, kind)?),
    }
}

// The node, if the profile has it, or else 18.
fn admitted(
    alloc: Global,
    outside: bool,
    place: Place,
    kind: &ExprKind,
    e: Expr,
) -> Result<Expr, Fail>
    ensures { Gives view result (admitted outside place (mark_of (view_kind kind.now)) (view e)) }
{
    if outside {
        Err(fault(alloc, 18, place, kind)?)
    } else {
        Ok(e)
    }
}

// A form with one operand, which has passed.
fn one(
    alloc: Global,
    env: &Environment,
    place: Place,
    kind: &ExprKind,
    a: Expr,
) -> Result<Expr, Fail>
    ensures { Gives view result (one (view_kind kind.now) place (env_of env.now) (view a)) }
{
    match kind {
        ExprKind::Unary(op, _) => {
            let node = operations::unary(alloc, *op, place, a)?;
            typed(alloc, place, kind, node)
        }
        ExprKind::Step(_, up, before) => {
            let node = if is_writable(env, &a) {
                operations::step(alloc, *up, *before, place, a)?
            } else {
                None
            };
            typed(alloc, place, kind, node)
        }
        ExprKind::Cast(t, _, _) => {
            let node = operations::cast(alloc, read_type(env.dialect, *t), place, a)?;
            let e = typed(alloc, place, kind, node)?;
            admitted(alloc, is_void_pointer(*t), place, kind, e)
        }
        ExprKind::Deref(_) => {
            let node = operations::deref(alloc, place, a)?;
            typed(alloc, place, kind, node)
        }
        ExprKind::Address(_) => {
            let node = address(alloc, env, place, a)?;
            typed(alloc, place, kind, node)
        }
        ExprKind::Half(_, k) => {
            let node = operations::half(alloc, *k, place, a)?;
            typed(alloc, place, kind, node)
        }
        ExprKind::Const(_)
        | ExprKind::Name(_)
        | ExprKind::Binary(_, _, _)
        | ExprKind::AndThen(_, _)
        | ExprKind::OrElse(_, _)
        | ExprKind::Choice(_, _, _)
        | ExprKind::Assign(_, _, _)
        | ExprKind::Comma(_)
        | ExprKind::Index(_, _)
        | ExprKind::Call(_, _)
        | ExprKind::PairOf(_, _)
        | ExprKind::SizeOfType(_)
        | ExprKind::SizeOfName(_)
        | ExprKind::Str(_) => Err(fault(alloc, 11, place, kind)?),
    }
}

// A form with two operands, which have passed.
fn two(
    alloc: Global,
    env: &Environment,
    place: Place,
    kind: &ExprKind,
    a: Expr,
    b: Expr,
) -> Result<Expr, Fail>
    ensures { Gives view result (two (view_kind kind.now) place (env_of env.now) (view a) (view b)) }
{
    match kind {
        ExprKind::Binary(op, _, _) => {
            let node = operations::binary(alloc, *op, place, a, b)?;
            typed(alloc, place, kind, node)
        }
        ExprKind::AndThen(_, _) => {
            let node = operations::and_then(alloc, place, a, b)?;
            typed(alloc, place, kind, node)
        }
        ExprKind::OrElse(_, _) => {
            let node = operations::or_else(alloc, place, a, b)?;
            typed(alloc, place, kind, node)
        }
        ExprKind::Assign(op, _, _) => {
            let node = if is_writable(env, &a) {
                operations::assign(alloc, *op, place, a, b)?
            } else {
                None
            };
            typed(alloc, place, kind, node)
        }
        ExprKind::Index(_, _) => {
            let node = operations::index(alloc, place, a, b)?;
            typed(alloc, place, kind, node)
        }
        ExprKind::PairOf(_, _) => {
            let node = operations::pair(alloc, place, a, b)?;
            typed(alloc, place, kind, node)
        }
        ExprKind::Const(_)
        | ExprKind::Name(_)
        | ExprKind::Unary(_, _)
        | ExprKind::Step(_, _, _)
        | ExprKind::Choice(_, _, _)
        | ExprKind::Comma(_)
        | ExprKind::Cast(_, _, _)
        | ExprKind::Deref(_)
        | ExprKind::Address(_)
        | ExprKind::Call(_, _)
        | ExprKind::Half(_, _)
        | ExprKind::SizeOfType(_)
        | ExprKind::SizeOfName(_)
        | ExprKind::Str(_) => Err(fault(alloc, 11, place, kind)?),
    }
}

// An immediate has a constant value in the row's range.
fn in_range(alloc: Global, range: ImmRange, a: &Expr) -> Result<(), Fail>
    ensures { Gives (λ _. true) result (in_range range (view a.now) (value_of (view a.now))) }
{
    match eval_const(a) {
        Ok(n) => if is_in_range(range, n.value) {
            Ok(())
        } else {
            Err(fault(alloc, 15, a.place, &a.kind)?)
        },
        Err(_) => Err(fault(alloc, 14, a.place, &a.kind)?),
    }
}

// The immediate among the arguments, if there is one, fits.
fn immediate_fits(alloc: Global, target: &Target, all: &[Expr]) -> Result<(), Fail>
    ensures { Gives (λ _. true) result (immediate_fits target.now.range (immediate_of target.now.heading.params.items (views all.now))) }
{
    match immediate_of(target.heading.params.as_slice(), all) {
        None => Ok(()),
        Some(a) => in_range(alloc, target.range, a),
    }
}

// A call whose name and arguments have passed.
fn call(
    alloc: Global,
    target: &Target,
    name: &Text,
    place: Place,
    all: Vec<Expr>,
) -> Result<Expr, Fail>
    ensures { Gives view result (call (target_of target.now) name.now place (views all.items)) }
{
    match passed(alloc, target.heading.params.as_slice(), all)? {
        None => Err(name_fault(alloc, 11, place, name)?),
        Some(args) => {
            immediate_fits(alloc, target, args.as_slice())?;
            if target.outside {
                Err(name_fault(alloc, 18, place, name)?)
            } else {
                let name = name.copy(alloc)?;
                let kind = Box::new(alloc, ExprKind::Call(name, args))?;
                Ok(Expr {
                    place,
                    ty: target.heading.result,
                    kind,
                })
            }
        }
    }
}

/// The expression with its types.
#[cycle(check)]
pub fn check_expression(alloc: Global, env: &Environment, e: &Expr) -> Result<Expr, Fail>
    ensures { Gives view result (check (view e.now) (env_of env.now)) }
{
    check_kind(alloc, env, e.place, &e.kind)
}

#[cycle(check)]
fn check_kind(alloc: Global, env: &Environment, place: Place, kind: &ExprKind) -> Result<Expr, Fail>
    ensures { Gives view result (check_kind (view_kind kind.now) place (env_of env.now)) }
{
    match kind {
        ExprKind::Const(n) => Ok(operations::constant(alloc, place, read_number(env.dialect, *n))?),
        ExprKind::Name(x) => {
            let object = used(alloc, env, place, x)?;
            Ok(name_expr(alloc, place, x, object.ty)?)
        }
        ExprKind::Unary(_, a) => {
            let a = check_expression(alloc, env, a)?;
            one(alloc, env, place, kind, a)
        }
        ExprKind::Step(a, _, _) => {
            let a = check_expression(alloc, env, a)?;
            one(alloc, env, place, kind, a)
        }
        ExprKind::Binary(_, a, b) => {
            let a = check_expression(alloc, env, a)?;
            let b = check_expression(alloc, env, b)?;
            two(alloc, env, place, kind, a, b)
        }
        ExprKind::AndThen(a, b) => {
            let a = check_expression(alloc, env, a)?;
            let b = check_expression(alloc, env, b)?;
            two(alloc, env, place, kind, a, b)
        }
        ExprKind::OrElse(a, b) => {
            let a = check_expression(alloc, env, a)?;
            let b = check_expression(alloc, env, b)?;
            two(alloc, env, place, kind, a, b)
        }
        ExprKind::Choice(c, a, b) => {
            let c = check_expression(alloc, env, c)?;
            let a = check_expression(alloc, env, a)?;
            let b = check_expression(alloc, env, b)?;
            let node = operations::choice(alloc, place, c, a, b)?;
            typed(alloc, place, kind, node)
        }
        ExprKind::Assign(_, a, b) => {
            let a = check_expression(alloc, env, a)?;
            let b = check_expression(alloc, env, b)?;
            two(alloc, env, place, kind, a, b)
        }
        ExprKind::Comma(all) => {
            let all = check_expressions(alloc, env, all.as_slice())?;
            let node = operations::comma(alloc, place, all)?;
            typed(alloc, place, kind, node)
        }
        ExprKind::Cast(_, a, true) => {
            let a = check_expression(alloc, env, a)?;
            one(alloc, env, place, kind, a)
        }
        ExprKind::Cast(_, a, false) => check_expression(alloc, env, a),
        ExprKind::Index(a, b) => {
            let a = check_expression(alloc, env, a)?;
            let b = check_expression(alloc, env, b)?;
            two(alloc, env, place, kind, a, b)
        }
        ExprKind::Deref(a) => {
            let a = check_expression(alloc, env, a)?;
            one(alloc, env, place, kind, a)
        }
        ExprKind::Address(a) => {
            let a = check_expression(alloc, env, a)?;
            one(alloc, env, place, kind, a)
        }
        ExprKind::Call(f, all) => {
            let target = called(alloc, env, place, f)?;
            let all = check_expressions(alloc, env, all.as_slice())?;
            call(alloc, &target, f, place, all)
        }
        ExprKind::Half(a, _) => {
            let a = check_expression(alloc, env, a)?;
            one(alloc, env, place, kind, a)
        }
        ExprKind::PairOf(a, b) => {
            let a = check_expression(alloc, env, a)?;
            let b = check_expression(alloc, env, b)?;
            two(alloc, env, place, kind, a, b)
        }
        ExprKind::SizeOfType(t) => {
            let node = operations::size(alloc, read_type(env.dialect, *t), place)?;
            let e = typed(alloc, place, kind, node)?;
            admitted(alloc, is_void_pointer(*t), place, kind, e)
        }
        ExprKind::SizeOfName(x) => {
            let object = used(alloc, env, place, x)?;
            let node = operations::size_of_name(alloc, x, object.ty, place)?;
            typed(alloc, place, kind, node)
        }
        ExprKind::Str(_) => Err(fault(alloc, 11, place, kind)?),
    }
}

#[cycle(check)]
#[tactic(auto, using(crate::proofs::Lists::front_one_more))]
fn check_expressions(alloc: Global, env: &Environment, all: &[Expr]) -> Result<Vec<Expr>, Fail>
    ensures { Gives (λ v. views v.items) result (check_all (views all.now) (env_of env.now)) }
{
    let mut out = Vec::new(alloc);
    for x in all {
        let y = check_expression(alloc, env, x)?;
        out.push(y)?;
    }
    Ok(out)
}

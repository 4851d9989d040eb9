//! The evaluator: what expressions and statements do.

ghost use Rattle.std.specs.Prelude.{◌≡◌, true, None, map, option_map};
ghost use Rattle.c_tree.specs.Tree.{Unary, Step, Binary, AndThen, OrElse, Choice, Assign, Cast, Index, Deref, Address, Call, PairOf};
ghost use Rattle.c_tree.specs.View.{view, views, view_declared, view_stmt, view_stmts, view_optional};
ghost use Rattle.address_taken.specs.Taken.{seen_all};
ghost use Rattle.c_memory.specs.MeaningState.{scoped};
ghost use Rattle.c_memory.specs.Meaning.{condition, expression, kind_expression, name_in, half_expression, its_value, target, last, values, loops, loops_after, with_step, optional_condition, optional_value, initialised};
ghost use Rattle.c_meaning.specs.Seen.{seen_objects};
ghost use Rattle.c_meaning.specs.States.{seen_state, seen_target};
ghost use Rattle.c_meaning.specs.Answers.{Answers, Shows};
ghost use Rattle.c_meaning.specs.Callees.{seen_callee, seen_flow, calls_at};
ghost use Rattle.c_meaning.specs.Flagged.{parts_of, declare, act, optional_act, optional_body, sequence, call_of, body_of};

use crate::beginnings::is_block;
use crate::calls::{Callee, Environment, Flow};
use crate::flags::{after_start, first_flag, flags_of, other_flags, parts_of, rest_of};
use crate::names::name_in;
use crate::rows::Rows;
use crate::state::{State, Stop, Target, within};
use crate::values::push;
use address_taken::Taken;
use c_memory::Value;
use c_text::Text;
use c_tree::{BinOp, CType, Declared, Expr, ExprKind, Stmt, UnOp};
use c_values::operators;
use std::mem::replace;

/// The value of an expression, or none where its type is `void`. It may call the first `n` functions, and `room` functions of the evaluator that count
/// themselves may stand within one another.
#[cycle(run)]
#[inline(never)]
fn expression<'a, R: Rows>(
    env: &Environment<'a, '_, R>,
    n: usize,
    room: usize,
    state: &mut State<'a>,
    e: &'a Expr,
) -> Result<Option<Value>, Stop>
    ensures { Answers (expression (view e.now) (calls_at env.now.tables R.row_call env.now.callees.all.items n) (seen_state state.old)) result state.new }
{
    let room = within(room)?;
    match &*e.kind {
        ExprKind::Const(number) => Ok(Some(Value::Int(*number))),
        ExprKind::Name(x) => state.value_of_name(x.bytes()),
        ExprKind::Unary(op, a) => unary(env, n, room, state, e.ty, *op, a),
        ExprKind::Step(a, up, before) => step(env, n, room, state, e.ty, a, *up, *before),
        ExprKind::Binary(op, a, b) => binary(env, n, room, state, e.ty, *op, a, b),
        ExprKind::AndThen(a, b) => and_then(env, n, room, state, e.ty, a, b),
        ExprKind::OrElse(a, b) => or_else(env, n, room, state, e.ty, a, b),
        ExprKind::Choice(c, a, b) => choice(env, n, room, state, e.ty, c, a, b),
        ExprKind::Assign(op, a, b) => assign(env, n, room, state, e.ty, *op, a, b),
        ExprKind::Comma(all) => last(env, n, room, state, all.as_slice()),
        ExprKind::Cast(ty, a, _) => cast(env, n, room, state, *ty, a),
        ExprKind::Index(a, b) => index(env, n, room, state, e.ty, a, b),
        ExprKind::Deref(a) => deref(env, n, room, state, e.ty, a),
        ExprKind::Address(a) => address(env, n, room, state, e.ty, a),
        ExprKind::Call(f, all) => called(env, n, room, state, e.ty, f, all.as_slice()),
        ExprKind::Half(a, k) => half(env, n, room, state, a, *k),
        ExprKind::PairOf(a, b) => pair(env, n, room, state, e.ty, a, b),
        ExprKind::SizeOfType(ty) => state.size_of_type(*ty),
        ExprKind::SizeOfName(x) => state.size_of_name(x.bytes()),
        ExprKind::Str(_) => Err(Stop::Undefined),
    }
}

/// An operator before its operand.
#[cycle(run)]
#[inline(never)]
fn unary<'a, R: Rows>(
    env: &Environment<'a, '_, R>,
    n: usize,
    room: usize,
    state: &mut State<'a>,
    ty: CType,
    op: UnOp,
    a: &'a Expr,
) -> Result<Option<Value>, Stop>
    ensures { Answers (kind_expression ty (Unary op (view a.now)) (calls_at env.now.tables R.row_call env.now.callees.all.items n) (seen_state state.old)) result state.new }
{
    let v = value(env, n, room, state, a)?;
    let w = operators::operate_before(&state.memory, op, v).ok_or(Stop::Undefined)?;
    Ok(Some(w))
}

/// A step by one.
#[cycle(run)]
#[inline(never)]
fn step<'a, R: Rows>(
    env: &Environment<'a, '_, R>,
    n: usize,
    room: usize,
    state: &mut State<'a>,
    ty: CType,
    a: &'a Expr,
    up: bool,
    before: bool,
) -> Result<Option<Value>, Stop>
    ensures { Answers (kind_expression ty (Step (view a.now) up before) (calls_at env.now.tables R.row_call env.now.callees.all.items n) (seen_state state.old)) result state.new }
{
    let place = target(env, n, room, state, a)?;
    let v = state.step(ty, up, before, place)?;
    Ok(Some(v))
}

/// An operator between two operands.
#[cycle(run)]
#[inline(never)]
fn binary<'a, R: Rows>(
    env: &Environment<'a, '_, R>,
    n: usize,
    room: usize,
    state: &mut State<'a>,
    ty: CType,
    op: BinOp,
    a: &'a Expr,
    b: &'a Expr,
) -> Result<Option<Value>, Stop>
    ensures { Answers (kind_expression ty (Binary op (view a.now) (view b.now)) (calls_at env.now.tables R.row_call env.now.callees.all.items n) (seen_state state.old)) result state.new }
{
    let v = value(env, n, room, state, a)?;
    let w = value(env, n, room, state, b)?;
    let x = operators::operate(&state.memory, op, a.ty, b.ty, v, w).ok_or(Stop::Undefined)?;
    Ok(Some(x))
}

/// `a && b`.
#[cycle(run)]
#[inline(never)]
fn and_then<'a, R: Rows>(
    env: &Environment<'a, '_, R>,
    n: usize,
    room: usize,
    state: &mut State<'a>,
    ty: CType,
    a: &'a Expr,
    b: &'a Expr,
) -> Result<Option<Value>, Stop>
    ensures { Answers (kind_expression ty (AndThen (view a.now) (view b.now)) (calls_at env.now.tables R.row_call env.now.callees.all.items n) (seen_state state.old)) result state.new }
{
    if holds(env, n, room, state, a)? {
        let w = holds(env, n, room, state, b)?;
        Ok(Some(operators::as_int(w)))
    } else {
        Ok(Some(operators::as_int(false)))
    }
}

/// `a || b`.
#[cycle(run)]
#[inline(never)]
fn or_else<'a, R: Rows>(
    env: &Environment<'a, '_, R>,
    n: usize,
    room: usize,
    state: &mut State<'a>,
    ty: CType,
    a: &'a Expr,
    b: &'a Expr,
) -> Result<Option<Value>, Stop>
    ensures { Answers (kind_expression ty (OrElse (view a.now) (view b.now)) (calls_at env.now.tables R.row_call env.now.callees.all.items n) (seen_state state.old)) result state.new }
{
    if holds(env, n, room, state, a)? {
        Ok(Some(operators::as_int(true)))
    } else {
        let w = holds(env, n, room, state, b)?;
        Ok(Some(operators::as_int(w)))
    }
}

/// `c ? a : b`.
#[cycle(run)]
#[inline(never)]
fn choice<'a, R: Rows>(
    env: &Environment<'a, '_, R>,
    n: usize,
    room: usize,
    state: &mut State<'a>,
    ty: CType,
    c: &'a Expr,
    a: &'a Expr,
    b: &'a Expr,
) -> Result<Option<Value>, Stop>
    ensures { Answers (kind_expression ty (Choice (view c.now) (view a.now) (view b.now)) (calls_at env.now.tables R.row_call env.now.callees.all.items n) (seen_state state.old)) result state.new }
{
    if holds(env, n, room, state, c)? {
        expression(env, n, room, state, a)
    } else {
        expression(env, n, room, state, b)
    }
}

/// An assignment, or one with an operator.
#[cycle(run)]
#[inline(never)]
fn assign<'a, R: Rows>(
    env: &Environment<'a, '_, R>,
    n: usize,
    room: usize,
    state: &mut State<'a>,
    ty: CType,
    op: Option<BinOp>,
    a: &'a Expr,
    b: &'a Expr,
) -> Result<Option<Value>, Stop>
    ensures { Answers (kind_expression ty (Assign op (view a.now) (view b.now)) (calls_at env.now.tables R.row_call env.now.callees.all.items n) (seen_state state.old)) result state.new }
{
    let place = target(env, n, room, state, a)?;
    let w = value(env, n, room, state, b)?;
    let v = state.assigned_by(op, ty, b.ty, place, w)?;
    Ok(Some(v))
}

/// A conversion.
#[cycle(run)]
#[inline(never)]
fn cast<'a, R: Rows>(
    env: &Environment<'a, '_, R>,
    n: usize,
    room: usize,
    state: &mut State<'a>,
    ty: CType,
    a: &'a Expr,
) -> Result<Option<Value>, Stop>
    ensures { Answers (kind_expression ty (Cast ty (view a.now) true) (calls_at env.now.tables R.row_call env.now.callees.all.items n) (seen_state state.old)) result state.new }
{
    let v = expression(env, n, room, state, a)?;
    state.cast_to(ty, v)
}

/// An element of an array.
#[cycle(run)]
#[inline(never)]
fn index<'a, R: Rows>(
    env: &Environment<'a, '_, R>,
    n: usize,
    room: usize,
    state: &mut State<'a>,
    ty: CType,
    a: &'a Expr,
    b: &'a Expr,
) -> Result<Option<Value>, Stop>
    ensures { Answers (kind_expression ty (Index (view a.now) (view b.now)) (calls_at env.now.tables R.row_call env.now.callees.all.items n) (seen_state state.old)) result state.new }
{
    let v = value(env, n, room, state, a)?;
    let w = value(env, n, room, state, b)?;
    let place = state.element(a.ty, b.ty, v, w)?;
    let v = state.read_target(ty, place)?;
    Ok(Some(v))
}

/// What lies at a pointer.
#[cycle(run)]
#[inline(never)]
fn deref<'a, R: Rows>(
    env: &Environment<'a, '_, R>,
    n: usize,
    room: usize,
    state: &mut State<'a>,
    ty: CType,
    a: &'a Expr,
) -> Result<Option<Value>, Stop>
    ensures { Answers (kind_expression ty (Deref (view a.now)) (calls_at env.now.tables R.row_call env.now.callees.all.items n) (seen_state state.old)) result state.new }
{
    let v = value(env, n, room, state, a)?;
    let place = state.there(v)?;
    let v = state.read_target(ty, place)?;
    Ok(Some(v))
}

/// The address of an object.
#[cycle(run)]
#[inline(never)]
fn address<'a, R: Rows>(
    env: &Environment<'a, '_, R>,
    n: usize,
    room: usize,
    state: &mut State<'a>,
    ty: CType,
    a: &'a Expr,
) -> Result<Option<Value>, Stop>
    ensures { Answers (kind_expression ty (Address (view a.now)) (calls_at env.now.tables R.row_call env.now.callees.all.items n) (seen_state state.old)) result state.new }
{
    let place = target(env, n, room, state, a)?;
    let v = state.address(place)?;
    Ok(Some(v))
}

/// A call with its arguments.
#[cycle(run)]
#[inline(never)]
fn called<'a, R: Rows>(
    env: &Environment<'a, '_, R>,
    n: usize,
    room: usize,
    state: &mut State<'a>,
    ty: CType,
    f: &'a Text,
    all: &'a [Expr],
) -> Result<Option<Value>, Stop>
    ensures { Answers (kind_expression ty (Call f.now (views all.now)) (calls_at env.now.tables R.row_call env.now.callees.all.items n) (seen_state state.old)) result state.new }
{
    let given = values(env, n, room, state, all)?;
    call(env, n, room, state, f.bytes(), given.as_slice())
}

/// The pair of two vectors.
#[cycle(run)]
#[inline(never)]
fn pair<'a, R: Rows>(
    env: &Environment<'a, '_, R>,
    n: usize,
    room: usize,
    state: &mut State<'a>,
    ty: CType,
    a: &'a Expr,
    b: &'a Expr,
) -> Result<Option<Value>, Stop>
    ensures { Answers (kind_expression ty (PairOf (view a.now) (view b.now)) (calls_at env.now.tables R.row_call env.now.callees.all.items n) (seen_state state.old)) result state.new }
{
    let v = value(env, n, room, state, a)?;
    let w = value(env, n, room, state, b)?;
    let v = state.pair_of(v, w)?;
    Ok(Some(v))
}

/// The value of an expression. Undefined where it gives none.
#[cycle(run)]
#[inline(never)]
fn value<'a, R: Rows>(
    env: &Environment<'a, '_, R>,
    n: usize,
    room: usize,
    state: &mut State<'a>,
    e: &'a Expr,
) -> Result<Value, Stop>
    ensures { Answers (its_value (expression (view e.now) (calls_at env.now.tables R.row_call env.now.callees.all.items n)) (seen_state state.old)) result state.new }
{
    let v = expression(env, n, room, state, e)?;
    v.ok_or(Stop::Undefined)
}

/// Whether a condition holds.
#[cycle(run)]
#[inline(never)]
fn holds<'a, R: Rows>(
    env: &Environment<'a, '_, R>,
    n: usize,
    room: usize,
    state: &mut State<'a>,
    e: &'a Expr,
) -> Result<bool, Stop>
    ensures { Answers (condition (expression (view e.now) (calls_at env.now.tables R.row_call env.now.callees.all.items n)) (seen_state state.old)) result state.new }
{
    let v = value(env, n, room, state, e)?;
    operators::holds(&state.memory, v).ok_or(Stop::Undefined)
}

/// Half of a pair: of an object apart from memory, or of a value.
#[cycle(run)]
#[inline(never)]
fn half<'a, R: Rows>(
    env: &Environment<'a, '_, R>,
    n: usize,
    room: usize,
    state: &mut State<'a>,
    e: &'a Expr,
    k: u8,
) -> Result<Option<Value>, Stop>
    ensures { Answers (half_expression (name_in (view e.now)) k (expression (view e.now) (calls_at env.now.tables R.row_call env.now.callees.all.items n)) (seen_state state.old)) result state.new }
{
    match name_in(e) {
        Some(x) => {
            let binding = state.object_of(x)?;
            let v = state.half_named(k, binding)?;
            Ok(Some(v))
        }
        None => {
            let v = value(env, n, room, state, e)?;
            let v = state.half_of(k, v)?;
            Ok(Some(v))
        }
    }
}

/// The object that an expression names.
#[cycle(run)]
#[inline(never)]
fn target<'a, R: Rows>(
    env: &Environment<'a, '_, R>,
    n: usize,
    room: usize,
    state: &mut State<'a>,
    e: &'a Expr,
) -> Result<Target<'a>, Stop>
    ensures { Shows seen_target (target (view e.now) (calls_at env.now.tables R.row_call env.now.callees.all.items n) (seen_state state.old)) result state.new }
{
    let room = within(room)?;
    match &*e.kind {
        ExprKind::Name(x) => {
            let binding = state.object_of(x.bytes())?;
            Ok(binding.target())
        }
        ExprKind::Index(a, b) => {
            let v = value(env, n, room, state, a)?;
            let w = value(env, n, room, state, b)?;
            state.element(a.ty, b.ty, v, w)
        }
        ExprKind::Deref(a) => {
            let v = value(env, n, room, state, a)?;
            state.there(v)
        }
        ExprKind::Half(a, k) => {
            let place = target(env, n, room, state, a)?;
            state.half_target(*k, place)
        }
        _ => Err(Stop::Undefined),
    }
}

/// The value of the last of several expressions.
#[cycle(run)]
#[inline(never)]
fn last<'a, R: Rows>(
    env: &Environment<'a, '_, R>,
    n: usize,
    room: usize,
    state: &mut State<'a>,
    all: &'a [Expr],
) -> Result<Option<Value>, Stop>
    ensures { Answers (last None (views all.now) (calls_at env.now.tables R.row_call env.now.callees.all.items n) (seen_state state.old)) result state.new }
{
    let mut v = None;
    for e in all {
        v = expression(env, n, room, state, e)?;
    }
    Ok(v)
}

/// The values of arguments, from left to right.
#[cycle(run)]
#[inline(never)]
fn values<'a, R: Rows>(
    env: &Environment<'a, '_, R>,
    n: usize,
    room: usize,
    state: &mut State<'a>,
    all: &'a [Expr],
) -> Result<Vec<Value>, Stop>
    ensures { Shows (λ v. v.items) (values (views all.now) (calls_at env.now.tables R.row_call env.now.callees.all.items n) (seen_state state.old)) result state.new }
{
    let mut given = Vec::new(env.alloc);
    for e in all {
        let v = value(env, n, room, state, e)?;
        push(&mut given, v)?;
    }
    Ok(given)
}

/// The call of a name: of the last of the first `n` functions that has it, or else of a row.
#[cycle(run)]
#[inline(never)]
fn call<'a, R: Rows>(
    env: &Environment<'a, '_, R>,
    n: usize,
    room: usize,
    state: &mut State<'a>,
    name: &[u8],
    given: &[Value],
) -> Result<Option<Value>, Stop>
    ensures { Answers (calls_at env.now.tables R.row_call env.now.callees.all.items n name.now given.now (seen_state state.old)) result state.new }
{
    match env.callees.last_called(n, name) {
        None => env.rows.call(env.alloc, state, name, given),
        Some(k) => {
            let callee = &env.callees.all[k];
            state.spend_for(name)?;
            enter(env, k, room, state, callee, given)
        }
    }
}

/// The call of the function of number `k` with these arguments. It may call those before it.
#[cycle(run)]
#[inline(never)]
pub fn enter<'a, R: Rows>(
    env: &Environment<'a, '_, R>,
    k: usize,
    room: usize,
    state: &mut State<'a>,
    callee: &Callee<'a>,
    given: &[Value],
) -> Result<Option<Value>, Stop>
    ensures { Answers (call_of (seen_objects env.now.tables) (seen_callee callee.now) (calls_at env.now.tables R.row_call env.now.callees.all.items k) given.now (seen_state state.old)) result state.new }
{
    let room = within(room)?;
    let tables = env.tables.copy(env.alloc)?;
    let blocks = state.memory.blocks.len();
    let caller = replace(&mut state.objects, tables);
    let v = body(env, k, room, state, callee, given)?;
    state.objects = caller;
    state.memory.blocks.end_from(blocks);
    Ok(v)
}

/// What a function does with these arguments where the tables alone are in scope.
#[cycle(run)]
#[inline(never)]
fn body<'a, R: Rows>(
    env: &Environment<'a, '_, R>,
    n: usize,
    room: usize,
    state: &mut State<'a>,
    callee: &Callee<'a>,
    given: &[Value],
) -> Result<Option<Value>, Stop>
    ensures { Answers (body_of (seen_callee callee.now) (calls_at env.now.tables R.row_call env.now.callees.all.items n) given.now (seen_state state.old)) result state.new }
{
    let function = callee.function;
    state.begin_parameters(
        env.alloc,
        function.params.as_slice(),
        callee.taken.params.as_slice(),
        given,
    )?;
    let flow = sequence(
        env,
        n,
        room,
        state,
        function.body.as_slice(),
        callee.taken.body.as_slice(),
    )?;
    state.given(function.result, flow)
}

/// What a statement does. The first of `taken` is the statement's.
#[cycle(run)]
#[inline(never)]
fn act<'a, R: Rows>(
    env: &Environment<'a, '_, R>,
    n: usize,
    room: usize,
    state: &mut State<'a>,
    s: &'a Stmt,
    taken: &[Taken],
) -> Result<Flow, Stop>
    ensures { Shows seen_flow (act (view_stmt s.now) (seen_all taken.now) (calls_at env.now.tables R.row_call env.now.callees.all.items n) (seen_state state.old)) result state.new }
{
    let room = within(room)?;
    match s {
        Stmt::Declare(all) => {
            declare(env, n, room, state, all.as_slice(), flags_of(taken))?;
            Ok(Flow::Next)
        }
        Stmt::Run(e) => {
            let _ = expression(env, n, room, state, e)?;
            Ok(Flow::Next)
        }
        Stmt::Block(all) => {
            let objects = state.objects.len();
            let blocks = state.memory.blocks.len();
            let flow = sequence(env, n, room, state, all.as_slice(), parts_of(taken))?;
            state.leave(objects, blocks);
            Ok(flow)
        }
        Stmt::If(c, s, other) => {
            let parts = parts_of(taken);
            if holds(env, n, room, state, c)? {
                in_scope(env, n, room, state, s, parts)
            } else {
                optional_body(env, n, room, state, other, rest_of(parts))
            }
        }
        Stmt::While(c, s) => while_loop(env, n, room, state, c, s, taken),
        Stmt::DoWhile(s, c) => do_loop(env, n, room, state, s, c, taken),
        Stmt::For(start, c, next, s) => {
            let parts = parts_of(taken);
            let objects = state.objects.len();
            let blocks = state.memory.blocks.len();
            let _ = optional_act(env, n, room, state, start, parts)?;
            let flow = turns_with(env, n, room, state, c, next, s, after_start(start, parts))?;
            state.leave(objects, blocks);
            Ok(flow)
        }
        Stmt::Break(_) => Ok(Flow::Broke),
        Stmt::Continue(_) => Ok(Flow::Continued),
        Stmt::Return(_, None) => Ok(Flow::Returned(None)),
        Stmt::Return(_, Some(e)) => {
            let v = value(env, n, room, state, e)?;
            Ok(Flow::Returned(Some(v)))
        }
        Stmt::Empty => Ok(Flow::Next),
    }
}

/// What a statement does that may be left out.
#[cycle(run)]
#[inline(never)]
fn optional_act<'a, R: Rows>(
    env: &Environment<'a, '_, R>,
    n: usize,
    room: usize,
    state: &mut State<'a>,
    s: &'a Option<Box<Stmt>>,
    taken: &[Taken],
) -> Result<Flow, Stop>
    ensures { Shows seen_flow (optional_act (view_optional s.now) (seen_all taken.now) (calls_at env.now.tables R.row_call env.now.callees.all.items n) (seen_state state.old)) result state.new }
{
    match s {
        None => Ok(Flow::Next),
        Some(s) => act(env, n, room, state, s, taken),
    }
}

/// What a body does: a statement in a scope of its own. The first of `taken` is the statement's.
#[cycle(run)]
#[inline(never)]
fn in_scope<'a, R: Rows>(
    env: &Environment<'a, '_, R>,
    n: usize,
    room: usize,
    state: &mut State<'a>,
    s: &'a Stmt,
    taken: &[Taken],
) -> Result<Flow, Stop>
    ensures { Shows seen_flow (scoped (act (view_stmt s.now) (seen_all taken.now) (calls_at env.now.tables R.row_call env.now.callees.all.items n)) (seen_state state.old)) result state.new }
{
    let objects = state.objects.len();
    let blocks = state.memory.blocks.len();
    let flow = act(env, n, room, state, s, taken)?;
    state.leave(objects, blocks);
    Ok(flow)
}

/// What the body of an `else` does, which may be left out.
#[cycle(run)]
#[inline(never)]
fn optional_body<'a, R: Rows>(
    env: &Environment<'a, '_, R>,
    n: usize,
    room: usize,
    state: &mut State<'a>,
    s: &'a Option<Box<Stmt>>,
    taken: &[Taken],
) -> Result<Flow, Stop>
    ensures { Shows seen_flow (optional_body (view_optional s.now) (seen_all taken.now) (calls_at env.now.tables R.row_call env.now.callees.all.items n) (seen_state state.old)) result state.new }
{
    match s {
        None => Ok(Flow::Next),
        Some(s) => in_scope(env, n, room, state, s, taken),
    }
}

/// What statements in a row do.
#[cycle(run)]
#[inline(never)]
fn sequence<'a, R: Rows>(
    env: &Environment<'a, '_, R>,
    n: usize,
    room: usize,
    state: &mut State<'a>,
    all: &'a [Stmt],
    taken: &[Taken],
) -> Result<Flow, Stop>
    ensures { Shows seen_flow (sequence (view_stmts all.now) (seen_all taken.now) (calls_at env.now.tables R.row_call env.now.callees.all.items n) (seen_state state.old)) result state.new }
{
    let mut left = taken;
    for s in all {
        match act(env, n, room, state, s, left)? {
            Flow::Next => {}
            other => return Ok(other),
        }
        left = rest_of(left);
    }
    Ok(Flow::Next)
}

/// Objects come into scope and get their first values, in turn.
#[cycle(run)]
#[inline(never)]
fn declare<'a, R: Rows>(
    env: &Environment<'a, '_, R>,
    n: usize,
    room: usize,
    state: &mut State<'a>,
    all: &'a [Declared],
    flags: &[bool],
) -> Result<(), Stop>
    ensures { Answers (declare (map view_declared all.now) flags.now (calls_at env.now.tables R.row_call env.now.callees.all.items n) (seen_state state.old)) result state.new }
{
    let mut left = flags;
    for d in all {
        state.begin_object(env.alloc, d, is_block(d.ty, first_flag(left)))?;
        initialise(env, n, room, state, d)?;
        left = other_flags(left);
    }
    Ok(())
}

/// An object gets its first value, where one is written.
#[cycle(run)]
#[inline(never)]
fn initialise<'a, R: Rows>(
    env: &Environment<'a, '_, R>,
    n: usize,
    room: usize,
    state: &mut State<'a>,
    d: &'a Declared,
) -> Result<(), Stop>
    ensures { Answers (initialised (view_declared d.now) (view_declared d.now).init (view_declared d.now).list (calls_at env.now.tables R.row_call env.now.callees.all.items n) (seen_state state.old)) result state.new }
{
    match &d.init {
        None => state.first_list(env.alloc, d),
        Some(e) => {
            let v = value(env, n, room, state, e)?;
            let binding = state.object_of(d.name.bytes())?;
            state.first_value(env.alloc, binding, v)
        }
    }
}

/// A `while` loop. The first of `taken` is its own.
#[cycle(run)]
#[inline(never)]
fn while_loop<'a, R: Rows>(
    env: &Environment<'a, '_, R>,
    n: usize,
    room: usize,
    state: &mut State<'a>,
    c: &'a Expr,
    s: &'a Stmt,
    taken: &[Taken],
) -> Result<Flow, Stop>
    ensures { let calls = calls_at env.now.tables R.row_call env.now.callees.all.items n in
        Shows seen_flow (loops state.old.left (condition (expression (view c.now) calls)) (scoped (act (view_stmt s.now) (parts_of (seen_all taken.now)) calls)) (seen_state state.old)) result state.new }
{
    turns(env, n, room, state, c, s, parts_of(taken))
}

/// A `do` loop. The first of `taken` is its own.
#[cycle(run)]
#[inline(never)]
fn do_loop<'a, R: Rows>(
    env: &Environment<'a, '_, R>,
    n: usize,
    room: usize,
    state: &mut State<'a>,
    s: &'a Stmt,
    c: &'a Expr,
    taken: &[Taken],
) -> Result<Flow, Stop>
    ensures { let calls = calls_at env.now.tables R.row_call env.now.callees.all.items n in
        Shows seen_flow (loops_after state.old.left (condition (expression (view c.now) calls)) (scoped (act (view_stmt s.now) (parts_of (seen_all taken.now)) calls)) (seen_state state.old)) result state.new }
{
    turns_after(env, n, room, state, s, c, parts_of(taken))
}

/// The turns of a loop that tests before its body.
#[cycle(run)]
#[inline(never)]
fn turns<'a, R: Rows>(
    env: &Environment<'a, '_, R>,
    n: usize,
    room: usize,
    state: &mut State<'a>,
    c: &'a Expr,
    s: &'a Stmt,
    taken: &[Taken],
) -> Result<Flow, Stop>
    ensures { let calls = calls_at env.now.tables R.row_call env.now.callees.all.items n in
        Shows seen_flow (loops state.old.left (condition (expression (view c.now) calls)) (scoped (act (view_stmt s.now) (seen_all taken.now) calls)) (seen_state state.old)) result state.new }
{
    let mut most = state.left;
    loop {
        let v = holds(env, n, room, state, c)?;
        if !v {
            return Ok(Flow::Next);
        }
        if most == 0 {
            return Err(Stop::Turns);
        }
        most -= 1;
        state.spend()?;
        match in_scope(env, n, room, state, s, taken)? {
            Flow::Next | Flow::Continued => {}
            Flow::Broke => return Ok(Flow::Next),
            Flow::Returned(v) => return Ok(Flow::Returned(v)),
        }
    }
}

/// The turns of a loop that tests after its body.
#[cycle(run)]
#[inline(never)]
fn turns_after<'a, R: Rows>(
    env: &Environment<'a, '_, R>,
    n: usize,
    room: usize,
    state: &mut State<'a>,
    s: &'a Stmt,
    c: &'a Expr,
    taken: &[Taken],
) -> Result<Flow, Stop>
    ensures { let calls = calls_at env.now.tables R.row_call env.now.callees.all.items n in
        Shows seen_flow (loops_after state.old.left (condition (expression (view c.now) calls)) (scoped (act (view_stmt s.now) (seen_all taken.now) calls)) (seen_state state.old)) result state.new }
{
    let mut most = state.left;
    loop {
        if most == 0 {
            return Err(Stop::Turns);
        }
        most -= 1;
        state.spend()?;
        match in_scope(env, n, room, state, s, taken)? {
            Flow::Next | Flow::Continued => {}
            Flow::Broke => return Ok(Flow::Next),
            Flow::Returned(v) => return Ok(Flow::Returned(v)),
        }
        let v = holds(env, n, room, state, c)?;
        if !v {
            return Ok(Flow::Next);
        }
    }
}

/// The turns of a loop with a step, whose condition and step may be left out.
#[cycle(run)]
#[inline(never)]
fn turns_with<'a, R: Rows>(
    env: &Environment<'a, '_, R>,
    n: usize,
    room: usize,
    state: &mut State<'a>,
    c: &'a Option<Expr>,
    next: &'a Option<Expr>,
    s: &'a Stmt,
    taken: &[Taken],
) -> Result<Flow, Stop>
    ensures { let calls = calls_at env.now.tables R.row_call env.now.callees.all.items n in
        Shows seen_flow (loops state.old.left (optional_condition (option_map view c.now) calls) (with_step (scoped (act (view_stmt s.now) (seen_all taken.now) calls)) (optional_value (option_map view next.now) calls)) (seen_state state.old)) result state.new }
{
    let mut most = state.left;
    loop {
        let v = optional_holds(env, n, room, state, c)?;
        if !v {
            return Ok(Flow::Next);
        }
        if most == 0 {
            return Err(Stop::Turns);
        }
        most -= 1;
        state.spend()?;
        match in_scope(env, n, room, state, s, taken)? {
            Flow::Next | Flow::Continued => {}
            Flow::Broke => return Ok(Flow::Next),
            Flow::Returned(v) => return Ok(Flow::Returned(v)),
        }
        let _ = optional_step(env, n, room, state, next)?;
    }
}

/// Whether a condition holds that may be left out. Then it does.
#[cycle(run)]
#[inline(never)]
fn optional_holds<'a, R: Rows>(
    env: &Environment<'a, '_, R>,
    n: usize,
    room: usize,
    state: &mut State<'a>,
    c: &'a Option<Expr>,
) -> Result<bool, Stop>
    ensures { Answers (optional_condition (option_map view c.now) (calls_at env.now.tables R.row_call env.now.callees.all.items n) (seen_state state.old)) result state.new }
{
    match c {
        None => Ok(true),
        Some(e) => holds(env, n, room, state, e),
    }
}

/// A loop's step, which may be left out.
#[cycle(run)]
#[inline(never)]
fn optional_step<'a, R: Rows>(
    env: &Environment<'a, '_, R>,
    n: usize,
    room: usize,
    state: &mut State<'a>,
    next: &'a Option<Expr>,
) -> Result<Option<Value>, Stop>
    ensures { Answers (optional_value (option_map view next.now) (calls_at env.now.tables R.row_call env.now.callees.all.items n) (seen_state state.old)) result state.new }
{
    match next {
        None => Ok(None),
        Some(e) => expression(env, n, room, state, e),
    }
}

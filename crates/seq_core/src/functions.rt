//! The function that is written for a sequence.

ghost use Rattle.std.specs.Prelude.{◌≡◌, ◌++◌, [], ◌∷◌, None, IfOk, OnOk, map, option_map, length, decimal};
ghost use Rattle.c_tree.specs.Tree.{Declare};
ghost use Rattle.c_tree.specs.View.{view as view_tree, view_declared, view_stmt, view_function};
ghost use Rattle.seq_core.specs.View.{view, view_seq};
ghost use Rattle.seq_core.specs.Actions.{is_void};
ghost use Rattle.seq_core.specs.Formed.{WellFormed};
ghost use Rattle.seq_core.specs.Written.{pen, written};
ghost use Rattle.seq_core.specs.Functions.{variable, params_from, named, object_of, step_over, statement_over, returned, result_type, start, function_of};
ghost use Rattle.seq_core.specs.Listed.{next_statement, names_after, statements_after};
ghost use Rattle.seq_core.specs.Claims.{DoesTheSame};

use crate::rows;
use crate::terms::{Seq, Term};
use crate::writing::node;
use c_text::{Place, Text};
use c_tree::{CType, Declared, Expr, ExprKind, Function, Stmt};
use itoa::Buffer;
use std::alloc::{AllocError, Global};

/// A letter and a number in decimal.
fn numbered(alloc: Global, letter: u8, k: usize) -> Result<Text, AllocError>
    ensures { IfOk result (λ t. t ≡ letter ∷ decimal k) }
{
    let mut bytes = Vec::new(alloc);
    bytes.push(letter)?;
    let mut digits = Buffer::new();
    bytes.extend_from_slice(digits.format(k).as_bytes())?;
    Text::new(alloc, &bytes)
}

/// The name as an expression.
fn named(alloc: Global, place: Place, name: &Text, ty: CType) -> Result<Expr, AllocError>
    ensures { IfOk result (λ e. view_tree e ≡ named place (variable name.now ty)) }
{
    let name = name.copy(alloc)?;
    node(alloc, place, ty, ExprKind::Name(name))
}

/// A declared object.
fn object(place: Place, name: Text, ty: CType, init: Option<Expr>) -> Declared
    ensures { view_declared result ≡ object_of place (variable name ty) (option_map view_tree init) }
{
    Declared {
        place,
        name,
        ty,
        length: None,
        constant: false,
        align: None,
        align_first: false,
        init,
        list: None,
    }
}

/// The parameters as expressions.
fn param_names(alloc: Global, place: Place, params: &[CType]) -> Result<Vec<Expr>, AllocError>
    ensures { IfOk result (λ all. map view_tree all.items ≡ map (named place) (params_from 0 params.now)) }
{
    let mut out = Vec::new(alloc);
    for (k, ty) in params.iter().enumerate() {
        let name = numbered(alloc, b'a', k)?;
        out.push(named(alloc, place, &name, *ty)?)?;
    }
    Ok(out)
}

/// The parameters as objects.
fn param_objects(alloc: Global, place: Place, params: &[CType]) -> Result<Vec<Declared>, AllocError>
    ensures { IfOk result (λ all. map view_declared all.items ≡ map (λ v. object_of place v None) (params_from 0 params.now)) }
{
    let mut out = Vec::new(alloc);
    for (k, ty) in params.iter().enumerate() {
        let name = numbered(alloc, b'a', k)?;
        out.push(object(place, name, *ty, None))?;
    }
    Ok(out)
}

/// The declaration of one object.
fn declaration(alloc: Global, d: Declared) -> Result<Stmt, AllocError>
    ensures { IfOk result (λ s. view_stmt s ≡ Declare (view_declared d ∷ [])) }
{
    let mut all = Vec::new(alloc);
    all.push(d)?;
    Ok(Stmt::Declare(all))
}

/// What is written for a step whose expression is this: a statement alone where it has no value, and else a declaration.
fn step_statement(
    alloc: Global,
    place: Place,
    name: &Text,
    t: &Term,
    e: Expr,
) -> Result<Stmt, AllocError>
    ensures { IfOk result (λ s. view_stmt s ≡ statement_over place name.now (is_void (view t.now)) (view_tree e)) }
{
    if rows::is_void(t) {
        Ok(Stmt::Run(e))
    } else {
        let ty = e.ty;
        let name = name.copy(alloc)?;
        declaration(alloc, object(place, name, ty, Some(e)))
    }
}

/// Writes the next step: adds its statement, and the name that stands for its value.
fn push_step(
    alloc: Global,
    place: Place,
    params: &[Expr],
    names: &mut Vec<Expr>,
    out: &mut Vec<Stmt>,
    t: &Term,
) -> Result<(), AllocError>
    ensures names { OnOk result (map view_tree names.new.items ≡ map view_tree names.old.items ++ step_over place (map view_tree params.now) (map view_tree names.old.items) (view t.now) ∷ []) }
    ensures statement { OnOk result (map view_stmt out.new.items ≡ map view_stmt out.old.items ++ next_statement place (map view_tree params.now) (map view_tree names.old.items) (view t.now) ∷ []) }
{
    let e = t.written(alloc, place, params, names)?;
    let name = numbered(alloc, b's', names.len())?;
    let value = named(alloc, place, &name, e.ty)?;
    let statement = step_statement(alloc, place, &name, t, e)?;
    names.push(value)?;
    out.push(statement)?;
    Ok(())
}

/// Writes the steps in order, and gives the names that stand for their values.
fn push_steps(
    alloc: Global,
    place: Place,
    params: &[Expr],
    all: &[Term],
    out: &mut Vec<Stmt>,
) -> Result<Vec<Expr>, AllocError>
    ensures names { IfOk result (λ names. map view_tree names.items ≡ names_after place (map view_tree params.now) [] (map view all.now)) }
    ensures statements { OnOk result (map view_stmt out.new.items ≡ map view_stmt out.old.items ++ statements_after place (map view_tree params.now) [] (map view all.now)) }
{
    let mut names = Vec::new(alloc);
    for t in all {
        push_step(alloc, place, params, &mut names, out, t)?;
    }
    Ok(names)
}

/// Writes the end of the function, and gives the type of its value.
fn push_return(
    alloc: Global,
    place: Place,
    params: &[Expr],
    steps: &[Expr],
    t: &Option<Term>,
    out: &mut Vec<Stmt>,
) -> Result<CType, AllocError>
    ensures ty { IfOk result (λ ty. ty ≡ result_type (pen place (map view_tree params.now) (map view_tree steps.now)) (option_map view t.now)) }
    ensures statements { OnOk result (map view_stmt out.new.items ≡ map view_stmt out.old.items ++ returned (pen place (map view_tree params.now) (map view_tree steps.now)) (option_map view t.now)) }
{
    match t {
        None => Ok(CType::Void),
        Some(t) => {
            let e = t.written(alloc, place, params, steps)?;
            let ty = e.ty;
            out.push(Stmt::Return(place, Some(e)))?;
            Ok(ty)
        }
    }
}

/// The C function of that name that does what the sequence does: a call of it gives the sequence's value and leaves its bytes, and
/// touches nothing else. Its parameters are `a0`, `a1` and so on, its steps `s0`, `s1` and so on. Where the sequence has no value it is
/// `void`. All nodes have their types; the place of all is 1:1. The only error is want of memory.
pub fn function(alloc: Global, seq: &Seq, name: &[u8]) -> Result<Function, AllocError>
    requires formed { WellFormed (view_seq seq.now) }
    ensures tree { IfOk result (λ f. view_function f ≡ function_of start name.now (view_seq seq.now)) }
    ensures meaning { IfOk result (λ f. DoesTheSame (view_seq seq.now) (view_function f)) }
{
    let place = Place { line: 1, col: 1 };
    let params = param_objects(alloc, place, &seq.params)?;
    let names = param_names(alloc, place, &seq.params)?;
    let mut body = Vec::new(alloc);
    let steps = push_steps(alloc, place, &names, &seq.steps, &mut body)?;
    let result = push_return(alloc, place, &names, &steps, &seq.result, &mut body)?;
    let name = Text::new(alloc, name)?;
    Ok(Function {
        place,
        name,
        result,
        params,
        is_static: true,
        is_inline: true,
        body,
    })
}

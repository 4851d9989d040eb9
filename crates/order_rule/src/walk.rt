//! The full expressions of a function, in the order of the text.

ghost use Rattle.std.specs.Prelude.{◌≡◌, OnOk, IfOk, List, map, option_map, None, Some};
ghost use Rattle.c_text.specs.Answers.{IfRefused};
ghost use Rattle.c_tree.specs.View.{view, view_declared, view_stmt, view_stmts, view_optional, view_function};
ghost use Rattle.order_rule.specs.Callees.{callees_of};
ghost use Rattle.address_taken.specs.Taken.{seen_all};
ghost use Rattle.order_rule.specs.Memory.{env_of, with_object, opened};
ghost use Rattle.order_rule.specs.Full.{Full, full, full_maybe, flags, inner, behind, behind_optional, first_flag, other_flags, with_objects, full_objects, beyond, beyond_optional, beyond_all, full_statement, full_optional, full_statements, full_expressions, effects_of, refusal, order_of, some_times, nothing, noted, noted_all, found};

use crate::callees::{Callees, Effects};
use crate::findings::Findings;
use crate::memory::Memory;
use crate::parts::broken;
use crate::reading::reads;
use crate::times::Times;
use crate::writing::writers;
use address_taken::{Taken, taken_and_outside};
use c_text::Fail;
use c_tree::{Declared, Expr, Function, Stmt, fault};
use std::alloc::{AllocError, Global};

/// What is known of the objects that the first of the statements declares.
fn flags(parts: &[Taken]) -> &[bool]
    ensures { result.now ≡ flags (seen_all parts.now) }
{
    match parts.first() {
        Some(Taken::Objects(all)) => all.as_slice(),
        Some(Taken::Nothing) | Some(Taken::Parts(_)) | None => &[],
    }
}

/// What is known of the parts of the first of the statements.
fn inner(parts: &[Taken]) -> &[Taken]
    ensures { seen_all result.now ≡ inner (seen_all parts.now) }
{
    match parts.first() {
        Some(Taken::Parts(all)) => all.as_slice(),
        Some(Taken::Nothing) | Some(Taken::Objects(_)) | None => &[],
    }
}

/// What is known of the statements behind the first.
fn behind(parts: &[Taken]) -> &[Taken]
    ensures { seen_all result.now ≡ behind (seen_all parts.now) }
{
    match parts.split_first() {
        Some((_, rest)) => rest,
        None => &[],
    }
}

/// What is known of the statements behind that one, where it stands.
fn behind_optional<'p>(s: &Option<Box<Stmt>>, parts: &'p [Taken]) -> &'p [Taken]
    ensures { seen_all result.now ≡ behind_optional (view_optional s.now) (seen_all parts.now) }
{
    match s {
        None => parts,
        Some(_) => behind(parts),
    }
}

fn some_times(times: Times) -> bool
    ensures { result ≡ some_times times }
{
    match times {
        Times::Never => false,
        Times::Once | Times::Often => true,
    }
}

/// Notes what is found of a full expression.
fn note<'e>(
    alloc: Global,
    memory: &Memory,
    callees: &Callees,
    e: &'e Expr,
    before: Findings<'e>,
) -> Result<Findings<'e>, AllocError>
    ensures { IfOk result (λ f. found f ≡ noted (callees_of callees.now) (full (view e.now) (env_of memory.now)) (found before.entry)) }
{
    let effects = Effects {
        stores: before.effects.stores || some_times(writers(memory, callees, e)),
        reads: before.effects.reads || reads(false, memory, callees, e),
    };
    let broken = match before.broken {
        Some(part) => Some(part),
        None => broken(alloc, memory, callees, e)?,
    };
    Ok(Findings { effects, broken })
}

/// The same of an expression that may be left out.
fn note_maybe<'e>(
    alloc: Global,
    memory: &Memory,
    callees: &Callees,
    e: &'e Option<Expr>,
    before: Findings<'e>,
) -> Result<Findings<'e>, AllocError>
    ensures { (more : List Full) → IfOk result (λ f. noted_all (callees_of callees.now) (full_maybe (option_map view e.now) (env_of memory.now) more) (found before.entry) ≡ noted_all (callees_of callees.now) more (found f)) }
{
    match e {
        None => Ok(before),
        Some(e) => Ok(note(alloc, memory, callees, e, before)?),
    }
}

/// The first truth value, and the others.
fn first_flag(taken: &[bool]) -> (bool, &[bool])
    ensures first { result.0 ≡ first_flag taken.now }
    ensures others { result.1.now ≡ other_flags taken.now }
{
    match taken.split_first() {
        Some((first, others)) => (*first, others),
        None => (false, &[]),
    }
}

/// Declared objects, with what they begin with.
fn objects<'e>(
    alloc: Global,
    callees: &Callees,
    all: &'e [Declared],
    taken: &[bool],
    memory: &mut Memory,
    before: Findings<'e>,
) -> Result<Findings<'e>, AllocError>
    ensures found { (more : List Full) → IfOk result (λ f. noted_all (callees_of callees.now) (full_objects (map view_declared all.now) taken.now (env_of memory.old) more) (found before.entry) ≡ noted_all (callees_of callees.now) more (found f)) }
    ensures names { OnOk result (env_of memory.new ≡ with_objects (map view_declared all.now) taken.now (env_of memory.old)) }
{
    let mut now = before;
    let mut left = taken;
    for d in all {
        let (first, others) = first_flag(left);
        memory.declare(alloc, d.name.bytes(), first)?;
        now = note_maybe(alloc, &*memory, callees, &d.init, now)?;
        left = others;
    }
    Ok(now)
}

/// A statement. What it declares stands in the innermost scope then.
#[cycle(walk)]
fn statement<'e>(
    alloc: Global,
    callees: &Callees,
    s: &'e Stmt,
    parts: &[Taken],
    memory: &mut Memory,
    before: Findings<'e>,
) -> Result<Findings<'e>, AllocError>
    ensures found { (more : List Full) → IfOk result (λ f. noted_all (callees_of callees.now) (full_statement (view_stmt s.now) (seen_all parts.now) (env_of memory.old) more) (found before.entry) ≡ noted_all (callees_of callees.now) more (found f)) }
    ensures names { OnOk result (env_of memory.new ≡ beyond (view_stmt s.now) (seen_all parts.now) (env_of memory.old)) }
{
    match s {
        Stmt::Declare(all) => objects(alloc, callees, all.as_slice(), flags(parts), memory, before),
        Stmt::Run(e) => Ok(note(alloc, &*memory, callees, e, before)?),
        Stmt::Block(all) => block(alloc, callees, all.as_slice(), inner(parts), memory, before),
        Stmt::If(c, s, other) => {
            let now = note(alloc, &*memory, callees, c, before)?;
            let now = in_scope(alloc, callees, s, inner(parts), memory, now)?;
            optional_in_scope(alloc, callees, other, behind(inner(parts)), memory, now)
        }
        Stmt::While(c, s) => {
            let now = note(alloc, &*memory, callees, c, before)?;
            in_scope(alloc, callees, s, inner(parts), memory, now)
        }
        Stmt::DoWhile(s, c) => {
            let now = in_scope(alloc, callees, s, inner(parts), memory, before)?;
            Ok(note(alloc, &*memory, callees, c, now)?)
        }
        Stmt::For(i, c, n, s) => {
            memory.open(alloc)?;
            let now = optional(alloc, callees, i, inner(parts), memory, before)?;
            let now = note_maybe(alloc, &*memory, callees, c, now)?;
            let now = note_maybe(alloc, &*memory, callees, n, now)?;
            let now = in_scope(
                alloc,
                callees,
                s,
                behind_optional(i, inner(parts)),
                memory,
                now,
            )?;
            memory.close(alloc);
            Ok(now)
        }
        Stmt::Return(_, e) => Ok(note_maybe(alloc, &*memory, callees, e, before)?),
        Stmt::Break(_) | Stmt::Continue(_) | Stmt::Empty => Ok(before),
    }
}

// A statement in a scope of its own.
#[cycle(walk)]
fn in_scope<'e>(
    alloc: Global,
    callees: &Callees,
    s: &'e Stmt,
    parts: &[Taken],
    memory: &mut Memory,
    before: Findings<'e>,
) -> Result<Findings<'e>, AllocError>
    ensures found { (more : List Full) → IfOk result (λ f. noted_all (callees_of callees.now) (full_statement (view_stmt s.now) (seen_all parts.now) (opened (env_of memory.old)) more) (found before.entry) ≡ noted_all (callees_of callees.now) more (found f)) }
    ensures names { OnOk result (env_of memory.new ≡ env_of memory.old) }
{
    memory.open(alloc)?;
    let now = statement(alloc, callees, s, parts, memory, before)?;
    memory.close(alloc);
    Ok(now)
}

// The same of a statement that may be left out.
#[cycle(walk)]
fn optional_in_scope<'e>(
    alloc: Global,
    callees: &Callees,
    s: &'e Option<Box<Stmt>>,
    parts: &[Taken],
    memory: &mut Memory,
    before: Findings<'e>,
) -> Result<Findings<'e>, AllocError>
    ensures found { (more : List Full) → IfOk result (λ f. noted_all (callees_of callees.now) (full_optional (view_optional s.now) (seen_all parts.now) (opened (env_of memory.old)) more) (found before.entry) ≡ noted_all (callees_of callees.now) more (found f)) }
    ensures names { OnOk result (env_of memory.new ≡ env_of memory.old) }
{
    match s {
        None => Ok(before),
        Some(s) => in_scope(alloc, callees, s, parts, memory, before),
    }
}

// A statement that may be left out. What it declares stands in the innermost scope then.
#[cycle(walk)]
fn optional<'e>(
    alloc: Global,
    callees: &Callees,
    s: &'e Option<Box<Stmt>>,
    parts: &[Taken],
    memory: &mut Memory,
    before: Findings<'e>,
) -> Result<Findings<'e>, AllocError>
    ensures found { (more : List Full) → IfOk result (λ f. noted_all (callees_of callees.now) (full_optional (view_optional s.now) (seen_all parts.now) (env_of memory.old) more) (found before.entry) ≡ noted_all (callees_of callees.now) more (found f)) }
    ensures names { OnOk result (env_of memory.new ≡ beyond_optional (view_optional s.now) (seen_all parts.now) (env_of memory.old)) }
{
    match s {
        None => Ok(before),
        Some(s) => statement(alloc, callees, s, parts, memory, before),
    }
}

// The statements of a block, in a scope of its own.
#[cycle(walk)]
fn block<'e>(
    alloc: Global,
    callees: &Callees,
    all: &'e [Stmt],
    parts: &[Taken],
    memory: &mut Memory,
    before: Findings<'e>,
) -> Result<Findings<'e>, AllocError>
    ensures found { (more : List Full) → IfOk result (λ f. noted_all (callees_of callees.now) (full_statements (view_stmts all.now) (seen_all parts.now) (opened (env_of memory.old)) more) (found before.entry) ≡ noted_all (callees_of callees.now) more (found f)) }
    ensures names { OnOk result (env_of memory.new ≡ env_of memory.old) }
{
    memory.open(alloc)?;
    let now = statements(alloc, callees, all, parts, memory, before)?;
    memory.close(alloc);
    Ok(now)
}

// Statements in a row. What they declare stands in the innermost scope then.
#[cycle(walk)]
fn statements<'e>(
    alloc: Global,
    callees: &Callees,
    all: &'e [Stmt],
    parts: &[Taken],
    memory: &mut Memory,
    before: Findings<'e>,
) -> Result<Findings<'e>, AllocError>
    ensures found { (more : List Full) → IfOk result (λ f. noted_all (callees_of callees.now) (full_statements (view_stmts all.now) (seen_all parts.now) (env_of memory.old) more) (found before.entry) ≡ noted_all (callees_of callees.now) more (found f)) }
    ensures names { OnOk result (env_of memory.new ≡ beyond_all (view_stmts all.now) (seen_all parts.now) (env_of memory.old)) }
{
    let mut now = before;
    let mut left = parts;
    for s in all {
        now = statement(alloc, callees, s, left, memory, now)?;
        left = behind(left);
    }
    Ok(now)
}

/// Declares the parameters.
fn parameters(
    alloc: Global,
    all: &[Declared],
    taken: &[bool],
    memory: &mut Memory,
) -> Result<(), AllocError>
    ensures { OnOk result (env_of memory.new ≡ with_objects (map view_declared all.now) taken.now (env_of memory.old)) }
{
    let mut left = taken;
    for d in all {
        let (first, others) = first_flag(left);
        memory.declare(alloc, d.name.bytes(), first)?;
        left = others;
    }
    Ok(())
}

/// What is found of the full expressions of a function.
fn findings<'e>(
    alloc: Global,
    function: &'e Function,
    callees: &Callees,
) -> Result<Findings<'e>, AllocError>
    ensures { IfOk result (λ f. found f ≡ noted_all (callees_of callees.now) (full_expressions (view_function function.now)) nothing) }
{
    let body = function.body.as_slice();
    let taken = taken_and_outside(alloc, function)?;
    let mut memory = Memory::new(alloc, &taken.1);
    parameters(
        alloc,
        function.params.as_slice(),
        taken.0.params.as_slice(),
        &mut memory,
    )?;
    let nothing = Findings {
        effects: Effects {
            stores: false,
            reads: false,
        },
        broken: None,
    };
    statements(
        alloc,
        callees,
        body,
        taken.0.body.as_slice(),
        &mut memory,
        nothing,
    )
}

/// What the function may do, given what it may call; `callees` has the functions before it, and of these the refused ones needn't be there. The only error is want of memory.
pub fn effects(alloc: Global, function: &Function, callees: &Callees) -> Result<Effects, AllocError>
    ensures { IfOk result (λ e. e ≡ effects_of (view_function function.now) (callees_of callees.now)) }
{
    let found = findings(alloc, function, callees)?;
    Ok(found.effects)
}

/// Whether each full expression of the function keeps to the order rule. The first part that breaks it is refused, at its root.
pub fn check_order(alloc: Global, function: &Function, callees: &Callees) -> Result<(), Fail>
    ensures ok { OnOk result (order_of (view_function function.now) (callees_of callees.now) ≡ None) }
    ensures refused { IfRefused result (λ r. order_of (view_function function.now) (callees_of callees.now) ≡ Some r) }
{
    let found = findings(alloc, function, callees)?;
    match found.broken {
        None => Ok(()),
        Some(part) => Err(fault(alloc, 16, part.place, &part.kind)?),
    }
}

//! The order rule, which the x86 dialect has.

ghost use Rattle.std.specs.Prelude.{◌≡◌, IfOk, OnOk};
ghost use Rattle.c_text.specs.declared.tokens.Dialect.TheVariants.{X86};
ghost use Rattle.c_tree.specs.Tree.{Definition};
ghost use Rattle.c_tree.specs.View.{view_function};
ghost use Rattle.scopes.specs.Scopes.{entries_of, env_of};
ghost use Rattle.expression_types.specs.Check.{Checked, Gives};
ghost use Rattle.order_rule.specs.Callees.{callees_of};
ghost use Rattle.vector_types.specs.Order.{calls, in_order, effects_given, with_callee};

use c_text::Dialect;
use c_tree::Function;
use expression_types::{Environment, Fail};
use order_rule::{Callees, Effects, Names, check_order, effects};
use std::alloc::{AllocError, Global};

// What a function may call: those before it, and the rows.
fn calls<'c>(env: &'c Environment, callees: &'c Names<Effects>) -> Callees<'c>
    ensures { callees_of result ≡ calls (entries_of callees.now) (env_of env.now) }
{
    Callees {
        before: callees,
        rows: &env.rows,
    }
}

/// A function that has its types, if it keeps the order rule.
pub fn in_order(
    alloc: Global,
    env: &Environment,
    callees: &Names<Effects>,
    f: Function,
) -> Result<Function, Fail>
    ensures { Gives view_function result (in_order (env_of env.now).dialect (calls (entries_of callees.now) (env_of env.now)) (view_function f)) }
{
    match env.dialect {
        Dialect::X86 => {
            check_order(alloc, &f, &calls(env, callees))?;
            Ok(f)
        }
        Dialect::Neon => Ok(f),
    }
}

// What a function may do, where it passed. One that is refused neither stores nor reads memory.
fn effects_given(
    alloc: Global,
    env: &Environment,
    callees: &Names<Effects>,
    answer: &Result<Function, Fail>,
) -> Result<Effects, AllocError>
    ensures { (x : Checked Definition) → Gives view_function answer.now x → IfOk result (λ e. e ≡ effects_given x (calls (entries_of callees.now) (env_of env.now))) }
{
    match answer {
        Ok(f) => effects(alloc, f, &calls(env, callees)),
        Err(Fail::Refused(_)) => Ok(Effects {
            stores: false,
            reads: false,
        }),
        Err(Fail::Memory) => Err(AllocError),
    }
}

// One more function; a name stands for the first that has it.
fn add_callee(
    alloc: Global,
    callees: &mut Names<Effects>,
    name: &[u8],
    effects: Effects,
) -> Result<(), AllocError>
    ensures { OnOk result (entries_of callees.new ≡ with_callee X86 name.now effects (entries_of callees.old)) }
{
    match callees.find(name) {
        Some(_) => Ok(()),
        None => callees.insert(alloc, name, effects),
    }
}

/// One more function, whose check gave that answer, for the order rule of those behind it.
pub fn add_answer(
    alloc: Global,
    env: &Environment,
    callees: &mut Names<Effects>,
    name: &[u8],
    answer: &Result<Function, Fail>,
) -> Result<(), AllocError>
    ensures { (x : Checked Definition) → Gives view_function answer.now x → OnOk result (entries_of callees.new ≡ with_callee (env_of env.now).dialect name.now (effects_given x (calls (entries_of callees.old) (env_of env.now))) (entries_of callees.old)) }
{
    match env.dialect {
        Dialect::X86 => {
            let effects = effects_given(alloc, env, &*callees, answer)?;
            add_callee(alloc, callees, name, effects)
        }
        Dialect::Neon => Ok(()),
    }
}

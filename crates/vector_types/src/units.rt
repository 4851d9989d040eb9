//! The check of a unit.

ghost use Rattle.std.specs.Prelude.{◌≡◌, ◌<◌, [], Ok, Err, OnOk, IfOk, IfErr, map, length, true};
ghost use Rattle.c_tree.specs.Tree.{External};
ghost use Rattle.c_tree.specs.View.{view_function, view_item, view_unit};
ghost use Rattle.scopes.specs.Scopes.{env_of, entries_of};
ghost use Rattle.scopes.specs.Kept.{at_file, OnAnswer};
ghost use Rattle.expression_types.specs.Check.{Checked, Gives};
ghost use Rattle.vector_types.specs.declared.units.CheckFail.TheVariants.{Memory};
ghost use Rattle.vector_types.specs.Functions.{check_function};
ghost use Rattle.vector_types.specs.Units.{function_checked, item_checked, beyond_item, callees_beyond, and_judged, check_items, unit_env, check_unit};
ghost use Rattle.vector_types.specs.Order.{calls, effects_given, with_callee};
ghost use Rattle.vector_types.specs.Answers.{judged_of, nothing_judged, behind, is_answer, IfRefused};

use crate::file_scope::end_item;
use crate::functions::check_function;
use crate::headings::functions;
use crate::order::{add_answer, in_order};
use crate::rows::{neon_names, rows_of_table};
use crate::tables::check_table;
use crate::typed_unit::TypedUnit;
use c_text::{Dialect, Refusal};
use c_tree::{Function, Item, Unit};
use expression_types::{Environment, Fail, Names};
use order_rule::Effects;
use std::alloc::{AllocError, AllocFailed, Global};

/// Why a unit isn't typed.
#[derive(Debug, Drop)]
pub enum CheckFail {
    /// One refusal for each function or table that is refused, in the order of the text.
    Refused(Vec<Refusal>),
    /// Memory ran out.
    Memory,
}

impl From<AllocError> for CheckFail {
    ghost from_gives = { λ _ e. e ≡ Memory };

    fn from(_e: AllocError) -> CheckFail {
        CheckFail::Memory
    }
}

impl<T: Drop> From<AllocFailed<T>> for CheckFail {
    ghost from_gives = { λ _ e. e ≡ Memory };

    fn from(_e: AllocFailed<T>) -> CheckFail {
        CheckFail::Memory
    }
}

/// What was judged so far.
#[derive(Drop)]
struct Judged {
    refusals: Vec<Refusal>,
    items: Vec<Item>,
}

fn function_typed(alloc: Global, env: &mut Environment, f: &Function) -> Result<Function, Fail>
    requires { env_of env.old ≡ at_file (env_of env.old) }
    ensures value { Gives view_function result (check_function (view_function f.now) (env_of env.old)) }
    ensures names { OnAnswer result (env_of env.new ≡ env_of env.old) }
{
    let answer = check_function(alloc, env, f);
    end_item(env);
    answer
}

// A function with its types, which keeps the order rule.
fn function_checked(
    alloc: Global,
    env: &mut Environment,
    callees: &Names<Effects>,
    f: &Function,
) -> Result<Function, Fail>
    requires { env_of env.old ≡ at_file (env_of env.old) }
    ensures value { Gives view_function result (function_checked (view_function f.now) (env_of env.old) (entries_of callees.now)) }
    ensures names { OnAnswer result (env_of env.new ≡ env_of env.old) }
{
    let typed = function_typed(alloc, env, f)?;
    in_order(alloc, &*env, callees, typed)
}

// The same, noted for the functions behind it.
fn function_item(
    alloc: Global,
    env: &mut Environment,
    callees: &mut Names<Effects>,
    f: &Function,
) -> Result<Function, Fail>
    requires { env_of env.old ≡ at_file (env_of env.old) }
    ensures value { Gives view_function result (function_checked (view_function f.now) (env_of env.old) (entries_of callees.old)) }
    ensures names { OnAnswer result (env_of env.new ≡ env_of env.old) }
    ensures callees { OnAnswer result (entries_of callees.new ≡ with_callee (env_of env.old).dialect f.now.name (effects_given (function_checked (view_function f.now) (env_of env.old) (entries_of callees.old)) (calls (entries_of callees.old) (env_of env.old))) (entries_of callees.old)) }
{
    let answer = function_checked(alloc, env, &*callees, f);
    add_answer(alloc, &*env, callees, f.name.bytes(), &answer)?;
    answer
}

// An item with its types. The file's scope is then what the next one sees, and `callees` are the functions before that.
fn item_checked(
    alloc: Global,
    env: &mut Environment,
    callees: &mut Names<Effects>,
    item: &Item,
) -> Result<Item, Fail>
    requires { env_of env.old ≡ at_file (env_of env.old) }
    ensures value { Gives view_item result (item_checked (view_item item.now) (env_of env.old) (entries_of callees.old)) }
    ensures names { OnAnswer result (env_of env.new ≡ beyond_item (view_item item.now) (env_of env.old)) }
    ensures callees { OnAnswer result (entries_of callees.new ≡ callees_beyond (view_item item.now) (env_of env.old) (entries_of callees.old)) }
{
    match item {
        Item::Function(f) => Ok(Item::Function(function_item(alloc, env, callees, f)?)),
        Item::Table(d, is_static) => Ok(Item::Table(check_table(alloc, env, d)?, *is_static)),
    }
}

// One more item, or its refusal.
fn judge(judged: &mut Judged, answer: Result<Item, Fail>) -> Result<(), AllocError>
    ensures judged { (x : Checked External) → Gives view_item answer x → OnOk result (judged_of judged.new ≡ behind (judged_of judged.old) (and_judged x nothing_judged)) }
    ensures answered { OnOk result (is_answer answer ≡ true) }
{
    match answer {
        Ok(item) => judged.items.push(item)?,
        Err(Fail::Refused(r)) => judged.refusals.push(r)?,
        Err(Fail::Memory) => return Err(AllocError),
    }
    Ok(())
}

fn check_items(alloc: Global, mut env: Environment, items: &[Item]) -> Result<Judged, AllocError>
    requires file { env_of env ≡ at_file (env_of env) }
    requires first { env.here ≡ 0 }
    ensures { IfOk result (λ j. judged_of j ≡ check_items (map view_item items.now) (env_of env) []) }
{
    let mut judged = Judged {
        refusals: Vec::new(alloc),
        items: Vec::new(alloc),
    };
    let mut callees = Names::new(alloc);
    let mut here = 0usize;
    for item in items {
        env.here = here;
        let answer = item_checked(alloc, &mut env, &mut callees, item);
        judge(&mut judged, answer)?;
        here += 1;
    }
    Ok(judged)
}

// What the first item of a unit sees.
fn unit_environment(
    alloc: Global,
    dialect: Dialect,
    items: &[Item],
) -> Result<Environment, AllocError>
    ensures { IfOk result (λ env. env_of env ≡ unit_env dialect (map view_item items.now)) }
{
    let rows = rows_of_table(alloc, dialect)?;
    let neon = neon_names(alloc)?;
    let functions = functions(alloc, dialect, items)?;
    Ok(Environment {
        dialect,
        rows,
        neon,
        outer: Vec::new(alloc),
        innermost: Names::new(alloc),
        functions,
        here: 0,
        calls_none: false,
    })
}

/// The unit with its types, or one refusal for each of its functions and tables that is refused: that of its first failing node. Where no node
/// of a function fails, in the x86 dialect it is that of the first part of a full expression that breaks the order rule. A cast that isn't written
/// is passed over, so a unit that was typed may be checked again.
pub fn check(alloc: Global, unit: &Unit, dialect: Dialect) -> Result<TypedUnit, CheckFail>
    ensures typed { IfOk result (λ v. check_unit dialect (view_unit unit.now) ≡ Ok (view_unit v.unit)) }
    ensures dialect { IfOk result (λ v. v.dialect ≡ dialect) }
    ensures refused { IfErr result (λ e. IfRefused e (λ list. check_unit dialect (view_unit unit.now) ≡ Err list)) }
    ensures some { IfErr result (λ e. IfRefused e (λ list. 0 < length list)) }
{
    let env = unit_environment(alloc, dialect, unit.items.as_slice())?;
    let judged = check_items(alloc, env, unit.items.as_slice())?;
    match judged.refusals.as_slice().split_first() {
        None => Ok(TypedUnit::new(
            Unit {
                items: judged.items,
            },
            dialect,
        )),
        Some(_) => Err(CheckFail::Refused(judged.refusals)),
    }
}

//! The run of a function of a unit.

ghost use Rattle.std.specs.Prelude.{◌≡◌, ◌+◌, ◌++◌, ◌∷◌, [], Option, IfOk, OnOk, length, map};
ghost use Rattle.c_tree.specs.View.{view_item, view_unit};
ghost use Rattle.c_memory.specs.Outcomes.{outcome_of};
ghost use Rattle.c_memory.specs.Meaning.{means, outcome, functions, table_blocks, table_objects};
ghost use Rattle.c_memory.specs.MeaningRows.{rows_of, call_of_row};
ghost use Rattle.c_memory.specs.MeaningState.{Out};
ghost use Rattle.c_memory.specs.declared.value.Value.{Value as SeenValue};
ghost use Rattle.c_meaning.specs.Answers.{Answers};
ghost use Rattle.c_meaning.specs.Seen.{seen_objects, seen_tables};
ghost use Rattle.c_meaning.specs.Callees.{seen_callee};
ghost use Rattle.c_meaning.specs.Indexed.{IsIndexed};
ghost use Rattle.c_meaning.specs.Marked.{marked};
ghost use Rattle.c_meaning.specs.Flagged.{outermost};
ghost use Rattle.c_meaning.specs.States.{seen_state, at_start};
ghost use Rattle.c_meaning.specs.Ended.{HaveEnded};

use crate::called::called_names;
use crate::calls::{Callee, Environment, first_called};
use crate::evaluation::enter;
use crate::found::TableRows;
use crate::functions::{Callees, push};
use crate::objects::{Binding, Location, Objects};
use crate::places::Places;
use crate::rows::Rows;
use crate::state::{ROOM, State, Stop};
use crate::tables::Tables;
use address_taken::address_taken;
use c_memory::{BlockList, Memory, Outcome, Value, VectorTable};
use c_tree::{Item, Unit};
use c_values::objects::table_block;
use std::alloc::{AllocError, Global};

/// One more item behind these functions, with whether the addresses of its objects are taken if it is a function.
#[tactic(auto, using(crate::proofs::Units::nothing_more))]
fn note<'a>(
    alloc: Global,
    all: &mut Vec<Callee<'a>>,
    places: &mut Places,
    item: &'a Item,
) -> Result<(), AllocError>
    ensures noted { OnOk result (map seen_callee all.new.items ≡ map seen_callee all.old.items ++ map marked (functions (view_item item.now ∷ []))) }
    ensures indexed { IsIndexed places.old all.old.items → OnOk result (IsIndexed places.new all.new.items) }
{
    match item {
        Item::Table(_, _) => Ok(()),
        Item::Function(function) => {
            let taken = address_taken(alloc, function)?;
            push(alloc, all, places, function, taken)
        }
    }
}

/// The functions of a unit, each with whether the addresses of its objects are taken.
#[tactic(auto, using(crate::proofs::Units::known_more, crate::proofs::Units::functions_known))]
fn callees_of<'a>(alloc: Global, items: &'a [Item]) -> Result<Callees<'a>, AllocError>
    ensures { IfOk result (λ c. map seen_callee c.all.items ≡ map marked (functions (map view_item items.now))) }
{
    let mut all = Vec::new(alloc);
    let mut places = Places::new(alloc);
    for item in items {
        note(alloc, &mut all, &mut places, item)?;
    }
    Ok(Callees { all, places })
}

/// The unit's tables begin: a block for each, in order. They come into scope.
#[tactic(auto, using(crate::proofs::Units::passed_block, crate::proofs::Units::passed_object, crate::proofs::Units::table_begun, crate::proofs::Units::table_in_scope, crate::proofs::Units::tables_begun, crate::proofs::Units::tables_in_scope))]
fn begin_tables<'a>(
    alloc: Global,
    blocks: &mut BlockList,
    items: &'a [Item],
) -> Result<Tables<'a>, AllocError>
    ensures blocks { OnOk result (blocks.new ≡ blocks.old ++ table_blocks (map view_item items.now)) }
    ensures objects { IfOk result (λ t. seen_tables t ≡ table_objects (length blocks.old) (map view_item items.now)) }
{
    let mut tables = Vec::new(alloc);
    for item in items {
        match item {
            Item::Function(_) => {}
            Item::Table(d, _) => {
                let number = blocks.len();
                let block = table_block(alloc, d)?;
                blocks.push(block)?;
                tables.push(Binding {
                    name: d.name.bytes(),
                    ty: d.ty,
                    location: Location::InBlock(number),
                })?;
            }
        }
    }
    Tables::from_innermost(alloc, tables)
}

/// Runs the function of that name of a unit with these arguments, in a memory, for at most so many turns. In the memory that is left the
/// blocks of the unit's tables follow those that were given. The only error is want of memory, and then the memory is gone.
pub fn run<T: VectorTable>(
    alloc: Global,
    table: &T,
    unit: &Unit,
    name: &[u8],
    args: &[Value],
    memory: Memory,
    turns: u64,
) -> Result<Outcome, AllocError>
    ensures meaning { IfOk result (λ o. outcome_of o ≡ means (call_of_row (rows_of T.find_of T.signature_of T.range_of T.accesses_of T.access_of T.eval_of)) (view_unit unit.now) name.now args.now memory.blocks turns) }
    ensures ended { IfOk result (λ o. HaveEnded (length memory.blocks + length (table_blocks (view_unit unit.now))) (outcome_of o)) }
{
    let outcome = begun(alloc, table, unit, name, args, memory, turns)?;
    Ok(outcome)
}

/// The same, with the tables begun.
fn begun<T: VectorTable>(
    alloc: Global,
    table: &T,
    unit: &Unit,
    name: &[u8],
    args: &[Value],
    memory: Memory,
    turns: u64,
) -> Result<Outcome, AllocError>
    ensures { IfOk result (λ o. outcome_of o ≡ means (call_of_row (rows_of T.find_of T.signature_of T.range_of T.accesses_of T.access_of T.eval_of)) (view_unit unit.now) name.now args.now memory.blocks turns) }
{
    let items = unit.items.as_slice();
    let mut memory = memory;
    let tables = begin_tables(alloc, &mut memory.blocks, items)?;
    run_over(alloc, table, items, &tables, name, args, memory, turns)
}

/// The same of the functions of these items, over tables whose blocks are in the memory.
fn run_over<'t, 'a, T: VectorTable>(
    alloc: Global,
    table: &T,
    items: &'t [Item],
    tables: &'t Tables<'a>,
    name: &[u8],
    args: &[Value],
    memory: Memory,
    turns: u64,
) -> Result<Outcome, AllocError>
    ensures { IfOk result (λ o. outcome_of o ≡ outcome (outermost (seen_tables tables.now) (call_of_row (rows_of T.find_of T.signature_of T.range_of T.accesses_of T.access_of T.eval_of)) (map marked (functions (map view_item items.now))) name.now args.now (at_start memory.blocks turns))) }
{
    let callees = callees_of(alloc, items)?;
    let names = called_names(alloc, items)?;
    let rows = TableRows::new(alloc, table, &callees.places, names.as_slice())?;
    let env = Environment {
        alloc,
        rows: &rows,
        tables: Objects::over(alloc, tables),
        callees,
    };
    let state = State {
        objects: Objects::new(alloc, tables),
        memory,
        left: turns,
    };
    outermost(&env, state, name, args)
}

/// The call of a function from outside.
#[tactic(auto, using(crate::proofs::Callees::outermost_none))]
fn outermost<'a, R: Rows>(
    env: &Environment<'a, '_, R>,
    state: State<'a>,
    name: &[u8],
    args: &[Value],
) -> Result<Outcome, AllocError>
    ensures { IfOk result (λ o. outcome_of o ≡ outcome (outermost (seen_objects env.now.tables) R.row_call (map seen_callee env.now.callees.all.items) name.now args.now (seen_state state.entry))) }
{
    match first_called(env.callees.all.as_slice(), name) {
        None => Ok(Outcome::Undefined),
        Some(k) => {
            let mut state = state;
            let callee = &env.callees.all[k];
            let entered = enter(env, k, ROOM, &mut state, callee, args);
            outcome(entered, state)
        }
    }
}

/// How a run ends, where a call gave this and left that state.
fn outcome(entered: Result<Option<Value>, Stop>, state: State<'_>) -> Result<Outcome, AllocError>
    ensures { (out : Out (Option SeenValue)) → Answers out entered state.entry → IfOk result (λ o. outcome_of o ≡ outcome out) }
{
    match entered {
        Ok(v) => Ok(Outcome::Done(v, state.memory)),
        Err(Stop::Turns) => Ok(Outcome::Turns),
        Err(Stop::Undefined) => Ok(Outcome::Undefined),
        Err(Stop::NoMemory) => Err(AllocError),
    }
}

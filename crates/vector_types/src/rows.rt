//! The rows of the two tables, by their names.

ghost use Rattle.std.specs.Prelude.{◌≡◌, ◌<◌, ℕ, List, Option, Some, None, IfOk, OnOk, if◌then◌else◌, option_map, is_some};
ghost use Rattle.c_text.specs.declared.tokens.Dialect.TheVariants.{X86, Neon};
ghost use Rattle.scopes.specs.Scopes.{named, or_else, same_name, entries_of, rows_of};
ghost use Rattle.vector_types.specs.Rows.{row_told, row_of_table, is_neon_row};

use c_text::Dialect;
use intel_table::X86Rows;
use lane_core::table::VectorTable;
use neon_table::NeonRows;
use scopes::{Names, Row};
use std::alloc::{AllocError, Global};
use type_rules::row_heading;

// One more name; one that is there stands for what it stood for.
#[tactic(auto, using(crate::proofs::TableRows::kept_name, crate::proofs::TableRows::new_name))]
fn add<V: Drop>(alloc: Global, all: &mut Names<V>, name: &[u8], value: V) -> Result<(), AllocError>
    ensures { OnOk result ((x : List ℕ) → named x (entries_of all.new) ≡ or_else (named x (entries_of all.old)) (if same_name x name.now then Some value else None)) }
{
    match all.find(name) {
        Some(_) => Ok(()),
        None => all.insert(alloc, name, value),
    }
}

// One more row of a table, by its name.
fn add_row<T: VectorTable>(
    alloc: Global,
    table: &T,
    op: T::Op,
    name: &[u8],
    all: &mut Names<Row>,
) -> Result<(), AllocError>
    ensures { OnOk result ((x : List ℕ) → named x (rows_of all.new) ≡ or_else (named x (rows_of all.old)) (if same_name x name.now then Some (row_told (T.signature_of op) (T.range_of op)) else None)) }
{
    let heading = row_heading(alloc, &table.signature(op))?;
    let range = table.range(op);
    add(alloc, all, name, Row { heading, range })
}

fn intel_rows(alloc: Global) -> Result<Names<Row>, AllocError>
    ensures { IfOk result (λ all. (x : List ℕ) → named x (rows_of all) ≡ row_of_table X86 x) }
{
    let mut all = Names::new(alloc);
    for k in 0..intel_table::count() {
        let op = intel_table::at(k);
        add_row(
            alloc,
            &X86Rows,
            op,
            intel_table::name(op).as_bytes(),
            &mut all,
        )?;
    }
    Ok(all)
}

fn neon_rows(alloc: Global) -> Result<Names<Row>, AllocError>
    ensures { IfOk result (λ all. (x : List ℕ) → named x (rows_of all) ≡ row_of_table Neon x) }
{
    let mut all = Names::new(alloc);
    for k in 0..neon_table::count() {
        let op = neon_table::at(k);
        add_row(
            alloc,
            &NeonRows,
            op,
            neon_table::name(op).as_bytes(),
            &mut all,
        )?;
    }
    Ok(all)
}

/// The rows of the dialect's table. The only error is want of memory.
pub fn rows_of_table(alloc: Global, dialect: Dialect) -> Result<Names<Row>, AllocError>
    ensures { IfOk result (λ all. (x : List ℕ) → named x (rows_of all) ≡ row_of_table dialect x) }
{
    match dialect {
        Dialect::X86 => intel_rows(alloc),
        Dialect::Neon => neon_rows(alloc),
    }
}

/// The names of the rows of Neon's table. The only error is want of memory.
pub fn neon_names(alloc: Global) -> Result<Names<()>, AllocError>
    ensures { IfOk result (λ all. (x : List ℕ) → is_some (named x (entries_of all)) ≡ is_neon_row x) }
{
    let mut all = Names::new(alloc);
    for k in 0..neon_table::count() {
        add(
            alloc,
            &mut all,
            neon_table::name(neon_table::at(k)).as_bytes(),
            (),
        )?;
    }
    Ok(all)
}

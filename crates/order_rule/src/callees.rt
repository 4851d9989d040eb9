//! What a called function may do.

ghost use Rattle.std.specs.Prelude.{◌≡◌};
ghost use Rattle.scopes.specs.Scopes.{named, rows_of};
ghost use Rattle.order_rule.specs.Callees.{stores, reads, row_effects, called, callees_of};

use c_tree::CType;
use scopes::{Names, Parameter, Row, row_named};

/// What a function of the unit may do.
#[derive(Clone, Copy, Debug, PartialEq, Eq)]
pub struct Effects {
    /// Its body has a writer: an assignment or step of an object in memory, a store row, or a call of a function that may store.
    pub stores: bool,
    /// Its body reads an object in memory, or calls a row or a function that may read memory.
    pub reads: bool,
}

/// What a function may call.
#[derive(Clone, Copy)]
pub struct Callees<'c> {
    /// The functions of the unit that stand before it, each with what it may do.
    pub before: &'c Names<Effects>,
    /// The rows of the table.
    pub rows: &'c Names<Row>,
}

/// Whether one of the parameters is a pointer to what is no const.
fn stores(params: &[Parameter]) -> bool
    ensures { result ≡ stores params.now }
{
    for p in params {
        match p {
            Parameter::Object(CType::Pointer(_, false)) => return true,
            Parameter::Object(_) | Parameter::Immediate => {}
        }
    }
    false
}

/// Whether one of the parameters is a pointer to const.
fn reads(params: &[Parameter]) -> bool
    ensures { result ≡ reads params.now }
{
    for p in params {
        match p {
            Parameter::Object(CType::Pointer(_, true)) => return true,
            Parameter::Object(_) | Parameter::Immediate => {}
        }
    }
    false
}

/// What a row of that name may do, if there is one.
fn row_effects(rows: &Names<Row>, name: &[u8]) -> Effects
    ensures { result ≡ row_effects (named name.now (rows_of rows.now)) }
{
    match row_named(rows, name) {
        None => Effects {
            stores: false,
            reads: false,
        },
        Some(row) => Effects {
            stores: stores(row.heading.params.as_slice()),
            reads: reads(row.heading.params.as_slice()),
        },
    }
}

/// What a called function of that name may do.
pub fn called(name: &[u8], callees: &Callees) -> Effects
    ensures { result ≡ called name.now (callees_of callees.now) }
{
    match callees.before.find(name) {
        Some(known) => *known,
        None => row_effects(callees.rows, name),
    }
}

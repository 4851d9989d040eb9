//! The functions of a unit as calls see them.

ghost use Rattle.std.specs.Prelude.{◌≡◌, [], IfOk, OnOk, map, is_some};
ghost use Rattle.c_tree.specs.View.{view_declared, view_function, view_item};
ghost use Rattle.type_rules.specs.Passing.{heading};
ghost use Rattle.scopes.specs.Scopes.{named, entries_of, functions_of};
ghost use Rattle.vector_types.specs.Functions.{parameter_of, heading_of, with_function, with_item, with_items};

use c_text::Dialect;
use c_tree::{Declared, Function, Item};
use scopes::{Callee, Heading, Names, Parameter};
use std::alloc::{AllocError, Global};
use type_rules::read_type;

fn parameters(
    alloc: Global,
    dialect: Dialect,
    params: &[Declared],
) -> Result<Vec<Parameter>, AllocError>
    ensures { IfOk result (λ v. v.items ≡ map (parameter_of dialect) (map view_declared params.now)) }
{
    let mut out = Vec::new(alloc);
    for d in params {
        out.push(Parameter::Object(read_type(dialect, d.ty)))?;
    }
    Ok(out)
}

fn heading(alloc: Global, dialect: Dialect, f: &Function) -> Result<Heading, AllocError>
    ensures { IfOk result (λ h. heading h ≡ heading_of dialect (view_function f.now)) }
{
    let params = parameters(alloc, dialect, f.params.as_slice())?;
    Ok(Heading {
        result: read_type(dialect, f.result),
        params,
    })
}

fn is_known(all: &Names<Callee>, name: &[u8]) -> bool
    ensures { result ≡ is_some (named name.now (entries_of all.now)) }
{
    all.find(name).is_some()
}

// One more function, which so many items stand before; a name stands for the first that has it.
fn add_function(
    alloc: Global,
    dialect: Dialect,
    order: usize,
    f: &Function,
    all: &mut Names<Callee>,
) -> Result<(), AllocError>
    ensures { OnOk result (functions_of all.new ≡ with_function dialect order (view_function f.now) (functions_of all.old)) }
{
    if is_known(&*all, f.name.bytes()) {
        Ok(())
    } else {
        let heading = heading(alloc, dialect, f)?;
        all.insert(alloc, f.name.bytes(), Callee { order, heading })
    }
}

fn add_item(
    alloc: Global,
    dialect: Dialect,
    order: usize,
    item: &Item,
    all: &mut Names<Callee>,
) -> Result<(), AllocError>
    ensures { OnOk result (functions_of all.new ≡ with_item dialect order (view_item item.now) (functions_of all.old)) }
{
    match item {
        Item::Function(f) => add_function(alloc, dialect, order, f, all),
        Item::Table(_, _) => Ok(()),
    }
}

/// The functions of a unit by their headings. The only error is want of memory.
pub fn functions(
    alloc: Global,
    dialect: Dialect,
    items: &[Item],
) -> Result<Names<Callee>, AllocError>
    ensures { IfOk result (λ all. functions_of all ≡ with_items dialect 0 (map view_item items.now) []) }
{
    let mut all = Names::new(alloc);
    let mut order = 0usize;
    for item in items {
        add_item(alloc, dialect, order, item, &mut all)?;
        order += 1;
    }
    Ok(all)
}

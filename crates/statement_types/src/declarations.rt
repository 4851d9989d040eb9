//! Declarations of several objects.

ghost use Rattle.std.specs.Prelude.{◌≡◌, IfOk, map, true};
ghost use Rattle.c_tree.specs.View.{view_declared};
ghost use Rattle.scopes.specs.Scopes.{env_of};
ghost use Rattle.scopes.specs.Kept.{at_file, is_inside, OnRefusal};
ghost use Rattle.expression_types.specs.Check.{Gives};
ghost use Rattle.statement_types.specs.Statements.{with_objects, check_objects};

use c_tree::Declared;
use expression_types::{Environment, Fail};
use object_types::check_object;
use std::alloc::Global;

/// Declared objects with their types, each in the scope with those before it. The innermost scope declares them then.
pub fn check_objects(
    alloc: Global,
    env: &mut Environment,
    all: &[Declared],
) -> Result<Vec<Declared>, Fail>
    ensures value { Gives (λ v. map view_declared v.items) result (check_objects (map view_declared all.now) (env_of env.old)) }
    ensures names { IfOk result (λ v. env_of env.new ≡ with_objects (map view_declared v.items) (env_of env.old)) }
    ensures kept { is_inside (env_of env.old) ≡ true → OnRefusal result (at_file (env_of env.new) ≡ at_file (env_of env.old)) }
{
    let mut out = Vec::new(alloc);
    for d in all {
        let v = check_object(alloc, env, d)?;
        out.push(v)?;
    }
    Ok(out)
}

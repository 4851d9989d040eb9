//! The scope of a file: its tables, and the functions of the unit.

ghost use Rattle.std.specs.Prelude.{◌≡◌};
ghost use Rattle.scopes.specs.Scopes.{named, env_of};
ghost use Rattle.scopes.specs.Kept.{at_file};
ghost use Rattle.vector_types.specs.Functions.{is_before, is_taken};

use expression_types::Environment;

/// Whether a function before the item has the name.
fn is_before(env: &Environment, name: &[u8]) -> bool
    ensures { result ≡ is_before (named name.now (env_of env.now).functions) (env_of env.now).here }
{
    match env.function(name) {
        Some(f) => f.order < env.here,
        None => false,
    }
}

/// Whether the file's scope has the name, of a table or of a function before the item. It is the innermost scope here.
pub fn is_taken(env: &Environment, name: &[u8]) -> bool
    ensures { result ≡ is_taken name.now (env_of env.now) }
{
    env.declares(name) || is_before(env, name)
}

/// Ends all scopes but the file's.
pub fn end_item(env: &mut Environment)
    ensures { env_of env.new ≡ at_file (env_of env.old) }
{
    env.outer.truncate(1);
    match env.outer.pop() {
        Some(file) => {
            env.innermost = file;
        }
        None => {}
    }
    env.calls_none = false;
}

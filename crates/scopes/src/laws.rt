//! Scopes that open and end.

ghost use Rattle.std.specs.Prelude.{◌≡◌};
ghost use Rattle.scopes.specs.Scopes.{Env, Scope, opened, closed};

/// A scope that opens and ends, whatever it declares in between, leaves what there was.
pub fn scopes_end()
    ensures { (env : Env) (s : Scope) → closed (record (opened env) { innermost = s }) ≡ env }
{}

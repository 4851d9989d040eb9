//! The names that a unit may not declare.

ghost use Rattle.std.specs.Prelude.{◌≡◌, ◌||◌, nat_eq, codes, map};
ghost use Rattle.std.specs.List.{list_any, starts_with};
ghost use Rattle.scopes.specs.Scopes.{same_name};
ghost use Rattle.object_types.specs.Reserved.{is_vector_type, is_predefined, is_reserved};

use c_text::{Dialect, PredefinedName, predefined_names};
use c_tree::vector_named;

fn is_vector_type(name: &[u8]) -> bool
    ensures { result ≡ is_vector_type name.now }
{
    vector_named(Dialect::Neon, name).is_some()
}

fn is_macro(name: &[u8], all: &[PredefinedName]) -> bool
    ensures { result ≡ list_any (λ p. same_name name.now p.name.now) all.now }
{
    all.iter().any(|p| name == p.name.as_bytes())
}

fn is_predefined(dialect: Dialect, name: &[u8]) -> bool
    ensures { result ≡ is_predefined dialect name.now }
{
    is_macro(name, predefined_names(dialect))
}

fn has_reserved_front(name: &[u8]) -> bool
    ensures { result ≡ (starts_with nat_eq name.now (codes "mg_") || starts_with nat_eq name.now (codes "_mm") || starts_with nat_eq name.now (codes "__builtin_")) }
{
    name.starts_with(b"mg_") || name.starts_with(b"_mm") || name.starts_with(b"__builtin_")
}

/// Whether a name, which a Neon row has or not, may not be declared: in the x86 dialect one that begins with `mg_`, `_mm` or `__builtin_`, that of
/// a Neon row or vector type, and a predefined name of either dialect; in the Neon dialect that of a Neon row.
pub fn is_reserved(dialect: Dialect, is_neon_row: bool, name: &[u8]) -> bool
    ensures { result ≡ is_reserved dialect is_neon_row name.now }
{
    match dialect {
        Dialect::X86 => has_reserved_front(name)
            || is_neon_row
            || is_vector_type(name)
            || is_predefined(Dialect::X86, name)
            || is_predefined(Dialect::Neon, name),
        Dialect::Neon => is_neon_row,
    }
}

//! Units that have their types.

ghost use Rattle.std.specs.Prelude.{◌≡◌};
ghost use Rattle.c_tree.specs.View.{view_unit};
ghost use Rattle.vector_types.specs.Units.{IsChecked};

use c_text::Dialect;
use c_tree::Unit;

/// A unit with every type set and each conversion a cast, of a dialect.
#[derive(Drop)]
pub struct TypedUnit {
    unit: Unit,
    dialect: Dialect,
    ghost checked: { ∥ IsChecked dialect (view_unit unit) ∥₁ },
}

impl TypedUnit {
    // A unit that was checked.
    pub(crate) fn new(unit: Unit, dialect: Dialect) -> TypedUnit
        requires { IsChecked dialect (view_unit unit) }
        ensures unit { result.unit ≡ unit }
        ensures dialect { result.dialect ≡ dialect }
    {
        TypedUnit { unit, dialect }
    }

    /// The unit.
    pub fn unit(&self) -> &Unit
        ensures { result.now ≡ self.now.unit }
    {
        &self.unit
    }

    /// The unit, which may be checked again.
    pub fn into_unit(self) -> Unit
        ensures { result ≡ self.unit }
    {
        self.unit
    }

    /// The dialect that it was checked in.
    pub fn dialect(&self) -> Dialect
        ensures { result ≡ self.now.dialect }
    {
        self.dialect
    }
}

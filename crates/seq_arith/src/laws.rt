//! What holds of the sequences of rows.

ghost use Rattle.seq_arith.specs.Claims.{PlansAreRows};

/// The sequence of a row is well formed, takes a carrier for each parameter but the immediate and gives one, and its value is the row's for all
/// arguments. This runs nothing.
pub fn plans_are_rows()
    ensures { PlansAreRows }
{}

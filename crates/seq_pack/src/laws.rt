//! What holds of the sequences of rows.

ghost use Rattle.seq_pack.specs.Claims.{PlansAreRows};

/// The sequence of a row is well formed, takes and gives what the row does, and its value is the row's for all arguments. This runs nothing.
pub fn plans_are_rows()
    ensures { PlansAreRows }
{}

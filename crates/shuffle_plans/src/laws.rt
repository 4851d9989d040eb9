//! What holds of selections.

ghost use Rattle.shuffle_plans.specs.Claims.{FormsServe};
ghost use Rattle.shuffle_plans.specs.Laws.{SelectionsAreRows, PicksArePlaces};
ghost use Rattle.shuffle_plans.specs.Plans.{FormsGive};

/// Each block of 16 bytes of a shuffle row's value has the bytes of the selection, for every immediate and all registers; and the numbers of selections
/// are below 16. This runs nothing.
pub fn selections_are_rows()
    ensures rows { SelectionsAreRows }
    ensures places { PicksArePlaces }
{}

/// Where a form of the list gives a selection, its sequence gives the selection's bytes, for all registers. This runs nothing.
pub fn forms_give()
    ensures { FormsGive }
{}

/// Where a form of the list gives the selection of a row, its sequence is well formed, takes a carrier for each vector of the row and gives one, and for a
/// row of 128 bits its value is the row's for all arguments. This runs nothing.
pub fn forms_serve()
    ensures { FormsServe }
{
    selections_are_rows();
}

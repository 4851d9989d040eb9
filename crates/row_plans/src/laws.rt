//! What holds of the sequences of rows.

ghost use Rattle.row_plans.specs.Claims.{PlansFit};
ghost use Rattle.seq_arith.specs.Claims as arith;
ghost use Rattle.seq_pack.specs.Claims as pack;

use shuffle_plans::forms_serve;
use written_forms::a_sequence_of_values_stands_for_its_row;

fn lanes_are_rows()
    ensures { arith.PlansAreRows }
{
    seq_arith::plans_are_rows();
}

fn packs_are_rows()
    ensures { pack.PlansAreRows }
{
    seq_pack::plans_are_rows();
}

/// The sequence of each row fits it, whatever the prices are. This runs nothing.
pub fn plans_fit()
    ensures { PlansFit }
{
    a_sequence_of_values_stands_for_its_row();
    lanes_are_rows();
    packs_are_rows();
    forms_serve();
}

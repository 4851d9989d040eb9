//! Sequences of Neon calls: their value, what they do to memory, the rows that they call, and the C that is written for them.
#![tactic(auto)]

pub mod build;
mod counts;
mod evaluation;
mod functions;
mod in_place;
mod laws;
mod rows;
mod terms;
mod writing;

pub use counts::calls;
pub use evaluation::eval_seq;
pub use functions::function;
pub use in_place::stands_in_place;
pub use laws::{
    a_function_does_what_its_sequence_does, a_sequence_in_place_gives_its_value,
    a_sequence_in_place_runs_out_with_its_operands, a_sequence_in_place_takes_no_address,
    a_sequence_without_memory_gives_its_value, a_straight_term_holds_in_place,
};
pub use terms::{Seq, Term};

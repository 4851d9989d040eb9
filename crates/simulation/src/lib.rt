//! When two runs do the same. The relation of two runs is in `specs/`, over any relation of values, and so is a law for each construct of the
//! meaning, which what stands above may cite. Laws that speak of no relation are contracts here.
#![tactic(auto)]

mod laws;

pub use c_memory::Value;
pub use laws::{
    a_memory_that_covers_serves, turns_are_counted_alike, units_that_correspond_do_the_same,
};

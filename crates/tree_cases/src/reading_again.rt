//! The laws on texts that are read again are called.

use round_trip::{
    a_text_has_one_list_of_tokens, good_units_are_read_again, printed_units_are_read_again,
};
use std::test::Fail;

#[test]
fn laws_hold(_rt: HostRuntime) -> Result<(), Fail> {
    printed_units_are_read_again();
    good_units_are_read_again();
    a_text_has_one_list_of_tokens();
    Ok(())
}

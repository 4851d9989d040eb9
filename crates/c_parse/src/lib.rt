//! The grammar of the C subset over tokens, and the parser that finds the tree of a unit.
#![tactic(auto)]

mod attribute_names;
mod attributes;
mod beginnings;
mod declaration_laws;
mod declarations;
mod declarators;
mod expressions;
mod forms;
mod initialisers;
mod items;
mod laws;
mod limits;
mod literals;
mod nodes;
mod objects;
mod pairs;
mod parameters;
mod peeks;
mod specification;
mod statements;
mod symbols;
mod types;
mod unit;

pub use declaration_laws::{
    a_word_of_specifiers_begins_declarations, declarations_are_read, headings_are_read,
    objects_are_read,
};
pub use laws::{one_expression, read_from_left_to_right};
pub use symbols::{Infix, Part, Sign, Symbol, TypeWord, Word, token_symbol};
pub use types::{Specifiers, base, counted, no_specifiers, pointer, with_const};
pub use unit::{one_unit, parse};

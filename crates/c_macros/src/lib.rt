//! The expansion of macros, by ISO C11 6.10.3: each use is replaced by its body with its arguments, which are expanded by themselves, and the
//! result is expanded again. It takes time linear in the tokens and the work that is done.
#![tactic(auto)]

mod arguments;
mod expanding;
mod filling;
mod hinted;
mod laws;
mod macros;
mod names;
mod roles;
mod segments;
mod sights;

pub use arguments::is_mark;
pub use expanding::{Made, Next, Open, expand_in};
pub use filling::placed;
pub use hinted::{jumps_of, split_hinted};
pub use laws::{free_tokens, macro_numbers};
pub use macros::{Macro, Piece};
pub use names::Macros;
pub use roles::Role;
pub use sights::{Found, Use, sight};

//! Forms of shuffles, and the choice of the first one of least price.
#![tactic(auto)]

mod chooser;
mod forms;
mod list;

pub use chooser::Chooser;
pub use forms::{Form, FormKind, Pick, Side};
pub use list::{FORMS, form_at};

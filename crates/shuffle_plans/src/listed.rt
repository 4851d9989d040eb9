//! The list of forms.

ghost use Rattle.std.specs.Prelude.{◌≡◌, IfOk};
ghost use Rattle.price_choice.specs.List.{forms};

use price_choice::{FORMS, Form, form_at};
use std::alloc::{AllocError, Global};

/// The 390 forms, in the order in which one of least price is looked for. The only error is want of memory.
pub fn forms(alloc: Global) -> Result<Vec<Form>, AllocError>
    ensures { IfOk result (λ all. all.items ≡ forms) }
{
    let mut all = Vec::new(alloc);
    for i in 0..FORMS {
        all.push(form_at(i))?;
    }
    Ok(all)
}

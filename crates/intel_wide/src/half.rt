//! The row that a 256-bit compare has as its half: it has a name, a form and a value, and no list has it.

ghost use Rattle.std.specs.Prelude.{◌≡◌};
ghost use Rattle.intel_wide.specs.HalfRows.{half_row};

use intel_forms::Form;
use intel_forms::Size::Xmm;
use intel_lanes::blocks::Two;
use intel_lanes::lanes::Lane2;
use intel_lanes::lanes::Width::Qword;

/// The rows of the group, named after the intrinsics.
#[derive(Clone, Copy, Debug, PartialEq, Eq)]
pub enum Half {
    CmpgtEpi64,
}

/// The row's name.
pub fn name(op: Half) -> &'static str
    ensures { result.now ≡ (half_row op).name }
{
    match op {
        Half::CmpgtEpi64 => "_mm_cmpgt_epi64",
    }
}

/// The row's form.
pub fn form(op: Half) -> Form
    ensures { result ≡ (half_row op).form }
{
    match op {
        Half::CmpgtEpi64 => Form::Two(Xmm, Two::Lanes(Lane2::Greater, Qword)),
    }
}

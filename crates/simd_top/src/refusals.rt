//! The refusals of a source as a whole, and the lines of one refusal.

ghost use Rattle.std.specs.Prelude.{◌≡◌, IfOk, [], ◌∷◌};
ghost use Rattle.migrate_report.specs.Lines.{refusal_lines};
ghost use Rattle.simd_top.specs.Refusals.{at_the_start};

use c_text::{Place, Refusal, Text};
use migrate_report::refusal_lines;
use std::alloc::{AllocError, Global};

/// The line of a refusal.
pub fn line_of(alloc: Global, refusal: Refusal) -> Result<Vec<u8>, AllocError>
    ensures { IfOk result (λ line. line.items ≡ refusal_lines (refusal ∷ [])) }
{
    refusal_lines(alloc, &[refusal])
}

/// The line of a refusal of the source as a whole.
pub fn line_at_the_start(alloc: Global, number: u8, detail: &[u8]) -> Result<Vec<u8>, AllocError>
    ensures { IfOk result (λ line. line.items ≡ refusal_lines (at_the_start number detail.now ∷ [])) }
{
    let detail = Text::new(alloc, detail)?;
    line_of(
        alloc,
        Refusal {
            number,
            place: Place { line: 1, col: 1 },
            detail,
        },
    )
}

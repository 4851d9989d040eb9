//! Truth values beside statements.

ghost use Rattle.std.specs.Prelude.{◌≡◌};
ghost use Rattle.c_tree.specs.View.{view_optional};
ghost use Rattle.address_taken.specs.Taken.{seen_all};
ghost use Rattle.c_meaning.specs.Flagged.{flags_of, parts_of, rest_of, first_flag, other_flags, after_start};

use address_taken::Taken;
use c_tree::Stmt;

/// Those of the first statement's declarators.
pub fn flags_of(taken: &[Taken]) -> &[bool]
    ensures { result.now ≡ flags_of (seen_all taken.now) }
{
    match taken.split_first() {
        Some((Taken::Objects(all), _)) => all.as_slice(),
        Some((Taken::Nothing, _)) | Some((Taken::Parts(_), _)) | None => &[],
    }
}

/// Those of the first statement's parts.
pub fn parts_of(taken: &[Taken]) -> &[Taken]
    ensures { seen_all result.now ≡ parts_of (seen_all taken.now) }
{
    match taken.split_first() {
        Some((Taken::Parts(all), _)) => all.as_slice(),
        Some((Taken::Nothing, _)) | Some((Taken::Objects(_), _)) | None => &[],
    }
}

/// Those of the statements after the first.
pub fn rest_of(taken: &[Taken]) -> &[Taken]
    ensures { seen_all result.now ≡ rest_of (seen_all taken.now) }
{
    match taken.split_first() {
        Some((_, rest)) => rest,
        None => &[],
    }
}

/// The first of declarators' truth values.
pub fn first_flag(flags: &[bool]) -> bool
    ensures { result ≡ first_flag flags.now }
{
    match flags.split_first() {
        Some((flag, _)) => *flag,
        None => false,
    }
}

/// Those after the first.
pub fn other_flags(flags: &[bool]) -> &[bool]
    ensures { result.now ≡ other_flags flags.now }
{
    match flags.split_first() {
        Some((_, rest)) => rest,
        None => &[],
    }
}

/// Those of a `for`'s body.
pub fn after_start<'t>(start: &Option<Box<Stmt>>, parts: &'t [Taken]) -> &'t [Taken]
    ensures { seen_all result.now ≡ after_start (view_optional start.now) (seen_all parts.now) }
{
    match start {
        None => parts,
        Some(_) => rest_of(parts),
    }
}

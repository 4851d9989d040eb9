//! The Neon rows that move, widen and narrow elements, and those of memory: their names, forms and values, by the Arm Neon Intrinsics Reference.
#![tactic(auto)]

ghost use Rattle.std.specs.Prelude.{◌≡◌, ◌<◌, ◌+◌, ◌∷◌, ◌++◌, drop, length};
ghost use Rattle.neon_forms.specs.Values.{value_of};
ghost use Rattle.neon_move.specs.Named.{name_of, form_of};
ghost use Rattle.neon_move.specs.Rows.{rows, find_of};
ghost use Rattle.neon_move.specs.WidenedRows.{widened_rows};
ghost use Rattle.neon_move.specs.NarrowedRows.{narrowed_rows};
ghost use Rattle.neon_move.specs.PermutingRows.{permuting_rows};
ghost use Rattle.neon_move.specs.HalvesRows.{halves_rows};
ghost use Rattle.neon_move.specs.PlacesRows.{places_rows};
ghost use Rattle.neon_move.specs.ToUnsignedRows.{to_unsigned_rows};
ghost use Rattle.neon_move.specs.ToSignedRows.{to_signed_rows};
ghost use Rattle.neon_move.specs.BytesRows.{bytes_rows};

pub mod bytes;
pub mod halves;
pub mod narrowed;
pub mod permuting;
pub mod places;
pub mod to_signed;
pub mod to_unsigned;
pub mod widened;

use lane_core::table::Arg;
use neon_forms::Form;

/// A row, by the group that has it.
#[derive(Clone, Copy, Debug, PartialEq, Eq)]
pub enum MoveOp {
    Widened(widened::Widened),
    Narrowed(narrowed::Narrowed),
    Permuting(permuting::Permuting),
    Halves(halves::Halves),
    Places(places::Places),
    ToUnsigned(to_unsigned::ToUnsigned),
    ToSigned(to_signed::ToSigned),
    Bytes(bytes::Bytes),
}

/// The row of that name, or None where the list has none.
#[tactic(auto, using(row_names::specs::Groups::named_in_both))]
pub fn find(name: &[u8]) -> Option<MoveOp>
    ensures { result ≡ find_of name.now }
{
    let found = bytes::find(name);
    let found = to_signed::find(name).or(found);
    let found = to_unsigned::find(name).or(found);
    let found = places::find(name).or(found);
    let found = halves::find(name).or(found);
    let found = permuting::find(name).or(found);
    let found = narrowed::find(name).or(found);
    let found = widened::find(name).or(found);
    found
}

/// How many rows the list has.
pub fn count() -> usize
    ensures value { result ≡ length rows }
    ensures few { result < 1024 }
{
    widened::count()
        + narrowed::count()
        + permuting::count()
        + halves::count()
        + places::count()
        + to_unsigned::count()
        + to_signed::count()
        + bytes::count()
}

/// Row `k` of the list, counted from 0.
pub fn at(k: usize) -> MoveOp
    requires { k < length rows }
    ensures { drop k rows ≡ result ∷ drop (k + 1) rows }
{
    from_widened(k)
}

/// Row `k` of the groups from `widened` on.
#[tactic(auto, using(row_names::proofs::Listed::in_first, row_names::proofs::Listed::behind_first))]
fn from_widened(k: usize) -> MoveOp
    requires { k < length (widened_rows ++ (narrowed_rows ++ (permuting_rows ++ (halves_rows ++ (places_rows ++ (to_unsigned_rows ++ (to_signed_rows ++ bytes_rows))))))) }
    ensures { drop k (widened_rows ++ (narrowed_rows ++ (permuting_rows ++ (halves_rows ++ (places_rows ++ (to_unsigned_rows ++ (to_signed_rows ++ bytes_rows))))))) ≡ result ∷ drop (k + 1) (widened_rows ++ (narrowed_rows ++ (permuting_rows ++ (halves_rows ++ (places_rows ++ (to_unsigned_rows ++ (to_signed_rows ++ bytes_rows))))))) }
{
    let first = widened::count();
    if k < first {
        widened::at(k)
    } else {
        from_narrowed(k - first)
    }
}

/// Row `k` of the groups from `narrowed` on.
#[tactic(auto, using(row_names::proofs::Listed::in_first, row_names::proofs::Listed::behind_first))]
fn from_narrowed(k: usize) -> MoveOp
    requires { k < length (narrowed_rows ++ (permuting_rows ++ (halves_rows ++ (places_rows ++ (to_unsigned_rows ++ (to_signed_rows ++ bytes_rows)))))) }
    ensures { drop k (narrowed_rows ++ (permuting_rows ++ (halves_rows ++ (places_rows ++ (to_unsigned_rows ++ (to_signed_rows ++ bytes_rows)))))) ≡ result ∷ drop (k + 1) (narrowed_rows ++ (permuting_rows ++ (halves_rows ++ (places_rows ++ (to_unsigned_rows ++ (to_signed_rows ++ bytes_rows)))))) }
{
    let first = narrowed::count();
    if k < first {
        narrowed::at(k)
    } else {
        from_permuting(k - first)
    }
}

/// Row `k` of the groups from `permuting` on.
#[tactic(auto, using(row_names::proofs::Listed::in_first, row_names::proofs::Listed::behind_first))]
fn from_permuting(k: usize) -> MoveOp
    requires { k < length (permuting_rows ++ (halves_rows ++ (places_rows ++ (to_unsigned_rows ++ (to_signed_rows ++ bytes_rows))))) }
    ensures { drop k (permuting_rows ++ (halves_rows ++ (places_rows ++ (to_unsigned_rows ++ (to_signed_rows ++ bytes_rows))))) ≡ result ∷ drop (k + 1) (permuting_rows ++ (halves_rows ++ (places_rows ++ (to_unsigned_rows ++ (to_signed_rows ++ bytes_rows))))) }
{
    let first = permuting::count();
    if k < first {
        permuting::at(k)
    } else {
        from_halves(k - first)
    }
}

/// Row `k` of the groups from `halves` on.
#[tactic(auto, using(row_names::proofs::Listed::in_first, row_names::proofs::Listed::behind_first))]
fn from_halves(k: usize) -> MoveOp
    requires { k < length (halves_rows ++ (places_rows ++ (to_unsigned_rows ++ (to_signed_rows ++ bytes_rows)))) }
    ensures { drop k (halves_rows ++ (places_rows ++ (to_unsigned_rows ++ (to_signed_rows ++ bytes_rows)))) ≡ result ∷ drop (k + 1) (halves_rows ++ (places_rows ++ (to_unsigned_rows ++ (to_signed_rows ++ bytes_rows)))) }
{
    let first = halves::count();
    if k < first {
        halves::at(k)
    } else {
        from_places(k - first)
    }
}

/// Row `k` of the groups from `places` on.
#[tactic(auto, using(row_names::proofs::Listed::in_first, row_names::proofs::Listed::behind_first))]
fn from_places(k: usize) -> MoveOp
    requires { k < length (places_rows ++ (to_unsigned_rows ++ (to_signed_rows ++ bytes_rows))) }
    ensures { drop k (places_rows ++ (to_unsigned_rows ++ (to_signed_rows ++ bytes_rows))) ≡ result ∷ drop (k + 1) (places_rows ++ (to_unsigned_rows ++ (to_signed_rows ++ bytes_rows))) }
{
    let first = places::count();
    if k < first {
        places::at(k)
    } else {
        from_to_unsigned(k - first)
    }
}

/// Row `k` of the groups from `to_unsigned` on.
#[tactic(auto, using(row_names::proofs::Listed::in_first, row_names::proofs::Listed::behind_first))]
fn from_to_unsigned(k: usize) -> MoveOp
    requires { k < length (to_unsigned_rows ++ (to_signed_rows ++ bytes_rows)) }
    ensures { drop k (to_unsigned_rows ++ (to_signed_rows ++ bytes_rows)) ≡ result ∷ drop (k + 1) (to_unsigned_rows ++ (to_signed_rows ++ bytes_rows)) }
{
    let first = to_unsigned::count();
    if k < first {
        to_unsigned::at(k)
    } else {
        from_to_signed(k - first)
    }
}

/// Row `k` of the groups from `to_signed` on.
#[tactic(auto, using(row_names::proofs::Listed::in_first, row_names::proofs::Listed::behind_first))]
fn from_to_signed(k: usize) -> MoveOp
    requires { k < length (to_signed_rows ++ bytes_rows) }
    ensures { drop k (to_signed_rows ++ bytes_rows) ≡ result ∷ drop (k + 1) (to_signed_rows ++ bytes_rows) }
{
    let first = to_signed::count();
    if k < first {
        to_signed::at(k)
    } else {
        bytes::at(k - first)
    }
}

/// The row's name.
pub fn name(op: MoveOp) -> &'static str
    ensures { result.now ≡ name_of op }
{
    match op {
        MoveOp::Widened(row) => widened::name(row),
        MoveOp::Narrowed(row) => narrowed::name(row),
        MoveOp::Permuting(row) => permuting::name(row),
        MoveOp::Halves(row) => halves::name(row),
        MoveOp::Places(row) => places::name(row),
        MoveOp::ToUnsigned(row) => to_unsigned::name(row),
        MoveOp::ToSigned(row) => to_signed::name(row),
        MoveOp::Bytes(row) => bytes::name(row),
    }
}

/// The row's form, which says its signature, range, accesses and value.
pub fn form(op: MoveOp) -> Form
    ensures { result ≡ form_of op }
{
    match op {
        MoveOp::Widened(row) => widened::form(row),
        MoveOp::Narrowed(row) => narrowed::form(row),
        MoveOp::Permuting(row) => permuting::form(row),
        MoveOp::Halves(row) => halves::form(row),
        MoveOp::Places(row) => places::form(row),
        MoveOp::ToUnsigned(row) => to_unsigned::form(row),
        MoveOp::ToSigned(row) => to_signed::form(row),
        MoveOp::Bytes(row) => bytes::form(row),
    }
}

/// The row's value, for its arguments and its constant; of a storing row the bytes to be written.
pub fn eval(op: MoveOp, args: &[Arg], n: u16) -> Arg
    ensures { result ≡ value_of (form_of op) args.now n }
{
    neon_forms::value(form(op), args, n)
}

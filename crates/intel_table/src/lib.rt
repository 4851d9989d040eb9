//! The table of Intel rows: names, signatures, immediates, accesses and values.
#![tactic(auto)]

ghost use Rattle.std.specs.Prelude.{◌≡◌, ◌<◌, ◌≤◌, ◌+◌, ◌∷◌, ◌++◌, drop, length, ◌↔◌, IsNone, IfSome, Contains, option_map};
ghost use Rattle.lane_core.specs.Table.{Fits, InImmRange};
ghost use Rattle.intel_forms.specs.MemoryLaws.{Inside};
ghost use Rattle.intel_table.specs.declared.IntelOp.{IntelOp};
ghost use Rattle.intel_table.specs.Rows.{of_base, of_more, of_wide, base_rows, more_rows, wide_rows, rows, names, find_of, listed, name_of, form_of, signature_of, range_of, accesses_of, access_of, register_of, eval_of};

use intel_base::BaseOp;
use intel_forms::Form;
use intel_more::MoreOp;
use intel_wide::WideOp;
use lane_core::table::{Access, Arg, ImmRange, Sig};

mod x86_rows;

pub use x86_rows::X86Rows;

/// A row of the table. Two values are equal exactly where their names are.
#[derive(Clone, Copy, Debug, PartialEq, Eq)]
pub struct IntelOp {
    row: Part,
}

/// A row, by the part that has it.
#[derive(Clone, Copy, Debug, PartialEq, Eq)]
enum Part {
    Base(BaseOp),
    More(MoreOp),
    Wide(WideOp),
}

fn of_base(found: Option<BaseOp>) -> Option<IntelOp>
    ensures { result ≡ option_map of_base found }
{
    match found {
        Some(row) => Some(IntelOp {
            row: Part::Base(row),
        }),
        None => None,
    }
}

fn of_more(found: Option<MoreOp>) -> Option<IntelOp>
    ensures { result ≡ option_map of_more found }
{
    match found {
        Some(row) => Some(IntelOp {
            row: Part::More(row),
        }),
        None => None,
    }
}

fn of_wide(found: Option<WideOp>) -> Option<IntelOp>
    ensures { result ≡ option_map of_wide found }
{
    match found {
        Some(row) => Some(IntelOp {
            row: Part::Wide(row),
        }),
        None => None,
    }
}

#[tactic(auto, using(crate::specs::Found::found_in_parts))]
fn found(name: &[u8]) -> Option<IntelOp>
    ensures { result ≡ find_of name.now }
{
    let wide = of_wide(intel_wide::find(name));
    let more = of_more(intel_more::find(name)).or(wide);
    of_base(intel_base::find(name)).or(more)
}

/// The row of that name, as `_mm_add_epi8`, or None exactly where the list has no such name.
#[tactic(auto, using(crate::specs::Found::found_has_its_name, crate::specs::Found::none_exactly_outside))]
pub fn find(name: &[u8]) -> Option<IntelOp>
    ensures value { result ≡ find_of name.now }
    ensures named { IfSome result (λ op. name_of op ≡ name.now) }
    ensures none { IsNone result ↔ ¬ (Contains names name.now) }
{
    found(name)
}

/// How many rows the table has.
pub fn count() -> usize
    ensures { result ≡ length rows }
{
    base_count() + more_count() + wide_count()
}

/// Row `k` of the table's list, counted from 0.
#[tactic(auto, using(row_names::proofs::Listed::in_first, row_names::proofs::Listed::behind_first))]
pub fn at(k: usize) -> IntelOp
    requires { k < length rows }
    ensures { drop k rows ≡ result ∷ drop (k + 1) rows }
{
    let first = base_count();
    if k < first {
        base_at(k)
    } else {
        from_more(k - first)
    }
}

/// Row `k` of the parts from `intel_more` on.
#[tactic(auto, using(row_names::proofs::Listed::in_first, row_names::proofs::Listed::behind_first))]
fn from_more(k: usize) -> IntelOp
    requires { k < length (more_rows ++ wide_rows) }
    ensures { drop k (more_rows ++ wide_rows) ≡ result ∷ drop (k + 1) (more_rows ++ wide_rows) }
{
    let first = more_count();
    if k < first {
        more_at(k)
    } else {
        wide_at(k - first)
    }
}

fn base_count() -> usize
    ensures value { result ≡ length base_rows }
    ensures few { result < 1024 }
{
    intel_base::count()
}

fn base_at(k: usize) -> IntelOp
    requires { k < length base_rows }
    ensures { drop k base_rows ≡ result ∷ drop (k + 1) base_rows }
{
    IntelOp {
        row: Part::Base(intel_base::at(k)),
    }
}

fn more_count() -> usize
    ensures value { result ≡ length more_rows }
    ensures few { result < 1024 }
{
    intel_more::count()
}

fn more_at(k: usize) -> IntelOp
    requires { k < length more_rows }
    ensures { drop k more_rows ≡ result ∷ drop (k + 1) more_rows }
{
    IntelOp {
        row: Part::More(intel_more::at(k)),
    }
}

fn wide_count() -> usize
    ensures value { result ≡ length wide_rows }
    ensures few { result < 1024 }
{
    intel_wide::count()
}

fn wide_at(k: usize) -> IntelOp
    requires { k < length wide_rows }
    ensures { drop k wide_rows ≡ result ∷ drop (k + 1) wide_rows }
{
    IntelOp {
        row: Part::Wide(intel_wide::at(k)),
    }
}

/// The row's name. `find` gives the row for it, but for the half of a 256-bit compare, and no other row has it.
#[tactic(auto, using(crate::specs::Found::found_by_name))]
pub fn name(op: IntelOp) -> &'static str
    ensures value { result.now ≡ name_of op }
    ensures found { find_of (name_of op) ≡ listed op }
    ensures alone { (other : IntelOp) → name_of other ≡ name_of op → other ≡ op }
{
    part_name(op)
}

fn part_name(op: IntelOp) -> &'static str
    ensures { result.now ≡ name_of op }
{
    match op.row {
        Part::Base(row) => intel_base::name(row),
        Part::More(row) => intel_more::name(row),
        Part::Wide(row) => intel_wide::name(row),
    }
}

/// The row's form: what it takes, touches and gives. Rows of one form compute the same: `_mm_slli_si128` and `_mm_bslli_si128`.
pub fn form(op: IntelOp) -> Form
    ensures { result ≡ form_of op }
{
    match op.row {
        Part::Base(row) => intel_base::form(row),
        Part::More(row) => intel_more::form(row),
        Part::Wide(row) => intel_wide::form(row),
    }
}

/// The kinds of the row's parameters and result.
pub fn signature(op: IntelOp) -> Sig
    ensures value { result ≡ signature_of op }
    ensures counted { result.count ≤ 32 }
{
    let form = form(op);
    intel_forms::signature(form)
}

/// The values that the row's immediate may have.
pub fn range(op: IntelOp) -> ImmRange
    ensures { result ≡ range_of op }
{
    intel_forms::range(form(op))
}

/// The number of the row's accesses to memory.
pub fn accesses(op: IntelOp) -> usize
    ensures { result ≡ accesses_of op }
{
    intel_forms::accesses(form(op))
}

/// Access `k` of the row, or None where the mask among `args` keeps it away, or where `k` isn't below `accesses`. It lies in
/// the row's register.
pub fn access(op: IntelOp, args: &[Arg], imm: u16, k: usize) -> Option<Access>
    ensures value { result ≡ access_of op args.now imm k }
    ensures inside { IfSome result (Inside (register_of op)) }
{
    intel_forms::access(form(op), args, imm, k)
}

/// The row's value, by the operation that the Intel Intrinsics Guide gives for it; of a storing row the register from which it stores.
pub fn eval(op: IntelOp, args: &[Arg], imm: u16) -> Arg
    requires fit { Fits (signature_of op) args.now }
    requires immediate { InImmRange (range_of op) imm }
    ensures { result ≡ eval_of op args.now imm }
{
    match op.row {
        Part::Base(row) => intel_base::eval(row, args, imm),
        Part::More(row) => intel_more::eval(row, args, imm),
        Part::Wide(row) => intel_wide::eval(row, args, imm),
    }
}

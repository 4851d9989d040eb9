//! The sequence of each form.

ghost use Rattle.std.specs.Prelude.{◌≡◌, IfOk};
ghost use Rattle.neon_table.specs.Rows.{of_move};
ghost use Rattle.seq_core.specs.Terms.{Param};
ghost use Rattle.seq_core.specs.View.{view, view_seq};
ghost use Rattle.shuffle_plans.specs.Sequences.{lanes_of, dup_row, rev_row, zip1_row, zip2_row, uzp1_row, uzp2_row, trn1_row, trn2_row, row_of, constant_of, into, back, side_term, index_in, index_in_pair, indices, one_call, two_call, form_term, sequence_of};

use c_tree::CType;
use lane_core::vector::NeonLane;
use lane_core::widths::filled;
use neon_move::MoveOp;
use neon_move::bytes::Bytes;
use neon_move::permuting::Permuting;
use neon_move::places::Places;
use neon_move::to_unsigned::ToUnsigned;
use neon_table::moving;
use price_choice::{Form, FormKind, Pick, Side};
use seq_core::build::{call_one, call_two, pair_of};
use seq_core::{Seq, Term};
use std::alloc::{AllocError, Global};

fn lanes_of(w: u8) -> NeonLane
    ensures { result ≡ lanes_of w }
{
    match w {
        1 => NeonLane::U8,
        2 => NeonLane::U16,
        4 => NeonLane::U32,
        _ => NeonLane::U64,
    }
}

fn dup_row(t: NeonLane) -> Places
    ensures { result ≡ dup_row t }
{
    match t {
        NeonLane::U8 => Places::VdupqLaneqU8,
        NeonLane::U16 => Places::VdupqLaneqU16,
        NeonLane::U32 => Places::VdupqLaneqU32,
        _ => Places::VdupqLaneqU64,
    }
}

fn rev_row(t: NeonLane, n: u8) -> Permuting
    ensures { result ≡ rev_row t n }
{
    match t {
        NeonLane::U8 => match n {
            2 => Permuting::Vrev16qU8,
            4 => Permuting::Vrev32qU8,
            _ => Permuting::Vrev64qU8,
        },
        NeonLane::U16 => match n {
            4 => Permuting::Vrev32qU16,
            _ => Permuting::Vrev64qU16,
        },
        _ => Permuting::Vrev64qU32,
    }
}

fn zip1_row(t: NeonLane) -> Permuting
    ensures { result ≡ zip1_row t }
{
    match t {
        NeonLane::U8 => Permuting::Vzip1qU8,
        NeonLane::U16 => Permuting::Vzip1qU16,
        NeonLane::U32 => Permuting::Vzip1qU32,
        _ => Permuting::Vzip1qU64,
    }
}

fn zip2_row(t: NeonLane) -> Permuting
    ensures { result ≡ zip2_row t }
{
    match t {
        NeonLane::U8 => Permuting::Vzip2qU8,
        NeonLane::U16 => Permuting::Vzip2qU16,
        NeonLane::U32 => Permuting::Vzip2qU32,
        _ => Permuting::Vzip2qU64,
    }
}

fn uzp1_row(t: NeonLane) -> Permuting
    ensures { result ≡ uzp1_row t }
{
    match t {
        NeonLane::U8 => Permuting::Vuzp1qU8,
        NeonLane::U16 => Permuting::Vuzp1qU16,
        NeonLane::U32 => Permuting::Vuzp1qU32,
        _ => Permuting::Vuzp1qU64,
    }
}

fn uzp2_row(t: NeonLane) -> Permuting
    ensures { result ≡ uzp2_row t }
{
    match t {
        NeonLane::U8 => Permuting::Vuzp2qU8,
        NeonLane::U16 => Permuting::Vuzp2qU16,
        NeonLane::U32 => Permuting::Vuzp2qU32,
        _ => Permuting::Vuzp2qU64,
    }
}

fn trn1_row(t: NeonLane) -> Permuting
    ensures { result ≡ trn1_row t }
{
    match t {
        NeonLane::U8 => Permuting::Vtrn1qU8,
        NeonLane::U16 => Permuting::Vtrn1qU16,
        NeonLane::U32 => Permuting::Vtrn1qU32,
        _ => Permuting::Vtrn1qU64,
    }
}

fn trn2_row(t: NeonLane) -> Permuting
    ensures { result ≡ trn2_row t }
{
    match t {
        NeonLane::U8 => Permuting::Vtrn2qU8,
        NeonLane::U16 => Permuting::Vtrn2qU16,
        NeonLane::U32 => Permuting::Vtrn2qU32,
        _ => Permuting::Vtrn2qU64,
    }
}

/// The row of a kind for lanes of that type. The number is the form's.
fn row_of(kind: FormKind, t: NeonLane, n: u8) -> MoveOp
    ensures { result ≡ row_of kind t n }
{
    match kind {
        FormKind::Dup => MoveOp::Places(dup_row(t)),
        FormKind::Ext => MoveOp::Bytes(Bytes::VextqU8),
        FormKind::Rev => MoveOp::Permuting(rev_row(t, n)),
        FormKind::Zip => MoveOp::Permuting(if n == 1 { zip1_row(t) } else { zip2_row(t) }),
        FormKind::Uzp => MoveOp::Permuting(if n == 1 { uzp1_row(t) } else { uzp2_row(t) }),
        FormKind::Trn => MoveOp::Permuting(if n == 1 { trn1_row(t) } else { trn2_row(t) }),
        FormKind::Tbl => MoveOp::Bytes(Bytes::Vqtbl1qU8),
    }
}

fn constant_of(kind: FormKind, n: u8) -> u16
    ensures { result ≡ constant_of kind n }
{
    match kind {
        FormKind::Dup | FormKind::Ext => n as u16,
        _ => 0,
    }
}

/// A carrier read as lanes.
fn into(alloc: Global, t: NeonLane, x: Term) -> Result<Term, AllocError>
    ensures { IfOk result (λ r. view r ≡ into t (view x)) }
{
    let row = match t {
        NeonLane::U8 => return Ok(x),
        NeonLane::U16 => ToUnsigned::VreinterpretqU16U8,
        NeonLane::U32 => ToUnsigned::VreinterpretqU32U8,
        _ => ToUnsigned::VreinterpretqU64U8,
    };
    call_one(alloc, moving(MoveOp::ToUnsigned(row)), x, 0)
}

/// Lanes as a carrier.
fn back(alloc: Global, t: NeonLane, x: Term) -> Result<Term, AllocError>
    ensures { IfOk result (λ r. view r ≡ back t (view x)) }
{
    let row = match t {
        NeonLane::U8 => return Ok(x),
        NeonLane::U16 => ToUnsigned::VreinterpretqU8U16,
        NeonLane::U32 => ToUnsigned::VreinterpretqU8U32,
        _ => ToUnsigned::VreinterpretqU8U64,
    };
    call_one(alloc, moving(MoveOp::ToUnsigned(row)), x, 0)
}

/// An operand of a form, over the places of the parameters A and B.
fn side_term(side: Side, a: u8, b: u8) -> Term
    ensures { view result ≡ side_term side (Param a) (Param b) }
{
    match side {
        Side::A => Term::Param(a),
        Side::B => Term::Param(b),
        Side::Zero => Term::Const([0; 16]),
    }
}

fn index_in(p: Pick) -> u64
    ensures { result ≡ index_in p }
{
    match p {
        Pick::A(k) | Pick::B(k) => k as u64,
        Pick::Zero => 255,
    }
}

fn index_in_pair(p: Pick) -> u64
    ensures { result ≡ index_in_pair p }
{
    match p {
        Pick::B(k) => 16 + k as u64,
        _ => index_in(p),
    }
}

/// The indices in a table of one operand.
#[tactic(auto, unfolding(crate::specs::Sequences::indices))]
fn indices(want: &[Pick; 16]) -> [u8; 16]
    ensures { result ≡ indices index_in want.now }
{
    filled(1, &|i: usize| index_in(want[i]))
}

/// The indices in a table of both operands.
#[tactic(auto, unfolding(crate::specs::Sequences::indices))]
fn pair_indices(want: &[Pick; 16]) -> [u8; 16]
    ensures { result ≡ indices index_in_pair want.now }
{
    filled(1, &|i: usize| index_in_pair(want[i]))
}

fn one_call(alloc: Global, kind: FormKind, t: NeonLane, n: u8, x: Term) -> Result<Term, AllocError>
    ensures { IfOk result (λ r. view r ≡ one_call kind t n (view x)) }
{
    let x = into(alloc, t, x)?;
    let called = call_one(alloc, moving(row_of(kind, t, n)), x, constant_of(kind, n))?;
    back(alloc, t, called)
}

fn two_call(
    alloc: Global,
    kind: FormKind,
    t: NeonLane,
    n: u8,
    x: Term,
    y: Term,
) -> Result<Term, AllocError>
    ensures { IfOk result (λ r. view r ≡ two_call kind t n (view x) (view y)) }
{
    let x = into(alloc, t, x)?;
    let y = into(alloc, t, y)?;
    let called = call_two(
        alloc,
        moving(row_of(kind, t, n)),
        x,
        y,
        constant_of(kind, n),
    )?;
    back(alloc, t, called)
}

/// What gives the bytes of the selection by that form, over the places of the parameters A and B.
fn form_term(alloc: Global, form: Form, want: &[Pick; 16], a: u8, b: u8) -> Result<Term, AllocError>
    ensures { IfOk result (λ r. view r ≡ form_term form want.now (Param a) (Param b)) }
{
    match form {
        Form::Same(x) => Ok(side_term(x, a, b)),
        Form::One(kind, w, n, x) => one_call(alloc, kind, lanes_of(w), n, side_term(x, a, b)),
        Form::Two(kind, w, n, x, y) => two_call(
            alloc,
            kind,
            lanes_of(w),
            n,
            side_term(x, a, b),
            side_term(y, a, b),
        ),
        Form::Table(x) => call_two(
            alloc,
            moving(MoveOp::Bytes(Bytes::Vqtbl1qU8)),
            side_term(x, a, b),
            Term::Const(indices(want)),
            0,
        ),
        Form::TablePair => {
            let both = pair_of(alloc, Term::Param(a), Term::Param(b))?;
            call_two(
                alloc,
                moving(MoveOp::Bytes(Bytes::Vqtbl2qU8)),
                both,
                Term::Const(pair_indices(want)),
                0,
            )
        }
    }
}

const CARRIER: CType = CType::Neon(NeonLane::U8, true);

/// The sequence over one carrier, which is both A and B, or over two.
pub fn sequence(alloc: Global, two: bool, form: Form, want: &[Pick; 16]) -> Result<Seq, AllocError>
    ensures { IfOk result (λ s. view_seq s ≡ sequence_of two form want.now) }
{
    let mut params = Vec::new(alloc);
    params.push(CARRIER)?;
    if !two {
        let term = form_term(alloc, form, want, 0, 0)?;
        return Ok(Seq {
            params,
            steps: Vec::new(alloc),
            result: Some(term),
        });
    }
    params.push(CARRIER)?;
    let term = form_term(alloc, form, want, 0, 1)?;
    Ok(Seq {
        params,
        steps: Vec::new(alloc),
        result: Some(term),
    })
}

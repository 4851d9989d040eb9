//! The terms of rows that take an integer for each lane. The only error of each is want of memory.

ghost use Rattle.std.specs.Prelude.{◌≡◌, ◌<◌, ◌+◌, ◌-◌, ◌/◌, IfOk};
ghost use Rattle.intel_lanes.specs.Lanes.{bytes_of};
ghost use Rattle.seq_core.specs.View.{view};
ghost use Rattle.seq_pack.specs.Sets.{param_of, lane_param, next_lane, lanes_to, each_lane};

use crate::calls::{back, moved, moved_two};
use crate::terms::{duplicating, elements, setting, unsigned_type};
use intel_lanes::lanes::Width;
use neon_move::MoveOp;
use seq_core::{Term, build};
use std::alloc::{AllocError, Global};

/// The number of the highest lane.
pub fn last_lane(width: Width) -> u8
    ensures { result ≡ 16 / bytes_of width - 1 }
{
    match width {
        Width::Byte => 15,
        Width::Word => 7,
        Width::Dword => 3,
        Width::Qword => 1,
    }
}

/// The parameter for lane `k`.
fn param_of(reversed: bool, width: Width, k: u8) -> u8
    requires { k < 16 / bytes_of width }
    ensures { result ≡ param_of reversed width k }
{
    if reversed { k } else { last_lane(width) - k }
}

/// The integer for lane `k`, as the lane's type.
fn lane_param(alloc: Global, reversed: bool, width: Width, k: u8) -> Result<Term, AllocError>
    requires { k < 16 / bytes_of width }
    ensures { IfOk result (λ t. view t ≡ lane_param reversed width k) }
{
    let x = Term::Param(param_of(reversed, width, k));
    build::convert(alloc, unsigned_type(width), x)
}

/// Lane `k + 1` put into its place.
fn next_lane(
    alloc: Global,
    reversed: bool,
    width: Width,
    before: Term,
    k: u8,
) -> Result<Term, AllocError>
    requires { k + 1 < 16 / bytes_of width }
    ensures { IfOk result (λ t. view t ≡ next_lane reversed width (view before) k) }
{
    let x = lane_param(alloc, reversed, width, k + 1)?;
    let row = MoveOp::Places(setting(width));
    moved_two(alloc, row, x, before, k as u16 + 1)
}

/// All lanes in their places.
fn all_lanes(alloc: Global, reversed: bool, width: Width) -> Result<Term, AllocError>
    ensures { IfOk result (λ t. view t ≡ lanes_to reversed width (16 / bytes_of width - 1)) }
{
    let x = lane_param(alloc, reversed, width, 0)?;
    let mut all = moved(alloc, MoveOp::Places(duplicating(width)), x, 0)?;
    for k in 0..last_lane(width) {
        all = next_lane(alloc, reversed, width, all, k)?;
    }
    Ok(all)
}

/// A vector of an integer for each lane.
pub fn each_lane(alloc: Global, reversed: bool, width: Width) -> Result<Term, AllocError>
    ensures { IfOk result (λ t. view t ≡ each_lane reversed width) }
{
    let all = all_lanes(alloc, reversed, width)?;
    back(alloc, elements(false, width), all)
}

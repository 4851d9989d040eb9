//! The selections of shuffle rows.

ghost use Rattle.std.specs.Prelude.{◌≡◌, ◌≤◌, ◌<◌, ◌*◌, ◌/◌};
ghost use Rattle.lane_core.specs.Register.{IsWidth};
ghost use Rattle.intel_table.specs.Rows.{form_of};
ghost use Rattle.shuffle_plans.specs.Operands.{picks};
ghost use Rattle.shuffle_plans.specs.Selections.{low_pick, interleave_pick, dword_pick, low_word_pick, high_word_pick, up_pick, down_pick, align_pick, broadcast_pick, qword_byte, qword_pick, one_pick, two_pick, one_imm_pick, two_imm_pick, across_pick, pick_of, is_shuffle, picked_at, selection_of};
ghost use Rattle.intel_lanes.specs.Lanes.{bytes_of};

use intel_forms::Form;
use intel_forms::across::Across;
use intel_lanes::blocks::{One, OneImm, Two, TwoImm, place};
use intel_lanes::lanes::{Width, bytes};
use intel_table::{IntelOp, form};
use price_choice::Pick;

fn low_pick(i: u8) -> Pick
    ensures { result ≡ low_pick i }
{
    if i < 8 { Pick::A(i) } else { Pick::Zero }
}

/// Byte `i` of lanes of `w` bytes of both operands in turn, from lane `first` on.
fn interleave_pick(first: u8, w: u8, i: u8) -> Pick
    requires width { IsWidth w }
    requires half { first * w ≤ 8 }
    requires byte { i < 16 }
    ensures { result ≡ interleave_pick first w i }
{
    let k = i / w;
    let byte = (first + k / 2) * w + i % w;
    if k % 2 == 0 {
        Pick::A(byte)
    } else {
        Pick::B(byte)
    }
}

fn dword_pick(imm: u16, i: u8) -> Pick
    requires { i < 16 }
    ensures { result ≡ dword_pick imm i }
{
    Pick::A(place(imm, (i / 4) as usize) as u8 * 4 + i % 4)
}

fn low_word_pick(imm: u16, i: u8) -> Pick
    requires { i < 16 }
    ensures { result ≡ low_word_pick imm i }
{
    if i < 8 {
        Pick::A(place(imm, (i / 2) as usize) as u8 * 2 + i % 2)
    } else {
        Pick::A(i)
    }
}

fn high_word_pick(imm: u16, i: u8) -> Pick
    requires { i < 16 }
    ensures { result ≡ high_word_pick imm i }
{
    if i < 8 {
        Pick::A(i)
    } else {
        Pick::A((4 + place(imm, (i / 2 - 4) as usize) as u8) * 2 + i % 2)
    }
}

fn up_pick(imm: u16, i: u8) -> Pick
    requires { i < 16 }
    ensures { result ≡ up_pick imm i }
{
    let byte = i as u16;
    if imm <= byte {
        Pick::A((byte - imm) as u8)
    } else {
        Pick::Zero
    }
}

fn down_pick(imm: u16, i: u8) -> Pick
    requires { i < 16 }
    ensures { result ≡ down_pick imm i }
{
    let byte = i as u32 + imm as u32;
    if byte < 16 {
        Pick::A(byte as u8)
    } else {
        Pick::Zero
    }
}

fn align_pick(imm: u16, i: u8) -> Pick
    requires { i < 16 }
    ensures { result ≡ align_pick imm i }
{
    let byte = i as u32 + imm as u32;
    if byte < 16 {
        Pick::B(byte as u8)
    } else if byte < 32 {
        Pick::A((byte - 16) as u8)
    } else {
        Pick::Zero
    }
}

fn qword_pick(imm: u16, half: u8, i: u8) -> Pick
    requires half { half ≤ 1 }
    requires byte { i < 16 }
    ensures { result ≡ qword_pick imm half i }
{
    let q = place(imm, (2 * half + i / 8) as usize) as u8;
    if q < 2 {
        Pick::A(q * 8 + i % 8)
    } else {
        Pick::B((q - 2) * 8 + i % 8)
    }
}

fn one_pick(op: One, i: u8) -> Option<Pick>
    ensures { result ≡ one_pick op i }
{
    match op {
        One::MoveLow => Some(low_pick(i)),
        _ => None,
    }
}

fn unpack_low_pick(width: Width, i: u8) -> Pick
    requires { i < 16 }
    ensures { result ≡ interleave_pick 0 (bytes_of width) i }
{
    interleave_pick(0, bytes(width) as u8, i)
}

fn unpack_high_pick(width: Width, i: u8) -> Pick
    requires { i < 16 }
    ensures { result ≡ interleave_pick (8 / bytes_of width) (bytes_of width) i }
{
    let w = bytes(width) as u8;
    interleave_pick(8 / w, w, i)
}

fn two_pick(op: Two, i: u8) -> Option<Pick>
    requires { i < 16 }
    ensures { result ≡ two_pick op i }
{
    match op {
        Two::UnpackLow(width) => Some(unpack_low_pick(width, i)),
        Two::UnpackHigh(width) => Some(unpack_high_pick(width, i)),
        _ => None,
    }
}

fn one_imm_pick(op: OneImm, imm: u16, i: u8) -> Option<Pick>
    requires { i < 16 }
    ensures { result ≡ one_imm_pick op imm i }
{
    match op {
        OneImm::ShuffleDwords => Some(dword_pick(imm, i)),
        OneImm::ShuffleLow => Some(low_word_pick(imm, i)),
        OneImm::ShuffleHigh => Some(high_word_pick(imm, i)),
        OneImm::BytesUp => Some(up_pick(imm, i)),
        OneImm::BytesDown => Some(down_pick(imm, i)),
        _ => None,
    }
}

fn two_imm_pick(op: TwoImm, imm: u16, i: u8) -> Option<Pick>
    requires { i < 16 }
    ensures { result ≡ two_imm_pick op imm i }
{
    match op {
        TwoImm::AlignRight => Some(align_pick(imm, i)),
        _ => None,
    }
}

fn broadcast_pick(width: Width, i: u8) -> Pick
    ensures { result ≡ broadcast_pick (bytes_of width) i }
{
    Pick::A(i % bytes(width) as u8)
}

fn across_pick(row: Across, imm: u16, half: u8, i: u8) -> Option<Pick>
    requires half { half ≤ 1 }
    requires byte { i < 16 }
    ensures { result ≡ across_pick row imm half i }
{
    match row {
        Across::PermuteQwords => Some(qword_pick(imm, half, i)),
        _ => None,
    }
}

/// Byte `i` of a block of the row's result; none where the row is no shuffle.
fn pick_of(form: Form, imm: u16, half: u8, i: u8) -> Option<Pick>
    requires half { half ≤ 1 }
    requires byte { i < 16 }
    ensures { result ≡ pick_of form imm half i }
{
    match form {
        Form::One(_, op) => one_pick(op, i),
        Form::Two(_, op) => two_pick(op, i),
        Form::OneImm(_, op) => one_imm_pick(op, imm, i),
        Form::TwoImm(_, op) => two_imm_pick(op, imm, i),
        Form::Broadcast(_, width) => Some(broadcast_pick(width, i)),
        Form::Across(row) => across_pick(row, imm, half, i),
        _ => None,
    }
}

/// Whether the row of the form is a shuffle: each byte of its result is a byte of its operands or zero, whatever they hold, and no mask or lane of an operand chooses it.
pub fn is_shuffle(form: Form) -> bool
    ensures { result ≡ is_shuffle form }
{
    pick_of(form, 0, 0, 0).is_some()
}

fn picked_at(form: Form, imm: u16, half: u8, i: u8) -> Pick
    requires half { half ≤ 1 }
    requires byte { i < 16 }
    ensures { result ≡ picked_at form imm half i }
{
    pick_of(form, imm, half, i).unwrap_or(Pick::Zero)
}

/// The bytes of a block of the row's result.
pub fn picked(form: Form, imm: u16, half: u8) -> [Pick; 16]
    requires { half ≤ 1 }
    ensures { result ≡ picks (picked_at form imm half) }
{
    let pick = |i: u8| picked_at(form, imm, half, i);
    [
        pick(0),
        pick(1),
        pick(2),
        pick(3),
        pick(4),
        pick(5),
        pick(6),
        pick(7),
        pick(8),
        pick(9),
        pick(10),
        pick(11),
        pick(12),
        pick(13),
        pick(14),
        pick(15),
    ]
}

/// Which bytes of its operands a shuffle row takes with this immediate, for each of the 16 bytes of a block of its result: the low block of 32 bytes is
/// `half` 0. None where the row is no shuffle. The operands are the same blocks of the row's registers; `_mm256_permute4x64_epi64` has the low and the
/// high block of its one register.
pub fn selection(op: IntelOp, imm: u16, half: u8) -> Option<[Pick; 16]>
    requires { half ≤ 1 }
    ensures { result ≡ selection_of (form_of op) imm half }
{
    let form = form(op);
    if !is_shuffle(form) {
        return None;
    }
    Some(picked(form, imm, half))
}

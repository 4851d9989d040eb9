//! Rows that touch memory.

ghost use Rattle.std.specs.Prelude.{◌≡◌, ◌<◌, ◌^◌, ◌/◌, nat_lt, if◌then◌else◌, pos, ◌*ℤ◌, false};
ghost use Rattle.lane_core.specs.Register.{IsWidth, IsSize, lane, signed};
ghost use Rattle.intel_forms.specs.declared.memory.Memory.TheVariants.{Gather, MaskGather};
ghost use Rattle.intel_forms.specs.Memory.{element_of, index_of, gathered_size, index_size, gathered_lanes, pointer, memory_signature, memory_range, memory_accesses, whole_access, alignment_of, is_chosen, is_on, masked_access, lane_access, gathered_lane, gather_access, masked_gather_access, merged_lane, access_within, memory_access, merged, low_lanes, moved_value, load_low_value, mask_load_value, mask_store_value, gather_value, mask_gather_value, memory_value};

use crate::sizes::{self, Size, lane_type, register, vector_type};
use intel_lanes::blocks::move_low;
use intel_lanes::lanes::{self, Width};
use lane_core::table::{Access, Arg, ImmRange, ParamKind, Sig};
use lane_core::vector::Pointee;
use lane_core::widths::{filled, lane_at, signed, size};

/// What a gather takes, and by which indices.
#[derive(Clone, Copy, Debug, PartialEq, Eq)]
pub enum Indexing {
    DwordsByDwords,
    DwordsByQwords,
    QwordsByDwords,
    QwordsByQwords,
}

/// A form of rows that touch memory. `V` is `__m128i` or `__m256i`.
#[derive(Clone, Copy, Debug, PartialEq, Eq)]
pub enum Memory {
    /// `V f(V const *p)`, aligned where the truth value is true.
    Load(Size, bool),
    /// `void f(V *p, V a)`, aligned where the truth value is true.
    Store(Size, bool),
    /// `__m128i f(__m128i const *p)`: eight bytes, then zeros.
    LoadLow,
    /// `void f(__m128i *p, __m128i a)`: the low eight bytes.
    StoreLow,
    /// `V f(integer const *p, V mask)`.
    MaskLoad(Size, Width),
    /// `void f(integer *p, V mask, V a)`.
    MaskStore(Size, Width),
    /// `V f(integer const *base, V index, imm)`; where dwords and qwords meet, one of the registers may have half the size.
    Gather(Size, Indexing),
    /// `V f(V src, integer const *base, V index, V mask, imm)`.
    MaskGather(Size, Indexing),
}

fn element_of(indexing: Indexing) -> Width
    ensures { result ≡ element_of indexing }
{
    match indexing {
        Indexing::DwordsByDwords | Indexing::DwordsByQwords => Width::Dword,
        Indexing::QwordsByDwords | Indexing::QwordsByQwords => Width::Qword,
    }
}

fn index_of(indexing: Indexing) -> Width
    ensures { result ≡ index_of indexing }
{
    match indexing {
        Indexing::DwordsByDwords | Indexing::QwordsByDwords => Width::Dword,
        Indexing::DwordsByQwords | Indexing::QwordsByQwords => Width::Qword,
    }
}

fn gathered_size(size: Size, indexing: Indexing) -> Size
    ensures { result ≡ gathered_size size indexing }
{
    match (size, indexing) {
        (Size::Ymm, Indexing::DwordsByQwords) => Size::Xmm,
        _ => size,
    }
}

fn index_size(size: Size, indexing: Indexing) -> Size
    ensures { result ≡ index_size size indexing }
{
    match (size, indexing) {
        (Size::Ymm, Indexing::QwordsByDwords) => Size::Xmm,
        _ => size,
    }
}

fn gathered_lanes(size: Size, indexing: Indexing) -> usize
    ensures { result ≡ gathered_lanes size indexing }
{
    match indexing {
        Indexing::DwordsByDwords => sizes::bytes(size) / 4,
        _ => sizes::bytes(size) / 8,
    }
}

/// A pointer to the integer of a lane.
fn pointer(width: Width, constant: bool) -> ParamKind
    ensures { result ≡ pointer width constant }
{
    ParamKind::PointerTo(Pointee::Int(lane_type(width)), constant)
}

/// The kinds of the row's parameters and result.
pub fn signature(row: Memory) -> Sig
    ensures { result ≡ memory_signature row }
{
    let xmm = ParamKind::Reg(16);
    match row {
        Memory::Load(size, _) => Sig::new(
            register(size),
            &[ParamKind::PointerTo(vector_type(size), true)],
        ),
        Memory::Store(size, _) => Sig::new(
            ParamKind::Nothing,
            &[
                ParamKind::PointerTo(vector_type(size), false),
                register(size),
            ],
        ),
        Memory::LoadLow => Sig::new(xmm, &[ParamKind::PointerTo(Pointee::M128, true)]),
        Memory::StoreLow => Sig::new(
            ParamKind::Nothing,
            &[ParamKind::PointerTo(Pointee::M128, false), xmm],
        ),
        Memory::MaskLoad(size, width) => Sig::new(
            register(size),
            &[pointer(width, true), register(size)],
        ),
        Memory::MaskStore(size, width) => Sig::new(
            ParamKind::Nothing,
            &[pointer(width, false), register(size), register(size)],
        ),
        Memory::Gather(size, indexing) => gather_signature(size, indexing),
        Memory::MaskGather(size, indexing) => mask_gather_signature(size, indexing),
    }
}

fn gather_signature(size: Size, indexing: Indexing) -> Sig
    ensures { result ≡ memory_signature (Gather size indexing) }
{
    Sig::new(
        register(gathered_size(size, indexing)),
        &[
            pointer(element_of(indexing), true),
            register(index_size(size, indexing)),
            ParamKind::Immediate,
        ],
    )
}

fn mask_gather_signature(size: Size, indexing: Indexing) -> Sig
    ensures { result ≡ memory_signature (MaskGather size indexing) }
{
    let gives = register(gathered_size(size, indexing));
    Sig::new(
        gives,
        &[
            gives,
            pointer(element_of(indexing), true),
            register(index_size(size, indexing)),
            gives,
            ParamKind::Immediate,
        ],
    )
}

/// The values that the row's immediate may have.
pub fn range(row: Memory) -> ImmRange
    ensures { result ≡ memory_range row }
{
    match row {
        Memory::Gather(_, _) | Memory::MaskGather(_, _) => ImmRange::Scale,
        _ => ImmRange::NoImmediate,
    }
}

/// The number of the row's accesses to memory.
pub fn accesses(row: Memory) -> usize
    ensures { result ≡ memory_accesses row }
{
    match row {
        Memory::Load(_, _) | Memory::Store(_, _) | Memory::LoadLow | Memory::StoreLow => 1,
        Memory::MaskLoad(size, width) | Memory::MaskStore(size, width) => {
            sizes::bytes(size) / lanes::bytes(width)
        }
        Memory::Gather(size, indexing) | Memory::MaskGather(size, indexing) => gathered_lanes(
            size, indexing,
        ),
    }
}

/// The one access of a row that touches `n` bytes at its pointer.
fn whole_access(n: usize, align: usize, write: bool) -> Access
    ensures { result ≡ whole_access n align write }
{
    Access {
        offset: 0,
        size: n,
        align,
        write,
        at: 0,
    }
}

fn alignment(size: Size, aligned: bool) -> usize
    ensures { result ≡ alignment_of size aligned }
{
    if aligned { sizes::bytes(size) } else { 1 }
}

/// Whether the top bit of a mask's lane is 1.
fn is_chosen<const N: usize>(w: usize, mask: &[u8; N], k: usize) -> bool
    requires width { IsWidth w }
    requires inside { k < N / w }
    ensures { result ≡ is_chosen w mask.now k }
{
    lane_at(w, mask, k) > (size(w) / 2 - 1) as u64
}

/// Whether a mask among the arguments chooses lane `k`.
fn is_on(w: usize, mask: &Arg, k: usize) -> bool
    requires { IsWidth w }
    ensures { result ≡ is_on w mask.now k }
{
    match mask {
        Arg::R16(mask) => k < 16 / w && is_chosen(w, mask, k),
        Arg::R32(mask) => k < 32 / w && is_chosen(w, mask, k),
        _ => false,
    }
}

/// Lane `k` at `k` lanes from the pointer, where the mask chooses it.
fn masked_access(w: usize, write: bool, args: &[Arg], k: usize) -> Option<Access>
    requires width { IsWidth w }
    requires place { k < 33 }
    ensures { result ≡ masked_access w write args.now k }
{
    match args {
        [Arg::Nothing, mask, ..] => {
            if is_on(w, mask, k) {
                Some(Access {
                    offset: (k * w) as i128,
                    size: w,
                    align: 1,
                    write,
                    at: k * w,
                })
            } else {
                None
            }
        }
        _ => None,
    }
}

/// A signed lane times a scale.
fn scaled(i: usize, x: u64, scale: u16) -> i128
    requires width { IsWidth i }
    requires fits { x < 256 ^ i }
    ensures { result ≡ signed i x *ℤ pos scale }
{
    signed(i, x) * scale as i128
}

/// Lane `k` of width `w` at that offset.
fn lane_access(w: usize, offset: i128, k: usize) -> Access
    requires width { IsWidth w }
    requires place { k < 33 }
    ensures { result ≡ lane_access w offset false k }
{
    Access {
        offset,
        size: w,
        align: 1,
        write: false,
        at: k * w,
    }
}

/// Lane `k` of width `w`, by index `k` of width `i` times the scale.
fn gathered_lane(w: usize, i: usize, index: &Arg, scale: u16, k: usize) -> Option<Access>
    requires width { IsWidth w }
    requires index_width { IsWidth i }
    requires place { k < 33 }
    ensures { result ≡ gathered_lane w i index.now scale k }
{
    match index {
        Arg::R16(index) => if k < 16 / i {
            Some(lane_access(w, scaled(i, lane_at(i, index, k), scale), k))
        } else {
            None
        },
        Arg::R32(index) => if k < 32 / i {
            Some(lane_access(w, scaled(i, lane_at(i, index, k), scale), k))
        } else {
            None
        },
        _ => None,
    }
}

fn gather_access(w: usize, i: usize, args: &[Arg], scale: u16, k: usize) -> Option<Access>
    requires width { IsWidth w }
    requires index_width { IsWidth i }
    requires place { k < 33 }
    ensures { result ≡ gather_access w i args.now scale k }
{
    match args {
        [Arg::Nothing, index, ..] => gathered_lane(w, i, index, scale, k),
        _ => None,
    }
}

fn masked_gather_access(w: usize, i: usize, args: &[Arg], scale: u16, k: usize) -> Option<Access>
    requires width { IsWidth w }
    requires index_width { IsWidth i }
    requires place { k < 33 }
    ensures { result ≡ masked_gather_access w i args.now scale k }
{
    match args {
        [_, Arg::Nothing, index, mask, ..] => {
            if is_on(w, mask, k) {
                gathered_lane(w, i, index, scale, k)
            } else {
                None
            }
        }
        _ => None,
    }
}

/// Access `k` of a row that has more than `k`.
fn access_within(row: Memory, args: &[Arg], imm: u16, k: usize) -> Option<Access>
    requires { k < 33 }
    ensures { result ≡ access_within row args.now imm k }
{
    match row {
        Memory::Load(size, aligned) => Some(whole_access(
            sizes::bytes(size),
            alignment(size, aligned),
            false,
        )),
        Memory::Store(size, aligned) => Some(whole_access(
            sizes::bytes(size),
            alignment(size, aligned),
            true,
        )),
        Memory::LoadLow => Some(whole_access(8, 1, false)),
        Memory::StoreLow => Some(whole_access(8, 1, true)),
        Memory::MaskLoad(_, width) => masked_access(lanes::bytes(width), false, args, k),
        Memory::MaskStore(_, width) => masked_access(lanes::bytes(width), true, args, k),
        Memory::Gather(_, indexing) => gather_access(
            lanes::bytes(element_of(indexing)),
            lanes::bytes(index_of(indexing)),
            args,
            imm,
            k,
        ),
        Memory::MaskGather(_, indexing) => masked_gather_access(
            lanes::bytes(element_of(indexing)),
            lanes::bytes(index_of(indexing)),
            args,
            imm,
            k,
        ),
    }
}

/// Access `k` of the row, or None where the mask among `args` keeps it away, or where `k` isn't below `accesses`.
pub fn access(row: Memory, args: &[Arg], imm: u16, k: usize) -> Option<Access>
    ensures { result ≡ memory_access row args.now imm k }
{
    if k < accesses(row) {
        access_within(row, args, imm, k)
    } else {
        None
    }
}

/// A lane read where the mask chooses it, else that of `src`; 0 from `lanes` on.
fn merged_lane<const N: usize>(
    w: usize,
    lanes: usize,
    mask: &[u8; N],
    read: &[u8; N],
    src: &[u8; N],
    k: usize,
) -> u64
    requires width { IsWidth w }
    requires inside { k < N / w }
    ensures { result ≡ merged_lane w lanes mask.now read.now src.now k }
{
    if k >= lanes {
        0
    } else if is_chosen(w, mask, k) {
        lane_at(w, read, k)
    } else {
        lane_at(w, src, k)
    }
}

/// All such lanes.
#[tactic(auto, unfolding(crate::specs::Memory::merged))]
fn merged<const N: usize>(
    w: usize,
    lanes: usize,
    mask: &[u8; N],
    read: &[u8; N],
    src: &[u8; N],
) -> [u8; N]
    requires width { IsWidth w }
    requires size { IsSize N }
    ensures { result ≡ merged w N lanes mask.now read.now src.now }
{
    filled(
        w,
        &|k: usize| -> u64
            requires width { IsWidth w }
            requires inside { k < N / w }
            ensures { result ≡ merged_lane w lanes mask.entry.now read.entry.now src.entry.now k }
        { merged_lane(w, lanes, mask, read, src, k) },
    )
}

/// So many lanes, and zeros above.
#[tactic(auto, unfolding(crate::specs::Memory::low_lanes))]
fn low_lanes<const N: usize>(w: usize, lanes: usize, read: &[u8; N]) -> [u8; N]
    requires width { IsWidth w }
    requires size { IsSize N }
    ensures { result ≡ low_lanes w N lanes read.now }
{
    filled(
        w,
        &|k: usize| -> u64
            requires width { IsWidth w }
            requires inside { k < N / w }
            ensures { result ≡ (if nat_lt k lanes then lane w read.entry.now k else 0) }
        { if k < lanes { lane_at(w, read, k) } else { 0 } },
    )
}

fn moved_value(size: Size, args: &[Arg]) -> Arg
    ensures { result ≡ moved_value size args.now }
{
    match (size, args) {
        (Size::Xmm, [Arg::Nothing, Arg::R16(r)]) => Arg::R16(*r),
        (Size::Ymm, [Arg::Nothing, Arg::R32(r)]) => Arg::R32(*r),
        _ => Arg::Nothing,
    }
}

fn load_low_value(args: &[Arg]) -> Arg
    ensures { result ≡ load_low_value args.now }
{
    match args {
        [Arg::Nothing, Arg::R16(read)] => Arg::R16(move_low(read)),
        _ => Arg::Nothing,
    }
}

fn mask_load_value(size: Size, w: usize, args: &[Arg]) -> Arg
    requires { IsWidth w }
    ensures { result ≡ mask_load_value size w args.now }
{
    match (size, args) {
        (Size::Xmm, [Arg::Nothing, Arg::R16(mask), Arg::R16(read)]) => Arg::R16(merged(
            w,
            16 / w,
            mask,
            read,
            &[0u8; 16],
        )),
        (Size::Ymm, [Arg::Nothing, Arg::R32(mask), Arg::R32(read)]) => Arg::R32(merged(
            w,
            32 / w,
            mask,
            read,
            &[0u8; 32],
        )),
        _ => Arg::Nothing,
    }
}

fn mask_store_value(size: Size, args: &[Arg]) -> Arg
    ensures { result ≡ mask_store_value size args.now }
{
    match (size, args) {
        (Size::Xmm, [Arg::Nothing, _, Arg::R16(a)]) => Arg::R16(*a),
        (Size::Ymm, [Arg::Nothing, _, Arg::R32(a)]) => Arg::R32(*a),
        _ => Arg::Nothing,
    }
}

fn gather_value(size: Size, w: usize, lanes: usize, args: &[Arg]) -> Arg
    requires { IsWidth w }
    ensures { result ≡ gather_value size w lanes args.now }
{
    match (size, args) {
        (Size::Xmm, [Arg::Nothing, _, Arg::Nothing, Arg::R16(read)]) => {
            Arg::R16(low_lanes(w, lanes, read))
        }
        (Size::Ymm, [Arg::Nothing, _, Arg::Nothing, Arg::R32(read)]) => {
            Arg::R32(low_lanes(w, lanes, read))
        }
        _ => Arg::Nothing,
    }
}

fn mask_gather_value(size: Size, w: usize, lanes: usize, args: &[Arg]) -> Arg
    requires { IsWidth w }
    ensures { result ≡ mask_gather_value size w lanes args.now }
{
    match (size, args) {
        (
            Size::Xmm,
            [
                Arg::R16(src),
                Arg::Nothing,
                _,
                Arg::R16(mask),
                Arg::Nothing,
                Arg::R16(read),
            ],
        ) => Arg::R16(merged(w, lanes, mask, read, src)),
        (
            Size::Ymm,
            [
                Arg::R32(src),
                Arg::Nothing,
                _,
                Arg::R32(mask),
                Arg::Nothing,
                Arg::R32(read),
            ],
        ) => Arg::R32(merged(w, lanes, mask, read, src)),
        _ => Arg::Nothing,
    }
}

/// The row's value; of a storing row the register from which it stores.
pub fn value(row: Memory, args: &[Arg]) -> Arg
    ensures { result ≡ memory_value row args.now }
{
    match row {
        Memory::Load(size, _) | Memory::Store(size, _) => moved_value(size, args),
        Memory::LoadLow => load_low_value(args),
        Memory::StoreLow => moved_value(Size::Xmm, args),
        Memory::MaskLoad(size, width) => mask_load_value(size, lanes::bytes(width), args),
        Memory::MaskStore(size, _) => mask_store_value(size, args),
        Memory::Gather(size, indexing) => gather_value(
            gathered_size(size, indexing),
            lanes::bytes(element_of(indexing)),
            gathered_lanes(size, indexing),
            args,
        ),
        Memory::MaskGather(size, indexing) => mask_gather_value(
            gathered_size(size, indexing),
            lanes::bytes(element_of(indexing)),
            gathered_lanes(size, indexing),
            args,
        ),
    }
}

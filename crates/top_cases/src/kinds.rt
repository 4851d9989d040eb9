//! Sequences of each kind of terms, printed as functions and run in the Neon dialect.

ghost use Rattle.std.specs.Prelude.{◌≡◌, IfOk, [], ◌∷◌, Some};
ghost use Rattle.lane_core.specs.declared.number.IntType.TheVariants as int;
ghost use Rattle.lane_core.specs.declared.number.BinOp.TheVariants.{Add};
ghost use Rattle.seq_core.specs.Terms.{Param, Int, Scalar, Convert, Choice, Shifted, ByteAt, SetByte};
ghost use Rattle.seq_core.specs.View.{view, view_seq};
ghost use Rattle.seq_core.specs.Formed.{WellFormed, vector};
ghost use Rattle.top_cases.specs.Known.{added, sums, halves, stored, three, bytes};

use crate::rows::printed;
use c_print::print;
use c_tree::{CType, Item, Pointee, Unit};
use lane_core::number::{BinOp, IntType, Num};
use lane_core::vector::NeonLane;
use neon_lane::LaneOp;
use neon_lane::arithmetic::Arithmetic;
use neon_move::MoveOp;
use neon_move::bytes::Bytes;
use seq_core::build::{
    byte_at, call_two, choice, convert, half, pair_of, scalar, set_byte, shifted,
};
use seq_core::{Seq, Term, function};
use std::alloc::{AllocError, Global};
use std::process::Abort;
use std::test::Fail;

const VECTOR: CType = CType::Neon(NeonLane::U8, true);

fn added(alloc: Global, x: Term, y: Term) -> Result<Term, AllocError>
    ensures { IfOk result (λ t. view t ≡ added (view x) (view y)) }
{
    let row = neon_table::computing(LaneOp::Arithmetic(Arithmetic::VaddqU8));
    call_two(alloc, row, x, y, 0)
}

fn over_two(alloc: Global, step: Term, value: Term) -> Result<Seq, AllocError>
    ensures { IfOk result (λ s. view_seq s ≡ record { params = vector ∷ vector ∷ []; steps = view step ∷ []; result = Some (view value) }) }
{
    let mut params = Vec::new(alloc);
    params.push(VECTOR)?;
    params.push(VECTOR)?;
    let mut steps = Vec::new(alloc);
    steps.push(step)?;
    Ok(Seq {
        params,
        steps,
        result: Some(value),
    })
}

fn sums(alloc: Global) -> Result<Seq, AllocError>
    ensures known { IfOk result (λ s. view_seq s ≡ sums) }
    ensures formed { IfOk result (λ s. WellFormed (view_seq s)) }
{
    let step = added(alloc, Term::Param(0), Term::Param(1))?;
    let sum = added(alloc, Term::Step(0), Term::Const([1; 16]))?;
    over_two(alloc, step, sum)
}

fn halves(alloc: Global) -> Result<Seq, AllocError>
    ensures known { IfOk result (λ s. view_seq s ≡ halves) }
    ensures formed { IfOk result (λ s. WellFormed (view_seq s)) }
{
    let pair = pair_of(alloc, Term::Param(0), Term::Param(1))?;
    let low = half(alloc, Term::Step(0), 0)?;
    let high = half(alloc, Term::Step(0), 1)?;
    let sum = added(alloc, low, high)?;
    over_two(alloc, pair, sum)
}

fn number(n: Num) -> Term
    ensures { view result ≡ Int n }
{
    Term::Int(n)
}

fn three() -> Term
    ensures { view result ≡ three }
{
    number(Num {
        ty: IntType::Int,
        value: 3,
    })
}

// The byte three bytes on, set where a number isn't 0.
fn byte_set(alloc: Global) -> Result<Term, AllocError>
    ensures { IfOk result (λ t. view t ≡ Choice (Param 3) (Convert int.Int (SetByte (Shifted (Param 0) three) (Param 2))) three) }
{
    let place = shifted(alloc, Term::Param(0), three())?;
    let byte = set_byte(alloc, place, Term::Param(2))?;
    let byte = convert(alloc, IntType::Int, byte)?;
    choice(alloc, Term::Param(3), byte, three())
}

// The byte three bytes on and three.
fn byte_read(alloc: Global) -> Result<Term, AllocError>
    ensures { IfOk result (λ t. view t ≡ Scalar Add (Convert int.Int (ByteAt (Shifted (Param 0) three))) three) }
{
    let place = shifted(alloc, Term::Param(0), three())?;
    let byte = byte_at(alloc, place)?;
    let byte = convert(alloc, IntType::Int, byte)?;
    scalar(alloc, BinOp::Add, byte, three())
}

fn stored(alloc: Global) -> Result<Seq, AllocError>
    ensures { IfOk result (λ s. WellFormed (view_seq s)) }
{
    made_stored(alloc)
}

fn made_stored(alloc: Global) -> Result<Seq, AllocError>
    ensures { IfOk result (λ s. view_seq s ≡ stored) }
{
    let mut params = Vec::new(alloc);
    params.push(CType::Pointer(Pointee::Int(IntType::UChar), false))?;
    params.push(VECTOR)?;
    params.push(CType::Int(IntType::UChar))?;
    params.push(CType::Int(IntType::Int))?;
    let row = neon_table::moving(MoveOp::Bytes(Bytes::Vst1qU8));
    let mut steps = Vec::new(alloc);
    steps.push(call_two(alloc, row, Term::Param(0), Term::Param(1), 0)?)?;
    steps.push(byte_set(alloc)?)?;
    let result = byte_read(alloc)?;
    Ok(Seq {
        params,
        steps,
        result: Some(result),
    })
}

// A vector 201 times, by 200 calls within one another.
fn deep(alloc: Global) -> Result<Seq, AllocError>
    ensures formed { IfOk result (λ s. WellFormed (view_seq s)) }
{
    let mut sum = Term::Param(0);
    for _ in 0..200 {
        sum = added(alloc, sum, Term::Param(0))?;
    }
    let mut params = Vec::new(alloc);
    params.push(VECTOR)?;
    Ok(Seq {
        params,
        steps: Vec::new(alloc),
        result: Some(sum),
    })
}

// The text of a sequence's function, as the one of a unit.
fn text(alloc: Global, seq: &Seq) -> Result<Vec<u8>, AllocError>
    requires { WellFormed (view_seq seq.now) }
{
    let mut items = Vec::new(alloc);
    items.push(Item::Function(function(alloc, seq, b"f")?))?;
    print(alloc, &Unit { items })
}

const HEADER: &str = "#include <arm_neon.h>\n#include <stddef.h>\n#include <stdint.h>\n\n";

const SUMS: &str = "\
static inline uint8x16_t f(uint8x16_t a0, uint8x16_t a1) {
    uint8x16_t s0 = vaddq_u8(a0, a1);
    return vaddq_u8(s0, vcombine_u8(vcreate_u8(0x0101010101010101UL), vcreate_u8(0x0101010101010101UL)));
}
";

const HALVES: &str = "\
static inline uint8x16_t f(uint8x16_t a0, uint8x16_t a1) {
    uint8x16x2_t s0 = (uint8x16x2_t){{a0, a1}};
    return vaddq_u8(s0.val[0], s0.val[1]);
}
";

const STORED: &str = "\
static inline int f(uint8_t *a0, uint8x16_t a1, uint8_t a2, int a3) {
    vst1q_u8(a0, a1);
    int s1 = a3 ? (int)(*((uint8_t *)a0 + 3) = a2) : 3;
    return (int)*((uint8_t *)a0 + 3) + 3;
}
";

fn is_written(rt: &impl Abort, found: &[u8], wanted: &str) -> Result<(), Fail> {
    let text = found.strip_prefix(HEADER.as_bytes()).ok_or("no header")?;
    assert_eq!(rt; text, wanted.as_bytes());
    Ok(())
}

fn is_run(
    rt: &impl Abort,
    alloc: Global,
    text: &[u8],
    items: &str,
    wanted: &str,
) -> Result<(), Fail> {
    let found = printed(alloc, "neon", text, items)?;
    assert_eq!(rt; found.as_slice(), wanted.as_bytes());
    Ok(())
}

#[test]
fn functions_of_each_kind_of_terms(rt: HostRuntime) -> Result<(), Fail> {
    let alloc = rt.alloc();
    let pair = "vec:fafafafafafafafafafafafafafafafa vec:06060606060606060606060606060606";
    let found = text(alloc, &sums(alloc)?)?;
    is_written(&rt, &found, SUMS)?;
    is_run(
        &rt,
        alloc,
        &found,
        pair,
        "value vec 01010101010101010101010101010101",
    )?;
    let found = text(alloc, &halves(alloc)?)?;
    is_written(&rt, &found, HALVES)?;
    is_run(
        &rt,
        alloc,
        &found,
        pair,
        "value vec 00000000000000000000000000000000",
    )?;
    let found = text(alloc, &stored(alloc)?)?;
    is_written(&rt, &found, STORED)?;
    is_run(
        &rt,
        alloc,
        &found,
        "space:1:16 at:0:0 vec:000102030405060708090a0b0c0d0e0f int:200 int:1",
        "value int 203$block 0 000102c80405060708090a0b0c0d0e0f",
    )?;
    is_run(
        &rt,
        alloc,
        &found,
        "space:1:16 at:0:0 vec:000102030405060708090a0b0c0d0e0f int:200 int:0",
        "value int 6$block 0 000102030405060708090a0b0c0d0e0f",
    )
}

#[test]
fn a_term_of_200_calls_within_one_another(rt: HostRuntime) -> Result<(), Fail> {
    let alloc = rt.alloc();
    let found = text(alloc, &deep(alloc)?)?;
    is_run(
        &rt,
        alloc,
        &found,
        "vec:01010101010101010101010101010101",
        "value vec c9c9c9c9c9c9c9c9c9c9c9c9c9c9c9c9",
    )
}

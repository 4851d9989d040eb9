//! Rows of both tables, each called by a function that is run.

use crate::top_calls::run;
use crate::{arm_rows, intel_rows};
use simd_top::Status;
use std::alloc::Global;
use std::process::Abort;
use std::test::Fail;

// The text of a function, and behind it, on lines with `->`, items and what a run with them prints, `$` for a line end but the last.
// The values are those of a processor, by `gcc -msse2`; accesses are by Intel's Guide.
pub(crate) const INTEL: &str = "\
__m128i f(__m128i a, __m128i b) { return _mm_add_epi8(a, b); }\n\
 vec:0001027f8081feff00ff7f8055aa10c8 vec:00ff0180807fffffff007f81aa55f064 -> value vec 000003ff0000fdfefffffe01ffff002c\n\
 vec:ffff000001807f400309fa1163c9214d vec:ff00ff0102807e410408fbf062ca1fb2 -> value vec feffff010300fd810711f501c59340ff\n\
__m128i f(__m128i a, __m128i b) { return _mm_sub_epi8(a, b); }\n\
 vec:0001027f8081feff00ff7f8055aa10c8 vec:00ff0180807fffffff007f81aa55f064 -> value vec 000201ff0002ff0001ff00ffab552064\n\
 vec:ffff000001807f400309fa1163c9214d vec:ff00ff0102807e410408fbf062ca1fb2 -> value vec 00ff01ffff0001ffff01ff2101ff029b\n\
__m128i f(__m128i a, __m128i b) { return _mm_avg_epu8(a, b); }\n\
 vec:0001027f8081feff00ff7f8055aa10c8 vec:00ff0180807fffffff007f81aa55f064 -> value vec 008002808080ffff80807f8180808096\n\
 vec:ffff000001807f400309fa1163c9214d vec:ff00ff0102807e410408fbf062ca1fb2 -> value vec ff80800102807f410409fb8163ca2080\n\
__m128i f(__m128i a, __m128i b) { return _mm_min_epu8(a, b); }\n\
 vec:0001027f8081feff00ff7f8055aa10c8 vec:00ff0180807fffffff007f81aa55f064 -> value vec 0001017f807ffeff00007f8055551064\n\
 vec:ffff000001807f400309fa1163c9214d vec:ff00ff0102807e410408fbf062ca1fb2 -> value vec ff00000001807e400308fa1162c91f4d\n\
__m128i f(__m128i a, __m128i b) { return _mm_xor_si128(a, b); }\n\
 vec:0001027f8081feff00ff7f8055aa10c8 vec:00ff0180807fffffff007f81aa55f064 -> value vec 00fe03ff00fe0100ffff0001ffffe0ac\n\
 vec:ffff000001807f400309fa1163c9214d vec:ff00ff0102807e410408fbf062ca1fb2 -> value vec 00ffff0103000101070101e101033eff\n\
__m128i f(const __m128i *p) { return _mm_load_si128(p); }\n\
 block:16:ro:0001027f8081feff00ff7f8055aa10c8 at:0:0 -> value vec 0001027f8081feff00ff7f8055aa10c8$block 0 0001027f8081feff00ff7f8055aa10c8\n\
 block:16:ro:000001027f8081feff00ff7f8055aa10c8 at:0:1 -> undefined\n\
__m128i f(const __m128i *p) { return _mm_loadu_si128(p); }\n\
 block:1:ro:0001027f8081feff00ff7f8055aa10c8 at:0:0 -> value vec 0001027f8081feff00ff7f8055aa10c8$block 0 0001027f8081feff00ff7f8055aa10c8\n\
 block:16:ro:000001027f8081feff00ff7f8055aa10c8 at:0:1 -> value vec 0001027f8081feff00ff7f8055aa10c8$block 0 000001027f8081feff00ff7f8055aa10c8\n\
void f(__m128i *p, __m128i a) { _mm_store_si128(p, a); }\n\
 space:16:16 at:0:0 vec:0001027f8081feff00ff7f8055aa10c8 -> value none$block 0 0001027f8081feff00ff7f8055aa10c8\n\
 space:16:17 at:0:1 vec:0001027f8081feff00ff7f8055aa10c8 -> undefined\n\
void f(__m128i *p, __m128i a) { _mm_storeu_si128(p, a); }\n\
 space:1:16 at:0:0 vec:0001027f8081feff00ff7f8055aa10c8 -> value none$block 0 0001027f8081feff00ff7f8055aa10c8\n\
 space:16:17 at:0:1 vec:0001027f8081feff00ff7f8055aa10c8 -> value none$block 0 --0001027f8081feff00ff7f8055aa10c8";

// The same of Arm's rows. The values are arithmetic by the pseudocode of `ADD`, `SUB`, `URHADD`, `UMIN` and `EOR`; accesses are by Arm's reference.
const NEON: &str = "\
uint8x16_t f(uint8x16_t a, uint8x16_t b) { return vaddq_u8(a, b); }\n\
 vec:0001027f8081feff00ff7f8055aa10c8 vec:00ff0180807fffffff007f81aa55f064 -> value vec 000003ff0000fdfefffffe01ffff002c\n\
 vec:ffff000001807f400309fa1163c9214d vec:ff00ff0102807e410408fbf062ca1fb2 -> value vec feffff010300fd810711f501c59340ff\n\
uint8x16_t f(uint8x16_t a, uint8x16_t b) { return vsubq_u8(a, b); }\n\
 vec:0001027f8081feff00ff7f8055aa10c8 vec:00ff0180807fffffff007f81aa55f064 -> value vec 000201ff0002ff0001ff00ffab552064\n\
 vec:ffff000001807f400309fa1163c9214d vec:ff00ff0102807e410408fbf062ca1fb2 -> value vec 00ff01ffff0001ffff01ff2101ff029b\n\
uint8x16_t f(uint8x16_t a, uint8x16_t b) { return vrhaddq_u8(a, b); }\n\
 vec:0001027f8081feff00ff7f8055aa10c8 vec:00ff0180807fffffff007f81aa55f064 -> value vec 008002808080ffff80807f8180808096\n\
 vec:ffff000001807f400309fa1163c9214d vec:ff00ff0102807e410408fbf062ca1fb2 -> value vec ff80800102807f410409fb8163ca2080\n\
uint8x16_t f(uint8x16_t a, uint8x16_t b) { return vminq_u8(a, b); }\n\
 vec:0001027f8081feff00ff7f8055aa10c8 vec:00ff0180807fffffff007f81aa55f064 -> value vec 0001017f807ffeff00007f8055551064\n\
 vec:ffff000001807f400309fa1163c9214d vec:ff00ff0102807e410408fbf062ca1fb2 -> value vec ff00000001807e400308fa1162c91f4d\n\
uint8x16_t f(uint8x16_t a, uint8x16_t b) { return veorq_u8(a, b); }\n\
 vec:0001027f8081feff00ff7f8055aa10c8 vec:00ff0180807fffffff007f81aa55f064 -> value vec 00fe03ff00fe0100ffff0001ffffe0ac\n\
 vec:ffff000001807f400309fa1163c9214d vec:ff00ff0102807e410408fbf062ca1fb2 -> value vec 00ffff0103000101070101e101033eff\n\
uint8x16_t f(const uint8_t *p) { return vld1q_u8(p); }\n\
 block:1:ro:0001027f8081feff00ff7f8055aa10c8 at:0:0 -> value vec 0001027f8081feff00ff7f8055aa10c8$block 0 0001027f8081feff00ff7f8055aa10c8\n\
 block:16:ro:000001027f8081feff00ff7f8055aa10c8 at:0:1 -> value vec 0001027f8081feff00ff7f8055aa10c8$block 0 000001027f8081feff00ff7f8055aa10c8\n\
 block:1:ro:0001027f8081feff00ff7f8055aa10c8 at:0:1 -> undefined\n\
void f(uint8_t *p, uint8x16_t a) { vst1q_u8(p, a); }\n\
 space:1:17 at:0:1 vec:0001027f8081feff00ff7f8055aa10c8 -> value none$block 0 --0001027f8081feff00ff7f8055aa10c8\n\
 block:1:ro:0001027f8081feff00ff7f8055aa10c8 at:0:0 vec:0001027f8081feff00ff7f8055aa10c8 -> undefined";

// What a run prints, without its last line end and with `$` for the others.
pub(crate) fn printed(
    alloc: Global,
    dialect: &str,
    text: &[u8],
    items: &str,
) -> Result<Vec<u8>, Fail> {
    let mut words = Vec::new(alloc);
    words.extend_from_slice(&["run", dialect, "f", "0"])?;
    for item in items.split(' ') {
        if !item.is_empty() {
            words.push(item)?;
        }
    }
    let ended = run(alloc, &words, text, &[], &[])?;
    if ended.status == Status::Refused {
        return Ok(ended.report);
    }
    let mut out = Vec::new(alloc);
    for byte in ended.out.as_slice().strip_suffix(b"\n").ok_or("no line")? {
        out.push(if *byte == b'\n' { b'$' } else { *byte })?;
    }
    Ok(out)
}

// Runs each line with an outcome; gives how many there are.
fn rows_are_called(
    rt: &impl Abort,
    alloc: Global,
    dialect: &str,
    table: &str,
) -> Result<usize, Fail> {
    let mut text = b"".as_slice();
    let mut count = 0usize;
    for line in table.split('\n') {
        match line.split_once("-> ") {
            None => text = line.as_bytes(),
            Some((items, wanted)) => {
                let found = printed(alloc, dialect, text, items)?;
                assert_eq!(rt; found.as_slice(), wanted.as_bytes(), "{line}");
                count = count.saturating_add(1);
            }
        }
    }
    Ok(count)
}

#[test]
fn rows_of_intel_have_the_listed_values(rt: HostRuntime) -> Result<(), Fail> {
    let count = rows_are_called(&rt, rt.alloc(), "x86", INTEL)?;
    assert_eq!(rt; count, 18);
    Ok(())
}

#[test]
fn rows_of_arm_have_the_listed_values(rt: HostRuntime) -> Result<(), Fail> {
    let count = rows_are_called(&rt, rt.alloc(), "neon", NEON)?;
    assert_eq!(rt; count, 15);
    Ok(())
}

// Runs all lines of the parts, of which there are so many.
fn parts_are_called(
    rt: &impl Abort,
    alloc: Global,
    dialect: &str,
    parts: &[&str],
    wanted: usize,
) -> Result<(), Fail> {
    let mut count = 0usize;
    for part in parts {
        count = count.saturating_add(rows_are_called(rt, alloc, dialect, part)?);
    }
    assert_eq!(rt; count, wanted);
    Ok(())
}

// What a processor gives.
#[test]
fn every_row_of_intel_0(rt: HostRuntime) -> Result<(), Fail> {
    let parts = [intel_rows::PART_0, intel_rows::PART_1, intel_rows::PART_2];
    parts_are_called(&rt, rt.alloc(), "x86", &parts, 205)
}

#[test]
fn every_row_of_intel_1(rt: HostRuntime) -> Result<(), Fail> {
    let parts = [intel_rows::PART_3, intel_rows::PART_4, intel_rows::PART_5];
    parts_are_called(&rt, rt.alloc(), "x86", &parts, 143)
}

#[test]
fn every_row_of_intel_2(rt: HostRuntime) -> Result<(), Fail> {
    let parts = [intel_rows::PART_6, intel_rows::PART_7, intel_rows::PART_8];
    parts_are_called(&rt, rt.alloc(), "x86", &parts, 230)
}

#[test]
fn every_row_of_intel_3(rt: HostRuntime) -> Result<(), Fail> {
    let parts = [intel_rows::PART_9, intel_rows::PART_10, intel_rows::PART_11];
    parts_are_called(&rt, rt.alloc(), "x86", &parts, 231)
}

#[test]
fn every_row_of_intel_4(rt: HostRuntime) -> Result<(), Fail> {
    let parts = [intel_rows::PART_12];
    parts_are_called(&rt, rt.alloc(), "x86", &parts, 34)
}

// What the compiler's `arm_neon.h` gives.
#[test]
fn every_row_of_arm_0(rt: HostRuntime) -> Result<(), Fail> {
    let parts = [arm_rows::PART_0, arm_rows::PART_1, arm_rows::PART_2];
    parts_are_called(&rt, rt.alloc(), "neon", &parts, 352)
}

#[test]
fn every_row_of_arm_1(rt: HostRuntime) -> Result<(), Fail> {
    let parts = [arm_rows::PART_3, arm_rows::PART_4, arm_rows::PART_5];
    parts_are_called(&rt, rt.alloc(), "neon", &parts, 414)
}

#[test]
fn every_row_of_arm_2(rt: HostRuntime) -> Result<(), Fail> {
    let parts = [arm_rows::PART_6, arm_rows::PART_7, arm_rows::PART_8];
    parts_are_called(&rt, rt.alloc(), "neon", &parts, 272)
}

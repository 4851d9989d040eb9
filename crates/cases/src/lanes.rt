//! Each lane kernel on registers whose answers are counted by hand.

use lane_core::{lane, map1, map2, pairwise, put, reduce, resize, select};

/// Bytes 0x10, 0x21, 0x32 and so on to 0xf0 + 0x0f.
const STEPS: [u8; 16] = [
    16, 33, 50, 67, 84, 101, 118, 135, 152, 169, 186, 203, 220, 237, 254, 15,
];

#[test]
fn reads_and_puts_lanes(rt: HostRuntime) {
    assert_eq!(rt; lane::<1, 16>(&STEPS, 15), 0x0f);
    assert_eq!(rt; lane::<2, 16>(&STEPS, 1), 0x4332);
    assert_eq!(rt; lane::<4, 16>(&STEPS, 3), 0x0ffe_eddc);
    assert_eq!(rt; lane::<8, 16>(&STEPS, 0), 0x8776_6554_4332_2110);
    let out = put::<2, 8>(&[1, 2, 3, 4, 5, 6, 7, 8], 1, 0xabcd_ef09);
    assert_eq!(rt; out, [1, 2, 9, 239, 5, 6, 7, 8]);
}

#[test]
fn maps_lanes(rt: HostRuntime) {
    let ones = [255u8; 32];
    let out = map1::<8, 32, _>(&ones, &|x: u64| x.wrapping_add(2));
    assert_eq!(rt; lane::<8, 32>(&out, 3), 1);
    let out = map2::<2, 16, _>(&STEPS, &STEPS, &|x: u64, y: u64| x.wrapping_add(y));
    assert_eq!(rt; lane::<2, 16>(&out, 0), 0x4220);
    assert_eq!(rt; lane::<2, 16>(&out, 7), 0x1ffc);
    let out: [u8; 16] = resize::<1, 2, 8, 16, _>(&[1, 2, 3, 128, 5, 6, 7, 255], &|x: u64| x ^ 256);
    assert_eq!(rt; out, [1, 1, 2, 1, 3, 1, 128, 1, 5, 1, 6, 1, 7, 1, 255, 1]);
    let out: [u8; 8] = resize::<4, 2, 16, 8, _>(&STEPS, &|x: u64| x);
    assert_eq!(rt; out, [16, 33, 84, 101, 152, 169, 220, 237]);
}

#[test]
fn moves_and_gathers_lanes(rt: HostRuntime) {
    let out: [u8; 8] = select::<16, 8, _>(
        &STEPS,
        &|i: usize| if i < 4 { Some(15 - i) } else { None },
    );
    assert_eq!(rt; out, [15, 254, 237, 220, 0, 0, 0, 0]);
    let a = [1u8, 0, 2, 0, 3, 0, 4, 0];
    let b = [5u8, 0, 6, 0, 7, 0, 8, 0];
    let out = pairwise::<2, 8, _>(&a, &b, &|x: u64, y: u64| x.wrapping_sub(y.wrapping_mul(3)));
    assert_eq!(rt; out, [251, 255, 247, 255, 243, 255, 239, 255]);
    let sum = reduce::<2, 8, _>(
        &a,
        1 << 20,
        &|s: u64, x: u64| s.wrapping_mul(2).wrapping_add(x),
    );
    assert_eq!(rt; sum, (16 << 20) + 8 + 8 + 6 + 4);
}

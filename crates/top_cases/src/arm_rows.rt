//! Every row of Arm's table called, with what the real `arm_neon.h` gives under `qemu-aarch64`: `bench/neon_rows.py` writes these lines.
//!
//! The text of a function, and behind it, on lines with `->`, items and what a run with them prints, `$` for a line end but the last.

pub const PART_0: &str = "\
uint16x8_t f(uint8x16_t p0, uint8x16_t p1) { return vabdl_high_u8(p0, p1); }\n\
 vec:0101fdff0100ff0180fe000080007180 vec:8070000181fe8081ff11ff7ffe2c7ffe -> value vec 7f00ed00ff007f007e002c000e007e00\n\
 vec:0000ff7f0080feb4007fff1c80d3ff00 vec:a9807f810100008001fe017f7f81fefe -> value vec 01007f00fe006300010052000100fe00\n\
 vec:00ffff8181ff80ff00528080ffff8180 vec:810181ff7f006f008001ff63ff97fe81 -> value vec 800051007f001d00000068007d000100\n\
 vec:7ffefe8001fe80007f7f8181fe01807f vec:feffff7f010101fe01810000010180ff -> value vec 7e00020081008100fd00000000008000\n\
 vec:017f7fff818101fe0081a3fe01fe0180 vec:fe7f81800101018081fefe80018000ff -> value vec 81007d005b007e0000007e0001007f00\n\
 vec:810100fefc01017f7f8181800080817f vec:8001ff8000fe810000fe7f81ff7f8000 -> value vec 7f007d0002000100ff00010001007f00\n\
uint16x8_t f(uint8x8_t p0, uint8x8_t p1) { return vabdl_u8(p0, p1); }\n\
 vec:fe80fefdff8100fe vec:8081fe54017f8180 -> value vec 7e0001000000a900fe00020081007e00\n\
 vec:1afe7f0101010180 vec:ff7fa64001ff8180 -> value vec e5007f0027003f000000fe0080000000\n\
 vec:006100817f7f8181 vec:7fb601ff8100007f -> value vec 7f00550001007e0002007f0081000200\n\
 vec:fefffe01e281fe01 vec:ff0080ff7f8000ff -> value vec 0100ff007e00fe0063000100fe00fe00\n\
 vec:fe2281ffff7f0081 vec:814d845681fffe22 -> value vec 7d002b000300a9007e008000fe005f00\n\
 vec:7f018180808101bc vec:7f8180ff58fe8100 -> value vec 0000800001007f0028007d008000bc00\n\
uint16x8_t f(uint16x8_t p0, uint16x8_t p1) { return vabdq_u16(p0, p1); }\n\
 vec:feff00800080ff7fff7f2286ff7fb446 vec:01800080008001000080feff01000000 -> value vec fd7f00000000fe7f0100dc79fe7fb446\n\
 vec:0000000029fd0180ff7f0080008073fd vec:ff7f008039910080018005a900800000 -> value vec ff7f0080f06b010002000529000073fd\n\
 vec:0000feff0180ffffff7f0000ff7fffff vec:ff7fb628000000000000010001000000 -> value vec ff7f48d70180ffffff7f0100fe7fffff\n\
 vec:ff7f0080ffff018000800000feff0000 vec:ffffffff0180018001000000ffff0000 -> value vec 0080ff7ffe7f0000ff7f000001000000\n\
 vec:b42e010000000000ff7f56ca01800180 vec:010000000000feff0180010001000080 -> value vec b32e01000000feff020055ca00800100\n\
 vec:feffffff01006b4201800080ffff0100 vec:feff01000180fffffeff01800000ff7f -> value vec 0000feff008094bdfd7f0100fffffe7f\n\
uint32x4_t f(uint32x4_t p0, uint32x4_t p1) { return vabdq_u32(p0, p1); }\n\
 vec:feffffff3056b792b5b7bafa00000000 vec:01000080fefffffffffffffffeffffff -> value vec fdffff7fcea9486d4a484505feffffff\n\
 vec:ffffff7fffffffff0100000001000000 vec:01000000ffffff7ffeffffff00000080 -> value vec feffff7f00000080fdffffffffffff7f\n\
uint8x16_t f(uint8x16_t p0, uint8x16_t p1) { return vabdq_u8(p0, p1); }\n\
 vec:66fffe608180ff01fffe008101feff81 vec:81437f0000ff8101008181beff01feff -> value vec 1bbc7f60817f7e00ff7d813dfefd017e\n\
 vec:00817fff8181fe80ff017f7f00814fff vec:00ff80fe0101815b80ff3f960101ff7f -> value vec 007e010180807d257ffe40170180b080\n\
int16x8_t f(int16x8_t p0) { return vabsq_s16(p0); }\n\
 vec:ffffc293feff0100feff000001800080 -> value vec 01003e6c0200010002000000ff7f0080\n\
 vec:0180ffffff7f00800000ffff01800180 -> value vec ff7f0100ff7f008000000100ff7fff7f\n\
 vec:bb88c56d41bcfeffff7fff7ffeff0080 -> value vec 4577c56dbf430200ff7fff7f02000080\n\
 vec:77a1feffff7f01800100ff7f00800180 -> value vec 895e0200ff7fff7f0100ff7f0080ff7f\n\
 vec:feff000000800080feffffff0100feff -> value vec 02000000008000800200010001000200\n\
 vec:0100ff7ffeff01000180008000000000 -> value vec 0100ff7f02000100ff7f008000000000\n\
int32x4_t f(int32x4_t p0) { return vabsq_s32(p0); }\n\
 vec:ffffffff010000000100008001000000 -> value vec 0100000001000000ffffff7f01000000\n\
 vec:01000080f8c2b867ffffffff01000000 -> value vec ffffff7ff8c2b8670100000001000000\n\
int64x2_t f(int64x2_t p0) { return vabsq_s64(p0); }\n\
 vec:ffffffffffffffff0100000000000080 -> value vec 0100000000000000ffffffffffffff7f\n\
 vec:ffffffffffffff7ffeffffffffffffff -> value vec ffffffffffffff7f0200000000000000\n\
int8x16_t f(int8x16_t p0) { return vabsq_s8(p0); }\n\
 vec:fe817f0180fe817fc30181007f0100ff -> value vec 027f7f0180027f7f3d017f007f010001\n\
 vec:feff00320001fefe80017f00ff81ffff -> value vec 020100320001020280017f00017f0101\n\
int16x8_t f(int16x8_t p0, int16x8_t p1) { return vaddq_s16(p0, p1); }\n\
 vec:0180b6aeff7ffeffff7ffeff00000080 vec:ff7f00800080feff877dfeff00802ddd -> value vec 0000b62efffffcff86fdfcff00802d5d\n\
 vec:01000180ff7fffff01000100ad5d0180 vec:ff7f01809e0900800000ffffff7f0080 -> value vec 008002009d89ff7f01000000acdd0100\n\
 vec:ff7fffff0080008000800080dccb0000 vec:01006e3000800000bf9fffffff7ffaa2 -> value vec 00806d3000000080bf1fff7fdb4bfaa2\n\
 vec:ff7fffffc466feff0180ff7ffeffff7f vec:0180feff01800000ff7f00800100ffff -> value vec 0000fdffc5e6feff0000fffffffffe7f\n\
 vec:ff7fffff0100ff7f0000ffffff7f0100 vec:ffff0180ffffff7f0180feff01800180 -> value vec fe7f00800000feff0180fdff00000280\n\
 vec:ec6a0180feff01800000ff7f0100ffff vec:00800100ffff01800100ffff00800000 -> value vec ecea0280fdff02000100fe7f0180ffff\n\
int32x4_t f(int32x4_t p0, int32x4_t p1) { return vaddq_s32(p0, p1); }\n\
 vec:000000800100008001000080ffffff7f vec:00000000ffffffff0000008000000000 -> value vec 000000800000008001000000ffffff7f\n\
 vec:3de4add8ffffffff0000008001000000 vec:00000000000000000100000001000080 -> value vec 3de4add8ffffffff0100008002000080\n\
int64x2_t f(int64x2_t p0, int64x2_t p1) { return vaddq_s64(p0, p1); }\n\
 vec:0100000000000080ffffffffffffff7f vec:0100000000000000ffffffffffffffff -> value vec 0200000000000080feffffffffffff7f\n\
 vec:0000000000000000feffffffffffffff vec:2ca9c25ef7992d9523fd6ee5f51a65a2 -> value vec 2ca9c25ef7992d9521fd6ee5f51a65a2\n\
int8x16_t f(int8x16_t p0, int8x16_t p1) { return vaddq_s8(p0, p1); }\n\
 vec:00fe807ffffffefe0181810181018180 vec:018d8101fe7f1200fe7fff8001018800 -> value vec 018b0180fd7e10feff00808182020980\n\
 vec:b8fe00077f00807f806b80feff8080ff vec:fe0b01fe0180fde681ff810017fe766b -> value vec b609010580807d65016a01fe167ef66a\n\
uint16x8_t f(uint16x8_t p0, uint16x8_t p1) { return vaddq_u16(p0, p1); }\n\
 vec:ff7fffff010000000000fffffeff0180 vec:0080feff01000180feff0000feff0180 -> value vec fffffdff02000180fefffffffcff0200\n\
 vec:ffff0100ffff00000080ffff00800180 vec:0000519dff7f0000ffff0caf01000180 -> value vec ffff529dfe7f0000ff7f0baf01800200\n\
uint32x4_t f(uint32x4_t p0, uint32x4_t p1) { return vaddq_u32(p0, p1); }\n\
 vec:01000080cbb893c0ffffffff01000000 vec:01000080010000000000000000000000 -> value vec 02000000ccb893c0ffffffff01000000\n\
 vec:feffffff0000008001000080ffffff7f vec:00000000feffffff01000000ffffff7f -> value vec fefffffffeffff7f02000080feffffff\n\
uint64x2_t f(uint64x2_t p0, uint64x2_t p1) { return vaddq_u64(p0, p1); }\n\
 vec:01000000000000800000000000000000 vec:1e52fab916d773250100000000000080 -> value vec 1f52fab916d773a50100000000000080\n\
 vec:01000000000000000100000000000000 vec:01000000000000000100000000000080 -> value vec 02000000000000000200000000000080\n\
uint8x16_t f(uint8x16_t p0, uint8x16_t p1) { return vaddq_u8(p0, p1); }\n\
 vec:ff0080feb6ffff7d7f80ff81fed1feff vec:007f7f7f7f7f7f81fe7f8d017fb47f01 -> value vec ff7fff7d357e7efe7dff8c827d857d00\n\
 vec:5f00fefefe7f008080fe800081807ffe vec:7f8081dd7f8001807f807ffe0001802c -> value vec de807fdb7dff0100ff7efffe8181ff2a\n\
uint8_t f(uint8x8_t p0) { return vaddv_u8(p0); }\n\
 vec:fe00fe00fefe45fe -> value int 59\n\
 vec:fe2dff81fe7f8081 -> value int 41\n\
 vec:81ff818101ff81b6 -> value int 185\n\
 vec:81fefeff80ca4c00 -> value int 18\n\
 vec:0100f17fffff7f00 -> value int 238\n\
 vec:fe8001fe7f44fe7f -> value int 189\n\
uint16_t f(uint16x8_t p0) { return vaddvq_u16(p0); }\n\
 vec:17fb0080681e0080f6ccfeffff7ffeff -> value int 26224\n\
 vec:ff7f0080d5da01800180018000000100 -> value int 23256\n\
 vec:ffff9a5b18e6008001000100ff7fffff -> value int 16817\n\
 vec:2d5d00004963fffffeff018000000100 -> value int 16501\n\
 vec:a97554a30100000001809ad10100ffff -> value int 27289\n\
 vec:badafefffeff00800080ff7f01000000 -> value int 23222\n\
uint8_t f(uint8x16_t p0) { return vaddvq_u8(p0); }\n\
 vec:7ffefffff981fe7f335c4e01fefea3a5 -> value int 148\n\
 vec:808080fefe00feff81feff00fe80fe80 -> value int 243\n\
int16x8_t f(int16x8_t p0, int16x8_t p1) { return vandq_s16(p0, p1); }\n\
 vec:010000000100ff7fff7fff7fffff0180 vec:0080ff7fff7f5b3dfffffeffff7ffeff -> value vec 0000000001005b3dff7ffe7fff7f0080\n\
 vec:008054780000ff7fff7ffeff01800100 vec:6bc4450f00800000000000800100ffff -> value vec 00804408000000000000008001000100\n\
 vec:010009e4ff7ffeffffffffff00800100 vec:00800000ffffdce900000000ffffffff -> value vec 00000000ff7fdce90000000000800100\n\
 vec:0080ffff0000ff7f000001000100ff7f vec:feffff7f00000000010001000100ffff -> value vec 0080ff7f00000000000001000100ff7f\n\
 vec:00807dc26ba20100feff010001000100 vec:0000008001800000018000000180e8f4 -> value vec 00000080018000000080000001000000\n\
 vec:0180ada40000ff7f3de0ff7fffffffff vec:00800000ff7f0100018001800100a346 -> value vec 0080000000000100018001000100a346\n\
int32x4_t f(int32x4_t p0, int32x4_t p1) { return vandq_s32(p0, p1); }\n\
 vec:6548d5d9000000000100008000000000 vec:000000000100000001000000feffffff -> value vec 00000000000000000100000000000000\n\
 vec:000000800100000001000000ffffff7f vec:0000008001000000ffffffff00000080 -> value vec 00000080010000000100000000000000\n\
int64x2_t f(int64x2_t p0, int64x2_t p1) { return vandq_s64(p0, p1); }\n\
 vec:0100000000000080ffffffffffffffff vec:ffffffffffffff7f0000000000000080 -> value vec 01000000000000000000000000000080\n\
 vec:783f310f19c2935d0000000000000080 vec:60255d85acf9a5610100000000000080 -> value vec 6025110508c081410000000000000080\n\
int8x16_t f(int8x16_t p0, int8x16_t p1) { return vandq_s8(p0, p1); }\n\
 vec:80ffff008001fffe807c7ffeff007f7f vec:81ff808a81fe8101bd017fff007fc800 -> value vec 80ff80008000810080007ffe00004800\n\
 vec:0001000100000181812efefefe8081fe vec:00817f7f81807ffe8000800180940101 -> value vec 00010001000001808000800080800100\n\
uint16x8_t f(uint16x8_t p0, uint16x8_t p1) { return vandq_u16(p0, p1); }\n\
 vec:010058edff7fffff0080008000800180 vec:feff0180000060050080feff01800080 -> value vec 00000080000060050080008000800080\n\
 vec:00800080000000006e740000ff7f0000 vec:feff0180ffff01800180ffff0180ff7f -> value vec 00800080000000000000000001000000\n\
uint32x4_t f(uint32x4_t p0, uint32x4_t p1) { return vandq_u32(p0, p1); }\n\
 vec:ffffffff00000000fefffffffeffffff vec:ffffffff01000000ffffffff01000080 -> value vec ffffffff00000000feffffff00000080\n\
 vec:00000080ffffffff00000000ffffff7f vec:0000008000000000ffffff7f00000000 -> value vec 00000080000000000000000000000000\n\
uint64x2_t f(uint64x2_t p0, uint64x2_t p1) { return vandq_u64(p0, p1); }\n\
 vec:750a47b5cbff4f960000000000000080 vec:ef213e109c5b8920620ea9db423e1395 -> value vec 65000610885b09000000000000000080\n\
 vec:feffffffffffffff0100000000000000 vec:ffffffffffffffff0000000000000000 -> value vec feffffffffffffff0000000000000000\n\
uint8x16_t f(uint8x16_t p0, uint8x16_t p1) { return vandq_u8(p0, p1); }\n\
 vec:01770100fe7f8180ff818100fe800157 vec:ffe734000000815a00fe80000bff7f01 -> value vec 0167000000008100008080000a800101\n\
 vec:00fe0200808300ffff8b00287f7f81d3 vec:feff81fe8101ff81817f017fff7f01ef -> value vec 00fe000080010081810b00287f7f01c3\n\
int16x8_t f(int16x8_t p0, int16x8_t p1) { return vbicq_s16(p0, p1); }\n\
 vec:00000000008025b6feffffff01800080 vec:feffffff0180ff7ffefffffffeffff7f -> value vec 00000000000000800000000001000080\n\
 vec:00800080ff7f0180ff7ffffffeff0100 vec:feffff7fffff0180fefffeff00004b47 -> value vec 000000800000000001000100feff0000\n\
 vec:01000100ff7f0080ffff0180010063ca vec:0100ff7fffff01800000fefffeff0000 -> value vec 0000000000000000ffff0100010063ca\n\
 vec:0100ffff0000ffffff7f00000180ff7f vec:01800000fffffeff3d57ff7fffffffff -> value vec 0000ffff00000100c228000000000000\n\
 vec:0000ff7fffff010000000100ff7f0080 vec:00000100010001000180ff7f0100ffff -> value vec 0000fe7ffeff000000000000fe7f0000\n\
 vec:ff7fff7ffffffeff00000180e7320000 vec:01800180ffff0080ff7ffeff0100ff7f -> value vec fe7ffe7f0000fe7f00000100e6320000\n\
int32x4_t f(int32x4_t p0, int32x4_t p1) { return vbicq_s32(p0, p1); }\n\
 vec:fefffffffeffffff00000080ffffff7f vec:45adcd5700000000feffffff00000080 -> value vec ba5232a8feffffff00000000ffffff7f\n\
 vec:01000080c83e0ddfdbc3f92300000080 vec:ffffffff43a76724ffffff7ffeffffff -> value vec 00000000881808db0000000000000000\n\
int64x2_t f(int64x2_t p0, int64x2_t p1) { return vbicq_s64(p0, p1); }\n\
 vec:feffffffffffffff0000000000000080 vec:00000000000000000100000000000080 -> value vec feffffffffffffff0000000000000000\n\
 vec:0100000000000000feffffffffffffff vec:feffffffffffffff0100000000000080 -> value vec 0100000000000000feffffffffffff7f\n\
int8x16_t f(int8x16_t p0, int8x16_t p1) { return vbicq_s8(p0, p1); }\n\
 vec:810180fe00008081ff017f6ac9ff5481 vec:817f817ffe800081817f817fffe2ff01 -> value vec 00000080000080007e007e00001d0080\n\
 vec:fe81fffe0080ff01fe097f8081001301 vec:8100fed601ff8001ff8181817f818181 -> value vec 7e81012800007f0000087e0080001200\n\
uint16x8_t f(uint16x8_t p0, uint16x8_t p1) { return vbicq_u16(p0, p1); }\n\
 vec:9b1b0180ff7fffff0180ffff0100ff7f vec:0100ffff00800000ffff0000ffffff7f -> value vec 9a1b0000ff7fffff0000ffff00000000\n\
 vec:0100feff0080ffff0180ff7ffeff0080 vec:00000080ff7f00800000ffff01800180 -> value vec 0100fe7f0080ff7f01800000fe7f0000\n\
uint32x4_t f(uint32x4_t p0, uint32x4_t p1) { return vbicq_u32(p0, p1); }\n\
 vec:0000000010f42bdd01000080feffffff vec:0100008001000080ffffff7f01000000 -> value vec 0000000010f42b5d00000080feffffff\n\
 vec:a8529d4201000080feffffff6f8bf3d7 vec:ffffffff01000000feffffffffffffff -> value vec 00000000000000800000000000000000\n\
uint64x2_t f(uint64x2_t p0, uint64x2_t p1) { return vbicq_u64(p0, p1); }\n\
 vec:ffffffffffffffffffffffffffffff7f vec:feffffffffffffffffffffffffffff7f -> value vec 01000000000000000000000000000000\n\
 vec:ffffffffffffff7f0000000000000000 vec:0100000000000080ffffffffffffff7f -> value vec feffffffffffff7f0000000000000000\n\
uint8x16_t f(uint8x16_t p0, uint8x16_t p1) { return vbicq_u8(p0, p1); }\n\
 vec:7f81017f80c9018001807f0101815b80 vec:01ff80ff7f00bc52fe4f668080018080 -> value vec 7e00010080c901800180190101805b00\n\
 vec:99ff0081ff06ff01007f08fe00ff0080 vec:00455b7fff01fffe00808080fe988001 -> value vec 99ba008000060001007f087e00670080\n\
int16x8_t f(uint16x8_t p0, int16x8_t p1, int16x8_t p2) { return vbslq_s16(p0, p1, p2); }\n\
 vec:00000100685bffff0000feffa7b7ffff vec:0100feff0180feff0000933001800180 vec:feff00800000ff7ffeff018001000000 -> value vec feff00800000fefffeff933001800180\n\
 vec:ffff018000000100ffff008001800000 vec:974dfeff0080ff7fff7f0080ff7fff7f vec:0180feffff7f0100ffff0180fffffeff -> value vec 974dfeffff7f0100ff7f0180ff7ffeff\n\
 vec:feffb295018001800000000001000000 vec:ff7fffff018000800100feff01000080 vec:38a8ffffff7f0100ff7f0100ffff0100 -> value vec fe7fffffffff0080ff7f0100ffff0100\n\
 vec:0180fffffeff0100fffffdb10100feff vec:0080ffff00800000018001000100015c vec:e17e0000224801800100ff7fffff0100 -> value vec e0feffff008000800180034effff015c\n\
 vec:ff7f008000000080ffffff7f00000000 vec:0100ff7f0080feff0100ffff0000d01f vec:feff0180018017c50100010001000100 -> value vec 01800100018017c50100ff7f01000100\n\
 vec:00800100feff018049920080ffff0000 vec:01800080ffffffff01c0008000000180 vec:c1f201000080ffffffffff7fffffff7f -> value vec c1f20000feffffffb7edffff0000ff7f\n\
int32x4_t f(uint32x4_t p0, int32x4_t p1, int32x4_t p2) { return vbslq_s32(p0, p1, p2); }\n\
 vec:ffffff7fc985acc63ad35f4fc1817f22 vec:ffffffff000000808c0f2f4501000080 vec:0100000001000080feffffffffffff7f -> value vec ffffff7f00000080cc2faff53f7e805d\n\
 vec:00000000ffffffff010000004429b715 vec:ffffffff010000800100000001000080 vec:ffffff7ffffffffffeffffff01000080 -> value vec ffffff7f01000080ffffffff01000080\n\
int64x2_t f(uint64x2_t p0, int64x2_t p1, int64x2_t p2) { return vbslq_s64(p0, p1, p2); }\n\
 vec:feffffffffffffff0100000000000080 vec:0100000000000000ffffffffffffff7f vec:feffffffffffffff0000000000000000 -> value vec 00000000000000000100000000000000\n\
 vec:0000000000000000ef49a391d481ea05 vec:ffffffffffffffffffffffffffffffff vec:8db65108aebce3d30000000000000080 -> value vec 8db65108aebce3d3ef49a391d481ea85\n\
int8x16_t f(uint8x16_t p0, int8x16_t p1, int8x16_t p2) { return vbslq_s8(p0, p1, p2); }\n\
 vec:7ff1ffff81007f802a0101fe7f018121 vec:ecfe7f00817f7f7c01ffffdf8f80007f vec:80ff008081fe010100017f00ff8180ff -> value vec ecfe7f0081fe7f0100017fde8f8000ff\n\
 vec:fefffe007f800152fe814e007ffe7f01 vec:81fd0181807f7c00fe81018081818181 vec:80ff00ca81f07f6b80fffe8080fe00ff -> value vec 80fd00ca80707e29feffb080818001ff";

pub const PART_1: &str = "\
uint16x8_t f(uint16x8_t p0, uint16x8_t p1, uint16x8_t p2) { return vbslq_u16(p0, p1, p2); }\n\
 vec:ffff13e6baeb00000180010000800100 vec:0080ffff0180feff00000180ff7f0000 vec:ff7f7fc70100feff0100ff7fffffffff -> value vec 00807fe70180feff0000ff7fff7ffeff\n\
 vec:feff0000fefffefffeff010001800000 vec:0180bc1affff008000000180feff0100 vec:ffff018001000080ff7fffffff7fff7f -> value vec 01800180ffff00800100fffffeffff7f\n\
uint32x4_t f(uint32x4_t p0, uint32x4_t p1, uint32x4_t p2) { return vbslq_u32(p0, p1, p2); }\n\
 vec:0000000001000000ffffffffffffffff vec:010000800100008000000000feffffff vec:ffffff7f6e3db024fffffffffeffffff -> value vec ffffff7f6f3db02400000000feffffff\n\
 vec:f04043ae01000000feffffffffffff7f vec:feffffff01000080a0f31f68feffffff vec:ffffff7f01000080ffffffff45fc6c0c -> value vec ffffffff01000080a1f31f68feffff7f\n\
uint64x2_t f(uint64x2_t p0, uint64x2_t p1, uint64x2_t p2) { return vbslq_u64(p0, p1, p2); }\n\
 vec:694e3b585097bd7e0100000000000000 vec:ffffffffffffff7f0000000000000080 vec:0100000000000000ffffffffffffffff -> value vec 694e3b585097bd7efeffffffffffffff\n\
 vec:ffffffffffffffff0000000000000080 vec:01000000000000001f634452368ac924 vec:ffffffffffffff7fffffffffffffffff -> value vec 0100000000000000ffffffffffffff7f\n\
uint8x16_t f(uint8x16_t p0, uint8x16_t p1, uint8x16_t p2) { return vbslq_u8(p0, p1, p2); }\n\
 vec:8181ff80fe8181fefe010080818101cc vec:817f00fffe037f7f6881800081edfeff vec:800001c47f0189f9a32901ff7f018000 -> value vec 810100c4ff01097f6929017fff8180cc\n\
 vec:01fefeffff81df7fea0181810100fe00 vec:ff00ffff0080ff7f7f7f80006cfeffff vec:ff0001ff7ffe01fecfffe00018800001 -> value vec ff00ffff00fedfff6fffe0001880fe01\n\
uint16x8_t f(int16x8_t p0, int16x8_t p1) { return vceqq_s16(p0, p1); }\n\
 vec:f15b0080184aff7fe88eff7f0000ab95 vec:01800000ae9b0080ff7f0100ff7f0180 -> value vec 00000000000000000000000000000000\n\
 vec:9d5c0100feff000030540180ff7ffeff vec:00000080008000009d12008001000080 -> value vec 000000000000ffff0000000000000000\n\
 vec:0000ff7feb570000feffff7f0080353a vec:00800100ff7fffff01000000ff7ffeff -> value vec 00000000000000000000000000000000\n\
 vec:0000000000800180e6f60100ff7f0100 vec:ff7f0080fffffeff008001000100feff -> value vec 00000000000000000000ffff00000000\n\
 vec:010000800180ff7f0080ff7f01000100 vec:ff7f018031830100feff98e80080ff7f -> value vec 00000000000000000000000000000000\n\
 vec:feff00000180010000802dbf0000291c vec:ad44008001800180fefffeff0080ffff -> value vec 00000000ffff00000000000000000000\n\
uint32x4_t f(int32x4_t p0, int32x4_t p1) { return vceqq_s32(p0, p1); }\n\
 vec:ffffff7fffffffffffffff7fffffffff vec:0100000028b4d7f6feffffff00000000 -> value vec 00000000000000000000000000000000\n\
 vec:ffffffff0100008001000000ffffffff vec:4564c8e9fefffffffeffffff01000080 -> value vec 00000000000000000000000000000000\n\
uint64x2_t f(int64x2_t p0, int64x2_t p1) { return vceqq_s64(p0, p1); }\n\
 vec:ffffffffffffff7f0000000000000080 vec:feffffffffffffff0000000000000080 -> value vec 0000000000000000ffffffffffffffff\n\
 vec:0000000000000080ffffffffffffff7f vec:ffffffffffffffff0100000000000000 -> value vec 00000000000000000000000000000000\n\
uint8x16_t f(int8x16_t p0, int8x16_t p1) { return vceqq_s8(p0, p1); }\n\
 vec:ea81fe80b3a97f0181805efe7ffeff81 vec:010181ff8001ff81018066fe00fe7d80 -> value vec 000000000000000000ff00ff00ff0000\n\
 vec:1001017f7fff818101007fff7fff25fe vec:ff01810180000180ff817ffc7f8000fe -> value vec 00ff0000000000000000ff00ff0000ff\n\
uint16x8_t f(uint16x8_t p0, uint16x8_t p1) { return vceqq_u16(p0, p1); }\n\
 vec:ff7fffff0180feff010000800080ffff vec:010000800080ff7fff7f0180feffffff -> value vec 0000000000000000000000000000ffff\n\
 vec:0080c200ff7f00000000feffffff0080 vec:0080ffffff7f00800000ff7ffeffff7f -> value vec ffff0000ffff0000ffff000000000000\n\
uint32x4_t f(uint32x4_t p0, uint32x4_t p1) { return vceqq_u32(p0, p1); }\n\
 vec:01000000ffffff7f0100008000000080 vec:0000008000000080feffffffffffffff -> value vec 00000000000000000000000000000000\n\
 vec:34625fce0000008001000000ffffffff vec:ffffffff010000000000000000000080 -> value vec 00000000000000000000000000000000\n\
uint64x2_t f(uint64x2_t p0, uint64x2_t p1) { return vceqq_u64(p0, p1); }\n\
 vec:ffffffffffffff7f0000000000000080 vec:0000000000000080cb5f8d6b07a1a0bd -> value vec 00000000000000000000000000000000\n\
 vec:feffffffffffffffffffffffffffffff vec:0000000000000080ffffffffffffffff -> value vec 0000000000000000ffffffffffffffff\n\
uint8x16_t f(uint8x16_t p0, uint8x16_t p1) { return vceqq_u8(p0, p1); }\n\
 vec:fe8174fe807ffe4981ff7f01ffff2e01 vec:ffff7d0100007fff80fe647fff7f00ff -> value vec 000000000000000000000000ff000000\n\
 vec:7fff7f7f81818000fffe000150fe7f14 vec:fefe7fff8081fe00fb00ff8180007cfe -> value vec 0000ff0000ff00ff0000000000000000\n\
uint16x8_t f(int16x8_t p0, int16x8_t p1) { return vcgtq_s16(p0, p1); }\n\
 vec:01800000ff7f00003eb90000000064f4 vec:ffffffff0100018000800100ffff2792 -> value vec 0000ffffffffffffffff0000ffffffff\n\
 vec:018029380180018000000080a4820000 vec:5ca00100feff00000180feffff7fd91a -> value vec 0000ffff00000000ffff000000000000\n\
 vec:ff7f7c75ffff01000100ff7fd6de0100 vec:e30f00800180fdd3fefffeffff7f0080 -> value vec ffffffffffffffffffffffff0000ffff\n\
 vec:feff0080018000005096ff7f0080feff vec:0100ff7fffff0080ff7f00800000ffff -> value vec 000000000000ffff0000ffff00000000\n\
 vec:ffffff7fffff0080fffffeffff7f0100 vec:ffa2f701ffffffff00000180ffffffff -> value vec ffffffff000000000000ffffffffffff\n\
 vec:0000ffffff7ffeffff7fffff0000feff vec:0100ff7fff7f0180feff0100ff7ffeff -> value vec 000000000000ffffffff000000000000\n\
uint32x4_t f(int32x4_t p0, int32x4_t p1) { return vcgtq_s32(p0, p1); }\n\
 vec:00000080ffffff7f36c3f597ffffff7f vec:00000000ffffffffe3407fbb4d9e188f -> value vec 00000000ffffffff00000000ffffffff\n\
 vec:0100008001000000ffffffff00000080 vec:ffffff7fffffffff000000002ffd36ce -> value vec 00000000ffffffff0000000000000000\n\
uint64x2_t f(int64x2_t p0, int64x2_t p1) { return vcgtq_s64(p0, p1); }\n\
 vec:01000000000000800100000000000080 vec:feffffffffffffff0100000000000000 -> value vec 00000000000000000000000000000000\n\
 vec:095349c1cb832d8ae8b2a888f207d513 vec:feffffffffffffff0100000000000000 -> value vec 0000000000000000ffffffffffffffff\n\
uint8x16_t f(int8x16_t p0, int8x16_t p1) { return vcgtq_s8(p0, p1); }\n\
 vec:7fff804ffe01818101a493937f8181ff vec:42818180ffff8181fe810180feff29ff -> value vec ffff00ff00ff0000ffff00ffff000000\n\
 vec:ff7fff001bfefe8080ffa98181018030 vec:3d01ff0180018100ffff4e22ff0101ff -> value vec 00ff0000ff00ff0000000000000000ff\n\
uint16x8_t f(uint16x8_t p0, uint16x8_t p1) { return vcgtq_u16(p0, p1); }\n\
 vec:01000100b8c8ff7f0000ffffffff0000 vec:ff7f82250080ec36ffffffff01800000 -> value vec 00000000ffffffff00000000ffff0000\n\
 vec:ffffff7fffff0100ffffd54a01800180 vec:000001804f10ff7f3fc41f87ffff0180 -> value vec ffff0000ffff0000ffff000000000000\n\
uint32x4_t f(uint32x4_t p0, uint32x4_t p1) { return vcgtq_u32(p0, p1); }\n\
 vec:0000008000000080ffffff7f7e20a94e vec:ffffffffffffff7fffffffff00000080 -> value vec 00000000ffffffff0000000000000000\n\
 vec:ffffffffffffffff0100000001000080 vec:fa590e5a010000800100000000000080 -> value vec ffffffffffffffff00000000ffffffff\n\
uint64x2_t f(uint64x2_t p0, uint64x2_t p1) { return vcgtq_u64(p0, p1); }\n\
 vec:ffffffffffffff7f0000000000000000 vec:0000000000000080ffffffffffffffff -> value vec 00000000000000000000000000000000\n\
 vec:ffffffffffffff7fce533df4d8ec6c8f vec:0100000000000080feffffffffffffff -> value vec 00000000000000000000000000000000\n\
uint8x16_t f(uint8x16_t p0, uint8x16_t p1) { return vcgtq_u8(p0, p1); }\n\
 vec:fffefe0181feff007f01fe7f7f018bfe vec:01017f8001808006ff7ffe01feff8000 -> value vec ffffff00ffffff00000000ff0000ffff\n\
 vec:86018080fe80007f7f80007fff818080 vec:00817ffe0000a28001ff80017f810100 -> value vec ff00ff00ffff0000ff0000ffff00ffff\n\
int16x8_t f(int16x4_t p0, int16x4_t p1) { return vcombine_s16(p0, p1); }\n\
 vec:feff0080ff7f0000 vec:ffff000001800080 -> value vec feff0080ff7f0000ffff000001800080\n\
 vec:8a64b9f00080feff vec:ffffff7f01800100 -> value vec 8a64b9f00080feffffffff7f01800100\n\
 vec:ffff17d90080ff7f vec:02e70100ffff0180 -> value vec ffff17d90080ff7f02e70100ffff0180\n\
 vec:ff61ffff00008879 vec:01800100ffff0000 -> value vec ff61ffff0000887901800100ffff0000\n\
 vec:feffff7f01000000 vec:0180ff7ffeff0100 -> value vec feffff7f010000000180ff7ffeff0100\n\
 vec:2eab01800080feff vec:0080010001800000 -> value vec 2eab01800080feff0080010001800000\n\
int32x4_t f(int32x2_t p0, int32x2_t p1) { return vcombine_s32(p0, p1); }\n\
 vec:ffffffffffffffff vec:feffffff01000080 -> value vec fffffffffffffffffeffffff01000080\n\
 vec:ffffff7f00000080 vec:0100000001000000 -> value vec ffffff7f000000800100000001000000\n\
int64x2_t f(int64x1_t p0, int64x1_t p1) { return vcombine_s64(p0, p1); }\n\
 vec:0100000000000080 vec:ffffffffffffff7f -> value vec 0100000000000080ffffffffffffff7f\n\
 vec:0100000000000000 vec:0000000000000080 -> value vec 01000000000000000000000000000080\n\
int8x16_t f(int8x8_t p0, int8x8_t p1) { return vcombine_s8(p0, p1); }\n\
 vec:800100810000017f vec:8000d18001ff0081 -> value vec 800100810000017f8000d18001ff0081\n\
 vec:00fec5ff7f008100 vec:7f80c7807fd280ff -> value vec 00fec5ff7f0081007f80c7807fd280ff\n\
uint16x8_t f(uint16x4_t p0, uint16x4_t p1) { return vcombine_u16(p0, p1); }\n\
 vec:ffffff7fffff0080 vec:ffff00000080feff -> value vec ffffff7fffff0080ffff00000080feff\n\
 vec:ffffffffff7fff7f vec:00000080b9710000 -> value vec ffffffffff7fff7f00000080b9710000\n\
uint32x4_t f(uint32x2_t p0, uint32x2_t p1) { return vcombine_u32(p0, p1); }\n\
 vec:01000080ffffffff vec:feffffff01000000 -> value vec 01000080fffffffffeffffff01000000\n\
 vec:ffffffff01000000 vec:feffffffffffff7f -> value vec ffffffff01000000feffffffffffff7f\n\
uint64x2_t f(uint64x1_t p0, uint64x1_t p1) { return vcombine_u64(p0, p1); }\n\
 vec:0000000000000000 vec:feffffffffffffff -> value vec 0000000000000000feffffffffffffff\n\
 vec:bf732c4ba6d962c0 vec:ffffffffffffff7f -> value vec bf732c4ba6d962c0ffffffffffffff7f\n\
uint8x16_t f(uint8x8_t p0, uint8x8_t p1) { return vcombine_u8(p0, p1); }\n\
 vec:81077f817f7f7fff vec:80817fff007f0080 -> value vec 81077f817f7f7fff80817fff007f0080\n\
 vec:ff0000fffe808181 vec:818101fe3a0081fe -> value vec ff0000fffe808181818101fe3a0081fe\n\
uint8x8_t f(uint64_t p0) { return vcreate_u8(p0); }\n\
 int:14165276234635962758 -> value vec 8669c23eaf2b95c4\n\
 int:18446744073709551615 -> value vec ffffffffffffffff\n\
 int:18446744073709551615 -> value vec ffffffffffffffff\n\
 int:18446744073709551615 -> value vec ffffffffffffffff\n\
 int:9223372036854775807 -> value vec ffffffffffffff7f\n\
 int:11555129075007512055 -> value vec f75d9c09ac105ca0\n\
uint16x8_t f(uint16x8_t p0) { return vdupq_laneq_u16(p0, 7); }\n\
 vec:feff0180feff0000ffff018001000180 -> value vec 01800180018001800180018001800180\n\
uint16x8_t f(uint16x8_t p0) { return vdupq_laneq_u16(p0, 0); }\n\
 vec:feff0000ff7f010001000080ffffff7f -> value vec fefffefffefffefffefffefffefffeff\n\
uint16x8_t f(uint16x8_t p0) { return vdupq_laneq_u16(p0, 4); }\n\
 vec:00000100008001000080ffffff7f0180 -> value vec 00800080008000800080008000800080\n\
 vec:0080fffffefffeff00000100feff0080 -> value vec 00000000000000000000000000000000\n\
uint16x8_t f(uint16x8_t p0) { return vdupq_laneq_u16(p0, 7); }\n\
 vec:feffff7fff7f0180fffffeff359e0000 -> value vec 00000000000000000000000000000000\n\
uint16x8_t f(uint16x8_t p0) { return vdupq_laneq_u16(p0, 0); }\n\
 vec:0100ff7f0100fefffeffff7f01000442 -> value vec 01000100010001000100010001000100\n\
uint32x4_t f(uint32x4_t p0) { return vdupq_laneq_u32(p0, 3); }\n\
 vec:00000000ffffff7f01000000ffffff7f -> value vec ffffff7fffffff7fffffff7fffffff7f\n\
uint32x4_t f(uint32x4_t p0) { return vdupq_laneq_u32(p0, 0); }\n\
 vec:00000080ffffff7fffffff7f00000000 -> value vec 00000080000000800000008000000080\n\
uint64x2_t f(uint64x2_t p0) { return vdupq_laneq_u64(p0, 1); }\n\
 vec:0100000000000000ffffffffffffffff -> value vec ffffffffffffffffffffffffffffffff\n\
uint64x2_t f(uint64x2_t p0) { return vdupq_laneq_u64(p0, 0); }\n\
 vec:01000000000000800000000000000000 -> value vec 01000000000000800100000000000080\n\
uint8x16_t f(uint8x16_t p0) { return vdupq_laneq_u8(p0, 15); }\n\
 vec:81017f80ac00810081007ffedbfe0101 -> value vec 01010101010101010101010101010101\n\
uint8x16_t f(uint8x16_t p0) { return vdupq_laneq_u8(p0, 0); }\n\
 vec:00feff00fffe017fff7fff807f7f0080 -> value vec 00000000000000000000000000000000\n\
int16x8_t f(int16_t p0) { return vdupq_n_s16(p0); }\n\
 int:-1 -> value vec ffffffffffffffffffffffffffffffff\n\
 int:-1 -> value vec ffffffffffffffffffffffffffffffff\n\
 int:31048 -> value vec 48794879487948794879487948794879\n\
 int:1 -> value vec 01000100010001000100010001000100\n\
 int:-32768 -> value vec 00800080008000800080008000800080\n\
 int:0 -> value vec 00000000000000000000000000000000\n\
int32x4_t f(int32_t p0) { return vdupq_n_s32(p0); }\n\
 int:752307536 -> value vec 504dd72c504dd72c504dd72c504dd72c\n\
 int:2147483647 -> value vec ffffff7fffffff7fffffff7fffffff7f\n\
int64x2_t f(int64_t p0) { return vdupq_n_s64(p0); }\n\
 int:1 -> value vec 01000000000000000100000000000000\n\
 int:-2 -> value vec fefffffffffffffffeffffffffffffff\n\
int8x16_t f(int8_t p0) { return vdupq_n_s8(p0); }\n\
 int:44 -> value vec 2c2c2c2c2c2c2c2c2c2c2c2c2c2c2c2c\n\
 int:-128 -> value vec 80808080808080808080808080808080\n\
uint16x8_t f(uint16_t p0) { return vdupq_n_u16(p0); }\n\
 int:65534 -> value vec fefffefffefffefffefffefffefffeff\n\
 int:0 -> value vec 00000000000000000000000000000000\n\
uint32x4_t f(uint32_t p0) { return vdupq_n_u32(p0); }\n\
 int:4294967294 -> value vec fefffffffefffffffefffffffeffffff\n\
 int:3522730524 -> value vec 1c9af8d11c9af8d11c9af8d11c9af8d1\n\
uint64x2_t f(uint64_t p0) { return vdupq_n_u64(p0); }\n\
 int:0 -> value vec 00000000000000000000000000000000\n\
 int:18446744073709551614 -> value vec fefffffffffffffffeffffffffffffff\n\
uint8x16_t f(uint8_t p0) { return vdupq_n_u8(p0); }\n\
 int:255 -> value vec ffffffffffffffffffffffffffffffff\n\
 int:128 -> value vec 80808080808080808080808080808080\n\
int16x8_t f(int16x8_t p0, int16x8_t p1) { return veorq_s16(p0, p1); }\n\
 vec:01800180ffff0100010087e200800000 vec:00800100fffffeffe4c1feffff7f0100 -> value vec 010000800000ffffe5c1791dffff0100\n\
 vec:feffff7f01000000ff7fff7fffffffff vec:ffffffff008000000180ff7f62690180 -> value vec 0100008001800000feff00009d96fe7f\n\
 vec:01000100ff7f39f90080ffff0000c194 vec:ff7f0080008000000000fefffefffeff -> value vec fe7f0180ffff39f900800100feff3f6b\n\
 vec:fefffeffff7f0000ab0d0080ffff0180 vec:000000800000fffffeffffff01800080 -> value vec fefffe7fff7fffff55f2ff7ffe7f0100\n\
 vec:ff7f00000100ff7f0100000000800000 vec:ffff3937feff00800100ff7f01000080 -> value vec 00803937ffffffff0000ff7f01800080\n\
 vec:010001800080ff7ffffffeff00000180 vec:5a030080feff01800180fd97ffff0000 -> value vec 5b030100fe7ffefffe7f0368ffff0180\n\
int32x4_t f(int32x4_t p0, int32x4_t p1) { return veorq_s32(p0, p1); }\n\
 vec:01000080feffffffffffff7fffffffff vec:010000800100000001000000feffffff -> value vec 00000000fffffffffeffff7f01000000\n\
 vec:feffffff9dbb231ffefffffffeffffff vec:0100000082c20a8dfeffffff00000000 -> value vec ffffffff1f79299200000000feffffff\n\
int64x2_t f(int64x2_t p0, int64x2_t p1) { return veorq_s64(p0, p1); }\n\
 vec:fefffffffffffffffeffffffffffffff vec:0000000000000080feffffffffffffff -> value vec feffffffffffff7f0000000000000000\n\
 vec:ffffffffffffff7fffffffffffffff7f vec:ffffffffffffff7fffffffffffffff7f -> value vec 00000000000000000000000000000000\n\
int8x16_t f(int8x16_t p0, int8x16_t p1) { return veorq_s8(p0, p1); }\n\
 vec:8180817f0000b3ff7f7f81fe814f1a01 vec:0000808000808080fe7ffe52000106fe -> value vec 818001ff0080337f81007fac814e1cff\n\
 vec:ff01377fff0a7f8100f37f0000010000 vec:808100ff6d7f00ff00fd018100377fac -> value vec 7f80378092757f7e000e7e8100367fac\n\
uint16x8_t f(uint16x8_t p0, uint16x8_t p1) { return veorq_u16(p0, p1); }\n\
 vec:6e50018054980180ff7f010001000180 vec:0180ff7f010001000100ffff010080ef -> value vec 6fd0feff55980080fe7ffeff0000816f\n\
 vec:ffff25eeffffffff0000ff7fffff0100 vec:feff00007000b059ffff0080feffffff -> value vec 010025ee8fff4fa6ffffffff0100feff\n\
uint32x4_t f(uint32x4_t p0, uint32x4_t p1) { return veorq_u32(p0, p1); }\n\
 vec:00000000ffffffff0000008001000000 vec:00000000000000000100008001000080 -> value vec 00000000ffffffff0100000000000080\n\
 vec:feffffff00000080ffffff7f00000080 vec:28c5f4afffffffff00000000feffffff -> value vec d63a0b50ffffff7fffffff7ffeffff7f\n\
uint64x2_t f(uint64x2_t p0, uint64x2_t p1) { return veorq_u64(p0, p1); }\n\
 vec:ffffffffffffff7ffeffffffffffffff vec:01000000000000800000000000000080 -> value vec fefffffffffffffffeffffffffffff7f\n\
 vec:ffffffffffffffff2af61d0ec9c7b99c vec:01000000000000800100000000000000 -> value vec feffffffffffff7f2bf61d0ec9c7b99c";

pub const PART_2: &str = "\
uint8x16_t f(uint8x16_t p0, uint8x16_t p1) { return veorq_u8(p0, p1); }\n\
 vec:81ff800180fe7ffe7f018101fe8001eb vec:81007f0080ff7fff8080fefe81ff0080 -> value vec 00ffff0100010001ff817fff7f7f016b\n\
 vec:38ff80fe79ff02b400fff30080815381 vec:8100608181ff0064ff81817fff80ff01 -> value vec b9ffe07ff80002d0ff7e727f7f01ac80\n\
uint8x16_t f(uint8x16_t p0, uint8x16_t p1) { return vextq_u8(p0, p1, 15); }\n\
 vec:00808000807f0080ff7f000080fe7f00 vec:fe80280181ff80fe818000808065ff01 -> value vec 00fe80280181ff80fe818000808065ff\n\
uint8x16_t f(uint8x16_t p0, uint8x16_t p1) { return vextq_u8(p0, p1, 0); }\n\
 vec:8100fe007fff808101817f7f00d200ff vec:981aff7ffe01fe81fe7fff017f002a7f -> value vec 8100fe007fff808101817f7f00d200ff\n\
uint8x16_t f(uint8x16_t p0, uint8x16_t p1) { return vextq_u8(p0, p1, 14); }\n\
 vec:ff2600fe7f7fff8081807f008080ffb0 vec:80017f808101017fffff80ff00fefe81 -> value vec ffb080017f808101017fffff80ff00fe\n\
uint8x16_t f(uint8x16_t p0, uint8x16_t p1) { return vextq_u8(p0, p1, 5); }\n\
 vec:7ffefe000100fe817ffe007fb780feff vec:71ff0165008000fe8000817fbdfe812a -> value vec 00fe817ffe007fb780feff71ff016500\n\
uint8x16_t f(uint8x16_t p0, uint8x16_t p1) { return vextq_u8(p0, p1, 15); }\n\
 vec:8181017f7f81ff7f7f807f0180817fff vec:017fff805180ff817f7f007ffe7ffe80 -> value vec ff017fff805180ff817f7f007ffe7ffe\n\
uint8x16_t f(uint8x16_t p0, uint8x16_t p1) { return vextq_u8(p0, p1, 0); }\n\
 vec:7f0080cf7f00009201fe80817f81fe01 vec:7fc900fffebd8100ffff810100000080 -> value vec 7f0080cf7f00009201fe80817f81fe01\n\
int16x4_t f(int16x8_t p0) { return vget_high_s16(p0); }\n\
 vec:0080ff7f0080feffffff000000000000 -> value vec ffff000000000000\n\
 vec:ff7f00003acf01000080feff01000080 -> value vec 0080feff01000080\n\
 vec:ff7ffeffffffffff00805b260180feff -> value vec 00805b260180feff\n\
 vec:fefffefffeff0180010000800080feff -> value vec 010000800080feff\n\
 vec:45f50000ff7f0100ff7ffeffbcc50180 -> value vec ff7ffeffbcc50180\n\
 vec:0080feff0180feffff7fc6f30000ffff -> value vec ff7fc6f30000ffff\n\
int32x2_t f(int32x4_t p0) { return vget_high_s32(p0); }\n\
 vec:00000080ffffffffffffffffffffff7f -> value vec ffffffffffffff7f\n\
 vec:ffffff7fffffff7fffffff7f00000080 -> value vec ffffff7f00000080\n\
int64x1_t f(int64x2_t p0) { return vget_high_s64(p0); }\n\
 vec:0100000000000000435ad033bed01c90 -> value vec 435ad033bed01c90\n\
 vec:0100000000000000feffffffffffffff -> value vec feffffffffffffff\n\
int8x8_t f(int8x16_t p0) { return vget_high_s8(p0); }\n\
 vec:5dfe81550081018080fffeee808101ff -> value vec 80fffeee808101ff\n\
 vec:01fefff48080005e81017f8081fe7f80 -> value vec 81017f8081fe7f80\n\
uint16x4_t f(uint16x8_t p0) { return vget_high_u16(p0); }\n\
 vec:0080ff7fffff00000000feffd5150180 -> value vec 0000feffd5150180\n\
 vec:ffff01800100ff7f01000000ffff0080 -> value vec 01000000ffff0080\n\
uint32x2_t f(uint32x4_t p0) { return vget_high_u32(p0); }\n\
 vec:00000080feffffff0000008001000080 -> value vec 0000008001000080\n\
 vec:d26970786e258f43fffffffffeffffff -> value vec fffffffffeffffff\n\
uint64x1_t f(uint64x2_t p0) { return vget_high_u64(p0); }\n\
 vec:ffffffffffffff7f0000000000000000 -> value vec 0000000000000000\n\
 vec:00000000000000000100000000000000 -> value vec 0100000000000000\n\
uint8x8_t f(uint8x16_t p0) { return vget_high_u8(p0); }\n\
 vec:01fe017ffe81ff008101ff01fefe80ff -> value vec 8101ff01fefe80ff\n\
 vec:fe239080ff7ffe7f7f007f7fff7fad01 -> value vec 7f007f7fff7fad01\n\
int16x4_t f(int16x8_t p0) { return vget_low_s16(p0); }\n\
 vec:ffffffffff7f0180ff7f010001000080 -> value vec ffffffffff7f0180\n\
 vec:31b8008000000180ffff018000000080 -> value vec 31b8008000000180\n\
 vec:ff7ffeff0180ff7f00000080ffffff7f -> value vec ff7ffeff0180ff7f\n\
 vec:80020000894b8a82fefffffffeff90ee -> value vec 80020000894b8a82\n\
 vec:0000feff010079abff7f0080ffffff7f -> value vec 0000feff010079ab\n\
 vec:feff018001800080feff0180ffff0080 -> value vec feff018001800080\n\
int32x2_t f(int32x4_t p0) { return vget_low_s32(p0); }\n\
 vec:fefffffffeffffff00000080feffffff -> value vec fefffffffeffffff\n\
 vec:ffffff7f0000008000000080ffffffff -> value vec ffffff7f00000080\n\
int64x1_t f(int64x2_t p0) { return vget_low_s64(p0); }\n\
 vec:ffffffffffffffff0100000000000000 -> value vec ffffffffffffffff\n\
 vec:ffffffffffffff7ffeffffffffffffff -> value vec ffffffffffffff7f\n\
int8x8_t f(int8x16_t p0) { return vget_low_s8(p0); }\n\
 vec:e0ed81fe01ffff017f007fff807ffeff -> value vec e0ed81fe01ffff01\n\
 vec:ff8001ff00fe017f80805c83ff007f80 -> value vec ff8001ff00fe017f\n\
uint16x4_t f(uint16x8_t p0) { return vget_low_u16(p0); }\n\
 vec:feffffffff7f0180008093af01800000 -> value vec feffffffff7f0180\n\
 vec:0eba00800000ff7f01800080ff7ffeff -> value vec 0eba00800000ff7f\n\
uint32x2_t f(uint32x4_t p0) { return vget_low_u32(p0); }\n\
 vec:ffffff7fffffff7f01000080ffffff7f -> value vec ffffff7fffffff7f\n\
 vec:ffffff7fffffff7fffffff7fffffff7f -> value vec ffffff7fffffff7f\n\
uint64x1_t f(uint64x2_t p0) { return vget_low_u64(p0); }\n\
 vec:0100000000000000e5fa390fd0521b7f -> value vec 0100000000000000\n\
 vec:0100000000000000ffffffffffffff7f -> value vec 0100000000000000\n\
uint8x8_t f(uint8x16_t p0) { return vget_low_u8(p0); }\n\
 vec:80ff0012017f8000007f687f81ffffff -> value vec 80ff0012017f8000\n\
 vec:000164fe7fff007f817ffe807f558001 -> value vec 000164fe7fff007f\n\
int16_t f(int16x8_t p0) { return vgetq_lane_s16(p0, 7); }\n\
 vec:ffff345f0100ff7ffffffffffeffffff -> value int -1\n\
int16_t f(int16x8_t p0) { return vgetq_lane_s16(p0, 0); }\n\
 vec:0000feffffff0180feff00000000805d -> value int 0\n\
int16_t f(int16x8_t p0) { return vgetq_lane_s16(p0, 3); }\n\
 vec:1115153e0080ff7f0080ffff6032feff -> value int 32767\n\
int16_t f(int16x8_t p0) { return vgetq_lane_s16(p0, 0); }\n\
 vec:018000800080000001800000ff7fff7f -> value int -32767\n\
int16_t f(int16x8_t p0) { return vgetq_lane_s16(p0, 7); }\n\
 vec:0080000000800080fefffeff00000000 -> value int 0\n\
int16_t f(int16x8_t p0) { return vgetq_lane_s16(p0, 0); }\n\
 vec:00800180feff0100ffff0100ff7ffeff -> value int -32768\n\
int32_t f(int32x4_t p0) { return vgetq_lane_s32(p0, 3); }\n\
 vec:0100000000000000ffffff7fffffff7f -> value int 2147483647\n\
int32_t f(int32x4_t p0) { return vgetq_lane_s32(p0, 0); }\n\
 vec:feffffff000000000000000001000080 -> value int -2\n\
int64_t f(int64x2_t p0) { return vgetq_lane_s64(p0, 1); }\n\
 vec:941e01b0a8cfa3a90100000000000000 -> value int 1\n\
int64_t f(int64x2_t p0) { return vgetq_lane_s64(p0, 0); }\n\
 vec:feffffffffffffff0100000000000000 -> value int -2\n\
int8_t f(int8x16_t p0) { return vgetq_lane_s8(p0, 15); }\n\
 vec:ff0097807f7ffe6f01008080807fd4ff -> value int -1\n\
int8_t f(int8x16_t p0) { return vgetq_lane_s8(p0, 0); }\n\
 vec:81fefe7f7f8072818a7f8100fffe7f01 -> value int -127\n\
uint16_t f(uint16x8_t p0) { return vgetq_lane_u16(p0, 7); }\n\
 vec:00800000feffffff9b810000ecb00100 -> value int 1\n\
uint16_t f(uint16x8_t p0) { return vgetq_lane_u16(p0, 0); }\n\
 vec:26b301000180ffffff7ffefffffffeff -> value int 45862\n\
uint32_t f(uint32x4_t p0) { return vgetq_lane_u32(p0, 3); }\n\
 vec:01000000d3548a3563c9adc9ffffff7f -> value int 2147483647\n\
uint32_t f(uint32x4_t p0) { return vgetq_lane_u32(p0, 0); }\n\
 vec:0100008000000000474c69fdfeffffff -> value int 2147483649\n\
uint64_t f(uint64x2_t p0) { return vgetq_lane_u64(p0, 1); }\n\
 vec:0100000000000000feffffffffffffff -> value int 18446744073709551614\n\
uint64_t f(uint64x2_t p0) { return vgetq_lane_u64(p0, 0); }\n\
 vec:feffffffffffffffffffffffffffffff -> value int 18446744073709551614\n\
uint8_t f(uint8x16_t p0) { return vgetq_lane_u8(p0, 15); }\n\
 vec:0000808096fecaff81810101fffe0100 -> value int 0\n\
uint8_t f(uint8x16_t p0) { return vgetq_lane_u8(p0, 0); }\n\
 vec:0100fe01800554808100fe26e3feee00 -> value int 1\n\
uint8x8_t f(uint8_t const *p0) { return vld1_u8(p0); }\n\
 block:1:rw:00070e151c232a31383f464d545b626970777e858c939aa1a8afb6bdc4cbd2d9e0e7eef5fc030a11181f262d343b424950575e656c737a81888f969da4abb2b9 at:0:3 -> value vec 151c232a31383f46$block 0 00070e151c232a31383f464d545b626970777e858c939aa1a8afb6bdc4cbd2d9e0e7eef5fc030a11181f262d343b424950575e656c737a81888f969da4abb2b9\n\
 block:1:rw:00070e151c232a31383f464d545b626970777e858c939aa1a8afb6bdc4cbd2d9e0e7eef5fc030a11181f262d343b424950575e656c737a81888f969da4abb2b9 at:0:3 -> value vec 151c232a31383f46$block 0 00070e151c232a31383f464d545b626970777e858c939aa1a8afb6bdc4cbd2d9e0e7eef5fc030a11181f262d343b424950575e656c737a81888f969da4abb2b9\n\
 block:1:rw:00070e151c232a31383f464d545b626970777e858c939aa1a8afb6bdc4cbd2d9e0e7eef5fc030a11181f262d343b424950575e656c737a81888f969da4abb2b9 at:0:3 -> value vec 151c232a31383f46$block 0 00070e151c232a31383f464d545b626970777e858c939aa1a8afb6bdc4cbd2d9e0e7eef5fc030a11181f262d343b424950575e656c737a81888f969da4abb2b9\n\
 block:1:rw:00070e151c232a31383f464d545b626970777e858c939aa1a8afb6bdc4cbd2d9e0e7eef5fc030a11181f262d343b424950575e656c737a81888f969da4abb2b9 at:0:3 -> value vec 151c232a31383f46$block 0 00070e151c232a31383f464d545b626970777e858c939aa1a8afb6bdc4cbd2d9e0e7eef5fc030a11181f262d343b424950575e656c737a81888f969da4abb2b9\n\
 block:1:rw:00070e151c232a31383f464d545b626970777e858c939aa1a8afb6bdc4cbd2d9e0e7eef5fc030a11181f262d343b424950575e656c737a81888f969da4abb2b9 at:0:3 -> value vec 151c232a31383f46$block 0 00070e151c232a31383f464d545b626970777e858c939aa1a8afb6bdc4cbd2d9e0e7eef5fc030a11181f262d343b424950575e656c737a81888f969da4abb2b9\n\
 block:1:rw:00070e151c232a31383f464d545b626970777e858c939aa1a8afb6bdc4cbd2d9e0e7eef5fc030a11181f262d343b424950575e656c737a81888f969da4abb2b9 at:0:3 -> value vec 151c232a31383f46$block 0 00070e151c232a31383f464d545b626970777e858c939aa1a8afb6bdc4cbd2d9e0e7eef5fc030a11181f262d343b424950575e656c737a81888f969da4abb2b9\n\
uint8x16_t f(uint8_t const *p0) { return vld1q_u8(p0); }\n\
 block:1:rw:00070e151c232a31383f464d545b626970777e858c939aa1a8afb6bdc4cbd2d9e0e7eef5fc030a11181f262d343b424950575e656c737a81888f969da4abb2b9 at:0:3 -> value vec 151c232a31383f464d545b626970777e$block 0 00070e151c232a31383f464d545b626970777e858c939aa1a8afb6bdc4cbd2d9e0e7eef5fc030a11181f262d343b424950575e656c737a81888f969da4abb2b9\n\
 block:1:rw:00070e151c232a31383f464d545b626970777e858c939aa1a8afb6bdc4cbd2d9e0e7eef5fc030a11181f262d343b424950575e656c737a81888f969da4abb2b9 at:0:3 -> value vec 151c232a31383f464d545b626970777e$block 0 00070e151c232a31383f464d545b626970777e858c939aa1a8afb6bdc4cbd2d9e0e7eef5fc030a11181f262d343b424950575e656c737a81888f969da4abb2b9\n\
 block:1:rw:00070e151c232a31383f464d545b626970777e858c939aa1a8afb6bdc4cbd2d9e0e7eef5fc030a11181f262d343b424950575e656c737a81888f969da4abb2b9 at:0:3 -> value vec 151c232a31383f464d545b626970777e$block 0 00070e151c232a31383f464d545b626970777e858c939aa1a8afb6bdc4cbd2d9e0e7eef5fc030a11181f262d343b424950575e656c737a81888f969da4abb2b9\n\
 block:1:rw:00070e151c232a31383f464d545b626970777e858c939aa1a8afb6bdc4cbd2d9e0e7eef5fc030a11181f262d343b424950575e656c737a81888f969da4abb2b9 at:0:3 -> value vec 151c232a31383f464d545b626970777e$block 0 00070e151c232a31383f464d545b626970777e858c939aa1a8afb6bdc4cbd2d9e0e7eef5fc030a11181f262d343b424950575e656c737a81888f969da4abb2b9\n\
 block:1:rw:00070e151c232a31383f464d545b626970777e858c939aa1a8afb6bdc4cbd2d9e0e7eef5fc030a11181f262d343b424950575e656c737a81888f969da4abb2b9 at:0:3 -> value vec 151c232a31383f464d545b626970777e$block 0 00070e151c232a31383f464d545b626970777e858c939aa1a8afb6bdc4cbd2d9e0e7eef5fc030a11181f262d343b424950575e656c737a81888f969da4abb2b9\n\
 block:1:rw:00070e151c232a31383f464d545b626970777e858c939aa1a8afb6bdc4cbd2d9e0e7eef5fc030a11181f262d343b424950575e656c737a81888f969da4abb2b9 at:0:3 -> value vec 151c232a31383f464d545b626970777e$block 0 00070e151c232a31383f464d545b626970777e858c939aa1a8afb6bdc4cbd2d9e0e7eef5fc030a11181f262d343b424950575e656c737a81888f969da4abb2b9\n\
uint8x16x2_t f(uint8_t const *p0) { return vld1q_u8_x2(p0); }\n\
 block:1:rw:00070e151c232a31383f464d545b626970777e858c939aa1a8afb6bdc4cbd2d9e0e7eef5fc030a11181f262d343b424950575e656c737a81888f969da4abb2b9 at:0:3 -> value vec 151c232a31383f464d545b626970777e858c939aa1a8afb6bdc4cbd2d9e0e7ee$block 0 00070e151c232a31383f464d545b626970777e858c939aa1a8afb6bdc4cbd2d9e0e7eef5fc030a11181f262d343b424950575e656c737a81888f969da4abb2b9\n\
 block:1:rw:00070e151c232a31383f464d545b626970777e858c939aa1a8afb6bdc4cbd2d9e0e7eef5fc030a11181f262d343b424950575e656c737a81888f969da4abb2b9 at:0:3 -> value vec 151c232a31383f464d545b626970777e858c939aa1a8afb6bdc4cbd2d9e0e7ee$block 0 00070e151c232a31383f464d545b626970777e858c939aa1a8afb6bdc4cbd2d9e0e7eef5fc030a11181f262d343b424950575e656c737a81888f969da4abb2b9\n\
 block:1:rw:00070e151c232a31383f464d545b626970777e858c939aa1a8afb6bdc4cbd2d9e0e7eef5fc030a11181f262d343b424950575e656c737a81888f969da4abb2b9 at:0:3 -> value vec 151c232a31383f464d545b626970777e858c939aa1a8afb6bdc4cbd2d9e0e7ee$block 0 00070e151c232a31383f464d545b626970777e858c939aa1a8afb6bdc4cbd2d9e0e7eef5fc030a11181f262d343b424950575e656c737a81888f969da4abb2b9\n\
 block:1:rw:00070e151c232a31383f464d545b626970777e858c939aa1a8afb6bdc4cbd2d9e0e7eef5fc030a11181f262d343b424950575e656c737a81888f969da4abb2b9 at:0:3 -> value vec 151c232a31383f464d545b626970777e858c939aa1a8afb6bdc4cbd2d9e0e7ee$block 0 00070e151c232a31383f464d545b626970777e858c939aa1a8afb6bdc4cbd2d9e0e7eef5fc030a11181f262d343b424950575e656c737a81888f969da4abb2b9\n\
 block:1:rw:00070e151c232a31383f464d545b626970777e858c939aa1a8afb6bdc4cbd2d9e0e7eef5fc030a11181f262d343b424950575e656c737a81888f969da4abb2b9 at:0:3 -> value vec 151c232a31383f464d545b626970777e858c939aa1a8afb6bdc4cbd2d9e0e7ee$block 0 00070e151c232a31383f464d545b626970777e858c939aa1a8afb6bdc4cbd2d9e0e7eef5fc030a11181f262d343b424950575e656c737a81888f969da4abb2b9\n\
 block:1:rw:00070e151c232a31383f464d545b626970777e858c939aa1a8afb6bdc4cbd2d9e0e7eef5fc030a11181f262d343b424950575e656c737a81888f969da4abb2b9 at:0:3 -> value vec 151c232a31383f464d545b626970777e858c939aa1a8afb6bdc4cbd2d9e0e7ee$block 0 00070e151c232a31383f464d545b626970777e858c939aa1a8afb6bdc4cbd2d9e0e7eef5fc030a11181f262d343b424950575e656c737a81888f969da4abb2b9\n\
int16x8_t f(int16x8_t p0, int16x8_t p1) { return vmaxq_s16(p0, p1); }\n\
 vec:01000180ffff018001000080a62aff7f vec:00800100ff5231bcffff01800000ff7f -> value vec 01000100ff5231bc01000180a62aff7f\n\
 vec:ffff0080feff0180a783008001800000 vec:0100ffff00800000fefffeff01800180 -> value vec 0100fffffeff0000fefffeff01800000\n\
 vec:6183ffff018000800000008099adffff vec:0100ff7f0180fffffefffeff00806dd5 -> value vec 0100ff7f0180ffff0000feff99adffff\n\
 vec:5e75feffff7f010001000000ff7f0080 vec:ff7fffff0000ff7faabeb2efffff0000 -> value vec ff7fffffff7fff7f01000000ff7f0000\n\
 vec:ff7f65a700000100feff0080ffffffff vec:ff7f0080fffffefffeff00000100ff7f -> value vec ff7f65a700000100feff00000100ff7f\n\
 vec:00000000feff0080316549e700000180 vec:01800180018001000080ff7fff7fffff -> value vec 00000000feff01003165ff7fff7fffff\n\
int32x4_t f(int32x4_t p0, int32x4_t p1) { return vmaxq_s32(p0, p1); }\n\
 vec:ffffffffffffffff8e8d649401000000 vec:01000080feffffff0100000001000080 -> value vec ffffffffffffffff0100000001000000\n\
 vec:00000080000000800100000001000080 vec:feffffff0100000000000080ffffff7f -> value vec feffffff0100000001000000ffffff7f\n\
int8x16_t f(int8x16_t p0, int8x16_t p1) { return vmaxq_s8(p0, p1); }\n\
 vec:00808043fe800181007f81f201818001 vec:80818081fe00fefe0101ff00fefefe04 -> value vec 00818043fe0001fe017fff0001fefe04\n\
 vec:000101ff018180c2c27f00011f7f74ff vec:fe7f6b71807f00ff808001fee0010000 -> value vec 007f6b71017f00ffc27f01011f7f7400\n\
uint16x8_t f(uint16x8_t p0, uint16x8_t p1) { return vmaxq_u16(p0, p1); }\n\
 vec:ffffda1cfeff911d0180a2db0100feff vec:ffff0000feff0080cbbd00800100ffff -> value vec ffffda1cfeff0080cbbda2db0100ffff\n\
 vec:0180ff7f018000000000ff7fff300180 vec:0080ffffff7f0180ff7f0080e1ef0000 -> value vec 0180ffff01800180ff7f0080e1ef0180\n\
uint32x4_t f(uint32x4_t p0, uint32x4_t p1) { return vmaxq_u32(p0, p1); }\n\
 vec:ffffffff000000807709e179ffffff7f vec:6ed6c6ddfeffffffffffff7f5dcafe5c -> value vec fffffffffeffffffffffff7fffffff7f\n\
 vec:feffffff0000008001000000feffffff vec:0000000000000080feffffff00000000 -> value vec feffffff00000080fefffffffeffffff\n\
uint8x16_t f(uint8x16_t p0, uint8x16_t p1) { return vmaxq_u8(p0, p1); }\n\
 vec:7f7f01ff807f7f014b85807f81fe2380 vec:8080017f7ffeff16ff0081008080fe01 -> value vec 808001ff80feff16ff85817f81fefe80\n\
 vec:80fe0180018000000001800081807ffe vec:5ffe0100016eff007ffefe8100ac8103 -> value vec 80fe01800180ff007ffefe8181ac81fe\n\
uint32_t f(uint32x4_t p0) { return vmaxvq_u32(p0); }\n\
 vec:fffffffffeffffff0100008000000000 -> value int 4294967295\n\
 vec:0000008001000000feffffff01000080 -> value int 4294967294\n\
 vec:2756aaba00000000ffffffffffffffff -> value int 4294967295\n\
 vec:0000008001000080ffffff7f01000000 -> value int 2147483649\n\
 vec:d9212a0cffffff7fffffff7f00000000 -> value int 2147483647\n\
 vec:01000000feffffff00000000ffffffff -> value int 4294967295";

pub const PART_3: &str = "\
uint8_t f(uint8x16_t p0) { return vmaxvq_u8(p0); }\n\
 vec:000100fe818000807f018081fe010000 -> value int 254\n\
 vec:7f817f817f81ff819100fe7fffd00080 -> value int 255\n\
int16x8_t f(int16x8_t p0, int16x8_t p1) { return vminq_s16(p0, p1); }\n\
 vec:00800100fffffeff0000ffffffff0000 vec:0000feff00000100ffff008001000000 -> value vec 0080fefffffffeffffff0080ffff0000\n\
 vec:018001000100000001800000ff7f0000 vec:ffffffff0080e2540100008000809874 -> value vec 0180ffff008000000180008000800000\n\
 vec:4e500e77ff7ffeff008069250000feff vec:0180feff00800100feff0100feff0100 -> value vec 0180feff0080feff00800100fefffeff\n\
 vec:507bff7f0100ad23fefffffffefffeff vec:d0a9ff7fff7fff7ffeff00800000ff7f -> value vec d0a9ff7f0100ad23feff0080fefffeff\n\
 vec:0100feff94f20100ffffffff0180feff vec:ffffffffffff4199ffff010000003a7c -> value vec fffffeff94f24199ffffffff0180feff\n\
 vec:feff0180ff7f008001800100feff0180 vec:0080a6620180ff7f01000100ff7fff7f -> value vec 008001800180008001800100feff0180\n\
int32x4_t f(int32x4_t p0, int32x4_t p1) { return vminq_s32(p0, p1); }\n\
 vec:ffffff7f00000080ffffff7fffffff7f vec:01000080ffffffffffffff7f00000000 -> value vec 0100008000000080ffffff7f00000000\n\
 vec:feffffff01000000ffffff7fffffff7f vec:32a731c200000080ffffffffcab70268 -> value vec 32a731c200000080ffffffffcab70268\n\
int8x16_t f(int8x16_t p0, int8x16_t p1) { return vminq_s8(p0, p1); }\n\
 vec:580181fefe00fe80ff80ff7f8101ffbf vec:fe2981ff7f807f7ffe00008080ff0101 -> value vec fe0181fefe80fe80fe80ff8080ffffbf\n\
 vec:01fe818000ff80008100c6590081f411 vec:80007f00fe807ffe817f7f7f8081ea7f -> value vec 80fe8180fe8080fe8100c6598081ea11\n\
uint16x8_t f(uint16x8_t p0, uint16x8_t p1) { return vminq_u16(p0, p1); }\n\
 vec:ff7fffffff7f0180ffffff7f01000000 vec:ffff01000000ffffff7f0000feff0000 -> value vec ff7f010000000180ff7f000001000000\n\
 vec:ff7f000000800100ffff76b000800080 vec:00800080fefffffffeff0000ff7f0180 -> value vec ff7f000000800100feff0000ff7f0080\n\
uint32x4_t f(uint32x4_t p0, uint32x4_t p1) { return vminq_u32(p0, p1); }\n\
 vec:01000000feffffff0100008001000000 vec:ffffffff0100000000000000feffffff -> value vec 01000000010000000000000001000000\n\
 vec:feffffff01000000ffffff7fffffff7f vec:00000080ffffffff0100008000000000 -> value vec 0000008001000000ffffff7f00000000\n\
uint8x16_t f(uint8x16_t p0, uint8x16_t p1) { return vminq_u8(p0, p1); }\n\
 vec:81817fdcffffff0181ff007ffe807ffe vec:810081fe008101810000f480008180fe -> value vec 81007fdc008101010000007f00807ffe\n\
 vec:007f800100fe7f808000fe7f7f30ff01 vec:feffc70100017ffe7f7fff804f818100 -> value vec 007f800100017f807f00fe7f4f308100\n\
uint16_t f(uint16x8_t p0) { return vminvq_u16(p0); }\n\
 vec:ff7f01800100ffff0100c602feff0080 -> value int 1\n\
 vec:0000fffffeff0080ff7fe21801000000 -> value int 0\n\
 vec:0100ffff0080feff0100ff7f00800180 -> value int 1\n\
 vec:ffff01800080ffff0100feffff7fffff -> value int 1\n\
 vec:0080ffffffffff7ffeff0100feff0000 -> value int 0\n\
 vec:0100eb076b7cffff0180000001000000 -> value int 0\n\
uint8_t f(uint8x16_t p0) { return vminvq_u8(p0); }\n\
 vec:7fff01804a7f807ffe807f01ff8000fe -> value int 0\n\
 vec:818000002c0100ff010081817f00fe7f -> value int 0\n\
int32x4_t f(int16x8_t p0) { return vmovl_high_s16(p0); }\n\
 vec:01000100010000000100ff7fffff0080 -> value vec 01000000ff7f0000ffffffff0080ffff\n\
 vec:01000180649d0180ffff00000100ff7f -> value vec ffffffff0000000001000000ff7f0000\n\
 vec:614d0000fffffeff0180000001000080 -> value vec 0180ffff00000000010000000080ffff\n\
 vec:008001000100ff7fff7fff7f0100f7ca -> value vec ff7f0000ff7f000001000000f7caffff\n\
 vec:000000800080008001806d0effffff7f -> value vec 0180ffff6d0e0000ffffffffff7f0000\n\
 vec:ff8aff7ff00effffffffffffffff0080 -> value vec ffffffffffffffffffffffff0080ffff\n\
int64x2_t f(int32x4_t p0) { return vmovl_high_s32(p0); }\n\
 vec:00000080010000000100000000000080 -> value vec 010000000000000000000080ffffffff\n\
 vec:9eeccf9c01000000010000004b40c482 -> value vec 01000000000000004b40c482ffffffff\n\
int16x8_t f(int8x16_t p0) { return vmovl_high_s8(p0); }\n\
 vec:81dffe800001fe0081ff0181fe80fffe -> value vec 81ffffff010081fffeff80fffffffeff\n\
 vec:818000ffa301a9017f00007f0001eafe -> value vec 7f00000000007f0000000100eafffeff\n\
uint32x4_t f(uint16x8_t p0) { return vmovl_high_u16(p0); }\n\
 vec:0000ff7fff7f008000801b040080ffff -> value vec 008000001b04000000800000ffff0000\n\
 vec:eac6ffff0180ff7f000001800100feff -> value vec 000000000180000001000000feff0000\n\
uint64x2_t f(uint32x4_t p0) { return vmovl_high_u32(p0); }\n\
 vec:ffffffff0000008000000080feffffff -> value vec 0000008000000000feffffff00000000\n\
 vec:00000000010000000100008079af0f03 -> value vec 010000800000000079af0f0300000000\n\
uint16x8_t f(uint8x16_t p0) { return vmovl_high_u8(p0); }\n\
 vec:ffffffb3fe817fff01ff81007ffe817f -> value vec 0100ff00810000007f00fe0081007f00\n\
 vec:80fe80008180fe0001ff0080fefe00fe -> value vec 0100ff0000008000fe00fe000000fe00\n\
int32x4_t f(int16x4_t p0) { return vmovl_s16(p0); }\n\
 vec:ff7feb73ffff0180 -> value vec ff7f0000eb730000ffffffff0180ffff\n\
 vec:0000ff7fffffffff -> value vec 00000000ff7f0000ffffffffffffffff\n\
 vec:ff7f01000fa10100 -> value vec ff7f0000010000000fa1ffff01000000\n\
 vec:feff0100ffffffff -> value vec feffffff01000000ffffffffffffffff\n\
 vec:ffffffff4eeaffff -> value vec ffffffffffffffff4eeaffffffffffff\n\
 vec:0100feff0080ffff -> value vec 01000000feffffff0080ffffffffffff\n\
int64x2_t f(int32x2_t p0) { return vmovl_s32(p0); }\n\
 vec:ffffff7f00000080 -> value vec ffffff7f0000000000000080ffffffff\n\
 vec:ffffff7f00000080 -> value vec ffffff7f0000000000000080ffffffff\n\
int16x8_t f(int8x8_t p0) { return vmovl_s8(p0); }\n\
 vec:fffefe80ff807f7f -> value vec fffffefffeff80ffffff80ff7f007f00\n\
 vec:7fffe80100ff8001 -> value vec 7f00ffffe8ff01000000ffff80ff0100\n\
uint32x4_t f(uint16x4_t p0) { return vmovl_u16(p0); }\n\
 vec:825700000180ff7f -> value vec 825700000000000001800000ff7f0000\n\
 vec:0180000083f5feff -> value vec 018000000000000083f50000feff0000\n\
uint64x2_t f(uint32x2_t p0) { return vmovl_u32(p0); }\n\
 vec:feffffff049ce017 -> value vec feffffff00000000049ce01700000000\n\
 vec:ffffffff01000080 -> value vec ffffffff000000000100008000000000\n\
uint16x8_t f(uint8x8_t p0) { return vmovl_u8(p0); }\n\
 vec:81fe01e2b1ff0100 -> value vec 8100fe000100e200b100ff0001000000\n\
 vec:7f8100fffe8000fe -> value vec 7f0081000000ff00fe0080000000fe00\n\
int8x8_t f(int16x8_t p0) { return vmovn_s16(p0); }\n\
 vec:00800080ef43feffff7fff7fffff0000 -> value vec 0000effeffffff00\n\
 vec:0080e563018001000000ffff0080ff7f -> value vec 00e5010100ff00ff\n\
 vec:ff7fc15201000180ffff0000ff7f0180 -> value vec ffc10101ff00ff01\n\
 vec:feffffff01000100ff7fff7f892cffff -> value vec feff0101ffff89ff\n\
 vec:6533ffff0180a4994af2018000800080 -> value vec 65ff01a44a010000\n\
 vec:01800000ffff01000100fefffffffeff -> value vec 0100ff0101fefffe\n\
int16x4_t f(int32x4_t p0) { return vmovn_s32(p0); }\n\
 vec:01000000feffffff01000080ffffffff -> value vec 0100feff0100ffff\n\
 vec:000000800100000000000080ffffff7f -> value vec 000001000000ffff\n\
int32x2_t f(int64x2_t p0) { return vmovn_s64(p0); }\n\
 vec:00000000000000000100000000000000 -> value vec 0000000001000000\n\
 vec:01000000000000800100000000000080 -> value vec 0100000001000000\n\
uint8x8_t f(uint16x8_t p0) { return vmovn_u16(p0); }\n\
 vec:4355ff7f008097ca0100f94101800180 -> value vec 43ff009701f90101\n\
 vec:ff7ffc52ffffff7f00000000ff7ff9cd -> value vec fffcffff0000fff9\n\
uint16x4_t f(uint32x4_t p0) { return vmovn_u32(p0); }\n\
 vec:34f6669fffffff7f0000000000000000 -> value vec 34f6ffff00000000\n\
 vec:000000001eab490100000000ffffff7f -> value vec 00001eab0000ffff\n\
uint32x2_t f(uint64x2_t p0) { return vmovn_u64(p0); }\n\
 vec:ffffffffffffffffffffffffffffff7f -> value vec ffffffffffffffff\n\
 vec:00000000000000800000000000000000 -> value vec 0000000000000000\n\
int32x4_t f(int16x8_t p0, int16x8_t p1) { return vmull_high_s16(p0, p1); }\n\
 vec:0100ffffd0b20180018088f200800180 vec:ff7f000000800080ffffff7ffeff0080 -> value vec ff7f0000780d44f9000001000080ff3f\n\
 vec:feff0180ffff0100ff7f0000feff0100 vec:0080ff7f0000ffffff7fffff0100ffff -> value vec 0100ff3f00000000feffffffffffffff\n\
 vec:0000feff0180ff7ffeff0100ffff0000 vec:00e90080feff00800080018000000180 -> value vec 000001000180ffff0000000000000000\n\
 vec:01800100018001800080000058390000 vec:00008dedf566fefffeff010001800100 -> value vec 0000010000000000583954e300000000\n\
 vec:b61a0100000003520000ffff01800180 vec:feff008000000100feff018000800080 -> value vec 00000000ff7f00000080ff3f0080ff3f\n\
 vec:01800080feff00800100fffffeffb7b7 vec:fffffeffff7fff7ffeff00800100feff -> value vec feffffff00800000feffffff92900000\n\
int64x2_t f(int32x4_t p0, int32x4_t p1) { return vmull_high_s32(p0, p1); }\n\
 vec:fffffffffeffffffffffffffffffffff vec:ffffffffffffff7f01000000ffffffff -> value vec ffffffffffffffff0100000000000000\n\
 vec:ffffff7ffefffffffeffffffffffff7f vec:ffffff7f000000000000000000000080 -> value vec 000000000000000000000080000000c0\n\
int16x8_t f(int8x16_t p0, int8x16_t p1) { return vmull_high_s8(p0, p1); }\n\
 vec:7fff008081fe801c00ffff008180807f vec:81fe9801fefe00810136ff8080ac0181 -> value vec 0000caff01000000803f002a80ffffc0\n\
 vec:018081fefffffefeff81817ffefe8000 vec:7f80018000dd7f7fff900081ff7f8000 -> value vec 010090370000ffc0020002ff00400000\n\
uint32x4_t f(uint16x8_t p0, uint16x8_t p1) { return vmull_high_u16(p0, p1); }\n\
 vec:ffffff7f000001000180ff7ffeff0080 vec:01800180010001806117a4230080feff -> value vec 6197b00b5cdcd1110000ff7f0000ff7f\n\
 vec:feff4d50a524ff7fffff0080b5190000 vec:00000000ff7f0080fffffeff01000080 -> value vec 0100feff0000ff7fb519000000000000\n\
uint64x2_t f(uint32x4_t p0, uint32x4_t p1) { return vmull_high_u32(p0, p1); }\n\
 vec:feffffff00000080ffffff7f9275e2a3 vec:01000000feffffffd0aa942801000000 -> value vec 30556bd767554a149275e2a300000000\n\
 vec:010000800000000001000000ffffff7f vec:0000000000000000ffffff7f01000000 -> value vec ffffff7f00000000ffffff7f00000000\n\
uint16x8_t f(uint8x16_t p0, uint8x16_t p1) { return vmull_high_u8(p0, p1); }\n\
 vec:00fe80ebfeff80feff0001017f008001 vec:df01818180fe818901fe017f01fffe01 -> value vec ff00000001007f007f000000007f0100\n\
 vec:7ffeffff00017fffff7f00fe25ff81a5 vec:01b48181ff01e5818d81017ffe7f7fff -> value vec 738cff3f0000027eb624817eff3f5ba4\n\
int32x4_t f(int16x4_t p0, int16x4_t p1) { return vmull_s16(p0, p1); }\n\
 vec:ff7f000000806aa4 vec:c3ac0080137c0180 -> value vec 3dd361d6000000000080f6c16aa4ca2d\n\
 vec:ffff018001000000 vec:000000000080ffff -> value vec 00000000000000000080ffff00000000\n\
 vec:008000800000feff vec:008085500180feff -> value vec 000000400080bdd70000000004000000\n\
 vec:00000000ffff20f0 vec:0100fefffeff605a -> value vec 000000000000000002000000004c65fa\n\
 vec:feff01000080ff7f vec:f524feff01808495 -> value vec 16b6fffffeffffff0080ff3f7c6ac2ca\n\
 vec:0080fefffeff0100 vec:00000000ffff0000 -> value vec 00000000000000000200000000000000\n\
int64x2_t f(int32x2_t p0, int32x2_t p1) { return vmull_s32(p0, p1); }\n\
 vec:45765bb4955b0e53 vec:00000080feffffff -> value vec 00000080dd44d225d648e359ffffffff\n\
 vec:0100008001000080 vec:00000080feffffff -> value vec 00000080ffffff3ffeffffff00000000\n\
int16x8_t f(int8x8_t p0, int8x8_t p1) { return vmull_s8(p0, p1); }\n\
 vec:7ffefe8101feee01 vec:808001807f817f00 -> value vec 80c00001feff803f7f00fe0012f70000\n\
 vec:0001817145010100 vec:0182fe8901007480 -> value vec 000082fffe0079cb4500000074000000\n\
uint32x4_t f(uint16x4_t p0, uint16x4_t p1) { return vmull_u16(p0, p1); }\n\
 vec:6dc5000001800180 vec:008000000080ffff -> value vec 0080b6620000000000800040ff7f0080\n\
 vec:ff7ffeff5f67ff7f vec:ffff00000100ffff -> value vec 0180fe7f000000005f6700000180fe7f\n\
uint64x2_t f(uint32x2_t p0, uint32x2_t p1) { return vmull_u32(p0, p1); }\n\
 vec:ffffffff01000000 vec:01000000ffffffff -> value vec ffffffff00000000ffffffff00000000\n\
 vec:0b97e858feffffff vec:0100008000000000 -> value vec 0b97e8d8854b742c0000000000000000\n\
uint16x8_t f(uint8x8_t p0, uint8x8_t p1) { return vmull_u8(p0, p1); }\n\
 vec:8180fe7f807fff80 vec:ffff01800081ff80 -> value vec 7f80807ffe00803f0000ff3f01fe0040\n\
 vec:805a7fff01d88180 vec:0043fefe7ffe007f -> value vec 00008e17027e02fd7f0050d60000803f\n\
int16x8_t f(int16x8_t p0, int16x8_t p1) { return vmulq_s16(p0, p1); }\n\
 vec:ff7f0080fffffeff0100feffff7f0080 vec:3da1feffff7fff7f01800080ff7ffeff -> value vec c3de0000018002000180000001000000\n\
 vec:01800180000001800080feff01000180 vec:1c8dfeffe6d600000000ffff0180ffff -> value vec 1c8dfeff00000000000002000180ff7f\n\
 vec:fffff03f0100c5d500800000ff7f7395 vec:0180ff7f018000800080ffff9c08ffff -> value vec ff7f10c0018000800000000064f78d6a\n\
 vec:0080ff7ffffffeffec40018055d5feff vec:feff0180feffffff0080ff7fff7f2ac5 -> value vec 0000ffff020002000000ffffabaaac75\n\
 vec:0100008001000100d1baf5a0feff0080 vec:c6c037240000fffffeffff7f0180ffff -> value vec c6c000800000ffff5e8a0bdffeff0080\n\
 vec:0180ff7f00805dbc0000ffff0180ff7f vec:ff7fdd3d00008c270080010001803481 -> value vec ffff23420000dc2d0000ffff0100cc7e\n\
int32x4_t f(int32x4_t p0, int32x4_t p1) { return vmulq_s32(p0, p1); }\n\
 vec:0000000001000080ef521553d7ab3d41 vec:000000000100008026a574e727679cee -> value vec 00000000010000007a5aea50c1ae8c59\n\
 vec:feffffff00000080eddd33f901000080 vec:fefffffffffffffffeffffff01000080 -> value vec 04000000000000802644980d01000000\n\
int8x16_t f(int8x16_t p0, int8x16_t p1) { return vmulq_s8(p0, p1); }\n\
 vec:81010101adfe4b017f7f7f00007f80ff vec:feff008101fe01fe017ffe7f01ff7f01 -> value vec feff0081ad044bfe7f010200008180ff\n\
 vec:80ff807f00017fff00ffc280fe00ff1f vec:807f7fff8101ff81ff7f815480808000 -> value vec 008180810001817f0081c20000008000\n\
uint16x8_t f(uint16x8_t p0, uint16x8_t p1) { return vmulq_u16(p0, p1); }\n\
 vec:feff0080fffffeff0000ffff0080ff7f vec:0180ffff00800100ff7fffff00804400 -> value vec feff00800080feff000001000000bcff\n\
 vec:0000ff7f0080ff7f1ad5feff0180ffff vec:0180fffffeffff7f6540ffffff7f078c -> value vec 000001800000010042930200fffff973\n\
uint32x4_t f(uint32x4_t p0, uint32x4_t p1) { return vmulq_u32(p0, p1); }\n\
 vec:ffffff7fffffff7f0000008000000080 vec:000000000100000001000080ffffff7f -> value vec 00000000ffffff7f0000008000000080\n\
 vec:01000000ffffff7ff98896b9ffffff7f vec:00000000ffffff7f5c24c799feffffff -> value vec 00000000010000007c3deb2702000000\n\
uint8x16_t f(uint8x16_t p0, uint8x16_t p1) { return vmulq_u8(p0, p1); }\n\
 vec:01008101fefe8181fffe210b018180ed vec:76ff8100ff80feff007f007f5281ff01 -> value vec 760001000200fe7f00020075520180ed\n\
 vec:01fe01fe80fe01017f65ff0100807f2e vec:00ff810181fe0d80ff497f0100fe01fe -> value vec 000281fe80040d8081cd810100007fa4\n\
uint16x8_t f(uint16x8_t p0) { return vmvnq_u16(p0); }\n\
 vec:010001803f440180ff7fff7fbe750100 -> value vec fefffe7fc0bbfe7f00800080418afeff\n\
 vec:0180ffff0000fffffeff01000000ffff -> value vec fe7f0000ffff00000100feffffff0000\n\
 vec:feffffffaf2200800100feff2a30feff -> value vec 0100000050ddff7ffeff0100d5cf0100\n\
 vec:0809ff7f00000180ff7fffff01800080 -> value vec f7f60080fffffe7f00800000fe7fff7f\n\
 vec:ffff0100ffff0000feff0000ffffffff -> value vec 0000feff0000ffff0100ffff00000000\n\
 vec:feff00800180011000000100ffff0180 -> value vec 0100ff7ffe7ffeeffffffeff0000fe7f\n\
uint32x4_t f(uint32x4_t p0) { return vmvnq_u32(p0); }\n\
 vec:ffffff7fffffff7ffeffffff01000080 -> value vec 000000800000008001000000feffff7f\n\
 vec:ffffffff4bcaab3fffffffff8b54089a -> value vec 00000000b43554c00000000074abf765\n\
uint8x16_t f(uint8x16_t p0) { return vmvnq_u8(p0); }\n\
 vec:01fe7f0080108100feae0101ff8001ff -> value vec fe0180ff7fef7eff0151fefe007ffe00\n\
 vec:80817f7f01818181ff00ff007f817f7f -> value vec 7f7e8080fe7e7e7e00ff00ff807e8080\n\
int16x8_t f(int16x8_t p0) { return vnegq_s16(p0); }\n\
 vec:82e857b30180feff0000ffffffffff7f -> value vec 7e17a94cff7f02000000010001000180\n\
 vec:ffff00800000ff7f0080ffff00000000 -> value vec 01000080000001800080010000000000\n\
 vec:feffff7ffeff0000feffff94e1960100 -> value vec 02000180020000000200016b1f69ffff\n\
 vec:008001800000ff7f018000800180ffff -> value vec 0080ff7f00000180ff7f0080ff7f0100\n\
 vec:7db0ff7f0080000001800000ffff0080 -> value vec 834f018000800000ff7f000001000080\n\
 vec:0180feff00000100ff7f018000000080 -> value vec ff7f02000000ffff0180ff7f00000080\n\
int32x4_t f(int32x4_t p0) { return vnegq_s32(p0); }\n\
 vec:feffffffffffff7f01000000c29e4f9b -> value vec 0200000001000080ffffffff3e61b064\n\
 vec:00000000010000005918b70101000080 -> value vec 00000000ffffffffa7e748feffffff7f\n\
int64x2_t f(int64x2_t p0) { return vnegq_s64(p0); }\n\
 vec:0100000000000080ffffffffffffffff -> value vec ffffffffffffff7f0100000000000000\n\
 vec:00000000000000800000000000000000 -> value vec 00000000000000800000000000000000\n\
int8x16_t f(int8x16_t p0) { return vnegq_s8(p0); }\n\
 vec:ff81fffeff01017f008081807f81fefe -> value vec 017f010201ffff8100807f80817f0202\n\
 vec:0181fe808137feff80808080807f0001 -> value vec ff7f02807fc9020180808080808100ff";

pub const PART_4: &str = "\
int16x8_t f(int16x8_t p0, int16x8_t p1) { return vorrq_s16(p0, p1); }\n\
 vec:feff0000018001000080ffff0000ffff vec:255aff7f01802922ffff01800080feff -> value vec ffffff7f01802922ffffffff0080ffff\n\
 vec:000001000100feff0100000000800000 vec:018011890000bacc00000100af8eff7f -> value vec 018011890100feff01000100af8eff7f\n\
 vec:0080ff7f0080ffffffff6d5600000000 vec:ff7f44430180ff7f0180ff7f00000180 -> value vec ffffff7f0180ffffffffff7f00000180\n\
 vec:ff7f018001000000ffff3a3ab5b1ffff vec:0000ff7f0080ff7f6f000080ff7f0100 -> value vec ff7fffff0180ff7fffff3abaffffffff\n\
 vec:018000800100ffff0180bdf201000000 vec:00800080ffff0100ffffff7f01000000 -> value vec 01800080ffffffffffffffff01000000\n\
 vec:ffff0100ff7fff7fd3c4bff001803d1b vec:ffff01002a2400000100ff7f050e0080 -> value vec ffff0100ff7fff7fd3c4ffff058e3d9b\n\
int32x4_t f(int32x4_t p0, int32x4_t p1) { return vorrq_s32(p0, p1); }\n\
 vec:00000000feffffffb28a557dffffff7f vec:feffffff000000000100008001000080 -> value vec fefffffffeffffffb38a55fdffffffff\n\
 vec:00000000ffffff7fffffff7f00000000 vec:41706d6c010000000000000001000000 -> value vec 41706d6cffffff7fffffff7f01000000\n\
int64x2_t f(int64x2_t p0, int64x2_t p1) { return vorrq_s64(p0, p1); }\n\
 vec:01000000000000000000000000000000 vec:0100000000000080ffffffffffffff7f -> value vec 0100000000000080ffffffffffffff7f\n\
 vec:ea9c4bcbc103d83f0100000000000000 vec:00000000000000800000000000000000 -> value vec ea9c4bcbc103d8bf0100000000000000\n\
int8x16_t f(int8x16_t p0, int8x16_t p1) { return vorrq_s8(p0, p1); }\n\
 vec:00ff81000001ff7f818100ff01fe0101 vec:ff640000ffffff7fff8180ff018081fe -> value vec ffff8100ffffff7fff8180ff01fe81ff\n\
 vec:fe00fe00418181fefefe808000018081 vec:4a01807f81808001800080800190ee7f -> value vec fe01fe7fc18181fffefe80800191eeff\n\
uint16x8_t f(uint16x8_t p0, uint16x8_t p1) { return vorrq_u16(p0, p1); }\n\
 vec:01800100ff7f0080ffffffff3c580100 vec:ffff018000800000ffff00800080d1ba -> value vec ffff0180ffff0080ffffffff3cd8d1ba\n\
 vec:0080ff7fffff0000e136fffffeff0000 vec:00d1feff00800180ff7f01800100feff -> value vec 00d1ffffffff0180ff7ffffffffffeff\n\
uint32x4_t f(uint32x4_t p0, uint32x4_t p1) { return vorrq_u32(p0, p1); }\n\
 vec:feffffff0100000001000000cf28aad2 vec:01000000fefffffffeffffff01000000 -> value vec ffffffffffffffffffffffffcf28aad2\n\
 vec:000000005b73a9550000008001000000 vec:ffffffff00000080ffffff7f01000080 -> value vec ffffffff5b73a9d5ffffffff01000080\n\
uint64x2_t f(uint64x2_t p0, uint64x2_t p1) { return vorrq_u64(p0, p1); }\n\
 vec:00000000000000000000000000000080 vec:ffffffffffffff7f0100000000000000 -> value vec ffffffffffffff7f0100000000000080\n\
 vec:01000000000000000149966681be7ca2 vec:0000000000000000ffffffffffffffff -> value vec 0100000000000000ffffffffffffffff\n\
uint8x16_t f(uint8x16_t p0, uint8x16_t p1) { return vorrq_u8(p0, p1); }\n\
 vec:01ff0000807fff0079fe01fefefe01fe vec:7f00018b01807fbffffeff01fe01fefe -> value vec 7fff018b81ffffbffffefffffefffffe\n\
 vec:01807f7ffe7f00ff0000ff7f0001fe7f vec:7f9e7f00fefe01ffff80001c80ff01ff -> value vec 7f9e7f7ffeff01ffff80ff7f80ffffff\n\
int32x4_t f(int16x8_t p0) { return vpaddlq_s16(p0); }\n\
 vec:feff00000180fefffeff0100feff0180 -> value vec feffffffff7fffffffffffffff7fffff\n\
 vec:ff7f01800000ff7f018001000180ff7f -> value vec 00000000ff7f00000280ffff00000000\n\
 vec:00002d11feff00800180b2740100feff -> value vec 2d110000fe7fffffb3f4ffffffffffff\n\
 vec:cae6ffff000000800180feff0180feff -> value vec c9e6ffff0080ffffff7fffffff7fffff\n\
 vec:7e4a13a700000000ffffffff0180ff7f -> value vec 91f1ffff00000000feffffff00000000\n\
 vec:ffffff7ffeffffff0180ff7f0180ffff -> value vec fe7f0000fdffffff000000000080ffff\n\
int64x2_t f(int32x4_t p0) { return vpaddlq_s32(p0); }\n\
 vec:ffffffffffffff7ffeffffff00000080 -> value vec feffff7f00000000feffff7fffffffff\n\
 vec:0000008000000080ffffffff01000000 -> value vec 00000000ffffffff0000000000000000\n\
int16x8_t f(int8x16_t p0) { return vpaddlq_s8(p0); }\n\
 vec:7ffe019300fe805d807fff01004081fe -> value vec 7d0094fffeffddffffff000040007fff\n\
 vec:ffffff81ff81817fff81ff007fe88101 -> value vec feff80ff80ff000080ffffff670082ff\n\
uint32x4_t f(uint16x8_t p0) { return vpaddlq_u16(p0); }\n\
 vec:ffff1b2b0080feffffff010000800100 -> value vec 1a2b0100fe7f01000000010001800000\n\
 vec:ff7fffffffff008082dd008000000000 -> value vec fe7f0100ff7f0100825d010000000000\n\
uint64x2_t f(uint32x4_t p0) { return vpaddlq_u32(p0); }\n\
 vec:01000080feffffff0000008000000080 -> value vec ffffff7f010000000000000001000000\n\
 vec:ffffffff00000080feffffffec38510f -> value vec ffffff7f01000000ea38510f01000000\n\
uint16x8_t f(uint8x16_t p0) { return vpaddlq_u8(p0); }\n\
 vec:00fe81007f80807f7f007fff7c81807f -> value vec fe008100ff00ff007f007e01fd00ff00\n\
 vec:31897f01fe01fffefe7f7f007901fe80 -> value vec ba008000ff00fd017d017f007a007e01\n\
int16x8_t f(int16x8_t p0, int16x8_t p1) { return vpaddq_s16(p0, p1); }\n\
 vec:0100ffff299cff7f0080ff7fffff0100 vec:ffff000001000180ffff0180ffff0180 -> value vec 0000281cffff0000ffff028000800080\n\
 vec:01800000feff010001800000aa7ffeff vec:ff7f018001800180008000000000ffff -> value vec 0180ffff0180a87f000002000080ffff\n\
 vec:ffff0100ffffffff0080ff7f00000000 vec:feffffff896fff7f0080feffff7f0000 -> value vec 0000feffffff0000fdff88effe7fff7f\n\
 vec:008000800080ff7f0180018000000080 vec:90760000ffff00000100feff018086d7 -> value vec 0000ffff020000809076ffffffff8757\n\
 vec:feff0000000019f801800080ff7f0000 vec:0080ffff0180d874ffffffff68130080 -> value vec feff19f80100ff7fff7fd9f4feff6893\n\
 vec:ffff0080d85cd684feff008001000000 vec:ff7fffff018001800080ff7fffff0180 -> value vec ff7faee1fe7f0100fe7f0200ffff0080\n\
int32x4_t f(int32x4_t p0, int32x4_t p1) { return vpaddq_s32(p0, p1); }\n\
 vec:ffffff7fffffffff4a6c5c7301000000 vec:010000805aebbad8ffffffff2cbb31f6 -> value vec feffff7f4b6c5c735bebba582bbb31f6\n\
 vec:01000080010000800100008000000080 vec:00000000010000800100008001000080 -> value vec 02000000010000000100008002000000\n\
int64x2_t f(int64x2_t p0, int64x2_t p1) { return vpaddq_s64(p0, p1); }\n\
 vec:ffffffffffffff7f0000000000000080 vec:fffffffffffffffffeffffffffffffff -> value vec fffffffffffffffffdffffffffffffff\n\
 vec:fefffffffffffffffeffffffffffffff vec:ffffffffffffff7ffeffffffffffffff -> value vec fcfffffffffffffffdffffffffffff7f\n\
int8x16_t f(int8x16_t p0, int8x16_t p1) { return vpaddq_s8(p0, p1); }\n\
 vec:7f357f00800101807fff81812d517f7f vec:ffd1fe7f81ff8101807f7c7f80fefffe -> value vec b47f81817e027efed07d8082fffb7efd\n\
 vec:7fffff81ff7f8076ff812d8181ff0001 vec:ec8101fe937f7bff01ff007f80ff7fff -> value vec 7e807ef680ae80016dff127a007f7f7e\n\
uint16x8_t f(uint16x8_t p0, uint16x8_t p1) { return vpaddq_u16(p0, p1); }\n\
 vec:feff0080feffff7f0100ffff00000000 vec:6563ffff0080feff018099eaff7fea4e -> value vec fe7ffd7f000000006463fe7f9a6ae9ce\n\
 vec:feff00800180fffffeff4f0dff7ffeff vec:ff7fff7fa9e20100ffffffff01800100 -> value vec fe7f00804d0dfd7ffeffaae2feff0280\n\
uint32x4_t f(uint32x4_t p0, uint32x4_t p1) { return vpaddq_u32(p0, p1); }\n\
 vec:e81dc082ce9b94de01000000ffffffff vec:0000008001000080978cf777ffffffff -> value vec b6b954610000000001000000968cf777\n\
 vec:535b69d2ffffffff0000000001000000 vec:ffffff7f000000807d7bf62e8d397a94 -> value vec 525b69d201000000ffffffff0ab570c3\n\
uint64x2_t f(uint64x2_t p0, uint64x2_t p1) { return vpaddq_u64(p0, p1); }\n\
 vec:0100000000000000ffffffffffffffff vec:0100000000000080defcd5709ec36081 -> value vec 0000000000000000dffcd5709ec36001\n\
 vec:ffffffffffffffffffffffffffffffff vec:01000000000000000100000000000080 -> value vec feffffffffffffff0200000000000080\n\
uint8x16_t f(uint8x16_t p0, uint8x16_t p1) { return vpaddq_u8(p0, p1); }\n\
 vec:d2ff0100808100b881fe817ffffefe80 vec:0181ff008101fefe80db80ff7f800101 -> value vec d10101b87f00fd7e82ff82fc5b7fff02\n\
 vec:e800810181808081007ffe810120ff7f vec:01fe7f0081ffffff01fe7f7f7f00ff81 -> value vec e88201017f7f217eff7f80fefffe7f80\n\
int16x8_t f(int16x8_t p0, int16x8_t p1) { return vqaddq_s16(p0, p1); }\n\
 vec:0100fffffeffff7f00000180ffff0100 vec:000001000080ff7ffefffeffff7f0180 -> value vec 010000000080ff7ffeff0080fe7f0280\n\
 vec:00804d28ceb0feff0100ffff01000000 vec:feffffffffff0000f42901800180a272 -> value vec 00804c28cdb0fefff52900800280a272\n\
 vec:feff01000100ff7fffffffff01000080 vec:0100000000800100feff008000007c82 -> value vec ffff01000180ff7ffdff008001000080\n\
 vec:01000000ffff018000800180ff7f0080 vec:ffff00800080ffff01800180ffffffff -> value vec 000000800080008000800080fe7f0080\n\
 vec:feff0100ffffff7f0100010001800180 vec:ff7f0000000001000180008000800180 -> value vec fd7f0100ffffff7f0280018000800080\n\
 vec:0080ff7f45f6ff7f01000180ffff0080 vec:ffffff7f0000ff7f0000010001000000 -> value vec 0080ff7f45f6ff7f0100028000000080\n\
int32x4_t f(int32x4_t p0, int32x4_t p1) { return vqaddq_s32(p0, p1); }\n\
 vec:fefffffffefffffffeffffff7fcac7e8 vec:00000080fffffffffeffffff00000080 -> value vec 00000080fdfffffffcffffff00000080\n\
 vec:b7c131dc000000800000000000000000 vec:00000000feffffffffffffff00000080 -> value vec b7c131dc00000080ffffffff00000080\n\
int64x2_t f(int64x2_t p0, int64x2_t p1) { return vqaddq_s64(p0, p1); }\n\
 vec:feffffffffffffff0100000000000000 vec:feffffffffffffff0000000000000000 -> value vec fcffffffffffffff0100000000000000\n\
 vec:feffffffffffffff0100000000000000 vec:00000000000000000000000000000000 -> value vec feffffffffffffff0100000000000000\n\
int8x16_t f(int8x16_t p0, int8x16_t p1) { return vqaddq_s8(p0, p1); }\n\
 vec:817ffe727f00ff00007f9a00017ffe7f vec:ff7d0180fffe7f81fe89ff017f00ff80 -> value vec 807ffff27efe7e81fe0899017f7ffdff\n\
 vec:ff0181fcfeff7e017f017f81fe18fe00 vec:01fe01008100fefeff007fff0064007f -> value vec 00ff82fc80ff7cff7e017f80fe7cfe7f\n\
uint16x8_t f(uint16x8_t p0, uint16x8_t p1) { return vqaddq_u16(p0, p1); }\n\
 vec:feff00800080ff7fff7f0080feff0100 vec:ff7fff7f7b80ff7fffffff7ffeff0080 -> value vec fffffffffffffeffffffffffffff0180\n\
 vec:0180feffff7f00000000b8350000ff7f vec:407dffff00800100feff0180feff0000 -> value vec 41fdffffffff0100feffb9b5feffff7f\n\
uint32x4_t f(uint32x4_t p0, uint32x4_t p1) { return vqaddq_u32(p0, p1); }\n\
 vec:000000800100000000000000ffffffff vec:0000008001000080feffffffffffff7f -> value vec ffffffff02000080feffffffffffffff\n\
 vec:ffffffff0100008006f0d08801000080 vec:00000000ffffff7fffffff7fffffffff -> value vec ffffffffffffffffffffffffffffffff\n\
uint64x2_t f(uint64x2_t p0, uint64x2_t p1) { return vqaddq_u64(p0, p1); }\n\
 vec:ffffffffffffffff0000000000000000 vec:feffffffffffffff0100000000000080 -> value vec ffffffffffffffff0100000000000080\n\
 vec:98662b1a7456392d0100000000000080 vec:0000000000000000778fe5dc6bf6cab2 -> value vec 98662b1a7456392dffffffffffffffff\n\
uint8x16_t f(uint8x16_t p0, uint8x16_t p1) { return vqaddq_u8(p0, p1); }\n\
 vec:7f9f0180fe7f00000101018001800880 vec:fe017f80807f7f80800101017f01feff -> value vec ffa080fffffe7f80810202818081ffff\n\
 vec:fefe0080817f01810101fff800fe0001 vec:fefe7fff81ff8101817f8181feff80fe -> value vec ffff7fffffff82828280fffffeff80ff\n\
int8x8_t f(int16x8_t p0) { return vqmovn_s16(p0); }\n\
 vec:00800080a52bffff01000180ffff61c5 -> value vec 80807fff0180ff80\n\
 vec:0000ffff0180ff7f0180ffffff7f0180 -> value vec 00ff807f80ff7f80\n\
 vec:01000100ffff0100ff69feff00800180 -> value vec 0101ff017ffe8080\n\
 vec:010000800100ffff01800000018014c7 -> value vec 018001ff80008080\n\
 vec:00800000ffff0180fefffeff0080ae6f -> value vec 8000ff80fefe807f\n\
 vec:3d290080018000800080018000800100 -> value vec 7f80808080808001\n\
int16x4_t f(int32x4_t p0) { return vqmovn_s32(p0); }\n\
 vec:7799037801000000feffffff01000080 -> value vec ff7f0100feff0080\n\
 vec:01000000feffffff7a271941ffffffff -> value vec 0100feffff7fffff\n\
uint8x8_t f(uint16x8_t p0) { return vqmovn_u16(p0); }\n\
 vec:0180ff7f00800180678a0000feffffff -> value vec ffffffffff00ffff\n\
 vec:01800080ff7f01000180000001000100 -> value vec ffffff01ff000101\n\
uint16x4_t f(uint32x4_t p0) { return vqmovn_u32(p0); }\n\
 vec:00000080ffffffffffffff7ffeffffff -> value vec ffffffffffffffff\n\
 vec:ffffffffffffff7f01000080ffffffff -> value vec ffffffffffffffff\n\
uint8x8_t f(int16x8_t p0) { return vqmovun_s16(p0); }\n\
 vec:8d3c008001800100010001800080ffff -> value vec ff00000101000000\n\
 vec:ffffff7ffb69ffff0080fefffeffffff -> value vec 00ffff0000000000\n\
 vec:ff7f3b12feff01006a080000ffffff7f -> value vec ffff0001ff0000ff\n\
 vec:8955ffff01000080ff7f07c10080c9fd -> value vec ff000100ff000000\n\
 vec:ff7f0080ffffffffff7f010001800080 -> value vec ff000000ff010000\n\
 vec:ff7f00000000ffff01000100ff7f0100 -> value vec ff0000000101ff01\n\
uint16x4_t f(int32x4_t p0) { return vqmovun_s32(p0); }\n\
 vec:00000080ffffffff0000008000000000 -> value vec 0000000000000000\n\
 vec:01000000000000800100008000000000 -> value vec 0100000000000000\n\
int16x8_t f(int16x8_t p0, int16x8_t p1) { return vqsubq_s16(p0, p1); }\n\
 vec:0180010000000100fffffeff01800100 vec:feffff7f00000000ff7ff2370080ff7f -> value vec 038002800000010000800cc801000280\n\
 vec:00000080fffffeff0100e916ffffffff vec:0100ffff00000180ff7ffeffffffff7f -> value vec ffff0180fffffd7f0280eb1600000080\n\
 vec:f8d70000feffcead01000080ff7f0080 vec:feffff7fbb4b0080ff7fff7f00000000 -> value vec fad7018043b4ce2d02800080ff7f0080\n\
 vec:ff7f0080ff7f187200800100ffff0100 vec:feffff7ffeff0080ffffff7f00800080 -> value vec ff7f0080ff7fff7f01800280ff7fff7f\n\
 vec:38790180010000000180feff00000180 vec:0180fffffeffff7f0080ff7f01800080 -> value vec ff7f02800300018001000080ff7f0100\n\
 vec:0000fefffeff0000d9011179fffffeff vec:fefffeff0180feff31b7feffffff0080 -> value vec 02000000fd7f0200a84a13790000fe7f\n\
int32x4_t f(int32x4_t p0, int32x4_t p1) { return vqsubq_s32(p0, p1); }\n\
 vec:fffffffffeffffff0100008001000000 vec:ffffff7f01000080ffffff7fffffffff -> value vec 00000080fdffff7f0000008002000000\n\
 vec:fefffffffeffffff0000000001000080 vec:01000080010000000000008000000000 -> value vec fdffff7ffdffffffffffff7f01000080\n\
int64x2_t f(int64x2_t p0, int64x2_t p1) { return vqsubq_s64(p0, p1); }\n\
 vec:ffffffffffffff7f0000000000000080 vec:0000000000000000feffffffffffffff -> value vec ffffffffffffff7f0200000000000080\n\
 vec:af453fa995aef35c0000000000000080 vec:01000000000000800100000000000000 -> value vec ffffffffffffff7f0000000000000080\n\
int8x16_t f(int8x16_t p0, int8x16_t p1) { return vqsubq_s8(p0, p1); }\n\
 vec:81ffff800080f7ff81c8fe01ff00fd80 vec:ff80fe8180395ce601007f0001159d81 -> value vec 827f01ff7f809b1980c88001feeb60ff\n\
 vec:fe013201008001008881808180df7fff vec:7ffe0af37f7f80ff80fe8181ff81a1ff -> value vec 8003280e81807f010883ff00815e7f00\n\
uint16x8_t f(uint16x8_t p0, uint16x8_t p1) { return vqsubq_u16(p0, p1); }\n\
 vec:09c2008000800080ffffffff0080fa2c vec:018000803eb20180e38e01800000ffff -> value vec 08420000000000001c71fe7f00800000\n\
 vec:00800180ffff00002c2cfeffffff0080 vec:feff7e1cff7ffeff1bee00800180feff -> value vec 00008363008000000000fe7ffe7f0000\n\
uint32x4_t f(uint32x4_t p0, uint32x4_t p1) { return vqsubq_u32(p0, p1); }\n\
 vec:feffffff7ee8e2c2ffffffff00000000 vec:01000080feffffff00000080ffffffff -> value vec fdffff7f00000000ffffff7f00000000\n\
 vec:ffffff7f00000080a84cf8e600000080 vec:01000080010000000100008001000000 -> value vec 00000000ffffff7fa74cf866ffffff7f\n\
uint64x2_t f(uint64x2_t p0, uint64x2_t p1) { return vqsubq_u64(p0, p1); }\n\
 vec:0000000000000000ffffffffffffff7f vec:ffffffffffffffff0000000000000080 -> value vec 00000000000000000000000000000000\n\
 vec:e69a1ca22e48371cfeffffffffffffff vec:ffffffffffffff7f0000000000000080 -> value vec 0000000000000000feffffffffffff7f\n\
uint8x16_t f(uint8x16_t p0, uint8x16_t p1) { return vqsubq_u8(p0, p1); }\n\
 vec:000181fe817fff807700ff8000ff0101 vec:ff00007f4a7f010180b47f818001807f -> value vec 0001817f3700fe7f0000800000fe0000\n\
 vec:7f808501007f81ff7fff007ffe008001 vec:017f01f380808000817c808069010101 -> value vec 7e018400000001ff0083000095007f00\n\
uint8x16_t f(uint8x16_t p0, uint8x16_t p1) { return vqtbl1q_u8(p0, p1); }\n\
 vec:01818101ff00d5227ffeff01fe7f81fe vec:1f108020ff0f1f7f1fff7f027f1e801a -> value vec 0000000000fe00000000008100000000\n\
 vec:7f7fff007f7fff81fe01fec256ff0000 vec:ff80800f207f80100a1f1f1f100fffff -> value vec 0000000000000000fe00000000000000\n\
 vec:7f01feff81ff80ffff80809580008000 vec:ff131fff1f800f10060f0f10ff1b1010 -> value vec 00000000000000008000000000000000\n\
 vec:0080fe00010e3381fe81d2ff0081007f vec:ff088014147f801f201f802020ff1f0a -> value vec 00fe00000000000000000000000000d2\n\
 vec:801fff0000fffefeff0180007f017f80 vec:20801f1f7f800d1fff1f107f7fff2020 -> value vec 00000000000001000000000000000000\n\
 vec:00817e0801ff01017f8300fefe1eff00 vec:7fff1f7f1f80100f200f10102080161f -> value vec 00000000000000000000000000000000";

pub const PART_5: &str = "\
uint8x16_t f(uint8x16x2_t p0, uint8x16_t p1) { return vqtbl2q_u8(p0, p1); }\n\
 vec:8e7f0181fefe00ffff7f81ff817f817f7f7fff817fff800080ff0180fefe7f01 vec:208020807f201fff8020200f1f1f1f16 -> value vec 00000000000001000000007f01010180\n\
 vec:00800199ff0bff0081017f8101010080ff81fe7f00fe81ffd0ff810101814f81 vec:ff0f0fffff1f0f201f2080ff0fff1a1f -> value vec 00808000008180008100000080008181\n\
 vec:7fffea0080fe63ffff01011c7f818101ff0181ff8180017ffeff008001fe3880 vec:80ff017f0f1020ff207f80ff1f207fff -> value vec 0000ff0001ff00000000000080000000\n\
 vec:fefeff80ff01ff008180fefffe7f7fd43e7f01007f01ffff81fffe7f27fe7f00 vec:7f120bff1b0f1f801010080f1fff207f -> value vec 0001ff007fd400003e3e81d400000000\n\
 vec:8080017f00807ffe01817f8200fffe807f818001ff7fb9fe7fff88ff8081ff7f vec:0f801f0d10200f1f801f7f10ffff2010 -> value vec 80007fff7f00807f007f007f0000007f\n\
 vec:018001ffff7f817fba80814b7f01fefe8001ff147f0100000181424afe0100fe vec:05ff7f1b0f0effff1f7f1eff1bff100f -> value vec 7f00004afefe0000fe0000004a0080fe\n\
int16x4_t f(uint8x8_t p0) { return vreinterpret_s16_u8(p0); }\n\
 vec:81fe01010081ff01 -> value vec 81fe01010081ff01\n\
 vec:ffff8100feef8001 -> value vec ffff8100feef8001\n\
 vec:00ff0101008100ff -> value vec 00ff0101008100ff\n\
 vec:ff810001e7ff817f -> value vec ff810001e7ff817f\n\
 vec:fe7f7f81ff007f00 -> value vec fe7f7f81ff007f00\n\
 vec:0180fe8001817f80 -> value vec 0180fe8001817f80\n\
int32x2_t f(uint8x8_t p0) { return vreinterpret_s32_u8(p0); }\n\
 vec:800000017feba901 -> value vec 800000017feba901\n\
 vec:01feff0181810101 -> value vec 01feff0181810101\n\
int64x1_t f(uint8x8_t p0) { return vreinterpret_s64_u8(p0); }\n\
 vec:00fefe0180ff8080 -> value vec 00fefe0180ff8080\n\
 vec:01fec78080fe7f7f -> value vec 01fec78080fe7f7f\n\
int8x8_t f(uint8x8_t p0) { return vreinterpret_s8_u8(p0); }\n\
 vec:fffe010001ffff01 -> value vec fffe010001ffff01\n\
 vec:37000080fefefffe -> value vec 37000080fefefffe\n\
uint16x4_t f(uint8x8_t p0) { return vreinterpret_u16_u8(p0); }\n\
 vec:7f940001fe807f7f -> value vec 7f940001fe807f7f\n\
 vec:0181ffff01fe81ff -> value vec 0181ffff01fe81ff\n\
uint32x2_t f(uint8x8_t p0) { return vreinterpret_u32_u8(p0); }\n\
 vec:0181fefefefffe2f -> value vec 0181fefefefffe2f\n\
 vec:8081fe7f80ffff68 -> value vec 8081fe7f80ffff68\n\
uint64x1_t f(uint8x8_t p0) { return vreinterpret_u64_u8(p0); }\n\
 vec:7f00fefe80bc0101 -> value vec 7f00fefe80bc0101\n\
 vec:7f010efefd808081 -> value vec 7f010efefd808081\n\
uint8x8_t f(int16x4_t p0) { return vreinterpret_u8_s16(p0); }\n\
 vec:ff7fff7f00000100 -> value vec ff7fff7f00000100\n\
 vec:ffff008000800180 -> value vec ffff008000800180\n\
uint8x8_t f(int32x2_t p0) { return vreinterpret_u8_s32(p0); }\n\
 vec:01000080feffffff -> value vec 01000080feffffff\n\
 vec:aa4cc44700000080 -> value vec aa4cc44700000080\n\
uint8x8_t f(int64x1_t p0) { return vreinterpret_u8_s64(p0); }\n\
 vec:feffffffffffffff -> value vec feffffffffffffff\n\
 vec:ffffffffffffffff -> value vec ffffffffffffffff\n\
uint8x8_t f(int8x8_t p0) { return vreinterpret_u8_s8(p0); }\n\
 vec:7fff81ff0062bd01 -> value vec 7fff81ff0062bd01\n\
 vec:7f810000ff7f81ff -> value vec 7f810000ff7f81ff\n\
uint8x8_t f(uint16x4_t p0) { return vreinterpret_u8_u16(p0); }\n\
 vec:01800180ffff0180 -> value vec 01800180ffff0180\n\
 vec:00000080feffffff -> value vec 00000080feffffff\n\
uint8x8_t f(uint32x2_t p0) { return vreinterpret_u8_u32(p0); }\n\
 vec:00000000ffffffff -> value vec 00000000ffffffff\n\
 vec:01000080ffffffff -> value vec 01000080ffffffff\n\
uint8x8_t f(uint64x1_t p0) { return vreinterpret_u8_u64(p0); }\n\
 vec:0000000000000000 -> value vec 0000000000000000\n\
 vec:0000000000000000 -> value vec 0000000000000000\n\
int16x8_t f(int32x4_t p0) { return vreinterpretq_s16_s32(p0); }\n\
 vec:000000000100008000000000ffffffff -> value vec 000000000100008000000000ffffffff\n\
 vec:00000080ffffffff9f72017101000080 -> value vec 00000080ffffffff9f72017101000080\n\
 vec:ffffff7f00000000ffffff7f01000000 -> value vec ffffff7f00000000ffffff7f01000000\n\
 vec:d1ff92de010000000100008000000080 -> value vec d1ff92de010000000100008000000080\n\
 vec:000000800100008052d5fe30feffffff -> value vec 000000800100008052d5fe30feffffff\n\
 vec:ffffff7fffffffff01000000ffffff7f -> value vec ffffff7fffffffff01000000ffffff7f\n\
int16x8_t f(int64x2_t p0) { return vreinterpretq_s16_s64(p0); }\n\
 vec:6730935720c78ded0100000000000080 -> value vec 6730935720c78ded0100000000000080\n\
 vec:0000000000000080feffffffffffffff -> value vec 0000000000000080feffffffffffffff\n\
int16x8_t f(int8x16_t p0) { return vreinterpretq_s16_s8(p0); }\n\
 vec:0181fe0001fefe8181ffe57fffff01f2 -> value vec 0181fe0001fefe8181ffe57fffff01f2\n\
 vec:007f0081807fff80807f81ff7f8101d4 -> value vec 007f0081807fff80807f81ff7f8101d4\n\
int16x8_t f(uint16x8_t p0) { return vreinterpretq_s16_u16(p0); }\n\
 vec:ff7fcd324173b899ff7f0180ffffffff -> value vec ff7fcd324173b899ff7f0180ffffffff\n\
 vec:0180ffffffffffff0180ffff01000180 -> value vec 0180ffffffffffff0180ffff01000180\n\
int16x8_t f(uint32x4_t p0) { return vreinterpretq_s16_u32(p0); }\n\
 vec:000000800000008006eb23e001000000 -> value vec 000000800000008006eb23e001000000\n\
 vec:feffffff0100000000000080ea293945 -> value vec feffffff0100000000000080ea293945\n\
int16x8_t f(uint64x2_t p0) { return vreinterpretq_s16_u64(p0); }\n\
 vec:0000000000000000ffffffffffffff7f -> value vec 0000000000000000ffffffffffffff7f\n\
 vec:0100000000000000ffffffffffffffff -> value vec 0100000000000000ffffffffffffffff\n\
int16x8_t f(uint8x16_t p0) { return vreinterpretq_s16_u8(p0); }\n\
 vec:85a5fe807f01fffffe8001008134fefe -> value vec 85a5fe807f01fffffe8001008134fefe\n\
 vec:7fff0001007fffffffff81fe01808000 -> value vec 7fff0001007fffffffff81fe01808000\n\
int32x4_t f(int16x8_t p0) { return vreinterpretq_s32_s16(p0); }\n\
 vec:ffff0100ffff000001800080ffff0100 -> value vec ffff0100ffff000001800080ffff0100\n\
 vec:00000100ffff0180ffff0180feffffff -> value vec 00000100ffff0180ffff0180feffffff\n\
int32x4_t f(int64x2_t p0) { return vreinterpretq_s32_s64(p0); }\n\
 vec:ffffffffffffffff0100000000000080 -> value vec ffffffffffffffff0100000000000080\n\
 vec:00000000000000807750c6fd6a212e75 -> value vec 00000000000000807750c6fd6a212e75\n\
int32x4_t f(int8x16_t p0) { return vreinterpretq_s32_s8(p0); }\n\
 vec:807f00818187fffe807f8180ff4effff -> value vec 807f00818187fffe807f8180ff4effff\n\
 vec:007f0000fe01ff0080ff8181ff007f81 -> value vec 007f0000fe01ff0080ff8181ff007f81\n\
int32x4_t f(uint16x8_t p0) { return vreinterpretq_s32_u16(p0); }\n\
 vec:0100000000804c270180ff7fff7f0180 -> value vec 0100000000804c270180ff7fff7f0180\n\
 vec:0180ff7f01800180a907018001000100 -> value vec 0180ff7f01800180a907018001000100\n\
int32x4_t f(uint32x4_t p0) { return vreinterpretq_s32_u32(p0); }\n\
 vec:ffffff7f04eb3b2249275a7d00000080 -> value vec ffffff7f04eb3b2249275a7d00000080\n\
 vec:ffffff7f00000080010000809b816db9 -> value vec ffffff7f00000080010000809b816db9\n\
int32x4_t f(uint64x2_t p0) { return vreinterpretq_s32_u64(p0); }\n\
 vec:fffffffffffffffffeffffffffffffff -> value vec fffffffffffffffffeffffffffffffff\n\
 vec:f45779ed75cb30b70100000000000080 -> value vec f45779ed75cb30b70100000000000080\n\
int32x4_t f(uint8x16_t p0) { return vreinterpretq_s32_u8(p0); }\n\
 vec:7f810181819281fe7f0180ff01fb817f -> value vec 7f810181819281fe7f0180ff01fb817f\n\
 vec:807fff01ff001bfeff8181fe00f2fe00 -> value vec 807fff01ff001bfeff8181fe00f2fe00\n\
int64x2_t f(int16x8_t p0) { return vreinterpretq_s64_s16(p0); }\n\
 vec:ff7fffffff7f0000fefffeff00800180 -> value vec ff7fffffff7f0000fefffeff00800180\n\
 vec:ff7ffffffeff00800100008001800000 -> value vec ff7ffffffeff00800100008001800000\n\
int64x2_t f(int32x4_t p0) { return vreinterpretq_s64_s32(p0); }\n\
 vec:ffffffff00000080147df935feffffff -> value vec ffffffff00000080147df935feffffff\n\
 vec:01000080feffffff0100000001000000 -> value vec 01000080feffffff0100000001000000\n\
int64x2_t f(int8x16_t p0) { return vreinterpretq_s64_s8(p0); }\n\
 vec:0000007f8000fe80fe81fffffe008025 -> value vec 0000007f8000fe80fe81fffffe008025\n\
 vec:ff8180018081fe010080feff00017f81 -> value vec ff8180018081fe010080feff00017f81\n\
int64x2_t f(uint16x8_t p0) { return vreinterpretq_s64_u16(p0); }\n\
 vec:d787ff7f101a263300800100feff9144 -> value vec d787ff7f101a263300800100feff9144\n\
 vec:0080ffffc256ffff00800000feff0100 -> value vec 0080ffffc256ffff00800000feff0100\n\
int64x2_t f(uint32x4_t p0) { return vreinterpretq_s64_u32(p0); }\n\
 vec:010000000100008000000000ffffffff -> value vec 010000000100008000000000ffffffff\n\
 vec:00000000ffffff7f0100000001000000 -> value vec 00000000ffffff7f0100000001000000\n\
int64x2_t f(uint64x2_t p0) { return vreinterpretq_s64_u64(p0); }\n\
 vec:01000000000000800000000000000080 -> value vec 01000000000000800000000000000080\n\
 vec:ffffffffffffff7fffffffffffffffff -> value vec ffffffffffffff7fffffffffffffffff\n\
int64x2_t f(uint8x16_t p0) { return vreinterpretq_s64_u8(p0); }\n\
 vec:010001000100000101017f00807f0180 -> value vec 010001000100000101017f00807f0180\n\
 vec:8000007f807f00ff80818001fe23fe00 -> value vec 8000007f807f00ff80818001fe23fe00\n\
int8x16_t f(int16x8_t p0) { return vreinterpretq_s8_s16(p0); }\n\
 vec:018001800080ffffff7fff7f00000000 -> value vec 018001800080ffffff7fff7f00000000\n\
 vec:008001007dff0080ff7f0000ff7f0000 -> value vec 008001007dff0080ff7f0000ff7f0000\n\
int8x16_t f(int32x4_t p0) { return vreinterpretq_s8_s32(p0); }\n\
 vec:000000000000000001000000ffffff7f -> value vec 000000000000000001000000ffffff7f\n\
 vec:ffffff7f010000000000000090de4d57 -> value vec ffffff7f010000000000000090de4d57\n\
int8x16_t f(int64x2_t p0) { return vreinterpretq_s8_s64(p0); }\n\
 vec:0000000000000000feffffffffffffff -> value vec 0000000000000000feffffffffffffff\n\
 vec:ffffffffffffffff0100000000000000 -> value vec ffffffffffffffff0100000000000000\n\
int8x16_t f(uint16x8_t p0) { return vreinterpretq_s8_u16(p0); }\n\
 vec:018023faff7ffeff0180010000000180 -> value vec 018023faff7ffeff0180010000000180\n\
 vec:ffff01000100008001800000ffffffff -> value vec ffff01000100008001800000ffffffff\n\
int8x16_t f(uint32x4_t p0) { return vreinterpretq_s8_u32(p0); }\n\
 vec:ffffffffa0a3311bfffffffffeffffff -> value vec ffffffffa0a3311bfffffffffeffffff\n\
 vec:0100000001000080feffffff9ad1df8e -> value vec 0100000001000080feffffff9ad1df8e\n\
int8x16_t f(uint64x2_t p0) { return vreinterpretq_s8_u64(p0); }\n\
 vec:01000000000000802f809c536cbf0f37 -> value vec 01000000000000802f809c536cbf0f37\n\
 vec:01000000000000800000000000000080 -> value vec 01000000000000800000000000000080\n\
int8x16_t f(uint8x16_t p0) { return vreinterpretq_s8_u8(p0); }\n\
 vec:9600ff818080810101fe0001ab818000 -> value vec 9600ff818080810101fe0001ab818000\n\
 vec:0080807901007f81008102ef0080fffe -> value vec 0080807901007f81008102ef0080fffe\n\
uint16x8_t f(int16x8_t p0) { return vreinterpretq_u16_s16(p0); }\n\
 vec:008000000100ff7f0100be85ff7ffeff -> value vec 008000000100ff7f0100be85ff7ffeff\n\
 vec:ffffff7f01809a500180010001000180 -> value vec ffffff7f01809a500180010001000180\n\
uint16x8_t f(int32x4_t p0) { return vreinterpretq_u16_s32(p0); }\n\
 vec:feffffff00000080feffffff01000000 -> value vec feffffff00000080feffffff01000000\n\
 vec:01000000e2321b910000000001000000 -> value vec 01000000e2321b910000000001000000\n\
uint16x8_t f(int64x2_t p0) { return vreinterpretq_u16_s64(p0); }\n\
 vec:8bd1df0c281bf6700000000000000080 -> value vec 8bd1df0c281bf6700000000000000080\n\
 vec:16b39a443f9515e6feffffffffffffff -> value vec 16b39a443f9515e6feffffffffffffff\n\
uint16x8_t f(int8x16_t p0) { return vreinterpretq_u16_s8(p0); }\n\
 vec:812981018081ff57fe7f7f848081fe00 -> value vec 812981018081ff57fe7f7f848081fe00\n\
 vec:7f818180fefe81fe01fe7f7f8000feff -> value vec 7f818180fefe81fe01fe7f7f8000feff\n\
uint16x8_t f(uint32x4_t p0) { return vreinterpretq_u16_u32(p0); }\n\
 vec:9480963c00000000ffffff7f7077b2bc -> value vec 9480963c00000000ffffff7f7077b2bc\n\
 vec:01000000010000800000000000000080 -> value vec 01000000010000800000000000000080\n\
uint16x8_t f(uint64x2_t p0) { return vreinterpretq_u16_u64(p0); }\n\
 vec:0100000000000000ffffffffffffff7f -> value vec 0100000000000000ffffffffffffff7f\n\
 vec:01000000000000800000000000000080 -> value vec 01000000000000800000000000000080\n\
uint16x8_t f(uint8x16_t p0) { return vreinterpretq_u16_u8(p0); }\n\
 vec:ff81007f810180ac55fe8081fe017f80 -> value vec ff81007f810180ac55fe8081fe017f80\n\
 vec:81a900fefe0106fafffe80fe7fff7f7f -> value vec 81a900fefe0106fafffe80fe7fff7f7f\n\
uint32x4_t f(int16x8_t p0) { return vreinterpretq_u32_s16(p0); }\n\
 vec:ff7f008000000180d034b59f00800000 -> value vec ff7f008000000180d034b59f00800000\n\
 vec:010000800000feff0100e907feffccde -> value vec 010000800000feff0100e907feffccde\n\
uint32x4_t f(int32x4_t p0) { return vreinterpretq_u32_s32(p0); }\n\
 vec:00000080ffffff7f0100000001000000 -> value vec 00000080ffffff7f0100000001000000\n\
 vec:01000080feffffff00000000feffffff -> value vec 01000080feffffff00000000feffffff\n\
uint32x4_t f(int64x2_t p0) { return vreinterpretq_u32_s64(p0); }\n\
 vec:00000000000000800100000000000080 -> value vec 00000000000000800100000000000080\n\
 vec:00000000000000800100000000000080 -> value vec 00000000000000800100000000000080\n\
uint32x4_t f(int8x16_t p0) { return vreinterpretq_u32_s8(p0); }\n\
 vec:00fe8081fefe7f7ffe81ff8400feffe5 -> value vec 00fe8081fefe7f7ffe81ff8400feffe5\n\
 vec:81806a7f80010180ffa37f0080808001 -> value vec 81806a7f80010180ffa37f0080808001\n\
uint32x4_t f(uint16x8_t p0) { return vreinterpretq_u32_u16(p0); }\n\
 vec:0100feff0080feff01800080fefffeff -> value vec 0100feff0080feff01800080fefffeff\n\
 vec:008063230000eeb10180018000000080 -> value vec 008063230000eeb10180018000000080\n\
uint32x4_t f(uint64x2_t p0) { return vreinterpretq_u32_u64(p0); }\n\
 vec:ffffffffffffffff25a6adc27ec09fb5 -> value vec ffffffffffffffff25a6adc27ec09fb5\n\
 vec:01000000000000004dc71691d15f67f0 -> value vec 01000000000000004dc71691d15f67f0\n\
uint32x4_t f(uint8x16_t p0) { return vreinterpretq_u32_u8(p0); }\n\
 vec:7f008101017ff87f80fe80fe7f7f81fe -> value vec 7f008101017ff87f80fe80fe7f7f81fe\n\
 vec:ff7f80007fff7ffffffe60fe8080ffff -> value vec ff7f80007fff7ffffffe60fe8080ffff\n\
uint64x2_t f(int16x8_t p0) { return vreinterpretq_u64_s16(p0); }\n\
 vec:018001000000ffff00000000feffffff -> value vec 018001000000ffff00000000feffffff\n\
 vec:ff7f00802380b30701004fcd0100ff7f -> value vec ff7f00802380b30701004fcd0100ff7f\n\
uint64x2_t f(int32x4_t p0) { return vreinterpretq_u64_s32(p0); }\n\
 vec:01000000feffffff1894533800000000 -> value vec 01000000feffffff1894533800000000\n\
 vec:feffffff00000000ffffff7fffffffff -> value vec feffffff00000000ffffff7fffffffff\n\
uint64x2_t f(int64x2_t p0) { return vreinterpretq_u64_s64(p0); }\n\
 vec:feffffffffffffff0000000000000000 -> value vec feffffffffffffff0000000000000000\n\
 vec:feffffffffffffff0000000000000080 -> value vec feffffffffffffff0000000000000080\n\
uint64x2_t f(int8x16_t p0) { return vreinterpretq_u64_s8(p0); }\n\
 vec:01827ffe0164ff302201ff7f7f01ff01 -> value vec 01827ffe0164ff302201ff7f7f01ff01\n\
 vec:0180de801a0080fe81ff000080810081 -> value vec 0180de801a0080fe81ff000080810081\n\
uint64x2_t f(uint16x8_t p0) { return vreinterpretq_u64_u16(p0); }\n\
 vec:000000800c25feff0100feff00800100 -> value vec 000000800c25feff0100feff00800100\n\
 vec:0080ff7f0080feff2a28ff7ffeff0100 -> value vec 0080ff7f0080feff2a28ff7ffeff0100\n\
uint64x2_t f(uint32x4_t p0) { return vreinterpretq_u64_u32(p0); }\n\
 vec:4aa5a1175343eb18010000008d0c80c9 -> value vec 4aa5a1175343eb18010000008d0c80c9\n\
 vec:000000802c6ceef2ffffffff019eb95b -> value vec 000000802c6ceef2ffffffff019eb95b\n\
uint64x2_t f(uint8x16_t p0) { return vreinterpretq_u64_u8(p0); }\n\
 vec:7f01fede007f007f80808101b77ffeff -> value vec 7f01fede007f007f80808101b77ffeff\n\
 vec:8001d8fe00807f7f677f000181fe01ca -> value vec 8001d8fe00807f7f677f000181fe01ca\n\
uint8x16_t f(int16x8_t p0) { return vreinterpretq_u8_s16(p0); }\n\
 vec:0000ffff0100ffff0000ff7ffffffeff -> value vec 0000ffff0100ffff0000ff7ffffffeff\n\
 vec:2a760080ffffff7fff7fffff000022bb -> value vec 2a760080ffffff7fff7fffff000022bb\n\
uint8x16_t f(int32x4_t p0) { return vreinterpretq_u8_s32(p0); }\n\
 vec:ffffff7f010000800000000001000000 -> value vec ffffff7f010000800000000001000000\n\
 vec:d6cd47af010000800100000001000080 -> value vec d6cd47af010000800100000001000080\n\
uint8x16_t f(int64x2_t p0) { return vreinterpretq_u8_s64(p0); }\n\
 vec:01000000000000800000000000000080 -> value vec 01000000000000800000000000000080\n\
 vec:c64fb808ad8901a579d635d09c4d7fdc -> value vec c64fb808ad8901a579d635d09c4d7fdc\n\
uint8x16_t f(int8x16_t p0) { return vreinterpretq_u8_s8(p0); }\n\
 vec:018001fe01fefffeffa2567ffe018081 -> value vec 018001fe01fefffeffa2567ffe018081\n\
 vec:7f807f7f01808080008100000081fe01 -> value vec 7f807f7f01808080008100000081fe01";

pub const PART_6: &str = "\
uint8x16_t f(uint16x8_t p0) { return vreinterpretq_u8_u16(p0); }\n\
 vec:444b0100feff01800000ff7f00000000 -> value vec 444b0100feff01800000ff7f00000000\n\
 vec:ffffffff00000180018000000000ffff -> value vec ffffffff00000180018000000000ffff\n\
uint8x16_t f(uint32x4_t p0) { return vreinterpretq_u8_u32(p0); }\n\
 vec:e01a9944ffffff7fffffffff00000080 -> value vec e01a9944ffffff7fffffffff00000080\n\
 vec:000000000000008000000000df89856b -> value vec 000000000000008000000000df89856b\n\
uint8x16_t f(uint64x2_t p0) { return vreinterpretq_u8_u64(p0); }\n\
 vec:ffffffffffffff7fd3e968a1c42857bb -> value vec ffffffffffffff7fd3e968a1c42857bb\n\
 vec:0100000000000080f830720666dda3df -> value vec 0100000000000080f830720666dda3df\n\
uint8x16_t f(uint8x16_t p0) { return vrev16q_u8(p0); }\n\
 vec:71fe807f35808181e6ff7fff0101ff7f -> value vec fe717f8080358181ffe6ff7f01017fff\n\
 vec:fe7ffe8080ff817f7f0136ff00007f7f -> value vec 7ffe80feff807f81017fff3600007f7f\n\
 vec:0180810180010081714c81019cff00fe -> value vec 80010181018081004c710181ff9cfe00\n\
 vec:817f0101fefe817ffe7f00ff817f01ff -> value vec 7f810101fefe7f817ffeff007f81ff01\n\
 vec:0181fe807f807f7f8000ff6300007f80 -> value vec 810180fe807f7f7f008063ff0000807f\n\
 vec:fefffedb7f7ffeff00fefefe7f018f00 -> value vec fffedbfe7f7ffffefe00fefe017f008f\n\
uint16x8_t f(uint16x8_t p0) { return vrev32q_u16(p0); }\n\
 vec:ff7f0412feffffffff7fff7fffff4eef -> value vec 0412ff7ffffffeffff7fff7f4eefffff\n\
 vec:00800180fffffffffeff010000800100 -> value vec 01800080ffffffff0100feff01000080\n\
 vec:ff7fffff0080fffffffffeff010078d9 -> value vec ffffff7fffff0080feffffff78d90100\n\
 vec:000001000c030100ffff010000000000 -> value vec 0100000001000c030100ffff00000000\n\
 vec:feff00000000f980ffff00800000ff7f -> value vec 0000fefff98000000080ffffff7f0000\n\
 vec:5e020100fffffeffff7f0080be95ffff -> value vec 01005e02feffffff0080ff7fffffbe95\n\
uint8x16_t f(uint8x16_t p0) { return vrev32q_u8(p0); }\n\
 vec:7f7f800180fed93381ffff010080807f -> value vec 01807f7f33d9fe8001ffff817f808000\n\
 vec:80feea017f6cfcff7f00fffe7fff8180 -> value vec 01eafe80fffc6c7ffeff007f8081ff7f\n\
 vec:0101ff807f8041810100e3017f01ff00 -> value vec 80ff01018141807f01e3000100ff017f\n\
 vec:7f00017fff01000181147f0001800181 -> value vec 7f01007f010001ff007f148181018001\n\
 vec:fe8180800001feff010001ff7f818101 -> value vec 808081fefffe0100ff0100010181817f\n\
 vec:727f0381feff8080800080fffffe01fe -> value vec 81037f728080fffeff800080fe01feff\n\
uint16x8_t f(uint16x8_t p0) { return vrev64q_u16(p0); }\n\
 vec:feff01000180fffffeffffff01800000 -> value vec ffff01800100feff00000180fffffeff\n\
 vec:0180ff7fffff0100ff7f0080018024a5 -> value vec 0100ffffff7f018024a501800080ff7f\n\
 vec:ff7f0100010001004b27d26d00000100 -> value vec 010001000100ff7f01000000d26d4b27\n\
 vec:0080feff741fff7f01800000ff7f0000 -> value vec ff7f741ffeff00800000ff7f00000180\n\
 vec:feff008000000180ff7f0000ff7fff7f -> value vec 018000000080feffff7fff7f0000ff7f\n\
 vec:008000000080ff7ffefffefffeff406c -> value vec ff7f008000000080406cfefffefffeff\n\
uint32x4_t f(uint32x4_t p0) { return vrev64q_u32(p0); }\n\
 vec:01000000ffffff7f01000000feffffff -> value vec ffffff7f01000000feffffff01000000\n\
 vec:feffffff01000000ffffffff00f9ef09 -> value vec 01000000feffffff00f9ef09ffffffff\n\
 vec:feffffffffffff7f896a353f9ce20583 -> value vec ffffff7ffeffffff9ce20583896a353f\n\
 vec:feffffff0100008001000080feffffff -> value vec 01000080fefffffffeffffff01000080\n\
 vec:010000000000008001000000d777d4c0 -> value vec 0000008001000000d777d4c001000000\n\
 vec:01000000ffffff7fffffff7fffffffff -> value vec ffffff7f01000000ffffffffffffff7f\n\
uint8x16_t f(uint8x16_t p0) { return vrev64q_u8(p0); }\n\
 vec:8042017fff010180808001017ffe81fe -> value vec 800101ff7f014280fe81fe7f01018080\n\
 vec:fe816e7f018180fffe00817f0100017f -> value vec ff8081017f6e81fe7f0100017f8100fe\n\
 vec:ffff00fe007f81feff00ffff00010180 -> value vec fe817f00fe00ffff80010100ffff00ff\n\
 vec:7f7f7f819c7f81fe007f7f8080fe0101 -> value vec fe817f9c817f7f7f0101fe80807f7f00\n\
 vec:ffff7fff7f7f80ff801100011a8100fe -> value vec ff807f7fff7ffffffe00811a01001180\n\
 vec:44017ffe0000c1017a9e00817a807f00 -> value vec 01c10000fe7f0144007f807a81009e7a\n\
uint16x8_t f(uint16x8_t p0, uint16x8_t p1) { return vrhaddq_u16(p0, p1); }\n\
 vec:ffff01800180ff7f00800080feff0180 vec:ffff01000080feffffffff7f0100e10e -> value vec ffff01400180ffbf00c0008000807147\n\
 vec:0000fffffeff0080db99ff7ffefffeff vec:008001800180ff7fd6210080ff7f0080 -> value vec 004000c000c00080d95d0080ffbfffbf\n\
 vec:010001000000010041fe018000000080 vec:0000feffff7fffff0100ffffff7f0180 -> value vec 0100008000400080217f00c000400180\n\
 vec:018001800100ffff0000feff01000180 vec:feff0180feffbaa9cfb3ff7f00800180 -> value vec 00c001800080ddd4e859ffbf01400180\n\
 vec:ff7ffeffff7f0080ffff008000800180 vec:feff0100fefffeff01000fa962a1feff -> value vec ffbf0080ffbfffbf00808894b19000c0\n\
 vec:0080008000000180ff7f0180feffff7f vec:0000ff7fffffff7fffffffff01800180 -> value vec 0040008000800080ffbf00c000c00080\n\
uint8x16_t f(uint8x16_t p0, uint8x16_t p1) { return vrhaddq_u8(p0, p1); }\n\
 vec:017f7f7f81fe81ff01fe7f01ff817f81 vec:00ffff7ffed87f7f81000080ff01feff -> value vec 01bfbf7fc0eb80bf417f4041ff41bfc0\n\
 vec:007f7f00800180feb4008081007fb47f vec:00007f007f017ffe7fffff7f01800101 -> value vec 00407f00800180fe9a80c08001805b40\n\
int8x8_t f(int16x8_t p0) { return vrshrn_n_s16(p0, 8); }\n\
 vec:a3f2ff7f0180008000800000feff0180 -> value vec f380808080000080\n\
int8x8_t f(int16x8_t p0) { return vrshrn_n_s16(p0, 1); }\n\
 vec:feff010001000100ff7fff7f0080feff -> value vec ff010101000000ff\n\
int8x8_t f(int16x8_t p0) { return vrshrn_n_s16(p0, 5); }\n\
 vec:feff0100ffffff7ffeff018000800000 -> value vec 0000000000000000\n\
int8x8_t f(int16x8_t p0) { return vrshrn_n_s16(p0, 4); }\n\
 vec:ffffffffffffff7fffffff7f00000180 -> value vec 0000000000000000\n\
int8x8_t f(int16x8_t p0) { return vrshrn_n_s16(p0, 8); }\n\
 vec:81260000ff7f0180ffff0100fffffeff -> value vec 2700808000000000\n\
int8x8_t f(int16x8_t p0) { return vrshrn_n_s16(p0, 1); }\n\
 vec:0180ff7f0180ffffff7f0180ec370080 -> value vec 010001000001f600\n\
int16x4_t f(int32x4_t p0) { return vrshrn_n_s32(p0, 16); }\n\
 vec:00000080feffffff0100008000000080 -> value vec 0080000000800080\n\
int16x4_t f(int32x4_t p0) { return vrshrn_n_s32(p0, 1); }\n\
 vec:ffffff7f0000008001000000ffffff7f -> value vec 0000000001000000\n\
int32x2_t f(int64x2_t p0) { return vrshrn_n_s64(p0, 32); }\n\
 vec:ffffffffffffff7fffffffffffffff7f -> value vec 0000008000000080\n\
int32x2_t f(int64x2_t p0) { return vrshrn_n_s64(p0, 1); }\n\
 vec:ffffffffffffffffffffffffffffffff -> value vec 0000000000000000\n\
uint8x8_t f(uint16x8_t p0) { return vrshrn_n_u16(p0, 8); }\n\
 vec:0180ff7ffeff988cffffffff0080feff -> value vec 8080008d00008000\n\
uint8x8_t f(uint16x8_t p0) { return vrshrn_n_u16(p0, 1); }\n\
 vec:fffffeff0180ffff8ec9ff7fffff0000 -> value vec 00ff0100c7000000\n\
uint16x4_t f(uint32x4_t p0) { return vrshrn_n_u32(p0, 16); }\n\
 vec:ffffffff01000080ffffff7f01000080 -> value vec 0000008000800080\n\
uint16x4_t f(uint32x4_t p0) { return vrshrn_n_u32(p0, 1); }\n\
 vec:00000080feffffff01000080feffffff -> value vec 0000ffff0100ffff\n\
uint32x2_t f(uint64x2_t p0) { return vrshrn_n_u64(p0, 32); }\n\
 vec:ffffffffffffffffffffffffffffffff -> value vec 0000000000000000\n\
uint32x2_t f(uint64x2_t p0) { return vrshrn_n_u64(p0, 1); }\n\
 vec:00000000000000800000000000000080 -> value vec 0000000000000000\n\
int16x8_t f(int16_t p0, int16x8_t p1) { return vsetq_lane_s16(p0, p1, 7); }\n\
 int:-32767 vec:0000feffff7f4c2eff7f01006cc60000 -> value vec 0000feffff7f4c2eff7f01006cc60180\n\
int16x8_t f(int16_t p0, int16x8_t p1) { return vsetq_lane_s16(p0, p1, 0); }\n\
 int:-2 vec:01800080ff7ffeffffff0000feff0000 -> value vec feff0080ff7ffeffffff0000feff0000\n\
int16x8_t f(int16_t p0, int16x8_t p1) { return vsetq_lane_s16(p0, p1, 2); }\n\
 int:0 vec:ff7f0080ff7ffeff00801ee60100feff -> value vec ff7f00800000feff00801ee60100feff\n\
int16x8_t f(int16_t p0, int16x8_t p1) { return vsetq_lane_s16(p0, p1, 1); }\n\
 int:-1 vec:ff7f01800080ffffff7f0100ff7f0100 -> value vec ff7fffff0080ffffff7f0100ff7f0100\n\
int16x8_t f(int16_t p0, int16x8_t p1) { return vsetq_lane_s16(p0, p1, 7); }\n\
 int:-32767 vec:ffff0100fefffeff0000000000800180 -> value vec ffff0100fefffeff0000000000800180\n\
int16x8_t f(int16_t p0, int16x8_t p1) { return vsetq_lane_s16(p0, p1, 0); }\n\
 int:-32767 vec:0100008001004993ffff665c01800100 -> value vec 0180008001004993ffff665c01800100\n\
int32x4_t f(int32_t p0, int32x4_t p1) { return vsetq_lane_s32(p0, p1, 3); }\n\
 int:-2147483647 vec:00000080feffffffffffffffffffff7f -> value vec 00000080feffffffffffffff01000080\n\
int32x4_t f(int32_t p0, int32x4_t p1) { return vsetq_lane_s32(p0, p1, 0); }\n\
 int:775455914 vec:00000080feffffff0000000000000080 -> value vec aa84382efeffffff0000000000000080\n\
int64x2_t f(int64_t p0, int64x2_t p1) { return vsetq_lane_s64(p0, p1, 1); }\n\
 int:9223372036854775807 vec:f6c3a0f5cd673ef8feffffffffffffff -> value vec f6c3a0f5cd673ef8ffffffffffffff7f\n\
int64x2_t f(int64_t p0, int64x2_t p1) { return vsetq_lane_s64(p0, p1, 0); }\n\
 int:-2 vec:0000000000000080feffffffffffffff -> value vec fefffffffffffffffeffffffffffffff\n\
int8x16_t f(int8_t p0, int8x16_t p1) { return vsetq_lane_s8(p0, p1, 15); }\n\
 int:127 vec:0081fe8081817f80008c7ffe7f8181fe -> value vec 0081fe8081817f80008c7ffe7f81817f\n\
int8x16_t f(int8_t p0, int8x16_t p1) { return vsetq_lane_s8(p0, p1, 0); }\n\
 int:-2 vec:00ff01ba7efe7f007ffefe81818bff7f -> value vec feff01ba7efe7f007ffefe81818bff7f\n\
uint16x8_t f(uint16_t p0, uint16x8_t p1) { return vsetq_lane_u16(p0, p1, 7); }\n\
 int:65534 vec:00000180ff7ffeff01000100ff7f0180 -> value vec 00000180ff7ffeff01000100ff7ffeff\n\
uint16x8_t f(uint16_t p0, uint16x8_t p1) { return vsetq_lane_u16(p0, p1, 0); }\n\
 int:65534 vec:feff0080d35b00000000ffff01802fca -> value vec feff0080d35b00000000ffff01802fca\n\
uint32x4_t f(uint32_t p0, uint32x4_t p1) { return vsetq_lane_u32(p0, p1, 3); }\n\
 int:2147483647 vec:fefffffffefffffffeffffff00000080 -> value vec fefffffffefffffffeffffffffffff7f\n\
uint32x4_t f(uint32_t p0, uint32x4_t p1) { return vsetq_lane_u32(p0, p1, 0); }\n\
 int:2147483649 vec:fd15eb78eb4130660100000000000080 -> value vec 01000080eb4130660100000000000080\n\
uint64x2_t f(uint64_t p0, uint64x2_t p1) { return vsetq_lane_u64(p0, p1, 1); }\n\
 int:18446744073709551615 vec:00000000000000800100000000000080 -> value vec 0000000000000080ffffffffffffffff\n\
uint64x2_t f(uint64_t p0, uint64x2_t p1) { return vsetq_lane_u64(p0, p1, 0); }\n\
 int:9223372036854775808 vec:00000000000000000000000000000000 -> value vec 00000000000000800000000000000000\n\
uint8x16_t f(uint8_t p0, uint8x16_t p1) { return vsetq_lane_u8(p0, p1, 15); }\n\
 int:127 vec:7f817ffefe808180417f7f80000dffff -> value vec 7f817ffefe808180417f7f80000dff7f\n\
uint8x16_t f(uint8_t p0, uint8x16_t p1) { return vsetq_lane_u8(p0, p1, 0); }\n\
 int:255 vec:7f017f0101000081017f800001fe0081 -> value vec ff017f0101000081017f800001fe0081\n\
int16x8_t f(int16x8_t p0) { return vshlq_n_s16(p0, 15); }\n\
 vec:01005681feff008001800100feff0100 -> value vec 00800000000000000080008000000080\n\
int16x8_t f(int16x8_t p0) { return vshlq_n_s16(p0, 0); }\n\
 vec:0180000001000080ff7f0080ffffffff -> value vec 0180000001000080ff7f0080ffffffff\n\
int16x8_t f(int16x8_t p0) { return vshlq_n_s16(p0, 4); }\n\
 vec:ffffff7ffffffeff010001800080cd44 -> value vec f0fff0fff0ffe0ff100010000000d04c\n\
int16x8_t f(int16x8_t p0) { return vshlq_n_s16(p0, 11); }\n\
 vec:ffffff7f0080fffffeffacadfefffeff -> value vec 00f800f8000000f800f0006000f000f0\n\
int16x8_t f(int16x8_t p0) { return vshlq_n_s16(p0, 15); }\n\
 vec:98050180feff0100feffffff0080feff -> value vec 00000080000000800000008000000000\n\
int16x8_t f(int16x8_t p0) { return vshlq_n_s16(p0, 0); }\n\
 vec:84560080fefffeff00800000ffff0100 -> value vec 84560080fefffeff00800000ffff0100\n\
int32x4_t f(int32x4_t p0) { return vshlq_n_s32(p0, 31); }\n\
 vec:000000009d8c6d8d01000080ffffffff -> value vec 00000000000000800000008000000080\n\
int32x4_t f(int32x4_t p0) { return vshlq_n_s32(p0, 0); }\n\
 vec:000000800100000001000000ffffff7f -> value vec 000000800100000001000000ffffff7f\n\
int64x2_t f(int64x2_t p0) { return vshlq_n_s64(p0, 63); }\n\
 vec:0100000000000000ffffffffffffff7f -> value vec 00000000000000800000000000000080\n\
int64x2_t f(int64x2_t p0) { return vshlq_n_s64(p0, 0); }\n\
 vec:feffffffffffffffffffffffffffff7f -> value vec feffffffffffffffffffffffffffff7f\n\
int8x16_t f(int8x16_t p0) { return vshlq_n_s8(p0, 7); }\n\
 vec:7ffe818180fe007f808080feffff81ff -> value vec 80008080000000800000000080808080\n\
int8x16_t f(int8x16_t p0) { return vshlq_n_s8(p0, 0); }\n\
 vec:817f008181800101ff800180fe7f7681 -> value vec 817f008181800101ff800180fe7f7681\n\
uint16x8_t f(uint16x8_t p0) { return vshlq_n_u16(p0, 15); }\n\
 vec:0180ff7f4555ffff0180feff0080dbbf -> value vec 00800080008000800080000000000080\n\
uint16x8_t f(uint16x8_t p0) { return vshlq_n_u16(p0, 0); }\n\
 vec:01000180ff7f0180feff0080f5040000 -> value vec 01000180ff7f0180feff0080f5040000\n\
uint32x4_t f(uint32x4_t p0) { return vshlq_n_u32(p0, 31); }\n\
 vec:ffffff7f00000080cc61e13dfeffffff -> value vec 00000080000000000000000000000000\n\
uint32x4_t f(uint32x4_t p0) { return vshlq_n_u32(p0, 0); }\n\
 vec:42997a4100000080ffffffff01000000 -> value vec 42997a4100000080ffffffff01000000\n\
uint64x2_t f(uint64x2_t p0) { return vshlq_n_u64(p0, 63); }\n\
 vec:feffffffffffffff0000000000000080 -> value vec 00000000000000000000000000000000\n\
uint64x2_t f(uint64x2_t p0) { return vshlq_n_u64(p0, 0); }\n\
 vec:00000000000000000100000000000000 -> value vec 00000000000000000100000000000000\n\
uint8x16_t f(uint8x16_t p0) { return vshlq_n_u8(p0, 7); }\n\
 vec:00fffe80fe7f78807f7fffffff81ff00 -> value vec 00800000008000008080808080808000\n\
uint8x16_t f(uint8x16_t p0) { return vshlq_n_u8(p0, 0); }\n\
 vec:7f7f1a7f000180007f01000100240080 -> value vec 7f7f1a7f000180007f01000100240080\n\
int16x8_t f(int16x8_t p0, int16x8_t p1) { return vshlq_s16(p0, p1); }\n\
 vec:01800100ff7ff747ff7fff7f0100ff7f vec:ef1b106b004a0074015880551000f0ef -> value vec ffff0000ff7ff747feff000000000000\n\
 vec:000000000180ff7ffeff0100ff7fffff vec:7fd4f000efc07fe6f03b0f8e7fda0134 -> value vec 00000000ffff0000ffff00800000feff\n\
 vec:01000000008000008d39018001000000 vec:f0c70028f0f37f6c7f38ff0defba1185 -> value vec 00000000ffff0000000000c000000000\n\
 vec:ff7fe984fc129bb9ff7f008001800100 vec:000c7fd500a0ffbc10e91023efcf7f10 -> value vec ff7f0000fc12cddc00000000ffff0000\n\
 vec:ff7ffefff9ebffff01000000aa950180 vec:f02400650fd31058f1850f0bff29efd2 -> value vec 0000feff0080000000000000d5caffff\n\
 vec:feff716700000080ffffff7fffffff7f vec:7f0b805d80360f5611670fef01b57f56 -> value vec 000000000000000000000080feff0000\n\
int32x4_t f(int32x4_t p0, int32x4_t p1) { return vshlq_s32(p0, p1); }\n\
 vec:0000008000000000f5fef3e201000000 vec:e0c944c621f02e8201e333fb1f0e7e3e -> value vec ffffffff00000000eafde7c500000080\n\
 vec:0000000001000000ffffffffffffffff vec:80e127c000882deb20a8852adffa10bd -> value vec 000000000100000000000000ffffffff\n\
int64x2_t f(int64x2_t p0, int64x2_t p1) { return vshlq_s64(p0, p1); }\n\
 vec:ffffffffffffff7f0000000000000000 vec:411682c6b9a8fb2aff9ff9b779d577ab -> value vec 00000000000000000000000000000000\n\
 vec:ffffffffffffffff0100000000000080 vec:4199bd36fd84fe4901d3f29f063ad880 -> value vec 00000000000000000200000000000000\n\
int8x16_t f(int8x16_t p0, int8x16_t p1) { return vshlq_s8(p0, p1); }\n\
 vec:a100fe017f7f810001fefe7f0380fe00 vec:09f9ff0800ff01800707fff80000f87f -> value vec 0000ff007f3f02008000ff000380ff00\n\
 vec:fe7fff0081ff01fe80fe8081fcfe7f80 vec:f97f0080f8f8fff87f00087f01ffff01 -> value vec ff00ff00ffff00ff00fe0000f8ff3f00\n\
uint16x8_t f(uint16x8_t p0, int16x8_t p1) { return vshlq_u16(p0, p1); }\n\
 vec:000001000080feff01000000ffff0180 vec:0f30ffa611767fa87f87ff03f0af00d4 -> value vec 00000000000000000000000000000180\n\
 vec:0100feffff7ffeff01006acf96c90180 vec:f18301c710e2f09df1f30fd7f145ff0c -> value vec 0000fcff000000000000000001000040\n\
uint32x4_t f(uint32x4_t p0, int32x4_t p1) { return vshlq_u32(p0, p1); }\n\
 vec:00000000feffffffffffff7ffeffffff vec:20459bd0e1a8664901042fd1df94db46 -> value vec 0000000001000000feffffff00000000\n\
 vec:ffffffff75bd35f701000000ffffff7f vec:80ebdddce03b33a27f1115c11f1005b1 -> value vec 00000000000000000000000000000080\n\
uint64x2_t f(uint64x2_t p0, int64x2_t p1) { return vshlq_u64(p0, p1); }\n\
 vec:0000000000000080ffffffffffffffff vec:bfc5fff898939d5bc11491b6f414fbd7 -> value vec 00000000000000000100000000000000\n\
 vec:0100000000000000ffffffffffffffff vec:bf3638292277f8b6405a51297c218d12 -> value vec 00000000000000000000000000000000";

pub const PART_7: &str = "\
uint8x16_t f(uint8x16_t p0, int8x16_t p1) { return vshlq_u8(p0, p1); }\n\
 vec:81c501ff819bd5fefeea81ba7fff7f01 vec:7ff77ff97f80f90009f9070901080008 -> value vec 00000001000001fe00018000fe007f00\n\
 vec:ffff01ff7f5e7f00008100812cfefecd vec:000980f907f7f8807f01f87f00090707 -> value vec ff00000180000000000200002c000080\n\
int8x8_t f(int16x8_t p0) { return vshrn_n_s16(p0, 8); }\n\
 vec:018000000100010084a800800100ff7f -> value vec 80000000a880007f\n\
int8x8_t f(int16x8_t p0) { return vshrn_n_s16(p0, 1); }\n\
 vec:00800100feff00800180018000800100 -> value vec 0000ff0000000000\n\
int8x8_t f(int16x8_t p0) { return vshrn_n_s16(p0, 2); }\n\
 vec:0180ff7ffeff00000100010001800100 -> value vec 00ffff0000000000\n\
int8x8_t f(int16x8_t p0) { return vshrn_n_s16(p0, 7); }\n\
 vec:008000000000008001800180feff0000 -> value vec 000000000000ff00\n\
int8x8_t f(int16x8_t p0) { return vshrn_n_s16(p0, 8); }\n\
 vec:38a40080ff7ff5ff00000180ffffff7f -> value vec a4807fff0080ff7f\n\
int8x8_t f(int16x8_t p0) { return vshrn_n_s16(p0, 1); }\n\
 vec:ff7f0180ffffeab30100f59001800100 -> value vec ff00fff5007a0000\n\
int16x4_t f(int32x4_t p0) { return vshrn_n_s32(p0, 16); }\n\
 vec:00000000000000800000000001000080 -> value vec 0000008000000080\n\
int16x4_t f(int32x4_t p0) { return vshrn_n_s32(p0, 1); }\n\
 vec:feffffff801f50c401000000ffffff7f -> value vec ffffc00f0000ffff\n\
int32x2_t f(int64x2_t p0) { return vshrn_n_s64(p0, 32); }\n\
 vec:ffffffffffffff7f0100000000000000 -> value vec ffffff7f00000000\n\
int32x2_t f(int64x2_t p0) { return vshrn_n_s64(p0, 1); }\n\
 vec:fffffffffffffffffeffffffffffffff -> value vec ffffffffffffffff\n\
uint8x8_t f(uint16x8_t p0) { return vshrn_n_u16(p0, 8); }\n\
 vec:ffffff7f0080fefffeffff7f01000100 -> value vec ff7f80ffff7f0000\n\
uint8x8_t f(uint16x8_t p0) { return vshrn_n_u16(p0, 1); }\n\
 vec:018000800000ffff0180ff7fff7f09a4 -> value vec 000000ff00ffff04\n\
uint16x4_t f(uint32x4_t p0) { return vshrn_n_u32(p0, 16); }\n\
 vec:ffffffff4a29e7a8415f07a201000080 -> value vec ffffe7a807a20080\n\
uint16x4_t f(uint32x4_t p0) { return vshrn_n_u32(p0, 1); }\n\
 vec:feffffffa24e880301000080ffffffff -> value vec ffff51270000ffff\n\
uint32x2_t f(uint64x2_t p0) { return vshrn_n_u64(p0, 32); }\n\
 vec:ce5b42fbb3e5d15d23765839af086a3f -> value vec b3e5d15daf086a3f\n\
uint32x2_t f(uint64x2_t p0) { return vshrn_n_u64(p0, 1); }\n\
 vec:feffffffffffffffffffffffffffff7f -> value vec ffffffffffffffff\n\
int16x8_t f(int16x8_t p0) { return vshrq_n_s16(p0, 16); }\n\
 vec:55ee000001800000ffff8509fffffeff -> value vec ffff0000ffff0000ffff0000ffffffff\n\
int16x8_t f(int16x8_t p0) { return vshrq_n_s16(p0, 1); }\n\
 vec:7c7cff7fff7f0080feffaa79ffffeebd -> value vec 3e3eff3fff3f00c0ffffd53cfffff7de\n\
int16x8_t f(int16x8_t p0) { return vshrq_n_s16(p0, 14); }\n\
 vec:018001800100010001800180feff7142 -> value vec fefffeff00000000fefffeffffff0100\n\
int16x8_t f(int16x8_t p0) { return vshrq_n_s16(p0, 9); }\n\
 vec:200300000180ffffff7fe69201000000 -> value vec 01000000c0ffffff3f00c9ff00000000\n\
int16x8_t f(int16x8_t p0) { return vshrq_n_s16(p0, 16); }\n\
 vec:ffff88550180ffff0100fefffeff0000 -> value vec ffff0000ffffffff0000ffffffff0000\n\
int16x8_t f(int16x8_t p0) { return vshrq_n_s16(p0, 1); }\n\
 vec:feff00800100d88701000000fefffeff -> value vec ffff00c00000ecc300000000ffffffff\n\
int32x4_t f(int32x4_t p0) { return vshrq_n_s32(p0, 32); }\n\
 vec:000000800100000034a7799501000000 -> value vec ffffffff00000000ffffffff00000000\n\
int32x4_t f(int32x4_t p0) { return vshrq_n_s32(p0, 1); }\n\
 vec:47e43f35fefffffffeffffff00000000 -> value vec 23f29f1affffffffffffffff00000000\n\
int64x2_t f(int64x2_t p0) { return vshrq_n_s64(p0, 64); }\n\
 vec:ffffffffffffffff0000000000000080 -> value vec ffffffffffffffffffffffffffffffff\n\
int64x2_t f(int64x2_t p0) { return vshrq_n_s64(p0, 1); }\n\
 vec:01000000000000800100000000000000 -> value vec 00000000000000c00000000000000000\n\
int8x16_t f(int8x16_t p0) { return vshrq_n_s8(p0, 8); }\n\
 vec:00fefeffdbfeff000181fe010001fefe -> value vec 00ffffffffffff0000ffff000000ffff\n\
int8x16_t f(int8x16_t p0) { return vshrq_n_s8(p0, 1); }\n\
 vec:fe00fefe01412700017f80817f81001c -> value vec ff00ffff00201300003fc0c03fc0000e\n\
uint16x8_t f(uint16x8_t p0) { return vshrq_n_u16(p0, 16); }\n\
 vec:0000f98c0100feff018000000100feff -> value vec 00000000000000000000000000000000\n\
uint16x8_t f(uint16x8_t p0) { return vshrq_n_u16(p0, 1); }\n\
 vec:0000ffff0180f41f0100ff7fff7fff7f -> value vec 0000ff7f0040fa0f0000ff3fff3fff3f\n\
uint32x4_t f(uint32x4_t p0) { return vshrq_n_u32(p0, 32); }\n\
 vec:ffffff7f00000000ffffffff01000000 -> value vec 00000000000000000000000000000000\n\
uint32x4_t f(uint32x4_t p0) { return vshrq_n_u32(p0, 1); }\n\
 vec:00000000ffffff7f7a213160ffffff7f -> value vec 00000000ffffff3fbd901830ffffff3f\n\
uint64x2_t f(uint64x2_t p0) { return vshrq_n_u64(p0, 64); }\n\
 vec:ffffffffffffffffc8bd4caefe2efa1d -> value vec 00000000000000000000000000000000\n\
uint64x2_t f(uint64x2_t p0) { return vshrq_n_u64(p0, 1); }\n\
 vec:feffffffffffffff0000000000000000 -> value vec ffffffffffffff7f0000000000000000\n\
uint8x16_t f(uint8x16_t p0) { return vshrq_n_u8(p0, 8); }\n\
 vec:fe9c7f81fefe007f3900817f00fe8080 -> value vec 00000000000000000000000000000000\n\
uint8x16_t f(uint8x16_t p0) { return vshrq_n_u8(p0, 1); }\n\
 vec:80fefffffefefeff0080ff7ffe008000 -> value vec 407f7f7f7f7f7f7f00407f3f7f004000\n\
void f(uint8_t *p0, uint8x8_t p1) { vst1_u8(p0, p1); }\n\
 block:1:rw:00000000000000000000000000000000000000000000000000000000000000000000000000000000000000000000000000000000000000000000000000000000 at:0:3 vec:ffdbfeff8181fe81 -> value none$block 0 000000ffdbfeff8181fe810000000000000000000000000000000000000000000000000000000000000000000000000000000000000000000000000000000000\n\
 block:1:rw:00000000000000000000000000000000000000000000000000000000000000000000000000000000000000000000000000000000000000000000000000000000 at:0:3 vec:0000fefe38fe407f -> value none$block 0 0000000000fefe38fe407f0000000000000000000000000000000000000000000000000000000000000000000000000000000000000000000000000000000000\n\
 block:1:rw:00000000000000000000000000000000000000000000000000000000000000000000000000000000000000000000000000000000000000000000000000000000 at:0:3 vec:81dc00ff01ff81eb -> value none$block 0 00000081dc00ff01ff81eb0000000000000000000000000000000000000000000000000000000000000000000000000000000000000000000000000000000000\n\
 block:1:rw:00000000000000000000000000000000000000000000000000000000000000000000000000000000000000000000000000000000000000000000000000000000 at:0:3 vec:01ff0081017f81df -> value none$block 0 00000001ff0081017f81df0000000000000000000000000000000000000000000000000000000000000000000000000000000000000000000000000000000000\n\
 block:1:rw:00000000000000000000000000000000000000000000000000000000000000000000000000000000000000000000000000000000000000000000000000000000 at:0:3 vec:007f2e7f01fefeff -> value none$block 0 000000007f2e7f01fefeff0000000000000000000000000000000000000000000000000000000000000000000000000000000000000000000000000000000000\n\
 block:1:rw:00000000000000000000000000000000000000000000000000000000000000000000000000000000000000000000000000000000000000000000000000000000 at:0:3 vec:00ffffff7ffefffe -> value none$block 0 00000000ffffff7ffefffe0000000000000000000000000000000000000000000000000000000000000000000000000000000000000000000000000000000000\n\
void f(uint8_t *p0, uint8x16_t p1) { vst1q_u8(p0, p1); }\n\
 block:1:rw:00000000000000000000000000000000000000000000000000000000000000000000000000000000000000000000000000000000000000000000000000000000 at:0:3 vec:81000008ff80817f7ffeff0000ff8081 -> value none$block 0 00000081000008ff80817f7ffeff0000ff8081000000000000000000000000000000000000000000000000000000000000000000000000000000000000000000\n\
 block:1:rw:00000000000000000000000000000000000000000000000000000000000000000000000000000000000000000000000000000000000000000000000000000000 at:0:3 vec:12807f00fe000181ff0080807f7f00ff -> value none$block 0 00000012807f00fe000181ff0080807f7f00ff000000000000000000000000000000000000000000000000000000000000000000000000000000000000000000\n\
 block:1:rw:00000000000000000000000000000000000000000000000000000000000000000000000000000000000000000000000000000000000000000000000000000000 at:0:3 vec:f901000180ff00fe75fffe6c810000fe -> value none$block 0 000000f901000180ff00fe75fffe6c810000fe000000000000000000000000000000000000000000000000000000000000000000000000000000000000000000\n\
 block:1:rw:00000000000000000000000000000000000000000000000000000000000000000000000000000000000000000000000000000000000000000000000000000000 at:0:3 vec:7f00ff7f7fff15803f810100807f8100 -> value none$block 0 0000007f00ff7f7fff15803f810100807f8100000000000000000000000000000000000000000000000000000000000000000000000000000000000000000000\n\
 block:1:rw:00000000000000000000000000000000000000000000000000000000000000000000000000000000000000000000000000000000000000000000000000000000 at:0:3 vec:45ff00ff01ff8180b6ff0001fffe8080 -> value none$block 0 00000045ff00ff01ff8180b6ff0001fffe8080000000000000000000000000000000000000000000000000000000000000000000000000000000000000000000\n\
 block:1:rw:00000000000000000000000000000000000000000000000000000000000000000000000000000000000000000000000000000000000000000000000000000000 at:0:3 vec:8181ff45bff5fe81017ffe8100008101 -> value none$block 0 0000008181ff45bff5fe81017ffe8100008101000000000000000000000000000000000000000000000000000000000000000000000000000000000000000000\n\
void f(uint8_t *p0, uint8x16x2_t p1) { vst1q_u8_x2(p0, p1); }\n\
 block:1:rw:00000000000000000000000000000000000000000000000000000000000000000000000000000000000000000000000000000000000000000000000000000000 at:0:3 vec:007f00818001fe00017f01392701ff7f7f81007ffe3380b200c3fe7f7fd78181 -> value none$block 0 000000007f00818001fe00017f01392701ff7f7f81007ffe3380b200c3fe7f7fd781810000000000000000000000000000000000000000000000000000000000\n\
 block:1:rw:00000000000000000000000000000000000000000000000000000000000000000000000000000000000000000000000000000000000000000000000000000000 at:0:3 vec:267f01fe00dafefffeff7ffa81977f80fe7f10818081fe6d7f0101fe817f7f7f -> value none$block 0 000000267f01fe00dafefffeff7ffa81977f80fe7f10818081fe6d7f0101fe817f7f7f0000000000000000000000000000000000000000000000000000000000\n\
 block:1:rw:00000000000000000000000000000000000000000000000000000000000000000000000000000000000000000000000000000000000000000000000000000000 at:0:3 vec:fe8100fe80627f8080ff00010080fffe807fff347f00ff7f01800001d900926d -> value none$block 0 000000fe8100fe80627f8080ff00010080fffe807fff347f00ff7f01800001d900926d0000000000000000000000000000000000000000000000000000000000\n\
 block:1:rw:00000000000000000000000000000000000000000000000000000000000000000000000000000000000000000000000000000000000000000000000000000000 at:0:3 vec:817f817f00017ffefeecfeff7f8181ff009a157f7f8080807f000062017f7f81 -> value none$block 0 000000817f817f00017ffefeecfeff7f8181ff009a157f7f8080807f000062017f7f810000000000000000000000000000000000000000000000000000000000\n\
 block:1:rw:00000000000000000000000000000000000000000000000000000000000000000000000000000000000000000000000000000000000000000000000000000000 at:0:3 vec:8180bd817f7f7f807ff8ff00e836d9fe01810081feff7f007f7f0d008081ff00 -> value none$block 0 0000008180bd817f7f7f807ff8ff00e836d9fe01810081feff7f007f7f0d008081ff000000000000000000000000000000000000000000000000000000000000\n\
 block:1:rw:00000000000000000000000000000000000000000000000000000000000000000000000000000000000000000000000000000000000000000000000000000000 at:0:3 vec:a4ff81ff8001817fff7ffffe80c6018000fe008100fefe8180817f817f817f01 -> value none$block 0 000000a4ff81ff8001817fff7ffffe80c6018000fe008100fefe8180817f817f817f010000000000000000000000000000000000000000000000000000000000\n\
int16x8_t f(int16x8_t p0, int16x8_t p1) { return vsubq_s16(p0, p1); }\n\
 vec:0000ff1a018000808a2901800100feff vec:8a800100feffeb40feff0000feffb686 -> value vec 767ffe1a0380153f8c29018003004879\n\
 vec:0180018000000100bf6b00000080ffff vec:0080701e0100f82501800100fefffeff -> value vec 01009161ffff09dabeebffff02800100\n\
 vec:feffffff0080feff0000a253feffff7f vec:69ab17f030d5ff7fff7ffeffff7fff7f -> value vec 9554e80fd0aaff7f0180a453ff7f0000\n\
 vec:0100feff9209018000800080fda60000 vec:01800000feffffffffff0080feff0180 -> value vec 0080feff9409028001800000ffa6ff7f\n\
 vec:ff7fff7ffeff0180018001800000feff vec:0180fffffeffff7f0180018001805e45 -> value vec feff00800000020000000000ff7fa0ba\n\
 vec:feff010000800080bec779c300000000 vec:8cddcad87993feff0080000000000000 -> value vec 7222372787ec0280be4779c300000000\n\
int32x4_t f(int32x4_t p0, int32x4_t p1) { return vsubq_s32(p0, p1); }\n\
 vec:00000080ffffff7ffefffffffeffffff vec:0000008000000080feffffff01000000 -> value vec 00000000ffffffff00000000fdffffff\n\
 vec:00000080010000000100000001000080 vec:0100008001000000b8fae3137e8352cd -> value vec ffffffff0000000049051cec837cadb2\n\
int64x2_t f(int64x2_t p0, int64x2_t p1) { return vsubq_s64(p0, p1); }\n\
 vec:d552aec815f76258ffffffffffffffff vec:01000000000000800100000000000080 -> value vec d452aec815f762d8feffffffffffff7f\n\
 vec:ffffffffffffff7fffffffffffffff7f vec:cd3a2b27d8712216ffffffffffffffff -> value vec 32c5d4d8278edd690000000000000080\n\
int8x16_t f(int8x16_t p0, int8x16_t p1) { return vsubq_s8(p0, p1); }\n\
 vec:00fefffffffe01aaaa7a7f0181016ace vec:81ff00ff7fff81ff818000ff81ff0001 -> value vec 7fffff0080ff80ab29fa7f0200026acd\n\
 vec:8081fe7f0080d0fe019f0181ffff01ff vec:ff01fed372ff0100817fff8001008101 -> value vec 818000ac8e81cffe80200201feff80fe\n\
uint16x8_t f(uint16x8_t p0, uint16x8_t p1) { return vsubq_u16(p0, p1); }\n\
 vec:0080ffffffff010000005dee0180feff vec:00000080ff7fffff00800180feff0000 -> value vec 0080ff7f0080020000805c6e0380feff\n\
 vec:0100ffffffffff7f00000100fefffeff vec:0080ffff0100feff000000000000ffff -> value vec 01800000feff018000000100feffffff\n\
uint32x4_t f(uint32x4_t p0, uint32x4_t p1) { return vsubq_u32(p0, p1); }\n\
 vec:ffffff7f0000000000000080152f65b0 vec:00000080ffffffffffffff7fffffff7f -> value vec ffffffff0100000001000000162f6530\n\
 vec:ffffffff01000080aef22ccd00000080 vec:00000080ffffff7fffffffffffffff7f -> value vec ffffff7f02000000aff22ccd01000000\n\
uint64x2_t f(uint64x2_t p0, uint64x2_t p1) { return vsubq_u64(p0, p1); }\n\
 vec:ffffffffffffffff56671331aa058af0 vec:bcf0f49fdb9448a20000000000000080 -> value vec 430f0b60246bb75d56671331aa058a70\n\
 vec:01000000000000000000000000000000 vec:ffffffffffffffff0100000000000080 -> value vec 0200000000000000ffffffffffffff7f\n\
uint8x16_t f(uint8x16_t p0, uint8x16_t p1) { return vsubq_u8(p0, p1); }\n\
 vec:7f01818081ff7f81818000af7f7ffe80 vec:01800081feea8101fe00807ffe5d8081 -> value vec 7e8181ff8315fe808380803081227eff\n\
 vec:0100808001817f008181ff01808081ff vec:0100017f8100fe00feff0001017ffe01 -> value vec 00007f01808181008382ff007f0183fe\n\
uint16x8_t f(uint16x8_t p0, uint16x8_t p1) { return vtrn1q_u16(p0, p1); }\n\
 vec:fefffeff010000000080008000000080 vec:ffff0180008001000080ffff00800180 -> value vec feffffff010000800080008000000080\n\
 vec:cf57feffffff008000800000feff0100 vec:5e8cff7f0180000095c4ffffff7f0000 -> value vec cf575e8cffff0180008095c4feffff7f\n\
 vec:0100ff7fffff000001809d0900000000 vec:0000ffffffffff7fff7fff7f0080ff7f -> value vec 01000000ffffffff0180ff7f00000080\n\
 vec:feff000000800180ff7fc4bc00800080 vec:00800080000001000080ffff00800080 -> value vec feff008000800000ff7f008000800080\n\
 vec:feffecc70100ffffffff0100ff7f0180 vec:784d0000ff7f00000180feff0100df78 -> value vec feff784d0100ff7fffff0180ff7f0100\n\
 vec:feffe8ee0180ff7fd30100000100ffff vec:ffff008001800080ffff0080ffff0080 -> value vec feffffff01800180d301ffff0100ffff\n\
uint32x4_t f(uint32x4_t p0, uint32x4_t p1) { return vtrn1q_u32(p0, p1); }\n\
 vec:ffffffffdd18525401000000ffffffff vec:ffffff7f01000000b593fcdd01000000 -> value vec ffffffffffffff7f01000000b593fcdd\n\
 vec:0000000001000000feffffff00000000 vec:000000000100000000000080e081c935 -> value vec 0000000000000000feffffff00000080\n\
uint64x2_t f(uint64x2_t p0, uint64x2_t p1) { return vtrn1q_u64(p0, p1); }\n\
 vec:ffffffffffffffff0100000000000000 vec:ffffffffffffffffffffffffffffffff -> value vec ffffffffffffffffffffffffffffffff\n\
 vec:4b260baa1bd48fc60100000000000080 vec:feffffffffffffffffffffffffffffff -> value vec 4b260baa1bd48fc6feffffffffffffff\n\
uint8x16_t f(uint8x16_t p0, uint8x16_t p1) { return vtrn1q_u8(p0, p1); }\n\
 vec:80c9ff01feff7f807f6c0000fe01ff81 vec:01fe7fff7f7f80feff7ffeff8000ff01 -> value vec 8001ff7ffe7f7f807fff00fefe80ffff\n\
 vec:8000ef0193ff7ffe0381ff8034818001 vec:76fe807f0180c97fff7f817f7f7f0181 -> value vec 8076ef8093017fc903ffff81347f8001";

pub const PART_8: &str = "\
uint16x8_t f(uint16x8_t p0, uint16x8_t p1) { return vtrn2q_u16(p0, p1); }\n\
 vec:ff7f0100008081a7ffffff7f01000180 vec:0080010000000080ff7fffffffff0100 -> value vec 0100010081a70080ff7fffff01800100\n\
 vec:00000100000000800000010000800000 vec:ff7f01000180feffff7f00000180feff -> value vec 010001000080feff010000000000feff\n\
 vec:fffffeff018001800100008000800000 vec:0000ffff48490180feffffffb7b30000 -> value vec feffffff018001800080ffff00000000\n\
 vec:feff01800180ff7f01004dd9ff7f0000 vec:ff7f00000180feffff7fffffff7fff7f -> value vec 01800000ff7ffeff4dd9ffff0000ff7f\n\
 vec:feff0180fefff165ffff0180feff0000 vec:01800000008000800000fffffeff0000 -> value vec 01800000f16500800180ffff00000000\n\
 vec:008000800180ff7f01800180ffff0080 vec:feff0080ff7f00800100010001000080 -> value vec 00800080ff7f00800180010000800080\n\
uint32x4_t f(uint32x4_t p0, uint32x4_t p1) { return vtrn2q_u32(p0, p1); }\n\
 vec:ffffff7f01000000ffffffff00000000 vec:0000000000000000ffffff7fffffffff -> value vec 010000000000000000000000ffffffff\n\
 vec:00000080feffffff0000000001000000 vec:0000000000000080ffffffff00000000 -> value vec feffffff000000800100000000000000\n\
uint64x2_t f(uint64x2_t p0, uint64x2_t p1) { return vtrn2q_u64(p0, p1); }\n\
 vec:ffffffffffffff7fffffffffffffffff vec:01000000000000000000000000000000 -> value vec ffffffffffffffff0000000000000000\n\
 vec:00000000000000800100000000000000 vec:ffffffffffffff7f0100000000000080 -> value vec 01000000000000000100000000000080\n\
uint8x16_t f(uint8x16_t p0, uint8x16_t p1) { return vtrn2q_u8(p0, p1); }\n\
 vec:0081fffa13fffe7f81818000ffff00a8 vec:ff80ff80c881810181af017f0081fe01 -> value vec 8180fa80ff817f0181af007fff81a801\n\
 vec:fefe7f01fe7f02fffe394cff01fe81ff vec:80807f008180a6817cff81ff00018022 -> value vec fe8001007f80ff8139fffffffe01ff22\n\
uint16x8_t f(uint16x8_t p0, uint16x8_t p1) { return vuzp1q_u16(p0, p1); }\n\
 vec:fffffefff1d3fefffffffeffff7f0000 vec:008000800180feffced9ff7f01800000 -> value vec fffff1d3ffffff7f00800180ced90180\n\
 vec:0100feff0080ffff76a8a4890180feff vec:00008ab60000ffffffff00800000feff -> value vec 0100008076a8018000000000ffff0000\n\
 vec:0000feff0080018001800080ff7f4a93 vec:feffff7fff7f01000180bb8a0180ffff -> value vec 000000800180ff7ffeffff7f01800180\n\
 vec:ba2501800180fefffeff0080feff0b2e vec:0000fffffffffffffeffff7fff7fff7f -> value vec ba250180fefffeff0000fffffeffff7f\n\
 vec:ff7f00000080ffff0180008001800080 vec:00000000ffff0000ffff008000000100 -> value vec ff7f0080018001800000ffffffff0000\n\
 vec:0000feff018000800100000001000180 vec:00000080008000000080000001800100 -> value vec 00000180010001000000008000800180\n\
uint32x4_t f(uint32x4_t p0, uint32x4_t p1) { return vuzp1q_u32(p0, p1); }\n\
 vec:fefffffffeffffff0100008001000000 vec:ffffff7fffffff7f00000080ff58ad65 -> value vec feffffff01000080ffffff7f00000080\n\
 vec:ffffffff0100008001000000feffffff vec:ffffff7ffeffffff00000080feffffff -> value vec ffffffff01000000ffffff7f00000080\n\
uint64x2_t f(uint64x2_t p0, uint64x2_t p1) { return vuzp1q_u64(p0, p1); }\n\
 vec:00000000000000800100000000000080 vec:991e6ed941886360ffffffffffffffff -> value vec 0000000000000080991e6ed941886360\n\
 vec:ffffffffffffff7fffffffffffffff7f vec:feffffffffffffff0100000000000080 -> value vec ffffffffffffff7ffeffffffffffffff\n\
uint8x16_t f(uint8x16_t p0, uint8x16_t p1) { return vuzp1q_u8(p0, p1); }\n\
 vec:018059ef7f817f7f807ffefe0100ff81 vec:7f81ff7f007f817ffefeb82301010101 -> value vec 01597f7f80fe01ff7fff0081feb80101\n\
 vec:8001ff00fe7f7f81fe80a901ff00ff01 vec:80ff70e5fe80017f018080fe81fffe81 -> value vec 80fffe7ffea9ffff8070fe01018081fe\n\
uint16x8_t f(uint16x8_t p0, uint16x8_t p1) { return vuzp2q_u16(p0, p1); }\n\
 vec:ff7fff7f01000000feff0080feff0080 vec:4143feffb0ad01800f7501800180feff -> value vec ff7f000000800080feff01800180feff\n\
 vec:0080feffff7f010000800100590a0180 vec:e7540180010001800080ff7fff7f0100 -> value vec feff01000100018001800180ff7f0100\n\
 vec:ff7fff7f00800100feffa342ff7f0100 vec:01000080feff00805e20ff7f0000ff7f -> value vec ff7f0100a342010000800080ff7fff7f\n\
 vec:0180000001800080010000800100feff vec:0000ff7f0080feff00800080ff7f0180 -> value vec 000000800080feffff7ffeff00800180\n\
 vec:0080feff0080ff7fff7f0000feffff7f vec:0100f24b000001800180feff00000080 -> value vec feffff7f0000ff7ff24b0180feff0080\n\
 vec:fefffeff01000180ff7f00800000e68d vec:0180feff0100ffff018000800080928d -> value vec feff01800080e68dfeffffff0080928d\n\
uint32x4_t f(uint32x4_t p0, uint32x4_t p1) { return vuzp2q_u32(p0, p1); }\n\
 vec:01000080ffffffff00000080feffffff vec:01000080ffffffff0100000001000000 -> value vec fffffffffeffffffffffffff01000000\n\
 vec:0100000001000080ffffff7fffffffff vec:01000080feffffff01000080e9e8c586 -> value vec 01000080fffffffffeffffffe9e8c586\n\
uint64x2_t f(uint64x2_t p0, uint64x2_t p1) { return vuzp2q_u64(p0, p1); }\n\
 vec:feffffffffffffff0000000000000000 vec:ffffffffffffff7f0100000000000000 -> value vec 00000000000000000100000000000000\n\
 vec:fefffffffffffffffeffffffffffffff vec:00000000000000806b9b8768501dad60 -> value vec feffffffffffffff6b9b8768501dad60\n\
uint8x16_t f(uint8x16_t p0, uint8x16_t p1) { return vuzp2q_u8(p0, p1); }\n\
 vec:ff81ff112c7f7f81fe80000080ff7f01 vec:81810b807f003a81fffe7fb1011601ff -> value vec 81117f818000ff0181800081feb116ff\n\
 vec:2e010080f97f01807f01800001ff7fc6 vec:7ffefe81fffe7f007e81fe6dff7f8001 -> value vec 01807f800100ffc6fe81fe00816d7f01\n\
uint16x8_t f(uint16x8_t p0, uint16x8_t p1) { return vzip1q_u16(p0, p1); }\n\
 vec:4884ff7f01000000ff7fffffffffff7f vec:ab8dff7f018001000000782901800000 -> value vec 4884ab8dff7fff7f0100018000000100\n\
 vec:00800fa7ffffe78b01003ec1ffff0000 vec:0000ff7f0000ffff0100ff7f0000feff -> value vec 008000000fa7ff7fffff0000e78bffff\n\
 vec:ff7ffeffffff9dc15e0afeff0100feff vec:000001000000ffff0100ff7f01800080 -> value vec ff7f0000feff0100ffff00009dc1ffff\n\
 vec:ab52fefffeff0100ff7f0180feffff7f vec:0100ffff0100ffff0080ff7f018065df -> value vec ab520100fefffffffeff01000100ffff\n\
 vec:00800180008001000100feff0100feff vec:9f49feff010059c90080feff00000080 -> value vec 00809f490180feff00800100010059c9\n\
 vec:ffff0080018001000000ffff0000ffff vec:01800000feffffffd7a701000100f39b -> value vec ffff0180008000000180feff0100ffff\n\
uint32x4_t f(uint32x4_t p0, uint32x4_t p1) { return vzip1q_u32(p0, p1); }\n\
 vec:feffffff010000800100000001000080 vec:01000000010000004d2caae8feffffff -> value vec feffffff010000000100008001000000\n\
 vec:fefffffffeffffff0100008001000080 vec:01000080ffffffff00000000ffffff7f -> value vec feffffff01000080feffffffffffffff\n\
uint64x2_t f(uint64x2_t p0, uint64x2_t p1) { return vzip1q_u64(p0, p1); }\n\
 vec:00000000000000800000000000000080 vec:0100000000000080ffffffffffffffff -> value vec 00000000000000800100000000000080\n\
 vec:ffffffffffffffff0000000000000000 vec:01000000000000800000000000000000 -> value vec ffffffffffffffff0100000000000080\n\
uint8x16_t f(uint8x16_t p0, uint8x16_t p1) { return vzip1q_u8(p0, p1); }\n\
 vec:01017f810100808000fe810081018142 vec:ff8080007f00017f017fff017faa7f7f -> value vec 01ff01807f808100017f00008001807f\n\
 vec:81fe0100018181010080018080fe0000 vec:01ff7fac0001ff8101fefe80800180ff -> value vec 8101feff017f00ac0100810181ff0181\n\
uint16x8_t f(uint16x8_t p0, uint16x8_t p1) { return vzip2q_u16(p0, p1); }\n\
 vec:ff7fa57701000000feffffff543d0000 vec:00800080ff7ffeff0180ff7f01000100 -> value vec feff0180ffffff7f543d010000000100\n\
 vec:feffffff018001800080008000800180 vec:010038b9ff7ffeff0180ff7f0100feff -> value vec 008001800080ff7f008001000180feff\n\
 vec:ff7f6a3cffffffff018001800180ffff vec:0080feffffff00000080ff7fffff0100 -> value vec 018000800180ff7f0180ffffffff0100\n\
 vec:c08101800080008000800180feff0100 vec:00000180000001000100018001800080 -> value vec 0080010001800180feff018001000080\n\
 vec:ff7fda71ff7f01000100ff7f01800080 vec:0000feff00807e210100ff7f00800080 -> value vec 01000100ff7fff7f0180008000800080\n\
 vec:01800100ff7f0080ffff0e1200000180 vec:35d501800000fffffffffefffeffc962 -> value vec ffffffff0e12feff0000feff0180c962\n\
uint32x4_t f(uint32x4_t p0, uint32x4_t p1) { return vzip2q_u32(p0, p1); }\n\
 vec:000000001e151fa69f71b700ffffff7f vec:01000080fb7cb6a9010000001187b184 -> value vec 9f71b70001000000ffffff7f1187b184\n\
 vec:b5731dda01000080010000809dcf9ef2 vec:00000000010000000100008000000000 -> value vec 01000080010000809dcf9ef200000000\n\
uint64x2_t f(uint64x2_t p0, uint64x2_t p1) { return vzip2q_u64(p0, p1); }\n\
 vec:ffffffffffffffff0000000000000000 vec:76536d2ae4beb8e80000000000000000 -> value vec 00000000000000000000000000000000\n\
 vec:fffffffffffffffffeffffffffffffff vec:ffffffffffffff7f0000000000000080 -> value vec feffffffffffffff0000000000000080\n\
uint8x16_t f(uint8x16_t p0, uint8x16_t p1) { return vzip2q_u8(p0, p1); }\n\
 vec:800e00fe0001fe0000fefffe807f81ff vec:808180fffeeeff800181047f8101807f -> value vec 0001fe81ff04fe7f80817f018180ff7f\n\
 vec:0a7f83fe0181fffffe807f49800101ef vec:8100817f8100817f7fff177f0100fe80 -> value vec fe7f80ff7f17497f8001010001feef80";

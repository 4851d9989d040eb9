//! Sources that are read to their end, and texts that are written whole.

use mig_io::{Failed, MemSink, MemSource, ReadFail, Sink, read_all, write_all};
use std::test::Fail;

const TEXT: &[u8] = b"#include <arm_neon.h>\n";

// The text of 22 bytes, by its greatest number of bytes a call, the calls that fail, and the limit.
const READS: [(u8, &[u64], u8, Result<(), ReadFail>); 9] = [
    (1, &[], 22, Ok(())),
    (10, &[], 22, Ok(())),
    (22, &[], 22, Ok(())),
    (99, &[], 99, Ok(())),
    (10, &[], 21, Err(ReadFail::TooLong)),
    (1, &[], 0, Err(ReadFail::TooLong)),
    (10, &[2], 22, Err(ReadFail::Fault)),
    (10, &[4], 22, Err(ReadFail::Fault)),
    (10, &[5], 22, Ok(())),
];

// The same text, by the greatest number of bytes a call, the calls that fail, the room, and how many bytes are taken.
const WRITES: [(u8, &[u64], u8, usize); 8] = [
    (10, &[2], 22, 10),
    (10, &[], 22, 22),
    (1, &[], 22, 22),
    (99, &[], 22, 22),
    (10, &[4], 22, 22),
    (10, &[1], 22, 0),
    (10, &[], 21, 20),
    (99, &[], 21, 0),
];

#[test]
fn sources_are_read_whole(rt: HostRuntime) -> Result<(), Fail> {
    let alloc = rt.alloc();
    for (piece, failing, limit, want) in READS {
        let failing = Vec::from_slice(alloc, failing)?;
        let bytes = Vec::from_slice(alloc, TEXT)?;
        let mut source = MemSource::new(bytes, usize::from(piece).max(1), failing);
        match read_all(alloc, &mut source, usize::from(limit)) {
            Ok(bytes) => {
                assert_eq!(rt; Ok(()), want);
                assert_eq!(rt; bytes.as_slice(), TEXT);
            }
            Err(fail) => assert_eq!(rt; Err(fail), want),
        }
    }
    Ok(())
}

#[test]
fn texts_are_written_whole(rt: HostRuntime) -> Result<(), Fail> {
    let alloc = rt.alloc();
    for (piece, failing, room, taken) in WRITES {
        let failing = Vec::from_slice(alloc, failing)?;
        let mut sink = MemSink::new(usize::from(piece).max(1), failing);
        sink.reserve(usize::from(room))?;
        assert_eq!(rt; write_all(&mut sink, TEXT).is_ok(), taken == TEXT.len());
        assert_eq!(rt; Some(sink.bytes()), TEXT.get(..taken));
    }
    Ok(())
}

#[test]
fn a_sink_takes_what_it_has_room_for(rt: HostRuntime) -> Result<(), Fail> {
    let alloc = rt.alloc();
    let mut sink = MemSink::new(8, Vec::new(alloc));
    assert_eq!(rt; sink.write(b"ab"), Err(Failed));
    sink.reserve(3)?;
    assert_eq!(rt; sink.write(b"ab"), Ok(2));
    assert_eq!(rt; sink.write(b"cd"), Err(Failed));
    sink.reserve(2)?;
    assert_eq!(rt; sink.write(b"cd"), Ok(2));
    assert_eq!(rt; sink.bytes(), b"abcd".as_slice());
    Ok(())
}

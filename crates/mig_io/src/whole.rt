// Reading a source to its end, and writing a text whole.
ghost use Rattle.std.specs.Prelude.{◌≡◌, ◌<◌, ◌≤◌, ◌^◌, ℕ, length, IfOk, OnOk, OnErr, IsErrOf};
ghost use Rattle.mig_io.specs.Outside.{Rose, IsRest, ReadsAll, ReadsPast, Grew, GrewInPart};
ghost use Rattle.mig_io.specs.declared.whole.ReadFail.TheVariants.{Fault, Memory};

use crate::outside::{Failed, Sink, Source};
use std::alloc::{AllocError, Global};
use thiserror::Error;

// How many bytes a turn asks for at most.
const CHUNK: usize = 4096;

/// Why a source wasn't read to its end.
#[derive(Clone, Copy, Debug, PartialEq, Eq, Error)]
pub enum ReadFail {
    #[error("the source failed")]
    Fault,
    #[error("the source has more bytes than the limit")]
    TooLong,
    #[error("out of memory")]
    Memory,
}

impl From<Failed> for ReadFail {
    ghost from_gives = { λ _ e. e ≡ Fault };

    fn from(_: Failed) -> Self {
        ReadFail::Fault
    }
}

impl From<AllocError> for ReadFail {
    ghost from_gives = { λ _ e. e ≡ Memory };

    fn from(_: AllocError) -> Self {
        ReadFail::Memory
    }
}

/// All bytes of the source to its end, of which there may be at most `limit`. At most one byte more is read.
///
/// # Errors
///
/// - `Fault` only where the source's count of faults rose in this call.
/// - `TooLong` where more than `limit` bytes were read.
/// - `Memory` where the bytes got no memory; the bytes read so far are lost.
pub fn read_all<S: Source>(alloc: Global, source: &mut S, limit: usize) -> Result<Vec<u8>, ReadFail>
    requires { limit < 2 ^ 63 }
    ensures whole { IfOk result (λ bytes. ReadsAll (S.left source.old) (S.left source.new) bytes.items) }
    ensures within { IfOk result (λ bytes. length bytes.items ≤ limit) }
    ensures too_long { IsErrOf result ReadFail.TooLong → ReadsPast limit (S.left source.old) (S.left source.new) }
    ensures fault { IsErrOf result ReadFail.Fault → Rose (S.faults source.old) (S.faults source.new) }

    // After every answer, bytes are gone from the front alone.
    ensures rest { IsRest (S.left source.old) (S.left source.new) }
    ensures never_falls { S.faults source.old ≤ S.faults source.new }
{
    let mut bytes = Vec::new(alloc);
    let mut buffer = [0u8; CHUNK];
    loop {
        let more = limit - bytes.len();
        let chunk = &mut buffer[..CHUNK.min(more + 1)];
        let n = source.read(chunk)?;
        if n == 0 {
            return Ok(bytes);
        }
        if n > more {
            return Err(ReadFail::TooLong);
        }
        bytes.extend_from_slice(&chunk[..n])?;
    }
}

/// Writes all the bytes, in as many calls as the sink wants. Takes no memory.
///
/// # Errors
///
/// [`Failed`] only where the sink's count of faults rose in this call; the sink has taken some first bytes and not all.
pub fn write_all<K: Sink>(sink: &mut K, bytes: &[u8]) -> Result<(), Failed>
    ensures ok { OnOk result (Grew (K.held sink.old) bytes.now (K.held sink.new)) }
    ensures failed { OnErr result (GrewInPart (K.held sink.old) bytes.now (K.held sink.new)) }
    ensures cause { OnErr result (Rose (K.faults sink.old) (K.faults sink.new)) }
    ensures never_falls { K.faults sink.old ≤ K.faults sink.new }
{
    let mut taken = 0;
    while taken < bytes.len() {
        taken += sink.write(&bytes[taken..])?;
    }
    Ok(())
}

// A source and a sink in memory, which move few bytes at a time and fail at chosen calls.
ghost use Rattle.std.specs.Prelude.{◌≡◌, ◌<◌, ◌≤◌, ◌++◌, ℕ, length, take, drop, max, IfOk, OnOk, OnErr, IsOk, IsErr, ◌↔◌, Some};
ghost use Rattle.mig_io.specs.Outside.{Rose, Reads, Grew};

use crate::outside::{Failed, Sink, Source};
use std::alloc::AllocError;
use std::marker::Model;

/// A source that holds given bytes. A call moves at most `piece` of them, and the calls whose numbers are listed fail;
/// the first call has the number 1.
#[derive(Drop)]
pub struct MemSource {
    bytes: Vec<u8>,
    position: usize,
    piece: usize,
    failing: Vec<u64>,
    calls: u64,
    faults: u64,
}

impl Model for MemSource {
    ghost use Rattle.std.specs.Prelude.{◌≤◌, ◌<◌, drop, vec_len};
    ghost use Rattle.mig_io.specs.Memory.{SourceState};

    ghost Value = { SourceState };

    ghost view = { λ s. record { left = drop s.position s.bytes.items; piece = s.piece; failing = s.failing.items; calls = s.calls; faults = s.faults } };

    ghost invariant = { λ s. (s.position ≤ vec_len s.bytes) × (0 < s.piece) };
}

impl MemSource {
    ghost use Rattle.mig_io.specs.Memory.{new_source};

    /// A source of these bytes, before its first call.
    pub fn new(bytes: Vec<u8>, piece: usize, failing: Vec<u64>) -> MemSource
        requires { 1 ≤ piece }
        ensures { result ≡ new_source bytes.items piece failing.items }
    {
        MemSource {
            bytes,
            position: 0,
            piece,
            failing,
            calls: 0,
            faults: 0,
        }
    }
}

impl Source for MemSource {
    ghost use Rattle.mig_io.specs.Memory.{ReadFails, read_size, after_read, after_failed_read};

    ghost left = { λ source. Some source.left };

    ghost faults = { λ source. source.faults };

    fn read(&mut self, buf: &mut [u8]) -> Result<usize, Failed>
        ensures within { IfOk result (λ n. n ≤ length buf.old) }
        ensures told { IfOk result (λ n. Reads (Some self.old.left) (Some self.new.left) n buf.old buf.new) }
        ensures unchanged { OnErr result (self.new.left ≡ self.old.left) }
        ensures cause { OnErr result (Rose self.old.faults self.new.faults) }
        ensures never_falls { self.old.faults ≤ self.new.faults }

        // Which calls fail, and all that a call does.
        ensures fails { IsErr result ↔ ReadFails self.old }
        ensures size { IfOk result (λ n. n ≡ read_size self.old (length buf.old)) }
        ensures filled { IfOk result (λ n. buf.new ≡ take n self.old.left ++ drop n buf.old) }
        ensures after { IfOk result (λ n. self.new ≡ after_read self.old n) }
        ensures after_fault { OnErr result ((self.new ≡ after_failed_read self.old) × (buf.new ≡ buf.old)) }
    {
        self.calls = self.calls.saturating_add(1);
        if self.failing.contains(&self.calls) {
            self.faults = self.faults.saturating_add(1);
            return Err(Failed);
        }
        let left = &self.bytes[self.position..];
        let n = self.piece.min(buf.len()).min(left.len());
        buf[..n].copy_from_slice(&left[..n]);
        self.position += n;
        Ok(n)
    }
}

/// A sink that keeps what it takes. A call takes at most `piece` bytes and never more than there is room for, and the
/// calls whose numbers are listed fail; the first call has the number 1.
#[derive(Drop)]
pub struct MemSink {
    held: Vec<u8>,
    room: usize,
    piece: usize,
    failing: Vec<u64>,
    calls: u64,
    faults: u64,
}

impl Model for MemSink {
    ghost use Rattle.std.specs.Prelude.{◌≤◌, ◌<◌, ◌+◌, vec_len, vec_capacity};
    ghost use Rattle.mig_io.specs.Memory.{SinkState};

    ghost Value = { SinkState };

    ghost view = { λ s. record { held = s.held.items; room = s.room; piece = s.piece; failing = s.failing.items; calls = s.calls; faults = s.faults } };

    ghost invariant = { λ s. (vec_len s.held + s.room ≤ vec_capacity s.held) × (0 < s.piece) };
}

impl MemSink {
    ghost use Rattle.mig_io.specs.Memory.{new_sink};

    /// An empty sink without room, before its first call. `reserve` takes the allocator of the list `failing`.
    pub fn new(piece: usize, failing: Vec<u64>) -> MemSink
        requires { 1 ≤ piece }
        ensures { result ≡ new_sink piece failing.items }
    {
        MemSink {
            held: Vec::new(*failing.allocator()),
            room: 0,
            piece,
            failing,
            calls: 0,
            faults: 0,
        }
    }

    /// All bytes taken.
    pub fn bytes(&self) -> &[u8]
        ensures { result.now ≡ self.now.held }
    {
        &self.held
    }

    /// Makes room for at least `n` more bytes.
    ///
    /// # Errors
    ///
    /// Want of memory alone, and never where the room is there; the sink stays as it was.
    pub fn reserve(&mut self, n: usize) -> Result<(), AllocError>
        ensures ok { OnOk result (self.new ≡ record self.old { room = max self.old.room n }) }
        ensures enough { n ≤ self.old.room → IsOk result }
        ensures err { OnErr result (self.new ≡ self.old) }
    {
        self.held.reserve(n)?;
        self.room = self.room.max(n);
        Ok(())
    }
}

impl Sink for MemSink {
    ghost use Rattle.mig_io.specs.Memory.{WriteFails, write_size, after_write, after_failed_write};

    ghost held = { λ sink. Some sink.held };

    ghost faults = { λ sink. sink.faults };

    fn write(&mut self, bytes: &[u8]) -> Result<usize, Failed>
        ensures within { IfOk result (λ n. n ≤ length bytes.now) }
        ensures progress { 0 < length bytes.now → IfOk result (λ n. 0 < n) }
        ensures told { IfOk result (λ n. Grew (Some self.old.held) (take n bytes.now) (Some self.new.held)) }
        ensures unchanged { OnErr result (self.new.held ≡ self.old.held) }
        ensures cause { OnErr result (Rose self.old.faults self.new.faults) }
        ensures never_falls { self.old.faults ≤ self.new.faults }

        // Which calls fail, and all that a call does.
        ensures fails { IsErr result ↔ WriteFails self.old (length bytes.now) }
        ensures size { IfOk result (λ n. n ≡ write_size self.old (length bytes.now)) }
        ensures after { IfOk result (λ n. self.new ≡ after_write self.old (take n bytes.now)) }
        ensures after_fault { OnErr result (self.new ≡ after_failed_write self.old) }
    {
        self.calls = self.calls.saturating_add(1);
        let n = self.piece.min(bytes.len());
        if self.failing.contains(&self.calls) || self.room < n {
            self.faults = self.faults.saturating_add(1);
            return Err(Failed);
        }
        self.held.extend_from_slice(&bytes[..n]).unwrap();
        self.room -= n;
        Ok(n)
    }
}

//! Standard input as a source, standard output and standard error as sinks. What they give and take is known to the
//! system alone, so they tell no bytes; each counts its faults.

ghost use Rattle.std.specs.Prelude.{◌≡◌};

use mig_io::{Failed, Sink, Source};
use std::io::{Read, Write};

/// A reader as a source.
#[derive(Drop)]
pub struct StandardSource<R: Read + Drop> {
    reader: R,
    faults: u64,
}

impl<R: Read + Drop> StandardSource<R> {
    /// Before its first read.
    pub fn new(reader: R) -> StandardSource<R>
        ensures { result.faults ≡ 0 }
    {
        StandardSource { reader, faults: 0 }
    }
}

impl<R: Read + Drop> Source for StandardSource<R> {
    ghost use Rattle.std.specs.Prelude.{None};

    ghost left = { λ _. None };

    ghost faults = { λ source. source.faults };

    fn read(&mut self, buf: &mut [u8]) -> Result<usize, Failed> {
        match self.reader.read(buf) {
            Ok(n) => Ok(n),
            Err(_) => {
                self.faults = self.faults.saturating_add(1);
                Err(Failed)
            }
        }
    }
}

/// A writer as a sink.
#[derive(Drop)]
pub struct StandardSink<W: Write + Drop> {
    writer: W,
    faults: u64,
}

impl<W: Write + Drop> StandardSink<W> {
    /// Before its first write.
    pub fn new(writer: W) -> StandardSink<W>
        ensures { result.faults ≡ 0 }
    {
        StandardSink { writer, faults: 0 }
    }
}

impl<W: Write + Drop> Sink for StandardSink<W> {
    ghost use Rattle.std.specs.Prelude.{None};

    ghost held = { λ _. None };

    ghost faults = { λ sink. sink.faults };

    /// A write that takes nothing of a piece is a fault too.
    fn write(&mut self, bytes: &[u8]) -> Result<usize, Failed> {
        match self.writer.write(bytes) {
            Ok(n) if n > 0 || bytes.is_empty() => Ok(n),
            _ => {
                self.faults = self.faults.saturating_add(1);
                Err(Failed)
            }
        }
    }
}

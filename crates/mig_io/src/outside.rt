// The traits of what a program reads from and writes to.
ghost use Rattle.std.specs.Prelude.{◌≡◌, ◌<◌, ◌≤◌, ℕ, List, Option, length, take, IfOk, OnErr};
ghost use Rattle.mig_io.specs.Outside.{Rose, Reads, Grew};

/// A fault of a source or a sink: the call moved no byte.
#[derive(Clone, Copy, Debug, PartialEq, Eq)]
pub struct Failed;

/// Where bytes come from.
pub trait Source {
    /// The bytes that it still holds, where it tells them.
    ghost left: { Self → Option (List ℕ) };

    /// How many faults there were; the count never falls.
    ghost faults: { Self → ℕ };

    /// Moves the next bytes to the front of the buffer and answers how many they are: from 0 to the buffer's length.
    /// At a buffer that isn't empty, 0 means that the end is reached.
    ///
    /// # Errors
    ///
    /// [`Failed`] only where the count of faults rose in this call; the bytes that are left stay the same.
    fn read(&mut self, buf: &mut [u8]) -> Result<usize, Failed>
        ensures within { IfOk result (λ n. n ≤ length buf.old) }
        ensures told { IfOk result (λ n. Reads (left self.old) (left self.new) n buf.old buf.new) }
        ensures unchanged { OnErr result (left self.new ≡ left self.old) }
        ensures cause { OnErr result (Rose (faults self.old) (faults self.new)) }
        ensures never_falls { faults self.old ≤ faults self.new };
}

/// Where bytes go.
pub trait Sink {
    /// All bytes that it has taken, where it tells them.
    ghost held: { Self → Option (List ℕ) };

    /// How many faults there were; the count never falls.
    ghost faults: { Self → ℕ };

    /// Takes the first bytes of the piece and answers how many they are: from 1 to the piece's length, and 0 for an
    /// empty piece.
    ///
    /// # Errors
    ///
    /// [`Failed`] only where the count of faults rose in this call; the bytes taken so far stay the same.
    fn write(&mut self, bytes: &[u8]) -> Result<usize, Failed>
        ensures within { IfOk result (λ n. n ≤ length bytes.now) }
        ensures progress { 0 < length bytes.now → IfOk result (λ n. 0 < n) }
        ensures told { IfOk result (λ n. Grew (held self.old) (take n bytes.now) (held self.new)) }
        ensures unchanged { OnErr result (held self.new ≡ held self.old) }
        ensures cause { OnErr result (Rose (faults self.old) (faults self.new)) }
        ensures never_falls { faults self.old ≤ faults self.new };
}

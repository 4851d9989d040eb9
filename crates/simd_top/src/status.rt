//! How a call of the tool ends.

ghost use Rattle.std.specs.Prelude.{◌≡◌};
ghost use Rattle.simd_top.specs.Codes.{code_of};

/// How a call ends. Its code is the program's exit status.
#[derive(Clone, Copy, Debug, PartialEq, Eq)]
pub enum Status {
    /// All was done, and the output has the whole text.
    Done,
    /// The source is refused, and the report has the lines that say why.
    Refused,
    /// The words are none that the tool knows, and the report has the usage line.
    Usage,
    /// The source had a fault; nothing was written.
    ReadFault,
    /// The sink of the due text had a fault; it took a proper prefix of that text.
    WriteFault,
    /// Memory ran out; nothing was written.
    NoMemory,
    /// The function that was run has no defined outcome.
    Undefined,
    /// The function that was run would spend more turns than the bound.
    Turns,
}

impl Status {
    /// The code, from 0 to 7 in the order of the variants.
    pub fn code(self) -> u8
        ensures { result ≡ code_of self }
    {
        match self {
            Status::Done => 0,
            Status::Refused => 1,
            Status::Usage => 2,
            Status::ReadFault => 3,
            Status::WriteFault => 4,
            Status::NoMemory => 5,
            Status::Undefined => 6,
            Status::Turns => 7,
        }
    }
}

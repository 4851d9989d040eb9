//! Memory and pointers into it.

ghost use Rattle.std.specs.Prelude.{◌↔◌, length, IsSome};
ghost use Rattle.c_memory.specs.Memory.{bytes_read, after_write};
ghost use Rattle.c_memory.specs.Defined.{IsAlignment, IsDefinedRead, IsDefinedWrite, Leaves};

use crate::blocks::BlockList;

/// A pointer.
#[derive(Clone, Copy, Debug, PartialEq, Eq)]
pub enum Pointer {
    /// The null pointer.
    Null,
    /// A block by its number, and an offset in bytes from 0 to its length.
    At(usize, usize),
}

/// A list of blocks.
#[derive(Debug, Drop)]
pub struct Memory {
    /// The blocks, in the order of their numbers.
    pub blocks: BlockList,
}

impl Memory {
    /// Reads as many bytes as `into` has, with an alignment in bytes. None exactly where that access isn't defined, and then
    /// `into` stays.
    pub fn read(&self, at: Pointer, align: usize, into: &mut [u8]) -> Option<()>
        requires { IsAlignment align }
        ensures value { Leaves (bytes_read self.now.blocks at align (length into.old)) into.old result into.new }
        ensures defined { IsSome result ↔ IsDefinedRead self.now.blocks at align (length into.old) }
    {
        match at {
            Pointer::Null => None,
            Pointer::At(block, offset) => self.blocks.read(block, offset, align, into),
        }
    }

    /// Writes the bytes, with an alignment in bytes. None exactly where that access isn't defined, and then the memory stays.
    pub fn write(&mut self, at: Pointer, align: usize, bytes: &[u8]) -> Option<()>
        requires { IsAlignment align }
        ensures value { Leaves (after_write self.old.blocks at align bytes.now) self.old.blocks result self.new.blocks }
        ensures defined { IsSome result ↔ IsDefinedWrite self.old.blocks at align (length bytes.now) }
    {
        match at {
            Pointer::Null => None,
            Pointer::At(block, offset) => self.blocks.write(block, offset, align, bytes),
        }
    }
}

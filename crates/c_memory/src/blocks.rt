//! Blocks and their bytes.

ghost use Rattle.std.specs.Prelude.{◌≡◌, ◌+◌, ◌<◌, ◌≤◌, if◌then◌else◌, nat_lt, true, ℕ, [], ◌∷◌, ◌++◌, length, map, reverse, OnOk, IfSome, IfNone, Some, is_some, slice_get};
ghost use Rattle.std.specs.Option.{unwrap_or};
ghost use Rattle.std.specs.List.{list_all};
ghost use Rattle.c_memory.specs.Memory.{after_write, ended, ended_from, reaches, set_bytes, read_in, written_in, overwritten, refilled};
ghost use Rattle.c_memory.specs.Living.{fall, AreEnded};
ghost use Rattle.c_memory.specs.declared.memory.Pointer.TheVariants.{At};
ghost use Rattle.c_memory.specs.Defined.{IsAlignment, Leaves};

use std::alloc::AllocError;
use std::marker::Model;

/// The bytes of a block, each set or unset.
#[derive(Debug, Drop)]
pub struct ByteList {
    bytes: Vec<Option<u8>>,
}

impl Model for ByteList {
    ghost use Rattle.std.specs.Prelude.{ℕ, List, Option};

    ghost Value = { List (Option ℕ) };

    ghost view = { λ l. l.bytes.items };
}

/// An object's bytes.
#[derive(Debug, Drop)]
pub struct Block {
    /// The bytes. A block that has ended has none.
    pub bytes: ByteList,
    /// The alignment in bytes that the block's first byte is sure to have: a power of two up to 64.
    pub align: usize,
    /// Whether the block may be written.
    pub writable: bool,
    /// Whether the block hasn't ended.
    pub alive: bool,
}

/// The blocks of a memory.
#[derive(Debug, Drop)]
pub struct BlockList {
    blocks: Vec<Block>,
    /// From this number on, a block whose number isn't in `living` has ended.
    first: usize,
    /// The numbers of blocks that have begun and not ended, in order.
    living: Vec<usize>,
}

impl Model for BlockList {
    ghost use Rattle.std.specs.Prelude.{◌≡◌, true, List, length, reverse};
    ghost use Rattle.c_memory.specs.declared.blocks.Block.{Block};
    ghost use Rattle.c_memory.specs.Living.{fall, AreEnded};

    ghost Value = { List Block };

    ghost view = { λ l. l.blocks.items };

    ghost invariant = { λ l. (fall (length l.blocks.items) (reverse l.living.items) ≡ true) × AreEnded l.first (reverse l.living.items) l.blocks.items };
}

impl ByteList {
    /// These bytes.
    pub fn new(bytes: Vec<Option<u8>>) -> ByteList
        ensures { result ≡ bytes.items }
    {
        ByteList { bytes }
    }

    /// The bytes as a slice.
    pub fn as_slice(&self) -> &[Option<u8>]
        ensures { result.now ≡ self.now }
    {
        self.bytes.as_slice()
    }

    /// The bytes given back.
    pub fn into_vec(self) -> Vec<Option<u8>>
        ensures { result.items ≡ self }
    {
        self.bytes
    }

    /// Sets the bytes from the offset on to these.
    fn put(&mut self, offset: usize, bytes: &[u8])
        requires { offset + length bytes.now ≤ length self.old }
        ensures { self.new ≡ overwritten self.old offset bytes.now }
    {
        copy_in(bytes, &mut self.bytes[offset..offset + bytes.len()]);
    }
}

/// Copies the bytes in. They are set then.
fn copy_in(bytes: &[u8], into: &mut [Option<u8>])
    requires { length bytes.now ≡ length into.old }
    ensures { into.new ≡ map Some bytes.now }
{
    for (i, byte) in bytes.iter().enumerate() {
        into[i] = Some(*byte);
    }
}

/// Copies the bytes out. One that isn't set counts as 0.
fn copy_out(bytes: &[Option<u8>], into: &mut [u8])
    requires { length bytes.now ≡ length into.old }
    ensures { into.new ≡ map (λ byte. unwrap_or byte 0) bytes.now }
{
    for (i, byte) in bytes.iter().enumerate() {
        into[i] = byte.unwrap_or(0);
    }
}

/// Whether each of the bytes is set.
fn all_set(bytes: &[Option<u8>]) -> bool
    ensures { result ≡ list_all is_some bytes.now }
{
    bytes.iter().all(|byte| byte.is_some())
}

/// Copies bytes out where each of them is set.
fn copy_set(bytes: &[Option<u8>], into: &mut [u8]) -> Option<()>
    requires { length bytes.now ≡ length into.old }
    ensures { Leaves (set_bytes bytes.now) into.old result into.new }
{
    if !all_set(bytes) {
        return None;
    }
    copy_out(bytes, into);
    Some(())
}

/// Ends blocks.
fn end_all(blocks: &mut [Block])
    ensures { blocks.new ≡ map ended blocks.old }
{
    for block in blocks.iter_mut() {
        block.end();
    }
}

/// From which number on it is noted which of `count` blocks live, where that was `first` before this one gets new bytes.
fn noted_from(block: &Block, first: usize, count: usize) -> usize
    ensures { result ≡ (if block.now.alive then first else count) }
{
    if block.alive { first } else { count }
}

/// Takes the last number away, where it is at least `start`.
fn pop_from(living: &mut Vec<usize>, start: usize) -> Option<usize>
    ensures popped { IfSome result (λ k. (start ≤ k) × (reverse living.old.items ≡ k ∷ reverse living.new.items)) }
    ensures below { (n : ℕ) → fall n (reverse living.old.items) ≡ true → IfNone result (fall start (reverse living.new.items) ≡ true) }
    ensures same { IfNone result (living.new.items ≡ living.old.items) }
    ensures shorter { IfSome result (λ _. length living.new.items < length living.old.items) }
{
    match living.last() {
        Some(k) if *k >= start => living.pop(),
        _ => None,
    }
}

/// Ends the blocks of these numbers from `start` on, and takes the numbers away.
fn end_living(blocks: &mut [Block], living: &mut Vec<usize>, start: usize)
    requires { fall (length blocks.old) (reverse living.old.items) ≡ true }
    ensures fall { fall (length blocks.new) (reverse living.new.items) ≡ true }
    ensures below { fall start (reverse living.new.items) ≡ true }
    ensures rest { (first : ℕ) → AreEnded first (reverse living.old.items) blocks.old → AreEnded first (reverse living.new.items) blocks.new }
    ensures ended { ended_from start blocks.new ≡ ended_from start blocks.old }
{
    while let Some(k) = pop_from(living, start) {
        blocks[k].end();
    }
}

/// Ends blocks from `start` on, where it is below `first`.
fn end_unnoted(blocks: &mut [Block], first: usize, start: usize)
    ensures { blocks.new ≡ (if nat_lt start first then ended_from start blocks.old else blocks.old) }
{
    if start < first && start < blocks.len() {
        end_all(&mut blocks[start..]);
    }
}

/// Ends all blocks from `start` on. Of those from `first` on the ones in `living` alone haven't ended.
fn end_behind(blocks: &mut [Block], living: &mut Vec<usize>, first: usize, start: usize)
    requires fall { fall (length blocks.old) (reverse living.old.items) ≡ true }
    requires rest { AreEnded first (reverse living.old.items) blocks.old }
    ensures fall { fall (length blocks.new) (reverse living.new.items) ≡ true }
    ensures rest { AreEnded first (reverse living.new.items) blocks.new }
    ensures ended { blocks.new ≡ ended_from start blocks.old }
{
    end_living(blocks, living, start);
    end_unnoted(blocks, first, start);
}

impl Block {
    /// Ends the block: it lives no more, and it has no bytes and no room for any.
    pub fn end(&mut self)
        ensures { self.new ≡ ended self.old }
    {
        self.alive = false;
        let alloc = *self.bytes.bytes.allocator();
        self.bytes = ByteList::new(Vec::new(alloc));
    }

    /// Whether an access of `size` bytes at the offset may be made, as far as its place is concerned.
    fn reaches(&self, offset: usize, align: usize, size: usize) -> bool
        requires { IsAlignment align }
        ensures { result ≡ reaches self.now offset align size }
    {
        let length = self.bytes.as_slice().len();
        let inside = offset <= length && size <= length - offset;
        self.alive && inside && align <= self.align && offset % align == 0
    }

    /// Reads as many bytes as `into` has. None where that isn't defined, and then `into` stays.
    pub fn read(&self, offset: usize, align: usize, into: &mut [u8]) -> Option<()>
        requires { IsAlignment align }
        ensures { Leaves (read_in (Some self.now) offset align (length into.old)) into.old result into.new }
    {
        if !self.reaches(offset, align, into.len()) {
            return None;
        }
        copy_set(&self.bytes.as_slice()[offset..offset + into.len()], into)
    }

    /// Writes these bytes. None where that isn't defined, and then the block stays.
    pub fn write(&mut self, offset: usize, align: usize, bytes: &[u8]) -> Option<()>
        requires { IsAlignment align }
        ensures { Leaves (written_in (Some self.old) offset align bytes.now) self.old result self.new }
    {
        if !self.writable || !self.reaches(offset, align, bytes.len()) {
            return None;
        }
        self.bytes.put(offset, bytes);
        Some(())
    }
}

impl BlockList {
    /// These blocks.
    pub fn new(blocks: Vec<Block>) -> BlockList
        ensures { result ≡ blocks.items }
    {
        let first = blocks.len();
        let living = Vec::new(*blocks.allocator());
        BlockList {
            blocks,
            first,
            living,
        }
    }

    /// The blocks as a slice.
    pub fn as_slice(&self) -> &[Block]
        ensures { result.now ≡ self.now }
    {
        self.blocks.as_slice()
    }

    /// The blocks given back.
    pub fn into_vec(self) -> Vec<Block>
        ensures { result.items ≡ self }
    {
        self.blocks
    }

    /// The number of blocks.
    pub fn len(&self) -> usize
        ensures { result ≡ length self.now }
    {
        self.blocks.len()
    }

    /// Adds a block after the others. The only error is want of memory.
    pub fn push(&mut self, block: Block) -> Result<(), AllocError>
        ensures { OnOk result (self.new ≡ self.old ++ (block ∷ [])) }
    {
        let number = self.blocks.len();
        self.blocks.push(block)?;
        if let Err(fail) = self.living.push(number) {
            self.first = self.blocks.len();
            return Err(fail.into());
        }
        Ok(())
    }

    /// Ends all blocks from a number on. Those that began here cost nothing once they have ended.
    pub fn end_from(&mut self, start: usize)
        ensures { self.new ≡ ended_from start self.old }
    {
        end_behind(
            self.blocks.as_mut_slice(),
            &mut self.living,
            self.first,
            start,
        );
    }

    /// The bytes of the block of that number become these, also where the block isn't written otherwise.
    pub fn refill(&mut self, block: usize, bytes: Vec<Option<u8>>)
        ensures { self.new ≡ refilled block bytes.items self.old }
    {
        if block >= self.blocks.len() {
            return;
        }
        self.first = noted_from(&self.blocks[block], self.first, self.blocks.len());
        self.blocks[block].bytes = ByteList::new(bytes);
    }

    /// Reads from a block, where there is one of that number.
    pub fn read(&self, block: usize, offset: usize, align: usize, into: &mut [u8]) -> Option<()>
        requires { IsAlignment align }
        ensures { Leaves (read_in (slice_get self.now block) offset align (length into.old)) into.old result into.new }
    {
        match self.blocks.get(block) {
            Some(found) => found.read(offset, align, into),
            None => None,
        }
    }

    /// Writes to a block, where there is one of that number.
    pub fn write(&mut self, block: usize, offset: usize, align: usize, bytes: &[u8]) -> Option<()>
        requires { IsAlignment align }
        ensures { Leaves (after_write self.old (At block offset) align bytes.now) self.old result self.new }
    {
        if block >= self.blocks.len() {
            return None;
        }
        self.blocks[block].write(offset, align, bytes)
    }
}

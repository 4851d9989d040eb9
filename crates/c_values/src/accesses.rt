//! The accesses of a row: what it reads into a register, and what it writes from one.

ghost use Rattle.std.specs.Prelude.{◌≡◌};
ghost use Rattle.c_memory.specs.Defined.{Leaves};
ghost use Rattle.c_memory.specs.MeaningRows.{is_alignment, is_access, write_one};
ghost use Rattle.c_values.specs.Results.{Gives};
ghost use Rattle.c_values.specs.Accesses.{read_into, read_next, reads_in, write_next, writes_in};

use crate::operators::moved;
use c_memory::{Memory, Pointer};
use lane_core::table::Access;

/// Whether the alignment is a power of two up to 64.
fn is_alignment(align: usize) -> bool
    ensures { result ≡ is_alignment align }
{
    match align {
        1 | 2 | 4 | 8 | 16 | 32 | 64 => true,
        _ => false,
    }
}

/// Whether the access may be made for a register of that many bytes.
fn is_access(size: usize, access: Access) -> bool
    ensures { result ≡ is_access size access }
{
    is_alignment(access.align) && access.at <= size && access.size <= size - access.at
}

/// Reads the bytes of an access into their place in a register. None where it can't be made or isn't defined.
fn read_into(memory: &Memory, at: Pointer, access: Access, register: &mut [u8]) -> Option<()>
    ensures { Gives (read_into memory.now.blocks at access register.old) result register.new }
{
    if !is_access(register.len(), access) {
        return None;
    }
    match moved(memory, at, access.offset) {
        Some(place) => memory.read(
            place,
            access.align,
            &mut register[access.at..access.at + access.size],
        ),
        None => None,
    }
}

/// The same, where it is an access that reads.
fn read_next(memory: &Memory, at: Pointer, access: Access, register: &mut [u8]) -> Option<()>
    ensures { Gives (read_next memory.now.blocks at access register.old) result register.new }
{
    if access.write {
        Some(())
    } else {
        read_into(memory, at, access, register)
    }
}

/// Makes the accesses that read, in turn.
pub fn read_each(
    memory: &Memory,
    at: Pointer,
    accesses: &[Access],
    register: &mut [u8],
) -> Option<()>
    ensures { Gives (reads_in memory.now.blocks at accesses.now register.old) result register.new }
{
    for access in accesses {
        match read_next(memory, at, *access, register) {
            Some(_) => {}
            None => return None,
        }
    }
    Some(())
}

/// Writes the bytes of an access from their place in a register. None where it can't be made or isn't defined.
fn write_one(memory: &mut Memory, at: Pointer, register: &[u8], access: Access) -> Option<()>
    ensures { Leaves (write_one at register.now access memory.old.blocks) memory.old.blocks result memory.new.blocks }
{
    if !is_access(register.len(), access) {
        return None;
    }
    match moved(memory, at, access.offset) {
        Some(place) => memory.write(
            place,
            access.align,
            &register[access.at..access.at + access.size],
        ),
        None => None,
    }
}

/// The same, where it is an access that writes.
fn write_next(memory: &mut Memory, at: Pointer, register: &[u8], access: Access) -> Option<()>
    ensures { Gives (write_next at register.now access memory.old.blocks) result memory.new.blocks }
{
    if access.write {
        write_one(memory, at, register, access)
    } else {
        Some(())
    }
}

/// Makes the accesses that write, in turn.
pub fn write_each(
    memory: &mut Memory,
    at: Pointer,
    register: &[u8],
    accesses: &[Access],
) -> Option<()>
    ensures { Gives (writes_in at register.now accesses.now memory.old.blocks) result memory.new.blocks }
{
    for access in accesses {
        match write_next(memory, at, register, *access) {
            Some(_) => {}
            None => return None,
        }
    }
    Some(())
}

//! Reads files in two parts.
ghost use Rattle.std.specs.Prelude.{IfOk, IsErrOf, IsTrue, OnOk, length, take, ◌++◌, ◌+◌, ◌≡◌, ◌≤◌};
ghost use Rattle.npy_files.specs.Clauses.{IsRead, HasCause, IsUnchanged, Device, TooLong, get};

use crate::store::StoreFault;
use disk::Disk;
use npy_format::{FileParts, front_len};
use raw_block::{BlockBuilder, RawBlock};
use std::alloc::Global;

/// The most bytes that are read at a time.
const PIECE: usize = 1 << 16;

/// Fills bytes from `start` on with the next ones of a file. If the file ends before that, it has
/// become shorter, and that is a fault.
fn fill<D: Disk>(
    disk: &mut D,
    file: &mut D::File,
    bytes: &mut [u8],
    start: usize,
) -> Result<(), StoreFault>
    requires current { IsTrue D.honest → (D.state disk.old).IsCurrent file.old }
    requires start { start ≤ length bytes.old }
    requires told { IsTrue D.honest → length bytes.old ≤ start + length (D.rest_of file.old) }
    ensures read { IsTrue D.honest →
        OnOk result (take start bytes.old ++ D.rest_of file.old ≡ bytes.new ++ D.rest_of file.new) }
    ensures long { ¬ IsErrOf result TooLong }
    ensures same { IsTrue D.honest → IsUnchanged (D.state disk.old) (D.state disk.new) }
    ensures current { IsTrue D.honest → (D.state disk.new).IsCurrent file.new }
    ensures cause { IsTrue D.honest →
        HasCause Device (D.failures disk.old) (D.failures disk.new) result }
{
    let mut at = start;
    while at < bytes.len() {
        let count = disk.read(file, &mut bytes[at..])?;
        if count == 0 {
            return Err(StoreFault::Device);
        }
        at += count;
    }
    Ok(())
}

/// A block of `len` bytes that begins with these, and goes on with the rest of a file. It is filled
/// piece by piece, so that the zeros of a piece are overwritten while they are near. If the file
/// goes on after that, it has become longer, and that is a fault.
fn read_block<D: Disk>(
    disk: &mut D,
    alloc: Global,
    file: &mut D::File,
    begin: &[u8],
    len: usize,
) -> Result<RawBlock, StoreFault>
    requires current { IsTrue D.honest → (D.state disk.old).IsCurrent file.old }
    requires len { length begin.now ≤ len }
    requires told { IsTrue D.honest → length begin.now + length (D.rest_of file.old) ≡ len }
    ensures read { IsTrue D.honest →
        IfOk result (λ block. block ≡ begin.now ++ D.rest_of file.old) }
    ensures long { ¬ IsErrOf result TooLong }
    ensures same { IsTrue D.honest → IsUnchanged (D.state disk.old) (D.state disk.new) }
    ensures cause { IsTrue D.honest →
        HasCause Device (D.failures disk.old) (D.failures disk.new) result }
{
    let mut block = BlockBuilder::try_new(alloc, len)?;
    block.push_bytes(begin);
    while block.filled() < len {
        let start = block.filled();
        block.push_zeros(PIECE.min(len - start));
        fill(disk, file, block.bytes_mut(), start)?;
    }
    if disk.read(file, &mut [0])? != 0 {
        return Err(StoreFault::Device);
    }
    Ok(block.finish())
}

/// The file with this name, if there is one, cut in two: an NPY file after its header, so that the
/// second part is the items, and any other before its first byte.
pub(crate) fn read_file<D: Disk>(
    disk: &mut D,
    alloc: Global,
    name: &[u8],
    limit: usize,
) -> Result<Option<FileParts>, StoreFault>
    ensures found { IsTrue D.honest →
        IsRead (λ parts. parts.front.items ++ parts.block) limit
        (get (D.state disk.old).files name.now) result }
    ensures same { IsTrue D.honest → IsUnchanged (D.state disk.old) (D.state disk.new) }
    ensures cause { IsTrue D.honest →
        HasCause Device (D.failures disk.old) (D.failures disk.new) result }
{
    if !disk.has_file(name)? {
        return Ok(None);
    }
    let (mut file, told) = disk.open(name)?;
    if told > limit as u64 {
        return Err(StoreFault::TooLong);
    }
    let len = told as usize;
    let mut front = Vec::new(alloc);
    front.resize(len.min(PIECE), 0)?;
    fill(disk, &mut file, front.as_mut_slice(), 0)?;
    let cut = front_len(front.as_slice());
    let block = read_block(disk, alloc, &mut file, &front[cut..], len - cut)?;
    front.truncate(cut);
    Ok(Some(FileParts { front, block }))
}

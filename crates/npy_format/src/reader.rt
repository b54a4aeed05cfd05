//! Reads files.
ghost use Rattle.std.specs.Prelude.{◌≡◌, ◌≤◌, ◌^◌, ◌++◌, length, IfOk};
ghost use Rattle.npy_format.specs.Clauses.{Answers, Gives, max_bytes, split_front, begins_well, length_bytes, text_behind, split_header, data_size, file_order, load, HoldsFileItems, Loads, load_behind};

use crate::header::{Header, header_read};
use arrays::{Owned, bytes_of};
use byteorder::{ByteOrder, LittleEndian};
use elem_descr::{MemoryOrder, Refusal};
use raw_block::RawBlock;
use std::alloc::{AllocError, Global};

/// The maximum length of a header.
pub const MAX_HEADER: usize = 1 << 20;

/// The first `n` bytes and those after them.
fn split_front(n: usize, bytes: &[u8]) -> Result<(&[u8], &[u8]), Refusal>
    ensures answers { Answers (λ parts. (parts.0.now, parts.1.now)) result
        (split_front n bytes.now) }
    ensures len { IfOk result (λ parts. length parts.0.now ≡ n) }
    ensures whole { IfOk result (λ parts. parts.0.now ++ parts.1.now ≡ bytes.now) }
    ensures rest { IfOk result (λ parts. length parts.1.now ≤ length bytes.now) }
{
    if n > bytes.len() {
        return Err(Refusal::Truncated);
    }
    Ok(bytes.split_at(n))
}

/// Whether a file begins with the magic bytes.
fn begins_well(file: &[u8]) -> bool
    ensures { result ≡ begins_well file.now }
{
    matches!(file, [0x93, b'N', b'U', b'M', b'P', b'Y', ..])
}

/// The number of bytes that store the length of the header.
fn length_bytes(version: &[u8]) -> Result<usize, Refusal>
    ensures value { result ≡ length_bytes version.now }
    ensures few { IfOk result (λ n. (1 ≤ n) × (n ≤ 4)) }
{
    match version {
        [1, 0] => Ok(2),
        [2, 0] => Ok(4),
        _ => Err(Refusal::BadVersion),
    }
}

/// The text of the header whose length these bytes give, and what follows it.
fn text_behind<'a>(field: &[u8], behind: &'a [u8]) -> Result<(&'a [u8], &'a [u8]), Refusal>
    requires some { 1 ≤ length field.now }
    requires few { length field.now ≤ 4 }
    ensures answers { Answers (λ parts. (parts.0.now, parts.1.now)) result
        (text_behind field.now behind.now) }
    ensures rest { IfOk result (λ parts. length parts.1.now ≤ length behind.now) }
{
    let len = LittleEndian::read_uint(field, field.len());
    if len > MAX_HEADER as u64 {
        return Err(Refusal::TooLarge);
    }
    split_front(len as usize, behind)
}

/// The text of a file's header, and what follows it.
#[tactic(auto, unfolding(crate::specs::Files::split_header))]
pub(crate) fn split_header(file: &[u8]) -> Result<(&[u8], &[u8]), Refusal>
    ensures answers { Answers (λ parts. (parts.0.now, parts.1.now)) result (split_header file.now) }
    ensures rest { IfOk result (λ parts. length parts.1.now ≤ length file.now) }
{
    if !begins_well(file) {
        return Err(Refusal::BadMagic);
    }
    let (version, rest) = split_front(2, file.split_at(6).1)?;
    let width = length_bytes(version)?;
    let (field, behind) = split_front(width, rest)?;
    text_behind(field, behind)
}

/// How many bytes of a file come before its items, if the header ends within these first bytes, and
/// 0 otherwise. A hint: the file reads the same whatever the answer is.
pub fn front_len(first: &[u8]) -> usize
    ensures { result ≤ length first.now }
{
    match split_header(first) {
        Ok((_, behind)) => first.len() - behind.len(),
        Err(_) => 0,
    }
}

fn order_of(fortran: bool) -> MemoryOrder
    ensures { result ≡ file_order fortran }
{
    if fortran {
        MemoryOrder::Fortran
    } else {
        MemoryOrder::C
    }
}

/// What a file holds whose header has this text: the header, the bytes of the items, and those left
/// over.
#[tactic(auto, unfolding(crate::specs::Files::load_behind))]
pub(crate) fn contents<'a>(
    alloc: Global,
    text: &[u8],
    behind: &'a [u8],
) -> Result<(Header, &'a [u8], &'a [u8]), Refusal>
    ensures gives { Gives (λ c. record { head = c.0; items = c.1.now; rest = length c.2.now })
        result (load_behind text.now behind.now) }
    ensures whole { IfOk result (λ c. length c.1.now ≡ data_size c.0) }
    ensures small { IfOk result (λ c. length c.1.now ≤ max_bytes) }
    ensures all { IfOk result (λ c. c.1.now ++ c.2.now ≡ behind.now) }
{
    let header = header_read(alloc, text)?;
    let size = bytes_of(header.shape.items(), &header.descr)?;
    let (items, rest) = split_front(size, behind)?;
    Ok((header, items, rest))
}

/// The array whose items are this block.
pub(crate) fn array_over(
    alloc: Global,
    header: Header,
    block: RawBlock,
) -> Result<Owned, AllocError>
    requires whole { length block ≡ data_size header }
    requires small { length block ≤ max_bytes }
    ensures { IfOk result (λ array. HoldsFileItems array header block) }
{
    let order = order_of(header.fortran);
    Owned::over(alloc, header.descr, &header.shape, order, block)
}

/// The array whose items have these bytes.
pub(crate) fn array(alloc: Global, header: Header, items: &[u8]) -> Result<Owned, AllocError>
    requires whole { length items.now ≡ data_size header }
    requires small { length items.now ≤ max_bytes }
    ensures { IfOk result (λ array. HoldsFileItems array header items.now) }
{
    let block = RawBlock::try_copied(alloc, items)?;
    array_over(alloc, header, block)
}

/// Reads a file of version 1.0 or 2.0: returns its array, whose items are in the order of the file,
/// and how many bytes follow the items. The bytes of the items are kept as they are: padding keeps
/// what it contains, and a bool whose byte is not 0 is true.
///
/// A file that does not begin like an NPY file is `BadMagic`, one of another version `BadVersion`,
/// and one that ends too early `Truncated`; a header of more than 2^20 bytes, and more than 2^28
/// bytes of items, are `TooLarge`. The other refusals are those of `header_read`. The first error
/// from the left decides, and the limit on the items comes before `Truncated`.
#[tactic(auto, unfolding(crate::specs::Files::load))]
pub fn npy_read(alloc: Global, file: &[u8]) -> Result<(Owned, usize), Refusal>
    ensures { Loads result (load file.now) }
{
    let (text, behind) = split_header(file)?;
    let (header, items, rest) = contents(alloc, text, behind)?;
    let array = array(alloc, header, items)?;
    Ok((array, rest.len()))
}

//! Files in two parts: how they are loaded.
ghost use Rattle.std.specs.Prelude.{IfOk, ◌++◌, ◌≡◌};
ghost use Rattle.npy_format.specs.Clauses.{Loads, load, load_behind};

use crate::reader::{array, array_over, contents, front_len, npy_read, split_header};
use arrays::Owned;
use elem_descr::Refusal;
use raw_block::RawBlock;
use std::alloc::{AllocError, Global};

/// A file in two parts, one after the other. Wherever it is cut, it is the same file; if an NPY
/// file is cut after its header, the block of the second part can become that of the array.
#[derive(Drop)]
pub struct FileParts {
    pub front: Vec<u8>,
    pub block: RawBlock,
}

impl FileParts {
    /// A copy of a file, cut after its header if it is an NPY file. Each byte is copied once.
    pub fn copied(alloc: Global, bytes: &[u8]) -> Result<FileParts, AllocError>
        ensures { IfOk result (λ parts. parts.front.items ++ parts.block ≡ bytes.now) }
    {
        let (front, items) = bytes.split_at(front_len(bytes));
        Ok(FileParts {
            front: Vec::from_slice(alloc, front)?,
            block: RawBlock::try_copied(alloc, items)?,
        })
    }

    /// The bytes of both parts, in the memory of the first part if that has room.
    pub fn joined(self) -> Result<Vec<u8>, AllocError>
        ensures { IfOk result (λ bytes. bytes.items ≡ self.front.items ++ self.block) }
    {
        let FileParts { front, block } = self;
        let mut bytes = front;
        bytes.extend_from_slice(block.bytes())?;
        Ok(bytes)
    }
}

/// The array whose header has this text and whose items the block begins with. A block with nothing
/// after them becomes that of the array.
fn load_behind(alloc: Global, text: &[u8], block: RawBlock) -> Result<(Owned, usize), Refusal>
    ensures { Loads result (load_behind text.now block) }
{
    let (header, items, rest) = contents(alloc, text, block.bytes())?;
    let rest = rest.len();
    if rest > 0 {
        let array = array(alloc, header, items)?;
        return Ok((array, rest));
    }
    let array = array_over(alloc, header, block)?;
    Ok((array, 0))
}

/// Reads a file in two parts, as `npy_read` reads its bytes. If the first part ends with the header
/// and the second with the last item, the items are not copied.
pub fn npy_load(alloc: Global, parts: FileParts) -> Result<(Owned, usize), Refusal>
    ensures { Loads result (load (parts.front.items ++ parts.block)) }
{
    let FileParts { front, block } = parts;
    if front.is_empty() {
        return npy_read(alloc, block.bytes());
    }
    if let Ok((text, [])) = split_header(front.as_slice()) {
        return load_behind(alloc, text, block);
    }
    let file = FileParts { front, block }.joined()?;
    npy_read(alloc, file.as_slice())
}

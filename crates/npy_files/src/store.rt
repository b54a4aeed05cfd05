//! Stores of files, and the names of files.
ghost use Rattle.npy_files.specs.Names as spec;
ghost use Rattle.npy_files.specs.Stores.{FaultHasCause, IsKept, IsSameStore, ReadsFile, StoreState, WritesFile};
ghost use Rattle.std.specs.Prelude.{IfOk, false, true, ◌++◌, ◌+◌, ◌<◌, ◌≡◌, ◌≤◌};
ghost use Rattle.npy_files.specs.Folders.{fault_of};
ghost use Rattle.npy_files.specs.declared.store.StoreFault.TheVariants.{Memory};

use disk::DiskFault;
use npy_format::FileParts;
use std::alloc::{AllocError, AllocFailed, Global};
use thiserror::Error;

/// Why a file was not read or written.
#[derive(Clone, Copy, Debug, PartialEq, Eq, Error)]
pub enum StoreFault {
    #[error("device fault")]
    Device,
    #[error("file too long")]
    TooLong,
    #[error("out of memory")]
    Memory,
}

impl From<AllocError> for StoreFault {
    ghost from_gives = { λ _ e. e ≡ Memory };

    fn from(_error: AllocError) -> StoreFault {
        StoreFault::Memory
    }
}

impl<T: Drop> From<AllocFailed<T>> for StoreFault {
    ghost from_gives = { λ _ e. e ≡ Memory };

    fn from(_error: AllocFailed<T>) -> StoreFault {
        StoreFault::Memory
    }
}

impl From<DiskFault> for StoreFault {
    ghost from_gives = { λ fault e. e ≡ fault_of fault };

    fn from(fault: DiskFault) -> StoreFault {
        match fault {
            DiskFault::Failed => StoreFault::Device,
            DiskFault::Memory => StoreFault::Memory,
        }
    }
}

/// Whether the two parts of a file, of `front` and `items` bytes, are together longer than the
/// limit.
pub(crate) fn is_longer(front: usize, items: usize, limit: usize) -> bool
    ensures longer { result ≡ true → limit < front + items }
    ensures within { result ≡ false → front + items ≤ limit }
{
    front > limit || items > limit - front
}

/// A store of files by their names. Its contracts describe a store by its `shelf`. Only of an
/// honest store do they say what a read returns, what a name has after a write, and when a file is
/// too long.
pub trait NpyStore {
    ghost shelf: { Self → StoreState };

    /// The most bytes that a file may have. It never changes.
    fn limit(&self) -> usize
        ensures { result ≡ (shelf self.now).limit };

    /// The file with this name in two parts, cut where the store cuts it, or `None` if there is no
    /// such file. It leaves all files as they are.
    fn read_parts(&mut self, alloc: Global, name: &[u8]) -> Result<Option<FileParts>, StoreFault>
        ensures same { IsSameStore (shelf self.old) (shelf self.new) }
        ensures files { (shelf self.new).files ≡ (shelf self.old).files }
        ensures cause { FaultHasCause (shelf self.old) (shelf self.new) result }
        ensures found { ReadsFile (λ parts. parts.front.items ++ parts.block)
            (shelf self.old) name.now result };

    /// Writes a file that consists of these two parts, over the one with this name if there is
    /// one.
    fn write_parts(
        &mut self,
        alloc: Global,
        name: &[u8],
        front: &[u8],
        items: &[u8],
    ) -> Result<(), StoreFault>
        ensures same { IsSameStore (shelf self.old) (shelf self.new) }
        ensures cause { FaultHasCause (shelf self.old) (shelf self.new) result }
        ensures kept { IsKept name.now result (shelf self.old).files (shelf self.new).files }
        ensures written { WritesFile (shelf self.old) name.now (front.now ++ items.now) result
            (shelf self.new) };

    /// The bytes of the file that `read_parts` returns.
    fn read(&mut self, alloc: Global, name: &[u8]) -> Result<Option<Vec<u8>>, StoreFault>
        ensures same { IsSameStore (shelf self.old) (shelf self.new) }
        ensures files { (shelf self.new).files ≡ (shelf self.old).files }
        ensures cause { FaultHasCause (shelf self.old) (shelf self.new) result }
        ensures found { ReadsFile (λ bytes. bytes.items) (shelf self.old) name.now result }
    {
        match self.read_parts(alloc, name)? {
            Some(parts) => Ok(Some(parts.joined()?)),
            None => Ok(None),
        }
    }

    /// Writes the file with these bytes, as `write_parts` does.
    fn write(&mut self, alloc: Global, name: &[u8], bytes: &[u8]) -> Result<(), StoreFault>
        ensures same { IsSameStore (shelf self.old) (shelf self.new) }
        ensures cause { FaultHasCause (shelf self.old) (shelf self.new) result }
        ensures kept { IsKept name.now result (shelf self.old).files (shelf self.new).files }
        ensures written { WritesFile (shelf self.old) name.now bytes.now result (shelf self.new) }
    {
        self.write_parts(alloc, name, bytes, &[])
    }
}

/// Whether a file of the store may have this name: it is not hidden.
pub(crate) fn is_user_name(name: &[u8]) -> bool
    ensures { result ≡ spec.is_user_name name.now }
{
    match name {
        [first, ..] => *first != b'.',
        [] => false,
    }
}

/// The name under which a file is written first.
pub(crate) fn hidden_name(alloc: Global, name: &[u8]) -> Result<Vec<u8>, AllocError>
    ensures { IfOk result (λ hidden. hidden.items ≡ spec.hidden_name name.now) }
{
    let mut hidden = Vec::from_slice(alloc, b".")?;
    hidden.extend_from_slice(name)?;
    hidden.extend_from_slice(b".part")?;
    Ok(hidden)
}

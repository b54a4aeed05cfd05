//! The calls of a disk.
ghost use Rattle.std.specs.Prelude.{Option, ◌≡◌, ◌≢◌, ◌<◌, ◌≤◌, ◌++◌, ℕ, Bool, List, [], length, take, IsTrue, IfOk, OnOk, IsErrOf};
ghost use Rattle.disk.specs.HostErrors.{IsAbsent, IsNoError, IsUnsupported, PassesOn};
ghost use Rattle.disk.specs.Words.{ErrorKind, get};
ghost use Rattle.disk.specs.Crashes.{DiskState, MayLeave};
ghost use Rattle.disk.specs.declared.disk.DiskFault.TheVariants.{Failed, Memory};
ghost use Rattle.disk.specs.Calls.{HasCause, IsThere, IsOpened, IsUnchanged, ChangesOnly, Moves, Appends, HasNames};

use std::alloc::{AllocError, AllocFailed};
use thiserror::Error;

/// Why a call of a disk failed.
#[derive(Clone, Copy, Debug, PartialEq, Eq, Error)]
pub enum DiskFault {
    #[error("disk failed")]
    Failed,
    #[error("out of memory")]
    Memory,
}

impl From<AllocError> for DiskFault {
    ghost from_gives = { λ _ e. e ≡ Memory };

    fn from(_error: AllocError) -> DiskFault {
        DiskFault::Memory
    }
}

impl<T: Drop> From<AllocFailed<T>> for DiskFault {
    ghost from_gives = { λ _ e. e ≡ Memory };

    fn from(_error: AllocFailed<T>) -> DiskFault {
        DiskFault::Memory
    }
}

/// One folder of files. What its contracts say about its state holds only for an honest disk.
pub trait Disk {
    /// An open file.
    type File: Drop;

    /// Whether the disk does what its contracts say. This never changes.
    ghost honest: { Bool };

    /// Its files, and what a crash may leave.
    ghost state: { Self → DiskState Self.File };

    /// How often the disk has failed.
    ghost failures: { Self → ℕ };

    /// The error with which the operating system answered last, if it did. A disk in memory has none.
    ghost last: { Self → Option ErrorKind };

    /// The name under which a file was opened.
    ghost name_of: { Self.File → List ℕ };

    /// Its bytes that are still to be read.
    ghost rest_of: { Self.File → List ℕ };

    /// Whether there is a file of this name. Anything that is not a regular file, such as a folder
    /// or a pipe, is a failure. A link counts as what it leads to.
    fn has_file(&mut self, name: &[u8]) -> Result<bool, DiskFault>
        ensures found { IsTrue honest →
            IfOk result (λ found. IsThere found (get (state self.old).files name.now)) }
        ensures same { IsTrue honest → IsUnchanged (state self.old) (state self.new) }
        ensures passes { PassesOn Memory IsAbsent (last self.old) (last self.new) result }
        ensures cause { HasCause Failed (failures self.old) (failures self.new) result };

    /// Opens a file for reading, and returns how many bytes it has.
    fn open(&mut self, name: &[u8]) -> Result<(Self::File, u64), DiskFault>
        ensures found { IsTrue honest →
            IfOk result (λ opened. get (state self.old).files name.now ≡ Some (rest_of opened.0)) }
        ensures told { IsTrue honest →
            IfOk result (λ opened. opened.1 ≡ length (rest_of opened.0)) }
        ensures opened { IsTrue honest →
            IfOk result (λ opened. IsOpened name_of name.now (state self.new) opened.0) }
        ensures same { IsTrue honest → IsUnchanged (state self.old) (state self.new) }
        ensures passes { PassesOn Memory IsNoError (last self.old) (last self.new) result }
        ensures cause { HasCause Failed (failures self.old) (failures self.new) result };

    /// Reads the next bytes. It reads none only at the end of the file.
    fn read(&mut self, file: &mut Self::File, piece: &mut [u8]) -> Result<usize, DiskFault>
        requires { IsTrue honest → (state self.old).IsCurrent file.old }
        ensures count { IfOk result (λ count. count ≤ length piece.old) }
        ensures read { IsTrue honest →
            IfOk result (λ count. rest_of file.old ≡ take count piece.new ++ rest_of file.new) }
        ensures end { IsTrue honest →
            IfOk result (λ count. count ≡ 0 → 0 < length piece.old → rest_of file.old ≡ []) }
        ensures opened { IsTrue honest →
            IsOpened name_of (name_of file.old) (state self.new) file.new }
        ensures same { IsTrue honest → IsUnchanged (state self.old) (state self.new) }
        ensures passes { PassesOn Memory IsNoError (last self.old) (last self.new) result }
        ensures cause { HasCause Failed (failures self.old) (failures self.new) result };

    /// Makes an empty file that is to replace another, and that nobody may do more with than with
    /// the other. A leftover under its name, of a program that has ended, is removed. It fails if
    /// another program is writing under that name, or if the file to replace is not a regular file,
    /// such as a link. Until the file, and after it the names, are synced, a crash may leave
    /// anything under its name.
    fn create(&mut self, name: &[u8], place: &[u8]) -> Result<Self::File, DiskFault>
        ensures created { IsTrue honest → OnOk result (get (state self.new).files name.now ≡ Some []) }
        ensures opened { IsTrue honest →
            IfOk result (IsOpened name_of name.now (state self.new)) }
        ensures others { IsTrue honest →
            ChangesOnly name_of name.now (state self.old) (state self.new) }
        ensures passes { PassesOn Memory IsNoError (last self.old) (last self.new) result }
        ensures cause { HasCause Failed (failures self.old) (failures self.new) result };

    /// Writes at the end of a file. Until the file, and after it the names, are synced, a crash may
    /// leave anything under its name.
    fn append(&mut self, file: &mut Self::File, bytes: &[u8]) -> Result<(), DiskFault>
        requires { IsTrue honest → (state self.old).IsCurrent file.old }
        ensures appended { IsTrue honest →
            OnOk result (Appends bytes.now
            (get (state self.old).files (name_of file.old))
            (get (state self.new).files (name_of file.old))) }
        ensures opened { IsTrue honest →
            IsOpened name_of (name_of file.old) (state self.new) file.new }
        ensures others { IsTrue honest →
            ChangesOnly name_of (name_of file.old) (state self.old) (state self.new) }
        ensures passes { PassesOn Memory IsNoError (last self.old) (last self.new) result }
        ensures cause { HasCause Failed (failures self.old) (failures self.new) result };

    /// Syncs the bytes of a file to the disk.
    fn sync(&mut self, file: &Self::File) -> Result<(), DiskFault>
        requires { IsTrue honest → (state self.old).IsCurrent file.now }
        ensures synced { IsTrue honest → OnOk result ((state self.new).Synced (name_of file.now)) }
        ensures same { IsTrue honest → IsUnchanged (state self.old) (state self.new) }
        ensures passes { PassesOn Memory IsNoError (last self.old) (last self.new) result }
        ensures cause { HasCause Failed (failures self.old) (failures self.new) result };

    /// Renames a file, which replaces the file that had the new name. A crash leaves one file or
    /// the other under the new name, if the bytes of the renamed file are on the disk.
    fn rename(&mut self, from: &[u8], to: &[u8]) -> Result<(), DiskFault>
        requires { to.now ≢ from.now }
        ensures renamed { IsTrue honest →
            OnOk result (get (state self.new).files to.now ≡ get (state self.old).files from.now) }
        ensures synced { IsTrue honest →
            OnOk result ((state self.old).Synced from.now → (state self.new).Synced to.now) }
        ensures others { IsTrue honest →
            Moves name_of from.now to.now (state self.old) (state self.new) }
        ensures memory { IsTrue honest → IsErrOf result Memory →
            (state self.new).files ≡ (state self.old).files }
        ensures passes { PassesOn Memory IsNoError (last self.old) (last self.new) result }
        ensures cause { HasCause Failed (failures self.old) (failures self.new) result };

    /// Removes the file of this name, if there is one.
    fn remove(&mut self, name: &[u8]) -> Result<(), DiskFault>
        ensures removed { IsTrue honest → OnOk result (get (state self.new).files name.now ≡ None) }
        ensures others { IsTrue honest →
            ChangesOnly name_of name.now (state self.old) (state self.new) }
        ensures passes { PassesOn Memory IsAbsent (last self.old) (last self.new) result }
        ensures cause { HasCause Failed (failures self.old) (failures self.new) result };

    /// Syncs the names to the disk: new ones, changed ones and removed ones.
    fn sync_names(&mut self) -> Result<(), DiskFault>
        ensures memory { IsErrOf result Memory → ⊥ }
        ensures names { IsTrue honest → OnOk result (HasNames (state self.old) (state self.new)) }
        ensures same { IsTrue honest → IsUnchanged (state self.old) (state self.new) }
        ensures passes { PassesOn Memory IsUnsupported (last self.old) (last self.new) result }
        ensures cause { HasCause Failed (failures self.old) (failures self.new) result };

    /// A crash may leave what a read finds, so no honest disk has an empty history. Since no call
    /// changes the moments before it, each call also continues the history that it found.
    ghost stays: { (disk : Self) → IsTrue honest →
        MayLeave (state disk).history (state disk).files };
}

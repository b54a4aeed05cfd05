//! The calls of a folder, made of those of the system, and what their errors become.
//! `docs/DECISIONS.md` has the table of calls, errors and answers.
ghost use Rattle.std.specs.Prelude.{if◌then◌else◌, IfErr, IfOk, IfSome, IsErrAnd, IsFalse, IsTrue, None, OnOk, Some, ◌%◌, ◌<◌, ◌≡◌, ◌≢◌};
ghost use Rattle.disk.specs.Clauses.{IsAbsent, IsUnsupported, both_may, error_kind, group_may, others_may, owner_may};

use crate::system::System;
use std::fs::{File, Metadata};
use std::io;
use std::io::ErrorKind;
use std::os::unix::fs::MetadataExt;
use std::path::Path;
use std::rt::Files;

/// The mode of a new file, before the process's mask is applied.
const NEW_MODE: u32 = 0o666;

/// The mode of a new file, until it gets that of the file that it replaces.
const PRIVATE_MODE: u32 = 0o600;

impl<'a, R: Files<File = File>> System<'a, R> {
    /// Whether a path leads to a regular file, through links. Anything else there is an error.
    pub(crate) fn has_file(&mut self, path: Path) -> io::Result<bool>
        ensures { IfOk result (λ found.
            self.new.last ≡ (if found then None else Some ErrorKind.NotFound)) }
    {
        match found(self.look_through(path))? {
            Some(found) if found.is_file() => Ok(true),
            Some(_) => Err(io::Error::from(ErrorKind::InvalidInput)),
            None => Ok(false),
        }
    }

    /// Opens a regular file, and returns its length. Anything else, such as a folder or a pipe, is
    /// an error, and is not opened if it was there before: a pipe would wait for its other end.
    pub(crate) fn open_file(&mut self, path: Path) -> io::Result<(File, u64)>
        ensures { OnOk result (self.new.last ≡ None) }
    {
        if !self.has_file(path)? {
            return Err(io::Error::from(ErrorKind::NotFound));
        }
        let file = self.open_to_read(path)?;
        let opened = self.look_into(&file)?;
        if !opened.is_file() {
            return Err(io::Error::from(ErrorKind::InvalidInput));
        }
        Ok((file, opened.len()))
    }

    /// Removes what is at a path, if anything is.
    pub(crate) fn remove_file(&mut self, path: Path) -> io::Result<()>
        ensures { OnOk result (IfSome self.new.last IsAbsent) }
    {
        found(self.remove(path))?;
        Ok(())
    }

    /// Syncs the names in an open folder to the disk, if its file system can do that.
    fn sync_opened(&mut self, folder: io::Result<File>) -> io::Result<()>
        ensures unopened { IfErr folder (λ error. result ≡ Err error) }
        ensures last { OnOk result (IfSome self.new.last IsUnsupported) }
    {
        where_supported(self.sync(&folder?))
    }

    /// Syncs the names in a folder to the disk, if its file system can do that. It fails if the
    /// folder cannot be opened, even if the folder's mode forbids it, since the names may not last
    /// then.
    pub(crate) fn sync_folder(&mut self, dir: Path) -> io::Result<()>
        ensures { OnOk result (IfSome self.new.last IsUnsupported) }
    {
        let folder = self.open_to_read(dir);
        self.sync_opened(folder)
    }

    /// Whether an open file is the one at a path.
    fn lies_at(&mut self, file: &File, path: Path) -> io::Result<bool>
        ensures { IfOk result (λ lies. IsTrue lies → self.new.last ≡ None) }
    {
        match found(self.look_at(path))? {
            Some(there) => Ok(is_same(&self.look_into(file)?, &there)),
            None => Ok(false),
        }
    }

    /// Opens a leftover file for writing, since an NFS client gives no lock for a file that is open
    /// only for reading (flock(2)), or for reading if its mode forbids writing. If its mode lets
    /// its owner do neither, the owner changes the mode, but only while the file is opened, since a
    /// program may still be writing it.
    fn open_leftover(&mut self, path: Path, left: &Metadata) -> io::Result<File> {
        match self.open_to_write(path) {
            Err(error) if error.kind() == ErrorKind::PermissionDenied => {}
            answer => return answer,
        }
        match self.open_to_read(path) {
            Err(error) if error.kind() == ErrorKind::PermissionDenied => {}
            answer => return answer,
        }
        self.set_mode_at(path, PRIVATE_MODE)?;
        let file = self.open_to_write(path)?;
        if is_same(&self.look_into(&file)?, left) {
            self.set_mode(&file, left.mode())?;
        }
        Ok(file)
    }

    /// Removes a file that was left by a program that has ended. A program that is still writing
    /// its file holds the lock. If the file system has no locks, it is as if no other program had
    /// it.
    fn remove_leftover(&mut self, path: Path) -> io::Result<()> {
        let Some(left) = found(self.look_at(path))? else {
            return Ok(());
        };
        if !left.is_file() {
            return self.remove_file(path);
        }
        let file = self.open_leftover(path, &left)?;
        where_supported(self.lock(&file))?;
        if self.lies_at(&file, path)? {
            return self.remove_file(path);
        }
        Ok(())
    }

    /// Makes a new file and takes its lock, which lasts while the file is open. If another program
    /// took the file for a leftover in between, the file is no longer at the path, and the call
    /// fails.
    fn claim_file(&mut self, path: Path, mode: u32) -> io::Result<File>
        ensures { OnOk result (self.new.last ≡ None) }
    {
        self.remove_leftover(path)?;
        let file = self.make(path, mode)?;
        where_supported(self.lock(&file))?;
        if !self.lies_at(&file, path)? {
            return Err(io::Error::from(ErrorKind::ResourceBusy));
        }
        Ok(file)
    }

    /// Gives a new file the group and the permissions of the file that it is to replace, or fewer
    /// permissions if the group is refused.
    fn take_access(&mut self, file: &File, old: &Metadata) -> io::Result<()>
        ensures { OnOk result (self.new.last ≡ None) }
    {
        let mut new = self.look_into(file)?;
        if new.gid() != old.gid() {
            where_permitted(self.set_group(file, old.gid()))?;
            new = self.look_into(file)?;
        }
        let mode = permissions(old.mode(), new.gid() == old.gid());
        if new.mode() % 0o1000 == mode {
            return Ok(());
        }
        self.set_mode(file, mode)
    }

    /// Makes a new file that is to replace another, and that nobody may do more with than with the
    /// other. Anything that is not a regular file, such as a folder or a link, is not replaced.
    pub(crate) fn create_file(&mut self, path: Path, place: Path) -> io::Result<File>
        ensures { OnOk result (self.new.last ≡ None) }
    {
        let Some(old) = found(self.look_at(place))? else {
            return self.claim_file(path, NEW_MODE);
        };
        if !old.is_file() {
            return Err(io::Error::from(ErrorKind::InvalidInput));
        }
        let file = self.claim_file(path, PRIVATE_MODE)?;
        match self.take_access(&file, &old) {
            Ok(()) => Ok(file),
            Err(error) => {
                let _ = self.remove_file(path);
                Err(error)
            }
        }
    }
}

/// Whether two looks saw the same file.
fn is_same(one: &Metadata, other: &Metadata) -> bool {
    one.ino() == other.ino() && one.dev() == other.dev()
}

/// The permissions of a file that replaces one of this mode. If it has another group, its group
/// and all others get what the old group and all others both had, since a user may have been in
/// either.
fn permissions(old: u32, has_group: bool) -> u32
    ensures known { result < 512 }
    ensures kept { IsTrue has_group → result ≡ old % 512 }
    ensures owner { owner_may result ≡ owner_may old }
    ensures group { IsFalse has_group → group_may result ≡ both_may old }
    ensures others { IsFalse has_group → others_may result ≡ both_may old }
{
    if has_group {
        return old % 0o1000;
    }
    let (owner, group, others) = (old / 0o100 % 8, old / 0o10 % 8, old % 8);
    let both = group & others;
    owner * 0o100 + both * 0o10 + both
}

/// Ignores an error that says that the file system does not support the call, and not that it
/// failed:
///
/// - `EINVAL`, for a sync "fd is bound to a special file which does not support synchronization"
///   (fsync(2)), for a lock "operation is invalid" (flock(2));
/// - `ENOSYS`, "function not implemented" (errno(3));
/// - `EOPNOTSUPP`, the same number as `ENOTSUP`, "operation not supported" (errno(3)).
///
/// All other errors are failures. `EROFS` is one, although fsync(2) names it beside `EINVAL`: a
/// folder is no special file, and just after a write it says that a fault has made the file system
/// read-only. `ENOLCK` is one as well: "the kernel ran out of memory for allocating lock records"
/// (flock(2)).
fn where_supported(answer: io::Result<()>) -> io::Result<()>
    ensures passed { OnOk result (IfErr answer (λ error. IsUnsupported (error_kind error))) }
    ensures failed { IfErr answer
        (λ error. ¬ IsUnsupported (error_kind error) → result ≡ Err error) }
{
    match answer {
        Ok(()) => Ok(()),
        Err(error) => match error.kind() {
            ErrorKind::InvalidInput | ErrorKind::Unsupported => Ok(()),
            _ => Err(error),
        },
    }
}

/// Ignores an error that says that the caller may not do this (`EACCES`, `EPERM`), or that the file
/// system does not support it.
fn where_permitted(answer: io::Result<()>) -> io::Result<()> {
    match where_supported(answer) {
        Err(error) if error.kind() == ErrorKind::PermissionDenied => Ok(()),
        answer => answer,
    }
}

/// What a call on a path returns, or `None` if nothing is there (`ENOENT`).
fn found<T: Drop>(answer: io::Result<T>) -> io::Result<Option<T>>
    ensures some { IfOk result (λ found. IfSome found (λ value. answer ≡ Ok value)) }
    ensures none { result ≡ Ok None →
        IsErrAnd answer (λ error. error_kind error ≡ ErrorKind.NotFound) }
    ensures failed { IfErr answer
        (λ error. error_kind error ≢ ErrorKind.NotFound → result ≡ Err error) }
{
    match answer {
        Ok(found) => Ok(Some(found)),
        Err(error) if error.kind() == ErrorKind::NotFound => Ok(None),
        Err(error) => Err(error),
    }
}

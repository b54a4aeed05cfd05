//! The calls of the operating system that a folder needs, each repeated if a signal interrupts it.
ghost use Rattle.std.specs.Prelude.{◌≡◌, ◌≤◌, IfOk, None, length};
ghost use Rattle.disk.specs.Clauses.{error_of};

use std::fs::{File, Metadata, OpenOptions, Permissions};
use std::io::{ErrorKind, Read, Write};
use std::os::unix::fs as unix;
use std::os::unix::fs::{OpenOptionsExt, PermissionsExt};
use std::path::Path;
use std::rt::Files;
use std::{fs, io};

/// The operating system, reached through a runtime. No contract of the library says what its calls
/// do, but `last` keeps the error of the last one, so that contracts can name it.
#[derive(Drop)]
pub(crate) struct System<'a, R: Files<File = File>> {
    rt: &'a R,
    last: Option<ErrorKind>,
}

/// Repeats a call until no signal interrupts it.
fn uninterrupted<T: Drop, F: Fn() -> io::Result<T> + Drop>(call: F) -> io::Result<T>
    requires { F.IsAlwaysCallable call }
    ensures { F.post call result }
{
    for _ in 0..u64::MAX {
        match call() {
            Err(error) if error.kind() == ErrorKind::Interrupted => {}
            answer => return answer,
        }
    }
    call()
}

/// Reads until no signal interrupts it.
fn read_some<F: Read>(file: &mut F, piece: &mut [u8]) -> io::Result<usize>
    ensures { IfOk result (λ count. count ≤ length piece.old) }
{
    for _ in 0..u64::MAX {
        match file.read(piece) {
            Err(error) if error.kind() == ErrorKind::Interrupted => {}
            answer => return answer,
        }
    }
    Err(io::Error::from(ErrorKind::Interrupted))
}

impl<'a, R: Files<File = File>> System<'a, R> {
    /// The system that a runtime reaches, before any call.
    pub(crate) fn new(rt: &'a R) -> System<'a, R> {
        System { rt, last: None }
    }

    /// Passes an answer of the system on, and keeps its error.
    fn told<T: Drop>(&mut self, answer: io::Result<T>) -> io::Result<T>
        ensures same { result ≡ answer }
        ensures last { self.new.last ≡ error_of answer }
    {
        self.last = match &answer {
            Ok(_) => None,
            Err(error) => Some(error.kind()),
        };
        answer
    }

    /// What is at a path, which may be a link.
    pub(crate) fn look_at(&mut self, path: Path) -> io::Result<Metadata>
        ensures { self.new.last ≡ error_of result }
    {
        let rt = self.rt;
        self.told(uninterrupted(|| fs::symlink_metadata(rt, path)))
    }

    /// What a path leads to, through links.
    pub(crate) fn look_through(&mut self, path: Path) -> io::Result<Metadata>
        ensures { self.new.last ≡ error_of result }
    {
        let rt = self.rt;
        self.told(uninterrupted(|| fs::metadata(rt, path)))
    }

    /// What an open file is.
    pub(crate) fn look_into(&mut self, file: &File) -> io::Result<Metadata>
        ensures { self.new.last ≡ error_of result }
    {
        self.told(uninterrupted(|| file.metadata()))
    }

    /// Opens a file or a folder for reading.
    pub(crate) fn open_to_read(&mut self, path: Path) -> io::Result<File>
        ensures { self.new.last ≡ error_of result }
    {
        let rt = self.rt;
        self.told(uninterrupted(|| fs::open(rt, path)))
    }

    /// Opens a file for writing.
    pub(crate) fn open_to_write(&mut self, path: Path) -> io::Result<File>
        ensures { self.new.last ≡ error_of result }
    {
        let rt = self.rt;
        let mut options = OpenOptions::new();
        options.write(true);
        self.told(uninterrupted(|| options.open(rt, path)))
    }

    /// Makes a file with this mode, less the process's mask. It fails if anything is at the path.
    pub(crate) fn make(&mut self, path: Path, mode: u32) -> io::Result<File>
        ensures { self.new.last ≡ error_of result }
    {
        let rt = self.rt;
        let mut options = OpenOptions::new();
        options.write(true).create_new(true).mode(mode);
        self.told(uninterrupted(|| options.open(rt, path)))
    }

    /// Reads the next bytes of a file.
    pub(crate) fn read(&mut self, file: &mut File, piece: &mut [u8]) -> io::Result<usize>
        ensures last { self.new.last ≡ error_of result }
        ensures count { IfOk result (λ count. count ≤ length piece.old) }
    {
        let answer = read_some(file, piece);
        self.told(answer)
    }

    /// Writes all of these bytes at the end of a file.
    pub(crate) fn write(&mut self, file: &mut File, bytes: &[u8]) -> io::Result<()>
        ensures { self.new.last ≡ error_of result }
    {
        let answer = file.write_all(bytes);
        self.told(answer)
    }

    /// Syncs the bytes of a file, or the names in a folder, to the disk.
    pub(crate) fn sync(&mut self, file: &File) -> io::Result<()>
        ensures { self.new.last ≡ error_of result }
    {
        self.told(uninterrupted(|| file.sync_all()))
    }

    /// Takes the lock of an open file. It fails if another program has the lock.
    pub(crate) fn lock(&mut self, file: &File) -> io::Result<()>
        ensures { self.new.last ≡ error_of result }
    {
        self.told(uninterrupted(|| Ok(file.try_lock()?)))
    }

    /// Gives an open file a group.
    pub(crate) fn set_group(&mut self, file: &File, group: u32) -> io::Result<()>
        ensures { self.new.last ≡ error_of result }
    {
        self.told(uninterrupted(|| unix::fchown(file, None, Some(group))))
    }

    /// Gives an open file a mode.
    pub(crate) fn set_mode(&mut self, file: &File, mode: u32) -> io::Result<()>
        ensures { self.new.last ≡ error_of result }
    {
        self.told(uninterrupted(|| file.set_permissions(Permissions::from_mode(mode))))
    }

    /// Gives what is at a path a mode.
    pub(crate) fn set_mode_at(&mut self, path: Path, mode: u32) -> io::Result<()>
        ensures { self.new.last ≡ error_of result }
    {
        let rt = self.rt;
        self.told(uninterrupted(|| fs::set_permissions(rt, path, Permissions::from_mode(mode))))
    }

    /// Renames a file, which replaces what has the new name.
    pub(crate) fn rename(&mut self, from: Path, to: Path) -> io::Result<()>
        ensures { self.new.last ≡ error_of result }
    {
        let rt = self.rt;
        self.told(uninterrupted(|| fs::rename(rt, from, to)))
    }

    /// Removes what is at a path: a link itself, and not what it leads to.
    pub(crate) fn remove(&mut self, path: Path) -> io::Result<()>
        ensures { self.new.last ≡ error_of result }
    {
        let rt = self.rt;
        self.told(uninterrupted(|| fs::remove_file(rt, path)))
    }
}

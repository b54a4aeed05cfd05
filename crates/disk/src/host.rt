//! A folder of the operating system.
ghost use Rattle.std.specs.Prelude.{◌≡◌, ◌≤◌, [], false, IfOk, OnErr};
ghost use Rattle.disk.specs.Clauses.{empty, Failed, HasCause, HasRisen};

use crate::disk::{Disk, DiskFault};
use crate::system::System;
use std::alloc::{AllocError, Global};
use std::fs::File;
use std::io;
use std::path::{Path, PathBuf};
use std::rt::Files;

/// A folder of the operating system, reached through a runtime.
///
/// It passes each call on to the system. No contract of the library says what a file then contains,
/// so this disk is not honest, and nothing that `Disk` says of files and crashes is proved of it.
/// It is trusted instead: its nine calls do what `Disk` says, as long as nobody else writes in the
/// folder, it has no links, and its file system tells names apart by their bytes and can sync a
/// folder. If the file system cannot, `sync_names` returns `Ok` although the names may not last: a
/// crash soon afterwards may bring the old file back.
///
/// It is proved that each call passes on how the system's last call ended (`PassesOn`): with an
/// error that the call does not ignore, the result is `Failed`, and is counted.
#[derive(Drop)]
pub struct HostDisk<'a, R: Files<File = File>> {
    system: System<'a, R>,
    alloc: Global,
    dir: String,
    failures: u64,
}

impl<'a, R: Files<File = File>> HostDisk<'a, R> {
    /// The folder with this path; an empty path means the current directory. It is not looked at.
    pub fn try_new(rt: &'a R, alloc: Global, dir: &str) -> Result<HostDisk<'a, R>, AllocError>
        ensures failures { IfOk result (λ disk. ⟦<HostDisk<'a, R> as Disk>⟧.failures disk ≡ 0) }
    {
        let dir = if dir.is_empty() { "." } else { dir };
        let dir = String::from_str(alloc, dir)?;
        Ok(HostDisk {
            system: System::new(rt),
            alloc,
            dir,
            failures: 0,
        })
    }

    /// Counts a failure.
    fn failed(&mut self) -> DiskFault
        ensures fault { result ≡ Failed }
        ensures counted { HasRisen self.old.failures self.new.failures }
        ensures kept { self.old.failures ≤ self.new.failures }
        ensures unasked { self.new.system ≡ self.old.system }
    {
        self.failures = self.failures.saturating_add(1);
        DiskFault::Failed
    }

    /// The result of a call. A failure is counted.
    fn counted<T: Drop>(&mut self, answer: io::Result<T>) -> Result<T, DiskFault>
        ensures cause { HasCause Failed self.old.failures self.new.failures result }
        ensures ok { IfOk result (λ value. answer ≡ Ok value) }
        ensures fault { OnErr result (result ≡ Err Failed) }
        ensures unasked { self.new.system ≡ self.old.system }
    {
        match answer {
            Ok(value) => Ok(value),
            Err(_) => Err(self.failed()),
        }
    }

    /// The path of a name. A name that leads out of the folder has none, which is a failure. All
    /// memory of the path is allocated at once, so that the memory for the path by which a file was
    /// made is enough for the path by which it is renamed or removed.
    fn path(&mut self, name: &[u8]) -> Result<PathBuf, DiskFault>
        ensures cause { HasCause Failed self.old.failures self.new.failures result }
        ensures unasked { self.new.system ≡ self.old.system }
    {
        let Ok(name) = str::from_utf8(name) else {
            return Err(self.failed());
        };
        if name.is_empty() || name == "." || name == ".." || name.contains('/') {
            return Err(self.failed());
        }
        let mut path = PathBuf::with_capacity(self.alloc, self.dir.len() + name.len() + 1)?;
        path.push(self.dir.as_str())?;
        path.push(name)?;
        Ok(path)
    }
}

impl<'a, R: Files<File = File>> Disk for HostDisk<'a, R> {
    type File = File;

    ghost honest = { false };

    ghost state = { λ disk. record {
      files = empty;
      history = record { now = 0; at = λ t files. Unit {0} };
      Synced = λ name. ⊥;
      IsCurrent = λ file. ⊥;
    } };

    ghost failures = { λ disk. disk.failures };

    ghost last = { λ disk. disk.system.last };

    ghost name_of = { λ file. [] };

    ghost rest_of = { λ file. [] };

    ghost stays = { λ disk honest. tt };

    fn has_file(&mut self, name: &[u8]) -> Result<bool, DiskFault> {
        let path = self.path(name)?;
        let answer = self.system.has_file(path.as_path());
        self.counted(answer)
    }

    fn open(&mut self, name: &[u8]) -> Result<(File, u64), DiskFault> {
        let path = self.path(name)?;
        let answer = self.system.open_file(path.as_path());
        self.counted(answer)
    }

    fn read(&mut self, file: &mut File, piece: &mut [u8]) -> Result<usize, DiskFault> {
        let answer = self.system.read(file, piece);
        self.counted(answer)
    }

    fn create(&mut self, name: &[u8], place: &[u8]) -> Result<File, DiskFault> {
        let (path, place) = (self.path(name)?, self.path(place)?);
        let answer = self.system.create_file(path.as_path(), place.as_path());
        self.counted(answer)
    }

    fn append(&mut self, file: &mut File, bytes: &[u8]) -> Result<(), DiskFault> {
        let answer = self.system.write(file, bytes);
        self.counted(answer)
    }

    fn sync(&mut self, file: &File) -> Result<(), DiskFault> {
        let answer = self.system.sync(file);
        self.counted(answer)
    }

    fn rename(&mut self, from: &[u8], to: &[u8]) -> Result<(), DiskFault> {
        let (from, to) = (self.path(from)?, self.path(to)?);
        let answer = self.system.rename(from.as_path(), to.as_path());
        self.counted(answer)
    }

    fn remove(&mut self, name: &[u8]) -> Result<(), DiskFault> {
        let path = self.path(name)?;
        let answer = self.system.remove_file(path.as_path());
        self.counted(answer)
    }

    fn sync_names(&mut self) -> Result<(), DiskFault> {
        let answer = self.system.sync_folder(Path::new(self.dir.as_str()));
        self.counted(answer)
    }
}

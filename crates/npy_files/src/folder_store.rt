//! A store that is a folder on a disk.
ghost use Rattle.disk.specs.Calls as calls;
ghost use Rattle.npy_files.specs.Names as names;
ghost use Rattle.std.specs.Prelude.{IfOk, IsTrue, OnOk, Some, false, ◌++◌, ◌^◌, ◌≡◌, ◌≤◌};
ghost use Rattle.npy_files.specs.Clauses.{OldOrNew, folder_shelf, FaultHasCause, IsKept, IsSameStore, ReadsFile, WritesFile, IsUnchanged, Leaves, Device, empty};

use crate::put::put;
use crate::read::read_file;
use crate::store::{NpyStore, StoreFault, hidden_name, is_longer, is_user_name};
use disk::{Disk, HostDisk};
use npy_format::FileParts;
use std::alloc::{AllocError, Global};
use std::fs::File;
use std::rt::Files;

/// A folder on a disk as a store of files; it is honest if its disk is. It has no files whose names
/// begin with a dot; writing one is a device fault.
///
/// A file is written under a hidden name, synced to the disk, and only then renamed, so that a
/// fault or a crash leaves the file that was there, or the new one.
#[derive(Drop)]
pub struct FolderStore<D: Disk> {
    disk: D,
    limit: usize,
    faults: u64,
}

impl<D: Disk> FolderStore<D> {
    /// A store on this disk, whose files have at most `limit` bytes.
    pub fn new(disk: D, limit: usize) -> FolderStore<D>
        ensures { ⟦<FolderStore<D> as NpyStore>⟧.shelf result
            ≡ folder_shelf (D.state disk).files 0 limit D.honest }
    {
        FolderStore {
            disk,
            limit,
            faults: 0,
        }
    }

    /// The result of a call. A fault of the device is counted.
    fn counted<T>(&mut self, answer: Result<T, StoreFault>) -> Result<T, StoreFault>
        ensures answer { result ≡ answer }
        ensures disk { self.new.disk ≡ self.old.disk }
        ensures limit { self.new.limit ≡ self.old.limit }
        ensures cause { calls.HasCause Device self.old.faults self.new.faults result }
        ensures few { self.old.faults ≤ calls.last_count }
    {
        let risen = self.faults.saturating_add(1);
        match answer {
            Err(fault) if fault == StoreFault::Device => {
                self.faults = risen;
                Err(fault)
            }
            answer => answer,
        }
    }

    /// Takes the disk out of the store: for tests, which look at what a save or a crash left there.
    pub fn into_disk(self) -> D
        ensures { result ≡ self.disk }
    {
        self.disk
    }
}

impl<D: Disk> NpyStore for FolderStore<D> {
    ghost shelf = { λ s. folder_shelf (D.state s.disk).files s.faults s.limit D.honest };

    fn limit(&self) -> usize {
        self.limit
    }

    /// A fault of the device is one of the disk, and a crash leaves only what it might have left
    /// before.
    fn read_parts(&mut self, alloc: Global, name: &[u8]) -> Result<Option<FileParts>, StoreFault>
        ensures same { let shelf = ⟦<FolderStore<D> as NpyStore>⟧.shelf in
            IsSameStore (shelf self.old) (shelf self.new) }
        ensures files { let shelf = ⟦<FolderStore<D> as NpyStore>⟧.shelf in
            (shelf self.new).files ≡ (shelf self.old).files }
        ensures cause { let shelf = ⟦<FolderStore<D> as NpyStore>⟧.shelf in
            FaultHasCause (shelf self.old) (shelf self.new) result }
        ensures found { ReadsFile (λ parts. parts.front.items ++ parts.block)
            (⟦<FolderStore<D> as NpyStore>⟧.shelf self.old) name.now result }
        ensures crash { IsTrue D.honest →
            IsUnchanged (D.state self.old.disk) (D.state self.new.disk) }
        ensures disk { IsTrue D.honest →
            calls.HasCause Device (D.failures self.old.disk) (D.failures self.new.disk) result }
    {
        if !is_user_name(name) {
            return Ok(None);
        }
        let found = read_file(&mut self.disk, alloc, name, self.limit);
        self.counted(found)
    }

    /// A fault of the device is one of the disk, unless no file may have this name. A crash at any
    /// moment leaves under each name of a user what a crash before might have left, or under this
    /// name the new bytes, whole. After `Ok`, it leaves the new bytes.
    fn write_parts(
        &mut self,
        alloc: Global,
        name: &[u8],
        front: &[u8],
        items: &[u8],
    ) -> Result<(), StoreFault>
        ensures same { let shelf = ⟦<FolderStore<D> as NpyStore>⟧.shelf in
            IsSameStore (shelf self.old) (shelf self.new) }
        ensures cause { let shelf = ⟦<FolderStore<D> as NpyStore>⟧.shelf in
            FaultHasCause (shelf self.old) (shelf self.new) result }
        ensures kept { let shelf = ⟦<FolderStore<D> as NpyStore>⟧.shelf in
            IsKept name.now result (shelf self.old).files (shelf self.new).files }
        ensures written { let shelf = ⟦<FolderStore<D> as NpyStore>⟧.shelf in
            WritesFile (shelf self.old) name.now (front.now ++ items.now) result (shelf self.new) }
        ensures crash { IsTrue D.honest →
            Leaves (OldOrNew name.now (front.now ++ items.now))
            (D.state self.old.disk).history (D.state self.new.disk).history }
        ensures lasting { IsTrue D.honest →
            OnOk result (calls.AlwaysHas (D.state self.new.disk).history name.now
            (Some (front.now ++ items.now))) }
        ensures disk { IsTrue (names.is_user_name name.now) →
            calls.HasCause Device (D.failures self.old.disk) (D.failures self.new.disk) result }
    {
        if is_longer(front.len(), items.len(), self.limit) {
            return Err(StoreFault::TooLong);
        }
        if !is_user_name(name) {
            return self.counted(Err(StoreFault::Device));
        }
        let hidden = hidden_name(alloc, name)?;
        let written = put(&mut self.disk, hidden.as_slice(), name, front, items);
        self.counted(written)
    }
}

/// The most bytes of a file in a folder.
pub const MAX_FILE: usize = 1 << 29;

/// A store that is a folder of the operating system, reached through a runtime. No contract says
/// what such a folder contains, so it is not honest, and its contracts say nothing about its files.
pub type DirStore<'a, R> = FolderStore<HostDisk<'a, R>>;

impl<'a, R: Files<File = File>> FolderStore<HostDisk<'a, R>> {
    /// The store that is the folder of this name. The folder isn't looked at.
    pub fn try_new(rt: &'a R, alloc: Global, dir: &str) -> Result<DirStore<'a, R>, AllocError>
        ensures { let shelf = ⟦<FolderStore<HostDisk<'a, R>> as NpyStore>⟧.shelf in
            IfOk result (λ store. shelf store ≡ folder_shelf empty 0 (2 ^ 29) false) }
    {
        let disk = HostDisk::try_new(rt, alloc, dir)?;
        Ok(FolderStore::new(disk, MAX_FILE))
    }
}

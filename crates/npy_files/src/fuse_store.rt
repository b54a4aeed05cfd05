//! A store whose device fails once.
ghost use Rattle.std.specs.Prelude.{◌≡◌, ◌++◌, true};
ghost use Rattle.npy_files.specs.Clauses.{get, IsSameStore, FaultHasCause, ReadsFile, IsKept, WritesFile, Device, answer_by, calls_after};

use crate::mem_store::MemStore;
use crate::store::{NpyStore, StoreFault};
use npy_format::FileParts;
use std::alloc::Global;

/// A store in memory with one call that returns `Device` and leaves the files as they are, for
/// tests. All other calls are those of a `MemStore`. It is honest.
#[derive(Drop)]
pub struct FuseStore {
    store: MemStore,
    calls_left: Option<usize>,
}

impl FuseStore {
    ghost use Rattle.npy_files.specs.Stores.{empty_shelf};

    /// A store without files. Its call with this number fails. Reads and writes are counted
    /// together, from 0.
    pub fn new(alloc: Global, limit: usize, failing: usize) -> FuseStore
        ensures shelf { ⟦<FuseStore as NpyStore>⟧.shelf result ≡ empty_shelf limit }
        ensures fuse { result.calls_left ≡ Some failing }
    {
        FuseStore {
            store: MemStore::new(alloc, limit),
            calls_left: Some(failing),
        }
    }

    /// Counts a call, until the one that fails.
    fn count_call(&mut self) -> Result<(), StoreFault>
        ensures store { self.new.store ≡ self.old.store }
        ensures answer { result ≡ answer_by self.old.calls_left }
        ensures counted { self.new.calls_left ≡ calls_after self.old.calls_left }
    {
        match self.calls_left {
            None => Ok(()),
            Some(0) => {
                self.calls_left = None;
                Err(StoreFault::Device)
            }
            Some(calls) => {
                self.calls_left = Some(calls - 1);
                Ok(())
            }
        }
    }
}

impl NpyStore for FuseStore {
    ghost use Rattle.npy_files.specs.inside.Shelves.{shelf_of, failures_of};

    ghost shelf = { λ s. shelf_of s.store.files.items s.store.limit (failures_of s.calls_left) };

    fn limit(&self) -> usize {
        self.store.limit()
    }

    fn read_parts(&mut self, alloc: Global, name: &[u8]) -> Result<Option<FileParts>, StoreFault>
        ensures same { let shelf = ⟦<FuseStore as NpyStore>⟧.shelf in
            IsSameStore (shelf self.old) (shelf self.new) }
        ensures files { let shelf = ⟦<FuseStore as NpyStore>⟧.shelf in
            (shelf self.new).files ≡ (shelf self.old).files }
        ensures cause { let shelf = ⟦<FuseStore as NpyStore>⟧.shelf in
            FaultHasCause (shelf self.old) (shelf self.new) result }
        ensures found { ReadsFile (λ parts. parts.front.items ++ parts.block)
            (⟦<FuseStore as NpyStore>⟧.shelf self.old) name.now result }
        ensures counted { self.new.calls_left ≡ calls_after self.old.calls_left }
        ensures fused { self.old.calls_left ≡ Some 0 → result ≡ Err Device }
    {
        self.count_call()?;
        self.store.read_parts(alloc, name)
    }

    fn write_parts(
        &mut self,
        alloc: Global,
        name: &[u8],
        front: &[u8],
        items: &[u8],
    ) -> Result<(), StoreFault>
        ensures same { let shelf = ⟦<FuseStore as NpyStore>⟧.shelf in
            IsSameStore (shelf self.old) (shelf self.new) }
        ensures cause { let shelf = ⟦<FuseStore as NpyStore>⟧.shelf in
            FaultHasCause (shelf self.old) (shelf self.new) result }
        ensures kept { let shelf = ⟦<FuseStore as NpyStore>⟧.shelf in
            IsKept name.now result (shelf self.old).files (shelf self.new).files }
        ensures written { let shelf = ⟦<FuseStore as NpyStore>⟧.shelf in
            WritesFile (shelf self.old) name.now (front.now ++ items.now) result (shelf self.new) }
        ensures counted { self.new.calls_left ≡ calls_after self.old.calls_left }
        ensures fused { self.old.calls_left ≡ Some 0 → result ≡ Err Device }
    {
        self.count_call()?;
        self.store.write_parts(alloc, name, front, items)
    }
}

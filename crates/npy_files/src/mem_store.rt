//! A store in memory.
ghost use Rattle.std.specs.Prelude.{◌≡◌, ◌<◌, ℕ, List, true, length, position, IfSome, MatchOption};
ghost use Rattle.npy_files.specs.Clauses.{comes_before, is_called, IsNamed, IsFirstOf};

use crate::store::{NpyStore, StoreFault, is_longer};
use npy_format::FileParts;
use std::alloc::Global;

/// A file and its name.
#[derive(Drop)]
pub struct StoredFile {
    name: Vec<u8>,
    bytes: Vec<u8>,
}

/// A store that keeps its files in memory. It is honest, and its device never fails.
#[derive(Drop)]
pub struct MemStore {
    files: Vec<StoredFile>,
    limit: usize,
}

fn place_of(files: &[StoredFile], name: &[u8]) -> Option<usize>
    ensures place { result ≡ position (is_called name.now) files.now }
    ensures below { IfSome result (λ k. k < length files.now) }
{
    files.iter().position(|file| name == file.name.as_slice())
}

/// Whether one name comes before another, in the order of their bytes.
fn comes_before(name: &[u8], other: &[u8]) -> bool
    ensures { result ≡ comes_before name.now other.now }
{
    name.cmp(&other).is_lt()
}

/// Whether a name comes before that of the file at the best place so far, if there is one.
fn comes_first(files: &[StoredFile], best: Option<usize>, name: &[u8]) -> bool
    requires { IfSome best (λ place. place < length files.now) }
    ensures { MatchOption best (result ≡ true) (λ place. (first : List ℕ)
        → IsNamed files.now place first → result ≡ comes_before name.now first) }
{
    match best {
        None => true,
        Some(place) => comes_before(name, files[place].name.as_slice()),
    }
}

/// The place of the file whose name is the first after this one.
fn place_after(files: &[StoredFile], after: &[u8]) -> Option<usize>
    ensures first { IsFirstOf files.now after.now (length files.now) result }
    ensures below { IfSome result (λ place. place < length files.now) }
{
    let mut best = None;
    for place in 0..files.len() {
        let name = files[place].name.as_slice();
        if comes_before(after, name) && comes_first(files, best, name) {
            best = Some(place);
        }
    }
    best
}

impl MemStore {
    ghost use Rattle.std.specs.Prelude.{Some, None};
    ghost use Rattle.npy_files.specs.Clauses.{get, empty_shelf, IsNextName};

    /// A store without files, which takes files of at most `limit` bytes.
    pub fn new(alloc: Global, limit: usize) -> MemStore
        ensures { ⟦<MemStore as NpyStore>⟧.shelf result ≡ empty_shelf limit }
    {
        MemStore {
            files: Vec::new(alloc),
            limit,
        }
    }

    /// The bytes of the file with this name, or `None` if there is no such file.
    pub fn bytes_of(&self, name: &[u8]) -> Option<&[u8]>
        ensures { let found = get (⟦<MemStore as NpyStore>⟧.shelf self.now).files name.now in
            MatchOption result (found ≡ None) (λ bytes. found ≡ Some bytes.now) }
    {
        let place = place_of(self.files.as_slice(), name)?;
        Some(self.files[place].bytes.as_slice())
    }

    /// The first of the files' names that come after this one, in the order of their bytes. The
    /// empty name comes before all others, so a call with it, and then with each name that was
    /// returned, lists all names.
    pub fn next_name(&self, after: &[u8]) -> Option<&[u8]>
        ensures { let files = (⟦<MemStore as NpyStore>⟧.shelf self.now).files in
            MatchOption result (IsNextName files after.now None)
            (λ name. IsNextName files after.now (Some name.now)) }
    {
        let place = place_after(self.files.as_slice(), after)?;
        Some(self.files[place].name.as_slice())
    }
}

impl NpyStore for MemStore {
    ghost use Rattle.npy_files.specs.inside.Shelves.{shelf_of};

    ghost shelf = { λ s. shelf_of s.files.items s.limit 0 };

    fn limit(&self) -> usize {
        self.limit
    }

    fn read_parts(&mut self, alloc: Global, name: &[u8]) -> Result<Option<FileParts>, StoreFault> {
        let Some(place) = place_of(self.files.as_slice(), name) else {
            return Ok(None);
        };
        let bytes = self.files[place].bytes.as_slice();
        if bytes.len() > self.limit {
            return Err(StoreFault::TooLong);
        }
        Ok(Some(FileParts::copied(alloc, bytes)?))
    }

    fn write_parts(
        &mut self,
        alloc: Global,
        name: &[u8],
        front: &[u8],
        items: &[u8],
    ) -> Result<(), StoreFault> {
        if is_longer(front.len(), items.len(), self.limit) {
            return Err(StoreFault::TooLong);
        }
        let mut bytes = Vec::from_slice(alloc, front)?;
        bytes.extend_from_slice(items)?;
        if let Some(place) = place_of(self.files.as_slice(), name) {
            self.files[place].bytes = bytes;
            return Ok(());
        }
        let name = Vec::from_slice(alloc, name)?;
        self.files.push(StoredFile { name, bytes })?;
        Ok(())
    }
}

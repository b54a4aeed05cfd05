//! A disk in memory with a cache: a crash may lose what was not synced.
ghost use Rattle.std.specs.Prelude.{◌≡◌, ◌↔◌, ◌++◌, ◌<◌, ◌≤◌, [], None, true, drop, length, option_copied, take, IsTrue, IfOk, OnErr, OnOk};
ghost use Rattle.disk_tests.specs.Clauses.{empty, get, Failed, Files, Same, MayLeave, HasCause, bytes_of_change, found, is_synced, MayStand, cached_state, change_count, file_name, ChangesOnly, IsUnchanged, found_may_stay};

use crate::failing::Failing;
use disk::{Disk, DiskFault};
use std::alloc::{AllocError, Global};

/// What a call has done to a disk with a cache.
#[derive(Drop)]
pub enum Event {
    /// A name has these bytes now, or was removed. If they are whole, a crash leaves them or what
    /// was there before, and otherwise anything.
    Changed {
        name: Vec<u8>,
        bytes: Option<Vec<u8>>,
        is_whole: bool,
    },
    /// The bytes of the file with this name were synced.
    FileSynced(Vec<u8>),
    /// The names were synced.
    NamesSynced,
    /// The disk was restarted. All that a read found then was on it.
    Restarted,
}

/// A disk in memory with a cache, as a list of what its calls did, the newest first. It is honest.
/// Until a new file, and after it the names, are synced, a crash may leave any bytes or none under
/// its name. A crash may also undo each change of a name until the names are synced. One call can
/// be made to fail, or all calls from one on.
#[derive(Drop)]
pub struct CachedMemDisk {
    alloc: Global,
    events: Vec<Event>,
    failing: Failing,
}

/// The bytes of the file with this name, as a read finds them.
fn latest<'a>(events: &'a [Event], name: &[u8]) -> Option<&'a Vec<u8>>
    ensures { get (found events.now) name.now ≡ bytes_of_change (option_copied result) }
{
    let mut rest = events;
    while let [event, older @ ..] = rest {
        match event {
            Event::Changed {
                name: other,
                bytes,
                ..
            } if name == other.as_slice() => return bytes.as_ref(),
            _ => {}
        }
        rest = older;
    }
    None
}

/// Whether the bytes of the file with this name are on the disk.
fn are_bytes_synced(events: &[Event], name: &[u8]) -> bool
    ensures { result ≡ is_synced events.now name.now }
{
    let mut rest = events;
    while let [event, older @ ..] = rest {
        match event {
            Event::Changed {
                name: other,
                is_whole,
                ..
            } if name == other.as_slice() => return *is_whole,
            Event::FileSynced(other) if name == other.as_slice() => return true,
            Event::Restarted => return true,
            Event::Changed { .. } | Event::FileSynced(_) | Event::NamesSynced => {}
        }
        rest = older;
    }
    true
}

/// How often the file with this name was changed.
fn change_count(events: &[Event], name: &[u8]) -> usize
    ensures { result ≡ change_count events.now name.now }
{
    let mut count = 0;
    let mut rest = events;
    while let [event, older @ ..] = rest {
        match event {
            Event::Changed { name: other, .. } if name == other.as_slice() => count += 1,
            _ => {}
        }
        rest = older;
    }
    count
}

/// Whether two files have the same bytes, or are both missing.
fn is_same(left: &Option<Vec<u8>>, right: Option<&Vec<u8>>) -> bool
    ensures { IsTrue result
        ↔ (bytes_of_change left.now ≡ bytes_of_change (option_copied right.entry)) }
{
    match (left, right) {
        (Some(left), Some(right)) => left.as_slice() == right.as_slice(),
        (None, None) => true,
        (None, Some(_)) | (Some(_), None) => false,
    }
}

/// Whether a crash may leave this under a name.
fn may_stand(events: &[Event], name: &[u8], left: &Option<Vec<u8>>) -> bool
    ensures { IsTrue result ↔ MayStand events.now name.now (bytes_of_change left.now) }
{
    let mut rest = events;
    while let [event, older @ ..] = rest {
        match event {
            Event::Changed {
                name: other,
                bytes,
                is_whole,
            } if name == other.as_slice() && (!*is_whole || is_same(left, bytes.as_ref())) =>
                return true,
            Event::NamesSynced if are_bytes_synced(older, name) => {
                return is_same(left, latest(older, name));
            }
            Event::Restarted => return is_same(left, latest(older, name)),
            Event::Changed { .. } | Event::FileSynced(_) | Event::NamesSynced => {}
        }
        rest = older;
    }
    left.is_none()
}

/// Gives a name these bytes, or none.
#[tactic(auto, using(crate::proofs::Events::binds))]
fn change(
    alloc: Global,
    events: &mut Vec<Event>,
    name: &[u8],
    bytes: Option<Vec<u8>>,
    is_whole: bool,
) -> Result<(), AllocError>
    ensures bound { OnOk result (get (found events.new.items) name.now ≡ bytes_of_change bytes) }
    ensures others { ChangesOnly file_name name.now
        (cached_state events.old.items) (cached_state events.new.items) }
    ensures kept { OnErr result (events.new.items ≡ events.old.items) }
{
    let name = Vec::from_slice(alloc, name)?;
    let changed = Event::Changed {
        name,
        bytes,
        is_whole,
    };
    events.insert(0, changed)?;
    Ok(())
}

impl CachedMemDisk {
    /// A disk without files, no call of which fails.
    pub fn new(alloc: Global) -> CachedMemDisk
        ensures files { (⟦<CachedMemDisk as Disk>⟧.state result).files ≡ empty }
        ensures failures { ⟦<CachedMemDisk as Disk>⟧.failures result ≡ 0 }
    {
        CachedMemDisk {
            alloc,
            events: Vec::new(alloc),
            failing: Failing::never(),
        }
    }

    /// Makes the call with this number fail, counted from 0 from now on, or all calls from that one
    /// on.
    pub fn fail_at(&mut self, call: usize, crashes: bool)
        ensures same { let state = ⟦<CachedMemDisk as Disk>⟧.state in
            IsUnchanged (state self.old) (state self.new) }
        ensures failures { let failures = ⟦<CachedMemDisk as Disk>⟧.failures in
            failures self.new ≡ failures self.old }
    {
        self.failing.fail_at(call, crashes);
    }

    /// Makes a crash leave this under a name, and returns whether a crash may leave it; if not,
    /// nothing changes. Under a name for which this is not called, the crash leaves what a read
    /// found. Call `restart` next.
    pub fn crash(&mut self, name: &[u8], left: Option<Vec<u8>>) -> Result<bool, AllocError>
        ensures may { IfOk result (λ may. IsTrue may ↔ ((files : Files)
            × MayLeave (⟦<CachedMemDisk as Disk>⟧.state self.old).history files
            × (get files name.now ≡ bytes_of_change left))) }
        ensures left { result ≡ Ok true →
            get (⟦<CachedMemDisk as Disk>⟧.state self.new).files name.now ≡ bytes_of_change left }
        ensures others { let state = ⟦<CachedMemDisk as Disk>⟧.state in
            ChangesOnly file_name name.now (state self.old) (state self.new) }
    {
        if !may_stand(&self.events, name, &left) {
            return Ok(false);
        }
        change(self.alloc, &mut self.events, name, left, true)?;
        Ok(true)
    }

    /// The disk works again, and has what a read finds.
    pub fn restart(&mut self) -> Result<(), AllocError>
        ensures files { let state = ⟦<CachedMemDisk as Disk>⟧.state in
            (state self.new).files ≡ (state self.old).files }
        ensures kept { let state = ⟦<CachedMemDisk as Disk>⟧.state in
            OnOk result ((files : Files)
            → MayLeave (state self.new).history files → Same (state self.old).files files) }
        ensures failures { let failures = ⟦<CachedMemDisk as Disk>⟧.failures in
            failures self.new ≡ failures self.old }
    {
        self.events.insert(0, Event::Restarted)?;
        self.failing.restart();
        Ok(())
    }

    /// Counts a call, and finds the bytes of the file with this name. It fails if there is none.
    fn look(&mut self, name: &[u8]) -> Result<Vec<u8>, DiskFault>
        ensures events { self.new.events.items ≡ self.old.events.items }
        ensures cause { HasCause Failed self.old.failing.failures self.new.failing.failures result }
        ensures found { IfOk result
            (λ bytes. get (found self.old.events.items) name.now ≡ Some bytes.items) }
    {
        self.failing.count_call()?;
        match latest(&self.events, name) {
            Some(bytes) => Ok(bytes.to_vec(self.alloc)?),
            None => Err(self.failing.failure()),
        }
    }
}

impl Disk for CachedMemDisk {
    type File = MemFile;

    ghost honest = { true };

    ghost state = { λ disk. cached_state disk.events.items };

    ghost failures = { λ disk. disk.failing.failures };

    ghost last = { λ disk. None };

    ghost name_of = { file_name };

    ghost rest_of = { λ file. drop file.at file.bytes.items };

    ghost stays = { λ disk honest. found_may_stay disk.events.items };

    #[tactic(auto, using(crate::proofs::Events::still_same))]
    fn has_file(&mut self, name: &[u8]) -> Result<bool, DiskFault> {
        self.failing.count_call()?;
        Ok(latest(&self.events, name).is_some())
    }

    #[tactic(auto, using(crate::proofs::Events::still_same))]
    fn open(&mut self, name: &[u8]) -> Result<(MemFile, u64), DiskFault> {
        let bytes = self.look(name)?;
        let name = Vec::from_slice(self.alloc, name)?;
        let len = bytes.len() as u64;
        let changes = change_count(&self.events, &name);
        let file = MemFile {
            name,
            bytes,
            at: 0,
            changes,
        };
        Ok((file, len))
    }

    fn read(&mut self, file: &mut MemFile, piece: &mut [u8]) -> Result<usize, DiskFault> {
        self.failing.count_call()?;
        Ok(file.take(piece))
    }

    fn create(&mut self, name: &[u8], _place: &[u8]) -> Result<MemFile, DiskFault> {
        self.failing.count_call()?;
        let called = Vec::from_slice(self.alloc, name)?;
        let bytes = Vec::new(self.alloc);
        change(self.alloc, &mut self.events, name, Some(bytes), false)?;
        let changes = change_count(&self.events, name);
        Ok(MemFile {
            name: called,
            bytes: Vec::new(self.alloc),
            at: 0,
            changes,
        })
    }

    fn append(&mut self, file: &mut MemFile, bytes: &[u8]) -> Result<(), DiskFault> {
        let mut all = self.look(&file.name)?;
        all.extend_from_slice(bytes)?;
        change(self.alloc, &mut self.events, &file.name, Some(all), false)?;
        file.changes = change_count(&self.events, &file.name);
        Ok(())
    }

    fn sync(&mut self, file: &MemFile) -> Result<(), DiskFault> {
        self.failing.count_call()?;
        let name = Vec::from_slice(self.alloc, &file.name)?;
        self.events.insert(0, Event::FileSynced(name))?;
        Ok(())
    }

    fn rename(&mut self, from: &[u8], to: &[u8]) -> Result<(), DiskFault> {
        let bytes = self.look(from)?;
        let is_whole = are_bytes_synced(&self.events, from);
        let to = Vec::from_slice(self.alloc, to)?;
        let from = Vec::from_slice(self.alloc, from)?;
        self.events.reserve(2)?;
        let arrived = Event::Changed {
            name: to,
            bytes: Some(bytes),
            is_whole,
        };
        let gone = Event::Changed {
            name: from,
            bytes: None,
            is_whole: true,
        };
        self.events.insert(0, arrived)?;
        self.events.insert(0, gone)?;
        Ok(())
    }

    fn remove(&mut self, name: &[u8]) -> Result<(), DiskFault> {
        self.failing.count_call()?;
        Ok(change(self.alloc, &mut self.events, name, None, true)?)
    }

    // Running out of memory is reported as a failure, since this call may not report anything else.
    fn sync_names(&mut self) -> Result<(), DiskFault> {
        self.failing.count_call()?;
        if self.events.insert(0, Event::NamesSynced).is_err() {
            return Err(self.failing.failure());
        }
        Ok(())
    }
}

/// A file in memory that is open.
#[derive(Drop)]
pub struct MemFile {
    name: Vec<u8>,
    bytes: Vec<u8>,
    at: usize,
    /// How often the file with its name had been changed, when it was opened or last written to.
    changes: usize,
}

impl MemFile {
    /// Moves the next bytes to a piece, as many as fit.
    fn take(&mut self, piece: &mut [u8]) -> usize
        ensures count { result ≤ length piece.old }
        ensures taken { drop self.old.at self.old.bytes.items
            ≡ take result piece.new ++ drop self.new.at self.new.bytes.items }
        ensures end { result ≡ 0 →
            0 < length piece.old → drop self.old.at self.old.bytes.items ≡ [] }
        ensures name { self.new.name ≡ self.old.name }
        ensures changes { self.new.changes ≡ self.old.changes }
    {
        let at = self.at.min(self.bytes.len());
        let rest = &self.bytes[at..];
        let count = piece.len().min(rest.len());
        piece[..count].copy_from_slice(&rest[..count]);
        self.at = at + count;
        count
    }
}

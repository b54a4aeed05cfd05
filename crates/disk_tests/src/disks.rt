//! Folders on a disk in memory, of which one call fails, or all from one on.
use crate::cached::CachedMemDisk;
use disk::Disk;
use npy_files::{FolderStore, NpyStore};
use std::alloc::{AllocError, Global};
use std::test::Fail;

/// A folder on a disk in memory.
type MemFolder = FolderStore<CachedMemDisk>;

/// How many calls of the disk three saves and two loads make: six for a save and four for a load.
const CALLS: usize = 26;

fn folder_on(disk: CachedMemDisk) -> MemFolder {
    FolderStore::new(disk, 100)
}

/// Three saves and two loads over a disk of which the call with this number fails, or all from that one
/// on: the disk that is left, and how many of the five were refused.
fn saves_and_loads(
    alloc: Global,
    call: usize,
    crashes: bool,
) -> Result<(CachedMemDisk, usize), AllocError> {
    let mut disk = CachedMemDisk::new(alloc);
    disk.fail_at(call, crashes);
    let mut store = folder_on(disk);
    let accepted = [
        store.write(alloc, b"a", b"one").is_ok(),
        store.write(alloc, b"b", b"two").is_ok(),
        store.write(alloc, b"a", b"three").is_ok(),
        store.read(alloc, b"a").is_ok(),
        store.read(alloc, b"b").is_ok(),
    ];
    let refused = accepted.iter().filter(|is_ok| !**is_ok).count();
    let mut disk = store.into_disk();
    disk.restart()?;
    Ok((disk, refused))
}

/// Whether a hidden file is left.
fn has_hidden(disk: &mut CachedMemDisk) -> Result<bool, Fail> {
    Ok(disk.has_file(b".a.part")? || disk.has_file(b".b.part")?)
}

/// Which of the texts that are saved a file has, or that there is no such file.
fn contents(alloc: Global, folder: &mut MemFolder, name: &[u8]) -> Result<&'static str, Fail> {
    let Some(found) = folder.read(alloc, name)? else {
        return Ok("none");
    };
    for text in ["one", "two", "three", "four"] {
        if found.as_slice() == text.as_bytes() {
            return Ok(text);
        }
    }
    Ok("another")
}

/// The one that meets the failing call is refused, and no other; each file is one of those that were saved,
/// and no hidden one is left.
#[test]
fn each_call_fails(rt: HostRuntime) -> Result<(), Fail> {
    for call in 0..CALLS + 2 {
        let (mut disk, refused) = saves_and_loads(rt.alloc(), call, false)?;
        let is_hidden = has_hidden(&mut disk)?;
        let mut folder = folder_on(disk);
        let a = contents(rt.alloc(), &mut folder, b"a")?;
        let b = contents(rt.alloc(), &mut folder, b"b")?;
        let is_last = a == "three" && b == "two";
        let is_saved = (a == "three" || a == "one") && (b == "two" || b == "none");
        let is_one_refused = refused == usize::from(call < CALLS);
        let is_told = is_last || (is_saved && refused == 1);
        assert!(rt; !is_hidden && is_one_refused && is_told, "at {call}");
    }
    Ok(())
}

/// Each file is whole, and a save goes well then.
#[test]
fn a_crash_at_each_call(rt: HostRuntime) -> Result<(), Fail> {
    for call in 0..CALLS {
        let (disk, _) = saves_and_loads(rt.alloc(), call, true)?;
        let mut folder = folder_on(disk);
        let old = contents(rt.alloc(), &mut folder, b"a")?;
        folder.write(rt.alloc(), b"a", b"four")?;
        let new = contents(rt.alloc(), &mut folder, b"a")?;
        let is_hidden = folder.into_disk().has_file(b".a.part")?;
        let is_whole = old == "three" || (call < 18 && (old == "one" || old == "none"));
        assert!(rt; is_whole && new == "four" && !is_hidden, "at {call}");
    }
    Ok(())
}

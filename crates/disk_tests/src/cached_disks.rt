//! Folders on a disk with a cache: a crash at each call, each choice of what it leaves of two short files.
use crate::cached::CachedMemDisk;
use disk::Disk;
use npy_files::{FolderStore, NpyStore};
use std::alloc::{AllocError, Global};
use std::test::Fail;

/// A folder on a disk with a cache.
type CachedFolder = FolderStore<CachedMemDisk>;

/// How many calls of the disk two saves make.
const CALLS: usize = 12;

/// What a crash may leave of a file that is saved: nothing, the first bytes of the one text or of the other, or other
/// bytes.
const CHOICES: usize = 10;

fn choice(alloc: Global, number: usize) -> Result<Option<Vec<u8>>, AllocError> {
    let bytes = match number {
        0 => return Ok(None),
        1..=4 => &b"one"[..number - 1],
        5..=8 => &b"two"[..number - 5],
        _ => &b"?"[..],
    };
    Ok(Some(Vec::from_slice(alloc, bytes)?))
}

/// Two saves over a disk that crashes at this call: the disk, and how many of them were accepted.
fn two_saves(alloc: Global, call: usize) -> (CachedMemDisk, usize) {
    let mut disk = CachedMemDisk::new(alloc);
    disk.fail_at(call, true);
    let mut store = FolderStore::new(disk, 100);
    let one = store.write(alloc, b"a", b"one").is_ok();
    let two = store.write(alloc, b"a", b"two").is_ok();
    (store.into_disk(), usize::from(one) + usize::from(two))
}

/// The folder that the crash leaves, if it may leave this of the file and this of the hidden one.
fn folder_left(
    alloc: Global,
    mut disk: CachedMemDisk,
    file: usize,
    hidden: usize,
) -> Result<Option<CachedFolder>, AllocError> {
    let is_left = disk.crash(b"a", choice(alloc, file)?)?
        && disk.crash(b".a.part", choice(alloc, hidden)?)?;
    if !is_left {
        return Ok(None);
    }
    disk.restart()?;
    Ok(Some(FolderStore::new(disk, 100)))
}

/// How many of the two saves the file stands for, or 3 where it is none of theirs.
fn saves_in(alloc: Global, folder: &mut CachedFolder) -> Result<usize, Fail> {
    let Some(found) = folder.read(alloc, b"a")? else {
        return Ok(0);
    };
    Ok(match found.as_slice() {
        b"one" => 1,
        b"two" => 2,
        _ => 3,
    })
}

/// Whatever a crash leaves, the file is that of the last save that was accepted, whole, or of the one that was under
/// way; another save goes well then, and leaves no hidden file.
#[test]
fn a_crash_at_each_call_leaves_a_whole_file(rt: HostRuntime) -> Result<(), Fail> {
    let mut left = 0usize;
    let mut torn = 0usize;
    for call in 0..CALLS + 1 {
        for file in 0..CHOICES {
            for hidden in 0..CHOICES {
                let (disk, accepted) = two_saves(rt.alloc(), call);
                let Some(mut folder) = folder_left(rt.alloc(), disk, file, hidden)? else {
                    continue;
                };
                let saves = saves_in(rt.alloc(), &mut folder)?;
                assert!(rt;
                    saves == accepted || saves == accepted.saturating_add(1),
                    "at {call}: {file}, {hidden}"
                );
                folder.write(rt.alloc(), b"a", b"new")?;
                let is_new = folder
                    .read(rt.alloc(), b"a")?
                    .is_some_and(|found| found.as_slice() == b"new".as_slice());
                let is_hidden = folder.into_disk().has_file(b".a.part")?;
                assert!(rt; is_new && !is_hidden, "then, at {call}: {file}, {hidden}");
                left = left.saturating_add(1);
                torn = torn.saturating_add(usize::from(hidden > 0 && hidden != 4 && hidden != 8));
            }
        }
    }
    assert!(rt; left > 100 && torn > 50, "{left}, {torn}");
    Ok(())
}

//! NPY files that are read, and stores of files.
ghost use Rattle.std.specs.Prelude.{◌≤◌, length};

use crate::check::check;
use elem_descr::Refusal;
use npy_files::{FileParts, FuseStore, MemStore, NpyStore, StoreFault, npy_load, npy_read};
use raw_block::RawBlock;
use std::alloc::Global;
use std::process::Abort;
use std::test::Fail;

/// Three integers, in a file of version 2.0, with a byte behind them.
const FILE: &[u8] =
    b"\x93NUMPY\x02\x00\x39\x00\x00\x00{\"shape\": (3L,), \"fortran_order\": False, \"descr\": \"<i4\"}\n\x01\x00\x00\x00\x02\x00\x00\x00\x03\x00\x00\x00\xff";

const ITEMS: &[u8] = b"\x01\x00\x00\x00\x02\x00\x00\x00\x03\x00\x00\x00";

#[test]
fn a_file_of_version_two(rt: HostRuntime) -> Result<(), Fail> {
    let (array, rest) = npy_read(rt.alloc(), FILE)?;
    assert!(rt; rest == 1);
    assert!(rt; array.block.bytes() == ITEMS);
    assert!(rt; array.layout.shape.as_slice() == [3usize].as_slice());
    Ok(())
}

fn refusal(alloc: Global, file: &[u8]) -> Option<Refusal> {
    npy_read(alloc, file).err()
}

#[test]
fn files_that_are_cut(rt: HostRuntime) {
    for len in 0..FILE.len() {
        let wanted = match len {
            0..=5 => Some(Refusal::BadMagic),
            81 => None,
            _ => Some(Refusal::Truncated),
        };
        assert!(rt; refusal(rt.alloc(), &FILE[..len]) == wanted, "at {len}");
    }
}

/// How many bytes are behind the items of a file whose first `cut` bytes are its first part.
fn load_cut(rt: &impl Abort, alloc: Global, file: &[u8], cut: usize) -> Result<usize, Refusal>
    requires { cut ≤ length file.now }
{
    let front = Vec::from_slice(alloc, &file[..cut])?;
    let block = RawBlock::try_copied(alloc, &file[cut..])?;
    let (array, rest) = npy_load(alloc, FileParts { front, block })?;
    check(rt, array.block.bytes() == ITEMS, "the items");
    Ok(rest)
}

/// Wherever a file is cut in two, it is the same file, with a byte behind its items or without.
#[test]
fn files_in_two_parts(rt: HostRuntime) {
    for cut in 0..81 {
        let whole = load_cut(&rt, rt.alloc(), &FILE[..81], cut);
        let more = load_cut(&rt, rt.alloc(), FILE, cut);
        let short = load_cut(&rt, rt.alloc(), &FILE[..80], cut.min(80));
        let wanted = (Ok(0), Ok(1), Err(Refusal::Truncated));
        assert!(rt; (whole, more, short) == wanted, "at {cut}");
    }
}

#[test]
fn files_that_are_refused(rt: HostRuntime) {
    let version = refusal(rt.alloc(), b"\x93NUMPY\x03\x00");
    check(&rt, version == Some(Refusal::BadVersion), "a version");
    let long = refusal(rt.alloc(), b"\x93NUMPY\x02\x00\x01\x00\x10\x00");
    check(&rt, long == Some(Refusal::TooLarge), "too long");
}

/// A store has this file under a name, or none.
pub fn has_file<N: NpyStore>(
    rt: &impl Abort,
    alloc: Global,
    store: &mut N,
    name: &[u8],
    bytes: Option<&[u8]>,
) -> Result<(), StoreFault> {
    let found = store.read(alloc, name)?;
    check(rt, found.as_deref() == bytes, "what a file has");
    Ok(())
}

#[test]
fn a_store_in_memory(rt: HostRuntime) -> Result<(), Fail> {
    let mut store = MemStore::new(rt.alloc(), 4);
    store.write(rt.alloc(), b"a", b"one")?;
    store.write(rt.alloc(), b"b", b"two")?;
    store.write(rt.alloc(), b"a", b"new")?;
    has_file(&rt, rt.alloc(), &mut store, b"a", Some(b"new"))?;
    has_file(&rt, rt.alloc(), &mut store, b"b", Some(b"two"))?;
    has_file(&rt, rt.alloc(), &mut store, b"c", None)?;
    let long = store.write(rt.alloc(), b"a", b"three");
    check(&rt, long == Err(StoreFault::TooLong), "too long");
    Ok(())
}

/// The two parts of a file are these bytes, one part behind the other.
fn has_parts<N: NpyStore>(
    rt: &impl Abort,
    alloc: Global,
    store: &mut N,
    name: &[u8],
    bytes: &[u8],
) -> Result<(), StoreFault> {
    let Some(FileParts { front, block }) = store.read_parts(alloc, name)? else {
        panic!(rt; "no file");
    };
    let rest = bytes.strip_prefix(front.as_slice());
    check(rt, rest == Some(block.bytes()), "the parts of a file");
    Ok(())
}

/// Files in two parts, in a store in memory of which the second call fails.
#[test]
fn two_parts_in_memory(rt: HostRuntime) -> Result<(), Fail> {
    let mut store = FuseStore::new(rt.alloc(), 6, 1);
    store.write_parts(rt.alloc(), b"a", b"one", b"two")?;
    let failed = store.read_parts(rt.alloc(), b"a").err();
    check(&rt, failed == Some(StoreFault::Device), "a fault");
    has_file(&rt, rt.alloc(), &mut store, b"a", Some(b"onetwo"))?;
    let long = store.write_parts(rt.alloc(), b"a", b"one", b"four");
    check(&rt, long == Err(StoreFault::TooLong), "too long");
    has_parts(&rt, rt.alloc(), &mut store, b"a", b"onetwo")?;
    Ok(())
}

#[test]
fn a_store_that_fails_once(rt: HostRuntime) -> Result<(), Fail> {
    let mut store = FuseStore::new(rt.alloc(), 100, 1);
    store.write(rt.alloc(), b"a", b"one")?;
    let failed = store.write(rt.alloc(), b"a", b"two");
    assert!(rt; failed == Err(StoreFault::Device));
    has_file(&rt, rt.alloc(), &mut store, b"a", Some(b"one"))?;
    store.write(rt.alloc(), b"a", b"two")?;
    Ok(())
}

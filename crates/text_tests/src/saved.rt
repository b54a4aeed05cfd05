//! NPY files that are written, as `numpy.lib.format` has them, and a folder of files.
use crate::check::check;
use crate::files::has_file;
use crate::made::{Array, Numbers, array_of};
use elem_descr::Refusal;
use npy_files::{
    DirStore, FileParts, NpyStore, SavedParts, StoreFault, npy_parts, npy_read, npy_write,
};
use std::alloc::{AllocError, Global};
use std::fs;
use std::process::Abort;
use std::test::Fail;

/// A descriptor as a script gives it, a layout and the bytes of a block; and of the file the header's
/// text, the spaces behind it and the bytes of the items.
struct Row {
    descr: &'static str,
    numbers: Numbers,
    block: &'static [u8],
    text: &'static str,
    spaces: usize,
    items: &'static [u8],
}

const ROWS: &[Row] = &[
    Row {
        descr: "<i4",
        numbers: (&[3], &[4], 0),
        block: b"\x01\0\0\0\x02\0\0\0\x03\0\0\0",
        text: "{'descr': '<i4', 'fortran_order': False, 'shape': (3,), }",
        spaces: 60,
        items: b"\x01\0\0\0\x02\0\0\0\x03\0\0\0",
    },
    // In Fortran order.
    Row {
        descr: "<i4",
        numbers: (&[2, 3], &[4, 8], 0),
        block: b"\x01\0\0\0\x04\0\0\0\x02\0\0\0\x05\0\0\0\x03\0\0\0\x06\0\0\0",
        text: "{'descr': '<i4', 'fortran_order': True, 'shape': (2, 3), }",
        spaces: 59,
        items: b"\x01\0\0\0\x04\0\0\0\x02\0\0\0\x05\0\0\0\x03\0\0\0\x06\0\0\0",
    },
    Row {
        descr: "T{<i:x:>h:y:}",
        numbers: (&[1], &[6], 0),
        block: b"\0\0\0\0\x01\x02",
        text: "{'descr': [('x', '<i4'), ('y', '>i2')], 'fortran_order': False, 'shape': (1,), }",
        spaces: 37,
        items: b"\0\0\0\0\x01\x02",
    },
    // What lies in padding isn't written.
    Row {
        descr: "T{b:x:1x}",
        numbers: (&[1], &[2], 0),
        block: b"\x01\xff",
        text: "{'descr': [('x', '|i1'), ('', '|V1')], 'fortran_order': False, 'shape': (1,), }",
        spaces: 38,
        items: b"\x01\0",
    },
    Row {
        descr: "T{b:x:T{i:y:}:s:}",
        numbers: (&[2], &[8], 0),
        block: b"\x01\xff\xff\xff\x02\0\0\0\x03\xff\xff\xff\x04\0\0\0",
        text: "{'descr': [('x', '|i1'), ('', '|V3'), ('s', [('y', '<i4')])], 'fortran_order': False, 'shape': (2,), }",
        spaces: 15,
        items: b"\x01\0\0\0\x02\0\0\0\x03\0\0\0\x04\0\0\0",
    },
    // A bool is 0 or 1, alone and in a record.
    Row {
        descr: "|b1",
        numbers: (&[4], &[1], 0),
        block: b"\0\x01\x02\xff",
        text: "{'descr': '|b1', 'fortran_order': False, 'shape': (4,), }",
        spaces: 60,
        items: b"\0\x01\x01\x01",
    },
    Row {
        descr: "T{<?:x:<2s:y:}",
        numbers: (&[2], &[3], 0),
        block: b"\x02a\0\0\xffb",
        text: "{'descr': [('x', '|b1'), ('y', '|S2')], 'fortran_order': False, 'shape': (2,), }",
        spaces: 37,
        items: b"\x01a\0\0\xffb",
    },
    // Backwards, every other item, rows of a larger array, and one item stretched.
    Row {
        descr: "<i2",
        numbers: (&[3], &[-2], 4),
        block: b"\x01\0\x02\0\x03\0",
        text: "{'descr': '<i2', 'fortran_order': False, 'shape': (3,), }",
        spaces: 60,
        items: b"\x03\0\x02\0\x01\0",
    },
    Row {
        descr: "|S2",
        numbers: (&[2], &[4], 2),
        block: b"aabbccdd",
        text: "{'descr': '|S2', 'fortran_order': False, 'shape': (2,), }",
        spaces: 60,
        items: b"bbdd",
    },
    Row {
        descr: "|u1",
        numbers: (&[2, 2], &[3, 1], 0),
        block: b"\x01\x02\x03\x04\x05\x06",
        text: "{'descr': '|u1', 'fortran_order': False, 'shape': (2, 2), }",
        spaces: 58,
        items: b"\x01\x02\x04\x05",
    },
    Row {
        descr: ">u2",
        numbers: (&[2, 2], &[0, 0], 0),
        block: b"\x01\x02",
        text: "{'descr': '>u2', 'fortran_order': False, 'shape': (2, 2), }",
        spaces: 58,
        items: b"\x01\x02\x01\x02\x01\x02\x01\x02",
    },
    // One item, which is in both orders, and none.
    Row {
        descr: "|u1",
        numbers: (&[], &[], 1),
        block: b"\x01\x02",
        text: "{'descr': '|u1', 'fortran_order': False, 'shape': (), }",
        spaces: 62,
        items: b"\x02",
    },
    Row {
        descr: "|u1",
        numbers: (&[3, 0], &[0, 0], 0),
        block: b"",
        text: "{'descr': '|u1', 'fortran_order': False, 'shape': (3, 0), }",
        spaces: 58,
        items: b"",
    },
];

/// The file of an array.
fn saved(rt: &impl Abort, alloc: Global, array: &Array) -> Result<Vec<u8>, Refusal> {
    let Array {
        descr,
        layout,
        block,
    } = array;
    check(rt, layout.fits(block.len(), descr.size()), "within");
    npy_write(alloc, block, layout, descr)
}

/// An array's file in two parts.
fn saved_parts<'a>(
    rt: &impl Abort,
    alloc: Global,
    array: &'a Array,
) -> Result<SavedParts<'a>, Refusal> {
    let Array {
        descr,
        layout,
        block,
    } = array;
    check(rt, layout.fits(block.len(), descr.size()), "within");
    npy_parts(alloc, block, layout, descr)
}

const SPACES: &[u8] = &[b' '; 64];

/// The items in a file of version 1.0, if its header is the row's.
fn items_in<'a>(row: &Row, file: &'a [u8]) -> Option<&'a [u8]> {
    let header = file.strip_prefix(b"\x93NUMPY\x01\0\x76\0".as_slice())?;
    let rest = header.strip_prefix(row.text.as_bytes())?;
    rest.strip_prefix(SPACES.get(..row.spaces)?)?
        .strip_prefix(b"\n".as_slice())
}

fn is_told(rt: &impl Abort, row: &Row, file: &[u8]) {
    check(rt, items_in(row, file) == Some(row.items), row.text);
}

fn array(rt: &impl Abort, alloc: Global, row: &Row) -> Result<Array, Refusal> {
    array_of(rt, alloc, row.descr, row.numbers, row.block)
}

fn saves_row(rt: &impl Abort, alloc: Global, row: &Row) -> Result<(), Refusal> {
    let array = array(rt, alloc, row)?;
    is_told(rt, row, saved(rt, alloc, &array)?.as_slice());
    let SavedParts { mut front, items } = saved_parts(rt, alloc, &array)?;
    front.extend_from_slice(items)?;
    is_told(rt, row, front.as_slice());
    Ok(())
}

/// How many bytes of a row's file are those of the block.
fn uncopied(rt: &impl Abort, alloc: Global, row: &Row) -> Result<usize, Refusal> {
    let array = array(rt, alloc, row)?;
    Ok(saved_parts(rt, alloc, &array)?.items.len())
}

/// The items of the first three rows lie in the block as in the file, and so does the one item.
#[test]
fn items_are_not_copied(rt: HostRuntime) -> Result<(), Fail> {
    let mut bytes = 0;
    for row in ROWS {
        bytes = uncopied(&rt, rt.alloc(), row)?.saturating_add(bytes);
    }
    check(&rt, bytes == 12 + 24 + 6 + 1, "bytes of blocks");
    Ok(())
}

/// Each is the file that is wanted, or there was no memory for it.
#[test]
fn arrays_are_saved(rt: HostRuntime) {
    for row in ROWS {
        let saved = saves_row(&rt, rt.alloc(), row);
        let is_known = matches!(saved, Ok(()) | Err(Refusal::OutOfMemory));
        check(&rt, is_known, row.text);
    }
}

const ZEROS: &[u8] = &[0; 65_536];

/// One item of 65,536 bytes, stretched to more than 2^28 bytes.
#[test]
fn too_many_bytes(rt: HostRuntime) -> Result<(), Fail> {
    let array = array_of(&rt, rt.alloc(), "|S65536", (&[4097], &[0], 0), ZEROS)?;
    let refusal = saved(&rt, rt.alloc(), &array).err();
    check(&rt, refusal == Some(Refusal::TooLarge), "too large");
    Ok(())
}

const MARK: &str = "xxxxxxxxxxxxxxxxxxxxxxxxxxxxxxxxxxxxxxxxxxxxxxxxxxxxxxxxxxxxxx";

/// A record of so many bytes with names of 64 letters and digits, and what else it has.
fn push_record(text: &mut String, count: u32, more: &str) -> Result<(), AllocError> {
    text.push_str("T{")?;
    for k in 0..count {
        write!(text, "b:{MARK}{}{}:", k / 10, k % 10)?;
    }
    text.push_str(more)?;
    text.push_str("}")
}

/// The format text of a record of 13 records of 64 bytes, and of one of 16 bytes and a last one.
fn many_fields(alloc: Global, last: &str) -> Result<String, AllocError> {
    let mut text = String::from_str(alloc, "T{")?;
    for _ in 0..13 {
        push_record(&mut text, 64, "")?;
    }
    push_record(&mut text, 16, last)?;
    text.push_str("}")?;
    Ok(text)
}

/// The file of one such record.
fn long_file(rt: &impl Abort, alloc: Global, last: &str) -> Result<Vec<u8>, Refusal> {
    let text = many_fields(alloc, last)?;
    let array = array_of(rt, alloc, text.as_str(), (&[], &[], 0), &[7; 849])?;
    saved(rt, alloc, &array)
}

/// The file is read again, as a record of 849 bytes.
fn is_read(rt: &impl Abort, alloc: Global, file: &[u8]) -> Result<(), Refusal> {
    let (array, rest) = npy_read(alloc, file)?;
    check(rt, rest == 0, "no bytes behind it");
    check(rt, array.descr.leaf_count() == 849, "its leaves");
    check(rt, array.block.bytes() == [7; 849].as_slice(), "its items");
    Ok(())
}

/// The last of a record's bytes, the length of its file, and what comes before the text of the header.
/// Version 1.0 has room for a text of 65,525 bytes, and 2.0 is for one byte more.
const LONG: &[(&str, usize, &[u8])] = &[
    (
        "b:yyyyyyyyyyyyyyyyyyyyyy:",
        10 + 65_526 + 849,
        b"\x93NUMPY\x01\0\xf6\xff{'",
    ),
    (
        "b:yyyyyyyyyyyyyyyyyyyyyyy:",
        12 + 65_588 + 849,
        b"\x93NUMPY\x02\0\x34\0\x01\0",
    ),
];

/// What is written of a record in both versions is read again.
#[test]
fn long_headers(rt: HostRuntime) -> Result<(), Fail> {
    for (last, len, front) in LONG {
        let file = long_file(&rt, rt.alloc(), last)?;
        check(&rt, file.len() == *len && file.starts_with(front), last);
        is_read(&rt, rt.alloc(), file.as_slice())?;
    }
    Ok(())
}

fn writes_over<N: NpyStore>(
    rt: &impl Abort,
    alloc: Global,
    store: &mut N,
) -> Result<(), StoreFault> {
    store.write(alloc, b"a.npy", b"one")?;
    store.write(alloc, b"a.npy", b"new")?;
    has_file(rt, alloc, store, b"a.npy", Some(b"new"))?;
    has_file(rt, alloc, store, b"b.npy", None)?;
    let outside = store.write(alloc, b"../a.npy", b"one");
    check(rt, outside.is_err(), "outside");
    Ok(())
}

/// A file in a folder is written over, and read whole.
#[test]
fn a_folder_of_files(rt: HostRuntime) -> Result<(), Fail> {
    fs::create_dir_all(&rt, "folder_of_files")?;
    let mut store = DirStore::try_new(&rt, rt.alloc(), "folder_of_files")?;
    writes_over(&rt, rt.alloc(), &mut store)?;
    fs::remove_file(&rt, "folder_of_files/a.npy")?;
    fs::remove_dir(&rt, "folder_of_files")?;
    Ok(())
}

/// What is written as two parts is read as these.
fn reads_parts<N: NpyStore>(
    rt: &impl Abort,
    alloc: Global,
    store: &mut N,
    written: (&[u8], &[u8]),
    wanted: (&[u8], &[u8]),
) -> Result<(), StoreFault> {
    store.write_parts(alloc, b"a.npy", written.0, written.1)?;
    let Some(FileParts { front, block }) = store.read_parts(alloc, b"a.npy")? else {
        panic!(rt; "no file");
    };
    check(rt, front.as_slice() == wanted.0, "the first part");
    check(rt, block.bytes() == wanted.1, "the second part");
    Ok(())
}

fn cuts<N: NpyStore>(
    rt: &impl Abort,
    alloc: Global,
    store: &mut N,
    items: &[u8],
) -> Result<(), StoreFault> {
    let written: (&[u8], &[u8]) = (b"\x93NUMPY\x01\0\x02\0{}", items);
    reads_parts(rt, alloc, store, written, written)?;
    reads_parts(rt, alloc, store, (b"no ", b"file"), (b"", b"no file"))?;
    let none = store.read_parts(alloc, b"b.npy")?;
    check(rt, none.is_none(), "no file");
    Ok(())
}

fn many_bytes(alloc: Global) -> Result<Vec<u8>, AllocError> {
    let mut bytes = Vec::new(alloc);
    for k in 0..200_000u32 {
        bytes.push((k % 251) as u8)?;
    }
    Ok(bytes)
}

/// An NPY file of a folder is cut behind its header, and of what is none nothing stands in front.
#[test]
fn two_parts_in_a_folder(rt: HostRuntime) -> Result<(), Fail> {
    fs::create_dir_all(&rt, "two_parts")?;
    let items = many_bytes(rt.alloc())?;
    let mut store = DirStore::try_new(&rt, rt.alloc(), "two_parts")?;
    cuts(&rt, rt.alloc(), &mut store, items.as_slice())?;
    fs::remove_file(&rt, "two_parts/a.npy")?;
    fs::remove_dir(&rt, "two_parts")?;
    Ok(())
}

fn tells_folders<N: NpyStore>(
    rt: &impl Abort,
    alloc: Global,
    store: &mut N,
) -> Result<(), StoreFault> {
    let found = store.read(alloc, b"a.npy");
    check(rt, found.is_err(), "a folder is read");
    let written = store.write(alloc, b"a.npy", b"one");
    check(rt, written.is_err(), "a folder is written");
    store.write(alloc, b"b.npy", b"new")?;
    has_file(rt, alloc, store, b"b.npy", Some(b"new"))
}

/// A folder in the place of a file is no file, and a part that was left behind is written anew.
#[test]
fn what_is_no_file(rt: HostRuntime) -> Result<(), Fail> {
    fs::create_dir_all(&rt, "no_files/a.npy")?;
    fs::write(&rt, "no_files/.b.npy.part", "left behind")?;
    let mut store = DirStore::try_new(&rt, rt.alloc(), "no_files")?;
    tells_folders(&rt, rt.alloc(), &mut store)?;
    fs::remove_dir(&rt, "no_files/a.npy")?;
    fs::remove_file(&rt, "no_files/b.npy")?;
    fs::remove_dir(&rt, "no_files")?;
    Ok(())
}

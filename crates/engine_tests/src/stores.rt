//! Runs over stores that hold little or that fail once.
use crate::runs::DEPTH;
use bench_engine::run;
use npy_files::{FuseStore, MemStore, NpyStore};
use std::alloc::Global;
use std::process::Abort;
use std::test::Fail;

/// `numpy.save` of `numpy.array([1, 2, 3], '<i4')`
const THREE: &[u8] =
    b"\x93NUMPY\x01\x00v\x00{'descr': '<i4', 'fortran_order': False, 'shape': (3,), }                                                            \n\x01\x00\x00\x00\x02\x00\x00\x00\x03\x00\x00\x00";

/// The most bytes of a file.
const LIMIT: usize = 1 << 16;

/// Runs a script over a store, and compares the replies.
fn check_replies<N: NpyStore>(
    rt: &impl Abort,
    alloc: Global,
    store: &mut N,
    script: &[u8],
    replies: &[u8],
) {
    let mut reader = script;
    let mut writer = Vec::new(alloc);
    let ended = run(alloc, &mut reader, &mut writer, store, DEPTH).is_ok();
    assert_eq!(rt; writer.as_slice(), replies);
    assert!(rt; ended);
}

/// Compares the file that a store has under `f`.
fn check_file<N: NpyStore>(
    rt: &impl Abort,
    alloc: Global,
    store: &mut N,
    bytes: Option<&[u8]>,
) -> Result<(), Fail> {
    let found = store.read(alloc, b"f")?;
    match (&found, bytes) {
        (Some(file), Some(bytes)) => assert_eq!(rt; file.as_slice(), bytes),
        (found, bytes) => assert_eq!(rt; found.is_some(), bytes.is_some()),
    }
    Ok(())
}

/// The size of the array is checked before the size of the file, and the old file stays.
const SAVES: &[u8] =
    b"a = arange <i4 1 4 1\nsave a \"f\"\no = full |S65536 (1) b'x'\nb = broadcast o (4097)\nsave b \"f\"\nsave o \"f\"\n";

const SAVES_REPLIES: &[u8] =
    b"ok a <i4 (3,) new\nok save 140\nok o |S65536 (1,) new\nok b |S65536 (4097,) view\nno E09 too large\nno E35 file too long\n";

#[test]
fn a_long_file_leaves_the_old_one(rt: HostRuntime) -> Result<(), Fail> {
    let mut store = MemStore::new(rt.alloc(), LIMIT);
    check_replies(&rt, rt.alloc(), &mut store, SAVES, SAVES_REPLIES);
    check_file(&rt, rt.alloc(), &mut store, Some(THREE))
}

#[test]
fn long_files_are_refused(rt: HostRuntime) -> Result<(), Fail> {
    let mut store = MemStore::new(rt.alloc(), 100);
    let script: &[u8] = b"a = array <i4 (3) 1 2 3\nsave a \"f\"\nx = load \"none.npy\"\nnames\n";
    let replies: &[u8] = b"ok a <i4 (3,) new\nno E35 file too long\nno E34 no such file\nnames a\n";
    check_replies(&rt, rt.alloc(), &mut store, script, replies);
    check_file(&rt, rt.alloc(), &mut store, None)
}

/// Three saves and two loads, one of which meets a fault of the device.
const FIVE_CALLS: &[u8] =
    b"a = array <i4 (3) 1 2 3\nsave a \"f\"\nsave a \"f\"\nx = load \"f\"\nsave a \"g\"\ny = load \"f\"\nnames\n";

const FIVE_REPLIES: [&[u8]; 6] = [
    b"ok a <i4 (3,) new\nno E27 store fault\nok save 140\nok x <i4 (3,) new rest 0\nok save 140\nok y <i4 (3,) new rest 0\nnames a x y\n",
    b"ok a <i4 (3,) new\nok save 140\nno E27 store fault\nok x <i4 (3,) new rest 0\nok save 140\nok y <i4 (3,) new rest 0\nnames a x y\n",
    b"ok a <i4 (3,) new\nok save 140\nok save 140\nno E27 store fault\nok save 140\nok y <i4 (3,) new rest 0\nnames a y\n",
    b"ok a <i4 (3,) new\nok save 140\nok save 140\nok x <i4 (3,) new rest 0\nno E27 store fault\nok y <i4 (3,) new rest 0\nnames a x y\n",
    b"ok a <i4 (3,) new\nok save 140\nok save 140\nok x <i4 (3,) new rest 0\nok save 140\nno E27 store fault\nnames a x\n",
    b"ok a <i4 (3,) new\nok save 140\nok save 140\nok x <i4 (3,) new rest 0\nok save 140\nok y <i4 (3,) new rest 0\nnames a x y\n",
];

#[test]
fn faults_of_the_device_are_reported(rt: HostRuntime) -> Result<(), Fail> {
    for (failing, replies) in FIVE_REPLIES.iter().enumerate() {
        let mut store = FuseStore::new(rt.alloc(), LIMIT, failing);
        check_replies(&rt, rt.alloc(), &mut store, FIVE_CALLS, replies);
        if failing < 5 {
            check_file(&rt, rt.alloc(), &mut store, Some(THREE))?;
        }
    }
    Ok(())
}

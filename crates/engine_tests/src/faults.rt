//! Reads and writes that fail in mid-stream, and a run that may make few reads.
use crate::fakes::{Counted, bytes_in, failing, in_pieces, room_for};
use crate::runs::{DEPTH, check_fault, counts};
use crate::scripts::{FIRST_REPLIES, FIRST_RUN};
use bench_engine::RunFault;
use bench_engine::runner::{Limits, run_within};
use npy_files::MemStore;

#[test]
fn a_full_writer_stops_the_run(rt: HostRuntime) {
    for most in 0..FIRST_REPLIES.len() {
        let mut reader = FIRST_RUN;
        let mut writer = room_for(most);
        let told = counts(rt.alloc(), &mut reader, &mut writer, DEPTH);
        assert_eq!(rt; told, Err(RunFault::Write), "at {most}");
        assert_eq!(rt; Some(bytes_in(&writer)), FIRST_REPLIES.get(..most));
    }
    let mut reader = FIRST_RUN;
    let mut writer = room_for(FIRST_REPLIES.len());
    let told = counts(rt.alloc(), &mut reader, &mut writer, DEPTH);
    assert_eq!(rt; told, Ok((3, 0)));
}

#[test]
fn a_failed_read_stops_the_run(rt: HostRuntime) {
    // A read a line; the replies to the lines that were read.
    let lines: [(usize, &[u8]); 4] = [
        (0, b""),
        (1, b"ok a <i4 (2, 3) new\n"),
        (2, b"ok a <i4 (2, 3) new\nok set 1\n"),
        (3, FIRST_REPLIES),
    ];
    for (reads, expected) in lines {
        let mut reader = failing(FIRST_RUN, 20, reads);
        check_fault(&rt, rt.alloc(), &mut reader, (expected, RunFault::Read));
    }
}

#[test]
fn a_run_makes_few_reads(rt: HostRuntime) {
    let script: &[u8] = b"print q\nprint q\n";
    let mut reader = in_pieces(script, 1);
    let mut writer = Vec::new(rt.alloc());
    let mut store = MemStore::new(rt.alloc(), 0);
    let limits = Limits {
        depth: DEPTH,
        reads: 10,
        size: 1,
    };
    let fault = run_within(rt.alloc(), &mut reader, &mut writer, &mut store, limits).err();
    assert_eq!(rt; fault, Some(RunFault::Read));
    assert_eq!(rt; writer.as_slice(), b"no E06 unknown name\n".as_slice());
}

#[test]
fn reads_are_counted(rt: HostRuntime) {
    let mut reader = Counted::new(FIRST_RUN);
    let mut writer = room_for(FIRST_REPLIES.len());
    let told = counts(rt.alloc(), &mut reader, &mut writer, DEPTH);
    assert_eq!(rt; told, Ok((3, 0)));
    assert_eq!(rt; reader.reads(), 2);
}

//! Lines of the script, and what each asks for.
ghost use Rattle.std.specs.Prelude.{◌≤◌, length};

use crate::check::check;
use elem_descr::Refusal;
use script_lang::{parse, word};
use std::alloc::Global;
use std::process::Abort;

mod rows;
mod show;

use rows::{
    ARRAYS, COMPUTATIONS, DESCRIPTORS, INDEXES, LITERALS, NAMES, SILENT, STATEMENTS, VIEWS,
};
use show::says;

/// Whether this text says what a line asks for.
fn asks(alloc: Global, line: &[u8], text: &[u8]) -> bool
    requires { length line.now ≤ 65536 }
{
    let parsed = parse(alloc, line);
    let asks = says(alloc, text, &parsed);
    drop(parsed);
    asks
}

/// Reads each line of a table, and compares what it asks for with what the table says. A line for
/// which memory ran out is read again.
fn reads_table(alloc: Global, rt: &impl Abort, table: &[(&str, &str)]) {
    for (line, text) in table {
        assert!(rt; line.len() <= 65536);
        let is_read = asks(alloc, line.as_bytes(), text.as_bytes())
            || asks(alloc, line.as_bytes(), text.as_bytes());
        check(rt, is_read, line);
    }
}

#[test]
fn silent_lines_and_bad_bytes(rt: HostRuntime) {
    reads_table(rt.alloc(), &rt, SILENT)
}

#[test]
fn names(rt: HostRuntime) {
    reads_table(rt.alloc(), &rt, NAMES)
}

#[test]
fn descriptors(rt: HostRuntime) {
    reads_table(rt.alloc(), &rt, DESCRIPTORS)
}

#[test]
fn commands_that_make_arrays(rt: HostRuntime) {
    reads_table(rt.alloc(), &rt, ARRAYS)
}

#[test]
fn literals(rt: HostRuntime) {
    reads_table(rt.alloc(), &rt, LITERALS)
}

#[test]
fn indexes(rt: HostRuntime) {
    reads_table(rt.alloc(), &rt, INDEXES)
}

#[test]
fn commands_that_take_items(rt: HostRuntime) {
    reads_table(rt.alloc(), &rt, VIEWS)
}

#[test]
fn commands_that_compute(rt: HostRuntime) {
    reads_table(rt.alloc(), &rt, COMPUTATIONS)
}

#[test]
fn commands_that_bind_no_name(rt: HostRuntime) {
    reads_table(rt.alloc(), &rt, STATEMENTS)
}

#[test]
fn refusals_have_their_texts(rt: HostRuntime) {
    assert!(rt; word(Refusal::LineTooLong) == b"no E01 line too long".as_slice());
    assert!(rt;
        word(Refusal::ShapesDoNotBroadcast) == b"no E16 shapes do not broadcast".as_slice()
    );
    assert!(rt; word(Refusal::OutOfMemory) == b"no E40 out of memory".as_slice());
}

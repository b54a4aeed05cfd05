//! What a run came to, in a few numbers.
ghost use Rattle.std.specs.Prelude.{List, ℕ, Option};

use bench_engine::{RunFault, ScriptSource, run};
use npy_files::MemStore;
use std::alloc::Global;
use std::io::{Read, Write};
use std::process::Abort;

/// The most bytes of a file.
const FILE_LIMIT: usize = 1 << 16;

/// How many earlier states a run keeps where no number is named.
pub const DEPTH: usize = 16;

/// The most earlier states that a run keeps.
const MAX_DEPTH: usize = 64;

/// How many replies accept a command and how many refuse one, or why the run stopped. The store is
/// empty at first, and so many earlier states are kept.
pub fn counts<S: ScriptSource, W: Write>(
    alloc: Global,
    source: &mut S,
    writer: &mut W,
    depth: usize,
) -> Result<(u64, u64), RunFault>
    // It may be read at any time.
    requires { (now : S) (written : Option (List ℕ)) → S.MayRead now written }
{
    let mut store = MemStore::new(alloc, FILE_LIMIT);
    let summary = run(alloc, source, writer, &mut store, depth.min(MAX_DEPTH))?;
    Ok((summary.accepted, summary.refused))
}

/// Runs a script, in which so many earlier states are kept, and compares what it replies.
pub fn check_row<S: Read>(
    rt: &impl Abort,
    alloc: Global,
    source: &mut S,
    expected: &[u8],
    depth: usize,
) {
    let mut replies = Vec::new(alloc);
    let told = counts(alloc, source, &mut replies, depth);
    assert_eq!(rt; replies.as_slice(), expected);
    assert!(rt; told.is_ok());
}

/// Runs a script and compares what it replies, and why it stops.
pub fn check_fault<S: Read>(
    rt: &impl Abort,
    alloc: Global,
    source: &mut S,
    expected: (&[u8], RunFault),
) {
    let mut replies = Vec::new(alloc);
    let told = counts(alloc, source, &mut replies, DEPTH);
    assert_eq!(rt; replies.as_slice(), expected.0);
    assert_eq!(rt; told, Err(expected.1));
}

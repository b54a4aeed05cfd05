//! A whole run: it reads a script and writes the replies.
ghost use Rattle.std.specs.Prelude.{◌≡◌, ◌≤◌, ◌<◌, ◌+◌, ◌⊎◌, List, ℕ, Option, None, IsSome, IsNone, length, take, MatchOption, ◌*◌, ◌^◌, IfOk, OnOk, IsErrOf};
ghost use Rattle.bench_engine.specs.Words.{Consumes, Keeps, IsAtEnd};
ghost use Rattle.bench_engine.specs.Headline.{Outside, outside, RisesBy, RisesAtMost, ReadsInTime, ComesTo};
ghost use Rattle.bench_engine.specs.inside.Sessions.{Reading, Turned};
ghost use Rattle.bench_engine.specs.declared.runner.RunFault.TheVariants.{Write, Memory};

use crate::session::{Session, Summary};
use array_print::WriteFault;
use npy_files::NpyStore;
use std::alloc::{AllocError, Global};
use std::io::{Read, Write};
use thiserror::Error;

/// A reader of a script. Every `Read` is one; a source that counts its reads shows how many a run
/// makes.
pub trait ScriptSource {
    // The bytes that are still to be read, if they are known.
    ghost remaining: { Self → Option (List ℕ) };

    // How many reads were made, if they are counted.
    ghost reads: { Self → Option ℕ };

    // How many reads have failed, if they are counted.
    ghost failures: { Self → Option ℕ };

    // Whether the source may be read once these bytes are written. Most sources may be read at any
    // time.
    ghost MayRead: { Self → Option (List ℕ) → Type 0 };

    /// Reads once. Returns how many bytes came, 0 at the end, or `None` if the read failed.
    /// `writer` shows what was written before the read.
    fn read_some<W: Write>(&mut self, writer: &W, chunk: &mut [u8]) -> Option<usize>
        requires some { 0 < length chunk.old }
        requires size { length chunk.old ≤ 65538 }
        requires may { MayRead self.old (W.contents writer.now) }
        ensures counted { RisesAtMost (reads self.old) (reads self.new) 1 }
        ensures one { IsSome result → RisesBy (reads self.old) (reads self.new) 1 }
        ensures well { IsSome result → failures self.new ≡ failures self.old }
        ensures failed { IsNone result → RisesBy (failures self.old) (failures self.new) 1 }
        ensures bytes { MatchOption result (Keeps (remaining self.old) (remaining self.new))
            (λ n. (n ≤ length chunk.new)
            × Consumes (remaining self.old) (remaining self.new) (take n chunk.new)
            × (n ≡ 0 → IsAtEnd (remaining self.new))) };
}

impl<R: Read> ScriptSource for R {
    ghost remaining = { R.remaining };

    ghost reads = { λ _. None };

    ghost failures = { λ _. None };

    ghost MayRead = { λ _ _. Unit {0} };

    fn read_some<W: Write>(&mut self, _writer: &W, chunk: &mut [u8]) -> Option<usize> {
        self.read(chunk).ok()
    }
}

/// Why a run stops before the end of its script.
#[derive(Clone, Copy, Debug, PartialEq, Eq, Error)]
pub enum RunFault {
    /// A read failed, or there were 2^32 reads.
    #[error("read fault")]
    Read,
    /// A write failed or took nothing.
    #[error("write fault")]
    Write,
    /// There is not enough memory to start.
    #[error("out of memory")]
    Memory,
}

impl From<AllocError> for RunFault {
    ghost from_gives = { λ _ fault. fault ≡ Memory };

    fn from(_error: AllocError) -> RunFault {
        RunFault::Memory
    }
}

impl From<WriteFault> for RunFault {
    ghost from_gives = { λ _ fault. fault ≡ Write };

    fn from(_fault: WriteFault) -> RunFault {
        RunFault::Write
    }
}

/// How many bytes a read asks for: a longest line, with a carriage return and a newline.
const READ_SIZE: usize = 65_538;

/// The most reads of a run.
const MAX_READS: u64 = 1 << 32;

/// Reads once and answers the lines that are complete. Returns whether the script has ended.
fn take_turn<S: ScriptSource, W: Write, N: NpyStore>(
    source: &mut S,
    writer: &mut W,
    store: &mut N,
    session: &mut Session,
    chunk: &mut [u8],
) -> Result<bool, RunFault>
    requires some { 0 < length chunk.old }
    requires size { length chunk.old ≤ 65538 }
    requires may { S.MayRead source.old (W.contents writer.old) }
    requires few { session.old.accepted + session.old.refused + length chunk.old < 2 ^ 50 }
    ensures few { session.new.accepted + session.new.refused
        ≤ session.old.accepted + session.old.refused + length chunk.old }
    ensures counted { RisesAtMost (S.reads source.old) (S.reads source.new) 1 }
    ensures one { OnOk result (RisesBy (S.reads source.old) (S.reads source.new) 1) }
    ensures well { OnOk result (S.failures source.new ≡ S.failures source.old) }
    ensures failed { IsErrOf result RunFault.Read →
        RisesBy (S.failures source.old) (S.failures source.new) 1 }
    ensures memory { ¬ IsErrOf result RunFault.Memory }
    ensures turned { (depth : ℕ) (before : Outside) →
        Reading depth before (outside (S.remaining source.old) (W.contents writer.old)
        (N.shelf store.old)) session.old →
        Turned result depth before (outside (S.remaining source.new) (W.contents writer.new)
        (N.shelf store.new)) session.new }
{
    let count = source.read_some(&*writer, chunk).ok_or(RunFault::Read)?;
    if count == 0 {
        session.end(writer, store)?;
        return Ok(true);
    }
    session.feed(writer, store, &chunk[..count])?;
    Ok(false)
}

/// How many earlier states a run keeps, how many reads it makes at most, and how many bytes each
/// read asks for.
#[derive(Clone, Copy)]
pub struct Limits {
    pub depth: usize,
    pub reads: u64,
    pub size: usize,
}

/// A run within limits.
pub fn run_within<S: ScriptSource, W: Write, N: NpyStore>(
    alloc: Global,
    source: &mut S,
    writer: &mut W,
    store: &mut N,
    limits: Limits,
) -> Result<Summary, RunFault>
    requires depth { limits.depth ≤ 64 }
    requires reads { limits.reads ≤ 2 ^ 32 }
    requires some { 1 ≤ limits.size }
    requires size { limits.size ≤ 65538 }
    // The source is read only when all lines so far are answered.
    requires in_time { ReadsInTime S.remaining S.failures S.MayRead limits.depth source.old
        (outside (S.remaining source.old) (W.contents writer.old) (N.shelf store.old)) }
    // Each line was answered by a step of the machine, up to the end of the script; or a read or a
    // write failed, or there was not enough memory to start.
    ensures comes_to { let before
        = outside (S.remaining source.old) (W.contents writer.old) (N.shelf store.old) in
        let after = outside (S.remaining source.new) (W.contents writer.new) (N.shelf store.new) in
        ComesTo limits.depth before after result }
    // If there was not enough memory to start, nothing was read, written or stored.
    ensures no_memory { IsErrOf result RunFault.Memory →
        (source.new ≡ source.old) × (writer.new ≡ writer.old) × (store.new ≡ store.old) }
    // No read has failed.
    ensures reads_well { OnOk result (S.failures source.new ≡ S.failures source.old) }
    // There are at most this many reads.
    ensures reads { RisesAtMost (S.reads source.old) (S.reads source.new) limits.reads }
    // A read fault means that a read failed, or that there were as many reads as there may be.
    ensures read_fault { IsErrOf result RunFault.Read →
        RisesBy (S.failures source.old) (S.failures source.new) 1
        ⊎ RisesBy (S.reads source.old) (S.reads source.new) limits.reads }
    ensures counts { IfOk result (λ summary. summary.accepted + summary.refused
        ≤ 65538 * limits.reads) }
{
    let mut session = Session::new(alloc, limits.depth)?;
    let mut chunk = vec![in alloc; 0u8; limits.size]?;
    for turn in 0..limits.reads {
        if take_turn(source, writer, store, &mut session, chunk.as_mut_slice())? {
            return Ok(session.into_summary());
        }
    }
    Err(RunFault::Read)
}

/// Runs a script and writes the replies. For every script, the bytes that are written, the final
/// state and the files that are left are those of the machine, in which each command is the
/// machine's step or is refused as out of memory with nothing changed. `undo` can go back `depth`
/// states.
///
/// The script ends with the first read that returns no byte. Each reply is written before the next
/// line is looked at. `RunFault::Memory` is returned only before the first read.
pub fn run<S: ScriptSource, W: Write, N: NpyStore>(
    alloc: Global,
    source: &mut S,
    writer: &mut W,
    store: &mut N,
    depth: usize,
) -> Result<Summary, RunFault>
    requires depth { depth ≤ 64 }
    // The source is read only when all complete lines are answered, all replies are written, and no
    // read has failed: a source may demand this.
    requires in_time { ReadsInTime S.remaining S.failures S.MayRead depth source.old
        (outside (S.remaining source.old) (W.contents writer.old) (N.shelf store.old)) }
    // Each line was answered by a step of the machine, up to the end of the script; or a read or a
    // write failed, or there was not enough memory to start.
    ensures comes_to { let before
        = outside (S.remaining source.old) (W.contents writer.old) (N.shelf store.old) in
        let after = outside (S.remaining source.new) (W.contents writer.new) (N.shelf store.new) in
        ComesTo depth before after result }
    // If there was not enough memory to start, nothing was read, written or stored.
    ensures no_memory { IsErrOf result RunFault.Memory →
        (source.new ≡ source.old) × (writer.new ≡ writer.old) × (store.new ≡ store.old) }
    // No read has failed.
    ensures reads_well { OnOk result (S.failures source.new ≡ S.failures source.old) }
    // There are at most this many reads.
    ensures reads { RisesAtMost (S.reads source.old) (S.reads source.new) (2 ^ 32) }
    // A read fault means that a read failed, or that there were as many reads as there may be.
    ensures read_fault { IsErrOf result RunFault.Read →
        RisesBy (S.failures source.old) (S.failures source.new) 1
        ⊎ RisesBy (S.reads source.old) (S.reads source.new) (2 ^ 32) }
    ensures counts { IfOk result (λ summary. summary.accepted + summary.refused < 2 ^ 49) }
{
    let limits = Limits {
        depth,
        reads: MAX_READS,
        size: READ_SIZE,
    };
    run_within(alloc, source, writer, store, limits)
}

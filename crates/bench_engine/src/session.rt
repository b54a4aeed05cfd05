//! What a run keeps between two reads: the state, and the line that is being read.
ghost use Rattle.std.specs.Prelude.{◌≡◌, ◌≤◌, ◌<◌, [], List, ℕ, length, IfOk, nat_eq, ◌+◌, ◌^◌};
ghost use Rattle.bench_engine.specs.Words.{position};

use crate::line::HeldLine;
use crate::printing::send_answer;
use crate::reply_text::ReplyText;
use array_print::WriteFault;
use name_store::Bench;
use npy_files::NpyStore;
use std::alloc::{AllocError, Global};
use std::io::Write;

/// The outcome of a whole run: how many commands were accepted and how many refused, and the bench
/// after the last command.
#[derive(Drop)]
pub struct Summary {
    pub accepted: u64,
    pub refused: u64,
    pub bench: Bench,
}

/// The state of a run: the bench, the line that is being read, and the counts so far. `feed` takes
/// bytes as they come, and `end` says that no more will come.
#[derive(Drop)]
pub struct Session {
    bench: Bench,
    line: HeldLine,
    out: ReplyText,
    accepted: u64,
    refused: u64,
}

impl Session {
    ghost use Rattle.bench_engine.specs.Steps.{world};
    ghost use Rattle.bench_engine.specs.Headline.{IsUnbroken};
    ghost use Rattle.bench_engine.specs.Sessions.{HoldsPiece, Feeds, Ends, IsNew};
    ghost use Rattle.bench_engine.specs.inside.Sessions.{TellsHeld};

    /// Answers the line, begins the next one, and sends the reply.
    fn finish_line<W: Write, N: NpyStore>(
        &mut self,
        writer: &mut W,
        store: &mut N,
    ) -> Result<(), WriteFault>
        requires few { self.old.accepted + self.old.refused < 2 ^ 50 }
        ensures next { HoldsPiece self.new.line [] }
        ensures few { self.new.accepted + self.new.refused
            ≤ self.old.accepted + self.old.refused + 1 }
        ensures told { TellsHeld (world self.old.bench.state (N.shelf store.old))
            (world self.new.bench.state (N.shelf store.new)) (W.contents writer.old)
            (W.contents writer.new) self.old self.new result }
    {
        let line = self.line.line();
        let sent = send_answer(&mut self.bench, writer, store, line, &mut self.out);
        self.line.clear();
        let answered = sent?;
        let Some(accepted) = answered else {
            return Ok(());
        };
        if accepted {
            self.accepted += 1;
        } else {
            self.refused += 1;
        }
        self.out.send_line(writer)
    }

    /// Takes the next bytes of the script. After `Ok`, each line that a newline ended is answered,
    /// and its reply is written.
    pub fn feed<W: Write, N: NpyStore>(
        &mut self,
        writer: &mut W,
        store: &mut N,
        bytes: &[u8],
    ) -> Result<(), WriteFault>
        requires few { self.old.accepted + self.old.refused + length bytes.now < 2 ^ 50 }
        ensures few { self.new.accepted + self.new.refused
            ≤ self.old.accepted + self.old.refused + length bytes.now }
        // The part of a line that is held is complete, or known to be too long.
        ensures told { (held : List ℕ) → IsUnbroken held → HoldsPiece self.old.line held
            → Feeds (N.shelf store.old) (N.shelf store.new) (W.contents writer.old)
            (W.contents writer.new) held bytes.now self.old self.new result }
    {
        let mut rest = bytes;
        while let Some(end) = newline(rest) {
            self.line.hold(&rest[..end]);
            self.finish_line(writer, store)?;
            rest = &rest[end + 1..];
        }
        self.line.hold(rest);
        Ok(())
    }

    /// An empty bench that keeps `depth` earlier states. All memory that a run needs for itself is
    /// allocated here.
    pub fn new(alloc: Global, depth: usize) -> Result<Session, AllocError>
        requires { depth ≤ 64 }
        ensures { IfOk result (IsNew depth) }
    {
        let line = HeldLine::new(alloc)?;
        let out = ReplyText::new(alloc)?;
        Ok(Session {
            bench: Bench::try_new(alloc, depth)?,
            line,
            out,
            accepted: 0,
            refused: 0,
        })
    }

    /// Answers the last line if no newline ended it.
    pub fn end<W: Write, N: NpyStore>(
        &mut self,
        writer: &mut W,
        store: &mut N,
    ) -> Result<(), WriteFault>
        requires few { self.old.accepted + self.old.refused < 2 ^ 50 }
        ensures few { self.new.accepted + self.new.refused
            ≤ self.old.accepted + self.old.refused + 1 }
        // The next line has not begun.
        ensures next { HoldsPiece self.new.line [] }
        ensures told { (held : List ℕ) → IsUnbroken held → HoldsPiece self.old.line held
            → Ends (N.shelf store.old) (N.shelf store.new) (W.contents writer.old)
            (W.contents writer.new) held self.old self.new result }
    {
        if self.line.is_empty() {
            return Ok(());
        }
        self.finish_line(writer, store)
    }

    /// The outcome of the run.
    pub fn into_summary(self) -> Summary
        ensures bench { result.bench ≡ self.bench }
        ensures accepted { result.accepted ≡ self.accepted }
        ensures refused { result.refused ≡ self.refused }
    {
        Summary {
            accepted: self.accepted,
            refused: self.refused,
            bench: self.bench,
        }
    }
}

/// The place of the first newline.
fn newline(bytes: &[u8]) -> Option<usize>
    ensures { result ≡ position (λ b. nat_eq b 10) bytes.now }
{
    bytes.iter().position(|byte| *byte == b'\n')
}

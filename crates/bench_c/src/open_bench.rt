//! A bench with its files in memory, and the reply to its last line.
ghost use Rattle.std.specs.Prelude.{◌≤◌, ◌++◌, IfOk};
ghost use Rattle.bench_c.specs.Benches.{IsJustOpened, AnswersAsMachine, PutsFile};

use crate::status::Status;
use bench_engine::{ReplyText, answer};
use name_store::Bench;
use npy_files::{MAX_FILE, MemStore, NpyStore, StoreFault};
use std::alloc::{AllocError, Global};

/// A bench with its files in memory, and the reply to its last line.
#[derive(Drop)]
pub struct OpenBench {
    pub(crate) bench: Bench,
    pub(crate) files: MemStore,
    pub(crate) reply: ReplyText,
}

impl OpenBench {
    /// A bench that keeps up to `depth` earlier states, without names and files.
    pub fn new(alloc: Global, depth: usize) -> Result<OpenBench, AllocError>
        requires { depth ≤ 64 }
        ensures { IfOk result (IsJustOpened depth) }
    {
        let reply = ReplyText::new(alloc)?;
        Ok(OpenBench {
            bench: Bench::try_new(alloc, depth)?,
            files: MemStore::new(alloc, MAX_FILE),
            reply,
        })
    }

    /// Answers a line, given without its newline.
    pub fn answer(&mut self, line: &[u8]) -> Status
        ensures { AnswersAsMachine self.old line.now self.new result }
    {
        match answer(&mut self.bench, &mut self.files, line, &mut self.reply) {
            None => Status::Silent,
            Some(true) => Status::Done,
            Some(false) => Status::Refused,
        }
    }

    /// Puts a file where `load` finds it, over the one with this name if there is one. Its bytes
    /// are `front`, and after them `items`.
    pub fn put(&mut self, alloc: Global, name: &[u8], front: &[u8], items: &[u8]) -> Status
        ensures { PutsFile self.old name.now (front.now ++ items.now) self.new result }
    {
        if name.is_empty() {
            return Status::Invalid;
        }
        match self.files.write_parts(alloc, name, front, items) {
            Ok(()) => Status::Done,
            Err(StoreFault::TooLong) => Status::TooLong,
            Err(_) => Status::NoMemory,
        }
    }
}

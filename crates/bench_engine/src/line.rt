//! The line that is being read.
ghost use Rattle.std.specs.Prelude.{◌≡◌, ◌≤◌, ◌++◌, [], List, ℕ, length, vec_capacity, IfOk, ◌&&◌, nat_eq, not};

use std::alloc::{AllocError, Global};

/// The most bytes of a line.
pub const MAX_LINE_LEN: usize = 65_536;

/// A line that was read, or only the fact that it is too long.
#[derive(Clone, Copy)]
pub enum Line<'a> {
    Held(&'a [u8]),
    TooLong,
}

/// The part of a line that was read so far, or the fact that it is too long already.
#[derive(Drop)]
pub struct HeldLine {
    bytes: Vec<u8>,
    is_long: bool,
    ghost room: { 65537 ≤ vec_capacity bytes },
}

impl HeldLine {
    ghost use Rattle.bench_engine.specs.Headline.{trimmed, meaning_of};
    ghost use Rattle.bench_engine.specs.inside.ReadLines.{meaning_of_read};
    ghost use Rattle.bench_engine.specs.Sessions.{HoldsPiece};

    /// An empty line, with room for a longest line and a carriage return.
    pub fn new(alloc: Global) -> Result<HeldLine, AllocError>
        ensures { IfOk result (λ line. HoldsPiece line []) }
    {
        let bytes = Vec::with_capacity(alloc, MAX_LINE_LEN + 1)?;
        Ok(HeldLine {
            bytes,
            is_long: false,
        })
    }

    /// Adds bytes to the line.
    pub fn hold(&mut self, more: &[u8])
        ensures { (piece : List ℕ) → HoldsPiece self.old piece
            → HoldsPiece self.new (piece ++ more.now) }
    {
        let left = (MAX_LINE_LEN + 1).saturating_sub(self.bytes.len());
        if more.len() > left {
            self.is_long = true;
        } else {
            self.bytes.extend_from_slice(more).unwrap();
        }
    }

    /// Whether no byte was read yet.
    pub fn is_empty(&self) -> bool
        ensures { result ≡ (nat_eq (length self.now.bytes.items) 0 && not self.now.is_long) }
    {
        self.bytes.is_empty() && !self.is_long
    }

    /// The line, without a carriage return at its end.
    pub fn line(&self) -> Line<'_>
        ensures { (piece : List ℕ) → HoldsPiece self.now piece
            → meaning_of_read result ≡ meaning_of (trimmed piece) }
    {
        if self.is_long {
            return Line::TooLong;
        }
        let bytes = self.bytes.as_slice();
        Line::Held(bytes.strip_suffix(b"\r").unwrap_or(bytes))
    }

    /// Begins the next line.
    pub fn clear(&mut self)
        ensures { HoldsPiece self.new [] }
    {
        self.bytes.clear();
        self.is_long = false;
    }
}

//! Readers that give little or fail, one that counts its reads, and writers that take little.
ghost use Rattle.std.specs.Prelude.{None, Some};

use bench_engine::ScriptSource;
use std::io;
use std::io::{Read, Write};

/// Gives a script in pieces of at most so many bytes, and fails at a read, counted from 0.
#[derive(Drop)]
pub struct Pieces<'a> {
    rest: &'a [u8],
    most: usize,
    left: Option<usize>,
}

impl<'a> Read for Pieces<'a> {
    fn read(&mut self, buf: &mut [u8]) -> io::Result<usize> {
        if self.left == Some(0) {
            return Err(io::Error::from(io::ErrorKind::BrokenPipe));
        }
        self.left = self.left.map(|n| n.saturating_sub(1));
        let count = self.rest.len().min(self.most).min(buf.len());
        let (piece, rest) = self.rest.split_at(count);
        buf[..count].copy_from_slice(piece);
        self.rest = rest;
        Ok(count)
    }
}

pub fn in_pieces(script: &[u8], most: usize) -> Pieces<'_> {
    Pieces {
        rest: script,
        most,
        left: None,
    }
}

/// The script in pieces of at most `most` bytes; after so many reads, the next one fails.
pub fn failing(script: &[u8], most: usize, reads: usize) -> Pieces<'_> {
    Pieces {
        rest: script,
        most,
        left: Some(reads),
    }
}

/// Gives a script, and counts the reads.
#[derive(Drop)]
pub struct Counted<'a> {
    rest: &'a [u8],
    reads: u64,
}

impl<'a> Counted<'a> {
    pub fn new(script: &'a [u8]) -> Counted<'a> {
        Counted {
            rest: script,
            reads: 0,
        }
    }

    pub fn reads(&self) -> u64 {
        self.reads
    }
}

impl<'a> ScriptSource for Counted<'a> {
    ghost remaining = { λ counted. Some counted.rest.now };

    ghost reads = { λ counted. Some counted.reads };

    ghost failures = { λ _. None };

    ghost MayRead = { λ _ _. Unit {0} };

    fn read_some<W: Write>(&mut self, _writer: &W, chunk: &mut [u8]) -> Option<usize> {
        let reads = self.reads.checked_add(1)?;
        let count = self.rest.read(chunk).ok()?;
        self.reads = reads;
        Some(count)
    }
}

/// Takes so many bytes in all, and then fails. It takes no memory.
#[derive(Drop)]
pub struct Room {
    bytes: [u8; 256],
    len: usize,
    most: usize,
}

impl Write for Room {
    fn write(&mut self, buf: &[u8]) -> io::Result<usize> {
        let most = self.most.min(256);
        let left = most.saturating_sub(self.len);
        if left == 0 {
            return Err(io::Error::from(io::ErrorKind::WriteZero));
        }
        let count = buf.len().min(left);
        let end = self.len.saturating_add(count);
        if end > 256 || self.len > end {
            return Err(io::Error::from(io::ErrorKind::WriteZero));
        }
        self.bytes[self.len..end].copy_from_slice(&buf[..end - self.len]);
        let written = end - self.len;
        self.len = end;
        Ok(written)
    }

    fn flush(&mut self) -> io::Result<()> {
        Ok(())
    }
}

pub fn room_for(most: usize) -> Room {
    Room {
        bytes: [0; 256],
        len: 0,
        most,
    }
}

pub fn bytes_in(room: &Room) -> &[u8] {
    &room.bytes[..room.len.min(256)]
}

//! Repeats reads and writes that a signal interrupts.
ghost use Rattle.std.specs.Prelude.{◌≡◌, ◌≢◌, IfErr};
ghost use Rattle.std.specs.IoError.{error_kind};
ghost use Rattle.std.specs.Io.{ReadsAtMost, WritesAtMost};
ghost use Rattle.std.specs.Io.KnownBytes.{ReadConsumes, WriteAppends};

use std::io::{Error, ErrorKind, Read, Result, Write};

/// A reader or a writer whose calls are repeated if a signal interrupts them.
#[derive(Drop)]
pub struct Retrying<T> {
    inner: T,
}

impl<T> Retrying<T> {
    pub fn new(inner: T) -> Retrying<T>
        ensures { result.inner ≡ inner }
    {
        Retrying { inner }
    }
}

impl<R: Read> Read for Retrying<R> {
    ghost remaining = { λ reader. R.remaining reader.inner };

    fn read(&mut self, chunk: &mut [u8]) -> Result<usize>
        ensures bound { ReadsAtMost result chunk.new }
        ensures bytes { ReadConsumes (R.remaining self.old.inner)
            (R.remaining self.new.inner) result chunk.new }
        ensures again { IfErr result (λ error. error_kind error ≢ ErrorKind.Interrupted) }
    {
        for _ in 0..u64::MAX {
            match self.inner.read(chunk) {
                Err(error) if error.kind() == ErrorKind::Interrupted => {}
                told => return told,
            }
        }
        Err(Error::from(ErrorKind::TimedOut))
    }
}

impl<W: Write> Write for Retrying<W> {
    ghost contents = { λ writer. W.contents writer.inner };

    fn write(&mut self, bytes: &[u8]) -> Result<usize>
        ensures bound { WritesAtMost result bytes.now }
        ensures bytes { WriteAppends (W.contents self.old.inner)
            (W.contents self.new.inner) result bytes.now }
        ensures again { IfErr result (λ error. error_kind error ≢ ErrorKind.Interrupted) }
    {
        for _ in 0..u64::MAX {
            match self.inner.write(bytes) {
                Err(error) if error.kind() == ErrorKind::Interrupted => {}
                told => return told,
            }
        }
        Err(Error::from(ErrorKind::TimedOut))
    }

    fn flush(&mut self) -> Result<()> {
        self.inner.flush()
    }
}

//! The status that a call returns.
ghost use Rattle.std.specs.Prelude.{◌≡◌};
ghost use Rattle.bench_c.specs.Statuses.{code_of};

/// The outcome of a call.
#[derive(Clone, Copy)]
pub enum Status {
    /// The call succeeded. If it was a line, its command was accepted.
    Done,
    /// The line was refused.
    Refused,
    /// The line asks for nothing.
    Silent,
    /// There was not enough memory, and neither names nor files have changed.
    NoMemory,
    /// The file would have more bytes than a file may have.
    TooLong,
    /// There is no such file.
    NoFile,
    /// There is no room for all bytes, and none was written.
    NoRoom,
    /// An argument is invalid.
    Invalid,
}

impl Status {
    /// The number of the status in C.
    pub fn code(self) -> u8
        ensures { result ≡ code_of self }
    {
        self as u8
    }
}

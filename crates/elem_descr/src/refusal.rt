//! Refusals, with their codes and texts.
ghost use Rattle.std.specs.Prelude.{◌≡◌, ◌≤◌, length};
ghost use Rattle.elem_descr.specs.Clauses.{OutOfMemory};

use std::alloc::{AllocError, AllocFailed};
use std::error::Error;
use std::fmt;

/// Why a command is refused, in the order of the codes. The message is the code and the text, as in
/// the reply.
#[derive(Clone, Copy, Debug, PartialEq, Eq)]
pub enum Refusal {
    LineTooLong,
    ByteNotAllowed,
    Syntax,
    BadDescriptor,
    DescriptorLeftOut,
    UnknownName,
    TooManyNames,
    TooManyAxes,
    TooLarge,
    TooManyIndices,
    IndexOutOfRange,
    ZeroStep,
    MaskLengths,
    NotAnIndexType,
    IndexShapes,
    ShapesDoNotBroadcast,
    BadAxis,
    BadReshape,
    NoSuchField,
    ReadOnly,
    NeedsFloats,
    NotForThisKind,
    LiteralOutOfRange,
    NotSameKind,
    EmptyReduction,
    NothingToUndo,
    StoreFault,
    BadMagic,
    BadVersion,
    BadHeader,
    Truncated,
    NumberOfValues,
    NoSuchCast,
    NoSuchFile,
    FileTooLong,
    OutOfMemory,
}

impl Refusal {
    ghost use Rattle.elem_descr.specs.RefusalTexts.{refusal_text};

    /// The reply to a line that is refused for this reason: `no`, the code and the text, without a
    /// newline.
    pub fn reply(self) -> &'static str
        ensures text { result.now ≡ refusal_text self }
        ensures short { length result.now ≤ 64 }
    {
        match self {
            Refusal::LineTooLong => "no E01 line too long",
            Refusal::ByteNotAllowed => "no E02 byte not allowed",
            Refusal::Syntax => "no E03 syntax",
            Refusal::BadDescriptor => "no E04 bad descriptor",
            Refusal::DescriptorLeftOut => "no E05 descriptor left out",
            Refusal::UnknownName => "no E06 unknown name",
            Refusal::TooManyNames => "no E07 too many names",
            Refusal::TooManyAxes => "no E08 too many axes",
            Refusal::TooLarge => "no E09 too large",
            Refusal::TooManyIndices => "no E10 too many indices",
            Refusal::IndexOutOfRange => "no E11 index out of range",
            Refusal::ZeroStep => "no E12 zero step",
            Refusal::MaskLengths => "no E13 mask lengths",
            Refusal::NotAnIndexType => "no E14 not an index type",
            Refusal::IndexShapes => "no E15 index shapes",
            Refusal::ShapesDoNotBroadcast => "no E16 shapes do not broadcast",
            Refusal::BadAxis => "no E17 bad axis",
            Refusal::BadReshape => "no E18 bad reshape",
            Refusal::NoSuchField => "no E19 no such field",
            Refusal::ReadOnly => "no E20 read-only",
            Refusal::NeedsFloats => "no E21 needs floats",
            Refusal::NotForThisKind => "no E22 not for this kind",
            Refusal::LiteralOutOfRange => "no E23 literal out of range",
            Refusal::NotSameKind => "no E24 not same kind",
            Refusal::EmptyReduction => "no E25 empty reduction",
            Refusal::NothingToUndo => "no E26 nothing to undo",
            Refusal::StoreFault => "no E27 store fault",
            Refusal::BadMagic => "no E28 bad magic",
            Refusal::BadVersion => "no E29 bad version",
            Refusal::BadHeader => "no E30 bad header",
            Refusal::Truncated => "no E31 truncated",
            Refusal::NumberOfValues => "no E32 number of values",
            Refusal::NoSuchCast => "no E33 no such cast",
            Refusal::NoSuchFile => "no E34 no such file",
            Refusal::FileTooLong => "no E35 file too long",
            Refusal::OutOfMemory => "no E40 out of memory",
        }
    }
}

impl fmt::Display for Refusal {
    fn fmt<W: fmt::Write>(&self, f: &mut fmt::Formatter<W>) -> fmt::Result {
        f.write_str(self.reply().strip_prefix("no ").unwrap_or_default())
    }
}

impl Error for Refusal {}

impl From<AllocError> for Refusal {
    ghost from_gives = { λ _ e. e ≡ OutOfMemory };

    fn from(_error: AllocError) -> Refusal {
        Refusal::OutOfMemory
    }
}

impl<T: Drop> From<AllocFailed<T>> for Refusal {
    ghost from_gives = { λ _ e. e ≡ OutOfMemory };

    fn from(_error: AllocFailed<T>) -> Refusal {
        Refusal::OutOfMemory
    }
}

//! Texts that a command keeps as they are written.
ghost use Rattle.std.specs.Prelude.{length, ◌≡◌, ◌≤◌};
ghost use Rattle.script_lang.specs.Words.{refusal_text};

use crate::short_list::ShortList;
use elem_descr::Refusal;
use smallvec::SmallVec;
use std::alloc::Global;
use std::marker::Model;

/// The maximum number of bytes of a file's name.
pub const MAX_FILE_NAME_LEN: usize = 64;

/// A text as it is written in the script: of a descriptor, or between the quotation marks of
/// `field`.
pub type Text = ShortList<u8, 32>;

/// The name of a file: at most 64 bytes, which take no memory of their own.
#[derive(Drop)]
pub struct FileName {
    bytes: SmallVec<u8, 64>,
}

impl Model for FileName {
    ghost use Rattle.std.specs.Prelude.{List, ℕ, ◌≤◌, length};

    ghost Value = { List ℕ };

    ghost view = { λ f. f.bytes.items };

    ghost invariant = { λ f. length f.bytes.items ≤ 64 };
}

impl FileName {
    /// A copy of the bytes.
    pub fn from_slice(alloc: Global, bytes: &[u8]) -> FileName
        requires { length bytes.now ≤ 64 }
        ensures { result ≡ bytes.now }
    {
        FileName {
            bytes: SmallVec::from_slice(alloc, bytes).unwrap(),
        }
    }

    pub fn as_slice(&self) -> &[u8]
        ensures value { result.now ≡ self.now }
        ensures short { length result.now ≤ 64 }
    {
        self.bytes.as_slice()
    }
}

/// The reply to a line that is refused: `no`, the code and the text, without a newline.
pub fn word(refusal: Refusal) -> &'static [u8]
    ensures text { result.now ≡ refusal_text refusal }
    ensures short { length result.now ≤ 64 }
{
    refusal.reply().as_bytes()
}

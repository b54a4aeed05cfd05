//! The bytes of a file before its items.
ghost use Rattle.std.specs.Prelude.{◌≡◌, ◌≤◌, ◌<◌, ◌+◌, ◌^◌, ◌⊎◌, ◌∷◌, ◌++◌, [], length, replicate, IfOk, OnOk};
ghost use Rattle.npy_format.specs.Clauses.{little_bytes, magic, spaces_after, padded_text, with_length, written_header};

use crate::items::pad;
use byteorder::{ByteOrder, LittleEndian};
use std::alloc::{AllocError, Global};

/// The maximum length of a text in version 1.0.
const MAX_SHORT_TEXT: usize = 65_525;

/// The number of spaces before the newline that pad everything, including `bytes` bytes before
/// them, to a multiple of 64 bytes.
fn spaces_after(bytes: usize) -> usize
    requires { bytes + 1 < 2 ^ 64 }
    ensures value { result ≡ spaces_after bytes }
    ensures few { result ≤ 64 }
{
    (64 - (bytes + 1) % 64) % 64
}

/// The two or four lowest bytes of a length, lowest byte first.
#[tactic(auto, using(crate::proofs::FileLaws::low_bytes))]
fn push_length(out: &mut Vec<u8>, width: usize, len: usize) -> Result<(), AllocError>
    requires { (width ≡ 2) ⊎ (width ≡ 4) }
    ensures { OnOk result (out.new.items ≡ out.old.items ++ little_bytes width len) }
{
    let mut field = [0u8; 8];
    LittleEndian::write_u64(&mut field, len as u64);
    out.extend_from_slice(field.as_slice().split_at(width).0)
}

/// The bytes of a version: the magic bytes, the version, the length of the header in `width` bytes,
/// and the header, which is the text, spaces and a newline.
fn push_header(out: &mut Vec<u8>, version: u8, width: usize, text: &[u8]) -> Result<(), AllocError>
    requires width { (width ≡ 2) ⊎ (width ≡ 4) }
    requires short { length text.now < 2 ^ 63 }
    ensures { OnOk result
        (out.new.items ≡ out.old.items
        ++ (magic ++ (version ∷ (0 ∷ with_length width (padded_text (8 + width) text.now))))) }
{
    let spaces = spaces_after(8 + width + text.len());
    out.extend_from_slice(b"\x93NUMPY")?;
    out.push(version)?;
    out.push(0)?;
    push_length(out, width, text.len() + spaces + 1)?;
    out.extend_from_slice(text)?;
    let len = out.len() + spaces;
    pad(out, len, b' ')?;
    out.push(b'\n')?;
    Ok(())
}

/// The bytes of a file before its items: version 1.0, or 2.0 if the text is too long for that.
pub fn file_header(alloc: Global, text: &[u8]) -> Result<Vec<u8>, AllocError>
    requires { length text.now < 2 ^ 63 }
    ensures { IfOk result (λ out. out.items ≡ written_header text.now) }
{
    let mut out = Vec::new(alloc);
    if text.len() > MAX_SHORT_TEXT {
        push_header(&mut out, 2, 4, text)?;
        return Ok(out);
    }
    push_header(&mut out, 1, 2, text)?;
    Ok(out)
}

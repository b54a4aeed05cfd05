//! The text of a single value.
ghost use Rattle.std.specs.Prelude.{◌≡◌, ◌<◌, length};
ghost use Rattle.array_print.specs.Clauses.{Pushes, size, decode, without_nuls, hex_digit, escaped, stands_for_itself, byte_string_text, leaf_text, right_justified, IsWidth};

use crate::bands::{Room, WriteFault, push, push_byte};
use crate::padding::push_padded;
use elem_descr::{Scalar, num_read};
use itoa::Buffer;
use std::io::Write;

/// A hexadecimal digit, in lower case.
fn hex_digit(digit: u8) -> u8
    requires { digit < 16 }
    ensures { result ≡ hex_digit digit }
{
    b"0123456789abcdef"[usize::from(digit)]
}

/// Whether a byte is printed as it is.
fn stands_for_itself(byte: u8) -> bool
    ensures { result ≡ stands_for_itself byte }
{
    matches!(byte, b' '..=b'~') && !b"'\\".contains(&byte)
}

/// Appends a byte of a byte string: as itself, or escaped.
#[inline(always)]
fn push_escaped<W: Write>(writer: &mut W, out: &mut Room, byte: u8) -> Result<(), WriteFault>
    ensures { Pushes (escaped byte) result (W.contents writer.old) (W.contents writer.new)
        out.old out.new }
{
    if stands_for_itself(byte) {
        return push_byte(writer, out, byte);
    }
    let escape = [b'\\', b'x', hex_digit(byte / 16), hex_digit(byte % 16)];
    push(writer, out, &escape)
}

/// A byte string without the NULs at its end.
fn without_nuls(bytes: &[u8]) -> &[u8]
    ensures { result.now ≡ without_nuls bytes.now }
{
    let mut len = bytes.len();
    while len > 0 && bytes[len - 1] == 0 {
        len -= 1;
    }
    &bytes[..len]
}

/// Appends the text of a byte string, without the NULs at its end.
fn push_byte_string<W: Write>(
    writer: &mut W,
    out: &mut Room,
    bytes: &[u8],
) -> Result<(), WriteFault>
    ensures { Pushes (byte_string_text (without_nuls bytes.now)) result (W.contents writer.old)
        (W.contents writer.new) out.old out.new }
{
    push(writer, out, b"b'")?;
    for byte in without_nuls(bytes) {
        push_escaped(writer, out, *byte)?;
    }
    push_byte(writer, out, b'\'')
}

/// Appends the text of a value, padded on the left to a width.
pub fn push_value<W: Write>(
    writer: &mut W,
    out: &mut Room,
    scalar: &Scalar,
    width: usize,
    bytes: &[u8],
) -> Result<(), WriteFault>
    requires width { IsWidth scalar.now width }
    requires whole { length bytes.now ≡ size scalar.now }
    ensures { Pushes (right_justified width (leaf_text scalar.now (decode scalar.now bytes.now)))
        result (W.contents writer.old) (W.contents writer.new) out.old out.new }
{
    match scalar {
        Scalar::Bool => {
            let is_false = num_read(*scalar, bytes) == 0;
            let text = if is_false { "False" } else { "True" };
            push_padded(writer, out, text, width)
        }
        Scalar::Byte { .. } | Scalar::Int { .. } => {
            let value = num_read(*scalar, bytes);
            push_padded(writer, out, Buffer::new().format(value), width)
        }
        Scalar::Bytes(_) => push_byte_string(writer, out, bytes),
    }
}

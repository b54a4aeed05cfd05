//! Spaces, separators, and texts padded to a width.
ghost use Rattle.std.specs.Prelude.{◌≡◌, ◌≤◌, codes, replicate};
ghost use Rattle.array_print.specs.Clauses.{Pushes, separator, right_justified, record_end, lead};

use crate::bands::{Room, WriteFault, push, push_byte};
use std::io::Write;

/// Appends `n` copies of a byte.
fn push_repeated<W: Write>(
    writer: &mut W,
    out: &mut Room,
    byte: u8,
    n: usize,
) -> Result<(), WriteFault>
    ensures { Pushes (replicate n byte) result (W.contents writer.old) (W.contents writer.new)
        out.old out.new }
{
    for _i in 0..n {
        push_byte(writer, out, byte)?;
    }
    Ok(())
}

/// Appends `n` copies of a byte at once.
pub fn push_few<W: Write>(
    writer: &mut W,
    out: &mut Room,
    byte: u8,
    n: usize,
) -> Result<(), WriteFault>
    requires { n ≤ 65 }
    ensures { Pushes (replicate n byte) result (W.contents writer.old) (W.contents writer.new)
        out.old out.new }
{
    if n == 1 {
        return push_byte(writer, out, byte);
    }
    let copies = [byte; 65];
    push(writer, out, &copies[..n])
}

/// Appends what comes before block `k` of an axis that has `inner` axes inside it: nothing before
/// the first.
pub fn push_lead<W: Write>(
    writer: &mut W,
    out: &mut Room,
    k: usize,
    brackets: usize,
    inner: usize,
) -> Result<(), WriteFault>
    requires brackets { brackets ≤ 64 }
    requires inner { inner ≤ 64 }
    ensures { Pushes (lead k (separator brackets inner)) result (W.contents writer.old)
        (W.contents writer.new) out.old out.new }
{
    if k == 0 {
        return push(writer, out, b"");
    }
    push_separator(writer, out, brackets, inner)
}

/// Appends what comes between two blocks of an axis that has `inner` axes inside it.
fn push_separator<W: Write>(
    writer: &mut W,
    out: &mut Room,
    brackets: usize,
    inner: usize,
) -> Result<(), WriteFault>
    requires brackets { brackets ≤ 64 }
    requires inner { inner ≤ 64 }
    ensures { Pushes (separator brackets inner) result (W.contents writer.old)
        (W.contents writer.new) out.old out.new }
{
    if inner == 0 {
        return push_byte(writer, out, b' ');
    }
    push_few(writer, out, b'\n', inner)?;
    push_few(writer, out, b' ', brackets + 1)
}

/// Appends a text, padded on the left to a width.
#[inline(always)]
pub fn push_padded<W: Write>(
    writer: &mut W,
    out: &mut Room,
    text: &str,
    width: usize,
) -> Result<(), WriteFault>
    ensures { Pushes (right_justified width text.now) result (W.contents writer.old)
        (W.contents writer.new) out.old out.new }
{
    let blanks = width.saturating_sub(text.len());
    push_repeated(writer, out, b' ', blanks)?;
    push(writer, out, text.as_bytes())
}

/// What comes before value `k` of a record: nothing before the first.
pub fn comma(k: usize) -> &'static [u8]
    ensures { result.now ≡ lead k (codes ", ") }
{
    if k == 0 { b"" } else { b", " }
}

/// Appends what follows the values of a record that has `values` of them.
pub fn push_record_end<W: Write>(
    writer: &mut W,
    out: &mut Room,
    values: usize,
) -> Result<(), WriteFault>
    ensures { Pushes (record_end values) result (W.contents writer.old) (W.contents writer.new)
        out.old out.new }
{
    if values == 1 {
        return push(writer, out, b",)");
    }
    push_byte(writer, out, b')')
}

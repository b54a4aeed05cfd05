//! Writes the text of a header.
ghost use Rattle.std.specs.Prelude.{◌≡◌, ◌++◌, ◌&&◌, nat_eq, IfOk, OnOk};
ghost use Rattle.npy_format.specs.Clauses.{quoted, opened_entry, gap, entry_separator, separated, in_brackets, entries, written_descr, written_truth, written_text};

use elem_descr::{Descr, Record, typestr_write};
use itoa::Buffer;
use shape_strides::Shape;
use std::alloc::{AllocError, Global};

/// A string between apostrophes.
fn push_quoted(text: &mut Vec<u8>, bytes: &[u8]) -> Result<(), AllocError>
    ensures { OnOk result (text.new.items ≡ text.old.items ++ quoted bytes.now) }
{
    text.push(b'\'')?;
    text.extend_from_slice(bytes)?;
    text.push(b'\'')?;
    Ok(())
}

/// An entry, up to its type.
fn push_name(text: &mut Vec<u8>, is_first: bool, name: &[u8]) -> Result<(), AllocError>
    ensures { OnOk result
        (text.new.items ≡ text.old.items ++ (entry_separator is_first ++ opened_entry name.now)) }
{
    if !is_first {
        text.extend_from_slice(b", ")?;
    }
    text.push(b'(')?;
    push_quoted(text, name)?;
    text.extend_from_slice(b", ")
}

/// The entry for a gap of `bytes` bytes, if there is one. Returns whether the next entry is the
/// first one.
fn push_gap(text: &mut Vec<u8>, is_first: bool, bytes: usize) -> Result<bool, AllocError>
    ensures written { OnOk result
        (text.new.items ≡ text.old.items ++ separated is_first (gap bytes)) }
    ensures next { IfOk result (λ next. next ≡ (is_first && nat_eq bytes 0)) }
{
    if bytes == 0 {
        return Ok(is_first);
    }
    let mut buffer = Buffer::new();
    push_name(text, is_first, b"")?;
    text.extend_from_slice(b"'|V")?;
    text.extend_from_slice(buffer.format(bytes).as_bytes())?;
    text.extend_from_slice(b"')")?;
    Ok(false)
}

/// The list of the fields, and of the gaps before each and after the last.
#[cycle(written)]
fn push_record(alloc: Global, text: &mut Vec<u8>, whole: &Record) -> Result<(), AllocError>
    ensures { OnOk result
        (text.new.items ≡ text.old.items
        ++ in_brackets (entries 0 whole.now.fields whole.now.size)) }
{
    let size = whole.size();
    let mut end = 0;
    let mut is_first = true;
    text.push(b'[')?;
    for field in whole.fields() {
        let next = push_gap(text, is_first, field.at - end)?;
        push_name(text, next, field.name.as_slice())?;
        push_descr(alloc, text, &field.descr)?;
        text.push(b')')?;
        is_first = false;
        end = field.at + field.descr.size();
    }
    push_gap(text, is_first, size - end)?;
    text.push(b']')?;
    Ok(())
}

/// An element type.
#[cycle(written)]
fn push_descr(alloc: Global, text: &mut Vec<u8>, descr: &Descr) -> Result<(), AllocError>
    ensures { OnOk result (text.new.items ≡ text.old.items ++ written_descr descr.now) }
{
    match descr {
        Descr::Scalar(scalar) => push_quoted(text, typestr_write(alloc, *scalar)?.as_slice()),
        Descr::Record(whole) => push_record(alloc, text, whole),
    }
}

fn push_truth(text: &mut Vec<u8>, truth: bool) -> Result<(), AllocError>
    ensures { OnOk result (text.new.items ≡ text.old.items ++ written_truth truth) }
{
    if truth {
        return text.extend_from_slice(b"True");
    }
    text.extend_from_slice(b"False")
}

/// The dictionary of a header.
pub fn header_text(
    alloc: Global,
    descr: &Descr,
    fortran: bool,
    shape: &Shape,
) -> Result<Vec<u8>, AllocError>
    ensures { IfOk result (λ text. text.items ≡ written_text descr.now fortran shape.now) }
{
    let mut text = Vec::new(alloc);
    text.extend_from_slice(b"{'descr': ")?;
    push_descr(alloc, &mut text, descr)?;
    text.extend_from_slice(b", 'fortran_order': ")?;
    push_truth(&mut text, fortran)?;
    text.extend_from_slice(b", 'shape': ")?;
    text.extend_from_slice(format!(in alloc; "{shape}")?.as_bytes())?;
    text.extend_from_slice(b", }")?;
    Ok(text)
}

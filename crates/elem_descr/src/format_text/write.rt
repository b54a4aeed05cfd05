//! Writes the format text of a descriptor.
ghost use Rattle.std.specs.Prelude.{◌≡◌, ◌≤◌, ◌++◌, ◌∷◌, [], OnOk, IfOk, decimal};
ghost use Rattle.elem_descr.specs.Clauses.{size, IsLegal, format, written_mark, written_letter, written_pad, written_name, written_fields, written_format};

use crate::descr::{Descr, Record};
use crate::scalar::{Order, Scalar, Width};
use itoa::Buffer;
use std::alloc::{AllocError, Global};

fn mark(scalar: &Scalar) -> u8
    ensures { result ∷ [] ≡ written_mark scalar.now }
{
    match scalar {
        Scalar::Int {
            order: Order::Big,
            ..
        } => b'>',
        _ => b'<',
    }
}

fn letter(scalar: &Scalar) -> u8
    ensures { result ∷ [] ≡ written_letter scalar.now }
{
    match scalar {
        Scalar::Bool => b'?',
        Scalar::Byte { signed: true } => b'b',
        Scalar::Byte { signed: false } => b'B',
        Scalar::Int { signed, width, .. } => match (signed, width) {
            (true, Width::Two) => b'h',
            (true, Width::Four) => b'i',
            (true, Width::Eight) => b'q',
            (false, Width::Two) => b'H',
            (false, Width::Four) => b'I',
            (false, Width::Eight) => b'Q',
        },
        Scalar::Bytes(_) => b's',
    }
}

fn push_number(text: &mut Vec<u8>, n: usize) -> Result<(), AllocError>
    ensures { OnOk result (text.new.items ≡ text.old.items ++ decimal n) }
{
    let mut buffer = Buffer::new();
    text.extend_from_slice(buffer.format(n).as_bytes())
}

fn push_pad(text: &mut Vec<u8>, bytes: usize) -> Result<(), AllocError>
    ensures { OnOk result (text.new.items ≡ text.old.items ++ written_pad bytes) }
{
    if bytes == 0 {
        return Ok(());
    }
    push_number(text, bytes)?;
    text.push(b'x')?;
    Ok(())
}

fn push_name(text: &mut Vec<u8>, name: &[u8]) -> Result<(), AllocError>
    ensures { OnOk result (text.new.items ≡ text.old.items ++ written_name name.now) }
{
    text.push(b':')?;
    text.extend_from_slice(name)?;
    text.push(b':')?;
    Ok(())
}

/// The fields, and the padding before each and after the last.
#[cycle(written)]
fn push_fields(text: &mut Vec<u8>, whole: &Record) -> Result<(), AllocError>
    ensures spelled { OnOk result (text.new.items ≡ text.old.items
        ++ written_fields 0 whole.now.fields whole.now.size) }
    ensures legal { IsLegal whole.now }
{
    let size = whole.size();
    let mut end = 0;
    for field in whole.fields() {
        push_pad(text, field.at - end)?;
        push_descr(text, &field.descr)?;
        push_name(text, field.name.as_slice())?;
        end = field.at + field.descr.size();
    }
    push_pad(text, size - end)
}

/// A member without its name.
#[cycle(written)]
fn push_descr(text: &mut Vec<u8>, descr: &Descr) -> Result<(), AllocError>
    ensures { OnOk result (text.new.items ≡ text.old.items ++ written_format descr.now) }
{
    match descr {
        Descr::Scalar(scalar) => {
            text.push(mark(scalar))?;
            if let Scalar::Bytes(len) = scalar {
                push_number(text, len.get())?;
            }
            text.push(letter(scalar))?;
            Ok(())
        }
        Descr::Record(whole) => {
            text.extend_from_slice(b"T{")?;
            push_fields(text, whole)?;
            text.push(b'}')?;
            Ok(())
        }
    }
}

/// A proof only: the written text of a descriptor reads back as that descriptor.
#[tactic(auto, using(crate::proofs::RoundTrip::reads_record_back))]
fn will_read(descr: &Descr)
    ensures { format (written_format descr.now) ≡ Ok descr.now }
{
    match descr {
        Descr::Scalar(scalar) => _ = scalar.size(),
        Descr::Record(whole) => _ = whole.size(),
    }
}

/// Writes the format text of a descriptor: each scalar with `<`, or with `>` if it is a big-endian
/// integer of two or more bytes, and each record with the names of all its fields and its padding.
pub fn format_write(alloc: Global, descr: &Descr) -> Result<Vec<u8>, AllocError>
    ensures spelled { IfOk result (λ text. text.items ≡ written_format descr.now) }
    ensures reads_back { format (written_format descr.now) ≡ Ok descr.now }
{
    will_read(descr);
    let mut text = Vec::new(alloc);
    push_descr(&mut text, descr)?;
    Ok(text)
}

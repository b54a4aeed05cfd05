//! Type strings of NumPy's array interface, and descriptors as written in a script.
ghost use Rattle.std.specs.Prelude.{IfOk, [], ◌∷◌, ◌≡◌};
ghost use Rattle.elem_descr.specs.Clauses.{descriptor, is_type_string, Gives, byte_string, letter_of, mark, number_spelled, spelling, typestr};
ghost use Rattle.elem_descr.specs.TypeStrings.{marked};

use crate::descr::Descr;
use crate::digits::{are_digits, capped_value};
use crate::format_text::read::format_read;
use crate::refusal::Refusal;
use crate::scalar::{BytesLen, MAX_ITEM_SIZE, Order, Scalar, Width};
use itoa::Buffer;
use std::alloc::{AllocError, Global};

/// The byte order of a mark at the front, and what follows the mark.
pub fn marked(text: &[u8]) -> (Order, &[u8])
    ensures { (result.0, result.1.now) ≡ marked text.now }
{
    match text {
        [b'>', rest @ ..] => (Order::Big, rest),
        [b'<' | b'|' | b'=', rest @ ..] => (Order::Little, rest),
        _ => (Order::Little, text),
    }
}

/// The bool or the integer with this spelling.
fn number_spelled(order: Order, kind: &[u8]) -> Option<Scalar>
    ensures { result ≡ number_spelled order kind.now }
{
    let (signed, width) = match kind {
        b"b1" => return Some(Scalar::Bool),
        b"i1" => return Some(Scalar::Byte { signed: true }),
        b"u1" => return Some(Scalar::Byte { signed: false }),
        b"i2" => (true, Width::Two),
        b"i4" => (true, Width::Four),
        b"i8" => (true, Width::Eight),
        b"u2" => (false, Width::Two),
        b"u4" => (false, Width::Four),
        b"u8" => (false, Width::Eight),
        _ => return None,
    };
    Some(Scalar::Int {
        signed,
        width,
        order,
    })
}

fn byte_string(digits: &[u8]) -> Result<Scalar, Refusal>
    ensures { result ≡ byte_string digits.now }
{
    if !are_digits(digits) {
        return Err(Refusal::BadDescriptor);
    }
    match capped_value(digits, MAX_ITEM_SIZE) {
        0 => Err(Refusal::DescriptorLeftOut),
        n => BytesLen::try_new(n)
            .map(Scalar::Bytes)
            .ok_or(Refusal::TooLarge),
    }
}

/// Reads a type string: an optional mark (`<`, `>`, `|` or `=`), then `b1`, `i1`, `i2`, `i4`, `i8`,
/// `u1`, `u2`, `u4`, `u8`, or `S` and a number of bytes. `>` before an integer of two or more bytes
/// means big-endian; any other mark, or none, means little-endian.
///
/// A kind of NumPy that is not supported, and a byte string of no bytes, are `DescriptorLeftOut`. A
/// byte string of more than 65,536 bytes is `TooLarge`. Every other text is `BadDescriptor`.
pub fn typestr_read(text: &[u8]) -> Result<Scalar, Refusal>
    ensures { result ≡ typestr text.now }
{
    let (order, kind) = marked(text);
    if let Some(scalar) = number_spelled(order, kind) {
        return Ok(scalar);
    }
    match kind {
        [b'S', digits @ ..] => byte_string(digits),
        [b'f' | b'c' | b'm' | b'M' | b'O' | b'U' | b'V', ..] => Err(Refusal::DescriptorLeftOut),
        _ => Err(Refusal::BadDescriptor),
    }
}

fn mark(scalar: &Scalar) -> u8
    ensures { result ∷ [] ≡ mark scalar.now }
{
    match scalar {
        Scalar::Int { order, .. } => match order {
            Order::Little => b'<',
            Order::Big => b'>',
        },
        _ => b'|',
    }
}

fn letter(scalar: &Scalar) -> u8
    ensures { result ∷ [] ≡ letter_of scalar.now }
{
    match scalar {
        Scalar::Bool => b'b',
        Scalar::Byte { signed } | Scalar::Int { signed, .. } => {
            if *signed { b'i' } else { b'u' }
        }
        Scalar::Bytes(_) => b'S',
    }
}

/// Writes the type string of a scalar: its mark, the letter of its kind, and its number of bytes.
#[tactic(auto, using(crate::specs::SpellingLaws::reads_spelling))]
pub fn typestr_write(alloc: Global, scalar: Scalar) -> Result<Vec<u8>, AllocError>
    ensures spelled { IfOk result (λ text. text.items ≡ spelling scalar) }
    ensures reads_back { typestr (spelling scalar) ≡ Ok scalar }
{
    let size = scalar.size();
    let mut buffer = Buffer::new();
    let mut text = Vec::with_capacity(alloc, 8)?;
    text.extend_from_slice(&[mark(&scalar), letter(&scalar)])?;
    text.extend_from_slice(buffer.format(size).as_bytes())?;
    Ok(text)
}

/// The letters of NumPy's kinds.
const KINDS: &[u8] = b"biuSfcmMOUV";

/// Whether, after an optional mark, the text is a kind letter before a digit, or `S` alone.
fn is_type_string(text: &[u8]) -> bool
    ensures { result ≡ is_type_string text.now }
{
    match marked(text).1 {
        [letter, digit, ..] => KINDS.contains(letter) && digit.is_ascii_digit(),
        [letter] => *letter == b'S',
        [] => false,
    }
}

/// Reads the descriptor of a script: a type string if, after an optional mark (`<`, `>`, `|` or
/// `=`), a kind letter of NumPy comes before a digit, or if it is `S` alone; otherwise a format
/// text.
#[tactic(auto, unfolding(crate::specs::DescrTexts::descriptor))]
pub fn descr_read(alloc: Global, text: &[u8]) -> Result<Descr, Refusal>
    ensures { Gives (λ descr. descr) result (descriptor text.now) }
{
    if !is_type_string(text) {
        return format_read(alloc, text);
    }
    Ok(Descr::Scalar(typestr_read(text)?))
}

//! Literals.
ghost use Rattle.std.specs.Prelude.{◌<◌, true, IfSome};
ghost use Rattle.script_lang.specs.Clauses.{byte_at, by_rule, none_or_more, row, hex_value, hex_digit_at, escape_at, text_byte_at, byte_text_at, scalar_at, record_at, literal_within, literal_at, line_end_at, literals_of, Scans, Reads, Takes, scalar_room, literal_room};

use crate::grammar::numbers::integer;
use crate::grammar::tokens::{byte, bytes_mark, is_at_end, keyword, symbol, unspaced};
use crate::literal::{ByteText, Literal, Literals, RecordLiteral, ScalarLiteral};
use elem_descr::Refusal;
use std::alloc::Global;

/// How deep the records of a literal may be nested; a record of scalars has depth 1.
const MAX_LITERAL_DEPTH: usize = 4;

/// The hexadecimal digit at the front, and what follows it.
#[tactic(auto, unfolding(crate::specs::Literals::hex_value, crate::specs::Literals::hex_digit_at))]
fn hex_digit(bytes: &[u8]) -> Option<(u8, &[u8])>
    ensures found { Scans (λ d. (d.0, d.1.now)) result (hex_digit_at bytes.now) }
    ensures small { IfSome result (λ d. d.0 < 16) }
{
    match bytes {
        [b @ b'0'..=b'9', rest @ ..] => Some((*b - b'0', rest)),
        [b @ b'a'..=b'f', rest @ ..] => Some((*b - b'a' + 10, rest)),
        [b @ b'A'..=b'F', rest @ ..] => Some((*b - b'A' + 10, rest)),
        _ => None,
    }
}

/// The next byte of a byte string, and what follows it.
#[tactic(auto, unfolding(crate::specs::Literals::escape_at, crate::specs::Literals::text_byte_at))]
fn text_byte(bytes: &[u8]) -> Option<(u8, &[u8])>
    ensures { Scans (λ b. (b.0, b.1.now)) result (text_byte_at bytes.now) }
{
    match bytes {
        [b'\\', b'x', digits @ ..] => {
            let (high, rest) = hex_digit(digits)?;
            let (low, rest) = hex_digit(rest)?;
            Some((high * 16 + low, rest))
        }
        [b @ b' '..=b'~', rest @ ..] if *b != b'\'' && *b != b'\\' => Some((*b, rest)),
        _ => None,
    }
}

/// The bytes up to the apostrophe, and what follows it.
fn byte_row(alloc: Global, bytes: &[u8]) -> Result<(ByteText, &[u8]), Refusal>
    ensures { Takes (λ _. true) result (by_rule (row text_byte_at (byte_at 39)) bytes.now) }
{
    let mut text = ByteText::new(alloc);
    let mut rest = bytes;
    loop {
        if let Some(end) = byte(b'\'', rest) {
            return Ok((text, end));
        }
        let Some((next, after)) = text_byte(rest) else {
            return Err(Refusal::Syntax);
        };
        text.push(next)?;
        rest = after;
    }
}

/// The scalar literal at the front, and what follows it.
#[tactic(auto, unfolding(crate::specs::Literals::scalar_at, crate::specs::Literals::byte_text_at), using(crate::proofs::Rooms::bytes_room))]
fn scalar(alloc: Global, bytes: &[u8]) -> Result<(ScalarLiteral, &[u8]), Refusal>
    ensures { Takes scalar_room result (scalar_at bytes.now) }
{
    if let Some(inside) = bytes_mark(bytes) {
        let (text, rest) = byte_row(alloc, inside)?;
        return Ok((ScalarLiteral::Bytes(text), rest));
    }
    if let Some((n, rest)) = integer(bytes) {
        return Ok((ScalarLiteral::Integer(n), rest));
    }
    if let Some(rest) = keyword(b"True", bytes) {
        return Ok((ScalarLiteral::Boolean(true), rest));
    }
    let rest = keyword(b"False", bytes).ok_or(Refusal::Syntax)?;
    Ok((ScalarLiteral::Boolean(false), rest))
}

/// Literals of at most this depth, separated by commas, up to the closing parenthesis, and what
/// follows it.
#[cycle(nesting)]
fn values(alloc: Global, depth: usize, bytes: &[u8]) -> Result<(RecordLiteral, &[u8]), Refusal>
    ensures { Reads (λ r. (literals_of r.0, r.1.now)) (λ _. true) result
        (by_rule (none_or_more (literal_within depth) 41) bytes.now) }
{
    let mut values = RecordLiteral::new(alloc);
    let mut rest = bytes;
    loop {
        if let Some(end) = symbol(b')', rest) {
            return Ok((values, end));
        }
        let (entry, after) = literal_within(alloc, depth, rest)?;
        values.push(entry)?;
        if let Some(end) = symbol(b')', after) {
            return Ok((values, end));
        }
        let Some(next) = symbol(b',', after) else {
            return Err(Refusal::Syntax);
        };
        rest = next;
    }
}

/// The record literal after `(` whose values have at most this depth, and what follows it.
#[tactic(auto, unfolding(crate::specs::Literals::record_at), using(crate::proofs::Rooms::record_room))]
#[cycle(nesting)]
fn record(alloc: Global, depth: usize, bytes: &[u8]) -> Result<(Literal, &[u8]), Refusal>
    ensures { Takes literal_room result (record_at (literal_within depth) bytes.now) }
{
    let (values, rest) = values(alloc, depth, bytes)?;
    if values.is_empty() {
        return Err(Refusal::Syntax);
    }
    Ok((Literal::Record(values), rest))
}

/// The next literal, of at most this depth, and what follows it.
#[tactic(auto, unfolding(crate::specs::Literals::literal_within), using(crate::proofs::Rooms::scalar_literal_room))]
#[cycle(nesting)]
fn literal_within(alloc: Global, depth: usize, bytes: &[u8]) -> Result<(Literal, &[u8]), Refusal>
    ensures { Takes literal_room result (literal_within depth bytes.now) }
{
    let bytes = unspaced(bytes);
    if depth > 0
        && let Some(inside) = byte(b'(', bytes)
    {
        return record(alloc, depth - 1, inside);
    }
    let (value, rest) = scalar(alloc, bytes)?;
    Ok((Literal::Scalar(value), rest))
}

/// The next literal, and what follows it.
#[tactic(auto, unfolding(crate::specs::Literals::literal_at))]
pub fn literal(alloc: Global, bytes: &[u8]) -> Result<(Literal, &[u8]), Refusal>
    ensures { Takes literal_room result (literal_at bytes.now) }
{
    literal_within(alloc, MAX_LITERAL_DEPTH, bytes)
}

/// The literals up to the end of the line, and the blanks that remain there.
pub fn literals(alloc: Global, bytes: &[u8]) -> Result<(Literals, &[u8]), Refusal>
    ensures { Takes (λ _. true) result (by_rule (row literal_at line_end_at) bytes.now) }
{
    let mut literals = Literals::new(alloc);
    let mut rest = bytes;
    loop {
        if is_at_end(rest) {
            return Ok((literals, rest));
        }
        let (entry, after) = literal(alloc, rest)?;
        literals.push(entry)?;
        rest = after;
    }
}

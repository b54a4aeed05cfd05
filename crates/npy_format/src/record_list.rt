//! Element types in a header.
ghost use Rattle.std.specs.Prelude.{◌≡◌, ◌≤◌, ℕ, List, IfOk, MatchOption, Some, None};
ghost use Rattle.npy_format.specs.Clauses.{Answers, Gives, value_of, max_depth, max_leaves, IsShallow, pad_kind, scalar_in, type_in, field_in, entry_in, record_in, descr_in, Literal, tokens, string_at, pad_at, Stands, HasValues, entry_parts};

use crate::grammar::{behind_entry, string, symbol};
use elem_descr::{
    Descr, FieldName, MAX_DEPTH, MAX_ITEM_SIZE, Record, RecordBuilder, Refusal, are_digits,
    capped_value, is_legal_name, marked, typestr_read,
};
use std::alloc::Global;

/// The digits of the number of bytes of padding, after `V`, in a type string without its mark.
fn pad_digits(kind: &[u8]) -> Result<&[u8], Refusal>
    ensures { Answers (λ digits. value_of digits.now) result (pad_kind kind.now) }
{
    match kind {
        [b'V', digits @ ..] if !digits.is_empty() && are_digits(digits) => Ok(digits),
        _ => Err(Refusal::DescriptorLeftOut),
    }
}

/// Adds padding.
fn add_pad(builder: &mut RecordBuilder, kind: &[u8]) -> Result<(), Refusal>
    ensures answers { Answers (λ _. builder.new) result
        (pad_at builder.old (string_at (tokens kind.now))) }
    ensures levels { builder.new.levels ≡ builder.old.levels }
{
    let Some((kind, _)) = string(kind) else {
        return Err(Refusal::DescriptorLeftOut);
    };
    let digits = pad_digits(marked(kind).1)?;
    builder.pad(capped_value(digits, MAX_ITEM_SIZE))
}

/// The scalar that a type string means.
fn scalar(text: &[u8]) -> Result<Descr, Refusal>
    ensures value { result ≡ scalar_in text.now }
    ensures shallow { IfOk result (λ descr. (levels : ℕ) → IsShallow levels descr) }
{
    Ok(Descr::Scalar(typestr_read(text)?))
}

/// The type of a field.
#[cycle(record)]
fn field_type(alloc: Global, levels: usize, leaves: usize, kind: &[u8]) -> Result<Descr, Refusal>
    requires levels { levels ≤ max_depth }
    requires leaves { leaves ≤ max_leaves }
    ensures gives { (value : Literal) → Stands (tokens kind.now) value →
        Gives (λ descr. descr) result (type_in (record_in levels leaves) value) }
    ensures shallow { IfOk result (λ descr. IsShallow levels descr) }
{
    if let Some((kind, _)) = string(kind) {
        return scalar(kind);
    }
    let Some(entries) = symbol(b'[', kind) else {
        return Err(Refusal::DescriptorLeftOut);
    };
    let whole = record(alloc, levels, leaves, entries)?;
    Ok(Descr::Record(whole))
}

/// Adds a field.
#[cycle(record)]
fn add_field(
    alloc: Global,
    builder: &mut RecordBuilder,
    name: &[u8],
    kind: &[u8],
) -> Result<(), Refusal>
    ensures gives { (value : Literal) → Stands (tokens kind.now) value →
        Gives (λ _. builder.new) result
        (field_in (record_in builder.old.levels) builder.old name.now value) }
    ensures levels { builder.new.levels ≡ builder.old.levels }
{
    if !is_legal_name(name) {
        return Err(Refusal::DescriptorLeftOut);
    }
    let descr = field_type(alloc, builder.levels(), builder.leaves(), kind)?;
    builder.check_name(name)?;
    let name = FieldName::from_slice(alloc, name)?;
    builder.add(name, 1, descr)
}

/// The name in an entry, a tuple of two, and the text from its type on.
fn entry_parts(entry: &[u8]) -> Option<(&[u8], &[u8])>
    ensures { (value : Literal) → Stands (tokens entry.now) value → MatchOption result
        (entry_parts value ≡ None)
        (λ parts. (kind : Literal) × (entry_parts value ≡ Some (parts.0.now, kind))
        × Stands (tokens parts.1.now) kind) }
{
    let inside = symbol(b'(', entry)?;
    let (name, behind) = string(inside)?;
    let kind = symbol(b',', behind)?;
    let Ok(rest) = behind_entry(b')', kind) else {
        return None;
    };
    symbol(b')', rest)?;
    Some((name, kind))
}

/// Adds what an entry of the list means: a field or padding.
#[cycle(record)]
fn add_entry(alloc: Global, builder: &mut RecordBuilder, entry: &[u8]) -> Result<(), Refusal>
    ensures gives { (value : Literal) → Stands (tokens entry.now) value →
        Gives (λ _. builder.new) result
        (entry_in (record_in builder.old.levels) builder.old value) }
    ensures levels { builder.new.levels ≡ builder.old.levels }
{
    let Some((name, kind)) = entry_parts(entry) else {
        return Err(Refusal::DescriptorLeftOut);
    };
    if name.is_empty() {
        return add_pad(builder, kind);
    }
    add_field(alloc, builder, name, kind)
}

/// The record whose fields are the entries of a list. `levels` says how deep records may be nested
/// in it, and `leaves` how many leaves the whole type has before it.
#[cycle(record)]
fn record(alloc: Global, levels: usize, leaves: usize, entries: &[u8]) -> Result<Record, Refusal>
    requires levels { levels ≤ max_depth }
    requires leaves { leaves ≤ max_leaves }
    ensures gives { (values : List Literal) → HasValues 93 (tokens entries.now) values →
        Gives (λ whole. whole) result (record_in levels leaves values) }
    ensures shallow { IfOk result (λ whole. IsShallow levels (Descr.Record whole)) }
{
    if levels == 0 {
        return Err(Refusal::DescriptorLeftOut);
    }
    let mut builder = RecordBuilder::new(alloc, levels - 1, leaves);
    let mut rest = entries;
    while symbol(b']', rest).is_none() {
        add_entry(alloc, &mut builder, rest)?;
        rest = behind_entry(b']', rest)?;
    }
    builder.close(alloc, false)
}

/// The element type that the value of a header means.
pub fn descr(alloc: Global, text: &[u8]) -> Result<Descr, Refusal>
    ensures { (value : Literal) →
        Stands (tokens text.now) value → Gives (λ descr. descr) result (descr_in value) }
{
    if let Some((kind, _)) = string(text) {
        return scalar(kind);
    }
    let Some(entries) = symbol(b'[', text) else {
        return Err(Refusal::BadDescriptor);
    };
    let whole = record(alloc, MAX_DEPTH, 0, entries)?;
    Ok(Descr::Record(whole))
}

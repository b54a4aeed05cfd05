//! Reads format texts.
ghost use Rattle.std.specs.Prelude.{◌≡◌, codes};
ghost use Rattle.elem_descr.specs.Clauses.{list_all, Answers, Gives, is_one_of, format, nothing_follows, scalar_alone, record_alone};

use crate::descr::{Descr, MAX_DEPTH};
use crate::format_text::mark::{Mark, marked};
use crate::format_text::member::{Member, is_named, member_at};
use crate::format_text::record::record_within;
use crate::refusal::Refusal;
use crate::scalar::Scalar;
use std::alloc::Global;

fn is_blank(text: &[u8]) -> bool
    ensures { result ≡ list_all (is_one_of (codes " ")) text.now }
{
    text.iter().all(|b| *b == b' ')
}

/// Refuses anything but blanks after a complete descriptor.
#[tactic(auto, unfolding(crate::specs::inside::Turns::nothing_follows))]
fn ended(text: &[u8]) -> Result<(), Refusal>
    ensures { Answers (λ _. tt) result (nothing_follows text.now) }
{
    if is_blank(text) {
        return Ok(());
    }
    if is_named(text) {
        return Err(Refusal::DescriptorLeftOut);
    }
    let (_, rest) = marked(Mark::Aligned, text);
    match member_at(Mark::Aligned, rest) {
        Ok(_) => Err(Refusal::DescriptorLeftOut),
        Err(refusal) => Err(refusal),
    }
}

/// The scalar that is the whole text.
#[tactic(auto, unfolding(crate::specs::inside::Turns::scalar_alone))]
fn scalar_alone(value: Option<Scalar>, rest: &[u8]) -> Result<Descr, Refusal>
    ensures { Answers (λ descr. descr) result (scalar_alone value rest.now) }
{
    if is_named(rest) {
        return Err(Refusal::DescriptorLeftOut);
    }
    let scalar = value.ok_or(Refusal::TooLarge)?;
    ended(rest)?;
    Ok(Descr::Scalar(scalar))
}

/// The record whose members the text begins with, if nothing follows it.
#[tactic(auto, unfolding(crate::specs::inside::Turns::record_alone))]
fn record_alone(alloc: Global, mark: Mark, text: &[u8]) -> Result<Descr, Refusal>
    ensures { Gives (λ descr. descr) result (record_alone mark text.now) }
{
    let (body, rest) = record_within(alloc, MAX_DEPTH, mark, 0, text)?;
    ended(rest)?;
    Ok(Descr::Record(body.whole))
}

/// Reads a format text: marks and one member, which is a scalar or a record: `T{`, members with
/// their names, and `}`. A member of a record is a scalar, padding or a record.
///
/// The text is read from the left, and the first error decides. `DescriptorLeftOut` means a member
/// or a form of PEP 3118 that is not supported, a record without a field, or records nested deeper
/// than four. `TooLarge` means a record of more than 64 fields, a text of more than 2,048 leaves,
/// or an item of more than 65,536 bytes. `BadDescriptor` means a name used twice in a record, and
/// anything else that is not a format text.
pub fn format_read(alloc: Global, text: &[u8]) -> Result<Descr, Refusal>
    ensures { Gives (λ descr. descr) result (format text.now) }
{
    let (mark, rest) = marked(Mark::Aligned, text);
    match member_at(mark, rest) {
        Ok((Member::Value(value), rest)) => scalar_alone(value, rest),
        Ok((Member::Pad(_), _)) => Err(Refusal::DescriptorLeftOut),
        Ok((Member::Opened, rest)) => record_alone(alloc, mark, &rest[1..]),
        Err(refusal) => Err(refusal),
    }
}

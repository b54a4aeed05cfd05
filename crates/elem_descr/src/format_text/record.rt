//! Records in a format text: their members, added one by one, the records in them, and their end.
ghost use Rattle.elem_descr.specs.FormatTexts.{closed_body};
ghost use Rattle.elem_descr.specs.Names.{is_legal_name};
ghost use Rattle.elem_descr.specs.RecordBuilding.{max_depth, max_fields, max_leaves};
ghost use Rattle.elem_descr.specs.Refusals.{Gives};
ghost use Rattle.elem_descr.specs.inside.Partials.{IsBody};
ghost use Rattle.elem_descr.specs.inside.Turns.{closing, named, next_field, record_within};
ghost use Rattle.std.specs.Prelude.{IfOk, IsTrue, length, option_copied, ◌+◌, ◌≡◌, ◌≤◌};

use crate::descr::{Descr, Record};
use crate::format_text::mark::{Mark, marked, own_alignment};
use crate::format_text::member::{Member, is_named, member_at, name_at};
use crate::name::FieldName;
use crate::record_builder::RecordBuilder;
use crate::refusal::Refusal;
use crate::scalar::Scalar;
use std::alloc::Global;

/// What follows a closing brace, if the text begins with one.
fn closing(text: &[u8]) -> Option<&[u8]>
    ensures { option_copied result ≡ closing text.now }
{
    match text {
        [b'}', rest @ ..] => Some(rest),
        _ => None,
    }
}

/// The record whose members the text begins with, up to its closing brace, and what follows that.
/// `levels` says how deep records in it may be nested, and `leaves` how many leaves the text has
/// before it.
#[cycle(record)]
pub fn record_within(
    alloc: Global,
    levels: usize,
    mark: Mark,
    leaves: usize,
    text: &[u8],
) -> Result<(Body, &[u8]), Refusal>
    requires levels { levels ≤ max_depth }
    requires leaves { leaves ≤ max_leaves }
    ensures gives { Gives (λ r. (r.0, r.1.now)) result (record_within levels mark leaves text.now) }
    ensures good { IfOk result (λ r. IsBody levels r.0) }
{
    if levels == 0 {
        return Err(Refusal::DescriptorLeftOut);
    }
    let mut builder = RecordBuilder::new(alloc, levels - 1, leaves);
    let mut mark = mark;
    let mut rest = text;
    for _turn in 0..text.len() {
        let (now, unread) = marked(mark, rest);
        if let Some(after) = closing(unread) {
            let body = Body::close(alloc, builder, now)?;
            return Ok((body, after));
        }
        let (later, more) = field_at(alloc, now, &mut builder, unread)?;
        mark = later;
        rest = more;
    }
    Err(Refusal::BadDescriptor)
}

/// Adds the next member, and returns the current mark after it and what follows the member.
#[cycle(record)]
#[tactic(auto, unfolding(crate::specs::inside::Turns::next_field, crate::specs::inside::Turns::scalar_in, crate::specs::inside::Turns::pad_in, crate::specs::inside::Turns::body_in))]
fn field_at<'a>(
    alloc: Global,
    mark: Mark,
    builder: &mut RecordBuilder,
    text: &'a [u8],
) -> Result<(Mark, &'a [u8]), Refusal>
    ensures gives { Gives (λ m. (builder.new, m.0, m.1.now)) result
        (next_field (record_within builder.old.levels) mark builder.old text.now) }
    ensures levels { builder.new.levels ≡ builder.old.levels }
{
    match member_at(mark, text) {
        Ok((Member::Value(value), rest)) => {
            let (name, rest) = named(alloc, builder.len(), rest)?;
            builder.check_name(name.as_slice())?;
            let scalar = value.ok_or(Refusal::TooLarge)?;
            let alignment = mark.aligned(own_alignment(&scalar));
            builder.add(name, alignment, Descr::Scalar(scalar))?;
            Ok((mark, rest))
        }
        Ok((Member::Pad(count), rest)) => {
            builder.pad(count)?;
            if is_named(rest) {
                return Err(Refusal::DescriptorLeftOut);
            }
            Ok((mark, rest))
        }
        Ok((Member::Opened, rest)) => {
            let (levels, leaves) = (builder.levels(), builder.leaves());
            let (body, rest) = record_within(alloc, levels, mark, leaves, &rest[1..])?;
            let (name, rest) = named(alloc, builder.len(), rest)?;
            builder.check_name(name.as_slice())?;
            let alignment = mark.aligned(body.alignment);
            let later = body.mark;
            builder.add(name, alignment, Descr::Record(body.whole))?;
            Ok((later, rest))
        }
        Err(refusal) => Err(refusal),
    }
}

/// A record that was read, its alignment under `@`, and the current mark after it.
#[derive(Debug, Drop)]
pub struct Body {
    pub whole: Record,
    pub alignment: usize,
    pub mark: Mark,
}

impl Body {
    /// The record of a builder, aligned if this mark aligns.
    pub fn close(alloc: Global, builder: RecordBuilder, mark: Mark) -> Result<Body, Refusal>
        ensures gives { Gives (λ body. body) result (closed_body mark builder) }
        ensures good { IfOk result (IsBody (1 + builder.levels)) }
    {
        let alignment = builder.alignment();
        let whole = builder.close(alloc, mark.is_aligning())?;
        Ok(Body {
            whole,
            alignment,
            mark,
        })
    }
}

/// The name of a field: the one between colons, or `f` and its number among the fields.
fn named(alloc: Global, number: usize, text: &[u8]) -> Result<(FieldName, &[u8]), Refusal>
    requires { number ≤ max_fields }
    ensures gives { Gives (λ n. (n.0, n.1.now)) result (named number text.now) }
    ensures legal { IfOk result (λ n. IsTrue (is_legal_name n.0)) }
{
    if !is_named(text) {
        return Ok((FieldName::numbered(alloc, number)?, text));
    }
    let (name, rest) = name_at(&text[1..])?;
    Ok((FieldName::from_slice(alloc, name)?, rest))
}

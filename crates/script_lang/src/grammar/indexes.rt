//! Index lists, and operands with an index list.
ghost use Rattle.std.specs.Prelude.{Some, count_by, length, nat_le, ◌≡◌, ◌≤◌};
ghost use Rattle.script_lang.specs.Clauses.{one_part, step_at, ellipsis_at, index_item_at, index_at, bracket_at, optional_index_at, operand_named, operand_at, argument_at, is_ellipsis, Scans, Takes, index_room, operand_room, argument_room};

use crate::command::{Argument, Index, Operand};
use crate::grammar::literals::literal;
use crate::grammar::names::name;
use crate::grammar::numbers::optional_integer;
use crate::grammar::tokens::{byte, bytes_mark, keyword, symbol, unspaced};
use elem_descr::{IndexItem, Name, Refusal};
use std::alloc::Global;

/// The step of a slice, if there is a second colon, and what follows it.
fn step(bytes: &[u8]) -> (Option<i128>, &[u8])
    ensures { Some (result.0, result.1.now) ≡ step_at bytes.now }
{
    match symbol(b':', bytes) {
        Some(rest) => optional_integer(rest),
        None => (None, bytes),
    }
}

/// What follows `...`, which must come next.
#[tactic(auto, unfolding(crate::specs::Indexes::ellipsis_at))]
fn ellipsis(bytes: &[u8]) -> Option<&[u8]>
    ensures { Scans (λ rest. rest.now) result (ellipsis_at bytes.now) }
{
    let rest = symbol(b'.', bytes)?;
    let rest = byte(b'.', rest)?;
    byte(b'.', rest)
}

/// The next item of an index list, and what follows it.
#[tactic(auto, unfolding(crate::specs::Indexes::index_item_at, crate::specs::Indexes::slice_at, crate::specs::Indexes::optional_integer_at, crate::specs::Indexes::ellipsis_at, crate::specs::Tokens::integer_at, crate::specs::Tokens::length_at, crate::specs::Tokens::keyword_at, crate::specs::Tokens::name_at, crate::specs::Tokens::word_at), using(crate::proofs::Spelling::unspaced_twice))]
fn item(alloc: Global, bytes: &[u8]) -> Option<(IndexItem<Name>, &[u8])>
    ensures { Scans (λ r. (r.0, r.1.now)) result (index_item_at bytes.now) }
{
    let bytes = unspaced(bytes);
    let (start, rest) = optional_integer(bytes);
    if let Some(rest) = symbol(b':', rest) {
        let (stop, rest) = optional_integer(rest);
        let (step, rest) = step(rest);
        return Some((IndexItem::Slice { start, stop, step }, rest));
    }
    if let Some(n) = start {
        return Some((IndexItem::Integer(n), rest));
    }
    if let Some(rest) = ellipsis(bytes) {
        return Some((IndexItem::Ellipsis, rest));
    }
    if let Some(rest) = keyword(b"None", bytes) {
        return Some((IndexItem::NewAxis, rest));
    }
    let (name, rest) = name(bytes)?;
    Some((IndexItem::Array(Name::from_slice(alloc, name)), rest))
}

/// Whether `...` is there at most once.
fn has_few_ellipses(items: &[IndexItem<Name>]) -> bool
    ensures { result ≡ nat_le (count_by is_ellipsis items.now) 1 }
{
    items.iter().filter(|item| item.is_ellipsis()).count() <= 1
}

/// The index list after `[`, and what follows its closing bracket.
pub fn index(alloc: Global, bytes: &[u8]) -> Result<(Index, &[u8]), Refusal>
    ensures { Takes index_room result (index_at bytes.now) }
{
    let mut index = Index::new(alloc);
    let mut rest = bytes;
    loop {
        let Some((entry, after)) = item(alloc, rest) else {
            return Err(Refusal::Syntax);
        };
        index.push(entry)?;
        if let Some(end) = symbol(b']', after) {
            if !has_few_ellipses(index.as_slice()) {
                return Err(Refusal::Syntax);
            }
            return Ok((index, end));
        }
        let Some(next) = symbol(b',', after) else {
            return Err(Refusal::Syntax);
        };
        rest = next;
    }
}

/// The index list in the brackets at the front, and what follows them.
#[tactic(auto, unfolding(crate::specs::Indexes::bracket_at))]
pub fn bracket(alloc: Global, bytes: &[u8]) -> Result<(Index, &[u8]), Refusal>
    ensures { Takes index_room result (bracket_at bytes.now) }
{
    let inside = byte(b'[', bytes).ok_or(Refusal::Syntax)?;
    index(alloc, inside)
}

/// The operand of this name, given what follows the name.
#[tactic(auto, unfolding(crate::specs::Indexes::optional_index_at), using(crate::proofs::Rooms::optional_index_list_room, crate::proofs::Rooms::indexed_room))]
fn operand_named<'a>(
    alloc: Global,
    name: &[u8],
    bytes: &'a [u8],
) -> Result<(Operand, &'a [u8]), Refusal>
    requires { length name.now ≤ 32 }
    ensures { Takes operand_room result (one_part (operand_named name.now) optional_index_at bytes.now) }
{
    let name = Name::from_slice(alloc, name);
    let Some(inside) = byte(b'[', bytes) else {
        return Ok((Operand { name, index: None }, bytes));
    };
    let (index, rest) = index(alloc, inside)?;
    let index = Some(index);
    Ok((Operand { name, index }, rest))
}

/// The next operand, and what follows it.
#[tactic(auto, unfolding(crate::specs::Indexes::operand_at))]
pub fn operand(alloc: Global, bytes: &[u8]) -> Result<(Operand, &[u8]), Refusal>
    ensures { Takes operand_room result (operand_at bytes.now) }
{
    let (name, rest) = name(bytes).ok_or(Refusal::Syntax)?;
    operand_named(alloc, name, rest)
}

/// The next operand or literal, and what follows it. A name begins an operand, unless it begins a
/// byte string.
pub fn argument(alloc: Global, bytes: &[u8]) -> Result<(Argument, &[u8]), Refusal>
    ensures { Takes argument_room result (argument_at bytes.now) }
{
    let bytes = unspaced(bytes);
    if bytes_mark(bytes).is_none()
        && let Some((name, rest)) = name(bytes)
    {
        let (operand, rest) = operand_named(alloc, name, rest)?;
        return Ok((Argument::Operand(operand), rest));
    }
    let (literal, rest) = literal(alloc, bytes)?;
    Ok((Argument::Literal(literal), rest))
}

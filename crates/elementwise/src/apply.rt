//! Operations on all items of arrays: operands are cast, stretched and combined.
ghost use Rattle.std.specs.Prelude.{map};
ghost use Rattle.elementwise.specs.Clauses.{GivesArray, binary_item, binary_result, pairwise, unary_item, unary_result, item_from, offsets, items_stretched};

use crate::fast::chunks::make_cast;
use crate::loops::row_pairs::Broadcast;
use crate::operands::read_as;
use crate::pairing::{Pairing, Work};
use crate::rules::promotion::{promote, promote_one, scalar_of};
use arrays::{Items, Owned};
use broadcasting::common;
use elem_descr::{BinOp, Refusal, UnOp};
use std::alloc::Global;

/// The result of an operation on the items of two arrays, which are broadcast together, in a block
/// of its own in C order. Its type is that of `promote`.
/// Refusals, in this order: those of `promote`, with records as `NotForThisKind`; then those of
/// `common`, `ShapesDoNotBroadcast` and `TooLarge`.
pub fn apply2(alloc: Global, op: BinOp, left: Items<'_>, right: Items<'_>) -> Result<Owned, Refusal>
    ensures { GivesArray
        (binary_result op left.entry.descr.now left.entry.layout.now.shape right.entry.descr.now
        right.entry.layout.now.shape)
        (λ descr shape. pairwise (binary_item op descr) (items_stretched left.entry shape)
        (items_stretched right.entry shape)) result }
{
    let from = scalar_of(left.descr)?;
    let other = scalar_of(right.descr)?;
    let scalar = promote(op, from, other)?;
    let shape = common(alloc, &[&left.layout.shape, &right.layout.shape])?;
    let pairing = Pairing::Alike {
        work: Work::Combine(op),
        scalar: read_as(&scalar, left, right),
    };
    let both = Broadcast {
        left,
        right,
        shape: &shape,
    };
    Ok(make_cast(alloc, &pairing, both)?)
}

/// The result of an operation on the items of an array, in a block of its own in C order. The
/// refusals are those of `promote_one`, with records as `NotForThisKind`.
pub fn apply1(alloc: Global, op: UnOp, operand: Items<'_>) -> Result<Owned, Refusal>
    ensures { GivesArray
        (unary_result op operand.entry.descr.now operand.entry.layout.now.shape)
        (λ descr _. map (λ offset. unary_item op descr
        (item_from operand.entry.descr.now operand.entry.block.now offset))
        (offsets operand.entry.layout.now)) result }
{
    let from = scalar_of(operand.descr)?;
    let scalar = promote_one(op, from)?;
    let pairing = Pairing::Alike {
        work: Work::Change(op),
        scalar: read_as(&scalar, operand, operand),
    };
    let both = Broadcast {
        left: operand,
        right: operand,
        shape: &operand.layout.shape,
    };
    Ok(make_cast(alloc, &pairing, both)?)
}

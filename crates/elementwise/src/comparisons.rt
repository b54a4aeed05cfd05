//! Comparisons of all items of arrays: with those of another array, with one integer, or with bytes.
ghost use Rattle.std.specs.Prelude.{IfOk, List, [], length, map, ℕ, ◌∷◌, ◌≡◌, ◌≤◌};
ghost use Rattle.elementwise.specs.Clauses.{GivesArray, ScalarDescr, bytes_compared_result, compared, compared_item, compared_result, integer_compared_result, item_from, number, offsets, pairwise, decode, max_bytes, size, text, without_nuls, AreComparedWith, AreComparable, items_stretched};

use crate::fast::repeats::compare_once;
use crate::kernels::bits::note_slice;
use crate::kernels::byte_strings::without_nuls;
use crate::kernels::comparing::says;
use crate::loops::row_pairs::Broadcast;
use crate::rules::promotion::{compared_type, scalar_of};
use arrays::{Items, Owned};
use broadcasting::common;
use elem_descr::{Comparison, Descr, MemoryOrder, Refusal, Scalar, is_value, num_write};
use machine_numbers::{is_text, little};
use raw_block::{BlockBuilder, RawBlock};
use shape_strides::Shape;
use std::alloc::{AllocError, Global};

/// Compares the items of two arrays, which are broadcast together. Returns bools in a block of
/// their own in C order. Numbers are compared by value, and byte strings by unsigned bytes: a byte
/// string is less than a longer one that begins with it.
/// Refusals, in this order: those of `compared_type`, with records as `NotForThisKind`; then those
/// of `common`, `ShapesDoNotBroadcast` and `TooLarge`.
pub fn compare(
    alloc: Global,
    comparison: Comparison,
    left: Items<'_>,
    right: Items<'_>,
) -> Result<Owned, Refusal>
    ensures { GivesArray
        (compared_result left.entry.descr.now left.entry.layout.now.shape right.entry.descr.now
        right.entry.layout.now.shape)
        (λ _ shape. pairwise (compared_item comparison) (items_stretched left.entry shape)
        (items_stretched right.entry shape)) result }
{
    let from = scalar_of(left.descr)?;
    let other = scalar_of(right.descr)?;
    compared_type(from, other)?;
    let shape = common(alloc, &[&left.layout.shape, &right.layout.shape])?;
    let both = Broadcast {
        left,
        right,
        shape: &shape,
    };
    Ok(compare_once(alloc, comparison, both)?)
}

/// Compares the items of an array with one value, which is given by its bytes.
pub(crate) fn compare_with_one(
    alloc: Global,
    comparison: Comparison,
    operand: Items<'_>,
    scalar: &Scalar,
    block: RawBlock,
) -> Result<Owned, AllocError>
    requires can { AreComparable operand.descr.now (ScalarDescr scalar.now) }
    requires whole { length block ≡ size scalar.now }
    requires small { length block ≤ max_bytes }
    ensures { IfOk result (AreComparedWith comparison operand.entry (decode scalar.now block)) }
{
    let shape = Shape::from_lengths(alloc, &[])?;
    let descr = Descr::Scalar(*scalar);
    let item = Owned::over(alloc, descr, &shape, MemoryOrder::C, block)?;
    let both = Broadcast {
        left: operand,
        right: item.items(),
        shape: &operand.layout.shape,
    };
    compare_once(alloc, comparison, both)
}

/// Compares the numbers of an array with an integer, which may be out of range for their type.
/// Returns bools in a block of their own in C order. Records and byte strings are refused as
/// `NotForThisKind`.
pub fn compare_integer(
    alloc: Global,
    comparison: Comparison,
    operand: Items<'_>,
    integer: i128,
) -> Result<Owned, Refusal>
    ensures { GivesArray
        (integer_compared_result operand.entry.descr.now operand.entry.layout.now.shape)
        (λ _ _. map (λ offset. compared_item comparison
        (item_from operand.entry.descr.now operand.entry.block.now offset) (number integer ∷ []))
        (offsets operand.entry.layout.now)) result }
{
    let from = scalar_of(operand.descr)?;
    if is_text(&from) {
        return Err(Refusal::NotForThisKind);
    }
    let scalar = little(&from);
    if is_value(&scalar, integer) {
        let mut item = RawBlock::try_zeroed(alloc, scalar.size())?;
        num_write(scalar, integer, item.bytes_mut());
        return Ok(compare_with_one(alloc, comparison, operand, &scalar, item)?);
    }
    // The integer is greater than all numbers of the type, or less: one bool for all items.
    note_slice(operand.block.bytes());
    let above = integer.is_positive();
    let holds = says(comparison, above, !above);
    let shape = &operand.layout.shape;
    let mut bools = RawBlock::try_zeroed(alloc, shape.items())?;
    bools.bytes_mut().fill(u8::from(holds));
    let descr = Descr::Scalar(Scalar::Bool);
    Ok(Owned::over(alloc, descr, shape, MemoryOrder::C, bools)?)
}

/// For bytes that do not end with NULs, a comparison with at most `len` bytes that gives the same
/// for all byte strings of at most `len` bytes. None of them is equal to longer bytes, and only
/// those up to the first `len` of the bytes are less.
fn within(comparison: Comparison, bytes: &[u8], len: usize) -> (Comparison, &[u8])
    requires { without_nuls bytes.now ≡ bytes.now }
    ensures few { length result.1.now ≤ len }
    ensures same { (item : List ℕ) → length item ≤ len
        → compared result.0 (text (without_nuls item)) (text (without_nuls result.1.now))
        ≡ compared comparison (text (without_nuls item)) (text bytes.now) }
{
    if bytes.len() <= len {
        return (comparison, bytes);
    }
    match comparison {
        Comparison::Equal => (Comparison::Less, &[]),
        Comparison::NotEqual => (Comparison::GreaterOrEqual, &[]),
        Comparison::Less => (Comparison::LessOrEqual, &bytes[..len]),
        Comparison::LessOrEqual => (Comparison::LessOrEqual, &bytes[..len]),
        Comparison::Greater => (Comparison::Greater, &bytes[..len]),
        Comparison::GreaterOrEqual => (Comparison::Greater, &bytes[..len]),
    }
}

/// Compares the byte strings of an array with bytes, which may be longer than an item. Returns
/// bools in a block of their own in C order. Trailing NULs of the bytes do not count. Records and
/// numbers are refused as `NotForThisKind`.
pub fn compare_bytes(
    alloc: Global,
    comparison: Comparison,
    operand: Items<'_>,
    bytes: &[u8],
) -> Result<Owned, Refusal>
    ensures { GivesArray
        (bytes_compared_result operand.entry.descr.now operand.entry.layout.now.shape)
        (λ _ _. map (λ offset. compared_item comparison
        (item_from operand.entry.descr.now operand.entry.block.now offset)
        (text (without_nuls bytes.now) ∷ [])) (offsets operand.entry.layout.now)) result }
{
    let from = scalar_of(operand.descr)?;
    let Scalar::Bytes(width) = from else {
        return Err(Refusal::NotForThisKind);
    };
    let len = width.get();
    let (comparison, kept) = within(comparison, without_nuls(bytes), len);
    let mut item = BlockBuilder::try_new(alloc, len)?;
    item.push_bytes(kept);
    item.push_zeros(len - kept.len());
    Ok(compare_with_one(alloc, comparison, operand, &from, item.finish())?)
}

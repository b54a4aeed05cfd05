//! The widths to which the values of an array are padded.
ghost use Rattle.std.specs.Prelude.{◌≡◌, ◌⊎◌, ◌+◌, ◌≤◌, ◌<◌, ◌∷◌, ◌++◌, [], ℕ, List, pos, get_or, slice_index_or, length, max, take, drop, All, IfOk};
ghost use Rattle.array_print.specs.Clauses.{IsNumber, size, decode, item_size, leaves_of, offsets, Fits, widths, leaf_width, leaf_widths, leaf_text, items_from, integer_at, widths_at, IsPart, part_offsets};

use crate::axes::{past_ones, repeats, step_along};
use elem_descr::{Descr, Scalar, num_read};
use itoa::Buffer;
use shape_strides::Layout;
use smallvec::SmallVec;
use std::alloc::{AllocError, Global};

/// The width of the texts of bools in an array with axes.
const BOOL_WIDTH: usize = 5;

/// The width of a scalar's texts before any is known.
fn least_width(scalar: &Scalar) -> usize
    ensures { result ≡ leaf_width scalar.now [] }
{
    match scalar {
        Scalar::Bool => BOOL_WIDTH,
        Scalar::Byte { .. } | Scalar::Int { .. } | Scalar::Bytes(_) => 0,
    }
}

/// The width of each leaf's texts before any is known.
fn least_widths(alloc: Global, descr: &Descr) -> Result<SmallVec<usize, 4>, AllocError>
    ensures { IfOk result (λ v. v.items ≡ leaf_widths (leaves_of descr.now) []) }
{
    let mut widths = SmallVec::new(alloc);
    for k in 0..descr.leaf_count() {
        let (scalar, _at) = descr.leaf_at(k);
        widths.push(least_width(&scalar))?;
    }
    Ok(widths)
}

/// The greater of a width and the length of the text of an integer.
fn wider_at(width: usize, scalar: &Scalar, block: &[u8], place: usize) -> usize
    requires number { IsNumber scalar.now }
    requires inside { place + size scalar.now ≤ length block.now }
    ensures { result ≡ max width (length (integer_at scalar.now block.now place)) }
{
    let value = num_read(*scalar, &block[place..place + scalar.size()]);
    Buffer::new().format(value).len().max(width)
}

/// The width of a leaf's texts once one more of them is known.
fn widened(width: usize, scalar: &Scalar, block: &[u8], place: usize) -> usize
    requires inside { place + size scalar.now ≤ length block.now }
    ensures { (texts : List (List ℕ)) → width ≡ leaf_width scalar.now texts
        → result ≡ leaf_width scalar.now
        (texts ++ leaf_text scalar.now (decode scalar.now
        (take (size scalar.now) (drop place block.now))) ∷ []) }
{
    match scalar {
        Scalar::Bool | Scalar::Bytes(_) => width,
        Scalar::Byte { .. } | Scalar::Int { .. } => wider_at(width, scalar, block, place),
    }
}

/// Accounts for one more item in the column widths.
fn widen(widths: &mut [usize], descr: &Descr, block: &[u8], offset: usize)
    requires leaves { length widths.old ≡ length (leaves_of descr.now) }
    requires inside { offset + item_size descr.now ≤ length block.now }
    ensures { (seen : List ℕ) → widths.old ≡ widths_at descr.now block.now seen
        → widths.new ≡ widths_at descr.now block.now (seen ++ offset ∷ []) }
{
    for k in 0..widths.len() {
        let (scalar, at) = descr.leaf_at(k);
        widths[k] = widened(widths[k], &scalar, block, offset + at);
    }
}

/// Items of one descriptor, at the layout's offsets in a block of bytes.
#[derive(Clone, Copy)]
struct ShownItems<'a> {
    block: &'a [u8],
    layout: &'a Layout,
    descr: &'a Descr,
}

/// Widens the widths for the items that the axes from `axis` on lead to, starting at an offset.
/// Items that stride 0 repeats are measured once.
fn widen_part(widths: &mut [usize], items: &ShownItems<'_>, axis: usize, offset: usize)
    requires leaves { length widths.old ≡ length (leaves_of items.now.descr.now) }
    requires part { IsPart items.now.layout.now axis offset (length items.now.block.now)
        (item_size items.now.descr.now) }
    ensures { (seen : List ℕ) → widths.old
        ≡ widths_at items.now.descr.now items.now.block.now seen
        → widths.new ≡ widths_at items.now.descr.now items.now.block.now
        (seen ++ part_offsets items.now.layout.now axis offset) }
{
    let lengths = items.layout.shape.as_slice();
    let next = past_ones(lengths, axis);
    if next > axis {
        widen_part(widths, items, next, offset);
        return;
    }
    if axis == lengths.len() {
        widen(widths, items.descr, items.block, offset);
        return;
    }
    let strides = items.layout.strides.as_slice();
    // All steps of stride 0 lead to the same items.
    let steps = if repeats(strides, axis) {
        1
    } else {
        lengths[axis]
    };
    for k in 0..steps {
        widen_part(
            widths,
            items,
            axis + 1,
            step_along(offset, strides, axis, k),
        );
    }
}

/// The width of the texts of each value of an item.
pub fn widths_of(
    alloc: Global,
    block: &[u8],
    layout: &Layout,
    descr: &Descr,
) -> Result<SmallVec<usize, 4>, AllocError>
    requires inside { All (λ offset. offset + item_size descr.now ≤ length block.now)
        (offsets layout.now) }
    ensures { IfOk result (λ v. v.items
        ≡ widths descr.now layout.now.shape (items_from descr.now block.now (offsets layout.now))) }
{
    if layout.shape.rank() == 0 {
        return SmallVec::from_elem(alloc, 0, descr.leaf_count());
    }
    let mut widths = least_widths(alloc, descr)?;
    if layout.shape.items() > 0 {
        let items = ShownItems {
            block,
            layout,
            descr,
        };
        widen_part(widths.as_mut_slice(), &items, 0, layout.offset);
    }
    Ok(widths)
}

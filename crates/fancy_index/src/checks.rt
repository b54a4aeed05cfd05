//! The checks of an index list with arrays. Each check covers the whole list before the next one
//! begins.
ghost use Rattle.std.specs.Prelude.{◌≡◌, IfOk, IfErr, Err};
ghost use Rattle.fancy_index.specs.Clauses.{list_all, is_index, cover, indexed, index_items, items_left, IsChecked};

use crate::kinds::{Kind, kind_of};
use crate::lists::{Left, axes_beside};
use arrays::Items;
use elem_descr::{IndexItem, Refusal};
use view_ops::have_steps;

/// Whether each array in the list can be an index.
fn are_indexes(items: &[IndexItem<Items<'_>>]) -> bool
    ensures { result ≡ list_all is_index (index_items items.now) }
{
    for item in items {
        if let IndexItem::Array(array) = item
            && kind_of(*array) == Kind::NoIndex
        {
            return false;
        }
    }
    true
}

/// Whether each mask has the lengths of its axes.
fn cover(left: Left<'_>) -> bool
    ensures { result ≡ cover left.entry.axes.now (items_left left.entry) }
{
    let mut left = left;
    while let Some((item, axes)) = left.next() {
        if let IndexItem::Array(array) = item
            && kind_of(array) == Kind::Mask
            && array.layout.shape.as_slice() != axes
        {
            return false;
        }
    }
    true
}

/// An index list with the axes that it takes, or the first refusal of the checks that come before
/// those of numbers and shapes.
pub(crate) fn check<'a>(
    axes: &'a [usize],
    items: &'a [IndexItem<Items<'a>>],
) -> Result<Left<'a>, Refusal>
    ensures axes { IfOk result (λ left. left.axes.now ≡ axes.now) }
    ensures items { IfOk result (λ left. items_left left ≡ index_items items.now) }
    ensures ok { IfOk result (λ left. IsChecked left.axes.now (items_left left)) }
    ensures err { IfErr result (λ refusal.
        indexed axes.now (index_items items.now) ≡ Err refusal) }
{
    if !are_indexes(items) {
        return Err(Refusal::NotAnIndexType);
    }
    let Some(_) = axes_beside(items, axes.len()) else {
        return Err(Refusal::TooManyIndices);
    };
    let left = Left { axes, items };
    if !cover(left) {
        return Err(Refusal::MaskLengths);
    }
    if !have_steps(items) {
        return Err(Refusal::ZeroStep);
    }
    Ok(left)
}

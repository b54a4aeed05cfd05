//! Views by basic indexes: integers, slices, `...` and new axes; and the axes that these take.
ghost use Rattle.std.specs.Prelude.{IfOk, count_by, drop, length, pos, slice_index_or, true, ◌+◌, ◌-◌, ◌<◌, ◌≡◌, ◌≤◌};
ghost use Rattle.view_ops.specs.Clauses.{list_all, axes_taken, basic, has_step, takes_axis, width, GivesView, KeepsNested, Integer, is_basic};

use crate::picks::{are_in_range, set_picks, taken, with_picks};
use elem_descr::{IndexItem, Refusal};
use shape_strides::Layout;
use smallvec::SmallVec;
use std::alloc::Global;

/// Whether no item is an index array.
pub fn are_basic<A>(items: &[IndexItem<A>]) -> bool
    ensures { result ≡ list_all is_basic items.now }
{
    items.iter().all(|item| item.is_basic())
}

fn has_step<A>(item: &IndexItem<A>) -> bool
    ensures { result ≡ has_step item.now }
{
    match item {
        IndexItem::Slice { step, .. } => step.unwrap_or(1) != 0,
        _ => true,
    }
}

/// Whether no slice has a step of 0.
pub fn have_steps<A>(items: &[IndexItem<A>]) -> bool
    ensures { result ≡ list_all has_step items.now }
{
    items.iter().all(|item| has_step(item))
}

/// The view that integers, slices, `...` and new axes select, as in NumPy. A negative integer
/// counts from the end, and an integer removes its axis. Without `...`, the axes after the last
/// item are taken whole.
///
/// Refusals, each checked over the whole index before the next: items that take more axes than
/// there are (`TooManyIndices`); a slice whose step is 0 (`ZeroStep`); an integer outside its axis
/// (`IndexOutOfRange`); a view of more than 64 axes (`TooManyAxes`). A view without items has
/// strides and offset 0, and an axis of fewer than two items has stride 0.
pub fn basic<A>(alloc: Global, layout: &Layout, items: &[IndexItem<A>]) -> Result<Layout, Refusal>
    requires { list_all is_basic items.now ≡ true }
    ensures view { GivesView layout.now result (basic layout.now.shape items.now) }
    ensures nested { IfOk result (KeepsNested layout.now) }
{
    let lengths = layout.shape.as_slice();
    if taken(items) > lengths.len() {
        return Err(Refusal::TooManyIndices);
    }
    if !have_steps(items) {
        return Err(Refusal::ZeroStep);
    }
    if !are_in_range(lengths, items) {
        return Err(Refusal::IndexOutOfRange);
    }
    let mut picks = SmallVec::new(alloc);
    set_picks(&mut picks, lengths, items)?;
    with_picks(alloc, layout, picks.as_slice())
}

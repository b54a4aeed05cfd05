//! Index lists, item by item, with the axes that the items index.
ghost use Rattle.std.specs.Prelude.{◌≡◌, ◌+◌, ◌<◌, ◌≤◌, [], length, IfSome, None};
ghost use Rattle.fancy_index.specs.IndexArrays.{array_axes_taken, item_axes};
ghost use Rattle.fancy_index.specs.Words.{width};
ghost use Rattle.fancy_index.specs.Sources.{index_item_of, index_items};
ghost use Rattle.fancy_index.specs.inside.Items.{axes_taken};

use crate::kinds::{Kind, kind_of};
use arrays::Items;
use elem_descr::IndexItem;

/// The remaining items of an index list, and the remaining axes.
#[derive(Clone, Copy, Drop)]
pub(crate) struct Left<'a> {
    pub axes: &'a [usize],
    pub items: &'a [IndexItem<Items<'a>>],
    pub ghost enough: { axes_taken items.now ≤ length axes.now },
}

/// How many axes an item takes, not counting those of `...`.
fn axes_of(item: IndexItem<Items<'_>>) -> usize
    ensures { result ≡ item_axes (index_item_of item.entry) }
{
    match item {
        IndexItem::Ellipsis | IndexItem::NewAxis => 0,
        IndexItem::Array(array) if kind_of(array) == Kind::Mask => array.layout.shape.rank(),
        _ => 1,
    }
}

/// The number of axes left for `...`, or `None` if the items index more axes than there are.
pub(crate) fn axes_beside(items: &[IndexItem<Items<'_>>], axes: usize) -> Option<usize>
    ensures some { IfSome result (λ left. left + axes_taken items.now ≡ axes) }
    ensures none { result ≡ None → axes < axes_taken items.now }
{
    let mut left = axes;
    for item in items {
        let taken = axes_of(*item);
        if left < taken {
            return None;
        }
        left -= taken;
    }
    Some(left)
}

/// Whether at most one of the items is an array.
pub(crate) fn have_one_array(items: &[IndexItem<Items<'_>>]) -> bool {
    let mut found = false;
    for item in items {
        if let IndexItem::Array(_) = item {
            if found {
                return false;
            }
            found = true;
        }
    }
    true
}

/// How many of the remaining axes an item takes: `...` takes those that the items after it leave.
fn width(left: usize, item: IndexItem<Items<'_>>, later: &[IndexItem<Items<'_>>]) -> usize
    requires { item_axes (index_item_of item) + axes_taken later.now ≤ left }
    ensures { result ≡ width array_axes_taken left (index_item_of item.entry) (index_items later.now) }
{
    match item {
        IndexItem::Ellipsis => axes_beside(later, left).unwrap_or(0),
        _ => axes_of(item),
    }
}

impl<'a> Left<'a> {
    ghost use Rattle.fancy_index.specs.inside.Lists.{items_left, IsNextOf};

    /// The next item, with the axes that it takes.
    pub(crate) fn next(&mut self) -> Option<(IndexItem<Items<'a>>, &'a [usize])>
        ensures next { IfSome result (λ next.
            IsNextOf self.old (index_item_of next.0) next.1.now self.new) }
        ensures fewer { IfSome result (λ _.
            length self.new.items.now < length self.old.items.now) }
        ensures none { result ≡ None → items_left self.old ≡ [] }
        ensures same { result ≡ None → self.new.axes.now ≡ self.old.axes.now }
    {
        let [item, items @ ..] = self.items else {
            return None;
        };
        let (taken, axes) = self.axes.split_at(width(self.axes.len(), *item, items));
        *self = Left { axes, items };
        Some((*item, taken))
    }
}

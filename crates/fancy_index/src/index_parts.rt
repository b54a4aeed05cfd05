//! The parts of an index list.
ghost use Rattle.std.specs.Prelude.{All, IfErr, IfOk, OnOk, false, length, map, true, ◌≡◌, ◌≤◌};
ghost use Rattle.fancy_index.specs.Clauses.{are_within, covers, is_index, is_within, item_axes, Between, parts, parts_of, wholes, index_item_of, has_step, is_ellipsis, max_items, IsOutside, IsWithin, items_left, AddsParts, AreParts, IsChecked, all_named, shown_part};

use crate::lists::{Left, have_one_array};
use crate::points::{PointList, Ranks, array_points, integer_point};
use crate::positions::places;
use arrays::Items;
use elem_descr::{IndexItem, Refusal};
use std::alloc::{AllocError, Global};
use view_ops::{AxisPick, pick_of, whole_axis};

/// A part: a pick from an axis as by a basic index, or a new axis; points on some axes; or the
/// trace of `...`, which separates what comes before it from what comes after.
#[derive(Drop)]
pub(crate) enum IndexPart<'a> {
    Axis(AxisPick),
    Points(PointList<'a>),
    Between,
}

fn push_wholes(parts: &mut Vec<IndexPart<'_>>, axes: &[usize]) -> Result<(), AllocError>
    ensures { let there = wholes axes.now in
        OnOk result (AddsParts parts.old.items parts.new.items axes.now true there) }
{
    for n in axes {
        parts.push(IndexPart::Axis(whole_axis(*n)))?;
    }
    Ok(())
}

/// Adds the parts of an item, given the axes that it takes and whether no other item is an array, or
/// refuses one of its numbers. An array of integers is not read yet.
fn push_parts<'a>(
    alloc: Global,
    parts: &mut Vec<IndexPart<'a>>,
    axes: &[usize],
    item: IndexItem<Items<'a>>,
    is_alone: bool,
) -> Result<(), Refusal>
    requires small { All (λ n. n ≤ max_items) axes.now }
    requires index { is_index (index_item_of item) ≡ true }
    requires axes { is_ellipsis (index_item_of item) ≡ false
        → length axes.now ≡ item_axes (index_item_of item) }
    requires covers { covers axes.now (index_item_of item) ≡ true }
    requires step { has_step (index_item_of item) ≡ true }
    ensures added { let test = is_within axes.now (index_item_of item.entry) in
        let there = parts_of axes.now (index_item_of item.entry) in
        OnOk result (AddsParts parts.old.items parts.new.items axes.now test there) }
    ensures err { IfErr result (IsOutside (is_within axes.now (index_item_of item.entry))) }
{
    match item {
        IndexItem::Integer(at) => {
            let point = integer_point(alloc, axes[0], at)?;
            Ok(parts.push(IndexPart::Points(point))?)
        }
        IndexItem::Slice { .. } => {
            let pick = pick_of(axes[0], &item);
            Ok(parts.push(IndexPart::Axis(pick))?)
        }
        IndexItem::Ellipsis => {
            parts.push(IndexPart::Between)?;
            Ok(push_wholes(parts, axes)?)
        }
        IndexItem::NewAxis => Ok(parts.push(IndexPart::Axis(AxisPick::New))?),
        IndexItem::Array(array) => {
            let points = array_points(alloc, axes, array, is_alone)?;
            Ok(parts.push(IndexPart::Points(points))?)
        }
    }
}

/// The parts of an index list, or the refusal of a number. Arrays of integers are not read yet. The
/// axes after the last item are taken as by `...`.
pub(crate) fn parts_of<'a>(alloc: Global, left: Left<'a>) -> Result<Vec<IndexPart<'a>>, Refusal>
    requires small { All (λ n. n ≤ max_items) left.axes.now }
    requires checked { IsChecked left.axes.now (items_left left) }
    ensures are { IfOk result (λ v. AreParts left.entry.axes.now v.items) }
    ensures named { IfOk result (λ v.
        all_named v.items ≡ are_within left.entry.axes.now (items_left left.entry)) }
    ensures shown { IfOk result (λ v. all_named v.items ≡ true
        → map shown_part v.items ≡ parts left.entry.axes.now (items_left left.entry)) }
    ensures err { IfErr result
        (IsOutside (are_within left.entry.axes.now (items_left left.entry))) }
{
    let mut parts = Vec::new(alloc);
    let is_alone = have_one_array(left.items);
    let mut left = left;
    while let Some((item, axes)) = left.next() {
        push_parts(alloc, &mut parts, axes, item, is_alone)?;
    }
    push_parts(alloc, &mut parts, left.axes, IndexItem::Ellipsis, is_alone)?;
    Ok(parts)
}

/// Refuses a number that is out of range. The arrays are read one after the other.
pub(crate) fn check_numbers(alloc: Global, parts: &[IndexPart<'_>]) -> Result<(), Refusal>
    ensures { IsWithin (all_named parts.now) result }
{
    for part in parts {
        if let IndexPart::Points(points) = part
            && let Ranks::Named(named) = &points.ranks
        {
            places(alloc, *named)?;
        }
    }
    Ok(())
}

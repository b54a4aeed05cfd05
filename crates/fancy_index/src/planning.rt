//! Plans of index lists with arrays.
ghost use Rattle.std.specs.Prelude.{◌≡◌, ◌⊎◌, ◌<◌, [], map, All, Ok, Err, IfOk, IfErr};
ghost use Rattle.fancy_index.specs.Clauses.{OutOfMemory, count, shape_of, points_shape, all_axes, view_of, parts_view, indexed, index_items, IsPlanOf, GivesPlan, IsWithin, shown_part, all_named, AreParts, IsReady, view_if_named};

use crate::along_axes::along;
use crate::checks::check;
use crate::index_parts::{IndexPart, check_numbers, parts_of};
use crate::other_axes::rest;
use crate::plans::Plan;
use crate::result_axes::{points_place, points_shape, shape_of_all};
use crate::shift_columns::{Origin, shifts};
use arrays::Items;
use elem_descr::{IndexItem, Refusal};
use shape_strides::{Layout, Shape};
use smallvec::SmallVec;
use std::alloc::{AllocError, Global};

/// The plan of a result without items.
fn plan_of_none(alloc: Global, shape: Shape) -> Result<Plan, AllocError>
    requires { count shape ≡ 0 }
    ensures shape { IfOk result (λ plan. plan.shape ≡ shape) }
    ensures offsets { IfOk result (λ plan. plan.offsets ≡ []) }
{
    let outer = Layout::c_order(alloc, &shape, 1)?;
    let inner = Layout::c_order(alloc, &shape, 1)?;
    Plan::try_new(alloc, shape, outer, Vec::new(alloc), inner)
}

/// The common lengths of the points, and the shape of the result, or its refusal.
fn shapes(alloc: Global, parts: &[IndexPart<'_>]) -> Result<(SmallVec<usize, 4>, Shape), Refusal>
    ensures points { IfOk result (λ r. points_shape (map shown_part parts.now) ≡ Ok r.0.items) }
    ensures shape { IfOk result (λ r.
        shape_of (all_axes r.0.items (map shown_part parts.now)) ≡ Ok r.1) }
    ensures err { let there = parts_view (map shown_part parts.now) in
        IfErr result (λ e. (e ≡ OutOfMemory) ⊎ (there ≡ Err e)) }
{
    let points = points_shape(alloc, parts)?;
    let shape = shape_of_all(alloc, parts, points.as_slice())?;
    Ok((points, shape))
}

/// The plan of a result with items, or the refusal of a number.
fn plan_of_some(
    alloc: Global,
    layout: &Layout,
    parts: &mut [IndexPart<'_>],
    points: &[usize],
    shape: Shape,
) -> Result<Plan, Refusal>
    requires are { AreParts layout.now.shape parts.old }
    requires ready { All (IsReady points.now) parts.old }
    requires shape { shape ≡ all_axes points.now (map shown_part parts.old) }
    requires some { 0 < count shape }
    ensures ok { IfOk result (λ plan.
        IsPlanOf layout.now plan (view_of points.now (map shown_part parts.old))) }
    ensures within { IsWithin (all_named parts.old) result }
{
    let _lengths = shape.as_slice();
    let rest = rest(alloc, layout, parts)?;
    let many = shape.items() / rest.shape.items();
    let place = points_place(parts);
    let start = rest.offset;
    let (before, after) = rest.shape.as_slice().split_at(place);
    let outer = along(alloc, &rest, 0, before, start)?;
    let inner = along(alloc, &rest, place, after, start)?;
    let origin = Origin {
        layout,
        start,
        lengths: points,
    };
    let shifts = shifts(alloc, origin, parts, many)?;
    Ok(Plan::try_new(alloc, shape, outer, shifts, inner)?)
}

/// The plan of the parts of an index list, or its refusal. Numbers out of range are refused before
/// shapes that do not broadcast.
fn plan_of_parts(
    alloc: Global,
    layout: &Layout,
    parts: &mut [IndexPart<'_>],
) -> Result<Plan, Refusal>
    requires { AreParts layout.now.shape parts.old }
    ensures { GivesPlan layout.now result (view_if_named parts.old) }
{
    let _lengths = layout.shape.as_slice();
    match shapes(alloc, parts) {
        Ok((points, shape)) => {
            if shape.items() > 0 {
                return plan_of_some(alloc, layout, parts, points.as_slice(), shape);
            }
            check_numbers(alloc, parts)?;
            Ok(plan_of_none(alloc, shape)?)
        }
        Err(refusal) => {
            check_numbers(alloc, parts)?;
            Err(refusal)
        }
    }
}

/// Where the items are that an index list with arrays selects, as in NumPy's integer and boolean
/// indexing. An integer counts as an array without axes. All arrays broadcast together; a mask counts
/// as the list of the indexes at which it is true. If the arrays are side by side, their axes take
/// their place in the result; if a slice, `...` or a new axis separates them, their axes come first.
///
/// Refusals, each checked over the whole list before the next: an array that cannot be an index
/// (`NotAnIndexType`); items that take more axes than there are (`TooManyIndices`); a mask whose
/// lengths are not those of its axes (`MaskLengths`); a slice whose step is 0 (`ZeroStep`); an integer
/// or a number of an array outside its axis, even if nothing is selected (`IndexOutOfRange`); arrays
/// that do not broadcast together (`IndexShapes`); a result of more than 64 axes (`TooManyAxes`); and
/// one of too many items (`TooLarge`).
pub fn plan(alloc: Global, layout: &Layout, items: &[IndexItem<Items<'_>>]) -> Result<Plan, Refusal>
    ensures { GivesPlan layout.now result (indexed layout.now.shape (index_items items.now)) }
{
    let lengths = layout.shape.as_slice();
    let left = check(lengths, items)?;
    let mut parts = parts_of(alloc, left)?;
    plan_of_parts(alloc, layout, parts.as_mut_slice())
}

//! The axis of a reduction, the shape of its result, where its lists begin, and what is refused.
ghost use Rattle.std.specs.Prelude.{Err, IfErr, IfOk, Ok, false, length, slice_index, true, ◌&&◌, ◌<◌, ◌==◌, ◌≡◌, ◌≤◌};
ghost use Rattle.reductions.specs.Clauses.{ScalarDescr, IsAxisOf, is_axis, list_length, named_axis, reduced_shape, has_empty_list, number_scalar, needs_items, BadAxis, Gives, IsNumber, AreStarts, shape_after, remove};

use crate::by_reduction::needs_items;
use elem_descr::{Descr, Red, Refusal, Scalar};
use shape_strides::{Layout, Shape, Strides};
use smallvec::SmallVec;
use std::alloc::{AllocError, Global};
use view_ops::{from_front, is_place};

/// The scalar of items that are numbers.
pub(crate) fn number_scalar(descr: &Descr) -> Result<Scalar, Refusal>
    ensures ok { IfOk result (λ scalar. (number_scalar descr.now ≡ Ok scalar) × IsNumber scalar
        × (descr.now ≡ ScalarDescr scalar)) }
    ensures err { IfErr result (λ refusal. number_scalar descr.now ≡ Err refusal) }
{
    match descr {
        Descr::Scalar(Scalar::Bytes(_)) | Descr::Record(_) => Err(Refusal::NotForThisKind),
        Descr::Scalar(scalar) => Ok(*scalar),
    }
}

/// The axis that is given, counted from the front.
pub(crate) fn named_axis(rank: usize, axis: Option<i128>) -> Result<Option<usize>, Refusal>
    ensures ok { IfOk result (λ named. (is_axis rank axis ≡ true) × (named ≡ named_axis rank axis)
        × IsAxisOf rank named) }
    ensures err { IfErr result (λ refusal. (refusal ≡ BadAxis) × (is_axis rank axis ≡ false)) }
{
    let Some(axis) = axis else { return Ok(None) };
    if !is_place(rank, axis) {
        return Err(Refusal::BadAxis);
    }
    Ok(Some(from_front(rank, axis) as usize))
}

/// The numbers of the axes without one of them.
fn without<T: Copy + Default>(
    alloc: Global,
    numbers: &[T],
    axis: usize,
) -> Result<SmallVec<T, 4>, AllocError>
    requires { axis < length numbers.now }
    ensures { IfOk result (λ v. v.items ≡ remove numbers.now axis) }
{
    let mut others = SmallVec::from_slice(alloc, numbers)?;
    others.remove(axis);
    Ok(others)
}

/// The lengths of the result's axes: without an axis, or with a 1 in its place.
fn reduced_lengths(
    alloc: Global,
    lengths: &[usize],
    axis: Option<usize>,
    keep: bool,
) -> Result<SmallVec<usize, 4>, AllocError>
    requires { IsAxisOf (length lengths.now) axis }
    ensures { IfOk result (λ v. v.items ≡ reduced_shape lengths.now axis keep) }
{
    match axis {
        None if keep => {
            let ones = SmallVec::from_elem(alloc, 1, lengths.len())?;
            Ok(ones)
        }
        None => Ok(SmallVec::new(alloc)),
        Some(axis) if keep => {
            let mut kept = SmallVec::from_slice(alloc, lengths)?;
            kept.as_mut_slice()[axis] = 1;
            Ok(kept)
        }
        Some(axis) => without(alloc, lengths, axis),
    }
}

/// How many items each list has.
pub(crate) fn list_length(shape: &Shape, axis: Option<usize>) -> usize
    requires { IsAxisOf (length shape.now) axis }
    ensures { result ≡ list_length shape.now axis }
{
    match axis {
        Some(axis) => shape.as_slice()[axis],
        None => shape.items(),
    }
}

/// Whether some item of the result would be the reduction of no items, although the reduction needs
/// some.
fn lacks_items(reduction: Red, shape: &Shape, axis: Option<usize>, lengths: &[usize]) -> bool
    requires { IsAxisOf (length shape.now) axis }
    ensures { result ≡ (needs_items reduction && has_empty_list shape.now axis lengths.now) }
{
    needs_items(reduction) && list_length(shape, axis) == 0 && !lengths.contains(&0)
}

/// The shape of the result.
pub(crate) fn shape_after(
    alloc: Global,
    reduction: Red,
    shape: &Shape,
    axis: Option<usize>,
    keep: bool,
) -> Result<Shape, Refusal>
    requires { IsAxisOf (length shape.now) axis }
    ensures { Gives (λ s. s) result (shape_after reduction shape.now axis keep) }
{
    let lengths = reduced_lengths(alloc, shape.as_slice(), axis, keep)?;
    if lacks_items(reduction, shape, axis, lengths.as_slice()) {
        return Err(Refusal::EmptyReduction);
    }
    Shape::try_new(alloc, lengths.as_slice())
}

/// The starts of the lists along an axis: the items at index 0 on it.
pub(crate) fn starts_of(alloc: Global, layout: &Layout, axis: usize) -> Result<Layout, AllocError>
    requires axis { axis < length layout.now.shape }
    requires some { 1 ≤ slice_index layout.now.shape axis }
    ensures { IfOk result (AreStarts layout.now axis) }
{
    let lengths = without(alloc, layout.shape.as_slice(), axis)?;
    let shape = Shape::from_lengths(alloc, lengths.as_slice())?;
    let steps = without(alloc, layout.strides.as_slice(), axis)?;
    let strides = Strides::from_slice(alloc, steps.as_slice())?;
    Ok(Layout {
        shape,
        strides,
        offset: layout.offset,
    })
}

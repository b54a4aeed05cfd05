//! Layouts stretched to a larger shape.
ghost use Rattle.std.specs.Prelude.{◌≡◌, ◌==◌, ◌<◌, ◌≤◌, true, pos, ◌++◌, length, take, drop, replicate, slice_index, slice_index_or, IfOk, IsTrue};
ghost use Rattle.broadcasting.specs.Clauses.{list_all, IsViewOf, GivesView, stretches, can_stretch, broadcast_index, stretched, stretched_into, kept_stride, AreStretched};

use crate::common_shape::length_at;
use elem_descr::Refusal;
use shape_strides::{Layout, Shape, Strides};
use std::alloc::{AllocError, Global};

fn stretches(len: usize, target: usize) -> bool
    ensures { result ≡ stretches len target }
{
    len == target || len == 1
}

fn can_stretch(lengths: &[usize], target: &[usize]) -> bool
    ensures { result ≡ can_stretch lengths.now target.now }
{
    let rank = target.len();
    if lengths.len() > rank {
        return false;
    }
    for (axis, len) in target.iter().enumerate() {
        if !stretches(length_at(lengths, rank, axis), *len) {
            return false;
        }
    }
    true
}

/// The stride of an axis, or 0 if it has one item.
fn kept_stride(lengths: &[usize], strides: &[isize], axis: usize) -> isize
    requires axis { axis < length lengths.now }
    requires stride { axis < length strides.now }
    ensures { result
        ≡ kept_stride (slice_index lengths.now axis) (slice_index_or strides.now axis (pos 0)) }
{
    if lengths[axis] == 1 {
        return 0;
    }
    strides[axis]
}

/// The strides of a layout in a larger shape to which it stretches: those of new axes, none of which
/// steps to another item, come first.
fn stretched_strides(alloc: Global, layout: &Layout, target: &Shape) -> Result<Strides, AllocError>
    requires { IsTrue (can_stretch layout.now.shape target.now) }
    ensures { IfOk result (AreStretched layout.now target.now) }
{
    let lengths = layout.shape.as_slice();
    let strides = layout.strides.as_slice();
    let more = target.rank() - lengths.len();
    let mut made = Strides::zeros(alloc, more)?;
    for axis in 0..lengths.len() {
        made.push(kept_stride(lengths, strides, axis))?;
    }
    Ok(made)
}

/// The layout in a larger shape to which it stretches. The two are aligned at the last axis, and
/// each index of `target` leads to the item with its numbers on the axes of the layout, but 0 on
/// those of length 1. New axes and axes of length 1 have stride 0; a view without items has strides
/// and offset 0.
pub fn stretched_to(alloc: Global, layout: &Layout, target: &Shape) -> Result<Layout, AllocError>
    requires { IsTrue (can_stretch layout.now.shape target.now) }
    ensures { IfOk result (λ view. IsViewOf layout.now view
        (record { shape = target.now; leads = broadcast_index layout.now.shape })) }
{
    let strides = stretched_strides(alloc, layout, target)?;
    let shape = Shape::try_copy(alloc, target)?;
    Ok(Layout::new(shape, strides, layout.offset).unwrap())
}

/// The layout in a larger shape, as `stretched_to` makes it. A shape that does not broadcast to
/// exactly `target` is refused as `ShapesDoNotBroadcast`.
pub fn stretch(alloc: Global, layout: &Layout, target: &Shape) -> Result<Layout, Refusal>
    ensures { GivesView layout.now result (stretched layout.now.shape target.now) }
{
    if !can_stretch(layout.shape.as_slice(), target.as_slice()) {
        return Err(Refusal::ShapesDoNotBroadcast);
    }
    Ok(stretched_to(alloc, layout, target)?)
}

/// Whether each axis has one item.
fn are_single(lengths: &[usize]) -> bool
    ensures { result ≡ list_all (λ n. n == 1) lengths.now }
{
    lengths.iter().all(|len| *len == 1)
}

/// The layout without its first `count` axes, each of which has length 1.
fn without_first(alloc: Global, layout: &Layout, count: usize) -> Result<Layout, AllocError>
    requires count { count ≤ length layout.now.shape }
    requires single { list_all (λ n. n == 1) (take count layout.now.shape) ≡ true }
    ensures { IfOk result
        (λ rest. IsViewOf layout.now rest
        (record {
          shape = drop count layout.now.shape;
          leads = λ index. replicate count 0
              ++ index;
        })) }
{
    let shape = Shape::from_lengths(alloc, &layout.shape.as_slice()[count..])?;
    let strides = Strides::from_slice(alloc, &layout.strides.as_slice()[count..])?;
    Ok(Layout::new(shape, strides, layout.offset).unwrap())
}

/// The layout stretched to a target, as an assignment does it: axes beyond those of `target`, which
/// come first, are dropped if they have length 1, and then it is stretched to exactly `target`. A
/// longer axis is refused as `ShapesDoNotBroadcast` too.
pub fn stretch_into(alloc: Global, layout: &Layout, target: &Shape) -> Result<Layout, Refusal>
    ensures { GivesView layout.now result (stretched_into layout.now.shape target.now) }
{
    let lengths = layout.shape.as_slice();
    let beyond = lengths.len().saturating_sub(target.rank());
    if !are_single(&lengths[..beyond]) {
        return Err(Refusal::ShapesDoNotBroadcast);
    }
    let rest = without_first(alloc, layout, beyond)?;
    stretch(alloc, &rest, target)
}

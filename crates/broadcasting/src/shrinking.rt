//! Layouts whose items repeat, shrunk to the layouts that they were stretched from.
ghost use Rattle.std.specs.Prelude.{◌≡◌, ◌<◌, ℕ, pos, false, length, slice_index, slice_index_or, IfOk, IsTrue};
ghost use Rattle.broadcasting.specs.Clauses.{RepeatsAlong, ShrinksTo, CanShrink, IsStretchOf};

use shape_strides::{Layout, Shape, Strides};
use smallvec::SmallVec;
use std::alloc::{AllocError, Global};

/// Whether items repeat along an axis.
pub fn repeats(layout: &Layout) -> bool
    ensures yes { IsTrue result → (axis : ℕ) × RepeatsAlong layout.now axis }
    ensures no { result ≡ false → (axis : ℕ) → RepeatsAlong layout.now axis → ⊥ }
{
    let lengths = layout.shape.as_slice();
    let strides = layout.strides.as_slice();
    for axis in 0..lengths.len() {
        if lengths[axis] > 1 && strides[axis] == 0 {
            return true;
        }
    }
    false
}

/// The length of an axis of two arrays with these strides: 1 if the items of both repeat along it.
fn shrunk_length(lengths: &[usize], strides: &[isize], others: &[isize], axis: usize) -> usize
    requires axis { axis < length lengths.now }
    requires stride { axis < length strides.now }
    requires other { axis < length others.now }
    ensures first { ShrinksTo (slice_index lengths.now axis)
        (slice_index_or strides.now axis (pos 0)) result }
    ensures second { ShrinksTo (slice_index lengths.now axis)
        (slice_index_or others.now axis (pos 0)) result }
{
    if lengths[axis] > 1 && strides[axis] == 0 && others[axis] == 0 {
        return 1;
    }
    lengths[axis]
}

/// The shape of two layouts of one shape with length 1 on each axis along which the items of both
/// repeat.
pub fn shrunk_shape(alloc: Global, first: &Layout, second: &Layout) -> Result<Shape, AllocError>
    requires even { second.now.shape ≡ first.now.shape }
    ensures first { IfOk result (λ s. CanShrink first.now.shape first.now.strides s) }
    ensures second { IfOk result (λ s. CanShrink second.now.shape second.now.strides s) }
{
    let lengths = first.shape.as_slice();
    let strides = first.strides.as_slice();
    let others = second.strides.as_slice();
    let mut shrunk = SmallVec::<usize, 4>::new(alloc);
    for axis in 0..lengths.len() {
        shrunk.push(shrunk_length(lengths, strides, others, axis))?;
    }
    Shape::from_lengths(alloc, shrunk.as_slice())
}

/// The layout of a shape from which a layout is stretched.
pub fn shrink(alloc: Global, layout: &Layout, shape: &Shape) -> Result<Layout, AllocError>
    requires { CanShrink layout.now.shape layout.now.strides shape.now }
    ensures shape { IfOk result (λ small. small.shape ≡ shape.now) }
    ensures stretch { IfOk result (λ small. IsStretchOf small layout.now) }
{
    let shape = Shape::try_copy(alloc, shape)?;
    let strides = Strides::from_slice(alloc, layout.strides.as_slice())?;
    Ok(Layout::new(shape, strides, layout.offset).unwrap())
}

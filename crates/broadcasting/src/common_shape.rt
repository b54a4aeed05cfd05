//! The shape that arrays broadcast to together.
ghost use Rattle.std.specs.Prelude.{All, IfOk, IsTrue, length, map, slice_index, ◌<◌, ◌≡◌, ◌≤◌};
ghost use Rattle.broadcasting.specs.Clauses.{aligned, can_stretch, common_length, common_of_two, common_shape, go_together, Gives};

use elem_descr::Refusal;
use shape_strides::Shape;
use smallvec::SmallVec;
use std::alloc::Global;

fn go_together(left: usize, right: usize) -> bool
    ensures { result ≡ go_together left right }
{
    left == right || left == 1 || right == 1
}

fn common_length(left: usize, right: usize) -> usize
    ensures { result ≡ common_length left right }
{
    if left == 1 { right } else { left }
}

/// The common lengths of two shapes, whatever their number of items. If an axis has two different
/// lengths and none is 1, it is refused as `ShapesDoNotBroadcast`.
pub fn common_of_two(
    alloc: Global,
    left: &[usize],
    right: &[usize],
) -> Result<SmallVec<usize, 4>, Refusal>
    ensures { Gives (λ v. v.items) result (common_of_two left.now right.now) }
{
    // Most often the shapes are equal, or one has no axes.
    if left.is_empty() || left == right {
        return Ok(SmallVec::from_slice(alloc, right)?);
    }
    let rank = left.len().max(right.len());
    let mut lengths = SmallVec::new(alloc);
    for axis in 0..rank {
        let first = length_at(left, rank, axis);
        let second = length_at(right, rank, axis);
        if !go_together(first, second) {
            return Err(Refusal::ShapesDoNotBroadcast);
        }
        lengths.push(common_length(first, second))?;
    }
    Ok(lengths)
}

/// The shape that these shapes broadcast to. They are aligned at the last axis, a missing axis
/// counts as one of length 1, and the length of each axis is the one that is not 1. Two different
/// lengths of which none is 1 are refused as `ShapesDoNotBroadcast`; after that, too many items as
/// `TooLarge`. Without shapes the result has no axes. Each of the shapes stretches to the result.
pub fn common(alloc: Global, shapes: &[&Shape]) -> Result<Shape, Refusal>
    ensures value { Gives (λ s. s) result (common_shape (map (λ s. s.now) shapes.now)) }
    ensures fits { IfOk result
        (λ common. All (λ shape. IsTrue (can_stretch shape common)) (map (λ s. s.now) shapes.now)) }
{
    let mut lengths = SmallVec::new(alloc);
    for shape in shapes {
        lengths = common_of_two(alloc, lengths.as_slice(), shape.as_slice())?;
    }
    Shape::try_new(alloc, lengths.as_slice())
}

/// The length of an axis of a shape that is aligned at the last of `rank` axes: 1 if the shape does
/// not have the axis.
pub(crate) fn length_at(lengths: &[usize], rank: usize, axis: usize) -> usize
    requires rank { length lengths.now ≤ rank }
    requires axis { axis < rank }
    ensures { result ≡ slice_index (aligned rank lengths.now) axis }
{
    let missing = rank - lengths.len();
    if axis < missing {
        return 1;
    }
    lengths[axis - missing]
}

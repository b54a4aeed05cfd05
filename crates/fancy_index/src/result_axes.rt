//! The axes of the result: the common lengths of the points, and the place of these axes among the
//! others.
ghost use Rattle.std.specs.Prelude.{length, map, ◌≡◌, ◌≤◌};
ghost use Rattle.fancy_index.specs.Clauses.{all_axes, are_points, axes_of_part, other_axes, points_place, points_shape, Gives, shape_of, shown_part, gone_on};

use crate::index_parts::IndexPart;
use broadcasting::common_of_two;
use elem_descr::Refusal;
use shape_strides::Shape;
use smallvec::SmallVec;
use std::alloc::{AllocError, Global};
use view_ops::AxisPick;

/// The common lengths of all points. Lengths that do not broadcast are refused as `IndexShapes`.
pub(crate) fn points_shape(
    alloc: Global,
    parts: &[IndexPart<'_>],
) -> Result<SmallVec<usize, 4>, Refusal>
    ensures { Gives (λ v. v.items) result (points_shape (map shown_part parts.now)) }
{
    let mut lengths = SmallVec::new(alloc);
    for part in parts {
        if let IndexPart::Points(points) = part {
            lengths = match common_of_two(alloc, lengths.as_slice(), points.lengths.as_slice()) {
                Ok(common) => common,
                Err(Refusal::OutOfMemory) => return Err(Refusal::OutOfMemory),
                Err(_) => return Err(Refusal::IndexShapes),
            };
        }
    }
    Ok(lengths)
}

/// The shape of the result, with the axes of the points at their place among the others, or its
/// refusal.
pub(crate) fn shape_of_all(
    alloc: Global,
    parts: &[IndexPart<'_>],
    points: &[usize],
) -> Result<Shape, Refusal>
    ensures { Gives (λ s. s) result (shape_of (all_axes points.now (map shown_part parts.now))) }
{
    let mut lengths: SmallVec<usize, 4> = SmallVec::new(alloc);
    for part in parts {
        match part {
            IndexPart::Axis(AxisPick::Along(run)) => lengths.push(run.count)?,
            IndexPart::Axis(AxisPick::New) => lengths.push(1)?,
            IndexPart::Axis(AxisPick::At(_)) | IndexPart::Points(_) | IndexPart::Between => {}
        }
    }
    lengths.insert_from_slice(points_place(parts), points)?;
    Shape::try_new(alloc, lengths.as_slice())
}

/// The progress through the parts: no points so far, within points, or after points.
#[derive(Clone, Copy, Debug, PartialEq, Eq)]
enum Stretch {
    Before,
    Among,
    After,
}

impl IndexPart<'_> {
    fn is_points(&self) -> bool
        ensures { result ≡ are_points (shown_part self.now) }
    {
        matches!(self, IndexPart::Points(_))
    }

    /// How many axes of the result a part has, not counting those of points.
    fn axes(&self) -> usize
        ensures value { result ≡ length (axes_of_part (shown_part self.now)) }
        ensures few { result ≤ 1 }
    {
        match self {
            IndexPart::Axis(AxisPick::Along(_) | AxisPick::New) => 1,
            _ => 0,
        }
    }
}

/// The progress after one more part, or nothing if the points are separated.
fn gone_on(stretch: Stretch, is_points: bool) -> Option<Stretch>
    ensures { result ≡ gone_on stretch is_points }
{
    match (stretch, is_points) {
        (Stretch::Before, false) => Some(Stretch::Before),
        (Stretch::Before | Stretch::Among, true) => Some(Stretch::Among),
        (Stretch::Among | Stretch::After, false) => Some(Stretch::After),
        (Stretch::After, true) => None,
    }
}

/// How many other axes come before those of the points. If the points are not side by side, their
/// axes come first.
pub(crate) fn points_place(parts: &[IndexPart<'_>]) -> usize
    ensures value { result ≡ points_place (map shown_part parts.now) }
    ensures within { result ≤ length (other_axes (map shown_part parts.now)) }
{
    let mut place = 0;
    let mut stretch = Stretch::Before;
    for part in parts {
        let Some(next) = gone_on(stretch, part.is_points()) else {
            return 0;
        };
        stretch = next;
        if stretch == Stretch::Before {
            place += part.axes();
        }
    }
    place
}

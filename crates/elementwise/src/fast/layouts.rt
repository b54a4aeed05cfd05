//! Layouts without the axes along which items repeat.
ghost use Rattle.std.specs.Prelude.{IfOk, IsTrue};
ghost use Rattle.elementwise.specs.Clauses.{can_stretch, IsShrunk};

use broadcasting::{shrink, shrunk_shape, stretched_to};
use shape_strides::{Layout, Shape};
use std::alloc::{AllocError, Global};

/// Two layouts that stretch to a shape, with length 1 on each axis of it along which the items of
/// both repeat. They have one shape.
pub(crate) fn without_repeats(
    alloc: Global,
    left: &Layout,
    right: &Layout,
    shape: &Shape,
) -> Result<(Layout, Layout), AllocError>
    requires stretches { IsTrue (can_stretch left.now.shape shape.now) }
    requires also { IsTrue (can_stretch right.now.shape shape.now) }
    ensures first { IfOk result (λ s. IsShrunk s.0 left.now s.0.shape shape.now) }
    ensures second { IfOk result (λ s. IsShrunk s.1 right.now s.0.shape shape.now) }
{
    let wide = stretched_to(alloc, left, shape)?;
    let other = stretched_to(alloc, right, shape)?;
    let shape = shrunk_shape(alloc, &wide, &other)?;
    let first = shrink(alloc, &wide, &shape)?;
    let second = shrink(alloc, &other, &shape)?;
    Ok((first, second))
}

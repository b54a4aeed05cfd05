//! The items of a layout along some of its axes.
ghost use Rattle.std.specs.Prelude.{◌≡◌, IfOk};
ghost use Rattle.fancy_index.specs.Clauses.{BeginAt, strides_along};

use shape_strides::{Layout, Shape, Strides};
use std::alloc::{AllocError, Global};

/// The items along some axes, starting with one of them. On all other axes the index is that of the
/// start.
pub(crate) fn along(
    alloc: Global,
    layout: &Layout,
    axis: usize,
    axes: &[usize],
    start: usize,
) -> Result<Layout, AllocError>
    requires { BeginAt layout.now axis start axes.now }
    ensures shape { IfOk result (λ along. along.shape ≡ axes.now) }
    ensures strides { IfOk result (λ along.
        along.strides ≡ strides_along layout.now axis axes.now) }
    ensures offset { IfOk result (λ along. along.offset ≡ start) }
{
    let _lengths = layout.shape.as_slice();
    let strides = layout.strides.as_slice();
    let shape = Shape::from_lengths(alloc, axes)?;
    let strides = Strides::from_slice(alloc, &strides[axis..axis + axes.len()])?;
    Ok(Layout {
        shape,
        strides,
        offset: start,
    })
}

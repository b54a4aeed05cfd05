//! Transposes: the axes of a layout in another order.
ghost use Rattle.std.specs.Prelude.{◌≡◌, ℕ, ◌<◌, ◌≤◌, length, IfOk, All, option_copied};
ghost use Rattle.view_ops.specs.Clauses.{transposed_shape, transposed_index, transposed, AreAllAxes, View, IsViewOf, GivesView, KeepsNested};

use crate::axis_lists::axes_of;
use elem_descr::Refusal;
use shape_strides::{Layout, Shape, Strides};
use smallvec::SmallVec;
use std::alloc::Global;

/// The view whose axis k is the axis at position k of `axes`, in which a negative number counts
/// from the end; without `axes`, the axes are reversed. A wrong number of axes, an axis out of
/// range and a repeated axis are refused as `BadAxis`. A view without items has strides and offset
/// 0.
pub fn transpose(alloc: Global, layout: &Layout, axes: Option<&[i128]>) -> Result<Layout, Refusal>
    ensures view { GivesView layout.now result
        (transposed layout.now.shape (option_copied axes.entry)) }
    ensures nested { IfOk result (KeepsNested layout.now) }
{
    let named = axes_of(alloc, layout.shape.rank(), axes)?;
    let axes = named.as_slice();
    let old_lengths = layout.shape.as_slice();
    let old_strides = layout.strides.as_slice();
    let mut lengths = SmallVec::<usize, 4>::new(alloc);
    let mut strides = Strides::new(alloc);
    for axis in axes {
        lengths.push(old_lengths[*axis])?;
        strides.push(old_strides[*axis])?;
    }
    let shape = Shape::from_lengths(alloc, lengths.as_slice())?;
    Ok(Layout {
        shape,
        strides,
        offset: layout.offset,
    })
}

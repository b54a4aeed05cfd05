//! Sums of strides. A stride is read from its slice, and an offset is never below 0.
ghost use Rattle.std.specs.Prelude.{◌≡◌, ◌-◌, ◌*◌, ◌<◌, ◌≤◌, pos, neg_ℤ, ◌+ℤ◌, ◌-ℤ◌, ◌*ℤ◌, ◌≤ℤ◌, length, map, slice_index_or, All, IfOk};
ghost use Rattle.shape_strides.specs.Clauses.{max_axes, max_items, max_bytes, count, natural, c_strides, f_strides, reach_above, reach_below, max_reach};

use crate::shape::Shape;
use crate::strides::Strides;
use std::alloc::{AllocError, Global};

/// The offset `steps` steps further along an axis.
pub(crate) fn forward(from: usize, strides: &[isize], axis: usize, steps: usize) -> usize
    requires axis { axis < length strides.now }
    requires start { from ≤ max_bytes }
    requires steps { steps ≤ max_items }
    requires low { pos 0 ≤ℤ (pos from +ℤ slice_index_or strides.now axis (pos 0) *ℤ pos steps) }
    requires high { (pos from +ℤ slice_index_or strides.now axis (pos 0) *ℤ pos steps) ≤ℤ
        pos max_bytes }
    ensures { pos result ≡ pos from +ℤ slice_index_or strides.now axis (pos 0) *ℤ pos steps }
{
    (from as isize + strides[axis] * steps as isize) as usize
}

/// The offset `steps` steps back along an axis.
pub(crate) fn back(from: usize, strides: &[isize], axis: usize, steps: usize) -> usize
    requires axis { axis < length strides.now }
    requires start { from ≤ max_bytes }
    requires steps { steps ≤ max_items }
    requires low { pos 0 ≤ℤ (pos from -ℤ slice_index_or strides.now axis (pos 0) *ℤ pos steps) }
    requires high { (pos from -ℤ slice_index_or strides.now axis (pos 0) *ℤ pos steps) ≤ℤ
        pos max_bytes }
    ensures { pos result ≡ pos from -ℤ slice_index_or strides.now axis (pos 0) *ℤ pos steps }
{
    (from as isize - strides[axis] * steps as isize) as usize
}

/// How far the addresses of items lie from an offset, in bytes.
#[derive(Clone, Copy, Drop)]
pub(crate) struct Reach {
    pub below: u128,
    pub above: u128,
}

/// How far the last item of an axis is from its first.
fn axis_reach(stride: isize, len: usize) -> Reach
    requires { len ≤ max_items }
    ensures below { result.below ≡ natural (neg_ℤ stride) * (len - 1) }
    ensures above { result.above ≡ natural stride * (len - 1) }
    ensures low { result.below ≤ max_reach }
    ensures high { result.above ≤ max_reach }
{
    let bytes = stride.unsigned_abs() as u128 * len.saturating_sub(1) as u128;
    if stride < 0 {
        return Reach {
            below: bytes,
            above: 0,
        };
    }
    Reach {
        below: 0,
        above: bytes,
    }
}

/// How far the addresses reach from the offset.
pub(crate) fn reach_of(lengths: &[usize], strides: &[isize]) -> Reach
    requires one_each { length strides.now ≡ length lengths.now }
    requires axes { length lengths.now ≤ max_axes }
    requires lengths { All (λ n. n ≤ max_items) lengths.now }
    ensures below { result.below ≡ reach_below strides.now lengths.now }
    ensures above { result.above ≡ reach_above strides.now lengths.now }
    ensures low { result.below ≤ max_axes * max_reach }
    ensures high { result.above ≤ max_axes * max_reach }
{
    let mut reach = Reach { below: 0, above: 0 };
    for (axis, len) in lengths.iter().enumerate() {
        let own = axis_reach(strides[axis], *len);
        reach.below += own.below;
        reach.above += own.above;
    }
    reach
}

/// The strides of C order, or 0 for each axis if there are no items.
pub(crate) fn c_order_strides(
    alloc: Global,
    shape: &Shape,
    item: usize,
) -> Result<Strides, AllocError>
    requires item { 0 < item }
    requires bytes { count shape.now * item ≤ max_bytes }
    ensures some { IfOk result (λ s. 0 < count shape.now → s ≡ c_strides item shape.now) }
    ensures none { IfOk result (λ s. count shape.now ≡ 0 → s ≡ map (λ _. pos 0) shape.now) }
{
    let lengths = shape.as_slice();
    if shape.items() == 0 {
        return Strides::zeros(alloc, lengths.len());
    }
    let mut strides = Strides::new(alloc);
    let mut bytes = shape.items() * item;
    for len in lengths {
        bytes /= *len;
        strides.push(bytes as isize)?;
    }
    Ok(strides)
}

/// The strides of Fortran order, or 0 for each axis if there are no items.
pub(crate) fn f_order_strides(
    alloc: Global,
    shape: &Shape,
    item: usize,
) -> Result<Strides, AllocError>
    requires bytes { count shape.now * item ≤ max_bytes }
    ensures some { IfOk result (λ s. 0 < count shape.now → s ≡ f_strides item shape.now) }
    ensures none { IfOk result (λ s. count shape.now ≡ 0 → s ≡ map (λ _. pos 0) shape.now) }
{
    let lengths = shape.as_slice();
    if shape.items() == 0 {
        return Strides::zeros(alloc, lengths.len());
    }
    let mut strides = Strides::new(alloc);
    let mut step = item;
    for len in lengths {
        strides.push(step as isize)?;
        step *= *len;
    }
    Ok(strides)
}

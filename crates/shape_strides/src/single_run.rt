//! Merges trailing axes that one stride can walk.
ghost use Rattle.std.specs.Prelude.{IfOk, IfSome, MatchOption, OnOk, [], length, pos, reverse, ℕ, ℤ, ◌*◌, ◌<◌, ◌∷◌, ◌≡◌, ◌≤◌};
ghost use Rattle.shape_strides.specs.Clauses.{RunWithin, count, all_joined, join_outside, leads_over, strided_axes, Fits, offsets, max_items, GoesBy, run_offsets, IsLastRun, if_long, lengths_of};

use crate::layout::Layout;
use smallvec::SmallVec;
use std::alloc::{AllocError, Global};

/// Both axes as one, or nothing if they cannot be joined. An axis of length 1 joins with any.
fn one_of(outer: StridedAxis, inner: StridedAxis) -> Option<StridedAxis>
    requires outer { 1 ≤ outer.len }
    requires inner { 1 ≤ inner.len }
    requires items { outer.len * inner.len ≤ max_items }
    ensures joined { MatchOption result (join_outside outer (if_long inner) ≡ outer ∷ inner ∷ [])
        (λ one. (join_outside outer (if_long inner) ≡ if_long one)
        × (one.len ≡ outer.len * inner.len)) }
    ensures long { MatchOption result (2 ≤ outer.len)
        (λ one. one.len ≡ 1 → one.stride ≡ inner.stride) }
{
    if outer.len == 1 {
        return Some(inner);
    }
    if inner.len == 1 {
        return Some(outer);
    }
    if !leads_over(outer, inner) {
        return None;
    }
    Some(StridedAxis {
        len: outer.len * inner.len,
        stride: inner.stride,
    })
}

/// The run that the last axes make.
#[derive(Clone, Copy, Drop)]
pub(crate) struct LastRun {
    /// How many axes are outside of it.
    pub outside: usize,
    /// The axis that the last axes are joined to.
    pub along: StridedAxis,
}

/// The run of as many of the last axes as can be joined.
pub(crate) fn last_run(lengths: &[usize], strides: &[isize]) -> LastRun
    requires one_each { length strides.now ≡ length lengths.now }
    requires some { 0 < count lengths.now }
    requires items { count lengths.now ≤ max_items }
    ensures { IsLastRun strides.now lengths.now result.outside result.along }
{
    let mut along = StridedAxis { len: 1, stride: 0 };
    for axis in (0..lengths.len()).rev() {
        let outer = StridedAxis {
            len: lengths[axis],
            stride: strides[axis],
        };
        let Some(one) = one_of(outer, along) else {
            return LastRun {
                outside: axis + 1,
                along,
            };
        };
        along = one;
    }
    LastRun { outside: 0, along }
}

/// An axis: how many items it has, and how many bytes from one item to the next.
#[derive(Clone, Copy, Default, PartialEq, Eq, Drop)]
pub struct StridedAxis {
    pub len: usize,
    pub stride: isize,
}

/// Whether the outer stride is the inner stride times the inner length.
pub(crate) fn leads_over(outer: StridedAxis, inner: StridedAxis) -> bool
    requires { inner.len ≤ max_items }
    ensures { result ≡ leads_over outer inner }
{
    match inner.stride.checked_mul(inner.len as isize) {
        Some(end) => outer.stride == end,
        None => false,
    }
}

/// Adds an axis outside of joined axes, which are listed innermost first.
fn put_outside(axes: &mut SmallVec<StridedAxis, 8>, axis: StridedAxis) -> Result<(), AllocError>
    requires some { 0 < axis.len * count (lengths_of (reverse axes.old.items)) }
    requires items { axis.len * count (lengths_of (reverse axes.old.items)) ≤ max_items }
    ensures { OnOk result (reverse axes.new.items ≡ join_outside axis (reverse axes.old.items)) }
{
    if axis.len == 1 {
        return Ok(());
    }
    let Some(inner) = axes.pop() else {
        axes.push(axis)?;
        return Ok(());
    };
    if leads_over(axis, inner) {
        axes.push(StridedAxis {
            len: axis.len * inner.len,
            stride: inner.stride,
        })?;
        return Ok(());
    }
    axes.push(inner)?;
    axes.push(axis)?;
    Ok(())
}

/// The axes of a layout, joined, innermost first.
pub(crate) fn joined_axes(
    alloc: Global,
    layout: &Layout,
) -> Result<SmallVec<StridedAxis, 8>, AllocError>
    requires { 0 < count layout.now.shape }
    ensures { IfOk result (λ axes. reverse axes.items
        ≡ all_joined (strided_axes layout.now.strides layout.now.shape)) }
{
    let lengths = layout.shape.as_slice();
    let strides = layout.strides.as_slice();
    let mut axes = SmallVec::new(alloc);
    for axis in (0..lengths.len()).rev() {
        let outer = StridedAxis {
            len: lengths[axis],
            stride: strides[axis],
        };
        put_outside(&mut axes, outer)?;
    }
    Ok(axes)
}

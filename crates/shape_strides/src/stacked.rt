//! Layouts in which each axis steps over all that the axes with smaller steps reach.
ghost use Rattle.std.specs.Prelude.{◌≡◌, ◌↔◌, ◌+◌, ◌-◌, ◌*◌, ◌<◌, ◌≤◌, pos, nat_le, unsigned_abs, if◌then◌else◌, length, slice_index, slice_index_or, All, IsTrue};
ghost use Rattle.shape_strides.specs.Clauses.{max_axes, max_items, offsets, IsNested, reach_within, max_reach, IsStacked};

use crate::layout::Layout;

/// An axis without its direction.
#[derive(Clone, Copy, Drop)]
pub struct Axis {
    /// How many bytes from the start of one item to the start of the next, in either direction.
    pub step: usize,
    /// How many items there are.
    pub len: usize,
}

/// How far an axis reaches from its first item to its last, if it steps over at most `step` bytes,
/// and 0 otherwise.
fn axis_within(strides: &[isize], axis: usize, len: usize, step: usize) -> u128
    requires axis { axis < length strides.now }
    requires len { len ≤ max_items }
    ensures value { let own = unsigned_abs (slice_index_or strides.now axis (pos 0)) in
        result ≡ (if nat_le own step then own * (len - 1) else 0) }
    ensures bound { result ≤ max_reach }
{
    let own = strides[axis].unsigned_abs();
    if own > step {
        return 0;
    }
    own as u128 * len.saturating_sub(1) as u128
}

/// How far the axes with steps of at most `step` bytes reach.
fn reach_within(lengths: &[usize], strides: &[isize], step: usize) -> u128
    requires one_each { length strides.now ≡ length lengths.now }
    requires axes { length lengths.now ≤ max_axes }
    requires lengths { All (λ n. n ≤ max_items) lengths.now }
    ensures value { result ≡ reach_within step strides.now lengths.now }
    ensures bound { result ≤ max_axes * max_reach }
{
    let mut reach = 0;
    for (axis, len) in lengths.iter().enumerate() {
        reach += axis_within(strides, axis, *len, step);
    }
    reach
}

impl Layout {
    /// Whether the axes can be put in an order in which each axis of 2 items or more steps over an
    /// item of `item` bytes and all that the axes before it reach. This holds for a layout without
    /// items.
    pub fn is_stacked(&self, item: usize) -> bool
        requires { 1 ≤ item }
        ensures value { IsTrue result ↔ IsStacked self.now item }
        ensures nested { IsStacked self.now item → IsNested (offsets self.now) item }
    {
        if self.shape.items() == 0 {
            return true;
        }
        let lengths = self.shape.as_slice();
        let strides = self.strides.as_slice();
        for axis in 0..lengths.len() {
            let step = strides[axis].unsigned_abs();
            let below = item as u128 + reach_within(lengths, strides, step);
            if lengths[axis] >= 2 && below > step as u128 * lengths[axis] as u128 {
                return false;
            }
        }
        true
    }
}

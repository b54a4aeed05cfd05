//! Decides from their axes whether items of two layouts in one block share bytes.
ghost use Rattle.std.specs.Prelude.{IfSome, IsTrue, drop, length, take, ◌++◌, ◌+◌, ◌≡◌, ◌≤◌};
ghost use Rattle.overlap_copy.specs.Clauses.{do_ranges_meet, have_common_byte, Fits, max_axes, max_bytes, offsets};

use crate::fast::axis_sums::has_sum;
use shape_strides::{Axis, Layout};

/// Writes axes over others, starting at an index.
fn put(all: &mut [Axis], from: usize, axes: &[Axis])
    requires { from + length axes.now ≤ length all.old }
    ensures { all.new ≡ take from all.old ++ axes.now ++ drop (from + length axes.now) all.old }
{
    all[from..from + axes.len()].copy_from_slice(axes);
}

/// Some axes, followed by others.
fn both(axes: &[Axis], others: &[Axis]) -> [Axis; 128]
    requires few { length axes.now ≤ max_axes }
    requires few_others { length others.now ≤ max_axes }
    ensures { take (length axes.now + length others.now) result
        ≡ axes.now ++ others.now }
{
    let mut all = [Axis { step: 0, len: 0 }; 128];
    put(&mut all, 0, axes);
    put(&mut all, axes.len(), others);
    all
}

/// Whether an item of `a` and an item of `b` share a byte, for layouts whose byte ranges overlap, or
/// nothing if a bounded number of steps does not decide that.
/// Two items share a byte if and only if the height of the first above the lowest item of `a`, plus
/// the depth of the second below the highest item of `b`, is within bounds.
pub(crate) fn share_by_axes(a: &Layout, a_item: usize, b: &Layout, b_item: usize) -> Option<bool>
    requires a_fits { Fits a.now max_bytes a_item }
    requires b_fits { Fits b.now max_bytes b_item }
    requires meet { IsTrue (do_ranges_meet (offsets a.now) a_item (offsets b.now) b_item) }
    ensures { IfSome result
        (λ yes. yes ≡ have_common_byte (offsets a.now) a_item (offsets b.now) b_item) }
{
    let a_axes = a.axes();
    let b_axes = b.axes();
    let up = &a_axes[..a.shape.rank()];
    let down = &b_axes[..b.shape.rank()];
    let mut axes = both(up, down);
    let high = b.span(b_item).end - a.span(a_item).start - 1;
    let low = (high + 2).saturating_sub(a_item + b_item);
    has_sum(&mut axes[..up.len() + down.len()], low, high)
}

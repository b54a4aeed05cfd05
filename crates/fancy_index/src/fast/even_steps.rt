//! Places at even steps: adjacent ones, and an axis for the places of a plan that rise by one step.
ghost use Rattle.std.specs.Prelude.{IsTrue, get_or, length, ℕ, ◌*◌, ◌+◌, ◌<◌, ◌≡◌, ◌≤◌};
ghost use Rattle.fancy_index.specs.Words.{max_items};

use crate::plan_rows::PlanAxes;
use crate::tuning::MANY_SHIFTS;
use shape_strides::{Layout, MAX_ITEMS, Shape, Strides};
use std::alloc::{AllocError, Global};

/// Whether each shift is the one before it plus a step.
fn rise_evenly(shifts: &[u32], step: u32) -> bool
    requires some { 1 ≤ length shifts.now }
    requires few { length shifts.now ≤ max_items }
    ensures { IsTrue result → (k : ℕ) → k < length shifts.now
        → get_or shifts.now k 0 ≡ get_or shifts.now 0 0 + k * step }
{
    let n = shifts.len();
    let last = shifts[0] as usize + (n - 1) * step as usize;
    if shifts[n - 1] as usize != last {
        return false;
    }
    let mut even = true;
    let mut next = shifts[0];
    for k in 1..n {
        next += step;
        even &= shifts[k] == next;
    }
    even
}

/// Whether items of `width` bytes at these shifts are adjacent. Wide items gain nothing from it, so
/// for these it is `false`.
pub(crate) fn are_adjacent(shifts: &[u32], width: usize) -> bool
    requires some { 1 ≤ length shifts.now }
    requires few { length shifts.now ≤ 128 }
    ensures narrow { IsTrue result → width ≤ 64 }
    ensures even { IsTrue result → (k : ℕ) → k < length shifts.now
        → get_or shifts.now k 0 ≡ get_or shifts.now 0 0 + k * width }
{
    width <= 64 && rise_evenly(shifts, width as u32)
}

impl PlanAxes {
    ghost use Rattle.fancy_index.specs.inside.Kept.{AreEven, offsets_from};
    ghost use Rattle.std.specs.Prelude.{IfOk, IfSome};

    /// The step by which the shifts rise, if they are many, rise evenly, and each selects one item.
    pub(crate) fn even_step(&self) -> Option<u32>
        ensures { IfSome result (AreEven self.now) }
    {
        let shifts = self.shifts.as_slice();
        let n = shifts.len();
        if n < MANY_SHIFTS || n > MAX_ITEMS || self.inner.shape.items() != 1 {
            return None;
        }
        let step = shifts[1].checked_sub(shifts[0])?;
        // Most shifts that do not rise evenly show it soon.
        if !rise_evenly(&shifts[..MANY_SHIFTS], step) || !rise_evenly(shifts, step) {
            return None;
        }
        Some(step)
    }

    /// The axes of the same items, with an inner axis in place of the shifts, which rise by `step`:
    /// the items are then copied as a run. Its frame is large, so it is not inlined.
    #[inline(never)]
    pub(crate) fn evened(&self, alloc: Global, step: u32) -> Result<Option<PlanAxes>, AllocError>
        requires { AreEven self.now step }
        ensures { IfOk result
            (λ even. IfSome even (λ axes. offsets_from axes ≡ offsets_from self.now)) }
    {
        let shape = Shape::from_lengths(alloc, &[self.shifts.len()])?;
        let strides = Strides::from_slice(alloc, &[step as isize])?;
        let Some(inner) = Layout::new(shape, strides, self.inner.offset) else {
            return Ok(None);
        };
        let shifts = vec![in alloc; self.shifts[0]; 1]?;
        let outer = Layout::try_copy(alloc, &self.outer)?;
        Ok(Some(PlanAxes {
            outer,
            shifts,
            inner,
        }))
    }
}

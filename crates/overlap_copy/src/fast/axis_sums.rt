//! Decides whether some sum along axes lies within bounds.
ghost use Rattle.std.specs.Prelude.{IfSome, IsTrue, false, ◌<◌, ◌↔◌, ◌≡◌};
ghost use Rattle.overlap_copy.specs.Clauses.{AreForward, HasSum, reach_of, IsTurn};

use crate::apart::common_divisor;
use crate::tuning::MAX_STEPS;
use shape_strides::Axis;

/// How far the axes reach.
fn reach_of(axes: &[Axis]) -> usize
    requires { AreForward axes.now }
    ensures { result ≡ reach_of axes.now }
{
    let mut reach = 0;
    for axis in axes {
        reach += axis.step * (axis.len - 1);
    }
    reach
}

/// Whether some sum along the axes lies within the bounds. It reorders the axes, and takes no memory
/// and a bounded number of steps; if these do not decide, it returns nothing.
pub(crate) fn has_sum(axes: &mut [Axis], low: usize, high: usize) -> Option<bool>
    requires { AreForward axes.old }
    ensures { IfSome result (λ yes. IsTrue yes ↔ HasSum axes.old low high) }
{
    // The widest first.
    axes.sort_unstable_by_key(|axis| axis.step);
    axes.reverse();
    let reach = reach_of(axes);
    let mut steps = MAX_STEPS;
    search(axes, reach, low, high, &mut steps)
}

/// The fewest steps along this axis that equal whole steps along the next one. If less than `far`
/// remains, the search can trade them for steps along the next axis, so it may stop here.
#[derive(Clone, Copy, Drop)]
struct Turn {
    steps: usize,
    far: usize,
}

/// The fewest steps along an axis that lead as far as some along the first of the others.
fn turn_at(axis: Axis, others: &[Axis]) -> Turn
    requires step { 0 < axis.step }
    requires forward { AreForward others.now }
    ensures { IsTurn axis others.now result.steps result.far }
{
    let still = Turn { steps: 1, far: 0 };
    let [next, ..] = others else {
        return still;
    };
    if next.step == 0 {
        return still;
    }
    let divisor = common_divisor(axis.step, next.step);
    let instead = axis.step / divisor;
    Turn {
        steps: next.step / divisor,
        far: next.step * next.len.saturating_sub(instead),
    }
}

/// Whether some sum along the axes lies within the bounds. Tries the items of the first axis, each
/// by a search among the others, which takes a step. It starts at the first item from which the
/// others can reach the bounds, and stops where steps back would lead to items that were tried.
pub(crate) fn search(
    axes: &[Axis],
    reach: usize,
    low: usize,
    high: usize,
    steps: &mut usize,
) -> Option<bool>
    requires forward { AreForward axes.now }
    requires reach { reach ≡ reach_of axes.now }
    ensures { IfSome result (λ yes. IsTrue yes ↔ HasSum axes.now low high) }
{
    let [first, rest @ ..] = axes else {
        return Some(low == 0);
    };
    let beyond = reach - first.step * (first.len - 1);
    if first.step == 0 {
        return search(rest, beyond, low, high, steps);
    }
    let least = low.saturating_sub(beyond).div_ceil(first.step);
    for k in least..first.len {
        let taken = first.step * k;
        if taken > high {
            return Some(false);
        }
        let left = high - taken;
        if k > 0 {
            let turn = turn_at(*first, rest);
            if k >= turn.steps && left < turn.far {
                return Some(false);
            }
        }
        *steps = steps.checked_sub(1)?;
        if search(rest, beyond, low.saturating_sub(taken), left, steps)? {
            return Some(true);
        }
    }
    Some(false)
}

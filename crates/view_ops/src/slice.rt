//! Slices of an axis, as Python's `slice.indices` has them.
ghost use Rattle.std.specs.Prelude.{◌≡◌, ℕ, ◌+◌, ◌-◌, ◌*◌, ◌^◌, unsigned_abs, ◌<◌, ◌≤◌, ◌≢◌, ◌↔◌, pos, ◌+ℤ◌, ◌-ℤ◌, ◌*ℤ◌, ◌<ℤ◌, ◌≤ℤ◌, MatchResult, IfOk, All, IsTrue, Ok, Err};
ghost use Rattle.view_ops.specs.Clauses.{int_max, lowest, highest, from_front, is_place, clamped, start_of, stop_of, slice_indices, run_number, run_numbers, IsRunWithin};

use elem_descr::Refusal;

/// The numbers `first`, `first + step`, `first + 2 * step`, .., of which there are `count`.
#[derive(Clone, Copy, Debug, PartialEq, Eq)]
pub struct Progression {
    pub first: usize,
    pub step: i128,
    pub count: usize,
}

/// The least position of a bound.
fn lowest(step: i128) -> i128
    ensures { result ≡ lowest step }
{
    if step < 0 { -1 } else { 0 }
}

/// The greatest position of a bound.
fn highest(n: usize, step: i128) -> i128
    ensures { result ≡ highest n step }
{
    lowest(step) + n as i128
}

/// A bound as counted from the front.
pub fn from_front(n: usize, at: i128) -> i128
    ensures { result ≡ from_front n at }
{
    if at < 0 { at + n as i128 } else { at }
}

/// Whether a number is one of `n` positions.
pub fn is_place(n: usize, at: i128) -> bool
    ensures { result ≡ is_place n at }
{
    let at = from_front(n, at);
    !(at < 0) && at < n as i128
}

/// A bound of an axis of `n` items, moved into range as Python does.
fn clamped(n: usize, step: i128, at: i128) -> i128
    ensures value { result ≡ clamped n step at }
    ensures low { lowest step ≤ℤ result }
    ensures high { result ≤ℤ highest n step }
{
    from_front(n, at).max(lowest(step)).min(highest(n, step))
}

fn start_of(n: usize, step: i128, start: Option<i128>) -> i128
    ensures value { result ≡ start_of n step start }
    ensures low { lowest step ≤ℤ result }
    ensures high { result ≤ℤ highest n step }
{
    match start {
        None if step < 0 => highest(n, step),
        None => lowest(step),
        Some(at) => clamped(n, step, at),
    }
}

fn stop_of(n: usize, step: i128, stop: Option<i128>) -> i128
    ensures value { result ≡ stop_of n step stop }
    ensures low { lowest step ≤ℤ result }
    ensures high { result ≤ℤ highest n step }
{
    match stop {
        None if step < 0 => lowest(step),
        None => highest(n, step),
        Some(at) => clamped(n, step, at),
    }
}

/// The number of steps of this length, from 0 on, that end below `gap`.
fn steps_below(gap: usize, step: i128) -> usize
    requires { step ≢ pos 0 }
    ensures { (k : ℕ) → (k < result) ↔ (k * unsigned_abs step < gap) }
{
    (gap as u128).div_ceil(step.unsigned_abs()) as usize
}

/// The distance from the start to the stop in the direction of the step, or 0.
fn gap(start: i128, stop: i128, step: i128) -> usize
    requires start_low { lowest step ≤ℤ start }
    requires start_high { start ≤ℤ highest usize.MAX step }
    requires stop_low { lowest step ≤ℤ stop }
    requires stop_high { stop ≤ℤ highest usize.MAX step }
    ensures back { step <ℤ pos 0 → pos result ≡ int_max (start -ℤ stop) (pos 0) }
    ensures forth { pos 0 ≤ℤ step → pos result ≡ int_max (stop -ℤ start) (pos 0) }
{
    if step < 0 {
        return (start - stop).max(0) as usize;
    }
    (stop - start).max(0) as usize
}

/// The slice of an axis of `n` items, as Python's `slice(start, stop, step).indices(n)`. A step of
/// 0 is refused as `ZeroStep`.
pub fn slice_of(
    n: usize,
    start: Option<i128>,
    stop: Option<i128>,
    step: Option<i128>,
) -> Result<Progression, Refusal>
    ensures value { MatchResult result
        (λ run. slice_indices n start stop step ≡ Ok (run_numbers run))
        (λ refusal. slice_indices n start stop step ≡ Err refusal) }
    ensures within { IfOk result (λ run. IsRunWithin run n) }
{
    let step = step.unwrap_or(1);
    if step == 0 {
        return Err(Refusal::ZeroStep);
    }
    let start = start_of(n, step, start);
    let stop = stop_of(n, step, stop);
    let count = steps_below(gap(start, stop, step), step);
    let first = start.max(0) as usize;
    Ok(Progression { first, step, count })
}

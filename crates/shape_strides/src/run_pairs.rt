//! The items of two layouts with the same number of items, run by run.
ghost use Rattle.std.specs.Prelude.{◌≡◌, ◌<◌, ◌≤◌, ℕ, ℤ, pos, ◌+ℤ◌, ◌*ℤ◌, ◌≤ℤ◌, length, All};
ghost use Rattle.shape_strides.specs.Words.{flat_map};
ghost use Rattle.shape_strides.specs.Limits.{max_items, max_bytes};
ghost use Rattle.shape_strides.specs.Indexes.{count};
ghost use Rattle.shape_strides.specs.Layouts.{offsets, Fits};
ghost use Rattle.shape_strides.specs.Runs.{run_offsets, GoesBy, RunWithin};
ghost use Rattle.shape_strides.specs.RunPairs.{cut, run_pairs};
ghost use Rattle.shape_strides.specs.PairWalks.{IsWhole};
ghost use Rattle.shape_strides.specs.inside.Heads.{IsHead, both};

use crate::layout::Layout;
use crate::runs::{Run, Runs};
use std::marker::Model;

/// A run in each of two layouts, of the same length.
#[derive(Clone, Copy, Drop)]
pub struct RunPair {
    pub first: Run,
    pub second: Run,
}

/// What follows the first `n` items of a run, before the other runs: the rest of it, or the next
/// run.
fn after(runs: &mut Runs<'_>, run: Run, n: usize) -> Option<Run>
    requires run { IsWhole run }
    requires n { n ≤ run.count }
    ensures { IsHead result runs.new (cut n run runs.old) }
{
    if run.count == n {
        return runs.next();
    }
    Some(Run {
        offset: run.offset_after(n),
        count: run.count - n,
        step: run.step,
    })
}

fn both(first: Option<Run>, second: Option<Run>) -> Option<RunPair>
    ensures { result ≡ both first second }
{
    let first = first?;
    let second = second?;
    Some(RunPair { first, second })
}

/// The items of two layouts with the same number of items, each in C order, seen as the list of the
/// remaining pairs of runs. It takes no memory.
#[derive(Drop)]
pub struct RunPairs<'a> {
    at: Option<RunPair>,
    first: Runs<'a>,
    second: Runs<'a>,
}

impl<'a> Model for RunPairs<'a> {
    ghost use Rattle.std.specs.Prelude.{List};
    ghost use Rattle.shape_strides.specs.declared.run_pairs.RunPair.{RunPair};

    ghost Value = { List RunPair };

    ghost use Rattle.shape_strides.specs.RunPairs.{pairs_left};
    ghost use Rattle.shape_strides.specs.PairWalks.{IsAtPair};

    ghost view = { λ r. pairs_left r.at r.first r.second };

    ghost invariant = { λ r. IsAtPair r.at r.first r.second };
}

impl<'a> RunPairs<'a> {
    /// The pairs of runs of two layouts. A pair ends where a run of either layout ends.
    pub fn new(first: &'a Layout, second: &'a Layout) -> RunPairs<'a>
        requires { count first.now.shape ≡ count second.now.shape }
        ensures pairs { result ≡ run_pairs first.now second.now }
        ensures first { flat_map (λ pair. run_offsets pair.first) (run_pairs first.now second.now)
            ≡ offsets first.now }
        ensures second { flat_map (λ pair. run_offsets pair.second) (run_pairs first.now second.now)
            ≡ offsets second.now }
        ensures first_lie { (len item : ℕ) → Fits first.now len item
            → All (λ pair. RunWithin len item pair.first) (run_pairs first.now second.now) }
        ensures second_lie { (len item : ℕ) → Fits second.now len item
            → All (λ pair. RunWithin len item pair.second) (run_pairs first.now second.now) }
        ensures counts { All (λ pair. pair.first.count ≡ pair.second.count)
            (run_pairs first.now second.now) }
        ensures alone { (step other : ℤ) → 0 < count first.now.shape
            → GoesBy step (offsets first.now) → GoesBy other (offsets second.now)
            → length (run_pairs first.now second.now) ≡ 1 }
    {
        // For the prover alone: there are no more items than the limit.
        let _lengths = first.shape.as_slice();
        let mut first = Runs::new(first);
        let mut second = Runs::new(second);
        RunPairs {
            at: both(first.next(), second.next()),
            first,
            second,
        }
    }
}

impl<'a> Iterator for RunPairs<'a> {
    ghost use Rattle.std.specs.Iterator.{YieldsFirst, item_count};

    type Item = RunPair;

    ghost next_gives = { YieldsFirst (λ left. left) };

    ghost remaining = { item_count (λ left. left) };

    fn next(&mut self) -> Option<RunPair> {
        let mut pair = self.at?;
        let count = pair.first.count.min(pair.second.count);
        let first = after(&mut self.first, pair.first, count);
        let second = after(&mut self.second, pair.second, count);
        self.at = both(first, second);
        pair.first.count = count;
        pair.second.count = count;
        Some(pair)
    }
}

//! The axes of a plan, and their items: row by row, or run by run.
ghost use Rattle.fancy_index.specs.Plans.{put_each};
ghost use Rattle.std.specs.Prelude.{All, IsTrue, [], length, map, ◌<◌, ◌∷◌, ◌≡◌, ◌≤◌};
ghost use Rattle.fancy_index.specs.Words.{EachWithin, LieWithin, max_bytes, offsets, run_offsets};
ghost use Rattle.fancy_index.specs.inside.Moved.{AllStart, AreStarts, IsMoved, IsRunOf, moved_offset};

use arrays::strided;
use raw_block::RawBlock;
use shape_strides::{Layout, Run};

/// The axes of a plan. Both layouts begin at the item with all points at 0.
#[derive(Drop)]
pub struct PlanAxes {
    /// The axes before those of the arrays.
    pub(crate) outer: Layout,
    /// For each item of the broadcast arrays, the offset of the first item of the result that it
    /// selects.
    pub(crate) shifts: Vec<u32>,
    /// The axes after those of the arrays.
    pub(crate) inner: Layout,
    pub(crate) ghost small: { inner.offset ≤ max_bytes },
    pub(crate) ghost starts: { AllStart outer shifts.items inner },
}

/// The items of the inner axes at a place of the outer ones, once for each shift.
#[derive(Clone, Copy, Drop)]
pub(crate) struct Shifted<'a> {
    pub shifts: &'a [u32],
    pub inner: &'a Layout,
    pub place: usize,
    pub ghost small: { inner.now.offset ≤ max_bytes },
    pub ghost starts: { AreStarts inner.now.offset (offsets inner.now) shifts.now place },
}

/// The items of a layout, moved so that it begins at `start`.
#[derive(Clone, Copy, Drop)]
pub(crate) struct MovedLayout<'a> {
    pub layout: &'a Layout,
    pub start: usize,
    pub ghost small: { layout.now.offset ≤ max_bytes },
    pub ghost moved: { All (IsMoved layout.now.offset start) (offsets layout.now) },
}

/// An offset, moved by the distance from `base` to `start`.
pub(crate) fn moved(base: usize, start: usize, offset: usize) -> usize
    requires base { base ≤ max_bytes }
    requires moved { IsMoved base start offset }
    ensures value { result ≡ moved_offset base start offset }
    ensures bound { result < max_bytes }
{
    start + offset - base
}

impl PlanAxes {
    ghost use Rattle.fancy_index.specs.inside.Moved.{shifted_all};
    ghost use Rattle.fancy_index.specs.inside.Kept.{shifted_offsets};

    /// The items at a place of the outer axes.
    pub(crate) fn rows(&self, place: usize) -> Shifted<'_>
        requires { let inner = self.now.inner in
            AreStarts inner.offset (offsets inner) self.now.shifts.items place }
        ensures { let inner = self.now.inner in
            shifted_offsets result
            ≡ shifted_all inner.offset self.now.shifts.items (offsets inner) place }
    {
        Shifted {
            shifts: self.shifts.as_slice(),
            inner: &self.inner,
            place,
        }
    }
}

impl Shifted<'_> {
    ghost use Rattle.std.specs.Prelude.{IsTrue};
    ghost use Rattle.fancy_index.specs.inside.Kept.{first_offsets, shifted_offsets};

    /// Whether the inner axes have one item.
    pub(crate) fn is_single(self) -> bool
        ensures { IsTrue result → shifted_offsets self.entry ≡ first_offsets self.entry }
    {
        self.inner.shape.items() == 1
    }
}

/// A run, moved by the distance from `base` to `start`.
pub(crate) fn moved_run(run: Run, base: usize, start: usize) -> Run
    requires base { base ≤ max_bytes }
    requires some { 1 ≤ run.count }
    requires lies { LieWithin (run.count ∷ []) (run.step ∷ []) run.offset max_bytes 1 }
    requires moved { All (IsMoved base start) (run_offsets run) }
    ensures { IsRunOf (map (moved_offset base start) (run_offsets run)) result }
{
    Run {
        offset: moved(base, start, run.offset),
        count: run.count,
        step: run.step,
    }
}

impl<'a> MovedLayout<'a> {
    ghost use Rattle.std.specs.Prelude.{IfSome};
    ghost use Rattle.fancy_index.specs.inside.Kept.{moved_offsets};

    /// All items as a single run, if there are any and they are one.
    pub(crate) fn as_run(self) -> Option<Run>
        ensures run { IfSome result (λ run. IsRunOf (moved_offsets self.entry) run) }
        ensures some { IfSome result (λ run. 1 ≤ run.count) }
    {
        if self.layout.shape.items() == 0 {
            return None;
        }
        let run = self.layout.as_one_run()?;
        Some(moved_run(run, self.layout.offset, self.start))
    }
}

/// Writes the item to each item of a run.
pub(crate) fn fill_run(block: &mut RawBlock, to: Run, item: &[u8])
    requires { EachWithin (length block.old) to.offset to.step (length item.now) to.count }
    ensures written { block.new ≡ put_each (run_offsets to) item.now block.old }
    ensures len { length block.new ≡ length block.old }
{
    block.fill_strided(strided(to, item.len()).steps, item, to.count);
}

//! The items of a layout, run by run.
ghost use Rattle.shape_strides.specs.Indexes.{count};
ghost use Rattle.shape_strides.specs.Layouts.{Fits, offsets};
ghost use Rattle.shape_strides.specs.Limits.{max_bytes, max_items};
ghost use Rattle.shape_strides.specs.Runs.{GoesBy, RunWithin, run_along, run_offsets};
ghost use Rattle.std.specs.Prelude.{All, IfSome, IsTrue, MatchOption, length, map, ℕ, ℤ, ◌+◌, ◌<◌, ◌↔◌, ◌≡◌, ◌≤◌};
ghost use Rattle.shape_strides.specs.Words.{flat_map};

use crate::layout::Layout;
use crate::single_run::{StridedAxis, last_run};
use crate::walk::Walk;
use std::marker::Model;

/// Items in C order, each of them one step after the one before.
#[derive(Clone, Copy, Drop)]
pub struct Run {
    /// The offset of the first item.
    pub offset: usize,
    /// How many items there are.
    pub count: usize,
    /// How many bytes each item is after the one before. It may be negative, and is 0 for a layout
    /// of one item.
    pub step: isize,
}

impl Run {
    ghost use Rattle.std.specs.Prelude.{pos, ◌+ℤ◌, ◌*ℤ◌, ◌≤ℤ◌};
    ghost use Rattle.shape_strides.specs.Limits.{max_items, max_bytes};

    /// The offset of the item `steps` steps after the first.
    pub fn offset_after(self, steps: usize) -> usize
        requires start { self.offset ≤ max_bytes }
        requires steps { steps ≤ max_items }
        requires low { pos 0 ≤ℤ (pos self.offset +ℤ self.step *ℤ pos steps) }
        requires high { (pos self.offset +ℤ self.step *ℤ pos steps) ≤ℤ pos max_bytes }
        ensures { pos result ≡ pos self.offset +ℤ self.step *ℤ pos steps }
    {
        (self.offset as isize + self.step * steps as isize) as usize
    }

    /// Whether items of `width` bytes are adjacent.
    pub fn is_packed(self, width: usize) -> bool
        ensures { IsTrue result ↔ self.step ≡ pos width }
    {
        self.step as i128 == width as i128
    }
}

/// The items of a layout in C order, seen as the list of the remaining runs. Each run covers as
/// many of the last axes as can be joined. It takes no memory, whatever the number of axes.
#[derive(Drop)]
pub struct Runs<'a> {
    starts: Walk<'a>,
    along: StridedAxis,
}

impl<'a> Model for Runs<'a> {
    ghost use Rattle.std.specs.Prelude.{List, map};
    ghost use Rattle.shape_strides.specs.declared.runs.Run.{Run};

    ghost Value = { List Run };

    ghost use Rattle.shape_strides.specs.Runs.{run_along};

    ghost view = { λ r. map (run_along r.along) r.starts };
}

impl<'a> Runs<'a> {
    ghost use Rattle.shape_strides.specs.declared.layout.Layout.{Layout};
    ghost use Rattle.shape_strides.specs.Limits.{max_axes, max_items};
    ghost use Rattle.shape_strides.specs.Runs.{run_offsets, runs, GoesBy};
    ghost use Rattle.shape_strides.specs.Walks.{AreAxes};

    /// The runs of a layout.
    pub fn new(layout: &'a Layout) -> Runs<'a>
        ensures runs { result ≡ runs layout.now }
        ensures offsets { flat_map run_offsets (runs layout.now) ≡ offsets layout.now }
        ensures alone { (step : ℤ) → 0 < count layout.now.shape → GoesBy step (offsets layout.now)
            → length (runs layout.now) ≡ 1 }
        ensures within { (len item : ℕ) → Fits layout.now len item
            → All (λ offset. offset + item ≤ len) (offsets layout.now) }
        ensures lie { (len item : ℕ) → Fits layout.now len item
            → All (RunWithin len item) (runs layout.now) }
        ensures some { All (λ run. 1 ≤ run.count) (runs layout.now) }
    {
        Runs::over(
            layout.shape.as_slice(),
            layout.strides.as_slice(),
            layout.offset,
            layout.shape.items(),
        )
    }

    /// The runs of the layout with these axes.
    pub(crate) fn over(
        lengths: &'a [usize],
        strides: &'a [isize],
        offset: usize,
        items: usize,
    ) -> Runs<'a>
        requires axes { AreAxes lengths.now strides.now offset }
        requires few { length lengths.now ≤ max_axes }
        requires items { items ≡ count lengths.now }
        requires most { items ≤ max_items }
        ensures { (l : Layout) → l.shape ≡ lengths.now → l.strides ≡ strides.now → l.offset ≡ offset
            → result ≡ runs l }
    {
        if items == 0 {
            return Runs {
                starts: Walk::over(lengths, strides, offset, 0),
                along: StridedAxis { len: 0, stride: 0 },
            };
        }
        let last = last_run(lengths, strides);
        let starts = Walk::over(
            &lengths[..last.outside],
            &strides[..last.outside],
            offset,
            items / last.along.len,
        );
        Runs {
            starts,
            along: last.along,
        }
    }
}

impl<'a> Iterator for Runs<'a> {
    ghost use Rattle.std.specs.Iterator.{YieldsFirst, item_count};

    type Item = Run;

    ghost next_gives = { YieldsFirst (λ left. left) };

    ghost remaining = { item_count (λ left. left) };

    fn next(&mut self) -> Option<Run> {
        let offset = self.starts.next()?;
        Some(Run {
            offset,
            count: self.along.len,
            step: self.along.stride,
        })
    }
}

/// Where rows of items begin, as runs of offsets, and the axis that each row goes along.
#[derive(Drop)]
pub struct Rows<'a> {
    pub starts: Runs<'a>,
    pub along: StridedAxis,
}

impl Layout {
    /// The run that all items make: one or more, each of them one step after the one before. It
    /// takes no memory.
    pub fn as_one_run(&self) -> Option<Run>
        ensures items { IfSome result (λ run. run_offsets run ≡ offsets self.now) }
        ensures lie { (len item : ℕ) → Fits self.now len item
            → IfSome result (RunWithin len item) }
        ensures found { (step : ℤ) → 2 ≤ length (offsets self.now) → GoesBy step (offsets self.now)
            → MatchOption result ⊥ (λ run. run.step ≡ step) }
    {
        if self.shape.items() == 0 {
            return None;
        }
        let run = last_run(self.shape.as_slice(), self.strides.as_slice());
        if run.outside > 0 {
            return None;
        }
        Some(Run {
            offset: self.offset,
            count: run.along.len,
            step: run.along.stride,
        })
    }

    /// The run that all items make, if there are two or more.
    pub fn as_run(&self) -> Option<Run>
        ensures items { IfSome result (λ run. run_offsets run ≡ offsets self.now) }
        ensures two { IfSome result (λ run. 2 ≤ run.count) }
        ensures few { IfSome result (λ run. run.count ≤ max_items) }
        ensures lie { (len item : ℕ) → Fits self.now len item
            → IfSome result (RunWithin len item) }
        ensures found { (step : ℤ) → 2 ≤ length (offsets self.now) → GoesBy step (offsets self.now)
            → MatchOption result ⊥ (λ run. run.step ≡ step) }
    {
        if self.shape.items() < 2 {
            return None;
        }
        self.as_one_run()
    }

    /// The items in C order as rows, each of which is a run; the rows that begin in one run of
    /// starts are at equal steps. It takes no memory.
    pub fn rows(&self) -> Rows<'_>
        ensures offsets { flat_map run_offsets
            (map (run_along result.along) (flat_map run_offsets result.starts)) ≡ offsets self.now }
        ensures lie { All (RunWithin max_bytes 1)
            (map (run_along result.along) (flat_map run_offsets result.starts)) }
        ensures begin { All (RunWithin max_bytes 1) result.starts }
        ensures some { All (λ run. 1 ≤ run.count) result.starts }
    {
        let items = self.shape.items();
        let lengths = self.shape.as_slice();
        let strides = self.strides.as_slice();
        if items == 0 {
            return Rows {
                starts: Runs::over(lengths, strides, self.offset, 0),
                along: StridedAxis { len: 0, stride: 0 },
            };
        }
        let last = last_run(lengths, strides);
        let starts = Runs::over(
            &lengths[..last.outside],
            &strides[..last.outside],
            self.offset,
            items / last.along.len,
        );
        Rows {
            starts,
            along: last.along,
        }
    }
}

//! The offsets of the items with given ranks.
ghost use Rattle.std.specs.Prelude.{All, slice_index, ◌<◌, ◌≡◌, ◌≤◌};
ghost use Rattle.fancy_index.specs.Clauses.{count, max_bytes, offsets, IsAtRun, led};

use crate::fast::single_run::run_to_offsets;
use shape_strides::{Layout, Run, Runs};

/// A run of a layout, the rank of its first item, and the runs after it.
#[derive(Drop)]
pub(crate) struct RunAt<'a> {
    layout: &'a Layout,
    run: Run,
    first: usize,
    later: Runs<'a>,
}

/// The offset of the item with this rank. It continues from the last call, so rising ranks take a
/// single walk.
fn offset_at(at: &mut RunAt<'_>, rank: usize) -> usize
    requires at { IsAtRun at.old }
    requires rank { rank < count at.old.layout.now.shape }
    ensures value { result ≡ slice_index (offsets at.old.layout.now) rank }
    ensures bound { result ≤ max_bytes }
    ensures at { IsAtRun at.new }
    ensures layout { at.new.layout.now ≡ at.old.layout.now }
{
    let _items = at.layout.shape.items();
    if rank < at.first {
        return at.layout.at_rank(rank);
    }
    while rank - at.first >= at.run.count {
        at.first += at.run.count;
        match at.later.next() {
            Some(run) => at.run = run,
            None => unreachable!(),
        }
    }
    at.run.offset_after(rank - at.first)
}

/// Replaces each rank by its offset, run by run. Its loop needs all registers, so it is not inlined.
#[inline(never)]
fn walk_to_offsets(layout: &Layout, ranks: &mut [u32])
    requires some { 0 < count layout.now.shape }
    requires ranks { All (λ rank. rank < count layout.now.shape) ranks.old }
    ensures { ranks.new ≡ led (offsets layout.now) ranks.old }
{
    let mut later = Runs::new(layout);
    let Some(run) = later.next() else {
        unreachable!()
    };
    let mut at = RunAt {
        layout,
        run,
        first: 0,
        later,
    };
    for rank in ranks.iter_mut() {
        *rank = offset_at(&mut at, *rank as usize) as u32;
    }
}

/// Replaces each rank by the offset of its item.
pub(crate) fn to_offsets(layout: &Layout, ranks: &mut [u32])
    requires some { 0 < count layout.now.shape }
    requires ranks { All (λ rank. rank < count layout.now.shape) ranks.old }
    ensures { ranks.new ≡ led (offsets layout.now) ranks.old }
{
    let _items = layout.shape.items();
    match layout.as_one_run() {
        Some(run) => run_to_offsets(run, ranks),
        None => walk_to_offsets(layout, ranks),
    }
}

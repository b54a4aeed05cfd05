//! The items of a layout, adjacent in a block of their own.
ghost use Rattle.std.specs.Prelude.{All, IfOk, length, pos, ◌*◌, ◌++◌, ◌+◌, ◌<◌, ◌^◌, ◌≡◌, ◌≤◌};
ghost use Rattle.arrays.specs.Clauses.{assigned, items_at, joined_at, EachWithin, item_at, multiples, offsets, run_offsets, grid_of};

use crate::tuning::{FEW_ROWS, SHORT_ROW};
use raw_block::{BlockBuilder, Grid, RawBlock, Steps, StridedItems, part};
use shape_strides::{Layout, Rows, Run, Runs, StridedAxis};
use std::alloc::{AllocError, Global};

/// The items of a run, each of `width` bytes, as the calls of a block take them.
pub fn strided(run: Run, width: usize) -> StridedItems
    ensures { result ≡ record {
      steps = record { at = run.offset; step = run.step };
      width = width;
      count = run.count;
    } }
{
    StridedItems {
        steps: Steps {
            at: run.offset,
            step: run.step,
        },
        width,
        count: run.count,
    }
}

/// Copies the items, of `width` bytes, of a run of `other` to a run of the block with as many
/// items.
pub fn copy_run(block: &mut RawBlock, to: Run, other: &RawBlock, from: Run, width: usize)
    requires count { to.count ≡ from.count }
    requires to { EachWithin (length block.old) to.offset to.step width to.count }
    requires from { EachWithin (length other.now) from.offset from.step width from.count }
    ensures written { block.new
        ≡ assigned (run_offsets to) (run_offsets from) width other.now block.old }
    ensures len { length block.new ≡ length block.old }
{
    block.copy_strided(strided(to, width).steps, other, strided(from, width));
}

/// The run of `count` adjacent items of `width` bytes that starts at `at` in a block of `len`
/// bytes.
pub fn packed_run(at: usize, width: usize, count: usize, len: usize) -> Run
    requires some { 1 ≤ count }
    requires within { at + count * width ≤ len }
    requires small { len < 2 ^ 63 }
    ensures run { result ≡ record { offset = at; count = count; step = pos width } }
    ensures within { EachWithin len at (pos width) width count }
{
    Run {
        offset: at,
        count,
        step: width as isize,
    }
}

/// Appends the items, of `width` bytes, of a run to a block.
pub fn push_run(items: &mut BlockBuilder, block: &RawBlock, run: Run, width: usize)
    requires from { EachWithin (length block.now) run.offset run.step width run.count }
    requires room { run.count * width ≤ items.old.1 }
    ensures bytes { items.new.0 ≡ items.old.0 ++ joined_at (run_offsets run) width block.now }
    ensures left { run.count * width + items.new.1 ≡ items.old.1 }
{
    items.push_strided(block, strided(run, width));
}

/// The items, of `width` bytes, of a layout, adjacent and in C order in a block of their own. They
/// are copied as one range if they are adjacent in the layout, and run by run or by columns if not.
pub fn gather(
    alloc: Global,
    block: &RawBlock,
    layout: &Layout,
    width: usize,
) -> Result<RawBlock, AllocError>
    requires { All (λ offset. offset + width ≤ length block.now) (offsets layout.now) }
    ensures len { IfOk result (λ items. length items ≡ length (offsets layout.now) * width) }
    ensures items { IfOk result
        (λ items. items_at (multiples width (length (offsets layout.now))) width items
        ≡ items_at (offsets layout.now) width block.now) }
{
    // More bytes than a block can have are refused like any others that cannot be allocated.
    let bytes = layout.shape.items().saturating_mul(width);
    if layout.is_c(width) {
        // For the prover alone: the block is within its limit.
        let _len = block.len();
        let whole = part(block.bytes(), layout.first_address(), bytes);
        return RawBlock::try_copied(alloc, whole);
    }
    let mut items = BlockBuilder::try_new(alloc, bytes)?;
    // For the prover alone: the number of bytes is within the limit of a block.
    let _filled = items.filled();
    push_layout(&mut items, layout, block, width);
    Ok(items.finish())
}

/// Copies adjacent items of `width` bytes from the start of a block to the items of a layout, in C
/// order.
pub fn scatter(block: &mut RawBlock, layout: &Layout, items: &RawBlock, width: usize)
    requires inside { All (λ offset. offset + width ≤ length block.old) (offsets layout.now) }
    requires items { length (offsets layout.now) * width ≤ length items.now }
    ensures written { block.new
        ≡ assigned (offsets layout.now)
        (multiples width (length (offsets layout.now))) width items.now block.old }
    ensures len { length block.new ≡ length block.old }
{
    let len = items.len();
    let mut at = 0;
    for run in Runs::new(layout) {
        let from = packed_run(at, width, run.count, len);
        copy_run(block, run, items, from, width);
        at += run.count * width;
    }
}

/// Whether a layout has many rows at equal steps that are short, or closer to each other than their
/// items are. A hint: either answer is right.
pub fn goes_by_columns(layout: &Layout) -> bool {
    let Rows { starts, along } = layout.rows();
    let mut starts = starts;
    match starts.next() {
        Some(run) if run.count >= FEW_ROWS => {
            let step = run.step.unsigned_abs();
            along.len < SHORT_ROW || (step != 0 && step < along.stride.unsigned_abs())
        }
        _ => false,
    }
}

/// The grid of the rows that begin at a run of offsets.
fn grid_of(along: StridedAxis, starts: Run) -> Grid
    ensures { result ≡ grid_of along starts }
{
    Grid {
        at: starts.offset,
        row_step: starts.step,
        column_step: along.stride,
        rows: starts.count,
        columns: along.len,
    }
}

/// Appends the items, of `N` bytes, of a layout in C order. Rows that begin at equal steps are
/// copied together.
fn push_grids<const N: usize>(items: &mut BlockBuilder, layout: &Layout, block: &RawBlock)
    requires inside { All (λ offset. offset + N ≤ length block.now) (offsets layout.now) }
    requires room { length (offsets layout.now) * N ≤ items.old.1 }
    ensures bytes { items.new.0 ≡ items.old.0 ++ joined_at (offsets layout.now) N block.now }
    ensures left { length (offsets layout.now) * N + items.new.1 ≡ items.old.1 }
{
    let Rows { starts, along } = layout.rows();
    for run in starts {
        items.push_grid::<N>(block, grid_of(along, run));
    }
}

/// Appends the items of a layout. Items of unusual widths, and long rows, are copied run by run.
pub(crate) fn push_layout(items: &mut BlockBuilder, layout: &Layout, block: &RawBlock, width: usize)
    requires inside { All (λ offset. offset + width ≤ length block.now) (offsets layout.now) }
    requires room { length (offsets layout.now) * width ≤ items.old.1 }
    ensures bytes { items.new.0 ≡ items.old.0 ++ joined_at (offsets layout.now) width block.now }
    ensures left { length (offsets layout.now) * width + items.new.1 ≡ items.old.1 }
{
    match width {
        1 if goes_by_columns(layout) => push_grids::<1>(items, layout, block),
        2 if goes_by_columns(layout) => push_grids::<2>(items, layout, block),
        4 if goes_by_columns(layout) => push_grids::<4>(items, layout, block),
        8 if goes_by_columns(layout) => push_grids::<8>(items, layout, block),
        16 if goes_by_columns(layout) => push_grids::<16>(items, layout, block),
        _ => {
            for run in Runs::new(layout) {
                push_run(items, block, run, width);
            }
        }
    }
}

//! Gathers the items of a plan, copies items to them, and fills them with one item, strictly one
//! after the other.
ghost use Rattle.std.specs.Prelude.{length};
ghost use Rattle.fancy_index.specs.Clauses.{CanPush, CanPut, FitAt, HaveFilled, HavePushed, HavePut, moved_offsets, offsets_from, shifted_offsets};

use crate::fast::short_rows::ShortRows;
use crate::fast::singles::{fill_singles, push_singles, scatter_singles};
use crate::item_sources::{PackedItems, Source};
use crate::plan_rows::{MovedLayout, PlanAxes, Shifted, fill_run, moved, moved_run};
use arrays::{copy_run, packed_run, push_run};
use raw_block::{BlockBuilder, RawBlock};
use shape_strides::{Runs, Walk};

/// Appends the items of a shifted layout, run by run.
fn push_moved(items: BlockBuilder, source: Source<'_>, places: MovedLayout<'_>) -> BlockBuilder
    requires { CanPush (moved_offsets places) source items }
    ensures { HavePushed (moved_offsets places.entry) source.entry items result }
{
    let Source { block, width } = source;
    let mut items = items;
    if let Some(run) = places.as_run() {
        push_run(&mut items, block, run, width);
        return items;
    }
    for run in Runs::new(places.layout) {
        let from = moved_run(run, places.layout.offset, places.start);
        push_run(&mut items, block, from, width);
    }
    items
}

/// Appends the items of the inner axes, once for each shift. One item, or adjacent ones, need no walk.
fn push_shifted(items: BlockBuilder, source: Source<'_>, rows: Shifted<'_>) -> BlockBuilder
    requires { CanPush (shifted_offsets rows) source items }
    ensures { HavePushed (shifted_offsets rows.entry) source.entry items result }
{
    if let Some(width) = rows.row_bytes(source.width) {
        return push_singles(items, Source { width, ..source }, rows);
    }
    let layout = rows.inner;
    let mut items = items;
    for shift in rows.shifts {
        let start = moved(layout.offset, rows.place, *shift as usize);
        items = push_moved(items, source, MovedLayout { layout, start });
    }
    items
}

/// Appends all items of the axes.
pub(crate) fn push_all(items: BlockBuilder, source: Source<'_>, axes: &PlanAxes) -> BlockBuilder
    requires { CanPush (offsets_from axes.now) source items }
    ensures { HavePushed (offsets_from axes.now) source.entry items result }
{
    if let Some(rows) = ShortRows::of(axes, source.width) {
        return rows.push(items, source);
    }
    let mut items = items;
    for place in Walk::new(&axes.outer) {
        items = push_shifted(items, source, axes.rows(place));
    }
    items
}

/// Copies the items of a source to those of a shifted layout, run by run. Returns where the copied
/// items end.
fn scatter_moved(block: &mut RawBlock, target: MovedLayout<'_>, source: PackedItems<'_>) -> usize
    requires { CanPut (moved_offsets target) source block.old }
    ensures { HavePut (moved_offsets target.entry) source.entry block.old block.new result }
{
    let PackedItems { items, at, width } = source;
    let len = items.len();
    if let Some(run) = target.as_run() {
        let from = packed_run(at, width, run.count, len);
        copy_run(block, run, items, from, width);
        return at + run.count * width;
    }
    let mut at = at;
    for run in Runs::new(target.layout) {
        let to = moved_run(run, target.layout.offset, target.start);
        let from = packed_run(at, width, to.count, len);
        copy_run(block, to, items, from, width);
        at += to.count * width;
    }
    at
}

/// Copies the items of a source to the inner axes, once for each shift. Inner axes of one item need
/// no walk.
fn scatter_shifts(block: &mut RawBlock, rows: Shifted<'_>, source: PackedItems<'_>) -> usize
    requires { CanPut (shifted_offsets rows) source block.old }
    ensures { HavePut (shifted_offsets rows.entry) source.entry block.old block.new result }
{
    if rows.is_single() {
        return scatter_singles(block, rows, source);
    }
    let layout = rows.inner;
    let mut at = source.at;
    for shift in rows.shifts {
        let start = moved(layout.offset, rows.place, *shift as usize);
        let target = MovedLayout { layout, start };
        at = scatter_moved(block, target, PackedItems { at, ..source });
    }
    at
}

/// Copies the items of a source to all items of the axes.
pub(crate) fn scatter(block: &mut RawBlock, axes: &PlanAxes, source: PackedItems<'_>) -> usize
    requires { CanPut (offsets_from axes.now) source block.old }
    ensures { HavePut (offsets_from axes.now) source.entry block.old block.new result }
{
    if let Some(rows) = ShortRows::of(axes, source.width) {
        return rows.scatter(block, source);
    }
    let mut at = source.at;
    for place in Walk::new(&axes.outer) {
        at = scatter_shifts(block, axes.rows(place), PackedItems { at, ..source });
    }
    at
}

/// Writes the item to those of a shifted layout, run by run.
fn fill_moved(block: &mut RawBlock, target: MovedLayout<'_>, item: &[u8])
    requires { FitAt (moved_offsets target) (length item.now) block.old }
    ensures { HaveFilled (moved_offsets target.entry) item.now block.old block.new }
{
    if let Some(run) = target.as_run() {
        fill_run(block, run, item);
        return;
    }
    for run in Runs::new(target.layout) {
        let to = moved_run(run, target.layout.offset, target.start);
        fill_run(block, to, item);
    }
}

/// Writes the item to the inner axes, once for each shift. Inner axes of one item need no walk.
fn fill_shifts(block: &mut RawBlock, rows: Shifted<'_>, item: &[u8])
    requires { FitAt (shifted_offsets rows) (length item.now) block.old }
    ensures { HaveFilled (shifted_offsets rows.entry) item.now block.old block.new }
{
    if rows.is_single() {
        fill_singles(block, rows, item);
        return;
    }
    let layout = rows.inner;
    for shift in rows.shifts {
        let start = moved(layout.offset, rows.place, *shift as usize);
        fill_moved(block, MovedLayout { layout, start }, item);
    }
}

/// Writes the item to all items of the axes.
pub(crate) fn fill(block: &mut RawBlock, axes: &PlanAxes, item: &[u8])
    requires { FitAt (offsets_from axes.now) (length item.now) block.old }
    ensures { HaveFilled (offsets_from axes.now) item.now block.old block.new }
{
    if let Some(rows) = ShortRows::of(axes, item.len()) {
        rows.fill(block, item);
        return;
    }
    for place in Walk::new(&axes.outer) {
        fill_shifts(block, axes.rows(place), item);
    }
}

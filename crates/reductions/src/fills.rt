//! Reduces all numbers of a layout, or the lines along an axis that start at each of them, one line
//! after another.
ghost use Rattle.std.specs.Prelude.{◌≡◌, ◌*◌, ◌<◌, ◌≤◌, IfOk, Some};
ghost use Rattle.reductions.specs.Clauses.{count, offsets, numbers_at, size, lines, lists_from, AreReduced, AddsReduced, HaveItems, all_lines};
ghost use Rattle.reductions.specs.inside.Numbers.{numbers_of};

use crate::fast::{fold_run, goes_by_rows, push_by_rows};
use crate::folds::Fold;
use crate::lines::{Lines, Numbers, push_total};
use machine_numbers::{Number, Ordered, Side};
use raw_block::{BlockBuilder, RawBlock};
use shape_strides::{Runs, StridedAxis};
use std::alloc::{AllocError, Global};

/// The result for some numbers.
pub(crate) fn fold_line<S: Number, O: Ordered, F: Fold<S>>(line: Side<'_>) -> F::Total
    requires width { line.width ≡ S.WIDTH }
    requires some { 1 ≤ line.run.count }
    ensures { F.Total.value result ≡ F.meaning (numbers_of (S.scalar O.order) line.entry) }
{
    let first = line.number::<S, O>(0);
    F::finish(fold_run::<S, O, F>(F::start(first), 0, line))
}

/// The result for all numbers of a layout.
fn fold_all<S: Number, O: Ordered, F: Fold<S>>(numbers: Numbers<'_>) -> F::Total
    requires width { size numbers.scalar.now ≡ S.WIDTH }
    requires some { 0 < count numbers.layout.now.shape }
    ensures { F.Total.value result
        ≡ F.meaning
        (numbers_at (S.scalar O.order) numbers.entry.bytes.now (offsets numbers.entry.layout.now)) }
{
    // For the prover alone: the number of items is within the limit.
    let _items = numbers.layout.shape.items();
    let at = numbers.layout.offset;
    let mut held = F::start(S::read::<O>(&numbers.bytes[at..at + S::WIDTH]));
    let mut seen = 0;
    for run in Runs::new(numbers.layout) {
        let side = Side {
            bytes: numbers.bytes,
            run,
            width: S::WIDTH,
        };
        held = fold_run::<S, O, F>(held, seen, side);
        seen += run.count;
    }
    F::finish(held)
}

/// Appends the result of each line.
fn push_lines<S: Number, O: Ordered, F: Fold<S>>(
    alloc: Global,
    block: BlockBuilder,
    lines: Lines<'_>,
) -> Result<BlockBuilder, AllocError>
    requires width { lines.starts.width ≡ S.WIDTH }
    requires some { 1 ≤ lines.axis.len }
    requires room { lines.starts.run.count * F.Total.WIDTH ≤ block.1 }
    ensures { IfOk result
        (AddsReduced F.reduction (S.scalar O.order) lines.entry.starts.bytes.now F.Total.WIDTH
        (all_lines lines.entry) block) }
{
    if goes_by_rows(lines) {
        return push_by_rows::<S, O, F>(alloc, block, lines);
    }
    let mut block = block;
    for j in 0..lines.starts.run.count {
        push_total(&mut block, fold_line::<S, O, F>(lines.line(j)));
    }
    Ok(block)
}

/// Appends the results of the lines along an axis that start at these numbers.
fn push_along<S: Number, O: Ordered, F: Fold<S>>(
    alloc: Global,
    block: BlockBuilder,
    firsts: Numbers<'_>,
    axis: StridedAxis,
) -> Result<BlockBuilder, AllocError>
    requires width { size firsts.scalar.now ≡ S.WIDTH }
    requires items { HaveItems firsts (Some axis) }
    requires room { count firsts.layout.now.shape * F.Total.WIDTH ≤ block.1 }
    ensures { IfOk result
        (AddsReduced F.reduction (S.scalar O.order) firsts.entry.bytes.now F.Total.WIDTH
        (lines axis (offsets firsts.entry.layout.now)) block) }
{
    // For the prover alone: the number of items is within the limit.
    let _items = firsts.layout.shape.items();
    let mut block = block;
    for run in Runs::new(firsts.layout) {
        let starts = Side {
            bytes: firsts.bytes,
            run,
            width: S::WIDTH,
        };
        block = push_lines::<S, O, F>(alloc, block, Lines { starts, axis })?;
    }
    Ok(block)
}

/// A block with the result of each list.
#[inline(never)]
pub(crate) fn reduced<S: Number, O: Ordered, F: Fold<S>>(
    alloc: Global,
    firsts: Numbers<'_>,
    axis: Option<StridedAxis>,
) -> Result<RawBlock, AllocError>
    requires width { size firsts.scalar.now ≡ S.WIDTH }
    requires items { HaveItems firsts axis }
    ensures { IfOk result
        (AreReduced F.reduction (S.scalar O.order) firsts.entry.bytes.now F.Total.WIDTH
        (lists_from firsts.entry.layout.now axis)) }
{
    let width = <F::Total as Number>::WIDTH;
    let items = firsts.layout.shape.items();
    let Some(axis) = axis else {
        let mut block = BlockBuilder::try_new(alloc, width)?;
        push_total(&mut block, fold_all::<S, O, F>(firsts));
        return Ok(block.finish());
    };
    let block = BlockBuilder::try_new(alloc, items * width)?;
    let full = push_along::<S, O, F>(alloc, block, firsts, axis)?;
    Ok(full.finish())
}

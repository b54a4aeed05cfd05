//! Ways that only go faster. Each is entered by one call, whose contract is that of the plain way, so
//! that whoever passes over this file still knows all that is true: numbers until the result is
//! decided, adjacent ones in a loop of their own; and all lines at once, row by row.
ghost use Rattle.std.specs.Prelude.{◌≡◌, ◌*◌, ◌<◌, ◌≤◌, [], length, IfOk, IsTrue};
ghost use Rattle.reductions.specs.Clauses.{number_of_side, HaveTakenRow, AddsReduced, all_lines, AreHeld, EachOf};
ghost use Rattle.reductions.specs.inside.Lines.{IsRow};
ghost use Rattle.reductions.specs.inside.Numbers.{numbers_of, CanTakeIn, TakesIn};

use crate::folds::Fold;
use crate::lines::{Lines, push_total};
use crate::parts::part;
use crate::tuning::CHECK_EVERY;
use machine_numbers::{Number, Ordered, Side, place};
use raw_block::BlockBuilder;
use shape_strides::Run;
use std::alloc::{AllocError, Global};

/// Reduces numbers until the result is decided. `seen` numbers come before them.
fn fold_blocks<S: Number, O: Ordered, F: Fold<S>>(
    held: F::Held,
    seen: usize,
    side: Side<'_>,
) -> F::Held
    requires { CanTakeIn S.WIDTH seen side }
    ensures { TakesIn F.holds held seen (numbers_of (S.scalar O.order) side.entry) result }
{
    let mut held = held;
    let mut done = 0;
    while done < side.run.count {
        if F::is_decided(held) {
            return held;
        }
        let block = part(side, done, CHECK_EVERY.min(side.run.count - done));
        held = F::visit::<O>(held, seen + done, block);
        done += block.run.count;
    }
    held
}

/// Reduces numbers, with a loop of its own for adjacent ones. `seen` numbers come before them.
pub(crate) fn fold_run<S: Number, O: Ordered, F: Fold<S>>(
    held: F::Held,
    seen: usize,
    side: Side<'_>,
) -> F::Held
    requires { CanTakeIn S.WIDTH seen side }
    ensures { TakesIn F.holds held seen (numbers_of (S.scalar O.order) side.entry) result }
{
    if side.run.step != S::WIDTH as isize {
        return F::visit::<O>(held, seen, side);
    }
    let near = side.with_step(S::WIDTH as isize);
    if F::may_end_early() {
        return fold_blocks::<S, O, F>(held, seen, near);
    }
    F::visit::<O>(held, seen, near)
}

/// The `k`-th item of each line.
#[inline(always)]
fn row<'a>(lines: Lines<'a>, k: usize) -> Side<'a>
    requires k { k < lines.axis.len }
    requires some { 1 ≤ lines.starts.run.count }
    ensures { IsRow lines.entry k result }
{
    Side {
        bytes: lines.starts.bytes,
        run: Run {
            offset: place(lines.line(0).run, k),
            ..lines.starts.run
        },
        width: lines.starts.width,
    }
}

/// Whether rows are closer together than the items of a line.
pub(crate) fn goes_by_rows(lines: Lines<'_>) -> bool
    ensures { IsTrue result → 1 ≤ lines.entry.starts.run.count }
{
    let rows = lines.starts.run;
    rows.count > 3 && rows.step.unsigned_abs() < lines.axis.stride.unsigned_abs()
}

/// The state of each line before its first number.
fn begin<S: Number, O: Ordered, F: Fold<S>>(
    alloc: Global,
    firsts: Side<'_>,
) -> Result<Vec<F::Held>, AllocError>
    requires { firsts.width ≡ S.WIDTH }
    ensures len { IfOk result (λ v. length v.items ≡ firsts.entry.run.count) }
    ensures held { IfOk result
        (λ v. EachOf firsts.entry.run.count v.items
        (λ j one. F.holds one (number_of_side (S.scalar O.order) firsts.entry j) [])) }
{
    let mut held = Vec::with_capacity(alloc, firsts.run.count)?;
    for j in 0..firsts.run.count {
        held.push_reserved(F::start(firsts.number::<S, O>(j)));
    }
    Ok(held)
}

/// Adds each number of a row to the state of its line, on which `seen` numbers come before it.
#[inline(always)]
fn take_each<S: Number, O: Ordered, F: Fold<S>>(held: &mut [F::Held], row: Side<'_>, seen: usize)
    requires width { row.width ≡ S.WIDTH }
    requires even { length held.old ≡ row.run.count }
    ensures { HaveTakenRow F.holds (S.scalar O.order) row.entry seen held.old held.new }
{
    for j in 0..row.run.count {
        held[j] = F::step(held[j], row.number::<S, O>(j), seen);
    }
}

/// Adds each number of a row to the state of its line, with a loop of its own for adjacent numbers.
fn take_row<S: Number, O: Ordered, F: Fold<S>>(held: &mut [F::Held], row: Side<'_>, seen: usize)
    requires width { row.width ≡ S.WIDTH }
    requires even { length held.old ≡ row.run.count }
    ensures { HaveTakenRow F.holds (S.scalar O.order) row.entry seen held.old held.new }
{
    if row.run.step == S::WIDTH as isize {
        return take_each::<S, O, F>(held, row.with_step(S::WIDTH as isize), seen);
    }
    take_each::<S, O, F>(held, row, seen);
}

/// The final state of each line. All lines are reduced at once, row by row.
fn held_by_rows<S: Number, O: Ordered, F: Fold<S>>(
    alloc: Global,
    lines: Lines<'_>,
) -> Result<Vec<F::Held>, AllocError>
    requires width { lines.starts.width ≡ S.WIDTH }
    requires some { 1 ≤ lines.axis.len }
    requires starts { 1 ≤ lines.starts.run.count }
    ensures { IfOk result
        (λ v. AreHeld F.holds (S.scalar O.order) lines.entry lines.entry.axis.len v.items) }
{
    let mut held = begin::<S, O, F>(alloc, row(lines, 0))?;
    for k in 0..lines.axis.len {
        take_row::<S, O, F>(&mut held, row(lines, k), k);
    }
    Ok(held)
}

/// Appends the result of each line, given its final state. The block is passed in and returned, so
/// that its length stays in a register.
fn push_held<S: Number, O: Ordered, F: Fold<S>>(
    block: BlockBuilder,
    held: &[F::Held],
    lines: Lines<'_>,
) -> BlockBuilder
    requires some { 1 ≤ lines.axis.len }
    requires held { AreHeld F.holds (S.scalar O.order) lines lines.axis.len held.now }
    requires room { lines.starts.run.count * F.Total.WIDTH ≤ block.1 }
    ensures { AddsReduced F.reduction (S.scalar O.order) lines.entry.starts.bytes.now F.Total.WIDTH
        (all_lines lines.entry) block result }
{
    let mut block = block;
    for j in 0..lines.starts.run.count {
        push_total(&mut block, F::finish(held[j]));
    }
    block
}

/// Appends the result of each line. All lines are reduced at once.
pub(crate) fn push_by_rows<S: Number, O: Ordered, F: Fold<S>>(
    alloc: Global,
    block: BlockBuilder,
    lines: Lines<'_>,
) -> Result<BlockBuilder, AllocError>
    requires width { lines.starts.width ≡ S.WIDTH }
    requires some { 1 ≤ lines.axis.len }
    requires starts { 1 ≤ lines.starts.run.count }
    requires room { lines.starts.run.count * F.Total.WIDTH ≤ block.1 }
    ensures { IfOk result
        (AddsReduced F.reduction (S.scalar O.order) lines.entry.starts.bytes.now F.Total.WIDTH
        (all_lines lines.entry) block) }
{
    let held = held_by_rows::<S, O, F>(alloc, lines)?;
    Ok(push_held::<S, O, F>(block, held.as_slice(), lines))
}

//! Reads and writes the bytes of a block at the offsets of a target.
ghost use Rattle.std.specs.Prelude.{◌≡◌, ◌+◌, ◌*◌, ◌≤◌, length, All, IfOk, IfErr, IsOk, IsTrue};
ghost use Rattle.name_store.specs.Clauses.{AreOld, ArePaired, AreShifted, Assigns, EachWithin, Fits, InPlace, MayPut, assigned, flat_map, max_bytes, offsets, put_each, run_offsets, target_offsets, with_old};

use crate::target::{OldItems, Target};
use arrays::{gather, scatter, strided};
use overlap_copy::{assign, assign_from, assign_shifted, in_any_order};
use raw_block::RawBlock;
use shape_strides::{Layout, Runs, lies_in_c_order};
use std::alloc::{AllocError, Global};

/// Writes the bytes of an item at the offsets of runs.
fn fill_runs(block: &mut RawBlock, runs: Runs<'_>, item: &[u8])
    requires { All (λ run.
        EachWithin (length block.old) run.offset run.step (length item.now) run.count) runs }
    ensures bytes { block.new ≡ put_each (flat_map run_offsets runs.entry) item.now block.old }
    ensures len { length block.new ≡ length block.old }
{
    for run in runs {
        block.fill_strided(strided(run, item.len()).steps, item, run.count);
    }
}

/// Writes the bytes of an item at the offsets of a layout, one after the other.
fn fill_each(block: &mut RawBlock, layout: &Layout, item: &[u8])
    requires { All (λ offset. offset + length item.now ≤ length block.old) (offsets layout.now) }
    ensures bytes { block.new ≡ put_each (offsets layout.now) item.now block.old }
    ensures len { length block.new ≡ length block.old }
{
    match layout.as_one_run() {
        Some(run) => block.fill_strided(strided(run, item.len()).steps, item, run.count),
        None => fill_runs(block, Runs::new(layout), item),
    }
}

/// Writes the bytes of an item at the offsets of a target: in the order of memory, if it is a view
/// whose items do not overlap.
pub(crate) fn fill(alloc: Global, block: &mut RawBlock, target: &Target, item: &[u8])
    requires { All (λ offset. offset + length item.now ≤ length block.old)
        (target_offsets target.now) }
    ensures bytes { block.new ≡ put_each (target_offsets target.now) item.now block.old }
    ensures len { length block.new ≡ length block.old }
{
    match target {
        Target::View(layout) if lies_in_c_order(layout) => fill_each(block, layout, item),
        Target::View(layout) => match in_any_order(alloc, layout, layout, item.len()) {
            Some(pair) => fill_each(block, &pair.target, item),
            None => fill_each(block, layout, item),
        },
        Target::Plan(plan) => plan.fill(block, item),
    }
}

/// Copies the items of a layout in another block to the offsets of a target, one after the other.
pub(crate) fn copy_to(
    block: &mut RawBlock,
    target: &Target,
    other: &RawBlock,
    from: &Layout,
    width: usize,
)
    requires { ArePaired (target_offsets target.now) (offsets from.now) width other.now block.old }
    ensures { Assigns (target_offsets target.now) (offsets from.now) width
        other.now block.old block.new }
{
    match target {
        Target::View(to) => assign_from(block, to, other, from, width),
        Target::Plan(plan) => plan.assign(block, other, from, width),
    }
}

/// Whether two layouts differ in their first offset only, and no axis steps into the range of the
/// others.
fn are_shifted(to: &Layout, from: &Layout, width: usize) -> bool
    requires { 1 ≤ width }
    ensures sound { IsTrue result → AreShifted to.now from.now width }
    ensures found { AreShifted to.now from.now width → IsTrue result }
{
    if from.shape.as_slice() != to.shape.as_slice() {
        return false;
    }
    from.strides.as_slice() == to.strides.as_slice() && to.is_stacked(width)
}

/// Copies the items of a layout to a target in the same block; each is read as it was before. All
/// memory is allocated before the first change.
pub(crate) fn move_to(
    alloc: Global,
    block: &mut RawBlock,
    target: &Target,
    from: &Layout,
    width: usize,
) -> Result<(), AllocError>
    requires small { length block.old ≤ max_bytes }
    requires item { 1 ≤ width }
    requires to { MayPut target.now (length block.old) width }
    requires from { Fits from.now (length block.old) width }
    requires count { length (offsets from.now) ≡ length (target_offsets target.now) }
    ensures bytes { IfOk result (λ _. block.new
        ≡ assigned (target_offsets target.now) (offsets from.now) width block.old block.old) }
    ensures kept { IfErr result (λ _. block.new ≡ block.old) }
    ensures len { length block.new ≡ length block.old }
    ensures in_place { InPlace target.now from.now width → IsOk result }
{
    match target {
        Target::View(to) => {
            if are_shifted(to, from, width) {
                assign_shifted(block, to, from, width);
                return Ok(());
            }
            assign(alloc, block, to, from, width)
        }
        Target::Plan(plan) => {
            let items = gather(alloc, block, from, width)?;
            plan.scatter(block, &items, width);
            Ok(())
        }
    }
}

/// The items of a target, adjacent in a block of their own.
pub(crate) fn old_items(
    alloc: Global,
    block: &RawBlock,
    width: usize,
    target: &Target,
) -> Result<OldItems, AllocError>
    requires { All (λ offset. offset + width ≤ length block.now) (target_offsets target.now) }
    ensures { IfOk result (AreOld width block.now (target_offsets target.now)) }
{
    let block = match target {
        Target::View(layout) => gather(alloc, block, layout, width)?,
        Target::Plan(plan) => plan.gather(alloc, block, width)?,
    };
    Ok(OldItems { block, width })
}

/// Writes adjacent items to a target.
pub(crate) fn put_back(block: &mut RawBlock, target: &Target, items: &OldItems)
    requires inside { All (λ offset. offset + items.now.width ≤ length block.old)
        (target_offsets target.now) }
    requires whole { length items.now.block ≡ length (target_offsets target.now) * items.now.width }
    ensures len { length block.new ≡ length block.old }
    ensures bytes { block.new ≡ with_old (target_offsets target.now) items.now block.old }
{
    match target {
        Target::View(layout) => scatter(block, layout, &items.block, items.width),
        Target::Plan(plan) => plan.scatter(block, &items.block, items.width),
    }
}

//! Assignment: copies the items of one layout to another.
ghost use Rattle.std.specs.Prelude.{◌≡◌, length, false, IfOk, IfErr, IsOk, IsTrue};
ghost use Rattle.overlap_copy.specs.Clauses.{AreApart, ArePaired, AreReversed, AreRuns, Assigns, CanMove, Fits, assigned, max_bytes, offsets};

use crate::apart::may_overlap;
use crate::fast::orders::{as_runs, in_any_order};
use crate::pair_copies::{is_same_line, move_apart, move_run, turn_run, turned};
use arrays::{copy_run, gather, scatter};
use raw_block::RawBlock;
use shape_strides::{Layout, RunPairs};
use std::alloc::{AllocError, Global};

/// Copies the items, of `width` bytes, of the layout `src` in `other` to those of the layout `dst`,
/// pair by pair in C order. Both have the same number of items.
fn assign_in_order(block: &mut RawBlock, dst: &Layout, other: &RawBlock, src: &Layout, width: usize)
    requires { ArePaired (offsets dst.now) (offsets src.now) width other.now block.old }
    ensures { Assigns (offsets dst.now) (offsets src.now) width other.now block.old block.new }
{
    if let Some(pair) = as_runs(dst, src) {
        copy_run(block, pair.first, other, pair.second, width);
        return;
    }
    for pair in RunPairs::new(dst, src) {
        copy_run(block, pair.first, other, pair.second, width);
    }
}

/// Copies the items, of `width` bytes, of the layout `src` in `other` to those of the layout `dst`,
/// both in C order. If the items of `dst` do not overlap, they are visited in the order of memory,
/// with the same result.
pub fn assign_from(block: &mut RawBlock, dst: &Layout, other: &RawBlock, src: &Layout, width: usize)
    requires { ArePaired (offsets dst.now) (offsets src.now) width other.now block.old }
    ensures { Assigns (offsets dst.now) (offsets src.now) width other.now block.old block.new }
{
    match in_any_order(block.allocator(), dst, src, width) {
        Some(pair) => assign_in_order(block, &pair.target, other, &pair.source, width),
        None => assign_in_order(block, dst, other, src, width),
    }
}

/// Copies the items of `src` to those of `dst` within one block if both layouts are runs with the
/// same step, or the same run in opposite directions. Returns whether they are.
fn assign_runs(block: &mut RawBlock, dst: &Layout, src: &Layout, width: usize) -> bool
    requires { CanMove dst.now src.now width block.old }
    ensures written { IsTrue result
        → block.new ≡ assigned (offsets dst.now) (offsets src.now) width block.old block.old }
    ensures kept { result ≡ false → block.new ≡ block.old }
    ensures len { length block.new ≡ length block.old }
    ensures runs { AreRuns dst.now src.now → IsTrue result }
    ensures turned { AreReversed dst.now src.now → IsTrue result }
{
    let Some(to) = dst.as_run() else {
        return false;
    };
    let Some(from) = src.as_run() else {
        return false;
    };
    if to.step == from.step {
        move_run(block, to, from, width);
        return true;
    }
    let back = turned(to);
    if !is_same_line(from, back) {
        return false;
    }
    turn_run(block, to, back, width);
    true
}

/// Copies the items, of `width` bytes, of the layout `src` to those of the layout `dst`, both in C
/// order, whatever bytes of the block the two share: each item is read as it was before. It cannot
/// fail if they share none, if both are runs with the same step, or if they are the same run in
/// opposite directions. Otherwise it allocates memory for the items of `src`, and returns `Err` if
/// there is none. Both layouts fit in 2^28 bytes, since `may_overlap` compares byte ranges.
pub fn assign(
    alloc: Global,
    block: &mut RawBlock,
    dst: &Layout,
    src: &Layout,
    width: usize,
) -> Result<(), AllocError>
    requires can { CanMove dst.now src.now width block.old }
    requires dst_small { Fits dst.now max_bytes width }
    requires src_small { Fits src.now max_bytes width }
    ensures written { IfOk result
        (λ _. block.new ≡ assigned (offsets dst.now) (offsets src.now) width block.old block.old) }
    ensures kept { IfErr result (λ _. block.new ≡ block.old) }
    ensures len { length block.new ≡ length block.old }
    ensures apart { AreApart dst.now width src.now width → IsOk result }
    ensures runs { AreRuns dst.now src.now → IsOk result }
    ensures turned { AreReversed dst.now src.now → IsOk result }
{
    if !may_overlap(dst, width, src, width) {
        for pair in RunPairs::new(dst, src) {
            move_apart(block, pair.first, pair.second, width);
        }
        return Ok(());
    }
    if assign_runs(block, dst, src, width) {
        return Ok(());
    }
    let items = gather(alloc, block, src, width)?;
    scatter(block, dst, &items, width);
    Ok(())
}

//! Writes items over others and keeps the old ones, in a single pass.
ghost use Rattle.std.specs.Prelude.{◌≡◌, ◌+◌, ◌*◌, ◌++◌, ◌<◌, ◌≤◌, length, replicate, All, IfOk, IfErr};
ghost use Rattle.overlap_copy.specs.Clauses.{ArePaired, BeginsWithin, CanOverwrite, IsNested, IsPacked, Overwrites, RunsLie, assigned, items_at, max_items, offsets, run_offsets, with_items};

use crate::tuning::KEPT_ITEMS;
use arrays::{copy_run, push_run};
use raw_block::{BlockBuilder, RawBlock};
use shape_strides::{Layout, Run, RunPair, RunPairs, Shape, Strides};
use std::alloc::{AllocError, Global};

/// The first `n` items of a run, and those after them.
fn split(run: Run, n: usize) -> (Run, Run)
    requires begins { BeginsWithin run }
    requires few { n ≤ max_items }
    requires more { n < run.count }
    ensures count { result.0.count ≡ n }
    ensures rest { n + result.1.count ≡ run.count }
    ensures offsets { run_offsets result.0 ++ run_offsets result.1 ≡ run_offsets run }
    ensures begins { BeginsWithin result.0 }
    ensures rest_begins { BeginsWithin result.1 }
{
    let front = Run {
        offset: run.offset,
        count: n,
        step: run.step,
    };
    let rest = Run {
        offset: run.offset_after(n),
        count: run.count - n,
        step: run.step,
    };
    (front, rest)
}

/// Appends the items of the first run to the kept ones, and then copies those of the second run, in
/// `other`, to their places. It is not inlined, so that the compiler knows that its loop reads one
/// block and writes another.
#[inline(never)]
fn overwrite_part(
    block: &mut RawBlock,
    pair: RunPair,
    other: &RawBlock,
    width: usize,
    kept: &mut BlockBuilder,
)
    requires lie { RunsLie pair.first pair.second width other.now block.old }
    requires room { pair.first.count * width ≤ kept.old.1 }
    ensures { Overwrites pair width other.now (block.old, kept.old) (block.new, kept.new) }
{
    push_run(kept, block, pair.first, width);
    copy_run(block, pair.first, other, pair.second, width);
}

/// Keeps the items of the first run and writes those of the second run over them, part by part.
fn overwrite_run(
    block: &mut RawBlock,
    pair: RunPair,
    other: &RawBlock,
    width: usize,
    kept: &mut BlockBuilder,
)
    requires can { CanOverwrite pair width other.now block.old kept.old }
    requires nested { IsNested (run_offsets pair.first) width }
    ensures { Overwrites pair width other.now (block.old, kept.old) (block.new, kept.new) }
{
    let mut left = pair;
    while left.first.count > KEPT_ITEMS {
        let (first, first_left) = split(left.first, KEPT_ITEMS);
        let (second, second_left) = split(left.second, KEPT_ITEMS);
        overwrite_part(block, RunPair { first, second }, other, width, kept);
        left = RunPair {
            first: first_left,
            second: second_left,
        };
    }
    overwrite_part(block, left, other, width, kept);
}

/// Writes the items, of `width` bytes, of the layout `src` in `other` over those of the layout
/// `dst`, both in C order, and returns the old ones, adjacent in a block of their own. This is a
/// single pass, part by part. All memory is allocated before the first change.
pub fn overwrite(
    block: &mut RawBlock,
    dst: &Layout,
    other: &RawBlock,
    src: &Layout,
    width: usize,
) -> Result<RawBlock, AllocError>
    requires paired { ArePaired (offsets dst.now) (offsets src.now) width other.now block.old }
    requires nested { IsNested (offsets dst.now) width }
    ensures written { IfOk result (λ _. block.new
        ≡ assigned (offsets dst.now) (offsets src.now) width other.now block.old) }
    ensures old { IfOk result (IsPacked (length (offsets dst.now)) width
        (items_at (offsets dst.now) width block.old)) }
    ensures kept { IfErr result (λ _. block.new ≡ block.old) }
{
    // More bytes than a block can have are refused like any others that cannot be allocated.
    let bytes = dst.shape.items().saturating_mul(width);
    let mut kept = BlockBuilder::try_new(block.allocator(), bytes)?;
    // For the prover alone: the number of bytes is within the limit of a block.
    let _filled = kept.filled();
    for pair in RunPairs::new(dst, src) {
        overwrite_run(block, pair, other, width, &mut kept);
    }
    Ok(kept.finish())
}

/// A layout of the same shape with every item at offset 0.
fn all_at_start(alloc: Global, layout: &Layout) -> Result<Layout, AllocError>
    ensures shape { IfOk result (λ l. l.shape ≡ layout.now.shape) }
    ensures offsets { IfOk result (λ l. offsets l
        ≡ replicate (length (offsets layout.now)) 0) }
{
    let shape = Shape::try_copy(alloc, &layout.shape)?;
    let strides = Strides::from_slice(alloc, layout.strides.as_slice())?;
    match Layout::new(shape, strides.zeroed(), 0) {
        Some(layout) => Ok(layout),
        None => unreachable!(),
    }
}

/// Writes one item over all items of the layout `dst`, and returns the old ones, adjacent in a
/// block of their own. This is a single pass, like `overwrite`.
pub fn overwrite_each(
    block: &mut RawBlock,
    dst: &Layout,
    item: &[u8],
) -> Result<RawBlock, AllocError>
    requires dst { All (λ offset. offset + length item.now ≤ length block.old) (offsets dst.now) }
    requires nested { IsNested (offsets dst.now) (length item.now) }
    ensures written { IfOk result (λ _. block.new ≡ with_items
        (offsets dst.now) (replicate (length (offsets dst.now)) item.now) block.old) }
    ensures old { IfOk result (IsPacked (length (offsets dst.now)) (length item.now)
        (items_at (offsets dst.now) (length item.now) block.old)) }
    ensures kept { IfErr result (λ _. block.new ≡ block.old) }
{
    let alloc = block.allocator();
    let other = RawBlock::try_copied(alloc, item)?;
    let src = all_at_start(alloc, dst)?;
    overwrite(block, dst, &other, &src, item.len())
}

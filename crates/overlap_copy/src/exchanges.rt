//! Exchanges items of two blocks in one pass.
ghost use Rattle.std.specs.Prelude.{◌≡◌, length};
ghost use Rattle.overlap_copy.specs.Clauses.{ArePaired, Assigns, IsNested, RunsLie, Trades, items_at, offsets, run_offsets};

use crate::fast::orders::as_runs;
use arrays::strided;
use raw_block::RawBlock;
use shape_strides::{Layout, Run, RunPairs, in_memory_order};

/// Exchanges the items, of `width` bytes, of a run with those of a run of `other` that has as many.
fn trade_run(block: &mut RawBlock, to: Run, other: &mut RawBlock, from: Run, width: usize)
    requires { RunsLie to from width other.old block.old }
    ensures { Trades (run_offsets to) (run_offsets from) width
        (block.old, other.old) (block.new, other.new) }
{
    block.trade_strided(strided(to, width).steps, other, strided(from, width));
}

/// Exchanges the items, of `width` bytes, of the layout `dst` with those of the layout `src` in
/// `other`, pair by pair in C order.
fn exchange_pairs(
    block: &mut RawBlock,
    dst: &Layout,
    other: &mut RawBlock,
    src: &Layout,
    width: usize,
)
    requires { ArePaired (offsets dst.now) (offsets src.now) width other.old block.old }
    ensures { Trades (offsets dst.now) (offsets src.now) width
        (block.old, other.old) (block.new, other.new) }
{
    if let Some(pair) = as_runs(dst, src) {
        trade_run(block, pair.first, other, pair.second, width);
        return;
    }
    for pair in RunPairs::new(dst, src) {
        trade_run(block, pair.first, other, pair.second, width);
    }
}

/// Exchanges the items, of `width` bytes, of the layout `dst` with those of the layout `src` in
/// `other`, both in C order: each layout then has the items that the other one had. They are
/// visited in the order of `dst` in memory, with the same result.
pub fn exchange(
    block: &mut RawBlock,
    dst: &Layout,
    other: &mut RawBlock,
    src: &Layout,
    width: usize,
)
    requires paired { ArePaired (offsets dst.now) (offsets src.now) width other.old block.old }
    requires nested { IsNested (offsets dst.now) width }
    requires other_nested { IsNested (offsets src.now) width }
    ensures to { Assigns (offsets dst.now) (offsets src.now) width other.old block.old block.new }
    ensures old { items_at (offsets src.now) width other.new
        ≡ items_at (offsets dst.now) width block.old }
    ensures other_len { length other.new ≡ length other.old }
{
    match in_memory_order(block.allocator(), dst, src) {
        Some(pair) => exchange_pairs(block, &pair.target, other, &pair.source, width),
        None => exchange_pairs(block, dst, other, src, width),
    }
}

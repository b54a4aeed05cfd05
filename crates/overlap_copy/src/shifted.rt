//! Assignment between layouts of the same shape and strides, without memory.
ghost use Rattle.std.specs.Prelude.{◌≡◌, ◌+◌, ◌≤◌, length};
ghost use Rattle.overlap_copy.specs.Clauses.{Assigns, Fits, IsStacked, max_bytes, offsets, source_run};

use crate::pair_copies::move_run;
use raw_block::RawBlock;
use shape_strides::{AddressOrder, Layout, Run};

/// The run that the items of a run come from, if the item at `to` comes from `from`.
fn source_of(run: Run, to: usize, from: usize) -> Run
    requires run { run.offset ≤ max_bytes }
    requires from { from ≤ max_bytes }
    requires low { to ≤ run.offset + from }
    ensures { result ≡ source_run to from run }
{
    Run {
        offset: run.offset + from - to,
        count: run.count,
        step: run.step,
    }
}

/// Copies the items, of `width` bytes, of the layout `src` to those of the layout `dst`, whatever
/// bytes of the block the two share: each item is read as it was before. Both have the same shape
/// and strides, and no axis of `dst` steps into the range of the others. It cannot fail for lack of
/// memory.
pub fn assign_shifted(block: &mut RawBlock, dst: &Layout, src: &Layout, width: usize)
    requires item { 1 ≤ width }
    requires dst { Fits dst.now (length block.old) width }
    requires src { Fits src.now (length block.old) width }
    requires shape { src.now.shape ≡ dst.now.shape }
    requires strides { src.now.strides ≡ dst.now.strides }
    requires stacked { IsStacked dst.now width }
    ensures { Assigns (offsets dst.now) (offsets src.now) width block.old block.old block.new }
{
    let down = src.offset < dst.offset;
    let order = AddressOrder::new(dst, down);
    for run in order.runs() {
        let other = source_of(run, dst.offset, src.offset);
        move_run(block, run, other, width);
    }
}

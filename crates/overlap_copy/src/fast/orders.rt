//! Ways that are faster than to go through two layouts run by run, in C order.
ghost use Rattle.std.specs.Prelude.{IfSome, ◌≡◌};
ghost use Rattle.overlap_copy.specs.Clauses.{BeginsWithin, IsNested, IsPermutation, item_pairs, offsets, run_offsets};

use shape_strides::{Layout, LayoutPair, RunPair, in_memory_order};
use std::alloc::Global;

/// The two layouts as runs, if each of them is a single run.
pub(crate) fn as_runs(first: &Layout, second: &Layout) -> Option<RunPair>
    ensures first { IfSome result (λ pair. run_offsets pair.first ≡ offsets first.now) }
    ensures second { IfSome result (λ pair. run_offsets pair.second ≡ offsets second.now) }
    ensures first_lies { IfSome result (λ pair. BeginsWithin pair.first) }
    ensures second_lies { IfSome result (λ pair. BeginsWithin pair.second) }
{
    let first = first.as_one_run()?;
    let second = second.as_one_run()?;
    Some(RunPair { first, second })
}

/// Two layouts in the order of the target in memory, if that is not C order and the items of the
/// target do not overlap, so that the order does not matter.
pub fn in_any_order(alloc: Global, dst: &Layout, src: &Layout, width: usize) -> Option<LayoutPair>
    ensures pairs { IfSome result
        (λ pair. IsPermutation (item_pairs dst.now src.now) (item_pairs pair.target pair.source)) }
    ensures nested { IfSome result (λ _. IsNested (offsets dst.now) width) }
{
    let pair = in_memory_order(alloc, dst, src)?;
    if width == 0 || !dst.is_stacked(width) {
        return None;
    }
    Some(pair)
}

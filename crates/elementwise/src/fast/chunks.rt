//! Operands that need not be stretched. Those that need no cast either are combined in place, and many
//! of two types chunk by chunk, so that the cast items stay in the cache.
ghost use Rattle.std.specs.Prelude.{◌≡◌, ◌+◌, ◌*◌, ◌≤◌, [], ◌∷◌, IfOk, IfSome, IsTrue, map};
ghost use Rattle.elementwise.specs.Words.{AreAlike, flat_map, ScalarDescr, encode_item, item_from, items, size, offsets, run_offsets, max_items, BeginsWithin};
ghost use Rattle.elementwise.specs.Casts.{cast_item};
ghost use Rattle.elementwise.specs.inside.Combined.{AreCastable, IsCombined, all_given};
ghost use Rattle.elementwise.specs.inside.LeafCasts.{run_part};
ghost use Rattle.elementwise.specs.inside.Added.{AreAdded};
ghost use Rattle.elementwise.specs.inside.Works.{target_of};

use crate::fast::columns::made;
use crate::held::{Held, keeps_items};
use crate::loops::row_pairs::{Broadcast, Operands};
use crate::operands::make_whole;
use crate::pairing::Pairing;
use crate::tuning::{CHUNK, MANY_ITEMS};
use arrays::{Items, Owned};
use elem_descr::{Descr, MemoryOrder};
use machine_numbers::place;
use raw_block::BlockBuilder;
use shape_strides::{Layout, Run, Shape, Strides};
use std::alloc::{AllocError, Global};

/// Operands of the shape of the results, with the items of each in a single run.
#[derive(Clone, Copy, Drop)]
pub(crate) struct InRuns<'a> {
    pub(crate) both: Broadcast<'a>,
    pub(crate) left: Run,
    pub(crate) right: Run,
    pub(crate) ghost same: { run_offsets left ≡ offsets both.left.layout.now },
    pub(crate) ghost also: { run_offsets right ≡ offsets both.right.layout.now },
    pub(crate) ghost shape: { both.left.layout.now.shape ≡ both.shape.now },
    pub(crate) ghost other: { both.right.layout.now.shape ≡ both.shape.now },
    pub(crate) ghost begins: { BeginsWithin left × BeginsWithin right },
    pub(crate) ghost few: { left.count ≤ max_items },
}

/// The layout of some items of a run, starting with one of them.
fn part(alloc: Global, run: Run, first: usize, count: usize) -> Result<Layout, AllocError>
    requires begins { BeginsWithin run }
    requires few { run.count ≤ max_items }
    requires some { 1 ≤ count }
    requires within { first + count ≤ run.count }
    ensures shape { IfOk result (λ l. l.shape ≡ count ∷ []) }
    ensures offsets { IfOk result (λ l. offsets l ≡ run_offsets (run_part run first count)) }
{
    let shape = Shape::from_lengths(alloc, &[count])?;
    let strides = Strides::from_slice(alloc, &[run.step])?;
    match Layout::new(shape, strides, place(run, first)) {
        Some(layout) => Ok(layout),
        None => unreachable!(),
    }
}

/// Some pairs of items, starting with one of them.
#[derive(Clone, Copy)]
struct Chunk {
    first: usize,
    count: usize,
}

/// Appends the results for a chunk of the pairs of items, which are cast together.
fn push_chunk(
    alloc: Global,
    pairing: &Pairing,
    runs: InRuns<'_>,
    chunk: Chunk,
    block: BlockBuilder,
) -> Result<BlockBuilder, AllocError>
    requires can { AreCastable pairing.now runs.both }
    requires some { 1 ≤ chunk.count }
    requires within { chunk.first + chunk.count ≤ runs.left.count }
    requires room { chunk.count * size (target_of pairing.now) ≤ block.1 }
    ensures { IfOk result
        (AreAdded (chunk.count * size (target_of pairing.now))
        (flat_map (encode_item (ScalarDescr (target_of pairing.now)))
        (all_given pairing.now runs.entry.both (run_part runs.entry.left chunk.first chunk.count)
        (run_part runs.entry.right chunk.first chunk.count))) block) }
{
    let Broadcast { left, right, .. } = runs.both;
    let near = part(alloc, runs.left, chunk.first, chunk.count)?;
    let far = part(alloc, runs.right, chunk.first, chunk.count)?;
    let first = Items {
        block: left.block,
        layout: &near,
        descr: left.descr,
    };
    let second = Items {
        block: right.block,
        layout: &far,
        descr: right.descr,
    };
    let left_to = Descr::Scalar(pairing.left());
    let right_to = Descr::Scalar(pairing.right());
    let cast = Held::of(alloc, first, &left_to)?;
    let other = Held::of(alloc, second, &right_to)?;
    let operands = Operands {
        left: cast.items(),
        right: other.items(),
    };
    Ok(pairing.push(block, operands))
}

/// The results for the items of two operands, in their shape. Its frame is large, so it is not
/// inlined.
#[inline(never)]
fn make_by_chunks(alloc: Global, pairing: &Pairing, runs: InRuns<'_>) -> Result<Owned, AllocError>
    requires { AreCastable pairing.now runs.both }
    ensures { IfOk result (IsCombined pairing.now runs.entry.both) }
{
    let shape = runs.both.shape;
    let scalar = pairing.target();
    let many = shape.items();
    let mut block = BlockBuilder::try_new(alloc, many * scalar.size())?;
    let mut done = 0;
    while done < many {
        let count = CHUNK.min(many - done);
        let chunk = Chunk { first: done, count };
        block = push_chunk(alloc, pairing, runs, chunk, block)?;
        done += count;
    }
    let block = block.finish();
    Owned::over(alloc, Descr::Scalar(scalar), shape, MemoryOrder::C, block)
}

/// The operands as runs of items, if there are many and they need not be stretched.
fn in_runs(both: Broadcast<'_>) -> Option<InRuns<'_>>
    ensures { IfSome result (λ runs. runs.both ≡ both.entry) }
{
    let Broadcast { left, right, shape } = both;
    let lengths = shape.as_slice();
    if shape.items() < MANY_ITEMS
        || left.layout.shape.as_slice() != lengths
        || right.layout.shape.as_slice() != lengths
    {
        return None;
    }
    let left = left.layout.as_one_run()?;
    let right = right.layout.as_one_run()?;
    Some(InRuns { both, left, right })
}

/// Whether items have a shape already, and a cast to an element type keeps their bytes.
fn stays(from: Items<'_>, to: &Descr, shape: &Shape) -> bool
    ensures shape { IsTrue result → from.entry.layout.now.shape ≡ shape.now }
    ensures alike { IsTrue result → AreAlike from.entry.descr.now to.now }
    ensures items { IsTrue result → map (item_from to.now from.entry.block.now)
        (offsets from.entry.layout.now)
        ≡ map (cast_item from.entry.descr.now to.now) (items from.entry) }
{
    from.layout.shape.as_slice() == shape.as_slice() && keeps_items(from.block, from.descr, to)
}

/// The results for the items of two arrays, which are cast and then stretched.
pub(crate) fn make_cast(
    alloc: Global,
    pairing: &Pairing,
    both: Broadcast<'_>,
) -> Result<Owned, AllocError>
    requires { AreCastable pairing.now both }
    ensures { IfOk result (IsCombined pairing.now both.entry) }
{
    let Broadcast { left, right, shape } = both;
    let _items = shape.items();
    let left_to = Descr::Scalar(pairing.left());
    let right_to = Descr::Scalar(pairing.right());
    if stays(left, &left_to, shape) && stays(right, &right_to, shape) {
        let operands = Operands {
            left: Items {
                block: left.block,
                layout: left.layout,
                descr: &left_to,
            },
            right: Items {
                block: right.block,
                layout: right.layout,
                descr: &right_to,
            },
        };
        return made(alloc, pairing, operands);
    }
    if let Some(runs) = in_runs(both) {
        return make_by_chunks(alloc, pairing, runs);
    }
    make_whole(alloc, pairing, both)
}

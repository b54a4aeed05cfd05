//! Casts: the items of an array as items of another element type.
ghost use Rattle.std.specs.Prelude.{IfErr, IfOk, IsTrue, if◌then◌else◌, length, map, nat_le, true, ◌*◌, ◌+◌, ◌≡◌, ◌≤◌};
ghost use Rattle.elementwise.specs.Clauses.{Bytes, EachWithin, ScalarDescr, can_cast, cast_item, C, IsNumber, NoSuchCast, OutOfMemory, TooLarge, count, encode_item, held_descr, held_items, held_shape, item_from, item_size, items, max_bytes, max_items, offsets, offsets_in, owned_items, place, run_offsets, size, HasSource, IsCut, cast_items, source, AreItems, IsCast, flat_map};

use crate::fast::columns::made;
use crate::held::{Held, keeps_items};
use crate::kernels::leaf_casts::Column;
use crate::loops::row_pairs::Operands;
use crate::pairing::{Pairing, Work};
use crate::rules::castable::{can_cast, leaf_of};
use crate::tuning::{BAND, FEWEST_IN_BAND};
use arrays::{Items, Owned, bytes_of, gather};
use elem_descr::{Descr, Leaf, MemoryOrder, Refusal, Scalar};
use machine_numbers::{is_text, place};
use raw_block::{BlockBuilder, RawBlock};
use shape_strides::Run;
use std::alloc::{AllocError, Global};

/// The leaf that is cast to the one with this number.
fn source_of(descr: &Descr, k: usize) -> Leaf
    requires { HasSource descr.now k }
    ensures value { result ≡ source descr.now k }
    ensures within { result.at + size result.scalar ≤ item_size descr.now }
{
    match descr {
        Descr::Scalar(_) => leaf_of(descr, 0),
        Descr::Record(_) => leaf_of(descr, k),
    }
}

/// Numbers, cast to another scalar. Each byte is written once.
pub(crate) fn cast_numbers(
    alloc: Global,
    from: Items<'_>,
    scalar: &Scalar,
    to: &Scalar,
) -> Result<Owned, AllocError>
    requires from { from.descr.now ≡ ScalarDescr scalar.now }
    requires number { IsNumber scalar.now }
    requires to { IsNumber to.now }
    requires few { count from.layout.now.shape * size to.now ≤ max_bytes }
    ensures { IfOk result (IsCast from.entry (ScalarDescr to.now)) }
{
    let operands = Operands {
        left: from,
        right: from,
    };
    let pairing = Pairing::Alike {
        work: Work::Cast(*to),
        scalar: *scalar,
    };
    made(alloc, &pairing, operands)
}

/// A block with exactly the items of a run, cast leaf by leaf: all items' first leaves, then their
/// second ones, and so on.
fn cast_band(
    alloc: Global,
    block: &RawBlock,
    run: Run,
    descr: &Descr,
    to: &Descr,
) -> Result<RawBlock, AllocError>
    requires some { 1 ≤ run.count }
    requires count { run.count ≤ max_items }
    requires within { EachWithin
        (length block.now) run.offset run.step (item_size descr.now) run.count }
    requires can { can_cast descr.now to.now ≡ true }
    requires few { run.count * item_size to.now ≤ max_bytes }
    ensures { IfOk result
        (AreItems to.now (cast_items descr.now to.now block.now (run_offsets run))) }
{
    let _from_item = descr.size();
    let _len = block.len();
    let row = to.size();
    let mut rows = RawBlock::try_zeroed(alloc, run.count * row)?;
    for k in 0..to.leaf_count() {
        let leaf = leaf_of(to, k);
        let source = source_of(descr, k);
        let from = Run {
            offset: run.offset + source.at,
            count: run.count,
            step: run.step,
        };
        let column = Column {
            block,
            from,
            at: leaf.at,
            row,
            rows,
        };
        rows = column.cast(&source.scalar, &leaf.scalar);
    }
    Ok(rows)
}

/// A block with exactly the items of a run, cast. Many items of several leaves are cast in bands
/// that stay in the cache, so that each line of the block is written once.
fn cast_bands(
    alloc: Global,
    block: &RawBlock,
    run: Run,
    descr: &Descr,
    to: &Descr,
) -> Result<RawBlock, AllocError>
    requires count { run.count ≤ max_items }
    requires within { EachWithin
        (length block.now) run.offset run.step (item_size descr.now) run.count }
    requires can { can_cast descr.now to.now ≡ true }
    requires few { run.count * item_size to.now ≤ max_bytes }
    ensures { IfOk result
        (AreItems to.now (cast_items descr.now to.now block.now (run_offsets run))) }
{
    let _len = block.len();
    let count = run.count;
    let size = to.size();
    let most = FEWEST_IN_BAND.max(BAND / size);
    if count > 0 && (count <= most || to.leaf_count() == 1) {
        return cast_band(alloc, block, run, descr, to);
    }
    let mut cast = BlockBuilder::try_new(alloc, count * size)?;
    let mut done = 0;
    while done < count {
        let next = most.min(count - done);
        let part = Run {
            offset: place(run, done),
            count: next,
            step: run.step,
        };
        let band = cast_band(alloc, block, part, descr, to)?;
        cast.push_bytes(band.bytes());
        done += next;
    }
    Ok(cast.finish())
}

/// Whether a cast keeps the first bytes of each item: that of byte strings which do not get longer.
fn is_cut(from: &Descr, to: &Descr) -> bool
    ensures { IsTrue result → IsCut from.now to.now }
{
    match (from, to) {
        (Descr::Scalar(Scalar::Bytes(width)), Descr::Scalar(Scalar::Bytes(target))) => {
            target.get() <= width.get()
        }
        _ => false,
    }
}

/// A block with exactly these items, cast. Items that are not a single run are copied to one first.
fn cast_block(alloc: Global, from: Items<'_>, to: &Descr) -> Result<RawBlock, AllocError>
    requires can { can_cast from.descr.now to.now ≡ true }
    requires few { count from.layout.now.shape * item_size to.now ≤ max_bytes }
    ensures { IfOk result
        (AreItems to.now
        (cast_items from.entry.descr.now to.now from.entry.block.now
        (offsets from.entry.layout.now))) }
{
    if is_cut(from.descr, to) {
        return gather(alloc, from.block, from.layout, to.size());
    }
    let count = from.layout.shape.items();
    if let Some(run) = from.layout.as_one_run() {
        return cast_bands(alloc, from.block, run, from.descr, to);
    }
    let width = from.descr.size();
    let packed = gather(alloc, from.block, from.layout, width)?;
    let run = Run {
        offset: 0,
        count,
        step: width as isize,
    };
    cast_bands(alloc, &packed, run, from.descr, to)
}

/// Items, cast to an element type for which the cast exists.
pub(crate) fn cast_items(alloc: Global, from: Items<'_>, to: &Descr) -> Result<Owned, AllocError>
    requires can { can_cast from.descr.now to.now ≡ true }
    requires few { count from.layout.now.shape * item_size to.now ≤ max_bytes }
    ensures { IfOk result (IsCast from.entry to.now) }
{
    match (from.descr, to) {
        (Descr::Scalar(scalar), Descr::Scalar(target)) if !is_text(target) => {
            let near = Held::near(alloc, from);
            cast_numbers(alloc, near.items(), scalar, target)
        }
        _ => {
            let cast = cast_block(alloc, from, to)?;
            let descr = Descr::try_copy(alloc, to)?;
            Owned::over(alloc, descr, &from.layout.shape, MemoryOrder::C, cast)
        }
    }
}

impl<'a> Held<'a> {
    /// Items cast to a small element type. If the cast keeps their bytes, they stay in place.
    pub(crate) fn of(alloc: Global, from: Items<'a>, to: &'a Descr) -> Result<Held<'a>, AllocError>
        requires can { can_cast from.descr.now to.now ≡ true }
        requires small { item_size to.now ≤ 8 }
        ensures descr { IfOk result (λ h. held_descr h ≡ to.now) }
        ensures shape { IfOk result (λ h. held_shape h ≡ from.entry.layout.now.shape) }
        ensures items { IfOk result
            (λ h. held_items h ≡ map (cast_item from.entry.descr.now to.now) (items from.entry)) }
    {
        if keeps_items(from.block, from.descr, to) {
            return Ok(Held::Kept(Items {
                block: from.block,
                layout: from.layout,
                descr: to,
            }));
        }
        let _items = from.layout.shape.items();
        let made = cast_items(alloc, from, to)?;
        Ok(Held::Made(made))
    }
}

/// Items, cast to another element type, in a block of their own in C order. A cast that does not
/// exist is refused, and then more than `MAX_BYTES` bytes of items.
pub fn cast(alloc: Global, from: Items<'_>, to: &Descr) -> Result<Owned, Refusal>
    ensures descr { IfOk result (λ o. o.descr ≡ to.now) }
    ensures shape { IfOk result (λ o. o.layout.shape ≡ from.entry.layout.now.shape) }
    ensures order { IfOk result
        (λ o. offsets o.layout ≡ offsets_in C (item_size to.now) from.entry.layout.now.shape) }
    ensures items { IfOk result (λ o. map (item_from to.now o.block) (offsets o.layout)
        ≡ map (λ offset. cast_item from.entry.descr.now to.now
        (item_from from.entry.descr.now from.entry.block.now offset))
        (offsets from.entry.layout.now)) }
    ensures encoded { IfOk result (λ o. o.block ≡ flat_map (encode_item o.descr) (owned_items o)) }
    ensures can { IfOk result (λ _. can_cast from.entry.descr.now to.now ≡ true) }
    ensures within { IfOk result (λ _. count from.entry.layout.now.shape * item_size to.now
        ≤ max_bytes) }
    ensures refused { IfErr result (λ refusal. refusal ≡ (if can_cast from.entry.descr.now to.now
        then (if nat_le (count from.entry.layout.now.shape * item_size to.now) max_bytes
        then OutOfMemory else TooLarge) else NoSuchCast)) }
{
    if !can_cast(from.descr, to) {
        return Err(Refusal::NoSuchCast);
    }
    bytes_of(from.layout.shape.items(), to)?;
    Ok(cast_items(alloc, from, to)?)
}

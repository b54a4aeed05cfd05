//! Plans: where in a buffer the items are that an index list with arrays selects.
ghost use Rattle.std.specs.Prelude.{◌≡◌, ◌+◌, ◌*◌, ◌<◌, ◌≤◌, length, map, nat_le, slice_index, if◌then◌else◌, All, IfOk, IfErr, IsTrue};
ghost use Rattle.fancy_index.specs.Clauses.{OutOfMemory, TooLarge, item_from, item_size, C, max_bytes, max_items, count, offsets, multiples, items_at, assigned, offsets_in, put_each, laid_offsets, AllStart, offsets_from};

use crate::gather_scatter::{fill, push_all, scatter};
use crate::item_sources::{PackedItems, Source};
use crate::plan_rows::{PlanAxes, moved};
use arrays::{Owned, bytes_of, gather};
use elem_descr::{Descr, MemoryOrder, Refusal};
use raw_block::{BlockBuilder, RawBlock};
use shape_strides::{Layout, Shape, Walk};
use std::alloc::{AllocError, Global};
use std::marker::Model;

/// Where in a buffer the items are that an index list with arrays selects. A contract sees it as a
/// shape and the offsets of its items in C order. It stores one number for each item of the
/// broadcast arrays, and the strides of the other axes.
#[derive(Drop)]
pub struct Plan {
    shape: Shape,
    /// On the heap, so that a plan is no larger than a layout when it is moved.
    axes: Box<PlanAxes>,
}

impl Model for Plan {
    ghost use Rattle.fancy_index.specs.Plans.{Planned};

    ghost Value = { Planned };

    ghost use Rattle.std.specs.Prelude.{◌≡◌, length};
    ghost use Rattle.fancy_index.specs.Clauses.{count, offsets_from};

    ghost view = { λ p. record { shape = p.shape; offsets = offsets_from p.axes.value } };

    ghost invariant = { λ p. length (offsets_from p.axes.value) ≡ count p.shape };
}

/// Whether these are two or more adjacent items of `width` bytes that start at the block's start.
fn is_packed(layout: &Layout, width: usize) -> bool
    ensures { IsTrue result → offsets layout.now ≡ multiples width (length (offsets layout.now)) }
{
    let Some(run) = layout.as_run() else {
        return false;
    };
    if run.offset > 0 {
        return false;
    }
    run.is_packed(width)
}

impl Plan {
    /// The plan of a shape, given the axes before those of the arrays, the offset of the first item
    /// with each point, and the axes after them.
    pub(crate) fn try_new(
        alloc: Global,
        shape: Shape,
        outer: Layout,
        shifts: Vec<u32>,
        inner: Layout,
    ) -> Result<Plan, AllocError>
        requires count { length (laid_offsets outer shifts.items inner) ≡ count shape }
        requires small { inner.offset ≤ max_bytes }
        requires starts { AllStart outer shifts.items inner }
        ensures shape { IfOk result (λ plan. plan.shape ≡ shape) }
        ensures offsets { IfOk result (λ plan.
            plan.offsets ≡ laid_offsets outer shifts.items inner) }
    {
        let axes = PlanAxes {
            outer,
            shifts,
            inner,
        };
        if let Some(step) = axes.even_step() {
            if let Some(even) = axes.evened(alloc, step)? {
                let axes = Box::new(alloc, even)?;
                return Ok(Plan { shape, axes });
            }
        }
        let axes = Box::new(alloc, axes)?;
        Ok(Plan { shape, axes })
    }

    fn axes(&self) -> &PlanAxes
        ensures { offsets_from result.now ≡ self.now.offsets }
    {
        &self.axes
    }

    /// The shape of the items.
    pub fn shape(&self) -> &Shape
        ensures shape { result.now ≡ self.now.shape }
    {
        &self.shape
    }

    /// The number of items.
    pub fn len(&self) -> usize
        ensures value { result ≡ length self.now.offsets }
        ensures count { result ≡ count self.now.shape }
        ensures limit { result ≤ max_items }
    {
        self.shape.items()
    }

    /// The offset of the item at a rank.
    pub fn offset(&self, rank: usize) -> usize
        requires { rank < length self.now.offsets }
        ensures { result ≡ slice_index self.now.offsets rank }
    {
        let axes = self.axes();
        let base = axes.inner.offset;
        let shifts = axes.shifts.as_slice();
        let inner = axes.inner.shape.items();
        let row = rank / inner;
        let place = axes.outer.at_rank(row / shifts.len());
        let start = moved(base, place, shifts[row % shifts.len()] as usize);
        moved(base, start, axes.inner.at_rank(rank % inner))
    }

    /// The items, of `width` bytes, at the offsets, adjacent in a block of their own.
    pub fn gather(
        &self,
        alloc: Global,
        block: &RawBlock,
        width: usize,
    ) -> Result<RawBlock, AllocError>
        requires { All (λ offset. offset + width ≤ length block.now) self.now.offsets }
        ensures len { IfOk result (λ items. length items ≡ length self.now.offsets * width) }
        ensures items { let packed = multiples width (length self.now.offsets) in
            IfOk result (λ items.
            items_at packed width items ≡ items_at self.now.offsets width block.now) }
    {
        // More bytes than a block can have are refused like any others that cannot be allocated.
        let bytes = self.shape.items().saturating_mul(width);
        let items = BlockBuilder::try_new(alloc, bytes)?;
        let _filled = items.filled();
        let items = push_all(items, Source { block, width }, self.axes());
        Ok(items.finish())
    }

    /// The items at the offsets, in C order in a block of their own, which has exactly their size.
    /// More than `MAX_BYTES` bytes are refused.
    pub fn gather_owned(
        &self,
        alloc: Global,
        block: &RawBlock,
        descr: &Descr,
    ) -> Result<Owned, Refusal>
        requires { let width = item_size descr.now in
            All (λ offset. offset + width ≤ length block.now) self.now.offsets }
        ensures descr { IfOk result (λ o. o.descr ≡ descr.now) }
        ensures shape { IfOk result (λ o. o.layout.shape ≡ self.now.shape) }
        ensures order { IfOk result (λ o.
            offsets o.layout ≡ offsets_in C (item_size descr.now) self.now.shape) }
        ensures items { IfOk result (λ o. map (item_from descr.now o.block) (offsets o.layout)
            ≡ map (item_from descr.now block.now) self.now.offsets) }
        ensures within { IfOk result (λ _. count self.now.shape * item_size descr.now ≤ max_bytes) }
        ensures refused { let bytes = count self.now.shape * item_size descr.now in
            IfErr result (λ refusal.
            refusal ≡ (if nat_le bytes max_bytes then OutOfMemory else TooLarge)) }
    {
        bytes_of(self.len(), descr)?;
        let item = descr.size();
        let descr = Descr::try_copy(alloc, descr)?;
        let items = self.gather(alloc, block, item)?;
        Ok(Owned::over(alloc, descr, &self.shape, MemoryOrder::C, items)?)
    }

    /// Writes the adjacent items, of `width` bytes, in `items` to the offsets, strictly in order of
    /// rank: if two places share bytes, the later write stands.
    pub fn scatter(&self, block: &mut RawBlock, items: &RawBlock, width: usize)
        requires inside { All (λ offset. offset + width ≤ length block.old) self.now.offsets }
        requires items { length self.now.offsets * width ≤ length items.now }
        ensures written { let packed = multiples width (length self.now.offsets) in
            block.new ≡ assigned self.now.offsets packed width items.now block.old }
        ensures len { length block.new ≡ length block.old }
    {
        scatter(
            block,
            self.axes(),
            PackedItems {
                items,
                at: 0,
                width,
            },
        );
    }

    /// Copies the items, of `width` bytes, of a layout in another block to the offsets, strictly in
    /// order of rank. The layout has as many items. If memory allows, they are made adjacent first:
    /// finding the place of each item by its rank is slow.
    pub fn assign(&self, block: &mut RawBlock, other: &RawBlock, from: &Layout, width: usize)
        requires inside { All (λ offset. offset + width ≤ length block.old) self.now.offsets }
        requires from { All (λ offset. offset + width ≤ length other.now) (offsets from.now) }
        requires count { length (offsets from.now) ≡ length self.now.offsets }
        ensures written { let from = offsets from.now in
            block.new ≡ assigned self.now.offsets from width other.now block.old }
        ensures len { length block.new ≡ length block.old }
    {
        if is_packed(from, width) {
            self.scatter(block, other, width);
            return;
        }
        if let Ok(items) = gather(block.allocator(), other, from, width) {
            self.scatter(block, &items, width);
            return;
        }
        let _items = self.len();
        let mut rank = 0;
        for source in Walk::new(from) {
            block.copy_from(self.offset(rank), other, source, width);
            rank += 1;
        }
    }

    /// Writes the item to each of the offsets.
    pub fn fill(&self, block: &mut RawBlock, item: &[u8])
        requires { All (λ offset. offset + length item.now ≤ length block.old) self.now.offsets }
        ensures written { block.new ≡ put_each self.now.offsets item.now block.old }
        ensures len { length block.new ≡ length block.old }
    {
        fill(block, self.axes(), item);
    }
}

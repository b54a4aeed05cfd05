//! Writes items to the places of a target in a buffer, and returns the old ones if they are kept.
ghost use Rattle.std.specs.Prelude.{IfOk, IfSome, IsFalse, IsOk, IsTrue, is_some, length, replicate, ◌≡◌};
ghost use Rattle.name_store.specs.Clauses.{target_offsets, target_shape, AreAll, IsPacked, AreKept, AreKeptAt, AreOld, CanWrite, IsNear, MayRun, NeedsNone, Runs, RunsInPlace, Writes, parts_for, without_slot};

use crate::rewrite::{copy_to, fill, move_to, old_items};
use crate::slot::Slot;
use crate::target::{Home, OldItems, Source, Target};
use crate::tuning::MANY_BYTES;
use arrays::{gather, goes_by_columns};
use overlap_copy::{exchange, overwrite, overwrite_each};
use raw_block::{BlockBuilder, RawBlock};
use shape_strides::{Layout, in_memory_order, lies_in_c_order};
use std::alloc::{AllocError, Global};
use std::mem::replace;

/// Old items, and the places where they were.
#[derive(Drop)]
pub struct Overwritten {
    pub target: Target,
    pub items: OldItems,
}

/// A block with copies of one item.
fn repeated(alloc: Global, item: &[u8], count: usize) -> Result<RawBlock, AllocError>
    ensures { IfOk result (IsPacked count (length item.now) (replicate count item.now)) }
{
    let mut items = BlockBuilder::try_new(alloc, count.saturating_mul(item.len()))?;
    let _filled = items.filled();
    items.push_repeated(item, count);
    Ok(items.finish())
}

/// The places of a target in the order of memory, if that is another order.
fn near(alloc: Global, target: &Target) -> Option<Target>
    ensures { IfSome result (IsNear target.now) }
{
    match target {
        Target::View(layout) if !lies_in_c_order(layout) => {
            let pair = in_memory_order(alloc, layout, layout)?;
            Some(Target::View(pair.target))
        }
        _ => None,
    }
}

/// Whether the items of a view are kept and written part by part, so that each part is still in the
/// cache: if there are many of them, in long rows, and not adjacent. A hint: either answer is
/// right.
fn goes_by_parts(layout: &Layout, width: usize) -> bool {
    layout.shape.items().saturating_mul(width) >= MANY_BYTES
        && !layout.is_c(width)
        && !goes_by_columns(layout)
}

/// A write to the places of a target in a block, with what it needs besides: memory, the size of an
/// item, and the other buffers, from which items may come.
#[derive(Drop)]
pub struct Writer<'a> {
    pub alloc: Global,
    pub width: usize,
    pub others: &'a [Option<Slot>],
    pub target: Target,
}

impl Writer<'_> {
    /// Whether the target is the whole block, in order.
    fn is_all(&self, block: &RawBlock) -> bool
        ensures { IsTrue result → AreAll self.now.width block.now (target_offsets self.now.target) }
    {
        match &self.target {
            Target::View(layout) => {
                layout.is_c(self.width)
                    && layout.shape.items().saturating_mul(self.width) == block.len()
            }
            Target::Plan(_) => false,
        }
    }

    /// A block with the items to write, adjacent: their own block if they are adjacent in it.
    fn packed(&self, block: &RawBlock, source: Source) -> Result<RawBlock, AllocError>
        requires { MayRun self.now source block.now }
        ensures { IfOk result (IsPacked (length (target_offsets self.now.target)) self.now.width
            (parts_for self.now source block.now)) }
    {
        match source {
            Source::One(item) => repeated(self.alloc, item.as_slice(), self.target.count()),
            Source::Block(owned) if owned.layout.is_c(self.width) => Ok(owned.block),
            Source::Block(owned) => gather(self.alloc, &owned.block, &owned.layout, self.width),
            Source::Buffer(number, from) => match &self.others[number as usize] {
                Some(slot) => gather(self.alloc, &slot.block, &from, self.width),
                None => gather(self.alloc, block, &from, self.width),
            },
        }
    }

    /// Copies the items to the target. Memory is needed only if they are in the same buffer and
    /// cannot be moved in place; it is allocated before the first change.
    fn copy_items(&self, block: &mut RawBlock, source: &Source) -> Result<(), AllocError>
        requires { MayRun self.now source.now block.old }
        ensures put { Runs self.now source.now block.old result block.new }
        ensures no_memory { RunsInPlace self.now source.now → IsOk result }
    {
        let (alloc, width, target) = (self.alloc, self.width, &self.target);
        match source {
            Source::One(item) => fill(alloc, block, target, item.as_slice()),
            Source::Block(owned) => copy_to(block, target, &owned.block, &owned.layout, width),
            Source::Buffer(number, from) => match &self.others[*number as usize] {
                Some(slot) => copy_to(block, target, &slot.block, from, width),
                None => return move_to(alloc, block, target, from, width),
            },
        }
        Ok(())
    }

    /// Writes the items to the target. If possible, their block replaces the whole block.
    fn put_items(&self, block: &mut RawBlock, source: Source) -> Result<(), AllocError>
        requires { MayRun self.now source block.old }
        ensures put { Runs self.now source block.old result block.new }
        ensures no_memory { RunsInPlace self.now source → IsOk result }
    {
        match source {
            Source::Block(owned) => {
                if owned.layout.is_c(self.width) && self.is_all(block) {
                    *block = owned.block;
                    return Ok(());
                }
                self.copy_items(block, &Source::Block(owned))
            }
            source => self.copy_items(block, &source),
        }
    }

    /// Writes the items to the target, and returns copies of the old ones. This is a single pass if
    /// there are many items, and they are copies of one item or come from another buffer.
    fn copy_over(&self, block: &mut RawBlock, source: &Source) -> Result<OldItems, AllocError>
        requires { MayRun self.now source.now block.old }
        ensures put { Runs self.now source.now block.old result block.new }
        ensures old { IfOk result
            (AreOld self.now.width block.old (target_offsets self.now.target)) }
    {
        let (alloc, width) = (self.alloc, self.width);
        if let Target::View(to) = &self.target
            && goes_by_parts(to, width)
        {
            match source {
                Source::One(item) => {
                    let block = overwrite_each(block, to, item.as_slice())?;
                    return Ok(OldItems { block, width });
                }
                Source::Buffer(number, from) => {
                    if let Some(slot) = &self.others[*number as usize] {
                        let block = overwrite(block, to, &slot.block, from, width)?;
                        return Ok(OldItems { block, width });
                    }
                }
                Source::Block(_) => {}
            }
        }
        let old = old_items(alloc, block, width, &self.target)?;
        self.copy_items(block, source)?;
        Ok(old)
    }

    /// Writes the items to the target, and returns the old ones: the old block if the target is the
    /// whole block, the block of the new items if these are adjacent in a block of their own, and
    /// otherwise copies. All memory is allocated before the first change.
    fn put_over(&self, block: &mut RawBlock, source: Source) -> Result<OldItems, AllocError>
        requires { MayRun self.now source block.old }
        ensures put { Runs self.now source block.old result block.new }
        ensures old { IfOk result
            (AreOld self.now.width block.old (target_offsets self.now.target)) }
    {
        let (alloc, width) = (self.alloc, self.width);
        if self.is_all(block) {
            let items = self.packed(block, source)?;
            let block = replace(block, items);
            return Ok(OldItems { block, width });
        }
        match source {
            Source::Block(owned) => match &self.target {
                Target::View(to) if owned.layout.is_c(width) => {
                    let mut items = owned.block;
                    exchange(block, to, &mut items, &owned.layout, width);
                    Ok(OldItems {
                        block: items,
                        width,
                    })
                }
                _ => self.copy_over(block, &Source::Block(owned)),
            },
            source => self.copy_over(block, &source),
        }
    }

    /// Writes the items to the target, and returns the old ones with their places in the same order:
    /// the order of memory, unless they were exchanged with the items of a block.
    #[inline(never)]
    fn put_near(
        self,
        block: &mut RawBlock,
        source: Source,
        target: Target,
    ) -> Result<Overwritten, AllocError>
        requires may { MayRun self source block.old }
        requires near { IsNear self.target target }
        ensures put { Runs self.entry source block.old result block.new }
        ensures old { IfOk result (AreKept self.entry.width block.old self.entry.target) }
    {
        match source {
            Source::One(item) => {
                let writer = Writer { target, ..self };
                let items = writer.put_over(block, Source::One(item))?;
                let target = writer.target;
                Ok(Overwritten { target, items })
            }
            Source::Buffer(number, from) => {
                let items = old_items(self.alloc, block, self.width, &target)?;
                self.copy_items(block, &Source::Buffer(number, from))?;
                Ok(Overwritten { target, items })
            }
            source => {
                let items = self.put_over(block, source)?;
                let target = self.target;
                Ok(Overwritten { target, items })
            }
        }
    }

    /// Writes the items to the target. If the old ones are to be kept, returns them with their
    /// places in the same order.
    fn put(
        self,
        block: &mut RawBlock,
        source: Source,
        keeps: bool,
    ) -> Result<Option<Overwritten>, AllocError>
        requires { MayRun self source block.old }
        ensures put { Runs self.entry source block.old result block.new }
        ensures keeps { IfOk result (λ over. is_some over ≡ keeps) }
        ensures old { IfOk result (λ over. IfSome over
            (AreKept self.entry.width block.old self.entry.target)) }
        ensures no_memory { IsFalse keeps → RunsInPlace self.entry source → IsOk result }
    {
        if !keeps {
            self.put_items(block, source)?;
            return Ok(None);
        }
        if let Some(target) = near(self.alloc, &self.target) {
            return Ok(Some(self.put_near(block, source, target)?));
        }
        let items = self.put_over(block, source)?;
        let target = self.target;
        Ok(Some(Overwritten { target, items }))
    }
}

/// Writes items to places of a buffer, whose slot is taken out meanwhile. If the old ones are to be
/// kept, returns them with their places in the same order. All memory is allocated before the first
/// change.
pub(crate) fn write_items(
    cells: &mut Vec<Option<Slot>>,
    home: Home,
    target: Target,
    source: Source,
    keeps: bool,
) -> Result<Option<Overwritten>, AllocError>
    requires { CanWrite cells.old.items home target source }
    ensures written { Writes cells.old.items home target source result cells.new.items }
    ensures keeps { IfOk result (λ over. is_some over ≡ keeps) }
    ensures old { IfOk result (λ over. IfSome over (AreKeptAt cells.old.items home target)) }
    ensures no_memory { IsFalse keeps → NeedsNone (without_slot cells.old.items home.number)
        home.width target source → IsOk result }
{
    let mut slot = cells[home.number].take().unwrap();
    let writer = Writer {
        alloc: slot.block.allocator(),
        width: home.width,
        others: cells.as_slice(),
        target,
    };
    let written = writer.put(&mut slot.block, source, keeps);
    cells[home.number] = Some(slot);
    written
}

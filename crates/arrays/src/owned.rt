//! Arrays that own their block.
ghost use Rattle.std.specs.Prelude.{◌≡◌, ◌*◌, ◌≤◌, length, nat_le, replicate, if◌then◌else◌, IfOk, IfErr};
ghost use Rattle.arrays.specs.Clauses.{OutOfMemory, TooLarge, item_size, C, max_bytes, count, offsets, FillsBlock, offsets_in};

use crate::size::bytes_of;
use elem_descr::{Descr, MemoryOrder, Refusal};
use raw_block::RawBlock;
use shape_strides::{Layout, Shape};
use std::alloc::{AllocError, Global};

/// A block and the items in it: of one descriptor, adjacent in C order or in Fortran order, from
/// the start of the block to its end.
#[derive(Drop)]
pub struct Owned {
    pub block: RawBlock,
    pub descr: Descr,
    pub layout: Layout,
    ghost fills_block: { FillsBlock descr layout block },
}

impl Owned {
    /// An array of zero bytes, in C order. More than `MAX_BYTES` bytes are refused.
    pub fn zeroed(alloc: Global, descr: Descr, shape: &Shape) -> Result<Owned, Refusal>
        ensures descr { IfOk result (λ o. o.descr ≡ descr) }
        ensures shape { IfOk result (λ o. o.layout.shape ≡ shape.now) }
        ensures order { IfOk result
            (λ o. offsets o.layout ≡ offsets_in C (item_size descr) shape.now) }
        ensures zeros { IfOk result
            (λ o. o.block ≡ replicate (count shape.now * item_size descr) 0) }
        ensures within { IfOk result (λ _. count shape.now * item_size descr ≤ max_bytes) }
        ensures refused { IfErr result (λ refusal. refusal
            ≡ (if nat_le (count shape.now * item_size descr) max_bytes
            then OutOfMemory else TooLarge)) }
    {
        let len = bytes_of(shape.items(), &descr)?;
        let block = RawBlock::try_zeroed(alloc, len)?;
        Ok(Owned::over(alloc, descr, shape, MemoryOrder::C, block)?)
    }

    /// An array over a block that has exactly the size of its items.
    pub fn over(
        alloc: Global,
        descr: Descr,
        shape: &Shape,
        order: MemoryOrder,
        block: RawBlock,
    ) -> Result<Owned, AllocError>
        requires whole { length block ≡ count shape.now * item_size descr }
        requires small { length block ≤ max_bytes }
        ensures descr { IfOk result (λ o. o.descr ≡ descr) }
        ensures shape { IfOk result (λ o. o.layout.shape ≡ shape.now) }
        ensures order { IfOk result
            (λ o. offsets o.layout ≡ offsets_in order (item_size descr) shape.now) }
        ensures block { IfOk result (λ o. o.block ≡ block) }
    {
        let item = descr.size();
        let layout = match order {
            MemoryOrder::C => Layout::c_order(alloc, shape, item)?,
            MemoryOrder::Fortran => Layout::f_order(alloc, shape, item)?,
        };
        Ok(Owned {
            block,
            descr,
            layout,
        })
    }
}

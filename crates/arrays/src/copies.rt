//! Copies of a layout's items in a block of their own.
ghost use Rattle.std.specs.Prelude.{All, IfErr, IfOk, if◌then◌else◌, length, map, nat_le, ◌*◌, ◌+◌, ◌≡◌, ◌≤◌};
ghost use Rattle.arrays.specs.Clauses.{assigned, items_at, offsets_in, EachWithin, OutOfMemory, TooLarge, count, item_at, item_from, item_size, max_bytes, offsets, run_offsets};

use crate::owned::Owned;
use crate::packed::gather;
use crate::size::bytes_of;
use elem_descr::{Descr, MemoryOrder, Refusal};
use raw_block::RawBlock;
use shape_strides::Layout;
use std::alloc::{AllocError, Global};

/// The items, of `width` bytes, of a layout, adjacent in this order in a block of their own.
fn gather_in(
    alloc: Global,
    order: MemoryOrder,
    block: &RawBlock,
    layout: &Layout,
    width: usize,
) -> Result<RawBlock, AllocError>
    requires { All (λ offset. offset + width ≤ length block.now) (offsets layout.now) }
    ensures len { IfOk result (λ items. length items ≡ count layout.now.shape * width) }
    ensures items { IfOk result
        (λ items. items_at (offsets_in order width layout.now.shape) width items
        ≡ items_at (offsets layout.now) width block.now) }
{
    match order {
        MemoryOrder::C => gather(alloc, block, layout, width),
        MemoryOrder::Fortran => {
            let reversed = Layout::reversed(alloc, layout)?;
            gather(alloc, block, &reversed, width)
        }
    }
}

/// The items of a layout in a block of their own, which has exactly their size. More than
/// `MAX_BYTES` bytes are refused.
pub fn copy(
    alloc: Global,
    block: &RawBlock,
    layout: &Layout,
    descr: &Descr,
    order: MemoryOrder,
) -> Result<Owned, Refusal>
    requires inside { All (λ offset. offset + item_size descr.now ≤ length block.now)
        (offsets layout.now) }
    ensures descr { IfOk result (λ o. o.descr ≡ descr.now) }
    ensures shape { IfOk result (λ o. o.layout.shape ≡ layout.now.shape) }
    ensures order { IfOk result
        (λ o. offsets o.layout ≡ offsets_in order (item_size descr.now) layout.now.shape) }
    ensures bytes { IfOk result
        (λ o. map (λ offset. item_at offset (item_size descr.now) o.block) (offsets o.layout)
        ≡ map (λ offset. item_at offset (item_size descr.now) block.now) (offsets layout.now)) }
    ensures items { IfOk result (λ o. map (item_from descr.now o.block) (offsets o.layout)
        ≡ map (item_from descr.now block.now) (offsets layout.now)) }
    ensures within { IfOk result (λ _. count layout.now.shape * item_size descr.now ≤ max_bytes) }
    ensures refused { IfErr result (λ refusal. refusal
        ≡ (if nat_le (count layout.now.shape * item_size descr.now) max_bytes
        then OutOfMemory else TooLarge)) }
{
    bytes_of(layout.shape.items(), descr)?;
    let item = descr.size();
    let descr = Descr::try_copy(alloc, descr)?;
    let block = gather_in(alloc, order, block, layout, item)?;
    let copy = Owned::over(alloc, descr, &layout.shape, order, block)?;
    Ok(copy)
}

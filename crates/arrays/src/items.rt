//! Borrowed items: a block, a layout within it, and their element type.
ghost use Rattle.std.specs.Prelude.{◌≡◌, ◌+◌, ◌≤◌, length};
ghost use Rattle.std.proofs.Common.{All};
ghost use Rattle.arrays.specs.Words.{item_size, offsets};

use crate::owned::Owned;
use elem_descr::Descr;
use raw_block::RawBlock;
use shape_strides::Layout;

/// The items of a layout, of an element type, in a block.
#[derive(Clone, Copy, Drop)]
pub struct Items<'a> {
    pub block: &'a RawBlock,
    pub layout: &'a Layout,
    pub descr: &'a Descr,
    pub ghost inside: { All (λ offset. offset + item_size descr.now ≤ length block.now)
        (offsets layout.now) },
}

impl Owned {
    ghost use Rattle.arrays.specs.ItemLists.{items, owned_items};

    /// The items of the array, borrowed.
    pub fn items(&self) -> Items<'_>
        ensures block { result.block.now ≡ self.now.block }
        ensures layout { result.layout.now ≡ self.now.layout }
        ensures descr { result.descr.now ≡ self.now.descr }
        ensures items { items result ≡ owned_items self.now }
    {
        Items {
            block: &self.block,
            layout: &self.layout,
            descr: &self.descr,
        }
    }
}

//! Items in place, or in a block of their own: cast, or copied into C order.
ghost use Rattle.std.specs.Prelude.{IsTrue, length, ℕ, ◌+◌, ◌≡◌, ◌≤◌};
ghost use Rattle.elementwise.specs.Clauses.{items, held_descr, held_items, held_shape, AreAlike, cast_item, item_from, item_size};

use crate::kernels::bits::note_slice;
use crate::rules::castable::are_alike;
use arrays::{Items, Owned};
use elem_descr::Descr;
use raw_block::RawBlock;

/// Items in place, or in a block of their own.
#[derive(Drop)]
pub(crate) enum Held<'a> {
    Kept(Items<'a>),
    Made(Owned),
}

impl<'a> Held<'a> {
    pub(crate) fn items(&self) -> Items<'_>
        ensures descr { result.descr.now ≡ held_descr self.now }
        ensures shape { result.layout.now.shape ≡ held_shape self.now }
        ensures items { items result ≡ held_items self.now }
    {
        match self {
            Held::Kept(items) => *items,
            Held::Made(owned) => owned.items(),
        }
    }
}

/// Whether a cast keeps the bytes of the items of a block: whether both types are stored in the
/// same way.
pub fn keeps_items(block: &RawBlock, from: &Descr, to: &Descr) -> bool
    ensures alike { IsTrue result → AreAlike from.now to.now }
    ensures known { AreAlike from.now to.now → IsTrue result }
    ensures items { IsTrue result → (offset : ℕ) → offset + item_size from.now ≤ length block.now
        → cast_item from.now to.now (item_from from.now block.now offset)
        ≡ item_from to.now block.now offset }
{
    note_slice(block.bytes());
    are_alike(from, to)
}

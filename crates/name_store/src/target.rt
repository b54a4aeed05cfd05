//! Where items are written, what is written there, and what stood there.
ghost use Rattle.std.specs.Prelude.{length, ◌≡◌};
ghost use Rattle.name_store.specs.Clauses.{target_offsets, target_shape};

use arrays::Owned;
use fancy_index::Plan;
use raw_block::RawBlock;
use shape_strides::{Layout, Shape};
use smallvec::SmallVec;

/// Where an array is: the number of its buffer, and the size of its items.
#[derive(Clone, Copy)]
pub struct Home {
    pub number: usize,
    pub width: usize,
}

/// The places of a name's array where items are written.
#[derive(Drop)]
pub enum Target {
    /// A view of the array.
    View(Layout),
    /// The items that an index list with arrays selects. If an item is selected more than once, the
    /// last write stands.
    Plan(Plan),
}

impl Target {
    /// The shape of the items.
    pub fn shape(&self) -> &Shape
        ensures { result.now ≡ target_shape self.now }
    {
        match self {
            Target::View(layout) => &layout.shape,
            Target::Plan(plan) => plan.shape(),
        }
    }

    /// How many items there are.
    pub(crate) fn count(&self) -> usize
        ensures { result ≡ length (target_offsets self.now) }
    {
        match self {
            Target::View(layout) => layout.shape.items(),
            Target::Plan(plan) => plan.len(),
        }
    }
}

/// The items to write. They have the element type of the target.
#[derive(Drop)]
pub enum Source {
    /// The bytes of one item, which is written to every place.
    One(SmallVec<u8, 16>),
    /// An array that owns its block, with one item for each place.
    Block(Owned),
    /// The items of a layout in the buffer with this number, one for each place.
    Buffer(u64, Layout),
}

/// Adjacent items of `width` bytes.
#[derive(Drop)]
pub struct OldItems {
    pub block: RawBlock,
    pub width: usize,
}

//! Where items are copied from.

use raw_block::RawBlock;

/// Items of `width` bytes in a block.
#[derive(Clone, Copy)]
pub(crate) struct Source<'a> {
    pub block: &'a RawBlock,
    pub width: usize,
}

/// Adjacent items of `width` bytes in a block, starting at `at`.
#[derive(Clone, Copy)]
pub(crate) struct PackedItems<'a> {
    pub items: &'a RawBlock,
    pub at: usize,
    pub width: usize,
}

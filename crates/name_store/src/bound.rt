//! What a name is bound to: its entry in the table, and the array that a lookup returns.

use crate::path::Path;
use arrays::Owned;
use elem_descr::Descr;
use raw_block::RawBlock;
use shape_strides::Layout;

/// What a name is bound to: a new array with a block of its own, or a view of an existing buffer. A
/// view has the number of the buffer, the path to the part of each item that it shows, and a layout
/// with offsets in bytes of the buffer's block.
#[derive(Drop)]
pub enum Bound {
    Fresh(Owned),
    View {
        number: u64,
        path: Path,
        layout: Layout,
        writable: bool,
    },
}

/// The array of a name: the number of its buffer, the path to the part of each item that it shows,
/// its layout in the buffer, and the size of the buffer's items.
#[derive(Drop)]
pub struct Entry {
    pub number: usize,
    pub path: Path,
    pub layout: Layout,
    pub item: usize,
    pub writable: bool,
}

/// A name's array: its element type, the block and the number of its buffer, the path to the part
/// of each item that it shows, and its layout in the block.
#[derive(Drop)]
pub struct ArrayRef<'a> {
    pub block: &'a RawBlock,
    pub descr: &'a Descr,
    pub layout: &'a Layout,
    pub path: &'a Path,
    pub number: u64,
    pub writable: bool,
}

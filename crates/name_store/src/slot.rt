//! A buffer.
ghost use Rattle.std.specs.Prelude.{◌≤◌};
ghost use Rattle.name_store.specs.Places.{HasJustItems};
ghost use Rattle.name_store.specs.inside.Props.{IsWhole-prop};

use elem_descr::Descr;
use raw_block::RawBlock;

/// A buffer: adjacent items of one element type in a block, and the number of names and changes
/// that use it.
#[derive(Drop)]
pub struct Slot {
    pub descr: Descr,
    pub items: usize,
    pub block: RawBlock,
    pub users: usize,
    ghost is_whole: { HasJustItems descr items block } by { IsWhole-prop descr items block },
    ghost is_used: { 1 ≤ users },
}

//! Literals of a script, and the numbers of a range, as items of a descriptor.
#![tactic(auto)]

mod leaf;
mod literal_item;
mod range;

pub use literal_item::{can_be_item, write_item, write_items};
pub use range::{range_block, range_len};

//! Arrays that own their block, in C or Fortran order, and copies of items between blocks.
#![tactic(auto)]

mod copies;
mod items;
mod owned;
mod packed;
mod size;
mod tuning;

pub use copies::copy;
pub use items::Items;
pub use owned::Owned;
pub use packed::{copy_run, gather, goes_by_columns, packed_run, push_run, scatter, strided};
pub use size::bytes_of;

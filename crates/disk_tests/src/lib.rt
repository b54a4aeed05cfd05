//! A disk in memory that may lose what was not synced, and tests of folders on it.
#![tactic(auto)]

mod cached;
#[cfg(test)]
mod cached_disks;
#[cfg(test)]
mod disks;
mod failing;

pub use cached::{CachedMemDisk, MemFile};

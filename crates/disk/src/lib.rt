//! A disk as a folder of files sees it: what a read returns now, and what a crash may leave.
#![tactic(auto)]

mod disk;
mod host;
mod host_calls;
mod system;

pub use disk::{Disk, DiskFault};
pub use host::HostDisk;

//! Stores of files: in memory, and as a folder on a disk. It re-exports what the format of the
//! files returns.
#![tactic(auto)]

mod folder_store;
mod fuse_store;
mod mem_store;
mod put;
mod read;
mod store;

pub use folder_store::{DirStore, FolderStore, MAX_FILE};
pub use fuse_store::FuseStore;
pub use mem_store::MemStore;
pub use npy_format::{
    FileParts, Header, MAX_HEADER, SavedParts, header_read, npy_load, npy_parts, npy_read,
    npy_write,
};
pub use store::{NpyStore, StoreFault};

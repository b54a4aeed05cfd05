//! NPY files: arrays as the bytes of a file and back.
#![tactic(auto)]

mod file_header;
mod file_parts;
mod grammar;
mod header;
mod header_text;
mod items;
mod reader;
mod record_list;
mod token;
mod writer;

pub use file_parts::{FileParts, npy_load};
pub use header::{Header, header_read};
pub use reader::{MAX_HEADER, front_len, npy_read};
pub use writer::{SavedParts, npy_parts, npy_write};

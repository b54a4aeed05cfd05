//! Element types of an array: their descriptors as texts, and their values as bytes; and the words that
//! a command is made of: names, operators, the items of index lists, the order of memory.
#![tactic(auto)]

mod descr;
mod digits;
mod format_text;
mod index_item;
mod name;
mod number;
mod operators;
mod record_builder;
mod refusal;
mod scalar;
mod typestr;

pub use descr::{Descr, Field, Leaf, MAX_DEPTH, Record};
pub use digits::{are_digits, capped_value, digits_len};
pub use format_text::read::format_read;
pub use format_text::write::format_write;
pub use index_item::IndexItem;
pub use name::{FieldName, LONGEST_NAME, Name, is_legal_name};
pub use number::{is_value, num_read, num_write};
pub use operators::{BinOp, Comparison, MemoryOrder, Red, UnOp};
pub use record_builder::RecordBuilder;
pub use refusal::Refusal;
pub use scalar::{BytesLen, MAX_ITEM_SIZE, Order, Scalar, Width};
pub use typestr::{descr_read, marked, typestr_read, typestr_write};

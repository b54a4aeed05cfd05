//! A bench of named arrays: the names in the order in which they were first bound, and the buffers
//! of their arrays.
#![tactic(auto)]

mod bench;
mod bound;
mod change;
mod history;
mod path;
mod rewrite;
mod slot;
mod slots;
mod table;
mod target;
mod tuning;
mod write;

pub use bench::Bench;
pub use bound::{ArrayRef, Bound};
pub use path::Path;
pub use target::{Source, Target};

// A crate can name a bench in a contract only if the types of its fields are exported.
#[doc(hidden)]
pub use bound::Entry;
#[doc(hidden)]
pub use change::Change;
#[doc(hidden)]
pub use history::History;
#[doc(hidden)]
pub use slot::Slot;
#[doc(hidden)]
pub use slots::Slots;
#[doc(hidden)]
pub use table::Table;

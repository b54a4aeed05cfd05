//! Changes of the bench, as `undo` needs them.

use crate::bound::Entry;
use crate::target::{OldItems, Target};
use elem_descr::Name;

/// A change of the bench, with all that is needed to undo it. A stored entry counts
/// as a user of its buffer. A stored write does not: as long as the write is in the history, the
/// buffer has another user, either a name or the entry in a later change.
#[derive(Drop)]
pub enum Change {
    /// A name was bound: what it was bound to before, if anything.
    Bind {
        key: Name,
        earlier: Option<Entry>,
    },
    /// A name was unbound: its place among the names, and its array.
    Unbind {
        place: usize,
        key: Name,
        entry: Entry,
    },
    /// Items of a buffer were written: the old ones.
    Write {
        number: usize,
        target: Target,
        items: OldItems,
    },
}

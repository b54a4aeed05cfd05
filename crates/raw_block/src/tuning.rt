//! Numbers that only speed depends on.

/// The fewest rows of a grid that are copied together. If rows are a power of two apart, the
/// first-level cache cannot hold the lines of more rows than this.
pub(crate) const FEWEST_ROWS: usize = 8;

/// The fewest bytes of a column that are copied together. Below that, starting the loop costs too
/// much.
pub(crate) const FEWEST_BYTES: usize = 32;

/// The most rows that are copied together.
pub(crate) const MOST_ROWS: usize = 64;

/// How many items are copied together, if the limits above allow it.
pub(crate) const MOST_ITEMS: usize = 4096;

/// Up to this many adjacent items are exchanged one by one.
pub(crate) const FEW_ITEMS: usize = 8;

//! Numbers that only speed depends on.

/// Below this count it does not pay to replace evenly spaced shifts by an axis.
pub(crate) const MANY_SHIFTS: usize = 128;

/// A mask that is read without a count gets room for so many ranks at first, if it has as many items.
pub(crate) const FIRST_RANKS: usize = 1 << 14;

/// Rows of more items are long: a call for each row costs little.
pub(crate) const SHORT_ROW: usize = 128;

/// In rows of more items, adjacent ones are copied as one range.
pub(crate) const FEW_SHIFTS: usize = 32;

/// A row of a table of offsets has at least so many items, if the layout has them.
pub(crate) const FEWEST_COLUMNS: usize = 16;

/// How many columns of a table are read together: so many places are in a cache line.
pub(crate) const NEAR_COLUMNS: usize = 16;

/// Items that are less than so many bytes from each other are near: they are in a cache line.
pub(crate) const NEAR_BYTES: usize = 64;

/// Items that are less than so many of the least steps from each other are near.
pub(crate) const NEAR_STEPS: usize = 128;

/// So many items, each in a cache line of its own, stay in the cache.
pub(crate) const CACHED_ITEMS: usize = 4096;

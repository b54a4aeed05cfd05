//! Numbers that only speed depends on.

/// How many items are kept and written at a time: few enough that they are still in the cache when
/// they are written.
pub(crate) const KEPT_ITEMS: usize = 1024;

/// How many steps a search for a sum may take.
pub(crate) const MAX_STEPS: usize = 10_000;

//! Numbers that only speed depends on.

/// Fewer bytes than this are still in the cache on a second pass.
pub(crate) const MANY_BYTES: usize = 32_768;

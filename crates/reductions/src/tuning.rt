//! Numbers that only speed depends on.

/// How many numbers are reduced before asking whether the result is already decided.
pub(crate) const CHECK_EVERY: usize = 4096;

/// How many numbers are visited together. Only one such block is then searched for the place of
/// the best.
pub(crate) const SEARCH_BLOCK: usize = 512;

//! Numbers that only speed depends on.

/// Rows of fewer items than this are short.
pub(crate) const SHORT_ROW: usize = 8;

/// This many rows or more are many.
pub(crate) const MANY_ROWS: usize = 32;

//! Numbers that only speed depends on.

/// Fewer rows than this are copied one by one.
pub(crate) const FEW_ROWS: usize = 16;

/// Rows with fewer items than this are short.
pub(crate) const SHORT_ROW: usize = 32;

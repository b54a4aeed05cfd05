//! Loops over the items of two operands: row by row, and number by number.
pub(crate) mod numbers;
pub(crate) mod row_pairs;

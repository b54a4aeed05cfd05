//! Which casts and operations there are, and the types of their results.
pub(crate) mod castable;
pub(crate) mod promotion;

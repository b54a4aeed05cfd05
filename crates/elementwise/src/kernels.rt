//! What is made of one item, or of two.
pub(crate) mod arithmetic;
pub(crate) mod bits;
pub(crate) mod byte_strings;
pub(crate) mod casting;
pub(crate) mod comparing;
pub(crate) mod leaf_casts;
pub(crate) mod texts;

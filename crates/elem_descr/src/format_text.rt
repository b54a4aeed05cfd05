//! Format texts of PEP 3118.
mod mark;
mod member;
pub(crate) mod read;
mod record;
pub(crate) mod write;

//! Reshaping: the shape that a list of lengths means, and whether it needs a copy.
#![tactic(auto)]

mod target_shape;
mod without_copy;

pub use target_shape::target;
pub use without_copy::no_copy;

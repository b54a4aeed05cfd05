//! Broadcasting: common shapes, layouts stretched to a larger shape, and the smaller layouts they
//! were stretched from.
#![tactic(auto)]

mod common_shape;
mod shrinking;
mod stretching;

pub use common_shape::{common, common_of_two};
pub use shrinking::{repeats, shrink, shrunk_shape};
pub use stretching::{stretch, stretch_into, stretched_to};

//! Views: other shapes, strides and offsets over the same bytes.
#![tactic(auto)]

mod axis_lists;
mod basic_index;
mod fields;
mod picks;
mod slice;
mod transposition;

pub use basic_index::{are_basic, basic, have_steps};
pub use fields::field;
pub use picks::{AxisPick, pick_of, picked_lengths, whole_axis, with_picks};
pub use slice::{Progression, from_front, is_place, slice_of};
pub use transposition::transpose;

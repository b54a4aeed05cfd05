//! Operations item by item: casts from one element type to another, arithmetic, and comparisons.
#![tactic(auto)]

mod apply;
mod casts;
mod comparisons;
mod fast;
mod held;
mod kernels;
mod loops;
mod operands;
mod pairing;
mod rules;
mod scalar_comparisons;
mod tuning;

pub use apply::{apply1, apply2};
pub use arrays::Items;
pub use casts::cast;
pub use comparisons::{compare, compare_bytes, compare_integer};
pub use elem_descr::{BinOp, UnOp};
pub use held::keeps_items;
pub use rules::castable::{are_alike, can_cast};
pub use rules::promotion::{
    compared_type, literal_type, promote, promote_one, same_kind, scalar_of,
};

//! Reductions: sums, products, least and greatest items and their places, over all items of an
//! array or along one of its axes.
#![tactic(auto)]

mod by_reduction;
mod fast;
mod fills;
mod folds;
mod lines;
mod parts;
mod reduced_axis;
mod reducing;
mod tuning;

pub use elem_descr::Red;
pub use reducing::reduce;

//! The text of an array of any descriptor, as NumPy prints it.
#![tactic(auto)]

mod axes;
mod bands;
mod padding;
mod printer;
mod tuning;
mod values;
mod widths;

pub use bands::{PrintFault, WriteFault, send};
pub use printer::print_by_bands;

//! Ways that only go faster. Each is entered by one call, whose contract is that of the plain way, so
//! that whoever passes over these files still knows all that is true.
pub(crate) mod axis_sums;
pub(crate) mod by_axes;
pub(crate) mod orders;
pub(crate) mod overwrites;

//! Ways that only go faster. Each is entered by one call, whose contract is that of the plain way, so
//! that whoever passes over these files still knows all that is true.
mod byte_divisions;
pub(crate) mod chunks;
pub(crate) mod columns;
pub(crate) mod cut_lengths;
pub(crate) mod divisions;
pub(crate) mod even_texts;
mod layouts;
pub(crate) mod repeats;

//! What only goes faster. Each function here has the contract of the plain way beside its call, so
//! whoever passes over this folder still knows all that the crate does.

pub(crate) mod adjacent_bools;
pub(crate) mod even_steps;
pub(crate) mod native_integers;
pub(crate) mod offset_tables;
pub(crate) mod short_rows;
pub(crate) mod single_run;
pub(crate) mod singles;
pub(crate) mod table_places;

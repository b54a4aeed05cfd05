//! Tests of what the crates of texts read, write and print: rows with values from outside.
#![tactic(auto)]

#[cfg(test)]
mod check;
#[cfg(test)]
mod descriptors;
#[cfg(test)]
mod files;
#[cfg(test)]
mod formats;
#[cfg(test)]
mod headers;
#[cfg(test)]
mod lines;
#[cfg(test)]
mod literals;
#[cfg(test)]
mod made;
#[cfg(test)]
mod numbers;
#[cfg(test)]
mod printed;
#[cfg(test)]
mod ranges;
#[cfg(test)]
mod refusals;
#[cfg(test)]
mod saved;
#[cfg(test)]
mod type_strings;

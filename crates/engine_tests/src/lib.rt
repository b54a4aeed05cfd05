//! Tests of whole runs that need a reader, a writer or a store made for them. What a script shows through the
//! program is in `tools/rows/`.
#![tactic(auto)]

#[cfg(test)]
mod fakes;
#[cfg(test)]
mod faults;
#[cfg(test)]
mod runs;
#[cfg(test)]
mod scripts;
#[cfg(test)]
mod stores;

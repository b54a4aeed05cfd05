//! Tests of blocks, of the limits of layouts and of which views overlap: definitions that no vector evaluates.
#![tactic(auto)]

#[cfg(test)]
mod blocks;
#[cfg(test)]
mod check;
#[cfg(test)]
mod layouts;
#[cfg(test)]
mod made;
#[cfg(test)]
mod overlaps;

//! Tests of values, draws, drawings and pools, and of a command's words.
//!
//! It has tests alone, for what no clause of the crates below says: that values, objects, labels
//! and cells are those of independent programs, that turns are made in the order in which they are
//! asked for, and that words stand for the commands that were meant.
#![tactic(auto)]

#[cfg(test)]
mod draws;
#[cfg(test)]
mod observed;
#[cfg(test)]
mod pools;
#[cfg(test)]
mod runs;
#[cfg(test)]
mod values;
#[cfg(test)]
mod words;

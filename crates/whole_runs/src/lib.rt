//! Whole runs of the program over shelves and sinks in memory, compared byte by byte.
//!
//! It has tests alone, for what no clause of the crates below says: that the refusals, the lines
//! and the drawn objects are those that were meant. The expected texts are those of an independent
//! program, or were found by hand.
#![tactic(auto)]

#[cfg(test)]
mod drawings;
#[cfg(test)]
mod fast;
#[cfg(test)]
mod faults;
#[cfg(test)]
mod objects;
#[cfg(test)]
mod pools;
#[cfg(test)]
mod texts;
#[cfg(test)]
mod whole;

//! Tests of the crates that stand on no specification: files and bytes, fractions, rounded numbers
//! and tapes.
//!
//! It has tests alone, for what no clause of the crates below says: values of independent programs,
//! what the system reads and writes, and calls that fail in mid-stream.
#![tactic(auto)]

#[cfg(test)]
mod outside;
#[cfg(test)]
mod rounded;
#[cfg(test)]
mod tapes;

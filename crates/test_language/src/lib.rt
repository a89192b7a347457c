//! Tests of specifications, of the texts of objects and of marked objects.
//!
//! It has tests alone, for what no clause of the crates below says: that texts are refused for the
//! reasons and at the places that were meant, and printed as they were meant, that specifications
//! can't be pointed for the reasons that were meant, and that long objects can be marked.
#![tactic(auto)]

#[cfg(test)]
mod marks;
#[cfg(test)]
mod objects;
#[cfg(test)]
mod specifications;

//! The definitions that the sampler stands on: specifications, objects, weights, totals, the ideal
//! sampler, cells of bits, and what an oracle of class values tells.
//!
//! Each definition stands in `specs/`, with one plain sentence above it. The ideal side knows no
//! generating function, no rounding and no bit: a value is all finite totals of distinct objects.
#![tactic(auto)]

pub mod cell;
pub mod cells;
pub mod fraction;
pub mod number;
pub mod oracle;
pub mod steps;

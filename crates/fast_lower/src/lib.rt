//! Lower class values by contraction.
//!
//! Near a singularity, sweeps from zero are slow. A vector below its own image may belong to a
//! greater solution than that of the class values; a contraction settles it. `Fast::check` tests
//! that a vector is nowhere above a base nor above its own image, and that the rounded map
//! contracts along some weights at the base. Each entry with one unit taken off is then Below for
//! its class, whoever chose the vector and the weights (`laws.rt`). `Fast::propose` searches for
//! such a vector by the rule of `specs/FastVector.antt`, and a `FastMemo` is an oracle whose lower
//! sweeps start from it. No clause says for which specifications and x a candidate passes.
#![tactic(auto)]

pub mod fast;
mod fast_memo;
pub mod growths;
pub mod laws;
mod proposal;

pub use fast::{Fast, FastFault};
pub use fast_memo::FastMemo;

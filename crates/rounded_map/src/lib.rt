//! Node values by the rounded map, sweeps of class vectors, and the test that a vector is
//! post-fixed.
//!
//! A class vector has one number for each class, in units of `2^-F`. The values of all nodes, lower
//! and upper, the sweeps and the derivative are those of `specs/RoundedMap.antt` and
//! `specs/Derivative.antt`. From entries that are reached (bound) come node values that are reached
//! (bound), and a post-fixed vector bounds every total. No clause says that a sweep comes close to
//! the exact values. No call takes memory, and each ticks once.
#![tactic(auto)]

pub mod contraction;
mod counted_derivative;
pub mod derivative;
pub mod laws;
pub mod lower;
pub mod upper;

pub use contraction::is_contracting;
pub use derivative::sweep_dual;
pub use lower::{eval_lo, sweep_lo};
pub use upper::{NoValue, PostFault, eval_hi, is_post_fixed, sweep_hi};

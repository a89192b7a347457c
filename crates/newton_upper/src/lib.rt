//! Post-fixed vectors: class values that bound every total.
//!
//! A `Base` keeps a vector that is post-fixed for the specification and x that it was made of.
//! `Base::check` tests a given vector; `propose` searches for one by the rule of
//! `specs/BaseRule.antt`, among candidates (`specs/Candidates.antt`) and then among proposals of
//! Newton steps (`specs/Newton.antt`). No clause says which specifications and x have a base: the
//! search is judged by the test alone.
#![tactic(auto)]

pub mod base;
mod candidates;
mod matrix;
mod neumann_series;
mod newton;
pub mod search;
pub mod sweeps;
pub mod trials;
pub mod values;

pub use base::{Base, BaseFault};
pub use search::{UpperFault, propose};
pub use sweeps::dual_vector;
pub use trials::{Trial, Trials};
pub use values::Values;

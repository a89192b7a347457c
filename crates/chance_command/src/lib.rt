//! The command `chance`: bounds of the chance of an object, its weight over the value of its class.
//!
//! A specification is read and judged, then an object of its first class, then a base is searched,
//! and the object is weighed over the bounds of level 6 (`specs/ChanceCommand.antt`). `laws` has
//! what the printed numbers say: they enclose the chance; and when the answer is certain
//! (`specs/Completeness.antt`). No clause says that a base is found, or that memory suffices.
#![tactic(auto)]

pub mod chance;
pub mod laws;

//! The chance of an object: its weight over the value of its class, enclosed.
//!
//! `chance` walks over the tokens of a shape and multiplies a lower and an upper weight, each
//! product and quotient rounded outward to 64 binary digits (`specs/Scaled.antt`,
//! `specs/Chance.antt`). The roundings are relations with one answer, so the bounds are fixed. The
//! lower bound times the total of any list of distinct objects of the class is at most the object's
//! weight; the upper bound is 1, or times the total of some such list at least the weight. No
//! clause says that memory suffices.
#![tactic(auto)]

pub mod chance;
pub mod laws;
pub mod line;
pub mod scaled;
mod weights;

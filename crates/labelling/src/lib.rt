//! Labels atoms: a uniform permutation of 1 to n, drawn label by label from tape bits.
//!
//! For every list of numbers in its cells, `label` gives the labels that ideal labelling gives
//! (bz_model: `specs/Labels.antt`). Which bits it takes, and how it ends, is a function of the bits
//! that it was given (`specs/LabelsByBits.antt`, `specs/Answer.antt`), which its cells spell
//! (`specs/Spelled.antt`, `laws`). No clause says that a number is ever decided, nor what a tape's
//! bits are where its shelf doesn't tell.
#![tactic(auto)]

pub mod label;
pub mod labelled;
pub mod labels;
pub mod laws;
mod progress;
mod remaining;
pub mod tree;

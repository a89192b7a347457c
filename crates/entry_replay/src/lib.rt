//! Entries made again from the bits that their own cells spell.
//!
//! `replay` makes an attempt and a labelling over a tape of just these bits (`specs/Replay.antt`).
//! Its answer has the tokens and the labels exactly where they are drawn from these bits with
//! exactly these cells, and then ideal making makes the object of every list of numbers in the
//! cells. Two answers for the same cells are the same (`laws`). No clause says how many visits a
//! replay takes, or that memory suffices.
#![tactic(auto)]

pub mod laws;
mod packing;
pub mod replay;

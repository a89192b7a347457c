//! Rounded arithmetic on values of `F` fraction bits, for every `F` from 24 to 56.
//!
//! A number v stands for `v / 2^F`. The operations of [`Lo`] round down and stop at `u64::MAX`;
//! those of [`Hi`] round up and have no value past it. Each result is the one that
//! `specs/Rounded.antt` defines, and lies on its side of the exact result (`specs/Enclosure.antt`):
//! of the quotient, the sum or the product, and for a sequence of the finite sums of powers. Upper
//! operations are monotone (`laws`). No clause says how far a result is from the exact one.
#![tactic(auto)]

pub mod laws;
pub mod lower;
pub mod narrow;
pub mod upper;

pub use lower::Lo;
pub use upper::Hi;

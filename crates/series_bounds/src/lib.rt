//! The exponential, the logarithm and sums of powers, rounded to a side, for every `F` from 24 to
//! 56.
//!
//! For sequences, sets and cycles of parts of value a: the sum over a range of numbers of parts,
//! with and without a cap, and over all numbers of parts from a low on. Each result is the one that
//! `specs/Series.antt` defines, and lies on its side of the finite sums of the exact terms `a^j`,
//! `a^j / j!` or `a^j / j` (`specs/ExactSums.antt`). Upper values are monotone in the argument and
//! in the cap (`laws`). No clause says how far a result is from the exact one.
#![tactic(auto)]

pub mod cycles;
pub mod laws;
pub mod sequences;
mod series_terms;
pub mod sets;
mod sums;
mod value_bounds;

pub use cycles::{
    cyc_from_hi, cyc_from_lo, cyc_part_hi, cyc_part_lo, cyc_range_hi, log_hi, log_lo,
};
pub use sequences::{seq_from_hi, seq_from_lo, seq_part_hi, seq_part_lo, seq_range_hi};
pub use sets::{exp_hi, exp_lo, set_from_hi, set_from_lo, set_part_hi, set_part_lo, set_range_hi};

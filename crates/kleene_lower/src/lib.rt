//! Lower class values by Kleene iteration: lower sweeps of the rounded map from zero, or from
//! another vector.
//!
//! The vector after any number of sweeps is the one of `specs/Lower.antt`. Where each entry of the
//! start is reached, as zero is, each entry is: some list of distinct objects of the class totals
//! at least so much. No clause says how many sweeps come how close to the exact values.
#![tactic(auto)]

pub mod lower;

pub use lower::Lower;

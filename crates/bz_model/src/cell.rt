//! Cells of uniform numbers, and bounds of a value.

/// The numbers u with `k <= u * 2^b < k + 1`, `b` being from 1 to 60 and `k` below `2^b`.
#[derive(Clone, Copy, Debug, PartialEq, Eq)]
pub struct Cell {
    pub k: u64,
    pub b: u32,
}

/// A lower and an upper bound of a value, in units of `2^-F`.
#[derive(Clone, Copy, Debug, PartialEq, Eq)]
pub struct Bounds {
    pub lo: u64,
    pub hi: u64,
}

//! The window of a drawing, its limits, and what it counts.

/// The least and the greatest size that is kept, how many objects are wanted, and how many turns
/// may be made.
#[derive(Clone, Copy, Debug, PartialEq, Eq)]
pub struct Limits {
    pub min: u64,
    pub max: u64,
    pub count: u64,
    pub turns: u64,
}

/// How many objects were kept and attempts thrown away, how many turns were made, and the sum of
/// the kept sizes.
#[derive(Clone, Copy, Debug, PartialEq, Eq)]
pub struct Counts {
    pub kept: u64,
    pub thrown: u64,
    pub turns: u64,
    pub atoms: u64,
}

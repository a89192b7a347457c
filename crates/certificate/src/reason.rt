//! What a certificate is found to be.

/// Which test of a certificate fails.
#[derive(Clone, Copy, Debug, PartialEq, Eq)]
pub enum Reason {
    /// The mode isn't the specification's.
    Mode,
    /// The digest isn't that of the specification's canonical text.
    Spec,
    /// The fraction bits aren't those of the call, or not 48 in version 1.
    Fraction,
    /// The window isn't one of sizes up to 1000000.
    Window,
    /// The names aren't the classes in order, or the base isn't post-fixed.
    Base,
    /// An entry's number isn't the next, its place is too early, or its size isn't that of its
    /// object or not within the window.
    Object,
    /// No object is made of an entry's cells.
    Cells,
    /// An entry's text isn't that of its object.
    Text,
    /// The number of kept objects isn't that of the entries.
    Closing,
}

/// Whether each test passes, or the first that fails, with the line where its field is, counted
/// from 1.
#[derive(Clone, Copy, Debug, PartialEq, Eq)]
pub enum Verdict {
    Valid,
    Invalid { line: u64, reason: Reason },
}

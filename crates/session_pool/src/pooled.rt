//! What a pool tells of its drawings.
use size_window::ending::Ending;
use size_window::limits::Counts;
use size_window::turned::Entry;

/// What a turn of a pool made of its drawing.
#[derive(Clone, Copy, Debug, PartialEq, Eq)]
pub enum Pooled {
    /// The drawing goes on.
    Going,
    /// The drawing has ended, in this turn or before.
    Finished,
    /// Memory ran out; no turn is counted.
    OutOfMemory,
}

/// A drawing of a pool: the objects that it kept, in order, what it counted, how many bits of its
/// tape it used, and why it ended, if it ended.
#[derive(Clone, Copy)]
pub struct Pooling<'a> {
    pub entries: &'a [Entry],
    pub counts: Counts,
    pub used: u64,
    pub ending: Option<Ending>,
}

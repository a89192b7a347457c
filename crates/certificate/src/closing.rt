//! How a certificate closes.
use size_window::ending::Straddle;

/// Why a drawing ended.
#[derive(Clone, Copy, Debug, PartialEq, Eq)]
pub enum ClosingWord {
    Done,
    TapeEnded,
    Undecided,
    TurnLimit,
    ReadFault,
}

/// Why a drawing ended, the number that was left open where one was, how many objects were kept and
/// attempts thrown away, the bits used and the turns made.
#[derive(Clone, Copy, Debug, PartialEq, Eq)]
pub struct Closing {
    pub word: ClosingWord,
    pub straddle: Option<Straddle>,
    pub kept: u64,
    pub thrown: u64,
    pub bits: u64,
    pub turns: u64,
}

//! What a drawer answers.
use bz_model::cell::Cell;

/// A number drawn from tape bits, or why there is none.
#[derive(Clone, Copy, Debug, PartialEq, Eq)]
pub enum Drawn {
    /// The number, with the cell of the least number of bits that decides one.
    Value { value: u64, cell: Cell },
    /// No number of bits up to 60 decides one; the cell has 60.
    Straddles { cell: Cell },
    /// The tape ended before a decision. The bits taken before stay taken.
    Ended,
    /// The tape's shelf failed before a decision. The bits taken before stay taken.
    ReadFault,
}

//! What the drawer of a number of parts answers.
ghost use Rattle.std.specs.Prelude.{◌≡◌};
ghost use Rattle.count_draw.specs.Answer.{answer_of};

use crate::kind::CountChoice;
use bz_model::cell::Cell;

/// A number of parts drawn from tape bits, or why there is none.
#[derive(Clone, Copy, Debug, PartialEq, Eq)]
pub enum CountDrawn {
    /// The number, with the cell of the least number of bits that decides.
    Count { value: u64, cell: Cell },
    /// Every number up to the room is passed over, by the cell of the least number of bits that
    /// decides.
    Over { cell: Cell },
    /// No number of bits up to 60 decides; the cell has 60.
    Straddles { cell: Cell },
    /// The tape ended before a decision. The bits taken before stay taken.
    Ended,
    /// The tape's shelf failed before a decision. The bits taken before stay taken.
    ReadFault,
}

/// A number of parts that the bits read ahead take, with its cell.
#[derive(Clone, Copy, Debug, PartialEq, Eq)]
pub struct CountTaken {
    pub count: u64,
    pub cell: Cell,
}

impl CountDrawn {
    /// The answer that a choice gives with its cell.
    pub(crate) fn of(choice: CountChoice, cell: Cell) -> CountDrawn
        ensures exact { result ≡ answer_of choice cell }
    {
        match choice {
            CountChoice::Take(value) => CountDrawn::Count { value, cell },
            CountChoice::Over => CountDrawn::Over { cell },
        }
    }
}

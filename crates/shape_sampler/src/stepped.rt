//! What a step of a session answers.
use bz_model::cell::Cell;
use class_system::ids::ExprId;

/// What became of the first pending node.
#[derive(Clone, Copy, Debug, PartialEq, Eq)]
pub enum Stepped {
    /// It was visited, and nodes are still pending.
    Moved,
    /// It was visited, and nothing is pending: the shape is the ideal one for every list of numbers
    /// in the cells.
    Made,
    /// An atom met room 0, or the drawer answered that every option is above the room. Ideal making
    /// is over for every list of numbers in the cells; nothing is pending.
    Overshot,
    /// 60 bits decided no option of the node.
    Straddles { node: ExprId, cell: Cell },
    /// The tape ended before an option was decided.
    Ended,
    /// The tape's shelf failed before an option was decided.
    ReadFault,
    /// Memory ran out before the first bit; everything is as it was.
    OutOfMemory,
}

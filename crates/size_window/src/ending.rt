//! Why a drawing ends.
use bz_model::cell::Cell;
use class_system::ids::ExprId;

/// A number whose 60 bits decided nothing.
#[derive(Clone, Copy, Debug, PartialEq, Eq)]
pub enum Straddle {
    /// An option of a node, with the node's bounds at level 6, in units of `2^-F`.
    Node {
        node: ExprId,
        cell: Cell,
        lo: u64,
        hi: u64,
    },
    /// A whole number below `m`, for the label of an atom.
    Label {
        m: u64,
        cell: Cell,
    },
}

/// Why a drawing ended.
#[derive(Clone, Copy, Debug, PartialEq, Eq)]
pub enum Ending {
    /// As many objects as wanted are kept.
    Done,
    /// The tape ended before a number was decided.
    TapeEnded,
    /// 60 bits decided no option, or no label.
    Undecided(Straddle),
    /// As many turns as the limit were made, and fewer objects than wanted are kept.
    TurnLimit,
    /// The tape's shelf failed before a number was decided.
    ReadFault,
}

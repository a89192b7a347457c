//! Why a text is no specification.

use class_system::limits::BuildFault;

/// Why a text is refused. The variants stand in the order in which they are tested.
#[derive(Clone, Copy, Debug, PartialEq, Eq)]
pub enum SpecFault {
    /// More than 65,536 bytes are given.
    TooLong { len: u64 },
    /// The byte at this offset is the first that isn't text.
    NotText { place: u64 },
    /// The token at this line and column is the first such that no text begins with the tokens up
    /// to and with it.
    Syntax { line: u32, column: u32 },
    /// The first of this and the next two faults by place is a name in a sum without definition.
    Undefined { line: u32, column: u32 },
    /// The first is a second definition of a name.
    Twice { line: u32 },
    /// The first is `Set` or `Cyc` in an unlabelled text.
    NeedsLabels { line: u32, column: u32 },
    /// A limit of a system is broken.
    Limit(BuildFault),
    /// Memory ran out, at any point.
    OutOfMemory,
}

//! What a labelling answers.
use crate::labels::Labels;
use bz_model::cell::Cell;
use bz_model::cells::Cells;

/// The labels of the atoms, or why there are none.
#[derive(Drop)]
pub enum Labelled {
    /// The labels in token order, with the cells of the numbers drawn for them: one for each atom
    /// but the last.
    Labels { labels: Labels, cells: Cells },
    /// 60 bits decided no whole number below `m`, so many labels remaining.
    Straddles { m: u64, cell: Cell },
    /// The tape ended before the last number was decided. The bits taken before stay taken.
    Ended,
    /// The tape's shelf failed before the last number was decided. The bits taken before stay
    /// taken.
    ReadFault,
    /// Memory ran out before the first bit.
    OutOfMemory,
}

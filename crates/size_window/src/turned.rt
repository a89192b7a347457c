//! What a turn of a drawing answers.
use crate::ending::Ending;
use bz_model::cells::Cells;
use labelling::labels::Labels;
use object_store::shape::Shape;

/// A kept object: its number from 1, how many tape bits were used before its attempt, its shape, in
/// labelled mode the labels of its atoms in token order, and the cells of its numbers in the order
/// drawn, those of the shape before those of the labels.
#[derive(Drop)]
pub struct Entry {
    pub number: u64,
    pub place: u64,
    pub shape: Shape,
    pub labels: Option<Labels>,
    pub cells: Cells,
}

/// What a turn made of a drawing.
#[derive(Drop)]
pub enum Turned {
    /// It goes on, and kept nothing in this turn.
    Going,
    /// It kept an object.
    Kept(Entry),
    /// It ended, in this turn or before.
    Finished(Ending),
    /// Memory ran out before the turn's first bit; no turn is counted.
    OutOfMemory,
}

/// What a visit leaves to do.
#[derive(Clone, Copy)]
pub(crate) enum Outcome {
    /// Nodes are pending.
    Moved,
    /// Nothing is pending: a shape was made.
    Made,
    /// The attempt is over the room.
    Over,
    /// The drawing ends.
    Stopped(Ending),
    /// Nothing: memory ran out.
    OutOfMemory,
}

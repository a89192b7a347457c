//! Draws a union's part or a whole number from tape bits.
//!
//! A draw takes bits until its cell decides (`specs/Draw.antt`, `specs/Answer.antt`). What a cell
//! decides is a function of a table of bounds (`specs/Decision.antt`), and it is the ideal option,
//! or the whole number, of every number of the cell (`specs/IdealOfCell.antt`, `specs/Whole.antt`).
//! What the first eleven bits decided at a union may be kept for later draws
//! (`specs/KeptChoices.antt`), whose answers are the same.
//! No clause says that a cell is ever decided, nor what a tape's bits are where its shelf doesn't
//! tell.
#![tactic(auto)]

pub mod cells;
pub mod drawn;
pub mod kept;
pub mod laws;
mod level_bounds;
pub mod marks;
pub mod union;
pub mod whole;

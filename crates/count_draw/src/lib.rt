//! Draws the number of parts of a sequence, set or cycle from tape bits.
//!
//! A draw takes bits until its cell decides (`specs/Answer.antt`). What a cell decides is a
//! function of a table of bounds (`specs/Decision.antt`): the least number of parts whose lower
//! value ends after the cell, where the upper value of one part less ends before it, or that every
//! number up to a room is passed over. A number decided is the ideal option of every number of the
//! cell, and where all are passed over, none is ideal.
//!
//! The values that decide are summed term by term and kept: in a draw for its later bits, and in
//! [`cache::KeptTables`] for later draws, which look up there what the first eleven bits decided
//! (`specs/FirstCounts.antt`). [`table::CountTable`] keeps the partial values of the first 256
//! numbers of parts (`specs/Table.antt`), for many cells of one choice. No clause says that a cell
//! is ever decided, nor what a tape's bits are where its shelf doesn't tell.
#![tactic(auto)]

pub mod cache;
mod choice;
pub mod count;
pub mod drawn_count;
mod first_counts;
pub mod kind;
mod leaps;
mod partial_sums;
mod prefix_sums;
pub mod table;
mod terms;
mod thresholds;

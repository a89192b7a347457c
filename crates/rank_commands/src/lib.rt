//! The commands `count`, `unrank` and `rank`: how many objects of a size there are, and their
//! ranks.
//!
//! Each command is a file of `specs/` that says it as stages, and a file of `src/` with a function
//! for each stage. The printed counts are numbers of distinct objects, and a rank is the number of
//! objects of the size that come before one (`rank_tables`, `specs/RankOrder.antt`). What is
//! refused before anything is printed is `specs/RankStages.antt`, and the order of the stages is in
//! the file of each command; `laws` says that a call whose files are known has one outcome, and
//! which that is. Nothing is written before all of the text is made. No clause says that memory
//! suffices.
#![tactic(auto)]

pub mod count;
pub mod laws;
pub mod rank;
mod refusals;
mod stages;
pub mod unrank;

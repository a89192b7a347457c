//! The command `pool`: a drawing over each of several tapes, taking turns over one memo.
//!
//! What each drawing is, its text, the order of their ends and the status are
//! `specs/PoolCommand.antt`: each drawing is one that a drawing alone over its tape could be, so
//! that no other drawing and no schedule changes it. The order in which they end is a function of
//! the schedule's bytes and of the printed closings (`specs/Schedule.antt`). One memo is lent to
//! the drawing whose turn it is, and the steps are those for the deepest level that any drawing
//! needed. `laws` says that a call whose files are known has one outcome, and that two schedules
//! differ in the line of the order alone. No clause says that memory suffices.
#![tactic(auto)]

mod drawing;
pub mod laws;
mod pages;
pub mod pool;
mod running;

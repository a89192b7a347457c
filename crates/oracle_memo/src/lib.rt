//! Bounds of all nodes at six levels, raised when they are asked for.
//!
//! A `Memo` is an oracle: its table is the one of `specs/Levels.antt`, a function of specification,
//! x, base and the start of the lower sweeps that no call changes. Each level goes on with the
//! sweeps of the level before it, and its bounds lie within those of the level before. No clause
//! says how near the bounds of a level are.
#![tactic(auto)]

pub mod laws;
pub mod memo;
mod rows;
mod sweeps;

pub use memo::{Memo, eval_there};

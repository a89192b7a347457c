//! Pools: several drawings that take turns over one oracle.
//!
//! A turn of a pool is a turn of one of its drawings, and leaves every other one as it was (`pool`,
//! `specs/Turn.antt`). Whatever the order of the turns, each drawing stands where it would stand
//! alone after as many turns (`specs/Interleaving.antt`, `laws`), with the trace of a drawing alone
//! (size_window: `specs/Trace.antt`): the oracle's table never changes, so what one drawing raises
//! shows to another only as a level that is already there. No clause says in which order turns are
//! made, nor that a drawing ever ends by itself.
#![tactic(auto)]

pub mod laws;
mod member;
pub mod pool;
pub mod pooled;

//! Attempts: shapes made node by node from tape bits.
//!
//! A session visits one pending node at a time (`specs/Visit.antt`). When nothing is pending, its
//! shape is the one that ideal making makes for every list of numbers in the cells drawn; when it
//! is over the room, so is ideal making (`specs/Belonging.antt`). A visit is the one over the bits
//! that it was given, by each chooser that decides by the oracle's table (`specs/Answer.antt`),
//! whether the shelf tells the tape's content or not. Many visits that move on are made in one call
//! (`specs/Ahead.antt`). No clause says that an attempt ever ends, or that memory suffices.
#![tactic(auto)]

pub mod ahead;
mod counted;
mod placing;
mod plain_visits;
pub mod session;
pub mod stepped;
mod tables;

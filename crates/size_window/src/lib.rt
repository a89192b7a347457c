//! Drawings: attempts within a window of sizes, turn by turn, as a function of a tape's bits.
//!
//! A turn of a drawing (`drawing`, `specs/Turn.antt`, `specs/LabelTurn.antt`) is that of
//! `specs/RunByBits.antt` over the bits that it was given, whether the shelf tells the tape's
//! content or not. In labelled mode a made shape waits for its labels, which are drawn in a turn of
//! their own. Many turns that each only visit a node are made in one call (`ahead`,
//! `specs/Ahead.antt`). A drawing's whole way over its tape is its trace (`specs/Trace.antt`): it
//! starts with the drawing, and each turn continues it (`laws`). Over every shelf a drawing keeps
//! the objects that the ideal sampler keeps, with their labels, and throws as many attempts away,
//! for all numbers in the cells of its finished attempts; and each object that it keeps is the one
//! that is made of the numbers in the object's own cells (`specs/Follows.antt`). The same is a law
//! of turns by bits alone, for each chooser that decides ideally (`specs/Ideally.antt`). Each
//! object that is kept is made again by an attempt alone, from the bits that its own cells spell
//! (`specs/Redrawn.antt`), and the kept objects are in order (`specs/InOrder.antt`). No clause says
//! that an object is ever kept, nor what a tape's bits are where its shelf doesn't tell.
#![tactic(auto)]

mod ahead;
pub mod drawing;
pub mod ending;
mod finished_shape;
mod labelling_turn;
pub mod laws;
pub mod limits;
pub mod turned;

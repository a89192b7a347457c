//! Shapes: objects as lists of tokens in preorder.
//!
//! The tokens of an object stand in `specs/Tokens.antt`. From tokens and a class there is at most
//! one object. A `Walk` goes from node to node in preorder and shows at each what the first object
//! that waits is (`specs/Waiting.antt`, `specs/Walking.antt`). `Shape::is_of` walks to test whether
//! tokens are those of an object of a class, and is proved to be right both ways. No clause says
//! how long it takes or that memory suffices.
#![tactic(auto)]

pub mod laws;
pub mod pending;
pub mod shape;
pub mod token;
pub mod visit;
pub mod walk;

//! The command `point`: the specification whose objects are those of another with one atom marked.
//!
//! A specification is read, judged and pointed, and the pointed one is printed in its canonical
//! form (`specs/PointCommand.antt`). `laws` has what the printed text says: read as a file, it
//! stands for the pointed specification, which is well founded; and when the answer is certain
//! (`specs/Completeness.antt`). No clause says that memory suffices.
#![tactic(auto)]

pub mod laws;
pub mod point;
mod refusals;

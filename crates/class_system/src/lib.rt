//! Specifications as tables: classes by number, nodes by number, a range for each node.
//!
//! A reader builds a `Draft`; `System::build` makes a `System` of a sound draft within the limits
//! (`specs/Sound.antt`, `specs/Limits.antt`), and `System::to_text` prints its canonical text
//! (`specs/CanonicalText.antt`). No clause says that memory suffices.
#![tactic(auto)]

pub mod canonical;
pub mod draft;
pub mod expr;
pub mod ids;
pub mod limits;
pub mod names;
pub mod ranges;
pub mod system;

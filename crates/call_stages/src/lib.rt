//! The stages of a call, and what it writes: a file is read, its bytes are judged, a base is
//! searched.
//!
//! An outcome is a status, a text and the most steps that it may take (`specs/Outcomes.antt`). A
//! stage is an outcome with what comes next as a parameter (`specs/Stages.antt`): it ends the call
//! with its refusal, or goes on. How a call ends, with what part of its text written, is
//! `specs/Ends.antt`. The lines of refusals are in `specs/Refusals.antt`, and others that are no
//! certificate's in `specs/Lines.antt`. Each command stands on these. No clause says that memory
//! suffices.
#![tactic(auto)]

pub mod format;
mod fraction;
pub mod page;
pub mod refusals;
pub mod report;
pub mod stages;
pub mod status;

//! A stage of a call: an object of a specification's first class is read from a file.
//!
//! The file's text is that of the object, with or without one line feed at its end. What ends the
//! call, and what is known where it goes on, is `specs/ObjectStage.antt`; the text itself is
//! `object_text`'s. No clause says that memory suffices.
#![tactic(auto)]

pub mod refusals;
pub mod stage;

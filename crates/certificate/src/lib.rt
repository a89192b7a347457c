//! Certificates: what a drawing prints, as values and as text.
//!
//! `certificate` and `closing` have the values, and `header` makes the header of what is printed
//! from a specification. `write` gives their lines, as texts of their own or appended to another,
//! so that a drawing is printed object by object; `read` reads them. The lines and their texts are
//! defined in `specs/Lines.antt`, a certificate's lines in `specs/Certificates.antt`, those of a
//! drawing's header in `specs/Headers.antt`. A line of words and numbers is a pattern with numbers
//! put in (`specs/Patterns.antt`).
//!
//! A text is read exactly: what is read has this text, and a refusal names the first bad line
//! (`specs/Reading.antt`). `specs/Stages.antt` says which line may stand next; `stages` reads the
//! line in front of a text, by the readers of lines in `lines` and of fields in `fields`. `laws`
//! says that one text has one certificate and at most one first bad line, and that what is written
//! is read.
//!
//! `verify` makes the tests of `specs/Checks.antt` in order, those of entries by `entry_tests`. Its
//! verdict (`reason`) tells the first that fails (`specs/Verdicts.antt`); a valid certificate is
//! sound (`specs/Soundness.antt`). No clause says that memory suffices.
#![tactic(auto)]

pub mod certificate;
pub mod closing;
pub mod digest;
mod entry_tests;
mod fields;
pub mod header;
pub mod laws;
mod lines;
mod pattern;
pub mod read;
pub mod reason;
mod stages;
pub mod verify;
pub mod write;

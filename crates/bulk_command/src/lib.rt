//! The command `bulk`: a specification made from a number, drawn from, and told of in one line.
//!
//! The specification is `specs/BulkText.antt` as text, and `specs/BulkTables.antt` as tables;
//! `laws` says that both are one. The run behind the numbers of the line is a course of turns over
//! the tape of a seed, which follows the ideal run and is the one over the bits that it was given
//! (`specs/BulkCommand.antt`). No file is read, and no object is kept in memory beyond its turn. No
//! clause says how long a run takes.
#![tactic(auto)]

pub mod bulk;
pub mod laws;
mod no_files;
mod running;
pub mod spec_text;

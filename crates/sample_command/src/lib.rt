//! The command `sample`: objects drawn with the bits of a tape, written while the drawing goes on.
//!
//! What is drawn is `specs/Drawn.antt`: a course of turns that follows the ideal run, and whose
//! entries are printed. It is the course over the bits that it was given, whether the tape's bits
//! are known or not, and these are the tape's own where they are known. A level is raised only for
//! the bits that one number of a choice node was given. A read of the tape failed in the call
//! exactly where the drawing ended so. `specs/SampleCommand.antt` is the command as stages, and
//! `specs/Starts.antt` what `--fast` changes: the first line, and the vector from which the lower
//! sweeps start. No clause says how long a drawing takes.
//!
//! What is printed are the lines of a certificate, by the writers of that crate (`entries`).
#![tactic(auto)]

pub mod drawing;
pub mod entries;
pub mod sample;
mod starts;

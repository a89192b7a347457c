//! Object text: how objects of a class are printed and read.
//!
//! An object's text is defined in `bz_model` (its `specs/ObjectText.antt`). `print` gives exactly
//! that text, from the object's tokens and labels. `read` gives the object of a canonical text, and
//! for any other text its fault with the first byte that can't stand there (`specs/Reading.antt`).
//! The laws in `laws` say that a text has one answer, that what was read is printed as the text,
//! and that what was printed is read in canonical order (`specs/Arranged.antt`).
//!
//! The state of the walk that prints stands in `specs/Printing.antt`, what is printed so far in
//! `specs/Output.antt`, what the reader expects in `specs/Expected.antt`, and what it has read in
//! `specs/Taken.antt`. `append` appends bytes and numbers, to an object's text and to any other. No
//! clause says how long a call takes or that memory suffices.
#![tactic(auto)]

pub mod append;
pub mod fault;
pub mod laws;
mod output;
mod parse_stack;
mod parsed;
mod permutation;
pub mod print;
mod print_stack;
pub mod read;
mod reader;
mod scan;
mod walk;

//! Reads the text of a specification.
//!
//! Bytes become tokens with their places (`specs/Tokens.antt`), tokens become definitions by the
//! grammar (`specs/Grammar.antt`), definitions become tables (`specs/Tables.antt`). A text is read
//! exactly where it stands for a specification within the limits, and each refusal tells the first
//! fault with its place (`specs/Reading.antt`). Tokens are read by a machine with a stack of its
//! own (`specs/Machine.antt`), which accepts exactly the grammar. No clause says that memory
//! suffices.
#![tactic(auto)]

pub mod fault;
pub mod laws;
mod lexer;
mod names;
mod parser;
pub mod read_spec;
mod sums;
mod tokens;

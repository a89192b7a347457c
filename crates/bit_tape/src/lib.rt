//! Tapes: streams of bits from a file or from a seed.
//!
//! A file's bits are those of its bytes in order, and a seed's those of the words of ChaCha20, each
//! with the highest bit first (`specs/Bits.antt`). `Tape::next_bit` gives the next bit of these
//! (`specs/Tape.antt`, `specs/Answers.antt`) and takes no memory. No clause says when the end of a
//! file is met whose content the shelf doesn't tell.
#![tactic(auto)]

mod buffer;
mod source;
pub mod tape;
mod words;

//! Reads the words of a command.
//!
//! A command's words are its name, and after it positional words, options with their values and the
//! word `--fast`, in any order (`specs/Words.antt`). `read_words` answers the command that the
//! words stand for, whose numbers are those given or their defaults (`specs/Commands.antt`). Words
//! of another form are no command. In a command, the first value in a fixed order that isn't
//! accepted is refused (`specs/Values.antt`). Words stand for one command at most, and for none
//! where they are refused (`laws`). No clause says when there is memory enough.
#![tactic(auto)]

mod arguments;
pub mod command;
pub mod fault;
mod form;
mod given;
pub mod laws;
mod names;
mod rank;
pub mod read;
mod settings;
mod values;
pub mod word_list;

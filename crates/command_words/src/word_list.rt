//! Lists of words.
ghost use Rattle.std.specs.Prelude.{◌≡◌, ◌<◌, [], ◌∷◌, ◌++◌, length, OnOk, OnErr};

use bz_outside::word::Word;
use std::alloc::{AllocError, Global};
use std::marker::Model;

/// A list of words.
#[derive(Debug, Drop)]
pub struct WordList {
    content: Vec<Word>,
}

impl Model for WordList {
    ghost use Rattle.std.specs.Prelude.{List, ℕ};

    ghost Value = { List (List ℕ) };

    ghost view = { λ w. w.content.items };
}

impl WordList {
    /// The empty list. Takes no memory.
    pub fn new(alloc: Global) -> WordList
        ensures empty { result ≡ [] }
    {
        WordList {
            content: Vec::new(alloc),
        }
    }

    /// Appends a word. A refusal, which comes for want of memory alone, leaves the list unchanged.
    pub fn push(&mut self, item: Word) -> Result<(), AllocError>
        ensures ok { OnOk result (self.new ≡ self.old ++ item ∷ []) }
        ensures err { OnErr result (self.new ≡ self.old) }
    {
        self.content.push(item)?;
        Ok(())
    }

    /// The words in order. Takes no memory.
    pub fn items(&self) -> &[Word]
        ensures items { result.now ≡ self.now }
    {
        self.content.as_slice()
    }

    /// Takes the first word out. Takes no memory.
    pub(crate) fn take_first(&mut self) -> Word
        requires some { 0 < length self.old }
        ensures first { self.old ≡ result ∷ self.new }
    {
        self.content.remove(0)
    }
}

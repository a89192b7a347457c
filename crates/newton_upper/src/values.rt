//! Lists of numbers.
ghost use Rattle.std.specs.Prelude.{◌≡◌, [], ◌∷◌, ◌++◌, OnOk, OnErr};

use std::alloc::{AllocError, Global};
use std::marker::Model;

/// A list of numbers, in units of `2^-F`.
#[derive(Debug, Drop)]
pub struct Values {
    content: Vec<u64>,
}

impl Model for Values {
    ghost use Rattle.std.specs.Prelude.{ℕ, List};

    ghost Value = { List ℕ };

    ghost view = { λ v. v.content.items };
}

impl Values {
    /// The empty list. Takes no memory.
    pub fn new(alloc: Global) -> Values
        ensures empty { result ≡ [] }
    {
        Values {
            content: Vec::new(alloc),
        }
    }

    /// Appends a number. A refusal, which comes for want of memory alone, leaves the list
    /// unchanged.
    pub fn push(&mut self, item: u64) -> Result<(), AllocError>
        ensures ok { OnOk result (self.new ≡ self.old ++ item ∷ []) }
        ensures err { OnErr result (self.new ≡ self.old) }
    {
        self.content.push(item)?;
        Ok(())
    }

    /// The numbers in order. Takes no memory.
    pub fn items(&self) -> &[u64]
        ensures items { result.now ≡ self.now }
    {
        self.content.as_slice()
    }

    /// The list of these numbers.
    pub(crate) fn of(content: Vec<u64>) -> Values
        ensures same { result ≡ content.items }
    {
        Values { content }
    }

    /// The numbers, taken over.
    pub(crate) fn into_content(self) -> Vec<u64>
        ensures same { result.items ≡ self }
    {
        self.content
    }
}

//! A shelf and a sink that never fail.
ghost use Rattle.std.specs.Prelude.{◌≡◌, Some, None, length};

use crate::shelf::{Failed, Shelf, copy_piece};
use crate::sink::Sink;
use crate::word::Word;
use std::marker::Model;

/// A shelf with the same bytes under every name, which contracts see as the list of these bytes.
/// Its count of faults is 0, so no read fails.
#[derive(Debug, Drop)]
pub struct SteadyShelf {
    content: Vec<u8>,
}

impl Model for SteadyShelf {
    ghost use Rattle.std.specs.Prelude.{List, ℕ};

    ghost Value = { List ℕ };

    ghost view = { λ s. s.content.items };
}

impl SteadyShelf {
    /// The shelf with these bytes under every name. Takes no memory.
    pub fn new(bytes: Vec<u8>) -> SteadyShelf
        ensures { result ≡ bytes.items }
    {
        SteadyShelf { content: bytes }
    }
}

impl Shelf for SteadyShelf {
    ghost content = { λ bytes _. Some bytes };

    ghost faults = { λ _ _. 0 };

    fn piece(&mut self, _name: &Word, place: u64, buf: &mut [u8]) -> Result<usize, Failed> {
        Ok(copy_piece(self.content.as_slice(), place, buf))
    }
}

/// A sink that takes all bytes and keeps none. It doesn't tell what was written. Its count of
/// faults is 0, so no write fails.
#[derive(Debug, Drop)]
pub struct SteadySink;

impl SteadySink {
    /// The sink. Takes no memory.
    pub fn new() -> SteadySink {
        SteadySink
    }
}

impl Sink for SteadySink {
    ghost written = { λ _. None };

    ghost faults = { λ _. 0 };

    fn put(&mut self, bytes: &[u8]) -> Result<usize, Failed>
        ensures all { result ≡ Ok (length bytes.now) }
    {
        Ok(bytes.len())
    }
}

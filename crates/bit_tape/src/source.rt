//! Where a tape's bytes come from.
ghost use Rattle.std.specs.Prelude.{◌≡◌, ℕ, ◌-◌, ◌/◌, ◌^◌, ◌<◌, ◌≤◌, List, length, min, IfSome};

use crate::buffer::{BitBuffer, MOST_BYTES};
use crate::words::Words;
use bz_outside::shelf::{Failed, Shelf};
use bz_outside::word::Word;

/// The most words of a seed that are read ahead at a time: 256 bytes, so that who looks ahead
/// seldom meets the end of what is read.
const BLOCK: usize = 64;

/// A file's name, or the words of a seed.
#[derive(Drop)]
pub enum Source {
    File(Word),
    Seed(Words),
}

/// Whether the buffer could be filled.
#[derive(Clone, Copy, Debug, PartialEq, Eq)]
pub enum Refill {
    /// There are bytes.
    Bytes,
    /// The source has ended.
    Ended,
    /// A read failed.
    ReadFault,
}

impl Source {
    ghost use Rattle.bit_tape.specs.Source.{name_or_seed, SourceGoesOn};
    ghost use Rattle.bit_tape.specs.Refill.{Refills};
    ghost use Rattle.bit_tape.specs.Tape.{TapeSource};

    /// Fills the empty buffer with the bytes from `place` on.
    pub fn refill<S: Shelf>(&mut self, place: u64, buffer: &mut BitBuffer, shelf: &mut S) -> Refill
        requires empty { length buffer.old.bytes ≡ 0 }
        requires within { place < 2 ^ 60 }
        requires goes_on { SourceGoesOn self.old place buffer.old.bytes }
        ensures content { S.content shelf.new ≡ S.content shelf.old }
        ensures source { name_or_seed self.new ≡ name_or_seed self.old }
        ensures bit { buffer.new.bit ≡ buffer.old.bit }
        ensures refills { Refills result (name_or_seed self.old) (S.content shelf.old)
            (S.faults shelf.old) (S.faults shelf.new) place buffer.old.bytes buffer.new.bytes }
        ensures goes_on { SourceGoesOn self.new place buffer.new.bytes }
        ensures seeded { (seed : ℕ) → name_or_seed self.old ≡ TapeSource.Seeded seed
            → shelf.new ≡ shelf.old }
    {
        match self {
            Source::Seed(words) => {
                buffer.hold_words(words, words_from(place));
                Refill::Bytes
            }
            Source::File(name) => match buffer.fill(shelf, name, place) {
                Ok(0) => Refill::Ended,
                Ok(_) => Refill::Bytes,
                Err(Failed) => Refill::ReadFault,
            },
        }
    }
}

/// How many words are read ahead from a place on: a block, or as many as the limit leaves.
fn words_from(place: u64) -> usize
    requires { place < 2 ^ 60 }
    ensures exact { result ≡ min 64 ((2 ^ 60 - place) / 4) }
{
    let left = (MOST_BYTES - place) / 4;
    if left < BLOCK as u64 {
        left as usize
    } else {
        BLOCK
    }
}

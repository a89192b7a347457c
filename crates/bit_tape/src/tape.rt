//! A tape of bits.
ghost use Rattle.std.specs.Prelude.{◌≡◌, ℕ, ◌+◌, ◌^◌, ◌<◌, ◌≤◌, [], List, length, Option, IfSome};
ghost use Rattle.std.specs.Prelude.{IsTrue, ◌↔◌};
ghost use Rattle.bit_tape.specs.Tape.{TapeSource, BelongsToShelf, LeavesTape, bits_of_source};
ghost use Rattle.bit_tape.specs.Tape.{GivesBit, HoldsBits, ShowsBits, SkipsBits};

pub use crate::buffer::Peeked;
use crate::buffer::{BitBuffer, MOST_BYTES};
use crate::source::{Refill, Source};
use crate::words::Words;
use bz_outside::shelf::Shelf;
use bz_outside::word::Word;
use std::marker::Model;

/// What a tape answers where a bit is asked.
#[derive(Clone, Copy, Debug, PartialEq, Eq)]
pub enum BitAnswer {
    /// The next bit.
    Bit(bool),
    /// All bits of the file are used, or 2^63 bits were used.
    Ended,
    /// A read failed, and the count of faults of the tape's name rose.
    ReadFault,
}

/// A stream of bits from a file or from a seed.
///
/// Contracts see its source, how many bits were used, and the bytes read ahead. At most 4096 bytes
/// are read ahead, and the shelf is asked only where they are used up.
#[derive(Drop)]
pub struct Tape {
    source: Source,
    used: u64,
    buffer: BitBuffer,
}

impl Model for Tape {
    ghost use Rattle.std.specs.Prelude.{◌≡◌, ◌+◌, ◌/◌, ◌%◌, ◌^◌, ◌≤◌, length};
    ghost use Rattle.bit_tape.specs.Tape.{TapeState};
    ghost use Rattle.bit_tape.specs.Source.{name_or_seed, SourceGoesOn};

    ghost Value = { TapeState };

    ghost view = { λ t. record {
      source = name_or_seed t.source;
      used = t.used;
      ahead = t.buffer.bytes;
    } };

    ghost invariant = { λ t. (t.buffer.bit ≡ t.used % 8) ×
        (t.used / 8 + length t.buffer.bytes ≤ 2 ^ 60)
        × SourceGoesOn t.source (t.used / 8) t.buffer.bytes };
}

impl Tape {
    ghost use Rattle.bit_tape.specs.Answers.{TellsBit, UsesOrLeavesTape, is_fault};
    ghost use Rattle.bit_tape.specs.RefillsTape.{RefillsTape};

    /// The tape over the bytes under a name. Its bits are those of the bytes in order, each byte's
    /// highest bit first. Takes no memory.
    #[tactic(auto, using(crate::proofs::NewTapes::belongs_new))]
    pub fn over(name: Word) -> Tape
        ensures new { result ≡ record { source = TapeSource.Named name; used = 0; ahead = [] } }
        ensures belongs { (contents : List ℕ → Option (List ℕ)) → BelongsToShelf contents result }
    {
        Tape {
            source: Source::File(name),
            used: 0,
            buffer: BitBuffer::new(),
        }
    }

    /// The tape of a seed. Its bits are those of the words of ChaCha20 with stream 0 in order, each
    /// word's highest bit first, under the seed's 8 bytes, least first, and 24 zero bytes. Takes no
    /// memory.
    #[tactic(auto, using(crate::proofs::NewTapes::belongs_new))]
    pub fn seeded(seed: u64) -> Tape
        ensures new { result ≡ record { source = TapeSource.Seeded seed; used = 0; ahead = [] } }
        ensures belongs { (contents : List ℕ → Option (List ℕ)) → BelongsToShelf contents result }
    {
        Tape {
            source: Source::Seed(Words::new(seed)),
            used: 0,
            buffer: BitBuffer::new(),
        }
    }

    /// How many bits were given. Takes no memory.
    pub fn used(&self) -> u64
        ensures { result ≡ self.now.used }
    {
        self.used
    }

    /// Gives the next bit, which counts as used. Takes no memory.
    ///
    /// `Ended` comes exactly where all bits of the told content are used, or 2^63 bits were used;
    /// this yields to a failed read. Over a content that isn't told it comes where a read gave no
    /// byte, too. `ReadFault` comes exactly where the count of faults of the tape's name rose in
    /// this call, by one. Both leave the tape as it was. A seeded tape never asks the shelf.
    pub fn next_bit<S: Shelf>(&mut self, shelf: &mut S) -> BitAnswer
        requires belongs { BelongsToShelf (S.content shelf.old) self.old }
        ensures tells { IfSome (bits_of_source self.old.source (S.content shelf.old))
            (λ bits. TellsBit result (bits self.old.used)) }
        ensures limit { 2 ^ 63 ≤ self.old.used → result ≡ BitAnswer.Ended }
        ensures leaves { UsesOrLeavesTape result self.old self.new }
        ensures asks { 0 < length self.old.ahead → shelf.new ≡ shelf.old }
        ensures tape { LeavesTape S.content S.faults (is_fault result) shelf.old shelf.new self.old
            self.new }
    {
        if !self.is_used_up() {
            return BitAnswer::Bit(self.take_bit());
        }
        match self.refill(shelf) {
            Refill::Bytes => BitAnswer::Bit(self.take_bit()),
            Refill::Ended => BitAnswer::Ended,
            Refill::ReadFault => BitAnswer::ReadFault,
        }
    }

    /// The next bits that are read ahead, at most sixteen. None of them counts as used, and the shelf
    /// isn't asked. Takes no memory.
    #[inline]
    pub fn peek(&self) -> Peeked
        ensures { ShowsBits self.now result.word result.count }
    {
        self.buffer.peek()
    }

    /// Passes over n bits that are read ahead, which count as used. Takes no memory.
    #[inline]
    pub fn skip(&mut self, n: u32)
        requires { HoldsBits self.old n }
        ensures { SkipsBits self.old n self.new }
    {
        self.buffer.skip(n);
        self.used += u64::from(n);
    }

    /// Whether all bytes read ahead are used.
    #[inline]
    fn is_used_up(&self) -> bool
        ensures used_up { IsTrue result ↔ (length self.now.ahead ≡ 0) }
        ensures limit { 0 < length self.now.ahead → self.now.used < 2 ^ 63 }
    {
        self.buffer.is_empty()
    }

    /// Gives the next bit of the bytes read ahead.
    #[inline]
    fn take_bit(&mut self) -> bool
        requires { 0 < length self.old.ahead }
        ensures { GivesBit self.old result self.new }
    {
        let bit = self.buffer.take_bit();
        self.used += 1;
        bit
    }

    /// Reads on where all bytes read ahead are used.
    fn refill<S: Shelf>(&mut self, shelf: &mut S) -> Refill
        requires { length self.old.ahead ≡ 0 }
        ensures content { S.content shelf.new ≡ S.content shelf.old }
        ensures same { (self.new.source ≡ self.old.source) × (self.new.used ≡ self.old.used) }
        ensures refills { RefillsTape result (S.content shelf.old) (S.faults shelf.old)
            (S.faults shelf.new) self.old self.new }
        ensures seeded { (seed : ℕ) → self.old.source ≡ TapeSource.Seeded seed
            → shelf.new ≡ shelf.old }
    {
        if self.used / 8 >= MOST_BYTES {
            return Refill::Ended;
        }
        self.source.refill(self.used / 8, &mut self.buffer, shelf)
    }
}

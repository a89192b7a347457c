//! Bytes read ahead, given bit by bit.
ghost use Rattle.std.specs.Prelude.{◌≡◌, ℕ, ◌+◌, ◌-◌, ◌*◌, ◌/◌, ◌%◌, ◌^◌, ◌<◌, ◌≤◌, ◌↔◌, List};
ghost use Rattle.std.specs.Prelude.{[], length, take, slice_index};
ghost use Rattle.std.specs.Prelude.{IsTrue, IfSome, IfOk, OnOk, OnErr};
ghost use Rattle.bz_outside.specs.Outside.{ReadFailed};
ghost use Rattle.bit_tape.specs.Bits.{byte_bit};
ghost use Rattle.bit_tape.specs.Buffer.{after_bit, after_bits, LooksAhead};
ghost use Rattle.bit_tape.specs.Source.{AreFirstBytes, AreOfWords};
ghost use Rattle.bit_tape.specs.Tape.{AreAt};

use crate::words::Words;
use bz_outside::shelf::{Failed, Shelf};
use bz_outside::word::Word;
use std::marker::Model;

/// The most bytes that are read ahead.
const ROOM: usize = 4096;

/// The places of bytes below which a tape reads: 2^63 bits.
pub const MOST_BYTES: u64 = 1 << 60;

/// Bits that are read ahead: the first `count` bits of `word`, its highest bit first.
#[derive(Clone, Copy, Debug, PartialEq, Eq)]
pub struct Peeked {
    pub word: u16,
    pub count: u32,
}

/// The bytes read ahead, of the first of which some bits may be used.
#[derive(Drop)]
pub struct BitBuffer {
    bytes: [u8; ROOM],
    // How many of the bytes are filled, and how many bits of them are used.
    filled: usize,
    at: usize,
}

impl Model for BitBuffer {
    ghost use Rattle.std.specs.Prelude.{◌*◌, ◌/◌, ◌%◌, ◌≤◌, take, drop};
    ghost use Rattle.bit_tape.specs.Buffer.{Ahead};

    ghost Value = { Ahead };

    ghost view = { λ b. record {
      bytes = drop (b.at / 8) (take b.filled b.bytes);
      bit = b.at % 8;
    } };

    ghost invariant = { λ b. (b.filled ≤ 4096) × (b.at ≤ 8 * b.filled) };
}

impl BitBuffer {
    /// The buffer with no bytes.
    pub fn new() -> BitBuffer
        ensures { result ≡ record { bytes = []; bit = 0 } }
    {
        BitBuffer {
            bytes: [0; ROOM],
            filled: 0,
            at: 0,
        }
    }

    /// Whether all bits are used.
    #[inline]
    pub fn is_empty(&self) -> bool
        ensures empty { IsTrue result ↔ (length self.now.bytes ≡ 0) }
        ensures whole { length self.now.bytes ≡ 0 → self.now.bit ≡ 0 }
        ensures below { self.now.bit < 8 }
    {
        self.at / 8 == self.filled
    }

    /// The next bit, the highest of a byte first.
    #[inline]
    pub fn take_bit(&mut self) -> bool
        requires { 0 < length self.old.bytes }
        ensures bit { result ≡ byte_bit (slice_index self.old.bytes 0) self.old.bit }
        ensures after { self.new ≡ after_bit self.old }
    {
        let byte = self.bytes[self.at / 8];
        let bit = (byte >> (7 - self.at % 8)) % 2 == 1;
        self.at += 1;
        bit
    }

    /// The next bits, at most sixteen, and how many they are.
    #[inline]
    pub fn peek(&self) -> Peeked
        ensures { LooksAhead self.now result.word result.count }
    {
        let held = 8 * self.filled - self.at;
        let next = self.at / 8;
        let first = byte_at(&self.bytes, self.filled, next);
        let second = byte_at(&self.bytes, self.filled, next + 1);
        let third = byte_at(&self.bytes, self.filled, next + 2);
        Peeked {
            word: word_from(first, second, third, self.at % 8),
            count: held.min(16) as u32,
        }
    }

    /// Uses up n bits.
    #[inline]
    pub fn skip(&mut self, n: u32)
        requires { self.old.bit + n ≤ 8 * length self.old.bytes }
        ensures { self.new ≡ after_bits self.old n }
    {
        self.at += n as usize;
    }

    /// Takes in the bytes of the next `count` words, the highest byte of each first.
    pub fn hold_words(&mut self, words: &mut Words, count: usize)
        requires empty { length self.old.bytes ≡ 0 }
        requires room { 4 * count ≤ 4096 }
        requires within { words.old.place + count ≤ 2 ^ 60 }
        ensures bytes { AreOfWords words.old.seed words.new.place (4 * words.old.place)
            self.new.bytes }
        ensures length { length self.new.bytes ≡ 4 * count }
        ensures bit { self.new.bit ≡ self.old.bit }
        ensures words { words.new ≡ record words.old { place = words.old.place + count } }
    {
        write_words(&mut self.bytes, words, count);
        self.filled = 4 * count;
        self.at = 0;
    }

    /// Reads a piece of the bytes of `name` from `place` on. The answer is its length.
    pub fn fill<S: Shelf>(
        &mut self,
        shelf: &mut S,
        name: &Word,
        place: u64,
    ) -> Result<usize, Failed>
        requires empty { length self.old.bytes ≡ 0 }
        requires within { place < 2 ^ 60 }
        ensures content { S.content shelf.new ≡ S.content shelf.old }
        ensures length { IfOk result (λ n. length self.new.bytes ≡ n) }
        ensures room { IfOk result (λ n. place + n ≤ 2 ^ 60) }
        ensures told { IfOk result (λ n.
            IfSome (S.content shelf.old name.now) (AreAt self.new.bytes place)) }
        ensures end { IfOk result (λ n. IfSome (S.content shelf.old name.now) (λ bytes. n ≡ 0
            → length bytes ≤ place)) }
        ensures bit { self.new.bit ≡ self.old.bit }
        ensures unchanged { OnErr result (self.new ≡ self.old) }
        ensures steady { OnOk result (S.faults shelf.new ≡ S.faults shelf.old) }
        ensures cause { OnErr result
            (ReadFailed name.now (S.faults shelf.old) (S.faults shelf.new)) }
    {
        let left = MOST_BYTES - place;
        let want = if left < ROOM as u64 {
            left as usize
        } else {
            ROOM
        };
        let n = shelf.piece(name, place, &mut self.bytes[..want])?;
        self.filled = n;
        self.at = 0;
        Ok(n)
    }
}

/// Writes the next `count` words over the first bytes, the highest byte of each first.
fn write_words(bytes: &mut [u8], words: &mut Words, count: usize)
    requires room { 4 * count ≤ length bytes.old }
    requires within { words.old.place + count ≤ 2 ^ 60 }
    ensures length { length bytes.new ≡ length bytes.old }
    ensures each { AreFirstBytes words.old.seed words.old.place (4 * count) bytes.new }
    ensures words { words.new ≡ record words.old { place = words.old.place + count } }
{
    for i in 0..count {
        let word = words.next();
        bytes[4 * i..4 * i + 4].copy_from_slice(&word.to_be_bytes());
    }
}

/// The byte at a place among the bytes that are filled, and 0 from their end on.
#[inline]
fn byte_at(bytes: &[u8], filled: usize, place: usize) -> u8
    requires { filled ≤ length bytes.now }
    ensures { result ≡ slice_index (take filled bytes.now) place }
{
    if place < filled { bytes[place] } else { 0 }
}

/// The sixteen bits of three bytes that follow their first n bits.
#[inline]
fn word_from(first: u8, second: u8, third: u8, n: usize) -> u16
    requires { n < 8 }
    ensures { result ≡ (first * 2 ^ 16 + (second * 2 ^ 8 + third)) / 2 ^ (8 - n) % 65536 }
{
    let pair = u32::from(second) * 256 + u32::from(third);
    let bits = u32::from(first) * 65536 + pair;
    ((bits >> (8 - n)) % 65536) as u16
}

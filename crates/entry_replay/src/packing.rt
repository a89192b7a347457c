//! Bits in bytes, each byte's highest bit first.
ghost use Rattle.std.specs.Prelude.{◌≡◌, ◌≢◌, ◌+◌, ◌*◌, ◌/◌, ◌%◌, ◌^◌, ◌<◌, ◌≤◌, ◌∷◌, ◌++◌, []};
ghost use Rattle.std.specs.Prelude.{true, eqb, Bool, List, IfOk, OnOk, length};
ghost use Rattle.bz_model.specs.Cell.{AreCells, IsCell, bits_of, spelled};
ghost use Rattle.bit_tape.specs.Bits.{file_bit};
ghost use Rattle.bit_tape.specs.Given.{HasBits};
ghost use Rattle.choice_draw.specs.Draw.{bit_number};

use bz_model::cell::Cell;
use std::alloc::{AllocError, Global};
use std::marker::Model;

/// How many bytes a tape reads at most: it gives 2^63 bits.
const MOST_BYTES: usize = 1 << 60;

/// The bits that cells spell, in bytes; the last byte is filled up with zeros.
///
/// A tape over these bytes gives these bits. More than 2^63 bits count as out of memory.
pub(crate) fn packed(alloc: Global, cells: &[Cell]) -> Result<Vec<u8>, AllocError>
    requires cells { AreCells cells.now }
    ensures { IfOk result (λ bytes. HasBits (file_bit bytes.items) 0 (spelled cells.now)) }
{
    let mut packing = Packing::new(alloc);
    for cell in cells {
        packing.put(*cell)?;
    }
    packing.into_bytes()
}

/// Bits put one after the other, seen as the list of them.
#[derive(Drop)]
struct Packing {
    bytes: Vec<u8>,
    // The bits of the byte that isn't full, and how many they are.
    last: u8,
    count: u32,
}

impl Model for Packing {
    ghost use Rattle.std.specs.Prelude.{List, Bool, ◌++◌, ◌<◌, ◌≤◌, ◌^◌, vec_len};
    ghost use Rattle.bz_model.specs.Cell.{bits_of, bits_of_bytes};

    ghost Value = { List Bool };

    ghost view = { λ p. bits_of_bytes p.bytes.items ++ bits_of p.count p.last };

    ghost invariant = { λ p. (p.count < 8) × (p.last < 2 ^ p.count) × (vec_len p.bytes ≤ 2 ^ 60) };
}

impl Packing {
    /// No bits.
    fn new(alloc: Global) -> Packing
        ensures { result ≡ [] }
    {
        Packing {
            bytes: Vec::new(alloc),
            last: 0,
            count: 0,
        }
    }

    /// Puts the bits that a cell spells.
    fn put(&mut self, cell: Cell) -> Result<(), AllocError>
        requires { IsCell cell.k cell.b }
        ensures { OnOk result (self.new ≡ self.old ++ bits_of cell.b cell.k) }
    {
        let mut left = cell.b;
        'bits: while left > 0 {
            left -= 1;
            self.push(bit_at(cell.k, left))?;
        }
        Ok(())
    }

    /// Puts one bit.
    fn push(&mut self, bit: bool) -> Result<(), AllocError>
        ensures { OnOk result (self.new ≡ self.old ++ bit ∷ []) }
    {
        let last = 2 * self.last + number_of(bit);
        if self.count < 7 {
            self.last = last;
            self.count += 1;
            return Ok(());
        }
        if self.bytes.len() == MOST_BYTES {
            return Err(AllocError);
        }
        self.bytes.push(last)?;
        self.last = 0;
        self.count = 0;
        Ok(())
    }

    /// The bytes that are full after seven more zeros: they have all bits.
    fn into_bytes(mut self) -> Result<Vec<u8>, AllocError>
        ensures { IfOk result (λ bytes. HasBits (file_bit bytes.items) 0 self) }
    {
        for _zero in 0..7_u32 {
            self.push(false)?;
        }
        Ok(self.bytes)
    }
}

/// A bit as a number.
fn number_of(bit: bool) -> u8
    ensures number { result ≡ bit_number bit }
    ensures small { result ≤ 1 }
{
    if bit { 1 } else { 0 }
}

/// The bit of a number at a place, counted from the lowest.
fn bit_at(k: u64, place: u32) -> bool
    requires { place < 60 }
    ensures { result ≡ eqb (k / 2 ^ place % 2) 1 }
{
    (k >> place) % 2 == 1
}

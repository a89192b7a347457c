//! Cells that are halved by bits, and their levels.
ghost use Rattle.std.specs.Prelude.{◌≡◌, ◌+◌, ◌^◌, ◌<◌, ◌≤◌};
ghost use Rattle.bz_model.specs.Cell.{IsCell};
ghost use Rattle.choice_draw.specs.Decision.{level_for};
ghost use Rattle.choice_draw.specs.Draw.{halved};
ghost use Rattle.choice_draw.specs.Further.{further_cell};

use bz_model::cell::Cell;

/// The level that a cell of `b` bits is looked at on, one for each ten bits begun. Takes no memory.
#[inline]
pub fn level_at(b: u32) -> u8
    requires some_bits { 1 ≤ b }
    requires few_bits { b ≤ 60 }
    ensures exact { result ≡ level_for b }
    ensures from_one { 1 ≤ result }
    ensures to_six { result ≤ 6 }
{
    ((b + 9) / 10) as u8
}

/// The number of cells of `b` bits.
#[inline]
pub(crate) fn power_of_two(b: u32) -> u128
    requires { b ≤ 60 }
    ensures exact { result ≡ 2 ^ b }
{
    1_u128 << b
}

/// The half of a cell that one more bit names. Takes no memory.
#[inline]
pub fn half_of(cell: Cell, bit: bool) -> Cell
    requires few_bits { cell.b < 60 }
    requires below { cell.k < 2 ^ cell.b }
    ensures exact { result ≡ halved cell bit }
    ensures cell { IsCell result.k result.b }
{
    Cell {
        k: 2 * cell.k + u64::from(bit),
        b: cell.b + 1,
    }
}

/// The cell of a cell's bits and of the first of sixteen further ones. Takes no memory.
#[inline]
pub fn further(cell: Cell, word: u16, bits: u32) -> Cell
    requires cell { IsCell cell.k cell.b }
    requires few { bits ≤ 16 }
    requires total { cell.b + bits ≤ 60 }
    ensures exact { result ≡ further_cell cell word bits }
    ensures cell { IsCell result.k result.b }
{
    let first = u64::from(word) >> (16 - bits);
    Cell {
        k: (cell.k << bits) + first,
        b: cell.b + bits,
    }
}

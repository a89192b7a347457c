//! Whole numbers below a number, drawn from bits.
ghost use Rattle.std.specs.Prelude.{◌≡◌, ℕ, ◌+◌, ◌^◌, ◌<◌, ◌≤◌, IfSome, IfNone};
ghost use Rattle.bz_model.specs.Cell.{IsCell};
ghost use Rattle.bit_tape.specs.Tape.{BelongsToShelf, LeavesTape, bits_of_source};
ghost use Rattle.choice_draw.specs.Decision.{whole_decision};
ghost use Rattle.choice_draw.specs.Whole.{Decides, IsSeen, peeked_cell};
ghost use Rattle.choice_draw.specs.Answer.{IsDraw, OnValue, told_draw, is_draw_fault};

use crate::cells::{half_of, power_of_two};
use crate::drawn::Drawn;
use bit_tape::tape::{BitAnswer, Peeked, Tape};
use bz_model::cell::Cell;
use bz_outside::shelf::Shelf;

/// What bits that are read ahead show of a whole number: the cell of the least number of them that
/// decides one, with the number, or the cell of all of them.
#[derive(Clone, Copy, Debug, PartialEq, Eq)]
struct Seen {
    cell: Cell,
    value: Option<u64>,
}

/// Draws a whole number below `m`: takes bits until their cell decides one.
///
/// The number is `floor(u * m)` for every number u of its cell. At most 60 bits are taken, the
/// least number that decides. The answer is fixed by the bits that were given, whether the shelf
/// tells its content or not. `ReadFault` comes exactly where the count of faults of the tape's name
/// rose, by one. Takes no memory.
pub fn draw_whole<S: Shelf>(m: u64, tape: &mut Tape, shelf: &mut S) -> Drawn
    requires at_least_two { 2 ≤ m }
    requires within_limit { m ≤ 1000000 }
    requires belongs { BelongsToShelf (S.content shelf.old) tape.old }

    ensures drawn { IsDraw (whole_decision m) (bits_of_source tape.old.source (S.content shelf.old))
        tape.old.used tape.new.used (told_draw (λ i. i) result tape.new.used) }
    ensures decided { OnValue result (λ i cell. Decides cell.k cell.b m i) }
    ensures below { OnValue result (λ i cell. i < m) }
    ensures tape { LeavesTape S.content S.faults (is_draw_fault result) shelf.old shelf.new tape.old
        tape.new }
{
    let seen = look_ahead(m, tape.peek());
    let mut cell = seen.cell;
    tape.skip(cell.b);
    if let Some(value) = seen.value {
        return Drawn::Value {
            value,
            cell: seen.cell,
        };
    }
    'bits: while cell.b < 60 {
        match tape.next_bit(shelf) {
            BitAnswer::Bit(bit) => cell = half_of(cell, bit),
            BitAnswer::Ended => return Drawn::Ended,
            BitAnswer::ReadFault => return Drawn::ReadFault,
        }
        if let Some(value) = decide_whole(cell, m) {
            return Drawn::Value { value, cell };
        }
    }
    Drawn::Straddles { cell }
}

/// What bits that are read ahead show of a whole number below `m`.
///
/// The fewest of them aren't looked at one by one: so many decide no number in any cell.
#[inline]
fn look_ahead(m: u64, ahead: Peeked) -> Seen
    requires at_least_two { 2 ≤ m }
    requires within_limit { m ≤ 1000000 }
    requires few_bits { ahead.count ≤ 16 }
    ensures seen { IsSeen m ahead.word ahead.count result.cell result.value }
    ensures cell { IfSome result.value (λ i. IsCell result.cell.k result.cell.b) }
    ensures decided { IfSome result.value (Decides result.cell.k result.cell.b m) }
    ensures below { IfSome result.value (λ i. i < m) }
{
    let mut b = open_bits(m).min(ahead.count);
    'bits: while b < ahead.count {
        b += 1;
        let cell = peeked_cell(ahead.word, b);
        if let Some(value) = decide_short(cell, m) {
            return Seen {
                cell,
                value: Some(value),
            };
        }
    }
    Seen {
        cell: peeked_cell(ahead.word, b),
        value: None,
    }
}

/// The most bits of which no cell decides a whole number below `m`, whatever its bits.
#[inline]
fn open_bits(m: u64) -> u32
    requires { 2 ≤ m }
    ensures open { 2 ^ result < m }
    ensures most { m ≤ 2 ^ (result + 1) }
{
    63 - (m - 1).leading_zeros()
}

/// The cell of the first b of sixteen bits.
#[inline]
fn peeked_cell(word: u16, b: u32) -> Cell
    requires few_bits { b ≤ 16 }
    ensures exact { result ≡ peeked_cell word b }
    ensures below { result.k < 2 ^ b }
{
    Cell {
        k: u64::from(word) >> (16 - b),
        b,
    }
}

/// What `decide_whole` answers, of a cell of at most sixteen bits: its products are short.
#[inline]
fn decide_short(cell: Cell, m: u64) -> Option<u64>
    requires cell { IsCell cell.k cell.b }
    requires short { cell.b ≤ 16 }
    requires at_least_two { 2 ≤ m }
    requires within_limit { m ≤ 1000000 }
    ensures exact { result ≡ whole_decision m cell }
    ensures decided { IfSome result (Decides cell.k cell.b m) }
    ensures below { IfSome result (λ i. i < m) }
{
    let low = cell.k * m;
    let option = low >> cell.b;
    if low + m <= (option + 1) * short_power(cell.b) {
        Some(option)
    } else {
        None
    }
}

/// The number of cells of `b` bits.
#[inline]
fn short_power(b: u32) -> u64
    requires { b ≤ 16 }
    ensures exact { result ≡ 2 ^ b }
{
    1_u64 << b
}

/// Which whole number below `m` every number of the cell gives, `floor(u * m)`.
///
/// `None` exactly where the cell straddles two whole numbers. Takes no memory.
#[inline]
pub fn decide_whole(cell: Cell, m: u64) -> Option<u64>
    requires cell { IsCell cell.k cell.b }
    requires at_least_two { 2 ≤ m }
    requires within_limit { m ≤ 1000000 }
    ensures exact { result ≡ whole_decision m cell }
    ensures decided { IfSome result (Decides cell.k cell.b m) }
    ensures below { IfSome result (λ i. i < m) }
    ensures straddles { IfNone result ((i : ℕ) → ¬ Decides cell.k cell.b m i) }
{
    let width = power_of_two(cell.b);
    let low = u128::from(cell.k) * u128::from(m);
    let option = low >> cell.b;
    if low + u128::from(m) <= (option + 1) * width {
        Some(option as u64)
    } else {
        None
    }
}

//! Parts of a union, drawn from bits.
ghost use Rattle.std.specs.Prelude.{◌≡◌, ℕ, suc, ◌+◌, ◌-◌, ◌*◌, ◌^◌, ◌<◌, ◌≤◌, max, map, length};
ghost use Rattle.std.specs.Prelude.{nat_le, IfSome, IfNone, Some, None};
ghost use Rattle.bz_model.specs.Fraction.{IsFractionBits};
ghost use Rattle.bz_model.specs.Spec.{node_at};
ghost use Rattle.bz_model.specs.Cell.{IsCell};
ghost use Rattle.bz_model.specs.Oracle.{LeavesOracle};
ghost use Rattle.class_system.specs.Views.{number};
ghost use Rattle.class_system.specs.Each.{Each};
ghost use Rattle.bit_tape.specs.Tape.{BelongsToShelf, LeavesTape, bits_of_source};
ghost use Rattle.choice_draw.specs.Decision.{Choice, level_for, level_of, IsUnion, union_parts};
ghost use Rattle.choice_draw.specs.Decision.{union_choice, union_decision, taken};
ghost use Rattle.choice_draw.specs.IdealOfCell.{IsIdealOfCell};
ghost use Rattle.choice_draw.specs.Further.{further_cell};
ghost use Rattle.choice_draw.specs.Answer.{IsDraw, OnValue, told_draw, is_draw_fault};

use crate::cells::{further, half_of, level_at, power_of_two};
use crate::drawn::Drawn;
use bit_tape::tape::{BitAnswer, Tape};
use bz_model::cell::Cell;
use bz_model::oracle::Oracle;
use bz_model::steps::Steps;
use bz_outside::shelf::Shelf;
use class_system::expr::Expr;
use class_system::ids::ExprId;
use class_system::system::System;
use std::sync::ledger::Ledger;

/// Draws the number of a union's part: takes bits until their cell decides one.
///
/// The number is the ideal option of every number of its cell. At most 60 bits are taken, the least
/// number that decides. The level of b bits, one for each ten bits begun, is raised before they are
/// looked at, and no other. The answer is fixed by the bits that were given and the oracle's table,
/// whether the shelf tells its content or not. `ReadFault` comes exactly where the count of faults
/// of the tape's name rose, by one. Takes no memory.
///
/// A level's first bit is looked at by itself, and then those read ahead, up to the level's last,
/// at once.
pub fn draw_union<const F: u32, O: Oracle<F>, S: Shelf, L: Ledger>(
    system: &System,
    node: ExprId,
    oracle: &mut O,
    tape: &mut Tape,
    shelf: &mut S,
    steps: &mut Steps<L>,
) -> Drawn
    requires fraction_bits { IsFractionBits F }
    requires union { IsUnion system.now node.0 }
    requires spec { O.spec oracle.old ≡ system.now }
    requires belongs { BelongsToShelf (S.content shelf.old) tape.old }

    ensures drawn { IsDraw (union_decision system.now (O.table oracle.old) node.0)
        (bits_of_source tape.old.source (S.content shelf.old))
        tape.old.used tape.new.used (told_draw Choice.Take result tape.new.used) }
    ensures ideal { OnValue result (λ i cell.
        IsIdealOfCell system.now (O.x oracle.old) node.0 cell i) }
    ensures in_range { OnValue result (λ i cell.
        i < length (union_parts (node_at system.now node.0))) }
    ensures raised { O.raised oracle.new
        ≡ max (O.raised oracle.old) (level_for (tape.new.used - tape.old.used)) }
    ensures oracle { LeavesOracle O.spec O.x O.table O.cost O.raised
        oracle.old oracle.new steps.old steps.new }
    ensures tape { LeavesTape S.content S.faults (is_draw_fault result) shelf.old shelf.new tape.old
        tape.new }
{
    oracle.known();
    let parts = parts_of(system, node);
    let mut cell = Cell { k: 0, b: 0 };
    'bits: while cell.b < 60 {
        match tape.next_bit(shelf) {
            BitAnswer::Bit(bit) => cell = half_of(cell, bit),
            BitAnswer::Ended => return Drawn::Ended,
            BitAnswer::ReadFault => return Drawn::ReadFault,
        }
        oracle.raise(level_at(cell.b), steps);
        if let Some(option) = decide_by_table(parts, node, cell, oracle) {
            let value = u64::from(option);
            return Drawn::Value { value, cell };
        }
        let ahead = tape.peek();
        let word = ahead.word;
        let many = ahead.count.min((10 - cell.b % 10) % 10);
        if let Some(found) = least_further(parts, node, cell, word, many, oracle) {
            tape.skip(found.bits);
            let last = further(cell, word, found.bits);
            return Drawn::Value {
                value: u64::from(found.option),
                cell: last,
            };
        }
        tape.skip(many);
        cell = further(cell, word, many);
    }
    Drawn::Straddles { cell }
}

/// How many further bits decide, and the option that they take.
#[derive(Clone, Copy)]
struct FurtherBits {
    bits: u32,
    option: u32,
}

/// The least number of further bits of the word, up to `many`, at which the cell decides.
///
/// What a cell decides is decided by its halves, too, while their level is the same. So where all
/// of them together decide nothing, none of them does.
fn least_further<const F: u32, O: Oracle<F>>(
    parts: &[ExprId],
    node: ExprId,
    cell: Cell,
    word: u16,
    many: u32,
    oracle: &O,
) -> Option<FurtherBits>
    requires cell { IsCell cell.k cell.b }
    requires many { many ≤ 16 }
    requires total { cell.b + many ≤ 60 }
    requires some { 0 < length parts.now }
    requires few { length parts.now ≤ 64 }
    requires node { node.0 < length (O.spec oracle.now).nodes }
    requires parts { Each (λ p. p.0 < length (O.spec oracle.now).nodes) parts.now }
    requires raised { level_for (cell.b + many) ≤ O.raised oracle.now }
    ensures bits { IfSome result (λ found. found.bits ≤ many) }
    ensures decides { IfSome result (λ found. Some (Choice.Take found.option)
        ≡ union_choice (O.table oracle.now) node.0 (map number parts.now)
        (further_cell cell word found.bits)) }
    ensures in_range { IfSome result (λ found. found.option < length parts.now) }
    ensures none_before { IfSome result (λ found. (j : ℕ) → 1 ≤ j → j < found.bits
        → union_choice (O.table oracle.now) node.0 (map number parts.now)
        (further_cell cell word j) ≡ None) }
    ensures none { IfNone result (union_choice (O.table oracle.now) node.0 (map number parts.now)
        (further_cell cell word many) ≡ None) }
{
    let last = decide_by_table(parts, node, further(cell, word, many), oracle)?;
    'fronts: for bits in 1..many {
        let near = further(cell, word, bits);
        if let Some(option) = decide_by_table(parts, node, near, oracle) {
            return Some(FurtherBits { bits, option });
        }
    }
    Some(FurtherBits {
        bits: many,
        option: last,
    })
}

/// The number of the part of a union that is the ideal option of every number of the cell.
///
/// It looks at the bounds of the cell's level, which is raised. `None` exactly where the cell
/// straddles: where the least part that ends after the cell doesn't begin before it. Takes no
/// memory.
pub fn decide_union<const F: u32, O: Oracle<F>>(
    system: &System,
    node: ExprId,
    cell: Cell,
    oracle: &O,
) -> Option<u32>
    requires fraction_bits { IsFractionBits F }
    requires union { IsUnion system.now node.0 }
    requires cell { IsCell cell.k cell.b }
    requires spec { O.spec oracle.now ≡ system.now }
    requires raised { level_of cell ≤ O.raised oracle.now }
    ensures exact { taken result ≡ union_decision system.now (O.table oracle.now) node.0 cell }
    ensures ideal { IfSome result (IsIdealOfCell system.now (O.x oracle.now) node.0 cell) }
    ensures in_range { IfSome result (λ i. i < length (union_parts (node_at system.now node.0))) }
{
    oracle.known();
    decide_by_table(parts_of(system, node), node, cell, oracle)
}

/// The parts of a union.
#[inline]
pub(crate) fn parts_of(system: &System, node: ExprId) -> &[ExprId]
    requires union { IsUnion system.now node.0 }
    ensures parts { map number result.now ≡ union_parts (node_at system.now node.0) }
    ensures some { 2 ≤ length result.now }
    ensures few { length result.now ≤ 64 }
    ensures in_range { Each (λ p. p.0 < length system.now.nodes) result.now }
{
    system.known();
    match system.node(node) {
        Expr::Union(parts) => parts.items(),
        _ => unreachable!(),
    }
}

/// What a cell decides at the union of these parts.
fn decide_by_table<const F: u32, O: Oracle<F>>(
    parts: &[ExprId],
    node: ExprId,
    cell: Cell,
    oracle: &O,
) -> Option<u32>
    requires cell { IsCell cell.k cell.b }
    requires some { 0 < length parts.now }
    requires few { length parts.now ≤ 64 }
    requires node { node.0 < length (O.spec oracle.now).nodes }
    requires parts { Each (λ p. p.0 < length (O.spec oracle.now).nodes) parts.now }
    requires raised { level_of cell ≤ O.raised oracle.now }
    ensures exact { taken result
        ≡ union_choice (O.table oracle.now) node.0 (map number parts.now) cell }
    ensures in_range { IfSome result (λ i. i < length parts.now) }
{
    let level = level_at(cell.b);
    let whole = oracle.bounds(node.0, level)?;
    let mut lo: u64 = 0;
    let mut hi_before: u64 = 0;
    for (i, part) in parts.iter().enumerate() {
        let bounds = oracle.bounds(part.0, level)?;
        lo = lo.saturating_add(bounds.lo);
        if i + 1 == parts.len() || ends_before(cell, lo, whole.hi) {
            let reached = i == 0 || begins_after(cell, hi_before.min(whole.hi), whole.lo);
            return reached.then_some(i as u32);
        }
        hi_before = hi_before.saturating_add(bounds.hi);
    }
    None
}

/// Whether every number of the cell lies before the end of an option: the cell's end is at or
/// before `lo / hi`, `lo` being a lower bound of the objects up to the option and `hi` an upper
/// bound of the node.
#[inline]
fn ends_before(cell: Cell, lo: u64, hi: u64) -> bool
    requires { IsCell cell.k cell.b }
    ensures exact { result ≡ nat_le (suc cell.k * hi) (2 ^ cell.b * lo) }
{
    (u128::from(cell.k) + 1) * u128::from(hi) <= power_of_two(cell.b) * u128::from(lo)
}

/// Whether no number of the cell lies before the end of an option: the cell's begin is at or after
/// `hi / lo`, `hi` being an upper bound of the objects up to the option and `lo` a lower bound of
/// the node.
#[inline]
fn begins_after(cell: Cell, hi: u64, lo: u64) -> bool
    requires { IsCell cell.k cell.b }
    ensures exact { result ≡ nat_le (2 ^ cell.b * hi) (cell.k * lo) }
{
    power_of_two(cell.b) * u128::from(hi) <= u128::from(cell.k) * u128::from(lo)
}

//! The command `pool`: several drawings that take turns by a schedule.
ghost use Rattle.std.specs.Prelude.{◌≡◌, ◌≢◌, ℕ, ◌≤◌, ◌⊎◌, List, ◌∷◌, length};
ghost use Rattle.bz_model.specs.Fraction.{IsFractionBits};
ghost use Rattle.bz_outside.specs.Outside.{Rose, Appends};
ghost use Rattle.command_words.specs.Fractions.{fraction_bits};
ghost use Rattle.rounded_map.specs.RoundedMap.{setting, IsPostFixed};
ghost use Rattle.size_window.specs.Drawing.{AreLimits, limits_of};
ghost use Rattle.call_stages.specs.Ends.{EndsBy, output};
ghost use Rattle.call_stages.specs.Stages.{files, AreCalm, Based};
ghost use Rattle.call_stages.specs.declared.status.Status as said;
ghost use Rattle.pool_command.specs.PoolCommand.{PooledOver, CarriesPool};

use crate::drawing::drawn;
use bz_model::fraction::Fraction;
use bz_model::steps::Steps;
use bz_outside::shelf::Shelf;
use bz_outside::sink::Sink;
use bz_outside::word::Word;
use call_stages::at_fraction;
use call_stages::report::refused;
use call_stages::stages::{based, read_file, specified};
use call_stages::status::Status;
use command_words::command::FractionBits;
use newton_upper::Base;
use size_window::limits::Limits;
use std::alloc::Global;
use std::sync::ledger::Ledger;
use well_founded::examination::Founded;

/// The most bytes of a schedule that count.
const MOST_TURNS: u64 = 1_048_576;

/// Reads a specification, judges it, searches a base at `x`, and draws objects of its first class
/// over each of 1 to 64 tapes, by turns that the bytes of a schedule name.
///
/// Everything is written after all drawings have ended. Where memory runs out nothing is written.
pub fn pool<S: Shelf, K: Sink, L: Ledger>(
    alloc: Global,
    file: &Word,
    x: Fraction,
    schedule: &Word,
    tapes: &[Word],
    limits: Limits,
    fraction: FractionBits,
    shelf: &mut S,
    out: &mut K,
    steps: &mut Steps<L>,
) -> Status
    requires limits { AreLimits (limits_of limits) }
    requires number { (1 ≤ length tapes.now) × (length tapes.now ≤ 64) }
    ensures ends { EndsBy (CarriesPool (files (S.content shelf.old) (S.faults shelf.old)
        (S.faults shelf.new)) file.now x schedule.now tapes.now limits (fraction_bits fraction))
        (output (K.written out.old) (K.written out.new) (K.faults out.old) (K.faults out.new)
        steps.old steps.new) result }
    ensures exact { (status : said.Status) (text : List ℕ) (ticks : ℕ)
        → AreCalm (files (S.content shelf.old) (S.faults shelf.old) (S.faults shelf.new))
        (file.now ∷ schedule.now ∷ tapes.now)
        → CarriesPool (files (S.content shelf.old) (S.faults shelf.old) (S.faults shelf.new))
        file.now x schedule.now tapes.now limits (fraction_bits fraction) status text ticks
        → status ≢ said.Status.OutOfMemory → ¬ (Rose (K.faults out.old) (K.faults out.new))
        → (result ≡ said.Status.OutOfMemory)
        ⊎ ((result ≡ status) × Appends (K.written out.old) (K.written out.new) text) }
    ensures content { S.content shelf.new ≡ S.content shelf.old }
    ensures counts { (name : List ℕ) → S.faults shelf.old name ≤ S.faults shelf.new name }
    ensures writes { K.faults out.old ≤ K.faults out.new }
{
    match specified(alloc, file, shelf) {
        Ok(founded) => pooled_at(
            alloc, &founded, x, schedule, tapes, limits, fraction, shelf, out, steps,
        ),
        Err(refusal) => refused(out, &refusal),
    }
}

/// Searches a base of the specification, and draws over its levels, in units of `2^-fraction`.
///
/// In `ends` the counts of failed reads before the call may be those of an earlier time.
fn pooled_at<S: Shelf, K: Sink, L: Ledger>(
    alloc: Global,
    founded: &Founded,
    x: Fraction,
    schedule: &Word,
    tapes: &[Word],
    limits: Limits,
    fraction: FractionBits,
    shelf: &mut S,
    out: &mut K,
    steps: &mut Steps<L>,
) -> Status
    requires limits { AreLimits (limits_of limits) }
    requires number { (1 ≤ length tapes.now) × (length tapes.now ≤ 64) }
    ensures ends { (before : List ℕ → ℕ)
        → ((other : List ℕ) → before other ≤ S.faults shelf.old other)
        → EndsBy (Based (setting founded.now x.num x.den (fraction_bits fraction))
        (PooledOver (files (S.content shelf.old) before (S.faults shelf.new))
        (setting founded.now x.num x.den (fraction_bits fraction)) (limits_of limits) schedule.now
        tapes.now))
        (output (K.written out.old) (K.written out.new) (K.faults out.old) (K.faults out.new)
        steps.old steps.new) result }
    ensures content { S.content shelf.new ≡ S.content shelf.old }
    ensures counts { (other : List ℕ) → S.faults shelf.old other ≤ S.faults shelf.new other }
    ensures writes { K.faults out.old ≤ K.faults out.new }
{
    at_fraction!(fraction, pooled [S, K, L]
        (alloc, founded, x, schedule, tapes, limits, shelf, out, steps))
}

/// Searches a base of the specification, and draws over its levels, in units of `2^-F`.
fn pooled<const F: u32, S: Shelf, K: Sink, L: Ledger>(
    alloc: Global,
    founded: &Founded,
    x: Fraction,
    schedule: &Word,
    tapes: &[Word],
    limits: Limits,
    shelf: &mut S,
    out: &mut K,
    steps: &mut Steps<L>,
) -> Status
    requires fraction_bits { IsFractionBits F }
    requires limits { AreLimits (limits_of limits) }
    requires number { (1 ≤ length tapes.now) × (length tapes.now ≤ 64) }
    ensures ends { (before : List ℕ → ℕ)
        → ((other : List ℕ) → before other ≤ S.faults shelf.old other)
        → EndsBy (Based (setting founded.now x.num x.den F)
        (PooledOver (files (S.content shelf.old) before (S.faults shelf.new))
        (setting founded.now x.num x.den F) (limits_of limits) schedule.now tapes.now))
        (output (K.written out.old) (K.written out.new) (K.faults out.old) (K.faults out.new)
        steps.old steps.new) result }
    ensures content { S.content shelf.new ≡ S.content shelf.old }
    ensures counts { (other : List ℕ) → S.faults shelf.old other ≤ S.faults shelf.new other }
    ensures writes { K.faults out.old ≤ K.faults out.new }
{
    match based::<F, L>(alloc, founded, x, steps) {
        Ok(base) => pooled_over::<F, S, K, L>(
            alloc, founded, x, base, schedule, tapes, limits, shelf, out, steps,
        ),
        Err(refusal) => refused(out, &refusal),
    }
}

/// Reads the schedule, and draws over the levels of the base.
fn pooled_over<const F: u32, S: Shelf, K: Sink, L: Ledger>(
    alloc: Global,
    founded: &Founded,
    x: Fraction,
    base: Base<F>,
    schedule: &Word,
    tapes: &[Word],
    limits: Limits,
    shelf: &mut S,
    out: &mut K,
    steps: &mut Steps<L>,
) -> Status
    requires fraction_bits { IsFractionBits F }
    requires post_fixed { IsPostFixed (setting founded.now x.num x.den F) base }
    requires limits { AreLimits (limits_of limits) }
    requires number { (1 ≤ length tapes.now) × (length tapes.now ≤ 64) }
    ensures ends { (before : List ℕ → ℕ)
        → ((other : List ℕ) → before other ≤ S.faults shelf.old other)
        → EndsBy (PooledOver (files (S.content shelf.old) before (S.faults shelf.new))
        (setting founded.now x.num x.den F) (limits_of limits) schedule.now tapes.now base.entry)
        (output (K.written out.old) (K.written out.new) (K.faults out.old) (K.faults out.new)
        steps.old steps.new) result }
    ensures content { S.content shelf.new ≡ S.content shelf.old }
    ensures counts { (other : List ℕ) → S.faults shelf.old other ≤ S.faults shelf.new other }
    ensures writes { K.faults out.old ≤ K.faults out.new }
{
    match read_file(alloc, schedule, MOST_TURNS, shelf) {
        Ok(bytes) => {
            let bytes = bytes.as_slice();
            drawn::<F, S, K, L>(
                alloc, founded, x, base, limits, tapes, bytes, shelf, out, steps,
            )
        }
        Err(refusal) => refused(out, &refusal),
    }
}

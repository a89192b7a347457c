//! The command `sample`: objects drawn with the bits of a tape.
ghost use Rattle.std.specs.Prelude.{◌≡◌, ℕ, ◌≤◌, List, Option, IfOk};
ghost use Rattle.bz_model.specs.Fraction.{IsFractionBits};
ghost use Rattle.bit_tape.specs.Tape.{BelongsToShelf};
ghost use Rattle.command_words.specs.Fractions.{fraction_bits};
ghost use Rattle.rounded_map.specs.RoundedMap.{setting};
ghost use Rattle.size_window.specs.Drawing.{AreLimits, limits_of};
ghost use Rattle.call_stages.specs.Ends.{EndsBy, output};
ghost use Rattle.sample_command.specs.SampleCommand.{CarriesSample, DrawnOver, source_of};
ghost use Rattle.call_stages.specs.Stages.{files, Based};
ghost use Rattle.sample_command.specs.UnderWay.{met};

use crate::starts::drawn_over;
use bit_tape::tape::Tape;
use bz_model::fraction::Fraction;
use bz_model::steps::Steps;
use bz_outside::shelf::Shelf;
use bz_outside::sink::Sink;
use bz_outside::word::Word;
use call_stages::at_fraction;
use call_stages::report::refused;
use call_stages::stages::{based, specified};
use call_stages::status::Status;
use command_words::command::{FractionBits, TapeWord};
use size_window::limits::Limits;
use std::alloc::{AllocError, Global};
use std::sync::ledger::Ledger;
use well_founded::examination::Founded;

/// Reads a specification, judges it, searches a base at `x`, and draws objects of its first class.
/// With `fast` the lower sweeps start from the base's fast vector, where it has one.
pub fn sample<S: Shelf, K: Sink, L: Ledger>(
    alloc: Global,
    file: &Word,
    x: Fraction,
    tape: &TapeWord,
    limits: Limits,
    fraction: FractionBits,
    fast: bool,
    shelf: &mut S,
    out: &mut K,
    steps: &mut Steps<L>,
) -> Status
    requires { AreLimits (limits_of limits) }
    ensures ends { EndsBy (CarriesSample
        (files (S.content shelf.old) (S.faults shelf.old) (S.faults shelf.new)) file.now x tape.now
        limits (fraction_bits fraction) fast)
        (output (K.written out.old) (K.written out.new) (K.faults out.old) (K.faults out.new)
        steps.old steps.new) result }
    ensures content { S.content shelf.new ≡ S.content shelf.old }
    ensures counts { (name : List ℕ) → S.faults shelf.old name ≤ S.faults shelf.new name }
    ensures writes { K.faults out.old ≤ K.faults out.new }
{
    match specified(alloc, file, shelf) {
        Ok(founded) => {
            sampled_at(
                alloc, &founded, x, tape, limits, fraction, fast, shelf, out, steps,
            )
        }
        Err(refusal) => refused(out, &refusal),
    }
}

/// Searches a base of the specification, and draws over its levels, in units of `2^-fraction`.
fn sampled_at<S: Shelf, K: Sink, L: Ledger>(
    alloc: Global,
    founded: &Founded,
    x: Fraction,
    tape: &TapeWord,
    limits: Limits,
    fraction: FractionBits,
    fast: bool,
    shelf: &mut S,
    out: &mut K,
    steps: &mut Steps<L>,
) -> Status
    requires limits { AreLimits (limits_of limits) }
    ensures ends { EndsBy (Based (setting founded.now x.num x.den (fraction_bits fraction))
        (DrawnOver fast (setting founded.now x.num x.den (fraction_bits fraction))
        (limits_of limits) (met (source_of tape.now) (S.content shelf.old) (S.faults shelf.old)
        (S.faults shelf.new))))
        (output (K.written out.old) (K.written out.new) (K.faults out.old) (K.faults out.new)
        steps.old steps.new) result }
    ensures content { S.content shelf.new ≡ S.content shelf.old }
    ensures counts { (name : List ℕ) → S.faults shelf.old name ≤ S.faults shelf.new name }
    ensures writes { K.faults out.old ≤ K.faults out.new }
{
    at_fraction!(fraction, sampled [S, K, L]
        (alloc, founded, x, tape, limits, fast, shelf, out, steps))
}

/// Searches a base of the specification, and draws over its levels, in units of `2^-F`.
fn sampled<const F: u32, S: Shelf, K: Sink, L: Ledger>(
    alloc: Global,
    founded: &Founded,
    x: Fraction,
    tape: &TapeWord,
    limits: Limits,
    fast: bool,
    shelf: &mut S,
    out: &mut K,
    steps: &mut Steps<L>,
) -> Status
    requires fraction_bits { IsFractionBits F }
    requires limits { AreLimits (limits_of limits) }
    ensures ends { EndsBy (Based (setting founded.now x.num x.den F)
        (DrawnOver fast (setting founded.now x.num x.den F) (limits_of limits)
        (met (source_of tape.now) (S.content shelf.old) (S.faults shelf.old) (S.faults shelf.new))))
        (output (K.written out.old) (K.written out.new) (K.faults out.old) (K.faults out.new)
        steps.old steps.new) result }
    ensures content { S.content shelf.new ≡ S.content shelf.old }
    ensures counts { (name : List ℕ) → S.faults shelf.old name ≤ S.faults shelf.new name }
    ensures writes { K.faults out.old ≤ K.faults out.new }
{
    match based::<F, L>(alloc, founded, x, steps) {
        Ok(base) => match tape_of(alloc, tape) {
            Ok(tape) => drawn_over::<F, S, K, L>(
                alloc, founded, x, base, limits, tape, fast, shelf, out, steps,
            ),
            Err(_) => Status::OutOfMemory,
        },
        Err(refusal) => refused(out, &refusal),
    }
}

/// The tape of a sample, of which no bit is used.
fn tape_of(alloc: Global, word: &TapeWord) -> Result<Tape, AllocError>
    ensures source { IfOk result (λ tape. tape.source ≡ source_of word.now) }
    ensures unused { IfOk result (λ tape. tape.used ≡ 0) }
    ensures belongs { IfOk result (λ tape. (contents : List ℕ → Option (List ℕ))
        → BelongsToShelf contents tape) }
{
    match word {
        TapeWord::File(name) => Ok(Tape::over(Word::from_bytes(alloc, name.bytes())?)),
        TapeWord::Seed(seed) => Ok(Tape::seeded(*seed)),
    }
}

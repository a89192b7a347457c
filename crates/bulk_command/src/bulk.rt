//! The command `bulk`: one line of a run that a number names.
ghost use Rattle.std.specs.Prelude.{◌≡◌, ◌≤◌};
ghost use Rattle.bz_model.specs.Fraction.{IsFractionBits};
ghost use Rattle.command_words.specs.Fractions.{fraction_bits};
ghost use Rattle.rounded_map.specs.RoundedMap.{setting};
ghost use Rattle.call_stages.specs.Ends.{EndsBy, output};
ghost use Rattle.call_stages.specs.Stages.{Based};
ghost use Rattle.bulk_command.specs.BulkCommand.{BulkDrawn, CarriesBulk};

use crate::running::drawn;
use crate::spec_text::bulk_spec;
use bz_model::fraction::Fraction;
use bz_model::steps::Steps;
use bz_outside::sink::Sink;
use call_stages::at_fraction;
use call_stages::report::refused;
use call_stages::stages::{based, judged};
use call_stages::status::Status;
use command_words::command::FractionBits;
use std::alloc::Global;
use std::sync::ledger::Ledger;
use well_founded::examination::Founded;

/// Makes the specification of `n`, draws objects of its first class, and writes what became of
/// them.
pub fn bulk<K: Sink, L: Ledger>(
    alloc: Global,
    n: u64,
    fraction: FractionBits,
    out: &mut K,
    steps: &mut Steps<L>,
) -> Status
    requires least { 1 ≤ n }
    requires greatest { n ≤ 1000 }
    ensures ends { EndsBy (CarriesBulk n (fraction_bits fraction))
        (output (K.written out.old) (K.written out.new) (K.faults out.old) (K.faults out.new)
        steps.old steps.new) result }
    ensures writes { K.faults out.old ≤ K.faults out.new }
{
    let Ok(text) = bulk_spec(alloc, n) else {
        return Status::OutOfMemory;
    };
    match judged(alloc, text.as_slice()) {
        Ok(founded) => run_at(alloc, &founded, n, fraction, out, steps),
        Err(refusal) => refused(out, &refusal),
    }
}

/// Searches a base of the specification, and draws over its levels, in units of `2^-fraction`.
fn run_at<K: Sink, L: Ledger>(
    alloc: Global,
    founded: &Founded,
    n: u64,
    fraction: FractionBits,
    out: &mut K,
    steps: &mut Steps<L>,
) -> Status
    requires least { 1 ≤ n }
    requires greatest { n ≤ 1000 }
    ensures ends { EndsBy (Based (setting founded.now 3 16 (fraction_bits fraction))
        (BulkDrawn n (setting founded.now 3 16 (fraction_bits fraction))))
        (output (K.written out.old) (K.written out.new) (K.faults out.old) (K.faults out.new)
        steps.old steps.new) result }
    ensures writes { K.faults out.old ≤ K.faults out.new }
{
    at_fraction!(fraction, run [K, L] (alloc, founded, n, out, steps))
}

/// Searches a base of the specification at 3/16, and draws over its levels, in units of `2^-F`.
fn run<const F: u32, K: Sink, L: Ledger>(
    alloc: Global,
    founded: &Founded,
    n: u64,
    out: &mut K,
    steps: &mut Steps<L>,
) -> Status
    requires fraction_bits { IsFractionBits F }
    requires least { 1 ≤ n }
    requires greatest { n ≤ 1000 }
    ensures ends { EndsBy (Based (setting founded.now 3 16 F)
        (BulkDrawn n (setting founded.now 3 16 F)))
        (output (K.written out.old) (K.written out.new) (K.faults out.old) (K.faults out.new)
        steps.old steps.new) result }
    ensures writes { K.faults out.old ≤ K.faults out.new }
{
    let x = Fraction { num: 3, den: 16 };
    match based::<F, L>(alloc, founded, x, steps) {
        Ok(base) => drawn::<F, K, L>(alloc, founded, n, x, base, out, steps),
        Err(refusal) => refused(out, &refusal),
    }
}

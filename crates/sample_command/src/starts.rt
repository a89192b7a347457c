//! Drawings over a base: the lower sweeps start from zero, or from the base's fast vector.
ghost use Rattle.std.specs.Prelude.{◌≡◌, ◌+◌, ◌≤◌, true, false, ℕ, List, Option, Some, length};
ghost use Rattle.std.specs.Prelude.{IfOk, IfErr};
ghost use Rattle.bit_tape.specs.Tape.{BelongsToShelf};
ghost use Rattle.bz_model.specs.Fraction.{ratio, IsFractionBits};
ghost use Rattle.oracle_memo.specs.Memos.{Memory};
ghost use Rattle.rounded_map.specs.Bounding.{AreBelow};
ghost use Rattle.rounded_map.specs.RoundedMap.{setting, IsPostFixed};
ghost use Rattle.size_window.specs.Drawing.{AreLimits, limits_of};
ghost use Rattle.call_stages.specs.Ends.{EndsBy, output};
ghost use Rattle.call_stages.specs.Outcomes.{Never};
ghost use Rattle.call_stages.specs.Reports.{refusal_status, refusal_text};
ghost use Rattle.sample_command.specs.SampleCommand.{DrawnFrom, DrawnOver};
ghost use Rattle.sample_command.specs.Starts.{start_of, start_ticks, Started};
ghost use Rattle.sample_command.specs.UnderWay.{met};

use crate::drawing::drawn;
use crate::entries::{fast_header, header};
use bit_tape::tape::Tape;
use bz_model::fraction::Fraction;
use bz_model::steps::Steps;
use bz_outside::shelf::Shelf;
use bz_outside::sink::Sink;
use call_stages::refusals::fast_refusal;
use call_stages::report::{Refusal, refused};
use call_stages::status::Status;
use fast_lower::{Fast, FastMemo};
use newton_upper::Base;
use oracle_memo::Memo;
use size_window::limits::Limits;
use std::alloc::Global;
use std::sync::ledger::Ledger;
use well_founded::examination::Founded;

/// Draws objects over the base, by levels whose lower sweeps start from its fast vector or from
/// zero.
pub(crate) fn drawn_over<const F: u32, S: Shelf, K: Sink, L: Ledger>(
    alloc: Global,
    founded: &Founded,
    x: Fraction,
    base: Base<F>,
    limits: Limits,
    tape: Tape,
    fast: bool,
    shelf: &mut S,
    out: &mut K,
    steps: &mut Steps<L>,
) -> Status
    requires fraction_bits { IsFractionBits F }
    requires post_fixed { IsPostFixed (setting founded.now x.num x.den F) base }
    requires limits { AreLimits (limits_of limits) }
    requires unused { tape.used ≡ 0 }
    requires ahead { BelongsToShelf (S.content shelf.old) tape }
    ensures ends { EndsBy (DrawnOver fast (setting founded.now x.num x.den F) (limits_of limits)
        (met tape.source (S.content shelf.old) (S.faults shelf.old) (S.faults shelf.new))
        base.entry)
        (output (K.written out.old) (K.written out.new) (K.faults out.old) (K.faults out.new)
        steps.old steps.new) result }
    ensures content { S.content shelf.new ≡ S.content shelf.old }
    ensures counts { (name : List ℕ) → S.faults shelf.old name ≤ S.faults shelf.new name }
    ensures writes { K.faults out.old ≤ K.faults out.new }
{
    if fast {
        drawn_fast::<F, S, K, L>(alloc, founded, x, base, limits, tape, shelf, out, steps)
    } else {
        drawn_from_zero::<F, S, K, L>(alloc, founded, x, base, limits, tape, shelf, out, steps)
    }
}

/// Draws objects over the base, by levels whose lower sweeps start from zero.
fn drawn_from_zero<const F: u32, S: Shelf, K: Sink, L: Ledger>(
    alloc: Global,
    founded: &Founded,
    x: Fraction,
    base: Base<F>,
    limits: Limits,
    tape: Tape,
    shelf: &mut S,
    out: &mut K,
    steps: &mut Steps<L>,
) -> Status
    requires fraction_bits { IsFractionBits F }
    requires post_fixed { IsPostFixed (setting founded.now x.num x.den F) base }
    requires limits { AreLimits (limits_of limits) }
    requires unused { tape.used ≡ 0 }
    requires ahead { BelongsToShelf (S.content shelf.old) tape }
    ensures ends { EndsBy (DrawnOver false (setting founded.now x.num x.den F) (limits_of limits)
        (met tape.source (S.content shelf.old) (S.faults shelf.old) (S.faults shelf.new))
        base.entry)
        (output (K.written out.old) (K.written out.new) (K.faults out.old) (K.faults out.new)
        steps.old steps.new) result }
    ensures content { S.content shelf.new ≡ S.content shelf.old }
    ensures counts { (name : List ℕ) → S.faults shelf.old name ≤ S.faults shelf.new name }
    ensures writes { K.faults out.old ≤ K.faults out.new }
{
    let system = founded.system();
    system.known();
    let Ok(header) = header::<F>(alloc, system, x, limits, base.values()) else {
        return Status::OutOfMemory;
    };
    let Ok(mut memo) = Memo::make(alloc, founded, x, base) else {
        return Status::OutOfMemory;
    };
    drawn::<F, _, S, K, L>(
        alloc, founded, &mut memo, limits, tape, header, shelf, out, steps,
    )
}

/// Searches the fast vector of the base, and draws objects by levels whose lower sweeps start from
/// it.
fn drawn_fast<const F: u32, S: Shelf, K: Sink, L: Ledger>(
    alloc: Global,
    founded: &Founded,
    x: Fraction,
    base: Base<F>,
    limits: Limits,
    tape: Tape,
    shelf: &mut S,
    out: &mut K,
    steps: &mut Steps<L>,
) -> Status
    requires fraction_bits { IsFractionBits F }
    requires post_fixed { IsPostFixed (setting founded.now x.num x.den F) base }
    requires limits { AreLimits (limits_of limits) }
    requires unused { tape.used ≡ 0 }
    requires ahead { BelongsToShelf (S.content shelf.old) tape }
    ensures ends { EndsBy (DrawnOver true (setting founded.now x.num x.den F) (limits_of limits)
        (met tape.source (S.content shelf.old) (S.faults shelf.old) (S.faults shelf.new))
        base.entry)
        (output (K.written out.old) (K.written out.new) (K.faults out.old) (K.faults out.new)
        steps.old steps.new) result }
    ensures content { S.content shelf.new ≡ S.content shelf.old }
    ensures counts { (name : List ℕ) → S.faults shelf.old name ≤ S.faults shelf.new name }
    ensures writes { K.faults out.old ≤ K.faults out.new }
{
    match fast_start::<F, L>(alloc, founded, x, &base, steps) {
        Ok(start) => drawn_from::<F, S, K, L>(
            alloc, founded, x, base, start, limits, tape, shelf, out, steps,
        ),
        Err(refusal) => refused(out, &refusal),
    }
}

/// The fast vector of the base. At most `8194 + 3 * F` ticks.
#[tactic(auto, using(crate::proofs::Starting::start_lacks_memory))]
fn fast_start<const F: u32, L: Ledger>(
    alloc: Global,
    founded: &Founded,
    x: Fraction,
    base: &Base<F>,
    steps: &mut Steps<L>,
) -> Result<Fast<F>, Refusal>
    requires fraction_bits { IsFractionBits F }
    requires post_fixed { IsPostFixed (setting founded.now x.num x.den F) base.now }
    ensures start { IfOk result (λ start. start_of true (setting founded.now x.num x.den F) base.now
        ≡ Some start) }
    ensures below { IfOk result (AreBelow founded.now (ratio x.num x.den) F) }
    ensures one_per_class { IfOk result (λ start. length start ≡ length founded.now.bodies) }
    ensures err { IfErr result (λ e. Started true (setting founded.now x.num x.den F) base.now
        (λ start. Never) (refusal_status e) (refusal_text e) (start_ticks true F)) }
    ensures ticks { steps.new ≤ steps.old + start_ticks true F }
{
    match Fast::<F>::propose::<L>(alloc, founded, x, base, steps) {
        Ok(Some(start)) => Ok(start),
        Ok(None) => Err(Refusal::Reported(fast_refusal::<F>(alloc)?)),
        Err(_) => Err(Refusal::OutOfMemory),
    }
}

/// Draws objects over the base, by levels whose lower sweeps start from a fast vector.
fn drawn_from<const F: u32, S: Shelf, K: Sink, L: Ledger>(
    alloc: Global,
    founded: &Founded,
    x: Fraction,
    base: Base<F>,
    start: Fast<F>,
    limits: Limits,
    tape: Tape,
    shelf: &mut S,
    out: &mut K,
    steps: &mut Steps<L>,
) -> Status
    requires fraction_bits { IsFractionBits F }
    requires post_fixed { IsPostFixed (setting founded.now x.num x.den F) base }
    requires below { AreBelow founded.now (ratio x.num x.den) F start }
    requires one_per_class { length start ≡ length founded.now.bodies }
    requires limits { AreLimits (limits_of limits) }
    requires unused { tape.used ≡ 0 }
    requires ahead { BelongsToShelf (S.content shelf.old) tape }
    ensures ends { EndsBy (DrawnFrom true (setting founded.now x.num x.den F) (limits_of limits)
        (met tape.source (S.content shelf.old) (S.faults shelf.old) (S.faults shelf.new)) base.entry
        start.entry)
        (output (K.written out.old) (K.written out.new) (K.faults out.old) (K.faults out.new)
        steps.old steps.new) result }
    ensures content { S.content shelf.new ≡ S.content shelf.old }
    ensures counts { (name : List ℕ) → S.faults shelf.old name ≤ S.faults shelf.new name }
    ensures writes { K.faults out.old ≤ K.faults out.new }
{
    let system = founded.system();
    system.known();
    let Ok(header) = fast_header::<F>(alloc, system, x, limits, base.values()) else {
        return Status::OutOfMemory;
    };
    let Ok(mut memo) = FastMemo::make(alloc, founded, x, base, start) else {
        return Status::OutOfMemory;
    };
    drawn::<F, _, S, K, L>(
        alloc, founded, &mut memo, limits, tape, header, shelf, out, steps,
    )
}

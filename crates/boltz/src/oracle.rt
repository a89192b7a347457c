//! The command `oracle`: the base, and the class vectors of the six levels.
ghost use Rattle.std.specs.Prelude.{◌≡◌, ◌+◌, ℕ, List, ◌++◌, ◌<◌, ◌≤◌, ◌⊎◌, length, IfOk, OnOk};
ghost use Rattle.bz_model.specs.Fraction.{IsFractionBits};
ghost use Rattle.rounded_map.specs.RoundedMap.{setting, IsPostFixed};
ghost use Rattle.newton_upper.specs.BaseRule.{base_of};
ghost use Rattle.kleene_lower.specs.Lower.{zeros};
ghost use Rattle.oracle_memo.specs.Memos.{Memory};
ghost use Rattle.oracle_memo.specs.Levels.{cost_at};
ghost use Rattle.command_words.specs.Fractions.{fraction_bits};
ghost use Rattle.certificate.specs.Headers.{bounded_lines};
ghost use Rattle.certificate.specs.Lines.{text_of};
ghost use Rattle.call_stages.specs.Ends.{EndsBy, output};
ghost use Rattle.call_stages.specs.Lines.{lines_below};
ghost use Rattle.boltz.specs.OracleCommand.{CarriesOracle, Bounded, bounded_text, class_level};
ghost use Rattle.boltz.specs.OracleCommand.{level_after};
ghost use Rattle.call_stages.specs.Stages.{files, Based};

use bz_model::cell::Bounds;
use bz_model::fraction::Fraction;
use bz_model::steps::Steps;
use bz_outside::shelf::Shelf;
use bz_outside::sink::Sink;
use bz_outside::word::Word;
use call_stages::at_fraction;
use call_stages::format::level_of_class;
use call_stages::report::{refused, written};
use call_stages::stages::{based, specified};
use call_stages::status::Status;
use certificate::header::header_of;
use certificate::write::write_without_window;
use class_system::system::System;
use command_words::command::FractionBits;
use newton_upper::Base;
use oracle_memo::Memo;
use std::alloc::{AllocError, Global};
use std::sync::ledger::Ledger;
use well_founded::examination::Founded;

/// How many levels there are.
const LEVELS: u8 = 6;

/// Reads a specification, judges it, searches a base at `x`, and prints the base and the levels.
pub fn oracle<S: Shelf, K: Sink, L: Ledger>(
    alloc: Global,
    file: &Word,
    x: Fraction,
    fraction: FractionBits,
    shelf: &mut S,
    out: &mut K,
    steps: &mut Steps<L>,
) -> Status
    ensures ends { EndsBy
        (CarriesOracle (files (S.content shelf.old) (S.faults shelf.old) (S.faults shelf.new))
        file.now x (fraction_bits fraction))
        (output (K.written out.old) (K.written out.new) (K.faults out.old) (K.faults out.new)
        steps.old steps.new) result }
    ensures content { S.content shelf.new ≡ S.content shelf.old }
    ensures counts { (name : List ℕ) → S.faults shelf.old name ≤ S.faults shelf.new name }
    ensures writes { K.faults out.old ≤ K.faults out.new }
{
    match specified(alloc, file, shelf) {
        Ok(founded) => bounded_at(alloc, &founded, x, fraction, out, steps),
        Err(refusal) => refused(out, &refusal),
    }
}

/// Searches a base of the specification, and prints it with its levels, in units of `2^-fraction`.
fn bounded_at<K: Sink, L: Ledger>(
    alloc: Global,
    founded: &Founded,
    x: Fraction,
    fraction: FractionBits,
    out: &mut K,
    steps: &mut Steps<L>,
) -> Status
    ensures ends { EndsBy (Based (setting founded.now x.num x.den (fraction_bits fraction))
        (Bounded (setting founded.now x.num x.den (fraction_bits fraction))))
        (output (K.written out.old) (K.written out.new) (K.faults out.old) (K.faults out.new)
        steps.old steps.new) result }
    ensures writes { K.faults out.old ≤ K.faults out.new }
{
    at_fraction!(fraction, bounded [K, L] (alloc, founded, x, out, steps))
}

/// Searches a base of the specification, and prints it with its levels, in units of `2^-F`.
fn bounded<const F: u32, K: Sink, L: Ledger>(
    alloc: Global,
    founded: &Founded,
    x: Fraction,
    out: &mut K,
    steps: &mut Steps<L>,
) -> Status
    requires fraction_bits { IsFractionBits F }
    ensures ends { EndsBy
        (Based (setting founded.now x.num x.den F) (Bounded (setting founded.now x.num x.den F)))
        (output (K.written out.old) (K.written out.new) (K.faults out.old) (K.faults out.new)
        steps.old steps.new) result }
    ensures writes { K.faults out.old ≤ K.faults out.new }
{
    match based::<F, L>(alloc, founded, x, steps) {
        Ok(base) => leveled::<F, K, L>(alloc, founded, x, base, out, steps),
        Err(refusal) => refused(out, &refusal),
    }
}

/// Prints the base and the levels over it.
fn leveled<const F: u32, K: Sink, L: Ledger>(
    alloc: Global,
    founded: &Founded,
    x: Fraction,
    base: Base<F>,
    out: &mut K,
    steps: &mut Steps<L>,
) -> Status
    requires fraction_bits { IsFractionBits F }
    requires post_fixed { IsPostFixed (setting founded.now x.num x.den F) base }
    ensures ends { EndsBy (Bounded (setting founded.now x.num x.den F) base.entry)
        (output (K.written out.old) (K.written out.new) (K.faults out.old) (K.faults out.new)
        steps.old steps.new) result }
    ensures writes { K.faults out.old ≤ K.faults out.new }
{
    match base_and_levels::<F, L>(alloc, founded, x, base, steps) {
        Ok(text) => written(out, Status::Done, text.as_slice()),
        Err(_) => Status::OutOfMemory,
    }
}

/// The header with the base, the levels and the last line.
fn base_and_levels<const F: u32, L: Ledger>(
    alloc: Global,
    founded: &Founded,
    x: Fraction,
    base: Base<F>,
    steps: &mut Steps<L>,
) -> Result<Vec<u8>, AllocError>
    requires fraction_bits { IsFractionBits F }
    requires post_fixed { IsPostFixed (setting founded.now x.num x.den F) base }
    ensures text { IfOk result (λ text.
        text.items ≡ bounded_text (setting founded.now x.num x.den F)
        base.entry) }
    ensures ticks { steps.new ≤ steps.old + cost_at 6 }
{
    let system = founded.system();
    let mut text = header_and_base::<F>(alloc, system, x, base.values())?;
    let mut memo = Memo::make(alloc, founded, x, base)?;
    append_levels::<F, L>(alloc, system, &mut memo, steps, &mut text)?;
    text.extend_from_slice(b"end done\n")?;
    Ok(text)
}

/// The lines of a certificate's header without its window, of which the last are those of the base.
fn header_and_base<const F: u32>(
    alloc: Global,
    system: &System,
    x: Fraction,
    base: &[u64],
) -> Result<Vec<u8>, AllocError>
    requires one_per_class { length base.now ≡ length system.now.bodies }
    ensures { IfOk result (λ text. text.items
        ≡ text_of (bounded_lines system.now x.num x.den F base.now)) }
{
    system.known();
    let header = header_of(alloc, system, x, F, 0, 0, base)?;
    write_without_window(alloc, &header)
}

/// Appends the lines of the levels 1 to 6, and raises each. None is raised yet, and the lower
/// sweeps start from zero.
#[tactic(auto, using(crate::proofs::OracleCommand::costs_no_more))]
fn append_levels<const F: u32, L: Ledger>(
    alloc: Global,
    system: &System,
    memo: &mut Memo<'_, F>,
    steps: &mut Steps<L>,
    text: &mut Vec<u8>,
) -> Result<(), AllocError>
    requires fraction_bits { IsFractionBits F }
    requires same { memo.old.spec ≡ system.now }
    requires none_raised { memo.old.raised ≡ 0 }
    requires from_zero { memo.old.start ≡ zeros (setting system.now memo.old.num memo.old.den F) }
    requires post_fixed { IsPostFixed
        (setting system.now memo.old.num memo.old.den F) memo.old.base }
    ensures text { OnOk result (text.new.items ≡ text.old.items
        ++ lines_below (level_after (setting system.now memo.old.num memo.old.den F) memo.old.base)
        6) }
    ensures ticks { steps.new ≤ steps.old + cost_at 6 }
{
    for before in 0..LEVELS {
        memo.raise_to::<L>(before + 1, steps);
        append_level(alloc, system, before + 1, memo.lower(), memo.upper(), text)?;
    }
    Ok(())
}

/// Appends the lines of a level with these class vectors.
#[tactic(auto, using(call_stages::proofs::LinesBelow::below_start, call_stages::proofs::LinesBelow::below_more))]
fn append_level(
    alloc: Global,
    system: &System,
    level: u8,
    lower: &[u64],
    upper: &[u64],
    text: &mut Vec<u8>,
) -> Result<(), AllocError>
    requires one_lower_per_class { length lower.now ≡ length system.now.bodies }
    requires one_upper_per_class { length upper.now ≡ length system.now.bodies }
    ensures { OnOk result (text.new.items ≡ text.old.items
        ++ lines_below (class_level system.now level lower.now upper.now)
        (length system.now.bodies)) }
{
    system.known();
    for class in 0..lower.len() {
        let bounds = Bounds {
            lo: lower[class],
            hi: upper[class],
        };
        let line = level_of_class(alloc, system, level, class as u32, bounds)?;
        text.extend_from_slice(line.as_slice())?;
    }
    Ok(())
}

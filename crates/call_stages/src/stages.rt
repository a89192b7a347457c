//! The stages of a call: a file is read, its bytes are judged, a base is searched.
ghost use Rattle.std.specs.Prelude.{◌≡◌, ℕ, ◌≤◌, List, Some, IfOk, IfErr, OnOk, ◌+◌};
ghost use Rattle.bz_model.specs.Fraction.{IsFractionBits};
ghost use Rattle.bz_model.specs.WellFounded.{IsWellFounded};
ghost use Rattle.newton_upper.specs.BaseRule.{base_of, most_ticks};
ghost use Rattle.rounded_map.specs.RoundedMap.{setting, IsPostFixed};
ghost use Rattle.call_stages.specs.Outcomes.{Never, IsWithin};
ghost use Rattle.call_stages.specs.Reports.{refusal_status, refusal_text};
ghost use Rattle.call_stages.specs.Stages.{files, AreRead, FileRead, IsAccepted, Judged, Specified};
ghost use Rattle.call_stages.specs.Stages.{IsSpecified, Based};

use crate::refusals::{cause_refusal, read_refusal, text_refusal, upper_refusal};
use crate::report::Refusal;
use bz_model::fraction::Fraction;
use bz_model::steps::Steps;
use bz_outside::shelf::{ReadStop, Shelf, read_up_to};
use bz_outside::word::Word;
use class_system::system::System;
use newton_upper::{Base, UpperFault, propose};
use spec_reader::read_spec::read_spec;
use std::alloc::Global;
use std::sync::ledger::Ledger;
use well_founded::examination::{Founded, Unfounded, examine};

/// The most bytes that are read of a specification: one more than it may have.
const MOST_READ: u64 = 65_537;

/// Reads a specification from a file, and judges it. Where there is one no read has failed.
#[tactic(auto, using(crate::proofs::Staging::is_specified, crate::proofs::Staging::ended_by_reading))]
pub fn specified<S: Shelf>(alloc: Global, file: &Word, shelf: &mut S) -> Result<Founded, Refusal>
    ensures ok { IfOk result (λ founded. IsSpecified (S.content shelf.old) file.now founded) }
    ensures err { IfErr result
        (λ e. Specified (files (S.content shelf.old) (S.faults shelf.old) (S.faults shelf.new))
        file.now (λ s. Never) (refusal_status e) (refusal_text e) 0) }
    ensures content { S.content shelf.new ≡ S.content shelf.old }
    ensures counts { (name : List ℕ) → S.faults shelf.old name ≤ S.faults shelf.new name }
    ensures steady { OnOk result (S.faults shelf.new ≡ S.faults shelf.old) }
{
    match read_file(alloc, file, MOST_READ, shelf) {
        Ok(bytes) => judged(alloc, bytes.as_slice()),
        Err(refusal) => Err(refusal),
    }
}

/// The first bytes of a file, at most `most` of them. Where there are any no read has failed.
#[tactic(auto, using(crate::proofs::Staging::read_failed, crate::proofs::Staging::read_lacks_memory))]
pub fn read_file<S: Shelf>(
    alloc: Global,
    name: &Word,
    most: u64,
    shelf: &mut S,
) -> Result<Vec<u8>, Refusal>
    ensures ok { IfOk result (λ bytes. AreRead (S.content shelf.old) name.now most bytes.items) }
    ensures err { IfErr result
        (λ e. FileRead (files (S.content shelf.old) (S.faults shelf.old) (S.faults shelf.new))
        name.now most (λ bytes. Never) (refusal_status e) (refusal_text e) 0) }
    ensures content { S.content shelf.new ≡ S.content shelf.old }
    ensures counts { (name : List ℕ) → S.faults shelf.old name ≤ S.faults shelf.new name }
    ensures steady { OnOk result (S.faults shelf.new ≡ S.faults shelf.old) }
{
    match read_up_to(alloc, shelf, name, most) {
        Ok(bytes) => Ok(bytes),
        Err(ReadStop::Failed) => Err(Refusal::Reported(read_refusal(alloc)?)),
        Err(ReadStop::OutOfMemory) => Err(Refusal::OutOfMemory),
    }
}

/// The specification that bytes stand for, where it is within the limits and well founded.
#[tactic(auto, using(crate::proofs::Staging::text_refused, crate::proofs::Staging::judging_lacks_memory))]
pub fn judged(alloc: Global, bytes: &[u8]) -> Result<Founded, Refusal>
    ensures accepted { IfOk result (IsAccepted bytes.now) }
    ensures founded { IfOk result IsWellFounded }
    ensures err { IfErr result (λ e.
        Judged (λ s. Never) bytes.now (refusal_status e) (refusal_text e) 0) }
{
    match read_spec(alloc, bytes) {
        Ok(system) => examined(alloc, bytes, system),
        Err(fault) => Err(Refusal::Reported(text_refusal(alloc, fault)?)),
    }
}

/// The specification of these tables, where it is well founded.
#[tactic(auto, using(crate::proofs::Staging::cause_refused, crate::proofs::Staging::judging_lacks_memory, crate::proofs::Staging::is_named))]
fn examined(alloc: Global, bytes: &[u8], system: System) -> Result<Founded, Refusal>
    requires accepted { IsAccepted bytes.now system }
    ensures accepted { IfOk result (IsAccepted bytes.now) }
    ensures founded { IfOk result IsWellFounded }
    ensures err { IfErr result (λ e.
        Judged (λ s. Never) bytes.now (refusal_status e) (refusal_text e) 0) }
{
    match examine(alloc, system) {
        Ok(founded) => {
            founded.known();
            Ok(founded)
        }
        Err(Unfounded { cause, system }) => {
            system.known();
            Err(Refusal::Reported(cause_refusal(alloc, &system, cause)?))
        }
    }
}

/// The base for a specification and x.
#[tactic(auto, using(crate::proofs::BaseSearch::base_lacks_memory))]
pub fn based<const F: u32, L: Ledger>(
    alloc: Global,
    founded: &Founded,
    x: Fraction,
    steps: &mut Steps<L>,
) -> Result<Base<F>, Refusal>
    requires fraction_bits { IsFractionBits F }
    ensures base { IfOk result (λ base. base_of (setting founded.now x.num x.den F) ≡ Some base) }
    ensures post_fixed { IfOk result (λ base.
        IsPostFixed (setting founded.now x.num x.den F) base) }
    ensures err { IfErr result (λ e. Based (setting founded.now x.num x.den F) (λ base. Never)
        (refusal_status e) (refusal_text e) (most_ticks (setting founded.now x.num x.den F))) }
    ensures ticks { steps.new ≤ steps.old + most_ticks (setting founded.now x.num x.den F) }
{
    match propose::<F, L>(alloc, founded, x, steps) {
        Ok(base) => Ok(base),
        Err(UpperFault::NoUpper { proposals }) => {
            let report = upper_refusal::<F>(alloc, founded.system(), proposals.items())?;
            Err(Refusal::Reported(report))
        }
        Err(UpperFault::OutOfMemory) => Err(Refusal::OutOfMemory),
    }
}

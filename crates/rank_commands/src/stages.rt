//! The stages that the commands share: what is refused before anything is counted, and the tables.
ghost use Rattle.std.specs.Prelude.{◌≡◌, ◌≤◌, IfOk, IfErr, OnOk, OnErr};
ghost use Rattle.bz_model.specs.Spec as model;
ghost use Rattle.rank_tables.specs.Refusals.{HasPlainRanges, HasSmallCounts};
ghost use Rattle.rank_tables.specs.Tables.{AreCounts, TellsRankFault};
ghost use Rattle.call_stages.specs.Outcomes.{Never};
ghost use Rattle.call_stages.specs.Reports.{refusal_status, refusal_text};
ghost use Rattle.rank_commands.specs.RankStages.{Rankable, Counted};

use crate::refusals::fault_refusal;
use call_stages::report::Refusal;
use rank_tables::rank_tables::{RankFault, RankTables};
use std::alloc::Global;
use well_founded::examination::Founded;

/// Refuses a specification that is labelled, or has a range that isn't plain.
///
/// Every table asks for both first, so that of size 0 tells them. Counts are none of its concern.
pub(crate) fn rankable(alloc: Global, founded: &Founded) -> Result<(), Refusal>
    ensures unlabelled { OnOk result (founded.now.mode ≡ model.Mode.Unlabelled) }
    ensures plain { OnOk result (HasPlainRanges founded.now) }
    ensures err { IfErr result (λ e.
        Rankable founded.now Never (refusal_status e) (refusal_text e) 0) }
{
    match RankTables::make(alloc, founded, 0) {
        Ok(_) => Ok(()),
        Err(fault) => judged_form(alloc, founded, fault),
    }
}

/// Refuses what a table of size 0 was refused for, but for a count.
fn judged_form(alloc: Global, founded: &Founded, fault: RankFault) -> Result<(), Refusal>
    requires told { TellsRankFault founded.now 0 fault }
    ensures unlabelled { OnOk result (founded.now.mode ≡ model.Mode.Unlabelled) }
    ensures plain { OnOk result (HasPlainRanges founded.now) }
    ensures err { IfErr result (λ e.
        Rankable founded.now Never (refusal_status e) (refusal_text e) 0) }
{
    founded.known();
    match fault {
        RankFault::Labelled => Err(Refusal::Reported(fault_refusal(alloc, fault)?)),
        RankFault::Ranged(_) => Err(Refusal::Reported(fault_refusal(alloc, fault)?)),
        RankFault::TooMany { node: _, size: _ } => Ok(()),
        RankFault::OutOfMemory => Err(Refusal::OutOfMemory),
    }
}

/// The counts of all nodes for the sizes up to `most`.
pub(crate) fn tables_up_to(
    alloc: Global,
    founded: &Founded,
    most: u64,
) -> Result<RankTables, Refusal>
    requires small { most ≤ 500 }
    ensures counts { IfOk result (AreCounts founded.now most) }
    ensures unlabelled { OnOk result (founded.now.mode ≡ model.Mode.Unlabelled) }
    ensures plain { OnOk result (HasPlainRanges founded.now) }
    ensures fits { OnOk result (HasSmallCounts founded.now most) }
    ensures err { IfErr result (λ e. Rankable founded.now (Counted founded.now most Never)
        (refusal_status e) (refusal_text e) 0) }
{
    match RankTables::make(alloc, founded, most) {
        Ok(tables) => Ok(tables),
        Err(fault) => Err(Refusal::Reported(fault_refusal(alloc, fault)?)),
    }
}

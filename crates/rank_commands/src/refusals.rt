//! What is reported where objects aren't counted or ranked.
ghost use Rattle.std.specs.Prelude.{◌≡◌, ◌≢◌, IfOk, OnOk, string_bytes};
ghost use Rattle.call_stages.specs.Outcomes.{Says};
ghost use Rattle.call_stages.specs.declared.status.Status.{Status};
ghost use Rattle.rank_tables.specs.declared.rank_tables.RankFault.{RankFault};
ghost use Rattle.rank_commands.specs.Faults.{fault_line};
ghost use Rattle.rank_commands.specs.RankStages.{too_large_line};
ghost use Rattle.rank_commands.specs.UnrankCommand.{number_line};

use call_stages::report::{Report, reported};
use call_stages::status::Status;
use rank_tables::rank_tables::RankFault;
use std::alloc::{AllocError, Global};

/// No table is made; `Err` where that is out of memory.
pub(crate) fn fault_refusal(alloc: Global, fault: RankFault) -> Result<Report, AllocError>
    ensures says { IfOk result (λ r.
        Says Status.RankRefused (fault_line fault) 0 r.status r.text.items 0) }
    ensures memory { OnOk result (fault ≢ RankFault.OutOfMemory) }
{
    let line = line_for_fault(alloc, fault)?;
    Ok(reported(Status::RankRefused, line))
}

/// Why no table is made; `Err` where that is out of memory.
fn line_for_fault(alloc: Global, fault: RankFault) -> Result<String, AllocError>
    ensures line { IfOk result (λ text. string_bytes text ≡ fault_line fault) }
    ensures memory { OnOk result (fault ≢ RankFault.OutOfMemory) }
{
    match fault {
        RankFault::Labelled => format!(in alloc; "refused rank labelled\n"),
        RankFault::Ranged(node) => {
            let node = node.0;
            format!(in alloc; "refused rank range node {node}\n")
        }
        RankFault::TooMany { node, size } => {
            let node = node.0;
            format!(in alloc; "refused rank too many node {node} size {size}\n")
        }
        RankFault::OutOfMemory => Err(AllocError),
    }
}

/// No object of the size has the rank that was asked for.
pub(crate) fn number_refusal(alloc: Global) -> Result<Report, AllocError>
    ensures { IfOk result (λ r. Says Status.RankRefused number_line 0 r.status r.text.items 0) }
{
    let line = format!(in alloc; "refused rank number\n")?;
    Ok(reported(Status::RankRefused, line))
}

/// An object has more atoms than are counted.
pub(crate) fn size_refusal(alloc: Global, size: u64) -> Result<Report, AllocError>
    ensures { IfOk result (λ r.
        Says Status.ObjectRefused (too_large_line size) 0 r.status r.text.items 0) }
{
    let line = format!(in alloc; "refused object too large {size}\n")?;
    Ok(reported(Status::ObjectRefused, line))
}

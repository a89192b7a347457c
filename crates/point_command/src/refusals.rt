//! What is reported where a specification can't be pointed.
ghost use Rattle.std.specs.Prelude.{◌≡◌, ◌≢◌, IfOk, OnOk, string_bytes};
ghost use Rattle.call_stages.specs.Outcomes.{Says};
ghost use Rattle.call_stages.specs.declared.status.Status.{Status};
ghost use Rattle.pointing.specs.declared.fault.PointFault.{PointFault};
ghost use Rattle.point_command.specs.PointCommand.{point_line};

use call_stages::refusals::limit_refusal;
use call_stages::report::{Report, reported};
use call_stages::status::Status;
use pointing::fault::PointFault;
use std::alloc::{AllocError, Global};

/// A specification can't be pointed; `Err` where memory ran out.
pub(crate) fn point_refusal(alloc: Global, fault: PointFault) -> Result<Report, AllocError>
    ensures says { IfOk result (λ r.
        Says Status.PointRefused (point_line fault) 0 r.status r.text.items 0) }
    ensures memory { OnOk result (fault ≢ PointFault.OutOfMemory) }
{
    let line = line_for_fault(alloc, fault)?;
    Ok(reported(Status::PointRefused, line))
}

/// Why a specification can't be pointed; `Err` where memory ran out.
fn line_for_fault(alloc: Global, fault: PointFault) -> Result<String, AllocError>
    ensures line { IfOk result (λ text. string_bytes text ≡ point_line fault) }
    ensures memory { OnOk result (fault ≢ PointFault.OutOfMemory) }
{
    match fault {
        PointFault::Labelled => format!(in alloc; "refused point labelled\n"),
        PointFault::Ranged(node) => {
            let number = node.0;
            format!(in alloc; "refused point range node {number}\n")
        }
        PointFault::NoAtom => format!(in alloc; "refused point no atom\n"),
        PointFault::Limit(fault) => limit_refusal(alloc, "point", fault),
        PointFault::OutOfMemory => Err(AllocError),
    }
}

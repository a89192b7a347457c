//! What is reported where an object is refused.
ghost use Rattle.std.specs.Prelude.{◌≡◌, ◌≢◌, IfOk, OnOk, string_bytes};
ghost use Rattle.call_stages.specs.Outcomes.{Says};
ghost use Rattle.call_stages.specs.declared.status.Status.{Status};
ghost use Rattle.object_stage.specs.ObjectStage.{too_long_line, object_fault_line};
ghost use Rattle.object_text.specs.declared.fault.TextFault.{TextFault};

use call_stages::report::{Report, reported};
use call_stages::status::Status;
use object_text::fault::TextFault;
use std::alloc::{AllocError, Global};

/// An object's file has too many bytes.
pub fn too_long_refusal(alloc: Global) -> Result<Report, AllocError>
    ensures { IfOk result (λ r. Says Status.ObjectRefused too_long_line 0 r.status r.text.items 0) }
{
    let line = format!(in alloc; "refused object too long\n")?;
    Ok(reported(Status::ObjectRefused, line))
}

/// A text is no object, or not as it is printed; `Err` where that is want of memory.
pub fn object_refusal(alloc: Global, fault: TextFault) -> Result<Report, AllocError>
    ensures says { IfOk result (λ r.
        Says Status.ObjectRefused (object_fault_line fault) 0 r.status r.text.items 0) }
    ensures memory { OnOk result (fault ≢ TextFault.OutOfMemory) }
{
    let line = line_for_object(alloc, fault)?;
    Ok(reported(Status::ObjectRefused, line))
}

/// Why a text is no object; `Err` where that is want of memory.
fn line_for_object(alloc: Global, fault: TextFault) -> Result<String, AllocError>
    ensures line { IfOk result (λ text. string_bytes text ≡ object_fault_line fault) }
    ensures memory { OnOk result (fault ≢ TextFault.OutOfMemory) }
{
    match fault {
        TextFault::NotObject { place } => format!(in alloc; "refused object at {place}\n"),
        TextFault::NotCanonical => format!(in alloc; "refused object not canonical\n"),
        TextFault::OutOfMemory => Err(AllocError),
    }
}

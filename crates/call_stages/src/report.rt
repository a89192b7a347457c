//! What a call reports, and how that is written.
ghost use Rattle.std.specs.Prelude.{◌≡◌, ◌≤◌, string_bytes};
ghost use Rattle.call_stages.specs.Ends.{EndsBy, output};
ghost use Rattle.call_stages.specs.Outcomes.{Says};
ghost use Rattle.call_stages.specs.Reports.{refusal_status, refusal_text, stop_status};

use crate::status::Status;
use bz_outside::shelf::Failed;
use bz_outside::sink::{Sink, put_all};
use std::alloc::AllocError;

/// A status with the text that comes with it.
#[derive(Drop)]
pub struct Report {
    pub status: Status,
    pub text: Vec<u8>,
}

/// A status with a line.
pub fn reported(status: Status, line: String) -> Report
    ensures status { result.status ≡ status }
    ensures text { result.text.items ≡ string_bytes line }
{
    let text = line.into_bytes();
    Report { status, text }
}

/// Why a call ends before its command is carried out.
#[derive(Drop)]
pub enum Refusal {
    /// This is reported instead.
    Reported(Report),
    /// Memory ran out, and nothing is reported.
    OutOfMemory,
}

impl From<AllocError> for Refusal {
    ghost use Rattle.std.specs.Prelude.{◌≡◌};
    ghost use Rattle.call_stages.specs.declared.report.Refusal.TheVariants.{OutOfMemory};

    ghost from_gives = { λ _ refusal. refusal ≡ OutOfMemory };

    fn from(_error: AllocError) -> Refusal {
        Refusal::OutOfMemory
    }
}

/// Why a call is broken off after a part of its text was written.
#[derive(Clone, Copy, Debug, PartialEq, Eq)]
pub enum Stop {
    /// A write failed.
    WriteFault,
    /// Memory ran out.
    OutOfMemory,
}

impl Stop {
    /// The status of the call.
    pub fn status(self) -> Status
        ensures { result ≡ stop_status self }
    {
        match self {
            Stop::WriteFault => Status::WriteFault,
            Stop::OutOfMemory => Status::OutOfMemory,
        }
    }
}

impl From<AllocError> for Stop {
    ghost use Rattle.std.specs.Prelude.{◌≡◌};
    ghost use Rattle.call_stages.specs.declared.report.Stop.TheVariants.{OutOfMemory};

    ghost from_gives = { λ _ stop. stop ≡ OutOfMemory };

    fn from(_error: AllocError) -> Stop {
        Stop::OutOfMemory
    }
}

impl From<Failed> for Stop {
    ghost use Rattle.std.specs.Prelude.{◌≡◌};
    ghost use Rattle.call_stages.specs.declared.report.Stop.TheVariants.{WriteFault};

    ghost from_gives = { λ _ stop. stop ≡ WriteFault };

    fn from(_error: Failed) -> Stop {
        Stop::WriteFault
    }
}

/// Writes a whole text, and answers its status; or WriteFault where a write fails.
#[tactic(auto, using(crate::proofs::Endings::was_written, crate::proofs::Endings::write_failed))]
pub fn written<K: Sink>(out: &mut K, status: Status, text: &[u8]) -> Status
    ensures ends { EndsBy (Says status text.now 0)
        (output (K.written out.old) (K.written out.new) (K.faults out.old) (K.faults out.new) 0 0)
        result }
    ensures counts { K.faults out.old ≤ K.faults out.new }
{
    match put_all(out, text) {
        Ok(()) => status,
        Err(_) => Status::WriteFault,
    }
}

/// Writes what a refusal reports; nothing where memory ran out.
#[tactic(auto, using(crate::proofs::Endings::nothing_written))]
pub fn refused<K: Sink>(out: &mut K, refusal: &Refusal) -> Status
    ensures ends { EndsBy (Says (refusal_status refusal.now) (refusal_text refusal.now) 0)
        (output (K.written out.old) (K.written out.new) (K.faults out.old) (K.faults out.new) 0 0)
        result }
    ensures counts { K.faults out.old ≤ K.faults out.new }
{
    match refusal {
        Refusal::Reported(report) => written(out, report.status, report.text.as_slice()),
        Refusal::OutOfMemory => Status::OutOfMemory,
    }
}

//! The stage: a certificate is read from a file.
ghost use Rattle.std.specs.Prelude.{◌≡◌, ℕ, ◌≤◌, List, length, IfOk, IfErr};
ghost use Rattle.certificate.specs.Reading.{IsTextOf};
ghost use Rattle.call_stages.specs.Outcomes.{Never};
ghost use Rattle.call_stages.specs.Reports.{refusal_status, refusal_text};
ghost use Rattle.call_stages.specs.Stages.{files};
ghost use Rattle.certificate_commands.specs.CertificateStage.{CertificateJudged, CertificateRead};
ghost use Rattle.certificate_commands.specs.CertificateStage.{IsCertificateIn};

use crate::refusals::{line_refusal, too_long_refusal};
use bz_outside::shelf::Shelf;
use bz_outside::word::Word;
use call_stages::report::Refusal;
use call_stages::stages::read_file;
use certificate::certificate::Certificate;
use certificate::read::{CertFault, read};
use std::alloc::Global;

/// The most bytes that a certificate may have.
const MOST: usize = 268_435_456;

/// The most bytes that are read of a certificate's file: one more than it may have.
const MOST_READ: u64 = 268_435_457;

/// Reads a certificate from a file.
///
/// In `err` the counts of failed reads before the call may be those of an earlier time.
#[tactic(auto, using(crate::proofs::Judging::is_certificate, crate::proofs::Judging::ended_by_reading))]
pub(crate) fn certificate_read<S: Shelf>(
    alloc: Global,
    name: &Word,
    shelf: &mut S,
) -> Result<Certificate, Refusal>
    ensures ok { IfOk result (IsCertificateIn (S.content shelf.old) name.now) }
    ensures err { IfErr result (λ e. (before : List ℕ → ℕ)
        → ((other : List ℕ) → before other ≤ S.faults shelf.old other)
        → CertificateRead (files (S.content shelf.old) before (S.faults shelf.new)) name.now
        (λ c. Never) (refusal_status e) (refusal_text e) 0) }
    ensures content { S.content shelf.new ≡ S.content shelf.old }
    ensures counts { (other : List ℕ) → S.faults shelf.old other ≤ S.faults shelf.new other }
{
    match read_file(alloc, name, MOST_READ, shelf) {
        Ok(bytes) => certificate_of(alloc, bytes.as_slice()),
        Err(refusal) => Err(refusal),
    }
}

/// The certificate whose text these bytes are.
#[tactic(auto, using(crate::proofs::Judging::too_long, crate::proofs::Judging::line_refused, crate::proofs::Judging::judging_lacks_memory))]
fn certificate_of(alloc: Global, bytes: &[u8]) -> Result<Certificate, Refusal>
    ensures few { IfOk result (λ c. length bytes.now ≤ 268435456) }
    ensures read { IfOk result (IsTextOf bytes.now) }
    ensures err { IfErr result (λ e. CertificateJudged (λ c. Never) bytes.now
        (refusal_status e) (refusal_text e) 0) }
{
    if bytes.len() > MOST {
        return Err(Refusal::Reported(too_long_refusal(alloc)?));
    }
    match read(alloc, bytes) {
        Ok(certificate) => Ok(certificate),
        Err(CertFault::BadLine { line }) => Err(Refusal::Reported(line_refusal(alloc, line)?)),
        Err(CertFault::OutOfMemory) => Err(Refusal::OutOfMemory),
    }
}

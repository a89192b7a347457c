//! The stages that both commands share: a specification and a certificate are read and tested.
ghost use Rattle.std.specs.Prelude.{◌≡◌, ℕ, ◌+◌, ◌≤◌, List, IfOk, IfErr, OnOk};
ghost use Rattle.certificate.specs.Certificates.{FitsHeader};
ghost use Rattle.certificate.specs.Checks.{checks};
ghost use Rattle.certificate.specs.Soundness.{IsSoundCertificate};
ghost use Rattle.certificate.specs.Verdicts.{FirstFails};
ghost use Rattle.certificate.specs.declared.reason.Verdict.TheVariants as verdict;
ghost use Rattle.command_words.specs.Fractions.{fraction_bits};
ghost use Rattle.call_stages.specs.Outcomes.{Never, IsWithin};
ghost use Rattle.call_stages.specs.Reports.{refusal_status, refusal_text};
ghost use Rattle.call_stages.specs.Stages.{files};
ghost use Rattle.certificate_commands.specs.CertificateStage.{IsCertificateIn};
ghost use Rattle.certificate_commands.specs.Tested.{tested_bits, test_ticks, IsValid, Tested};
ghost use Rattle.certificate_commands.specs.Tested.{ReadAndTested, Verified, AreVerified};

use crate::refusals::invalid_refusal;
use crate::stage::certificate_read;
use bz_model::steps::Steps;
use bz_outside::shelf::Shelf;
use bz_outside::word::Word;
use call_stages::at_fraction;
use call_stages::report::Refusal;
use call_stages::stages::specified;
use certificate::certificate::{Certificate, Header};
use certificate::reason::Verdict;
use certificate::verify::verify;
use command_words::command::FractionBits;
use std::alloc::{AllocError, Global};
use std::sync::ledger::Ledger;
use well_founded::examination::Founded;

/// Reads a specification and judges it, reads a certificate, and tests it against the
/// specification. What it gives is a valid certificate.
pub(crate) fn verified<S: Shelf, L: Ledger>(
    alloc: Global,
    file: &Word,
    cert: &Word,
    shelf: &mut S,
    steps: &mut Steps<L>,
) -> Result<(Founded, Certificate), Refusal>
    ensures ok { IfOk result (λ p. AreVerified (S.content shelf.old) file.now cert.now p.0 p.1) }
    ensures err { IfErr result (λ e. IsWithin (Verified
        (files (S.content shelf.old) (S.faults shelf.old) (S.faults shelf.new)) file.now cert.now
        (λ s c. Never)) (refusal_status e) (refusal_text e) steps.old steps.new) }
    ensures ticks { steps.new ≤ steps.old + test_ticks }
    ensures content { S.content shelf.new ≡ S.content shelf.old }
    ensures counts { (name : List ℕ) → S.faults shelf.old name ≤ S.faults shelf.new name }
{
    match specified(alloc, file, shelf) {
        Ok(founded) => match read_and_tested(alloc, &founded, cert, shelf, steps) {
            Ok(certificate) => Ok((founded, certificate)),
            Err(refusal) => Err(refusal),
        },
        Err(refusal) => Err(refusal),
    }
}

/// Reads a certificate from a file, and tests it against a specification.
///
/// In `err` the counts of failed reads before the call may be those of an earlier time.
fn read_and_tested<S: Shelf, L: Ledger>(
    alloc: Global,
    founded: &Founded,
    cert: &Word,
    shelf: &mut S,
    steps: &mut Steps<L>,
) -> Result<Certificate, Refusal>
    ensures found { IfOk result (IsCertificateIn (S.content shelf.old) cert.now) }
    ensures valid { IfOk result (IsValid founded.now) }
    ensures err { IfErr result (λ e. (before : List ℕ → ℕ)
        → ((name : List ℕ) → before name ≤ S.faults shelf.old name)
        → IsWithin (ReadAndTested (files (S.content shelf.old) before (S.faults shelf.new)) cert.now
        (λ s c. Never) founded.now) (refusal_status e) (refusal_text e) steps.old steps.new) }
    ensures ticks { steps.new ≤ steps.old + test_ticks }
    ensures content { S.content shelf.new ≡ S.content shelf.old }
    ensures counts { (name : List ℕ) → S.faults shelf.old name ≤ S.faults shelf.new name }
{
    match certificate_read(alloc, cert, shelf) {
        Ok(certificate) => match tested(alloc, founded, &certificate, steps) {
            Ok(()) => Ok(certificate),
            Err(refusal) => Err(refusal),
        },
        Err(refusal) => Err(refusal),
    }
}

/// Tests a certificate against a specification.
#[tactic(auto, using(crate::proofs::Testing::is_valid, crate::proofs::Testing::not_valid, crate::proofs::Testing::testing_lacks_memory))]
fn tested<L: Ledger>(
    alloc: Global,
    founded: &Founded,
    certificate: &Certificate,
    steps: &mut Steps<L>,
) -> Result<(), Refusal>
    requires header { FitsHeader certificate.now.header }
    ensures valid { OnOk result (IsValid founded.now certificate.now) }
    ensures err { IfErr result (λ e. Tested founded.now certificate.now Never
        (refusal_status e) (refusal_text e) test_ticks) }
    ensures ticks { steps.new ≤ steps.old + test_ticks }
{
    let fraction = bits_of(&certificate.header);
    match verdict_at(alloc, founded, certificate, fraction, steps) {
        Ok(Verdict::Valid) => Ok(()),
        Ok(Verdict::Invalid { line, reason }) => {
            let report = invalid_refusal(alloc, line, reason)?;
            Err(Refusal::Reported(report))
        }
        Err(_) => Err(Refusal::OutOfMemory),
    }
}

/// The fraction bits with which a certificate of this header is tested.
fn bits_of(header: &Header) -> FractionBits
    ensures { fraction_bits result ≡ tested_bits header.now }
{
    if header.version == 1 {
        return FractionBits::F48;
    }
    match header.fraction {
        40 => FractionBits::F40,
        52 => FractionBits::F52,
        _ => FractionBits::F48,
    }
}

/// The verdict on a certificate, with so many fraction bits.
fn verdict_at<L: Ledger>(
    alloc: Global,
    founded: &Founded,
    certificate: &Certificate,
    fraction: FractionBits,
    steps: &mut Steps<L>,
) -> Result<Verdict, AllocError>
    requires header { FitsHeader certificate.now.header }
    ensures verdict { IfOk result (FirstFails
        (checks founded.now (fraction_bits fraction) certificate.now)) }
    ensures sound { IfOk result (λ told. told ≡ verdict.Valid
        → IsSoundCertificate founded.now (fraction_bits fraction) certificate.now) }
    ensures ticks { steps.new ≤ steps.old + test_ticks }
{
    at_fraction!(fraction, verify[L](alloc, founded, certificate, steps))
}

//! The command `verify`: the verdict on a certificate.
ghost use Rattle.std.specs.Prelude.{◌≡◌, ℕ, ◌≤◌, List, IfOk, string_bytes};
ghost use Rattle.call_stages.specs.Ends.{EndsBy, output};
ghost use Rattle.call_stages.specs.Outcomes.{MaySay};
ghost use Rattle.call_stages.specs.Stages.{files};
ghost use Rattle.call_stages.specs.declared.status.Status.{Status};
ghost use Rattle.certificate_commands.specs.VerifyCommand.{valid_line, CarriesVerify};

use crate::tested::verified;
use bz_model::steps::Steps;
use bz_outside::shelf::Shelf;
use bz_outside::sink::Sink;
use bz_outside::word::Word;
use call_stages::report::{refused, written};
use call_stages::status::Status;
use std::alloc::{AllocError, Global};
use std::sync::ledger::Ledger;

/// Reads a specification and judges it, reads a certificate and tests it against the specification,
/// and prints how many entries it has, or the first test that fails.
pub fn verify<S: Shelf, K: Sink, L: Ledger>(
    alloc: Global,
    file: &Word,
    cert: &Word,
    shelf: &mut S,
    out: &mut K,
    steps: &mut Steps<L>,
) -> Status
    ensures ends { EndsBy (CarriesVerify
        (files (S.content shelf.old) (S.faults shelf.old) (S.faults shelf.new)) file.now cert.now)
        (output (K.written out.old) (K.written out.new) (K.faults out.old) (K.faults out.new)
        steps.old steps.new) result }
    ensures content { S.content shelf.new ≡ S.content shelf.old }
    ensures counts { (name : List ℕ) → S.faults shelf.old name ≤ S.faults shelf.new name }
    ensures writes { K.faults out.old ≤ K.faults out.new }
{
    match verified(alloc, file, cert, shelf, steps) {
        Ok((_founded, certificate)) => {
            let count = certificate.entries.items().len() as u64;
            counted(alloc, count, out)
        }
        Err(refusal) => refused(out, &refusal),
    }
}

/// Prints that a certificate with so many entries is valid.
fn counted<K: Sink>(alloc: Global, count: u64, out: &mut K) -> Status
    ensures ends { EndsBy (MaySay Status.Done (valid_line count) 0)
        (output (K.written out.old) (K.written out.new) (K.faults out.old) (K.faults out.new) 0 0)
        result }
    ensures writes { K.faults out.old ≤ K.faults out.new }
{
    match line_for_valid(alloc, count) {
        Ok(line) => written(out, Status::Done, line.as_bytes()),
        Err(_) => Status::OutOfMemory,
    }
}

/// The line of a valid certificate with so many entries.
fn line_for_valid(alloc: Global, count: u64) -> Result<String, AllocError>
    ensures { IfOk result (λ text. string_bytes text ≡ valid_line count) }
{
    format!(in alloc; "end valid entries {count}\n")
}

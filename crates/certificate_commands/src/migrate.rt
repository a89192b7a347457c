//! The command `migrate`: a valid certificate in version 2.
ghost use Rattle.std.specs.Prelude.{◌≡◌, ℕ, ◌≤◌, ◌++◌, List, IfOk, OnOk, flat_map};
ghost use Rattle.certificate.specs.Certificates.{FitsHeader, FitsClosing};
ghost use Rattle.call_stages.specs.Ends.{EndsBy, output};
ghost use Rattle.call_stages.specs.Outcomes.{MaySay};
ghost use Rattle.call_stages.specs.Stages.{files};
ghost use Rattle.call_stages.specs.declared.status.Status.{Status};
ghost use Rattle.certificate_commands.specs.MigrateCommand.{header_in_2, entry_text, migrated_text};
ghost use Rattle.certificate_commands.specs.MigrateCommand.{CarriesMigrate};

use crate::tested::verified;
use bz_model::steps::Steps;
use bz_outside::shelf::Shelf;
use bz_outside::sink::Sink;
use bz_outside::word::Word;
use call_stages::report::{refused, written};
use call_stages::status::Status;
use certificate::certificate::{CertEntry, Certificate, Header};
use certificate::digest::digest_of;
use certificate::write::{write_closing, write_entry, write_header};
use std::alloc::{AllocError, Global};
use std::sync::ledger::Ledger;
use well_founded::examination::Founded;

/// Reads a specification and judges it, reads a certificate and tests it against the specification,
/// and writes it in version 2, or prints the first test that fails.
///
/// Takes memory for the certificate, and for its text in version 2.
pub fn migrate<S: Shelf, K: Sink, L: Ledger>(
    alloc: Global,
    file: &Word,
    cert: &Word,
    shelf: &mut S,
    out: &mut K,
    steps: &mut Steps<L>,
) -> Status
    ensures ends { EndsBy (CarriesMigrate
        (files (S.content shelf.old) (S.faults shelf.old) (S.faults shelf.new)) file.now cert.now)
        (output (K.written out.old) (K.written out.new) (K.faults out.old) (K.faults out.new)
        steps.old steps.new) result }
    ensures content { S.content shelf.new ≡ S.content shelf.old }
    ensures counts { (name : List ℕ) → S.faults shelf.old name ≤ S.faults shelf.new name }
    ensures writes { K.faults out.old ≤ K.faults out.new }
{
    match verified(alloc, file, cert, shelf, steps) {
        Ok((founded, certificate)) => migrated(alloc, &founded, certificate, out),
        Err(refusal) => refused(out, &refusal),
    }
}

/// Writes a certificate in version 2.
fn migrated<K: Sink>(
    alloc: Global,
    founded: &Founded,
    certificate: Certificate,
    out: &mut K,
) -> Status
    requires header { FitsHeader certificate.header }
    requires closing { FitsClosing certificate.closing }
    ensures ends { EndsBy (MaySay Status.Done (migrated_text founded.now certificate) 0)
        (output (K.written out.old) (K.written out.new) (K.faults out.old) (K.faults out.new) 0 0)
        result }
    ensures writes { K.faults out.old ≤ K.faults out.new }
{
    match text_in_2(alloc, founded, certificate) {
        Ok(text) => written(out, Status::Done, text.as_slice()),
        Err(_) => Status::OutOfMemory,
    }
}

/// The text of a certificate in version 2.
#[tactic(auto, using(crate::proofs::Texts::in_2))]
fn text_in_2(
    alloc: Global,
    founded: &Founded,
    certificate: Certificate,
) -> Result<Vec<u8>, AllocError>
    requires header { FitsHeader certificate.header }
    requires closing { FitsClosing certificate.closing }
    ensures { IfOk result (λ text. text.items ≡ migrated_text founded.now certificate) }
{
    let Certificate {
        header,
        entries,
        closing,
    } = certificate;
    let header = in_version_2(alloc, founded, header)?;
    let mut text = write_header(alloc, &header)?;
    append_entries(alloc, &mut text, entries.items())?;
    let last = write_closing(alloc, &closing)?;
    text.extend_from_slice(last.as_slice())?;
    Ok(text)
}

/// A header in version 2: with a digest, and all else as it was.
fn in_version_2(alloc: Global, founded: &Founded, header: Header) -> Result<Header, AllocError>
    requires { FitsHeader header }
    ensures same { IfOk result (λ h. h ≡ header_in_2 founded.now header) }
    ensures fits { IfOk result FitsHeader }
{
    let Header {
        version: _,
        mode,
        digest,
        x,
        fraction,
        min,
        max,
        names,
        base,
    } = header;
    let digest = match digest {
        Some(digest) => digest,
        None => digest_of(founded.system())?,
    };
    Ok(Header {
        version: 2,
        mode,
        digest: Some(digest),
        x,
        fraction,
        min,
        max,
        names,
        base,
    })
}

/// Appends the lines of entries, in order.
fn append_entries(
    alloc: Global,
    text: &mut Vec<u8>,
    entries: &[CertEntry],
) -> Result<(), AllocError>
    ensures { OnOk result (text.new.items ≡ text.old.items
        ++ flat_map entry_text entries.now) }
{
    for entry in entries {
        let lines = write_entry(alloc, entry)?;
        text.extend_from_slice(lines.as_slice())?;
    }
    Ok(())
}

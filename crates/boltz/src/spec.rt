//! The command `spec`: a specification in its canonical form.
ghost use Rattle.std.specs.Prelude.{◌≡◌, ℕ, ◌≤◌, List, IfOk};
ghost use Rattle.call_stages.specs.Ends.{EndsBy, output};
ghost use Rattle.boltz.specs.SpecCommand.{CarriesSpec, SpecPrinted, spec_text};
ghost use Rattle.call_stages.specs.Stages.{files};

use bz_outside::shelf::Shelf;
use bz_outside::sink::Sink;
use bz_outside::word::Word;
use call_stages::format::spec_end;
use call_stages::report::{refused, written};
use call_stages::stages::specified;
use call_stages::status::Status;
use class_system::system::System;
use std::alloc::{AllocError, Global};
use well_founded::examination::Founded;

/// Reads a specification, judges it, and prints it in its canonical form.
pub fn spec<S: Shelf, K: Sink>(alloc: Global, file: &Word, shelf: &mut S, out: &mut K) -> Status
    ensures ends { (ticks : ℕ)
        → EndsBy
        (CarriesSpec (files (S.content shelf.old) (S.faults shelf.old) (S.faults shelf.new))
        file.now) (output (K.written out.old) (K.written out.new) (K.faults out.old)
        (K.faults out.new) ticks ticks) result }
    ensures content { S.content shelf.new ≡ S.content shelf.old }
    ensures counts { (name : List ℕ) → S.faults shelf.old name ≤ S.faults shelf.new name }
    ensures writes { K.faults out.old ≤ K.faults out.new }
{
    match specified(alloc, file, shelf) {
        Ok(founded) => printed(alloc, &founded, out),
        Err(refusal) => refused(out, &refusal),
    }
}

/// Prints a specification in its canonical form.
fn printed<K: Sink>(alloc: Global, founded: &Founded, out: &mut K) -> Status
    ensures ends { (ticks : ℕ)
        → EndsBy (SpecPrinted founded.now)
        (output (K.written out.old) (K.written out.new) (K.faults out.old) (K.faults out.new) ticks
        ticks) result }
    ensures writes { K.faults out.old ≤ K.faults out.new }
{
    match spec_lines(alloc, founded.system()) {
        Ok(text) => written(out, Status::Done, text.as_slice()),
        Err(_) => Status::OutOfMemory,
    }
}

/// A specification in its canonical form, and the closing line.
fn spec_lines(alloc: Global, system: &System) -> Result<Vec<u8>, AllocError>
    ensures { IfOk result (λ text. text.items ≡ spec_text system.now) }
{
    let mut text = system.to_text()?;
    let end = spec_end(alloc, system.class_count(), system.node_count())?;
    text.extend_from_slice(end.as_bytes())?;
    Ok(text)
}
